//! Generates the code of an accepted program.

ghost use Rattle.std.specs.Prelude.{◌≡◌, true};
ghost use Rattle.cw_loops.specs.SourceLike.{is_source_like};
ghost use Rattle.cw_model.specs.Sites.{are_numbered, call_sites};
ghost use Rattle.cw_gen.specs.Generates.{Answers, source_of};

use crate::sites::sites_of;
use crate::whole::emit;
use cw_code::code::Code;
use cw_loops::Core;
use cw_loops::laws::{core_is_lowered, core_is_small, lowering_keeps_answers, owned_is_lowerable};
use cw_model::laws::while_is_least;
use cw_model::limits::{MOST_CALL_STATEMENTS, MOST_INSTRUCTIONS};
use cw_text::{Fault, Place};
use std::alloc::Global;

/// Generates the code of a program with lowered loops. On all 64-bit arguments and within all limits, the code has
/// the serial answer of the source, and it never gets stuck. It has the source's call sites, reducers and tags, by
/// position. A call refers to the list of array slots at the number of its site; a call of a loop's function refers
/// to one of the three lists of that function.
///
/// The source must have names and numbers of a text, and its call statements must be numbered from 1 by position, as
/// the parser numbers them.
///
/// # Errors
///
/// Returns `Size`, at line 1, exactly if the static size exceeds 1,048,576 or the number of call statements exceeds
/// 65,535, and `Memory` if memory runs out.
pub fn generate(alloc: Global, core: &Core) -> Result<Code, Fault>
    requires source_like { is_source_like (source_of core.now) ≡ true }
    requires numbered { are_numbered 0 (call_sites (source_of core.now)) ≡ true }
    ensures { Answers (source_of core.now) result }
{
    while_is_least();
    owned_is_lowerable();
    lowering_keeps_answers();
    core_is_lowered(core);
    core_is_small(core);
    let sites = sites_of(alloc, &core.source.typed.tree.functions)?;
    if sites.len() > MOST_CALL_STATEMENTS {
        return Err(Fault::Size(Place { line: 1 }));
    }
    let code = emit(alloc, core, sites)?;
    if code.instrs.len() > MOST_INSTRUCTIONS {
        return Err(Fault::Size(Place { line: 1 }));
    }
    Ok(code)
}
