//! The lowering of a whole program.

ghost use Rattle.std.specs.Prelude.{◌≡◌, map, IfOk, MatchResult};
ghost use Rattle.cw_tree.specs.ResolvedView.{param_of, program_of};
ghost use Rattle.cw_loops.specs.Cores.{IsCoreOf};
ghost use Rattle.cw_loops.specs.Lowers.{arrays_from};
ghost use Rattle.cw_loops.specs.Made.{AreBodies};
ghost use Rattle.cw_loops.specs.Seen.{WhyNotLowered};

use crate::bodies::{Here, block};
use crate::limits::limits;
use crate::moves::{nothing_moved, slot};
use crate::program::Core;
use crate::tree::Tree;
use cw_model::syntax::NameKind;
use cw_own::Owned;
use cw_text::{Fault, Place};
use cw_tree::laws::resolved_is_fitting;
use cw_tree::resolved::{Function, Param};
use std::alloc::{AllocError, Global};

/// Lowers each `cilk_for` of the program to a function that halves its range. The result represents the functions of
/// the `lowered` program, with a slot for each local and an index for each function: the functions of the source
/// first, then the functions of the loops, in which inner loops precede outer ones. So it has the answers of the
/// source, by the law `lowering_keeps_answers`. It keeps its source.
///
/// # Errors
///
/// Returns `Size` exactly if the program has more than 4,096 loops, at the line of the 4,097th by place, before it
/// lowers anything, and `Memory` if memory runs out. Drops the program in each of these cases.
pub fn lower(alloc: Global, owned: Owned) -> Result<Core, Fault>
    ensures { MatchResult result (IsCoreOf owned) (WhyNotLowered (program_of owned.typed.tree)) }
{
    let beyond = limits(&owned.typed.tree);
    match beyond.line {
        Some(line) => Err(Fault::Size(Place { line })),
        None => {
            let tree = functions(alloc, &owned.typed.tree.functions)?;
            resolved_is_fitting();
            Ok(Core {
                source: owned,
                tree,
            })
        }
    }
}

// Lowers the bodies of functions and the loops in them.
fn functions(alloc: Global, functions: &[Function]) -> Result<Tree, AllocError>
    ensures { IfOk result (AreBodies functions.now) }
{
    let count = slot(functions.len());
    let mut bodies = Vec::new(alloc);
    let mut loops = Vec::new(alloc);
    for function in functions {
        let here = Here {
            functions: count,
            moves: nothing_moved(),
            arrays: arrays_taken(&function.params),
        };
        let body = block(alloc, here, &function.body, &mut loops)?;
        bodies.push(body)?;
    }
    Ok(Tree { bodies, loops })
}

// Returns the number of parameters that are arrays.
fn arrays_taken(params: &[Param]) -> u32
    ensures { result ≡ arrays_from 0 (map param_of params.now) }
{
    let mut arrays: u32 = 0;
    for param in params {
        match param.kind {
            NameKind::Integer => {}
            NameKind::Array | NameKind::Const => arrays = arrays.saturating_add(1),
        }
    }
    arrays
}
