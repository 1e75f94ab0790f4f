//! The limit that a program without code exceeds.

ghost use Rattle.std.specs.Prelude.{◌≡◌, ◌<◌, ◌≤◌, IfOk};
ghost use Rattle.cw_gen.specs.Excess.{IsExcess};
ghost use Rattle.cw_gen.specs.Generates.{source_of};

use crate::sites::sites_of;
use cw_loops::Core;
use cw_model::limits::MOST_CALL_STATEMENTS;
use std::alloc::{AllocError, Global};

/// Represents the limit that a program exceeds if `generate` rejects it for its size.
#[derive(Clone, Copy)]
pub enum Excess {
    /// The number of call statements, which is given.
    CallStatements(usize),
    /// The number of instructions; the number of call statements keeps its limit.
    Instructions,
}

/// Returns the limit that a program exceeds if `generate` rejects it for its size: `CallStatements` with their number
/// exactly if there are more than 65,535 call statements, otherwise `Instructions`, which this function does not
/// count.
///
/// # Errors
///
/// Returns an error if memory runs out.
pub fn excess_of(alloc: Global, core: &Core) -> Result<Excess, AllocError>
    ensures { IfOk result (IsExcess (source_of core.now)) }
{
    let sites = sites_of(alloc, &core.source.typed.tree.functions)?;
    let count = sites.len();
    if count > MOST_CALL_STATEMENTS {
        return Ok(Excess::CallStatements(count));
    }
    Ok(Excess::Instructions)
}
