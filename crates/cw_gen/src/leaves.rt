//! Generates the code of the iterations of a loop.

ghost use Rattle.std.specs.Prelude.{◌≡◌, ◌≤◌, [], length};
ghost use Rattle.cw_gen.specs.Written as written;
ghost use Rattle.cw_gen.specs.Written.{Adds};
ghost use Rattle.cw_loops.specs.Small.{IsSmallLoop};
ghost use Rattle.cw_loops.specs.View as view;

use crate::array_places::Places;
use crate::jumps::{distance, hole, land, put, row};
use crate::statements::inside;
use cw_code::code::{BlockKind, Instr};
use cw_loops::tree::Loop;
use cw_model::syntax::Operator;
use std::alloc::AllocError;

/// Appends the code of a leaf: its variable goes from the lower end of the range to the upper end.
///
/// # Errors
///
/// Returns an error if memory runs out.
pub(crate) fn leaf(
    instrs: &mut Vec<Instr>,
    first: usize,
    places: &Places,
    l: &Loop,
) -> Result<(), AllocError>
    requires small { IsSmallLoop (view.loop_of l.now) }
    requires places { places.now ≡ [] }
    ensures { Adds instrs.old instrs.new (written.written_leaf first (view.loop_of l.now)) result }
{
    let variable = l.captured + 2;
    row(instrs, &[Instr::Load(0), Instr::Store(variable)])?;
    let start = instrs.len();
    let less = Instr::Binary(Operator::Less, l.line);
    row(instrs, &[Instr::Load(variable), Instr::Load(1), less])?;
    turn(instrs, first, places, start, l)?;
    Ok(())
}

// Appends the code of one iteration, which jumps back to its test; the test begins at `start`.
fn turn(
    instrs: &mut Vec<Instr>,
    first: usize,
    places: &Places,
    start: usize,
    l: &Loop,
) -> Result<(), AllocError>
    requires places { places.now ≡ [] }
    requires small { IsSmallLoop (view.loop_of l.now) }
    requires start { start ≤ length instrs.old.items }
    ensures { Adds instrs.old instrs.new (written.leaf_turn start instrs.old first l.now) result }
{
    let test = hole(instrs)?;
    inside(instrs, first, places, BlockKind::Scope, &l.body)?;
    step(instrs, l)?;
    let n = distance(instrs.len() - start);
    put(instrs, Instr::GoBack(n))?;
    land(instrs, test);
    Ok(())
}

// Appends the code that increments the variable.
fn step(instrs: &mut Vec<Instr>, l: &Loop) -> Result<(), AllocError>
    requires { IsSmallLoop (view.loop_of l.now) }
    ensures { Adds instrs.old instrs.new (written.written_step (view.loop_of l.now)) result }
{
    let variable = l.captured + 2;
    let plus = Instr::Binary(Operator::Plus, l.line);
    row(
        instrs,
        &[
            Instr::Load(variable),
            Instr::Push(1),
            plus,
            Instr::Store(variable),
        ],
    )
}
