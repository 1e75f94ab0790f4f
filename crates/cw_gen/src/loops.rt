//! Generates the code of the function of a loop from its numbers and its body.

ghost use Rattle.std.specs.Prelude.{◌≡◌, []};
ghost use Rattle.cw_gen.specs.Emit as spec;
ghost use Rattle.cw_gen.specs.Emit.{emitted_function};
ghost use Rattle.cw_gen.specs.Written as written;
ghost use Rattle.cw_gen.specs.Written.{Adds, cuts_of, text_of, written_half, written_node};
ghost use Rattle.cw_loops.specs.Expanded.{numbers};
ghost use Rattle.cw_loops.specs.Small.{IsSmallLoop};
ghost use Rattle.cw_loops.specs.View as view;

use crate::array_places::Places;
use crate::jumps::{hole, land, land_past, put, row};
use crate::leaves::leaf;
use crate::lists::half_list;
use crate::slots::{arrays_in_block, ints_in_block};
use cw_code::code::{Func, Halves, Inner, Instr};
use cw_loops::tree::Loop;
use cw_model::syntax::{CallKind, Operator};
use std::alloc::AllocError;

/// Appends the code of the function of a loop; `index` is the index of the function.
///
/// # Errors
///
/// Returns an error if memory runs out.
pub(crate) fn loop_function(
    instrs: &mut Vec<Instr>,
    first: usize,
    places: &Places,
    index: u32,
    l: &Loop,
) -> Result<(), AllocError>
    requires small { IsSmallLoop (view.loop_of l.now) }
    requires places { places.now ≡ [] }
    ensures { Adds instrs.old instrs.new (emitted_function first (text_of index l.now)) result }
{
    test(instrs, l)?;
    let fits = hole(instrs)?;
    leaf(instrs, first, places, l)?;
    let end = hole(instrs)?;
    land(instrs, fits);
    node(instrs, first, index, l)?;
    land_past(instrs, end, false);
    put(instrs, Instr::Return)?;
    Ok(())
}

/// Returns the table entry of the function of a loop, whose instructions are between `start` and `end`.
pub(crate) fn loop_func(start: usize, end: usize, l: &Loop) -> Func
    requires { IsSmallLoop (view.loop_of l.now) }
    ensures { result ≡ written.written_func start end (view.loop_of l.now) }
{
    let captured = l.captured as usize;
    let over = l.over as usize;
    let ints = ints_in_block(captured + 3, &l.body);
    let arrays = arrays_in_block(over, &l.body);
    Func {
        start,
        end,
        gives_int: false,
        params: captured + 2,
        slots: ints.max(captured + 3),
        array_params: over,
        arrays: arrays.max(over * 3),
        readers: 0,
    }
}

// Appends the test whether the range is a leaf.
fn test(instrs: &mut Vec<Instr>, l: &Loop) -> Result<(), AllocError>
    requires { IsSmallLoop (view.loop_of l.now) }
    ensures { Adds instrs.old instrs.new (written.written_test (view.loop_of l.now)) result }
{
    let minus = Instr::Binary(Operator::Minus, l.line);
    let at_most = Instr::Binary(Operator::AtMost, l.line);
    row(
        instrs,
        &[
            Instr::Load(1),
            Instr::Load(0),
            minus,
            Instr::Push(l.grain as i64),
            at_most,
        ],
    )
}

// Appends the code of a node: its middle, a cut of each array at the middle, and a call on each half.
fn node(instrs: &mut Vec<Instr>, first: usize, index: u32, l: &Loop) -> Result<(), AllocError>
    requires { IsSmallLoop (view.loop_of l.now) }
    ensures { Adds instrs.old instrs.new (written_node first index (view.loop_of l.now)) result }
{
    let middle = l.captured + 2;
    split(instrs, l)?;
    cuts(instrs, l)?;
    let left = half_of(first, CallKind::Spawned, index);
    half(instrs, CallKind::Spawned, left, 0, middle, l)?;
    let right = half_of(first, CallKind::Plain, index);
    half(instrs, CallKind::Plain, right, middle, 1, l)?;
    ends(instrs, l.over)?;
    Ok(())
}

// Appends the code that stores the middle of the range in its slot.
fn split(instrs: &mut Vec<Instr>, l: &Loop) -> Result<(), AllocError>
    requires { IsSmallLoop (view.loop_of l.now) }
    ensures { Adds instrs.old instrs.new (written.written_middle (view.loop_of l.now)) result }
{
    let middle = l.captured + 2;
    let minus = Instr::Binary(Operator::Minus, l.line);
    let divide = Instr::Binary(Operator::Divide, l.line);
    let plus = Instr::Binary(Operator::Plus, l.line);
    row(
        instrs,
        &[
            Instr::Load(0),
            Instr::Load(1),
            Instr::Load(0),
            minus,
            Instr::Push(2),
            divide,
            plus,
            Instr::Store(middle),
        ],
    )
}

// Appends the cuts of the arrays at the middle.
fn cuts(instrs: &mut Vec<Instr>, l: &Loop) -> Result<(), AllocError>
    requires { IsSmallLoop (view.loop_of l.now) }
    ensures { Adds instrs.old instrs.new (cuts_of l.now) result }
{
    let middle = l.captured + 2;
    let minus = Instr::Binary(Operator::Minus, l.line);
    for array in 0..l.over {
        let left = l.over + 2 * array;
        let halves = Halves {
            array,
            left,
            right: left + 1,
        };
        let cut = Instr::Cut(halves, l.line);
        row(instrs, &[Instr::Load(middle), Instr::Load(0), minus, cut])?;
    }
    Ok(())
}

// Appends the end of each cut.
fn ends(instrs: &mut Vec<Instr>, over: u32) -> Result<(), AllocError>
    ensures { Adds instrs.old instrs.new (written.written_ends (numbers 0 over)) result }
{
    for _array in 0..over {
        put(instrs, Instr::EndCut)?;
    }
    Ok(())
}

// Returns the operand of the instruction that calls the function on one half.
fn half_of(first: usize, kind: CallKind, index: u32) -> Inner
    ensures { result ≡ spec.half_of first kind index }
{
    Inner {
        function: index,
        passed: half_list(first, kind, index),
    }
}

// Appends a call on the range between two ends, with the captured integers of the loop.
fn half(
    instrs: &mut Vec<Instr>,
    kind: CallKind,
    callee: Inner,
    from: u32,
    to: u32,
    l: &Loop,
) -> Result<(), AllocError>
    requires { IsSmallLoop (view.loop_of l.now) }
    ensures { Adds instrs.old instrs.new (written_half kind callee from to l.now.captured) result }
{
    row(instrs, &[Instr::Load(from), Instr::Load(to)])?;
    captured(instrs, l)?;
    put(instrs, Instr::Recur(kind, callee))?;
    Ok(())
}

// Appends instructions that load the captured integers of the loop.
fn captured(instrs: &mut Vec<Instr>, l: &Loop) -> Result<(), AllocError>
    requires { IsSmallLoop (view.loop_of l.now) }
    ensures { Adds instrs.old instrs.new (spec.emitted_loads (numbers 2 l.now.captured)) result }
{
    for number in 0..l.captured {
        put(instrs, Instr::Load(number + 2))?;
    }
    Ok(())
}
