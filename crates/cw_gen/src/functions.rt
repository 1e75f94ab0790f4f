//! Generates the code of the functions of a tree: the functions of the source first, and then the functions of the
//! loops.

ghost use Rattle.std.specs.Prelude.{◌+◌, ◌<◌, ◌^◌, [], ◌∷◌, length, map};
ghost use Rattle.cw_gen.specs.Written.{Adds, AddsFuncs, code_of, code_with, func_of};
ghost use Rattle.cw_gen.specs.Written.{loop_code, loop_funcs};
ghost use Rattle.cw_loops.specs.Small.{AreSmallLoops};
ghost use Rattle.cw_loops.specs.View as view;

use crate::array_places::Places;
use crate::jumps::put;
use crate::loops::{loop_func, loop_function};
use crate::marks::places_of;
use crate::slots::{
    arrays_in_block, count_arrays, count_ints, count_readers, count_taken, ints_in_block,
};
use crate::statements::block;
use cw_code::code::{Func, Instr};
use cw_loops::tree::{Line, Loop};
use cw_tree::resolved::Function;
use std::alloc::{AllocError, Global};

/// Appends the code of the functions of the source, each with its body.
///
/// # Errors
///
/// Returns an error if memory runs out.
pub(crate) fn functions_with(
    alloc: Global,
    instrs: &mut Vec<Instr>,
    funcs: &mut Vec<Func>,
    first: usize,
    functions: &[Function],
    bodies: &[Vec<Line>],
) -> Result<(), AllocError>
    ensures instrs { Adds instrs.old instrs.new (code_with first functions.now bodies.now) result }
    ensures funcs { AddsFuncs first instrs.old funcs.old funcs.new functions.now bodies.now result }
{
    for (f, body) in functions.iter().zip(bodies) {
        function_with(alloc, instrs, funcs, first, f, body)?;
    }
    Ok(())
}

/// Appends the code of the functions of loops; the first function has the index `index`.
///
/// # Errors
///
/// Returns an error if memory runs out.
pub(crate) fn loop_functions(
    alloc: Global,
    instrs: &mut Vec<Instr>,
    funcs: &mut Vec<Func>,
    first: usize,
    index: u32,
    loops: &[Loop],
) -> Result<(), AllocError>
    requires small { AreSmallLoops (map view.loop_of loops.now) }
    requires room { index + length loops.now < 2 ^ 32 }
    ensures instrs { Adds instrs.old instrs.new (loop_code first index loops.now) result }
    ensures funcs { Adds funcs.old funcs.new (loop_funcs first instrs.old index loops.now) result }
{
    let places = Places::none(alloc);
    let mut at = index;
    for l in loops {
        let start = instrs.len();
        loop_function(instrs, first, &places, at, l)?;
        funcs.push(loop_func(start, instrs.len(), l))?;
        at += 1;
    }
    Ok(())
}

// Appends the code of a function of the source with its body. A function that returns no integer ends with a return.
fn function_with(
    alloc: Global,
    instrs: &mut Vec<Instr>,
    funcs: &mut Vec<Func>,
    first: usize,
    f: &Function,
    body: &[Line],
) -> Result<(), AllocError>
    ensures instrs { Adds instrs.old instrs.new (code_of first f.now body.now) result }
    ensures funcs { Adds funcs.old funcs.new (func_of first instrs.old f.now body.now ∷ []) result }
{
    let start = instrs.len();
    let places = places_of(alloc, &f.params)?;
    block(instrs, first, &places, body)?;
    if !f.gives_int {
        put(instrs, Instr::Return)?;
    }
    let params = count_ints(&f.params);
    let readers = count_readers(&f.params);
    let arrays = arrays_in_block(count_arrays(&f.params), body);
    funcs.push(Func {
        start,
        end: instrs.len(),
        gives_int: f.gives_int,
        params,
        slots: ints_in_block(params, body),
        array_params: count_taken(&f.params),
        arrays: arrays.saturating_sub(readers),
        readers,
    })?;
    Ok(())
}
