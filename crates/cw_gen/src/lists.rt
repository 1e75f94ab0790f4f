//! The lists of the array slots whose arrays a call takes.
//!
//! The list with number 0 belongs to no call and is empty. The list of a call site has the number of the site. From
//! the number `first` on, each function has three lists; for the function of a loop they are the list of its first
//! call, of its calls on left halves, and of its calls on right halves.

ghost use Rattle.std.specs.Prelude.{◌≡◌, ◌+◌, ◌<◌, ◌^◌, [], length, map, replicate, slice_set, IfOk};
ghost use Rattle.cw_gen.specs.Emit as spec;
ghost use Rattle.cw_gen.specs.Marks.{array_at};
ghost use Rattle.cw_gen.specs.Written.{Puts, left_slots, lists_of, put_block, put_lists_with};
ghost use Rattle.cw_gen.specs.Written.{put_stmt, put_text, right_slots, slots_passed, texts_of};
ghost use Rattle.cw_loops.specs.Small.{AreSmallLoops, IsSmallLoop};
ghost use Rattle.cw_loops.specs.View as view;

use crate::array_places::Places;
use crate::jumps::distance;
use crate::marks::places_of;
use cw_loops::tree::{Argument, Line, Loop, Stmt};
use cw_model::syntax::CallKind;
use cw_tree::resolved::Function;
use std::alloc::{AllocError, Global};

/// Returns the number of the list of the first call of a loop's function.
pub(crate) fn whole_list(first: usize, callee: u32) -> u32
    ensures { result ≡ spec.whole_list first callee }
{
    distance(first.saturating_add(callee as usize * 3))
}

/// Returns the number of the list of a loop function's calls on one half.
pub(crate) fn half_list(first: usize, kind: CallKind, callee: u32) -> u32
    ensures { result ≡ spec.half_list first kind callee }
{
    let at = first.saturating_add(callee as usize * 3);
    match kind {
        CallKind::Spawned => distance(at.saturating_add(1)),
        CallKind::Plain => distance(at.saturating_add(2)),
    }
}

/// Returns this number of empty lists.
///
/// # Errors
///
/// Returns an error if memory runs out.
pub(crate) fn no_lists<T: Drop>(alloc: Global, count: usize) -> Result<Vec<Vec<T>>, AllocError>
    ensures { IfOk result (λ lists. lists_of lists.items ≡ replicate count []) }
{
    let mut lists = Vec::new(alloc);
    for _number in 0..count {
        lists.push(Vec::new(alloc))?;
    }
    Ok(lists)
}

/// Stores a list at its number. Ignores a number past the end.
pub(crate) fn put_list<T: Drop>(lists: &mut Vec<Vec<T>>, number: u32, slots: Vec<T>)
    ensures { lists_of lists.new.items ≡ slice_set (lists_of lists.old.items) number slots.items }
{
    let at = number as usize;
    if at < lists.len() {
        lists[at] = slots;
    }
}

/// Stores the lists of the source functions, each with its body.
///
/// # Errors
///
/// Returns an error if memory runs out.
pub(crate) fn lists_of_bodies(
    alloc: Global,
    first: usize,
    functions: &[Function],
    bodies: &[Vec<Line>],
    lists: &mut Vec<Vec<u32>>,
) -> Result<(), AllocError>
    ensures { Puts lists.old lists.new (put_lists_with first functions.now bodies.now) result }
{
    for (f, body) in functions.iter().zip(bodies) {
        let places = places_of(alloc, &f.params)?;
        lists_in(alloc, first, &places, body, lists)?;
    }
    Ok(())
}

/// Stores the lists of the functions of loops; the first of them has this index.
///
/// # Errors
///
/// Returns an error if memory runs out.
pub(crate) fn lists_of_loops(
    alloc: Global,
    first: usize,
    index: u32,
    loops: &[Loop],
    lists: &mut Vec<Vec<u32>>,
) -> Result<(), AllocError>
    requires small { AreSmallLoops (map view.loop_of loops.now) }
    requires room { index + length loops.now < 2 ^ 32 }
    ensures { Puts lists.old lists.new (spec.put_lists_of first (texts_of index loops.now)) result }
{
    let places = Places::none(alloc);
    let mut at = index;
    for l in loops {
        lists_of_loop(alloc, first, &places, at, l, lists)?;
        at += 1;
    }
    Ok(())
}

// Stores the lists of a loop's body and of its calls on both halves.
fn lists_of_loop(
    alloc: Global,
    first: usize,
    places: &Places,
    index: u32,
    l: &Loop,
    lists: &mut Vec<Vec<u32>>,
) -> Result<(), AllocError>
    requires places { places.now ≡ [] }
    requires small { IsSmallLoop (view.loop_of l.now) }
    ensures { Puts lists.old lists.new (put_text first index l.now) result }
{
    lists_in(alloc, first, places, &l.body, lists)?;
    let left = lefts(alloc, l)?;
    put_list(lists, half_list(first, CallKind::Spawned, index), left);
    let right = rights(alloc, l)?;
    put_list(lists, half_list(first, CallKind::Plain, index), right);
    Ok(())
}

// Returns the slots of the left part of each array of a loop.
fn lefts(alloc: Global, l: &Loop) -> Result<Vec<u32>, AllocError>
    requires { IsSmallLoop (view.loop_of l.now) }
    ensures { IfOk result (λ slots. slots.items ≡ left_slots l.now.over) }
{
    let mut slots = Vec::new(alloc);
    for array in 0..l.over {
        slots.push(l.over + 2 * array)?;
    }
    Ok(slots)
}

// Returns the slots of the right part of each array of a loop.
fn rights(alloc: Global, l: &Loop) -> Result<Vec<u32>, AllocError>
    requires { IsSmallLoop (view.loop_of l.now) }
    ensures { IfOk result (λ slots. slots.items ≡ right_slots l.now.over) }
{
    let mut slots = Vec::new(alloc);
    for array in 0..l.over {
        slots.push(l.over + 2 * array + 1)?;
    }
    Ok(slots)
}

// Stores the lists of a block.
#[cycle(lists)]
fn lists_in(
    alloc: Global,
    first: usize,
    places: &Places,
    lines: &[Line],
    lists: &mut Vec<Vec<u32>>,
) -> Result<(), AllocError>
    ensures { Puts lists.old lists.new (put_block first places.now lines.now) result }
{
    for line in lines {
        lists_at(alloc, first, places, &line.stmt, lists)?;
    }
    Ok(())
}

// Stores the lists of a statement.
#[cycle(lists)]
fn lists_at(
    alloc: Global,
    first: usize,
    places: &Places,
    stmt: &Stmt,
    lists: &mut Vec<Vec<u32>>,
) -> Result<(), AllocError>
    ensures { Puts lists.old lists.new (put_stmt first places.now stmt.now) result }
{
    match stmt {
        Stmt::Call(c) => {
            let slots = slots_in(alloc, places, &c.arguments)?;
            put_list(lists, c.site, slots);
            Ok(())
        }
        Stmt::Begin(b) => {
            let slots = numbers_in(alloc, places, &b.over)?;
            put_list(lists, whole_list(first, b.callee), slots);
            Ok(())
        }
        Stmt::If(_, b) | Stmt::While(_, b) => lists_in(alloc, first, places, b, lists),
        Stmt::IfElse(_, b, c) => {
            lists_in(alloc, first, places, b, lists)?;
            lists_in(alloc, first, places, c, lists)
        }
        Stmt::Scope(b) => lists_in(alloc, first, places, b, lists),
        Stmt::Cut(_, b) => lists_in(alloc, first, places, b, lists),
        Stmt::Region(_, b) => lists_in(alloc, first, places, b, lists),
        Stmt::Declare(_, _)
        | Stmt::DeclareArray(_, _)
        | Stmt::Assign(_, _)
        | Stmt::AssignElement(_, _, _)
        | Stmt::Reduce(_, _, _)
        | Stmt::Sync
        | Stmt::Print(_)
        | Stmt::Return(_) => Ok(()),
    }
}

// Returns the numbers of array slots in the code.
fn numbers_in(alloc: Global, places: &Places, slots: &[u32]) -> Result<Vec<u32>, AllocError>
    ensures { IfOk result (λ numbers. numbers.items ≡ map (array_at places.now) slots.now) }
{
    let mut numbers = Vec::new(alloc);
    for slot in slots {
        numbers.push(places.array(*slot))?;
    }
    Ok(numbers)
}

// Returns the slots of the arrays among arguments that are given away.
fn slots_in(alloc: Global, places: &Places, arguments: &[Argument]) -> Result<Vec<u32>, AllocError>
    ensures { IfOk result (λ slots. slots.items ≡ slots_passed places.now arguments.now) }
{
    let mut slots = Vec::new(alloc);
    for argument in arguments {
        if let Argument::Array(slot) = argument {
            slots.push(places.array(*slot))?;
        }
    }
    Ok(slots)
}
