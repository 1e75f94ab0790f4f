//! The steps of paths, in one list: a path is a part of it, and has no order.

ghost use Rattle.std.specs.Prelude.{◌≡◌, ◌+◌, ◌-◌, ◌^◌, ◌<◌, ◌≤◌, true, [], ◌∷◌, ◌++◌, length, OnErr, OnOk};
ghost use Rattle.std.specs.Vec.{vec_len, vec_capacity};
ghost use Rattle.cw_sites.specs.StepSums.{AddsSteps, AsBelow, ClosesUp, CutsOut, GrowsSteps, HasSteps, IsCutOut, IsMovedDown, StaysBelow, StaysBelowWith, WritesTwice, WritesWithin};

use std::alloc::AllocError;

/// A number of instructions of a site.
#[derive(Clone, Copy, Debug)]
pub struct Steps {
    pub site: u32,
    pub count: u64,
}

/// Adds `count` instructions of a site to the path that begins at `start`, and changes nothing before it. If the path
/// has steps of the site at `place`, they grow; otherwise new steps are added at the end, and their place is
/// returned.
///
/// # Errors
///
/// Returns an `AllocError` if memory runs out.
#[inline(always)]
pub fn add_steps(
    steps: &mut Vec<Steps>,
    start: usize,
    place: usize,
    site: u32,
    count: u64,
) -> Result<Option<usize>, AllocError>
    ensures below { AsBelow start steps.old.items steps.new.items }
    ensures all { OnOk result (AddsSteps start site count steps.old.items steps.new.items) }
    ensures longer { length steps.old.items ≤ length steps.new.items }
    ensures short { length steps.new.items ≤ length steps.old.items + 1 }
    ensures kept { StaysBelowWith site steps.old.items steps.new.items }
{
    if has_steps(steps, start, place, site) {
        grow_steps(steps, place, count);
        return Ok(None);
    }
    let len = steps.len();
    put(steps, Steps { site, count })?;
    Ok(Some(len))
}

/// Returns whether the path that begins at `start` has steps of the site at `place`.
#[inline(always)]
pub fn has_steps(steps: &Vec<Steps>, start: usize, place: usize, site: u32) -> bool
    ensures { result ≡ true → HasSteps start place site steps.now.items }
{
    // In this order, each of the three tests is one comparison and one branch.
    if place < steps.len() {
        if steps[place].site == site {
            return place >= start;
        }
    }
    false
}

/// Adds `count` instructions to the steps at `place`.
#[inline(always)]
pub fn grow_steps(steps: &mut Vec<Steps>, place: usize, count: u64)
    requires { place < length steps.old.items }
    ensures below { AsBelow place steps.old.items steps.new.items }
    ensures all { GrowsSteps place count steps.old.items steps.new.items }
    ensures as_long { length steps.new.items ≡ length steps.old.items }
    ensures kept { StaysBelow steps.old.items steps.new.items }
{
    let one = &mut steps[place];
    one.count = one.count.wrapping_add(count);
}

// Appends these steps.
#[inline(always)]
fn put(steps: &mut Vec<Steps>, one: Steps) -> Result<(), AllocError>
    ensures put { OnOk result (steps.new.items ≡ steps.old.items ++ one ∷ []) }
    ensures same { OnErr result (steps.new.items ≡ steps.old.items) }
{
    if steps.len() >= steps.capacity() {
        make_room(steps)?;
    }
    steps.push_reserved(one);
    Ok(())
}

// Makes room for more steps. It is out of line, so that the caller keeps nothing in memory for it.
#[cold]
#[inline(never)]
fn make_room(steps: &mut Vec<Steps>) -> Result<(), AllocError>
    ensures same { steps.new.items ≡ steps.old.items }
    ensures room { OnOk result (vec_len steps.new < vec_capacity steps.new) }
{
    steps.reserve(1)?;
    Ok(())
}

/// Removes a part of the list: the last steps move into the gap, as many as the part had or as are after it. So at
/// most one step moves for each step that is removed.
#[inline(always)]
pub fn take_out(steps: &mut Vec<Steps>, from: usize, to: usize)
    ensures cut { CutsOut from to steps.old.items steps.new.items }
    ensures written { WritesWithin from to steps.old.items steps.new.items }
    ensures kept { StaysBelow steps.old.items steps.new.items }
{
    if from >= to || to > steps.len() {
        return;
    }
    // There is nothing after the part.
    if to == steps.len() {
        steps.truncate(from);
        return;
    }
    // One step: the path of a small child, in most cases.
    if to - from == 1 {
        let _gone = steps.swap_remove(from);
        return;
    }
    cut(steps, from, to);
}

#[inline(never)]
fn cut(steps: &mut Vec<Steps>, from: usize, to: usize)
    requires order { from ≤ to }
    requires within { to ≤ length steps.old.items }
    ensures cut { IsCutOut from to steps.old.items steps.new.items }
    ensures written { WritesWithin from to steps.old.items steps.new.items }
    ensures kept { StaysBelow steps.old.items steps.new.items }
{
    let end = steps.len();
    move_down(steps, from, to, end);
    steps.truncate(end - (to - from));
}

/// Removes a part of the list before a path that ends at `end`, and returns the place where that path now ends. The
/// steps after the path stay separate from it.
pub fn close_up(steps: &mut Vec<Steps>, from: usize, to: usize, end: usize) -> usize
    ensures closed { ClosesUp from to end steps.old.items steps.new.items result }
    ensures written { WritesTwice from to end steps.old.items steps.new.items result }
    ensures kept { StaysBelow steps.old.items steps.new.items }
{
    if from > to || to > end || end > steps.len() {
        return end;
    }
    move_down(steps, from, to, end);
    let new_end = from + (end - to);
    cut(steps, new_end, end);
    new_end
}

// Moves the steps from `to` up to `end` to `from`, in another order.
fn move_down(steps: &mut Vec<Steps>, from: usize, to: usize, end: usize)
    requires order { from ≤ to }
    requires behind { to ≤ end }
    requires within { end ≤ length steps.old.items }
    ensures moved { IsMovedDown from to end steps.old.items steps.new.items }
    ensures written { WritesWithin from to steps.old.items steps.new.items }
    ensures kept { StaysBelow steps.old.items steps.new.items }
{
    let count = (to - from).min(end - to);
    steps.copy_within(end - count..end, from);
}
