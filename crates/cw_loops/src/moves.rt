//! The slots of locals of a source function in the function that executes them after lowering.

ghost use Rattle.std.specs.Prelude.{◌≡◌, ◌+◌, [], map, length};
ghost use Rattle.cw_tree.specs.Resolved.{is_slot_in};
ghost use Rattle.cw_tree.specs.ResolvedView.{head_of};
ghost use Rattle.cw_loops.specs.Moved as spec;
ghost use Rattle.cw_loops.specs.Moving.{moves_view, uses_of};

use cw_tree::resolved::{Head, Use};

/// The maximum slot or index that a tree can hold.
const MOST_SLOT: usize = 4_294_967_295;

/// Maps the locals of a source function to their new slots. Outside of loops each local keeps its slot. In the body
/// of a loop, the captured locals have the first slots, with the integers after the two ends of the range, and the
/// locals of the body have the slots after them.
#[derive(Clone, Copy)]
pub(crate) struct Moves<'a> {
    /// The number of integers that are known before the loop's head.
    pub ints_before: u32,
    /// The integers that the loop captures.
    pub captured: &'a [Use],
    /// The new slot of the first integer of the body.
    pub first_int: u32,
    /// The number of arrays that are known before the loop's head.
    pub arrays_before: u32,
    /// The arrays of the loop.
    pub over: &'a [Use],
    /// The new slot of the first array of the body.
    pub first_array: u32,
}

/// Returns the mapping outside of all loops.
pub(crate) fn nothing_moved<'a>() -> Moves<'a>
    ensures { moves_view result ≡ spec.nothing_moved }
{
    Moves {
        ints_before: 0,
        captured: &[],
        first_int: 0,
        arrays_before: 0,
        over: &[],
        first_array: 0,
    }
}

/// Returns the mapping for the body of a loop; `arrays` is the number of arrays that are known before its head.
pub(crate) fn moves_of<'a>(head: &'a Head, arrays: u32) -> Moves<'a>
    ensures { moves_view result ≡ spec.moves_of (head_of head.now) arrays }
{
    Moves {
        ints_before: head.variable.slot,
        captured: &head.captured,
        first_int: slot(head.captured.len()).saturating_add(2),
        arrays_before: arrays,
        over: &head.over,
        first_array: slot(head.over.len()),
    }
}

/// Returns a count as the number of a slot: `n`, or `MOST_SLOT` if `n` is larger.
pub(crate) fn slot(n: usize) -> u32
    ensures { result ≡ spec.slot n }
{
    if n < MOST_SLOT {
        n as u32
    } else {
        MOST_SLOT as u32
    }
}

// Returns the first position of a slot among uses, counted from `first`.
fn place_from(first: u32, slot: u32, uses: &[Use]) -> u32
    ensures { result ≡ spec.place_from first slot (spec.slots_of (uses_of uses.now)) }
{
    let mut place = first;
    for used in uses {
        if used.slot == slot {
            return place;
        }
        place = place.saturating_add(1);
    }
    place
}

// Reports whether one of the uses has this slot.
fn has_slot(uses: &[Use], slot: u32) -> bool
    ensures { result ≡ is_slot_in slot (spec.slots_of (uses_of uses.now)) }
{
    for used in uses {
        if used.slot == slot {
            return true;
        }
    }
    false
}

impl<'a> Moves<'a> {
    /// Returns the new slot of an integer.
    pub(crate) fn int(self, slot: u32) -> u32
        ensures { result ≡ spec.moved_int (moves_view self.entry) slot }
    {
        if slot < self.ints_before {
            place_from(2, slot, self.captured)
        } else {
            (slot - self.ints_before).saturating_add(self.first_int)
        }
    }

    /// Returns the new slot of an array.
    pub(crate) fn array(self, slot: u32) -> u32
        ensures { result ≡ spec.moved_array (moves_view self.entry) slot }
    {
        if slot < self.arrays_before {
            place_from(0, slot, self.over)
        } else {
            (slot - self.arrays_before).saturating_add(self.first_array)
        }
    }

    /// Reports whether an array is an array of the loop.
    pub(crate) fn is_over(self, slot: u32) -> bool
        ensures { result ≡ spec.is_over (moves_view self.entry) slot }
    {
        slot < self.arrays_before && has_slot(self.over, slot)
    }
}
