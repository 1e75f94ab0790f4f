//! Sets of locals.

ghost use Rattle.std.specs.Prelude.{◌≡◌, ◌<◌};
ghost use Rattle.cw_model.specs.declared.limits.TheConstants.{MOST_DECLARED};
ghost use Rattle.cw_own.specs.Sets.{no_local, with_int, with_array, either_row, both_rows, row_of};

use crate::bits::Bits;

/// Represents a set of locals by the slots of its integers and of its arrays: eight words of 64 bits.
#[derive(Clone, Copy)]
pub struct Row {
    pub ints: Bits,
    pub arrays: Bits,
}

impl Row {
    /// Returns the empty set.
    pub fn none() -> Row
        ensures { row_of result ≡ no_local }
    {
        Row {
            ints: Bits::none(),
            arrays: Bits::none(),
        }
    }

    /// Adds an integer.
    pub fn add_int(&mut self, slot: u32)
        requires { slot < MOST_DECLARED }
        ensures { row_of self.new ≡ with_int slot (row_of self.old) }
    {
        self.ints.add(slot);
    }

    /// Adds an array.
    pub fn add_array(&mut self, slot: u32)
        requires { slot < MOST_DECLARED }
        ensures { row_of self.new ≡ with_array slot (row_of self.old) }
    {
        self.arrays.add(slot);
    }

    /// Returns the union of two sets.
    pub fn either(&self, other: &Row) -> Row
        ensures { row_of result ≡ either_row (row_of self.now) (row_of other.now) }
    {
        Row {
            ints: self.ints.either(&other.ints),
            arrays: self.arrays.either(&other.arrays),
        }
    }

    /// Returns the intersection of two sets.
    pub fn both(&self, other: &Row) -> Row
        ensures { row_of result ≡ both_rows (row_of self.now) (row_of other.now) }
    {
        Row {
            ints: self.ints.both(&other.ints),
            arrays: self.arrays.both(&other.arrays),
        }
    }
}
