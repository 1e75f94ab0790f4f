//! The numbers of the array slots of a function in its code.

ghost use Rattle.std.specs.Prelude.{◌≡◌, []};
ghost use Rattle.cw_gen.specs.Marks as spec;

use cw_code::code::Loan;
use std::alloc::Global;
use std::marker::Model;

/// Holds the numbers of the first array slots of a function in its code: the slots of its `const` parameters are
/// readers.
#[derive(Drop)]
pub(crate) struct Places {
    pub(crate) table: Vec<Loan>,
    pub(crate) readers: u32,
    // Arrays and readers are counted separately, from 0.
    pub(crate) ghost counted: { table.items ≡ spec.places_from 0 0 (spec.marks_of_places table.items) },
    // The number of readers among the slots.
    pub(crate) ghost many: { readers ≡ spec.readers_in (spec.marks_of_places table.items) },
}

impl Model for Places {
    ghost use Rattle.cw_gen.specs.Marks.{Marks, marks_of_places};

    ghost Value = { Marks };

    ghost view = { λ places. marks_of_places places.table.items };
}

impl Places {
    /// Returns the table of a function without `const` parameters.
    pub(crate) fn none(alloc: Global) -> Places
        ensures { result ≡ [] }
    {
        Places {
            table: Vec::new(alloc),
            readers: 0,
        }
    }

    /// Returns the array or reader that an array slot is in the code.
    pub(crate) fn place(&self, slot: u32) -> Loan
        ensures { result ≡ spec.place_of self.now slot }
    {
        let at = slot as usize;
        if at < self.table.len() {
            self.table[at]
        } else {
            Loan::Array(slot - self.readers)
        }
    }

    /// Returns the number of an array slot in the code.
    pub(crate) fn array(&self, slot: u32) -> u32
        ensures { result ≡ spec.array_at self.now slot }
    {
        match self.place(slot) {
            Loan::Array(number) | Loan::Reader(number) => number,
        }
    }
}
