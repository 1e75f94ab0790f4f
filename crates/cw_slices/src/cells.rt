// Cells, or a part of the right to them. Both are the same two words, and the same code reads them.
ghost use Rattle.std.specs.Prelude.{◌≡◌, ℕ, ℤ, ◌*◌, ◌^◌, ◌<◌, ◌≤◌, Bool, true, List, length, slice_set};
ghost use Rattle.core.specs.Mem.Slots.{slots_items, slots_filled, slots_ptr, slots_len};
ghost use denote.Builtin.{i64};
ghost use Rattle.core.specs.Mem.Slots.Ownership.{lent};
ghost use Rattle.cw_slices.specs.OwnedMemory.{held_owned};

use crate::memory::Span;
use core::slots::Slots;
use std::marker::Model;

// A row of cells, owned, or a part of the right to read it (the right halved `halved` times). Dropping it does not
// free the cells.
#[derive(Drop)]
pub(crate) struct Cells {
    ptr: *mut i64,
    len: usize,
    ghost items: { List ℤ },
    ghost filled: { List Bool },
    ghost halved: { ℕ },
    ghost ok: { (len ≡ length items) × (len ≡ length filled) },
    ghost small: { len < 2 ^ 64 },
}

impl Model for Cells {
    ghost also_owns = { λ h. held_owned h.halved h.ptr h.len h.items h.filled };

    ghost also_shares = { λ h _ κ. lent i64 h.ptr h.len h.items h.filled κ };
}

// The memory that it owns may go to another thread.
unsafe impl Send for Cells {}

impl Cells {
    // Makes cells of a span.
    pub(crate) fn own(ptr: *mut i64, len: usize, span: Span) -> Cells
        requires { (span.at ≡ ptr) × (length span.items ≡ len) }
        ensures { (result.ptr ≡ ptr) × (result.len ≡ len) × (result.items ≡ span.items)
            × (result.filled ≡ span.filled) × (result.halved ≡ span.halved) }
    {
        let Span {} = span;
        Cells { ptr, len }
    }

    // Makes a span of the cells.
    pub(crate) fn disown(self) -> (*mut i64, Span)
        ensures { (result.0 ≡ self.ptr) × (result.1.at ≡ self.ptr)
            × (result.1.items ≡ self.items) × (result.1.filled ≡ self.filled)
            × (result.1.halved ≡ self.halved) }
    {
        let Cells { ptr, len: _ } = self;
        (ptr, Span {})
    }

    // Sets a number of owned cells.
    #[inline(always)]
    pub(crate) fn put(&mut self, place: usize, number: i64)
        requires { (self.old.halved ≡ 0) × (place < self.old.len) }
        ensures { (self.new.ptr ≡ self.old.ptr) × (self.new.len ≡ self.old.len)
            × (self.new.items ≡ slice_set self.old.items place number)
            × (self.new.filled ≡ slice_set self.old.filled place true) × (self.new.halved ≡ 0) }
    {
        unsafe { self.ptr.add(place).write(number) }
    }

    // Returns the cells for reading.
    #[inline(always)]
    pub(crate) fn row(&self) -> &Slots<i64>
        ensures { (slots_ptr result.now ≡ self.now.ptr) × (slots_len result.now ≡ self.now.len)
            × (slots_items result.now ≡ self.now.items)
            × (slots_filled result.now ≡ self.now.filled) }
    {
        unsafe { &*(self as *const Cells as *const Slots<i64>) }
    }
}
