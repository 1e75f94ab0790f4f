// A row of cells. Some are in, the others are lent out, and some may have shares out. Ghost state records which.
ghost use Rattle.std.specs.Prelude.{◌≡◌, ℕ, ◌+◌, ◌-◌, ◌*◌, ◌^◌, ◌<◌, ◌≤◌, ℤ, List, length, replicate, Option, Some, slice_get, slice_set};
ghost use Rattle.std.specs.Coded.{coded_option, coded_ℤ};
ghost use base.Stored.{coded_list};
ghost use Rattle.core.specs.Mem.Slots.{slots_items, slots_filled, slots_len};
ghost use denote.RawPtr.{◌+ₚ◌};
ghost use denote.Builtin.{i64};
ghost use Rattle.core.specs.Mem.Slots.Ownership.{lent};
ghost use Rattle.cw_slices.specs.Memory.{kept_owned};
ghost use Rattle.cw_slices.specs.Loose.{IsRun};
ghost use Rattle.cw_slices.specs.Blocks.{ins, patched, numbers, marks, Have, IsIn, AreIn, IsParted, AreHalved, AreAlike, IsShared, AreMerged};

use crate::memory::Span;
use core::slots::Slots;
use std::marker::Model;

// A row of cells that owns the cells that are in, or a part of the right to each. Dropping it does not free the
// cells.
#[derive(Drop)]
pub(crate) struct CellRow {
    ptr: *mut i64,
    len: usize,
    ghost cells: { List (Option ℤ) } by { coded_list (coded_option coded_ℤ) },
    ghost rights: { List ℕ },
    ghost base: { ℕ },
    ghost ok: { (len ≡ length cells) × (len ≡ length rights) },
    ghost small: { len < 2 ^ 64 },
}

impl Model for CellRow {
    ghost also_owns = { λ k. kept_owned k.ptr k.cells k.rights };

    ghost also_shares = { λ k _ κ. lent i64 k.ptr k.len (numbers k.cells) (marks k.cells) κ };
}

// The memory that it owns may go to another thread.
unsafe impl Send for CellRow {}

impl CellRow {
    // Makes a row of a span, with all cells in and no share out.
    pub(crate) fn keep(ptr: *mut i64, len: usize, span: Span) -> CellRow
        requires { IsRun ptr len span }
        ensures words { (result.ptr ≡ ptr) × (result.len ≡ len) × (result.base ≡ span.halved) }
        ensures cells { result.cells ≡ ins span.items }
        ensures rights { result.rights ≡ replicate len span.halved }
    {
        let Span {} = span;
        CellRow { ptr, len }
    }

    // Returns the span of a row that is all in, with an equal right to each place.
    pub(crate) fn unkeep(self) -> (*mut i64, Span)
        requires there { (xs : List ℤ) × (self.cells ≡ ins xs) }
        requires alike { self.rights ≡ replicate (length self.cells) self.base }
        ensures run { (result.0 ≡ self.ptr) × IsRun result.0 self.len result.1 }
        ensures numbers { ins result.1.items ≡ self.cells }
        ensures halved { result.1.halved ≡ self.base }
    {
        let CellRow { ptr, len: _ } = self;
        (ptr, Span {})
    }

    // Takes `count` cells from `from` on out of the row.
    #[inline(always)]
    pub(crate) fn part(&mut self, from: usize, count: usize) -> (*mut i64, Span)
        requires within { from + count ≤ length self.old.cells }
        requires there { AreIn self.old.cells from count }
        requires alike { AreHalved self.old.rights from count self.old.base }
        ensures run { (result.0 ≡ self.old.ptr +ₚ (from * 8)) × IsRun result.0 count result.1
            × (result.1.halved ≡ self.old.base) }
        ensures words { (self.new.ptr ≡ self.old.ptr) × (self.new.len ≡ self.old.len)
            × (self.new.base ≡ self.old.base) × (self.new.rights ≡ self.old.rights) }
        ensures cells { IsParted self.old.cells from result.1.items self.new.cells }
    {
        unsafe { (self.ptr.add(from), Span {}) }
    }

    // Puts lent cells back at their places.
    pub(crate) fn meet(&mut self, from: usize, span: Span)
        requires within { from + length span.items ≤ length self.old.cells }
        requires run { IsRun (self.old.ptr +ₚ (from * 8)) (length span.items) span }
        requires alike { AreHalved self.old.rights from (length span.items) span.halved }
        ensures words { (self.new.ptr ≡ self.old.ptr) × (self.new.len ≡ self.old.len)
            × (self.new.base ≡ self.old.base) × (self.new.rights ≡ self.old.rights) }
        ensures cells { self.new.cells ≡ patched from (ins span.items) self.old.cells }
    {
        let Span {} = span;
    }

    // Takes half of the right to `count` cells from `from` on.
    #[inline(always)]
    pub(crate) fn halve(&mut self, from: usize, count: usize) -> (*mut i64, Span)
        requires within { from + count ≤ length self.old.cells }
        requires there { AreIn self.old.cells from count }
        requires alike { AreAlike self.old.rights from count }
        ensures run { (result.0 ≡ self.old.ptr +ₚ (from * 8)) × IsRun result.0 count result.1
            × Have self.old.cells from result.1.items }
        ensures words { (self.new.ptr ≡ self.old.ptr) × (self.new.len ≡ self.old.len)
            × (self.new.base ≡ self.old.base) × (self.new.cells ≡ self.old.cells) }
        ensures rights { IsShared self.old.rights from count result.1.halved self.new.rights }
    {
        unsafe { (self.ptr.add(from), Span {}) }
    }

    // Puts the other half of that right back.
    pub(crate) fn heal(&mut self, from: usize, span: Span)
        requires within { from + length span.items ≤ length self.old.cells }
        requires run { IsRun (self.old.ptr +ₚ (from * 8)) (length span.items) span }
        requires same { Have self.old.cells from span.items }
        requires halved { 0 < span.halved }
        requires alike { AreHalved self.old.rights from (length span.items) span.halved }
        ensures words { (self.new.ptr ≡ self.old.ptr) × (self.new.len ≡ self.old.len)
            × (self.new.base ≡ self.old.base) × (self.new.cells ≡ self.old.cells) }
        ensures rights { AreMerged self.old.rights from (length span.items)
            span.halved self.new.rights }
    {
        let Span {} = span;
    }

    // Sets the number of a cell that is in and has no share out.
    #[inline(always)]
    pub(crate) fn put(&mut self, place: usize, number: i64)
        requires there { IsIn self.old.cells place }
        requires own { slice_get self.old.rights place ≡ Some 0 }
        ensures words { (self.new.ptr ≡ self.old.ptr) × (self.new.len ≡ self.old.len)
            × (self.new.base ≡ self.old.base) × (self.new.rights ≡ self.old.rights) }
        ensures cells { self.new.cells ≡ slice_set self.old.cells place (Some number) }
    {
        unsafe { self.ptr.add(place).write(number) }
    }

    // Returns the cells for reading; only those that are in may be read.
    #[inline(always)]
    pub(crate) fn row(&self) -> &Slots<i64>
        ensures len { slots_len result.now ≡ length self.now.cells }
        ensures numbers { slots_items result.now ≡ numbers self.now.cells }
        ensures marks { slots_filled result.now ≡ marks self.now.cells }
    {
        unsafe { &*(self as *const CellRow as *const Slots<i64>) }
    }
}
