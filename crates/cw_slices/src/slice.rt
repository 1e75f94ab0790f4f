//! A part of a block of numbers, with one owner, or a share of it that each holder of a share can read.
ghost use Rattle.std.specs.Prelude.{◌≡◌, ℕ, ◌+◌, ◌*◌, ◌^◌, ◌<◌, ◌≤◌, ℤ, pos, List, [], ◌∷◌, ◌++◌, length, take, drop, replicate, slice_index_or, slice_set, IfOk, true, false};
ghost use Rattle.core.specs.Mem.Slots.{slots_items, slots_filled, slots_ptr, slots_len, IsFull};
ghost use Rattle.cw_slices.specs.Placed.{Placed, Spot, after, cut_at, spot_of, Follows, IsOwn};
ghost use Rattle.cw_slices.specs.Loose.{IsRun, MayFree, FreesOwn};

use crate::cells::Cells;
use crate::memory::{Span, Title, claim, free, lay, lift, nothing};
use core::slots::Slots;
use std::alloc::{AllocError, Global};
use std::marker::Model;
use std::{fmt, mem};

/// A part of a block of numbers, in three words: where it begins, how many numbers it has, and the length of the
/// block that it frees. It has one owner, who can read, write, cut and join it; or it is a share, which its holder
/// can read while others read their shares on any threads, and which nobody writes.
///
/// Dropping a slice that is a whole block frees the block. **A part that was cut off and never joined, or a part or a
/// share of a block that never comes back, is not freed**, on any thread: nothing counts what is left of a block. To
/// stop early without a leak, end the open cuts with `join`, which takes no memory and cannot fail, and return parts
/// and shares.
pub struct Slice {
    cells: Cells,
    frees: usize,
    title: Title<Global>,
    alloc: Global,
}

impl Model for Slice {
    ghost use Rattle.std.specs.Prelude.{◌≡◌, ◌^◌, ◌<◌, ◌≤◌, length, true, replicate};
    ghost use Rattle.cw_slices.specs.Placed.{Placed, placed_by, placed_code};
    ghost use Rattle.cw_slices.specs.Loose.{MayFree, FreesOwn};

    ghost Value = { Placed };

    ghost coded = { placed_code };

    ghost view = { λ s. placed_by s.cells.items s.cells.ptr s.frees s.cells.halved };

    ghost invariant = { λ s. (s.cells.filled ≡ replicate (length s.cells.items) true)
        × (length s.cells.items < 2 ^ 60) × MayFree s.frees s.cells.ptr s.alloc s.title
        × FreesOwn s.frees s.cells.halved };
}

// A slice taken apart: its words, its cells or its part of the right to them, and the right to free its block.
#[derive(Drop)]
pub(crate) struct Loose {
    pub(crate) ptr: *mut i64,
    pub(crate) len: usize,
    pub(crate) frees: usize,
    pub(crate) span: Span,
    pub(crate) title: Title<Global>,
    pub(crate) alloc: Global,
}

// Returns no cells.
#[inline(always)]
fn no_cells() -> Cells
    ensures { (result.items ≡ []) × (result.filled ≡ []) × (result.halved ≡ 0) }
{
    let near = 0;
    let (ptr, span) = nothing(&near);
    Cells::own(ptr, 0, span)
}

// Fills each place of a row with zero. The loop writes nothing else, so that it becomes a `memset`.
#[tactic(auto, using(crate::proofs::Marks::set_same, crate::proofs::Marks::set_next, crate::proofs::Marks::all_set))]
fn filled_with_zeros(mut row: Slots<i64>, count: usize) -> Slots<i64>
    requires { (slots_len row ≡ count) × (slots_items row ≡ replicate count (pos 0))
        × (slots_filled row ≡ replicate count false) }
    ensures { (slots_ptr result ≡ slots_ptr row) × (slots_len result ≡ count)
        × (slots_items result ≡ replicate count (pos 0))
        × (slots_filled result ≡ replicate count true) }
{
    let mut i = 0;
    while i < count {
        row.put(i, 0);
        i += 1;
    }
    row
}

impl Slice {
    /// Returns the number of its numbers.
    #[inline(always)]
    pub fn len(&self) -> usize
        ensures value { result ≡ length self.now.items }
        ensures small { result < 2 ^ 60 }
    {
        self.cells.row().len()
    }

    /// Returns number `i`, of an owned slice or of a share.
    #[inline(always)]
    pub fn get(&self, i: usize) -> i64
        requires { i < length self.now.items }
        ensures { result ≡ slice_index_or self.now.items i (pos 0) }
    {
        *self.cells.row().get(i)
    }

    /// Sets number `i` to `x`.
    #[inline(always)]
    #[tactic(auto, using(crate::proofs::Marks::set_same))]
    pub fn set(&mut self, i: usize, x: i64)
        requires own { IsOwn self.old }
        requires there { i < length self.old.items }
        ensures items { self.new.items ≡ slice_set self.old.items i x }
        ensures spot { self.new.spot ≡ self.old.spot }
    {
        self.cells.put(i, x);
    }

    /// Returns a slice of `count` zeros, in a block of their own. Takes time linear in `count`, at the speed of
    /// filling memory. For 0, it takes no memory.
    ///
    /// # Errors
    ///
    /// An `AllocError` if there is no memory for the numbers; then nothing is kept.
    pub fn zeros(alloc: Global, count: usize) -> Result<Slice, AllocError>
        requires { count < 2 ^ 60 }
        ensures { IfOk result (λ s. (s.items ≡ replicate count (pos 0)) × IsOwn s) }
    {
        if count == 0 {
            return Ok(Slice::empty(alloc));
        }
        let (ptr, (cells, title)) = claim(&alloc, count)?;
        let (ptr, span) = lift(filled_with_zeros(lay(ptr, count, cells), count));
        Ok(Slice {
            cells: Cells::own(ptr, count, span),
            frees: count,
            title,
            alloc,
        })
    }

    /// Returns a slice without numbers, which takes no memory.
    #[inline(always)]
    pub fn empty(alloc: Global) -> Slice
        ensures { (result.items ≡ []) × IsOwn result }
    {
        Slice {
            cells: no_cells(),
            frees: 0,
            title: Title::none(),
            alloc,
        }
    }

    /// Moves the slice out and leaves an empty slice without memory.
    #[inline(always)]
    pub fn take(&mut self) -> Slice
        ensures value { result ≡ self.old }
        ensures left { (self.new.items ≡ []) × IsOwn self.new }
    {
        let alloc = self.alloc;
        mem::replace(self, Slice::empty(alloc))
    }

    /// Splits a slice into its first `at` numbers and the others. Either part may be empty. Takes constant time and
    /// no memory, and copies nothing.
    #[inline(always)]
    pub fn cut(self, at: usize) -> (Slice, Slice)
        requires own { IsOwn self }
        requires within { at ≤ length self.items }
        ensures left { result.0 ≡ record { items = take at self.items; spot = self.spot } }
        ensures right { result.1 ≡ cut_at at self }
    {
        let Slice {
            cells,
            frees,
            title,
            alloc,
        } = self;
        let len = cells.row().len();
        let (ptr, span) = cells.disown();
        let (first, second) = span.part(at);
        let next = unsafe { ptr.byte_add(at * 8) };
        let left = Slice {
            cells: Cells::own(ptr, at, first),
            frees,
            title,
            alloc,
        };
        let right = Slice {
            cells: Cells::own(next, len - at, second),
            frees: 0,
            title: Title::none(),
            alloc,
        };
        (left, right)
    }

    // Takes a slice apart.
    #[inline(always)]
    pub(crate) fn loosen(self) -> Loose
        ensures run { IsRun result.ptr result.len result.span }
        ensures small { result.len < 2 ^ 60 }
        ensures right { MayFree result.frees result.ptr result.alloc result.title }
        ensures frees { FreesOwn result.frees result.span.halved }
        ensures items { self.items ≡ result.span.items }
        ensures spot { self.spot ≡ spot_of result.ptr result.frees result.span.halved }
    {
        let Slice {
            cells,
            frees,
            title,
            alloc,
        } = self;
        let len = cells.row().len();
        let (ptr, span) = cells.disown();
        Loose {
            ptr,
            len,
            frees,
            span,
            title,
            alloc,
        }
    }

    // Puts a slice together.
    #[inline(always)]
    pub(crate) fn bound(loose: Loose) -> Slice
        requires run { IsRun loose.ptr loose.len loose.span }
        requires small { loose.len < 2 ^ 60 }
        requires right { MayFree loose.frees loose.ptr loose.alloc loose.title }
        requires frees { FreesOwn loose.frees loose.span.halved }
        ensures items { result.items ≡ loose.span.items }
        ensures spot { result.spot ≡ spot_of loose.ptr loose.frees loose.span.halved }
    {
        let Loose {
            ptr,
            len,
            frees,
            span,
            title,
            alloc,
        } = loose;
        Slice {
            cells: Cells::own(ptr, len, span),
            frees,
            title,
            alloc,
        }
    }

    /// Joins two neighbours into one slice: `right` must begin where `left` ends, as after a cut. Takes constant time
    /// and no memory, and copies nothing.
    #[inline(always)]
    pub fn join(left: Slice, right: Slice) -> Slice
        requires own { IsOwn left }
        requires follows { Follows left right }
        requires fits { length left.items + length right.items < 2 ^ 60 }
        ensures { result ≡ record { items = left.items ++ right.items; spot = left.spot } }
    {
        let Slice {
            cells,
            frees,
            title,
            alloc,
        } = left;
        let Slice {
            cells: other,
            frees: _,
            title: spent,
            alloc: _,
        } = right;
        let len = cells.row().len() + other.row().len();
        let (ptr, span) = cells.disown();
        let (_next, others) = other.disown();
        drop(spent);
        Slice {
            cells: Cells::own(ptr, len, span.meet(others)),
            frees,
            title,
            alloc,
        }
    }
}

// The slice that is all of a block frees the block. A part that was never joined, or a share, does not free it.
impl Drop for Slice {
    fn drop(self) {
        let Slice {
            cells,
            frees,
            title,
            alloc,
        } = self;
        let len = cells.row().len();
        if frees != 0 && frees == len {
            let (ptr, span) = cells.disown();
            free(&alloc, ptr, len, span, title);
        } else {
            drop(cells);
            drop(title);
        }
    }
}

impl fmt::Debug for Slice {
    fn fmt<W: fmt::Write>(&self, f: &mut fmt::Formatter<W>) -> fmt::Result {
        write!(f, "Slice({})", self.len())
    }
}

// Nothing else writes the slice's part of the block while the slice exists.
unsafe impl Send for Slice {}
