//! A block of numbers. Its owner lends parts of it out as slices, or shares them, and takes them back.
ghost use Rattle.std.specs.Prelude.{◌≡◌, ◌+◌, ◌^◌, ◌<◌, ◌≤◌, ℤ, pos, List, [], length, replicate, Some, slice_get, slice_set, IfOk};
ghost use Rattle.cw_slices.specs.Placed.{after, shared_after};
ghost use Rattle.cw_slices.specs.Blocks.{ins, outs, patched, IsIn, Have, AreIn, AreOut, AreHalved, AreAlike, IsShared, AreMerged, IsWhole, CountsMore, CountsLess};

use crate::cell_row::CellRow;
use crate::memory::{Title, free};
use crate::slice::{Loose, Slice};
use std::alloc::{AllocError, Global};
use std::marker::Model;
use std::{fmt, mem};

/// A block of numbers, in four words. Its owner reads and writes it in place. The owner can lend parts of it as
/// slices and take them back, or share parts, so that others read them while the owner reads them too. Each of these
/// operations takes constant time and copies nothing. A number that is lent out can be neither read nor written
/// through the block; a number that is shared can be read. Contracts state this, so no test is made at run time. A
/// block made of a share can be read and shared further.
///
/// Dropping a block frees its memory if nothing is lent or shared. **Otherwise the memory is not freed**, and a part
/// that never comes back is not freed either: nothing counts what is left of a block. To stop early without a leak,
/// first return what is lent and shared with `give_back` and `merge`, which take no memory and cannot fail.
pub struct ArrayBlock {
    kept: CellRow,
    frees: usize,
    out: usize,
    title: Title<Global>,
    alloc: Global,
}

impl Model for ArrayBlock {
    ghost use Rattle.cw_slices.specs.Loose.{MayFree, FreesOwn};
    ghost use Rattle.cw_slices.specs.Blocks.{Lodged, lodged_by, lodged_code, Counts};

    ghost Value = { Lodged };

    ghost coded = { lodged_code };

    ghost view = { λ b. lodged_by b.kept.cells b.kept.rights b.kept.ptr b.frees b.kept.base };

    ghost invariant = { λ b. Counts b.kept.cells b.kept.rights b.kept.base b.out
        × MayFree b.frees b.kept.ptr b.alloc b.title × FreesOwn b.frees b.kept.base };
}

// The number of shared cells, each counted once for each share, is exact below this bound. A block with more shares
// than memory has room for counts as shared forever.
const MANY: usize = 1 << 62;

const STUCK: usize = 1 << 63;

// Returns `out` with `count` more shared cells.
#[inline(always)]
fn with_shared(out: usize, count: usize) -> usize
    requires { count < 2 ^ 60 }
    ensures { CountsMore out count result }
{
    if out < MANY {
        out + count
    } else if out < STUCK {
        out + STUCK
    } else {
        out
    }
}

// Returns `out` with `count` fewer shared cells.
#[inline(always)]
fn without_shared(out: usize, count: usize) -> usize
    requires { out < 2 ^ 63 → count ≤ out }
    ensures { CountsLess out count result }
{
    if out < STUCK { out - count } else { out }
}

impl ArrayBlock {
    /// Makes a block of a slice, owned or shared. All of its numbers are in, and no share of it is out.
    #[inline(always)]
    pub fn of(slice: Slice) -> ArrayBlock
        ensures cells { result.cells ≡ ins slice.items }
        ensures spot { result.spot ≡ slice.spot }
        ensures whole { IsWhole result }
    {
        let Loose {
            ptr,
            len,
            frees,
            span,
            title,
            alloc,
        } = slice.loosen();
        ArrayBlock {
            kept: CellRow::keep(ptr, len, span),
            frees,
            out: 0,
            title,
            alloc,
        }
    }

    /// Returns a block without numbers, which takes no memory.
    #[inline(always)]
    pub fn empty(alloc: Global) -> ArrayBlock
        ensures cells { result.cells ≡ [] }
        ensures whole { IsWhole result }
        ensures own { result.spot.halved ≡ 0 }
    {
        ArrayBlock::of(Slice::empty(alloc))
    }

    /// Returns a block of `count` zeros, all in. Takes time linear in `count`, at the speed of filling memory. For 0,
    /// it takes no memory.
    ///
    /// # Errors
    ///
    /// An `AllocError` if there is no memory for the numbers; then nothing is kept.
    pub fn zeros(alloc: Global, count: usize) -> Result<ArrayBlock, AllocError>
        requires { count < 2 ^ 60 }
        ensures { IfOk result (λ b. (b.cells ≡ ins (replicate count (pos 0))) × IsWhole b
            × (b.spot.halved ≡ 0)) }
    {
        let slice = Slice::zeros(alloc, count)?;
        Ok(ArrayBlock::of(slice))
    }

    /// Returns the numbers of a block with nothing out, as the slice that the block was made of.
    #[inline(always)]
    pub fn whole(self) -> Slice
        requires there { (xs : List ℤ) × (self.cells ≡ ins xs) }
        requires whole { IsWhole self }
        ensures items { ins result.items ≡ self.cells }
        ensures spot { result.spot ≡ self.spot }
    {
        let ArrayBlock {
            kept,
            frees,
            out: _,
            title,
            alloc,
        } = self;
        let len = kept.row().len();
        let (ptr, span) = kept.unkeep();
        Slice::bound(Loose {
            ptr,
            len,
            frees,
            span,
            title,
            alloc,
        })
    }

    /// Moves out the numbers of a block with nothing out, as the slice that the block was made of, and leaves an
    /// empty block without memory.
    #[inline(always)]
    pub fn take(&mut self) -> Slice
        requires there { (xs : List ℤ) × (self.old.cells ≡ ins xs) }
        requires whole { IsWhole self.old }
        ensures items { ins result.items ≡ self.old.cells }
        ensures spot { result.spot ≡ self.old.spot }
        ensures left { self.new.cells ≡ [] }
        ensures left_whole { IsWhole self.new }
        ensures left_own { self.new.spot.halved ≡ 0 }
    {
        let alloc = self.alloc;
        mem::replace(self, ArrayBlock::empty(alloc)).whole()
    }

    /// Returns the number of its numbers, including those that are out.
    #[inline(always)]
    pub fn len(&self) -> usize
        ensures value { result ≡ length self.now.cells }
        ensures small { result < 2 ^ 60 }
    {
        self.kept.row().len()
    }

    /// Returns number `i`, which must be in; a share of it may be out.
    #[inline(always)]
    #[tactic(auto, using(crate::proofs::Missing::read_at))]
    pub fn get(&self, i: usize) -> i64
        requires there { IsIn self.now.cells i }
        ensures { slice_get self.now.cells i ≡ Some (Some result) }
    {
        *self.kept.row().get(i)
    }

    /// Sets number `i` to `x`. The number must be in, no share of it may be out, and the block must not be made of a
    /// share.
    #[inline(always)]
    pub fn set(&mut self, i: usize, x: i64)
        requires there { IsIn self.old.cells i }
        requires own { slice_get self.old.rights i ≡ Some 0 }
        ensures cells { self.new.cells ≡ slice_set self.old.cells i (Some x) }
        ensures rights { self.new.rights ≡ self.old.rights }
        ensures spot { self.new.spot ≡ self.old.spot }
    {
        self.kept.put(i, x);
    }

    /// Lends `count` numbers from `from` on as a slice. All of them must be in, and no share of them may be out. They
    /// are out until `give_back`. Takes constant time and no memory, and copies nothing.
    #[inline(always)]
    pub fn lend(&mut self, from: usize, count: usize) -> Slice
        requires within { from + count ≤ length self.old.cells }
        requires there { AreIn self.old.cells from count }
        requires whole { AreHalved self.old.rights from count self.old.spot.halved }
        ensures count { length result.items ≡ count }
        ensures items { Have self.old.cells from result.items }
        ensures place { result.spot ≡ after from self.old.spot }
        ensures cells { self.new.cells ≡ patched from (outs count) self.old.cells }
        ensures rights { self.new.rights ≡ self.old.rights }
        ensures spot { self.new.spot ≡ self.old.spot }
    {
        let (ptr, span) = self.kept.part(from, count);
        self.out += count;
        Slice::bound(Loose {
            ptr,
            len: count,
            frees: 0,
            span,
            title: Title::none(),
            alloc: self.alloc,
        })
    }

    /// Takes a lent slice back at the place that it was lent from, with its current numbers. Takes constant time and
    /// no memory, and copies nothing.
    #[inline(always)]
    pub fn give_back(&mut self, from: usize, slice: Slice)
        requires within { from + length slice.items ≤ length self.old.cells }
        requires out { AreOut self.old.cells from (length slice.items) }
        requires whole { AreHalved self.old.rights from (length slice.items) self.old.spot.halved }
        requires place { slice.spot ≡ after from self.old.spot }
        ensures cells { self.new.cells ≡ patched from (ins slice.items) self.old.cells }
        ensures rights { self.new.rights ≡ self.old.rights }
        ensures spot { self.new.spot ≡ self.old.spot }
    {
        let Loose {
            ptr: _,
            len,
            frees: _,
            span,
            title: spent,
            alloc: _,
        } = slice.loosen();
        drop(spent);
        self.kept.meet(from, span);
        self.out -= len;
    }

    /// Shares `count` numbers from `from` on, all of them in, and gives the share half of the block's right to each.
    /// Until the share is merged, both can be read and neither can be written. Takes constant time and no memory, and
    /// copies nothing.
    #[inline(always)]
    pub fn share(&mut self, from: usize, count: usize) -> Slice
        requires within { from + count ≤ length self.old.cells }
        requires there { AreIn self.old.cells from count }
        requires alike { AreAlike self.old.rights from count }
        ensures count { length result.items ≡ count }
        ensures items { Have self.old.cells from result.items }
        ensures place { result.spot ≡ shared_after from result.spot.halved self.old.spot }
        ensures cells { self.new.cells ≡ self.old.cells }
        ensures rights { IsShared self.old.rights from count result.spot.halved self.new.rights }
        ensures spot { self.new.spot ≡ self.old.spot }
    {
        let (ptr, span) = self.kept.halve(from, count);
        self.out = with_shared(self.out, count);
        Slice::bound(Loose {
            ptr,
            len: count,
            frees: 0,
            span,
            title: Title::none(),
            alloc: self.alloc,
        })
    }

    /// Takes a share back at the place that it was made of, with the numbers that it had. If there are several shares
    /// of these places, the newest one must come first. Takes constant time and no memory, and copies nothing.
    #[inline(always)]
    pub fn merge(&mut self, from: usize, share: Slice)
        requires within { from + length share.items ≤ length self.old.cells }
        requires same { Have self.old.cells from share.items }
        requires newest { AreHalved self.old.rights from (length share.items) share.spot.halved }
        requires share { 0 < share.spot.halved }
        requires out { 0 < length share.items → self.old.spot.halved < share.spot.halved }
        requires place { share.spot ≡ shared_after from share.spot.halved self.old.spot }
        ensures cells { self.new.cells ≡ self.old.cells }
        ensures rights { AreMerged self.old.rights from (length share.items)
            share.spot.halved self.new.rights }
        ensures spot { self.new.spot ≡ self.old.spot }
    {
        let Loose {
            ptr: _,
            len,
            frees: _,
            span,
            title: spent,
            alloc: _,
        } = share.loosen();
        drop(spent);
        self.kept.heal(from, span);
        self.out = without_shared(self.out, len);
    }
}

// A block with nothing out is freed if it begins its memory. If a part or a share is out, the memory is not freed.
impl Drop for ArrayBlock {
    #[tactic(auto, using(crate::proofs::Missing::none_missing))]
    fn drop(self) {
        let ArrayBlock {
            kept,
            frees,
            out,
            title,
            alloc,
        } = self;
        let len = kept.row().len();
        if frees != 0 && frees == len && out == 0 {
            let (ptr, span) = kept.unkeep();
            free(&alloc, ptr, len, span, title);
        } else {
            drop(kept);
            drop(title);
        }
    }
}

impl fmt::Debug for ArrayBlock {
    fn fmt<W: fmt::Write>(&self, f: &mut fmt::Formatter<W>) -> fmt::Result {
        write!(f, "ArrayBlock({})", self.len())
    }
}

// Nothing else writes the block's part of the memory while the block exists.
unsafe impl Send for ArrayBlock {}
