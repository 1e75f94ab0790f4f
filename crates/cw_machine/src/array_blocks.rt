//! The blocks of the array slots of a machine.

ghost use Rattle.std.specs.Prelude.{◌≡◌, ◌≢◌, ℕ, ◌+◌, ◌<◌, ◌≤◌, ◌^◌, ℤ, [], length, take, Some, slice_get, slice_set, MatchOption, OnErr, OnOk};
ghost use Rattle.cw_slices.specs.Blocks.{ins, Have, AreIn, AreOut, AreHalved, AreAlike};
ghost use Rattle.cw_slices.specs.Placed.{after, shared_after};
ghost use Rattle.cw_machine.specs.Arrays as arrays;
ghost use Rattle.cw_machine.specs.Padded as padded;
ghost use Rattle.cw_machine.specs.Renewed.{HasZeros};

use cw_slices::{ArrayBlock, Slice};
use std::alloc::{AllocError, Global};
use std::marker::Model;

// The bytes of a block.
const BLOCK: usize = 32;

/// A block for each array slot of each call, the oldest call first. Memory is taken only for those up to the newest
/// array: the blocks after it have no numbers.
#[derive(Drop, Debug)]
pub struct ArrayBlocks {
    made: Vec<ArrayBlock>,
    len: usize,
    // A block without numbers, as which each block after the last one of `made` counts.
    none: ArrayBlock,
}

impl Model for ArrayBlocks {
    ghost use Rattle.std.specs.Prelude.{◌≤◌, length};
    ghost use Rattle.cw_machine.specs.Padded.{ArrayList, array_list_code, padded, IsNone};

    ghost Value = { ArrayList };

    ghost coded = { array_list_code };

    ghost view = { λ b. record { items = padded b.none b.made.items b.len } };

    ghost invariant = { λ b. (length b.made.items ≤ b.len) × IsNone b.none };
}

// Returns a block without numbers that can be shown any number of times.
fn none_of(alloc: Global) -> ArrayBlock
    ensures { padded.IsNone result }
{
    let mut empty = ArrayBlock::empty(alloc);
    ArrayBlock::of(empty.lend(0, 0))
}

// Adds blocks without numbers, so that there is one at an index.
fn reach(made: &mut Vec<ArrayBlock>, none: &mut ArrayBlock, index: usize) -> Result<(), AllocError>
    requires { padded.IsNone none.old }
    ensures same { none.new ≡ none.old }
    ensures more { padded.HasReached none.old made.old.items index made.new.items }
    ensures there { OnOk result (index < length made.new.items) }
{
    while made.len() <= index {
        made.push(ArrayBlock::of(none.lend(0, 0)))?;
    }
    Ok(())
}

impl ArrayBlocks {
    // Returns these blocks, and blocks without numbers after them, `len` in all.
    pub(crate) fn of(made: Vec<ArrayBlock>, len: usize) -> ArrayBlocks
        requires { length made.items ≤ len }
        ensures { padded.Begins made.items len result.items }
    {
        let alloc = *made.allocator();
        ArrayBlocks {
            made,
            len,
            none: none_of(alloc),
        }
    }

    // Adds blocks without numbers, so that there are `len`.
    #[inline(always)]
    pub(crate) fn lengthen(&mut self, len: usize)
        requires { length self.old.items ≤ len }
        ensures { padded.HasLengthened self.old.items len self.new.items }
    {
        self.len = len;
    }

    // Drops the blocks from an index on.
    #[inline(always)]
    pub(crate) fn truncate(&mut self, len: usize)
        ensures { self.new.items ≡ take len self.old.items }
    {
        self.made.truncate(len);
        if len < self.len {
            self.len = len;
        }
    }

    // Returns number `k` of a block.
    #[inline(always)]
    pub(crate) fn get(&self, block: usize, k: usize) -> i64
        requires { (x : ℤ) × arrays.found self.now.items block k ≡ Some x }
        ensures { arrays.found self.now.items block k ≡ Some result }
    {
        self.made[block].get(k)
    }

    // Writes number `k` of a block. No share of it may be out.
    #[inline(always)]
    pub(crate) fn set(&mut self, block: usize, k: usize, x: i64)
        requires there { (y : ℤ) × arrays.found self.old.items block k ≡ Some y }
        requires own { slice_get (arrays.block self.old.items block).rights k ≡ Some 0 }
        ensures { self.new.items ≡ arrays.put self.old.items block k x }
    {
        self.made[block].set(k, x);
    }

    // Replaces a block. The error is that memory runs out.
    pub(crate) fn put(&mut self, index: usize, block: ArrayBlock) -> Result<(), AllocError>
        requires { index < length self.old.items }
        ensures { OnOk result (self.new.items ≡ slice_set self.old.items index block) }
    {
        reach(&mut self.made, &mut self.none, index)?;
        self.made[index] = block;
        Ok(())
    }

    // Replaces a block by `len` zeros. It frees the old block first, so that the two never exist at the same time. The
    // error is that memory runs out.
    pub(crate) fn renew(&mut self, index: usize, len: usize) -> Result<(), AllocError>
        requires there { index < length self.old.items }
        requires small { len < 2 ^ 60 }
        ensures { OnOk result (HasZeros self.old.items index len self.new.items) }
    {
        let alloc = *self.made.allocator();
        reach(&mut self.made, &mut self.none, index)?;
        self.made[index] = ArrayBlock::empty(alloc);
        self.made[index] = ArrayBlock::zeros(alloc, len)?;
        Ok(())
    }

    // Returns a block, or `None` for one that takes no memory.
    #[inline(always)]
    pub(crate) fn at(&self, index: usize) -> Option<&ArrayBlock>
        ensures { MatchOption result (arrays.IsBare (arrays.block self.now.items index))
            (λ b. b.now ≡ arrays.block self.now.items index) }
    {
        if index < self.made.len() {
            Some(&self.made[index])
        } else {
            None
        }
    }

    // Returns the length of a block.
    #[inline(always)]
    pub(crate) fn len_of(&self, index: usize) -> usize
        ensures value { result ≡ length (arrays.block self.now.items index).cells }
        ensures small { result < 2 ^ 60 }
    {
        match self.at(index) {
            Some(block) => block.len(),
            None => 0,
        }
    }

    // Moves out the numbers of a block with nothing out.
    pub(crate) fn take(&mut self, index: usize) -> Slice
        requires index { index < length self.old.items }
        requires there { padded.IsAllIn (arrays.block self.old.items index) }
        ensures items { ins result.items ≡ (arrays.block self.old.items index).cells }
        ensures spot { result.spot ≡ (arrays.block self.old.items index).spot }
        ensures others { (b : ℕ) → b ≢ index → arrays.block self.new.items b
            ≡ arrays.block self.old.items b }
        ensures as_many { length self.new.items ≡ length self.old.items }
    {
        if index < self.made.len() {
            self.made[index].take()
        } else {
            self.none.lend(0, 0)
        }
    }

    // Lends `count` numbers of a block, from `from` on, as a slice.
    pub(crate) fn lend(&mut self, index: usize, from: usize, count: usize) -> Slice
        requires some { 0 < count }
        requires within { from + count ≤ length (arrays.block self.old.items index).cells }
        requires there { AreIn (arrays.block self.old.items index).cells from count }
        requires whole { AreHalved (arrays.block self.old.items index).rights from count
            (arrays.block self.old.items index).spot.halved }
        ensures count { length result.items ≡ count }
        ensures items { Have (arrays.block self.old.items index).cells from result.items }
        ensures place { result.spot ≡ after from (arrays.block self.old.items index).spot }
        ensures blocks { self.new.items ≡ padded.after_lend self.old.items index from count }
    {
        self.made[index].lend(from, count)
    }

    // Shares `count` numbers of a block, from `from` on.
    pub(crate) fn share(&mut self, index: usize, from: usize, count: usize) -> Slice
        requires some { 0 < count }
        requires within { from + count ≤ length (arrays.block self.old.items index).cells }
        requires there { AreIn (arrays.block self.old.items index).cells from count }
        requires alike { AreAlike (arrays.block self.old.items index).rights from count }
        ensures count { length result.items ≡ count }
        ensures items { Have (arrays.block self.old.items index).cells from result.items }
        ensures place { result.spot ≡ shared_after from result.spot.halved
            (arrays.block self.old.items index).spot }
        ensures right { padded.HasHalved (arrays.block self.old.items index).rights from count
            result.spot.halved }
        ensures blocks { self.new.items ≡ padded.after_share self.old.items index from count
            result.spot.halved }
    {
        self.made[index].share(from, count)
    }

    // Returns a lent slice to its place in a block.
    pub(crate) fn give_back(&mut self, index: usize, from: usize, slice: Slice)
        requires some { 0 < length slice.items }
        requires within { from + length slice.items
            ≤ length (arrays.block self.old.items index).cells }
        requires out { AreOut (arrays.block self.old.items index).cells from (length slice.items) }
        requires whole { AreHalved (arrays.block self.old.items index).rights from
            (length slice.items) (arrays.block self.old.items index).spot.halved }
        requires place { slice.spot ≡ after from (arrays.block self.old.items index).spot }
        ensures { self.new.items ≡ padded.after_return self.old.items index from slice.items }
    {
        self.made[index].give_back(from, slice);
    }

    // Returns a share to its place in a block.
    pub(crate) fn merge(&mut self, index: usize, from: usize, share: Slice)
        requires some { 0 < length share.items }
        requires within { from + length share.items
            ≤ length (arrays.block self.old.items index).cells }
        requires same { Have (arrays.block self.old.items index).cells from share.items }
        requires newest { AreHalved (arrays.block self.old.items index).rights from
            (length share.items) share.spot.halved }
        requires out { (arrays.block self.old.items index).spot.halved < share.spot.halved }
        requires place { share.spot ≡ shared_after from share.spot.halved
            (arrays.block self.old.items index).spot }
        ensures { self.new.items ≡ padded.after_merge self.old.items index from
            (length share.items) share.spot.halved }
    {
        self.made[index].merge(from, share);
    }

    // Gives back the memory that is not used.
    pub(crate) fn shrink_to_fit(&mut self)
        ensures { self.new.items ≡ self.old.items }
    {
        self.made.shrink_to_fit();
    }

    // Returns the memory of the list, in bytes.
    pub(crate) fn list_bytes(&self) -> usize {
        self.made.capacity().saturating_mul(BLOCK)
    }

    // Returns the number of blocks that take memory.
    pub(crate) fn count_made(&self) -> usize {
        self.made.len()
    }
}
