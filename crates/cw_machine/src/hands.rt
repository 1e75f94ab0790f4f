//! Hands out the continuation of a block at a spawn, with the arrays of the waiting call.

ghost use Rattle.std.specs.Prelude.{◌≡◌, ◌+◌, ◌-◌, ◌<◌, ◌≤◌, ◌^◌, length, reverse, slice_range, IfOk, OnOk, OnErr};
ghost use Rattle.cw_machine.specs.RepresentsState.{StaysBut};
ghost use Rattle.cw_code.specs.Fits.{slots_lent};
ghost use Rattle.cw_machine.specs.Arrays as arrays;
ghost use Rattle.cw_machine.specs.Hands as hands;
ghost use Rattle.cw_machine.specs.Hands.{stays_here, IsLast, MayLend, HasLentOut, MayShare, HasShared, MayHandOne, HasHanded, MayHand, MayHandAll, HandsAll, Lends, HasMoreBare, HasGrown};

use crate::machine::{Frame, Machine};
use cw_code::code::Loan;
use cw_jobs::call::Rest;
use cw_runnable::verified::Verified;
use cw_slices::Slice;
use std::alloc::AllocError;

/// The call whose continuation was handed out.
#[derive(Clone, Copy, Debug)]
pub struct Lender {
    /// The index of its first array slot in the machine.
    pub first: usize,
    /// The number of its array slots. This many slices of the continuation belong to them.
    pub slots: usize,
}

// Whether a slot is in a list of slots.
fn is_among(a: usize, slots: &[u32]) -> bool
    ensures { result ≡ arrays.is_among a slots.now }
{
    for slot in slots {
        if *slot as usize == a {
            return true;
        }
    }
    false
}

// Whether one of these loans is a loan of the array in a slot.
fn is_lent(a: usize, lent: &[Loan]) -> bool
    ensures { result ≡ arrays.is_among a (slots_lent lent.now) }
{
    for loan in lent {
        match *loan {
            Loan::Array(b) => {
                if b as usize == a {
                    return true;
                }
            }
            Loan::Reader(_) => {}
        }
    }
    false
}

// Whether slice `a` of a continuation is a share: `a` is at least `slots`, so the call only reads the array, or the
// array in slot `a` was lent to the spawned call.
#[inline(always)]
pub(crate) fn is_shared(a: usize, slots: usize, lent: &[Loan]) -> bool
    ensures { result ≡ arrays.shares_slice slots (slots_lent lent.now) a }
{
    a >= slots || is_lent(a, lent)
}

// Adds slices without elements, so that there are at least `count`.
fn make_slices(slices: &mut Vec<Slice>, count: usize) -> Result<(), AllocError>
    ensures more { HasMoreBare slices.old.items slices.new.items }
    ensures enough { OnOk result (count ≤ length slices.new.items) }
{
    let alloc = *slices.allocator();
    for _k in slices.len()..count {
        slices.push(Slice::empty(alloc))?;
    }
    Ok(())
}

// Gives a continuation `cells` cells and `slices` slices. Not inlined, since a continuation that is reused usually
// has them.
#[cold]
#[inline(never)]
fn make_fit(rest: &mut Rest, cells: usize, slices: usize) -> Result<(), AllocError>
    ensures cells { OnOk result (length rest.new.cells.items ≡ cells) }
    ensures slices { OnOk result (length rest.new.slices.items ≡ slices) }
    ensures left { OnErr result (HasGrown rest.old rest.new) }
{
    make_slices(&mut rest.slices, slices)?;
    rest.cells.resize(cells, 0)?;
    rest.slices.truncate(slices);
    Ok(())
}

// Makes sure that a continuation has `cells` cells and `slices` slices.
#[inline(always)]
fn fit(rest: &mut Rest, cells: usize, slices: usize) -> Result<(), AllocError>
    ensures cells { OnOk result (length rest.new.cells.items ≡ cells) }
    ensures slices { OnOk result (length rest.new.slices.items ≡ slices) }
    ensures left { OnErr result (HasGrown rest.old rest.new) }
{
    if rest.cells.len() == cells && rest.slices.len() == slices {
        return Ok(());
    }
    make_fit(rest, cells, slices)?;
    Ok(())
}

impl Machine {
    // Whether an open block of the call whose first array slot is `first`, the newest call that has cuts, has cut the
    // array of a cell. The cells of cut arrays increase with the calls, so the search ends at the first one below
    // `first`.
    fn is_cut(&self, cell: usize, first: usize) -> bool
        ensures { result ≡ hands.is_cut_among cell first (reverse self.now.cuts.items) }
    {
        let count = self.cuts.len();
        for k in 0..count {
            let c = self.cuts[count - 1 - k];
            if c < first {
                return false;
            }
            if c == cell {
                return true;
            }
        }
        false
    }

    // Whether the array in a slot of the call whose first array slot is `first` stays here: the spawn took it, or an
    // open cut uses it.
    fn stays(&self, first: usize, a: usize, passed: &[u32]) -> bool
        requires { first + a < 2 ^ 64 }
        ensures { result ≡ stays_here self.now.cuts.items first passed.now a }
    {
        is_among(a, passed) || self.is_cut(first + a, first)
    }

    // Returns the frame of the newest waiting call.
    #[inline(always)]
    fn waiting(&self) -> Frame
        requires { 0 < length self.now.frames.items }
        ensures { IsLast self.now.frames.items result }
    {
        self.frames[self.frames.len() - 1]
    }

    // Copies the cells from `from` to `to` into a vector of the same length.
    fn copy_cells(&self, from: usize, to: usize, cells: &mut Vec<i64>)
        requires order { from ≤ to }
        requires there { to ≤ length self.now.cells.items }
        requires many { length cells.old.items ≡ to - from }
        ensures { cells.new.items ≡ slice_range self.now.cells.items from to }
    {
        cells.copy_from_slice(&self.cells[from..to]);
    }

    // Lends the array of a cell, unless it stays here or has no elements.
    #[inline(always)]
    fn lend_out(&mut self, cell: usize, stays: bool) -> Slice
        requires { MayLend self.old cell stays }
        ensures { HasLentOut self.old cell stays result self.new }
    {
        let v = self.views[cell];
        if stays || v.len == 0 {
            let alloc = *self.cells.allocator();
            return Slice::empty(alloc);
        }
        self.blocks.lend(v.block, v.from, v.len)
    }

    // Shares the array of a cell, if it has elements.
    #[inline(always)]
    fn share_out(&mut self, cell: usize) -> Slice
        requires { MayShare self.old cell }
        ensures { HasShared self.old cell result self.new }
    {
        let v = self.views[cell];
        if v.len == 0 {
            let alloc = *self.cells.allocator();
            return Slice::empty(alloc);
        }
        self.blocks.share(v.block, v.from, v.len)
    }

    // Returns the slice with index `a` for the call whose first array slot is `first`: a share, or the array itself
    // unless it stays here.
    #[inline(always)]
    fn hand_one(&mut self, first: usize, a: usize, shared: bool, passed: &[u32]) -> Slice
        requires { MayHandOne self.old first a shared passed.now }
        ensures { HasHanded self.old first a shared passed.now result self.new }
    {
        if shared {
            return self.share_out(first + a);
        }
        let stays = self.stays(first, a, passed);
        self.lend_out(first + a, stays)
    }

    // Hands out the arrays of the newest waiting call, each into the slice of its slot, and shares of the arrays that
    // it reads into the slices after these.
    #[inline(never)]
    fn hand_each(&mut self, lender: Lender, passed: &[u32], lent: &[Loan], slices: &mut Vec<Slice>)
        requires { ∥ MayHandAll self.old lender passed.now lent.now slices.old.items ∥₁ }
        ensures out { HandsAll self.old lender passed.now lent.now self.new slices.new.items }
        ensures as_many { length slices.new.items ≡ length slices.old.items }
    {
        for a in 0..slices.len() {
            let shared = is_shared(a, lender.slots, lent);
            slices[a] = self.hand_one(lender.first, a, shared, passed);
        }
    }

    // Hands out the arrays, if there are any. For a call without arrays it calls nothing.
    #[inline(always)]
    fn hand_arrays(
        &mut self,
        lender: Lender,
        passed: &[u32],
        lent: &[Loan],
        slices: &mut Vec<Slice>,
    )
        requires { ∥ MayHandAll self.old lender passed.now lent.now slices.old.items ∥₁ }
        ensures out { HandsAll self.old lender passed.now lent.now self.new slices.new.items }
        ensures as_many { length slices.new.items ≡ length slices.old.items }
    {
        if slices.is_empty() {
            return;
        }
        self.hand_each(lender, passed, lent, slices);
    }

    /// Hands out the continuation of the block that has just spawned a call: puts the slots and arrays of the newest
    /// waiting call into `rest`. The vectors of `rest` are reused, and their contents are replaced. `passed` lists the
    /// array slots that the spawn took, and `lent` lists what the spawned call only reads. The continuation gets
    /// shares of these arrays, and of the arrays that the waiting call reads. The machine continues unchanged while
    /// the arrays are out; `take_back` returns them. Returns the call whose continuation was handed out.
    ///
    /// # Errors
    ///
    /// `AllocError` if memory runs out. Then the machine is unchanged, and so is `rest`, except that it may have more
    /// slices without elements.
    #[inline(always)]
    pub fn hand_out(
        &mut self,
        code: &Verified,
        passed: &[u32],
        lent: &[Loan],
        rest: &mut Rest,
    ) -> Result<Lender, AllocError>
        requires { ∥ MayHand code.now self.old passed.now lent.now ∥₁ }
        ensures out { IfOk result (Lends code.now self.old passed.now lent.now self.new rest.new) }
        ensures rest { OnOk result (StaysBut self.old self.new) }
        ensures same { OnErr result (self.new ≡ self.old) }
        ensures left { OnErr result (HasGrown rest.old rest.new) }
    {
        let f = self.waiting();
        let count = self.first_array - f.first_array;
        fit(rest, self.first - f.first, count)?;
        rest.place = f.place;
        rest.depth = f.depth;
        self.copy_cells(f.first, self.first, &mut rest.cells);
        let lender = Lender {
            first: f.first_array,
            slots: count - code.readers_at(f.place),
        };
        self.hand_arrays(lender, passed, lent, &mut rest.slices);
        Ok(lender)
    }
}
