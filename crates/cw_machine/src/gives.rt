//! Takes back a continuation that was executed elsewhere: its arrays and values return to the machine, which
//! continues from the place that the continuation reached. `giving.rt` of `cw_strand` joins its lines, totals and
//! measures.

ghost use Rattle.std.specs.Prelude.{◌≡◌, ◌≢◌, ℕ, ◌+◌, ◌<◌, ◌≤◌, length, Some, slice_get, MatchBool, OnOk};
ghost use Rattle.std.specs.Option.{option_flatten};
ghost use Rattle.cw_slices.specs.Placed.{IsOwn};
ghost use Rattle.cw_jobs.specs.Jobs as jobs;
ghost use Rattle.cw_machine.specs.RepresentsState.{Stays, StaysBut};
ghost use Rattle.cw_machine.specs.Rests.{AreBare};
ghost use Rattle.cw_machine.specs.Gives.{IsTaken, IsExchanged, AreMade, MayTakeNew, HasNew, LaysCell, LaysCells, MayLayHomes, Homes, MayMake, LaysMade, MayGiveRest, Brings};

use crate::hands::is_shared;
use crate::machine::{Machine, View};
use cw_code::code::Loan;
use cw_jobs::call::Rest;
use cw_slices::{ArrayBlock, Slice};
use std::alloc::AllocError;
use std::mem;

// Takes the array that returns to a slot. A new array that was made in the slot stays in `replaced`, at its index.
pub(crate) fn take_home(
    slices: &mut Vec<Slice>,
    replaced: &mut Vec<Option<Slice>>,
    a: usize,
) -> Slice
    requires { a < length slices.old.items }
    ensures home { result ≡ jobs.home_of slices.old.items replaced.old.items a }
    ensures taken { IsTaken slices.old.items a slices.new.items }
    ensures made { IsExchanged slices.old.items replaced.old.items a replaced.new.items }
{
    let slice = slices[a].take();
    if a >= replaced.len() {
        return slice;
    }
    let own = mem::replace(&mut replaced[a], None);
    match own {
        Some(home) => {
            replaced[a] = Some(slice);
            home
        }
        None => slice,
    }
}

// Takes the new array of a slot, if one was made.
fn take_new(made: &mut Vec<Option<Slice>>, a: usize) -> Option<Slice>
    ensures taken { result ≡ option_flatten (slice_get made.old.items a) }
    ensures others { (b : ℕ) → b ≢ a → slice_get made.new.items b ≡ slice_get made.old.items b }
{
    if a >= made.len() {
        return None;
    }
    mem::replace(&mut made[a], None)
}

// Whether a slot is the target that already holds the result of the spawned call.
fn is_target(target: Option<u32>, k: usize) -> bool
    ensures { MatchBool result (target ≡ Some k) (Some k ≢ target) }
{
    match target {
        Some(a) => a as usize == k,
        None => false,
    }
}

impl Machine {
    // Puts the new array, if there is one, into an array slot of the call that runs, in a block of its own.
    fn lay_new(&mut self, a: usize, slot: Option<Slice>) -> Result<(), AllocError>
        requires { MayTakeNew self.old (self.old.first_array + a) slot }
        ensures { OnOk result (HasNew self.old (self.old.first_array + a) slot self.new) }
    {
        match slot {
            Some(slice) => {
                let cell = self.first_array + a;
                let len = slice.len();
                self.blocks.put(cell, ArrayBlock::of(slice))?;
                self.views[cell] = View {
                    block: cell,
                    from: 0,
                    len,
                };
            }
            None => {}
        }
        Ok(())
    }

    // Returns each array to its slot, the newest share of an element first. Afterwards `replaced` holds the new
    // arrays.
    fn lay_returned(
        &mut self,
        slices: &mut Vec<Slice>,
        replaced: &mut Vec<Option<Slice>>,
        slots: usize,
        lent: &[Loan],
    )
        requires { ∥ MayLayHomes self.old slots lent.now slices.old.items replaced.old.items ∥₁ }
        ensures shows { Homes self.old slots lent.now slices.old.items replaced.old.items self.new }
        ensures rest { StaysBut self.old self.new }
        ensures made { AreMade slices.old.items replaced.old.items replaced.new.items }
        ensures bare { AreBare slices.new.items }
        ensures as_many { length slices.new.items ≡ length slices.old.items }
    {
        let count = slices.len();
        for k in 0..count {
            let a = count - 1 - k;
            let home = take_home(slices, replaced, a);
            self.lay_at(self.first_array, a, is_shared(a, slots, lent), home);
        }
    }

    // Puts each new array into its slot; there are `count` slots.
    fn lay_made(&mut self, made: &mut Vec<Option<Slice>>, count: usize) -> Result<(), AllocError>
        requires { ∥ MayMake self.old made.old.items count ∥₁ }
        ensures shows { OnOk result (LaysMade self.old made.old.items count self.new) }
        ensures rest { OnOk result (StaysBut self.old self.new) }
    {
        for a in 0..count {
            let slot = take_new(made, a);
            self.lay_new(a, slot)?;
        }
        Ok(())
    }

    // Writes the value of a slot or operand, except for the slot that already holds the result of the spawned call.
    fn lay_cell(&mut self, k: usize, v: i64, target: Option<u32>)
        requires { self.old.first ≤ length self.old.cells.items }
        ensures cells { LaysCell self.old k v target self.new }
        ensures place { self.new.place ≡ self.old.place }
        ensures rest { Stays self.old self.new }
    {
        if is_target(target, k) || k >= self.cells.len() - self.first {
            return;
        }
        let at = self.first + k;
        self.cells[at] = v;
    }

    // Writes the values of slots and operands, as far as there is room for them.
    fn lay_cells(&mut self, cells: &Vec<i64>, target: Option<u32>)
        requires { self.old.first ≤ length self.old.cells.items }
        ensures cells { LaysCells self.old cells.now.items target self.new }
        ensures place { self.new.place ≡ self.old.place }
        ensures rest { Stays self.old self.new }
    {
        for k in 0..cells.len() {
            self.lay_cell(k, cells[k], target);
        }
    }

    /// Takes back a continuation of the call that runs, which was executed elsewhere up to its join. Its arrays
    /// return to where they were, with their current elements; if a new array was made in a slot, `replaced` holds
    /// the slot's own array. The call takes the values of the continuation, except for the slot `target` of the
    /// spawned call, which already holds its result, and continues at the continuation's place. The call has `slots`
    /// array slots, and `lent` lists what the spawned call was lent. The continuation keeps slices without elements.
    ///
    /// # Errors
    ///
    /// `AllocError` if there is no memory for a new array. Then nothing is known of the machine.
    pub fn give_rest(
        &mut self,
        back: &mut Rest,
        replaced: &mut Vec<Option<Slice>>,
        slots: usize,
        lent: &[Loan],
        target: Option<u32>,
    ) -> Result<(), AllocError>
        requires { ∥ MayGiveRest self.old back.old replaced.old.items slots lent.now target ∥₁ }
        ensures shows { OnOk result (Brings self.old back.old replaced.old.items slots lent.now
            target self.new) }
        ensures bare { AreBare back.new.slices.items }
        ensures as_many { length back.new.slices.items ≡ length back.old.slices.items }
    {
        self.lay_returned(&mut back.slices, replaced, slots, lent);
        self.lay_made(replaced, slots)?;
        self.lay_cells(&back.cells, target);
        self.place = back.place;
        Ok(())
    }
}
