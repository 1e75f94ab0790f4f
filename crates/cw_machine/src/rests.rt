//! The return of arrays that were handed out while their call waits.

ghost use Rattle.std.specs.Prelude.{◌≡◌, ◌+◌, length};
ghost use Rattle.cw_machine.specs.Rests.{MayTake, TakesHome, AreBare, MayLay, HasLaid};
ghost use Rattle.cw_code.specs.Fits.{slots_lent};

use crate::hands::is_shared;
use crate::machine::Machine;
use cw_code::code::Loan;
use cw_jobs::call::Rest;
use cw_slices::Slice;

impl Machine {
    // Returns a slice, a share or not, to its place in array `a` of the call whose first array slot is `first`. A
    // slice without elements has no place to return to.
    #[inline(always)]
    pub(crate) fn lay_at(&mut self, first: usize, a: usize, shared: bool, slice: Slice)
        requires { MayLay self.old (first + a) shared slice }
        ensures { HasLaid self.old (first + a) shared slice self.new }
    {
        if slice.len() == 0 {
            return;
        }
        let v = self.views[first + a];
        if shared {
            self.blocks.merge(v.block, v.from, slice);
        } else {
            self.blocks.give_back(v.block, v.from, slice);
        }
    }

    // Returns the arrays that were handed out with a continuation of the call that runs, each to its slot, the newest
    // share of an element first. Not inlined, since most continuations have none.
    #[inline(never)]
    fn lay_each(&mut self, rest: &mut Rest, slots: usize, lent: &[Loan])
        requires { ∥ MayTake self.old slots (slots_lent lent.now) rest.old.slices.items ∥₁ }
        ensures shows { TakesHome self.old slots lent.now rest.old.slices.items self.new }
        ensures bare { AreBare rest.new.slices.items }
        ensures as_many { length rest.new.slices.items ≡ length rest.old.slices.items }
        ensures cells { rest.new.cells.items ≡ rest.old.cells.items }
        ensures place { rest.new.place ≡ rest.old.place }
        ensures depth { rest.new.depth ≡ rest.old.depth }
    {
        let count = rest.slices.len();
        for k in 0..count {
            let a = count - 1 - k;
            let slice = rest.slices[a].take();
            self.lay_at(self.first_array, a, is_shared(a, slots, lent), slice);
        }
    }

    /// Takes back the arrays that were handed out with a continuation of the call that runs, into the slots from
    /// which they came. The machine continues as if they had never been handed out. The call has `slots` array slots,
    /// and `lent` lists what the spawned call was lent. The continuation keeps slices without elements; its cells are
    /// not read. Allocates nothing and cannot fail.
    #[inline(always)]
    pub fn take_back(&mut self, rest: &mut Rest, slots: usize, lent: &[Loan])
        requires { ∥ MayTake self.old slots (slots_lent lent.now) rest.old.slices.items ∥₁ }
        ensures shows { TakesHome self.old slots lent.now rest.old.slices.items self.new }
        ensures bare { AreBare rest.new.slices.items }
        ensures as_many { length rest.new.slices.items ≡ length rest.old.slices.items }
        ensures cells { rest.new.cells.items ≡ rest.old.cells.items }
        ensures place { rest.new.place ≡ rest.old.place }
        ensures depth { rest.new.depth ≡ rest.old.depth }
    {
        if rest.slices.is_empty() {
            return;
        }
        self.lay_each(rest, slots, lent);
    }
}
