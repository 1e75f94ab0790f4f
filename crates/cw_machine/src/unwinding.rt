//! The return of arrays that are out to a machine that stopped, one call at a time, the newest call first.

ghost use Rattle.std.specs.Prelude.{◌≡◌, length};
ghost use Rattle.cw_machine.specs.Rests.{AreBare};
ghost use Rattle.cw_machine.specs.RepresentsState.{StaysBut};
ghost use Rattle.cw_machine.specs.Unwinding.{MayReturn, Returns};

use crate::gives::take_home;
use crate::hands::{Lender, is_shared};
use crate::machine::Machine;
use cw_code::code::Loan;
use cw_slices::Slice;

impl Machine {
    /// Takes back the arrays of the newest call that is out, `lender`, into a machine that stopped, whatever it
    /// executed before. The continuation of the call returned without being executed, or with its effect. `lent`
    /// lists what the spawned call was lent. If a new array was made in a slot, `replaced` holds the slot's own array
    /// before, and the new one afterwards. The slices are left without elements. Allocates nothing and cannot fail.
    pub fn return_slices(
        &mut self,
        lender: Lender,
        lent: &[Loan],
        slices: &mut Vec<Slice>,
        replaced: &mut Vec<Option<Slice>>,
    )
        requires { ∥ MayReturn self.old lender lent.now slices.old.items replaced.old.items ∥₁ }
        ensures remains { Returns self.old lender lent.now slices.old.items
            replaced.old.items self.new }
        ensures rest { StaysBut self.old self.new }
        ensures bare { AreBare slices.new.items }
        ensures as_many { length slices.new.items ≡ length slices.old.items }
    {
        let count = slices.len();
        for k in 0..count {
            let a = count - 1 - k;
            let home = take_home(slices, replaced, a);
            self.lay_at(lender.first, a, is_shared(a, lender.slots, lent), home);
        }
    }
}
