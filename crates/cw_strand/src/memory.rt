//! The memory of a strand.

ghost use Rattle.std.specs.Prelude.{◌≡◌};
ghost use Rattle.cw_strand.specs.Holds.{outs, IsRunning};

use crate::strand::Strand;

// The bytes of a job that is out, besides the strand that has it.
const LENT: usize = 64;

impl Strand {
    /// Frees the memory that a waiting strand does not use: cells beyond those that its call may use, spare boxes, and spare
    /// room of its lists. Nothing else changes.
    #[inline(never)]
    pub fn trim(&mut self)
        ensures of { self.new.of ≡ self.old.of }
        ensures running { IsRunning self.old → IsRunning self.new }
        ensures outs { outs self.new ≡ outs self.old }
        ensures mode { self.new.mode ≡ self.old.mode }
        ensures counts { self.new.count ≡ self.old.count }
    {
        self.run.machine.trim(&self.parts.code);
        self.run.meter.trim();
        self.spares = Vec::new(*self.lent.allocator());
    }

    /// Returns its memory, in bytes: that of its lists and of the arrays that were made in it; of one that has more than
    /// `enough`, any number above it.
    pub fn bytes(&self, enough: usize) -> usize {
        let given = self.parts.rest.slices.len();
        let meter = self.run.meter.bytes();
        let lent = self.lent.capacity().saturating_mul(LENT);
        let least = meter.saturating_add(lent);
        least.saturating_add(self.run.machine.bytes(given, enough))
    }
}
