//! The record of how a worker's offers paid off.

/// A job was worth its theft if at least this number of its instructions was executed by others.
const WORTH: u64 = 16_000;

/// The number of consecutive offers in vain after which a worker pauses.
const ENOUGH: u32 = 8;

/// The number of offers after a pause that test whether offers are still in vain.
const MORE: u32 = 2;

/// The maximum length of a pause, in calls of `are_enough`.
const LONGEST: u32 = 256;

/// The number of a worker's consecutive jobs that returned without having paid off.
#[derive(Drop)]
pub(crate) struct Offers {
    in_vain: u32,
    // The remaining length of this pause, and the length of the next one if offers are in vain again.
    left: u32,
    next: u32,
    // Whether any job was worth its theft.
    paid: bool,
}

impl Offers {
    /// Creates the record of a worker that has made no offer.
    pub(crate) fn new() -> Offers {
        Offers {
            in_vain: 0,
            left: 0,
            next: 1,
            paid: false,
        }
    }

    /// Records that a job that was handed out has returned, and that others executed `done` of its instructions.
    #[inline(always)]
    pub(crate) fn judge(&mut self, done: u64) {
        if done < WORTH {
            self.in_vain = self.in_vain.saturating_add(1);
        } else {
            self.in_vain = 0;
            self.left = 0;
            self.paid = true;
        }
    }

    /// Returns whether the worker is to make no offer now. As long as no job was ever worth its theft, each pause is
    /// twice as long as the one before, up to `LONGEST`.
    #[inline(always)]
    pub(crate) fn are_enough(&mut self) -> bool {
        if self.left > 0 {
            self.left -= 1;
            return true;
        }
        if self.in_vain < ENOUGH {
            return false;
        }
        self.in_vain = ENOUGH - MORE;
        if !self.paid {
            self.left = self.next.saturating_sub(1);
            self.next = self.next.saturating_mul(2).min(LONGEST);
        }
        true
    }
}
