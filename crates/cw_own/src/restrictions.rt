//! The locals that the spawns of a sync block hold.

ghost use Rattle.std.specs.Prelude.{◌≡◌, ◌<◌};
ghost use Rattle.cw_model.specs.declared.limits.TheConstants.{MOST_DECLARED};
ghost use Rattle.cw_own.specs.Sets.{row_of};
ghost use Rattle.cw_own.specs.Taken.{no_restrictions, taking_int, taking_array, freezing, either_restrictions, restrictions_within, restrictions_of};

use crate::bits::Bits;
use crate::findings::Watch;
use crate::row::Row;

/// Holds the lines since which the watched local is taken and frozen.
#[derive(Clone, Copy)]
pub struct Since {
    pub taken: Option<u32>,
    pub frozen: Option<u32>,
}

/// Holds the locals that spawns took, the arrays that they froze, which may only be read until the join, and the
/// lines since which they hold the watched local.
#[derive(Clone, Copy)]
pub struct Restrictions {
    pub taken: Row,
    pub frozen: Bits,
    pub since: Since,
}

impl Restrictions {
    /// Returns a value that holds nothing.
    pub fn none() -> Restrictions
        ensures { restrictions_of result ≡ no_restrictions }
    {
        Restrictions {
            taken: Row::none(),
            frozen: Bits::none(),
            since: Since {
                taken: None,
                frozen: None,
            },
        }
    }

    /// Takes an integer.
    pub fn take_int(&mut self, slot: u32, watch: &Watch)
        requires { slot < MOST_DECLARED }
        ensures { restrictions_of self.new ≡ taking_int slot (restrictions_of self.old) }
    {
        self.taken.add_int(slot);
        if watch.is_int(slot) {
            self.since.taken = self.since.taken.or(Some(watch.line));
        }
    }

    /// Takes an array.
    pub fn take_array(&mut self, slot: u32, watch: &Watch)
        requires { slot < MOST_DECLARED }
        ensures { restrictions_of self.new ≡ taking_array slot (restrictions_of self.old) }
    {
        self.taken.add_array(slot);
        if watch.is_array(slot) {
            self.since.taken = self.since.taken.or(Some(watch.line));
        }
    }

    /// Freezes an array.
    pub fn freeze(&mut self, slot: u32, watch: &Watch)
        requires { slot < MOST_DECLARED }
        ensures { restrictions_of self.new ≡ freezing slot (restrictions_of self.old) }
    {
        self.frozen.add(slot);
        if watch.is_array(slot) {
            self.since.frozen = self.since.frozen.or(Some(watch.line));
        }
    }

    /// Releases everything that is held.
    pub fn clear(&mut self)
        ensures { restrictions_of self.new ≡ no_restrictions }
    {
        *self = Restrictions::none();
    }

    /// Returns the union of two values.
    pub fn either(&self, other: &Restrictions) -> Restrictions
        ensures { restrictions_of result ≡ either_restrictions (restrictions_of self.now) (restrictions_of other.now) }
    {
        Restrictions {
            taken: self.taken.either(&other.taken),
            frozen: self.frozen.either(&other.frozen),
            since: Since {
                taken: self.since.taken.or(other.since.taken),
                frozen: self.since.frozen.or(other.since.frozen),
            },
        }
    }

    /// Returns the part of these locals that is held.
    pub fn within(&self, known: &Row, watch: &Watch) -> Restrictions
        ensures { restrictions_of result ≡ restrictions_within (row_of known.now) (restrictions_of self.now) }
    {
        Restrictions {
            taken: known.both(&self.taken),
            frozen: known.arrays.both(&self.frozen),
            since: self.since.within(known, watch),
        }
    }
}

impl Since {
    // Returns the lines if the watched local is one of these locals.
    fn within(&self, known: &Row, watch: &Watch) -> Since {
        if watch.is_in(known) {
            return *self;
        }
        Since {
            taken: None,
            frozen: None,
        }
    }
}
