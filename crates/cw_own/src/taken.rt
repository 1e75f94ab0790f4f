//! The locals that are taken or frozen.

ghost use Rattle.std.specs.Prelude.{◌≡◌, ◌<◌};
ghost use Rattle.cw_model.specs.declared.limits.TheConstants.{MOST_DECLARED};
ghost use Rattle.cw_own.specs.Sets.{row_of};
ghost use Rattle.cw_own.specs.Taken.{nothing, inside, inside_cut, joined, after_branches, taken_of};
ghost use Rattle.cw_own.specs.Reasons.{int_holder, array_taker, array_reader, array_holder};

use crate::bits::Bits;
use crate::findings::Watch;
use crate::reason::{Holder, Start};
use crate::restrictions::Restrictions;
use crate::row::Row;

/// Holds what is held by the spawns of the enclosing sync blocks, what is held by the spawns of the innermost sync
/// block, and the arrays that are cut.
///
/// A join frees only what the spawns of its own sync block hold. So the first part does not change inside a sync
/// block, and after the sync block the parts are again what they were before it.
#[derive(Clone, Copy)]
pub struct Taken {
    pub outer: Restrictions,
    pub here: Restrictions,
    pub cuts: Bits,
    /// The line since which the watched local is cut.
    pub cut_since: Option<u32>,
}

// Returns the start of holding by a spawn of an enclosing sync block, or otherwise by a holder in the innermost one.
fn since(outer: Option<u32>, here: Option<u32>) -> Option<Start> {
    let line = outer.or(here)?;
    let is_around = outer.is_some();
    Some(Start { line, is_around })
}

impl Taken {
    /// Returns a value that holds nothing.
    pub fn nothing() -> Taken
        ensures { taken_of result ≡ nothing }
    {
        Taken {
            outer: Restrictions::none(),
            here: Restrictions::none(),
            cuts: Bits::none(),
            cut_since: None,
        }
    }

    /// Returns the holder that took an integer, if it is taken.
    pub fn int_holder(&self, slot: u32) -> Option<Holder>
        ensures { result ≡ int_holder (taken_of self.now) slot }
    {
        if self.outer.taken.ints.has(slot) || self.here.taken.ints.has(slot) {
            return Some(Holder::Result);
        }
        None
    }

    /// Returns the holder that took an array, if it is taken; a spawn that only reads an array does not take it.
    pub fn array_taker(&self, slot: u32) -> Option<Holder>
        ensures { result ≡ array_taker (taken_of self.now) slot }
    {
        if self.outer.taken.arrays.has(slot) || self.here.taken.arrays.has(slot) {
            return Some(Holder::Argument);
        }
        if self.cuts.has(slot) {
            return Some(Holder::Cut);
        }
        None
    }

    // Returns the holder that only reads an array, if there is one.
    fn array_reader(&self, slot: u32) -> Option<Holder>
        ensures { result ≡ array_reader (taken_of self.now) slot }
    {
        if self.outer.frozen.has(slot) || self.here.frozen.has(slot) {
            return Some(Holder::Reader);
        }
        None
    }

    /// Returns the holder of an array, if it is held.
    pub fn array_holder(&self, slot: u32) -> Option<Holder>
        ensures { result ≡ array_holder (taken_of self.now) slot }
    {
        self.array_taker(slot).or(self.array_reader(slot))
    }

    /// Returns the start of this holder's hold on the watched local.
    pub fn since(&self, holder: Holder) -> Option<Start> {
        match holder {
            Holder::Result | Holder::Argument => {
                since(self.outer.since.taken, self.here.since.taken)
            }
            Holder::Reader => since(self.outer.since.frozen, self.here.since.frozen),
            Holder::Cut => since(None, self.cut_since),
        }
    }

    /// Returns the locals held at the start of a sync block.
    pub fn inside(&self) -> Taken
        ensures { taken_of result ≡ inside (taken_of self.now) }
    {
        Taken {
            outer: self.outer.either(&self.here),
            here: Restrictions::none(),
            ..*self
        }
    }

    /// Applies a join or the end of a sync block: its own spawns hold nothing then.
    pub fn join(&mut self)
        ensures { taken_of self.new ≡ joined (taken_of self.old) }
    {
        self.here.clear();
    }

    /// Returns the locals held after two branches: the known locals that either branch leaves held.
    pub fn after_branches(known: &Row, branch: &Taken, other: &Taken, watch: &Watch) -> Taken
        ensures { taken_of result
            ≡ after_branches (row_of known.now) (taken_of branch.now) (taken_of other.now) }
    {
        let left = branch.here.within(known, watch);
        Taken {
            here: left.either(&other.here.within(known, watch)),
            cuts: branch.cuts.either(&other.cuts),
            ..*branch
        }
    }

    /// Returns the locals held at the start of the block of a cut of this array.
    pub fn inside_cut(&self, array: u32, watch: &Watch) -> Taken
        requires { array < MOST_DECLARED }
        ensures { taken_of result ≡ inside_cut array (taken_of self.now) }
    {
        let mut inside = self.inside();
        inside.cuts.add(array);
        if watch.is_array(array) {
            inside.cut_since = Some(watch.line);
        }
        inside
    }
}
