//! Sets of slots.

ghost use Rattle.std.specs.Prelude.{◌≡◌, ◌<◌};
ghost use Rattle.cw_model.specs.declared.limits.TheConstants.{MOST_DECLARED};
ghost use Rattle.cw_own.specs.Sets.{no_slot, with_slot, without_slot, either, both};
ghost use Rattle.cw_own.specs.Views.{set_of};

/// Represents a set of slots below 256, the maximum number of names that a function declares: slot `s` is bit
/// `s % 64` of word `s / 64`.
#[derive(Clone, Copy)]
pub struct Bits {
    pub words: [u64; 4],
}

impl Bits {
    /// Returns the empty set.
    pub fn none() -> Bits
        ensures { set_of result ≡ no_slot }
    {
        Bits { words: [0; 4] }
    }

    /// Reports whether a slot is in the set; slots from 256 on are not.
    pub fn has(&self, slot: u32) -> bool
        ensures { result ≡ set_of self.now slot }
    {
        match self.words.get((slot / 64) as usize) {
            Some(word) => (*word >> (slot % 64)) & 1 == 1,
            None => false,
        }
    }

    /// Adds a slot.
    pub fn add(&mut self, slot: u32)
        requires { slot < MOST_DECLARED }
        ensures { set_of self.new ≡ with_slot slot (set_of self.old) }
    {
        self.words[(slot / 64) as usize] |= 1 << (slot % 64);
    }

    /// Removes a slot.
    pub fn remove(&mut self, slot: u32)
        requires { slot < MOST_DECLARED }
        ensures { set_of self.new ≡ without_slot slot (set_of self.old) }
    {
        self.words[(slot / 64) as usize] &= !(1 << (slot % 64));
    }

    /// Returns the union of two sets.
    pub fn either(&self, other: &Bits) -> Bits
        ensures { set_of result ≡ either (set_of self.now) (set_of other.now) }
    {
        let (a, b) = (&self.words, &other.words);
        Bits {
            words: [a[0] | b[0], a[1] | b[1], a[2] | b[2], a[3] | b[3]],
        }
    }

    /// Returns the intersection of two sets.
    pub fn both(&self, other: &Bits) -> Bits
        ensures { set_of result ≡ both (set_of self.now) (set_of other.now) }
    {
        let (a, b) = (&self.words, &other.words);
        Bits {
            words: [a[0] & b[0], a[1] & b[1], a[2] & b[2], a[3] & b[3]],
        }
    }
}
