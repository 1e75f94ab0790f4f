//! Numbers for lists of enclosing sync blocks.

ghost use Rattle.std.specs.Prelude.{◌≡◌, replicate, slice_get};
ghost use Rattle.cw_verify.specs.Numbers as numbers;
ghost use Rattle.cw_verify.specs.Views as views;
ghost use Rattle.cw_verify.specs.Steps.{OrMemory};

use crate::meeting::Meeting;
use crate::round::{Rounds, compare};
use cw_code::code::Instr;
use cw_text::Fault;
use std::alloc::Global;

/// Two numbers, and how the blocks with the first number met those with the second.
#[derive(Clone, Copy, Debug)]
pub struct Pair {
    /// The number of the blocks that the pc had, not 0.
    pub there: u32,
    /// The number of the blocks that flowed to it, not 0.
    pub found: u32,
    /// How these blocks meet.
    pub meeting: Meeting,
}

/// Two pcs with the same number have the same enclosing blocks, so most blocks that meet need not be compared. A
/// state that flows through straight-line code meets the recorded states in the same way at each instruction.
#[derive(Drop)]
pub struct Numbers {
    /// For each pc the number of its enclosing blocks, 0 for none.
    pub places: Vec<u32>,
    /// The last number that was assigned.
    pub last: u32,
    /// The last two numbers whose blocks met, if there are any.
    pub pair: Option<Pair>,
}

impl Numbers {
    /// Returns numbers for `count` pcs, none of which has one yet.
    ///
    /// # Errors
    ///
    /// `Fault::Memory` if there is not enough memory.
    pub fn new(alloc: Global, count: usize) -> Result<Numbers, Fault>
        ensures places { OrMemory result (λ n. n.places.items ≡ replicate count 0) }
        ensures pair { OrMemory result (λ n. n.pair ≡ None) }
    {
        let mut places = Vec::new(alloc);
        for _i in 0..count {
            places.push(0)?;
        }
        Ok(Numbers {
            places,
            last: 0,
            pair: None,
        })
    }

    // Returns the number of the enclosing blocks of a pc.
    fn at(&self, k: usize) -> u32
        ensures { result ≡ numbers.number_of self.now.places.items k }
    {
        match self.places.get(k) {
            None => 0,
            Some(number) => *number,
        }
    }

    /// Assigns a number to a pc, if the pc exists.
    pub fn set(&mut self, k: usize, number: u32)
        ensures { numbers.IsSet k number self.old self.new }
    {
        if k < self.places.len() {
            self.places[k] = number;
        }
    }

    // Returns how two lists of blocks meet. Compares them only if their numbers do not decide it.
    fn meeting(&self, there: u32, found: u32, rounds: &Rounds, more: &Rounds) -> Meeting
        requires { numbers.KnowsBoth there found rounds.now more.now self.now }
        ensures { result ≡ views.meeting_of rounds.now more.now }
    {
        if there == 0 || found == 0 {
            return compare(rounds, more);
        }
        if there == found {
            return Meeting::Stays;
        }
        match self.pair {
            Some(pair) if pair.there == there && pair.found == found => pair.meeting,
            _ => compare(rounds, more),
        }
    }

    // Records how the blocks of two numbers meet, if neither number is 0.
    fn keep(&mut self, there: u32, found: u32, meeting: Meeting)
        ensures { numbers.IsKept there found meeting self.old self.new }
    {
        if there != 0 && found != 0 {
            self.pair = Some(Pair {
                there,
                found,
                meeting,
            });
        }
    }

    /// Returns how the enclosing blocks of a pc meet others with the number `number`, and assigns the number of the
    /// merged blocks to the pc.
    pub fn meet(&mut self, k: usize, number: u32, rounds: &Rounds, more: &Rounds) -> Meeting
        requires { numbers.KnowsAt k number rounds.now more.now self.old }
        ensures { numbers.HasMet k number result rounds.now more.now self.old self.new }
    {
        let here = self.at(k);
        let meeting = self.meeting(here, number, rounds, more);
        self.keep(here, number, meeting);
        self.set(k, number_after(meeting, here, number));
        meeting
    }

    /// Returns a number for the blocks after the instruction at a pc: the number of the pc if the instruction keeps
    /// the blocks, otherwise a new one; 0 if no number is left.
    pub fn next(&mut self, k: usize, i: &Instr) -> u32
        ensures { numbers.IsNext k i.now result self.old self.new }
    {
        let here = self.at(k);
        if here != 0 && keeps_blocks(i) {
            return here;
        }
        match self.last.checked_add(1) {
            None => 0,
            Some(number) => {
                self.last = number;
                number
            }
        }
    }
}

// Returns the number of the merged blocks, 0 if they have none.
fn number_after(meeting: Meeting, there: u32, found: u32) -> u32
    ensures { result ≡ numbers.number_after meeting there found }
{
    match meeting {
        Meeting::Apart => 0,
        Meeting::Stays => there,
        Meeting::Comes => found,
        Meeting::Both => 0,
    }
}

// Returns whether an instruction does not change the blocks that enclose the innermost one.
fn keeps_blocks(i: &Instr) -> bool
    ensures { result ≡ numbers.keeps_blocks i.now }
{
    match i {
        Instr::Cut(_, _) => false,
        Instr::EndCut => false,
        Instr::Open(_) => false,
        Instr::Close => false,
        _ => true,
    }
}
