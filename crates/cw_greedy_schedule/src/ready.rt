//! The ready strands of a schedule, with the number of instructions that each has left.

ghost use Rattle.std.specs.Prelude.{◌≡◌, ◌<◌, ◌≤◌, length, Some, None, IfOk, slice_set, slice_get};
ghost use Rattle.cw_greedy.specs.Slots.{nones, ready_slots};
ghost use Rattle.cw_greedy_schedule.specs.Boards.{least_slot, Advances};

use crate::board::Board;
use crate::line::ReadyList;
use std::alloc::{AllocError, Global};
use std::marker::Model;

// For at most this number of processors the strands are in a line. A line is traversed once for each strand, as far
// as strands run, which takes less time than a board.
const FEW: u64 = 64;

/// A place for each strand of a schedule. A place holds the number of instructions that its strand has left, or
/// nothing if the strand is not ready.
#[derive(Drop)]
pub struct Ready {
    kept: ReadyStore,
}

#[derive(Drop)]
enum ReadyStore {
    // For few processors.
    InLine(ReadyList),
    OnBoard(Board),
}

impl Model for Ready {
    ghost use Rattle.cw_greedy.specs.Slots.{Slots};

    ghost Value = { Slots };

    ghost use Rattle.cw_greedy_schedule.specs.Lines.{kept_in, IsKept};

    ghost view = { λ r. kept_in r.kept };

    ghost invariant = { λ r. IsKept r.kept };
}

impl Ready {
    /// Creates `places` places, for a schedule on this number of processors. No strand is ready.
    ///
    /// # Errors
    ///
    /// `AllocError` if memory runs out.
    pub fn new(alloc: Global, places: usize, processors: u64) -> Result<Ready, AllocError>
        requires { 1 ≤ places }
        ensures { IfOk result (λ r. r ≡ nones places) }
    {
        if processors <= FEW {
            let kept = ReadyStore::InLine(ReadyList::new(alloc, places)?);
            return Ok(Ready { kept });
        }
        let kept = ReadyStore::OnBoard(Board::new(alloc, places)?);
        Ok(Ready { kept })
    }

    /// Makes the strand at a place ready, with `left` instructions left.
    pub fn put(&mut self, place: usize, left: u64)
        requires { place < length self.old }
        ensures { self.new ≡ slice_set self.old place (Some left) }
    {
        match &mut self.kept {
            ReadyStore::InLine(line) => line.put(place, left),
            ReadyStore::OnBoard(board) => board.put(place, left),
        }
    }

    /// Removes a ready strand that has no instruction left, and returns its place.
    pub fn take(&mut self) -> usize
        requires { least_slot self.old ≡ Some 0 }
        ensures place { slice_get self.old result ≡ Some (Some 0) }
        ensures taken { self.new ≡ slice_set self.old result None }
    {
        match &mut self.kept {
            ReadyStore::InLine(line) => line.take(),
            ReadyStore::OnBoard(board) => board.take(),
        }
    }

    /// Lets the first ready strands, at most one for each processor, execute instructions until a ready strand has
    /// none left. Returns the number of instructions that each of them executes: 0 if a ready strand has none left
    /// already, otherwise the minimum that one of the first strands has left.
    pub fn advance(&mut self, processors: u64) -> u64
        requires processors { 1 ≤ processors }
        requires ready { 1 ≤ ready_slots self.old }
        ensures done { least_slot self.new ≡ Some 0 }
        ensures advances { Advances processors result self.old self.new }
    {
        match &mut self.kept {
            ReadyStore::InLine(line) => line.advance(processors),
            ReadyStore::OnBoard(board) => board.advance(processors),
        }
    }
}
