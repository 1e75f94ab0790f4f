//! A board: the first ready strands run, each with the time at which it ends, and the other ready strands wait.

ghost use Rattle.std.specs.Prelude.{◌≡◌, ◌↔◌, ◌+◌, ◌<◌, ◌≤◌, length, Some, None, IfOk, IsTrue, slice_set, slice_get};
ghost use Rattle.cw_greedy.specs.Slots.{nones, ready_slots, run_slots};
ghost use Rattle.cw_greedy_schedule.specs.Boards.{least_first, least_slot, left_at, lowered, minus, shown, Advances, EndFrom, Full, HasRoom, Keeps, Moves};
ghost use Rattle.cw_greedy_schedule.specs.Boards as boards;

use crate::line::ReadyList;
use crate::rows::{MinTree, is_equal};
use std::alloc::{AllocError, Global};

/// A place for each strand of a schedule. A place holds the number of instructions that its strand has left, or
/// nothing if the strand is not ready.
#[derive(Drop)]
pub(crate) struct Board {
    // The time at which each running strand ends.
    running: MinTree,
    // The number of running strands.
    count: u64,
    // The steps so far, counted from an arbitrary start.
    time: u64,
    // The number of instructions that each waiting strand has left.
    waiting: ReadyList,
    // Running strands are before this place, and waiting strands are not.
    border: usize,
    // The number of places.
    places: usize,
}

impl Board {
    // Creates a board with this number of places. No strand is ready.
    pub(crate) fn new(alloc: Global, places: usize) -> Result<Board, AllocError>
        ensures keeps { IfOk result (λ b. Keeps b) }
        ensures shown { IfOk result (λ b. shown b ≡ nones places) }
    {
        let running = MinTree::new(alloc, places)?;
        let waiting = ReadyList::new(alloc, places)?;
        Ok(Board {
            running,
            count: 0,
            time: 0,
            waiting,
            border: places,
            places,
        })
    }

    // Makes the strand at a place ready, with `left` instructions left.
    pub(crate) fn put(&mut self, place: usize, left: u64)
        requires keeps { Keeps self.old }
        requires place { place < length (shown self.old) }
        ensures keeps { Keeps self.new }
        ensures put { shown self.new ≡ slice_set (shown self.old) place (Some left) }
    {
        if place < self.border {
            self.start(place, left);
        } else {
            self.waiting.put(place, left);
        }
    }

    // Removes a ready strand that has no instruction left, and returns its place.
    pub(crate) fn take(&mut self) -> usize
        requires keeps { Keeps self.old }
        requires done { least_slot (shown self.old) ≡ Some 0 }
        ensures keeps { Keeps self.new }
        ensures place { slice_get (shown self.old) result ≡ Some (Some 0) }
        ensures taken { shown self.new ≡ slice_set (shown self.old) result None }
    {
        if is_equal(self.running.least(), Some(self.time)) {
            return self.end();
        }
        let place = self.waiting.take();
        place
    }

    // Lets the first ready strands, at most one for each processor, execute instructions until a ready strand has
    // none left. Returns the number of instructions that each of them executes: 0 if a ready strand has none left
    // already, otherwise the minimum that one of the first strands has left.
    pub(crate) fn advance(&mut self, processors: u64) -> u64
        requires keeps { Keeps self.old }
        requires processors { 1 ≤ processors }
        requires ready { 1 ≤ ready_slots (shown self.old) }
        ensures keeps { Keeps self.new }
        ensures done { least_slot (shown self.new) ≡ Some 0 }
        ensures advances { Advances processors result (shown self.old) (shown self.new) }
    {
        if self.has_done() {
            return 0;
        }
        self.stop_others(processors);
        self.start_others(processors);
        let steps = self.jump(processors);
        steps
    }

    // Whether a ready strand has no instruction left.
    fn has_done(&self) -> bool
        requires { Keeps self.now }
        ensures { IsTrue result ↔ least_slot (shown self.now) ≡ Some 0 }
    {
        is_equal(self.running.least(), Some(self.time)) || self.waiting.has_done()
    }

    // Makes a strand with `left` instructions left run from now on.
    fn start(&mut self, place: usize, left: u64)
        requires keeps { Keeps self.old }
        requires place { place < self.old.border }
        ensures keeps { Keeps self.new }
        ensures put { shown self.new ≡ slice_set (shown self.old) place (Some left) }
        ensures one { left_at self.old.running place ≡ None → self.new.count ≡ self.old.count + 1 }
        ensures waiting { self.new.waiting ≡ self.old.waiting }
    {
        self.time = time_for(&mut self.running, self.places, self.time, left);
        self.count += one_if_none(self.running.at(place));
        self.running.set(place, Some(self.time + left));
    }

    // Removes a strand that ends now, and returns its place.
    fn end(&mut self) -> usize
        requires keeps { Keeps self.old }
        requires done { least_slot self.old.running ≡ Some self.old.time }
        ensures keeps { Keeps self.new }
        ensures place { slice_get (shown self.old) result ≡ Some (Some 0) }
        ensures taken { shown self.new ≡ slice_set (shown self.old) result None }
    {
        let place = self.running.find(self.time);
        self.running.set(place, None);
        self.count -= 1;
        place
    }

    // Makes the last running strand wait.
    fn stop_last(&mut self)
        requires keeps { Keeps self.old }
        requires some { 1 ≤ self.old.count }
        ensures moves { Moves self.old self.new }
        ensures count { self.old.count ≡ self.new.count + 1 }
    {
        let place = self.running.last();
        let Some(end) = self.running.at(place) else {
            unreachable!()
        };
        self.running.set(place, None);
        self.count -= 1;
        self.border = place;
        self.waiting.put(place, end - self.time);
    }

    // Makes the first waiting strand run.
    fn start_first(&mut self)
        requires keeps { Keeps self.old }
        requires some { 1 ≤ ready_slots self.old.waiting }
        ensures moves { Moves self.old self.new }
        ensures count { self.new.count ≡ self.old.count + 1 }
        ensures waiting { ready_slots self.old.waiting ≡ ready_slots self.new.waiting + 1 }
    {
        let (place, left) = self.waiting.take_first();
        self.border = place + 1;
        self.start(place, left);
    }

    // Stops strands until no more run than there are processors.
    fn stop_others(&mut self, processors: u64)
        requires { Keeps self.old }
        ensures moves { Moves self.old self.new }
        ensures count { self.new.count ≤ processors }
    {
        while self.count > processors {
            self.stop_last();
        }
    }

    // Starts strands until every processor runs one, or until no strand waits.
    fn start_others(&mut self, processors: u64)
        requires keeps { Keeps self.old }
        requires count { self.old.count ≤ processors }
        ensures moves { Moves self.old self.new }
        ensures full { Full processors self.new }
    {
        while self.count < processors && !self.waiting.is_empty() {
            self.start_first();
        }
    }

    // Lets the running strands execute the minimum number of instructions that one of them has left. Returns that
    // number.
    fn jump(&mut self, processors: u64) -> u64
        requires keeps { Keeps self.old }
        requires full { Full processors self.old }
        requires processors { 1 ≤ processors }
        requires ready { 1 ≤ ready_slots (shown self.old) }
        ensures keeps { Keeps self.new }
        ensures first { least_first processors (shown self.old) ≡ Some result }
        ensures run { shown self.new ≡ run_slots processors result (shown self.old) }
    {
        let Some(end) = self.running.least() else {
            unreachable!()
        };
        let steps = end - self.time;
        self.time = end;
        steps
    }
}

fn one_if_none(left: Option<u64>) -> u64
    ensures { result ≡ boards.one_if_none left }
{
    if left.is_none() { 1 } else { 0 }
}

// Returns the time, or an earlier time (with the ends lowered) if the end of a strand with `left` instructions left
// would exceed 64 bits.
fn time_for(running: &mut MinTree, places: usize, time: u64, left: u64) -> u64
    requires places { places ≡ length running.old }
    requires ends { EndFrom time running.old }
    ensures ends { EndFrom result running.new }
    ensures shown { lowered result running.new ≡ lowered time running.old }
    ensures fits { result + left < 18446744073709551616 }
{
    if left <= u64::MAX - time {
        return time;
    }
    lower_all(running, places, time);
    0
}

// Decreases each number by `by`.
fn lower_all(running: &mut MinTree, places: usize, by: u64)
    requires places { places ≡ length running.old }
    requires ends { EndFrom by running.old }
    ensures { running.new ≡ lowered by running.old }
{
    for place in 0..places {
        let lower = less(running.at(place), by);
        running.set(place, lower);
    }
}

fn less(end: Option<u64>, by: u64) -> Option<u64>
    requires { HasRoom by end }
    ensures { result ≡ minus end by }
{
    match end {
        Some(end) => Some(end - by),
        None => None,
    }
}
