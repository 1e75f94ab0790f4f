//! Worker frames: a strand with the jobs that it has out.

ghost use Rattle.std.specs.Prelude.{◌≡◌, ◌≢◌, ◌≤◌, ◌+◌, ◌∷◌, [], length, Some, vec_capacity, MatchResult};
ghost use Rattle.cw_strand.specs.Holds.{its_job, outs, IsAtSync, IsRunning};
ghost use Rattle.cw_yard.specs.Seats.{IsSeatOf, IsTicketOf};
ghost use Rattle.cw_yard.specs.declared.seat.Yard.{Yard};
ghost use Rattle.cw_yard.specs.Tickets.{ticket_job};
ghost use Rattle.cw_jobs.specs.Means.{IsMeaningOf};
ghost use Rattle.cw_pool.specs.WorkerFrames.{Begins, Ends, IsNewest, Lacks, Settles, TurnsTo, Works};

use crate::gate::{Gate, Moment};
use crate::sign::Tally;
use cw_jobs::effect::Effect;
use cw_jobs::job::Job;
use cw_strand::strand::{End, Event, Spawns, Strand};
use cw_yard::seat::{Seat, Yard};
use cw_yard::ticket::{Duty, Ticket};
use cw_yard::yard::{Collected, Retaken};
use std::alloc::Global;

/// The maximum number of instructions that a strand executes before it is checked whether the run is given up.
const QUANTUM: u64 = 262_144;

/// The number of first instructions in which a strand hands out all continuations while fewer than `FEW` of its jobs are
/// out, so that a short run is shared whole.
const FIRST: u64 = 8_192;

/// The number of jobs from which on a strand has enough out in its first instructions.
const FEW: usize = 16;

/// The number of jobs in its worker's deque from which on a strand hands nothing out and executes spawns in place.
const ENOUGH: usize = 3;

/// The maximum number of instructions with spawns in place before the length of the deque is checked again.
const STINT: u64 = 20_000;

/// The number of instructions with spawns in place that a strand may execute beyond as many as it has executed before:
/// otherwise a strand that has just begun could recurse deeply in a run that is given up.
const FIRST_STINT: u64 = 512;

// The bytes of a number, and of a job that is kept or offered.
const NUMBER: usize = 8;

const KEPT: usize = 64;

/// A job that a strand has out.
pub enum OutJob {
    /// The job itself: it could not be offered.
    Own(Job),
    /// It was offered, and this is its ticket.
    Out(Ticket),
}

/// A worker frame: a strand, and each job that it has out, the newest last. It must be spent by `finish`.
pub struct WorkerFrame {
    pub(crate) strand: Strand,
    pub(crate) kept: Vec<OutJob>,
}

/// The result of a turn.
#[derive(Clone, Copy, Debug)]
pub enum Turn {
    /// The strand may go on.
    Went,
    /// It waits for its newest job, which another worker has.
    Waits,
    /// The strand has reached this end; its effect is made from it.
    Ends(End),
}

// Takes the newest job out back, which nobody executed.
fn take_in(strand: &mut Strand, rest: Job)
    requires at_sync { IsRunning strand.old × IsAtSync strand.old }
    requires newest { IsNewest strand.old rest }
    ensures of { strand.new.of ≡ strand.old.of }
    ensures running { IsRunning strand.new }
    ensures outs { rest ∷ outs strand.new ≡ outs strand.old }
{
    if strand.stopped() {
        strand.skip(rest);
    } else {
        strand.take_back(rest);
    }
}

// Returns the number of instructions that an effect reports.
fn cost_of(effect: &Effect) -> u64 {
    match effect {
        Effect::Ended { value: _, shown } => shown.cost,
        Effect::Joined {
            frame: _,
            replaced: _,
            shown,
        } => shown.cost,
        _ => 0,
    }
}

// Returns the memory of an effect, in bytes: its meter's lists, its cells, and the arrays that were made.
fn bytes_of(effect: &Effect) -> usize {
    match effect {
        Effect::Joined {
            frame,
            replaced,
            shown,
        } => {
            let mut numbers = frame.cells.capacity();
            for a in 0..replaced.len() {
                if a < frame.slices.len() && replaced[a].is_some() {
                    numbers = numbers.saturating_add(frame.slices[a].len());
                }
            }
            let meter = shown.meter.bytes();
            numbers.saturating_mul(NUMBER).saturating_add(meter)
        }
        _ => 0,
    }
}

/// Leaves the effect of a stolen job for who offered it, and counts its bytes until it is collected.
pub(crate) fn settle<G: Gate>(
    yard: &Yard,
    seat: &mut Seat,
    gate: &G,
    tally: &Tally,
    duty: Duty,
    effect: Effect,
)
    requires seat { IsSeatOf yard.now seat.old }
    requires settles { Settles yard.now duty effect }
    ensures { IsSeatOf yard.now seat.new }
{
    tally.leave(duty.cell(), bytes_of(&effect) as u64);
    yard.settle(seat, duty, effect);
    gate.turn(tally.me, Moment::Settled);
}

// Records that the effect in a cell is collected; rings the bell if the worker that left it may steal again.
fn release(yard: &Yard, tally: &Tally, cell: usize) {
    if tally.collect(cell) {
        yard.bell().notify_all();
    }
}

impl WorkerFrame {
    /// Begins a job.
    ///
    /// # Errors
    ///
    /// The job, unchanged, if the run is given up or memory runs out.
    pub(crate) fn start(alloc: Global, tally: &Tally, job: Job) -> Result<WorkerFrame, Job>
        ensures { MatchResult result (Begins job) (λ back. back ≡ job) }
    {
        if tally.is_up() {
            return Err(job);
        }
        match Strand::start(alloc, job) {
            Ok(strand) => Ok(WorkerFrame {
                strand,
                kept: Vec::new(alloc),
            }),
            Err(back) => Err(back),
        }
    }

    // Offers a job that is out, or keeps it. Without memory for either, the strand stops and skips the job.
    fn keep<G: Gate>(&mut self, yard: &Yard, seat: &mut Seat, gate: &G, me: usize, rest: Job)
        requires seat { IsSeatOf yard.now seat.old }
        requires lacks { Lacks yard.now self.old (Some rest) }
        ensures seat { IsSeatOf yard.now seat.new }
        ensures of { self.new.strand.of ≡ self.old.strand.of }
        ensures works { Works yard.now self.new }
    {
        match self.kept.reserve(1) {
            Ok(()) => {}
            Err(_) => {
                self.strand.fail();
                self.strand.skip(rest);
                return;
            }
        }
        let next = match yard.offer(seat, rest) {
            Ok(ticket) => {
                gate.turn(me, Moment::Offered);
                OutJob::Out(ticket)
            }
            Err(rest) => OutJob::Own(rest),
        };
        self.kept.push_reserved(next);
    }

    // Gives the effect of the newest job out, which was stolen, if the effect has arrived. A function of its own, because an
    // effect is large.
    #[inline(never)]
    fn collect(&mut self, yard: &Yard, seat: &mut Seat, tally: &mut Tally, ticket: Ticket) -> bool
        requires seat { IsSeatOf yard.now seat.old }
        requires ticket { IsTicketOf yard.now ticket }
        requires lacks { Lacks yard.now self.old (ticket_job ticket) }
        requires out { IsAtSync self.old.strand × (outs self.old.strand ≢ []) }
        requires room { length self.old.kept.items + 1 ≤ vec_capacity self.old.kept }
        ensures seat { IsSeatOf yard.now seat.new }
        ensures of { self.new.strand.of ≡ self.old.strand.of }
        ensures works { Works yard.now self.new }
    {
        let cell = ticket.cell();
        match yard.collect(seat, ticket) {
            Collected::Done(effect) => {
                release(yard, tally, cell);
                tally.offers.judge(cost_of(&effect));
                self.strand.give(effect);
                true
            }
            Collected::Later(ticket) => {
                self.kept.push_reserved(OutJob::Out(ticket));
                false
            }
        }
    }

    // Takes the newest job out back, or gives its effect if it has arrived.
    fn join(&mut self, yard: &Yard, seat: &mut Seat, tally: &mut Tally) -> bool
        requires seat { IsSeatOf yard.now seat.old }
        requires works { Works yard.now self.old }
        requires out { IsAtSync self.old.strand × (outs self.old.strand ≢ []) }
        ensures seat { IsSeatOf yard.now seat.new }
        ensures of { self.new.strand.of ≡ self.old.strand.of }
        ensures works { Works yard.now self.new }
    {
        match self.kept.pop() {
            Some(OutJob::Own(rest)) => {
                tally.offers.judge(0);
                take_in(&mut self.strand, rest);
                true
            }
            Some(OutJob::Out(ticket)) => match yard.retake(seat, ticket) {
                Retaken::Mine(rest) => {
                    tally.offers.judge(0);
                    take_in(&mut self.strand, rest);
                    true
                }
                Retaken::Later(ticket) => self.collect(yard, seat, tally, ticket),
            },
            None => unreachable!(),
        }
    }

    /// Stops where the run is given up, but where it waits for a job: that one ends in any case, and may tell the answer.
    #[inline(always)]
    pub(crate) fn heed(&mut self, tally: &Tally)
        ensures of { self.new.strand.of ≡ self.old.strand.of }
        ensures works { (y : Yard) → Works y self.old → Works y self.new }
    {
        if tally.is_up() && !self.strand.is_paused() {
            self.strand.give_up();
        }
    }

    /// Gives back the memory that it does not use while it waits. Returns what it has, in bytes, if that is at most `enough`,
    /// otherwise any number above it; of none, its arrays are not counted.
    pub(crate) fn settle_down(&mut self, enough: usize) -> usize
        ensures of { self.new.strand.of ≡ self.old.strand.of }
        ensures works { (y : Yard) → Works y self.old → Works y self.new }
    {
        self.strand.trim();
        let kept = self.kept.capacity().saturating_mul(KEPT);
        kept.saturating_add(self.strand.bytes(enough))
    }

    // Counts the instructions that the strand has executed since this number.
    #[inline(always)]
    fn count(&self, tally: &mut Tally, before: u64) {
        tally.count(self.strand.done().wrapping_sub(before));
    }

    // Gives the run up if the strand trapped or exceeded the limit.
    #[inline(always)]
    fn warn(&self, tally: &Tally) {
        if self.strand.halted() {
            tally.raise();
        }
    }

    // Returns how a strand that has executed this number of instructions goes on, and by how many at most: it hands out
    // continuations while its worker's deque is short, so that idle workers find jobs, and while not all of them return
    // unexecuted.
    #[inline(always)]
    fn way(&self, yard: &Yard, seat: &mut Seat, tally: &mut Tally, done: u64) -> (Spawns, u64)
        requires { IsSeatOf yard.now seat.old }
        ensures { IsSeatOf yard.now seat.new }
    {
        let is_at_first = done < FIRST && self.kept.len() < FEW;
        if is_at_first || (yard.waiting(seat) < ENOUGH && !tally.offers.are_enough()) {
            (Spawns::HandedOut, QUANTUM)
        } else {
            (Spawns::InPlace, STINT.min(done.saturating_add(FIRST_STINT)))
        }
    }

    /// Executes the strand up to the next spawn that is handed out, to a join or to its end, but at most a quantum.
    pub(crate) fn turn<G: Gate>(
        &mut self,
        yard: &Yard,
        seat: &mut Seat,
        gate: &G,
        tally: &mut Tally,
    ) -> Turn
        requires seat { IsSeatOf yard.now seat.old }
        requires works { Works yard.now self.old }
        ensures seat { IsSeatOf yard.now seat.new }
        ensures of { self.new.strand.of ≡ self.old.strand.of }
        ensures turn { TurnsTo yard.now self.new result }
    {
        let before = self.strand.done();
        let (spawns, most) = self.way(yard, seat, tally, before);
        match self.strand.next_event(most, spawns) {
            Event::Spawned(rest) => {
                self.count(tally, before);
                self.keep(yard, seat, gate, tally.me, rest);
                Turn::Went
            }
            Event::AtSync => {
                self.count(tally, before);
                gate.turn(tally.me, Moment::AtJoin);
                self.warn(tally);
                if self.join(yard, seat, tally) {
                    Turn::Went
                } else {
                    Turn::Waits
                }
            }
            Event::AtEnd(end) => {
                self.count(tally, before);
                self.warn(tally);
                Turn::Ends(end)
            }
            Event::Ran => {
                self.count(tally, before);
                Turn::Went
            }
        }
    }

    /// Returns the effect of a frame whose strand has reached this end: it means its job, and nothing is out.
    pub(crate) fn effect(&mut self, end: End) -> Effect
        requires { Ends self.old end }
        ensures of { self.new.strand.of ≡ self.old.strand.of }
        ensures means { IsMeaningOf (its_job self.old.strand) result }
        ensures none { self.new.kept.items ≡ [] }
    {
        self.strand.effect_at(end)
    }

    /// Drops a frame with nothing out. Trims its lists first: the C library returns a large block to the system when the block
    /// shrinks, but keeps blocks of the size of any that was freed.
    pub(crate) fn finish(self)
        requires { self.kept.items ≡ [] }
    {
        let WorkerFrame { mut strand, kept } = self;
        strand.trim();
        drop(strand);
        kept.destroy_empty();
    }
}
