//! Execution of a strand.

ghost use Rattle.std.specs.Prelude.{◌≡◌, ◌≢◌, ◌+◌, ◌-◌, ◌≤◌, ◌<◌, true, false, []};
ghost use Rattle.cw_strand.specs.declared.strand.Mode.TheVariants as mode;
ghost use Rattle.cw_jobs.specs.Means.{IsMeaningOf};
ghost use Rattle.cw_machine.specs.declared.run.Stop.TheVariants as stops;
ghost use Rattle.cw_strand.specs.Holds.{floor_of, its_job, its_parts, outs, HasStopped, IsAtSync, IsRunning};
ghost use Rattle.cw_strand.specs.Losing.{ComesFrom, GoesOn, Leaves, LeavesAt, LeavesEnd, WasGivenUp};
ghost use Rattle.cw_strand.specs.Moves as moves;
ghost use Rattle.cw_strand.specs.Moves.{EndsBy, HandsNothing, HandsOutAt, HasCome, IsSame, JoinsBy, KeptBy, ComesOr, ComesTo, ComesWithin, EndsAt, RunsOn, StaysWithin, StopsFor};

use crate::strand::{End, Event, Mode, Spawns, Step, Strand};
use cw_code::crew_laws::calls_preserve_strand_job;
use cw_jobs::effect::Effect;
use cw_machine::laws::machines_that_stop_remain;
use cw_machine::run::Stop;

// Returns whether a job continues after this number of instructions.
#[inline(always)]
fn goes_beyond(to: u64, end: u64) -> bool
    ensures yes { result ≡ true → to < end }
    ensures no { result ≡ false → end ≤ to }
{
    to < end
}

// Returns `count + most`, but at most `end`.
#[inline(always)]
fn within(count: u64, most: u64, end: u64) -> u64
    requires { count ≤ end }
    ensures above { count ≤ result }
    ensures within { result ≤ end }
    ensures by { result < end → result ≡ count + most }
    ensures most { result ≤ count + most }
{
    if most < end - count {
        count + most
    } else {
        end
    }
}

// Returns whether continuations are handed out.
#[inline(always)]
fn hands_out(spawns: Spawns) -> bool
    ensures { result ≡ moves.hands_out spawns }
{
    match spawns {
        Spawns::HandedOut => true,
        Spawns::InPlace => false,
    }
}

impl Strand {
    // Returns the number of instructions that its job may execute in all.
    #[inline(always)]
    pub(crate) fn end_of_job(&self) -> u64
        requires { IsRunning self.now }
        ensures end { result ≡ (its_parts self.now).limit - (its_parts self.now).before }
        ensures above { self.now.count ≤ result }
    {
        self.parts.limit - self.parts.before
    }

    // Returns the number of calls that wait in the newest spawned call whose continuation is out; 0 if none is out.
    #[inline(always)]
    fn floor(&self) -> usize
        ensures { result ≡ floor_of self.now }
    {
        match self.lent.last() {
            Some(lent) => lent.home.floor,
            None => 0,
        }
    }

    // Executes the run up to its next stop, within this number of instructions in all.
    #[inline(always)]
    pub(crate) fn run_on(&mut self, limit: u64, spawns: Spawns) -> Stop
        requires running { IsRunning self.old }
        requires going { self.old.mode ≡ mode.Going }
        requires above { self.old.count ≤ limit }
        requires within { limit ≤ (its_parts self.old).limit - (its_parts self.old).before }
        ensures same { IsSame self.old self.new }
        ensures comes { HasCome self.new limit result }
        ensures ran { RunsOn self.old self.new limit (moves.hands_out spawns) result }
    {
        calls_preserve_strand_job();
        let floor = self.floor();
        let stops = hands_out(spawns);
        let (stop, count) = self
            .run
            .go_on(&self.parts.code, self.count, limit, floor, stops);
        self.count = count;
        stop
    }

    // The strand has stopped for good: it ends once nothing is out.
    #[inline(always)]
    pub(crate) fn rest(&mut self) -> Event
        requires running { IsRunning self.old }
        requires stopped { HasStopped self.old }
        ensures of { self.new.of ≡ self.old.of }
        ensures keeps { ComesTo result self.old self.new }
        ensures nothing { HandsNothing result }
        ensures counts { self.new.count ≡ self.old.count }
        ensures mode { self.new.mode ≡ self.old.mode }
        ensures goes { (WasGivenUp self.old → ⊥) → GoesOn result self.new }
    {
        if self.lent.is_empty() {
            return Event::AtEnd(End::Stopped);
        }
        Event::AtSync
    }

    // Returns the event of a strand that went on up to here: `Ran` if it stopped only for that, before the end of its job.
    #[inline(always)]
    pub(crate) fn settle(&mut self, stop: Stop, to: u64, end: u64) -> Event
        requires comes { HasCome self.old to stop }
        requires end { end ≡ (its_parts self.old).limit - (its_parts self.old).before }
        requires within { to ≤ end }
        ensures of { self.new.of ≡ self.old.of }
        ensures keeps { ComesOr ((to < end) × (stop ≡ stops.Over)) result self.old self.new }
        ensures spawns { HandsOutAt stop result }
        ensures counts { self.new.count ≡ self.old.count }
        ensures halts { StopsFor stop to end self.new }
        ensures goes { GoesOn result self.new }
    {
        calls_preserve_strand_job();
        machines_that_stop_remain();
        match stop {
            Stop::Spawned(spawn) => self.lend(spawn, to),
            Stop::CameBack => {
                self.mode = Mode::Waiting;
                Event::AtSync
            }
            Stop::Joined => Event::AtEnd(End::Joined(to)),
            Stop::Gave(value) => Event::AtEnd(End::Gave(value, to)),
            Stop::Trapped(trap, line) => {
                self.mode = Mode::Trapped(trap, line);
                self.rest()
            }
            Stop::Over => {
                if goes_beyond(to, end) {
                    return Event::Ran;
                }
                self.mode = Mode::Over;
                self.rest()
            }
            Stop::NoMemory => {
                self.mode = Mode::Memory;
                self.rest()
            }
        }
    }

    // Returns the effect of a running strand if it is at the join of its job; otherwise it is before an instruction.
    pub(crate) fn end_at_join(&mut self) -> Option<Effect>
        requires running { IsRunning self.old }
        requires going { self.old.mode ≡ mode.Going }
        ensures of { self.new.of ≡ self.old.of }
        ensures joins { JoinsBy result self.old self.new }
        ensures leaves { LeavesEnd result self.old self.new }
    {
        let count = self.count;
        let stop = self.run_on(count, Spawns::HandedOut);
        match stop {
            Stop::Joined => Some(self.join_effect(count)),
            _ => None,
        }
    }

    // Returns whether a strand that does not go on is at its end; otherwise the newest job out must return first.
    #[cold]
    #[inline(never)]
    pub(crate) fn has_ended(&self) -> bool
        requires running { IsRunning self.now }
        requires at_sync { IsAtSync self.now }
        ensures stopped { result ≡ true → HasStopped self.now }
        ensures yes { result ≡ true → outs self.now ≡ [] }
        ensures no { result ≡ false → outs self.now ≢ [] }
    {
        match self.mode {
            Mode::Waiting => false,
            _ => self.lent.is_empty(),
        }
    }

    /// Executes up to the next event, as `go` does, but does not make the effect of an end yet; returns `Ran` after `most`
    /// instructions if no event comes before. It executes at most `most` instructions, whatever the event, and stops for
    /// its limit only after as many as its job may execute in all. With spawns in place it hands nothing out.
    #[inline(always)]
    pub fn next_event(&mut self, most: u64, spawns: Spawns) -> Event
        requires { IsRunning self.old }
        ensures of { self.new.of ≡ self.old.of }
        ensures keeps { ComesWithin most spawns result self.old self.new }
        ensures within { StaysWithin most self.old self.new }
        ensures leaves { LeavesAt result self.old self.new }
    {
        match self.mode {
            Mode::Going => {
                let end = self.end_of_job();
                let to = within(self.count, most, end);
                let stop = self.run_on(to, spawns);
                self.settle(stop, to, end)
            }
            _ => {
                if self.has_ended() {
                    return Event::AtEnd(End::Stopped);
                }
                Event::AtSync
            }
        }
    }

    /// Returns the effect of a strand that has reached this end: it means the strand's job.
    #[inline(never)]
    pub fn effect_at(&mut self, end: End) -> Effect
        requires { EndsAt end self.old }
        ensures of { self.new.of ≡ self.old.of }
        ensures means { IsMeaningOf (its_job self.old) result }
        ensures none { outs self.old ≡ [] }
        ensures comes { ComesFrom result self.old }
    {
        match end {
            End::Stopped => self.stop_effect(),
            End::Joined(limit) => self.join_effect(limit),
            End::Gave(value, limit) => self.call_effect(value, limit),
        }
    }

    /// Executes up to the next event: a spawn, whose continuation it hands out; `AtSync`, if the newest job out must return
    /// first; or its end, with an effect that means its job. If memory ran out, the effect says so.
    pub fn go(&mut self) -> Step
        requires { IsRunning self.old }
        ensures of { self.new.of ≡ self.old.of }
        ensures keeps { KeptBy result self.old self.new }
        ensures leaves { Leaves result self.old self.new }
    {
        match self.next_event(u64::MAX, Spawns::HandedOut) {
            Event::Spawned(job) => Step::Spawned(job),
            Event::AtSync => Step::AtSync,
            Event::AtEnd(end) => Step::Ended(self.effect_at(end)),
            Event::Ran => unreachable!(),
        }
    }

    /// Ends the strand, without an instruction, if it has reached its end: if it has stopped or is at the join of its job, and
    /// nothing is out. The effect means its job and counts the strand's instructions. Otherwise returns `None` and leaves the
    /// strand unchanged.
    pub fn end(&mut self) -> Option<Effect>
        requires { IsRunning self.old }
        ensures of { self.new.of ≡ self.old.of }
        ensures ends { EndsBy result self.old self.new }
        ensures leaves { LeavesEnd result self.old self.new }
    {
        if !self.lent.is_empty() {
            return None;
        }
        match self.mode {
            Mode::Going => self.end_at_join(),
            Mode::Waiting => None,
            _ => Some(self.stop_effect()),
        }
    }
}
