//! Advances a strand by one instruction.

ghost use Rattle.std.specs.Prelude.{◌≡◌, ◌+◌, ◌<◌};
ghost use Rattle.cw_strand.specs.declared.strand.Mode.TheVariants as mode;
ghost use Rattle.cw_strand.specs.Holds.{its_end, IsAtSync, IsGoing, IsRunning};
ghost use Rattle.cw_strand.specs.Losing.{Leaves, LeavesBy};
ghost use Rattle.cw_strand.specs.Moves.{AdvancesBy, CountsBy, DoesOne, EndsAt, IsBefore, IsUnended, KeptBy, LeadsTo};

use crate::strand::{Advance, End, Event, Mode, Spawns, Step, Strand};
use cw_code::crew_laws::calls_preserve_strand_job;
use cw_machine::laws::machines_that_stop_remain;
use cw_machine::run::Stop;

impl Strand {
    // Returns the event of a strand that is not running: a join, or its end.
    fn pause(&mut self) -> Step
        requires running { IsRunning self.old }
        requires at_sync { IsAtSync self.old }
        ensures of { self.new.of ≡ self.old.of }
        ensures keeps { KeptBy result self.old self.new }
        ensures counts { CountsBy result self.old self.new }
        ensures leaves { Leaves result self.old self.new }
    {
        if self.has_ended() {
            return Step::Ended(self.stop_effect());
        }
        Step::AtSync
    }

    // Returns the result of an instruction that led the strand to this end. The strand has already reached the end of
    // its call; any other end it reaches next.
    fn reach(&mut self, end: End) -> Advance
        requires { EndsAt end self.old }
        ensures of { self.new.of ≡ self.old.of }
        ensures leads { LeadsTo result self.old self.new }
    {
        match end {
            End::Gave(value, limit) => {
                Advance::Came(Step::Ended(self.call_effect(value, limit)))
            }
            _ => Advance::Ran,
        }
    }

    // Executes the next instruction of the strand, within `end` instructions in all.
    fn step_on(&mut self, end: u64) -> Advance
        requires running { IsRunning self.old }
        requires before { IsBefore self.old }
        requires end { end ≡ its_end self.old }
        requires below { self.old.count < end }
        ensures of { self.new.of ≡ self.old.of }
        ensures advances { AdvancesBy result self.old self.new }
        ensures leaves { LeavesBy result self.old self.new }
        ensures does { DoesOne result }
    {
        let next = self.count + 1;
        let stop = self.run_on(next, Spawns::HandedOut);
        match stop {
            Stop::Over => Advance::Ran,
            _ => match self.settle(stop, next, end) {
                Event::Spawned(job) => Advance::Came(Step::Spawned(job)),
                Event::AtSync => Advance::Ran,
                Event::AtEnd(end) => self.reach(end),
                Event::Ran => unreachable!(),
            },
        }
    }

    // Executes the next instruction of the strand, or none if it would exceed the limit.
    fn step(&mut self) -> Advance
        requires running { IsRunning self.old }
        requires before { IsBefore self.old }
        ensures of { self.new.of ≡ self.old.of }
        ensures advances { AdvancesBy result self.old self.new }
        ensures leaves { LeavesBy result self.old self.new }
        ensures does { self.old.count < its_end self.old → DoesOne result }
    {
        calls_preserve_strand_job();
        machines_that_stop_remain();
        let end = self.end_of_job();
        if self.count < end {
            return self.step_on(end);
        }
        self.mode = Mode::Over;
        Advance::Came(self.pause())
    }

    /// Advances by one instruction. Returns `Ran` if the instruction was executed and hands nothing out, and
    /// `Spawned` if it was a spawn. Executes no instruction if the strand is at a join, or has reached its end; then
    /// it returns what `go` returns from there. The return of a whole call is its last instruction, and its effect is
    /// returned at once.
    pub fn advance(&mut self) -> Advance
        requires { IsRunning self.old }
        ensures of { self.new.of ≡ self.old.of }
        ensures advances { AdvancesBy result self.old self.new }
        ensures leaves { LeavesBy result self.old self.new }
        ensures does { IsGoing self.old → IsUnended self.old → self.old.count < its_end self.old
            → DoesOne result }
    {
        match self.mode {
            Mode::Going => match self.end_at_join() {
                Some(effect) => Advance::Came(Step::Ended(effect)),
                None => self.step(),
            },
            _ => Advance::Came(self.pause()),
        }
    }
}
