//! The effect of a strand.

ghost use Rattle.std.specs.Prelude.{◌≡◌, [], length};
ghost use Rattle.cw_machine.specs.declared.run.Stop.TheVariants as stop;
ghost use Rattle.cw_machine.specs.JobRuns as runs;
ghost use Rattle.cw_jobs.specs.Means.{IsMeaningOf};
ghost use Rattle.cw_strand.specs.Holds.{its_job, outs, HasStopped, IsRunning};
ghost use Rattle.cw_strand.specs.Losing.{ComesFrom};
ghost use Rattle.cw_strand.specs.Moves.{EndsCall, EndsStill, HasCome, IsOutput};

use crate::lending::empty_rest;
use crate::strand::{Mode, Strand};
use cw_code::crew_laws::{calls_preserve_strand_job, rests_stay_in_their_functions};
use cw_code::laws::runs_stay_in_their_functions;
use cw_jobs::call::Rest;
use cw_jobs::effect::{Effect, PieceOutput};
use cw_jobs::laws::calls_keep_meter_records;
use cw_machine::laws::machines_that_stop_remain;
use cw_machine::machine::Machine;
use cw_machine::run::Run;
use cw_meter::{Detail, Meter};
use cw_slices::Slice;
use std::collections::VecDeque;
use std::mem;

// Returns the output and the counts of a run after this number of instructions.
fn shown(run: &mut Run, cost: u64) -> PieceOutput
    ensures { IsOutput run.old cost result }
{
    let alloc = *run.machine.lines.allocator();
    PieceOutput {
        lines: mem::replace(&mut run.machine.lines, VecDeque::new(alloc)),
        totals: mem::replace(&mut run.machine.totals, Vec::new(alloc)),
        meter: mem::replace(&mut run.meter, Meter::apart(alloc, 0, Detail::Values)),
        cost,
    }
}

// Returns the slices that a machine that stopped was given.
fn given_up(machine: &mut Machine, rest: &mut Rest) -> Vec<Slice>
    requires { runs.MayGiveUp machine.old (length rest.old.slices.items) }
    ensures { runs.GivesUp machine.old (length rest.old.slices.items) result.items }
{
    let alloc = *machine.lines.allocator();
    machine.give_up(rest);
    mem::replace(&mut rest.slices, Vec::new(alloc))
}

impl Strand {
    // Returns the effect of a strand that stopped and has nothing out.
    #[inline(never)]
    pub(crate) fn stop_effect(&mut self) -> Effect
        requires running { IsRunning self.old }
        requires stopped { HasStopped self.old }
        requires none { outs self.old ≡ [] }
        ensures of { self.new.of ≡ self.old.of }
        ensures means { IsMeaningOf (its_job self.old) result }
        ensures comes { ComesFrom result self.old }
        ensures counts { EndsStill result self.old }
    {
        calls_preserve_strand_job();
        machines_that_stop_remain();
        let alloc = *self.lent.allocator();
        match self.mode {
            Mode::Trapped(trap, line) => {
                let lines = mem::replace(&mut self.run.machine.lines, VecDeque::new(alloc));
                let back = given_up(&mut self.run.machine, &mut self.parts.rest);
                Effect::Trapped {
                    trap,
                    line,
                    lines,
                    cost: self.count,
                    back,
                }
            }
            Mode::Over => Effect::OverLimit {
                back: given_up(&mut self.run.machine, &mut self.parts.rest),
            },
            Mode::GivenUp => Effect::GivenUp {
                back: given_up(&mut self.run.machine, &mut self.parts.rest),
            },
            _ => Effect::Memory {
                back: Vec::new(alloc),
            },
        }
    }

    // Returns the effect of a strand whose call has ended, with this value if the call returns one.
    #[inline(never)]
    pub(crate) fn call_effect(&mut self, value: Option<i64>, end: u64) -> Effect
        requires comes { HasCome self.old end (stop.Gave value) }
        ensures of { self.new.of ≡ self.old.of }
        ensures means { IsMeaningOf (its_job self.old) result }
        ensures comes { ComesFrom result self.old }
        ensures none { outs self.old ≡ [] }
        ensures counts { EndsCall result self.old.count }
    {
        calls_preserve_strand_job();
        Effect::Ended {
            value,
            shown: shown(&mut self.run, self.count),
        }
    }

    // Returns the effect of a strand that is at the join of its job.
    #[inline(never)]
    pub(crate) fn join_effect(&mut self, end: u64) -> Effect
        requires comes { HasCome self.old end stop.Joined }
        ensures of { self.new.of ≡ self.old.of }
        ensures means { IsMeaningOf (its_job self.old) result }
        ensures comes { ComesFrom result self.old }
        ensures none { outs self.old ≡ [] }
        ensures counts { EndsStill result self.old }
    {
        calls_preserve_strand_job();
        calls_keep_meter_records();
        rests_stay_in_their_functions();
        runs_stay_in_their_functions();
        let alloc = *self.lent.allocator();
        let mut replaced = Vec::new(alloc);
        self.run.meter.trim();
        let mut frame = mem::replace(&mut self.parts.rest, empty_rest(alloc));
        let machine = &mut self.run.machine;
        match machine.finish(&self.parts.code, &mut frame, &mut replaced) {
            Ok(()) => Effect::Joined {
                frame,
                replaced,
                shown: shown(&mut self.run, self.count),
            },
            Err(_) => Effect::Memory {
                back: Vec::new(alloc),
            },
        }
    }
}
