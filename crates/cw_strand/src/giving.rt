//! Gives the effect of the newest job out, which was executed elsewhere: its printed values follow the strand's, its totals
//! and its measures are joined to the strand's, and its arrays return to their slots.

ghost use Rattle.std.specs.Prelude.{◌≡◌, ◌<◌, ◌++◌, true, false, length, MatchOption, OnOk};
ghost use Rattle.cw_jobs.specs.declared.effect.Effect.TheVariants as effect;
ghost use Rattle.cw_strand.specs.Holds.{HasStopped, IsAtSync, IsRunning, IsWaiting};
ghost use Rattle.cw_strand.specs.Giving.{passes_limit, AreJoined, GivesBack, HasJoined, HasPrinted, HasTaken, IsGiven, IsJoinedAt, IsMemory, IsOfRest, LeavesOthers};
ghost use Rattle.cw_strand.specs.Giving as giving;
ghost use Rattle.cw_strand.specs.Losing.{CountsGiven, MayExceed, MayLack, MayLose};
ghost use Rattle.cw_strand.specs.declared.strand.Mode.TheVariants as mode;

use crate::lending::loans_named;
use crate::stopping::home_of;
use crate::strand::{Home, Mode, Strand};
use cw_code::crew_laws::{calls_preserve_strand_job, rests_stay_in_their_functions};
use cw_code::laws::{results_may_go_back, runs_stay_in_their_functions};
use cw_jobs::call::Rest;
use cw_jobs::effect::{Effect, PieceOutput};
use cw_jobs::laws::calls_keep_meter_records;
use cw_jobs::totals::joined;
use cw_machine::laws::machines_that_stop_remain;
use cw_machine::machine::Machine;
use cw_machine::run::Run;
use cw_model::total::Total;
use cw_model::trap::Trap;
use cw_runnable::verified::Verified;
use cw_slices::Slice;
use std::alloc::{AllocError, Global};
use std::collections::VecDeque;

// Returns a total joined with another one, if there is one.
fn join_at(totals: &mut Vec<Total>, more: &[Total], k: usize)
    requires { k < length totals.old.items }
    ensures { IsJoinedAt totals.old.items more.now k totals.new.items }
{
    if k < more.len() {
        totals[k] = joined(totals[k], more[k]);
    }
}

// Joins each total with another one.
fn join_totals(totals: &mut Vec<Total>, more: &[Total])
    ensures { AreJoined totals.old.items more.now totals.new.items }
{
    for k in 0..totals.len() {
        join_at(totals, more, k);
    }
}

// Puts the values that were printed first before those that were printed later.
fn put_in_front(first: &mut VecDeque<i64>, more: &mut VecDeque<i64>) -> Result<(), AllocError>
    ensures { OnOk result (more.new.items ≡ first.old.items ++ more.old.items) }
{
    while let Some(line) = first.pop_back() {
        more.push_front(line)?;
    }
    Ok(())
}

// Appends values to those that a machine has printed; moves the shorter list to the longer one.
fn take_printed(machine: &mut Machine, more: VecDeque<i64>) -> Result<(), AllocError>
    ensures { OnOk result (HasPrinted machine.old more.items machine.new) }
{
    let mut more = more;
    if more.len() <= machine.lines.len() {
        return machine.lines.append(&mut more);
    }
    put_in_front(&mut machine.lines, &mut more)?;
    machine.lines = more;
    Ok(())
}

// Adds the output of another machine to a machine.
fn take_output(
    machine: &mut Machine,
    lines: VecDeque<i64>,
    totals: &[Total],
) -> Result<(), AllocError>
    ensures { OnOk result (HasTaken machine.old lines.items totals.now machine.new) }
{
    take_printed(machine, lines)?;
    join_totals(&mut machine.totals, totals);
    Ok(())
}

// The continuation of the waiting block returned to a run, after this number of instructions: the run continues at the join.
// Returns an error if memory runs out.
fn join_rest(
    run: &mut Run,
    code: &Verified,
    count: u64,
    frame: &mut Rest,
    replaced: &mut Vec<Option<Slice>>,
    home: Home,
    shown: PieceOutput,
) -> Result<(), AllocError>
    requires { ∥ giving.MayJoin run.old.machine code.now frame.old replaced.old.items home ∥₁ }
    ensures { OnOk result (HasJoined run.old code.now count frame.old replaced.old.items home shown
        run.new) }
{
    let PieceOutput {
        lines,
        totals,
        meter,
        cost,
    } = shown;
    let loans = loans_named(code, home.lent);
    let machine = &mut run.machine;
    machine.give_rest(frame, replaced, home.lender.slots, loans, home.target)?;
    take_output(&mut run.machine, lines, totals.as_slice())?;
    run.meter.rest(count, meter, cost)?;
    Ok(())
}

// Returns the arrays that the effect of a continuation gives back; none if memory ran out.
fn arrays_of(alloc: Global, effect: Effect) -> Option<(Vec<Slice>, Vec<Option<Slice>>)>
    requires { IsOfRest effect }
    ensures { MatchOption result (IsMemory effect) (λ x. GivesBack effect x.0.items x.1.items) }
{
    match effect {
        Effect::Joined {
            frame,
            replaced,
            shown: _,
        } => Some((frame.slices, replaced)),
        Effect::Trapped {
            trap: _,
            line: _,
            lines: _,
            cost: _,
            back,
        } => Some((back, Vec::new(alloc))),
        Effect::OverLimit { back } => Some((back, Vec::new(alloc))),
        Effect::GivenUp { back } => Some((back, Vec::new(alloc))),
        Effect::Memory { back: _ } => None,
        Effect::Ended { value: _, shown: _ } => unreachable!(),
    }
}

impl Strand {
    // Returns whether this number of further instructions would exceed the limit.
    fn passes(&self, cost: u64) -> bool
        requires { IsRunning self.now }
        ensures { result ≡ passes_limit self.now cost }
    {
        cost > self.end_of_job() - self.count
    }

    // Gives the effect of a continuation that reached its join to a strand that waits for it.
    fn give_joined(&mut self, frame: Rest, replaced: Vec<Option<Slice>>, shown: PieceOutput)
        requires running { IsRunning self.old }
        requires waiting { IsWaiting self.old }
        requires given { IsGiven self.old (effect.Joined frame replaced shown) }
        ensures of { self.new.of ≡ self.old.of }
        ensures running { IsRunning self.new }
        ensures outs { LeavesOthers self.old self.new }
        ensures lacks { MayLack self.new → passes_limit self.old shown.cost ≡ false }
        ensures over { self.new.mode ≡ mode.Over → passes_limit self.old shown.cost ≡ true }
        ensures back { IsWaiting self.new → ⊥ }
        ensures counts { CountsGiven (effect.Joined frame replaced shown) self.old self.new }
    {
        calls_preserve_strand_job();
        calls_keep_meter_records();
        machines_that_stop_remain();
        results_may_go_back();
        rests_stay_in_their_functions();
        runs_stay_in_their_functions();
        let mut frame = frame;
        let mut replaced = replaced;
        let cost = shown.cost;
        if self.passes(cost) {
            self.return_newest(&mut frame.slices, &mut replaced);
            self.mode = Mode::Over;
            return;
        }
        let count = self.count;
        let home = home_of(self.lent.pop());
        match join_rest(
            &mut self.run,
            &self.parts.code,
            count,
            &mut frame,
            &mut replaced,
            home,
            shown,
        ) {
            Ok(()) => {
                self.count = count + cost;
                self.mode = Mode::Going;
            }
            Err(_) => self.mode = Mode::Memory,
        }
    }

    // Gives the effect of a continuation that trapped to a strand that waits for it.
    fn give_trap(
        &mut self,
        trap: Trap,
        line: u32,
        lines: VecDeque<i64>,
        cost: u64,
        back: Vec<Slice>,
    )
        requires running { IsRunning self.old }
        requires waiting { IsWaiting self.old }
        requires given { IsGiven self.old (effect.Trapped trap line lines cost back) }
        ensures of { self.new.of ≡ self.old.of }
        ensures running { IsRunning self.new }
        ensures outs { LeavesOthers self.old self.new }
        ensures lacks { MayLack self.new → passes_limit self.old cost ≡ false }
        ensures over { self.new.mode ≡ mode.Over → passes_limit self.old cost ≡ true }
        ensures back { IsWaiting self.new → ⊥ }
        ensures counts { CountsGiven (effect.Trapped trap line lines cost back) self.old self.new }
    {
        calls_preserve_strand_job();
        machines_that_stop_remain();
        let mut back = back;
        let mut none = Vec::new(*self.lent.allocator());
        if self.passes(cost) {
            self.return_newest(&mut back, &mut none);
            self.mode = Mode::Over;
            return;
        }
        match take_printed(&mut self.run.machine, lines) {
            Ok(()) => {
                self.return_newest(&mut back, &mut none);
                self.count += cost;
                self.mode = Mode::Trapped(trap, line);
            }
            Err(_) => self.lose(),
        }
    }

    // Gives the effect of a continuation that exceeded the limit to a strand that waits for it.
    fn give_over(&mut self, back: Vec<Slice>)
        requires running { IsRunning self.old }
        requires waiting { IsWaiting self.old }
        requires given { IsGiven self.old (effect.OverLimit back) }
        ensures of { self.new.of ≡ self.old.of }
        ensures running { IsRunning self.new }
        ensures outs { LeavesOthers self.old self.new }
        ensures over { self.new.mode ≡ mode.Over }
        ensures counts { self.new.count ≡ self.old.count }
    {
        calls_preserve_strand_job();
        machines_that_stop_remain();
        let mut back = back;
        let mut none = Vec::new(*self.lent.allocator());
        self.return_newest(&mut back, &mut none);
        self.mode = Mode::Over;
    }

    // Gives the effect of a continuation that was given up to a strand that waits for it: the strand is given up, too.
    fn give_given_up(&mut self, back: Vec<Slice>)
        requires running { IsRunning self.old }
        requires waiting { IsWaiting self.old }
        requires given { IsGiven self.old (effect.GivenUp back) }
        ensures of { self.new.of ≡ self.old.of }
        ensures running { IsRunning self.new }
        ensures outs { LeavesOthers self.old self.new }
        ensures back { IsWaiting self.new → ⊥ }
        ensures over { self.new.mode ≡ mode.Over → ⊥ }
        ensures counts { self.new.count ≡ self.old.count }
    {
        self.give_up();
        self.give_stopped(Effect::GivenUp { back });
    }

    // Gives the effect of the newest job out to a strand that waits for it.
    fn give_waiting(&mut self, effect: Effect)
        requires running { IsRunning self.old }
        requires waiting { IsWaiting self.old }
        requires rest { IsOfRest effect }
        requires given { IsGiven self.old effect }
        ensures of { self.new.of ≡ self.old.of }
        ensures running { IsRunning self.new }
        ensures outs { LeavesOthers self.old self.new }
        ensures lacks { MayLack self.new → MayLose self.old effect }
        ensures over { self.new.mode ≡ mode.Over → MayExceed self.old effect }
        ensures back { IsWaiting self.new → ⊥ }
        ensures counts { CountsGiven effect self.old self.new }
    {
        calls_preserve_strand_job();
        match effect {
            Effect::Joined {
                frame,
                replaced,
                shown,
            } => self.give_joined(frame, replaced, shown),
            Effect::Trapped {
                trap,
                line,
                lines,
                cost,
                back,
            } => self.give_trap(trap, line, lines, cost, back),
            Effect::OverLimit { back } => self.give_over(back),
            Effect::GivenUp { back } => self.give_given_up(back),
            Effect::Memory { back: _ } => self.lose(),
            Effect::Ended { value: _, shown: _ } => unreachable!(),
        }
    }

    // Gives the effect of the newest job out to a strand that has stopped: the arrays return, and otherwise only lack of memory
    // matters.
    fn give_stopped(&mut self, effect: Effect)
        requires running { IsRunning self.old }
        requires stopped { HasStopped self.old }
        requires rest { IsOfRest effect }
        requires given { IsGiven self.old effect }
        ensures of { self.new.of ≡ self.old.of }
        ensures running { IsRunning self.new }
        ensures outs { LeavesOthers self.old self.new }
        ensures lacks { MayLack self.new → MayLose self.old effect }
        ensures over { self.new.mode ≡ mode.Over → self.old.mode ≡ mode.Over }
        ensures back { IsWaiting self.new → ⊥ }
        ensures counts { self.new.count ≡ self.old.count }
    {
        calls_preserve_strand_job();
        match arrays_of(*self.lent.allocator(), effect) {
            Some((slices, replaced)) => {
                let mut slices = slices;
                let mut replaced = replaced;
                self.return_newest(&mut slices, &mut replaced);
            }
            None => self.lose(),
        }
    }

    /// Gives the effect of the newest job out, which was executed elsewhere; the effect must mean this job. If the spawned call
    /// has returned, the strand continues at the join with the continuation's printed values, totals and measures, or stops
    /// if the continuation trapped or both together exceed the limit. A strand that has stopped only takes the arrays back. If
    /// memory runs out, the strand stops for that; if the continuation was given up, the strand is given up.
    pub fn give(&mut self, effect: Effect)
        requires running { IsRunning self.old }
        requires at_sync { IsAtSync self.old }
        requires given { IsGiven self.old effect }
        ensures of { self.new.of ≡ self.old.of }
        ensures running { IsRunning self.new }
        ensures outs { LeavesOthers self.old self.new }
        ensures lacks { MayLack self.new → MayLose self.old effect }
        ensures over { self.new.mode ≡ mode.Over → MayExceed self.old effect }
        ensures back { IsWaiting self.new → ⊥ }
        ensures counts { CountsGiven effect self.old self.new }
    {
        match self.mode {
            Mode::Waiting => self.give_waiting(effect),
            _ => self.give_stopped(effect),
        }
    }
}
