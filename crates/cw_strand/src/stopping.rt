//! Strands that have stopped.

ghost use Rattle.std.specs.Prelude.{◌≡◌, ◌∷◌, true, false, List};
ghost use Rattle.cw_jobs.specs.declared.job.Job as jobs;
ghost use Rattle.cw_strand.specs.Holds as holds;
ghost use Rattle.cw_strand.specs.Holds.{outs, HasStopped, IsAtSync, IsGoing, IsRunning, IsWaiting};
ghost use Rattle.cw_strand.specs.declared.strand.Mode.TheVariants as mode;
ghost use Rattle.cw_strand.specs.Moves as moves;
ghost use Rattle.cw_strand.specs.Moves.{HasLost, HasReturnedNewest, MayReturnNewest};

use crate::lending::loans_named;
use crate::strand::{Home, Lent, Mode, Strand};
use cw_code::crew_laws::calls_preserve_strand_job;
use cw_jobs::job::Job;
use cw_machine::hands::Lender;
use cw_machine::laws::machines_that_stop_remain;
use cw_machine::machine::Machine;
use cw_runnable::verified::Verified;
use cw_slices::Slice;

// The call to which a job that was out returns.
pub(crate) fn home_of(lent: Option<Lent>) -> Home
    ensures { result ≡ moves.home_of lent }
{
    match lent {
        Some(lent) => lent.home,
        None => Home {
            lender: Lender { first: 0, slots: 0 },
            lent: None,
            target: None,
            floor: 0,
        },
    }
}

// Returns slices to a call of a machine, unless nothing is known of the machine any more.
fn return_to_lender(
    machine: &mut Machine,
    code: &Verified,
    home: Home,
    slices: &mut Vec<Slice>,
    replaced: &mut Vec<Option<Slice>>,
    is_lost: bool,
)
    requires { is_lost ≡ false → ∥ moves.MayReach machine.old code.now home slices.old.items
        replaced.old.items ∥₁ }
    ensures home { is_lost ≡ false → moves.Reaches machine.old code.now home slices.old.items
        replaced.old.items
        machine.new }
    ensures lines { machine.new.lines.items ≡ machine.old.lines.items }
{
    if is_lost {
        return;
    }
    machine.return_slices(home.lender, loans_named(code, home.lent), slices, replaced);
}

impl Strand {
    /// Returns whether the strand does not go on, because it waits for the newest job out or has stopped.
    pub fn is_paused(&self) -> bool
        ensures yes { result ≡ true → IsAtSync self.now }
        ensures no { result ≡ false → IsGoing self.now }
    {
        match self.mode {
            Mode::Going => false,
            _ => true,
        }
    }

    /// Returns whether the strand has stopped, by a trap, its limit or lack of memory, or was given up: it executes nothing
    /// more, and ends once nothing is out.
    pub fn stopped(&self) -> bool
        ensures yes { result ≡ true → HasStopped self.now }
        ensures no { IsAtSync self.now → result ≡ false → IsWaiting self.now }
    {
        match self.mode {
            Mode::Going => false,
            Mode::Waiting => false,
            _ => true,
        }
    }

    /// Returns whether the strand trapped or exceeded the limit of the run.
    pub fn halted(&self) -> bool
        ensures { result ≡ holds.halts self.now.mode }
    {
        match self.mode {
            Mode::Trapped(_, _) => true,
            Mode::Over => true,
            _ => false,
        }
    }

    /// Returns the number of instructions that the strand has executed, including those of continuations that were given to it.
    #[inline(always)]
    pub fn done(&self) -> u64
        ensures { result ≡ self.now.count }
    {
        self.count
    }

    // Returns whether memory ran out, so that nothing is known of the run any more.
    fn is_lost(&self) -> bool
        ensures { result ≡ holds.is_lost self.now.mode }
    {
        match self.mode {
            Mode::Memory => true,
            _ => false,
        }
    }

    // Removes the newest job out and returns its arrays to their slots.
    pub(crate) fn return_newest(
        &mut self,
        slices: &mut Vec<Slice>,
        replaced: &mut Vec<Option<Slice>>,
    )
        requires { MayReturnNewest self.old slices.old.items replaced.old.items }
        ensures { HasReturnedNewest self.old slices.old.items replaced.old.items self.new }
    {
        let is_lost = self.is_lost();
        let home = home_of(self.lent.pop());
        let machine = &mut self.run.machine;
        return_to_lender(machine, &self.parts.code, home, slices, replaced, is_lost);
    }

    // Removes the newest job out after memory ran out, so that nothing is known of its arrays.
    pub(crate) fn lose(&mut self)
        ensures { HasLost self.old self.new }
    {
        let _ = self.lent.pop();
        self.mode = Mode::Memory;
    }

    /// Skips the newest job out, which nobody executed, if the strand has stopped. Allocates only to keep the job's box for
    /// another job; this allocation may fail.
    #[inline(never)]
    pub fn skip(&mut self, job: Job)
        requires running { IsRunning self.old }
        requires stopped { HasStopped self.old }
        requires out { (others : List jobs.Job) × (outs self.old ≡ job ∷ others) }
        ensures of { self.new.of ≡ self.old.of }
        ensures running { IsRunning self.new }
        ensures stopped { HasStopped self.new }
        ensures outs { job ∷ outs self.new ≡ outs self.old }
        ensures mode { self.new.mode ≡ self.old.mode }
        ensures counts { self.new.count ≡ self.old.count }
    {
        let Job { parts } = job;
        let mut parts = parts;
        let mut none = Vec::new(*self.lent.allocator());
        self.return_newest(&mut parts.rest.slices, &mut none);
        self.spare(parts);
    }

    /// Gives the strand up, unless it has stopped already: it executes nothing more, still takes arrays back, and once nothing
    /// is out it ends with an effect that returns its own arrays.
    pub fn give_up(&mut self)
        ensures of { self.new.of ≡ self.old.of }
        ensures mode { self.new.mode ≡ holds.given_up self.old.mode }
        ensures running { IsRunning self.old → IsRunning self.new }
        ensures outs { outs self.new ≡ outs self.old }
        ensures counts { self.new.count ≡ self.old.count }
    {
        calls_preserve_strand_job();
        machines_that_stop_remain();
        match self.mode {
            Mode::Going => self.mode = Mode::GivenUp,
            Mode::Waiting => self.mode = Mode::GivenUp,
            _ => {}
        }
    }

    /// Stops the strand for lack of memory, in whatever state it is: it goes on no more, and if nothing is out it ends with
    /// an effect that says so. The count of its instructions is unchanged.
    pub fn fail(&mut self)
        ensures of { self.new.of ≡ self.old.of }
        ensures mode { self.new.mode ≡ mode.Memory }
        ensures stopped { HasStopped self.new }
        ensures running { IsRunning self.old → IsRunning self.new }
        ensures outs { outs self.new ≡ outs self.old }
        ensures counts { self.new.count ≡ self.old.count }
    {
        calls_preserve_strand_job();
        self.mode = Mode::Memory;
    }
}
