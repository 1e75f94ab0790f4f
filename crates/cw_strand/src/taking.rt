//! The return of a job that was out and was not executed.

ghost use Rattle.std.specs.Prelude.{◌≡◌, ◌∷◌, List};
ghost use Rattle.cw_jobs.specs.declared.job.Job as jobs;
ghost use Rattle.cw_jobs.specs.Jobs.{code_of};
ghost use Rattle.cw_strand.specs.Holds.{its_code, outs, AreSpare, IsGoing, IsRunning, IsWaiting};
ghost use Rattle.cw_strand.specs.Moves.{HasSpared};

use crate::lending::loans_named;
use crate::strand::{Mode, Strand};
use cw_code::crew_laws::calls_preserve_strand_job;
use cw_jobs::call::Parts;
use cw_jobs::job::Job;

// Frees a box for which there is no room.
#[cold]
#[inline(never)]
fn let_go(parts: Box<Parts>) {
    drop(parts);
}

impl Strand {
    // Keeps a box that is no longer needed, if there is room for it.
    #[inline(always)]
    pub(crate) fn spare(&mut self, parts: Box<Parts>)
        requires spares { AreSpare self.old }
        requires code { code_of parts.value ≡ its_code self.old }
        ensures kept { HasSpared self.old self.new }
    {
        match self.spares.push(parts) {
            Ok(()) => {}
            Err(refused) => let_go(refused.value),
        }
    }

    // Takes back the newest job out, which nobody executed.
    #[inline(always)]
    fn take_in(&mut self, job: Job)
        requires running { IsRunning self.old }
        requires waiting { IsWaiting self.old }
        requires out { (others : List jobs.Job) × (outs self.old ≡ job ∷ others) }
        ensures of { self.new.of ≡ self.old.of }
        ensures running { IsRunning self.new }
        ensures outs { job ∷ outs self.new ≡ outs self.old }
        ensures goes { IsGoing self.new }
        ensures counts { self.new.count ≡ self.old.count }
    {
        calls_preserve_strand_job();
        let Job { parts } = job;
        let mut parts = parts;
        let home = self.lent.take_last().home;
        let loans = loans_named(&self.parts.code, home.lent);
        let machine = &mut self.run.machine;
        machine.take_back(&mut parts.rest, home.lender.slots, loans);
        self.mode = Mode::Going;
        self.spare(parts);
    }

    // Takes back the newest job out, not inlined: for jobs with arrays, or if there is no room for the job's box.
    #[inline(never)]
    fn take_home(&mut self, job: Job)
        requires running { IsRunning self.old }
        requires waiting { IsWaiting self.old }
        requires out { (others : List jobs.Job) × (outs self.old ≡ job ∷ others) }
        ensures of { self.new.of ≡ self.old.of }
        ensures running { IsRunning self.new }
        ensures outs { job ∷ outs self.new ≡ outs self.old }
        ensures goes { IsGoing self.new }
        ensures counts { self.new.count ≡ self.old.count }
    {
        self.take_in(job);
    }

    /// Takes back the newest job out, which nobody executed, after the spawned call has returned: the strand executes
    /// this continuation itself. Allocates only to keep the job's box for another job; this allocation may fail.
    #[inline(always)]
    pub fn take_back(&mut self, job: Job)
        requires running { IsRunning self.old }
        requires waiting { IsWaiting self.old }
        requires out { (others : List jobs.Job) × (outs self.old ≡ job ∷ others) }
        ensures of { self.new.of ≡ self.old.of }
        ensures running { IsRunning self.new }
        ensures outs { job ∷ outs self.new ≡ outs self.old }
        ensures goes { IsGoing self.new }
        ensures counts { self.new.count ≡ self.old.count }
    {
        if job.parts.rest.slices.is_empty() && self.spares.len() < self.spares.capacity() {
            self.take_in(job);
        } else {
            self.take_home(job);
        }
    }
}
