//! A strand that a worker has begun, with the jobs that it has out.

ghost use Rattle.std.specs.Prelude.{◌≡◌, ◌≢◌, ◌⊎◌, ◌<◌, ◌∷◌, [], List, IfOk, IsSome, MatchResult, OnErr};
ghost use Rattle.cw_jobs.specs.declared.job.Job as jobs;
ghost use Rattle.cw_strand.specs.declared.strand.Mode.TheVariants as mode;
ghost use Rattle.cw_strand.specs.Holds.{its_end, outs, IsAtSync, IsGoing, HasFailed, IsRunning, IsWaiting};
ghost use Rattle.cw_strand.specs.Losing.{LeavesEnd, MayExceed, MayLose};
ghost use Rattle.cw_strand.specs.Giving.{IsGiven};
ghost use Rattle.cw_strand.specs.Moves.{IsUnended};
ghost use Rattle.cw_sched.specs.core.Board.{pushed};
ghost use Rattle.cw_sched.specs.Scenes.{jobs_of, posted};
ghost use Rattle.cw_sched.specs.Boards.{IsFull};
ghost use Rattle.cw_sched.specs.Exceeding.{ExceedsAfter};
ghost use Rattle.cw_sched.specs.Lacking.{LacksAfter};
ghost use Rattle.cw_sched.specs.WorkerFrames.{Begins, Comes, ComesBack, HasDone, HasDoneWith, HasRoom, HasStepped, IsBackIn, IsEven, Lacks, LacksOne, ListsNext, AgreesWithJoin};

use cw_jobs::effect::Effect;
use cw_jobs::job::Job;
use cw_strand::strand::{Advance, Step, Strand};
use std::alloc::{AllocError, Global};
use std::snapshot::Snapshot;

/// A job that a strand has out, with its number.
#[derive(Drop)]
pub enum Out {
    /// At a spawn: to be offered or kept.
    Undecided(usize, Job),
    /// Kept by the strand's worker.
    Kept(usize, Job),
    /// Offered: the board has the job or its effect, or a thief has it.
    Offered(usize),
}

/// A strand that has not ended, and the jobs that it has out, the newest last.
#[derive(Drop)]
pub struct WorkerFrame {
    /// The number of its job.
    pub(crate) number: usize,
    pub(crate) strand: Strand,
    /// Whether it is at a join: it waits for the newest job out, or has stopped.
    pub(crate) at_join: bool,
    pub(crate) outs: Vec<Out>,
}

// Takes the newest job out back into the strand; nobody ran it.
fn unrun(strand: &mut Strand, rest: Job)
    requires at_sync { IsRunning strand.old × IsAtSync strand.old }
    requires newest { (others : List jobs.Job) × (outs strand.old ≡ rest ∷ others) }
    ensures of { strand.new.of ≡ strand.old.of }
    ensures running { IsRunning strand.new }
    ensures outs { rest ∷ outs strand.new ≡ outs strand.old }
    ensures back { IsBackIn strand.old strand.new }
    ensures counts { strand.new.count ≡ strand.old.count }
{
    if strand.stopped() {
        strand.skip(rest);
    } else {
        strand.take_back(rest);
    }
}

impl WorkerFrame {
    /// Begins a job. If memory runs out, the error returns the job, unchanged.
    pub(crate) fn start(alloc: Global, number: usize, job: Job) -> Result<WorkerFrame, Job>
        ensures { MatchResult result (Begins number job) (λ back. back ≡ job) }
    {
        match Strand::start(alloc, job) {
            Ok(strand) => Ok(WorkerFrame {
                number,
                strand,
                at_join: false,
                outs: Vec::new(alloc),
            }),
            Err(back) => Err(back),
        }
    }

    /// Updates the post after an instruction, or after its newest job came back, and returns the effect if the strand
    /// has ended.
    pub(crate) fn stand(&mut self) -> Option<Effect>
        requires running { IsRunning self.old.strand }
        requires even { IsEven self.old }
        ensures comes { Comes result (posted self.old) (posted self.new) (outs self.old.strand) }
        ensures counts { HasDone result self.new.strand self.old.strand.count }
        ensures over { ExceedsAfter result self.new.strand → self.old.strand.mode ≡ mode.Over }
        ensures leaves { LeavesEnd result self.old.strand self.new.strand }
    {
        if self.outs.is_empty() {
            self.at_join = false;
            return self.strand.end();
        }
        self.at_join = self.strand.is_paused();
        None
    }

    // Lists a job that the strand has just handed out, with the next number; the strand goes on with the spawned call.
    fn hand_out(&mut self, jobs: &mut Vec<Snapshot<Job>>, job: Job)
        requires room { HasRoom self.old.outs × HasRoom jobs.old }
        requires goes { IsGoing self.old.strand }
        requires out { outs self.old.strand ≢ [] }
        ensures strand { self.new.strand ≡ self.old.strand }
        ensures numbered { self.new.number ≡ self.old.number }
        ensures outs { ListsNext self.old (jobs_of jobs.old) job self.new }
        ensures jobs { jobs_of jobs.new ≡ pushed (jobs_of jobs.old) job }
        ensures stands { AgreesWithJoin (posted self.new) }
    {
        let number = jobs.len();
        jobs.push_reserved(Snapshot::of(&job));
        self.outs.push_reserved(Out::Undecided(number, job));
        self.at_join = false;
    }

    /// Executes one instruction, and returns the effect if the strand has ended. A continuation that is handed out
    /// gets the next number. If memory for the lists runs out, nothing is executed.
    pub(crate) fn step(
        &mut self,
        jobs: &mut Vec<Snapshot<Job>>,
    ) -> Result<Option<Effect>, AllocError>
        requires running { IsRunning self.old.strand }
        requires even { IsEven self.old }
        requires ready { IsGoing self.old.strand × IsUnended self.old.strand }
        ensures does { HasStepped result self.old self.new jobs.old jobs.new }
        ensures full { OnErr result (IsFull jobs.old ⊎ IsFull self.old.outs) }
        ensures over { IfOk result (λ r. ExceedsAfter r self.new.strand → self.old.strand.count ≡ its_end self.old.strand) }
        ensures lacks { IfOk result (λ r. LacksAfter r self.new.strand → self.old.strand.count < its_end self.old.strand) }
    {
        jobs.reserve(1)?;
        self.outs.reserve(1)?;
        match self.strand.advance() {
            Advance::Ran => Ok(self.stand()),
            Advance::Came(Step::Spawned(job)) => {
                self.hand_out(jobs, job);
                Ok(None)
            }
            Advance::Came(Step::AtSync) => {
                self.at_join = true;
                Ok(None)
            }
            Advance::Came(Step::Ended(effect)) => Ok(Some(effect)),
        }
    }

    /// Takes the newest job out back; nobody ran it.
    pub(crate) fn take_in(&mut self, rest: Job) -> Option<Effect>
        requires at_sync { IsRunning self.old.strand × IsAtSync self.old.strand }
        requires lacks { Lacks self.old rest }
        ensures comes { ComesBack result self.old rest self.new }
        ensures counts { HasDone result self.new.strand self.old.strand.count }
        ensures over { ExceedsAfter result self.new.strand → self.old.strand.mode ≡ mode.Over }
        ensures lacks { LacksAfter result self.new.strand
            → HasFailed self.old.strand ⊎ (IsWaiting self.old.strand × IsSome result) }
    {
        unrun(&mut self.strand, rest);
        self.stand()
    }

    /// Gives the strand the effect of the newest job out.
    pub(crate) fn give(&mut self, effect: Effect) -> Option<Effect>
        requires at_sync { IsRunning self.old.strand × IsAtSync self.old.strand }
        requires lacks { LacksOne self.old }
        requires given { IsGiven self.old.strand effect }
        ensures comes { (out : jobs.Job) → ComesBack result self.old out self.new }
        ensures counts { HasDoneWith result effect self.old.strand self.new.strand }
        ensures over { ExceedsAfter result self.new.strand → MayExceed self.old.strand effect }
        ensures lacks { LacksAfter result self.new.strand → MayLose self.old.strand effect }
    {
        self.strand.give(effect);
        self.stand()
    }
}
