//! The start of a job by a strand.

ghost use Rattle.std.specs.Prelude.{◌≡◌, IfOk, IfErr, MatchResult};
ghost use Rattle.cw_jobs.specs.Jobs.{begins_at, IsSound};
ghost use Rattle.cw_jobs.specs.Strands.{StartsFrom};
ghost use Rattle.cw_strand.specs.Moves.{Begins, BeginsRun};

use crate::strand::{Mode, Strand};
use cw_code::crew_laws::calls_preserve_strand_job;
use cw_jobs::call::{Extent, Parts};
use cw_jobs::job::Job;
use cw_jobs::laws::calls_keep_meter_records;
use cw_machine::machine::Machine;
use cw_machine::run::Run;
use cw_meter::{Detail, Meter};
use std::alloc::{AllocError, Global};
use std::snapshot::Snapshot;

// Creates the meter of a job of this extent, in the call of a site. `detail` says how much is recorded.
fn begin_meter(
    alloc: Global,
    extent: Extent,
    site: u32,
    detail: Detail,
) -> Result<Meter, AllocError>
    ensures { IfOk result (λ m. StartsFrom (begins_at extent site) detail m) }
{
    match extent {
        Extent::WholeCall => {
            let meter = Meter::new(alloc, detail)?;
            Ok(meter)
        }
        Extent::ToJoin => Ok(Meter::apart(alloc, site, detail)),
    }
}

// Creates the run of a job, with the job's arrays.
fn begin_run(alloc: Global, parts: &mut Parts) -> Result<Run, AllocError>
    requires sound { ∥ IsSound parts.old ∥₁ }
    ensures begins { IfOk result (λ r. BeginsRun parts.old parts.new r) }
    ensures same { IfErr result (λ _. parts.new ≡ parts.old) }
{
    let meter = begin_meter(alloc, parts.extent, parts.site, parts.detail)?;
    let machine = Machine::begin_job(alloc, &parts.code, &mut parts.rest)?;
    Ok(Run { machine, meter })
}

impl Strand {
    /// Begins a job.
    ///
    /// # Errors
    ///
    /// The job, unchanged, if memory runs out.
    pub fn start(alloc: Global, job: Job) -> Result<Strand, Job>
        ensures { MatchResult result (λ s. Begins job s) (λ back. back ≡ job) }
    {
        calls_keep_meter_records();
        calls_preserve_strand_job();
        let of = Snapshot::of(&job);
        let Job { parts } = job;
        let mut parts = parts;
        match begin_run(alloc, &mut parts) {
            Ok(run) => Ok(Strand {
                of,
                parts,
                run,
                count: 0,
                lent: Vec::new(alloc),
                spares: Vec::new(alloc),
                mode: Mode::Going,
            }),
            Err(_) => Err(Job { parts }),
        }
    }
}
