//! Steps of a run on each of several numbers of processors, with its measures.

ghost use Rattle.std.specs.Prelude.{◌≡◌, ◌≤◌, IfOk, MatchResult, All};
ghost use Rattle.cw_model.specs.Trees.{Tree, work};
ghost use Rattle.cw_model.specs.declared.limits.TheConstants.{MOST_BURDEN, MOST_LIMIT};
ghost use Rattle.cw_code.specs.Code.{code_view};
ghost use Rattle.cw_greedy.specs.Records.{IsRecordOf};
ghost use Rattle.cw_machine.specs.Recorded.{Records, RecordsAsCode};
ghost use Rattle.cw_meter.specs.Whole.{AreReadings};
ghost use Rattle.cw_greedy.specs.Recording.{IsKept};
ghost use Rattle.cw_greedy_schedule.specs.Speedups as speedups;

use crate::counts::counts_up_to;
use crate::laws::work_is_within_its_limit;
use crate::schedule::greedy;
use crate::schedules;
use crate::weights::{burdened, weigh};
use cw_greedy::laws::greedy_is_bounded;
use cw_greedy::strands::Strands;
use cw_machine::alone::run_alone;
use cw_machine::recorded::strands_alone;
use cw_meter::Readings;
use cw_model::burden::Burden;
use cw_model::limits::MOST_BURDEN;
use cw_runnable::verified::Verified;
use cw_text::Fault;
use std::alloc::{AllocError, Global};
use std::sync::Arc;
use std::thread;
use std::thread::Threads;

/// The steps of a run on some processors.
#[derive(Debug, Clone, Copy, PartialEq, Eq)]
pub struct SpeedupRow {
    /// How many processors share the strands.
    pub processors: u64,
    /// The length of the greedy schedule, in steps; none if the run has more than 1,000,000 strands.
    pub steps: Option<u64>,
}

/// The measures of a run, and its steps by number of processors.
#[derive(Debug, Drop)]
pub struct Speedup {
    /// Work, span and burdened span, in instructions.
    pub measure: Readings,
    /// A row for each power of two below the largest number of processors, and one for that number.
    pub rows: Vec<SpeedupRow>,
}

/// How the rows of a run are computed from its strands.
pub trait Scheduler {
    /// Returns a row for each of these numbers of processors, in their order.
    ///
    /// # Errors
    ///
    /// `AllocError` if memory runs out.
    fn rows(
        &self,
        alloc: Global,
        kept: &Strands,
        counts: &[u64],
    ) -> Result<Vec<SpeedupRow>, AllocError>
        requires counts { All (λ p. 1 ≤ p) counts.now }
        requires kept { speedups.HasSmallTree kept.now }
        ensures { IfOk result (speedups.AreRowsOf kept.now counts.now) };
}

/// One schedule at a time.
#[derive(Drop)]
pub struct InTurn;

impl Scheduler for InTurn {
    fn rows(
        &self,
        alloc: Global,
        kept: &Strands,
        counts: &[u64],
    ) -> Result<Vec<SpeedupRow>, AllocError> {
        rows_of(alloc, kept, counts)
    }
}

/// Schedules in parallel, by at most `threads` threads, one of which is the caller's. With one thread no other thread is
/// started. If a thread cannot be started, the caller's thread does its schedules.
#[derive(Drop)]
pub struct InParallel<T> {
    /// The handle that starts threads.
    pub rt: T,
    /// The maximum number of threads.
    pub threads: usize,
}

impl<R: Threads> Scheduler for InParallel<&R> {
    fn rows(
        &self,
        alloc: Global,
        kept: &Strands,
        counts: &[u64],
    ) -> Result<Vec<SpeedupRow>, AllocError> {
        rows_with(self.rt, alloc, kept, self.threads, counts)
    }
}

/// Runs code on these arguments within `n` instructions and returns the measures of its strand tree and its steps on 1, 2,
/// 4, .. and `most` processors, which are the lengths of greedy schedules, as `schedule_alone` returns them.
///
/// `burden` is charged for each spawn; only the burdened span depends on it. A run of more than 1,000,000 strands has
/// measures and no steps.
///
/// # Errors
///
/// `Arguments` exactly if the number of arguments is not the number of `main`'s parameters, or `n` is not in 1..=2^62, or
/// `most` is not in 1..=1,000,000, or more than 1,000,000,000 instructions are charged for an edge; otherwise `OverLimit`
/// exactly if the run costs more than `n`, `Trap` exactly if it traps, with its line and the values printed before, and
/// `Memory` if memory runs out.
pub fn speedup_alone(
    alloc: Global,
    code: Arc<Verified>,
    args: &[i64],
    n: u64,
    burden: Burden,
    most: u64,
) -> Result<Speedup, Fault>
    ensures { speedups.SpeedsUpAsCode (code_view code.value.code) args.now n burden most result }
{
    if !is_asked(&code, args, n, burden, most) {
        return Err(Fault::Arguments);
    }
    let share = Arc::try_clone(&code)?;
    let ran = strands_alone(alloc, share, args, n);
    let speedup = speedup_of_run(alloc, code, args, n, burden, most, &InTurn, ran)?;
    Ok(speedup)
}

/// Returns what `speedup_alone` returns, for a run of this code, by any workers, that recorded these strands or did not
/// end. The result does not depend on the scheduler.
///
/// # Errors
///
/// Those of `speedup_alone`.
pub fn speedup_of_run<S: Scheduler>(
    alloc: Global,
    code: Arc<Verified>,
    args: &[i64],
    n: u64,
    burden: Burden,
    most: u64,
    scheduler: &S,
    ran: Result<Strands, Fault>,
) -> Result<Speedup, Fault>
    requires { RecordsAsCode (code_view code.value.code) args.now n ran }
    ensures { speedups.SpeedsUpAsCode (code_view code.value.code) args.now n burden most result }
{
    greedy_is_bounded();
    work_is_within_its_limit();
    if !is_asked(&code, args, n, burden, most) {
        return Err(Fault::Arguments);
    }
    let strands = ran?;
    let counts = counts_up_to(alloc, most)?;
    let rows = scheduler.rows(alloc, &strands, counts.as_slice())?;
    let measure = measure_of(alloc, code, args, n, burden, &strands)?;
    Ok(Speedup { measure, rows })
}

/// Returns whether the number of arguments is the number of `main`'s parameters, and the limit, the burden and the number
/// of processors are in their ranges.
pub fn is_asked(code: &Verified, args: &[i64], n: u64, burden: Burden, most: u64) -> bool
    ensures { result ≡ speedups.is_asked (code_view code.now.code) args.now n burden most }
{
    schedules::is_asked(code, args, n, most) && burden.charge <= MOST_BURDEN
}

// Returns the measures of a run, from its record or, if it has too many strands to record, from a second run.
fn measure_of(
    alloc: Global,
    code: Arc<Verified>,
    args: &[i64],
    n: u64,
    burden: Burden,
    kept: &Strands,
) -> Result<Readings, Fault>
    requires low { burden.charge ≤ MOST_BURDEN }
    requires ran { speedups.IsSmallRecord (code_view code.value.code) args.now n kept.now }
    ensures { (r : Records (code_view code.value.code) args.now n kept.now)
        → MatchResult result (AreReadings burden r.tree)
        (speedups.IsNotMeasured (code_view code.value.code) args.now n burden) }
{
    if !kept.fits() {
        let ended = run_alone(alloc, code, args, n, burden)?;
        return Ok(ended.measure);
    }
    let measure = recorded_measure(alloc, kept, burden)?;
    Ok(measure)
}

// Returns the measures of a record.
fn recorded_measure(alloc: Global, kept: &Strands, burden: Burden) -> Result<Readings, AllocError>
    requires low { burden.charge ≤ MOST_BURDEN }
    requires kept { (t : Tree) × (IsRecordOf t kept.now × (work t ≤ MOST_LIMIT)) }
    ensures { (t : Tree) → IsRecordOf t kept.now → IfOk result (AreReadings burden t) }
{
    let weights = weigh(alloc, kept)?;
    let with_burden = burdened(alloc, kept, burden)?;
    Ok(Readings {
        work: weights.work,
        span: weights.span,
        burdened: u128::from(with_burden),
    })
}

// Returns the rows of a record for these numbers of processors.
fn rows_of(alloc: Global, kept: &Strands, counts: &[u64]) -> Result<Vec<SpeedupRow>, AllocError>
    requires counts { All (λ p. 1 ≤ p) counts.now }
    requires kept { speedups.HasSmallTree kept.now }
    ensures { IfOk result (speedups.AreRowsOf kept.now counts.now) }
{
    let mut rows = Vec::new(alloc);
    for processors in counts {
        let steps = steps_on(alloc, kept, *processors)?;
        rows.push(SpeedupRow {
            processors: *processors,
            steps,
        })?;
    }
    Ok(rows)
}

// Returns what `rows_of` returns, computed by at most `threads` threads: a new thread does the first rows, and the
// caller's thread and the remaining ones do the rest in parallel.
#[cycle(threads)]
fn rows_with<R: Threads>(
    rt: &R,
    alloc: Global,
    kept: &Strands,
    threads: usize,
    counts: &[u64],
) -> Result<Vec<SpeedupRow>, AllocError>
    requires counts { All (λ p. 1 ≤ p) counts.now }
    requires kept { speedups.HasSmallTree kept.now }
    ensures { IfOk result (speedups.AreRowsOf kept.now counts.now) }
{
    let threads = threads.min(counts.len());
    if threads < 2 {
        return rows_of(alloc, kept, counts);
    }
    let left = threads - 1;
    let (share, rest) = counts.split_at((counts.len() - 1) / threads + 1);
    let one = move || -> Result<Vec<SpeedupRow>, AllocError>
        requires counts { All (λ p. 1 ≤ p) share.now }
        requires kept { speedups.HasSmallTree kept.now }
        ensures { IfOk result (speedups.AreRowsOf kept.entry.now share.entry.now) }
    { rows_of(alloc, kept, share) };
    let others = move || -> Result<Vec<SpeedupRow>, AllocError>
        requires counts { All (λ p. 1 ≤ p) rest.now }
        requires kept { speedups.HasSmallTree kept.now }
        ensures { IfOk result (speedups.AreRowsOf kept.entry.now rest.entry.now) }
    { rows_with(rt, alloc, kept, left, rest) };
    let (first, later) = thread::join(rt, one, others);
    let mut rows = first?;
    let mut later = later?;
    rows.append(&mut later)?;
    Ok(rows)
}

// Returns the steps of a record on this number of processors, if the record has its strands.
fn steps_on(alloc: Global, kept: &Strands, processors: u64) -> Result<Option<u64>, AllocError>
    requires processors { 1 ≤ processors }
    requires kept { speedups.HasSmallTree kept.now }
    ensures { (t : Tree) → IsKept t kept.now
        → IfOk result (λ steps. steps ≡ speedups.steps_on processors t) }
{
    if !kept.fits() {
        return Ok(None);
    }
    let steps = greedy(alloc, kept, processors)?;
    Ok(Some(steps))
}
