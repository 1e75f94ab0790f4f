//! From bytes to a report.

ghost use Rattle.std.specs.Prelude.{◌≡◌, ◌<◌, ◌≤◌, ◌-◌, ◌^◌, ℕ, List, [], MatchResult, length};
ghost use Rattle.cw_code.specs.Code.{code_view};
ghost use Rattle.cw_pool.specs.declared.run.TheConstants.{MOST_BODIES};
ghost use Rattle.cw_words.specs.declared.asked.Mode.TheVariants as mode;
ghost use Rattle.cw_compile.specs.Compiled.{IsCompiled, IsMade};
ghost use Rattle.cw_cli.specs.Analyses.{IsModeInRange};
ghost use Rattle.cw_cli.specs.Analyses.{IsAnalysed, IsAnalysedBy, IsRun};
ghost use Rattle.cw_cli.specs.ModeTexts.{HasTables};
ghost use Rattle.cw_gains.specs.Gains.{HasNumberedSites};
ghost use Rattle.cw_greedy_schedule.specs.Schedules.{SchedulesAsCode};
ghost use Rattle.cw_greedy_schedule.specs.Speedups.{SpeedsUpAsCode};

use crate::paging::{run_page, run_page_with};
use crate::reporting::{are_words, write_gains, write_tables, write_values};
use cw_compile::{Compiled, compile_with_heads};
use cw_gains::gains::{gains_of_run, gains_of_run_with};
use cw_greedy_schedule::schedules::{Schedule, is_asked, schedule_alone, schedule_of_run};
use cw_greedy_schedule::speedups;
use cw_greedy_schedule::speedups::{InParallel, Speedup, speedup_alone, speedup_of_run};
use cw_machine::alone::run_alone;
use cw_machine::values::values_alone;
use cw_model::burden::Burden;
use cw_model::laws::derived_sites_are_numbered;
use cw_model::limits::{MOST_BURDEN, MOST_TOP};
use cw_pool::crew::Body;
use cw_pool::gate::Gate;
use cw_pool::run::MOST_BODIES;
use cw_report::{Sink, ok, schedule, speedup};
use cw_runnable::verified::Verified;
use cw_text::Fault;
use cw_words::{Mode, Options};
use std::alloc::Global;
use std::sync::{Arc, Wait};
use std::thread::Threads;

/// Analyses the program with this source with one worker, and writes the report of the mode.
///
/// Fewer than 2^64 - 1 writes to the sink failed before the call.
///
/// # Errors
///
/// In this order:
///
/// - the errors of `compile`. A check reads no arguments and runs nothing, so it returns no other error;
/// - `Arguments` if the number of arguments is not the number of parameters of `main`, or an option is out of range;
/// - `OverLimit` if the serial elision costs more than the limit, and `Trap` if it traps. Mode `Run` first writes what the
///   program printed before the trap; other modes write nothing;
/// - `Strands`, with their number, if a run in mode `Greedy` ends with more than 1,000,000 strands.
///
/// `Write` if a write of the report failed. `Memory` if memory ran out. Nothing is written at any error except `Trap` and
/// `Write`.
pub fn analyse_alone<W: Sink>(
    alloc: Global,
    bytes: &[u8],
    args: &[i64],
    options: Options,
    out: &mut W,
) -> Result<(), Fault>
    requires { (W.seen out.old).failures < 2 ^ 64 - 1 }
    ensures { IsAnalysed W.seen out.old out.new [] bytes.now args.now options result }
{
    analyse_named_alone(alloc, b"", bytes, args, options, out)
}

/// Analyses the program as `analyse_alone` does. `name` is the name of the source, which the title of a page shows.
///
/// # Errors
///
/// Those of `analyse_alone`.
pub fn analyse_named_alone<W: Sink>(
    alloc: Global,
    name: &[u8],
    bytes: &[u8],
    args: &[i64],
    options: Options,
    out: &mut W,
) -> Result<(), Fault>
    requires { (W.seen out.old).failures < 2 ^ 64 - 1 }
    ensures { IsAnalysed W.seen out.old out.new name.now bytes.now args.now options result }
{
    derived_sites_are_numbered();
    let made = compile_with_heads(alloc, bytes)?;
    match options.mode {
        Mode::Check => ok(out),
        Mode::Run => run_plain(alloc, made.code, args, options, out),
        Mode::Scale | Mode::Sites => run(alloc, made.code, args, options, out),
        Mode::Gain(top) => run_gain(alloc, made, args, top, options, out),
        Mode::Greedy(processors) => run_greedy(alloc, made.code, args, processors, options, out),
        Mode::Speedup(most) => run_speedup(alloc, made.code, args, most, options, out),
        Mode::Page { top, processors } => {
            run_page(
                alloc, name, bytes, made, args, top, processors, options, out,
            )
        }
    }
}

/// Analyses the program with this source, and writes the report of the mode. The workers are the caller's thread and one
/// thread for each body of the crew; they steal from each other.
///
/// The report is the one that `analyse_alone` writes: no byte depends on the crew, on what its bodies and the gate do, or on
/// the order of steals. The caller's thread executes a check, a run without spawns, and every mode if the crew is empty.
/// Otherwise the crew executes the run, and then:
///
/// - in mode `Gain`, one thread for each worker executes the further runs;
/// - in mode `Greedy`, the caller's thread computes the schedule;
/// - in mode `Speedup`, one thread for each worker computes schedules. If the run has more than 1,000,000 strands, the
///   caller's thread executes a second run for the measures;
/// - in mode `Page`, one thread for each worker executes the further runs of the gain table, the caller's thread executes a
///   run that records strands, and one thread for each worker computes schedules.
///
/// Fewer than 2^64 - 1 writes to the sink failed before the call.
///
/// # Errors
///
/// `Arguments` if the crew has more than 63 bodies, in each mode; nothing is written. Otherwise the errors of
/// `analyse_alone`.
pub fn analyse<
    W: Sink,
    G: Gate + Drop + Send + Sync + 'static,
    B: Body<G> + Send + Drop + 'static,
    R: Threads + Wait,
>(
    rt: &R,
    alloc: Global,
    bytes: &[u8],
    args: &[i64],
    options: Options,
    crew: Vec<B>,
    gate: Arc<G>,
    out: &mut W,
) -> Result<(), Fault>
    requires { (W.seen out.old).failures < 2 ^ 64 - 1 }
    ensures { IsAnalysedBy W.seen out.old out.new [] bytes.now args.now options
        (length crew.items) result }
{
    analyse_named(rt, alloc, b"", bytes, args, options, crew, gate, out)
}

/// Analyses the program as `analyse` does. `name` is the name of the source, which the title of a page shows.
///
/// # Errors
///
/// Those of `analyse`.
pub fn analyse_named<
    W: Sink,
    G: Gate + Drop + Send + Sync + 'static,
    B: Body<G> + Send + Drop + 'static,
    R: Threads + Wait,
>(
    rt: &R,
    alloc: Global,
    name: &[u8],
    bytes: &[u8],
    args: &[i64],
    options: Options,
    crew: Vec<B>,
    gate: Arc<G>,
    out: &mut W,
) -> Result<(), Fault>
    requires { (W.seen out.old).failures < 2 ^ 64 - 1 }
    ensures { IsAnalysedBy W.seen out.old out.new name.now bytes.now args.now options
        (length crew.items) result }
{
    if crew.len() > MOST_BODIES {
        return Err(Fault::Arguments);
    }
    if crew.is_empty() {
        return analyse_named_alone(alloc, name, bytes, args, options, out);
    }
    derived_sites_are_numbered();
    let made = compile_with_heads(alloc, bytes)?;
    match options.mode {
        Mode::Check => ok(out),
        Mode::Run => run_plain_with(rt, alloc, made.code, args, options, crew, gate, out),
        Mode::Scale | Mode::Sites => run_with(rt, alloc, made.code, args, options, crew, gate, out),
        Mode::Gain(top) => run_gain_with(rt, alloc, made, args, top, options, crew, gate, out),
        Mode::Greedy(processors) => {
            run_greedy_with(
                rt, alloc, made.code, args, processors, options, crew, gate, out,
            )
        }
        Mode::Speedup(most) => {
            run_speedup_with(rt, alloc, made.code, args, most, options, crew, gate, out)
        }
        Mode::Page { top, processors } => {
            run_page_with(
                rt, alloc, name, bytes, made, args, top, processors, options, crew, gate, out,
            )
        }
    }
}

// Runs code without measures, and writes the values of the run.
fn run_plain<W: Sink>(
    alloc: Global,
    code: Verified,
    args: &[i64],
    options: Options,
    out: &mut W,
) -> Result<(), Fault>
    requires { (W.seen out.old).failures < 2 ^ 64 - 1 }
    ensures { (name bytes : List ℕ) → options.mode ≡ mode.Run
        → IsCompiled bytes (code_view code.code)
        → IsRun W.seen out.old out.new name bytes args.now options result }
{
    let code = Arc::new(alloc, code)?;
    let share = Arc::try_clone(&code)?;
    let values = values_alone(alloc, share, args, options.limit, options.burden);
    write_values(alloc, &code, args, options, values, out)
}

// Runs code, and writes the tables of the run.
fn run<W: Sink>(
    alloc: Global,
    code: Verified,
    args: &[i64],
    options: Options,
    out: &mut W,
) -> Result<(), Fault>
    requires { (W.seen out.old).failures < 2 ^ 64 - 1 }
    ensures { (name bytes : List ℕ) → HasTables options.mode
        → IsCompiled bytes (code_view code.code)
        → IsRun W.seen out.old out.new name bytes args.now options result }
{
    let code = Arc::new(alloc, code)?;
    let share = Arc::try_clone(&code)?;
    let ended = run_alone(alloc, share, args, options.limit, options.burden);
    write_tables(alloc, &code, args, options, ended, out)
}

// Runs code with a crew, and writes the values of the run.
fn run_plain_with<
    W: Sink,
    G: Gate + Drop + Send + Sync + 'static,
    B: Body<G> + Send + Drop + 'static,
    R: Threads + Wait,
>(
    rt: &R,
    alloc: Global,
    code: Verified,
    args: &[i64],
    options: Options,
    crew: Vec<B>,
    gate: Arc<G>,
    out: &mut W,
) -> Result<(), Fault>
    requires out { (W.seen out.old).failures < 2 ^ 64 - 1 }
    requires few { length crew.items ≤ MOST_BODIES }
    ensures { (name bytes : List ℕ) → options.mode ≡ mode.Run
        → IsCompiled bytes (code_view code.code)
        → IsRun W.seen out.old out.new name bytes args.now options result }
{
    let code = Arc::new(alloc, code)?;
    let share = Arc::try_clone(&code)?;
    let values = cw_pool::run::values(
        rt,
        alloc,
        share,
        args,
        options.limit,
        options.burden,
        crew,
        gate,
    );
    write_values(alloc, &code, args, options, values, out)
}

// Runs code with a crew, and writes the tables of the run.
fn run_with<
    W: Sink,
    G: Gate + Drop + Send + Sync + 'static,
    B: Body<G> + Send + Drop + 'static,
    R: Threads + Wait,
>(
    rt: &R,
    alloc: Global,
    code: Verified,
    args: &[i64],
    options: Options,
    crew: Vec<B>,
    gate: Arc<G>,
    out: &mut W,
) -> Result<(), Fault>
    requires out { (W.seen out.old).failures < 2 ^ 64 - 1 }
    requires few { length crew.items ≤ MOST_BODIES }
    ensures { (name bytes : List ℕ) → HasTables options.mode
        → IsCompiled bytes (code_view code.code)
        → IsRun W.seen out.old out.new name bytes args.now options result }
{
    let code = Arc::new(alloc, code)?;
    let share = Arc::try_clone(&code)?;
    let ended = cw_pool::run::run(
        rt,
        alloc,
        share,
        args,
        options.limit,
        options.burden,
        crew,
        gate,
    );
    write_tables(alloc, &code, args, options, ended, out)
}

// Runs code, and once more for each function of the gain table, and writes the table.
fn run_gain<W: Sink>(
    alloc: Global,
    made: Compiled,
    args: &[i64],
    top: u64,
    options: Options,
    out: &mut W,
) -> Result<(), Fault>
    requires out { (W.seen out.old).failures < 2 ^ 64 - 1 }
    requires numbered { HasNumberedSites (code_view made.code.code) }
    ensures { (name bytes : List ℕ) → options.mode ≡ mode.Gain top → IsMade bytes made
        → IsRun W.seen out.old out.new name bytes args.now options result }
{
    let most = top_of(top)?;
    let code = Arc::new(alloc, made.code)?;
    let share = Arc::try_clone(&code)?;
    let (limit, burden) = (options.limit, options.burden);
    let ended = run_alone(alloc, share, args, limit, burden);
    let heads = made.heads.as_slice();
    let gains = gains_of_run(alloc, code, heads, args, limit, burden, most, ended);
    write_gains(alloc, args, options, gains, out)
}

// Runs code with a crew, then once more for each function of the gain table, one run for each worker at a time, and writes
// the table.
fn run_gain_with<
    W: Sink,
    G: Gate + Drop + Send + Sync + 'static,
    B: Body<G> + Send + Drop + 'static,
    R: Threads + Wait,
>(
    rt: &R,
    alloc: Global,
    made: Compiled,
    args: &[i64],
    top: u64,
    options: Options,
    crew: Vec<B>,
    gate: Arc<G>,
    out: &mut W,
) -> Result<(), Fault>
    requires out { (W.seen out.old).failures < 2 ^ 64 - 1 }
    requires few { length crew.items ≤ MOST_BODIES }
    requires numbered { HasNumberedSites (code_view made.code.code) }
    ensures { (name bytes : List ℕ) → options.mode ≡ mode.Gain top → IsMade bytes made
        → IsRun W.seen out.old out.new name bytes args.now options result }
{
    let most = top_of(top)?;
    let code = Arc::new(alloc, made.code)?;
    let share = Arc::try_clone(&code)?;
    let (limit, burden) = (options.limit, options.burden);
    let workers = crew.len() + 1;
    let ended = cw_pool::run::run(rt, alloc, share, args, limit, burden, crew, gate);
    let heads = made.heads.as_slice();
    let gains = gains_of_run_with(
        rt, alloc, code, heads, args, limit, burden, most, workers, ended,
    );
    write_gains(alloc, args, options, gains, out)
}

// Returns the maximum number of functions in the gain table, if it is in range.
pub(crate) fn top_of(top: u64) -> Result<usize, Fault>
    ensures { MatchResult result (λ most. (most ≡ top) × IsModeInRange (mode.Gain top))
        (λ e. (e ≡ Fault.Arguments) × ¬ (IsModeInRange (mode.Gain top))) }
{
    if top < 1 || MOST_TOP < top {
        return Err(Fault::Arguments);
    }
    Ok(top as usize)
}

// Runs code and writes the greedy schedule by this number of processors. The burden must be in range, as for each run, and
// changes nothing.
fn run_greedy<W: Sink>(
    alloc: Global,
    code: Verified,
    args: &[i64],
    processors: u64,
    options: Options,
    out: &mut W,
) -> Result<(), Fault>
    requires { (W.seen out.old).failures < 2 ^ 64 - 1 }
    ensures { (name bytes : List ℕ) → options.mode ≡ mode.Greedy processors
        → IsCompiled bytes (code_view code.code)
        → IsRun W.seen out.old out.new name bytes args.now options result }
{
    are_words(args);
    if options.burden.charge > MOST_BURDEN {
        return Err(Fault::Arguments);
    }
    let code = Arc::new(alloc, code)?;
    let told = schedule_alone(alloc, code, args, options.limit, processors);
    schedule(alloc, &told, out)?;
    told?;
    Ok(())
}

// Runs code with a crew, and returns the greedy schedule by this number of processors.
fn schedule_with<
    G: Gate + Drop + Send + Sync + 'static,
    B: Body<G> + Send + Drop + 'static,
    R: Threads + Wait,
>(
    rt: &R,
    alloc: Global,
    code: Arc<Verified>,
    args: &[i64],
    limit: u64,
    processors: u64,
    crew: Vec<B>,
    gate: Arc<G>,
) -> Result<Schedule, Fault>
    requires { length crew.items ≤ MOST_BODIES }
    ensures { SchedulesAsCode (code_view code.value.code) args.now limit processors result }
{
    if !is_asked(&code, args, limit, processors) {
        return Err(Fault::Arguments);
    }
    let share = Arc::try_clone(&code)?;
    let ran = cw_pool::run::strands(rt, alloc, share, args, limit, crew, gate);
    let told = schedule_of_run(alloc, &code, args, limit, processors, ran)?;
    Ok(told)
}

// Runs code with a crew, and writes the greedy schedule by this number of processors.
fn run_greedy_with<
    W: Sink,
    G: Gate + Drop + Send + Sync + 'static,
    B: Body<G> + Send + Drop + 'static,
    R: Threads + Wait,
>(
    rt: &R,
    alloc: Global,
    code: Verified,
    args: &[i64],
    processors: u64,
    options: Options,
    crew: Vec<B>,
    gate: Arc<G>,
    out: &mut W,
) -> Result<(), Fault>
    requires out { (W.seen out.old).failures < 2 ^ 64 - 1 }
    requires few { length crew.items ≤ MOST_BODIES }
    ensures { (name bytes : List ℕ) → options.mode ≡ mode.Greedy processors
        → IsCompiled bytes (code_view code.code)
        → IsRun W.seen out.old out.new name bytes args.now options result }
{
    are_words(args);
    if options.burden.charge > MOST_BURDEN {
        return Err(Fault::Arguments);
    }
    let code = Arc::new(alloc, code)?;
    let told = schedule_with(rt, alloc, code, args, options.limit, processors, crew, gate);
    schedule(alloc, &told, out)?;
    told?;
    Ok(())
}

// Runs code and writes its speedups up to `most` processors.
fn run_speedup<W: Sink>(
    alloc: Global,
    code: Verified,
    args: &[i64],
    most: u64,
    options: Options,
    out: &mut W,
) -> Result<(), Fault>
    requires { (W.seen out.old).failures < 2 ^ 64 - 1 }
    ensures { (name bytes : List ℕ) → options.mode ≡ mode.Speedup most
        → IsCompiled bytes (code_view code.code)
        → IsRun W.seen out.old out.new name bytes args.now options result }
{
    are_words(args);
    let code = Arc::new(alloc, code)?;
    let told = speedup_alone(alloc, code, args, options.limit, options.burden, most);
    speedup(alloc, &told, options.table, out)?;
    told?;
    Ok(())
}

// Returns the speedups of a run by a crew, up to `most` processors.
fn speedup_with<
    G: Gate + Drop + Send + Sync + 'static,
    B: Body<G> + Send + Drop + 'static,
    R: Threads + Wait,
>(
    rt: &R,
    alloc: Global,
    code: Arc<Verified>,
    args: &[i64],
    limit: u64,
    burden: Burden,
    most: u64,
    crew: Vec<B>,
    gate: Arc<G>,
) -> Result<Speedup, Fault>
    requires { length crew.items ≤ MOST_BODIES }
    ensures { SpeedsUpAsCode (code_view code.value.code) args.now limit burden most result }
{
    if !speedups::is_asked(&code, args, limit, burden, most) {
        return Err(Fault::Arguments);
    }
    let share = Arc::try_clone(&code)?;
    let threads = crew.len() + 1;
    let scheduler = InParallel { rt, threads };
    let ran = cw_pool::run::strands(rt, alloc, share, args, limit, crew, gate);
    let told = speedup_of_run(alloc, code, args, limit, burden, most, &scheduler, ran)?;
    Ok(told)
}

// Runs code with a crew and writes its speedups up to `most` processors.
fn run_speedup_with<
    W: Sink,
    G: Gate + Drop + Send + Sync + 'static,
    B: Body<G> + Send + Drop + 'static,
    R: Threads + Wait,
>(
    rt: &R,
    alloc: Global,
    code: Verified,
    args: &[i64],
    most: u64,
    options: Options,
    crew: Vec<B>,
    gate: Arc<G>,
    out: &mut W,
) -> Result<(), Fault>
    requires out { (W.seen out.old).failures < 2 ^ 64 - 1 }
    requires few { length crew.items ≤ MOST_BODIES }
    ensures { (name bytes : List ℕ) → options.mode ≡ mode.Speedup most
        → IsCompiled bytes (code_view code.code)
        → IsRun W.seen out.old out.new name bytes args.now options result }
{
    are_words(args);
    let code = Arc::new(alloc, code)?;
    let (limit, burden) = (options.limit, options.burden);
    let told = speedup_with(rt, alloc, code, args, limit, burden, most, crew, gate);
    speedup(alloc, &told, options.table, out)?;
    told?;
    Ok(())
}
