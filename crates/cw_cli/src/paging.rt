//! The page of a run.

ghost use Rattle.std.specs.Prelude.{◌≡◌, ◌<◌, ◌≤◌, ◌-◌, ◌^◌, length};
ghost use Rattle.cw_code.specs.Code.{code_view};
ghost use Rattle.cw_pool.specs.declared.run.TheConstants.{MOST_BODIES};
ghost use Rattle.cw_words.specs.declared.asked.Mode.TheVariants as mode;
ghost use Rattle.cw_compile.specs.Compiled.{IsMade};
ghost use Rattle.cw_gains.specs.Gains.{HasNumberedSites};
ghost use Rattle.cw_cli.specs.Analyses.{IsRun};
ghost use Rattle.cw_cli.specs.Pages.{DrawsAsCode, asked_for, base_name, is_asked, name_start, source_name};
ghost use Rattle.cw_greedy_schedule.specs.Speedups.{SpeedsUpAsCode};

use crate::reporting::are_words;
use cw_code::head::Head;
use cw_compile::Compiled;
use cw_gains::gains::{gains_of_ended, gains_of_ended_with};
use cw_greedy_schedule::speedups;
use cw_greedy_schedule::speedups::{InParallel, Speedup, speedup_alone, speedup_of_run};
use cw_machine::alone::run_alone;
use cw_machine::recorded::strands_alone;
use cw_model::burden::Burden;
use cw_model::laws::derived_sites_are_numbered;
use cw_model::limits::MOST_TOP;
use cw_pool::crew::Body;
use cw_pool::gate::Gate;
use cw_report::{Drawn, Sink, page};
use cw_runnable::verified::Verified;
use cw_text::Fault;
use cw_words::{Options, RELEASE};
use std::alloc::Global;
use std::sync::{Arc, Wait};
use std::thread::Threads;

// Runs code for a page, and writes the page.
pub(crate) fn run_page<W: Sink>(
    alloc: Global,
    name: &[u8],
    bytes: &[u8],
    made: Compiled,
    args: &[i64],
    top: u64,
    most: u64,
    options: Options,
    out: &mut W,
) -> Result<(), Fault>
    requires out { (W.seen out.old).failures < 2 ^ 64 - 1 }
    requires numbered { HasNumberedSites (code_view made.code.code) }
    ensures { options.mode ≡ mode.Page top most → IsMade bytes.now made
        → IsRun W.seen out.old out.new name.now bytes.now args.now options result }
{
    derived_sites_are_numbered();
    are_words(args);
    let code = Arc::new(alloc, made.code)?;
    let (limit, burden) = (options.limit, options.burden);
    let heads = made.heads.as_slice();
    let drawn = drawn_alone(alloc, &code, heads, args, limit, burden, top, most);
    let version = RELEASE.as_bytes();
    page(
        alloc, name, version, args, burden, bytes, &code, &drawn, out,
    )?;
    drawn?;
    Ok(())
}

// Runs code with a crew for a page, and writes the page.
pub(crate) fn run_page_with<
    W: Sink,
    G: Gate + Drop + Send + Sync + 'static,
    B: Body<G> + Send + Drop + 'static,
    R: Threads + Wait,
>(
    rt: &R,
    alloc: Global,
    name: &[u8],
    bytes: &[u8],
    made: Compiled,
    args: &[i64],
    top: u64,
    most: u64,
    options: Options,
    crew: Vec<B>,
    gate: Arc<G>,
    out: &mut W,
) -> Result<(), Fault>
    requires out { (W.seen out.old).failures < 2 ^ 64 - 1 }
    requires few { length crew.items ≤ MOST_BODIES }
    requires numbered { HasNumberedSites (code_view made.code.code) }
    ensures { options.mode ≡ mode.Page top most → IsMade bytes.now made
        → IsRun W.seen out.old out.new name.now bytes.now args.now options result }
{
    derived_sites_are_numbered();
    are_words(args);
    let code = Arc::new(alloc, made.code)?;
    let (limit, burden) = (options.limit, options.burden);
    let heads = made.heads.as_slice();
    let drawn = drawn_with(
        rt, alloc, &code, heads, args, limit, burden, top, most, crew, gate,
    );
    let version = RELEASE.as_bytes();
    page(
        alloc, name, version, args, burden, bytes, &code, &drawn, out,
    )?;
    drawn?;
    Ok(())
}

// Returns everything that a page shows of a run of code.
fn drawn_alone(
    alloc: Global,
    code: &Arc<Verified>,
    heads: &[Head],
    args: &[i64],
    limit: u64,
    burden: Burden,
    top: u64,
    most: u64,
) -> Result<Drawn, Fault>
    requires { HasNumberedSites (code_view code.now.value.code) }
    ensures { DrawsAsCode (code_view code.now.value.code) heads.now
        (asked_for args.now limit burden top most) result }
{
    if !is_asked(code, args, limit, burden, top, most) {
        return Err(Fault::Arguments);
    }
    let share = Arc::try_clone(code)?;
    let ended = run_alone(alloc, share, args, limit, burden)?;
    let functions = top as usize;
    let gains = gains_of_ended(alloc, code, heads, args, limit, burden, functions, &ended)?;
    let share = Arc::try_clone(code)?;
    let speedup = speedup_alone(alloc, share, args, limit, burden, most)?;
    Ok(Drawn {
        ended,
        gains,
        speedup,
    })
}

// Returns everything that a page shows of a run by a crew. One thread for each worker executes the further runs of the gain
// table and computes schedules, and the caller's thread executes the run that records strands.
fn drawn_with<
    G: Gate + Drop + Send + Sync + 'static,
    B: Body<G> + Send + Drop + 'static,
    R: Threads + Wait,
>(
    rt: &R,
    alloc: Global,
    code: &Arc<Verified>,
    heads: &[Head],
    args: &[i64],
    limit: u64,
    burden: Burden,
    top: u64,
    most: u64,
    crew: Vec<B>,
    gate: Arc<G>,
) -> Result<Drawn, Fault>
    requires few { length crew.items ≤ MOST_BODIES }
    requires numbered { HasNumberedSites (code_view code.now.value.code) }
    ensures { DrawsAsCode (code_view code.now.value.code) heads.now
        (asked_for args.now limit burden top most) result }
{
    if !is_asked(code, args, limit, burden, top, most) {
        return Err(Fault::Arguments);
    }
    let workers = crew.len() + 1;
    let share = Arc::try_clone(code)?;
    let ended = cw_pool::run::run(rt, alloc, share, args, limit, burden, crew, gate)?;
    let functions = top as usize;
    let gains = gains_of_ended_with(
        rt, alloc, code, heads, args, limit, burden, functions, workers, &ended,
    )?;
    let share = Arc::try_clone(code)?;
    let speedup = speedup_with(rt, alloc, share, args, limit, burden, most, workers)?;
    Ok(Drawn {
        ended,
        gains,
        speedup,
    })
}

// Runs code by the caller's thread and returns its speedups, whose schedules this number of threads computes.
fn speedup_with<R: Threads>(
    rt: &R,
    alloc: Global,
    code: Arc<Verified>,
    args: &[i64],
    limit: u64,
    burden: Burden,
    most: u64,
    threads: usize,
) -> Result<Speedup, Fault>
    ensures { SpeedsUpAsCode (code_view code.value.code) args.now limit burden most result }
{
    if !speedups::is_asked(&code, args, limit, burden, most) {
        return Err(Fault::Arguments);
    }
    let share = Arc::try_clone(&code)?;
    let ran = strands_alone(alloc, share, args, limit);
    let scheduler = InParallel { rt, threads };
    let told = speedup_of_run(alloc, code, args, limit, burden, most, &scheduler, ran)?;
    Ok(told)
}

// Returns whether the numbers of a page are in range and the code may be run so.
fn is_asked(code: &Verified, args: &[i64], limit: u64, burden: Burden, top: u64, most: u64) -> bool
    ensures { result ≡ is_asked (code_view code.now.code)
        (asked_for args.now limit burden top most) }
{
    if top < 1 || MOST_TOP < top {
        return false;
    }
    speedups::is_asked(code, args, limit, burden, most)
}

// Returns the name of a source: the name of its file without folders, or `<stdin>` if its path is empty or `-`.
pub(crate) fn source_name(path: &[u8]) -> &[u8]
    ensures { result.now ≡ source_name path.now }
{
    if path.is_empty() || path == b"-".as_slice() {
        return b"<stdin>";
    }
    base_name(path)
}

// Returns the name of a file without its folders.
fn base_name(path: &[u8]) -> &[u8]
    ensures { result.now ≡ base_name path.now }
{
    let start = name_start(path);
    &path[start..]
}

// Returns where the name after the last slash of a path begins.
fn name_start(path: &[u8]) -> usize
    ensures bound { result ≤ length path.now }
    ensures start { result ≡ name_start (length path.now) path.now }
{
    let mut start = path.len();
    while start > 0 && path[start - 1] != b'/' {
        start -= 1;
    }
    start
}
