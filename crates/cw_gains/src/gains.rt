//! The spans of a run if the instructions of a function took no time.

ghost use Rattle.std.specs.Prelude.{IfErr, IfOk};
ghost use Rattle.cw_code.specs.Code.{code_view};
ghost use Rattle.cw_gains.specs.Free.{AreFreeOf, AreFrees, IsFreeOf, OnlyMemory};
ghost use Rattle.cw_gains.specs.Gains.{GainsAsCode, HasNumberedSites};
ghost use Rattle.cw_machine.specs.Runs.{Runs, RunsAsCode};

use crate::counts::{Counted, greatest};
use cw_code::code::Code;
use cw_code::head::Head;
use cw_machine::alone::Ended;
use cw_machine::freed::freed_alone;
use cw_meter::Readings;
use cw_model::burden::Burden;
use cw_runnable::verified::Verified;
use cw_text::Fault;
use std::alloc::{AllocError, Global};
use std::sync::Arc;
use std::thread;
use std::thread::Threads;

/// A function, and the spans of the run if its instructions took no time.
#[derive(Debug, Drop)]
pub struct FunctionGain {
    /// The function, with its invocations and their instructions.
    pub counted: Counted,
    /// The span of the run, in instructions.
    pub span_if_free: u64,
    /// The burdened span of the run, in instructions.
    pub burdened_if_free: u128,
}

/// The gain table of a run.
#[derive(Debug, Drop)]
pub struct Gains {
    /// Work, span and burdened span of the run as it was, in instructions.
    pub measure: Readings,
    /// The functions with the largest own spans, in descending order; functions with equal own spans keep the order of
    /// the source.
    pub functions: Vec<FunctionGain>,
}

/// Computes the gain table of a run of this code on these arguments within `n` instructions that was executed and
/// answered `ended`: at most `top` functions. It executes the program once more for each listed function, one run at a
/// time. The call sites of the code must be numbered in order from 1, as `compile` numbers them.
///
/// # Errors
///
/// The error of the run, or `Memory` if memory runs out.
pub fn gains_of_run(
    alloc: Global,
    code: Arc<Verified>,
    heads: &[Head],
    args: &[i64],
    n: u64,
    burden: Burden,
    top: usize,
    ended: Result<Ended, Fault>,
) -> Result<Gains, Fault>
    requires { HasNumberedSites (code_view code.value.code) }
    ensures { RunsAsCode (code_view code.value.code) args.now n burden ended
        → GainsAsCode (code_view code.value.code) heads.now args.now n burden top result }
{
    match ended {
        Ok(ended) => {
            let gains = gains_of_ended(alloc, &code, heads, args, n, burden, top, &ended)?;
            Ok(gains)
        }
        Err(fault) => Err(fault),
    }
}

/// Computes the gain table as `gains_of_run` does, with `threads` threads, one of which is the caller's: the further
/// runs go in parallel. With one thread no other thread is started. If a thread cannot be started, the caller's thread
/// does its runs. The result does not depend on `threads`.
///
/// # Errors
///
/// Those of `gains_of_run`.
pub fn gains_of_run_with<R: Threads>(
    rt: &R,
    alloc: Global,
    code: Arc<Verified>,
    heads: &[Head],
    args: &[i64],
    n: u64,
    burden: Burden,
    top: usize,
    threads: usize,
    ended: Result<Ended, Fault>,
) -> Result<Gains, Fault>
    requires { HasNumberedSites (code_view code.value.code) }
    ensures { RunsAsCode (code_view code.value.code) args.now n burden ended
        → GainsAsCode (code_view code.value.code) heads.now args.now n burden top result }
{
    match ended {
        Ok(ended) => {
            let gains = gains_of_ended_with(
                rt, alloc, &code, heads, args, n, burden, top, threads, &ended,
            )?;
            Ok(gains)
        }
        Err(fault) => Err(fault),
    }
}

/// Computes the gain table as `gains_of_run` does, of a run that ended, and leaves the run.
///
/// # Errors
///
/// `Memory` if memory runs out.
pub fn gains_of_ended(
    alloc: Global,
    code: &Arc<Verified>,
    heads: &[Head],
    args: &[i64],
    n: u64,
    burden: Burden,
    top: usize,
    ended: &Ended,
) -> Result<Gains, Fault>
    requires { HasNumberedSites (code_view code.now.value.code) }
    ensures { Runs (code_view code.now.value.code) args.now n burden ended.now
        → GainsAsCode (code_view code.now.value.code) heads.now args.now n burden top result }
{
    let counted = greatest(
        alloc,
        heads,
        &code.code,
        ended.sites.values().as_slice(),
        top,
    )?;
    let functions = freed(alloc, code, args, n, burden, counted.as_slice())?;
    Ok(Gains {
        measure: ended.measure,
        functions,
    })
}

/// Computes the gain table as `gains_of_run_with` does, of a run that ended, and leaves the run.
///
/// # Errors
///
/// `Memory` if memory runs out.
pub fn gains_of_ended_with<R: Threads>(
    rt: &R,
    alloc: Global,
    code: &Arc<Verified>,
    heads: &[Head],
    args: &[i64],
    n: u64,
    burden: Burden,
    top: usize,
    threads: usize,
    ended: &Ended,
) -> Result<Gains, Fault>
    requires { HasNumberedSites (code_view code.now.value.code) }
    ensures { Runs (code_view code.now.value.code) args.now n burden ended.now
        → GainsAsCode (code_view code.now.value.code) heads.now args.now n burden top result }
{
    let counted = greatest(
        alloc,
        heads,
        &code.code,
        ended.sites.values().as_slice(),
        top,
    )?;
    let functions = freed_with(
        rt,
        alloc,
        code,
        args,
        n,
        burden,
        threads,
        counted.as_slice(),
    )?;
    let measure = ended.measure;
    Ok(Gains { measure, functions })
}

// Each function, with the spans of the run if the function took no time.
fn freed(
    alloc: Global,
    code: &Arc<Verified>,
    args: &[i64],
    n: u64,
    burden: Burden,
    all: &[Counted],
) -> Result<Vec<FunctionGain>, Fault>
    ensures ok { IfOk result (AreFreeOf code.now.value args.now n burden all.now) }
    ensures why { IfErr result (OnlyMemory code.now.value args.now n burden) }
{
    let mut gains = Vec::new(alloc);
    for counted in all {
        let gain = gain_of(alloc, code, args, n, burden, counted)?;
        gains.push(gain)?;
    }
    Ok(gains)
}

// The result of `freed`, computed by at most `threads` threads: a new thread does the first functions, and the
// caller's thread and the remaining ones do the rest in parallel.
#[cycle(threads)]
fn freed_with<R: Threads>(
    rt: &R,
    alloc: Global,
    code: &Arc<Verified>,
    args: &[i64],
    n: u64,
    burden: Burden,
    threads: usize,
    all: &[Counted],
) -> Result<Vec<FunctionGain>, Fault>
    ensures ok { IfOk result (AreFreeOf code.now.value args.now n burden all.now) }
    ensures why { IfErr result (OnlyMemory code.now.value args.now n burden) }
{
    let threads = threads.min(all.len());
    if threads < 2 {
        return freed(alloc, code, args, n, burden, all);
    }
    let left = threads - 1;
    let (share, rest) = all.split_at(all.len() / threads);
    let one = move || -> Result<Vec<FunctionGain>, Fault>
        ensures ok { IfOk result
            (AreFreeOf code.entry.now.value args.entry.now n burden share.entry.now) }
        ensures why { IfErr result (OnlyMemory code.entry.now.value args.entry.now n burden) }
    { freed(alloc, code, args, n, burden, share) };
    let others = move || -> Result<Vec<FunctionGain>, Fault>
        ensures ok { IfOk result
            (AreFreeOf code.entry.now.value args.entry.now n burden rest.entry.now) }
        ensures why { IfErr result (OnlyMemory code.entry.now.value args.entry.now n burden) }
    { freed_with(rt, alloc, code, args, n, burden, left, rest) };
    let (first, later) = thread::join(rt, one, others);
    let mut gains = first?;
    let mut later = later?;
    gains.append(&mut later)?;
    Ok(gains)
}

// A function, with the spans of the run if it took no time.
fn gain_of(
    alloc: Global,
    code: &Arc<Verified>,
    args: &[i64],
    n: u64,
    burden: Burden,
    counted: &Counted,
) -> Result<FunctionGain, Fault>
    ensures ok { IfOk result (IsFreeOf code.now.value args.now n burden counted.now) }
    ensures why { IfErr result (OnlyMemory code.now.value args.now n burden) }
{
    let name = counted.name.share(alloc)?;
    let frees = frees_of(alloc, &code.code, name.as_bytes())?;
    let share = Arc::try_clone(code)?;
    let free = freed_alone(alloc, share, args, n, burden, frees)?;
    Ok(FunctionGain {
        counted: Counted {
            name,
            line: counted.line,
            sums: counted.sums,
        },
        span_if_free: free.span,
        burdened_if_free: free.burdened,
    })
}

// For each site, in the order of the numbers, whether it calls a function of this name.
fn frees_of(alloc: Global, code: &Code, name: &[u8]) -> Result<Vec<bool>, AllocError>
    ensures { IfOk result (AreFrees name.now code.now) }
{
    let mut frees = Vec::with_capacity(alloc, code.sites.len() + 1)?;
    frees.push(name == b"main".as_slice())?;
    for site in &code.sites {
        frees.push(name == site.callee.as_bytes())?;
    }
    Ok(frees)
}
