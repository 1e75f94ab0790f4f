//! A run with many workers.

ghost use Rattle.std.specs.Prelude.{◌≡◌, ◌≤◌, ◌+◌, false, length, vec_capacity, MatchResult};
ghost use Rattle.std.specs.Arc.{arc_value};
ghost use Rattle.cw_code.specs.Code.{code_view};
ghost use Rattle.cw_meter.specs.Details.{IsLight};
ghost use Rattle.cw_model.specs.declared.limits.TheConstants.{MOST_BURDEN};
ghost use Rattle.cw_yard.specs.Seats.{IsSeatOf};
ghost use Rattle.cw_pool.specs.Driven.{AreSeatsFor, IsDriven, IsNotDriven};
ghost use Rattle.cw_pool.specs.Crews.{GivesByCrew, HasNoOutcome, IsOutcome, RecordsByCrew, RunsByCrew};

use crate::crew::{Body, Helper};
use crate::gate::Gate;
use crate::outcome::{Outcome, ended_by, strands_by, values_by};
use crate::sign::{Sign, Tally};
use crate::work::work;
use cw_greedy::strands::Strands;
use cw_jobs::effect::Effect;
use cw_jobs::job::Job;
use cw_machine::alone::{Ended, run_alone};
use cw_machine::recorded::strands_alone;
use cw_machine::values::{Values, values_alone};
use cw_meter::Detail;
use cw_model::burden::{Burden, Edges};
use cw_model::syntax::CallKind;
use cw_runnable::op::Op;
use cw_runnable::verified::Verified;
use cw_text::Fault;
use cw_yard::seat::{Seat, Yard};
use std::alloc::Global;
use std::sync::{Arc, Wait};
use std::thread;
use std::thread::{JoinHandle, Threads};

/// Bodies of a crew: with the caller's thread they are the workers of a run.
pub const MOST_BODIES: usize = 63;

/// Jobs that a worker may have offered at a time.
const CELLS: usize = 256;

// A thread for a body, if one can be started.
fn start<G: Gate + Drop + Send + Sync + 'static, B: Body<G> + Send + Drop + 'static, R: Threads>(
    rt: &R,
    alloc: Global,
    yard: &Arc<Yard>,
    seat: Seat,
    gate: &Arc<G>,
    sign: &Arc<Sign>,
    me: usize,
    body: B,
) -> Option<JoinHandle<()>>
    requires { IsSeatOf (arc_value yard.now) seat }
{
    let Ok(yard) = Arc::try_clone(yard) else {
        return None;
    };
    let Ok(gate) = Arc::try_clone(gate) else {
        return None;
    };
    let Ok(sign) = Arc::try_clone(sign) else {
        return None;
    };
    let helper = Helper {
        yard,
        seat,
        gate,
        tally: Tally::new(sign, me),
        alloc,
    };
    match thread::spawn(rt, move || body.begin(helper)) {
        Ok(handle) => Some(handle),
        Err(_) => None,
    }
}

// Starts a thread for each body. A body whose thread cannot be started is left out, and the others do its work.
fn start_all<
    G: Gate + Drop + Send + Sync + 'static,
    B: Body<G> + Send + Drop + 'static,
    R: Threads,
>(
    rt: &R,
    alloc: Global,
    yard: &Arc<Yard>,
    mut seats: Vec<Seat>,
    gate: &Arc<G>,
    sign: &Arc<Sign>,
    mut crew: Vec<B>,
    handles: &mut Vec<JoinHandle<()>>,
)
    requires seats { AreSeatsFor (arc_value yard.now) (length crew.items) seats.items }
    requires few { length crew.items ≤ MOST_BODIES }
    requires room { length handles.old.items + length crew.items ≤ vec_capacity handles.old }
{
    let mut me = 1;
    while let Some(body) = crew.pop() {
        let Some(seat) = seats.pop() else {
            unreachable!()
        };
        if let Some(handle) = start(rt, alloc, yard, seat, gate, sign, me, body) {
            handles.push_reserved(handle);
        }
        me += 1;
    }
}

// Waits until each thread has ended.
fn join_all<R: Threads + Wait>(rt: &R, mut handles: Vec<JoinHandle<()>>) {
    while let Some(handle) = handles.pop() {
        handle.join(rt);
    }
}

/// Runs a job, with a thread for each body: its effect, whatever the bodies and the gate do.
///
/// The error is `Arguments` exactly where the crew has more than 63 bodies, before anything is made; otherwise
/// `Memory`, where memory runs out before the first thread is started. From then on there is no way out but the job's
/// effect.
pub(crate) fn drive<
    G: Gate + Drop + Send + Sync + 'static,
    B: Body<G> + Send + Drop + 'static,
    R: Threads + Wait,
>(
    rt: &R,
    alloc: Global,
    root: Job,
    crew: Vec<B>,
    gate: Arc<G>,
    sign: &Arc<Sign>,
) -> Result<Effect, Fault>
    ensures { MatchResult result (IsDriven (length crew.items) root)
        (IsNotDriven (length crew.items)) }
{
    let bodies = crew.len();
    if bodies > MOST_BODIES {
        return Err(Fault::Arguments);
    }
    let (yard, mut seats) = Yard::open(alloc, bodies + 1, CELLS)?;
    let Some(mut seat) = seats.pop() else {
        unreachable!()
    };
    let yard = Arc::new(alloc, yard)?;
    let mut handles = Vec::with_capacity(alloc, bodies)?;
    let mut tally = Tally::new(Arc::try_clone(sign)?, 0);
    start_all(rt, alloc, &yard, seats, &gate, sign, crew, &mut handles);
    let effect = work(rt, alloc, &*yard, &mut seat, &*gate, &mut tally, root);
    yard.end(&mut seat);
    join_all(rt, handles);
    Ok(effect)
}

// Returns whether the code may spawn a call; otherwise another worker could take nothing.
fn spawns(ops: &[Op]) -> bool {
    for o in ops {
        match o {
            Op::Call(_, CallKind::Spawned, _) => return true,
            Op::Recur(_, CallKind::Spawned, _) => return true,
            _ => {}
        }
    }
    false
}

// Returns whether a crew of this number of bodies executes the code or is refused; otherwise one worker does it as well.
fn is_for_crew(code: &Verified, bodies: usize) -> bool
    ensures { result ≡ false → bodies ≤ MOST_BODIES }
{
    bodies > MOST_BODIES || spawns(code.ops.as_slice())
}

// Returns the outcome of a run of code by a crew, with this detail: the effect of its root, and whether it was given up.
fn outcome_of<
    G: Gate + Drop + Send + Sync + 'static,
    B: Body<G> + Send + Drop + 'static,
    R: Threads + Wait,
>(
    rt: &R,
    alloc: Global,
    code: Arc<Verified>,
    args: &[i64],
    n: u64,
    burden: Burden,
    detail: Detail,
    crew: Vec<B>,
    gate: Arc<G>,
) -> Result<Outcome, Fault>
    requires { burden.charge ≤ MOST_BURDEN → IsLight detail }
    ensures { MatchResult result (IsOutcome (length crew.items) code.value args.now n burden detail)
        (HasNoOutcome (length crew.items) (code_view code.value.code) args.now n burden) }
{
    if crew.len() > MOST_BODIES {
        return Err(Fault::Arguments);
    }
    let root = Job::root_of(alloc, code, args, n, burden, detail)?;
    let share = Arc::try_clone(&root.parts.code)?;
    let sign = Sign::new(alloc, crew.len() + 1, CELLS, n)?;
    let sign = Arc::new(alloc, sign)?;
    let effect = drive(rt, alloc, root, crew, gate, &sign)?;
    let is_given_up = sign.is_up();
    Ok(Outcome {
        code: share,
        effect,
        is_given_up,
    })
}

/// Runs code on these arguments within `n` instructions, with the caller's thread as worker 0 and a thread for each body.
/// Returns what `run_alone` returns, whatever the bodies and the gate do and in whatever order workers steal. `burden` is
/// the charge for a spawn; it changes only the burdened spans. Returns once each thread has ended. If the code spawns no
/// call, only the caller's thread runs it, and no body begins.
///
/// As soon as a strand has trapped or exceeded the limit, or all workers together have executed more than `n` instructions,
/// the run is given up: no worker begins another job, and each stops at its next spawn or end, at the job that it waits for
/// at a join, or after 262,144 instructions. If the answer is not known then, the caller's thread runs the code again; the
/// gate does not observe that run.
///
/// # Errors
///
/// `Fault::Arguments` exactly if the crew has more than 63 bodies, before anything else is done, or if `run_alone` returns it;
/// otherwise the errors of `run_alone`, with `Fault::Memory` if memory runs out in any worker.
pub fn run<
    G: Gate + Drop + Send + Sync + 'static,
    B: Body<G> + Send + Drop + 'static,
    R: Threads + Wait,
>(
    rt: &R,
    alloc: Global,
    code: Arc<Verified>,
    args: &[i64],
    n: u64,
    burden: Burden,
    crew: Vec<B>,
    gate: Arc<G>,
) -> Result<Ended, Fault>
    ensures { RunsByCrew (length crew.items) (code_view code.value.code) args.now n burden result }
{
    if !is_for_crew(&code, crew.len()) {
        let ended = run_alone(alloc, code, args, n, burden)?;
        return Ok(ended);
    }
    let detail = Detail::Measures(burden);
    let outcome = outcome_of(rt, alloc, code, args, n, burden, detail, crew, gate)?;
    let ended = ended_by(alloc, outcome, args, n, burden)?;
    Ok(ended)
}

/// Runs code like `run`, without measures: returns what `values_alone` returns, with the errors of `run`.
pub fn values<
    G: Gate + Drop + Send + Sync + 'static,
    B: Body<G> + Send + Drop + 'static,
    R: Threads + Wait,
>(
    rt: &R,
    alloc: Global,
    code: Arc<Verified>,
    args: &[i64],
    n: u64,
    burden: Burden,
    crew: Vec<B>,
    gate: Arc<G>,
) -> Result<Values, Fault>
    ensures { GivesByCrew (length crew.items) (code_view code.value.code) args.now n burden result }
{
    if !is_for_crew(&code, crew.len()) {
        let values = values_alone(alloc, code, args, n, burden)?;
        return Ok(values);
    }
    let detail = Detail::Values;
    let outcome = outcome_of(rt, alloc, code, args, n, burden, detail, crew, gate)?;
    let values = values_by(alloc, outcome, args, n, burden)?;
    Ok(values)
}

/// Runs code like `run` and records only its strands: returns what `strands_alone` returns.
///
/// # Errors
///
/// The errors of `strands_alone`, and `Fault::Arguments` exactly if the crew has more than 63 bodies, before anything else is
/// done.
pub fn strands<
    G: Gate + Drop + Send + Sync + 'static,
    B: Body<G> + Send + Drop + 'static,
    R: Threads + Wait,
>(
    rt: &R,
    alloc: Global,
    code: Arc<Verified>,
    args: &[i64],
    n: u64,
    crew: Vec<B>,
    gate: Arc<G>,
) -> Result<Strands, Fault>
    ensures { RecordsByCrew (length crew.items) (code_view code.value.code) args.now n result }
{
    if !is_for_crew(&code, crew.len()) {
        let strands = strands_alone(alloc, code, args, n)?;
        return Ok(strands);
    }
    let burden = Burden {
        charge: 0,
        edges: Edges::Spawn,
    };
    let detail = Detail::Strands;
    let outcome = outcome_of(rt, alloc, code, args, n, burden, detail, crew, gate)?;
    let strands = strands_by(alloc, outcome, args, n)?;
    Ok(strands)
}
