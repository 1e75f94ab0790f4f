//! Runs by crews, compared with runs by one worker.

use crate::gates::{Hand, Holder, Stumbling, idle, serving};
use crate::programs::{FIB, HALVES, READ, STEPS, TRAPS, code_of};
use cw_machine::alone::{Ended, run_alone};
use cw_model::burden::{Burden, Edges};
use cw_model::total::Total;
use cw_pool::gate::{Gate, Quiet};
use cw_pool::run::run;
use cw_text::Fault;
use std::alloc::Global;
use std::process::Abort;
use std::sync::{Arc, Wait};
use std::test::Fail;
use std::thread::Threads;

const MOST: u64 = 1_000_000;

// Both edges of a spawn cost 3.
const BURDEN: Burden = Burden {
    charge: 3,
    edges: Edges::Both,
};

// A program on its argument, within `n` instructions.
pub struct Run<'a> {
    pub source: &'a [u8],
    pub arg: i64,
    pub n: u64,
}

// Runs that end, that trap and that exceed their limit.
const RUNS: &[Run] = &[
    Run {
        source: STEPS,
        arg: 40,
        n: MOST,
    },
    Run {
        source: FIB,
        arg: 11,
        n: MOST,
    },
    Run {
        source: HALVES,
        arg: 60,
        n: MOST,
    },
    Run {
        source: READ,
        arg: 40,
        n: MOST,
    },
    Run {
        source: TRAPS,
        arg: 9,
        n: MOST,
    },
    Run {
        source: FIB,
        arg: 11,
        n: 3000,
    },
];

// Returns whether two runs ended alike, with the same counts everywhere, or failed alike.
pub fn is_same(one: &Result<Ended, Fault>, other: &Result<Ended, Fault>) -> bool {
    match (one, other) {
        (Ok(a), Ok(b)) => {
            a.value == b.value
                && a.lines == b.lines
                && a.totals == b.totals
                && a.measure == b.measure
                && a.sites == b.sites
                && a.regions == b.regions
        }
        (Err(a), Err(b)) => a == b,
        _ => false,
    }
}

// Returns the value of a run that ended.
fn value_of(run: &Result<Ended, Fault>) -> Option<i64> {
    match run {
        Ok(ended) => Some(ended.value),
        Err(_) => None,
    }
}

// Returns the number of the fault of a run that failed: 7 over the limit, 8 a trap.
pub fn fault_of(run: &Result<Ended, Fault>) -> Option<u8> {
    match run {
        Ok(_) => None,
        Err(fault) => Some(fault.number()),
    }
}

// Returns the outcome of a run by one worker.
pub fn alone(alloc: Global, run: &Run) -> Result<Result<Ended, Fault>, Fault> {
    let code = code_of(alloc, run.source)?;
    Ok(run_alone(alloc, code, &[run.arg], run.n, BURDEN))
}

// Returns the outcome of a run by a crew.
pub fn together<
    G: Gate + Drop + Send + Sync + 'static,
    R: Threads + Wait + Copy + Send + Drop + 'static,
>(
    rt: R,
    alloc: Global,
    asked: &Run,
    crew: Vec<Hand<R>>,
    gate: Arc<G>,
) -> Result<Result<Ended, Fault>, Fault> {
    let code = code_of(alloc, asked.source)?;
    let args = [asked.arg];
    Ok(run(&rt, alloc, code, &args, asked.n, BURDEN, crew, gate))
}

// Returns whether a crew of `bodies` bodies that serve has this outcome.
pub fn answers<R: Threads + Wait + Copy + Send + Drop + 'static>(
    rt: R,
    alloc: Global,
    run: &Run,
    bodies: usize,
    wanted: &Result<Ended, Fault>,
) -> Result<bool, Fault> {
    let crew = serving(alloc, rt, bodies)?;
    let gate = Arc::new(alloc, Quiet)?;
    let got = together(rt, alloc, run, crew, gate)?;
    Ok(is_same(&got, wanted))
}

// Returns whether 1, 2, 4 and 64 workers have this outcome.
fn all_answer<R: Threads + Wait + Copy + Send + Drop + 'static>(
    rt: R,
    alloc: Global,
    run: &Run,
    wanted: &Result<Ended, Fault>,
) -> Result<bool, Fault> {
    for bodies in [0usize, 1, 3, 63] {
        if !answers(rt, alloc, run, bodies, wanted)? {
            return Ok(false);
        }
    }
    Ok(true)
}

// Returns whether one worker returns this value, and all crews have the same outcome.
fn gives<R: Threads + Wait + Copy + Send + Drop + 'static>(
    rt: R,
    alloc: Global,
    run: &Run,
    value: i64,
) -> Result<bool, Fault> {
    let wanted = alone(alloc, run)?;
    let all_answer = all_answer(rt, alloc, run, &wanted)?;
    Ok(all_answer && value_of(&wanted) == Some(value))
}

// Returns whether one worker fails with the fault of this number, and all crews have the same outcome.
fn fails<R: Threads + Wait + Copy + Send + Drop + 'static>(
    rt: R,
    alloc: Global,
    run: &Run,
    number: u8,
) -> Result<bool, Fault> {
    let wanted = alone(alloc, run)?;
    let all_answer = all_answer(rt, alloc, run, &wanted)?;
    Ok(all_answer && fault_of(&wanted) == Some(number))
}

// The tenth Fibonacci number.
const TENTH: Run = Run {
    source: FIB,
    arg: 10,
    n: MOST,
};

#[test]
fn spawns_and_regions(rt: HostRuntime) -> Result<(), Fail> {
    let gives = gives(rt, rt.alloc(), &TENTH, 55)?;
    assert!(rt; gives);
    Ok(())
}

// There are 89 leaves, each of which returns 0 or 1; the maximum of the others is the root's value.
#[test]
fn reducers(rt: HostRuntime) -> Result<(), Fail> {
    let totals = [Total::Sum(89), Total::Max(Some(55))];
    let ended = alone(rt.alloc(), &TENTH)?;
    assert!(rt; ended.is_ok_and(|ended| ended.totals.as_slice() == totals.as_slice()));
    Ok(())
}

const LENT: Run = Run {
    source: HALVES,
    arg: 40,
    n: MOST,
};

#[test]
fn arrays_are_lent(rt: HostRuntime) -> Result<(), Fail> {
    let gives = gives(rt, rt.alloc(), &LENT, 780)?;
    assert!(rt; gives);
    Ok(())
}

const READ_TOGETHER: Run = Run {
    source: READ,
    arg: 40,
    n: MOST,
};

// Twice the sum of 0 to 39, plus the last one.
#[test]
fn arrays_are_read_together(rt: HostRuntime) -> Result<(), Fail> {
    let gives = gives(rt, rt.alloc(), &READ_TOGETHER, 1599)?;
    assert!(rt; gives);
    Ok(())
}

const TRAPPING: Run = Run {
    source: TRAPS,
    arg: 8,
    n: MOST,
};

#[test]
fn traps(rt: HostRuntime) -> Result<(), Fail> {
    let fails = fails(rt, rt.alloc(), &TRAPPING, 8)?;
    assert!(rt; fails);
    Ok(())
}

const OVER: Run = Run {
    source: FIB,
    arg: 10,
    n: 2000,
};

#[test]
fn limits(rt: HostRuntime) -> Result<(), Fail> {
    let fails = fails(rt, rt.alloc(), &OVER, 7)?;
    assert!(rt; fails);
    Ok(())
}

// Returns the outcome of a crew of `bodies` bodies that return at once.
fn idly<R: Threads + Wait + Copy + Send + Drop + 'static>(
    rt: R,
    alloc: Global,
    run: &Run,
    bodies: usize,
) -> Result<Result<Ended, Fault>, Fault> {
    let crew = idle(alloc, bodies)?;
    let gate = Arc::new(alloc, Quiet)?;
    together(rt, alloc, run, crew, gate)
}

// The other workers do the work of bodies that return at once.
#[test]
fn crews_that_do_nothing(rt: HostRuntime) -> Result<(), Fail> {
    let wanted = alone(rt.alloc(), &TENTH)?;
    let got = idly(rt, rt.alloc(), &TENTH, 63)?;
    assert!(rt; is_same(&got, &wanted));
    Ok(())
}

// A crew of more than 63 bodies is rejected.
#[test]
fn crews_of_too_many(rt: HostRuntime) -> Result<(), Fail> {
    let got = idly(rt, rt.alloc(), &TENTH, 64)?;
    assert!(rt; is_same(&got, &Err(Fault::Arguments)));
    Ok(())
}

// The outcome of a run by two workers, of which worker 0 is held.
#[derive(Drop)]
pub struct GateOutcome {
    // Whether it has the outcome of one worker.
    pub is_same: bool,
    pub value: Option<i64>,
    // The number of holds that reached their maximum length.
    pub used_up: u64,
    // The number of jobs that worker 1 settled, and the number that both workers offered.
    pub settled: u64,
    pub offered: u64,
}

// Returns the outcome of a run in which worker 0 is held at its first offer, or at each offer.
pub fn run_held<R: Threads + Wait + Copy + Send + Drop + 'static>(
    rt: R,
    alloc: Global,
    run: &Run,
    only_first: bool,
) -> Result<GateOutcome, Fault> {
    let gate = Arc::new(alloc, Holder::new(only_first))?;
    let told = Arc::try_clone(&gate)?;
    let crew = serving(alloc, rt, 1)?;
    let got = together(rt, alloc, run, crew, gate)?;
    let wanted = alone(alloc, run)?;
    Ok(GateOutcome {
        is_same: is_same(&got, &wanted),
        value: value_of(&got),
        used_up: told.used_up(),
        settled: told.settled(),
        offered: told.all_offered(),
    })
}

const THREE_STEPS: Run = Run {
    source: STEPS,
    arg: 3,
    n: MOST,
};

// While worker 0 is held at its first offer, worker 1 steals that job and settles it.
#[test]
fn a_job_is_settled_while_its_owner_is_held(rt: HostRuntime) -> Result<(), Fail> {
    let held = run_held(rt, rt.alloc(), &THREE_STEPS, true)?;
    assert!(rt; held.is_same && held.used_up == 0 && held.settled >= 1);
    Ok(())
}

const TWELFTH: Run = Run {
    source: FIB,
    arg: 12,
    n: MOST,
};

// Worker 0 is held at each offer until worker 1 has settled the same number of jobs, so worker 1 does all work of its
// continuations.
#[test]
fn each_rest_is_run_by_the_other(rt: HostRuntime) -> Result<(), Fail> {
    let held = run_held(rt, rt.alloc(), &TWELFTH, false)?;
    assert!(rt; held.is_same && held.value == Some(144));
    assert!(rt; held.used_up == 0 && held.offered == 232);
    Ok(())
}

const TWELVE_READ: Run = Run {
    source: READ,
    arg: 12,
    n: MOST,
};

// Each continuation has a share of what the spawned call reads: 11 spawns in each of two sums, and one spawn in main.
#[test]
fn each_rest_that_reads_is_run_by_the_other(rt: HostRuntime) -> Result<(), Fail> {
    let held = run_held(rt, rt.alloc(), &TWELVE_READ, false)?;
    assert!(rt; held.is_same && held.value == Some(143));
    assert!(rt; held.used_up == 0 && held.offered == 23);
    Ok(())
}

// Returns how often a crew of `bodies` bodies, held at random, was held, if it has this outcome.
pub fn held_of_same<R: Threads + Wait + Copy + Send + Drop + 'static>(
    rt: R,
    alloc: Global,
    run: &Run,
    bodies: usize,
    seed: u64,
    wanted: &Result<Ended, Fault>,
) -> Result<Option<u64>, Fault> {
    let crew = serving(alloc, rt, bodies)?;
    let gate = Arc::new(alloc, Stumbling::new(seed))?;
    let told = Arc::try_clone(&gate)?;
    let got = together(rt, alloc, run, crew, gate)?;
    if is_same(&got, wanted) {
        return Ok(Some(told.held()));
    }
    Ok(None)
}

// Returns whether 2, 4 and 8 workers, held at random, have the outcome of one worker, and each crew was held at least
// once.
fn all_answer_held<R: Threads + Wait + Copy + Send + Drop + 'static>(
    rt: R,
    alloc: Global,
    run: &Run,
    seed: u64,
) -> Result<bool, Fault> {
    let wanted = alone(alloc, run)?;
    for bodies in [1usize, 3, 7] {
        let held = held_of_same(rt, alloc, run, bodies, seed, &wanted)?;
        if held.unwrap_or(0) == 0 {
            return Ok(false);
        }
    }
    Ok(true)
}

// Checks `all_answer_held` for all these runs, with these seeds.
fn all_runs_answer_held<R: Abort + Threads + Wait + Copy + Send + Drop + 'static>(
    rt: R,
    alloc: Global,
    runs: &[Run],
    seeds: &[u64],
) -> Result<(), Fault> {
    for run in runs {
        for seed in seeds {
            let all_answer = all_answer_held(rt, alloc, run, *seed)?;
            assert!(rt; all_answer, "{} within {} by {seed}", run.arg, run.n);
        }
    }
    Ok(())
}

pub const SEEDS: [u64; 3] = [1, 36, 2026];

// Whichever workers are held, and wherever, the outcome is the one of one worker.
#[test]
fn workers_that_are_held_at_random(rt: HostRuntime) -> Result<(), Fail> {
    all_runs_answer_held(rt, rt.alloc(), RUNS, &SEEDS)?;
    Ok(())
}
