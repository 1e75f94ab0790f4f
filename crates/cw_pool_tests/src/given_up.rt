//! Runs by crews that are given up: they have the outcome of one worker, in the time of one worker.

use crate::crews::{
    Run, SEEDS, alone, answers, fault_of, held_of_same, is_same, run_held, together,
};
use crate::gates::{Robbed, serving};
use crate::programs::{
    DEEP_TRAP, FORK, LONG_BESIDE_TRAP, NO_BASE, TRAP_BESIDE_ENDLESS, TURNS, code_of,
};
use cw_model::burden::{Burden, Edges};
use cw_pool::run::values;
use cw_text::Fault;
use std::alloc::Global;
use std::process::Abort;
use std::sync::{Arc, Wait};
use std::test::Fail;
use std::thread::Threads;

// The numbers of the faults: over the limit, and a trap.
const OVER: u8 = 7;

const TRAP: u8 = 8;

// A limit that no worker reaches within a test, one that a loop without events exceeds, and one that a loop of
// 100,000 iterations exceeds.
const FAR: u64 = 1_000_000_000_000_000;

const NEAR: u64 = 100_000;

const NEARER: u64 = 100_000;

// A run that is given up, with the number of its fault.
struct Row {
    run: Run<'static>,
    fault: u8,
}

static ROWS: &[Row] = &[
    Row {
        run: Run {
            source: NO_BASE,
            arg: 30,
            n: FAR,
        },
        fault: TRAP,
    },
    Row {
        run: Run {
            source: FORK,
            arg: 0,
            n: FAR,
        },
        fault: TRAP,
    },
    Row {
        run: Run {
            source: TRAP_BESIDE_ENDLESS,
            arg: 0,
            n: FAR,
        },
        fault: TRAP,
    },
    Row {
        run: Run {
            source: TRAP_BESIDE_ENDLESS,
            arg: 1,
            n: NEAR,
        },
        fault: OVER,
    },
    Row {
        run: Run {
            source: LONG_BESIDE_TRAP,
            arg: 0,
            n: FAR,
        },
        fault: TRAP,
    },
    Row {
        run: Run {
            source: LONG_BESIDE_TRAP,
            arg: 1,
            n: NEAR,
        },
        fault: OVER,
    },
    Row {
        run: Run {
            source: TURNS,
            arg: 0,
            n: NEARER,
        },
        fault: OVER,
    },
    Row {
        run: Run {
            source: DEEP_TRAP,
            arg: 300,
            n: FAR,
        },
        fault: TRAP,
    },
];

// Returns whether crews of 2, 4, 16 and 64 workers fail like one worker, with this fault: serving freely, and held at
// random unless their run ends before.
fn fails_with_all<R: Threads + Wait + Copy + Send + Drop + 'static>(
    rt: R,
    alloc: Global,
    row: &Row,
) -> Result<bool, Fault> {
    let wanted = alone(alloc, &row.run)?;
    if fault_of(&wanted) != Some(row.fault) {
        return Ok(false);
    }
    for bodies in [1usize, 3, 15, 63] {
        if !answers(rt, alloc, &row.run, bodies, &wanted)? {
            return Ok(false);
        }
        if held_of_same(rt, alloc, &row.run, bodies, SEEDS[0], &wanted)?.is_none() {
            return Ok(false);
        }
    }
    Ok(true)
}

// Checks this for all these cases.
fn all_fail<R: Abort + Threads + Wait + Copy + Send + Drop + 'static>(
    rt: R,
    alloc: Global,
    rows: &[Row],
) -> Result<(), Fault> {
    for row in rows {
        let fails = fails_with_all(rt, alloc, row)?;
        assert!(rt;
            fails,
            "fault {} on {} within {}",
            row.fault, row.run.arg, row.run.n
        );
    }
    Ok(())
}

#[test]
fn crews_answer_what_one_worker_does(rt: HostRuntime) -> Result<(), Fail> {
    all_fail(rt, rt.alloc(), ROWS)?;
    Ok(())
}

// Returns whether two workers have the outcome of one worker, if the first job is stolen before worker 0 continues.
fn answers_robbed<R: Threads + Wait + Copy + Send + Drop + 'static>(
    rt: R,
    alloc: Global,
    run: &Run,
) -> Result<bool, Fault> {
    let gate = Arc::new(alloc, Robbed::new())?;
    let told = Arc::try_clone(&gate)?;
    let crew = serving(alloc, rt, 1)?;
    let got = together(rt, alloc, run, crew, gate)?;
    let wanted = alone(alloc, run)?;
    Ok(is_same(&got, &wanted) && told.stolen() > 0)
}

// A stolen continuation is endless and has no spawn, and the spawned call traps: the continuation's worker continues
// for a quantum at most.
const STOLEN_ENDLESS: Run = Run {
    source: TRAP_BESIDE_ENDLESS,
    arg: 0,
    n: FAR,
};

#[test]
fn a_stolen_rest_without_an_end_is_given_up(rt: HostRuntime) -> Result<(), Fail> {
    let answers = answers_robbed(rt, rt.alloc(), &STOLEN_ENDLESS)?;
    assert!(rt; answers);
    Ok(())
}

// The continuation traps, or exceeds the limit, while worker 0 is held at its first offer. The call that worker 0
// spawned is given up where it begins, with the fault of the continuation and without one of its own.
const TRAP_IN_THE_REST: Run = Run {
    source: LONG_BESIDE_TRAP,
    arg: 0,
    n: FAR,
};

const OVER_IN_THE_REST: Run = Run {
    source: LONG_BESIDE_TRAP,
    arg: 1,
    n: NEAR,
};

#[test]
fn a_run_whose_root_is_given_up_is_answered_by_one_worker(rt: HostRuntime) -> Result<(), Fail> {
    let trap = run_held(rt, rt.alloc(), &TRAP_IN_THE_REST, true)?;
    assert!(rt; trap.is_same && trap.used_up == 0 && trap.settled >= 1);
    let over = run_held(rt, rt.alloc(), &OVER_IN_THE_REST, true)?;
    assert!(rt; over.is_same && over.used_up == 0 && over.settled >= 1);
    Ok(())
}

const BURDEN: Burden = Burden {
    charge: 0,
    edges: Edges::Spawn,
};

// Returns the number of the fault of a run for values only by two workers, if the first job is stolen before worker 0
// continues.
fn fault_of_values<R: Threads + Wait + Copy + Send + Drop + 'static>(
    rt: R,
    alloc: Global,
    run: &Run,
) -> Result<Option<u8>, Fault> {
    let gate = Arc::new(alloc, Robbed::new())?;
    let crew = serving(alloc, rt, 1)?;
    let code = code_of(alloc, run.source)?;
    let args = [run.arg];
    match values(&rt, alloc, code, &args, run.n, BURDEN, crew, gate) {
        Ok(_) => Ok(None),
        Err(fault) => Ok(Some(fault.number())),
    }
}

#[test]
fn values_of_a_run_that_is_given_up(rt: HostRuntime) -> Result<(), Fail> {
    let trap = fault_of_values(rt, rt.alloc(), &TRAP_IN_THE_REST)?;
    let over = fault_of_values(rt, rt.alloc(), &OVER_IN_THE_REST)?;
    assert!(rt; trap == Some(TRAP) && over == Some(OVER));
    Ok(())
}
