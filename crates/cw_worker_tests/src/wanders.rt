//! Random events, compared with the run by one worker.

ghost use Rattle.cw_sched.specs.Worlds.{IsSound};

use crate::generated::{GENERATED, Generated};
use crate::sources::{FIB, LENT, PRINTS, TRAPS, code_of};
use cw_machine::alone::{Ended, run_alone};
use cw_model::burden::{Burden, Edges};
use cw_runnable::verified::Verified;
use cw_sched::event::Event::{self, Collect, Inline, Offer, Retake, Run, Settle, Steal};
use cw_sched::world::World;
use cw_text::Fault;
use std::alloc::Global;
use std::process::Abort;
use std::sync::Arc;
use std::test::Fail;

// Both edges of a spawn cost 3.
const BURDEN: Burden = Burden {
    charge: 3,
    edges: Edges::Both,
};

// A program on its arguments, within `n` instructions.
#[derive(Drop)]
struct Case<'a> {
    source: &'a [u8],
    args: &'a [i64],
    n: u64,
}

// Runs that end, that trap and that exceed their limit.
const CASES: &[Case] = &[
    Case {
        source: PRINTS,
        args: &[],
        n: 100,
    },
    Case {
        source: FIB,
        args: &[5],
        n: 100_000,
    },
    Case {
        source: LENT,
        args: &[5],
        n: 100_000,
    },
    Case {
        source: TRAPS,
        args: &[7],
        n: 100_000,
    },
    Case {
        source: FIB,
        args: &[5],
        n: 150,
    },
    Case {
        source: LENT,
        args: &[5],
        n: 200,
    },
];

// Returns whether two runs have the same outcome, with the same counts everywhere.
fn is_same(one: &Result<Ended, Fault>, other: &Result<Ended, Fault>) -> bool {
    match one {
        Ok(a) => match other {
            Ok(b) => {
                a.value == b.value
                    && a.lines == b.lines
                    && a.totals == b.totals
                    && a.measure == b.measure
                    && a.sites == b.sites
                    && a.regions == b.regions
            }
            Err(_) => false,
        },
        Err(a) => match other {
            Ok(_) => false,
            Err(b) => a == b,
        },
    }
}

// Returns the event of this kind of worker `w`; `v` is the victim of a theft.
fn event_of(kind: u64, w: u64, v: u64) -> Event {
    match kind {
        0 => Inline(w as usize),
        1 => Settle(w as usize),
        2 => Collect(w as usize),
        3 => Offer(w as usize),
        4 => Retake(w as usize),
        5 => Steal(w as usize, v as usize),
        _ => Run(w as usize),
    }
}

// Returns the first possible event of a worker, from a kind of events on. It only steals from `v`.
fn pick_of(world: &World, w: u64, v: u64, first: u64) -> Option<Event> {
    for i in 0..7 {
        let event = event_of(first.wrapping_add(i) % 7, w, v);
        if world.is_possible(event) {
            return Some(event);
        }
    }
    None
}

// Returns a possible event, chosen by a number: of one worker, or of the next one that has a possible event.
fn pick(world: &World, workers: u64, number: u64) -> Option<Event> {
    if workers == 0 {
        return None;
    }
    for i in 0..workers {
        let w = (number >> 40).wrapping_add(i) % workers;
        if let Some(event) = pick_of(world, w, (number >> 50) % workers, number >> 33) {
            return Some(event);
        }
    }
    None
}

// Applies possible events, chosen by random numbers from this seed on, until the run ends; none may be refused.
fn wander(world: &mut World, workers: u64, seed: u64) -> Option<Result<Ended, Fault>>
    requires { IsSound world.old }
{
    let mut number = seed;
    for _ in 0..100_000 {
        if let Some(answer) = world.outcome() {
            return Some(answer);
        }
        number = number
            .wrapping_mul(6364136223846793005)
            .wrapping_add(1442695040888963407);
        if let Some(event) = pick(world, workers, number) {
            if world.apply(event).is_err() {
                return None;
            }
        }
    }
    None
}

// Returns whether a random run has the outcome of the run by one worker.
fn is_serial(
    alloc: Global,
    code: &Arc<Verified>,
    case: &Case,
    workers: usize,
    seed: u64,
) -> Result<bool, Fault> {
    let alone = run_alone(alloc, Arc::try_clone(code)?, case.args, case.n, BURDEN);
    let code = Arc::try_clone(code)?;
    let mut world = World::start(alloc, code, case.args, case.n, BURDEN, workers)?;
    match wander(&mut world, workers as u64, seed) {
        Some(answer) => Ok(is_same(&answer, &alone)),
        None => Ok(false),
    }
}

// Returns whether random runs of a program have the outcome of the run by one worker.
fn are_serial(
    alloc: Global,
    code: &Arc<Verified>,
    case: &Case,
    seeds: &[u64],
) -> Result<bool, Fault> {
    let mut right = true;
    for workers in [1, 2, 3, 7] {
        for seed in seeds {
            let is_right = is_serial(alloc, code, case, workers, *seed)?;
            right = right && is_right;
        }
    }
    Ok(right)
}

// Returns whether random runs of a program with these seeds have the outcome of the run by one worker.
fn is_case_serial(alloc: Global, case: &Case, seeds: &[u64]) -> Result<bool, Fault> {
    let code = code_of(alloc, case.source)?;
    are_serial(alloc, &code, case, seeds)
}

const SEEDS: [u64; 3] = [1, 12345, 987654321];

fn all_cases_are_serial<R: Abort>(rt: &R, alloc: Global, cases: &[Case]) -> Result<(), Fault> {
    for case in cases {
        let is_serial = is_case_serial(alloc, case, &SEEDS)?;
        assert!(rt; is_serial, "within {} instructions", case.n);
    }
    Ok(())
}

#[test]
fn walks_are_serial(rt: HostRuntime) -> Result<(), Fail> {
    all_cases_are_serial(&rt, rt.alloc(), CASES)?;
    Ok(())
}

// Returns whether the runs of a random program within `n` instructions have the outcome of the run by one worker.
fn is_random_serial(alloc: Global, program: &Generated, n: u64) -> Result<bool, Fault> {
    let case = Case {
        source: program.source,
        args: program.args,
        n,
    };
    is_case_serial(alloc, &case, &[program.cost])
}

// Tests each program within exactly its cost, within one instruction less, and within half of it.
fn all_random_are_serial<R: Abort>(
    rt: &R,
    alloc: Global,
    programs: &[Generated],
) -> Result<(), Fault> {
    for program in programs {
        let cost = program.cost;
        for n in [cost, cost.wrapping_sub(1), cost / 2] {
            let is_serial = is_random_serial(alloc, program, n)?;
            assert!(rt; is_serial, "cost {cost} within {n}");
        }
    }
    Ok(())
}

#[test]
fn walks_of_random_programs_are_serial(rt: HostRuntime) -> Result<(), Fail> {
    all_random_are_serial(&rt, rt.alloc(), &GENERATED)?;
    Ok(())
}

// Returns whether a world with this number of workers is refused.
fn is_rejected(alloc: Global, workers: usize) -> Result<bool, Fault> {
    let code = code_of(alloc, PRINTS)?;
    match World::start(alloc, code, &[], 100, BURDEN, workers) {
        Err(Fault::Arguments) => Ok(true),
        _ => Ok(false),
    }
}

// Returns whether a world with this number of workers starts.
fn starts(alloc: Global, workers: usize) -> Result<bool, Fault> {
    let code = code_of(alloc, PRINTS)?;
    let world = World::start(alloc, code, &[], 100, BURDEN, workers)?;
    Ok(world.outcome().is_none())
}

#[test]
fn workers_out_of_range(rt: HostRuntime) -> Result<(), Fail> {
    let is_none_refused = is_rejected(rt.alloc(), 0)?;
    let is_more_refused = is_rejected(rt.alloc(), 65)?;
    assert!(rt; is_none_refused && is_more_refused);
    Ok(())
}

#[test]
fn the_most_workers(rt: HostRuntime) -> Result<(), Fail> {
    let starts = starts(rt.alloc(), 64)?;
    assert!(rt; starts);
    Ok(())
}
