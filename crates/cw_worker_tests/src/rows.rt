//! Small programs have the outcome that was worked out by hand, independently of what happens to their continuations;
//! and they have the outcome of a run with one worker within each limit.

use crate::answers::{Expected, is_same, is_told};
use crate::arrays::{CUT, MADE, SQUARES};
use crate::calls::{
    DIVIDED, DIVIDED_BESIDE_FOREVER, DIVIDED_TWICE, FIB, GREATEST_IN_TURNS, NESTED, PRINTED, SUMMED,
};
use crate::driving::{Break, Fate, Pace, WHOLE, Way, run_so};
use crate::programs::{Program, code_of};
use crate::readers::TOTAL;
use cw_jobs::effect::Effect;
use cw_jobs::job::Job;
use cw_machine::alone::{Ended, run_alone};
use cw_model::burden::{Burden, Edges};
use cw_model::total::Total;
use cw_runnable::verified::Verified;
use cw_slices::Slice;
use cw_text::Fault;
use std::alloc::Global;
use std::sync::Arc;
use std::test::Fail;

// A test case: a program on its arguments, the charge of each charged edge of a spawn, and the outcome, the cost and
// the number of spawned calls of its run.
#[derive(Clone, Copy)]
struct Row<'a> {
    name: &'a str,
    program: Program<'a>,
    args: &'a [i64],
    charge: u64,
    edges: Edges,
    cost: u64,
    spawns: u64,
    told: Expected<'a>,
}

impl Row<'_> {
    // Returns the burden of each spawn.
    fn burden(&self) -> Burden {
        Burden {
            charge: self.charge,
            edges: self.edges,
        }
    }
}

// The treatment of continuations: always the same, or alternating. Two ways continue by one instruction at a time,
// and ask each strand for its end before each instruction.
const WAYS: [Way<'static>; 7] = [
    Way {
        fates: &[Fate::TakenBack],
        asks_ends: false,
        pace: Pace::ToEvents,
    },
    Way {
        fates: &[Fate::ApartAtOnce],
        asks_ends: false,
        pace: Pace::ToEvents,
    },
    Way {
        fates: &[Fate::ApartAtJoin],
        asks_ends: false,
        pace: Pace::ToEvents,
    },
    Way {
        fates: &[Fate::TakenBack, Fate::ApartAtOnce],
        asks_ends: false,
        pace: Pace::ToEvents,
    },
    Way {
        fates: &[Fate::ApartAtJoin, Fate::TakenBack],
        asks_ends: false,
        pace: Pace::ToEvents,
    },
    Way {
        fates: &[Fate::ApartAtOnce, Fate::ApartAtJoin, Fate::TakenBack],
        asks_ends: true,
        pace: Pace::ByOne,
    },
    Way {
        fates: &[Fate::TakenBack],
        asks_ends: true,
        pace: Pace::ByOne,
    },
];

// Ways in which some spawns are in place, within a few instructions and within many.
const MIXED: [Way<'static>; 3] = [
    Way {
        fates: &[Fate::TakenBack, Fate::ApartAtJoin],
        asks_ends: false,
        pace: Pace::InPlace(1),
    },
    Way {
        fates: &[Fate::ApartAtOnce, Fate::TakenBack],
        asks_ends: true,
        pace: Pace::InPlace(13),
    },
    Way {
        fates: &[Fate::ApartAtJoin],
        asks_ends: false,
        pace: Pace::InPlace(40),
    },
];

// The tables are returned by functions so that a proof reads each of them once.
fn ways() -> [Way<'static>; 7] {
    WAYS
}

fn mixed() -> [Way<'static>; 3] {
    MIXED
}

fn ending() -> [Row<'static>; 12] {
    ENDING
}

fn trapping() -> [Row<'static>; 6] {
    TRAPPING
}

// Returns the outcome of a run with one worker. The error is `Memory`.
fn alone(
    alloc: Global,
    code: &Arc<Verified>,
    row: &Row,
    limit: u64,
) -> Result<Result<Ended, Fault>, Fault> {
    match run_alone(alloc, code.clone()?, row.args, limit, row.burden()) {
        Ok(ended) => Ok(Ok(ended)),
        Err(fault) => match fault {
            Fault::Memory => Err(Fault::Memory),
            other => Ok(Err(other)),
        },
    }
}

// Returns the effect of the same run by strands, one of which stops at `broken`.
fn apart(
    alloc: Global,
    code: &Arc<Verified>,
    row: &Row,
    way: &Way,
    limit: u64,
    broken: Break,
) -> Result<Effect, Fault> {
    let job = Job::root(alloc, code.clone()?, row.args, limit, row.burden())?;
    match run_so(alloc, job, way, broken) {
        Ok(effect) => Ok(effect),
        Err(_) => Err(Fault::Strands(0)),
    }
}

// Returns whether a case holds within a limit in one way. The error is `Memory`.
fn holds(
    alloc: Global,
    code: &Arc<Verified>,
    row: &Row,
    way: &Way,
    limit: u64,
) -> Result<bool, Fault> {
    let effect = apart(alloc, code, row, way, limit, WHOLE)?;
    let alone = alone(alloc, code, row, limit)?;
    is_same(alloc, &code.code, &alone, effect, row.cost)
}

// Returns whether a case holds within a limit in all ways.
fn holds_within(alloc: Global, code: &Arc<Verified>, row: &Row, limit: u64) -> Result<bool, Fault> {
    let mut all = true;
    for way in &ways() {
        all = holds(alloc, code, row, way, limit)? && all;
    }
    for way in &mixed() {
        all = holds(alloc, code, row, way, limit)? && all;
    }
    Ok(all)
}

// Returns whether a case holds at its cost in all ways, and has the outcome that was worked out with one worker.
fn holds_all_ways(alloc: Global, row: &Row) -> Result<bool, Fault> {
    let code = code_of(alloc, &row.program)?;
    let first = alone(alloc, &code, row, row.cost)?;
    let all = is_told(&first, &row.told, row.cost);
    Ok(holds_within(alloc, &code, row, row.cost)? && all)
}

// Returns whether a case holds within each limit up to one above its cost, in all ways.
fn holds_within_limits(alloc: Global, row: &Row) -> Result<bool, Fault> {
    let code = code_of(alloc, &row.program)?;
    let mut all = true;
    for limit in 1..=row.cost.saturating_add(1) {
        all = holds_within(alloc, &code, row, limit)? && all;
    }
    Ok(all)
}

// Returns whether none of these slices has a number.
fn are_empty(slices: &[Slice]) -> bool {
    slices.iter().all(|slice| slice.len() == 0)
}

// Returns whether an effect says that there was not enough memory, or that the run was given up while no slot of
// `main` has an array.
fn is_broken(effect: &Effect, is_given_up: bool) -> bool {
    match effect {
        Effect::Memory { back: _ } => !is_given_up,
        Effect::GivenUp { back } => is_given_up && are_empty(back),
        _ => false,
    }
}

// Returns whether one strand that runs out of memory or is given up at this continuation ends the whole run in the
// same way, in all ways.
fn breaks_whole(
    alloc: Global,
    code: &Arc<Verified>,
    row: &Row,
    broken: Break,
) -> Result<bool, Fault> {
    let mut all = true;
    for way in &ways() {
        let effect = apart(alloc, code, row, way, row.cost, broken)?;
        all = is_broken(&effect, broken.is_given_up) && all;
    }
    Ok(all)
}

// Returns whether this holds at every continuation.
fn fails_whole(alloc: Global, row: &Row) -> Result<bool, Fault> {
    let code = code_of(alloc, &row.program)?;
    let mut all = true;
    for rest in 1..=row.spawns {
        for is_given_up in [false, true] {
            let broken = Break { rest, is_given_up };
            all = breaks_whole(alloc, &code, row, broken)? && all;
        }
    }
    Ok(all)
}

// Programs that end.
const ENDING: [Row<'static>; 12] = [
    // the longest path: 18, then a sum of three elements with 68, parallel to 5, then 9; only the continuations of
    // calls that neither lend nor read are handed out
    Row {
        name: "a sum of what is read",
        program: TOTAL,
        args: &[],
        charge: 0,
        edges: Edges::Spawn,
        cost: 152,
        spawns: 4,
        told: Expected::Ends {
            value: 19,
            lines: &[1, 2, 4, 2],
            totals: &[],
            span: 95,
            burdened: 95,
            sites: &[],
            regions: &[],
        },
    },
    Row {
        name: "fib of 4",
        program: FIB,
        args: &[4],
        charge: 100,
        edges: Edges::Spawn,
        cost: 120,
        spawns: 4,
        told: Expected::Ends {
            value: 3,
            lines: &[],
            totals: &[],
            span: 67,
            burdened: 254,
            sites: &[
                (1, 6, 6, 120, 67),
                (4, 54, 38, 66, 50),
                (4, 39, 6, 45, 39),
                (1, 21, 17, 114, 61),
            ],
            regions: &[],
        },
    },
    Row {
        name: "fib of 0",
        program: FIB,
        args: &[0],
        charge: 100,
        edges: Edges::Spawn,
        cost: 12,
        spawns: 0,
        told: Expected::Ends {
            value: 0,
            lines: &[],
            totals: &[],
            span: 12,
            burdened: 12,
            sites: &[],
            regions: &[],
        },
    },
    Row {
        name: "a division beside a print",
        program: DIVIDED,
        args: &[1],
        charge: 15000,
        edges: Edges::Both,
        cost: 15,
        spawns: 1,
        told: Expected::Ends {
            value: 0,
            lines: &[7],
            totals: &[],
            span: 13,
            burdened: 15013,
            sites: &[],
            regions: &[],
        },
    },
    Row {
        name: "two divisions",
        program: DIVIDED_TWICE,
        args: &[2],
        charge: 10,
        edges: Edges::Spawn,
        cost: 17,
        spawns: 1,
        told: Expected::Ends {
            value: 0,
            lines: &[4],
            totals: &[],
            span: 13,
            burdened: 19,
            sites: &[],
            regions: &[],
        },
    },
    Row {
        name: "three prints",
        program: PRINTED,
        args: &[],
        charge: 0,
        edges: Edges::Spawn,
        cost: 15,
        spawns: 2,
        told: Expected::Ends {
            value: 0,
            lines: &[1, 2, 3],
            totals: &[],
            span: 10,
            burdened: 10,
            sites: &[],
            regions: &[],
        },
    },
    // the longest path: 1, a continuation with 1 and a child of 3, charged on both of its edges, then 3
    Row {
        name: "a great sum",
        program: SUMMED,
        args: &[],
        charge: 10,
        edges: Edges::Both,
        cost: 11,
        spawns: 2,
        told: Expected::Ends {
            value: 0,
            lines: &[],
            totals: &[Total::Sum(18_446_744_073_709_551_614), Total::Max(None)],
            span: 8,
            burdened: 28,
            sites: &[],
            regions: &[],
        },
    },
    // an iteration is 22 with a child of 11, and 8 are outside; the longest path goes through three continuations and
    // the last child
    Row {
        name: "the greatest in turns",
        program: GREATEST_IN_TURNS,
        args: &[],
        charge: 10,
        edges: Edges::Both,
        cost: 96,
        spawns: 4,
        told: Expected::Ends {
            value: 9,
            lines: &[0, 1, 2, 3],
            totals: &[
                Total::Max(Some(3)),
                Total::Max(Some(0)),
                Total::Max(None),
                Total::Sum(6),
            ],
            span: 53,
            burdened: 93,
            sites: &[],
            regions: &[],
        },
    },
    // q is 15 and two children of 5; the longest path goes through its continuation, and there through the second
    // child
    Row {
        name: "regions",
        program: NESTED,
        args: &[1],
        charge: 10,
        edges: Edges::Spawn,
        cost: 35,
        spawns: 3,
        told: Expected::Ends {
            value: 0,
            lines: &[1, 2, 3, 6, 4],
            totals: &[],
            span: 24,
            burdened: 41,
            sites: &[
                (1, 10, 6, 35, 24),
                (1, 5, 0, 5, 5),
                (1, 5, 5, 5, 5),
                (1, 15, 13, 25, 18),
            ],
            regions: &[(24, 17, 34), (31, 20, 37)],
        },
    },
    // 6 up to the inner cut; 2, a child of 6, 2, a child of 6 and 3; 9 up to the end of the outer cut, and 23
    Row {
        name: "parts of parts",
        program: CUT,
        args: &[5],
        charge: 10,
        edges: Edges::Spawn,
        cost: 57,
        spawns: 2,
        told: Expected::Ends {
            value: 17034,
            lines: &[],
            totals: &[],
            span: 48,
            burdened: 65,
            sites: &[],
            regions: &[],
        },
    },
    Row {
        name: "an array made in a rest",
        program: MADE,
        args: &[2],
        charge: 10,
        edges: Edges::Spawn,
        cost: 25,
        spawns: 1,
        told: Expected::Ends {
            value: 57,
            lines: &[],
            totals: &[],
            span: 21,
            burdened: 31,
            sites: &[],
            regions: &[],
        },
    },
    // leaves of 50, 32 and 50, nodes of 26, and 8 of main; the longest path goes through the continuation of each
    // node
    Row {
        name: "a loop by halves",
        program: SQUARES,
        args: &[],
        charge: 10,
        edges: Edges::Spawn,
        cost: 192,
        spawns: 2,
        told: Expected::Ends {
            value: 16,
            lines: &[],
            totals: &[],
            span: 110,
            burdened: 130,
            sites: &[],
            regions: &[],
        },
    },
];

// Programs that trap, in a spawned call whose continuation is out, or in a continuation.
const TRAPPING: [Row<'static>; 6] = [
    Row {
        name: "a division by 0 beside a print",
        program: DIVIDED,
        args: &[0],
        charge: 0,
        edges: Edges::Spawn,
        cost: 7,
        spawns: 1,
        told: Expected::Traps {
            number: 2,
            line: 1,
            lines: &[],
        },
    },
    Row {
        name: "two divisions by 0",
        program: DIVIDED_TWICE,
        args: &[0],
        charge: 0,
        edges: Edges::Spawn,
        cost: 7,
        spawns: 1,
        told: Expected::Traps {
            number: 2,
            line: 1,
            lines: &[],
        },
    },
    Row {
        name: "a division by 0 beside a loop without end",
        program: DIVIDED_BESIDE_FOREVER,
        args: &[0],
        charge: 0,
        edges: Edges::Spawn,
        cost: 7,
        spawns: 1,
        told: Expected::Traps {
            number: 2,
            line: 1,
            lines: &[],
        },
    },
    Row {
        name: "a division by 0 in a rest in regions",
        program: NESTED,
        args: &[0],
        charge: 0,
        edges: Edges::Spawn,
        cost: 25,
        spawns: 3,
        told: Expected::Traps {
            number: 2,
            line: 6,
            lines: &[1, 2, 3],
        },
    },
    Row {
        name: "past the end of a part",
        program: CUT,
        args: &[4],
        charge: 0,
        edges: Edges::Spawn,
        cost: 21,
        spawns: 2,
        told: Expected::Traps {
            number: 3,
            line: 1,
            lines: &[],
        },
    },
    Row {
        name: "past the end beside an array made in a rest",
        program: MADE,
        args: &[0],
        charge: 0,
        edges: Edges::Spawn,
        cost: 7,
        spawns: 1,
        told: Expected::Traps {
            number: 3,
            line: 1,
            lines: &[],
        },
    },
];

#[test]
fn programs_end_as_with_one_worker(rt: HostRuntime) -> Result<(), Fail> {
    for row in &ending() {
        assert!(rt; holds_all_ways(rt.alloc(), row)?, "{}", row.name);
    }
    Ok(())
}

#[test]
fn programs_trap_as_with_one_worker(rt: HostRuntime) -> Result<(), Fail> {
    for row in &trapping() {
        assert!(rt; holds_all_ways(rt.alloc(), row)?, "{}", row.name);
    }
    Ok(())
}

#[test]
fn a_strand_without_memory_takes_all_with_it(rt: HostRuntime) -> Result<(), Fail> {
    for row in &ending() {
        assert!(rt; fails_whole(rt.alloc(), row)?, "{}", row.name);
    }
    Ok(())
}

#[test]
fn limits_are_passed_as_with_one_worker(rt: HostRuntime) -> Result<(), Fail> {
    for row in &ending() {
        assert!(rt; holds_within_limits(rt.alloc(), row)?, "{}", row.name);
    }
    for row in &trapping() {
        assert!(rt; holds_within_limits(rt.alloc(), row)?, "{}", row.name);
    }
    Ok(())
}
