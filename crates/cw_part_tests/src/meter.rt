//! All measures of small runs, reported to a meter instruction by instruction; the expected values are worked out by
//! hand.

use crate::burdens::burden_of;
use Stage::{HandOut, InRest, On, TakeIn};
use MeterCall::{Begin, BeginRegion, Call, End, GiveBack, Spawn, SpawnHalf, Sync};
use cw_meter::{Detail, Measures, Meter};
use cw_model::burden::{Burden, Edges};
use cw_regions::RegionRow;
use cw_sites::table::SiteRow;
use std::alloc::{AllocError, Global};

/// A call of a method of a meter, after this number of instructions.
#[derive(Clone, Copy)]
enum MeterCall {
    /// A plain call of a site begins.
    Call(u64, u32),
    /// A spawned call of a site begins.
    Spawn(u64, u32),
    /// The spawned half of a loop begins.
    SpawnHalf(u64),
    /// A scope or a loop's function begins.
    Begin(u64),
    /// A region of a tag begins.
    BeginRegion(u64, u32),
    /// A scope or a region joins and ends.
    End(u64),
    /// A call, or a loop's function, joins and ends.
    GiveBack(u64),
    /// The current block joins.
    Sync(u64),
}

/// A stage of a run. Its continuations may be executed separately, with meters that know only their site and their
/// level of detail.
#[derive(Clone, Copy)]
enum Stage {
    /// The run's meter receives these calls.
    On(&'static [MeterCall]),
    /// A continuation is handed out in the current invocation.
    HandOut,
    /// The meter of the continuation that was handed out last receives these calls.
    InRest(&'static [MeterCall]),
    /// The run's meter appends that continuation, after this number of instructions; the continuation has this many
    /// instructions.
    TakeIn(u64, u64),
}

/// The meter of a run, and the meters of the continuations that were handed out.
#[derive(Drop)]
struct Meters {
    whole: Meter,
    rests: Vec<Meter>,
}

fn tell(meter: &mut Meter, told: MeterCall) -> Result<(), AllocError> {
    match told {
        Call(count, site) => meter.call(count, site),
        Spawn(count, site) => meter.spawn(count, site),
        SpawnHalf(count) => meter.spawn_half(count),
        Begin(count) => meter.begin(count),
        BeginRegion(count, tag) => meter.begin_region(count, tag),
        End(count) => meter.end(count),
        GiveBack(count) => meter.give_back(count),
        Sync(count) => meter.sync(count),
    }
}

fn tell_all(meter: &mut Meter, all: &[MeterCall]) -> Result<(), AllocError> {
    for told in all {
        tell(meter, *told)?;
    }
    Ok(())
}

fn hand_out(alloc: Global, meters: &mut Meters, detail: Detail) -> Result<(), AllocError> {
    let rest = Meter::apart(alloc, meters.whole.site(), detail);
    meters.rests.push(rest)?;
    Ok(())
}

fn tell_rest(meters: &mut Meters, all: &[MeterCall]) -> Result<(), AllocError> {
    match meters.rests.last_mut() {
        Some(rest) => tell_all(rest, all),
        None => Ok(()),
    }
}

fn take_in(meters: &mut Meters, count: u64, cost: u64) -> Result<(), AllocError> {
    match meters.rests.pop() {
        Some(rest) => meters.whole.rest(count, rest, cost),
        None => Ok(()),
    }
}

fn go_on(
    alloc: Global,
    meters: &mut Meters,
    detail: Detail,
    stage: Stage,
) -> Result<(), AllocError> {
    match stage {
        On(told) => tell_all(&mut meters.whole, told),
        HandOut => hand_out(alloc, meters, detail),
        InRest(told) => tell_rest(meters, told),
        TakeIn(count, cost) => take_in(meters, count, cost),
    }
}

/// A run and its measures.
struct Run {
    name: &'static str,
    stages: &'static [Stage],
    work: u64,
    span: u64,
    /// For each site: calls, own work, own span, work and span.
    sites: &'static [[u64; 5]],
    /// For each tag: work, span and burdened span.
    regions: &'static [(u64, u64, u128)],
    /// The charged edges, the charge, and the burdened span with it.
    charged: &'static [(Edges, u64, u128)],
}

fn go_through(
    alloc: Global,
    meters: &mut Meters,
    detail: Detail,
    stages: &[Stage],
) -> Result<(), AllocError> {
    for stage in stages {
        go_on(alloc, meters, detail, *stage)?;
    }
    Ok(())
}

fn meter_of(alloc: Global, stages: &[Stage], detail: Detail) -> Result<Meter, AllocError> {
    let whole = Meter::new(alloc, detail)?;
    let rests = Vec::new(alloc);
    let mut meters = Meters { whole, rests };
    go_through(alloc, &mut meters, detail, stages)?;
    Ok(meters.whole)
}

fn is_row(row: &SiteRow, wanted: &[u64; 5]) -> bool {
    [row.calls, row.own_work, row.own_span, row.work, row.span] == *wanted
}

fn is_region(row: &RegionRow, wanted: &(u64, u64, u128)) -> bool {
    (row.work, row.span, row.burdened) == *wanted
}

fn are_rows(rows: &[SiteRow], wanted: &[[u64; 5]]) -> bool {
    for (row, wanted) in rows.iter().zip(wanted) {
        if !is_row(row, wanted) {
            return false;
        }
    }
    rows.len() == wanted.len()
}

fn are_regions(rows: &[RegionRow], wanted: &[(u64, u64, u128)]) -> bool {
    for (row, wanted) in rows.iter().zip(wanted) {
        if !is_region(row, wanted) {
            return false;
        }
    }
    rows.len() == wanted.len()
}

/// Returns which measures differ: the readings, the sites, or the regions.
fn wrong_part(all: &Measures, run: &Run, burdened: u128) -> Option<&'static str> {
    let measure = all.measure;
    if (measure.work, measure.span, measure.burdened) != (run.work, run.span, burdened) {
        Some("readings")
    } else if !are_rows(&all.sites, run.sites) {
        Some("sites")
    } else if !are_regions(&all.regions, run.regions) {
        Some("regions")
    } else {
        None
    }
}

fn measures_of(alloc: Global, run: &Run, detail: Detail) -> Result<Measures, AllocError> {
    let meter = meter_of(alloc, run.stages, detail)?;
    meter.finish(alloc, run.work, run.sites.len(), run.regions.len())
}

/// Returns which measures differ for one charge.
fn wrong_with(
    alloc: Global,
    run: &Run,
    burden: Burden,
    burdened: u128,
) -> Result<Option<&'static str>, AllocError> {
    let all = measures_of(alloc, run, Detail::Measures(burden))?;
    Ok(wrong_part(&all, run, burdened))
}

/// Returns which measures differ for the first charge for which any do.
fn wrong_of(alloc: Global, run: &Run) -> Result<Option<&'static str>, AllocError> {
    for (edges, charge, burdened) in run.charged {
        let wrong = wrong_with(alloc, run, burden_of(*edges, *charge), *burdened)?;
        if wrong.is_some() {
            return Ok(wrong);
        }
    }
    Ok(None)
}

/// Returns whether a meter of values only counts a call other than the run's own call of `main`, with which it
/// begins.
fn counts_a_call(alloc: Global, run: &Run) -> Result<bool, AllocError> {
    let all = measures_of(alloc, run, Detail::Values)?;
    let mut calls = 0u64;
    for row in &all.sites {
        calls = calls.wrapping_add(row.calls);
    }
    Ok(calls > 1)
}

static WHOLE_RUNS: [Run; 3] = [
    Run {
        // Five consecutive instructions; the last is the return.
        name: "a serial run",
        stages: &[On(&[GiveBack(4)])],
        work: 5,
        span: 5,
        sites: &[[1, 5, 5, 5, 5], [0, 0, 0, 0, 0]],
        regions: &[],
        charged: &[(Edges::Spawn, 100, 5)],
    },
    Run {
        // A child of 3 instructions in parallel with a continuation of 3, one instruction before and three after: on
        // a tie, the child is on the path.
        name: "a child as long as the rest",
        stages: &[On(&[Spawn(0, 1), GiveBack(3), Sync(7), GiveBack(9)])],
        work: 10,
        span: 7,
        sites: &[[1, 7, 4, 10, 7], [1, 3, 3, 3, 3]],
        regions: &[],
        charged: &[(Edges::Spawn, 10, 17)],
    },
    Run {
        // A loop's first function spawns a half of 4 instructions, and in parallel with it makes a plain call of one
        // of 2.
        name: "a loop by halves",
        stages: &[On(&[
            Begin(0),
            SpawnHalf(1),
            GiveBack(5),
            Begin(6),
            GiveBack(8),
            GiveBack(9),
            GiveBack(10),
        ])],
        work: 11,
        span: 8,
        sites: &[[1, 11, 8, 11, 8]],
        regions: &[],
        charged: &[(Edges::Spawn, 7, 14), (Edges::Both, 7, 15)],
    },
];

static SCOPES: [Run; 2] = [
    Run {
        // A scope ends with an unjoined child of 5 instructions; one instruction was executed in parallel with the
        // child.
        name: "a scope joins at its end",
        stages: &[On(&[Begin(0), Spawn(1, 1), GiveBack(6), End(8), GiveBack(11)])],
        work: 12,
        span: 11,
        sites: &[[1, 7, 6, 12, 11], [1, 5, 5, 5, 5]],
        regions: &[],
        charged: &[(Edges::Spawn, 100, 107), (Edges::Both, 100, 111)],
    },
    Run {
        // A scope with a child of its own is parallel to a child of the enclosing block, which joins later.
        name: "a scope beside a child",
        stages: &[On(&[
            Spawn(0, 1),
            GiveBack(1),
            Begin(2),
            Spawn(3, 2),
            GiveBack(4),
            End(5),
            Sync(6),
            GiveBack(7),
        ])],
        work: 8,
        span: 7,
        sites: &[[1, 6, 6, 8, 7], [1, 1, 0, 1, 1], [1, 1, 1, 1, 1]],
        regions: &[],
        charged: &[(Edges::Spawn, 10, 26), (Edges::Both, 10, 27)],
    },
];

/// A region of tag 0 ends with an unjoined child of 4 instructions.
const A_REGION: [Stage; 1] = [On(&[
    BeginRegion(0, 0),
    Spawn(1, 1),
    GiveBack(5),
    End(6),
    GiveBack(7),
])];

/// In the region, and in total, 4 instructions are the run's own, and 4 the child's, which are on the path.
const SITES_OF_A_REGION: [[u64; 5]; 2] = [[1, 4, 4, 8, 8], [1, 4, 4, 4, 4]];

static REGIONS: [Run; 3] = [
    Run {
        // A region of tag 0 has 8 instructions inside, a region of tag 1 in it has 4, and in that there is a region
        // of tag 0 again. All 11 instructions are the run's own.
        name: "regions inside one another",
        stages: &[On(&[
            BeginRegion(0, 0),
            BeginRegion(3, 1),
            BeginRegion(5, 0),
            End(7),
            End(8),
            End(9),
            GiveBack(10),
        ])],
        work: 11,
        span: 11,
        sites: &[[1, 11, 11, 11, 11]],
        regions: &[(8, 8, 8), (4, 4, 4), (0, 0, 0)],
        charged: &[(Edges::Spawn, 100, 11)],
    },
    Run {
        name: "a region joins at its end, with spawns charged",
        stages: &A_REGION,
        work: 8,
        span: 8,
        sites: &SITES_OF_A_REGION,
        regions: &[(5, 5, 51)],
        charged: &[(Edges::Spawn, 50, 54)],
    },
    Run {
        name: "a region joins at its end, with both edges charged",
        stages: &A_REGION,
        work: 8,
        span: 8,
        sites: &SITES_OF_A_REGION,
        regions: &[(5, 5, 55)],
        charged: &[(Edges::Both, 50, 58)],
    },
];

static NESTS: [Run; 2] = [
    Run {
        // A call of site 1 spawns, at site 2, a call that spawns at site 2 again; both call at site 3 in parallel
        // with the spawned call.
        name: "a nest of spawns",
        stages: &[On(&[
            Call(0, 1),
            Spawn(1, 2),
            Spawn(2, 2),
            GiveBack(3),
            Call(4, 3),
            GiveBack(5),
            Sync(6),
            GiveBack(7),
            Call(8, 3),
            GiveBack(9),
            Sync(10),
            GiveBack(11),
            GiveBack(12),
        ])],
        work: 13,
        span: 10,
        sites: &[
            [1, 2, 2, 13, 10],
            [1, 4, 3, 11, 8],
            [2, 5, 4, 6, 5],
            [2, 2, 1, 2, 2],
        ],
        regions: &[],
        charged: &[(Edges::Spawn, 100, 110), (Edges::Both, 100, 210)],
    },
    Run {
        // The same run, with the continuation of each spawned call executed separately.
        name: "rests that ran apart",
        stages: &[
            On(&[Call(0, 1)]),
            HandOut,
            On(&[Spawn(1, 2)]),
            HandOut,
            On(&[Spawn(2, 2), GiveBack(3)]),
            InRest(&[Call(0, 3), GiveBack(1)]),
            TakeIn(4, 2),
            On(&[Sync(6), GiveBack(7)]),
            InRest(&[Call(0, 3), GiveBack(1)]),
            TakeIn(8, 2),
            On(&[Sync(10), GiveBack(11), GiveBack(12)]),
        ],
        work: 13,
        span: 10,
        sites: &[
            [1, 2, 2, 13, 10],
            [1, 4, 3, 11, 8],
            [2, 5, 4, 6, 5],
            [2, 2, 1, 2, 2],
        ],
        regions: &[],
        charged: &[(Edges::Spawn, 100, 110), (Edges::Both, 100, 210)],
    },
];

/// Site 1 spawns a call of 4 instructions; the continuation of its block, of 8, calls site 1 again, and in that call
/// executes a region of the tag that is open around all of it. Work and span of both are the work and span of the
/// outer ones, whether or not the continuation was executed separately.
static INSIDE_ITSELF: [Run; 2] = [
    Run {
        name: "a rest inside its own site and tag",
        stages: &[On(&[
            BeginRegion(0, 0),
            Call(1, 1),
            Spawn(2, 2),
            GiveBack(6),
            Call(9, 1),
            BeginRegion(10, 0),
            End(13),
            GiveBack(14),
            Sync(15),
            GiveBack(16),
            End(17),
            GiveBack(18),
        ])],
        work: 19,
        span: 15,
        sites: &[[1, 4, 4, 19, 15], [2, 11, 11, 15, 11], [1, 4, 0, 4, 4]],
        regions: &[(16, 12, 22)],
        charged: &[(Edges::Spawn, 10, 25)],
    },
    Run {
        name: "a rest inside its own site and tag that ran apart",
        stages: &[
            On(&[BeginRegion(0, 0), Call(1, 1)]),
            HandOut,
            On(&[Spawn(2, 2), GiveBack(6)]),
            InRest(&[Call(2, 1), BeginRegion(3, 0), End(6), GiveBack(7)]),
            TakeIn(7, 8),
            On(&[Sync(15), GiveBack(16), End(17), GiveBack(18)]),
        ],
        work: 19,
        span: 15,
        sites: &[[1, 4, 4, 19, 15], [2, 11, 11, 15, 11], [1, 4, 0, 4, 4]],
        regions: &[(16, 12, 22)],
        charged: &[(Edges::Spawn, 10, 25)],
    },
];

#[test]
fn whole_runs(rt: HostRuntime) -> Result<(), AllocError> {
    for run in &WHOLE_RUNS {
        assert_eq!(rt; wrong_of(rt.alloc(), run)?, None, "{}", run.name);
    }
    Ok(())
}

#[test]
fn scopes(rt: HostRuntime) -> Result<(), AllocError> {
    for run in &SCOPES {
        assert_eq!(rt; wrong_of(rt.alloc(), run)?, None, "{}", run.name);
    }
    Ok(())
}

#[test]
fn regions(rt: HostRuntime) -> Result<(), AllocError> {
    for run in &REGIONS {
        assert_eq!(rt; wrong_of(rt.alloc(), run)?, None, "{}", run.name);
    }
    Ok(())
}

#[test]
fn nests(rt: HostRuntime) -> Result<(), AllocError> {
    for run in &NESTS {
        assert_eq!(rt; wrong_of(rt.alloc(), run)?, None, "{}", run.name);
    }
    Ok(())
}

#[test]
fn inside_itself(rt: HostRuntime) -> Result<(), AllocError> {
    for run in &INSIDE_ITSELF {
        assert_eq!(rt; wrong_of(rt.alloc(), run)?, None, "{}", run.name);
    }
    Ok(())
}

#[test]
fn values_alone_count_no_call(rt: HostRuntime) -> Result<(), AllocError> {
    for run in &WHOLE_RUNS {
        assert_eq!(rt; counts_a_call(rt.alloc(), run)?, false, "{}", run.name);
    }
    for run in &NESTS {
        assert_eq!(rt; counts_a_call(rt.alloc(), run)?, false, "{}", run.name);
    }
    Ok(())
}
