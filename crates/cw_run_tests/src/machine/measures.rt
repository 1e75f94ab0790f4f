//! The measures of small runs, worked out by hand on their strand trees.

use crate::machine::arrays::ALONE;
use crate::machine::cuts::FILLS_BESIDE;
use crate::machine::loops::LOOPING;
use crate::machine::{Setting, code_in};
use crate::programs::{Around, CALLED, Part, SPAWNED};
use cw_code::code::{BlockKind, Callee, Halves, Instr};
use cw_machine::alone::{Ended, run_alone};
use cw_model::burden::{Burden, Edges};
use cw_model::syntax::{CallKind, Operator};
use cw_text::Fault;
use std::alloc::Global;

/// The calls of a site, their own work and span, and their work and span.
type Site = (u64, u64, u64, u64, u64);

/// The work, span and burdened span of a run or of a tag.
type Spans = (u64, u64, u128);

// A `main` with its arguments and a burden of 10 on these edges: its value, its measures, the number of its rows of
// sites, the rows that were worked out, and all its rows of tags.
#[derive(Clone, Copy)]
struct Counted {
    name: &'static str,
    setting: Setting,
    body: &'static [Instr],
    args: &'static [i64],
    edges: Edges,
    value: i64,
    measure: Spans,
    site_count: usize,
    sites: &'static [(u32, Site)],
    regions: &'static [(&'static str, Spans)],
}

// Returns whether a site has this row.
fn has_site(ended: &Ended, number: u32, hand: Site) -> bool {
    match ended.sites.get(&number) {
        Some(row) => (row.calls, row.own_work, row.own_span, row.work, row.span) == hand,
        None => false,
    }
}

// Returns whether there are this many rows of sites, including these.
fn has_sites(ended: &Ended, count: usize, sites: &[(u32, Site)]) -> bool {
    for (number, hand) in sites {
        if !has_site(ended, *number, *hand) {
            return false;
        }
    }
    ended.sites.len() == count
}

// Returns whether a tag has this row.
fn has_region(ended: &Ended, tag: &[u8], hand: Spans) -> bool {
    match ended.regions.get(tag) {
        Some(row) => (row.work, row.span, row.burdened) == hand,
        None => false,
    }
}

// Returns whether these are the rows of tags.
fn has_regions(ended: &Ended, regions: &[(&str, Spans)]) -> bool {
    for (tag, hand) in regions {
        if !has_region(ended, tag.as_bytes(), *hand) {
            return false;
        }
    }
    ended.regions.len() == regions.len()
}

// Returns whether a run has the values that were worked out.
fn is_counted(ended: &Ended, counted: &Counted) -> bool {
    let Ended { value, measure, .. } = ended;
    *value == counted.value
        && (measure.work, measure.span, measure.burdened) == counted.measure
        && has_sites(ended, counted.site_count, counted.sites)
        && has_regions(ended, counted.regions)
}

// Executes a run, and returns whether it has the values that were worked out.
fn holds(alloc: Global, counted: &Counted) -> Result<bool, Fault> {
    let burden = Burden {
        charge: 10,
        edges: counted.edges,
    };
    let code = code_in(alloc, counted.setting, counted.body)?;
    let ended = run_alone(alloc, code, counted.args, 1_000_000, burden)?;
    Ok(is_counted(&ended, counted))
}

// `int fib(int n) { if (n < 2) return n; a = spawn fib(n - 1); b = fib(n - 2); sync; return a + b; }`: 8 instructions
// up to the spawn, 4 in parallel with the child, and 5 after the join; 6 if n is below 2.
const FIB: Part = Part {
    gives_int: true,
    params: 1,
    slots: 3,
    array_params: 0,
    arrays: 0,
    body: &[
        Instr::Load(0),
        Instr::Push(2),
        Instr::Binary(Operator::Less, 1),
        Instr::SkipIfZero(2),
        Instr::Load(0),
        Instr::ReturnValue,
        Instr::Load(0),
        Instr::Push(1),
        Instr::Binary(Operator::Minus, 1),
        Instr::Call(
            CallKind::Spawned,
            Callee {
                target: Some(1),
                ..SPAWNED
            },
        ),
        Instr::Load(0),
        Instr::Push(2),
        Instr::Binary(Operator::Minus, 1),
        Instr::Call(
            CallKind::Plain,
            Callee {
                target: Some(2),
                ..CALLED
            },
        ),
        Instr::Sync,
        Instr::Load(1),
        Instr::Load(2),
        Instr::Binary(Operator::Plus, 1),
        Instr::ReturnValue,
    ],
};

/// A `main`, and the Fibonacci numbers by spawns.
pub(crate) static BESIDE_FIB: Around = Around {
    others: &[FIB],
    passed: &[&[]],
    ..ALONE
};

/// A plain call that leaves its result in the first slot.
pub(crate) const INTO_FIRST: Instr = Instr::Call(
    CallKind::Plain,
    Callee {
        target: Some(0),
        ..CALLED
    },
);

const FIB_OF_5: &[Instr] = &[
    Instr::Push(5),
    INTO_FIRST,
    Instr::Load(0),
    Instr::ReturnValue,
];

static FIBS: [Counted; 2] = [
    // work 6, 6, 29, 52, 98, 167 of fib(0) up to fib(5); spans 6, 6, 23, 36, 49, 62 by 13 + max(s(n-1), 4 + s(n-2));
    // with burdens 6, 6, 33, 46, 60, 73
    Counted {
        name: "fib of 5",
        setting: Setting::Fib,
        body: FIB_OF_5,
        args: &[],
        edges: Edges::Spawn,
        value: 5,
        measure: (171, 66, 77),
        site_count: 5,
        sites: &[
            (0, (1, 4, 4, 171, 66)),
            (1, (0, 0, 0, 0, 0)),
            (2, (0, 0, 0, 0, 0)),
            // plain calls: n = 5, 3, 2, 1, 1, 0, 0, 0, all inside the first; the chosen path goes through the spawned
            // children of 5, 4 and 3 and then, in fib(2), through the continuation with fib(0)
            (3, (8, 81, 19, 167, 62)),
            // spawned calls: n = 4, 3, 2, 2, 1, 1, 1; the outermost ones are the call of 4 and the call of 2 in the
            // second fib(3)
            (4, (7, 86, 43, 127, 72)),
        ],
        regions: &[],
    },
    // 6, 6, 33, 56, 79, 102, by 13 + max(10 + b(n-1), 14 + b(n-2)); the chosen path is the same
    Counted {
        name: "fib of 5, on both edges",
        setting: Setting::Fib,
        body: FIB_OF_5,
        args: &[],
        edges: Edges::Both,
        value: 5,
        measure: (171, 66, 106),
        site_count: 5,
        sites: &[(4, (7, 86, 43, 127, 72))],
        regions: &[],
    },
];

// A spawned difference into the third slot, and one into the second.
const INTO_THIRD: Instr = Instr::Call(
    CallKind::Spawned,
    Callee {
        target: Some(2),
        ..SPAWNED
    },
);

const INTO_SECOND: Instr = Instr::Call(
    CallKind::Spawned,
    Callee {
        target: Some(1),
        ..SPAWNED
    },
);

// A spawn, and in parallel a sync block that spawns and joins at its end: 3, child 4; 1, (3, child 4), 1, 2; 1 and 2.
const SCOPE: &[Instr] = &[
    Instr::Push(9),
    Instr::Push(2),
    INTO_THIRD,
    Instr::Open(BlockKind::Scope),
    Instr::Push(5),
    Instr::Push(1),
    INTO_SECOND,
    Instr::Close,
    Instr::Load(1),
    Instr::Store(0),
    Instr::Sync,
    Instr::Load(2),
    Instr::ReturnValue,
];

// A spawn, and in parallel a region that spawns and joins at its end, with the numbers of `SCOPE`.
const REGION: &[Instr] = &[
    Instr::Push(9),
    Instr::Push(2),
    INTO_THIRD,
    Instr::Open(BlockKind::Region(0)),
    Instr::Push(5),
    Instr::Push(1),
    INTO_SECOND,
    Instr::Close,
    Instr::Load(1),
    Instr::Store(0),
    Instr::Sync,
    Instr::Load(2),
    Instr::ReturnValue,
];

// The value is 9 minus 2.
static BLOCKS: [Counted; 3] = [
    // 3 + max(4, 1 + 7 + 1 + 2) + 3; the block with burdens is 3 + max(4, 10)
    Counted {
        name: "a scope",
        setting: Setting::Small,
        body: SCOPE,
        args: &[0],
        edges: Edges::Spawn,
        value: 7,
        measure: (21, 17, 33),
        site_count: 7,
        sites: &[(0, (1, 13, 13, 21, 17)), (4, (2, 8, 4, 8, 8))],
        regions: &[("", (0, 0, 0))],
    },
    Counted {
        name: "a region",
        setting: Setting::Small,
        body: REGION,
        args: &[0],
        edges: Edges::Spawn,
        value: 7,
        measure: (21, 17, 33),
        site_count: 7,
        sites: &[(0, (1, 13, 13, 21, 17)), (4, (2, 8, 4, 8, 8))],
        regions: &[("", (7, 7, 13))],
    },
    // on both edges the block is 3 + max(14, 10), and the children are still lighter than the continuations
    Counted {
        name: "a region, on both edges",
        setting: Setting::Small,
        body: REGION,
        args: &[0],
        edges: Edges::Both,
        value: 7,
        measure: (21, 17, 37),
        site_count: 7,
        sites: &[(0, (1, 13, 13, 21, 17))],
        regions: &[("", (7, 7, 17))],
    },
];

static REGIONS: [Counted; 2] = [
    // the argument is the number of iterations, of 11 instructions each, 2 of them in a region, with 4 instructions
    // at the end
    Counted {
        name: "turns with a region in each",
        setting: Setting::Small,
        body: &[
            Instr::Load(0),
            Instr::SkipIfZero(9),
            Instr::Open(BlockKind::Region(0)),
            Instr::Push(7),
            Instr::Print,
            Instr::Close,
            Instr::Load(0),
            Instr::Push(1),
            Instr::Binary(Operator::Minus, 6),
            Instr::Store(0),
            Instr::GoBack(10),
            Instr::Load(0),
            Instr::ReturnValue,
        ],
        args: &[3],
        edges: Edges::Spawn,
        value: 0,
        measure: (37, 37, 37),
        site_count: 7,
        sites: &[],
        regions: &[("", (6, 6, 6))],
    },
    // after a spawn of 4 that the outer region joins: 3, child 4; 1, 2, 1
    Counted {
        name: "a region in one of the same tag",
        setting: Setting::Small,
        body: &[
            Instr::Open(BlockKind::Region(0)),
            Instr::Push(9),
            Instr::Push(2),
            INTO_THIRD,
            Instr::Open(BlockKind::Region(0)),
            Instr::Push(7),
            Instr::Print,
            Instr::Close,
            Instr::Close,
            Instr::Load(2),
            Instr::ReturnValue,
        ],
        args: &[0],
        edges: Edges::Spawn,
        value: 7,
        measure: (15, 11, 21),
        site_count: 7,
        // on a tie the child is on the chosen path
        sites: &[(0, (1, 11, 7, 15, 11)), (4, (1, 4, 4, 4, 4))],
        regions: &[("", (11, 7, 17))],
    },
];

// 6 up to the cut; in it a spawn, child 5 in parallel with 3; and 4 after it
const CUT: &[Instr] = &[
    Instr::Push(3),
    Instr::NewArray(0, 2),
    Instr::Push(0),
    Instr::Store(0),
    Instr::Push(1),
    Instr::Cut(
        Halves {
            array: 0,
            left: 1,
            right: 2,
        },
        2,
    ),
    Instr::Call(CallKind::Spawned, FILLS_BESIDE),
    Instr::Push(0),
    Instr::Push(5),
    Instr::SetElement(1, 2),
    Instr::EndCut,
    Instr::Push(1),
    Instr::Element(0, 2),
    Instr::ReturnValue,
];

static CUTS: [Counted; 2] = [
    Counted {
        name: "a cut",
        setting: Setting::Filled,
        body: CUT,
        args: &[],
        edges: Edges::Spawn,
        value: 7,
        measure: (19, 16, 24),
        site_count: 5,
        sites: &[(0, (1, 14, 11, 19, 16)), (4, (1, 5, 5, 5, 5))],
        regions: &[],
    },
    // the child takes 15, and the continuation 13
    Counted {
        name: "a cut, on both edges",
        setting: Setting::Filled,
        body: CUT,
        args: &[],
        edges: Edges::Both,
        value: 7,
        measure: (19, 16, 26),
        site_count: 5,
        sites: &[],
        regions: &[],
    },
];

static LOOPS: [Counted; 2] = [
    // 8 of `main` around a node: 18 up to its cut; in it 3, a half of 30 in parallel with 3 and the other half of 30;
    // and 2 after it
    Counted {
        name: "a loop by halves",
        setting: Setting::Halved,
        body: LOOPING,
        args: &[1, 3, 2],
        edges: Edges::Spawn,
        value: 2,
        measure: (94, 64, 74),
        site_count: 5,
        sites: &[
            // the instructions of a loop's functions belong to `main`
            (0, (1, 94, 64, 94, 64)),
            (3, (0, 0, 0, 0, 0)),
            (4, (0, 0, 0, 0, 0)),
        ],
        regions: &[],
    },
    // the first half takes 40, in parallel with the other one's 43
    Counted {
        name: "a loop by halves, on both edges",
        setting: Setting::Halved,
        body: LOOPING,
        args: &[1, 3, 2],
        edges: Edges::Both,
        value: 2,
        measure: (94, 64, 74),
        site_count: 5,
        sites: &[],
        regions: &[],
    },
];

#[test]
fn fib(rt: HostRuntime) -> Result<(), Fault> {
    for counted in &FIBS {
        assert!(rt; holds(rt.alloc(), counted)?, "{}", counted.name);
    }
    Ok(())
}

#[test]
fn blocks(rt: HostRuntime) -> Result<(), Fault> {
    for counted in &BLOCKS {
        assert!(rt; holds(rt.alloc(), counted)?, "{}", counted.name);
    }
    Ok(())
}

#[test]
fn regions(rt: HostRuntime) -> Result<(), Fault> {
    for counted in &REGIONS {
        assert!(rt; holds(rt.alloc(), counted)?, "{}", counted.name);
    }
    Ok(())
}

#[test]
fn cuts(rt: HostRuntime) -> Result<(), Fault> {
    for counted in &CUTS {
        assert!(rt; holds(rt.alloc(), counted)?, "{}", counted.name);
    }
    Ok(())
}

#[test]
fn loops(rt: HostRuntime) -> Result<(), Fault> {
    for counted in &LOOPS {
        assert!(rt; holds(rt.alloc(), counted)?, "{}", counted.name);
    }
    Ok(())
}
