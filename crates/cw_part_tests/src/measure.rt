//! Work, span and burdened span of small runs, whole and joined from pieces, worked out by hand.

use crate::burdens::burden_of;
use MeasureCall::{Call, Child, Sync, Tick};
use cw_measure::{BurdenedPath, Measure};
use cw_model::burden::{Burden, Edges};
use cw_model::monoid::Monoid;
use std::alloc::{AllocError, Global};

/// A call of a method of a measure.
#[derive(Clone, Copy)]
enum MeasureCall {
    /// Adds instructions.
    Tick(u64),
    /// Adds a spawned child with this number of instructions.
    Child(u64),
    /// Adds the run's part in series.
    Call,
    /// Adds a join.
    Sync,
}

/// A run in pieces, and its measures.
struct Run {
    name: &'static str,
    /// A part in series that the pieces call.
    part: &'static [MeasureCall],
    first: &'static [MeasureCall],
    more: &'static [&'static [MeasureCall]],
    work: u64,
    span: u64,
    /// The charged edges, the charge, and the burdened span with it.
    charged: &'static [(Edges, u64, u128)],
}

/// Returns the measure of a strand with this number of instructions.
fn strand(n: u64) -> Measure {
    let mut measure = Measure::new();
    measure.tick(n);
    measure
}

fn tell(measure: &mut Measure, burden: Burden, part: &Measure, told: MeasureCall) {
    match told {
        Tick(n) => measure.tick(n),
        Child(n) => measure.spawned(burden, &strand(n)),
        Call => measure.called(part),
        Sync => measure.sync(),
    }
}

fn tell_all(measure: &mut Measure, burden: Burden, part: &Measure, all: &[MeasureCall]) {
    for told in all {
        tell(measure, burden, part, *told);
    }
}

/// Returns the measure of the first piece of a run.
fn first_of(run: &Run, burden: Burden, part: &Measure) -> Measure {
    let mut measure = Measure::new();
    tell_all(&mut measure, burden, part, run.first);
    measure
}

/// Returns the measure of a later piece.
fn piece_of(alloc: Global, burden: Burden, part: &Measure, told: &[MeasureCall]) -> Measure {
    let mut measure = Measure::unit(alloc);
    tell_all(&mut measure, burden, part, told);
    measure
}

/// Joins the pieces, starting with the first one.
fn joined_forward(
    alloc: Global,
    run: &Run,
    burden: Burden,
    part: &Measure,
) -> Result<Measure, AllocError> {
    let mut whole = first_of(run, burden, part);
    for told in run.more {
        whole = whole.join(piece_of(alloc, burden, part, *told))?;
    }
    Ok(whole)
}

/// Joins the pieces, starting with the last one.
fn joined_backward(
    alloc: Global,
    run: &Run,
    burden: Burden,
    part: &Measure,
) -> Result<Measure, AllocError> {
    let mut rest = Measure::unit(alloc);
    for told in run.more.iter().rev() {
        rest = piece_of(alloc, burden, part, *told).join(rest)?;
    }
    first_of(run, burden, part).join(rest)
}

fn reads(measure: &Measure, run: &Run, burdened: u128) -> bool {
    measure.work() == run.work && measure.span() == run.span && measure.burdened() == burdened
}

fn reads_forward(
    alloc: Global,
    run: &Run,
    burden: Burden,
    burdened: u128,
) -> Result<bool, AllocError> {
    let part = piece_of(alloc, burden, &Measure::new(), run.part);
    let whole = joined_forward(alloc, run, burden, &part)?;
    Ok(reads(&whole, run, burdened))
}

fn reads_backward(
    alloc: Global,
    run: &Run,
    burden: Burden,
    burdened: u128,
) -> Result<bool, AllocError> {
    let part = piece_of(alloc, burden, &Measure::new(), run.part);
    let whole = joined_backward(alloc, run, burden, &part)?;
    Ok(reads(&whole, run, burdened))
}

/// Returns whether a run has these readings with this charge, in both groupings of its pieces.
fn reads_so(alloc: Global, run: &Run, burden: Burden, burdened: u128) -> Result<bool, AllocError> {
    let forward = reads_forward(alloc, run, burden, burdened)?;
    let backward = reads_backward(alloc, run, burden, burdened)?;
    Ok(forward && backward)
}

/// Returns the first charge with which a run has other readings.
fn wrong_charge(alloc: Global, run: &Run) -> Result<Option<Edges>, AllocError> {
    for (edges, charge, burdened) in run.charged {
        if !reads_so(alloc, run, burden_of(*edges, *charge), *burdened)? {
            return Ok(Some(*edges));
        }
    }
    Ok(None)
}

static RUNS: [Run; 7] = [
    Run {
        // 3 instructions, a child of 5 in parallel with 2, a join, 1 instruction: the child is longer; with a burden
        // of 4 on the continuation only, the continuation is.
        name: "a child beside a rest",
        part: &[],
        first: &[Tick(3), Child(5), Tick(2), Sync, Tick(1)],
        more: &[],
        work: 11,
        span: 9,
        charged: &[(Edges::Spawn, 4, 10), (Edges::Both, 4, 13)],
    },
    Run {
        // The run `a child beside a rest`, divided after the spawn and after the join, with an empty piece between.
        name: "a child and its rest in pieces",
        part: &[],
        first: &[Tick(3), Child(5)],
        more: &[&[], &[Tick(2), Sync], &[Tick(1)]],
        work: 11,
        span: 9,
        charged: &[(Edges::Spawn, 4, 10), (Edges::Both, 4, 13)],
    },
    Run {
        // The run `a child beside a rest`, divided before the spawn, after it and after the join.
        name: "a child in a piece of its own",
        part: &[],
        first: &[Tick(3)],
        more: &[&[Child(5)], &[Tick(2), Sync], &[Tick(1)]],
        work: 11,
        span: 9,
        charged: &[(Edges::Spawn, 4, 10), (Edges::Both, 4, 13)],
    },
    Run {
        // Two children of 4 with 3 instructions between them, and a join immediately: the second child's path has the
        // 3 before it, and a burden of 2, or one for each of the two forks that it goes through.
        name: "two children",
        part: &[],
        first: &[Tick(1), Child(4), Tick(3), Child(4), Sync],
        more: &[],
        work: 12,
        span: 8,
        charged: &[(Edges::Spawn, 2, 10), (Edges::Both, 2, 12)],
    },
    Run {
        // A continuation in parallel with two children that join together is charged for both forks, whichever edges
        // are charged.
        name: "one rest beside two children",
        part: &[],
        first: &[Tick(1), Child(1), Tick(3), Child(1), Tick(5), Sync],
        more: &[],
        work: 11,
        span: 9,
        charged: &[(Edges::Spawn, 10, 29), (Edges::Both, 10, 29)],
    },
    Run {
        // A part in series counts with all three of its readings.
        name: "a part in series",
        part: &[Tick(1), Child(7), Sync],
        first: &[Tick(2), Call],
        more: &[],
        work: 10,
        span: 10,
        charged: &[(Edges::Spawn, 10, 13), (Edges::Both, 10, 20)],
    },
    Run {
        // A reading above the maximum of its type is this maximum; a burdened span has 128 bits.
        name: "readings stop at the greatest number",
        part: &[],
        first: &[Tick(u64::MAX), Child(1), Tick(1), Sync],
        more: &[],
        work: u64::MAX,
        span: u64::MAX,
        charged: &[
            (Edges::Spawn, u64::MAX, 36_893_488_147_419_103_231),
            (Edges::Both, u64::MAX, 36_893_488_147_419_103_231),
        ],
    },
];

#[test]
fn runs(rt: HostRuntime) -> Result<(), AllocError> {
    for run in &RUNS {
        assert_eq!(rt; wrong_charge(rt.alloc(), run)?, None, "{}", run.name);
    }
    Ok(())
}

/// A call of a method of a burdened path, at a number of instructions.
#[derive(Clone, Copy)]
enum Step {
    /// A spawned child begins; the flag is true for the first child of its block since the last join.
    Spawn(u64, bool),
    /// A spawned child ends.
    EndChild(u64),
    /// The current block joins.
    Join(u64),
    /// The instructions so far are included.
    Note(u64),
}

fn take(path: &mut BurdenedPath, burden: Burden, step: Step) -> Result<(), AllocError> {
    match step {
        Step::Spawn(count, first) => path.spawn(count, first)?,
        Step::EndChild(count) => path.end_child(count, burden),
        Step::Join(count) => path.join(count),
        Step::Note(count) => path.note(count),
    }
    Ok(())
}

fn take_all(path: &mut BurdenedPath, burden: Burden, all: &[Step]) -> Result<(), AllocError> {
    for step in all {
        take(path, burden, *step)?;
    }
    Ok(())
}

/// 2 instructions, and a child of 1 in parallel with 2; then the same again; then a child in the continuation of a
/// child, and a child of 100, which is the longest, and is charged on its return edge only.
static STRETCHES: [&[Step]; 3] = [
    &[Step::Spawn(2, true), Step::EndChild(3), Step::Join(5)],
    &[
        Step::Spawn(8, true),
        Step::EndChild(9),
        Step::Join(11),
        Step::Note(14),
    ],
    &[
        Step::Spawn(15, true),
        Step::EndChild(115),
        Step::Spawn(116, false),
        Step::Spawn(120, true),
        Step::EndChild(121),
        Step::Join(122),
        Step::EndChild(122),
        Step::Join(123),
    ],
];

/// Returns the weights of the path after each stretch.
fn weigh(path: &mut BurdenedPath, burden: Burden) -> Result<[u128; 3], AllocError> {
    let mut weights = [0; 3];
    for k in 0..3usize {
        take_all(path, burden, STRETCHES[k])?;
        weights[k] = path.weight();
    }
    Ok(weights)
}

fn weights(alloc: Global, burden: Burden) -> Result<[u128; 3], AllocError> {
    let mut path = BurdenedPath::new(alloc);
    weigh(&mut path, burden)
}

/// The charged edges, for a charge of 10, and the weights.
static WEIGHTS: [(Edges, [u128; 3]); 2] = [
    (Edges::Spawn, [14, 32, 133]),
    (Edges::Both, [14, 32, 143]),
];

#[test]
fn a_burdened_path(rt: HostRuntime) -> Result<(), AllocError> {
    for (edges, wanted) in &WEIGHTS {
        assert_eq!(rt; weights(rt.alloc(), burden_of(*edges, 10))?, *wanted);
    }
    Ok(())
}
