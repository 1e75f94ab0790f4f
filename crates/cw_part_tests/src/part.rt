//! Small parts of a run: the outcomes and results of joined parts, worked out by hand.

use crate::burdens::burden_of;
use cw_measure::Measure;
use cw_model::burden::Edges;
use cw_model::limits::MOST_LIMIT;
use cw_model::monoid::Monoid;
use cw_model::syntax::Reduction;
use cw_model::total::Total;
use cw_model::trap::Trap;
use cw_part::{Outcome, Part, Read};
use cw_reduce::Views;
use std::alloc::{AllocError, Global};

/// How a part becomes a piece of the block that is joined.
#[derive(Clone, Copy)]
enum Kind {
    /// It is a piece already.
    Piece,
    /// It is a call.
    Call,
    /// It is a spawned child, with these charged edges and this charge.
    Child(Edges, u64),
    /// It is a piece that trapped in line 12.
    Trapped,
    /// It is a piece that ran out of memory.
    Refused,
}

/// A part with this work that prints a line and updates reducer 0, a sum, and reducer 1, a maximum.
#[derive(Clone, Copy)]
struct Small {
    kind: Kind,
    limit: u64,
    work: u64,
    line: i64,
    told: i64,
}

fn show(views: &mut Views, part: &Small) -> Result<(), AllocError> {
    views.print(part.line)?;
    views.tell(0, Reduction::Sum, part.told)?;
    views.tell(1, Reduction::Max, part.told)
}

fn read(alloc: Global, part: &Small) -> Result<Read, AllocError> {
    let mut views = Views::new(alloc);
    show(&mut views, part)?;
    let mut measure = Measure::new();
    measure.tick(part.work);
    Ok(Read { views, measure })
}

fn outcome_of(alloc: Global, part: &Small) -> Result<Outcome, AllocError> {
    match part.kind {
        Kind::Refused => Ok(Outcome::Memory),
        Kind::Trapped => Ok(Outcome::Trapped {
            trap: Trap::Overflow,
            line: 12,
            read: read(alloc, part)?,
        }),
        _ => Ok(Outcome::Completed(read(alloc, part)?)),
    }
}

fn part_of(alloc: Global, part: &Small) -> Result<Part, AllocError> {
    let outcome = outcome_of(alloc, part)?;
    let whole = Part::new(part.limit.min(MOST_LIMIT), outcome);
    match part.kind {
        Kind::Call => Ok(whole.into_call()),
        Kind::Child(edges, charge) => Ok(whole.into_child(burden_of(edges, charge))),
        _ => Ok(whole),
    }
}

fn joined(alloc: Global, parts: &[Small]) -> Result<Part, AllocError> {
    let mut whole = Part::unit(alloc);
    for part in parts {
        whole = whole.join(part_of(alloc, part)?)?;
    }
    Ok(whole)
}

/// The results of parts that finished.
struct JoinedResult {
    lines: &'static [i64],
    /// The totals of both reducers.
    sum: i128,
    greatest: i64,
    work: u64,
    span: u64,
    burdened: u128,
}

/// The outcome of joined parts.
enum Came {
    /// They finished.
    Completed(JoinedResult),
    /// They trapped in line 12, after these lines.
    Trapped(&'static [i64]),
    Over,
    Refused,
}

fn are_shown(views: &Views, shown: &JoinedResult) -> bool {
    views.lines() == shown.lines
        && views.total(0, Reduction::Sum) == Total::Sum(shown.sum)
        && views.total(1, Reduction::Max) == Total::Max(Some(shown.greatest))
}

fn is_counted(measure: &Measure, shown: &JoinedResult) -> bool {
    measure.work() == shown.work
        && measure.span() == shown.span
        && measure.burdened() == shown.burdened
}

fn came_so(outcome: &Outcome, came: &Came) -> bool {
    match outcome {
        Outcome::Completed(read) => match came {
            Came::Completed(shown) => {
                are_shown(&read.views, shown) && is_counted(&read.measure, shown)
            }
            _ => false,
        },
        Outcome::Trapped { line, read, .. } => match came {
            Came::Trapped(lines) => *line == 12 && read.views.lines() == *lines,
            _ => false,
        },
        Outcome::Over => matches!(came, Came::Over),
        Outcome::Memory => matches!(came, Came::Refused),
    }
}

/// Parts, the minimum of their limits, and the outcome of their join.
struct Row {
    name: &'static str,
    parts: &'static [Small],
    limit: u64,
    came: Came,
}

/// Returns what differs.
fn wrong_in(part: Part, row: &Row) -> Option<&'static str> {
    if part.limit() != row.limit {
        return Some("limit");
    }
    if part.has_run() != matches!(row.came, Came::Completed(_)) {
        return Some("end");
    }
    if part.outcome().is_memory() != matches!(row.came, Came::Refused) {
        return Some("memory");
    }
    if came_so(&part.into_outcome(), &row.came) {
        None
    } else {
        Some("outcome")
    }
}

fn wrong_of(alloc: Global, row: &Row) -> Result<Option<&'static str>, AllocError> {
    let part = joined(alloc, row.parts)?;
    Ok(wrong_in(part, row))
}

/// Parts in series.
static SERIES: [Row; 2] = [
    Row {
        // The lines are in order, totals are joined, work is added, and the limit is the lower one.
        name: "parts that ran",
        parts: &[
            Small {
                kind: Kind::Piece,
                limit: 100,
                work: 3,
                line: 1,
                told: 5,
            },
            Small {
                kind: Kind::Piece,
                limit: 90,
                work: 4,
                line: 2,
                told: -7,
            },
        ],
        limit: 90,
        came: Came::Completed(JoinedResult {
            lines: &[1, 2],
            sum: -2,
            greatest: 5,
            work: 7,
            span: 7,
            burdened: 7,
        }),
    },
    Row {
        // A call of 5 instructions and then 4 more: span and burdened span are 9.
        name: "a call and what follows",
        parts: &[
            Small {
                kind: Kind::Call,
                limit: 50,
                work: 5,
                line: 1,
                told: 0,
            },
            Small {
                kind: Kind::Piece,
                limit: 50,
                work: 4,
                line: 2,
                told: 0,
            },
        ],
        limit: 50,
        came: Came::Completed(JoinedResult {
            lines: &[1, 2],
            sum: 0,
            greatest: 0,
            work: 9,
            span: 9,
            burdened: 9,
        }),
    },
];

/// A child and its continuation.
static CHILDREN: [Row; 2] = [
    Row {
        // A spawned child of 5 instructions in parallel with a continuation of 4, with a burden of 100 on the
        // continuation edge: span 5.
        name: "a child beside its rest, spawns charged",
        parts: &[
            Small {
                kind: Kind::Child(Edges::Spawn, 100),
                limit: 50,
                work: 5,
                line: 1,
                told: 0,
            },
            Small {
                kind: Kind::Piece,
                limit: 50,
                work: 4,
                line: 2,
                told: 0,
            },
        ],
        limit: 50,
        came: Came::Completed(JoinedResult {
            lines: &[1, 2],
            sum: 0,
            greatest: 0,
            work: 9,
            span: 5,
            burdened: 104,
        }),
    },
    Row {
        // The same parts, with the burden on both edges.
        name: "a child beside its rest, both edges charged",
        parts: &[
            Small {
                kind: Kind::Child(Edges::Both, 100),
                limit: 50,
                work: 5,
                line: 1,
                told: 0,
            },
            Small {
                kind: Kind::Piece,
                limit: 50,
                work: 4,
                line: 2,
                told: 0,
            },
        ],
        limit: 50,
        came: Came::Completed(JoinedResult {
            lines: &[1, 2],
            sum: 0,
            greatest: 0,
            work: 9,
            span: 5,
            burdened: 105,
        }),
    },
];

/// Parts that stop, or nearly stop.
static STOPS: [Row; 4] = [
    Row {
        // A trap drops what follows it.
        name: "a trap and what follows",
        parts: &[
            Small {
                kind: Kind::Trapped,
                limit: 100,
                work: 3,
                line: 1,
                told: 5,
            },
            Small {
                kind: Kind::Piece,
                limit: 100,
                work: 4,
                line: 2,
                told: 6,
            },
        ],
        limit: 100,
        came: Came::Trapped(&[1]),
    },
    Row {
        // Out of memory after a trap is not dropped.
        name: "memory refused behind a trap",
        parts: &[
            Small {
                kind: Kind::Trapped,
                limit: 100,
                work: 3,
                line: 1,
                told: 5,
            },
            Small {
                kind: Kind::Piece,
                limit: 100,
                work: 4,
                line: 2,
                told: 6,
            },
            Small {
                kind: Kind::Refused,
                limit: 100,
                work: 0,
                line: 0,
                told: 0,
            },
        ],
        limit: 100,
        came: Came::Refused,
    },
    Row {
        // Work of exactly the limit is within it.
        name: "work of just the limit",
        parts: &[
            Small {
                kind: Kind::Piece,
                limit: 7,
                work: 3,
                line: 1,
                told: 0,
            },
            Small {
                kind: Kind::Piece,
                limit: 7,
                work: 4,
                line: 2,
                told: 0,
            },
        ],
        limit: 7,
        came: Came::Completed(JoinedResult {
            lines: &[1, 2],
            sum: 0,
            greatest: 0,
            work: 7,
            span: 7,
            burdened: 7,
        }),
    },
    Row {
        // One instruction more exceeds the limit.
        name: "one instruction more",
        parts: &[
            Small {
                kind: Kind::Piece,
                limit: 7,
                work: 3,
                line: 1,
                told: 0,
            },
            Small {
                kind: Kind::Piece,
                limit: 7,
                work: 4,
                line: 2,
                told: 0,
            },
            Small {
                kind: Kind::Piece,
                limit: 7,
                work: 1,
                line: 3,
                told: 0,
            },
        ],
        limit: 7,
        came: Came::Over,
    },
];

#[test]
fn parts_in_series(rt: HostRuntime) -> Result<(), AllocError> {
    for row in &SERIES {
        assert_eq!(rt; wrong_of(rt.alloc(), row)?, None, "{}", row.name);
    }
    Ok(())
}

#[test]
fn a_child_beside_its_rest(rt: HostRuntime) -> Result<(), AllocError> {
    for row in &CHILDREN {
        assert_eq!(rt; wrong_of(rt.alloc(), row)?, None, "{}", row.name);
    }
    Ok(())
}

#[test]
fn parts_that_stop(rt: HostRuntime) -> Result<(), AllocError> {
    for row in &STOPS {
        assert_eq!(rt; wrong_of(rt.alloc(), row)?, None, "{}", row.name);
    }
    Ok(())
}
