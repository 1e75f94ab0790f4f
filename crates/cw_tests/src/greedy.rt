//! The schedule of a run, from the words to the exit status.

use crate::program::{Row, all_hold, all_hold_with};
use crate::tables::{DIVIDED, FIB, PRINTED};
use std::test::Fail;

const HEADER: &str = "processors,work,span,greedy\n";

// 1,000,000 strands, the maximum number that is recorded, and one more iteration, which adds three strands.
const MOST: &str = "int main() { cilk_for (int i = 0; i < 333334; i++) grain 1 { } return 0; }";

const MORE: &str = "int main() { cilk_for (int i = 0; i < 333335; i++) grain 1 { } return 0; }";

// Each case has what follows the header.
const SCHEDULES: &[Row] = &[
    ("greedy 1 f 4", FIB, 0, "1,120,67,120\n", ""),
    ("greedy 2 f 4", FIB, 0, "2,120,67,76\n", ""),
    ("greedy 1000000 f 4", FIB, 0, "1000000,120,67,67\n", ""),
    // the limit is exactly the work
    ("greedy 002 --limit=120 f 4", FIB, 0, "2,120,67,76\n", ""),
    ("greedy 2 f", PRINTED, 0, "2,15,10,10\n", ""),
    ("greedy 1 f", PRINTED, 0, "1,15,10,15\n", ""),
    // by any number of workers
    ("greedy 2 f 4 --workers 1", FIB, 0, "2,120,67,76\n", ""),
    ("greedy 2 f 4 --workers 4", FIB, 0, "2,120,67,76\n", ""),
    ("greedy 2 f 4 --workers 64", FIB, 0, "2,120,67,76\n", ""),
    ("greedy 2 f --workers 64", PRINTED, 0, "2,15,10,10\n", ""),
];

#[test]
fn writes_schedules(rt: HostRuntime) -> Result<(), Fail> {
    all_hold_with(rt, "", HEADER, SCHEDULES)
}

// Words without a schedule.
const NO_WORDS: &[Row] = &[
    ("greedy 0 f 4", FIB, 5, "", "arguments\n"),
    ("greedy 1000001 f 4", FIB, 5, "", "arguments\n"),
    ("greedy +2 f 4", FIB, 5, "", "arguments\n"),
    ("greedy f 2 4", FIB, 5, "", "arguments\n"),
    ("greedy 2 f", FIB, 5, "", "arguments\n"),
    ("greedy 2 f 4 --limit 0", FIB, 5, "", "arguments\n"),
];

#[test]
fn schedules_no_other_words(rt: HostRuntime) -> Result<(), Fail> {
    all_hold(rt, NO_WORDS)
}

// Runs without a schedule.
const NO_SCHEDULES: &[Row] = &[
    ("greedy 2 f 4 --limit 119", FIB, 4, "", "over limit\n"),
    ("greedy 2 f 0", DIVIDED, 3, "", "trap 2 line 1\n"),
    ("greedy 2 f 0 --limit 6", DIVIDED, 4, "", "over limit\n"),
    (
        "greedy 2 f 4 --limit 119 --workers 64",
        FIB,
        4,
        "",
        "over limit\n",
    ),
    (
        "greedy 2 f 0 --workers 4",
        DIVIDED,
        3,
        "",
        "trap 2 line 1\n",
    ),
    (
        "greedy 2 f",
        "int main() { return x; }",
        2,
        "",
        "refused 3 line 1\n",
    ),
];

#[test]
fn writes_no_schedule(rt: HostRuntime) -> Result<(), Fail> {
    all_hold(rt, NO_SCHEDULES)
}

// The maximum number of strands.
const KEPT: &[Row] = &[
    (
        "greedy 1 f --workers 1",
        MOST,
        0,
        "1,15333348,429,15333348\n",
        "",
    ),
    (
        "greedy 1 f --workers 4",
        MOST,
        0,
        "1,15333348,429,15333348\n",
        "",
    ),
];

#[test]
fn schedules_a_million_strands(rt: HostRuntime) -> Result<(), Fail> {
    all_hold_with(rt, "", HEADER, KEPT)
}

// A call in each iteration adds two strands: 1,999,998 strands with 400,000 calls, and 399,999 spawns and joins.
const MORE_CALLS: &str =
    "void f() { } int main() { cilk_for (int i = 0; i < 400000; i++) grain 1 { f(); } return 0; }";

// More strands than are recorded.
const TOO_MANY: &[Row] = &[
    ("greedy 1 f --workers 1", MORE, 4, "", "too many strands\n"),
    ("greedy 1 f --workers 4", MORE, 4, "", "too many strands\n"),
    // exceeding the limit is reported first
    ("greedy 1 f --limit 15333347", MORE, 4, "", "over limit\n"),
];

#[test]
fn schedules_no_more_strands(rt: HostRuntime) -> Result<(), Fail> {
    all_hold(rt, TOO_MANY)
}

// The number of strands: 1, plus 2 for each call and spawn and 1 for each join.
const COUNTED: &[Row] = &[
    (
        "greedy 1 f --explain --workers 1",
        MORE,
        4,
        "",
        "too many strands\nf: the run has 1000003 strands, but a schedule has at most 1000000: use smaller arguments or coarser grains, or scale, which has no such limit\n",
    ),
    (
        "greedy 1 f --explain --workers 4",
        MORE,
        4,
        "",
        "too many strands\nf: the run has 1000003 strands, but a schedule has at most 1000000: use smaller arguments or coarser grains, or scale, which has no such limit\n",
    ),
    (
        "greedy 1 f --explain --workers 1",
        MORE_CALLS,
        4,
        "",
        "too many strands\nf: the run has 1999998 strands, but a schedule has at most 1000000: use smaller arguments or coarser grains, or scale, which has no such limit\n",
    ),
    (
        "greedy 1 f --explain --workers 4",
        MORE_CALLS,
        4,
        "",
        "too many strands\nf: the run has 1999998 strands, but a schedule has at most 1000000: use smaller arguments or coarser grains, or scale, which has no such limit\n",
    ),
];

#[test]
fn counts_more_strands(rt: HostRuntime) -> Result<(), Fail> {
    all_hold(rt, COUNTED)
}
