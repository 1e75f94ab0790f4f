//! The gain table, from the words to the exit status. The rows were worked out by hand (`ExampleGains`); the rows of
//! fib come from the independent implementation.

use crate::program::{Row, all_hold, all_hold_by_all};
use crate::tables::{DIVIDED, FIB};
use std::test::Fail;

const HEADER: &str =
    "function,line,calls,own_work,own_span,span_if_free,parallelism_if_free,burdened_span_if_free\n";

// A call of nine instructions parallel to one of five.
const NEAR_TIE: &str =
    "void f() { print(1); print(2); print(3); print(4); } void g() { print(1); print(2); } \
int main() { cilk_spawn f(); g(); return 0; }";

const HALVES: &str = "
void h(int n) { if (0 < n) { cilk_spawn h(n - 1); h(n - 1); } }
int main(int n) { h(n); return 0; }
";

// The iterations belong to `main`.
const LOOP_IN_REGION: &str =
    "void p() { } int main() { region t { cilk_for (int i = 0; i < 2; i++) grain 1 { p(); } } return 0; }";

// Two functions with the same gain.
const ALIKE: &str =
    "void f() { print(1); } void g() { print(2); } int main() { g(); f(); return 0; }";

const NOTHING: &str = "int main() { return 0; }";

// Each case has what follows the header.
const GAINS: &[Row] = &[
    (
        "gain f --burden 10",
        NEAR_TIE,
        0,
        ",0,0,18,11,11,1.636,19\nf,1,1,9,9,9,2.000,19\nmain,1,1,4,2,9,2.000,15\n",
        "",
    ),
    (
        "gain --burden=10 f 2",
        HALVES,
        0,
        ",0,0,63,35,35,1.800,55\nh,2,7,59,31,4,15.750,24\nmain,3,1,4,4,31,2.032,51\n",
        "",
    ),
    (
        "gain f --burden 10",
        LOOP_IN_REGION,
        0,
        ",0,0,82,55,55,1.490,65\nmain,1,1,80,54,1,82.000,11\np,1,2,2,1,54,1.518,64\n",
        "",
    ),
    (
        "gain f --burden 0",
        ALIKE,
        0,
        ",0,0,10,10,10,1.000,10\nmain,1,1,4,4,6,1.666,6\nf,1,1,3,3,7,1.428,7\ng,1,1,3,3,7,1.428,7\n",
        "",
    ),
    (
        "gain f",
        NOTHING,
        0,
        ",0,0,2,2,2,1.000,2\nmain,1,1,2,2,0,0.000,0\n",
        "",
    ),
    (
        "gain f 10",
        FIB,
        0,
        ",0,0,2388,169,169,14.130,75117\nfib,1,177,2382,163,6,398.000,75006\nmain,10,1,6,6,163,14.650,75111\n",
        "",
    ),
];

#[test]
fn writes_gains(rt: HostRuntime) -> Result<(), Fail> {
    all_hold_by_all(rt, HEADER, GAINS)
}

// Tables with fewer rows than functions, within a limit that is exactly the work.
const FEWER: &[Row] = &[
    (
        "gain f --burden 0 --top 2 --limit 10",
        ALIKE,
        0,
        ",0,0,10,10,10,1.000,10\nmain,1,1,4,4,6,1.666,6\nf,1,1,3,3,7,1.428,7\n",
        "",
    ),
    (
        "gain --top=001 f 10 --edges both",
        FIB,
        0,
        ",0,0,2388,169,169,14.130,135169\nfib,1,177,2382,163,6,398.000,135006\n",
        "",
    ),
    (
        "gain f --top 64",
        NOTHING,
        0,
        ",0,0,2,2,2,1.000,2\nmain,1,1,2,2,0,0.000,0\n",
        "",
    ),
];

#[test]
fn writes_gains_of_so_many(rt: HostRuntime) -> Result<(), Fail> {
    all_hold_by_all(rt, HEADER, FEWER)
}

// Words and runs without a gain table.
const NO_GAINS: &[Row] = &[
    ("gain f 4 --top 0", FIB, 5, "", "arguments\n"),
    ("gain f 4 --top 65", FIB, 5, "", "arguments\n"),
    ("gain f 4 --top +5", FIB, 5, "", "arguments\n"),
    ("gain f 4 --burden 1000000001", FIB, 5, "", "arguments\n"),
    ("gain f", FIB, 5, "", "arguments\n"),
    ("gain f 4 --limit 119", FIB, 4, "", "over limit\n"),
    ("gain f 0", DIVIDED, 3, "", "trap 2 line 1\n"),
    ("gain f 0 --limit 6", DIVIDED, 4, "", "over limit\n"),
    (
        "gain f",
        "int main() { return x; }",
        2,
        "",
        "refused 3 line 1\n",
    ),
];

#[test]
fn writes_no_gains(rt: HostRuntime) -> Result<(), Fail> {
    all_hold(rt, NO_GAINS)
}
