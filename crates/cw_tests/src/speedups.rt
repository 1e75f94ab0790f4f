//! The speedups of a run, from the words to the exit status. The rows come from the other implementation in
//! bench/reference.

use crate::program::{Row, all_hold, all_hold_with};
use crate::tables::{DIVIDED, FIB, PRINTED};
use std::test::Fail;

const HEADER: &str = "processors,steps,speedup,speedup_bound,burdened_steps,burdened_speedup\n";

// Each has what follows the head.
const SPEEDUPS: &[Row] = &[
    (
        "speedup f 4 --processors 1 --burden 0",
        FIB,
        0,
        "1,120,1.000,1.000,120,1.000\n",
        "",
    ),
    // the last number is no power of two
    (
        "speedup f 4 --processors 3 --burden 100",
        FIB,
        0,
        "1,120,1.000,1.000,120,1.000\n2,76,1.578,1.791,187,0.641\n3,67,1.791,1.791,209,0.574\n",
        "",
    ),
    (
        "speedup --edges both f 4 --processors=002 --burden 100",
        FIB,
        0,
        "1,120,1.000,1.000,120,1.000\n2,76,1.578,1.791,243,0.493\n",
        "",
    ),
    // up to 64 by default; the limit is the work
    (
        "speedup f 4 --limit 120",
        FIB,
        0,
        "1,120,1.000,1.000,120,1.000\n2,76,1.578,1.791,15087,0.007\n4,67,1.791,1.791,22570,0.005\n8,67,1.791,1.791,26312,0.004\n16,67,1.791,1.791,28183,0.004\n32,67,1.791,1.791,29118,0.004\n64,67,1.791,1.791,29586,0.004\n",
        "",
    ),
    // by whichever workers
    (
        "speedup f 4 --processors 3 --burden 100 --workers 1",
        FIB,
        0,
        "1,120,1.000,1.000,120,1.000\n2,76,1.578,1.791,187,0.641\n3,67,1.791,1.791,209,0.574\n",
        "",
    ),
    (
        "speedup f 4 --processors 3 --burden 100 --workers 64",
        FIB,
        0,
        "1,120,1.000,1.000,120,1.000\n2,76,1.578,1.791,187,0.641\n3,67,1.791,1.791,209,0.574\n",
        "",
    ),
    // the span is the work
    (
        "speedup f 0 --processors 2",
        FIB,
        0,
        "1,12,1.000,1.000,12,1.000\n2,12,1.000,1.000,12,1.000\n",
        "",
    ),
    // the largest numbers
    (
        "speedup f --burden 1000000000 --edges both --processors 1000000",
        PRINTED,
        0,
        "1,15,1.000,1.000,15,1.000\n2,10,1.500,1.500,1000000012,0.000\n4,10,1.500,1.500,1500000011,0.000\n8,10,1.500,1.500,1750000010,0.000\n16,10,1.500,1.500,1875000010,0.000\n32,10,1.500,1.500,1937500010,0.000\n64,10,1.500,1.500,1968750010,0.000\n128,10,1.500,1.500,1984375010,0.000\n256,10,1.500,1.500,1992187510,0.000\n512,10,1.500,1.500,1996093760,0.000\n1024,10,1.500,1.500,1998046885,0.000\n2048,10,1.500,1.500,1999023447,0.000\n4096,10,1.500,1.500,1999511728,0.000\n8192,10,1.500,1.500,1999755869,0.000\n16384,10,1.500,1.500,1999877939,0.000\n32768,10,1.500,1.500,1999938974,0.000\n65536,10,1.500,1.500,1999969492,0.000\n131072,10,1.500,1.500,1999984751,0.000\n262144,10,1.500,1.500,1999992380,0.000\n524288,10,1.500,1.500,1999996195,0.000\n1000000,10,1.500,1.500,1999998010,0.000\n",
        "",
    ),
];

#[test]
fn writes_speedups(rt: HostRuntime) -> Result<(), Fail> {
    all_hold_with(rt, "", HEADER, SPEEDUPS)
}

// More strands than are kept: rows without steps.
const MORE: &str = "int main() { cilk_for (int i = 0; i < 333335; i++) grain 1 { } return 0; }";

const NO_STEPS: &[Row] = &[
    (
        "speedup f --processors 3 --workers 1",
        MORE,
        0,
        "1,,,1.000,15333394,1.000\n2,,,2.000,7809411,1.963\n3,,,3.000,5301417,2.892\n",
        "",
    ),
    (
        "speedup f --processors 3 --workers 4",
        MORE,
        0,
        "1,,,1.000,15333394,1.000\n2,,,2.000,7809411,1.963\n3,,,3.000,5301417,2.892\n",
        "",
    ),
];

#[test]
fn writes_no_steps(rt: HostRuntime) -> Result<(), Fail> {
    all_hold_with(rt, "", HEADER, NO_STEPS)
}

// Words and runs without speedups.
const NO_SPEEDUPS: &[Row] = &[
    ("speedup f 4 --processors 0", FIB, 5, "", "arguments\n"),
    (
        "speedup f 4 --processors 1000001",
        FIB,
        5,
        "",
        "arguments\n",
    ),
    ("speedup f 4 --processors +2", FIB, 5, "", "arguments\n"),
    ("speedup f", FIB, 5, "", "arguments\n"),
    ("speedup f 4 --limit 0", FIB, 5, "", "arguments\n"),
    ("speedup f 4 --burden 1000000001", FIB, 5, "", "arguments\n"),
    ("speedup f 4 --limit 119", FIB, 4, "", "over limit\n"),
    (
        "speedup f 4 --limit 119 --workers 64",
        FIB,
        4,
        "",
        "over limit\n",
    ),
    ("speedup f 0", DIVIDED, 3, "", "trap 2 line 1\n"),
    ("speedup f 0 --workers 4", DIVIDED, 3, "", "trap 2 line 1\n"),
    (
        "speedup f",
        "int main() { return x; }",
        2,
        "",
        "refused 3 line 1\n",
    ),
];

#[test]
fn writes_no_speedups(rt: HostRuntime) -> Result<(), Fail> {
    all_hold(rt, NO_SPEEDUPS)
}
