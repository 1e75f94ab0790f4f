//! The tables of work and span, from the words to the exit status.

use crate::program::{Row, all_hold_by_all};
use std::test::Fail;

pub const SCALE: &str = "tag,work,span,parallelism,burdened_span,burdened_parallelism\n";

const SITES: &str = "site,kind,line,callee,calls,own_work,own_span,work,span\n";

pub const FIB: &str = "int fib(int n) {
  if (n < 2) { return n; }
  int x = 0;
  int y = 0;
  x = cilk_spawn fib(n - 1);
  y = fib(n - 2);
  cilk_sync;
  return x + y;
}
int main(int n) {
  int r = 0;
  r = fib(n);
  return r;
}
";

pub const DIVIDED: &str = "int bad(int z) { int q = 0; q = 1 / z; return q; }
int main(int z) { cilk_spawn bad(z); print(7); cilk_sync; return 0; }
";

pub const PRINTED: &str = "void p(int v) { print(v); } \
int main() { cilk_spawn p(1); cilk_spawn p(2); print(3); cilk_sync; return 0; }";

pub const TAGGED: &str = "void p(int v) { print(v); } \
int main() { region r { cilk_spawn p(1); print(2); } return 0; }";

pub const SUMMED: &str = "reducer sum s; void add() { s += 9223372036854775807; } \
int main() { cilk_spawn add(); cilk_spawn add(); cilk_sync; return 0; }";

pub const GREATEST: &str = "reducer max m; \
int main() { cilk_for (int i = 0; i < 4; i++) grain 2 { m max= i * (3 - i); } return 0; }";

const TIED: &str =
    "int f() { return 0; } int main() { cilk_spawn f(); print(1); cilk_sync; return 0; }";

const NEVER: &str = "int f() { region b { print(1); } return 0; }
int main() { if (0) { region a { int x = 0; x = f(); } } region c { print(2); } return 0; }
";

// Tables of whole runs. Each case has what follows the header.
const RUNS: &[Row] = &[
    ("scale f 0", FIB, 0, ",12,12,1.000,12,1.000\n", ""),
    (
        "scale f 4 --burden 100",
        FIB,
        0,
        ",120,67,1.791,254,0.472\n",
        "",
    ),
    // each of the three spawns on the longest path is charged, on either side
    (
        "scale f 4 --burden 100 --edges both",
        FIB,
        0,
        ",120,67,1.791,367,0.326\n",
        "",
    ),
    // the limit is exactly the work
    (
        "scale f 4 --burden 100 --limit 120",
        FIB,
        0,
        ",120,67,1.791,254,0.472\n",
        "",
    ),
    ("scale f 1", DIVIDED, 0, ",15,13,1.153,15007,0.000\n", ""),
    (
        "scale f --burden 0",
        PRINTED,
        0,
        ",15,10,1.500,10,1.500\n",
        "",
    ),
    (
        "scale f --edges=both 1",
        DIVIDED,
        0,
        ",15,13,1.153,15013,0.000\n",
        "",
    ),
];

#[test]
fn writes_tables_of_runs(rt: HostRuntime) -> Result<(), Fail> {
    all_hold_by_all(rt, SCALE, RUNS)
}

// Runs with reducers and with tags.
const TAGS: &[Row] = &[
    (
        "scale f --burden 0",
        GREATEST,
        0,
        ",122,74,1.648,74,1.648\n",
        "",
    ),
    (
        "scale f --burden 10 --edges both",
        TAGGED,
        0,
        ",11,9,1.222,19,0.578\nr,7,5,1.400,15,0.466\n",
        "",
    ),
    (
        "scale f --burden 10",
        TAGGED,
        0,
        ",11,9,1.222,18,0.611\nr,7,5,1.400,14,0.500\n",
        "",
    ),
    ("scale f --burden=0", SUMMED, 0, ",11,8,1.375,8,1.375\n", ""),
    // tags that never ran, in source order; a test, a print, a region and a return cost 2 each
    (
        "scale f",
        NEVER,
        0,
        ",8,8,1.000,8,1.000\nb,0,0,0.000,0,0.000\na,0,0,0.000,0,0.000\nc,2,2,1.000,2,1.000\n",
        "",
    ),
];

#[test]
fn writes_tables_of_tags(rt: HostRuntime) -> Result<(), Fail> {
    all_hold_by_all(rt, SCALE, TAGS)
}

const CALLS: &[Row] = &[
    (
        "sites f 4",
        FIB,
        0,
        "0,root,10,main,1,6,6,120,67\n1,spawn,5,fib,4,54,38,66,50\n\
         2,call,6,fib,4,39,6,45,39\n3,call,12,fib,1,21,17,114,61\n",
        "",
    ),
    // the burden does not change the sites
    (
        "sites f --burden 1000000000",
        TIED,
        0,
        "0,root,1,main,1,6,4,8,6\n1,spawn,1,f,1,2,2,2,2\n",
        "",
    ),
];

#[test]
fn writes_tables_of_sites(rt: HostRuntime) -> Result<(), Fail> {
    all_hold_by_all(rt, SITES, CALLS)
}

// Runs and words without a table.
const NO_TABLES: &[Row] = &[
    ("scale f 0", DIVIDED, 3, "", "trap 2 line 1\n"),
    ("sites f 0", DIVIDED, 3, "", "trap 2 line 1\n"),
    ("scale f 0 --limit 7", DIVIDED, 3, "", "trap 2 line 1\n"),
    ("scale f 0 --limit 6", DIVIDED, 4, "", "over limit\n"),
    ("sites f 4 --limit 119", FIB, 4, "", "over limit\n"),
    ("scale f", FIB, 5, "", "arguments\n"),
    ("sites f 1 2", FIB, 5, "", "arguments\n"),
    (
        "scale f 1",
        "int main() { return x; }",
        2,
        "",
        "refused 3 line 1\n",
    ),
];

#[test]
fn writes_no_table(rt: HostRuntime) -> Result<(), Fail> {
    all_hold_by_all(rt, "", NO_TABLES)
}
