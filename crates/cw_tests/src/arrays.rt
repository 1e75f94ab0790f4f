//! Runs of programs with arrays: elements, lengths, calls that take arrays, cuts, and their traps. The limits are
//! exact: with one instruction less the run exceeds its limit.

use crate::program::{Row, all_hold_by_all};
use crate::tables::SUMMED;
use std::test::Fail;

const CUT_AT_3: &str = "int main() { int a[3]; cut a at 3 as l, r { } return 0; }";

const CUT_AT_4: &str = "int main() { int a[3]; cut a at 4 as l, r { } return 0; }";

const CUT_BELOW_0: &str = "int main() { int a[3]; cut a at -1 as l, r { } return 0; }";

const EMPTY_PART: &str = "int main() { int a[3]; cut a at 3 as l, r { print(len(r)); } return 0; }";

const FILL: &str = "int fill(int a[], int v) { a[0] = v; return len(a); } int main() { int a[4]; \
int x = 0; int y = 0; cut a at 2 as l, r { x = cilk_spawn fill(l, 5); y = fill(r, 7); } \
return a[0] * 10 + a[2]; }";

// one part is cut again, and both of its parts are taken by calls before the first end
const CUT_TWICE: &str = "void set(int a[], int v) { a[len(a) - 1] = v; }
int main() {
  int a[5];
  cut a at 1 as l, r {
    cut r at 3 as m, n {
      cilk_spawn set(m, 3);
      cilk_spawn set(n, 4);
      l[0] = 1;
    }
    r[0] = r[2] + r[3];
  }
  return a[0] * 10000 + a[1] * 1000 + a[2] * 100 + a[3] * 10 + a[4];
}
";

// the array comes back at the join of the scope
const SPAWNED: &str =
    "void twice(int a[]) { int i = 0; while (i < len(a)) { a[i] = a[i] * 2; i = i + 1; } }
int main() {
  int a[3];
  int b[2];
  a[0] = 4;
  a[2] = 21;
  cilk_scope { cilk_spawn twice(a); b[1] = 7; twice(b); }
  print(a[2]);
  return a[0] + b[1] + b[0];
}
";

// the array of each iteration begins with zeros
const FRESH: &str = "int main() {
  int i = 0;
  int total = 0;
  while (i < 3) { int a[i + 1]; total = total + a[i] + len(a); a[i] = 100; i = i + 1; }
  return total;
}
";

// the number of primes below `n`, by a sieve
const SIEVE: &str = "int main(int n) {
  int struck[n];
  int count = 0;
  int p = 2;
  int k = 0;
  while (p < n) {
    if (struck[p] == 0) {
      count = count + 1;
      k = p * p;
      while (k < n) { struck[k] = 1; k = k + p; }
    }
    p = p + 1;
  }
  return count;
}
";

// Cuts, and their costs.
const CUTS: &[Row] = &[
    // the array 2, the cut 2, its end 1, return 2
    ("run f --limit 7", CUT_AT_3, 0, "return 0\n", ""),
    ("run f --limit 6", CUT_AT_3, 4, "", "over limit\n"),
    ("run f --limit 9", EMPTY_PART, 0, "0\nreturn 0\n", ""),
    ("run f --limit 8", EMPTY_PART, 4, "", "over limit\n"),
    ("run f --limit 31", FILL, 0, "return 57\n", ""),
    ("run f --limit 30", FILL, 4, "", "over limit\n"),
    ("run f", CUT_TWICE, 0, "return 17034\n", ""),
];

#[test]
fn runs_cuts(rt: HostRuntime) -> Result<(), Fail> {
    all_hold_by_all(rt, "", CUTS)
}

// Elements, lengths, and arrays that calls take.
const ARRAYS: &[Row] = &[
    ("run f", SPAWNED, 0, "42\nreturn 22\n", ""),
    ("run f", FRESH, 0, "return 6\n", ""),
    ("run f 100", SIEVE, 0, "return 25\n", ""),
    (
        "run f",
        "int main() { int a[0]; return len(a); }",
        0,
        "return 0\n",
        "",
    ),
];

#[test]
fn runs_arrays(rt: HostRuntime) -> Result<(), Fail> {
    all_hold_by_all(rt, "", ARRAYS)
}

// Cuts and lengths that trap.
const NO_ARRAYS: &[Row] = &[
    ("run f", CUT_AT_4, 3, "", "trap 3 line 1\n"),
    ("run f --limit 4", CUT_AT_4, 3, "", "trap 3 line 1\n"),
    ("run f --limit 3", CUT_AT_4, 4, "", "over limit\n"),
    ("run f", CUT_BELOW_0, 3, "", "trap 3 line 1\n"),
    (
        "run f",
        "int main() { int a[0 - 1]; return 0; }",
        3,
        "",
        "trap 4 line 1\n",
    ),
    (
        "run f",
        "int main() { int a[16777217]; return 0; }",
        3,
        "",
        "trap 4 line 1\n",
    ),
];

#[test]
fn traps_at_cuts_and_lengths(rt: HostRuntime) -> Result<(), Fail> {
    all_hold_by_all(rt, "", NO_ARRAYS)
}

// Elements outside their array.
const OUTSIDE: &[Row] = &[
    (
        "run f",
        "int main() {\nint a[2];\nreturn a[2]; }",
        3,
        "",
        "trap 3 line 3\n",
    ),
    (
        "run f",
        "int main() {\nint a[2];\nreturn a[-1]; }",
        3,
        "",
        "trap 3 line 3\n",
    ),
    // the index is computed first, then the value, whose trap comes before the trap of the element
    (
        "run f",
        "int main() {\nint a[2];\nprint(5);\na[2] = 1 / 0;\nreturn 0; }",
        3,
        "5\n",
        "trap 2 line 4\n",
    ),
    (
        "run f",
        "int main() {\nint a[2];\na[1 + 1] =\n1;\nreturn 0; }",
        3,
        "",
        "trap 3 line 3\n",
    ),
    (
        "run f",
        "void f(int a[], int i) {\na[i] = 1; }\nint main() {\nint a[2];\ncilk_spawn f(a, 2);\nprint(1);\ncilk_sync;\nreturn 0; }",
        3,
        "",
        "trap 3 line 2\n",
    ),
];

#[test]
fn traps_outside_an_array(rt: HostRuntime) -> Result<(), Fail> {
    all_hold_by_all(rt, "", OUTSIDE)
}

const TWO_REDUCERS: &str = "reducer sum up;
void add(int v) { up += v; down += 0 - v; print(v); }
int main() {
  int i = 0;
  while (i < 4) { cilk_spawn add(i); i = i + 1; }
  return 9;
}
reducer sum down;
reducer sum unused;
";

// values that were added before a trap are not reported
const ADDED_BEFORE_A_TRAP: &str =
    "reducer sum s; int main(int z) { s += 3; print(4); s += 1 / z; return 0; }";

// Sums, and what they cost.
const SUMS: &[Row] = &[
    // each spawn 1, each addition 2 and the end of its function 1, the sync 1, return 2
    (
        "run f --limit 11",
        SUMMED,
        0,
        "sum s = 18446744073709551614\nreturn 0\n",
        "",
    ),
    ("run f --limit 10", SUMMED, 4, "", "over limit\n"),
    (
        "run f",
        TWO_REDUCERS,
        0,
        "0\n1\n2\n3\nsum up = 6\nsum down = -6\nsum unused = 0\nreturn 9\n",
        "",
    ),
    ("run f 0", ADDED_BEFORE_A_TRAP, 3, "4\n", "trap 2 line 1\n"),
    (
        "run f 1",
        ADDED_BEFORE_A_TRAP,
        0,
        "4\nsum s = 4\nreturn 0\n",
        "",
    ),
];

#[test]
fn runs_sums(rt: HostRuntime) -> Result<(), Fail> {
    all_hold_by_all(rt, "", SUMS)
}
