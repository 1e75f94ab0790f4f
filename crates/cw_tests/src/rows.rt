//! Runs of small programs, from the words to the exit status.

use crate::program::{Row, all_hold, all_hold_by_all, answers};
use std::test::Fail;

const SPAWN: &str =
    "int f(int v) { return v; } int main() { int x = 0; x = cilk_spawn f(1); cilk_sync; return x; }";

const LONG_NAME: &str = "int f(int v) { return v; } int main() { \
int n012345678901234567890123456789012345678901234567890123456789012 = 0; \
n012345678901234567890123456789012345678901234567890123456789012 = cilk_spawn f(1); cilk_sync; \
return n012345678901234567890123456789012345678901234567890123456789012; } // end";

const ECHO: &str = "int main(int n) { return n; }";

const CHAIN: &str = "int a(int v) { return v; }
int b(int v) { int x = 0; x = a(v); return x; }
int c(int v, int w) { int x = 0; int y = 0; x = cilk_spawn b(w); y = b(v); cilk_sync; return x; }
int main(int n) { int r = 7; r = c(n, 5); return r; }
";

// two programs of examples/, and the first one with a use of a taken name in line 13
const SPAWNED: &str = "// A spawned call may run beside what follows it, up to the sync.
// cilkwork run spawned.cilk

int same(int v) {
  return v;
}

int main() {
  int x = 0;
  int y = 0;
  x = cilk_spawn same(41);
  y = same(1);
  cilk_sync;
  return x;
}
";

const LATER: &str = "// main takes two arguments; two calls are spawned before one sync.
// cilkwork run later.cilk 3 4

int first(int a, int b) {
  return a;
}

int second(int a, int b) {
  return b;
}

int main(int a, int b) {
  int x = 0;
  int y = 0;
  x = cilk_spawn second(a, b);
  y = cilk_spawn first(a, b);
  cilk_sync;
  int z = 0;
  z = second(y, x);
  return z;
}
";

const TAKEN: &str = "// A spawned call may run beside what follows it, up to the sync.
// cilkwork run spawned.cilk

int same(int v) {
  return v;
}

int main() {
  int x = 0;
  int y = 0;
  x = cilk_spawn same(41);
  y = same(1);
  int z = x;
  cilk_sync;
  return x;
}
";

const GREATEST: &str = "return 9223372036854775807\n";

// Runs of a `main` without parameters, and what they cost.
const WITHOUT: &[Row] = &[
    ("run f", SPAWN, 0, "return 1\n", ""),
    // main costs 2 to declare, 2 to spawn, 1 to join and 2 to return; f costs 2
    ("run f --limit 9", SPAWN, 0, "return 1\n", ""),
    ("run f --limit 8", SPAWN, 4, "", "over limit\n"),
    ("run f --limit 1", SPAWN, 4, "", "over limit\n"),
    // the burden does not change a run
    ("run f --limit 9 --burden 0", SPAWN, 0, "return 1\n", ""),
    // a name of 64 bytes, and a comment that ends with the source
    ("run f", LONG_NAME, 0, "return 1\n", ""),
    ("run f 1", SPAWN, 5, "", "arguments\n"),
];

#[test]
fn runs(rt: HostRuntime) -> Result<(), Fail> {
    all_hold_by_all(rt, "", WITHOUT)
}

// Runs of a `main` with a parameter.
const WITH: &[Row] = &[
    ("run f 9223372036854775807", ECHO, 0, GREATEST, ""),
    ("run f 9223372036854775807 --limit 2", ECHO, 0, GREATEST, ""),
    ("run f 0 --limit 1", ECHO, 4, "", "over limit\n"),
    // a wrong number of arguments is reported before the run
    ("run f", ECHO, 5, "", "arguments\n"),
    ("run f --limit 1", ECHO, 5, "", "arguments\n"),
    ("run f 1 2", ECHO, 5, "", "arguments\n"),
    ("run f 9223372036854775808", ECHO, 5, "", "arguments\n"),
    // a costs 2, b costs 6 plus a, c costs 11 plus twice b, main costs 7 plus c
    ("run f 3 --limit 34", CHAIN, 0, "return 5\n", ""),
    ("run f 3 --limit 33", CHAIN, 4, "", "over limit\n"),
];

#[test]
fn runs_on_arguments(rt: HostRuntime) -> Result<(), Fail> {
    all_hold_by_all(rt, "", WITH)
}

const CHECKED: &[Row] = &[
    ("check f", SPAWN, 0, "ok\n", ""),
    ("check f", LATER, 0, "ok\n", ""),
    // main takes an argument, which a check does not read
    ("check f", ECHO, 0, "ok\n", ""),
    ("check f", TAKEN, 2, "", "refused 4 line 13\n"),
    (
        "check f",
        "int main() { return x; }",
        2,
        "",
        "refused 3 line 1\n",
    ),
    ("check f", "", 2, "", "refused 2 line 1\n"),
];

#[test]
fn checks(rt: HostRuntime) -> Result<(), Fail> {
    all_hold(rt, CHECKED)
}

// A byte that is not ASCII.
#[test]
fn checks_bytes(rt: HostRuntime) -> Result<(), Fail> {
    let is_rejected = answers(rt, "check f", b"\n\xff", 2, "", "refused 1 line 2\n")?;
    assert!(rt; is_rejected);
    Ok(())
}

const EXAMPLES: &[Row] = &[
    ("run spawned.cilk", SPAWNED, 0, "return 41\n", ""),
    ("run spawned.cilk --limit 15", SPAWNED, 0, "return 41\n", ""),
    (
        "run spawned.cilk --limit 14",
        SPAWNED,
        4,
        "",
        "over limit\n",
    ),
    ("run spawned.cilk", TAKEN, 2, "", "refused 4 line 13\n"),
    ("run later.cilk 3 4", LATER, 0, "return 4\n", ""),
];

#[test]
fn runs_the_examples(rt: HostRuntime) -> Result<(), Fail> {
    all_hold(rt, EXAMPLES)
}
