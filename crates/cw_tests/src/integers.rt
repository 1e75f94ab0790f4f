//! Runs of programs with integers: control flow, recursion, traps, printed values and sync blocks. The limits are
//! exact: with one instruction less the run exceeds its limit.

use crate::program::{Row, all_hold, answers};
use crate::tables::{DIVIDED, FIB, PRINTED, TAGGED};
use std::alloc::{AllocError, Global};
use std::process::Abort;
use std::sync::Wait;
use std::test::Fail;
use std::thread::Threads;

// a division in a spawned call, parallel to an endless loop
const DIVISION_BESIDE_A_LOOP: &str = "int bad(int z) { int q = 0; q = 1 / z; return q; }
int main(int z) { cilk_spawn bad(z); while (1) { } cilk_sync; return 0; }
";

const EARLY_PRINT: &str = "int f(int v) { return v; } \
int main() { int x = 0; x = cilk_spawn f(1); print(x); cilk_sync; return 0; }";

const LATE_PRINT: &str = "int f(int v) { return v; } \
int main() { int x = 0; x = cilk_spawn f(1); cilk_sync; print(x); cilk_sync; return 0; }";

const ENDLESS: &str = "int f(int n) { int r = 0; r = f(n + 1); return r; } \
int main() { int r = 0; r = f(0); return r; }";

const IN_A_SCOPE: &str = "int f(int v) { return v; } \
int main() { int x = 0; cilk_scope { x = cilk_spawn f(5); } return x; }";

// a chain of spawned calls, each in the one before
const CHAIN: &str =
    "int f(int n) { if (n < 1) { return 0; } int x = 0; x = cilk_spawn f(n - 1); cilk_sync; return x + 1; } \
int main(int n) { int r = 0; r = f(n); return r; }";

const PRINT_BEFORE_A_TRAP: &str = "int main(int z) {
  print(1);
  print(0 - 2);
  int q = 0;
  q = 1 / z;
  print(3);
  return q;
}
";

const OPERATORS: &str = "int main() {
  print(7 / -2);
  print(-7 % 2);
  print(2 < 2);
  print(2 <= 2);
  print(3 > 2);
  print(2 >= 3);
  print(2 == 2);
  print(2 != 2);
  print(!0);
  print(!5);
  print(2 + 3 * 4 - 5);
  return 0;
}
";

const BRANCHES: &str =
    "int main() { int i = 0; while (i < 2) { if (i == 0) { print(7); } else { print(8); } i = i + 1; } return i; }";

// two programs of examples/
const PRIMES: &str =
    "// How many primes lie below n: ranges are halved down to 16 numbers, and the first half is spawned.
// cilkwork run primes.cilk 1000
// There are 168 primes below 1000.

int is_prime(int n) {
  if (n < 2) {
    return 0;
  }
  int d = 2;
  while (d * d <= n) {
    if (n % d == 0) {
      return 0;
    }
    d = d + 1;
  }
  return 1;
}

int primes(int from, int to) {
  int count = 0;
  if (to - from <= 16) {
    int p = 0;
    while (from < to) {
      p = is_prime(from);
      count = count + p;
      from = from + 1;
    }
    return count;
  }
  int middle = from + (to - from) / 2;
  int rest = 0;
  count = cilk_spawn primes(from, middle);
  rest = primes(middle, to);
  cilk_sync;
  return count + rest;
}

int main(int n) {
  int count = 0;
  count = primes(0, n);
  return count;
}
";

const COLLATZ: &str =
    "// For each number from 1 to n, the steps that halving and tripling take to reach 1; prints the steps of each
// number, in the order of the numbers, whatever runs beside what.
// cilkwork run collatz.cilk 5
// 1: 0 steps; 2: 1; 3, 10, 5, 16, 8, 4, 2, 1: 7; 4: 2; 5, 16, 8, 4, 2, 1: 5.

void collatz(int n) {
  int count = 0;
  while (n != 1) {
    if (n % 2 == 0) {
      n = n / 2;
    } else {
      n = 3 * n + 1;
    }
    count = count + 1;
  }
  print(count);
}

int main(int n) {
  int i = 1;
  while (i <= n) {
    cilk_spawn collatz(i);
    i = i + 1;
  }
  cilk_sync;
  return 0;
}
";

// A recursion with spawns.
const RECURSION: &[Row] = &[
    // fib costs 21 above its base case, which costs 6, and main costs 6
    ("run f 0 --limit 12", FIB, 0, "return 0\n", ""),
    ("run f 0 --limit 11", FIB, 4, "", "over limit\n"),
    ("run f 4 --limit 120", FIB, 0, "return 3\n", ""),
    ("run f 4 --limit 119", FIB, 4, "", "over limit\n"),
    ("run f 20", FIB, 0, "return 6765\n", ""),
    ("run f", FIB, 5, "", "arguments\n"),
];

#[test]
fn runs_recursion(rt: HostRuntime) -> Result<(), Fail> {
    all_hold(rt, RECURSION)
}

// Branches, loops and deep calls.
const CONTROL: &[Row] = &[
    ("run f --limit 39", BRANCHES, 0, "7\n8\nreturn 2\n", ""),
    ("run f --limit 38", BRANCHES, 4, "", "over limit\n"),
    // each call of f that spawns costs 14 plus the next call, the last call 6, and main 6
    ("run f 9998 --limit 149982", CHAIN, 0, "return 9998\n", ""),
    ("run f 9998 --limit 149981", CHAIN, 4, "", "over limit\n"),
    ("run f 9999", CHAIN, 3, "", "trap 6 line 1\n"),
    // main costs 4, and each of 9,999 calls of f costs 6
    ("run f", ENDLESS, 3, "", "trap 6 line 1\n"),
    ("run f --limit 59998", ENDLESS, 3, "", "trap 6 line 1\n"),
    ("run f --limit 59997", ENDLESS, 4, "", "over limit\n"),
    (
        "run f --limit 1000000",
        "int main() { while (1) { } return 0; }",
        4,
        "",
        "over limit\n",
    ),
];

#[test]
fn runs_control_flow(rt: HostRuntime) -> Result<(), Fail> {
    all_hold(rt, CONTROL)
}

// Divisions, and what is printed before a trap.
const DIVISIONS: &[Row] = &[
    ("run f 1 --limit 15", DIVIDED, 0, "7\nreturn 0\n", ""),
    ("run f 1 --limit 14", DIVIDED, 4, "", "over limit\n"),
    ("run f 0", DIVIDED, 3, "", "trap 2 line 1\n"),
    ("run f 0 --limit 7", DIVIDED, 3, "", "trap 2 line 1\n"),
    ("run f 0 --limit 6", DIVIDED, 4, "", "over limit\n"),
    (
        "run f 0 --limit 1000000",
        DIVISION_BESIDE_A_LOOP,
        3,
        "",
        "trap 2 line 1\n",
    ),
    (
        "run f 0",
        PRINT_BEFORE_A_TRAP,
        3,
        "1\n-2\n",
        "trap 2 line 5\n",
    ),
    (
        "run f 1",
        PRINT_BEFORE_A_TRAP,
        0,
        "1\n-2\n3\nreturn 1\n",
        "",
    ),
];

#[test]
fn runs_divisions(rt: HostRuntime) -> Result<(), Fail> {
    all_hold(rt, DIVISIONS)
}

// Sums that exceed the maximum, and each operator.
const OPERATIONS: &[Row] = &[
    (
        "run f",
        "int main() { return 9223372036854775807 + 1; }",
        3,
        "",
        "trap 1 line 1\n",
    ),
    (
        "run f --limit 2",
        "int main() { return 9223372036854775807 + 1; }",
        4,
        "",
        "over limit\n",
    ),
    (
        "run f",
        OPERATORS,
        0,
        "-3\n-1\n0\n1\n1\n0\n1\n0\n1\n0\n9\nreturn 0\n",
        "",
    ),
];

#[test]
fn runs_operators(rt: HostRuntime) -> Result<(), Fail> {
    all_hold(rt, OPERATIONS)
}

// The lines that spawned calls print, and the places where their values may be used.
const BLOCKS: &[Row] = &[
    ("run f --limit 15", PRINTED, 0, "1\n2\n3\nreturn 0\n", ""),
    ("run f --limit 14", PRINTED, 4, "", "over limit\n"),
    ("run f", EARLY_PRINT, 2, "", "refused 4 line 1\n"),
    ("run f --limit 12", LATE_PRINT, 0, "1\nreturn 0\n", ""),
    ("run f --limit 11", TAGGED, 0, "1\n2\nreturn 0\n", ""),
    ("run f --limit 10", TAGGED, 4, "", "over limit\n"),
    // declare 2, scope 1, spawn 2 and f 2, the scope's end 1, return 2
    ("run f --limit 10", IN_A_SCOPE, 0, "return 5\n", ""),
    ("run f --limit 9", IN_A_SCOPE, 4, "", "over limit\n"),
];

#[test]
fn runs_sync_blocks(rt: HostRuntime) -> Result<(), Fail> {
    all_hold(rt, BLOCKS)
}

// The words, what opens an operand, the operand, what closes it, the number of repetitions, and the expected status
// and output.
type Deep = (
    &'static str,
    &'static str,
    &'static str,
    &'static str,
    usize,
    u8,
    &'static str,
    &'static str,
);

const DEEPEST: &[Deep] = &[
    ("run f", "(", "0", ")", 63, 0, "return 0\n", ""),
    ("run f", "(", "0", ")", 64, 2, "", "refused 5 line 1\n"),
    ("run f --limit 256", "-", "1", "", 254, 0, "return 1\n", ""),
    (
        "run f --limit 255",
        "-",
        "1",
        "",
        254,
        4,
        "",
        "over limit\n",
    ),
    ("run f", "-", "1", "", 255, 2, "", "refused 5 line 1\n"),
];

fn add_often(text: &mut String, part: &str, count: usize) -> Result<(), AllocError> {
    for _ in 0..count {
        text.push_str(part)?;
    }
    Ok(())
}

// Returns a program whose `main` returns the operand in this number of signs or parentheses.
fn nested(alloc: Global, deep: &Deep) -> Result<String, AllocError> {
    let mut text = String::from_str(alloc, "int main() { return ")?;
    add_often(&mut text, deep.1, deep.4)?;
    text.push_str(deep.2)?;
    add_often(&mut text, deep.3, deep.4)?;
    text.push_str("; }")?;
    Ok(text)
}

// Returns whether the program with the operand has the expected status and output.
fn is_so_deep<R: AllocGlobal + Threads + Wait + Copy + Drop + Send + 'static>(
    rt: R,
    deep: &Deep,
) -> Result<bool, Fail> {
    let source = nested(rt.alloc(), deep)?;
    answers(rt, deep.0, source.as_bytes(), deep.5, deep.6, deep.7)
}

fn all_are_so_deep<R: Abort + AllocGlobal + Threads + Wait + Copy + Drop + Send + 'static>(
    rt: R,
    deepest: &[Deep],
) -> Result<(), Fail> {
    for deep in deepest {
        let is_so_deep = is_so_deep(rt, deep)?;
        assert!(rt; is_so_deep, "{} of {}", deep.4, deep.1);
    }
    Ok(())
}

#[test]
fn runs_the_deepest_expressions(rt: HostRuntime) -> Result<(), Fail> {
    all_are_so_deep(rt, DEEPEST)
}

const EXAMPLES: &[Row] = &[
    ("run primes.cilk 1000", PRIMES, 0, "return 168\n", ""),
    (
        "run collatz.cilk 5",
        COLLATZ,
        0,
        "0\n1\n7\n2\n5\nreturn 0\n",
        "",
    ),
];

#[test]
fn runs_the_examples(rt: HostRuntime) -> Result<(), Fail> {
    all_hold(rt, EXAMPLES)
}
