//! Parallel loops: values, exact costs, traps and the limit on loops. The costs are stated in docs/LANGUAGE.md: a
//! leaf of `t` iterations costs 14, and 11 for each iteration in addition to its body; an inner node costs 21 + 5 q +
//! 2 k.

use crate::program::{Row, all_hold, all_hold_by_all, all_hold_with, answers};
use crate::tables::{GREATEST, SCALE};
use std::alloc::{AllocError, Global};
use std::process::Abort;
use std::sync::Wait;
use std::test::Fail;
use std::thread::Threads;

const SQUARES: &str = "int main() { int a[4]; \
cilk_for (int i = 0; i < 4; i++) grain 2 over (a) { a[i] = i * i; } return a[3]; }";

const ONE_TURN_MORE: &str = "int main() { int a[4]; \
cilk_for (int i = 0; i < 5; i++) grain 2 over (a) { a[i] = i * i; } return a[3]; }";

const FIVE_SQUARES: &str = "int main() { int a[5]; \
cilk_for (int i = 0; i < 5; i++) grain 2 over (a) { a[i] = i * i; } return a[4]; }";

const NO_TURN: &str = "int main() { int a[4]; \
cilk_for (int i = 9; i < 4; i++) grain 2 over (a) { a[i] = i * i; } return a[3]; }";

const MOST_TURNS: &str = "int main() { cilk_for (int i = 0; i < 2147483647; i++) { } return 0; }";

const TOO_MANY_TURNS: &str =
    "int main() { cilk_for (int i = 0; i < 2147483648; i++) { } return 0; }";

const ALL_NUMBERS: &str = "int main() { \
cilk_for (int i = -9223372036854775807 - 1; i < 9223372036854775807; i++) { } return 0; }";

const LAST_NUMBER: &str = "int main() { \
cilk_for (int i = 9223372036854775806; i < 9223372036854775807; i++) { } return 0; }";

const BELOW_ITS_ARRAY: &str = "int main() {
int a[4];
cilk_for (int i = -1; i < 3; i++)
over (a) { a[i] = i; }
return 0; }";

// the halves of two arrays, two captured integers, and a loop in a loop
const TWO_ARRAYS: &str = "int main() {
  int p = 3;
  int q = 4;
  int a[6];
  int b[9];
  cilk_for (int i = 1; i < 6; i++) grain 2 over (a, b) { b[i] = i * p; a[i] = b[i] + q; }
  return a[5] * 1000 + b[1] * 10 + a[0];
}
";

const NESTED: &str = "reducer sum s;
int main() {
  cilk_for (int i = 0; i < 4; i++) grain 1 {
    int n = i * 2;
    cilk_for (int j = n; j < n + 3; j++) grain 2 { s += i * 100 + j; print(j - i); }
  }
  return 7;
}
";

// an iteration is a sync block: its spawn is joined at its end
const SPAWNING: &str = "reducer sum s;
void add(int v) { s += v; }
int f(int v) { cilk_spawn add(v); return v * v; }
int main() {
  int a[5];
  cilk_for (int i = 0; i < 5; i++) over (a) {
    int x = 0;
    x = cilk_spawn f(i);
    cilk_sync;
    a[i] = x;
    cilk_spawn add(10);
  }
  return a[4] * 100 + a[3];
}
";

const GREATEST_OF_NONE: &str = "reducer max m; \
int main() { cilk_for (int i = 5; i < 3; i++) grain 2 { m max= i * (3 - i); } return 0; }";

// a sum between two maxima, and negative numbers
const BOTH_KINDS: &str = "reducer max top; reducer sum s; reducer max none;
int main() {
  cilk_for (int i = 1; i < 8; i++) grain 1 { top max= 0 - i * i; s += i; }
  return 0;
}
";

const DIVIDED: &str = "int main(int z) {
  cilk_for (int i = 0; i < 4; i++) grain 1 {
    print(i);
    if (i == 2) {
      print(7 / z);
    }
  }
  return 0;
}
";

// Loops with a limit equal to their cost, and with a limit that is one instruction less.
const LIMITS: &[Row] = &[
    ("run f --limit 134", SQUARES, 0, "return 9\n", ""),
    ("run f --limit 133", SQUARES, 4, "", "over limit\n"),
    // leaves of 2, 1 and 2 iterations
    ("run f --limit 192", FIVE_SQUARES, 0, "return 16\n", ""),
    ("run f --limit 191", FIVE_SQUARES, 4, "", "over limit\n"),
    ("run f --limit 22", NO_TURN, 0, "return 0\n", ""),
    ("run f --limit 21", NO_TURN, 4, "", "over limit\n"),
    ("run f --limit 3", MOST_TURNS, 4, "", "over limit\n"),
    ("run f --limit 30", LAST_NUMBER, 0, "return 0\n", ""),
    ("run f --limit 29", LAST_NUMBER, 4, "", "over limit\n"),
];

#[test]
fn parallel_loops_cost_what_their_turns_do(rt: HostRuntime) -> Result<(), Fail> {
    all_hold_by_all(rt, "", LIMITS)
}

// The results of loops.
const VALUES: &[Row] = &[
    ("run f", TWO_ARRAYS, 0, "return 19030\n", ""),
    (
        "run f",
        NESTED,
        0,
        "0\n1\n2\n1\n2\n3\n2\n3\n4\n3\n4\n5\nsum s = 1848\nreturn 7\n",
        "",
    ),
    ("run f", SPAWNING, 0, "sum s = 60\nreturn 1609\n", ""),
    ("run f 1", DIVIDED, 0, "0\n1\n2\n7\n3\nreturn 0\n", ""),
];

#[test]
fn runs_parallel_loops(rt: HostRuntime) -> Result<(), Fail> {
    all_hold_by_all(rt, "", VALUES)
}

// Loops with reducers of kind `max`.
const GREATESTS: &[Row] = &[
    (
        "run f --limit 122",
        GREATEST,
        0,
        "max m = 2\nreturn 0\n",
        "",
    ),
    ("run f --limit 121", GREATEST, 4, "", "over limit\n"),
    ("run f", GREATEST_OF_NONE, 0, "max m = none\nreturn 0\n", ""),
    (
        "run f",
        BOTH_KINDS,
        0,
        "max top = -1\nsum s = 28\nmax none = none\nreturn 0\n",
        "",
    ),
];

#[test]
fn parallel_loops_keep_the_greatest(rt: HostRuntime) -> Result<(), Fail> {
    all_hold_by_all(rt, "", GREATESTS)
}

// Loops that trap, or exceed their limit before they trap.
const TRAPS: &[Row] = &[
    ("run f", ONE_TURN_MORE, 3, "", "trap 3 line 1\n"),
    ("run f", BELOW_ITS_ARRAY, 3, "", "trap 3 line 3\n"),
    ("run f", TOO_MANY_TURNS, 3, "", "trap 5 line 1\n"),
    ("run f --limit 3", TOO_MANY_TURNS, 3, "", "trap 5 line 1\n"),
    ("run f --limit 2", TOO_MANY_TURNS, 4, "", "over limit\n"),
    ("run f", ALL_NUMBERS, 3, "", "trap 5 line 1\n"),
    ("run f 0", DIVIDED, 3, "0\n1\n2\n", "trap 2 line 5\n"),
    ("scale f 0", DIVIDED, 3, "", "trap 2 line 5\n"),
];

#[test]
fn parallel_loops_trap(rt: HostRuntime) -> Result<(), Fail> {
    all_hold_by_all(rt, "", TRAPS)
}

const ADDED: &str = "reducer sum s; \
int main() { cilk_for (int i = 0; i < 4; i++) grain 2 { s += i; } return 0; }";

const PRINTED: &str = "int main() { int a[4]; \
cilk_for (int i = 0; i < 4; i++) grain 2 over (a) { a[i] = i * i; } print(a[3]); return 0; }";

// The lines that these two programs print, and their tables.
const PRINTS: &[Row] = &[
    ("run f", ADDED, 0, "sum s = 6\nreturn 0\n", ""),
    ("run f", PRINTED, 0, "9\nreturn 0\n", ""),
];

const MEASURED: &[Row] = &[
    // statement 3, inner node 21, two leaves of 40, return 2
    ("scale f", ADDED, 0, ",106,66,1.606,15066,0.007\n", ""),
    // declaration 2, statement 3, inner node 26, two leaves of 50, print 3, return 2
    ("scale f", PRINTED, 0, ",136,86,1.581,15086,0.009\n", ""),
];

#[test]
fn measured_loops_print(rt: HostRuntime) -> Result<(), Fail> {
    all_hold(rt, PRINTS)
}

#[test]
fn parallel_loops_are_measured(rt: HostRuntime) -> Result<(), Fail> {
    all_hold_with(rt, "", SCALE, MEASURED)
}

// The costs of a loop with 0 to 40 iterations whose body costs 4, in a `main` that returns 0: a row for each grain
// from 1 to 9.
const COSTS: [[u32; 41]; 9] = [
    [
        19, 34, 84, 134, 184, 234, 284, 334, 384, 434, 484, 534, 584, 634, 684, 734, 784, 834, 884,
        934, 984, 1034, 1084, 1134, 1184, 1234, 1284, 1334, 1384, 1434, 1484, 1534, 1584, 1634,
        1684, 1734, 1784, 1834, 1884, 1934, 1984,
    ],
    [
        19, 34, 49, 99, 114, 164, 214, 229, 244, 294, 344, 394, 444, 459, 474, 489, 504, 554, 604,
        654, 704, 754, 804, 854, 904, 919, 934, 949, 964, 979, 994, 1009, 1024, 1074, 1124, 1174,
        1224, 1274, 1324, 1374, 1424,
    ],
    [
        19, 34, 49, 64, 114, 129, 144, 194, 244, 259, 274, 289, 304, 354, 404, 454, 504, 519, 534,
        549, 564, 579, 594, 609, 624, 674, 724, 774, 824, 874, 924, 974, 1024, 1039, 1054, 1069,
        1084, 1099, 1114, 1129, 1144,
    ],
    [
        19, 34, 49, 64, 79, 129, 144, 159, 174, 224, 274, 289, 304, 319, 334, 349, 364, 414, 464,
        514, 564, 579, 594, 609, 624, 639, 654, 669, 684, 699, 714, 729, 744, 794, 844, 894, 944,
        994, 1044, 1094, 1144,
    ],
    [
        19, 34, 49, 64, 79, 94, 144, 159, 174, 189, 204, 254, 304, 319, 334, 349, 364, 379, 394,
        409, 424, 474, 524, 574, 624, 639, 654, 669, 684, 699, 714, 729, 744, 759, 774, 789, 804,
        819, 834, 849, 864,
    ],
    [
        19, 34, 49, 64, 79, 94, 109, 159, 174, 189, 204, 219, 234, 284, 334, 349, 364, 379, 394,
        409, 424, 439, 454, 469, 484, 534, 584, 634, 684, 699, 714, 729, 744, 759, 774, 789, 804,
        819, 834, 849, 864,
    ],
    [
        19, 34, 49, 64, 79, 94, 109, 124, 174, 189, 204, 219, 234, 249, 264, 314, 364, 379, 394,
        409, 424, 439, 454, 469, 484, 499, 514, 529, 544, 594, 644, 694, 744, 759, 774, 789, 804,
        819, 834, 849, 864,
    ],
    [
        19, 34, 49, 64, 79, 94, 109, 124, 139, 189, 204, 219, 234, 249, 264, 279, 294, 344, 394,
        409, 424, 439, 454, 469, 484, 499, 514, 529, 544, 559, 574, 589, 604, 654, 704, 754, 804,
        819, 834, 849, 864,
    ],
    [
        19, 34, 49, 64, 79, 94, 109, 124, 139, 154, 204, 219, 234, 249, 264, 279, 294, 309, 324,
        374, 424, 439, 454, 469, 484, 499, 514, 529, 544, 559, 574, 589, 604, 619, 634, 649, 664,
        714, 764, 814, 864,
    ],
];

// Returns whether this number of iterations finishes within this limit and sums the squares of their numbers to
// `sum`.
fn ends<R: AllocGlobal + Threads + Wait + Copy + Drop + Send + 'static>(
    rt: R,
    source: &str,
    turns: u32,
    limit: u32,
    sum: u32,
) -> Result<bool, Fail> {
    let words = format!(in rt.alloc(); "run f {turns} --limit {limit}")?;
    let wanted = format!(in rt.alloc(); "sum s = {sum}\nreturn 0\n")?;
    answers(
        rt,
        words.as_str(),
        source.as_bytes(),
        0,
        wanted.as_str(),
        "",
    )
}

// Returns whether this number of iterations exceeds this limit.
fn is_over<R: AllocGlobal + Threads + Wait + Copy + Drop + Send + 'static>(
    rt: R,
    source: &str,
    turns: u32,
    limit: u32,
) -> Result<bool, Fail> {
    let words = format!(in rt.alloc(); "run f {turns} --limit {limit}")?;
    answers(rt, words.as_str(), source.as_bytes(), 4, "", "over limit\n")
}

// Returns a loop that sums squares, with this grain.
fn squares(alloc: Global, grain: u32) -> Result<String, AllocError> {
    format!(in alloc;
        "reducer sum s; int main(int n) {{ cilk_for (int i = 0; i < n; i++) grain {grain} {{ s += i * i; }} return 0; }}"
    )
}

// Checks the costs of the loop of this grain with 0, 1, 2, .. iterations: it finishes within the cost, and exceeds a
// limit of one less.
fn all_cost<R: Abort + AllocGlobal + Threads + Wait + Copy + Drop + Send + 'static>(
    rt: R,
    grain: u32,
    costs: &[u32],
) -> Result<(), Fail> {
    let source = squares(rt.alloc(), grain)?;
    let mut turns: u32 = 0;
    let mut sum: u32 = 0;
    for cost in costs {
        let ends = ends(rt, source.as_str(), turns, *cost, sum)?;
        let is_over = is_over(rt, source.as_str(), turns, cost.wrapping_sub(1))?;
        assert!(rt; ends && is_over, "{turns} turns with grain {grain}");
        sum = sum.wrapping_add(turns.wrapping_mul(turns));
        turns = turns.wrapping_add(1);
    }
    Ok(())
}

// Checks that the loops of the grains 1, 2, 3, .. have these costs.
fn all_grains_cost<R: Abort + AllocGlobal + Threads + Wait + Copy + Drop + Send + 'static>(
    rt: R,
    grains: &[[u32; 41]],
) -> Result<(), Fail> {
    let mut grain: u32 = 0;
    for costs in grains {
        grain = grain.wrapping_add(1);
        all_cost(rt, grain, costs.as_slice())?;
    }
    Ok(())
}

#[test]
fn every_short_range_costs_what_its_halves_do(rt: HostRuntime) -> Result<(), Fail> {
    all_grains_cost(rt, &COSTS)
}

const LOOP: &str = "cilk_for (int i = 0; i < 0; i++) { }\n";

// Appends a function of 256 loops.
fn add_function(alloc: Global, text: &mut String, number: u32) -> Result<(), AllocError> {
    let head = format!(in alloc; "void f{number}() {{\n")?;
    text.push_str(head.as_str())?;
    for _ in 0..256u32 {
        text.push_str(LOOP)?;
    }
    text.push_str("}\n")
}

// Returns calls of the 16 functions.
fn calls(alloc: Global) -> Result<String, AllocError> {
    let mut text = String::new(alloc);
    for number in 0..16u32 {
        let call = format!(in alloc; "f{number}(); ")?;
        text.push_str(call.as_str())?;
    }
    Ok(text)
}

// Returns a program of 16 functions of 256 loops each; its `main` has these loops and calls the functions.
fn loops(alloc: Global, own: &str) -> Result<String, AllocError> {
    let calls = calls(alloc)?;
    let mut text = String::new(alloc);
    for number in 0..16u32 {
        add_function(alloc, &mut text, number)?;
    }
    text.push_str("int main() {\n")?;
    text.push_str(own)?;
    text.push_str(calls.as_str())?;
    text.push_str("return 0; }")?;
    Ok(text)
}

// Test cases in which the source is the loops of `main`.
const MANY: &[Row] = &[
    // a call 1, each loop 3 and an empty leaf of 14, the end of a function 1; return 2
    ("run f --limit 69666", "", 0, "return 0\n", ""),
    ("run f --limit 69665", "", 4, "", "over limit\n"),
    // the 4,097th loop, after 16 functions of 258 lines and the head of `main`
    ("check f", LOOP, 2, "", "refused 5 line 4130\n"),
];

// Returns whether a test case holds for a program with many loops.
fn holds_of_many<R: AllocGlobal + Threads + Wait + Copy + Drop + Send + 'static>(
    rt: R,
    row: &Row,
) -> Result<bool, Fail> {
    let source = loops(rt.alloc(), row.1)?;
    answers(rt, row.0, source.as_bytes(), row.2, row.3, row.4)
}

// Checks that each of these test cases holds for a program with many loops.
fn all_hold_of_many<R: Abort + AllocGlobal + Threads + Wait + Copy + Drop + Send + 'static>(
    rt: R,
    rows: &[Row],
) -> Result<(), Fail> {
    for row in rows {
        let holds = holds_of_many(rt, row)?;
        assert!(rt; holds, "{}", row.0);
    }
    Ok(())
}

#[test]
fn refuses_too_many_loops(rt: HostRuntime) -> Result<(), Fail> {
    all_hold_of_many(rt, MANY)
}
