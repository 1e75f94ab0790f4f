//! The text that follows the line of a fault on standard error, if the words ask for it.

use crate::program::{Row, all_hold};
use std::test::Fail;

// Words with `--explain`. The last case is without it: standard error has only the line of the fault.
const EXPLAINED: &[Row] = &[
    (
        "check --explain f",
        "int f() { return 1; }\nint main() {\n  int x = 0;\n  x = cilk_spawn f();\n  print(x);\n  cilk_sync;\n  return x;\n}",
        2,
        "",
        "refused 4 line 5\nf:5: this statement reads x, but the spawn in line 4 assigns to x at the next cilk_sync: write cilk_sync; before this statement\n  4 |   x = cilk_spawn f();\n  5 |   print(x);\n    |         ^\n",
    ),
    (
        "run f --explain",
        "int main() {\n  int x = 0;\n  return 1 / x;\n}",
        3,
        "",
        "trap 2 line 3\nf:3: division or remainder by 0: test the divisor first\n  3 |   return 1 / x;\nf:3: the operands of / are 1 and 0\nf:1: in main\n",
    ),
    (
        "--explain scale f 1",
        "int main(int n) {\n  return m;\n}",
        2,
        "",
        "refused 3 line 2\nf:2: m is not declared here: declare int m = 0; before this statement, in this block or one around it\n  2 |   return m;\n    |          ^\n",
    ),
    (
        "sites --limit 1 f --explain",
        "int main() {\n  return 1 + 1;\n}",
        4,
        "",
        "over limit\nf: the run costs more than its limit of 1 instructions: check that each while and each recursion ends, or raise the limit with --limit N, up to 4611686018427387904\n",
    ),
    (
        "sites f --explain 1",
        "int main() {\n  return 1 + 1;\n}",
        5,
        "",
        "arguments\nf:1: wrong number of arguments: main takes 0, and 1 follow the source\n",
    ),
    (
        "check f",
        "int main() {\n  return m;\n}",
        2,
        "",
        "refused 3 line 2\n",
    ),
];

// Words that are malformed numbers or out of range, each with its range. The last case is without `--explain`.
const MISUSED: &[Row] = &[
    (
        "run f --limit 0 --explain",
        "",
        5,
        "",
        "arguments\nerror: invalid value '0' for '--limit <N>': it is a number from 1 to 4611686018427387904, in decimal digits only\n",
    ),
    (
        "scale f --burden +1 --edges all --explain",
        "",
        5,
        "",
        "arguments\nerror: invalid value '+1' for '--burden <N>': it is a number from 0 to 1000000000, in decimal digits only\nerror: invalid value 'all' for '--edges <E>': it is spawn or both\n",
    ),
    (
        "gain f --top 65 --workers 65 --explain",
        "",
        5,
        "",
        "arguments\nerror: invalid value '65' for '--top <N>': it is a number from 1 to 64, in decimal digits only\nerror: invalid value '65' for '--workers <N>': it is a number from 1 to 64, in decimal digits only\n",
    ),
    (
        "greedy 0 f x --explain",
        "",
        5,
        "",
        "arguments\nerror: invalid value '0' for '<P>': it is a number from 1 to 1000000, in decimal digits only\nerror: invalid value 'x' for '[ARGS]...': it is a number from 0 to 9223372036854775807, in decimal digits only\n",
    ),
    (
        "page f --processors 0 --explain",
        "",
        5,
        "",
        "arguments\nerror: invalid value '0' for '--processors <N>': it is a number from 1 to 1000000, in decimal digits only\n",
    ),
    ("run f --limit 0", "", 5, "", "arguments\n"),
];

#[test]
fn tells_what_is_misused(rt: HostRuntime) -> Result<(), Fail> {
    all_hold(rt, MISUSED)
}

#[test]
fn explains_where_it_is_asked(rt: HostRuntime) -> Result<(), Fail> {
    all_hold(rt, EXPLAINED)
}

const ABOVE: &str = "int main(int n) {\n  return 9223372036854775807 + n;\n}";

const OUTSIDE: &str = "int get(const int a[], int i) {
  return a[i];
}
int both(const int a[], int i) {
  int x = 0;
  int y = 0;
  x = cilk_spawn get(a, i);
  y = get(a, 0);
  cilk_sync;
  return x + y;
}
int main(int n) {
  int a[n];
  int r = 0;
  r = both(a, n);
  return r;
}";

const ENDLESS: &str = "int f(int n) {
  int r = 0;
  r = f(n + 1);
  return r;
}
int main() {
  int r = 0;
  r = f(0);
  return r;
}";

// the sixth of eight iterations, in a call that each iteration makes
const IN_TURNS: &str = "reducer sum s;
void add(int i) {
  s += 6 / (i - 5);
}
int main(int n) {
  cilk_for (int i = 0; i < n; i++) grain 1 {
    add(i);
  }
  return 0;
}";

const BEHIND: &str = "int main(int n) {
  int a[4];
  int b[6];
  cilk_for (int i = 1; i < n; i++) over (b, a) {
    b[i] = a[i];
  }
  return 0;
}";

// f(1), g(2), f(4), g(5), f(10), ..: in call k from 0, f gets 3 * 2^k - 2 and g gets 3 * 2^k - 1; the first product above
// 2^63 - 1 is at k = 61, in the 62nd call of g
const IN_TURN: &str = "int f(int n) {
  int r = 0;
  r = g(n + 1);
  return r;
}
int g(int n) {
  int r = 0;
  r = f(n * 2);
  return r;
}
int main() {
  int r = 0;
  r = f(1);
  return r;
}";

const LOOPS_AND_CALLS: &str = "void walk(int n) {
  int x = 6 / n;
  cilk_for (int i = 0; i < 1; i++) {
    walk(n - 1);
  }
}
int main(int n) {
  walk(n);
  return 0;
}";

const FIVE: &str = "void a(int n) { b(n); }
void b(int n) { c(n); }
void c(int n) { d(n); }
void d(int n) { e(n); }
void e(int n) {
  int x = 1 / n;
  a(n - 1);
}
int main(int n) {
  a(n);
  return 0;
}";

// A trap of each kind with its values, and the calls and loops around it.
const TRAPPED: &[Row] = &[
    (
        "run f 1 --explain",
        ABOVE,
        3,
        "",
        "trap 1 line 2\nf:2: overflow: the result of an operation is below -2^63 or above 2^63 - 1: use smaller numbers\n  2 |   return 9223372036854775807 + n;\nf:2: the operands of + are 9223372036854775807 and 1\nf:1: in main\n",
    ),
    (
        "scale --workers 3 f 3 --explain",
        OUTSIDE,
        3,
        "",
        "trap 3 line 2\nf:2: an index, the position of a cut or the range of a loop is outside its array: compare it with len(..) first\n  2 |   return a[i];\nf:2: the index is 3, and the array's length is 3\nf:7: in get, spawned here\nf:15: in both, called here\nf:12: in main\n",
    ),
    (
        "run f --explain",
        "int main() {\n  int a[3];\n  cut a at 4 as l, r {\n  }\n  return 0;\n}",
        3,
        "",
        "trap 3 line 3\nf:3: an index, the position of a cut or the range of a loop is outside its array: compare it with len(..) first\n  3 |   cut a at 4 as l, r {\nf:3: the array is cut at 4, and its length is 3\nf:1: in main\n",
    ),
    (
        "gain f 5 --explain",
        BEHIND,
        3,
        "",
        "trap 3 line 4\nf:4: an index, the position of a cut or the range of a loop is outside its array: compare it with len(..) first\n  4 |   cilk_for (int i = 1; i < n; i++) over (b, a) {\nf:4: the range is 1 to 5, and the length of its shortest array is 4\nf:1: in main\n",
    ),
    (
        "sites f --explain",
        "int main() {\n  int a[0 - 1];\n  return 0;\n}",
        3,
        "",
        "trap 4 line 2\nf:2: the length of an array is below 0 or above 16777216: use a smaller one\n  2 |   int a[0 - 1];\nf:2: the length that is asked for is -1; it may be 0 to 16777216\nf:1: in main\n",
    ),
    (
        "run f --explain",
        "int main() {\n  cilk_for (int i = 0; i < 2147483648; i++) {\n  }\n  return 0;\n}",
        3,
        "",
        "trap 5 line 2\nf:2: a cilk_for has more than 2147483647 iterations: divide its range\n  2 |   cilk_for (int i = 0; i < 2147483648; i++) {\nf:2: the range is 0 to 2147483648, and a loop has at most 2147483647 iterations\nf:1: in main\n",
    ),
    (
        "greedy 2 f 8 --explain",
        IN_TURNS,
        3,
        "",
        "trap 2 line 3\nf:3: division or remainder by 0: test the divisor first\n  3 |   s += 6 / (i - 5);\nf:3: the operands of / are 6 and 0\nf:7: in add, called here\nf:6: in an iteration of this cilk_for\nf:5: in main\n",
    ),
    (
        "run f --explain",
        ENDLESS,
        3,
        "",
        "trap 6 line 3\nf:3: more than 10000 nested calls, main included: end the recursion earlier, or write a while\n  3 |   r = f(n + 1);\nf:3: the call of f is made at depth 10000, and the maximum is 10000\nf:3: in f, called here\nf:3: in f, called here\nf:3: in f, called here\nf: 9996 more calls of f\nf:6: in main\n",
    ),
    (
        "run f --explain",
        IN_TURN,
        3,
        "",
        "trap 1 line 8\nf:8: overflow: the result of an operation is below -2^63 or above 2^63 - 1: if remainders are enough, write a * b % m for a * b; otherwise use smaller numbers\n  8 |   r = f(n * 2);\nf:8: the operands of * are 6917529027641081855 and 2\nf:3: in g, called here\nf:8: in f, called here\nf:3: in g, called here\nf:8: in f, called here\nf:3: in g, called here\nf: 59 more calls of g\nf:8: in f, called here\nf: 59 more calls of f\nf:11: in main\n",
    ),
    (
        "run f 5 --explain",
        LOOPS_AND_CALLS,
        3,
        "",
        "trap 2 line 2\nf:2: division or remainder by 0: test the divisor first\n  2 |   int x = 6 / n;\nf:2: the operands of / are 6 and 0\nf:4: in walk, called here\nf:3: in an iteration of this cilk_for\nf:4: in walk, called here\nf:3: in an iteration of this cilk_for\nf:4: in walk, called here\nf: 3 more calls of walk\nf:3: in an iteration of this cilk_for\nf:3: 2 more iterations of this cilk_for\nf:7: in main\n",
    ),
    (
        "run f 3 --explain",
        LOOPS_AND_CALLS,
        3,
        "",
        "trap 2 line 2\nf:2: division or remainder by 0: test the divisor first\n  2 |   int x = 6 / n;\nf:2: the operands of / are 6 and 0\nf:4: in walk, called here\nf:3: in an iteration of this cilk_for\nf:4: in walk, called here\nf:3: in an iteration of this cilk_for\nf:4: in walk, called here\nf: 1 more call of walk\nf:3: in an iteration of this cilk_for\nf:7: in main\n",
    ),
    (
        "run f 2 --explain",
        FIVE,
        3,
        "",
        "trap 2 line 6\nf:6: division or remainder by 0: test the divisor first\n  6 |   int x = 1 / n;\nf:6: the operands of / are 1 and 0\nf:4: in e, called here\nf:3: in d, called here\nf:2: in c, called here\nf:1: in b, called here\nf:7: in a, called here\nf:4: in e, called here\nf:3: in d, called here\nf:2: in c, called here\nf:1: in b, called here\nf:7: in a, called here\nf:9: in main, and 5 more calls and loops\n",
    ),
];

#[test]
fn tells_the_values_of_traps(rt: HostRuntime) -> Result<(), Fail> {
    all_hold(rt, TRAPPED)
}
