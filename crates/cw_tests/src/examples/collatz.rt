//! The program examples/collatz.cilk and its reports.

use crate::examples::{Example, holds};
use std::test::Fail;

const EXAMPLE: Example = Example {
    words: "collatz.cilk 5",
    source: "// Computes, for each number from 1 to n, the number of Collatz steps to 1 (halve, or triple and add 1), and prints them in
// the order of the numbers, also when the spawned calls run in another order.
// cilkwork run collatz.cilk 5
// By hand: 1: 0 steps; 2: 1; 3, 10, 5, 16, 8, 4, 2, 1: 7; 4: 2; 5, 16, 8, 4, 2, 1: 5.

void collatz(int n) {
  int count = 0;
  while (n != 1) {
    if (n % 2 == 0) {
      n = n / 2;
    } else {
      n = 3 * n + 1;
    }
    count = count + 1;
  }
  print(count);
}

int main(int n) {
  int i = 1;
  while (i <= n) {
    cilk_spawn collatz(i);
    i = i + 1;
  }
  cilk_sync;
  return 0;
}
",
    run: "0
1
7
2
5
return 0
",
    scale: "tag,work,span,parallelism,burdened_span,burdened_parallelism
,412,184,2.239,75064,0.005
",
    sites: "site,kind,line,callee,calls,own_work,own_span,work,span
0,root,19,main,1,64,33,412,184
1,spawn,22,collatz,5,348,151,348,348
",
    gain: "function,line,calls,own_work,own_span,span_if_free,parallelism_if_free,burdened_span_if_free
,0,0,412,184,184,2.239,75064
collatz,6,5,348,151,64,6.437,75064
main,19,1,64,33,151,2.728,75000
",
    greedy: "processors,work,span,greedy
8,412,184,184
",
    speedup: "processors,steps,speedup,speedup_bound,burdened_steps,burdened_speedup
1,412,1.000,1.000,412,1.000
2,232,1.775,2.000,37738,0.010
4,184,2.239,2.239,56401,0.007
8,184,2.239,2.239,65732,0.006
16,184,2.239,2.239,70398,0.005
32,184,2.239,2.239,72731,0.005
64,184,2.239,2.239,73897,0.005
",
};

#[test]
fn reports_as_expected(rt: HostRuntime) -> Result<(), Fail> {
    holds(rt, &EXAMPLE)
}
