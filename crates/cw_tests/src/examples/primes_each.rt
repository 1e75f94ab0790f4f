//! The program examples/primes_each.cilk and its reports.

use crate::examples::{Example, holds};
use std::test::Fail;

const EXAMPLE: Example = Example {
    words: "primes_each.cilk 2000",
    source: "// Counts the primes below n with a spawn for each number: each spawned call is too small to pay, and all spawns are on one
// path. primes_loop.cilk does the same work in a cilk_for.
// cilkwork run primes_each.cilk 2000
// There are 303 primes below 2000.

reducer sum primes;

void test(int n) {
  int d = 2;
  if (n < 2) {
    return;
  }
  while (d * d <= n) {
    if (n % d == 0) {
      return;
    }
    d = d + 1;
  }
  primes += 1;
}

int main(int n) {
  int i = 0;
  while (i < n) {
    cilk_spawn test(i);
    i = i + 1;
  }
  cilk_sync;
  return 0;
}
",
    run: "sum primes = 303
return 0
",
    scale: "tag,work,span,parallelism,burdened_span,burdened_parallelism
,257707,22746,11.329,30022009,0.008
",
    sites: "site,kind,line,callee,calls,own_work,own_span,work,span
0,root,22,main,1,22009,22000,257707,22746
1,spawn,25,test,2000,235698,746,235698,235698
",
    gain: "function,line,calls,own_work,own_span,span_if_free,parallelism_if_free,burdened_span_if_free
,0,0,257707,22746,22746,11.329,30022009
main,22,1,22009,22000,746,345.451,30000000
test,8,2000,235698,746,22009,11.709,30022009
",
    greedy: "processors,work,span,greedy
8,257707,22746,34053
",
    speedup: "processors,steps,speedup,speedup_bound,burdened_steps,burdened_speedup
1,257707,1.000,1.000,257707,1.000
2,129456,1.990,2.000,15139858,0.017
4,65433,3.938,4.000,22580933,0.011
8,34053,7.567,8.000,26301471,0.009
16,22879,11.263,11.329,28161740,0.009
32,22746,11.329,11.329,29091874,0.008
64,22746,11.329,11.329,29556941,0.008
",
};

#[test]
fn reports_as_expected(rt: HostRuntime) -> Result<(), Fail> {
    holds(rt, &EXAMPLE)
}
