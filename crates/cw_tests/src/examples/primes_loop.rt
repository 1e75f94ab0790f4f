//! The program examples/primes_loop.cilk and its reports.

use crate::examples::{Example, holds};
use std::test::Fail;

const EXAMPLE: Example = Example {
    words: "primes_loop.cilk 2000",
    source: "// Counts the primes below n like primes_each.cilk, with a cilk_for that is halved down to 125 numbers.
// cilkwork run primes_loop.cilk 2000
// There are 303 primes below 2000.

reducer sum primes;

void test(int n) {
  int d = 2;
  if (n < 2) {
    return;
  }
  while (d * d <= n) {
    if (n % d == 0) {
      return;
    }
    d = d + 1;
  }
  primes += 1;
}

int main(int n) {
  cilk_for (int i = 0; i < n; i++) grain 125 {
    test(i);
  }
  return 0;
}
",
    run: "sum primes = 303
return 0
",
    scale: "tag,work,span,parallelism,burdened_span,burdened_parallelism
,262242,21022,12.474,81022,3.236
",
    sites: "site,kind,line,callee,calls,own_work,own_span,work,span
0,root,21,main,1,26544,1728,262242,21022
1,call,23,test,2000,235698,19294,235698,235698
",
    gain: "function,line,calls,own_work,own_span,span_if_free,parallelism_if_free,burdened_span_if_free
,0,0,262242,21022,21022,12.474,81022
test,7,2000,235698,19294,1728,151.760,61728
main,21,1,26544,1728,19294,13.591,79294
",
    greedy: "processors,work,span,greedy
8,262242,21022,38006
",
    speedup: "processors,steps,speedup,speedup_bound,burdened_steps,burdened_speedup
1,262242,1.000,1.000,262242,1.000
2,134558,1.948,2.000,171632,1.527
4,71058,3.690,4.000,126327,2.075
8,38006,6.900,8.000,103674,2.529
16,21022,12.474,12.474,92348,2.839
32,21022,12.474,12.474,86685,3.025
64,21022,12.474,12.474,83853,3.127
",
};

#[test]
fn reports_as_expected(rt: HostRuntime) -> Result<(), Fail> {
    holds(rt, &EXAMPLE)
}
