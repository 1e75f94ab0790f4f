//! The program examples/fib_cutoff.cilk and its reports.

use crate::examples::{Example, holds};
use std::test::Fail;

const EXAMPLE: Example = Example {
    words: "fib_cutoff.cilk 20",
    source: "// Computes the n-th Fibonacci number like fib.cilk, with a cut-off: a call with n < 14 does not spawn.
// cilkwork run fib_cutoff.cilk 20
// The sequence 0, 1, 1, 2, 3, 5, .. has 6765 at index 20.

int serial(int n) {
  if (n < 2) {
    return n;
  }
  int x = 0;
  int y = 0;
  x = serial(n - 1);
  y = serial(n - 2);
  return x + y;
}

int fib(int n) {
  int x = 0;
  int y = 0;
  if (n < 14) {
    x = serial(n);
    return x;
  }
  x = cilk_spawn fib(n - 1);
  y = fib(n - 2);
  cilk_sync;
  return x + y;
}

int main(int n) {
  int r = 0;
  r = fib(n);
  return r;
}
",
    run: "return 6765
",
    scale: "tag,work,span,parallelism,burdened_span,burdened_parallelism
,285023,9919,28.735,66140,4.309
",
    sites: "site,kind,line,callee,calls,own_work,own_span,work,span
0,root,29,main,1,6,6,285023,9919
1,call,11,serial,10912,159706,5504,279632,279632
2,call,12,serial,10912,123530,4258,275812,275812
3,call,20,serial,34,680,20,283916,283916
4,spawn,23,fib,33,576,114,278883,39380
5,call,24,fib,33,504,0,275076,65069
6,call,31,fib,1,21,17,285017,9913
",
    gain: "function,line,calls,own_work,own_span,span_if_free,parallelism_if_free,burdened_span_if_free
,0,0,285023,9919,9919,28.735,66140
serial,5,21858,283916,9782,141,2021.439,60102
fib,16,67,1101,131,9788,29.119,66044
main,29,1,6,6,9913,28.752,66134
",
    greedy: "processors,work,span,greedy
8,285023,9919,39332
",
    speedup: "processors,steps,speedup,speedup_bound,burdened_steps,burdened_speedup
1,285023,1.000,1.000,285023,1.000
2,144391,1.973,2.000,175581,1.623
4,74853,3.807,4.000,120860,2.358
8,39332,7.246,8.000,93500,3.048
16,21992,12.960,16.000,79820,3.570
32,15918,17.905,28.735,72980,3.905
64,9919,28.735,28.735,69560,4.097
",
};

#[test]
fn reports_as_expected(rt: HostRuntime) -> Result<(), Fail> {
    holds(rt, &EXAMPLE)
}
