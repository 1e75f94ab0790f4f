//! The program examples/later.cilk and its reports.

use crate::examples::{Example, holds};
use std::test::Fail;

const EXAMPLE: Example = Example {
    words: "later.cilk 3 4",
    source: "// Spawns two calls before one sync. The result is its second argument: 4 for the arguments 3 and 4.
// cilkwork run later.cilk 3 4

int first(int a, int b) {
  return a;
}

int second(int a, int b) {
  return b;
}

int main(int a, int b) {
  int x = 0;
  int y = 0;
  x = cilk_spawn second(a, b);
  y = cilk_spawn first(a, b);
  cilk_sync;
  int z = 0;
  z = second(y, x);
  return z;
}
",
    run: "return 4
",
    scale: "tag,work,span,parallelism,burdened_span,burdened_parallelism
,24,22,1.090,30020,0.000
",
    sites: "site,kind,line,callee,calls,own_work,own_span,work,span
0,root,12,main,1,18,18,24,22
1,spawn,15,second,1,2,0,2,2
2,spawn,16,first,1,2,2,2,2
3,call,19,second,1,2,2,2,2
",
    gain: "function,line,calls,own_work,own_span,span_if_free,parallelism_if_free,burdened_span_if_free
,0,0,24,22,22,1.090,30020
main,12,1,18,18,4,6.000,30002
first,4,1,2,2,20,1.200,30020
second,8,2,4,2,20,1.200,30018
",
    greedy: "processors,work,span,greedy
8,24,22,22
",
    speedup: "processors,steps,speedup,speedup_bound,burdened_steps,burdened_speedup
1,24,1.000,1.000,24,1.000
2,22,1.090,1.090,15022,0.001
4,22,1.090,1.090,22521,0.001
8,22,1.090,1.090,26270,0.000
16,22,1.090,1.090,28145,0.000
32,22,1.090,1.090,29082,0.000
64,22,1.090,1.090,29551,0.000
",
};

#[test]
fn reports_as_expected(rt: HostRuntime) -> Result<(), Fail> {
    holds(rt, &EXAMPLE)
}
