//! The program examples/fib.cilk and its reports.

use crate::examples::{Example, holds};
use std::test::Fail;

const EXAMPLE: Example = Example {
    words: "fib.cilk 20",
    source: "// Computes the n-th Fibonacci number by recursion. Each call spawns one of its two calls, however small it is;
// fib_cutoff.cilk does not spawn small calls.
// cilkwork run fib.cilk 20
// The sequence 0, 1, 1, 2, 3, 5, .. has 6765 at index 20.

int fib(int n) {
  if (n < 2) {
    return n;
  }
  int x = 0;
  int y = 0;
  x = cilk_spawn fib(n - 1);
  y = fib(n - 2);
  cilk_sync;
  return x + y;
}

int main(int n) {
  int r = 0;
  r = fib(n);
  return r;
}
",
    run: "return 6765
",
    scale: "tag,work,span,parallelism,burdened_span,burdened_parallelism
,295527,339,871.761,150222,1.967
",
    sites: "site,kind,line,callee,calls,own_work,own_span,work,span
0,root,18,main,1,6,6,295527,339
1,spawn,12,fib,10945,167130,310,295305,1626
2,call,13,fib,10945,128370,6,295116,2783
3,call,20,fib,1,21,17,295521,333
",
    gain: "function,line,calls,own_work,own_span,span_if_free,parallelism_if_free,burdened_span_if_free
,0,0,295527,339,339,871.761,150222
fib,6,21891,295521,333,6,49254.500,150006
main,18,1,6,6,333,887.468,150216
",
    greedy: "processors,work,span,greedy
8,295527,339,37026
",
    speedup: "processors,steps,speedup,speedup_bound,burdened_steps,burdened_speedup
1,295527,1.000,1.000,295527,1.000
2,147800,1.999,2.000,222874,1.325
4,73959,3.995,4.000,186548,1.584
8,37026,7.981,8.000,168385,1.755
16,18586,15.900,16.000,159303,1.855
32,9366,31.553,32.000,154762,1.909
64,4777,61.864,64.000,152492,1.937
",
};

#[test]
fn reports_as_expected(rt: HostRuntime) -> Result<(), Fail> {
    holds(rt, &EXAMPLE)
}
