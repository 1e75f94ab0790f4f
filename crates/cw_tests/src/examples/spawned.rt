//! The program examples/spawned.cilk and its reports.

use crate::examples::{Example, holds};
use std::test::Fail;

const EXAMPLE: Example = Example {
    words: "spawned.cilk",
    source: "// A spawned call may run in parallel with the statements after it, up to the sync. The result is 41.
// cilkwork run spawned.cilk

int same(int v) {
  return v;
}

int main() {
  int x = 0;
  int y = 0;
  x = cilk_spawn same(41);
  y = same(1);
  cilk_sync;
  return x;
}
",
    run: "return 41
",
    scale: "tag,work,span,parallelism,burdened_span,burdened_parallelism
,15,13,1.153,15013,0.000
",
    sites: "site,kind,line,callee,calls,own_work,own_span,work,span
0,root,8,main,1,11,11,15,13
1,spawn,11,same,1,2,0,2,2
2,call,12,same,1,2,2,2,2
",
    gain: "function,line,calls,own_work,own_span,span_if_free,parallelism_if_free,burdened_span_if_free
,0,0,15,13,13,1.153,15013
main,8,1,11,11,2,7.500,15002
same,4,2,4,2,11,1.363,15011
",
    greedy: "processors,work,span,greedy
8,15,13,13
",
    speedup: "processors,steps,speedup,speedup_bound,burdened_steps,burdened_speedup
1,15,1.000,1.000,15,1.000
2,13,1.153,1.153,7514,0.001
4,13,1.153,1.153,11263,0.001
8,13,1.153,1.153,13138,0.001
16,13,1.153,1.153,14075,0.001
32,13,1.153,1.153,14544,0.001
64,13,1.153,1.153,14778,0.001
",
};

#[test]
fn reports_as_expected(rt: HostRuntime) -> Result<(), Fail> {
    holds(rt, &EXAMPLE)
}
