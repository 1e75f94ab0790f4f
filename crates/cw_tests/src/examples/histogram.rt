//! The program examples/histogram.cilk and its reports.

use crate::examples::{Example, holds};
use std::test::Fail;

const EXAMPLE: Example = Example {
    words: "histogram.cilk 1000",
    source: "// Counts how many of n numbers are below 10, from 10 to 29, from 30 to 59, and above, with a reducer for each range.
// cilkwork run histogram.cilk 1000
// The numbers are (21 * i + 63) mod 100 for i from 0 on. Since 21 and 100 have no common divisor, each hundred of them
// contains each remainder once: 1000 numbers give 100, 200, 300 and 400.

reducer sum least;
reducer sum lower;
reducer sum upper;
reducer sum greatest;

int main(int n) {
  cilk_for (int i = 0; i < n; i++) grain 50 {
    int v = (21 * i + 63) % 100;
    if (v < 10) {
      least += 1;
    } else {
      if (v < 30) {
        lower += 1;
      } else {
        if (v < 60) {
          upper += 1;
        } else {
          greatest += 1;
        }
      }
    }
  }
  return 0;
}
",
    run: "sum least = 100
sum lower = 200
sum upper = 300
sum greatest = 400
return 0
",
    scale: "tag,work,span,parallelism,burdened_span,burdened_parallelism
,33104,1149,28.811,76149,0.434
",
    sites: "site,kind,line,callee,calls,own_work,own_span,work,span
0,root,11,main,1,33104,1149,33104,1149
",
    gain: "function,line,calls,own_work,own_span,span_if_free,parallelism_if_free,burdened_span_if_free
,0,0,33104,1149,1149,28.811,76149
main,11,1,33104,1149,0,0.000,75000
",
    greedy: "processors,work,span,greedy
8,33104,1149,4278
",
    speedup: "processors,steps,speedup,speedup_bound,burdened_steps,burdened_speedup
1,33104,1.000,1.000,33104,1.000
2,16587,1.995,2.000,54626,0.606
4,8438,3.923,4.000,65387,0.506
8,4278,7.738,8.000,70768,0.467
16,2196,15.074,16.000,73458,0.450
32,1149,28.811,28.811,74803,0.442
64,1149,28.811,28.811,75476,0.438
",
};

#[test]
fn reports_as_expected(rt: HostRuntime) -> Result<(), Fail> {
    holds(rt, &EXAMPLE)
}
