//! The program examples/roots_mended.cilk and its reports.

use crate::examples::{Example, holds};
use std::test::Fail;

const EXAMPLE: Example = Example {
    words: "roots_mended.cilk 4000",
    source: "// Computes the sum of the integer square roots of n numbers like roots.cilk: the iteration that needs a number makes it, and
// a reducer adds up the roots.
// cilkwork run roots_mended.cilk 4000
// The numbers are (421 * i + 1663) mod 7875. For 4000 of them the sum by Python's math.isqrt is 234691.

reducer sum roots;

int root(int v) {
  int low = 0;
  int high = 128;
  while (1 < high - low) {
    int middle = (low + high) / 2;
    if (middle * middle <= v) {
      low = middle;
    } else {
      high = middle;
    }
  }
  return low;
}

int main(int n) {
  region find_roots {
    cilk_for (int i = 0; i < n; i++) grain 125 {
      int r = 0;
      r = root((421 * i + 1663) % 7875);
      roots += r;
    }
  }
  return 0;
}
",
    run: "sum roots = 234691
return 0
",
    scale: "tag,work,span,parallelism,burdened_span,burdened_parallelism
,742552,23298,31.871,98297,7.554
find_roots,742548,23294,31.877,98293,7.554
",
    sites: "site,kind,line,callee,calls,own_work,own_span,work,span
0,root,22,main,1,93106,2992,742552,23298
1,call,26,root,4000,649446,20306,649446,649446
",
    gain: "function,line,calls,own_work,own_span,span_if_free,parallelism_if_free,burdened_span_if_free
,0,0,742552,23298,23298,31.871,98297
root,8,4000,649446,20306,3001,247.434,78001
main,22,1,93106,2992,20306,36.568,95296
",
    greedy: "processors,work,span,greedy
8,742552,23298,92888
",
    speedup: "processors,steps,speedup,speedup_bound,burdened_steps,burdened_speedup
1,742552,1.000,1.000,742552,1.000
2,371295,1.999,2.000,420424,1.766
4,185686,3.998,4.000,259360,2.863
8,92888,7.994,8.000,178828,4.152
16,46494,15.970,16.000,138562,5.358
32,23298,31.871,31.871,118429,6.270
64,23298,31.871,31.871,108363,6.852
",
};

#[test]
fn reports_as_expected(rt: HostRuntime) -> Result<(), Fail> {
    holds(rt, &EXAMPLE)
}
