//! The program examples/roots.cilk and its reports.

use crate::examples::{Example, holds};
use std::test::Fail;

const EXAMPLE: Example = Example {
    words: "roots.cilk 4000",
    source: "// Computes the sum of the integer square roots of n numbers. One call makes the numbers, a loop finds the roots in parallel,
// and one call adds them up. Both calls are serial; roots_mended.cilk has neither.
// cilkwork run roots.cilk 4000
// The numbers are (421 * i + 1663) mod 7875. For 4000 of them the sum by Python's math.isqrt is 234691.

void fill(int a[]) {
  int i = 0;
  while (i < len(a)) {
    a[i] = (421 * i + 1663) % 7875;
    i = i + 1;
  }
}

int root(int v) {
  int low = 0;
  int high = 128;
  while (1 < high - low) {
    int middle = (low + high) / 2;
    if (middle * middle <= v) {
      low = middle;
    } else {
      high = middle;
    }
  }
  return low;
}

int total(int a[]) {
  int i = 0;
  int t = 0;
  while (i < len(a)) {
    t = t + a[i];
    i = i + 1;
  }
  return t;
}

int main(int n) {
  int a[n];
  int t = 0;
  region fill_numbers {
    fill(a);
  }
  region find_roots {
    cilk_for (int i = 0; i < n; i++) grain 125 over (a) {
      int r = 0;
      r = root(a[i]);
      a[i] = r;
    }
  }
  region add_up {
    t = total(a);
  }
  return t;
}
",
    run: "return 234691
",
    scale: "tag,work,span,parallelism,burdened_span,burdened_parallelism
,870734,151350,5.753,226349,3.846
fill_numbers,72008,72008,1.000,72008,1.000
find_roots,742703,23319,31.849,98318,7.554
add_up,56011,56011,1.000,56011,1.000
",
    sites: "site,kind,line,callee,calls,own_work,own_span,work,span
0,root,38,main,1,93271,3027,870734,151350
1,call,42,fill,1,72007,72007,72007,72007
2,call,47,root,4000,649446,20306,649446,649446
3,call,52,total,1,56010,56010,56010,56010
",
    gain: "function,line,calls,own_work,own_span,span_if_free,parallelism_if_free,burdened_span_if_free
,0,0,870734,151350,151350,5.753,226349
fill,6,1,72007,72007,79343,10.974,154342
total,28,1,56010,56010,95340,9.132,170339
root,14,4000,649446,20306,131053,6.644,206053
main,38,1,93271,3027,148323,5.870,223313
",
    greedy: "processors,work,span,greedy
8,870734,151350,220949
",
    speedup: "processors,steps,speedup,speedup_bound,burdened_steps,burdened_speedup
1,870734,1.000,1.000,870734,1.000
2,499404,1.743,2.000,548541,1.587
4,313766,2.775,4.000,387445,2.247
8,220949,3.940,5.753,306897,2.837
16,174550,4.988,5.753,266623,3.265
32,151350,5.753,5.753,246486,3.532
64,151350,5.753,5.753,236417,3.683
",
};

#[test]
fn reports_as_expected(rt: HostRuntime) -> Result<(), Fail> {
    holds(rt, &EXAMPLE)
}
