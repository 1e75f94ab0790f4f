//! The program examples/stencil.cilk and its reports.

use crate::examples::{Example, holds};
use std::test::Fail;

const EXAMPLE: Example = Example {
    words: "stencil.cilk 2000 20",
    source: "// Replaces each of n numbers by the sum of its two neighbours, k times, with 0 beyond both ends. Parts of more than 500 numbers
// are halved, and both halves run in parallel: each receives the old numbers next to it, since it cannot read another part.
// cilkwork run stencil.cilk 2000 20
// A single 1 among zeros becomes the binomial coefficients of k, at every second index: for k = 20 the middle one is 184756,
// and their sum is 2 to the power of 20, which is 1048576.

reducer sum all;

// computes a step for a part; left and right are the old numbers next to it
void step(int a[], int left, int right) {
  if (len(a) <= 500) {
    int before = left;
    int i = 0;
    while (i < len(a)) {
      int here = a[i];
      int next = right;
      if (i + 1 < len(a)) {
        next = a[i + 1];
      }
      a[i] = before + next;
      before = here;
      i = i + 1;
    }
    return;
  }
  int middle = len(a) / 2;
  int last = a[middle - 1];
  int first = a[middle];
  cut a at middle as l, r {
    cilk_spawn step(l, left, first);
    step(r, last, right);
  }
}

int main(int n, int k) {
  int a[n];
  a[n / 2] = 1;
  int t = 0;
  while (t < k) {
    step(a, 0, 0);
    t = t + 1;
  }
  print(a[n / 2]);
  cilk_for (int i = 0; i < n; i++) grain 250 over (a) {
    all += a[i];
  }
  return 0;
}
",
    run: "184756
sum all = 1048576
return 0
",
    scale: "tag,work,span,parallelism,burdened_span,burdened_parallelism
,1314757,325555,4.038,970555,1.354
",
    sites: "site,kind,line,callee,calls,own_work,own_span,work,span
0,root,35,main,1,32557,4355,1314757,325555
1,spawn,30,step,60,640840,0,961000,640840
2,call,31,step,60,640840,320680,961000,640840
3,call,40,step,20,520,520,1282200,321200
",
    gain: "function,line,calls,own_work,own_span,span_if_free,parallelism_if_free,burdened_span_if_free
,0,0,1314757,325555,325555,4.038,970555
step,10,140,1282200,321200,4355,301.895,649355
main,35,1,32557,4355,321200,4.093,966200
",
    greedy: "processors,work,span,greedy
8,1314757,325555,325555
",
    speedup: "processors,steps,speedup,speedup_bound,burdened_steps,burdened_speedup
1,1314757,1.000,1.000,1314757,1.000
2,657827,1.998,2.000,1142656,1.150
4,329574,3.989,4.000,1056605,1.244
8,325555,4.038,4.038,1013580,1.297
16,325555,4.038,4.038,992067,1.325
32,325555,4.038,4.038,981311,1.339
64,325555,4.038,4.038,975933,1.347
",
};

#[test]
fn reports_as_expected(rt: HostRuntime) -> Result<(), Fail> {
    holds(rt, &EXAMPLE)
}
