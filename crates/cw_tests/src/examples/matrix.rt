//! The program examples/matrix.cilk and its reports.

use crate::examples::{Example, holds};
use std::test::Fail;

const EXAMPLE: Example = Example {
    words: "matrix.cilk 16",
    source: "// Computes the product of two matrices of n by n numbers, one number of the product in each iteration of a loop. Prints the
// sum of the diagonal and the last number.
// cilkwork run matrix.cilk 16
// With a(i, j) = i + j and b(i, j) = i - j, the diagonal has the sum of (i + k)(k - i) = k * k - i * i over all i and k, which
// is 0. The last number is the sum of (n - 1 + k)(k - n + 1), for n = 16 of k * k - 225: 1240 - 3600 = -2360.

int main(int n) {
  int c[n * n];
  int diagonal = 0;
  int d = 0;
  cilk_for (int p = 0; p < n * n; p++) grain 16 over (c) {
    int i = p / n;
    int j = p % n;
    int k = 0;
    int total = 0;
    while (k < n) {
      total = total + (i + k) * (k - j);
      k = k + 1;
    }
    c[p] = total;
  }
  while (d < n) {
    diagonal = diagonal + c[d * n + d];
    d = d + 1;
  }
  print(diagonal);
  print(c[n * n - 1]);
  return 0;
}
",
    run: "0
-2360
return 0
",
    scale: "tag,work,span,parallelism,burdened_span,burdened_parallelism
,86977,5819,14.947,65819,1.321
",
    sites: "site,kind,line,callee,calls,own_work,own_span,work,span
0,root,7,main,1,86977,5819,86977,5819
",
    gain: "function,line,calls,own_work,own_span,span_if_free,parallelism_if_free,burdened_span_if_free
,0,0,86977,5819,5819,14.947,65819
main,7,1,86977,5819,0,0.000,60000
",
    greedy: "processors,work,span,greedy
8,86977,5819,11221
",
    speedup: "processors,steps,speedup,speedup_bound,burdened_steps,burdened_speedup
1,86977,1.000,1.000,86977,1.000
2,43667,1.991,2.000,76398,1.138
4,22033,3.947,4.000,71108,1.223
8,11221,7.751,8.000,68463,1.270
16,5819,14.947,14.947,67141,1.295
32,5819,14.947,14.947,66480,1.308
64,5819,14.947,14.947,66149,1.314
",
};

#[test]
fn reports_as_expected(rt: HostRuntime) -> Result<(), Fail> {
    holds(rt, &EXAMPLE)
}
