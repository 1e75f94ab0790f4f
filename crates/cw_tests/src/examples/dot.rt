//! The program examples/dot.cilk and its reports.

use crate::examples::{Example, holds};
use std::test::Fail;

const EXAMPLE: Example = Example {
    words: "dot.cilk 2000",
    source: "// Computes two sums of products: n numbers with themselves, and n numbers with their reverse. Arrays that are only read need
// no cut: each half is a range of indices, and both halves read the whole arrays. One array is passed for both parameters,
// and a spawned call reads it in parallel with the continuation of main.
// cilkwork run dot.cilk 2000
// The numbers are 1 to n, so the first sum is n(n + 1)(2n + 1) / 6, which is 2668667000 for n = 2000. The second sum, of
// i(n + 1 - i), is n(n + 1)(n + 2) / 6, which is 1335334000. For n = 3 they are 1 + 4 + 9 = 14 and 3 + 4 + 3 = 10.

int dot(const int a[], const int b[], int from, int to) {
  int total = 0;
  int i = from;
  if (to - from <= 250) {
    while (i < to) {
      total = total + a[i] * b[i];
      i = i + 1;
    }
    return total;
  }
  int middle = from + (to - from) / 2;
  int rest = 0;
  total = cilk_spawn dot(a, b, from, middle);
  rest = dot(a, b, middle, to);
  cilk_sync;
  return total + rest;
}

int main(int n) {
  int a[n];
  int b[n];
  int squares = 0;
  int others = 0;
  cilk_for (int i = 0; i < n; i++) grain 250 over (a, b) {
    a[i] = i + 1;
    b[i] = n - i;
  }
  squares = cilk_spawn dot(a, a, 0, n);
  others = dot(a, b, 0, n);
  cilk_sync;
  print(squares);
  print(others);
  return 0;
}
",
    run: "2668667000
1335334000
return 0
",
    scale: "tag,work,span,parallelism,burdened_span,burdened_parallelism
,119058,10747,11.078,115747,1.028
",
    sites: "site,kind,line,callee,calls,own_work,own_span,work,span
0,root,26,main,1,50368,6388,119058,10747
1,spawn,20,dot,14,34314,0,59972,25782
2,call,21,dot,14,34314,4328,59972,25782
3,spawn,35,dot,1,31,0,34345,4359
4,call,36,dot,1,31,31,34345,4359
",
    gain: "function,line,calls,own_work,own_span,span_if_free,parallelism_if_free,burdened_span_if_free
,0,0,119058,10747,10747,11.078,115747
main,26,1,50368,6388,4359,27.313,109359
dot,8,30,68690,4359,6388,18.637,111388
",
    greedy: "processors,work,span,greedy
8,119058,10747,15029
",
    speedup: "processors,steps,speedup,speedup_bound,burdened_steps,burdened_speedup
1,119058,1.000,1.000,119058,1.000
2,59579,1.998,2.000,117402,1.014
4,29864,3.986,4.000,116574,1.021
8,15029,7.921,8.000,116160,1.024
16,10747,11.078,11.078,115953,1.026
32,10747,11.078,11.078,115850,1.027
64,10747,11.078,11.078,115798,1.028
",
};

#[test]
fn reports_as_expected(rt: HostRuntime) -> Result<(), Fail> {
    holds(rt, &EXAMPLE)
}
