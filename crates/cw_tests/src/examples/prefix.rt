//! The program examples/prefix.cilk and its reports.

use crate::examples::{Example, holds};
use std::test::Fail;

const EXAMPLE: Example = Example {
    words: "prefix.cilk 4000",
    source: "// Computes the prefix sums of n ones: first the sums of both halves in parallel; then it adds the last sum of the left half
// to each sum of the right half, also by halves. Parts of up to 256 numbers are serial. Prints the last sum.
// cilkwork run prefix.cilk 4000
// The sum of n ones is n.

void add(int a[], int v) {
  int i = 0;
  if (len(a) <= 256) {
    while (i < len(a)) {
      a[i] = a[i] + v;
      i = i + 1;
    }
    return;
  }
  cut a at len(a) / 2 as l, r {
    cilk_spawn add(l, v);
    add(r, v);
  }
}

void sums(int a[]) {
  int i = 1;
  if (len(a) <= 256) {
    while (i < len(a)) {
      a[i] = a[i] + a[i - 1];
      i = i + 1;
    }
    return;
  }
  cut a at len(a) / 2 as l, r {
    cilk_spawn sums(l);
    sums(r);
    cilk_sync;
    add(r, l[len(l) - 1]);
  }
}

int main(int n) {
  int a[n];
  add(a, 1);
  sums(a);
  print(a[n - 1]);
  return 0;
}
",
    run: "4000
return 0
",
    scale: "tag,work,span,parallelism,burdened_span,burdened_parallelism
,253240,23550,10.753,233550,1.084
",
    sites: "site,kind,line,callee,calls,own_work,own_span,work,span
0,root,38,main,1,12,12,253240,23550
1,spawn,16,add,32,75412,0,120624,56591
2,call,17,add,32,75412,15140,120624,56591
3,spawn,31,sums,15,36084,0,131648,40722
4,call,32,sums,15,36084,4553,131648,40722
5,call,34,add,15,30200,3809,120624,56591
6,call,40,add,1,16,16,60416,3825
7,call,41,sums,1,20,20,192812,19713
",
    gain: "function,line,calls,own_work,own_span,span_if_free,parallelism_if_free,burdened_span_if_free
,0,0,253240,23550,23550,10.753,233550
add,6,80,181040,18965,4585,55.232,214585
sums,21,31,72188,4573,18977,13.344,228977
main,38,1,12,12,23538,10.758,233538
",
    greedy: "processors,work,span,greedy
8,253240,23550,43123
",
    speedup: "processors,steps,speedup,speedup_bound,burdened_steps,burdened_speedup
1,253240,1.000,1.000,253240,1.000
2,130496,1.940,2.000,243395,1.040
4,70272,3.603,4.000,238472,1.061
8,43123,5.872,8.000,236011,1.073
16,23550,10.753,10.753,234780,1.078
32,23550,10.753,10.753,234165,1.081
64,23550,10.753,10.753,233857,1.082
",
};

#[test]
fn reports_as_expected(rt: HostRuntime) -> Result<(), Fail> {
    holds(rt, &EXAMPLE)
}
