//! The program examples/longest.cilk and its reports.

use crate::examples::{Example, holds};
use std::test::Fail;

const EXAMPLE: Example = Example {
    words: "longest.cilk 1000",
    source: "// Finds the number from 1 to n with the most Collatz steps to 1 (halve, or triple and add 1), and the largest number on the
// way: two reducers that keep a maximum. The first one reduces steps * 1000000 + number, so the maximum also shows the
// number.
// cilkwork run longest.cilk 1000
// Up to 1000 it is 871, with 178 steps; 703 reaches 250504. Up to 10 it is 9: 28, 14, 7, 22, 11, 34, 17, 52, 26, 13, 40, 20,
// 10, 5, 16, 8, 4, 2 and 1 are 19 steps, and 52 is the largest number.

reducer max longest;
reducer max highest;

void chain(int number) {
  int v = number;
  int steps = 0;
  while (v != 1) {
    if (v % 2 == 0) {
      v = v / 2;
    } else {
      v = 3 * v + 1;
    }
    steps = steps + 1;
    highest max= v;
  }
  longest max= steps * 1000000 + number;
}

int main(int n) {
  cilk_for (int i = 1; i < n + 1; i++) grain 10 {
    chain(i);
  }
  return 0;
}
",
    run: "max longest = 178000871
max highest = 250504
return 0
",
    scale: "tag,work,span,parallelism,burdened_span,burdened_parallelism
,1362043,19359,70.357,115345,11.808
",
    sites: "site,kind,line,callee,calls,own_work,own_span,work,span
0,root,26,main,1,17466,263,1362043,19359
1,call,28,chain,1000,1344577,19096,1344577,1344577
",
    gain: "function,line,calls,own_work,own_span,span_if_free,parallelism_if_free,burdened_span_if_free
,0,0,1362043,19359,19359,70.357,115345
chain,11,1000,1344577,19096,272,5007.511,105272
main,26,1,17466,263,19096,71.326,115073
",
    greedy: "processors,work,span,greedy
8,1362043,19359,176546
",
    speedup: "processors,steps,speedup,speedup_bound,burdened_steps,burdened_speedup
1,1362043,1.000,1.000,1362043,1.000
2,682050,1.996,2.000,738694,1.843
4,341975,3.982,4.000,427019,3.189
8,176546,7.714,8.000,271182,5.022
16,92883,14.664,16.000,193263,7.047
32,50889,26.764,32.000,154304,8.827
64,29632,45.965,64.000,134824,10.102
",
};

#[test]
fn reports_as_expected(rt: HostRuntime) -> Result<(), Fail> {
    holds(rt, &EXAMPLE)
}
