//! The program examples/primes.cilk and its reports.

use crate::examples::{Example, holds};
use std::test::Fail;

const EXAMPLE: Example = Example {
    words: "primes.cilk 1000",
    source: "// Counts the primes below n: ranges are halved down to 16 numbers, and the first half is spawned.
// cilkwork run primes.cilk 1000
// There are 168 primes below 1000.

int is_prime(int n) {
  if (n < 2) {
    return 0;
  }
  int d = 2;
  while (d * d <= n) {
    if (n % d == 0) {
      return 0;
    }
    d = d + 1;
  }
  return 1;
}

int primes(int from, int to) {
  int count = 0;
  if (to - from <= 16) {
    int p = 0;
    while (from < to) {
      p = is_prime(from);
      count = count + p;
      from = from + 1;
    }
    return count;
  }
  int middle = from + (to - from) / 2;
  int rest = 0;
  count = cilk_spawn primes(from, middle);
  rest = primes(middle, to);
  cilk_sync;
  return count + rest;
}

int main(int n) {
  int count = 0;
  count = primes(0, n);
  return count;
}
",
    run: "return 168
",
    scale: "tag,work,span,parallelism,burdened_span,burdened_parallelism
,112591,2772,40.617,92275,1.220
",
    sites: "site,kind,line,callee,calls,own_work,own_span,work,span
0,root,38,main,1,7,7,112591,2772
1,call,24,is_prime,1000,94733,2356,94733,94733
2,spawn,32,primes,63,8731,267,110316,15022
3,call,33,primes,63,9091,113,111814,10036
4,call,40,primes,1,29,29,112584,2765
",
    gain: "function,line,calls,own_work,own_span,span_if_free,parallelism_if_free,burdened_span_if_free
,0,0,112591,2772,2772,40.617,92275
is_prime,5,1000,94733,2356,437,257.645,90437
primes,19,127,17851,409,2363,47.647,91845
main,38,1,7,7,2765,40.720,92268
",
    greedy: "processors,work,span,greedy
8,112591,2772,15062
",
    speedup: "processors,steps,speedup,speedup_bound,burdened_steps,burdened_speedup
1,112591,1.000,1.000,112591,1.000
2,56355,1.997,2.000,102433,1.099
4,28591,3.937,4.000,97354,1.156
8,15062,7.475,8.000,94814,1.187
16,8052,13.982,16.000,93544,1.203
32,4707,23.919,32.000,92909,1.211
64,2772,40.617,40.617,92592,1.215
",
};

#[test]
fn reports_as_expected(rt: HostRuntime) -> Result<(), Fail> {
    holds(rt, &EXAMPLE)
}
