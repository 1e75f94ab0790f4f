//! The program examples/quarters.cilk and its reports.

use crate::examples::{Example, holds};
use std::test::Fail;

const EXAMPLE: Example = Example {
    words: "quarters.cilk 32",
    source: "// Computes the product of two matrices of n * n numbers, n a power of two from 2 on. A matrix is stored by its quarters (upper
// left, upper right, lower left, lower right), and each of them by its own quarters. Two products need each quarter of a
// and b. In two phases, each of which uses each quarter once, no two parallel calls share a quarter.
// cilkwork run quarters.cilk 32
// All numbers of a are 1, so the numbers of c are sums of columns of b, whose numbers are their indices. The indices of the
// first column have only bits 1, 3, 5, 7 and 9, and each of 2, 8, 32, 128 and 512 is in 16 of the 32. So c begins with
// 16 * 682 = 10912, and the sum of all its numbers is 32 * (1023 * 1024 / 2) = 16760832.

reducer sum all;

// c = c + a * b, serially
void add_serially(int a[], int b[], int c[]) {
  int q = len(a) / 4;
  if (q == 1) {
    c[0] = c[0] + a[0] * b[0] + a[1] * b[2];
    c[1] = c[1] + a[0] * b[1] + a[1] * b[3];
    c[2] = c[2] + a[2] * b[0] + a[3] * b[2];
    c[3] = c[3] + a[2] * b[1] + a[3] * b[3];
    return;
  }
  cut a at 2 * q as a0, a1 { cut a0 at q as a00, a01 { cut a1 at q as a10, a11 {
  cut b at 2 * q as b0, b1 { cut b0 at q as b00, b01 { cut b1 at q as b10, b11 {
  cut c at 2 * q as c0, c1 { cut c0 at q as c00, c01 { cut c1 at q as c10, c11 {
    add_serially(a00, b00, c00);
    add_serially(a01, b11, c01);
    add_serially(a11, b10, c10);
    add_serially(a10, b01, c11);
    add_serially(a01, b10, c00);
    add_serially(a00, b01, c01);
    add_serially(a10, b00, c10);
    add_serially(a11, b11, c11);
  } } } } } } } } }
}

// c = c + a * b, four products in parallel, then the other four
void add_product(int a[], int b[], int c[]) {
  if (len(a) <= 64) {
    add_serially(a, b, c);
    return;
  }
  int q = len(a) / 4;
  cut a at 2 * q as a0, a1 { cut a0 at q as a00, a01 { cut a1 at q as a10, a11 {
  cut b at 2 * q as b0, b1 { cut b0 at q as b00, b01 { cut b1 at q as b10, b11 {
  cut c at 2 * q as c0, c1 { cut c0 at q as c00, c01 { cut c1 at q as c10, c11 {
    cilk_spawn add_product(a00, b00, c00);
    cilk_spawn add_product(a01, b11, c01);
    cilk_spawn add_product(a11, b10, c10);
    add_product(a10, b01, c11);
    cilk_sync;
    cilk_spawn add_product(a01, b10, c00);
    cilk_spawn add_product(a00, b01, c01);
    cilk_spawn add_product(a10, b00, c10);
    add_product(a11, b11, c11);
  } } } } } } } } }
}

int main(int n) {
  int a[n * n];
  int b[n * n];
  int c[n * n];
  int i = 0;
  while (i < n * n) {
    a[i] = 1;
    b[i] = i;
    i = i + 1;
  }
  region product {
    add_product(a, b, c);
  }
  print(c[0]);
  i = 0;
  while (i < n * n) {
    all += c[i];
    i = i + 1;
  }
  return 0;
}
",
    run: "10912
sum all = 16760832
return 0
",
    scale: "tag,work,span,parallelism,burdened_span,burdened_parallelism
,360431,52445,6.872,322445,1.117
product,328652,20666,15.903,290666,1.130
",
    sites: "site,kind,line,callee,calls,own_work,own_span,work,span
0,root,57,main,1,31780,31780,360431,52445
1,call,24,add_serially,576,40576,2536,73280,73280
2,call,25,add_serially,576,40576,2536,73280,73280
3,call,26,add_serially,576,40576,2536,73280,73280
4,call,27,add_serially,576,40576,2536,73280,73280
5,call,28,add_serially,576,40576,2536,73280,73280
6,call,29,add_serially,576,40576,2536,73280,73280
7,call,30,add_serially,576,40576,2536,73280,73280
8,call,31,add_serially,576,40576,2536,73280,73280
9,call,38,add_serially,64,3200,200,327808,327808
10,spawn,45,add_product,9,99,0,76971,46203
11,spawn,46,add_product,9,99,0,76971,46203
12,spawn,47,add_product,9,99,0,76971,46203
13,call,48,add_product,9,99,63,76971,46203
14,spawn,50,add_product,9,99,0,76971,46203
15,spawn,51,add_product,9,99,0,76971,46203
16,spawn,52,add_product,9,99,0,76971,46203
17,call,53,add_product,9,99,63,76971,46203
18,call,68,add_product,1,51,51,328651,20665
",
    gain: "function,line,calls,own_work,own_span,span_if_free,parallelism_if_free,burdened_span_if_free
,0,0,360431,52445,52445,6.872,322445
main,57,1,31780,31780,20665,17.441,290665
add_serially,12,4672,327808,20488,31957,11.278,301957
add_product,36,73,843,177,52268,6.895,322268
",
    greedy: "processors,work,span,greedy
8,360431,52445,72985
",
    speedup: "processors,steps,speedup,speedup_bound,burdened_steps,burdened_speedup
1,360431,1.000,1.000,360431,1.000
2,196155,1.837,2.000,341438,1.055
4,114071,3.159,4.000,331941,1.085
8,72985,4.938,6.872,327193,1.101
16,52445,6.872,6.872,324819,1.109
32,52445,6.872,6.872,323632,1.113
64,52445,6.872,6.872,323038,1.115
",
};

#[test]
fn reports_as_expected(rt: HostRuntime) -> Result<(), Fail> {
    holds(rt, &EXAMPLE)
}
