//! The program examples/product.cilk and its reports.

use crate::examples::{Example, holds};
use std::test::Fail;

const EXAMPLE: Example = Example {
    words: "product.cilk 24",
    source: "// Computes the product of two matrices of n by n numbers by rows: the result is cut into halves, down to 3 rows or fewer, and
// the halves are written in parallel. All calls read both factors at the same time, since these are `const`.
// cilkwork run product.cilk 24
// a is Pascal's triangle and b its transpose: a(i, j) = (i over j) and b(i, j) = (j over i). Their product at row i and
// column j is the sum of (i over k)(j over k) over all k, which is (i + j over i): each number is the sum of the number above
// it and the number to its left. So the last one is (2n - 2 over n - 1), for n = 24 (46 over 23) = 8233430727600, and the sum
// of all numbers is (2n over n) - 1 = 32247603683099.

// computes the rows of a * b that c has room for, beginning with row `from`
void rows(const int a[], const int b[], int c[], int n, int from) {
  int p = 0;
  int k = 0;
  int total = 0;
  while (p < len(c)) {
    int first = (from + p / n) * n;
    int j = p % n;
    total = 0;
    k = 0;
    while (k < n) {
      total = total + a[first + k] * b[k * n + j];
      k = k + 1;
    }
    c[p] = total;
    p = p + 1;
  }
}

void product(const int a[], const int b[], int c[], int n, int from) {
  int half = len(c) / n / 2;
  if (len(c) <= 3 * n) {
    rows(a, b, c, n, from);
    return;
  }
  cut c at half * n as upper, lower {
    cilk_spawn product(a, b, upper, n, from);
    product(a, b, lower, n, from + half);
  }
}

int main(int n) {
  int a[n * n];
  int b[n * n];
  int c[n * n];
  int i = 0;
  int j = 0;
  int total = 0;
  while (i < n) {
    a[i * n] = 1;
    b[i] = 1;
    j = 1;
    while (j <= i) {
      a[i * n + j] = a[(i - 1) * n + j - 1] + a[(i - 1) * n + j];
      b[j * n + i] = a[i * n + j];
      j = j + 1;
    }
    i = i + 1;
  }
  region multiply {
    product(a, b, c, n, 0);
  }
  print(c[n * n - 1]);
  i = 0;
  while (i < n * n) {
    total = total + c[i];
    i = i + 1;
  }
  print(total);
  return 0;
}
",
    run: "8233430727600
32247603683099
return 0
",
    scale: "tag,work,span,parallelism,burdened_span,burdened_parallelism
,359292,64663,5.556,109663,3.276
multiply,336785,42156,7.989,87156,3.864
",
    sites: "site,kind,line,callee,calls,own_work,own_span,work,span
0,root,40,main,1,22510,22510,359292,64663
1,call,31,rows,8,336472,42059,336472,336472
2,spawn,35,product,7,142,0,294629,126303
3,call,36,product,7,142,68,294629,126303
4,call,59,product,1,26,26,336782,42153
",
    gain: "function,line,calls,own_work,own_span,span_if_free,parallelism_if_free,burdened_span_if_free
,0,0,359292,64663,64663,5.556,109663
rows,10,8,336472,42059,22604,15.895,67604
main,40,1,22510,22510,42153,8.523,87153
product,28,15,310,94,64569,5.564,109569
",
    greedy: "processors,work,span,greedy
8,359292,64663,64663
",
    speedup: "processors,steps,speedup,speedup_bound,burdened_steps,burdened_speedup
1,359292,1.000,1.000,359292,1.000
2,190918,1.881,2.000,234477,1.532
4,106745,3.365,4.000,172070,2.088
8,64663,5.556,5.556,140866,2.550
16,64663,5.556,5.556,125264,2.868
32,64663,5.556,5.556,117463,3.058
64,64663,5.556,5.556,113563,3.163
",
};

#[test]
fn reports_as_expected(rt: HostRuntime) -> Result<(), Fail> {
    holds(rt, &EXAMPLE)
}
