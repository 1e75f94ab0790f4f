//! Programs as one writes them at first, coming from Cilk in C: each is refused, and told what to change.

use crate::explained::all_explained;

// Queens, with a call in a test.
const QUEENS: &str = "\
int is_safe(int rows[], int row, int column) {
  int i = 0;
  while (i < column) {
    if (rows[i] == row) {
      return 0;
    }
    i = i + 1;
  }
  return 1;
}

int queens(int rows[], int column) {
  int count = 0;
  int row = 0;
  while (row < len(rows)) {
    if (is_safe(rows, row, column)) {
      rows[column] = row;
      count = count + 1;
    }
    row = row + 1;
  }
  return count;
}

int main(int n) {
  int rows[n];
  int count = 0;
  count = queens(rows, 0);
  return count;
}
";

// A stencil that reads the next element in a loop over the array.
const STENCIL: &str = "\
void smooth(int a[], int b[]) {
  cilk_for (int i = 0; i < len(b) - 1; i++) grain 100 over (a, b) {
    b[i] = (a[i] + a[i + 1]) / 2;
  }
}

int main(int n) {
  int a[n];
  int b[n];
  smooth(a, b);
  return b[0];
}
";

// A product by quarters that gives one array to two spawned calls.
const QUARTERS: &str = "\
void multiply(int a[], int b[], int c[]) {
  c[0] = c[0] + a[0] * b[0];
}

void quarters(int a0[], int a1[], int b[], int c0[], int c1[]) {
  cilk_spawn multiply(a0, b, c0);
  cilk_spawn multiply(a1, b, c1);
  cilk_sync;
}

int main(int n) {
  int a[n];
  int b[n];
  int c[n];
  cut a at n / 2 as a0, a1 {
    cut c at n / 2 as c0, c1 {
      quarters(a0, a1, b, c0, c1);
    }
  }
  return c[0];
}
";

// A histogram whose spawns stand in a loop, each with a result of its own.
const HISTOGRAM: &str = "\
int count(int from, int to) {
  return to - from;
}

int main(int n) {
  int total = 0;
  int i = 0;
  while (i < n) {
    int part = 0;
    part = cilk_spawn count(i, i + 10);
    i = i + 10;
  }
  cilk_sync;
  return total;
}
";

// A pipeline that reads a result before its sync.
const PIPELINE: &str = "\
int stage(int x) {
  return x * x;
}

int main(int n) {
  int first = 0;
  int second = 0;
  first = cilk_spawn stage(n);
  second = stage(first);
  cilk_sync;
  return second;
}
";

// A function that is called as a word of the language.
const SUM: &str = "\
int sum(int n) {
  return n * (n + 1) / 2;
}

int main(int n) {
  int s = 0;
  s = sum(n);
  return s;
}
";

static PROGRAMS: &[(&str, &str)] = &[
    (
        QUEENS,
        "refused 2 line 16\nt:16: unexpected (: is_safe(..) is a call, and a call is a statement of its own: write int r = 0; r = is_safe(rows, row, column); and r in its place: if (r)\n  16 |     if (is_safe(rows, row, column)) {\n     |                ^\n",
    ),
    (
        STENCIL,
        "refused 4 line 3\nt:3: the cilk_for in line 2 has a in over, so its body may only use a[i]: write void halve_b(const int a[], int b[], int from) { int r = len(b); if (r < 100) { int i = 0; while (i < r) { .. i = i + 1; } return; } r = r / 2; cut b at r as left, right { cilk_spawn halve_b(a, left, from); halve_b(a, right, from + r); } } with the body of the loop in the while, b[i] for its element of b and from + i for its variable, and halve_b(a, b, 0); for the loop; add a parameter for each other name in the body, and test from + i if the loop leaves out elements\n  2 |   cilk_for (int i = 0; i < len(b) - 1; i++) grain 100 over (a, b) {\n  3 |     b[i] = (a[i] + a[i + 1]) / 2;\n    |             ^\n",
    ),
    (
        QUARTERS,
        "refused 4 line 7\nt:7: this statement passes b, but the spawn in line 6 holds b until the next cilk_sync: write const before the parameter of each called function if it only reads b; otherwise write cut b at k as left, right { .. } and pass left and right, give one call an array of its own, or write cilk_sync; between them\n  6 |   cilk_spawn multiply(a0, b, c0);\n  7 |   cilk_spawn multiply(a1, b, c1);\n    |                           ^\n",
    ),
    (
        HISTOGRAM,
        "refused 4 line 9\nt:9: the block that declares part ends while the spawn in line 10 still holds part: write cilk_sync; at the end of this block; for calls of a loop that run in parallel write a cilk_for, or a function that halves the range and spawns itself\n   9 |     int part = 0;\n     |         ^\n  10 |     part = cilk_spawn count(i, i + 10);\n",
    ),
    (
        PIPELINE,
        "refused 4 line 9\nt:9: this statement reads first, but the spawn in line 8 assigns to first at the next cilk_sync: write cilk_sync; before this statement\n  8 |   first = cilk_spawn stage(n);\n  9 |   second = stage(first);\n    |                  ^\n",
    ),
    (
        SUM,
        "refused 2 line 1\nt:1: unexpected sum: sum is a keyword; expected a name\n  1 | int sum(int n) {\n    |     ^\nt:7: unexpected sum: sum is a keyword; expected a name, a number, len, cilk_spawn, ( or a sign (- or !)\n  7 |   s = sum(n);\n    |       ^\n",
    ),
];

#[test]
fn first_versions_say_what_to_change(rt: HostRuntime) {
    all_explained(&rt, rt.alloc(), PROGRAMS);
}
