//! A row for each rule of names and types.

use crate::explained::all_explained;

static HEADS: &[(&str, &str)] = &[
    (
        "int f() { return 0; }",
        "refused 3 line 1\nt:1: the source has no function main: write int main(int n) { .. }, with an integer parameter for each argument\n  1 | int f() { return 0; }\n",
    ),
    (
        "void main() { }",
        "refused 3 line 1\nt:1: main must return int, not void\n  1 | void main() { }\n",
    ),
    (
        "int main(int n, int a[]) { return 0; }",
        "refused 3 line 1\nt:1: main takes integers only: declare the array a in main, as int a[n];\n  1 | int main(int n, int a[]) { return 0; }\n    |                     ^\n",
    ),
    (
        "int f() { return 0; }\nint main() { return 0; }\nvoid f(int a) { }",
        "refused 3 line 3\nt:3: f is already the name of a function or reducer (line 1): rename one of them\n  1 | int f() { return 0; }\n  3 | void f(int a) { }\n    |      ^\n",
    ),
    (
        "reducer sum r;\nreducer sum r;\nint main() { return 0; }",
        "refused 3 line 2\nt:2: r is already the name of a function or reducer (line 1): rename one of them\n  1 | reducer sum r;\n  2 | reducer sum r;\n    |             ^\n",
    ),
    (
        "int f() { return 0; }\nint main() { return 0; }\nreducer sum f;",
        "refused 3 line 3\nt:3: f is already the name of a function or reducer (line 1): rename one of them\n  1 | int f() { return 0; }\n  3 | reducer sum f;\n    |             ^\n",
    ),
    (
        "void f(int a, int b, int a[]) { }\nint main() { return 0; }",
        "refused 3 line 1\nt:1: two parameters have the name a: rename one of them\n  1 | void f(int a, int b, int a[]) { }\n    |            ^\n",
    ),
    (
        "void f(int g) { }\nvoid g() { }\nint main() { return 0; }",
        "refused 3 line 1\nt:1: g is the name of a function (line 2): use another name\n  1 | void f(int g) { }\n    |            ^\n  2 | void g() { }\n",
    ),
    (
        "int main(int n) {\n  if (n) {\n    return 1;\n  }\n}",
        "refused 3 line 1\nt:1: main may end without a return: make its last statement a return, or an if with else whose blocks both end with a return\n  1 | int main(int n) {\n    |     ^\n",
    ),
];

static NAMES: &[(&str, &str)] = &[
    (
        "int main() {\n  return y;\n}",
        "refused 3 line 2\nt:2: y is not declared here: declare int y = 0; before this statement, in this block or one around it\n  2 |   return y;\n    |          ^\n",
    ),
    (
        "int main(int n) {\n  if (n) {\n    int x = 1;\n  }\n  print(x);\n  return 0;\n}",
        "refused 3 line 5\nt:5: x is declared in line 3, in a block that ends before this statement: declare it, and the other names of that block that this statement uses, before the block\n  3 |     int x = 1;\n  5 |   print(x);\n    |         ^\n",
    ),
    (
        "int main() {\n  int a[3];\n\n\n\n\n\n\n\n  return a + 1;\n}",
        "refused 3 line 10\nt:10: a is an array (line 2), but an integer is required here: write a[i] for an element\n   2 |   int a[3];\n  10 |   return a + 1;\n     |          ^\n",
    ),
    (
        "int f(const int a[]) {\n  return a;\n}\nint main() { return 0; }",
        "refused 3 line 2\nt:2: a is a const array (line 1), and a function returns an integer: make it void, and let the caller pass the array, as int a[]\n  1 | int f(const int a[]) {\n  2 |   return a;\n    |          ^\n",
    ),
    (
        "int get(const int a[], int i) {\n  a[i] = 0;\n  return a[i];\n}\nint main() { return 0; }",
        "refused 3 line 2\nt:2: a is const (line 1): delete const to write it\n  1 | int get(const int a[], int i) {\n  2 |   a[i] = 0;\n    |   ^\n",
    ),
    (
        "void f() { }\nint main() {\n  return f;\n}",
        "refused 3 line 3\nt:3: f is a function (line 1), but an integer is required here: write int r = 0; r = f(..); and then r\n  1 | void f() { }\n  3 |   return f;\n    |          ^\n",
    ),
    (
        "reducer sum s;\nint main() {\n  s = 1;\n  return 0;\n}",
        "refused 3 line 3\nt:3: s is a reducer (line 1): write s += e; for s = s + e; no other statement uses it, and the run prints s at its end\n  1 | reducer sum s;\n  3 |   s = 1;\n    |   ^\n",
    ),
    (
        "int main(int n) {\n  return n[0];\n}",
        "refused 3 line 2\nt:2: n is an integer (line 1), but an array is required here: declare int n[n]; or rename one of them\n  1 | int main(int n) {\n  2 |   return n[0];\n    |          ^\n",
    ),
    (
        "int main() {\n  int x = 1;\n  int x = 2;\n  return x;\n}",
        "refused 3 line 3\nt:3: x is already declared in line 2: delete int to assign to it, or use another name\n  2 |   int x = 1;\n  3 |   int x = 2;\n    |       ^\n",
    ),
    (
        "reducer sum s;\nint main() {\n  int s = 2;\n  return s;\n}",
        "refused 3 line 3\nt:3: s is the name of a reducer (line 1): use another name\n  1 | reducer sum s;\n  3 |   int s = 2;\n    |       ^\n",
    ),
    (
        "int main() {\n  int x = 0;\n  x += 2;\n  return x;\n}",
        "refused 3 line 3\nt:3: x is not a reducer: write x = x + ..; or, for a sum over strands, declare reducer sum s; outside of functions and write s += ..;\n  3 |   x += 2;\n    |   ^\n",
    ),
    (
        "int main() {\n  int x = 0;\n  x max= 2;\n  return x;\n}",
        "refused 3 line 3\nt:3: x is not a reducer: write if (x < x) { x = x; } or, for a maximum over strands, declare reducer max m; outside of functions and write m max= x;\n  3 |   x max= 2;\n    |   ^\n",
    ),
    // a reducer that reduces otherwise
    (
        "reducer sum s;\nint main() {\n  s max= 1;\n  return 0;\n}",
        "refused 3 line 3\nt:3: s is declared by reducer sum (line 1): write s += ..\n  1 | reducer sum s;\n  3 |   s max= 1;\n    |   ^\n",
    ),
    (
        "reducer sum s;\nreducer max m;\nint main() {\n  m += 1;\n  return 0;\n}",
        "refused 3 line 4\nt:4: m is declared by reducer max (line 2): write m max= ..\n  2 | reducer max m;\n  4 |   m += 1;\n    |   ^\n",
    ),
    // of two reducers of a name the first counts, and the least line is told
    (
        "int main() {\n  r max= 1;\n  return 0;\n}\nreducer sum r;\nreducer max r;",
        "refused 3 line 2\nt:2: r is declared by reducer sum (line 5): write r += ..\n  2 |   r max= 1;\n    |   ^\n  5 | reducer sum r;\nt:6: r is already the name of a function or reducer (line 5): rename one of them\n  5 | reducer sum r;\n  6 | reducer max r;\n    |             ^\n",
    ),
    (
        "reducer max r;\nreducer sum r;\nint main() {\n  r max= 1;\n  return 0;\n}",
        "refused 3 line 2\nt:2: r is already the name of a function or reducer (line 1): rename one of them\n  1 | reducer max r;\n  2 | reducer sum r;\n    |             ^\n",
    ),
    // the value names what it may not
    (
        "reducer max m;\nint main() {\n  m max= m;\n  return 0;\n}",
        "refused 3 line 3\nt:3: m is a reducer (line 1), and no statement reads it: write m max= e; for if (e > m) { m = e; }, and delete other uses; the run prints m at its end\n  1 | reducer max m;\n  3 |   m max= m;\n    |   ^\n",
    ),
];

static CALLS: &[(&str, &str)] = &[
    (
        "int main() {\n  g();\n  return 0;\n}",
        "refused 3 line 2\nt:2: there is no function g: define it, as int g(..) { .. }\n  2 |   g();\n    |   ^\n",
    ),
    (
        "int main() {\n  main();\n  return 0;\n}",
        "refused 3 line 2\nt:2: no statement calls main: move its body into another function, and call that\n  2 |   main();\n",
    ),
    (
        "void f(int a, int b) { }\nint main() {\n  f(1);\n  return 0;\n}",
        "refused 3 line 3\nt:3: f (line 1) takes 2 arguments, but 1 is given\n  1 | void f(int a, int b) { }\n  3 |   f(1);\n    |   ^\n",
    ),
    (
        "void f(int n, int a[]) { }\nint main() {\n  int b[2];\n  f(1, b[0]);\n  return 0;\n}",
        "refused 3 line 4\nt:4: argument 2 of f must be an array name on its own; to pass a part, write cut b at k as left, right { .. } and pass left or right; if f only reads b, pass the whole b to a const parameter, and the ends of the part as integers\n  1 | void f(int n, int a[]) { }\n  4 |   f(1, b[0]);\n    |   ^\n",
    ),
    (
        "void f(int a[]) { }\nint main(int n) {\n  f(n);\n  return 0;\n}",
        "refused 3 line 3\nt:3: n is an integer (line 2), but an array is required here: declare int n[n]; or rename one of them\n  2 | int main(int n) {\n  3 |   f(n);\n    |     ^\n",
    ),
    (
        "void f() { }\nint main() {\n  int x = 0;\n  x = f();\n  return x;\n}",
        "refused 3 line 4\nt:4: f (line 1) is void and returns nothing: write f(..); or make it int\n  1 | void f() { }\n  4 |   x = f();\n    |       ^\n",
    ),
];

static STATEMENTS: &[(&str, &str)] = &[
    (
        "int main() {\n  cilk_scope {\n    return 1;\n  }\n  return 0;\n}",
        "refused 3 line 3\nt:3: no return is allowed in cilk_scope, cut, region or cilk_for: declare int r = 0; before the block, assign to r in it, and write return r; after it\n  3 |     return 1;\n",
    ),
    (
        "int main(int n) {\n  if (n) {\n    return;\n  }\n  return 0;\n}",
        "refused 3 line 3\nt:3: this function is int: write return with a value, as return 0;\n  3 |     return;\n",
    ),
    (
        "void f() {\n  return 1;\n}\nint main() { return 0; }",
        "refused 3 line 2\nt:2: this function is void: write return; or make the function int\n  2 |   return 1;\n",
    ),
    (
        "int main() {\n  return 1;\n  print(2);\n  return 3;\n}",
        "refused 3 line 2\nt:2: this statement returns, so line 3 is never reached: delete what follows\n  2 |   return 1;\n  3 |   print(2);\n",
    ),
    (
        "int main() {\n  cilk_for (int i = 0; j < 9; i++) { }\n  return 0;\n}",
        "refused 3 line 2\nt:2: the head of a cilk_for names one variable three times: write i for j\n  2 |   cilk_for (int i = 0; j < 9; i++) { }\n    |                 ^\n",
    ),
    (
        "int main() {\n  cilk_for (int i = 0; i < 9; i++) grain 0 { }\n  return 0;\n}",
        "refused 3 line 2\nt:2: the grain is 0: write a number from 1 to 1000000\n  2 |   cilk_for (int i = 0; i < 9; i++) grain 0 { }\n",
    ),
    (
        "int main() {\n  int a[4];\n  cut a at 2 as l, l { }\n  return 0;\n}",
        "refused 3 line 3\nt:3: both parts of the cut have the name l: rename one of them\n  3 |   cut a at 2 as l, l { }\n    |                 ^\n",
    ),
];

// More lines than one that break a rule.
static SEVERAL: &[(&str, &str)] = &[
    // a name is declared also where its value breaks a rule
    (
        "int f(int a) {\n  b = 1;\n  return a;\n}\nint main() {\n  int x = y;\n  x = f(1, 2);\n  return z;\n}",
        "refused 3 line 2\nt:2: b is not declared here: declare int b = 0; before this statement, in this block or one around it\n  2 |   b = 1;\n    |   ^\nt:6: y is not declared here: declare int y = 0; before this statement, in this block or one around it\n  6 |   int x = y;\n    |           ^\nt:7: f (line 1) takes 1 argument, but 2 are given\n  1 | int f(int a) {\n  7 |   x = f(1, 2);\n    |       ^\nt:8: z is not declared here: declare int z = 0; before this statement, in this block or one around it\n  8 |   return z;\n    |          ^\n",
    ),
    // of names that are there twice, in the order of lines
    (
        "void f() {\n  print(y);\n}\nreducer sum f;\nint main() {\n  return 0;\n}",
        "refused 3 line 2\nt:2: y is not declared here: declare int y = 0; before this statement, in this block or one around it\n  2 |   print(y);\n    |         ^\nt:4: f is already the name of a function or reducer (line 1): rename one of them\n  1 | void f() {\n  4 | reducer sum f;\n    |             ^\n",
    ),
    // a line once, for what is found first
    (
        "int main() {\n  p = 1; q = 2;\n  r = 3;\n  return 0;\n}",
        "refused 3 line 2\nt:2: p is not declared here: declare int p = 0; before this statement, in this block or one around it\n  2 |   p = 1; q = 2;\n    |   ^\nt:3: r is not declared here: declare int r = 0; before this statement, in this block or one around it\n  3 |   r = 3;\n    |   ^\n",
    ),
];

#[test]
fn rules_of_names_and_types(rt: HostRuntime) {
    all_explained(&rt, rt.alloc(), HEADS);
    all_explained(&rt, rt.alloc(), NAMES);
    all_explained(&rt, rt.alloc(), CALLS);
    all_explained(&rt, rt.alloc(), STATEMENTS);
    all_explained(&rt, rt.alloc(), SEVERAL);
}
