//! Whole sources of C: what the explanation says, and the source with that put in place.

use crate::explained::{Habit, NONE};

static SOURCES: &[Habit] = &[
    (
        "int main(int argc, char *argv[]) {\n  return 0;\n}",
        "write int main(int n)",
        "int main(int n) {\n  return 0;\n}",
    ),
    (
        "long cilk_reducer(zero, add) s = 0;\nint main(int n) {\n  return n;\n}",
        "write reducer sum s; here, and s += e; to add to it",
        "reducer sum s;\nint main(int n) {\n  return n;\n}",
    ),
    (
        "int cilk_reducer(zero, add) s = 0;\nint main(int n) {\n  return n;\n}",
        "write reducer sum s; here, and s += e; to add to it",
        "reducer sum s;\nint main(int n) {\n  return n;\n}",
    ),
    (
        "CILK_C_REDUCER_OPADD(s, int, 0);\nint main(int n) {\n  return n;\n}",
        "write reducer sum s; here, and s += e; to add to it",
        "reducer sum s;\nint main(int n) {\n  return n;\n}",
    ),
    (
        "CILK_C_REDUCER_MAX(s, int, 0);\nint main(int n) {\n  return n;\n}",
        "write reducer max s; here, and s max= e; for each value",
        "reducer max s;\nint main(int n) {\n  return n;\n}",
    ),
    (
        "reducer sum s[2];\nint main(int n) {\n  return n;\n}",
        "write reducer sum s0; and so on",
        "reducer sum s0;\nreducer sum s1;\nint main(int n) {\n  return n;\n}",
    ),
    (
        "int main(n) {\n  return n;\n}",
        "a parameter has a type: write int n",
        "int main(int n) {\n  return n;\n}",
    ),
    (
        "int main(n, int m) {\n  return m;\n}",
        "a parameter has a type: write int n",
        "int main(int n, int m) {\n  return m;\n}",
    ),
    (
        "int main(int m, n) {\n  return n;\n}",
        "a parameter has a type: write int n",
        "int main(int m, int n) {\n  return n;\n}",
    ),
    (
        "int main(int m, n, int k) {\n  return n;\n}",
        "a parameter has a type: write int n",
        "int main(int m, int n, int k) {\n  return n;\n}",
    ),
    (
        "int main(int n) {\n  region a-b { n = 1; }\n  return n;\n}",
        "write region a_b",
        "int main(int n) {\n  region a_b { n = 1; }\n  return n;\n}",
    ),
    (
        "/* c */\nint main(int n) {\n  return n;\n}",
        "write a comment after //",
        "// c\nint main(int n) {\n  return n;\n}",
    ),
    (
        "cilk int f(int n) {\n  return n;\n}\nint main(int n) {\n  return n;\n}",
        "there is no cilk: delete the word",
        "int f(int n) {\n  return n;\n}\nint main(int n) {\n  return n;\n}",
    ),
    (
        "static int f() {\n  return 0;\n}\nint main(int n) {\n  return n;\n}",
        "there is no static: delete the word",
        "int f() {\n  return 0;\n}\nint main(int n) {\n  return n;\n}",
    ),
    (
        "typedef struct s { } s;\nint main(int n) {\n  return n;\n}",
        "there are no structs: delete the declaration",
        "int main(int n) {\n  return n;\n}",
    ),
    (
        "typedef int t;\nint main(int n) {\n  return n;\n}",
        "there is no typedef: delete the line",
        "int main(int n) {\n  return n;\n}",
    ),
    (
        "struct s { };\nint main(int n) {\n  return n;\n}",
        "there are no structs: delete the declaration",
        "int main(int n) {\n  return n;\n}",
    ),
    (
        "union s { };\nint main(int n) {\n  return n;\n}",
        "there are no unions: delete the declaration",
        "int main(int n) {\n  return n;\n}",
    ),
    (
        "enum s { };\nint main(int n) {\n  return n;\n}",
        "there is no enum: delete the line",
        "int main(int n) {\n  return n;\n}",
    ),
    (
        "mutex m;\nint main(int n) {\n  return n;\n}",
        "a lock has no replacement",
        NONE,
    ),
    (
        "pthread_mutex_t m;\nint main(int n) {\n  return n;\n}",
        "a lock has no replacement",
        NONE,
    ),
    (
        "long *g(int n) {\n}\nint main(int n) {\n  return n;\n}",
        "write void g(..) with a parameter int a[]",
        "void g(int n, int a[]) {\n}\nint main(int n) {\n  return n;\n}",
    ),
    (
        "int *g(int n) {\n}\nint main(int n) {\n  return n;\n}",
        "write void g(..) with a parameter int a[]",
        "void g(int n, int a[]) {\n}\nint main(int n) {\n  return n;\n}",
    ),
    (
        "int[] g(int n) {\n}\nint main(int n) {\n  return n;\n}",
        "write void f(..) with a parameter int a[]",
        "void f(int n, int a[]) {\n}\nint main(int n) {\n  return n;\n}",
    ),
    (
        "long f(int n) {\n  return n;\n}\nint main(int n) {\n  return n;\n}",
        "write int f(..), or void f(..) if it returns nothing",
        "int f(int n) {\n  return n;\n}\nint main(int n) {\n  return n;\n}",
    ),
    (
        "int f(const double *a) {\n  return 0;\n}\nint main(int n) {\n  return n;\n}",
        "write const int a[]",
        "int f(const int a[]) {\n  return 0;\n}\nint main(int n) {\n  return n;\n}",
    ),
    (
        "int f(double *a) {\n  return 0;\n}\nint main(int n) {\n  return n;\n}",
        "write int a[], or const int a[] if the function only reads it",
        "int f(int a[]) {\n  return 0;\n}\nint main(int n) {\n  return n;\n}",
    ),
    (
        "int f(double a[]) {\n  return 0;\n}\nint main(int n) {\n  return n;\n}",
        "there is no type double: write int a[]",
        "int f(int a[]) {\n  return 0;\n}\nint main(int n) {\n  return n;\n}",
    ),
    (
        "int f(node *x) {\n  return 0;\n}\nint main(int n) {\n  return n;\n}",
        "write an array int m[] for each member, and an index int x",
        "int f(int m[], int x) {\n  return m[x];\n}\nint main(int n) {\n  return n;\n}",
    ),
    (
        "int f(int n, node *x) {\n  return 0;\n}\nint main(int n) {\n  return n;\n}",
        "write an array int m[] for each member, and an index int x",
        "int f(int n, int m[], int x) {\n  return m[x];\n}\nint main(int n) {\n  return n;\n}",
    ),
    (
        "node *f(int n) {\n  return 0;\n}\nint main(int n) {\n  return n;\n}",
        "write int f(..), which returns an index, and an array for each member",
        "int f(int n) {\n  return 0;\n}\nint main(int n) {\n  return n;\n}",
    ),
    (
        "void zero(void *v) {\n}\nint main(int n) {\n  return n;\n}",
        "write int v[], or const int v[]",
        "void zero(int v[]) {\n}\nint main(int n) {\n  return n;\n}",
    ),
    (
        "void zero(int n, void *v) {\n}\nint main(int n) {\n  return n;\n}",
        "write int v[], or const int v[]",
        "void zero(int n, int v[]) {\n}\nint main(int n) {\n  return n;\n}",
    ),
    (
        "int f(int n, char c) {\n  return n;\n}\nint main(int n) {\n  return n;\n}",
        "there is no type char: write int c",
        "int f(int n, int c) {\n  return n;\n}\nint main(int n) {\n  return n;\n}",
    ),
    (
        "const int N = 10;\nint main(int n) {\n  return n;\n}",
        "pass the value to each function that needs it",
        "int main(int n) {\n  return n;\n}",
    ),
    (
        "int c = 10;\nint main(int n) {\n  return n;\n}",
        "delete this line and write 10 for c if no statement assigns to c; otherwise declare int c = 10; in main and pass it, or write reducer sum c; for a sum over strands",
        "int main(int n) {\n  int c = 10;\n  return c;\n}",
    ),
    (
        "int c = 2 * 5;\nint main(int n) {\n  return n;\n}",
        "declare int c = 2 * 5; in main and pass it; a sum over strands is reducer sum c;",
        "int main(int n) {\n  int c = 2 * 5;\n  return n;\n}",
    ),
    (
        "int c;\nint main(int n) {\n  return n;\n}",
        "declare int c = 0; in main, and pass it",
        "int main(int n) {\n  int c = 0;\n  return c;\n}",
    ),
    (
        "int c, d;\nint main(int n) {\n  return n;\n}",
        "declare int c = 0; in main, and pass it",
        "int main(int n) {\n  int c = 0;\n  return c;\n}",
    ),
    (
        "int a[10];\nint main(int n) {\n  return n;\n}",
        "declare int a[10]; in main, and pass it",
        "int main(int n) {\n  int a[10];\n  return a[0];\n}",
    ),
    (
        "int f(int n);\nint main(int n) {\n  return n;\n}",
        "delete this line",
        "int main(int n) {\n  return n;\n}",
    ),
    (
        "int main(int n) {\n  return n;\n};",
        "there is no ; after a function: delete it",
        "int main(int n) {\n  return n;\n}",
    ),
    (
        "int f(int a[10]) {\n  return 0;\n}\nint main(int n) {\n  return n;\n}",
        "write int a[]; len(a) is its length",
        "int f(int a[]) {\n  return len(a);\n}\nint main(int n) {\n  return n;\n}",
    ),
];

static UPDATES: &[Habit] = &[
    (
        "int f(int n, int a[n]) {\n  return 0;\n}\nint main(int n) {\n  return n;\n}",
        "write int a[]; len(a) is its length",
        "int f(int n, int a[]) {\n  return len(a);\n}\nint main(int n) {\n  return n;\n}",
    ),
    (
        "int f(int a[][]) {\n  return 0;\n}\nint main(int n) {\n  return n;\n}",
        "write a[i * m + j] for the element i, j",
        "int f(int a[], int m) {\n  return a[0 * m + 1];\n}\nint main(int n) {\n  return n;\n}",
    ),
    (
        "int main(void) {\n  return 0;\n}",
        "write ()",
        "int main() {\n  return 0;\n}",
    ),
    (
        "int f(const int *a) {\n  return 0;\n}\nint main(int n) {\n  return n;\n}",
        "write const int a[]",
        "int f(const int a[]) {\n  return 0;\n}\nint main(int n) {\n  return n;\n}",
    ),
    (
        "int f(int *a) {\n  return 0;\n}\nint main(int n) {\n  return n;\n}",
        "write int a[], or const int a[] if the function only reads it",
        "int f(int a[]) {\n  return 0;\n}\nint main(int n) {\n  return n;\n}",
    ),
    (
        "int f(int **a) {\n  return 0;\n}\nint main(int n) {\n  return n;\n}",
        "write int a[]",
        "int f(int a[]) {\n  return 0;\n}\nint main(int n) {\n  return n;\n}",
    ),
    (
        "int f(const int n) {\n  return n;\n}\nint main(int n) {\n  return n;\n}",
        "const is for array parameters only: write int n",
        "int f(int n) {\n  return n;\n}\nint main(int n) {\n  return n;\n}",
    ),
    (
        "int f(const int n, int m) {\n  return n;\n}\nint main(int n) {\n  return n;\n}",
        "const is for array parameters only: write int n",
        "int f(int n, int m) {\n  return n;\n}\nint main(int n) {\n  return n;\n}",
    ),
    (
        "reducer sum s = 0;\nint main(int n) {\n  return n;\n}",
        "write reducer sum s;",
        "reducer sum s;\nint main(int n) {\n  return n;\n}",
    ),
    (
        "int main(int n) {\n  return n;\n}\n}",
        "no { is open here: delete this }",
        "int main(int n) {\n  return n;\n}",
    ),
    (
        "main() {\n  return 0;\n}",
        "write int main(..) { .. }",
        "int main() {\n  return 0;\n}",
    ),
    (
        "sum2 = 3;\nint main(int n) {\n  return n;\n}",
        "a function begins with int or void",
        "int main(int n) {\n  return n;\n}",
    ),
    (
        "int main(int n) {\n  if (n) {\n    n = 1;\n  return n;\n}\nint f(int n) {\n  return 0;\n}",
        "write } before this line",
        "int main(int n) {\n  if (n) {\n    n = 1;\n  }\n  return n;\n}\nint f(int n) {\n  return 0;\n}",
    ),
    (
        "int main(int n) {\n  if (n) {\n    n = 1;\n  return n;\n}\nint f() {\n  return 0;\n}",
        "write } before this line",
        "int main(int n) {\n  if (n) {\n    n = 1;\n  }\n  return n;\n}\nint f() {\n  return 0;\n}",
    ),
    (
        "int main(int n) {\n  if (n) {\n    n = 1;\n  return n;\n}\nvoid f() {\n}",
        "write } before this line",
        "int main(int n) {\n  if (n) {\n    n = 1;\n  }\n  return n;\n}\nvoid f() {\n}",
    ),
    (
        "int main(int n) {\n  int x = 0;\n  cilk_for (int i = 0; i < n; i++) {\n    x--;\n  }\n  return x;\n}",
        "write reducer sum r; outside of functions and r += -1; here, and delete the other uses of x: the run prints r at its end",
        "reducer sum r;\nint main(int n) {\n  cilk_for (int i = 0; i < n; i++) {\n    r += -1;\n  }\n  return 0;\n}",
    ),
    (
        "int main(int n) {\n  int x = 0;\n  cilk_for (int i = 0; i < n; i++) {\n    x++;\n  }\n  return x;\n}",
        "write reducer sum r; outside of functions and r += 1; here, and delete the other uses of x: the run prints r at its end",
        "reducer sum r;\nint main(int n) {\n  cilk_for (int i = 0; i < n; i++) {\n    r += 1;\n  }\n  return 0;\n}",
    ),
    (
        "int main(int n) {\n  int x = 0;\n  cilk_for (int i = 0; i < n; i++) {\n    ++x;\n  }\n  return x;\n}",
        "write reducer sum r; outside of functions and r += 1; here, and delete the other uses of x: the run prints r at its end",
        "reducer sum r;\nint main(int n) {\n  cilk_for (int i = 0; i < n; i++) {\n    r += 1;\n  }\n  return 0;\n}",
    ),
    (
        "int main(int n) {\n  int x = 0;\n  cilk_for (int i = 0; i < n; i++) {\n    x -= i;\n  }\n  return x;\n}",
        "write reducer sum r; outside of functions and r += -i; here, and delete the other uses of x: the run prints r at its end",
        "reducer sum r;\nint main(int n) {\n  cilk_for (int i = 0; i < n; i++) {\n    r += -i;\n  }\n  return 0;\n}",
    ),
    (
        "int main(int n) {\n  int x = 1;\n  cilk_for (int i = 0; i < n; i++) {\n    x *= 2;\n  }\n  return x;\n}",
        "declare another integer in its body, or write a while, whose iterations run one by one",
        "int main(int n) {\n  int x = 1;\n  int i = 0;\n  while (i < n) {\n    x = x * 2;\n    i = i + 1;\n  }\n  return x;\n}",
    ),
    (
        "int main(int n) {\n  int a[n];\n  cilk_for (int i = 0; i < n; i++) {\n    a[i]++;\n  }\n  return n;\n}",
        "write a[i] = a[i] + 1; and over (a) in the head of the cilk_for, which allows the element of its variable",
        "int main(int n) {\n  int a[n];\n  cilk_for (int i = 0; i < n; i++) over (a) {\n    a[i] = a[i] + 1;\n  }\n  return n;\n}",
    ),
    (
        "int main(int n) {\n  int a[n];\n  cilk_for (int i = 0; i < n; i++) {\n    a[i] *= 2;\n  }\n  return n;\n}",
        "write a[i] = a[i] * 2; and over (a) in the head of the cilk_for, which allows the element of its variable",
        "int main(int n) {\n  int a[n];\n  cilk_for (int i = 0; i < n; i++) over (a) {\n    a[i] = a[i] * 2;\n  }\n  return n;\n}",
    ),
    (
        "int main(int n) {\n  int a[n];\n  cilk_for (int i = 0; i < n; i++) {\n    a[i] += 2;\n  }\n  return n;\n}",
        "write a[i] = a[i] + 2; and over (a) in the head of the cilk_for, which allows the element of its variable",
        "int main(int n) {\n  int a[n];\n  cilk_for (int i = 0; i < n; i++) over (a) {\n    a[i] = a[i] + 2;\n  }\n  return n;\n}",
    ),
    (
        "reducer sum s;\nint main(int n) {\n  cilk_for (int i = 0; i < n; i++) {\n    s *= 2;\n  }\n  return n;\n}",
        "a reducer only takes +=, or max= if it is declared by reducer max",
        "reducer sum s;\nint main(int n) {\n  cilk_for (int i = 0; i < n; i++) {\n    s += 2;\n  }\n  return n;\n}",
    ),
    (
        "int main(int n) {\n  int x = 0;\n  cilk_for (int i = 0; i < n; i++) {\n    x += i;\n  }\n  return x;\n}",
        "write reducer sum r; outside of functions and r += .. here, and delete the other uses of x: the run prints r at its end",
        "reducer sum r;\nint main(int n) {\n  cilk_for (int i = 0; i < n; i++) {\n    r += i;\n  }\n  return 0;\n}",
    ),
    (
        "int f(long n) {\n  return n;\n}\nint main(int n) {\n  return n;\n}",
        "there is no type long: write int n; each parameter is int n, int a[] or const int a[]",
        "int f(int n) {\n  return n;\n}\nint main(int n) {\n  return n;\n}",
    ),
    (
        "int main(int n) {\n  int x = 0;\n  cilk_for (int i = 0; i < n; i++) {\n    x += i;\n  }\n  n++;\n  return x;\n}",
        "x is not a reducer: write reducer sum r; outside of functions and r += i; here, and delete the other uses of x: the run prints r at its end",
        "reducer sum r;\nint main(int n) {\n  cilk_for (int i = 0; i < n; i++) {\n    r += i;\n  }\n  n = n + 1;\n  return 0;\n}",
    ),
    (
        "int main(int n) {\n  int x = 0;\n  cilk_for (int i = 0; i < n; i++) {\n    x = x + i;\n  }\n  return x;\n}",
        "write reducer sum r; outside of functions and r += i; here (max: reducer max r; and r max= ..;), and delete the other uses of x: the run prints r at its end",
        "reducer sum r;\nint main(int n) {\n  cilk_for (int i = 0; i < n; i++) {\n    r += i;\n  }\n  return 0;\n}",
    ),
    (
        "#include <x.h>\nint main(int n) {\n  return n;\n}",
        "delete the line",
        "int main(int n) {\n  return n;\n}",
    ),
    (
        "#define N 10\nint main(int n) {\n  return n;\n}",
        "delete the line; write the value where the name is used, and a function for a macro with parameters",
        "int main(int n) {\n  return n;\n}",
    ),
    (
        "extern \"C\" {\nint main(int n) {\n  return n;\n}\n}",
        "delete extern \"C\" and its braces",
        "int main(int n) {\n  return n;\n}",
    ),
    (
        "void main() { }",
        "main must return int, not void",
        "int main() { return 0; }",
    ),
    (
        "int f(int a[]) {\n  return a;\n}\nint main(int n) {\n  return n;\n}",
        "make it void, and let the caller pass the array, as int a[]",
        "void f(int a[]) {\n  return;\n}\nint main(int n) {\n  return n;\n}",
    ),
    (
        "int f(int a[]) {\n  cut a at 1 as l, r {\n    return l[0];\n  }\n}\nint main(int n) {\n  return n;\n}",
        "declare int t = 0; before that block, assign to t in it, and write return t; after it",
        "int f(int a[]) {\n  int t = 0;\n  cut a at 1 as l, r {\n    t = l[0];\n  }\n  return t;\n}\nint main(int n) {\n  return n;\n}",
    ),
    (
        "int f(int n) {\n  if (n) {\n    return 1;\n  }\n}\nint main(int n) {\n  return n;\n}",
        "make its last statement a return",
        "int f(int n) {\n  if (n) {\n    return 1;\n  }\n  return 0;\n}\nint main(int n) {\n  return n;\n}",
    ),
    (
        "int get(int a[]) {\n  return a[0];\n}\nint f(const int a[]) {\n  int x = 0;\n  x = get(a);\n  return x;\n}\nint main() {\n  return 0;\n}",
        "a is const (line 4): write const before this parameter of get if get only reads a; otherwise delete const in line 4",
        "int get(const int a[]) {\n  return a[0];\n}\nint f(const int a[]) {\n  int x = 0;\n  x = get(a);\n  return x;\n}\nint main() {\n  return 0;\n}",
    ),
    (
        "void f(const int c[]) {\n  cut c at 1 as l, r { }\n}\nint main() {\n  return 0;\n}",
        "c is const (line 1), and a const array is not cut: delete const, or pass the whole c to const parameters, and the ends of a part as integers",
        "void f(int c[]) {\n  cut c at 1 as l, r { }\n}\nint main() {\n  return 0;\n}",
    ),
    (
        "void smooth(int a[], int b[]) {\n  cilk_for (int i = 1; i < len(a) - 1; i++) over (a, b) {\n    b[i] = a[i - 1] + a[i + 1];\n  }\n}\nint main(int n) {\n  int a[n];\n  int b[n];\n  smooth(a, b);\n  return b[0];\n}",
        "write void halve_b(const int a[], int b[], int from) { int r = len(b); if (r < 100) { int i = 0; while (i < r) { .. i = i + 1; } return; } r = r / 2; cut b at r as left, right { cilk_spawn halve_b(a, left, from); halve_b(a, right, from + r); } } with the body of the loop in the while, b[i] for its element of b and from + i for its variable, and halve_b(a, b, 0); for the loop; add a parameter for each other name in the body, and test from + i if the loop leaves out elements",
        "void halve_b(const int a[], int b[], int from) { int r = len(b); if (r < 100) { int i = 0; while (i < r) { if (from + i > 0) { if (from + i < len(a) - 1) { b[i] = a[from + i - 1] + a[from + i + 1]; } } i = i + 1; } return; } r = r / 2; cut b at r as left, right { cilk_spawn halve_b(a, left, from); halve_b(a, right, from + r); } }\nvoid smooth(int a[], int b[]) {\n  halve_b(a, b, 0);\n}\nint main(int n) {\n  int a[n];\n  int b[n];\n  smooth(a, b);\n  return b[0];\n}",
    ),
    (
        "void f(const int a[], int b[]) {\n  cilk_for (int i = 0; i < len(b); i++) over (a, b) {\n    b[i] = a[0];\n  }\n}\nint main() {\n  return 0;\n}",
        "over lists arrays that iterations may write: delete const if each iteration uses only its own element of a; to read other elements, write void halve_b(const int a[], int b[], int from) { int r = len(b); if (r < 100) { int i = 0; while (i < r) { .. i = i + 1; } return; } r = r / 2; cut b at r as left, right { cilk_spawn halve_b(a, left, from); halve_b(a, right, from + r); } } with the body of the loop in the while, b[i] for its element of b and from + i for its variable, and halve_b(a, b, 0); for the loop; add a parameter for each other name in the body, and test from + i if the loop leaves out elements",
        "void halve_b(const int a[], int b[], int from) { int r = len(b); if (r < 100) { int i = 0; while (i < r) { b[i] = a[0]; i = i + 1; } return; } r = r / 2; cut b at r as left, right { cilk_spawn halve_b(a, left, from); halve_b(a, right, from + r); } }\nvoid f(const int a[], int b[]) {\n  halve_b(a, b, 0);\n}\nint main() {\n  return 0;\n}",
    ),
    (
        "reducer sum s;\nvoid f(const int a[]) {\n  cilk_for (int j = 0; j < len(a); j++) {\n    s += a[j];\n  }\n}\nint main() {\n  return 0;\n}",
        "a is const, and the cilk_for in line 3 may not use it: write void halve_a(const int a[], int from, int to) { if (to - from < 100) { int i = from; while (i < to) { .. i = i + 1; } return; } int r = (from + to) / 2; cilk_spawn halve_a(a, from, r); halve_a(a, r, to); } with the body of the loop in the while, and halve_a(a, LOW, HIGH); for the loop; add a parameter for each other name in the body",
        "reducer sum s;\nvoid halve_a(const int a[], int from, int to) { if (to - from < 100) { int i = from; while (i < to) { s += a[i]; i = i + 1; } return; } int r = (from + to) / 2; cilk_spawn halve_a(a, from, r); halve_a(a, r, to); }\nvoid f(const int a[]) {\n  halve_a(a, 0, len(a));\n}\nint main() {\n  return 0;\n}",
    ),
    (
        "int main(int n) {\n  int a[n];\n  cilk_for (int i = 1; i < n; i++) over (a) {\n    a[i] = a[i - 1];\n  }\n  return a[0];\n}",
        "the cilk_for in line 3 has a in over, so its body may only use a[i]; to read an element as it was before the loop, declare int r[len(a)]; there, copy it by r[k] = a[k - 1]; in a while, list r in over, and read r[i]; to read what another iteration wrote, write a while for the cilk_for",
        "int main(int n) {\n  int a[n];\n  int r[len(a)]; int k = 1; while (k < n) { r[k] = a[k - 1]; k = k + 1; }\n  cilk_for (int i = 1; i < n; i++) over (a, r) {\n    a[i] = r[i];\n  }\n  return a[0];\n}",
    ),
    (
        "int f(int n) {\n  return n;\n}\nint main(int n) {\n  n = f(1) + 2;\n  n = f(3) + 4;\n  return n;\n}",
        "t:6: unexpected +: a call is a statement of its own: write int t = 0; t = f(3); n = t + 4;",
        "int f(int n) {\n  return n;\n}\nint main(int n) {\n  int r = 0; r = f(1); n = r + 2;\n  int t = 0; t = f(3); n = t + 4;\n  return n;\n}",
    ),
    (
        "int main(int n) {\n  cilk_scope {\n    if (n) {\n      return 1;\n    }\n    return 2;\n  }\n}",
        "t:6: no return is allowed in cilk_scope, cut, region or cilk_for: declare int r = 0; before the block, assign to r in it, and write return r; after it",
        "int main(int n) {\n  int r = 0;\n  cilk_scope {\n    if (n) {\n      r = 1;\n    } else {\n      r = 2;\n    }\n  }\n  return r;\n}",
    ),
];

/// Items and parameters.
pub fn sources() -> &'static [Habit] {
    SOURCES
}

/// Whole functions, and loops that update a variable from outside.
pub fn updates() -> &'static [Habit] {
    UPDATES
}
