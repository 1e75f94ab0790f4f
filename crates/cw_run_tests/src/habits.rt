//! Names that are near to others, texts that are shown, and each line of programs from C.

use crate::explained::{all_explained, is_said};

// A source, a part of its explanation, and the nearest wrong text, which is not in it.
static SOURCES: &[(&str, &str, &str)] = &[
    (
        "int fib(int n) {\n  return n;\n}\nint main(int n) {\n  n = fob(3);\n  return n;\n}",
        "did you mean fib instead of fob?",
        "print",
    ),
    (
        "int main(int n) {\n  int total = 0;\n  totl = 1;\n  return total;\n}",
        "t:3: did you mean total instead of totl?",
        "print",
    ),
    (
        "int main(int n) {\n  if (n) {\n    int total = 0;\n  }\n  totl = 1;\n  return 0;\n}",
        "totl is not declared here",
        "did you mean",
    ),
    (
        "int main(int n) {\n  pritn(n);\n  return 0;\n}",
        "did you mean print instead of pritn?",
        "main in place",
    ),
    (
        "int main(int n) {\n  printf(n);\n  return 0;\n}",
        "there is no printf: write print(x); for each integer x",
        "did you mean",
    ),
    (
        "int main(int n) {\n  return NULL;\n}",
        "there is no NULL: there are no pointers: write 0",
        "did you mean",
    ),
    (
        "int main(int n) {\n  n = helper(n);\n  return 0;\n}\nint helpers(int n) {\n  return n;\n}",
        "did you mean helpers instead of helper?",
        "print",
    ),
    (
        "int main(int n) {\n  xy = 1;\n  int xz = 0;\n  return 0;\n}",
        "xy is not declared here",
        "did you mean",
    ),
    (
        "int f(int a[]) {\n  cut a at 1 as l, r {\n    return l[0];\n  }\n}\nint main() {\n  return 0;\n}",
        "t:1: f must return an integer at its end, and the return in line 3 is in a cilk_scope, cut, region or cilk_for, where none is allowed: declare int t = 0; before that block, assign to t in it, and write return t; after it\n  1 | int f(int a[]) {\n    |     ^\n  3 |     return l[0];\n",
        "t:3:",
    ),
    // that return once, and one of another function
    (
        "int f(int n) {\n  cilk_scope {\n    return n;\n  }\n}\nint main() {\n  region t {\n    return 1;\n  }\n  return 0;\n}",
        "t:8: no return is allowed in cilk_scope",
        "t:3:",
    ),
    (
        "int mian(int man) {\n  return 0;\n}",
        "t:1: did you mean main instead of mian?",
        "instead of man?",
    ),
    (
        "int Main(int n) {\n  return n;\n}\nint helper(int n) {\n  return n;\n}",
        "did you mean main instead of Main?",
        "instead of helper?",
    ),
    (
        "int f(int a[]) {\n  int n = 0;\n  n = lne(a);\n  return n;\n}\nint main() {\n  return 0;\n}",
        "t:3: did you mean len instead of lne?",
        "print",
    ),
    (
        "int main(int n) {\n  retrun(n);\n  return n;\n}",
        "t:2: did you mean return instead of retrun?",
        "print",
    ),
    (
        "int f(int n) {\n  if (n) {\n    return 1;\n  }\n}\nint main() {\n  region t {\n    n = 1;\n  }\n  return 0;\n}",
        "may end without a return",
        "where none is allowed",
    ),
    (
        "int get(const int a[]) {\n  return a[0];\n}\nint main() {\n  int a[4];\n  cilk_for (int i = 0; i < 4; i++) {\n    get(a);\n  }\n  return 0;\n}",
        "write void halve_a(const int a[], int from, int to) { if (to - from < 100) { int i = from; while (i < to) { .. i = i + 1; } return; } int r = (from + to) / 2; cilk_spawn halve_a(a, from, r); halve_a(a, r, to); } with the body of the loop in the while, and halve_a(a, LOW, HIGH); for the loop; add a parameter for each other name in the body",
        "cilk_sync",
    ),
    // a table that is only read, beside an array of which two calls write parts
    (
        "void fill(int b[], int t[], int i, int end) {\n  cilk_for (int k = i; k < end; k++) over (b) {\n    b[k] = t[k % 2];\n  }\n}\nint main() {\n  int b[8];\n  int t[2];\n  cilk_spawn fill(b, t, 0, 4);\n  cilk_spawn fill(b, t, 4, 8);\n  return b[0];\n}",
        "t:3: the cilk_for in line 2 may not use t: write over (t) in its head to read the element of the loop variable; to read other elements, write void halve_b(const int t[], int b[], int from) { int r = len(b); if (r < 100) { int i = 0; while (i < r) { .. i = i + 1; } return; } r = r / 2; cut b at r as left, right { cilk_spawn halve_b(t, left, from); halve_b(t, right, from + r); } } with the body of the loop in the while, b[i] for its element of b and from + i for its variable, and halve_b(t, b, 0); for the loop; add a parameter for each other name in the body, and test from + i if the loop leaves out elements",
        "t:3: b",
    ),
    (
        "void fill(int b[], const int t[], int i, int end) {\n  while (i < end) {\n    b[i] = t[i % 2];\n    i = i + 1;\n  }\n}\nint main() {\n  int b[8];\n  int t[2];\n  cilk_spawn fill(b, t, 0, 4);\n  cilk_spawn fill(b, t, 4, 8);\n  return b[0];\n}",
        "t:11: this statement passes b, but the spawn in line 10 holds b until the next cilk_sync: write const before the parameter of each called function if it only reads b; otherwise write cut b at k as left, right { .. } and pass left and right",
        "t is",
    ),
    (
        "int main() {\n  int a[4];\n  int b[4];\n  cilk_for (int i = 0; i < 4; i++) over (b) {\n    b[i] = a[i];\n  }\n  return 0;\n}",
        "over (a)",
        "cilk_sync",
    ),
    (
        "int main() {\n\tint x\t= \u{1b}[2J;\r\n  return 0;\n}",
        "  2 |  int x = \\x1b[2J;\n",
        "\u{1b}",
    ),
    (
        "int main() {\n  return 1 2; // \u{7} \u{7f}\n}",
        "  2 |   return 1 2; // \\x07 \\x7f\n",
        "\u{7}",
    ),
    (
        "int main() {\r\n  int x = 1\r\r3; // \t\r\n}",
        "  2 |   int x = 1\\x0d\\x0d3; //\n",
        "\r",
    ),
    (
        "int main() {\n  return 1 2; // \u{e9}\n}",
        "// \\xc3\\xa9\n",
        "\u{e9}",
    ),
];

// The tutorial's text as it stands, and with what its first round rejects left out: each line of the explanation.
static FIB: &[(&str, &str)] = &[
    (
        "#include <stdio.h>\n#include <stdlib.h>\n#include <cilk/cilk.h>\n\nint fib(int n) {\n  if (n < 2)\n    return n;\n  int x, y;\n  cilk_scope {\n    x = cilk_spawn fib(n - 1);\n    y = fib(n - 2);\n  }\n  return x + y;\n}\n\nint main(int argc, char *argv[]) {\n  int n = atoi(argv[1]);\n  int result = fib(n);\n  printf(\"fib(%d) = %d\\n\", n, result);\n  return 0;\n}\n",
        "refused 1 line 1\nt:1: there are no directives: delete the line\n  1 | #include <stdio.h>\n    | ^\nt:2: there are no directives: delete the line\n  2 | #include <stdlib.h>\n    | ^\nt:3: there are no directives: delete the line\n  3 | #include <cilk/cilk.h>\n    | ^\nt:7: unexpected return: put the block of if in braces: { return n; }\n  7 |     return n;\n    |     ^\nt:8: unexpected ,: a declaration has one name and a value: write int x = 0; int y = 0;\n  8 |   int x, y;\n    |        ^\nt:16: unexpected char: main takes integers only: write int main(int n), use n for the first argument, and delete tests of argc: the number of arguments is checked\n  16 | int main(int argc, char *argv[]) {\n     |                    ^\nt:17: unexpected (: there is no atoi: declare a parameter of main for each argument, as int main(int n), and delete this statement\n  17 |   int n = atoi(argv[1]);\n     |               ^\nt:18: unexpected (: a call is a statement of its own: write int result = 0; result = fib(n);\n  18 |   int result = fib(n);\n     |                   ^\nt:19: there are no strings: write print(x); for each integer x\n  19 |   printf(\"fib(%d) = %d\\n\", n, result);\n     |          ^\n",
    ),
    (
        "int fib(int n) {\n  if (n < 2)\n    return n;\n  int x, y;\n  cilk_scope {\n    x = cilk_spawn fib(n - 1);\n    y = fib(n - 2);\n  }\n  return x + y;\n}\n\nint main(int argc, char *argv[]) {\n  int n = atoi(argv[1]);\n  int result = fib(n);\n  print(result);\n  return 0;\n}\n",
        "refused 2 line 3\nt:3: unexpected return: put the block of if in braces: { return n; }\n  3 |     return n;\n    |     ^\nt:4: unexpected ,: a declaration has one name and a value: write int x = 0; int y = 0;\n  4 |   int x, y;\n    |        ^\nt:12: unexpected char: main takes integers only: write int main(int n), use n for the first argument, and delete tests of argc: the number of arguments is checked\n  12 | int main(int argc, char *argv[]) {\n     |                    ^\nt:13: unexpected (: there is no atoi: declare a parameter of main for each argument, as int main(int n), and delete this statement\n  13 |   int n = atoi(argv[1]);\n     |               ^\nt:14: unexpected (: a call is a statement of its own: write int result = 0; result = fib(n);\n  14 |   int result = fib(n);\n     |                   ^\n",
    ),
    (
        "int f(int n) {\n  int x = cilk_spawn f(n - 1);\n  int y = f(n - 2);\n  cilk_sync;\n  for (int i = 0; i < n; i++) { n++; }\n  if (n) { n--; } else n = 2;\n  long z;\n  cilk_for (int i = 0; i <= n; i++) { }\n  return x + y;\n}\n",
        "refused 2 line 2\nt:1: the source has no function main: write int main(int n) { .. }, with an integer parameter for each argument\n  1 | int f(int n) {\nt:2: unexpected cilk_spawn: a spawn is a statement of its own: write int x = 0; x = cilk_spawn f(n - 1);\n  2 |   int x = cilk_spawn f(n - 1);\n    |           ^\nt:3: unexpected (: a call is a statement of its own: write int y = 0; y = f(n - 2);\n  3 |   int y = f(n - 2);\n    |            ^\nt:5: unexpected int: there is no for: write int i = LOW; while (i < HIGH) { .. i = i + 1; } (without int if i is declared), or cilk_for (int i = LOW; i < HIGH; i++) { .. } for independent iterations\n  5 |   for (int i = 0; i < n; i++) { n++; }\n    |        ^\nt:5: unexpected ++: ++ is only for the head of a cilk_for: write n = n + 1;\n  5 |   for (int i = 0; i < n; i++) { n++; }\n    |                                  ^\nt:6: unexpected -: there is no --: write n = n - 1;\n  6 |   if (n) { n--; } else n = 2;\n    |             ^\nt:6: unexpected n: put the block of else in braces: { n = 2; }\n  6 |   if (n) { n--; } else n = 2;\n    |                        ^\nt:7: unexpected z: there is no type long, and a declaration has a value: write int z = 0;\n  7 |   long z;\n    |        ^\nt:8: unexpected <=: a cilk_for needs <: write i < n + 1\n  8 |   cilk_for (int i = 0; i <= n; i++) { }\n    |                          ^\n",
    ),
];

#[test]
fn every_line_that_is_known(rt: HostRuntime) {
    all_explained(&rt, rt.alloc(), FIB);
}

#[test]
fn parts_of_explanations(rt: HostRuntime) {
    for (text, wanted, unwanted) in SOURCES {
        let holds = is_said(rt.alloc(), "", text, "", wanted, unwanted);
        assert!(rt; holds, "{text}");
    }
}
