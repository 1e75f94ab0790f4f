//! A row for each rule of ownership.

use crate::explained::all_explained;

// What a name is touched by while it is taken.
static TAKEN: &[(&str, &str)] = &[
    // the sample
    (
        "int fib(int n) {\n  if (n < 2) {\n    return n;\n  }\n  int x = 0;\n  int y = 0;\n  y = fib(n - 2);\n\n\n  x = cilk_spawn fib(n - 1);\n\n  print(x);\n  cilk_sync;\n  return x + y;\n}\nint main() { return 0; }",
        "refused 4 line 12\nt:12: this statement reads x, but the spawn in line 10 assigns to x at the next cilk_sync: write cilk_sync; before this statement\n  10 |   x = cilk_spawn fib(n - 1);\n  12 |   print(x);\n     |         ^\n",
    ),
    (
        "int f() { return 1; }\nint main() {\n  int x = 0;\n  x = cilk_spawn f();\n  x = 2;\n  cilk_sync;\n  return x;\n}",
        "refused 4 line 5\nt:5: this statement writes x, but the spawn in line 4 assigns to x at the next cilk_sync: write cilk_sync; before this statement\n  4 |   x = cilk_spawn f();\n  5 |   x = 2;\n    |   ^\n",
    ),
    (
        "void f(int a[]) { }\nint main() {\n  int a[4];\n  cilk_spawn f(a);\n  print(len(a));\n  cilk_sync;\n  return 0;\n}",
        "refused 4 line 5\nt:5: this statement reads len(a), but the spawn in line 4 holds a until the next cilk_sync: write int r = len(a); before line 4, and r here; cilk_sync; before this statement also works, but waits for the spawn\n  4 |   cilk_spawn f(a);\n  5 |   print(len(a));\n    |             ^\n",
    ),
    (
        "void f(int a[]) { }\nint main() {\n  int a[4];\n  cilk_spawn f(a);\n  f(a);\n  cilk_sync;\n  return 0;\n}",
        "refused 4 line 5\nt:5: this statement passes a, but the spawn in line 4 holds a until the next cilk_sync: write const before the parameter of each called function if it only reads a; otherwise write cut a at k as left, right { .. } and pass left and right, give one call an array of its own, or write cilk_sync; between them\n  4 |   cilk_spawn f(a);\n  5 |   f(a);\n    |     ^\n",
    ),
    (
        "void f(int a[]) { }\nint main() {\n  int a[4];\n  cilk_spawn f(a);\n  cut a at 2 as l, r { }\n  cilk_sync;\n  return 0;\n}",
        "refused 4 line 5\nt:5: this statement cuts a, but the spawn in line 4 holds a until the next cilk_sync: write cilk_sync; before this statement\n  4 |   cilk_spawn f(a);\n  5 |   cut a at 2 as l, r { }\n    |       ^\n",
    ),
    (
        "void f(int a[]) { }\nint main() {\n  int a[4];\n  cilk_spawn f(a);\n  cilk_for (int i = 0; i < 4; i++) over (a) { }\n  cilk_sync;\n  return 0;\n}",
        "refused 4 line 5\nt:5: this loop lists a in over, but the spawn in line 4 holds a until the next cilk_sync: write cilk_sync; before this statement\n  4 |   cilk_spawn f(a);\n  5 |   cilk_for (int i = 0; i < 4; i++) over (a) { }\n    |                                          ^\n",
    ),
    (
        "int main() {\n  int a[4];\n  cut a at 2 as l, r {\n    a[0] = 1;\n  }\n  return 0;\n}",
        "refused 4 line 4\nt:4: this statement writes a, but the cut in line 3 holds a until its block ends: use its parts l, r there\n  3 |   cut a at 2 as l, r {\n  4 |     a[0] = 1;\n    |     ^\n",
    ),
    (
        "int f() { return 1; }\nint main(int n) {\n  int x = 0;\n  while (n > 0) {\n    print(x);\n    x = cilk_spawn f();\n    n = n - 1;\n  }\n  cilk_sync;\n  return x;\n}",
        "refused 4 line 5\nt:5: this statement reads x, but the spawn in line 6 assigns to x at the next cilk_sync (in an earlier iteration of the while): write cilk_sync; at the end of the body of the while\n  5 |     print(x);\n    |           ^\n  6 |     x = cilk_spawn f();\nt:6: this statement writes x, but the spawn in line 6 assigns to x at the next cilk_sync: write cilk_sync; after the spawn, or at the end of the body of the while around it\n  6 |     x = cilk_spawn f();\n    |     ^\n",
    ),
    (
        "int f() { return 1; }\nint main(int n) {\n  if (n) {\n    int x = 0;\n    x = cilk_spawn f();\n  }\n  return 0;\n}",
        "refused 4 line 4\nt:4: the block that declares x ends while the spawn in line 5 still holds x: write cilk_sync; at the end of this block; for calls of a loop that run in parallel write a cilk_for, or a function that halves the range and spawns itself\n  4 |     int x = 0;\n    |         ^\n  5 |     x = cilk_spawn f();\n",
    ),
    // arrays that are only read
    (
        "int get(const int a[]) { return a[0]; }\nint main() {\n  int a[2];\n  int x = 0;\n  x = cilk_spawn get(a);\n  a[0] = 1;\n  cilk_sync;\n  return x;\n}",
        "refused 4 line 6\nt:6: this statement writes a, but the spawn in line 5 reads a until the next cilk_sync: write cilk_sync; before this statement\n  5 |   x = cilk_spawn get(a);\n  6 |   a[0] = 1;\n    |   ^\n",
    ),
    (
        "void f(int a[]) { }\nint get(const int a[]) { return a[0]; }\nint main() {\n  int a[2];\n  int x = 0;\n  x = cilk_spawn get(a);\n  f(a);\n  cilk_sync;\n  return x;\n}",
        "refused 4 line 7\nt:7: this statement passes a, but the spawn in line 6 reads a until the next cilk_sync: write const before this parameter, too, if the function only reads a; otherwise write cilk_sync; before this statement\n  6 |   x = cilk_spawn get(a);\n  7 |   f(a);\n    |     ^\n",
    ),
    (
        "void f(int a[]) { }\nint get(const int a[]) { return a[0]; }\nint main() {\n  int a[2];\n  int x = 0;\n  cilk_spawn f(a);\n  x = get(a);\n  cilk_sync;\n  return x;\n}",
        "refused 4 line 7\nt:7: this statement reads a, but the spawn in line 6 holds a until the next cilk_sync: write cilk_sync; before this statement\n  6 |   cilk_spawn f(a);\n  7 |   x = get(a);\n    |           ^\n",
    ),
    (
        "int get(const int a[]) { return a[0]; }\nint main(int n) {\n  if (n) {\n    int a[2];\n    cilk_spawn get(a);\n  }\n  return 0;\n}",
        "refused 4 line 4\nt:4: the block that declares a ends while the spawn in line 5 still holds a: write cilk_sync; at the end of this block; for calls of a loop that run in parallel write a cilk_for, or a function that halves the range and spawns itself\n  4 |     int a[2];\n    |         ^\n  5 |     cilk_spawn get(a);\n",
    ),
    // in one line nothing is said of turns
    (
        "int f() { return 1; }\nint main() {\n  int x = 0;\n  x = cilk_spawn f(); print(x);\n  cilk_sync;\n  return x;\n}",
        "refused 4 line 4\nt:4: this statement reads x, but the spawn in line 4 assigns to x at the next cilk_sync: write cilk_sync; after the spawn, or at the end of the body of the while around it\n  4 |   x = cilk_spawn f(); print(x);\n    |   ^\n",
    ),
    // the test of a while, which a turn before spawned
    (
        "int f() { return 1; }\nint main(int n) {\n  int x = 1;\n  while (x > 0) {\n    x = cilk_spawn f();\n  }\n  return x;\n}",
        "refused 4 line 4\nt:4: this statement reads x, but the spawn in line 5 assigns to x at the next cilk_sync (in an earlier iteration of the while): write cilk_sync; at the end of the body of the while\n  4 |   while (x > 0) {\n    |          ^\n  5 |     x = cilk_spawn f();\nt:5: this statement writes x, but the spawn in line 5 assigns to x at the next cilk_sync: write cilk_sync; after the spawn, or at the end of the body of the while around it\n  5 |     x = cilk_spawn f();\n    |     ^\nt:7: this statement reads x, but the spawn in line 5 assigns to x at the next cilk_sync: write cilk_sync; before this statement\n  5 |     x = cilk_spawn f();\n  7 |   return x;\n    |          ^\n",
    ),
    // what a turn before passed
    (
        "void f(int a[]) { }\nint main(int n) {\n  int a[4];\n  while (n > 0) {\n    f(a);\n    cilk_spawn f(a);\n    n = n - 1;\n  }\n  return 0;\n}",
        "refused 4 line 5\nt:5: this statement passes a, but the spawn in line 6 holds a until the next cilk_sync (in an earlier iteration of the while): write const before the parameter of each called function if it only reads a; otherwise write cut a at k as left, right { .. } and pass left and right, give one call an array of its own, or write cilk_sync; between them\n  5 |     f(a);\n    |       ^\n  6 |     cilk_spawn f(a);\nt:6: this statement passes a, but the spawn in line 6 holds a until the next cilk_sync: write const before the parameter of each called function if it only reads a; otherwise write cut a at k as left, right { .. } and pass left and right, give one call an array of its own, or write cilk_sync; between them\n  6 |     cilk_spawn f(a);\n    |                  ^\n",
    ),
];

// Which of several spawns is told.
static TAKERS: &[(&str, &str)] = &[
    // one branch joins its own, so the other's is told
    (
        "int f() { return 1; }\nint main(int n) {\n  int x = 0;\n  if (n) {\n    x = cilk_spawn f();\n  } else {\n    x = cilk_spawn f();\n    cilk_sync;\n  }\n  print(x);\n  cilk_sync;\n  return x;\n}",
        "refused 4 line 10\nt:10: this statement reads x, but the spawn in line 5 assigns to x at the next cilk_sync: write cilk_sync; before this statement\n   5 |     x = cilk_spawn f();\n  10 |   print(x);\n     |         ^\n",
    ),
    (
        "int f() { return 1; }\nint main(int n) {\n  int x = 0;\n  if (n) {\n    x = cilk_spawn f();\n    cilk_sync;\n  } else {\n    x = cilk_spawn f();\n  }\n  print(x);\n  cilk_sync;\n  return x;\n}",
        "refused 4 line 10\nt:10: this statement reads x, but the spawn in line 8 assigns to x at the next cilk_sync: write cilk_sync; before this statement\n   8 |     x = cilk_spawn f();\n  10 |   print(x);\n     |         ^\n",
    ),
    // one that was joined is not told, nor one behind the while
    (
        "int f() { return 1; }\nint main(int n) {\n  int x = 0;\n  x = cilk_spawn f();\n  cilk_sync;\n  while (n > 0) {\n    print(x);\n    x = cilk_spawn f();\n    n = n - 1;\n  }\n  cilk_sync;\n  x = cilk_spawn f();\n  cilk_sync;\n  return x;\n}",
        "refused 4 line 7\nt:7: this statement reads x, but the spawn in line 8 assigns to x at the next cilk_sync (in an earlier iteration of the while): write cilk_sync; at the end of the body of the while\n  7 |     print(x);\n    |           ^\n  8 |     x = cilk_spawn f();\nt:8: this statement writes x, but the spawn in line 8 assigns to x at the next cilk_sync: write cilk_sync; after the spawn, or at the end of the body of the while around it\n  8 |     x = cilk_spawn f();\n    |     ^\n",
    ),
    // names of two blocks, one behind the other
    (
        "int f() { return 1; }\nint main(int n) {\n  if (n) {\n    int x = 0;\n    x = cilk_spawn f();\n    cilk_sync;\n  }\n  if (n) {\n    int y = 0;\n    y = cilk_spawn f();\n    y = 1;\n    cilk_sync;\n  }\n  return 0;\n}",
        "refused 4 line 11\nt:11: this statement writes y, but the spawn in line 10 assigns to y at the next cilk_sync: write cilk_sync; before this statement\n  10 |     y = cilk_spawn f();\n  11 |     y = 1;\n     |     ^\n",
    ),
    // a spawn outside of the block, in which another sync joins nothing of it
    (
        "int f() { return 1; }\nint main() {\n  int x = 0;\n  int y = 0;\n  x = cilk_spawn f();\n  cilk_scope {\n    y = cilk_spawn f();\n    cilk_sync;\n    print(y);\n    print(x);\n  }\n  cilk_sync;\n  return x;\n}",
        "refused 4 line 10\nt:10: this statement reads x, but the spawn in line 5 assigns to x at the next cilk_sync outside of this block: write cilk_sync; before this block\n   5 |   x = cilk_spawn f();\n  10 |     print(x);\n     |           ^\n",
    ),
    // a cut inside of another, and an array that a spawn of the inner one has
    (
        "void f(int a[]) { }\nint main() {\n  int a[8];\n  cut a at 4 as l, r {\n    cut l at 2 as ll, lr {\n      cilk_spawn f(ll);\n      f(lr);\n      f(l);\n    }\n  }\n  return 0;\n}",
        "refused 4 line 8\nt:8: this statement passes l, but the cut in line 5 holds l until its block ends: use its parts ll, lr there\n  5 |     cut l at 2 as ll, lr {\n  8 |       f(l);\n    |         ^\n",
    ),
    // what reads an array in one branch and has it in the other
    (
        "void f(int a[]) { }\nint get(const int a[]) { return a[0]; }\nint main(int n) {\n  int a[2];\n  if (n) {\n    cilk_spawn get(a);\n  } else {\n    cilk_spawn f(a);\n  }\n  print(a[0]);\n  cilk_sync;\n  return 0;\n}",
        "refused 4 line 10\nt:10: this statement reads a, but the spawn in line 8 holds a until the next cilk_sync: write cilk_sync; before this statement\n   8 |     cilk_spawn f(a);\n  10 |   print(a[0]);\n     |         ^\n",
    ),
    // in the head of a loop, before which a sync joins it
    (
        "int get(const int a[]) { return a[0]; }\nint main() {\n  int a[4];\n  int x = 0;\n  x = cilk_spawn get(a);\n  cilk_for (int i = 0; i < 4; i++) over (a) {\n    a[i] = i;\n  }\n  cilk_sync;\n  return x;\n}",
        "refused 4 line 6\nt:6: this loop lists a in over, but the spawn in line 5 reads a until the next cilk_sync: write cilk_sync; before this statement\n  5 |   x = cilk_spawn get(a);\n  6 |   cilk_for (int i = 0; i < 4; i++) over (a) {\n    |                                          ^\nt:7: this statement writes a, but the spawn in line 5 reads a until the next cilk_sync outside of this block: write cilk_sync; before this block\n  5 |   x = cilk_spawn get(a);\n  7 |     a[i] = i;\n    |     ^\n",
    ),
    // in the body of a loop, in which a sync joins none of it
    (
        "int f() { return 1; }\nint main() {\n  int x = 0;\n  int y = 0;\n  x = cilk_spawn f();\n  cilk_for (int i = 0; i < x; i++) { }\n  cilk_for (int i = 0; i < 4; i++) {\n    print(x);\n  }\n  cilk_sync;\n  return x;\n}",
        "refused 4 line 6\nt:6: this statement reads x, but the spawn in line 5 assigns to x at the next cilk_sync: write cilk_sync; before this statement\n  5 |   x = cilk_spawn f();\n  6 |   cilk_for (int i = 0; i < x; i++) { }\n    |                            ^\nt:8: this statement reads x, but the spawn in line 5 assigns to x at the next cilk_sync outside of this block: write cilk_sync; before this block\n  5 |   x = cilk_spawn f();\n  8 |     print(x);\n    |           ^\n",
    ),
];

static TWICE: &[(&str, &str)] = &[
    (
        "void f(int a[], int b[]) { }\nint main() {\n  int a[4];\n  f(a, a);\n  return 0;\n}",
        "refused 4 line 4\nt:4: this call passes a to two parameters of f: write const before both parameters if f only reads them; otherwise write cut a at k as left, right { .. } and pass left and right\n  4 |   f(a, a);\n    |     ^\n",
    ),
    (
        "void f(int a[], const int b[]) { }\nint main() {\n  int a[4];\n  f(a, a);\n  return 0;\n}",
        "refused 4 line 4\nt:4: this call passes a to a parameter of f that may be written and to a const one: copy a into an array of its own, or write cut a at k as left, right { .. } and pass left and right\n  4 |   f(a, a);\n    |     ^\n",
    ),
    (
        "int main() {\n  int a[4];\n  cilk_for (int i = 0; i < 4; i++) over (a, a) { }\n  return 0;\n}",
        "refused 4 line 3\nt:3: over lists a twice: list it once\n  3 |   cilk_for (int i = 0; i < 4; i++) over (a, a) { }\n    |                                          ^\n",
    ),
];

// What the body of a loop may touch.
static LOOPS: &[(&str, &str)] = &[
    (
        "int main() {\n  int x = 0;\n  cilk_for (int i = 0; i < 4; i++) {\n    x = x + i;\n  }\n  return x;\n}",
        "refused 4 line 4\nt:4: the iterations of the cilk_for in line 3 run in parallel and may not write x: declare x in its body; for a sum write reducer sum r; outside of functions and r += i; here (max: reducer max r; and r max= ..;), and delete the other uses of x: the run prints r at its end; if an iteration needs the one before it, write a while\n  3 |   cilk_for (int i = 0; i < 4; i++) {\n  4 |     x = x + i;\n    |     ^\n",
    ),
    (
        "int main() {\n  int a[4];\n  cilk_for (int i = 0; i < 4; i++) {\n    a[i] = i;\n  }\n  return 0;\n}",
        "refused 4 line 4\nt:4: the cilk_for in line 3 may not use a: write over (a) in its head, and use only the element of the loop variable; for other elements, write a function that cuts a, spawns itself on one part and calls itself on the other, or add to a reducer; if iterations write the same element, write a while\n  3 |   cilk_for (int i = 0; i < 4; i++) {\n  4 |     a[i] = i;\n    |     ^\n",
    ),
    (
        "int get(const int a[]) { return a[0]; }\nint main() {\n  int a[4];\n  cilk_for (int i = 0; i < 4; i++) {\n    get(a);\n  }\n  return 0;\n}",
        "refused 4 line 5\nt:5: the cilk_for in line 4 may not use a: write over (a) in its head to read the element of the loop variable; to read other elements, write void halve_a(const int a[], int from, int to) { if (to - from < 100) { int i = from; while (i < to) { .. i = i + 1; } return; } int r = (from + to) / 2; cilk_spawn halve_a(a, from, r); halve_a(a, r, to); } with the body of the loop in the while, and halve_a(a, LOW, HIGH); for the loop; add a parameter for each other name in the body\n  4 |   cilk_for (int i = 0; i < 4; i++) {\n  5 |     get(a);\n    |         ^\n",
    ),
    (
        "int main() {\n  int a[4];\n  cilk_for (int i = 0; i < 4; i++) over (a) {\n    a[0] = i;\n  }\n  return 0;\n}",
        "refused 4 line 4\nt:4: the cilk_for in line 3 has a in over, so its body may only use a[i]; for other elements, write a function that cuts a, spawns itself on one part and calls itself on the other, or add to a reducer; if iterations write the same element, write a while\n  3 |   cilk_for (int i = 0; i < 4; i++) over (a) {\n  4 |     a[0] = i;\n    |     ^\n",
    ),
    (
        "int main() {\n  int a[4];\n  cilk_for (int i = 0; i < 4; i++) over (a) {\n    cilk_for (int j = 0; j < a[i]; j++) { }\n  }\n  return 0;\n}",
        "refused 4 line 4\nt:4: the cilk_for in line 3 has a in over, so its body may only use a[i]: write void halve_a(const int a[], int from, int to) { if (to - from < 100) { int i = from; while (i < to) { .. i = i + 1; } return; } int r = (from + to) / 2; cilk_spawn halve_a(a, from, r); halve_a(a, r, to); } with the body of the loop in the while, and halve_a(a, LOW, HIGH); for the loop; add a parameter for each other name in the body\n  3 |   cilk_for (int i = 0; i < 4; i++) over (a) {\n  4 |     cilk_for (int j = 0; j < a[i]; j++) { }\n    |                              ^\n",
    ),
    // of two arrays the one that is written
    (
        "int main() {\n  int a[4];\n  int b[4];\n  cilk_for (int i = 0; i < 4; i++) {\n    b[i] = a[i];\n  }\n  return 0;\n}",
        "refused 4 line 5\nt:5: the cilk_for in line 4 may not use b: write over (b) in its head, and use only the element of the loop variable; for other elements, write a function that cuts b, spawns itself on one part and calls itself on the other, or add to a reducer; if iterations write the same element, write a while\n  4 |   cilk_for (int i = 0; i < 4; i++) {\n  5 |     b[i] = a[i];\n    |     ^\n",
    ),
    // and else the one that is read
    (
        "int main() {\n  int a[4];\n  int b[4];\n  cilk_for (int i = 0; i < 4; i++) over (b) {\n    b[i] = a[i];\n  }\n  return 0;\n}",
        "refused 4 line 5\nt:5: the cilk_for in line 4 may not use a: write over (a) in its head to read the element of the loop variable; to read other elements, write void halve_b(const int a[], int b[], int from) { int r = len(b); if (r < 100) { int i = 0; while (i < r) { .. i = i + 1; } return; } r = r / 2; cut b at r as left, right { cilk_spawn halve_b(a, left, from); halve_b(a, right, from + r); } } with the body of the loop in the while, b[i] for its element of b and from + i for its variable, and halve_b(a, b, 0); for the loop; add a parameter for each other name in the body, and test from + i if the loop leaves out elements\n  4 |   cilk_for (int i = 0; i < 4; i++) over (b) {\n  5 |     b[i] = a[i];\n    |            ^\n",
    ),
    // an element that is written, and one that is read
    (
        "int main() {\n  int a[4];\n  cilk_for (int i = 0; i < 4; i++) over (a) {\n    a[0] = a[i];\n  }\n  return 0;\n}",
        "refused 4 line 4\nt:4: the cilk_for in line 3 has a in over, so its body may only use a[i]; for other elements, write a function that cuts a, spawns itself on one part and calls itself on the other, or add to a reducer; if iterations write the same element, write a while\n  3 |   cilk_for (int i = 0; i < 4; i++) over (a) {\n  4 |     a[0] = a[i];\n    |     ^\n",
    ),
    (
        "int main() {\n  int a[4];\n  cilk_for (int i = 0; i < 4; i++) over (a) {\n    a[i] = a[0];\n  }\n  return 0;\n}",
        "refused 4 line 4\nt:4: the cilk_for in line 3 has a in over, so its body may only use a[i]; to read an element as it was before the loop, declare int r[len(a)]; there, copy it by r[k] = a[k - 1]; in a while, list r in over, and read r[i]; to read what another iteration wrote, write a while for the cilk_for\n  3 |   cilk_for (int i = 0; i < 4; i++) over (a) {\n  4 |     a[i] = a[0];\n    |     ^\n",
    ),
    // passed as a whole, cut, and named in a further loop
    (
        "void f(int a[]) { }\nint main() {\n  int a[4];\n  cilk_for (int i = 0; i < 4; i++) {\n    f(a);\n  }\n  return 0;\n}",
        "refused 4 line 5\nt:5: the cilk_for in line 4 may not use a: write over (a) in its head, and use only the element of the loop variable; for other elements, write a function that cuts a, spawns itself on one part and calls itself on the other, or add to a reducer; if iterations write the same element, write a while\n  4 |   cilk_for (int i = 0; i < 4; i++) {\n  5 |     f(a);\n    |       ^\n",
    ),
    (
        "int main() {\n  int a[4];\n  cilk_for (int i = 0; i < 4; i++) over (a) {\n    cut a at 2 as l, r { }\n  }\n  return 0;\n}",
        "refused 4 line 4\nt:4: the cilk_for in line 3 has a in over, so its body may only use a[i]; for other elements, write a function that cuts a, spawns itself on one part and calls itself on the other, or add to a reducer; if iterations write the same element, write a while\n  3 |   cilk_for (int i = 0; i < 4; i++) over (a) {\n  4 |     cut a at 2 as l, r { }\n    |         ^\n",
    ),
    (
        "int main() {\n  int a[4];\n  cilk_for (int i = 0; i < 4; i++) over (a) {\n    cilk_for (int j = 0; j < 4; j++) over (a) { }\n  }\n  return 0;\n}",
        "refused 4 line 4\nt:4: the cilk_for in line 3 has a in over, so its body may only use a[i]; for other elements, write a function that cuts a, spawns itself on one part and calls itself on the other, or add to a reducer; if iterations write the same element, write a while\n  3 |   cilk_for (int i = 0; i < 4; i++) over (a) {\n  4 |     cilk_for (int j = 0; j < 4; j++) over (a) { }\n    |                                            ^\n",
    ),
    // an array that is const stands in no over
    (
        "reducer sum s;\nvoid f(const int a[]) {\n  cilk_for (int i = 0; i < 4; i++) {\n    s += a[i];\n  }\n}\nint main() { return 0; }",
        "refused 4 line 4\nt:4: a is const, and the cilk_for in line 3 may not use it: write void halve_a(const int a[], int from, int to) { if (to - from < 100) { int i = from; while (i < to) { .. i = i + 1; } return; } int r = (from + to) / 2; cilk_spawn halve_a(a, from, r); halve_a(a, r, to); } with the body of the loop in the while, and halve_a(a, LOW, HIGH); for the loop; add a parameter for each other name in the body\n  3 |   cilk_for (int i = 0; i < 4; i++) {\n  4 |     s += a[i];\n    |          ^\n",
    ),
    // one of the same name that is const in another function, or a const one beside it
    (
        "reducer sum s;\nvoid f(const int a[]) { s += a[0]; }\nvoid g(int a[], const int b[]) {\n  cilk_for (int i = 0; i < 4; i++) {\n    s += a[i];\n  }\n}\nint main() { return 0; }",
        "refused 4 line 5\nt:5: the cilk_for in line 4 may not use a: write over (a) in its head to read the element of the loop variable; to read other elements, write void halve_a(const int a[], int from, int to) { if (to - from < 100) { int i = from; while (i < to) { .. i = i + 1; } return; } int r = (from + to) / 2; cilk_spawn halve_a(a, from, r); halve_a(a, r, to); } with the body of the loop in the while, and halve_a(a, LOW, HIGH); for the loop; add a parameter for each other name in the body\n  4 |   cilk_for (int i = 0; i < 4; i++) {\n  5 |     s += a[i];\n    |          ^\n",
    ),
    (
        "reducer sum s;\nvoid f(int a[], const int b[]) {  cilk_for (int i = 0; i < 4; i++) { s += b[i]; } }\nvoid g(const int a[]) { s += a[0]; }\nint main() { return 0; }",
        "refused 4 line 2\nt:2: b is const, and the cilk_for in line 2 may not use it: write void halve_b(const int b[], int from, int to) { if (to - from < 100) { int i = from; while (i < to) { .. i = i + 1; } return; } int r = (from + to) / 2; cilk_spawn halve_b(b, from, r); halve_b(b, r, to); } with the body of the loop in the while, and halve_b(b, LOW, HIGH); for the loop; add a parameter for each other name in the body\n  2 | void f(int a[], const int b[]) {  cilk_for (int i = 0; i < 4; i++) { s += b[i]; } }\n    |                           ^\n",
    ),
];

// More lines than one that break a rule.
static SEVERAL: &[(&str, &str)] = &[
    // since which line is said of the first line's name
    (
        "int f() { return 1; }\nint main() {\n  int x = 0;\n  int y = 0;\n  x = cilk_spawn f();\n  y = cilk_spawn f();\n  print(x);\n  print(y);\n  x = 2;\n  cilk_sync;\n  return x + y;\n}",
        "refused 4 line 7\nt:7: this statement reads x, but the spawn in line 5 assigns to x at the next cilk_sync: write cilk_sync; before this statement\n  5 |   x = cilk_spawn f();\n  7 |   print(x);\n    |         ^\nt:8: this statement reads y, but a spawn assigns to y at the next cilk_sync: write cilk_sync; between that spawn and this statement\n  8 |   print(y);\n    |         ^\nt:9: this statement writes x, but the spawn in line 5 assigns to x at the next cilk_sync: write cilk_sync; before this statement\n  5 |   x = cilk_spawn f();\n  9 |   x = 2;\n    |   ^\n",
    ),
    // a call that breaks a rule takes its arrays
    (
        "void f(int a[]) { }\nvoid g(int a[], int b[]) { }\nint main() {\n  int a[4];\n  int b[4];\n  cilk_spawn f(a);\n  cilk_spawn g(a, b);\n  b[0] = 1;\n  cilk_sync;\n  b[0] = 2;\n  return 0;\n}",
        "refused 4 line 7\nt:7: this statement passes a, but the spawn in line 6 holds a until the next cilk_sync: write const before the parameter of each called function if it only reads a; otherwise write cut a at k as left, right { .. } and pass left and right, give one call an array of its own, or write cilk_sync; between them\n  6 |   cilk_spawn f(a);\n  7 |   cilk_spawn g(a, b);\n    |                ^\nt:8: this statement writes b, but a spawn holds b until the next cilk_sync: write cilk_sync; between that spawn and this statement\n  8 |   b[0] = 1;\n    |   ^\n",
    ),
    // the line of a declaration, which is found at the end of its block
    (
        "int f() { return 1; }\nint main(int n) {\n  if (n) {\n    int x = 0;\n    x = cilk_spawn f();\n    print(x);\n  }\n  return 0;\n}",
        "refused 4 line 4\nt:4: the block that declares x ends while the spawn in line 5 still holds x: write cilk_sync; at the end of this block; for calls of a loop that run in parallel write a cilk_for, or a function that halves the range and spawns itself\n  4 |     int x = 0;\n    |         ^\n  5 |     x = cilk_spawn f();\nt:6: this statement reads x, but the spawn in line 5 assigns to x at the next cilk_sync: write cilk_sync; before this statement\n  5 |     x = cilk_spawn f();\n  6 |     print(x);\n    |           ^\n",
    ),
    // of two arrays the one that is written, in each line
    (
        "int f() { return 1; }\nvoid h(int a[]) { }\nint main() {\n  int a[4];\n  int b[4];\n  cilk_spawn h(b);\n  cilk_spawn h(a);\n  a[0] = b[0];\n  b[0] = a[0];\n  cilk_sync;\n  return 0;\n}",
        "refused 4 line 8\nt:8: this statement writes a, but the spawn in line 7 holds a until the next cilk_sync: write cilk_sync; before this statement\n  7 |   cilk_spawn h(a);\n  8 |   a[0] = b[0];\n    |   ^\nt:9: this statement writes b, but a spawn holds b until the next cilk_sync: write cilk_sync; between that spawn and this statement\n  9 |   b[0] = a[0];\n    |   ^\n",
    ),
];

#[test]
fn rules_of_ownership(rt: HostRuntime) {
    all_explained(&rt, rt.alloc(), TAKEN);
    all_explained(&rt, rt.alloc(), TAKERS);
    all_explained(&rt, rt.alloc(), TWICE);
    all_explained(&rt, rt.alloc(), LOOPS);
    all_explained(&rt, rt.alloc(), SEVERAL);
}
