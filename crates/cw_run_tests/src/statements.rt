//! Statements of C in line 3 of a function with the integer n: what the explanation says, and the statement with that put in
//! place. `f` is int with an integer, `g` void with two, `h` void with an array, and `total` is a reducer.

use crate::explained::{Habit, NONE};

static STATEMENTS: &[Habit] = &[
    (
        "for (int i = 0; i < n; i++) { n = n - 1; }",
        "write int i = LOW; while (i < HIGH) { .. i = i + 1; }",
        "int i = 0; while (i < n) { n = n - 1; i = i + 1; }",
    ),
    (
        "for (long i = 0; i < n; i++) { }",
        "write int i = LOW; while (i < HIGH)",
        "int i = 0; while (i < n) { i = i + 1; }",
    ),
    (
        "int i = 0; for (i = 0; i < n; i++) { }",
        "write i = LOW; while (i < HIGH) { .. i = i + 1; }",
        "int i = 0; i = 0; while (i < n) { i = i + 1; }",
    ),
    (
        "for (;;) { }",
        "write while (1) { .. }",
        "while (1) { return n; }",
    ),
    (
        "while (n) { break; }",
        "there is no break: if a return follows the loop, write it here; otherwise move the loop into a function, and write return; here",
        "while (n) { return n; }",
    ),
    (
        "while (n) { continue; }",
        "put the rest of the iteration into if (..) { .. }",
        "while (n) { if (n > 1) { n = 1; } n = n - 1; }",
    ),
    (
        "goto out;",
        "write if, while and functions",
        "if (n) { n = 0; }",
    ),
    (
        "do { n = n - 1; } while (n);",
        "write the body once, and then while (..) { .. }",
        "n = n - 1; while (n) { n = n - 1; }",
    ),
    (
        "switch (n) { }",
        "write if (..) { .. } else { if (..) { .. } }",
        "if (n) { n = 1; } else { if (n > 1) { n = 2; } }",
    ),
    ("sync;", "write cilk_sync;", "cilk_sync;"),
    ("_Cilk_sync;", "write cilk_sync;", "cilk_sync;"),
    ("spawn f(n);", "write cilk_spawn f(..);", "cilk_spawn f(n);"),
    (
        "_Cilk_spawn f(n);",
        "write cilk_spawn f(..);",
        "cilk_spawn f(n);",
    ),
    (
        "n = spawn f(n);",
        "write cilk_spawn f(n);",
        "n = cilk_spawn f(n); cilk_sync;",
    ),
    (
        "n = _Cilk_spawn f(n);",
        "write cilk_spawn f(n);",
        "n = cilk_spawn f(n); cilk_sync;",
    ),
    (
        "_Cilk_for (int i = 0; i < n; i++) { }",
        "write cilk_for (..)",
        "cilk_for (int i = 0; i < n; i++) { }",
    ),
    (
        "static int x = 0;",
        "there is no static: delete the word",
        "int x = 0;",
    ),
    ("mutex m;", "a lock has no replacement", NONE),
    ("pthread_mutex_t m;", "a lock has no replacement", NONE),
    (
        "wsp_t s;",
        "put region NAME { .. } around the part to measure",
        "region part { n = n + 1; }",
    ),
    (
        "int cilk_reducer(zero, add) s = 0;",
        "write reducer sum s; outside of functions, and s += e;",
        "total += n;",
    ),
    (
        "long cilk_reducer(zero, add) s = 0;",
        "write reducer sum s; outside of functions, and s += e;",
        "total += n;",
    ),
    (
        "CILK_C_REDUCER_OPADD(s, int, 0);",
        "write reducer sum s; outside of functions",
        "total += n;",
    ),
    (
        "REDUCER_VIEW(total) += n;",
        "write total += n;",
        "total += n;",
    ),
    (
        "struct s x;",
        "write an array for each member, and an index for each pointer",
        "int x_a[2]; int x = 0; x_a[x] = 1;",
    ),
    (
        "n = (struct s) n;",
        "write an array for each member, and an index for each pointer",
        "n = n;",
    ),
    (
        "double *a = 0;",
        "write int a[N]; for an array of N elements, which are 0",
        "int a[8];",
    ),
    (
        "long x, y;",
        "write int x = 0; and a further declaration for the next name",
        "int x = 0; int y = 0;",
    ),
    ("long x;", "write int x = 0;", "int x = 0;"),
    (
        "long x = atoi(argv[1]);",
        "there is no atoi: declare a parameter of main for each argument, as int main(int n), and delete this statement",
        "",
    ),
    (
        "long x = cilk_spawn f(n);",
        "write int x = 0; x = cilk_spawn f(..);",
        "int x = 0; x = cilk_spawn f(n); cilk_sync;",
    ),
    (
        "long x = f(n);",
        "write int x = 0; x = f(..);",
        "int x = 0; x = f(n);",
    ),
    (
        "long a[4] = 0;",
        "write int a[N]; and assign other values by statements",
        "int a[4]; a[0] = 1;",
    ),
    (
        "unsigned long x = n + 1;",
        "write int x = n + 1;",
        "int x = n + 1;",
    ),
    (
        "node * x = 0;",
        "write int x = 0; for an index, and an array for each member",
        "int x = 0; int left[8]; left[x] = 1;",
    ),
    (
        "n = (long) n;",
        "there are no casts: delete (long)",
        "n = n;",
    ),
    (
        "n = (unsigned char) n;",
        "there are no casts: delete the type and its parentheses",
        "n = n;",
    ),
    (
        "cilk_for (long i = 0; i < n; i++) { }",
        "write cilk_for (int i = LOW; i < HIGH; i++) { .. }",
        "cilk_for (int i = 0; i < n; i++) { }",
    ),
    (
        "f(long n);",
        "there is no type long: write int, and delete a cast",
        "f(n);",
    ),
    (
        "n = n -* 1;\n f(long);",
        "there is no type long: write int, and delete a cast",
        "n = n - 1;\n f(n);",
    ),
    ("/* n */", "write a comment after //", "// n\n"),
    (
        "n = 1 /* n */;",
        "write a comment after //",
        "n = 1; // n\n",
    ),
    (
        "if (n) { } else if (n) { }",
        "write else { if (..) { .. } }",
        "if (n) { } else { if (n) { } }",
    ),
    (
        "int a[2]; n = sizeof(a);",
        "write len(a) for the number of elements",
        "int a[2]; n = len(a);",
    ),
    (
        "n = p->x;",
        "there are no structs: write an array for each member, and an index for the pointer: x[p] for p->x",
        "int p = 0; int x[2]; n = x[p];",
    ),
    (
        "cilk_for (int i = 0; i <= n; i++) { }",
        "write i < n + 1",
        "cilk_for (int i = 0; i < n + 1; i++) { }",
    ),
    (
        "cilk_for (int i = 0; i <= 2 * n; i++) { }",
        "write i < HIGH + 1 for i <= HIGH",
        "cilk_for (int i = 0; i < 2 * n + 1; i++) { }",
    ),
    (
        "cilk_for (int i = 0; i != n; i++) { }",
        "write i < n",
        "cilk_for (int i = 0; i < n; i++) { }",
    ),
    (
        "cilk_for (int i = n; i > 0; i--) { total += i; }",
        "write cilk_for (int k = 0; k < HIGH - LOW; k++), and HIGH - k for i",
        "cilk_for (int k = 0; k < n - 0; k++) { total += n - k; }",
    ),
    (
        "cilk_for (int i = n; i >= 1; i--) { total += i; }",
        "write cilk_for (int k = 0; k < HIGH - LOW + 1; k++), and HIGH - k for i",
        "cilk_for (int k = 0; k < n - 1 + 1; k++) { total += n - k; }",
    ),
    (
        "cilk_for (int i = 0; i < n; ++i) { }",
        "++ follows the name, and a block follows the head: write i++) { .. }",
        "cilk_for (int i = 0; i < n; i++) { }",
    ),
    (
        "int a[4]; cilk_for (int i = 0; i < 4; i++) over (a) grain 2 { }",
        "write the grain before over: grain 2 over (a)",
        "int a[4]; cilk_for (int i = 0; i < 4; i++) grain 2 over (a) { }",
    ),
    (
        "int a[4]; int b[4]; cilk_for (int i = 0; i < 4; i++) over (a, b) grain 2 { }",
        "write the grain before over: grain 2 over (..)",
        "int a[4]; int b[4]; cilk_for (int i = 0; i < 4; i++) grain 2 over (a, b) { }",
    ),
    (
        "int x = cilk_spawn f(n);",
        "write int x = 0; x = cilk_spawn f(n);",
        "int x = 0; x = cilk_spawn f(n); cilk_sync;",
    ),
    (
        "return cilk_spawn f(n);",
        "write int r = 0; r = cilk_spawn f(n); cilk_sync; return r;",
        "if (1) { int r = 0; r = cilk_spawn f(n); cilk_sync; return r; }",
    ),
    (
        "int a[9]; int i = 0; while (i < n) { a[i] = cilk_spawn f(i); i = i + 1; }",
        "in a loop over i write cilk_for (int i = LOW; i < HIGH; i++) over (a) { int r = 0; r = f(..); a[i] = r; }",
        "int a[9]; cilk_for (int i = 0; i < n; i++) over (a) { int r = 0; r = f(i); a[i] = r; }",
    ),
    (
        "int a[2]; a[0] = cilk_spawn f(n);",
        "write int r = 0; r = cilk_spawn f(n); and, after the cilk_sync, a[0] = r;",
        "int a[2]; int r = 0; r = cilk_spawn f(n); cilk_sync; a[0] = r;",
    ),
    (
        "int x = rand();",
        "or keep a state x in a while: x = (x * 1103515245 + 12345) % 2147483648;",
        "int x = 1; while (n) { x = (x * 1103515245 + 12345) % 2147483648; n = n - 1; }",
    ),
    (
        "int x = f(n);",
        "write int x = 0; x = f(n);",
        "int x = 0; x = f(n);",
    ),
    (
        "return f(n);",
        "write int r = 0; r = f(n); return r;",
        "if (1) { int r = 0; r = f(n); return r; }",
    ),
    (
        "while (f(n) < 3) { }",
        "write int r = 0; r = f(n); before the loop, while (r < 3), and r = f(n); at the end of its body",
        "int r = 0; r = f(n); while (r < 3) { r = f(n); }",
    ),
    ("cilk_sync();", "write cilk_sync;", "cilk_sync;"),
    (
        "n = f(n) + 1;",
        "write int r = 0; r = f(n); n = r + 1;",
        "int r = 0; r = f(n); n = r + 1;",
    ),
    (
        "while (n) {\n n = n -* 1;\n n = f(n) * 2;\n }",
        "write int r = 0; r = f(n); n = r * 2;",
        "int r = 0; r = f(n); n = r * 2;",
    ),
    (
        "int *p = 0;",
        "write int p[N]; for an array of N elements, which are 0",
        "int p[8];",
    ),
    (
        "int **p = 0;",
        "write int a[N]; for an array of N elements, which are 0",
        "int a[8];",
    ),
    ("int x;", "write int x = 0;", "int x = 0;"),
    (
        "int x, y;",
        "write int x = 0; int y = 0;",
        "int x = 0; int y = 0;",
    ),
    (
        "int x, y, z;",
        "write int x = 0; and a further declaration for the next name",
        "int x = 0; int y = 0; int z = 0;",
    ),
    (
        "int a[] = 0;",
        "write int a[N]; its N elements are 0",
        "int a[8];",
    ),
    (
        "int a[2] = 0;",
        "write int a[2]; and assign other values by statements",
        "int a[2]; a[0] = 1;",
    ),
    (
        "int a[n], b[n];",
        "write int a[n]; int b[n];",
        "int a[n]; int b[n];",
    ),
    (
        "int a[4]; a[1][2] = 0;",
        "write a[i * m + j] for the element i, j of m columns",
        "int a[4]; a[1 * 2 + 1] = 0;",
    ),
    (
        "int a[n][n];",
        "write a[i * m + j] for the element i, j of m columns",
        "int a[n * n]; a[0 * n + 1] = 1;",
    ),
];

static ASSIGNMENTS: &[Habit] = &[
    (
        "n += 2; n++;",
        "n is not a reducer: write n = n + 2;",
        "n = n + 2; n = n + 1;",
    ),
    (
        "long m = argc > 1;",
        "declare a parameter of main for each argument, as int main(int m), and delete this statement",
        "",
    ),
    (
        "int a[2]; memset(a, 0, 2 * sizeof(int));",
        "there is no memset: delete this statement if the array is new",
        "int a[2];",
    ),
    (
        "int a[2]; int b[2]; memcpy(b, a, 2 * sizeof(int));",
        "there is no memcpy: copy each element: int i = 0; while (i < len(a)) { b[i] = a[i]; i = i + 1; }",
        "int a[2]; int b[2]; int i = 0; while (i < len(a)) { b[i] = a[i]; i = i + 1; }",
    ),
    (
        "n->left = 3;",
        "write an array for each member, and an index for the pointer: left[n] for n->left",
        "int left[2]; left[n] = 3;",
    ),
    (
        "n->left = f(n);",
        "write an array for each member and an index for the pointer: int r = 0; r = f(..); left[n] = r;",
        "int left[2]; int r = 0; r = f(n); left[n] = r;",
    ),
    (
        "sum += 2 * n;",
        "sum is a keyword: use another name, and write r = r + (2 * n);",
        "int r = 0; r = r + (2 * n);",
    ),
    (
        "sum = n;",
        "sum is a keyword: use another name",
        "int s = n;",
    ),
    ("total--;", "write total += -1;", "total += -1;"),
    (
        "int x = 0; x = n--;",
        "there is no --: write x = n; n = n - 1;",
        "int x = 0; x = n; n = n - 1;",
    ),
    (
        "int x = n--;",
        "there is no --: write int x = n; n = n - 1;",
        "int x = n; n = n - 1;",
    ),
    (
        "int a[2]; int x = 0; x = a[n++];",
        "write n for n++ here, and n = n + 1; after this statement",
        "int a[2]; int x = 0; x = a[n]; n = n + 1;",
    ),
    (
        "int a[2]; a[n++] = 3;",
        "write n for n++ here, and n = n + 1; after this statement",
        "int a[2]; a[n] = 3; n = n + 1;",
    ),
    ("n--;", "write n = n - 1;", "n = n - 1;"),
    ("total++;", "write total += 1;", "total += 1;"),
    (
        "int x = 0; x = n++;",
        "write x = n; n = n + 1;",
        "int x = 0; x = n; n = n + 1;",
    ),
    (
        "int x = n++;",
        "write int x = n; n = n + 1;",
        "int x = n; n = n + 1;",
    ),
    (
        "int a[2]; a[0]++;",
        "write a[0] = a[0] + 1;",
        "int a[2]; a[0] = a[0] + 1;",
    ),
    (
        "int a[2]; a[0]--;",
        "write a[0] = a[0] - 1;",
        "int a[2]; a[0] = a[0] - 1;",
    ),
    (
        "int a[2]; a[0] -= n + 2;",
        "write a[0] = a[0] - (n + 2);",
        "int a[2]; a[0] = a[0] - (n + 2);",
    ),
    ("n <<= 2;", "n = n * 4; for n <<= 2;", "n = n * 4;"),
    ("n >>= 2;", "n = n / 4; for n >>= 2;", "n = n / 4;"),
    ("n = n << 2;", "n * 4 for n << 2", "n = n * 4;"),
    ("n++;", "write n = n + 1;", "n = n + 1;"),
    (
        "total -= n + 1;",
        "write total += -(n + 1);",
        "total += -(n + 1);",
    ),
    ("total *= 2;", "a reducer only takes +=", "total += 2;"),
    ("n *= n + 2;", "write n = n * (n + 2);", "n = n * (n + 2);"),
    ("n -= 2;", "write n = n - 2;", "n = n - 2;"),
    (
        "reducer sum t;",
        "declare a reducer outside of functions",
        "total += 1;",
    ),
    (
        "int a[2]; *a = 1;",
        "write a[0] for *a",
        "int a[2]; a[0] = 1;",
    ),
    (
        "int a[2]; return *a;",
        "write a[0] for *a",
        "int a[2]; if (1) { return a[0]; }",
    ),
    (
        "int a[2]; n = *a;",
        "write a[0] for *a",
        "int a[2]; n = a[0];",
    ),
    (
        "int a[2]; int x = *a;",
        "write a[0] for *a",
        "int a[2]; int x = a[0];",
    ),
    (
        "int b = 2; n = max(n, b);",
        "write int m = a; if (b > m) { m = b; }",
        "int a = n; int b = 2; int m = a; if (b > m) { m = b; }",
    ),
    ("var x = 1;", "write int x = 1;", "int x = 1;"),
    (
        "int m = 0; n = m = 1;",
        "write m = 1; n = m;",
        "int m = 0; m = 1; n = m;",
    ),
    (
        "int m = 0; n = m = n + 1;",
        "write m = n + 1; n = m;",
        "int m = 0; m = n + 1; n = m;",
    ),
    (
        "int x = 0; x = ++n;",
        "write n = n + 1; x = n;",
        "int x = 0; n = n + 1; x = n;",
    ),
    ("++total;", "write total += 1;", "total += 1;"),
    ("++n;", "write n = n + 1;", "n = n + 1;"),
    (
        "n = 1 + rand();",
        "write a function of an index i, as (i * 1103515245 + 12345) % 2147483648",
        "n = 1 + (n * 1103515245 + 12345) % 2147483648;",
    ),
    (
        "n = 1 + f(n) * 2;",
        "write int r = 0; r = f(n); and r in its place: n = 1 + r * 2;",
        "int r = 0; r = f(n); n = 1 + r * 2;",
    ),
    (
        "if (f(n)) { n = 1; }",
        "write int r = 0; r = f(n); and r in its place: if (r)",
        "int r = 0; r = f(n); if (r) { n = 1; }",
    ),
    (
        "f(f(n));",
        "write int r = 0; r = f(n); and r in its place: f(r);",
        "int r = 0; r = f(n); f(r);",
    ),
    (
        "g(n, f(n));",
        "write int r = 0; r = f(n); and r in its place: g(n, r);",
        "int r = 0; r = f(n); g(n, r);",
    ),
    (
        "int a[2]; n = a[f(n)];",
        "write int r = 0; r = f(n); and r in its place: n = a[r];",
        "int a[2]; int r = 0; r = f(n); n = a[r];",
    ),
    (
        "n = !f(n);",
        "write int r = 0; r = f(n); and r in its place: n = !r;",
        "int r = 0; r = f(n); n = !r;",
    ),
    (
        "return f(n) + 1;",
        "write int r = 0; r = f(n); and r in its place: return r + 1;",
        "if (1) { int r = 0; r = f(n); return r + 1; }",
    ),
    (
        "int a[2]; a[0] = f(n);",
        "write int r = 0; r = f(n); a[0] = r;",
        "int a[2]; int r = 0; r = f(n); a[0] = r;",
    ),
    (
        "int x = f(n) + 1;",
        "write int r = 0; r = f(n); and r in its place: int x = r + 1;",
        "int r = 0; r = f(n); int x = r + 1;",
    ),
    (
        "total += f(n);",
        "write int r = 0; r = f(n); and r in its place: total += r;",
        "int r = 0; r = f(n); total += r;",
    ),
    (
        "n += f(n);",
        "write int r = 0; r = f(n); and r in its place: n += r;",
        "int r = 0; r = f(n); n = n + r;",
    ),
];

static OTHERS: &[Habit] = &[
    (
        "cilk_for (i = 0; i < n; i++) { }",
        "write cilk_for (int i = LOW; i < HIGH; i++)",
        "cilk_for (int i = 0; i < n; i++) { }",
    ),
    (
        "cilk_for (int i = 0; i < n; i += 2) { total += i; }",
        "write cilk_for (int j = 0; j < (HIGH - LOW + k - 1) / k; j++), and LOW + j * k for i",
        "cilk_for (int j = 0; j < (n - 0 + 2 - 1) / 2; j++) { total += 0 + j * 2; }",
    ),
    (
        "cilk_for (int i = 0; i < n; i = i + 1) { }",
        "a cilk_for counts up by one",
        "cilk_for (int i = 0; i < n; i++) { }",
    ),
    (
        "cilk_spawn n = f(n);",
        "write n = cilk_spawn f(n);",
        "n = cilk_spawn f(n); cilk_sync;",
    ),
    (
        "cilk_spawn { n = 1; }",
        "move the block into a function",
        "cilk_spawn f(n);",
    ),
    (
        "cilk_spawn f(n) + 1;",
        "write cilk_spawn f(n);",
        "cilk_spawn f(n);",
    ),
    (
        "n = 1 + cilk_spawn f(n);",
        "write int r = 0; r = cilk_spawn f(n); cilk_sync; before this statement, and r in its place",
        "int r = 0; r = cilk_spawn f(n); cilk_sync; n = 1 + r;",
    ),
    (
        "n = cilk_spawn f(n) + 1;",
        "write int r = 0; r = cilk_spawn f(n); cilk_sync; n = r + 1;",
        "int r = 0; r = cilk_spawn f(n); cilk_sync; n = r + 1;",
    ),
    ("n = (int) n;", "there are no casts: delete (int)", "n = n;"),
    (
        "const int x = 0;",
        "const is for array parameters only: delete it",
        "int x = 0;",
    ),
    (
        "int x = 0, y = 0;",
        "write int x = 0; int y = 0;",
        "int x = 0; int y = 0;",
    ),
    (
        "int x = 0, y;",
        "write int x = 0; and a further declaration for the next name",
        "int x = 0; int y = 0;",
    ),
    (
        "int i = 0; int j = 0; i = 1, j = 2;",
        "write i = 1; j = 2;",
        "int i = 0; int j = 0; i = 1; j = 2;",
    ),
    ("if (n = 1) { }", "write == to compare", "if (n == 1) { }"),
    (
        "while (n = 1) { }",
        "write == to compare",
        "while (n == 1) { n = 0; }",
    ),
    ("if n < 2 { }", "write if (..) { .. }", "if (n < 2) { }"),
    (
        "while n { }",
        "write while (..) { .. }",
        "while (n) { n = 0; }",
    ),
    ("print n;", "write print(n;);", "print(n);"),
    (
        "print(n, 2);",
        "print takes one value: write print(n); print(2);",
        "print(n); print(2);",
    ),
    (
        "print(n, n, 1);",
        "write print(..); for each",
        "print(n); print(n); print(1);",
    ),
    (
        "int a[2]; a[0] += n * 2;",
        "write a[0] = a[0] + n * 2;",
        "int a[2]; a[0] = a[0] + n * 2;",
    ),
    (
        "f(n++);",
        "write n = n + 1; as a statement of its own",
        "f(n); n = n + 1;",
    ),
    (
        "f(++n);",
        "write i = i + 1; as a statement of its own",
        "int i = n; i = i + 1; f(i);",
    ),
    ("n == 1;", "write n = 1;", "n = 1;"),
    ("n = 1 = 2;", "assign to one name at a time", "n = 1;"),
    ("n = n >> 2;", "n / 4 for n >> 2", "n = n / 4;"),
    (
        "int a[2]; cut a at 1 { }",
        "write cut a at k as l, r { .. }",
        "int a[2]; int k = 1; cut a at k as l, r { }",
    ),
    (
        "region { }",
        "write region phase { .. }",
        "region phase { }",
    ),
    (";", "there is no empty statement: delete the ;", ""),
    ("else { }", "delete it, or move it", ""),
    (
        "{ n = 1; }",
        "delete its braces, or write cilk_scope { .. }",
        "cilk_scope { n = 1; }",
    ),
    ("n = 0x1F;", "numbers are decimal: write 31", "n = 31;"),
    ("n = 10L;", "delete L or write the number out", "n = 10;"),
    ("n = 010;", "write 10 (C reads 010 as octal)", "n = 10;"),
    (
        "typ x = 1;",
        "there is no type typ: write int x = 1;",
        "int x = 1;",
    ),
    (
        "if (n) return 1;",
        "put the block of if in braces: { return 1; }",
        "if (n) { return 1; }",
    ),
    (
        "if (n) n = 1; else n = 2;",
        "put the block of if in braces: { n = 1; }",
        "if (n) { n = 1; } else { n = 2; }",
    ),
    (
        "if (n) { n = 1; } else n = 2;",
        "put the block of else in braces: { n = 2; }",
        "if (n) { n = 1; } else { n = 2; }",
    ),
    (
        "while (n) n = n - 1;",
        "put the block of while in braces: { n = n - 1; }",
        "while (n) { n = n - 1; }",
    ),
    (
        "while (n);",
        "write an empty block: { }",
        "while (n - n) { }",
    ),
    (
        "cilk_for (int i = 0; i < n; i++) f(i);",
        "put the block of cilk_for in braces: { f(i); }",
        "cilk_for (int i = 0; i < n; i++) { f(i); }",
    ),
    (
        "retrun n;",
        "did you mean return instead of retrun?",
        "if (1) { return n; }",
    ),
    (
        "cilk_snyc;",
        "did you mean cilk_sync instead of cilk_snyc?",
        "cilk_sync;",
    ),
    (
        "n = cilk_spwan f(n);",
        "did you mean cilk_spawn instead of cilk_spwan?",
        "n = cilk_spawn f(n); cilk_sync;",
    ),
    (
        "whlie (n) { }",
        "did you mean while instead of whlie?",
        "while (n) { n = 0; }",
    ),
    (
        "if (n) { } esle { }",
        "did you mean else instead of esle?",
        "if (n) { } else { }",
    ),
    (
        "cilk_fro (int i = 0; i < n; i++) { }",
        "did you mean cilk_for instead of cilk_fro?",
        "cilk_for (int i = 0; i < n; i++) { }",
    ),
    (
        "n = n + 1\n  return n;",
        "write ; after 1 in line 3",
        "n = n + 1;\n",
    ),
    ("n = n + 1 }", "write ; after 1 in line 3", "n = n + 1;"),
    (
        "f(n)\n  n = 2;",
        "write ; after ) in line 3",
        "f(n);\n  n = 2;",
    ),
    ("n = f(n;", "close the ( of line 3 before it", "n = f(n);"),
    (
        "if (n < 2 {",
        "close the ( of line 3 before it",
        "if (n < 2) { }",
    ),
    (
        "int a[2]; print(a[1);",
        "close the [ of line 3 before it",
        "int a[2]; print(a[1]);",
    ),
    (
        "int len = 0;",
        "len is a keyword: use another name",
        "int l = 0;",
    ),
    (
        "double sum = 0;",
        "there is no type double, and its name is a keyword: write int and another name",
        "int s = 0;",
    ),
];

/// Words, types, loops, spawns and declarations.
pub fn statements() -> &'static [Habit] {
    STATEMENTS
}

/// Assignments and calls.
pub fn assignments() -> &'static [Habit] {
    ASSIGNMENTS
}

/// Statements in the wrong place, and missing words.
pub fn others() -> &'static [Habit] {
    OTHERS
}
