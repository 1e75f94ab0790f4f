//! Bytes and names of C in line 3 of a function, as in `statements`, and what names, types and ownership reject there.

use crate::explained::{Habit, NONE};

static BYTES: &[Habit] = &[
    (
        "if (n && 1) { }",
        "write if (a) { if (b) { .. } } for if (a && b) { .. }; with an else write int r = 0; if (a) { r = b; } if (r) { .. } else { .. }",
        "if (n) { if (1) { } }",
    ),
    (
        "if(n > 1 && 5 / n) { n = 2; } else { n = 3; }",
        "write if (a) { if (b) { .. } } for if (a && b) { .. }; with an else write int r = 0; if (a) { r = b; } if (r) { .. } else { .. }",
        "int r = 0; if (n > 1) { r = 5 / n; } if (r) { n = 2; } else { n = 3; }",
    ),
    (
        "while (n < 5 && 9 / n) { n = n + 1; }",
        "write int r = 0; if (a) { r = b; } while (r) { .. r = 0; if (a) { r = b; } } for while (a && b) { .. }",
        "int r = 0; if (n < 5) { r = 9 / n; } while (r) { n = n + 1; r = 0; if (n < 5) { r = 9 / n; } }",
    ),
    (
        "while(n && 1) { n = n - 1; }",
        "write int r = 0; if (a) { r = b; } while (r) { .. r = 0; if (a) { r = b; } } for while (a && b) { .. }",
        "int r = 0; if (n) { r = 1; } while (r) { n = n - 1; r = 0; if (n) { r = 1; } }",
    ),
    (
        "n = n > 2 && n < 5;",
        "write (a) * (b) for a && b if a and b are 0 or 1, as comparisons are, and b does not trap if a is 0; otherwise write int r = 0; if (a) { r = b; } before this statement, and r for a && b",
        "n = (n > 2) * (n < 5);",
    ),
    (
        "int x = n && 5 / n;",
        "write (a) * (b) for a && b if a and b are 0 or 1, as comparisons are, and b does not trap if a is 0; otherwise write int r = 0; if (a) { r = b; } before this statement, and r for a && b",
        "int r = 0; if (n) { r = 5 / n; } int x = r;",
    ),
    (
        "n = n & 15;",
        "write n % 16 for n & 15, and n % 2 for n & 1 (n >= 0)",
        "n = n % 16;",
    ),
    (
        "pthread_mutex_lock(&m);",
        "a lock has no replacement: add to a reducer",
        NONE,
    ),
    (
        "wsp_dump(n, \"loop\");",
        "put region NAME { .. } around the part to measure; cilkwork scale reports its work and span",
        "region loop { n = n + 1; }",
    ),
    (
        "int a[2]; g(&a[1], n);",
        "for &a[k] pass a and k, or write cut a at k as l, r { .. } and pass r",
        "int a[2]; int k = 1; cut a at k as l, r { h(r); }",
    ),
    (
        "f(&n);",
        "for &x return the new value: x = f(x);",
        "n = f(n);",
    ),
    (
        "if (n == 1 || n == 2) { }",
        "write (a) + (b) for a || b if a and b are 0 or 1, as comparisons are, and b does not trap if a is 1; otherwise write int r = 1; if (!(a)) { r = b; } before this statement, and r for a || b",
        "if ((n == 1) + (n == 2)) { }",
    ),
    (
        "int x = n == 0 || 5 / n;",
        "write (a) + (b) for a || b if a and b are 0 or 1, as comparisons are, and b does not trap if a is 1; otherwise write int r = 1; if (!(a)) { r = b; } before this statement, and r for a || b",
        "int r = 1; if (!(n == 0)) { r = 5 / n; } int x = r;",
    ),
    (
        "while (n == 1 || n == 2) { n = n + 1; }",
        "write while ((a) + (b)) { .. } for while (a || b) { .. } if a and b are 0 or 1, as comparisons are, and b does not trap if a is 1; otherwise write int r = 1; if (!(a)) { r = b; } while (r) { .. r = 1; if (!(a)) { r = b; } }",
        "while ((n == 1) + (n == 2)) { n = n + 1; }",
    ),
    (
        "while(n == 0 || 5 / n) { n = n - 1; }",
        "write while ((a) + (b)) { .. } for while (a || b) { .. } if a and b are 0 or 1, as comparisons are, and b does not trap if a is 1; otherwise write int r = 1; if (!(a)) { r = b; } while (r) { .. r = 1; if (!(a)) { r = b; } }",
        "int r = 1; if (!(n == 0)) { r = 5 / n; } while (r) { n = n - 1; r = 1; if (!(n == 0)) { r = 5 / n; } }",
    ),
    (
        "n = n | 1;",
        "write a + b for a | b if they have no bit in common",
        "n = n + 1;",
    ),
    (
        "n = n ^ 1;",
        "write (a + b) % 2 for a ^ b",
        "n = (n + 1) % 2;",
    ),
    ("n = ~n;", "write -n - 1 for ~n", "n = -n - 1;"),
    (
        "int x = n ? 1 : 2;",
        "Write int x = b; if (t) { x = a; }",
        "int x = 2; if (n) { x = 1; }",
    ),
    (
        "case 1: n = 2;",
        "write if (x == 1) { .. } else { .. }",
        "int x = n; if (x == 1) { n = 2; } else { }",
    ),
    (
        "default: n = 2;",
        "write if (x == 1) { .. } else { .. }",
        "int x = n; if (x == 1) { n = 2; } else { }",
    ),
    (
        "cilk::reducer_opadd<int> s;",
        "write reducer sum s; outside of functions, and s += e;",
        "total += n;",
    ),
    (
        "cilk::reducer<op> s;",
        "write reducer sum s; outside of functions, and s += e;",
        "total += n;",
    ),
    ("std::mutex m;", "a lock has no replacement", NONE),
    ("std::lock_guard l(m);", "a lock has no replacement", NONE),
    (
        "n = cilk::current_worker;",
        "the number of a worker has no replacement",
        NONE,
    ),
    ("n = std::abs(n);", "delete the name and the ::", "n = n;"),
    ("out: n = 1;", "write if and while", "if (n) { n = 1; }"),
    (
        "int a[2]; n = a.length;",
        "write len(a) for a.length",
        "int a[2]; n = len(a);",
    ),
    (
        "int a[2]; n = a.size();",
        "write len(a) for a.size()",
        "int a[2]; n = len(a);",
    ),
    (
        "n = 1.5;",
        "count in a smaller unit, as 15 tenths for 1.5",
        "n = 15;",
    ),
    ("n = n.x;", "as x_y for x.y", "int n_x = 0; n = n_x;"),
    ("n = 'a';", "write 97 for 'a'", "n = 97;"),
    ("n = '\\n';", "write 10 for '\\n'", "n = 10;"),
    (
        "n = 1'000'000;",
        "a number has digits only: write it without '",
        "n = 1000000;",
    ),
    (
        "n = n + \\\n  1;",
        "a statement may go on in the next line: delete the \\",
        "n = n +\n  1;",
    ),
    (
        "printf(\"%d\", n);",
        "there are no strings: write print(x); for each integer x",
        "int x = n; print(x);",
    ),
    (
        "fprintf(stderr, \"%d\", n);",
        "there are no strings: write print(x); for each integer x",
        "int x = n; print(x);",
    ),
    (
        "puts(\"x\");",
        "there are no strings: delete it, and write print(x);",
        "int x = n; print(x);",
    ),
    (
        "region \"x\" { }",
        "write region phase { .. }",
        "region phase { }",
    ),
    (
        "n = @;",
        "the byte 64 ('@') starts no token: delete it",
        "n = 1;",
    ),
];

static NAMES: &[Habit] = &[
    ("printf(n);", "there is no printf: ", "int x = n; print(x);"),
    (
        "fprintf(n);",
        "there is no fprintf: ",
        "int x = n; print(x);",
    ),
    ("puts(n);", "there is no puts: ", "int x = n; print(x);"),
    (
        "putchar(n);",
        "there is no putchar: ",
        "int x = n; print(x);",
    ),
    ("scanf(n);", "there is no scanf: ", ""),
    ("n = getchar();", "there is no getchar: ", ""),
    ("n = atoi(n);", "there is no atoi: ", ""),
    ("n = atol(n);", "there is no atol: ", ""),
    ("n = strtol(n);", "there is no strtol: ", ""),
    ("n = argc;", "there is no argc: ", ""),
    ("n = argv;", "there is no argv: ", ""),
    ("n = malloc(n);", "there is no malloc: ", "int a[n];"),
    ("n = calloc(n);", "there is no calloc: ", "int a[n];"),
    ("n = alloca(n);", "there is no alloca: ", "int a[n];"),
    (
        "n = realloc(n);",
        "there is no realloc: ",
        "int a[n]; int b[n]; int i = 0; b[i] = a[i];",
    ),
    ("free(n);", "there is no free: ", ""),
    (
        "memcpy(n);",
        "there is no memcpy: ",
        "int a[n]; int b[n]; int i = 0; while (i < len(a)) { b[i] = a[i]; i = i + 1; }",
    ),
    (
        "memmove(n);",
        "there is no memmove: ",
        "int a[n]; int b[n]; int i = 0; while (i < len(a)) { b[i] = a[i]; i = i + 1; }",
    ),
    (
        "memset(n);",
        "there is no memset: ",
        "int a[n]; int i = 0; while (i < len(a)) { a[i] = 0; i = i + 1; }",
    ),
    (
        "n = min(n);",
        "there is no min: ",
        "int a = n; int b = 2; int m = a; if (b < m) { m = b; }",
    ),
    (
        "n = fmin(n);",
        "there is no fmin: ",
        "int a = n; int b = 2; int m = a; if (b < m) { m = b; }",
    ),
    (
        "n = fmax(n);",
        "there is no fmax: ",
        "int a = n; int b = 2; int m = a; if (b > m) { m = b; }",
    ),
    (
        "n = abs(n);",
        "there is no abs: ",
        "int x = n; if (x < 0) { x = -x; }",
    ),
    (
        "n = labs(n);",
        "there is no labs: ",
        "int x = n; if (x < 0) { x = -x; }",
    ),
    (
        "n = rand();",
        "there is no rand: ",
        "int x = 1; x = (x * 1103515245 + 12345) % 2147483648;",
    ),
    (
        "n = random();",
        "there is no random: ",
        "int x = 1; x = (x * 1103515245 + 12345) % 2147483648;",
    ),
    (
        "srand(n);",
        "there is no srand: ",
        "int x = 1; x = (x * 1103515245 + 12345) % 2147483648;",
    ),
    (
        "assert(n);",
        "there is no assert: ",
        "int c = n; if (!(c)) { print(1 / 0); }",
    ),
    ("exit(n);", "there is no exit: ", NONE),
    ("abort();", "there is no abort: ", NONE),
    ("n = clock();", "there is no clock: ", NONE),
    ("n = time(n);", "there is no time: ", NONE),
    ("gettimeofday(n);", "there is no gettimeofday: ", NONE),
    ("clock_gettime(n);", "there is no clock_gettime: ", NONE),
    ("n = true;", "there is no true: ", "n = 1;"),
    ("n = false;", "there is no false: ", "n = 0;"),
    ("n = NULL;", "there is no NULL: ", "n = 0;"),
    ("n = INT_MAX;", "there is no INT_MAX: ", "n = 2147483647;"),
    (
        "n = LONG_MAX;",
        "there is no LONG_MAX: ",
        "n = 9223372036854775807;",
    ),
    (
        "n = wsp_getworkspan();",
        "there is no wsp_getworkspan: ",
        "region part { n = n + 1; }",
    ),
    (
        "n = wsp_add(n, n);",
        "there is no wsp_add: ",
        "region part { n = n + 1; }",
    ),
    (
        "n = wsp_sub(n, n);",
        "there is no wsp_sub: ",
        "region part { n = n + 1; }",
    ),
    (
        "wsp_dump(n);",
        "there is no wsp_dump: ",
        "region part { n = n + 1; }",
    ),
    ("n = __cilkscale__;", "there is no __cilkscale__: ", ""),
    (
        "n = __cilkrts_get_nworkers();",
        "there is no __cilkrts_get_nworkers: ",
        NONE,
    ),
    (
        "n = __cilkrts_get_worker_number();",
        "there is no __cilkrts_get_worker_number: ",
        NONE,
    ),
    (
        "pthread_mutex_lock(n);",
        "there is no pthread_mutex_lock: ",
        NONE,
    ),
    (
        "pthread_mutex_unlock(n);",
        "there is no pthread_mutex_unlock: ",
        NONE,
    ),
    ("mutex_lock(n);", "there is no mutex_lock: ", NONE),
    ("mutex_unlock(n);", "there is no mutex_unlock: ", NONE),
    (
        "CILK_C_REDUCER_OPADD(n, 0);",
        "there is no CILK_C_REDUCER_OPADD: write reducer sum s; outside of functions, and s += e; to add to it",
        "total += n;",
    ),
    (
        "CILK_C_REDUCER_MAX(n, 0);",
        "there is no CILK_C_REDUCER_MAX: write reducer max m; outside of functions, and m max= e; for each value",
        "n = n + 1;",
    ),
    (
        "CILK_C_REGISTER_REDUCER(n);",
        "there is no CILK_C_REGISTER_REDUCER: ",
        "",
    ),
    (
        "CILK_C_UNREGISTER_REDUCER(n);",
        "there is no CILK_C_UNREGISTER_REDUCER: ",
        "",
    ),
    ("n = REDUCER_VIEW(n);", "there is no REDUCER_VIEW: ", ""),
    (
        "sizeof(n);",
        "there is no sizeof: ",
        "int a[2]; n = len(a);",
    ),
];

static RULES: &[Habit] = &[
    (
        "int a[2]; h(a + 1);",
        "argument 1 of h must be an array name on its own; to pass a part, write cut a at k as left, right { .. } and pass left or right; if h only reads a, pass the whole a to a const parameter, and the ends of the part as integers",
        "int a[2]; int k = 1; cut a at k as left, right { h(right); }",
    ),
    (
        "int a[2]; int b[2]; b = a;",
        "copy each element, as in int i = 0; while (i < len(b)) { b[i] = ..; i = i + 1; }",
        "int a[2]; int b[2]; int i = 0; while (i < len(b)) { b[i] = a[i]; i = i + 1; }",
    ),
    (
        "int a[2]; int x = a;",
        "copy each element, as in int i = 0; while (i < len(a)) { b[i] = a[i]; i = i + 1; }",
        "int a[2]; int b[2]; int i = 0; while (i < len(a)) { b[i] = a[i]; i = i + 1; }",
    ),
    (
        "int a[2]; print(a);",
        "write a[i] for an element",
        "int a[2]; int i = 0; print(a[i]);",
    ),
    ("n += 2;", "write n = n + ..;", "n = n + 2;"),
    (
        "total = total + 2;",
        "write total += e; for total = total + e;",
        "total += 2;",
    ),
    (
        "n max= 2;",
        "write if (n < x) { n = x; }",
        "int x = 2; if (n < x) { n = x; }",
    ),
    (
        "f(n, n);",
        "f (line 2) takes 1 argument, but 2 are given",
        "f(n);",
    ),
    (
        "h();",
        "h (line 2) takes 1 argument, but 0 are given",
        "int a[2]; h(a);",
    ),
    (
        "print(total);",
        "total is a reducer (line 1), and no statement reads it: delete this statement; the run prints total at its end",
        "",
    ),
    (
        "if (n) { return total; }",
        "total is a reducer (line 1), and no statement reads it: write return 0; here, the run prints total at its end",
        "if (n) { return 0; }",
    ),
    (
        "n = total + 1;",
        "total is a reducer (line 1), and no statement reads it: delete the use; the run prints total at its end",
        "n = 1;",
    ),
    (
        "m = 1;",
        "m is not declared here: declare int m = 0; before this statement",
        "int m = 0; m = 1;",
    ),
    (
        "int n = 1;",
        "n is already declared in line 2: delete int to assign to it",
        "n = 1;",
    ),
    (
        "int a[4]; cut a at 2 as n, m { }",
        "n is already declared in line 2: use another name here",
        "int a[4]; cut a at 2 as l, m { }",
    ),
    (
        "cilk_for (int n = 0; n < 4; n++) { }",
        "n is already declared in line 2: use another name here",
        "cilk_for (int i = 0; i < 4; i++) { }",
    ),
    (
        "int n[4];",
        "n is already declared in line 2: use another name here",
        "int a[4];",
    ),
    (
        "int a[4]; a = n;\n n = a[0];",
        "t:3: a is an array (line 3), and = assigns integers: copy each element",
        "int a[4]; int i = 0; while (i < len(a)) { a[i] = n; i = i + 1; }\n n = a[0];",
    ),
    (
        "int a[4]; a = n;\n return a;",
        "t:3: a is an array (line 3), and = assigns integers: copy each element",
        "int a[4]; int i = 0; while (i < len(a)) { a[i] = n; i = i + 1; }\n",
    ),
    (
        "cilk_scope { return 1; }",
        "declare int r = 0; before the block, assign to r in it, and write return r; after it",
        "int r = 0; cilk_scope { r = 1; } if (1) { return r; }",
    ),
    (
        "if (n) { return; }",
        "write return with a value, as return 0;",
        "if (n) { return 0; }",
    ),
    (
        "cilk_for (int i = 0; j < n; i++) { }",
        "write i for j",
        "cilk_for (int i = 0; i < n; i++) { }",
    ),
    (
        "cilk_for (int i = 0; i < n; i++) grain 0 { }",
        "write a number from 1 to 1000000",
        "cilk_for (int i = 0; i < n; i++) grain 1 { }",
    ),
    (
        "int a[2]; cut a at 1 as l, l { }",
        "rename one of them",
        "int a[2]; cut a at 1 as l, r { }",
    ),
    (
        "int a[8]; cut a at 4 as l, r {\n cilk_spawn h(l);\n g(n, n + len(l));\n }",
        "write int t = len(l); before line 4, and t here",
        "int a[8]; cut a at 4 as l, r {\n int t = len(l); cilk_spawn h(l);\n g(n, n + t);\n }",
    ),
    (
        "int x = 0; x = cilk_spawn f(n);\n n = x;",
        "the spawn in line 3 assigns to x at the next cilk_sync: write cilk_sync; before this statement",
        "int x = 0; x = cilk_spawn f(n);\n cilk_sync; n = x;",
    ),
    (
        "int a[8]; cilk_spawn h(a);\n h(a);",
        "write cut a at k as left, right { .. } and pass left and right",
        "int a[8]; int k = 4; cut a at k as left, right { cilk_spawn h(left);\n h(right); }",
    ),
    (
        "int a[8]; int left = 4; cilk_spawn h(a);\n h(a);",
        "write cut a at k as low, high { .. } and pass low and high",
        "int a[8]; int left = 4; cut a at left as low, high { cilk_spawn h(low);\n h(high); }",
    ),
    (
        "int x = 0; int y = 0; x = cilk_spawn f(n);\n y = cilk_spawn f(n);\n n = x;\n n = y;",
        "t:6: this statement reads y, but a spawn assigns to y at the next cilk_sync: write cilk_sync; between that spawn and this statement",
        "int x = 0; int y = 0; x = cilk_spawn f(n);\n y = cilk_spawn f(n);\n cilk_sync; n = x;\n n = y;",
    ),
    (
        "cilk_for (int i = 0; i < n; i++) { n = n + i; }",
        "write reducer sum r; outside of functions and r += i; here (max: reducer max r; and r max= ..;), and delete the other uses of n: the run prints r at its end",
        "cilk_for (int i = 0; i < n; i++) { total += i; }",
    ),
    (
        "int a[8]; cilk_for (int i = 0; i < 8; i++) { a[i] = i; }",
        "write over (a) in its head, and use only the element of the loop variable",
        "int a[8]; cilk_for (int i = 0; i < 8; i++) over (a) { a[i] = i; }",
    ),
    (
        "int a[8]; cilk_for (int i = 0; i < 8; i++) over (a) {\n a[i] = i;\n total += len(a); }",
        "write int r = len(a); before the loop, and r here",
        "int a[8]; int r = len(a); cilk_for (int i = 0; i < 8; i++) over (a) {\n a[i] = i;\n total += r; }",
    ),
    (
        "int a[8]; cut a at 4 as l, r { a[0] = 1; }",
        "holds a until its block ends: use its parts l, r there",
        "int a[8]; cut a at 4 as l, r { l[0] = 1; }",
    ),
    (
        "int a[8]; int x = 0;\n cut a at 4 as l, r {\n x = len(a); }",
        "holds a until its block ends: write int t = len(a); before line 4, and t here",
        "int a[8]; int x = 0;\n int t = len(a); cut a at 4 as l, r {\n x = t; }",
    ),
    (
        "while (n) { int x = 0; x = cilk_spawn f(n); n = n - 1; }",
        "write cilk_sync; at the end of this block",
        "while (n) { int x = 0; x = cilk_spawn f(n); n = n - 1; cilk_sync; }",
    ),
];

/// Bytes that start no token.
pub fn bytes() -> &'static [Habit] {
    BYTES
}

/// Names of libraries.
pub fn names() -> &'static [Habit] {
    NAMES
}

/// Rules of names, types and ownership.
pub fn rules() -> &'static [Habit] {
    RULES
}
