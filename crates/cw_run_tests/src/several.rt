//! Sources with several errors, each reported once, in order of lines.

use crate::explained::{all_explained, explained_between};
use std::alloc::{AllocError, Global};

/// The most bytes of fifty errors and the line after them.
const MOST_BYTES: usize = 20_560;

static SEVERAL: &[(&str, &str)] = &[
    // two statements of one line, and one of the next
    (
        "int main(int k) {\n  int a; int b;\n  k--;\n  return k;\n}",
        "refused 2 line 2\nt:2: unexpected ;: a declaration has a value: write int a = 0;\n  2 |   int a; int b;\n    |        ^\nt:2: unexpected ;: a declaration has a value: write int b = 0;\n  2 |   int a; int b;\n    |               ^\nt:3: unexpected -: there is no --: write k = k - 1;\n  3 |   k--;\n    |    ^\n",
    ),
    // bytes and tokens, in order of lines
    (
        "int main(int n) {\n  n = n | 4;\n  int q;\n  return n ^ 1;\n}",
        "refused 1 line 2\nt:2: there are no operations on bits: write a + b for a | b if they have no bit in common\n  2 |   n = n | 4;\n    |         ^\nt:3: unexpected ;: a declaration has a value: write int q = 0;\n  3 |   int q;\n    |        ^\nt:4: there are no operations on bits: write (a + b) % 2 for a ^ b if a and b are 0 or 1\n  4 |   return n ^ 1;\n    |            ^\n",
    ),
    // names, types and ownership of the functions that parse, but no call of one that does not
    (
        "void put(int a[], int v) {\n  a[0] = w;\n}\nint get(int *a) { return a[0]; }\nint pair(int a, int b) {\n  int r = 0;\n  r = get(a);\n  r = got(b);\n  return r;\n}\nint half(int n) {\n  int h = 0;\n  h = cilk_spawn pair(n, 2);\n  n = h;\n  cilk_sync;\n  return n;\n}\nint main(int n) {\n  int r = 0;\n  r = pair(n);\n  return r;\n}",
        "refused 2 line 4\nt:2: w is not declared here: declare int w = 0; before this statement, in this block or one around it\n  2 |   a[0] = w;\n    |          ^\nt:4: unexpected *: there are no pointers: write int a[], or const int a[] if the function only reads it; each parameter is int n, int a[] or const int a[]\n  4 | int get(int *a) { return a[0]; }\n    |             ^\nt:8: there is no function got: define it, as int got(..) { .. }\n  8 |   r = got(b);\n    |       ^\nt:14: this statement reads h, but the spawn in line 13 assigns to h at the next cilk_sync: write cilk_sync; before this statement\n  13 |   h = cilk_spawn pair(n, 2);\n  14 |   n = h;\n     |       ^\nt:20: pair (line 5) takes 2 arguments, but 1 is given\n   5 | int pair(int a, int b) {\n  20 |   r = pair(n);\n     |       ^\n",
    ),
    // ownership next to names and types
    (
        "void zero(int a[]) { a[0] = k; }\nint main(int n) {\n  int a[n];\n  cilk_spawn zero(a);\n  a[1] = 2;\n  cilk_sync;\n  return a[0];\n}",
        "refused 3 line 1\nt:1: k is not declared here: declare int k = 0; before this statement, in this block or one around it\n  1 | void zero(int a[]) { a[0] = k; }\n    |                             ^\nt:5: this statement writes a, but the spawn in line 4 holds a until the next cilk_sync: write cilk_sync; before this statement\n  4 |   cilk_spawn zero(a);\n  5 |   a[1] = 2;\n    |   ^\n",
    ),
    // a name of a directive
    (
        "#define LOW 1\nint f() { return LOW; }\nint main(int n) { return low; }",
        "refused 1 line 1\nt:1: there are no directives: delete the line; write the value where the name is used, and a function for a macro with parameters\n  1 | #define LOW 1\n    | ^\nt:3: low is not declared here: declare int low = 0; before this statement, in this block or one around it\n  3 | int main(int n) { return low; }\n    |                          ^\n",
    ),
    // blocks without braces
    (
        "int main(int n) {\n  while (n > 9) n = n / 2;\n  if (n == 1) return 7;\n  else if (n == 2) print(n);\n  else return 8;\n  return n;\n}",
        "refused 2 line 2\nt:2: unexpected n: put the block of while in braces: { n = n / 2; }\n  2 |   while (n > 9) n = n / 2;\n    |                 ^\nt:3: unexpected return: put the block of if in braces: { return 7; }\n  3 |   if (n == 1) return 7;\n    |               ^\nt:4: unexpected if: an else has a block: write else { if (..) { .. } }\n  4 |   else if (n == 2) print(n);\n    |        ^\nt:4: unexpected print: put the block of if in braces: { print(n); }\n  4 |   else if (n == 2) print(n);\n    |                    ^\nt:5: unexpected return: put the block of else in braces: { return 8; }\n  5 |   else return 8;\n    |        ^\n",
    ),
    // blocks of C, the end of one, and an update in a function that does not parse
    (
        "int main(int n) {\n  for (int j = 0; j < n; j++) { n--; }\n  do { n += 3; } while (n < 5);\n  return n;\n}",
        "refused 2 line 2\nt:2: unexpected int: there is no for: write int j = LOW; while (j < HIGH) { .. j = j + 1; } (without int if j is declared), or cilk_for (int j = LOW; j < HIGH; j++) { .. } for independent iterations\n  2 |   for (int j = 0; j < n; j++) { n--; }\n    |        ^\nt:2: unexpected -: there is no --: write n = n - 1;\n  2 |   for (int j = 0; j < n; j++) { n--; }\n    |                                  ^\nt:3: unexpected {: there is no do: write the body once, and then while (..) { .. }\n  3 |   do { n += 3; } while (n < 5);\n    |      ^\nt:3: n is not a reducer: write n = n + 3;\n  3 |   do { n += 3; } while (n < 5);\n    |        ^\n",
    ),
    // a brace that is missing before a function
    (
        "int f(int n) {\n  while (n > 1) {\n    n = n / 2;\n  return n;\n}\nvoid g(int a[]) {\n  a[0] = 1\n  a[1] = 2;\n}\nint main(int n) { return n; }",
        "refused 2 line 6\nt:6: unexpected void: a function is not declared inside another one: the { of line 1 is open; write } before this line\n  1 | int f(int n) {\n  6 | void g(int a[]) {\n    | ^\nt:8: unexpected a: write ; after 1 in line 7\n  7 |   a[0] = 1\n  8 |   a[1] = 2;\n    |   ^\n",
    ),
    // a brace too many
    (
        "int f(int n) {\n  while (n > 3) { n = n / 2; } }\n  print(n);\n  return n;\n}\nint main(int n) {\n  return p;\n}",
        "refused 2 line 3\nt:3: unexpected print; expected int, void or reducer\n  3 |   print(n);\n    |   ^\nt:7: p is not declared here: declare int p = 0; before this statement, in this block or one around it\n  7 |   return p;\n    |          ^\n",
    ),
    // semicolons that are missing
    (
        "int main(int n) {\n  int k = n\n  k = k + 1\n  cilk_sync\n  return k\n}",
        "refused 2 line 3\nt:3: unexpected k: write ; after n in line 2\n  2 |   int k = n\n  3 |   k = k + 1\n    |   ^\nt:4: unexpected cilk_sync: write ; after 1 in line 3\n  3 |   k = k + 1\n  4 |   cilk_sync\n    |   ^\nt:5: unexpected return: write ; after cilk_sync in line 4\n  4 |   cilk_sync\n  5 |   return k\n    |   ^\nt:6: unexpected }: write ; after k in line 5\n  5 |   return k\n  6 | }\n    | ^\n",
    ),
    // a text and a comment that are not closed
    (
        "int main(int n) {\n  print(\"end of input);\n  n = n + 1; /* add\n  return n;\n}",
        "refused 1 line 2\nt:2: there are no strings: delete it, and write print(x); to print an integer x\n  2 |   print(\"end of input);\n    |         ^\nt:3: write a comment after //, up to the end of its line\n  3 |   n = n + 1; /* add\n    |              ^\n",
    ),
    // comments of C, two of them in one line
    (
        "/* counts up\n   by one */\nint main(int n) {\n  n = n + 1; /* one */ /* more */\n  return m;\n}",
        "refused 2 line 1\nt:1: write a comment after //, up to the end of its line\n  1 | /* counts up\n    | ^\nt:4: write a comment after //, up to the end of its line\n  4 |   n = n + 1; /* one */ /* more */\n    |              ^\nt:5: m is not declared here: declare int m = 0; before this statement, in this block or one around it\n  5 |   return m;\n    |          ^\n",
    ),
    // declarations of C outside of functions, one of a name that a function uses
    (
        "enum { RED, BLUE };\nunion u { int x; };\nextern int limit;\nint size = 64;\nvoid fill(int a[], int n);\ninline int twice(int n) { return 2 * n; }\nint main(int n) {\n  n = limit;\n  return q;\n}",
        "refused 2 line 1\nt:1: unexpected enum: there is no enum: delete the line, and write the numbers\n  1 | enum { RED, BLUE };\n    | ^\nt:2: unexpected union: there are no unions: delete the declaration; write an array for each member\n  2 | union u { int x; };\n    | ^\nt:3: unexpected extern: there is no extern: delete the word; a function is int or void; each parameter is int n, int a[] or const int a[]\n  3 | extern int limit;\n    | ^\nt:4: unexpected =: there are no variables outside of functions: delete this line and write 64 for size if no statement assigns to size; otherwise declare int size = 64; in main and pass it, or write reducer sum size; for a sum over strands\n  4 | int size = 64;\n    |          ^\nt:5: unexpected ;: a function is known in the whole source: delete this line\n  5 | void fill(int a[], int n);\n    |                          ^\nt:6: unexpected inline: there is no inline: delete the word; a function is int or void; each parameter is int n, int a[] or const int a[]\n  6 | inline int twice(int n) { return 2 * n; }\n    | ^\nt:9: q is not declared here: declare int q = 0; before this statement, in this block or one around it\n  9 |   return q;\n    |          ^\n",
    ),
    // opening braces only
    (
        "\n{ {\n{",
        "refused 2 line 2\nt:2: unexpected {; expected int, void or reducer\n  2 | { {\n    | ^\n",
    ),
    // closing braces only
    (
        " }\n}",
        "refused 2 line 1\nt:1: unexpected }: no { is open here: delete this }, or one above that ends its function too early\n  1 |  }\n    |  ^\n",
    ),
    // no case follows from its switch
    (
        "int main(int n) {\n  int r = 1;\n  switch (n % 3) {\n    case 0:\n      r = 5;\n      break;\n    case 2:\n      r = n * 2;\n    default:\n      continue;\n  }\n  return r;\n}",
        "refused 1 line 4\nt:3: unexpected {: there is no switch: write if (..) { .. } else { if (..) { .. } }\n  3 |   switch (n % 3) {\n    |                  ^\nt:4: there is no switch: write if (x == 1) { .. } else { .. }\n  4 |     case 0:\n    |           ^\nt:6: unexpected ;: there is no break: if a return follows the loop, write it here; otherwise move the loop into a function, and write return; here\n  6 |       break;\n    |            ^\nt:7: there is no switch: write if (x == 1) { .. } else { .. }\n  7 |     case 2:\n    |           ^\nt:9: there is no switch: write if (x == 1) { .. } else { .. }\n  9 |     default:\n    |            ^\nt:10: unexpected ;: there is no continue: put the rest of the iteration into if (..) { .. }\n  10 |       continue;\n     |               ^\n",
    ),
];

#[test]
fn each_error_is_reported(rt: HostRuntime) {
    all_explained(&rt, rt.alloc(), SEVERAL);
}

// Sources whose first errors do not hide the others.
static HIDDEN: &[(&str, &str)] = &[
    // a function without a return at its end, a return in a block, and ownership
    (
        "int get(int a[]) { return 0; }\nint f(int a[]) {\n  int x = 0;\n  cut a at 0 as l, r {\n    x = cilk_spawn get(l);\n    print(x);\n    return x;\n  }\n}\nint main() { int a[2]; int y = 0; y = f(a); return y; }",
        "refused 3 line 2\nt:2: f must return an integer at its end, and the return in line 7 is in a cilk_scope, cut, region or cilk_for, where none is allowed: declare int t = 0; before that block, assign to t in it, and write return t; after it\n  2 | int f(int a[]) {\n    |     ^\n  7 |     return x;\nt:6: this statement reads x, but the spawn in line 5 assigns to x at the next cilk_sync: write cilk_sync; before this statement\n  5 |     x = cilk_spawn get(l);\n  6 |     print(x);\n    |           ^\nt:7: this statement reads x, but the spawn in line 5 assigns to x at the next cilk_sync: write cilk_sync; before this statement\n  5 |     x = cilk_spawn get(l);\n  7 |     return x;\n    |            ^\n",
    ),
    // a cut of a const array, and ownership in its block
    (
        "int get(const int a[]) { return 0; }\nvoid f(const int a[]) {\n  int x = 0;\n  cut a at 0 as l, r {\n    x = cilk_spawn get(l);\n    print(x);\n  }\n}\nint main() { int a[2]; f(a); return 0; }",
        "refused 3 line 4\nt:4: a is const (line 2), and a const array is not cut: delete const, or pass the whole a to const parameters, and the ends of a part as integers\n  2 | void f(const int a[]) {\n  4 |   cut a at 0 as l, r {\n    |       ^\nt:6: this statement reads x, but the spawn in line 5 assigns to x at the next cilk_sync: write cilk_sync; before this statement\n  5 |     x = cilk_spawn get(l);\n  6 |     print(x);\n    |           ^\n",
    ),
    // a reducer that is read, and ownership
    (
        "reducer max m;\nint main(int n) {\n  int a[4];\n  cilk_for (int i = 0; i < n; i++) {\n    a[i % 4] = 1;\n    m max= i;\n  }\n  return m;\n}",
        "refused 3 line 8\nt:5: the cilk_for in line 4 may not use a: write over (a) in its head, and use only the element of the loop variable; for other elements, write a function that cuts a, spawns itself on one part and calls itself on the other, or add to a reducer; if iterations write the same element, write a while\n  4 |   cilk_for (int i = 0; i < n; i++) {\n  5 |     a[i % 4] = 1;\n    |     ^\nt:8: m is a reducer (line 1), and no statement reads it: write return 0; here, the run prints m at its end. If the program needs the value, return it from functions or write it to arrays instead\n  1 | reducer max m;\n  8 |   return m;\n    |          ^\n",
    ),
    // a name from outside of functions, and ownership
    (
        "int limit = 5;\nint f(int n) { return n; }\nint main(int n) {\n  int x = 0;\n  if (n > limit) { n = 1; }\n  x = cilk_spawn f(n);\n  return x + x;\n}",
        "refused 2 line 1\nt:1: unexpected =: there are no variables outside of functions: delete this line and write 5 for limit if no statement assigns to limit; otherwise declare int limit = 5; in main and pass it, or write reducer sum limit; for a sum over strands\n  1 | int limit = 5;\n    |           ^\nt:7: this statement reads x, but the spawn in line 6 assigns to x at the next cilk_sync: write cilk_sync; before this statement\n  6 |   x = cilk_spawn f(n);\n  7 |   return x + x;\n    |          ^\n",
    ),
    // a keyword as a name, and types
    (
        "int main(int n) {\n  int max = n;\n  int n = 0;\n  return n;\n}",
        "refused 2 line 2\nt:2: unexpected max: max is a keyword: use another name in the whole function, such as Max\n  2 |   int max = n;\n    |       ^\nt:3: n is already declared in line 1: delete int to assign to it, or use another name\n  1 | int main(int n) {\n  3 |   int n = 0;\n    |       ^\n",
    ),
    // each use of a keyword as a name
    (
        "int main(int n) {\n  int max = 0;\n  while (n > max) {\n    max = max + n;\n  }\n  return max;\n}",
        "refused 2 line 2\nt:2: unexpected max: max is a keyword: use another name in the whole function, such as Max\n  2 |   int max = 0;\n    |       ^\n",
    ),
    // a keyword as the variable of a loop
    (
        "int main(int n) {\n  int a[n];\n  cilk_for (int at = 0; at < n; at++) over (a) { a[at] = b; }\n  return a[0];\n}",
        "refused 2 line 3\nt:3: unexpected at: at is a keyword: use another name in the whole function, such as At\n  3 |   cilk_for (int at = 0; at < n; at++) over (a) { a[at] = b; }\n    |                 ^\nt:3: b is not declared here: declare int b = 0; before this statement, in this block or one around it\n  3 |   cilk_for (int at = 0; at < n; at++) over (a) { a[at] = b; }\n    |                                                          ^\n",
    ),
    // two values that are printed, and types
    (
        "int main(int n) {\n  print(n, n);\n  int n = 0;\n  return n;\n}",
        "refused 2 line 2\nt:2: unexpected ,: print takes one value: write print(n); print(n);\n  2 |   print(n, n);\n    |          ^\nt:3: n is already declared in line 1: delete int to assign to it, or use another name\n  1 | int main(int n) {\n  3 |   int n = 0;\n    |       ^\n",
    ),
    // no error of ownership follows from a name that is not declared
    (
        "int f(int n) { return n; }\nint main(int n) {\n  int a[n];\n  cilk_for (int i = 0; i < n; i++) over (a) {\n    a[j] = 1;\n  }\n  y = cilk_spawn f(n);\n  a[0] = y;\n  return 0;\n}",
        "refused 3 line 5\nt:5: j is not declared here: declare int j = 0; before this statement, in this block or one around it\n  5 |     a[j] = 1;\n    |       ^\nt:7: y is not declared here: declare int y = 0; before this statement, in this block or one around it\n  7 |   y = cilk_spawn f(n);\n    |   ^\nt:8: y is not declared here: declare int y = 0; before this statement, in this block or one around it\n  8 |   a[0] = y;\n    |          ^\n",
    ),
    // a name in a spawn, whose result is read, in a main that returns nothing
    (
        "int f(int n) { return n; }\nvoid main(int n) {\n  int x = 0;\n  x = cilk_spawn f(m);\n  n = x;\n  return;\n}",
        "refused 3 line 2\nt:2: main must return int, not void\n  2 | void main(int n) {\nt:4: m is not declared here: declare int m = 0; before this statement, in this block or one around it\n  4 |   x = cilk_spawn f(m);\n    |                    ^\nt:5: this statement reads x, but the spawn in line 4 assigns to x at the next cilk_sync: write cilk_sync; before this statement\n  4 |   x = cilk_spawn f(m);\n  5 |   n = x;\n    |       ^\n",
    ),
    // more than 241 tokens before what replaces a statement
    (
        "int main(int n) {\n  n = n + 1;\n  n = n + 1;\n  n = n + 1;\n  n = n + 1;\n  n = n + 1;\n  n = n + 1;\n  n = n + 1;\n  n = n + 1;\n  n = n + 1;\n  n = n + 1;\n  n = n + 1;\n  n = n + 1;\n  n = n + 1;\n  n = n + 1;\n  n = n + 1;\n  n = n + 1;\n  n = n + 1;\n  n = n + 1;\n  n = n + 1;\n  n = n + 1;\n  n = n + 1;\n  n = n + 1;\n  n = n + 1;\n  n = n + 1;\n  n = n + 1;\n  n = n + 1;\n  n = n + 1;\n  n = n + 1;\n  n = n + 1;\n  n = n + 1;\n  n = n + 1;\n  n = n + 1;\n  n = n + 1;\n  n = n + 1;\n  n = n + 1;\n  n = n + 1;\n  n = n + 1;\n  n = n + 1;\n  n = n + 1;\n  n = n + 1;\n  n = n + 1;\n  int i;\n  return n;\n}",
        "refused 2 line 43\nt:43: unexpected ;: a declaration has a value: write int i = 0;\n  43 |   int i;\n     |        ^\n",
    ),
    // an array that is const, and ownership without const
    (
        "int get(int a[]) { return a[0]; }\nint f(const int a[], int n) {\n  int x = 0;\n  x = get(a);\n  a[0] = n;\n  cut a at 1 as l, r {\n    x = cilk_spawn f(l, n);\n    n = len(l);\n  }\n  return x;\n}\nint main() {\n  int a[4];\n  int x = 0;\n  x = f(a, 2);\n  return x;\n}",
        "refused 3 line 4\nt:4: a is const (line 2): write const before this parameter of get if get only reads a; otherwise delete const in line 2\n  2 | int f(const int a[], int n) {\n  4 |   x = get(a);\n    |           ^\nt:5: a is const (line 2): delete const to write it\n  2 | int f(const int a[], int n) {\n  5 |   a[0] = n;\n    |   ^\nt:6: a is const (line 2), and a const array is not cut: delete const, or pass the whole a to const parameters, and the ends of a part as integers\n  2 | int f(const int a[], int n) {\n  6 |   cut a at 1 as l, r {\n    |       ^\nt:8: this statement reads len(l), but the spawn in line 7 holds l until the next cilk_sync: write int t = len(l); before line 7, and t here; cilk_sync; before this statement also works, but waits for the spawn\n  7 |     x = cilk_spawn f(l, n);\n  8 |     n = len(l);\n    |             ^\n",
    ),
];

#[test]
fn no_error_hides_another(rt: HostRuntime) {
    all_explained(&rt, rt.alloc(), HIDDEN);
}

// A statement so often.
fn repeated(alloc: Global, statement: &str, times: usize) -> Result<String, AllocError> {
    let mut text = String::new(alloc);
    for _ in 0..times {
        text.push_str(statement)?;
    }
    Ok(text)
}

// Whether the explanation of a statement that is repeated in a function is short, and has this part.
fn is_short(alloc: Global, statement: &str, times: usize, wanted: &str) -> bool {
    let Ok(text) = repeated(alloc, statement, times) else {
        return false;
    };
    match explained_between(alloc, "int main() {\n", text.as_str(), "}\n") {
        Ok(told) => told.len() <= MOST_BYTES && told.as_str().contains(wanted),
        Err(_) => false,
    }
}

// A statement, its number, and the line after the errors that are listed.
static REPEATED: &[(&str, usize, &str)] = &[
    ("  x y;\n", 51, "t: and 1 more error\n"),
    ("  x y;\n", 60, "t: and 10 more errors\n"),
    ("x y;", 300, "t: and 250 more errors\n"),
    (
        "  for (int i = 0; i < n; i++) { x++; }\n",
        60,
        "t: and 70 more errors\n",
    ),
    ("  x = @ + 1;\n", 60, "t: and 10 more errors\n"),
    ("#\n", 60, "t: and 11 more errors\n"),
];

#[test]
fn explanations_are_short(rt: HostRuntime) {
    for (statement, times, wanted) in REPEATED {
        let holds = is_short(rt.alloc(), statement, *times, wanted);
        assert!(rt; holds, "{statement}");
    }
}

// A source with one statement in each of several lines, the first of which is line 10, and its explanation.
struct Many {
    front: &'static str,
    statement: &'static str,
    times: usize,
    back: &'static str,
    // The line of the first fault.
    fault: &'static str,
    // The error of a line, up to the number of its source line, and from there on.
    said: &'static str,
    shown: &'static str,
    // What follows the errors of the first fifty lines.
    more: &'static str,
}

// The lines of the errors that are listed: from the first up to the end.
const FIRST: u32 = 10;

const END: u32 = 60;

// What precedes the statements that have an error of names.
const NAMES: &str = "int main(int n) {\n\n\n\n\n\n\n\n\n";

// The error of such a statement.
const UNKNOWN: &str =
    ": x is not declared here: declare int x = 0; before this statement, in this block or one around it\n  ";

// The source line of this error.
const SHOWN: &str = " |   n = x;\n     |       ^\n";

static MANY: &[Many] = &[
    // fifty errors of names are listed
    Many {
        front: NAMES,
        statement: "  n = x;\n",
        times: 50,
        back: "  return n;\n}\n",
        fault: "refused 3 line 10\n",
        said: UNKNOWN,
        shown: SHOWN,
        more: "",
    },
    // names find errors in at most fifty lines
    Many {
        front: NAMES,
        statement: "  n = x;\n",
        times: 60,
        back: "  return n;\n}\n",
        fault: "refused 3 line 10\n",
        said: UNKNOWN,
        shown: SHOWN,
        more: "",
    },
    // a statement that does not parse is counted after fifty errors of names
    Many {
        front: NAMES,
        statement: "  n = x;\n",
        times: 50,
        back: "  return n;\n}\nint f(int n) {\n  int a;\n  return n;\n}\n",
        fault: "refused 2 line 63\n",
        said: UNKNOWN,
        shown: SHOWN,
        more: "t: and 1 more error\n",
    },
    // and so are two errors of ownership in another function
    Many {
        front: NAMES,
        statement: "  n = x;\n",
        times: 50,
        back: "  return n;\n}\nint f(int n) {\n  int y = 0;\n  y = cilk_spawn f(n);\n  print(y);\n  y = 1;\n  cilk_sync;\n  return y;\n}\n",
        fault: "refused 3 line 10\n",
        said: UNKNOWN,
        shown: SHOWN,
        more: "t: and 2 more errors\n",
    },
    // fifty errors of ownership
    Many {
        front: "int f(int n) {\n  return n;\n}\nint main(int n) {\n  int x = 0;\n\n\n\n  x = cilk_spawn f(n);\n",
        statement: "  print(x);\n",
        times: 50,
        back: "  cilk_sync;\n  return x;\n}\n",
        fault: "refused 4 line 10\n",
        said: ": this statement reads x, but the spawn in line 9 assigns to x at the next cilk_sync: write cilk_sync; before this statement\n   9 |   x = cilk_spawn f(n);\n  ",
        shown: " |   print(x);\n     |         ^\n",
        more: "",
    },
];

// What standard error has for such a source: an error for each of fifty lines, and what follows them.
fn listed(alloc: Global, many: &Many) -> Result<String, AllocError> {
    let mut text = String::from_str(alloc, many.fault)?;
    for line in FIRST..END {
        let entry = format!(in alloc; "t:{line}{}{line}{}", many.said, many.shown)?;
        text.push_str(entry.as_str())?;
    }
    text.push_str(many.more)?;
    Ok(text)
}

// Whether such a source has this explanation.
fn is_listed(alloc: Global, many: &Many) -> bool {
    let Ok(text) = repeated(alloc, many.statement, many.times) else {
        return false;
    };
    let Ok(wanted) = listed(alloc, many) else {
        return false;
    };
    match explained_between(alloc, many.front, text.as_str(), many.back) {
        Ok(told) => told.as_str() == wanted.as_str(),
        Err(_) => false,
    }
}

#[test]
fn fifty_errors_are_listed(rt: HostRuntime) {
    for many in MANY {
        let holds = is_listed(rt.alloc(), many);
        assert!(rt; holds, "{} of {}", many.times, many.statement);
    }
}
