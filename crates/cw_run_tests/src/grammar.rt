//! Rows for bytes, tokens and the grammar.

use crate::explained::all_explained;

static TOKENS: &[(&str, &str)] = &[
    (
        "int main() {\n  return @;\n}",
        "refused 1 line 2\nt:2: the byte 64 ('@') starts no token: delete it\n  2 |   return @;\n    |          ^\n",
    ),
    (
        "int main(int n) {\n  if (n && 1) { } // & and @\n  return 0;\n}",
        "refused 1 line 2\nt:2: there is no &&: write if (a) { if (b) { .. } } for if (a && b) { .. }; with an else write int r = 0; if (a) { r = b; } if (r) { .. } else { .. }\n  2 |   if (n && 1) { } // & and @\n    |         ^\n",
    ),
    (
        "#include <cilk/cilk.h>\nint main() { return 0; }",
        "refused 1 line 1\nt:1: there are no directives: delete the line\n  1 | #include <cilk/cilk.h>\n    | ^\n",
    ),
    (
        "int main() {\n  print(\"x\");\n  return 0;\n}",
        "refused 1 line 2\nt:2: there are no strings: delete it, and write print(x); to print an integer x\n  2 |   print(\"x\");\n    |         ^\n",
    ),
    (
        "int main() {\n  return 9223372036854775808;\n}",
        "refused 1 line 2\nt:2: the number 9223372036854775808 is above the maximum, 9223372036854775807\n  2 |   return 9223372036854775808;\n    |          ^\n",
    ),
    (
        "int main() {\n  return n0123456789012345678901234567890123456789012345678901234567890123;\n}",
        "refused 5 line 2\nt:2: the name n012345678901234567890123456789012345678901234567890123456789012.. has 65 bytes, but at most 64 are allowed: shorten it\n  2 |   return n0123456789012345678901234567890123456789012345678901234567890123;\n    |          ^\n",
    ),
    // a byte above 127 is shown by its code
    (
        "int main() {\n  // caf\u{80}\n  return 0;\n}",
        "refused 1 line 2\nt:2: the byte 194 is not ASCII: replace the character, in comments too\n  2 |   // caf\\xc2\\x80\n    |         ^\n",
    ),
    // of later lines too, each by itself, but for a name that is too long
    (
        "int main() {\n  // \u{80}\n  return @ \u{80};\n  n0123456789012345678901234567890123456789012345678901234567890123;\n  return 9223372036854775808 @;\n}\n",
        "refused 1 line 2\nt:2: the byte 194 is not ASCII: replace the character, in comments too\n  2 |   // \\xc2\\x80\n    |      ^\nt:3: the byte 64 ('@') starts no token: delete it\n  3 |   return @ \\xc2\\x80;\n    |          ^\nt:3: the byte 194 is not ASCII: replace the character, in comments too\n  3 |   return @ \\xc2\\x80;\n    |            ^\nt:4: the name n012345678901234567890123456789012345678901234567890123456789012.. has 65 bytes, but at most 64 are allowed: shorten it\n  4 |   n0123456789012345678901234567890123456789012345678901234567890123;\n    |   ^\nt:4: unexpected ;; expected max, (, [, = or +=\n  4 |   n0123456789012345678901234567890123456789012345678901234567890123;\n    |                                                                    ^\nt:5: the number 9223372036854775808 is above the maximum, 9223372036854775807\n  5 |   return 9223372036854775808 @;\n    |          ^\nt:5: the byte 64 ('@') starts no token: delete it\n  5 |   return 9223372036854775808 @;\n    |                              ^\n",
    ),
    // bytes that a terminal would act on are shown by their codes, a tab as a space; a CR at the end is not shown
    (
        "int main() {\n\tint x = \u{1b}[2J;\r\n  return 0;\n}",
        "refused 1 line 2\nt:2: the byte 27 starts no token: delete it\n  2 |  int x = \\x1b[2J;\n    |          ^\n",
    ),
    (
        "int main() {\r\n  return \r\u{7}1 2; // \u{7f}\r\n}",
        "refused 1 line 2\nt:2: the byte 7 starts no token: delete it\n  2 |   return \\x0d\\x071 2; // \\x7f\n    |              ^\n",
    ),
    (
        "int main() {\n  return 0;\n}\u{0}",
        "refused 1 line 3\nt:3: the byte 0 starts no token: delete it\n  3 | }\\x00\n    |  ^\n",
    ),
    // a line is shown whole that takes 158 columns with its number, and as much of a longer one
    (
        "int main() {\n  return @; // 01234567890123456789012345678901234567890123456789012345678901234567890123456789012345678901234567890123456789012345678901234567890123456\n}",
        "refused 1 line 2\nt:2: the byte 64 ('@') starts no token: delete it\n  2 |   return @; // 01234567890123456789012345678901234567890123456789012345678901234567890123456789012345678901234567890123456789012345678901234567890123456\n    |          ^\n",
    ),
    (
        "int main() {\n  return @; // 012345678901234567890123456789012345678901234567890123456789012345678901234567890123456789012345678901234567890123456789012345678901234567\n}",
        "refused 1 line 2\nt:2: the byte 64 ('@') starts no token: delete it\n  2 |   return @; // 01234567890123456789012345678901234567890123456789012345678901234567890123456789012345678901234567890123456789012345678901234567890123456..\n    |          ^\n",
    ),
    // of a number at most 24 digits
    (
        "int main() {\n  return 1234567890123456789012345;\n}",
        "refused 1 line 2\nt:2: the number 123456789012345678901234.. is above the maximum, 9223372036854775807\n  2 |   return 1234567890123456789012345;\n    |          ^\n",
    ),
];

static GRAMMAR: &[(&str, &str)] = &[
    // a call inside an expression
    (
        "int f() { return 1; }\nint main() {\n  int x = 1 + f();\n  return x;\n}",
        "refused 2 line 3\nt:3: unexpected (: f(..) is a call, and a call is a statement of its own: write int r = 0; r = f(); and r in its place: int x = 1 + r;\n  3 |   int x = 1 + f();\n    |                ^\n",
    ),
    // words of the language as names
    (
        "int main() {\n  int at = 1;\n  return at;\n}",
        "refused 2 line 2\nt:2: unexpected at: at is a keyword: use another name in the whole function, such as At\n  2 |   int at = 1;\n    |       ^\n",
    ),
    (
        "int main(int over) { return 0; }",
        "refused 2 line 1\nt:1: unexpected over: over is a keyword: use another name in the whole function, such as Over\n  1 | int main(int over) { return 0; }\n    |              ^\n",
    ),
    (
        "int max(int a, int b) { return a; }\nint main() { return 0; }",
        "refused 2 line 1\nt:1: unexpected max: max is a keyword; expected a name\n  1 | int max(int a, int b) { return a; }\n    |     ^\n",
    ),
    // a value told to a reducer without its sign
    (
        "reducer max m;\nint main(int n) {\n  m max n;\n  return 0;\n}",
        "refused 2 line 3\nt:3: unexpected n; expected =\n  3 |   m max n;\n    |         ^\n",
    ),
    // loops and increments of C
    (
        "int main() {\n  for (int i = 0; i < 9; i++) { }\n  return 0;\n}",
        "refused 2 line 2\nt:2: unexpected int: there is no for: write int i = LOW; while (i < HIGH) { .. i = i + 1; } (without int if i is declared), or cilk_for (int i = LOW; i < HIGH; i++) { .. } for independent iterations\n  2 |   for (int i = 0; i < 9; i++) { }\n    |        ^\n",
    ),
    (
        "int main(int n) {\n  n++;\n  return n;\n}",
        "refused 2 line 2\nt:2: unexpected ++: ++ is only for the head of a cilk_for: write n = n + 1;\n  2 |   n++;\n    |    ^\n",
    ),
    // a declaration without a value
    (
        "int main() {\n  int x;\n  return 0;\n}",
        "refused 2 line 2\nt:2: unexpected ;: a declaration has a value: write int x = 0;\n  2 |   int x;\n    |        ^\n",
    ),
    // an else before an if
    (
        "int main(int n) {\n  if (n) { } else if (n) { }\n  return 0;\n}",
        "refused 2 line 2\nt:2: unexpected if: an else has a block: write else { if (..) { .. } }\n  2 |   if (n) { } else if (n) { }\n    |                   ^\n",
    ),
    // an else behind an if that is complete, behind another statement, and twice
    (
        "int main(int n) {\n  if (n) { n = 1; } else { n = 2; } else { }\n  return n;\n}",
        "refused 2 line 2\nt:2: unexpected else: there is no if without else right before this else: delete it, or move it\n  2 |   if (n) { n = 1; } else { n = 2; } else { }\n    |                                     ^\n",
    ),
    (
        "int main(int n) {\n  while (n) { n = 0; } else { }\n  return n;\n}",
        "refused 2 line 2\nt:2: unexpected else: there is no if without else right before this else: delete it, or move it\n  2 |   while (n) { n = 0; } else { }\n    |                        ^\n",
    ),
    (
        "int main(int n) {\n  if (n) { n = 1; } )\n  return n;\n}",
        "refused 2 line 2\nt:2: unexpected ); expected a name, int, if, else, while, return, print, cut, region, cilk_spawn, cilk_sync, cilk_scope, cilk_for or }\n  2 |   if (n) { n = 1; } )\n    |                     ^\n",
    ),
    // in the head of a loop, in blocks of each kind
    (
        "int main(int n) {\n  cilk_scope { region r { while (n) { if (n) { } else { cilk_for (int i = 0; i <= n; i++) { } } } } }\n  return n;\n}",
        "refused 2 line 2\nt:2: unexpected <=: a cilk_for needs <: write i < n + 1\n  2 |   cilk_scope { region r { while (n) { if (n) { } else { cilk_for (int i = 0; i <= n; i++) { } } } } }\n    |                                                                                ^\n",
    ),
    (
        "int main(int n) {\n  int a[n];\n  cut a at 1 as l, r { cilk_for (int i = 0; i < 1; i++) grain 2 over (l) { l[i] = 1; } l[0] 1; }\n  return n;\n}",
        "refused 2 line 3\nt:3: unexpected 1; expected =\n  3 |   cut a at 1 as l, r { cilk_for (int i = 0; i < 1; i++) grain 2 over (l) { l[i] = 1; } l[0] 1; }\n    |                                                                                             ^\n",
    ),
    // what can stand behind an operand
    (
        "int main() {\n  return 1 2;\n}",
        "refused 2 line 2\nt:2: unexpected 2; expected ; or an operator\n  2 |   return 1 2;\n    |            ^\n",
    ),
    // outside of functions
    (
        "x = 1;",
        "refused 2 line 1\nt:1: unexpected x: a function begins with int or void, and reducers are declared by reducer sum s;\n  1 | x = 1;\n    | ^\n",
    ),
    // a reducer that neither adds up nor keeps the greatest
    (
        "reducer product p;\nint main() { return 0; }",
        "refused 2 line 1\nt:1: unexpected product; expected sum or max\n  1 | reducer product p;\n    |         ^\n",
    ),
    // the source ends too early: the block may go on or end
    (
        "int main() {\n  return 0;",
        "refused 2 line 2\nt:2: unexpected end of the source: close the { of line 1 before it\n  1 | int main() {\n  2 |   return 0;\n",
    ),
    (
        "",
        "refused 2 line 1\nt:1: unexpected end of the source; expected int, void or reducer\n",
    ),
];

#[test]
fn tokens_and_grammar(rt: HostRuntime) {
    all_explained(&rt, rt.alloc(), TOKENS);
    all_explained(&rt, rt.alloc(), GRAMMAR);
}
