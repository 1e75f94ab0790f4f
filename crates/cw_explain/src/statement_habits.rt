//! Habits of C programs in declarations, assignments and other statements; the rows are as in `habits`.

use crate::habits::Row;

// Texts of several rows.
const CALL: &str =
    "@1(..) is a call, and a call is a statement of its own: write @!int @r = 0; @r = @1@(;@! and @r in its place: @!@[@r@;";

const NESTED: &str =
    "a function is not declared inside another one: the { of line @{ is open; write } before this line";

static DECLARED: &[Row] = &[
    (
        "keyword +=",
        "",
        "keyword +=",
        "@0 is a keyword: use another name, and write @r = @r + @)",
    ),
    (
        "keyword =",
        "",
        "keyword =",
        "@0 is a keyword: use another name",
    ),
    (
        "type keyword",
        "",
        "",
        "there is no type @^, and its name is a keyword: write int and another name",
    ),
    (
        "",
        "int",
        "* x",
        "there are no pointers: write int @+[N]; for an array of N elements, which are 0",
    ),
    (
        "",
        "int",
        "*",
        "there are no pointers: write int a[N]; for an array of N elements, which are 0",
    ),
    (
        "",
        "int x",
        ";",
        "a declaration has a value: write @!int @1 = 0;",
    ),
    (
        "",
        "int x",
        ", x ;",
        "a declaration has one name and a value: write @!int @1 = 0; int @+ = 0;",
    ),
    (
        "",
        "int x",
        ",",
        "a declaration has one name and a value: write int @1 = 0; and a further declaration for the next name",
    ),
    (
        "int x",
        "[",
        "]",
        "an array has its length in brackets: write int @2[N]; its N elements are 0",
    ),
    (
        "int x",
        "]",
        "=",
        "the elements of a new array are 0: write @<; and assign other values by statements",
    ),
    (
        "int x [",
        "]",
        ", x",
        "a declaration has one name: write @!@<; int @>",
    ),
    (
        "",
        "]",
        "[",
        "arrays have one dimension: write a[i * m + j] for the element i, j of m columns",
    ),
    (
        "x = x",
        "- -",
        ";",
        "there is no --: write @!@^ = @3; @3 = @3 - 1;",
    ),
    (
        "int x = x",
        "- -",
        ";",
        "there is no --: write @!int @& = @3; @3 = @3 - 1;",
    ),
    ("total", "first", "- -", "write @!@1 += -1;"),
    (
        "outer",
        "first",
        "- -",
        "a cilk_for may not write @1: write reducer sum @r; outside of functions and @r += -1; here, and delete the other uses of @1: the run prints @r at its end",
    ),
    ("x", "first", "- -", "there is no --: write @!@1 = @1 - 1;"),
    ("total", "first", "++", "write @!@1 += 1;"),
    (
        "outer",
        "first",
        "++",
        "a cilk_for may not write @1: write reducer sum @r; outside of functions and @r += 1; here, and delete the other uses of @1: the run prints @r at its end",
    ),
    (
        "x =",
        "= x",
        "++ ;",
        "++ is only for the head of a cilk_for: write @!@^ = @1; @1 = @1 + 1;",
    ),
    (
        "int x =",
        "= x",
        "++ ;",
        "++ is only for the head of a cilk_for: write @!@<; @1 = @1 + 1;",
    ),
    (
        "",
        "[ x",
        "++ ]",
        "++ is only for the head of a cilk_for: write @1 for @1++ here, and @1 = @1 + 1; after this statement",
    ),
    (
        "outer [",
        "]",
        "++",
        "++ is only for the head of a cilk_for: write @!@< = @< + 1;@! and over (@^) in the head of the cilk_for, which allows the element of its variable",
    ),
    (
        "outer [",
        "]",
        "operator =",
        "there is no @0=: write @!@< = @< @0 @)@! and over (@^) in the head of the cilk_for, which allows the element of its variable",
    ),
    (
        "x [",
        "]",
        "++",
        "++ is only for the head of a cilk_for: write @!@< = @< + 1;",
    ),
    ("x [", "]", "- -", "there is no --: write @!@< = @< - 1;"),
    (
        "x [",
        "]",
        "operator =",
        "there is no @0=: write @!@< = @< @0 @)",
    ),
    (
        "x",
        "first",
        "< <=",
        "there are no shifts: multiply by 2 to that power: @1 = @1 * 4; for @1 <<= 2;",
    ),
    (
        "x",
        "first",
        "> >=",
        "there are no shifts: divide by 2 to that power: @1 = @1 / 4; for @1 >>= 2; (of @1 >= 0)",
    ),
    (
        "",
        "<",
        "<",
        "there are no shifts: multiply by 2 to that power: @2 * 4 for @2 << 2",
    ),
    (
        "x",
        "first",
        "++",
        "++ is only for the head of a cilk_for: write @!@1 = @1 + 1;",
    ),
    ("total", "first", "- =", "write @!@1 += -@)"),
    (
        "total",
        "first",
        "operator =",
        "a reducer only takes +=, or max= if it is declared by reducer max",
    ),
    (
        "outer",
        "first",
        "- =",
        "a cilk_for may not write @1: write reducer sum @r; outside of functions and @r += -@) here, and delete the other uses of @1: the run prints @r at its end",
    ),
    (
        "outer",
        "first",
        "operator =",
        "a cilk_for may not write @1: declare another integer in its body, or write a while, whose iterations run one by one",
    ),
    (
        "x",
        "first",
        "operator =",
        "there is no @0=: write @!@1 = @1 @0 @)",
    ),
];

static HABITS: &[Row] = &[
    ("reducer", "", "", "declare a reducer outside of functions"),
    ("*", "", "", "there are no pointers: write a[0] for *a"),
    (
        "",
        "return",
        "* x",
        "there are no pointers: write @+[0] for *@+",
    ),
    (
        "x",
        "x =",
        "* x",
        "there are no pointers: write @+[0] for *@+",
    ),
    ("", "=", "* x", "there are no pointers: write @+[0] for *@+"),
    (
        "",
        "",
        "max (",
        "max is a keyword: write int m = a; if (b > m) { m = b; } for the maximum of a and b",
    ),
    ("var x", "", "", "there is no var: write @!int @."),
    (
        "x = x",
        "x = x",
        "= ? ;",
        "assign to one name at a time: write @!@1 = @+; @^ = @1;",
    ),
    (
        "x = x",
        "x = x",
        "=",
        "assign to one name at a time: write @1 @. @^ = @1;",
    ),
    (
        "x =",
        "=",
        "++ x",
        "++ is only for the head of a cilk_for: write @!@+ = @+ + 1; @^ = @+;",
    ),
    ("++ total", "", "++", "write @!@+ += 1;"),
    (
        "++ outer",
        "",
        "++",
        "a cilk_for may not write @+: write reducer sum @r; outside of functions and @r += 1; here, and delete the other uses of @+: the run prints @r at its end",
    ),
    (
        "++ x",
        "",
        "++",
        "++ is only for the head of a cilk_for: write @!@+ = @+ + 1;",
    ),
    ("", "library", "(", "@l"),
    ("", "operator x", "(..)", CALL),
    ("", "( x", "(..)", CALL),
    ("", ", x", "(..)", CALL),
    ("", "[ x", "(..)", CALL),
    ("", "! x", "(..)", CALL),
    ("", "return x", "(..)", CALL),
    (
        "",
        "] = x",
        "(..)",
        "a call assigns to an integer: write @!int @r = 0; @r = @1@(; @[@r@;",
    ),
    ("int x = x", "= x", "(..)", CALL),
    ("total +=", "+= x", "(..)", CALL),
    ("x +=", "+= x", "(..)", CALL),
];

static INSIDE: &[Row] = &[
    (
        "cilk_for (",
        "cilk_for (",
        "x",
        "a cilk_for declares its variable: write cilk_for (int @0 = LOW; @0 < HIGH; @0++)",
    ),
    (
        "cilk_for (",
        "; x",
        "",
        "a cilk_for counts up by one: for steps of k write cilk_for (int j = 0; j < (HIGH - LOW + k - 1) / k; j++), and LOW + j * k for @1 in its body",
    ),
    (
        "",
        "cilk_spawn x",
        "=",
        "the name that takes the result comes first: write @!@1 = cilk_spawn @>",
    ),
    (
        "",
        "cilk_spawn",
        "{",
        "cilk_spawn needs a call: move the block into a function",
    ),
    (
        "cilk_spawn x (",
        ")",
        "operator",
        "a spawn is a statement of its own: write @!@<;",
    ),
    (
        "",
        "",
        "cilk_spawn",
        "a spawn is a statement of its own: write int @r = 0; @r = @. cilk_sync; before this statement, and @r in its place",
    ),
    ("int x (", "int x", "(", NESTED),
    ("int x (", "", "", NESTED),
    ("void", "", "void", NESTED),
    (
        "x = x (",
        ")",
        "operator",
        "a call is a statement of its own: write @!int @r = 0; @r = @=; @^ = @r @.",
    ),
    (
        "x = cilk_spawn",
        ")",
        "operator",
        "a spawn is a statement of its own: write @!int @r = 0; @r = @=; cilk_sync; @^ = @r @.",
    ),
    ("", "x", "(..)", CALL),
    ("", "(", "int", "there are no casts: delete (int)"),
    (
        "",
        "",
        "const",
        "const is for array parameters only: delete it",
    ),
    (
        "int x =",
        "",
        ", x =",
        "a declaration has one name: write @!@<; int @>",
    ),
    (
        "int x =",
        "",
        ",",
        "a declaration has one name and a value: write @<; and a further declaration for the next name",
    ),
    (
        "x =",
        "",
        ",",
        "assign to one name at a time: write @!@<; @>",
    ),
    (
        "if (",
        "",
        "=",
        "= assigns, in a statement of its own: write == to compare",
    ),
    (
        "while (",
        "",
        "=",
        "= assigns, in a statement of its own: write == to compare",
    ),
    (
        "",
        "if",
        "",
        "the test of an if is in parentheses: write if (..) { .. }",
    ),
    (
        "",
        "while",
        "",
        "the test of a while is in parentheses: write while (..) { .. }",
    ),
    ("", "print", "", "write print(@.);"),
    (
        "print",
        "",
        ", ? )",
        "print takes one value: write @!@<); print(@>",
    ),
    (
        "print",
        "",
        ",",
        "print takes one value: write print(..); for each",
    ),
];

static FURTHER: &[Row] = &[
    (
        "outer [",
        "]",
        "+=",
        "+= is only for reducers: write @!@< = @< + @>@! and over (@^) in the head of the cilk_for, which allows the element of its variable",
    ),
    (
        "x",
        "]",
        "+=",
        "+= is only for reducers: write @!@< = @< + @>",
    ),
    (
        "",
        "x",
        "++",
        "++ is only for the head of a cilk_for: write @1 = @1 + 1; as a statement of its own",
    ),
    (
        "",
        "",
        "++",
        "++ is only for the head of a cilk_for: write i = i + 1; as a statement of its own",
    ),
    (
        "x ==",
        "",
        "==",
        "= assigns, and == compares: write @!@^ = @>",
    ),
    ("x =", "", "=", "assign to one name at a time"),
    (
        "",
        ">",
        ">",
        "there are no shifts: divide by 2 to that power: @2 / 4 for @2 >> 2 (of @2 >= 0)",
    ),
    (
        "cut",
        "",
        "{",
        "a cut names its parts: write cut a at k as l, r { .. }",
    ),
    (
        "",
        "region",
        "{",
        "a region has a name: write region phase { .. }",
    ),
    (
        "region x",
        "",
        "-",
        "a region has a name of letters, digits and _: write region @1_@+",
    ),
    (";", "", ";", "there is no empty statement: delete the ;@!"),
    (
        "else",
        "",
        "else",
        "there is no if without else right before this else: delete it, or move it",
    ),
    (
        "{",
        "",
        "first",
        "a block belongs to a statement: delete its braces, or write cilk_scope { .. }",
    ),
    ("", "0", "x", "numbers are decimal: write @x"),
    (
        "",
        "1",
        "x",
        "a number has decimal digits only: delete @0 or write the number out",
    ),
    (
        "",
        "0",
        "1",
        "a number has no leading 0: write @0 (C reads 0@0 as octal)",
    ),
    ("x x", "", "x", "there is no type @^: write @!int @."),
];

static UPDATES: &[Row] = &[
    (
        "outer",
        "first",
        "+=",
        "@1 is not a reducer: write reducer sum @r; outside of functions and @r += @> here, and delete the other uses of @1: the run prints @r at its end",
    ),
    (
        "x",
        "first",
        "+=",
        "@1 is not a reducer: write @1 = @1 + @>",
    ),
];

/// Returns the habits of other statements.
pub fn habits() -> &'static [Row] {
    HABITS
}

/// Returns the habits in functions, for sources in which no semicolon and no brace is missing.
pub fn inside() -> &'static [Row] {
    INSIDE
}

/// Returns the habits that are looked for after `inside`.
pub fn further() -> &'static [Row] {
    FURTHER
}

/// Returns what to write instead of += on a name that is not a reducer.
pub fn updates() -> &'static [Row] {
    UPDATES
}

/// Returns the habits of declarations and assignments.
pub fn declared() -> &'static [Row] {
    DECLARED
}
