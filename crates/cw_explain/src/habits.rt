//! What C programs write, and what to write instead.
//!
//! A row applies if the statement begins with the first words, the second words are right before the token that cannot
//! be there, and the third ones begin with it. In these words `x` is a name, `1` a number, `operator`, `storage`, `keyword`
//! and `library` a word of such a table, `type` one or more types, `(..)` a group in parentheses, `outer` a name from outside
//! of the cilk_for around it, `total` the name of a reducer, `first` the first token of the statement, and `?` any token.
//!
//! A text has marks. Tokens: `@^` is the first one of the statement, `@&` the second, `@0` the one that cannot be there,
//! `@1` the one before it and so on, `@+`, `@*` and `@#` the first, second and third after it, `@n` the first after types
//! and stars, `@r` a name that the source does not declare. Parts of the statement: `@<` up to that token, `@.` from it on,
//! `@m` from `@n` on, `@>` after it and `@)` after the next one, `@(` the group that it opens, `@;` the tokens after this
//! group, `@[` the tokens before the name before it, `@=` the tokens after `x =` up to it. `@{` is the line of the innermost open bracket, `@l`
//! the advice for a name of a library from the token before it on, `@L` from the first token on, `@x` the value of a hexadecimal number.
//! What is between two `@!`, or from one on, replaces the statement for the stages after the parser, or, outside of functions,
//! is inserted before the token (`repairs`).
//!
//! Of several rows that apply the first counts. Each table is returned by a function of its own, because a function that
//! names a table is checked with all of its rows.

use crate::words::LOCK;

/// How the statement begins, the words before the token, those from it on, and the text.
pub type Row = (&'static str, &'static str, &'static str, &'static str);

// Texts of several rows.
const POINTER: &str =
    "there are no pointers: write int @n[], or const int @n[] if the function only reads it; each parameter is int n, int a[] or const int a[]";

const STRUCT: &str =
    "there are no structs: write an array for each member, and an index for each pointer";

const DELETED: &str =
    "there are no structs: delete the declaration; write an array for each member, and an index for each pointer";

const RETURNED: &str =
    "a function returns an integer or nothing: write void @n(..) with a parameter int a[]; the caller declares the array and passes it";

const MEMBERS: &str =
    "there are no structs and no pointers: write an array int m[] for each member, and an index int @*";

const TYPE: &str =
    "there is no type @0: write int @n; each parameter is int n, int a[] or const int a[]";

const GLOBAL: &str =
    "there are no variables outside of functions: declare int @1 = 0; in main, and pass it to functions";

const LENGTH: &str = "an array parameter has no length: write int @2[]; len(@2) is its length";

const REDUCER: &str = "write reducer sum @d; outside of functions, and @d += e; to add to it";

static OUTSIDE: &[Row] = &[
    (
        "int main (",
        "int x ,",
        "type",
        "main takes integers only: write int main(int n), use n for the first argument, and delete tests of argc: the number of arguments is checked",
    ),
    (
        "type cilk_reducer",
        "",
        "",
        "write reducer sum @d; here, and @d += e; to add to it",
    ),
    (
        "int cilk_reducer",
        "",
        "",
        "write reducer sum @d; here, and @d += e; to add to it",
    ),
    (
        "CILK_C_REDUCER_OPADD",
        "",
        "",
        "write reducer sum @*; here, and @* += e; to add to it",
    ),
    (
        "CILK_C_REDUCER_MAX",
        "",
        "",
        "write reducer max @*; here, and @* max= e; for each value",
    ),
    ("cilk", "", "", "there is no cilk: delete the word"),
    (
        "storage",
        "",
        "",
        "there is no @^: delete the word; a function is int or void; each parameter is int n, int a[] or const int a[]",
    ),
    ("typedef struct", "", "", DELETED),
    (
        "typedef",
        "",
        "",
        "there is no typedef: delete the line, and write int for the type",
    ),
    ("struct", "", "", DELETED),
    (
        "union",
        "",
        "",
        "there are no unions: delete the declaration; write an array for each member",
    ),
    (
        "enum",
        "",
        "",
        "there is no enum: delete the line, and write the numbers",
    ),
    ("mutex", "", "", LOCK),
    ("pthread_mutex_t", "", "", LOCK),
    ("", "", "type * x (", RETURNED),
    ("int", "int", "* x (", RETURNED),
    (
        "int",
        "int",
        "[",
        "a function returns an integer or nothing: write void f(..) with a parameter int a[]; the caller declares the array and passes it",
    ),
    (
        "",
        "",
        "type x (",
        "there is no type @0: write int @n(..), or void @n(..) if it returns nothing; each parameter is int n, int a[] or const int a[]",
    ),
    (
        "",
        "const",
        "type *",
        "there is no type @0, and there are no pointers: write const int @n[]; each parameter is int n, int a[] or const int a[]",
    ),
    (
        "",
        "",
        "type *",
        "there is no type @0, and there are no pointers: write int @n[], or const int @n[] if the function only reads it; each parameter is int n, int a[] or const int a[]",
    ),
    ("", "", "type x [", "there is no type @0: write int @n[]"),
    ("", "(", "x * x", MEMBERS),
    ("", ",", "x * x", MEMBERS),
    (
        "x *",
        "",
        "",
        "there are no structs and no pointers: write int @*(..), which returns an index, and an array for each member",
    ),
    ("", "(", "void *", POINTER),
    ("", ",", "void *", POINTER),
    ("", "(", "type", TYPE),
    ("", ",", "type", TYPE),
    ("", "", "type", "there is no type @0: write int @n"),
    (
        "const",
        "",
        "",
        "there are no variables outside of functions: pass the value to each function that needs it",
    ),
    (
        "int x",
        "first x",
        "= 1 ;",
        "there are no variables outside of functions: delete this line and write @+ for @1 if no statement assigns to @1; otherwise declare int @1 @. in main and pass it, or write reducer sum @1; for a sum over strands",
    ),
    (
        "int x",
        "first x",
        "=",
        "there are no variables outside of functions: declare int @1 @. in main and pass it; a sum over strands is reducer sum @1;",
    ),
    ("int x", "first x", ";", GLOBAL),
    ("int x", "first x", ",", GLOBAL),
    (
        "int x",
        "first x",
        "[",
        "there are no arrays outside of functions: declare int @1@. in main, and pass it to functions",
    ),
];

static PARAMETERS: &[Row] = &[
    (
        "",
        ")",
        ";",
        "a function is known in the whole source: delete this line",
    ),
    (";", "", ";", "there is no ; after a function: delete it"),
    ("", "[", "1", LENGTH),
    ("", "[", "x", LENGTH),
    (
        "",
        "]",
        "[",
        "arrays have one dimension: pass the number of columns m, and write a[i * m + j] for the element i, j",
    ),
    (
        "",
        "(",
        "void )",
        "a function without parameters has empty parentheses: write ()",
    ),
    (
        "",
        "const int",
        "* x",
        "there are no pointers: write const int @n[]",
    ),
    ("", "int", "* x", POINTER),
    ("", "int", "*", "there are no pointers: write int @n[]"),
    (
        "",
        "const int x",
        ")",
        "const is for array parameters only: write int @1",
    ),
    (
        "",
        "const int x",
        ",",
        "const is for array parameters only: write int @1",
    ),
    (
        "reducer",
        "",
        "=",
        "a reducer has no initial value: write @<;",
    ),
    (
        "reducer",
        "",
        "[",
        "a reducer is one number: write reducer sum s0; and so on for a few elements, or pass a part of an array by cut to each call, and add the parts after the cilk_sync",
    ),
    ("", "(", "x ,", "a parameter has a type: write @!int @!@0"),
    ("", "(", "x )", "a parameter has a type: write @!int @!@0"),
    ("", ",", "x ,", "a parameter has a type: write @!int @!@0"),
    ("", ",", "x )", "a parameter has a type: write @!int @!@0"),
];

static ITEMS: &[Row] = &[
    (
        "}",
        "",
        "}",
        "no { is open here: delete this }, or one above that ends its function too early",
    ),
    (
        "x (",
        "",
        "",
        "a function begins with int or void: write int @^(..) { .. }",
    ),
    (
        "x",
        "",
        "first",
        "a function begins with int or void, and reducers are declared by reducer sum s;",
    ),
];

static WORDS: &[Row] = &[
    (
        "",
        "for (",
        "int x",
        "there is no for: write int @+ = LOW; while (@+ < HIGH) { .. @+ = @+ + 1; } (without int if @+ is declared), or cilk_for (int @+ = LOW; @+ < HIGH; @+++) { .. } for independent iterations",
    ),
    (
        "",
        "for (",
        "type x",
        "there is no for: write int @n = LOW; while (@n < HIGH) { .. @n = @n + 1; } (without int if @n is declared), or cilk_for (int @n = LOW; @n < HIGH; @n++) { .. } for independent iterations",
    ),
    (
        "",
        "for ( type",
        "x",
        "there is no for: write int @0 = LOW; while (@0 < HIGH) { .. @0 = @0 + 1; } (without int if @0 is declared), or cilk_for (int @0 = LOW; @0 < HIGH; @0++) { .. } for independent iterations",
    ),
    (
        "",
        "for ( x",
        "=",
        "there is no for: write @1 = LOW; while (@1 < HIGH) { .. @1 = @1 + 1; }, or cilk_for (int @1 = LOW; @1 < HIGH; @1++) { .. } for independent iterations",
    ),
    (
        "",
        "for (",
        ";",
        "there is no for: write while (1) { .. }, with a return to leave it",
    ),
    (
        "break ;",
        "",
        "",
        "there is no break: if a return follows the loop, write it here; otherwise move the loop into a function, and write return; here",
    ),
    (
        "continue ;",
        "",
        "",
        "there is no continue: put the rest of the iteration into if (..) { .. }",
    ),
    (
        "goto x",
        "",
        "",
        "there is no goto: write if, while and functions",
    ),
    (
        "do {",
        "",
        "",
        "there is no do: write the body once, and then while (..) { .. }",
    ),
    (
        "switch (",
        "",
        "",
        "there is no switch: write if (..) { .. } else { if (..) { .. } }",
    ),
    ("sync ;", "", "", "write @!cilk_sync;"),
    ("_Cilk_sync ;", "", "", "write @!cilk_sync;"),
    ("spawn x", "", "", "write cilk_spawn @&(..);"),
    ("_Cilk_spawn x", "", "", "write cilk_spawn @&(..);"),
    ("", "spawn", "x", "write cilk_spawn @.;"),
    ("", "_Cilk_spawn", "x", "write cilk_spawn @.;"),
    ("_Cilk_for (", "", "", "write cilk_for (..)"),
    ("storage ?", "", "", "there is no @^: delete the word"),
    ("mutex x", "", "", LOCK),
    ("pthread_mutex_t x", "", "", LOCK),
    (
        "wsp_t x",
        "",
        "",
        "there is no wsp_t: put region NAME { .. } around the part to measure; cilkwork scale reports its work and span",
    ),
    ("int cilk_reducer", "", "", REDUCER),
    ("type cilk_reducer", "", "", REDUCER),
    (
        "CILK_C_REDUCER_OPADD",
        "",
        "",
        "write reducer sum s; outside of functions, and s += e; to add to it",
    ),
    ("REDUCER_VIEW", "", "+=", "write @2 += @>"),
    ("struct x", "", "", STRUCT),
    ("", "", "struct x", STRUCT),
    ("", "struct", "x", STRUCT),
];

static TYPED: &[Row] = &[
    (
        "type * x",
        "",
        "",
        "there are no pointers: write int @n[N]; for an array of N elements, which are 0",
    ),
    (
        "type x ,",
        "",
        "",
        "there is no type @^, and a declaration has one name and a value: write int @n = 0; and a further declaration for the next name",
    ),
    (
        "type x ;",
        "",
        "",
        "there is no type @^, and a declaration has a value: write @!int @n = 0;",
    ),
    (
        "type x = argc",
        "",
        "",
        "there is no type @^ and no argc: declare a parameter of main for each argument, as int main(int @n), and delete this statement",
    ),
    ("type x = library", "", "", "there is no type @^; @l"),
    (
        "type x = cilk_spawn",
        "",
        "",
        "there is no type @^, and a spawn is a statement of its own: write int @n = 0; @n = cilk_spawn f(..);",
    ),
    (
        "type x = x (..) ;",
        "",
        "",
        "there is no type @^, and a call is a statement of its own: write int @n = 0; @n = f(..);",
    ),
    (
        "type x [ ? ] =",
        "",
        "",
        "there is no type @^, and new elements are 0: write int @n[N]; and assign other values by statements",
    ),
    ("type x", "", "", "there is no type @^: write @!int @m"),
    (
        "x",
        "first",
        "* x",
        "there are no pointers: write int @+ = 0; for an index, and an array for each member",
    ),
    ("", "( type )", "", "there are no casts: delete (@2)"),
    (
        "",
        "( type",
        "type",
        "there are no casts: delete the type and its parentheses",
    ),
    (
        "cilk_for (",
        "cilk_for (",
        "type x",
        "there is no type @0: write cilk_for (int @n = LOW; @n < HIGH; @n++) { .. }",
    ),
    (
        "",
        "(",
        "type",
        "there is no type @0: write int, and delete a cast",
    ),
    (
        "",
        "( type",
        "x",
        "there is no type @1: write int, and delete a cast",
    ),
    (
        "",
        "/",
        "*",
        "write a comment after //, up to the end of its line",
    ),
    (
        "",
        "else",
        "if",
        "an else has a block: write else { if (..) { .. } }",
    ),
    ("library (", "sizeof", "(", "@L"),
    ("", "sizeof", "(", "@l"),
    (
        "x - > x = x",
        "first",
        "- > x = x (..)",
        "there are no structs, and a call is a statement of its own: write an array for each member and an index for the pointer: int @r = 0; @r = f(..); @*[@1] = @r;",
    ),
    (
        "x - > x",
        "first",
        "- > x",
        "there are no structs: write an array for each member, and an index for the pointer: @*[@1] for @1->@*",
    ),
    (
        "",
        "x -",
        "> x",
        "there are no structs: write an array for each member, and an index for the pointer: @+[@2] for @2->@+",
    ),
];

static LOOPS: &[Row] = &[
    (
        "cilk_for (",
        "; x",
        "<= ? ;",
        "a cilk_for needs <: write @1 < @+ + 1",
    ),
    (
        "cilk_for (",
        "; x",
        "<=",
        "a cilk_for needs <: write @1 < HIGH + 1 for @1 <= HIGH",
    ),
    (
        "cilk_for (",
        "; x",
        "!=",
        "a cilk_for needs <: write @1 < @>",
    ),
    (
        "cilk_for (",
        "; x",
        ">",
        "a cilk_for counts up: write cilk_for (int k = 0; k < HIGH - LOW; k++), and HIGH - k for @1 in its body",
    ),
    (
        "cilk_for (",
        "; x",
        ">=",
        "a cilk_for counts up: write cilk_for (int k = 0; k < HIGH - LOW + 1; k++), and HIGH - k for @1 in its body",
    ),
    (
        "cilk_for (",
        ";",
        "++",
        "in the head of a cilk_for, ++ follows the name, and a block follows the head: write @+++) { .. }",
    ),
    (
        "cilk_for (",
        "over ( x )",
        "grain",
        "write the grain before over: grain @+ over (@2)",
    ),
    (
        "cilk_for (",
        ", x )",
        "grain",
        "write the grain before over: grain @+ over (..)",
    ),
    (
        "",
        "int x =",
        "cilk_spawn",
        "a spawn is a statement of its own: write @!int @2 = 0; @2 = @.",
    ),
    (
        "",
        "return",
        "cilk_spawn",
        "a spawn is a statement of its own: write @!int @r = 0; @r = @. cilk_sync; return @r;",
    ),
    (
        "",
        "] =",
        "cilk_spawn",
        "a spawn assigns to an integer: write int @r = 0; @r = @. and, after the cilk_sync, @< @r; in a loop over i write cilk_for (int i = LOW; i < HIGH; i++) over (@^) { int @r = 0; @r = @+(..); @< @r; }",
    ),
    ("", "int x = library", "", "@l"),
    ("int x = library", "", "(", "@l"),
    (
        "int x = x",
        "int x = x",
        "(..) ;",
        "a call is a statement of its own: write @!int @3 = 0; @3 = @1@(;",
    ),
    (
        "return x",
        "return x",
        "(..) ;",
        "a call is a statement of its own: write @!int @r = 0; @r = @1@(; return @r;",
    ),
    (
        "while ( x",
        "( x",
        "(..)",
        "a call is a statement of its own: write @!int @r = 0; @r = @1@(;@! before the loop, @!@[@r@;@!, and @r = @1@(; at the end of its body",
    ),
    (
        "",
        "cilk_sync",
        "(",
        "cilk_sync has no parentheses: write @!cilk_sync;",
    ),
    (
        "x = x",
        "= x",
        "(..) operator",
        "a call is a statement of its own: write @!int @r = 0; @r = @1@(; @^ = @r@;",
    ),
];

/// Returns the habits outside of functions, at a token that no source has there.
pub fn outside() -> &'static [Row] {
    OUTSIDE
}

/// Returns the habits in parameters and after them.
pub fn parameters() -> &'static [Row] {
    PARAMETERS
}

/// Returns the habits outside of functions that are looked for last.
pub fn items() -> &'static [Row] {
    ITEMS
}

/// Returns the habits at the beginning of a statement, at a token that no source has there.
pub fn words() -> &'static [Row] {
    WORDS
}

/// Returns the habits of types of C and of what they declare.
pub fn typed() -> &'static [Row] {
    TYPED
}

/// Returns the habits of heads of loops, and of spawns and calls.
pub fn loops() -> &'static [Row] {
    LOOPS
}
