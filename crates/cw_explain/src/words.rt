//! Words of C, and names of its library with what to write instead.

/// Types of C.
pub static TYPES: &[&str] = &[
    "long", "short", "unsigned", "signed", "char", "bool", "_Bool", "float", "double", "size_t",
    "ssize_t", "int8_t", "int16_t", "int32_t", "int64_t", "uint8_t", "uint16_t", "uint32_t",
    "uint64_t", "auto",
];

/// Words of C before a declaration.
pub static STORAGE: &[&str] = &[
    "static", "extern", "inline", "register", "volatile", "restrict", "cilk",
];

/// The keywords that C programs use as names.
pub static KEYWORDS: &[&str] = &[
    "sum", "max", "at", "as", "over", "len", "cut", "grain", "region", "print", "reducer",
];

/// The operators between two operands.
pub static OPERATORS: &[&str] = &["+", "-", "*", "/", "%", "<", "<=", ">", ">=", "==", "!="];

/// The words that a statement or an item begins with, and that are near to no short name.
pub static STARTS: &[&str] = &[
    "int",
    "void",
    "else",
    "while",
    "return",
    "print",
    "cut",
    "region",
    "reducer",
    "cilk_spawn",
    "cilk_sync",
    "cilk_scope",
    "cilk_for",
];

/// The words that a name may be near to before a bracket or another name.
pub static MIDDLES: &[&str] = &[
    "len",
    "print",
    "while",
    "grain",
    "over",
    "cilk_spawn",
    "cilk_for",
];

/// Names for new variables, of which each text suggests another one that is no word of the source.
pub static FRESH: &[&str] = &["r", "t", "v", "w", "result", "value"];

/// Names for the parts of a cut, of which the first ones that are no words of the source are suggested.
pub static PARTS: &[(&str, &str)] = &[("left", "right"), ("low", "high"), ("front", "back")];

/// A name of C's libraries, and what to write instead.
pub type Call = (&'static str, &'static str);

/// What to write instead of a lock.
pub const LOCK: &str =
    "a lock has no replacement: add to a reducer (reducer sum s; outside of functions, s += e;), or give each call a part of the array by cut";

const ARGUMENT: &str =
    "declare a parameter of main for each argument, as int main(int n), and delete this statement";

const ARRAY: &str =
    "declare an array of n elements: int a[n]; its elements are 0, and it ends with its block";

const RANDOM: &str =
    "write a function of an index i, as (i * 1103515245 + 12345) % 2147483648, or keep a state x in a while: x = (x * 1103515245 + 12345) % 2147483648;";

const TIME: &str =
    "it has no replacement: delete it; cilkwork counts instructions, and scale reports those of each region NAME { .. }";

static LIBRARY: &[Call] = &[
    (
        "sizeof",
        "write len(a) for the number of elements of an array a",
    ),
    ("printf", "write print(x); for each integer x"),
    ("fprintf", "write print(x); for each integer x"),
    ("puts", "write print(x); for each integer x"),
    ("putchar", "write print(x); for each integer x"),
    (
        "scanf",
        "declare a parameter of main for each value that is read",
    ),
    (
        "getchar",
        "declare a parameter of main for each value that is read",
    ),
    ("atoi", ARGUMENT),
    ("atol", ARGUMENT),
    ("strtol", ARGUMENT),
    (
        "argc",
        "declare a parameter of main for each argument, as int main(int n); their number is checked",
    ),
    (
        "argv",
        "declare a parameter of main for each argument, as int main(int n)",
    ),
    ("malloc", ARRAY),
    ("calloc", ARRAY),
    ("alloca", ARRAY),
    (
        "realloc",
        "declare a larger array int b[n]; and copy each element: b[i] = a[i];",
    ),
    (
        "free",
        "delete this statement: an array ends with the block that declares it",
    ),
    (
        "memcpy",
        "copy each element: int i = 0; while (i < len(a)) { b[i] = a[i]; i = i + 1; }",
    ),
    (
        "memmove",
        "copy each element: int i = 0; while (i < len(a)) { b[i] = a[i]; i = i + 1; }",
    ),
    (
        "memset",
        "delete this statement if the array is new (its elements are 0); otherwise assign to each element: int i = 0; while (i < len(a)) { a[i] = 0; i = i + 1; }",
    ),
];

static OTHER_CALLS: &[Call] = &[
    ("min", "write int m = a; if (b < m) { m = b; }"),
    ("fmin", "write int m = a; if (b < m) { m = b; }"),
    ("fmax", "write int m = a; if (b > m) { m = b; }"),
    ("abs", "write if (x < 0) { x = -x; }"),
    ("labs", "write if (x < 0) { x = -x; }"),
    ("rand", RANDOM),
    ("random", RANDOM),
    ("srand", RANDOM),
    (
        "assert",
        "write if (!(c)) { print(1 / 0); } for assert(c): the division traps",
    ),
    (
        "exit",
        "it has no replacement: return from each function, or write print(1 / 0); to stop the run with a trap",
    ),
    (
        "abort",
        "it has no replacement: return from each function, or write print(1 / 0); to stop the run with a trap",
    ),
    ("clock", TIME),
    ("time", TIME),
    ("gettimeofday", TIME),
    ("clock_gettime", TIME),
    ("true", "write 1"),
    ("false", "write 0"),
    (
        "NULL",
        "there are no pointers: write 0, or an integer that no index has, as -1",
    ),
    ("INT_MAX", "write the number, as 2147483647"),
    ("LONG_MAX", "write 9223372036854775807"),
];

static CILK_CALLS: &[Call] = &[
    (
        "wsp_getworkspan",
        "put region NAME { .. } around the part to measure; cilkwork scale reports its work and span",
    ),
    (
        "wsp_add",
        "put region NAME { .. } around the part to measure; scale adds up its executions",
    ),
    (
        "wsp_sub",
        "put region NAME { .. } around the part to measure; scale reports its work and span",
    ),
    (
        "wsp_dump",
        "put region NAME { .. } around the part to measure; cilkwork scale reports its work and span",
    ),
    (
        "__cilkscale__",
        "delete it: cilkwork scale measures each program",
    ),
    (
        "__cilkrts_get_nworkers",
        "it has no replacement: no value depends on the number of workers; write the number of parts as a parameter of main",
    ),
    (
        "__cilkrts_get_worker_number",
        "it has no replacement: no value depends on the worker; add to a reducer, or write to a part of an array",
    ),
    ("pthread_mutex_lock", LOCK),
    ("pthread_mutex_unlock", LOCK),
    ("mutex_lock", LOCK),
    ("mutex_unlock", LOCK),
    (
        "CILK_C_REDUCER_OPADD",
        "write reducer sum s; outside of functions, and s += e; to add to it",
    ),
    (
        "CILK_C_REDUCER_MAX",
        "write reducer max m; outside of functions, and m max= e; for each value",
    ),
    (
        "CILK_C_REGISTER_REDUCER",
        "delete this statement: a reducer is declared outside of functions, as reducer sum s;",
    ),
    (
        "CILK_C_UNREGISTER_REDUCER",
        "delete this statement: a reducer is declared outside of functions, as reducer sum s;",
    ),
    (
        "REDUCER_VIEW",
        "no statement reads a reducer: delete it; the run prints the reducer at its end",
    ),
];

/// Names of C's library for text, arguments and memory.
pub fn library() -> &'static [Call] {
    LIBRARY
}

/// Returns the table of other names of C's library.
pub fn other_calls() -> &'static [Call] {
    OTHER_CALLS
}

/// Names of Cilk's libraries and of threads.
pub fn cilk_calls() -> &'static [Call] {
    CILK_CALLS
}
