//! A row for each limit, and one for each trap.

use crate::explained::{is_told, refused};
use cw_explain::explain;
use cw_model::trap::Trap;
use cw_text::Fault;
use std::alloc::{AllocError, Global};
use std::process::Abort;
use std::test::Fail;

// A text that repeats a part.
enum Text {
    // What stands in front, the part, how often it stands there, and what stands behind.
    Repeated(&'static str, &'static str, usize, &'static str),
    // What stands in front, what stands in each part before its number and behind it, how many parts there are, numbered from
    // 0, and what stands behind.
    Numbered(&'static str, (&'static str, &'static str), u32, &'static str),
    // 16 functions of 256 loops, each in 258 lines, and one loop more.
    Loops,
}

// So many times a text, in front of another and behind one.
fn repeated(
    alloc: Global,
    front: &str,
    text: &str,
    count: usize,
    back: &str,
) -> Result<String, AllocError> {
    let many = text.repeat(alloc, count)?;
    format!(in alloc; "{front}{many}{back}")
}

// So many texts, each with its number in place of the mark between two parts.
fn numbered(
    alloc: Global,
    front: &str,
    parts: (&str, &str),
    count: u32,
    back: &str,
) -> Result<String, AllocError> {
    let (before, behind) = parts;
    let mut out = String::from_str(alloc, front)?;
    for number in 0..count {
        let part = format!(in alloc; "{before}{number}{behind}")?;
        out.push_str(part.as_str())?;
    }
    out.push_str(back)?;
    Ok(out)
}

fn loops(alloc: Global) -> Result<String, AllocError> {
    let each = "cilk_for (int i = 0; i < 1; i++) { }\n";
    let full = repeated(alloc, "() {\n", each, 256, "}\n")?;
    let back = "int main() {\n  cilk_for (int i = 0; i < 1; i++) { }\n  return 0; }";
    numbered(alloc, "", ("void f", full.as_str()), 16, back)
}

fn text_of(alloc: Global, text: &Text) -> Result<String, AllocError> {
    match text {
        Text::Repeated(front, part, count, back) => repeated(alloc, front, part, *count, back),
        Text::Numbered(front, parts, count, back) => numbered(alloc, front, *parts, *count, back),
        Text::Loops => loops(alloc),
    }
}

// Limits of text and of tokens, each with what is told.
static OF_TEXT: &[(Text, &str)] = &[
    (
        Text::Repeated("", "\n", 1_048_577, ""),
        "refused 5 line 1\nt:1: the source has 1048577 bytes, but at most 1048576 are allowed\n",
    ),
    (
        Text::Repeated("int\n", "(", 65, ""),
        "refused 5 line 2\nt:2: more than 64 brackets are open at once in this line: assign a part to a variable, or move it into a function\n  2 | (((((((((((((((((((((((((((((((((((((((((((((((((((((((((((((((((\n",
    ),
    (
        Text::Repeated("int main() {\nreturn 1", "\n+ 1", 128, ";\n}"),
        "refused 5 line 130\nt:130: more than 256 consecutive tokens without a semicolon or a brace: assign a part to a variable\n  130 | + 1;\n",
    ),
];

// Limits of the parts of a source, each with what is told.
static OF_PARTS: &[(Text, &str)] = &[
    (
        Text::Numbered(
            "int main() { return 0; }\n",
            ("void f", "() { }\n"),
            1_024,
            "",
        ),
        "refused 5 line 1025\nt:1025: the source has more than 1024 functions: merge some\n  1025 | void f1023() { }\n",
    ),
    (
        Text::Numbered(
            "int main() { return 0; }\n",
            ("reducer sum r", ";\n"),
            33,
            "",
        ),
        "refused 5 line 34\nt:34: the source has more than 32 reducers: merge some\n  34 | reducer sum r32;\n",
    ),
    // of both kinds, 32 in all
    (
        Text::Numbered(
            "reducer sum s;\nint main() { return 0; }\n",
            ("reducer max m", ";\n"),
            32,
            "",
        ),
        "refused 5 line 34\nt:34: the source has more than 32 reducers: merge some\n  34 | reducer max m31;\n",
    ),
    (
        Text::Numbered(
            "void f(int a",
            (", int b", ""),
            16,
            ")\n{ }\nint main() { return 0; }",
        ),
        "refused 5 line 1\nt:1: f has 17 parameters, but at most 16 are allowed: pass an array instead\n  1 | void f(int a, int b0, int b1, int b2, int b3, int b4, int b5, int b6, int b7, int b8, int b9, int b10, int b11, int b12, int b13, int b14, int b15)\n",
    ),
    (
        Text::Numbered(
            "int main(int n) {\n",
            ("int x", " = 0;\n"),
            256,
            "return 0; }",
        ),
        "refused 5 line 257\nt:257: main declares more than 256 names, parameters included: move a part into a function of its own\n  257 | int x255 = 0;\n",
    ),
    (
        Text::Repeated(
            "int main() {\n  ",
            "region t01234567890123456789012345678901 { }",
            1,
            "\n  return 0;\n}",
        ),
        "refused 5 line 2\nt:2: the tag t01234567890123456789012345678901 has 33 bytes, but at most 32 are allowed: shorten it\n  2 |   region t01234567890123456789012345678901 { }\n",
    ),
    (
        Text::Numbered("int main() {\n", ("region t", " { }\n"), 65, "return 0; }"),
        "refused 5 line 66\nt:66: the source has more than 64 different tags: give regions the same tag\n  66 | region t64 { }\n",
    ),
];

// The limit of loops, with what is told.
static OF_LOOPS: &[(Text, &str)] = &[(
    Text::Loops,
    "refused 5 line 4130\nt:4130: the source has more than 4096 cilk_for statements: move a loop into a function and call it\n  4130 |   cilk_for (int i = 0; i < 1; i++) { }\n",
)];

// Asserts that this is told of each of these texts.
fn all_explained(rt: &impl Abort, alloc: Global, rows: &[(Text, &str)]) -> Result<(), Fail> {
    for (text, wanted) in rows {
        let whole = text_of(alloc, text)?;
        let holds = is_told(alloc, whole.as_bytes(), wanted);
        assert!(rt; holds, "{wanted}");
    }
    Ok(())
}

#[test]
fn limits_of_text_and_tokens(rt: HostRuntime) -> Result<(), Fail> {
    all_explained(&rt, rt.alloc(), OF_TEXT)
}

#[test]
fn limits_of_parts(rt: HostRuntime) -> Result<(), Fail> {
    all_explained(&rt, rt.alloc(), OF_PARTS)
}

#[test]
fn the_limit_of_loops(rt: HostRuntime) -> Result<(), Fail> {
    all_explained(&rt, rt.alloc(), OF_LOOPS)
}

// Each trap, and what is told of it in line 2.
static TRAPS: &[(Trap, &str)] = &[
    (
        Trap::Overflow,
        "t:2: overflow: the result of an operation is below -2^63 or above 2^63 - 1: use smaller numbers\n  2 |   int x = 1 / 0;\n",
    ),
    (
        Trap::DivisionByZero,
        "t:2: division or remainder by 0: test the divisor first\n  2 |   int x = 1 / 0;\n",
    ),
    (
        Trap::OutOfBounds,
        "t:2: an index, the position of a cut or the range of a loop is outside its array: compare it with len(..) first\n  2 |   int x = 1 / 0;\n",
    ),
    (
        Trap::BadLength,
        "t:2: the length of an array is below 0 or above 16777216: use a smaller one\n  2 |   int x = 1 / 0;\n",
    ),
    (
        Trap::TooManyIterations,
        "t:2: a cilk_for has more than 2147483647 iterations: divide its range\n  2 |   int x = 1 / 0;\n",
    ),
    (
        Trap::TooDeep,
        "t:2: more than 10000 nested calls, main included: end the recursion earlier, or write a while\n  2 |   int x = 1 / 0;\n",
    ),
];

// Whether this is told of a trap in line 2.
fn is_trap_printed(alloc: Global, code: Trap, wanted: &str) -> bool {
    let output = Vec::new(alloc);
    let fault = Fault::Trap {
        code,
        line: 2,
        output,
    };
    let source = b"int main() {\n  int x = 1 / 0;\n  return x; }";
    match explain(alloc, &refused(source), &fault) {
        Ok(text) => text.as_str() == wanted,
        Err(_) => false,
    }
}

#[test]
fn traps(rt: HostRuntime) {
    for (code, wanted) in TRAPS {
        let holds = is_trap_printed(rt.alloc(), *code, wanted);
        assert!(rt; holds, "{wanted}");
    }
}
