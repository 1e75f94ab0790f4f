//! Rejected sources at every stage, each with its line.

use crate::program::answers;
use std::alloc::{AllocError, Global};
use std::process::Abort;
use std::sync::Wait;
use std::test::Fail;
use std::thread::Threads;

// A source, and its line on standard error.
type Refusal = (&'static str, &'static str);

// Returns whether the source is rejected with this line. The arguments and the limit fit none of the sources.
fn is_rejected<R: AllocGlobal + Threads + Wait + Copy + Drop + Send + 'static>(
    rt: R,
    source: &[u8],
    line: &str,
) -> Result<bool, Fail> {
    answers(rt, "run f 1 2 3 --limit 1", source, 2, "", line)
}

fn all_are_rejected<R: Abort + AllocGlobal + Threads + Wait + Copy + Drop + Send + 'static>(
    rt: R,
    refusals: &[Refusal],
) -> Result<(), Fail> {
    for refusal in refusals {
        let is_rejected = is_rejected(rt, refusal.0.as_bytes(), refusal.1)?;
        assert!(rt; is_rejected, "{}: {}", refusal.1, refusal.0);
    }
    Ok(())
}

// Bytes and tokens.
const NO_TOKENS: &[Refusal] = &[
    ("\n\n\u{80}", "refused 1 line 3\n"),
    ("int main() {\n  return @; }", "refused 1 line 2\n"),
    (
        "int main() { return 9223372036854775808; }",
        "refused 1 line 1\n",
    ),
    ("@\n\u{80}", "refused 1 line 2\n"),
    (
        "int\nn0123456789012345678901234567890123456789012345678901234567890123\n() {}",
        "refused 5 line 2\n",
    ),
    // a name of 65 bytes in a whole program, and a number with leading zeros, which is three numbers
    (
        "int main() { int n0123456789012345678901234567890123456789012345678901234567890123 = 0; return 0; }",
        "refused 5 line 1\n",
    ),
    ("int main() { return 007; }", "refused 2 line 1\n"),
];

#[test]
fn refuses_tokens(rt: HostRuntime) -> Result<(), Fail> {
    all_are_rejected(rt, NO_TOKENS)
}

// The grammar.
const NO_SOURCES: &[Refusal] = &[
    ("", "refused 2 line 1\n"),
    ("// no program\n\n", "refused 2 line 3\n"),
    ("int main() { return 0;\n", "refused 2 line 2\n"),
    ("int main() {\n  return 0\n}\n", "refused 2 line 3\n"),
    ("int main() { return 0; }\n;", "refused 2 line 2\n"),
    // 65 brackets: the limit is checked before the grammar
    (
        "int\n((((((((((((((((((((((((((((((((((((((((((((((((((((((((((((((((\n(",
        "refused 5 line 3\n",
    ),
];

#[test]
fn refuses_sources(rt: HostRuntime) -> Result<(), Fail> {
    all_are_rejected(rt, NO_SOURCES)
}

// Limits, and then names and types.
const NO_NAMES: &[Refusal] = &[
    (
        "int f(int a, int b, int c, int d, int e, int f, int g, int h, int i, int j, int k, int l,\nint m, int n, int o, int p, int q) { return 0; }",
        "refused 5 line 1\n",
    ),
    ("int f() { return 0; }", "refused 3 line 1\n"),
    ("int main() { }", "refused 3 line 1\n"),
    (
        "int main() { int x = 0;\nx = g(1); return x; }",
        "refused 3 line 2\n",
    ),
    // a statement that its reducer does not allow
    (
        "reducer sum s;\nint main() {\ns max= 1; return 0; }",
        "refused 3 line 3\n",
    ),
    (
        "reducer max m;\nint main() {\nm += 1; return 0; }",
        "refused 3 line 3\n",
    ),
    (
        "reducer sum s;\nint main() { return max; }",
        "refused 2 line 2\n",
    ),
    (
        "int f(int v) { return v; } int main() { int x = 0; x = cilk_spawn g(1); cilk_sync; return x; }",
        "refused 3 line 1\n",
    ),
    (
        "int f() { return 0; }\nint main() {\n  int x = y;\n  int x = 0;\n  return x; }",
        "refused 3 line 3\n",
    ),
    (
        "int f(int v) { return v; }\nint main() { int x = 0; x = f(); return x; }",
        "refused 3 line 2\n",
    ),
    (
        "int main() { return 0; }\nint main() { return 0; }",
        "refused 3 line 2\n",
    ),
];

#[test]
fn refuses_names_and_types(rt: HostRuntime) -> Result<(), Fail> {
    all_are_rejected(rt, NO_NAMES)
}

// Ownership.
const NO_OWNERS: &[Refusal] = &[
    (
        "int f(int v) { return v; } int main() { int x = 0; x = cilk_spawn f(1); int y = x; cilk_sync; return x; }",
        "refused 4 line 1\n",
    ),
    (
        "int f(int v) { return v; }\nint main() {\n  int x = 0;\n  x = cilk_spawn f(1);\n  x = f(2);\n  return x;\n}",
        "refused 4 line 5\n",
    ),
    (
        "int f(int v) { return v; }\nint main() {\n  int x = 0;\n  x = cilk_spawn f(1);\n  return x;\n}",
        "refused 4 line 5\n",
    ),
    // an iteration of a loop uses what the iteration before it took
    (
        "int f(int v) { return v; } int main() { int x = 0; while (x < 1) { x = cilk_spawn f(1); } cilk_sync; return 0; }",
        "refused 4 line 1\n",
    ),
    (
        "int f(int v) { return v; } int main() { int x = 0; int y = 0; while (x < 1) { y = cilk_spawn f(1); } cilk_sync; return 0; }",
        "refused 4 line 1\n",
    ),
];

#[test]
fn refuses_uses_of_results(rt: HostRuntime) -> Result<(), Fail> {
    all_are_rejected(rt, NO_OWNERS)
}

// Ownership of arrays, and what is checked before it.
const NO_ARRAYS: &[Refusal] = &[
    // one array twice, an array that is cut, and an integer from outside a parallel loop
    (
        "void g(int a[], int b[]) { } int main() { int a[1]; g(a, a); return 0; }",
        "refused 4 line 1\n",
    ),
    (
        "int main() { int a[2]; cut a at 1 as l, r { cilk_sync; print(len(a)); } return 0; }",
        "refused 4 line 1\n",
    ),
    (
        "int main() { int t = 0; cilk_for (int i = 0; i < 4; i++) { t = t + i; } return t; }",
        "refused 4 line 1\n",
    ),
    // a tag of 33 bytes
    (
        "int main() {\nregion t01234567890123456789012345678901 { }\nreturn 0; }",
        "refused 5 line 2\n",
    ),
    (
        "void g(int a[]) { }\nint main() {\nint a[1];\ncilk_spawn g(a);\nprint(a[0]);\ncilk_sync;\nreturn 0; }",
        "refused 4 line 5\n",
    ),
    // types are checked before ownership, even in a later line
    (
        "int f(int v) { return v; }\nint main() {\n  int x = 0;\n  x = cilk_spawn f(x);\n  x = f(x);\n  return y;\n}",
        "refused 3 line 6\n",
    ),
];

#[test]
fn refuses_uses_of_arrays(rt: HostRuntime) -> Result<(), Fail> {
    all_are_rejected(rt, NO_ARRAYS)
}

// Returns a program with this number of call statements.
fn calls(alloc: Global, count: usize) -> Result<String, AllocError> {
    let mut text = String::from_str(alloc, "int f(){return 0;} int main(){int x=0;")?;
    for _ in 0..count {
        text.push_str("x=f();")?;
    }
    text.push_str("return x;}")?;
    Ok(text)
}

#[test]
fn checks_as_many_call_statements_as_may_be(rt: HostRuntime) -> Result<(), Fail> {
    let most = calls(rt.alloc(), 65_535)?;
    let is_right = answers(rt, "check f", most.as_bytes(), 0, "ok\n", "")?;
    assert!(rt; is_right);
    Ok(())
}

#[test]
fn refuses_too_many_call_statements(rt: HostRuntime) -> Result<(), Fail> {
    let more = calls(rt.alloc(), 65_536)?;
    let is_right = answers(rt, "check f", more.as_bytes(), 2, "", "refused 5 line 1\n")?;
    assert!(rt; is_right);
    Ok(())
}

// Returns `count` copies of a byte.
fn repeated(alloc: Global, byte: u8, count: usize) -> Result<Vec<u8>, AllocError> {
    let mut bytes = Vec::new(alloc);
    for _ in 0..count {
        bytes.push(byte)?;
    }
    Ok(bytes)
}

// A byte, its number of copies, and the line.
type Repeated = (u8, usize, &'static str);

const LONG: &[Repeated] = &[
    (b' ', 1_048_576, "refused 2 line 1\n"),
    (b' ', 1_048_577, "refused 5 line 1\n"),
    (255, 2_097_152, "refused 5 line 1\n"),
    // long lists, and deep brackets
    (b'x', 1, "refused 2 line 1\n"),
    (b',', 256, "refused 2 line 1\n"),
    (b',', 257, "refused 5 line 1\n"),
    (b'(', 64, "refused 2 line 1\n"),
    (b'(', 65, "refused 5 line 1\n"),
    (b'(', 1_048_576, "refused 5 line 1\n"),
];

// Returns whether a source of copies of one byte is rejected with its line.
fn is_rejected_long<R: AllocGlobal + Threads + Wait + Copy + Drop + Send + 'static>(
    rt: R,
    long: &Repeated,
) -> Result<bool, Fail> {
    let source = repeated(rt.alloc(), long.0, long.1)?;
    answers(rt, "run f", source.as_slice(), 2, "", long.2)
}

fn all_are_rejected_long<R: Abort + AllocGlobal + Threads + Wait + Copy + Drop + Send + 'static>(
    rt: R,
    sources: &[Repeated],
) -> Result<(), Fail> {
    for long in sources {
        let is_rejected = is_rejected_long(rt, long)?;
        assert!(rt; is_rejected, "{} of {}", long.1, long.0);
    }
    Ok(())
}

#[test]
fn refuses_long_sources_and_rows_and_deep_brackets(rt: HostRuntime) -> Result<(), Fail> {
    all_are_rejected_long(rt, LONG)
}
