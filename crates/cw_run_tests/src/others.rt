//! Faults that are told without a line of the source, and sources that cannot be read.

use crate::explained::refused;
use cw_explain::{explain, explain_unread};
use cw_text::Fault;
use std::alloc::Global;
use std::io::ErrorKind;

// The fault of this number.
fn numbered(number: u8) -> Fault {
    match number {
        6 => Fault::Code,
        7 => Fault::OverLimit,
        9 => Fault::Memory,
        10 => Fault::Write,
        11 => Fault::Arguments,
        _ => Fault::Strands(7),
    }
}

// Of a source t with two parameters of main, run with a limit of 1 and no arguments: the number of a fault, and what is told of it.
static RUNS: &[(u8, &str)] = &[
    (6, ""),
    (
        7,
        "t: the run costs more than its limit of 1 instructions: check that each while and each recursion ends, or raise the limit with --limit N, up to 4611686018427387904\n",
    ),
    (9, ""),
    (
        10,
        "t: standard output did not accept the whole report: the disk may be full, or the program that reads it may have ended\n",
    ),
    (
        11,
        "t:2: wrong number of arguments: main takes 2, and 0 follow the source\n",
    ),
    (
        12,
        "t: the run has 7 strands, but a schedule has at most 1: use smaller arguments or coarser grains, or scale, which has no such limit\n",
    ),
];

// Whether this is told of a fault.
fn is_run_told(alloc: Global, number: u8, wanted: &str) -> bool {
    let source =
        b"int f(int a) { return a; }\nint main(int n, int m) { return n; }\nint g(int b) { return b; }";
    match explain(alloc, &refused(source), &numbered(number)) {
        Ok(text) => text.as_str() == wanted,
        Err(_) => false,
    }
}

// A path, why it cannot be opened, and what is told of it.
static PATHS: &[(&str, ErrorKind, &str)] = &[
    (
        "a.c",
        ErrorKind::NotFound,
        "a.c: no such file: check the path\n",
    ),
    (
        "a.c",
        ErrorKind::PermissionDenied,
        "a.c: this user may not read the file\n",
    ),
    (
        "/tmp",
        ErrorKind::IsADirectory,
        "/tmp: it is a directory: name a file in it\n",
    ),
    (
        "a.c/b",
        ErrorKind::NotADirectory,
        "a.c/b: a part of the path is not a directory\n",
    ),
    (
        "",
        ErrorKind::Other,
        "<stdin>: the system cannot open or read it\n",
    ),
    (
        "\u{1b}[2J\t\u{e9}.c",
        ErrorKind::NotFound,
        "?[2J???.c: no such file: check the path\n",
    ),
];

// Whether this is told of a path.
fn is_path_told(alloc: Global, path: &str, kind: ErrorKind, wanted: &str) -> bool {
    match explain_unread(alloc, path, kind) {
        Ok(text) => text.as_str() == wanted,
        Err(_) => false,
    }
}

#[test]
fn faults_without_a_line(rt: HostRuntime) {
    for (number, wanted) in RUNS {
        let holds = is_run_told(rt.alloc(), *number, wanted);
        assert!(rt; holds, "{number}");
    }
}

#[test]
fn sources_that_cannot_be_read(rt: HostRuntime) {
    for (path, kind, wanted) in PATHS {
        let holds = is_path_told(rt.alloc(), path, *kind, wanted);
        assert!(rt; holds, "{wanted}");
    }
}
