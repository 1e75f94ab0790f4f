//! The words of the command line.

use crate::program::{Row, all_hold, answer, asked};
use cw_model::burden::{Burden, Edges};
use cw_words::{Mode, Options};
use std::alloc::Global;
use std::process::Abort;
use std::sync::Wait;
use std::test::Fail;
use std::thread::Threads;

// Words that name the file f.cilk, and what they request: the mode, the arguments, the limit, the charge and the
// edges. Words with `--table` request aligned columns.
type Reading = (&'static str, Mode, &'static [i64], u64, u64, Edges);

const REQUESTS: &[Reading] = &[
    (
        "check f.cilk",
        Mode::Check,
        &[],
        1_000_000_000,
        15_000,
        Edges::Spawn,
    ),
    (
        "check -- f.cilk",
        Mode::Check,
        &[],
        1_000_000_000,
        15_000,
        Edges::Spawn,
    ),
    (
        "run f.cilk",
        Mode::Run,
        &[],
        1_000_000_000,
        15_000,
        Edges::Spawn,
    ),
    (
        "run --limit 9 f.cilk 4 9223372036854775807",
        Mode::Run,
        &[4, 9223372036854775807],
        9,
        15_000,
        Edges::Spawn,
    ),
    (
        "run f.cilk 007 --limit 4611686018427387904 00000000000000000000000000000000000012",
        Mode::Run,
        &[7, 12],
        4_611_686_018_427_387_904,
        15_000,
        Edges::Spawn,
    ),
    (
        "run --limit=1 -- f.cilk 0",
        Mode::Run,
        &[0],
        1,
        15_000,
        Edges::Spawn,
    ),
    (
        "run --burden 0 f.cilk 3",
        Mode::Run,
        &[3],
        1_000_000_000,
        0,
        Edges::Spawn,
    ),
    (
        "run f.cilk --burden=1000000000 --limit=7",
        Mode::Run,
        &[],
        7,
        1_000_000_000,
        Edges::Spawn,
    ),
    (
        "scale f.cilk",
        Mode::Scale,
        &[],
        1_000_000_000,
        15_000,
        Edges::Spawn,
    ),
    (
        "scale --burden 0 f.cilk 3 --limit 9",
        Mode::Scale,
        &[3],
        9,
        0,
        Edges::Spawn,
    ),
    (
        "sites f.cilk 4 --burden=007 -- 5",
        Mode::Sites,
        &[4, 5],
        1_000_000_000,
        7,
        Edges::Spawn,
    ),
    (
        "gain f.cilk 3",
        Mode::Gain(10),
        &[3],
        1_000_000_000,
        15_000,
        Edges::Spawn,
    ),
    (
        "gain --top 064 f.cilk --edges both --burden=7 --limit 9",
        Mode::Gain(64),
        &[],
        9,
        7,
        Edges::Both,
    ),
    (
        "greedy 2 f.cilk",
        Mode::Greedy(2),
        &[],
        1_000_000_000,
        15_000,
        Edges::Spawn,
    ),
    (
        "greedy --limit 9 0001000000 f.cilk 3",
        Mode::Greedy(1_000_000),
        &[3],
        9,
        15_000,
        Edges::Spawn,
    ),
    (
        "speedup f.cilk 3",
        Mode::Speedup(64),
        &[3],
        1_000_000_000,
        15_000,
        Edges::Spawn,
    ),
    (
        "speedup --processors 048 f.cilk --edges both --burden=7 --limit 9",
        Mode::Speedup(48),
        &[],
        9,
        7,
        Edges::Both,
    ),
    (
        "scale --table f.cilk --edges both",
        Mode::Scale,
        &[],
        1_000_000_000,
        15_000,
        Edges::Both,
    ),
    (
        "gain f.cilk 3 --table",
        Mode::Gain(10),
        &[3],
        1_000_000_000,
        15_000,
        Edges::Spawn,
    ),
    (
        "page f.cilk 3",
        Mode::Page {
            top: 10,
            processors: 64,
        },
        &[3],
        1_000_000_000,
        15_000,
        Edges::Spawn,
    ),
    (
        "page --processors 048 f.cilk --top=3 --burden=7 --limit 9",
        Mode::Page {
            top: 3,
            processors: 48,
        },
        &[],
        9,
        7,
        Edges::Spawn,
    ),
    (
        "scale f.cilk --edges both",
        Mode::Scale,
        &[],
        1_000_000_000,
        15_000,
        Edges::Both,
    ),
    (
        "run --edges=spawn f.cilk 3 --burden 7",
        Mode::Run,
        &[3],
        1_000_000_000,
        7,
        Edges::Spawn,
    ),
];

// Returns whether the words make this request.
fn asks(alloc: Global, row: &Reading) -> Result<bool, Fail> {
    let asked = asked(alloc, row.0)?;
    let options = Options {
        mode: row.1,
        limit: row.3,
        burden: Burden {
            charge: row.4,
            edges: row.5,
        },
        table: row.0.contains("--table"),
    };
    Ok(
        asked.file.as_str() == "f.cilk"
            && asked.args.as_slice() == row.2
            && asked.options == options,
    )
}

fn all_ask<R: Abort>(rt: &R, alloc: Global, rows: &[Reading]) -> Result<(), Fail> {
    for row in rows {
        let asks = asks(alloc, row)?;
        assert!(rt; asks, "{}", row.0);
    }
    Ok(())
}

#[test]
fn reads_requests(rt: HostRuntime) -> Result<(), Fail> {
    all_ask(&rt, rt.alloc(), REQUESTS)
}

// Returns whether the words are rejected with a message that begins like this.
fn is_misuse<R: AllocGlobal + Threads + Wait + Copy + Drop + Send + 'static>(
    rt: R,
    words: &str,
    start: &str,
) -> Result<bool, Fail> {
    let told = answer(rt, words, b"")?;
    Ok(told.status == 5 && told.out.is_empty() && told.err.starts_with(start.as_bytes()))
}

fn all_are_misuse<R: Abort + AllocGlobal + Threads + Wait + Copy + Drop + Send + 'static>(
    rt: R,
    rows: &[Misuse],
) -> Result<(), Fail> {
    for row in rows {
        let is_misuse = is_misuse(rt, row.0, row.1)?;
        assert!(rt; is_misuse, "{}", row.0);
    }
    Ok(())
}

// Words that make no request, and the beginning of standard error.
type Misuse = (&'static str, &'static str);

// Malformed numbers.
const NO_NUMBERS: &[Misuse] = &[
    ("run f 9223372036854775808", "arguments\n"),
    ("run f +1", "arguments\n"),
    ("run f 1a", "arguments\n"),
    ("run f 1 --limit 0", "arguments\n"),
    ("run f --limit 4611686018427387905", "arguments\n"),
    ("run f --limit 1e3", "arguments\n"),
    ("run f --limit +1", "arguments\n"),
    ("run f --burden 1000000001", "arguments\n"),
    ("run f --burden +0", "arguments\n"),
    ("run f --burden x --limit 9", "arguments\n"),
    ("scale f --burden 1000000001", "arguments\n"),
    ("scale f --edges rest", "arguments\n"),
    ("scale f --edges Both", "arguments\n"),
    ("scale f 9223372036854775808", "arguments\n"),
    ("sites f --limit 0", "arguments\n"),
    ("sites f 1 x", "arguments\n"),
    ("page f --top 0", "arguments\n"),
    ("page f --processors 1000001", "arguments\n"),
];

#[test]
fn refuses_numbers(rt: HostRuntime) -> Result<(), Fail> {
    all_are_misuse(rt, NO_NUMBERS)
}

// Words of `check` and `run`, with one too many or one missing.
const NO_WORDS: &[Misuse] = &[
    ("run f -1", "error: unexpected argument '-1' found\n"),
    (
        "run",
        "error: the following required arguments were not provided:\n",
    ),
    (
        "run f --limit",
        "error: a value is required for '--limit <N>'",
    ),
    (
        "check f --workers 2",
        "error: unexpected argument '--workers' found\n",
    ),
    (
        "check",
        "error: the following required arguments were not provided:\n",
    ),
    ("check f 1", "error: unexpected argument '1' found\n"),
    (
        "check f --limit 9",
        "error: unexpected argument '--limit' found\n",
    ),
    (
        "run f --burden 1 --burden 1",
        "error: the argument '--burden <N>' cannot be used multiple times\n",
    ),
    (
        "check f --burden 9",
        "error: unexpected argument '--burden' found\n",
    ),
];

#[test]
fn refuses_words(rt: HostRuntime) -> Result<(), Fail> {
    all_are_misuse(rt, NO_WORDS)
}

// Words of the tables and the schedule.
const NO_TABLES: &[Misuse] = &[
    (
        "scale",
        "error: the following required arguments were not provided:\n",
    ),
    (
        "sites f --burden",
        "error: a value is required for '--burden <N>'",
    ),
    (
        "greedy",
        "error: the following required arguments were not provided:\n",
    ),
    (
        "greedy 2",
        "error: the following required arguments were not provided:\n",
    ),
    ("greedy 0 f", "arguments\n"),
    ("greedy -1 f", "error: unexpected argument '-1' found\n"),
    (
        "greedy 2 f --burden 9",
        "error: unexpected argument '--burden' found\n",
    ),
    (
        "gain",
        "error: the following required arguments were not provided:\n",
    ),
    ("gain f --top", "error: a value is required for '--top <N>'"),
    (
        "sites f --top 3",
        "error: unexpected argument '--top' found\n",
    ),
    (
        "scale f --edges",
        "error: a value is required for '--edges <E>'",
    ),
    (
        "check f --edges both",
        "error: unexpected argument '--edges' found\n",
    ),
    (
        "greedy 2 f --edges both",
        "error: unexpected argument '--edges' found\n",
    ),
    (
        "page",
        "error: the following required arguments were not provided:\n",
    ),
    (
        "page f --table",
        "error: unexpected argument '--table' found\n",
    ),
    (
        "greedy 2 f --table",
        "error: unexpected argument '--table' found\n",
    ),
    (
        "scale f --table --table",
        "error: the argument '--table' cannot be used multiple times\n",
    ),
];

#[test]
fn refuses_words_of_tables(rt: HostRuntime) -> Result<(), Fail> {
    all_are_misuse(rt, NO_TABLES)
}

// Other words.
const NO_COMMANDS: &[Misuse] = &[
    ("scales f", "error: unrecognized subcommand 'scales'\n"),
    ("walk f", "error: unrecognized subcommand 'walk'\n"),
    ("f", "error: unrecognized subcommand 'f'\n"),
    // `--version` is not an option of a command
    (
        "run f --version",
        "error: unexpected argument '--version' found\n",
    ),
    ("run f -V", "error: unexpected argument '-V' found\n"),
    // a file in the place of the command
    (
        "fib.cilk 10",
        "error: unrecognized subcommand 'fib.cilk'\n\n  tip: to run a program, use 'cilkwork run fib.cilk 10'\n",
    ),
    // options of other commands, and a negative number
    (
        "greedy 2 f --burden 9",
        "error: unexpected argument '--burden' found\n\n  tip: the options of this command are --limit, --workers, --explain and --help\n",
    ),
    (
        "run f -5",
        "error: unexpected argument '-5' found\n\n  tip: a number has no sign; an argument of main is 0 to 9223372036854775807\n",
    ),
    (
        "run f --limit -5",
        "error: unexpected argument '-5' found\n\n  tip: a number has no sign; an argument of main is 0 to 9223372036854775807\n",
    ),
    // standard input in the place of the command
    (
        "- 10",
        "error: unrecognized subcommand '-'\n\n  tip: to run a program, use 'cilkwork run - 10'\n",
    ),
    // control characters
    (
        "run f --\x1b[31m",
        "error: unexpected argument '--\\x1b[31m' found\n",
    ),
    (
        "run f --\u{9b}31m",
        "error: unexpected argument '--\\xc2\\x9b31m' found\n",
    ),
    // after `--` the word is an argument of main
    ("run f -- --explain", "arguments\n"),
];

#[test]
fn refuses_other_words(rt: HostRuntime) -> Result<(), Fail> {
    all_are_misuse(rt, NO_COMMANDS)
}

// Words that request help, the beginning of the help, and some texts that it contains.
type Help = (&'static str, &'static str, &'static [&'static str]);

// The help of the program.
const PROGRAM: &[Help] = &[(
    "--help",
    "Measures how much parallelism a Cilk program",
    &[
        "standard input",
        "'region NAME { .. }'",
        "with the tag NAME",
        "PREFIX/share/doc/cilkwork",
        "  4  over limit ",
        "  sites  ",
        "  gain   ",
        "  speedup  ",
        "  page     ",
        "some seconds",
        "  --explain  ",
        "  --edges   spawn charges",
        "  -h, --help  describes the command",
        "-V or --version",
        "4611686018427387904",
        "  4  too many strands ",
    ],
)];

// The help of its commands.
const COMMANDS: &[Help] = &[
    (
        "check --help",
        "Compiles a program",
        &["'cilkwork --help'", "--explain explains why"],
    ),
    (
        "run --help",
        "Runs a program",
        &[
            "'sum NAME = V'",
            "[default: 1000000000]",
            "'max NAME = none'",
        ],
    ),
    ("help run", "Runs a program", &["--explain explains why"]),
    (
        "scale --help",
        "Runs a program",
        &[
            "  burdened_parallelism  ",
            "[default: 15000]",
            "[default: spawn]",
            "--edges <E>",
            "'cilkwork --help'",
        ],
    ),
    ("sites --help", "Runs a program", &["  own_span  "]),
    ("help sites", "Runs a program", &["GUIDE.md"]),
    (
        "gain --help",
        "Runs a program",
        &["  span_if_free  ", "--top <N>", "[default: 10]"],
    ),
    (
        "greedy --help",
        "Runs a program",
        &[
            "Usage: cilkwork greedy",
            "<P> <FILE> [ARGS]...",
            "  greedy      ",
            "--workers <N>  The number of threads that execute the run [default: 2]\n",
        ],
    ),
    (
        "speedup --help",
        "Runs a program",
        &[
            "  burdened_speedup  ",
            "--processors <N>",
            "[default: 64]",
            "--table",
        ],
    ),
    (
        "page --help",
        "Runs a program",
        &[
            "  cilkwork page FILE ARGS > page.html\n",
            "--top <N>",
            "--processors <N>",
        ],
    ),
];

// Returns the help that these words request.
fn help_of<R: AllocGlobal + Threads + Wait + Copy + Drop + Send + 'static>(
    rt: R,
    words: &str,
) -> Result<String, Fail> {
    let told = answer(rt, words, b"")?;
    if told.status != 0 || !told.err.is_empty() {
        return Err(Fail::from("no help"));
    }
    String::from_utf8(told.out).map_err(|_| Fail::from("no text"))
}

// Returns whether no line has more than 80 bytes.
fn is_narrow(help: &str) -> bool {
    help.lines().all(|line| line.len() <= 80)
}

// Returns whether the help contains each of these texts.
fn says_all(help: &str, parts: &[&str]) -> bool {
    parts.iter().all(|part| help.contains(part))
}

// Returns whether the help begins as expected, contains all of these texts and is narrow.
fn helps<R: AllocGlobal + Threads + Wait + Copy + Drop + Send + 'static>(
    rt: R,
    row: &Help,
) -> Result<bool, Fail> {
    let help = help_of(rt, row.0)?;
    let text = help.as_str();
    Ok(text.starts_with(row.1) && says_all(text, row.2) && is_narrow(text))
}

fn all_help<R: Abort + AllocGlobal + Threads + Wait + Copy + Drop + Send + 'static>(
    rt: R,
    rows: &[Help],
) -> Result<(), Fail> {
    for row in rows {
        let helps = helps(rt, row)?;
        assert!(rt; helps, "{}", row.0);
    }
    Ok(())
}

#[test]
fn gives_help(rt: HostRuntime) -> Result<(), Fail> {
    all_help(rt, PROGRAM)
}

#[test]
fn gives_help_of_commands(rt: HostRuntime) -> Result<(), Fail> {
    all_help(rt, COMMANDS)
}

// The help of these commands does not contain the table of exit statuses, which only the help of the program has.
const STATUSLESS: &[&str] = &[
    "check --help",
    "run --help",
    "scale --help",
    "sites --help",
    "gain --help",
    "greedy --help",
    "speedup --help",
    "page --help",
];

fn none_tells_statuses<R: Abort + AllocGlobal + Threads + Wait + Copy + Drop + Send + 'static>(
    rt: R,
    lines: &[&str],
) -> Result<(), Fail> {
    for line in lines {
        let help = help_of(rt, line)?;
        assert!(rt; !help.as_str().contains("write failed"), "{line}");
    }
    Ok(())
}

#[test]
fn tells_each_thing_once(rt: HostRuntime) -> Result<(), Fail> {
    none_tells_statuses(rt, STATUSLESS)
}

const VERSION: &[Row] = &[
    ("--version", "", 0, "cilkwork 0.1.0\n", ""),
    ("-V", "", 0, "cilkwork 0.1.0\n", ""),
];

#[test]
fn tells_its_version(rt: HostRuntime) -> Result<(), Fail> {
    all_hold(rt, VERSION)
}
