//! Runs that write nothing, on a sink that accepts nothing.

use cw_cli::analyse_alone;
use cw_model::burden::{Burden, Edges};
use cw_report::{Counted, Sink};
use cw_words::{Mode, Options};
use std::alloc::Global;
use std::io;
use std::io::Write;
use std::process::Abort;
use std::test::Fail;

// A sink that fails at each write.
#[derive(Drop)]
struct Shut;

impl Write for Shut {
    fn write(&mut self, _bytes: &[u8]) -> io::Result<usize> {
        Err(io::Error::from(io::ErrorKind::BrokenPipe))
    }

    fn flush(&mut self) -> io::Result<()> {
        Ok(())
    }
}

// A test case: a run on one argument within a limit, in a mode; the number of its fault (7 over the limit, 8 a trap,
// 10 a failed write); and the number of failed writes.
#[derive(Clone, Copy)]
struct Row {
    source: &'static str,
    arg: i64,
    limit: u64,
    mode: Mode,
    fault: u8,
    failures: u64,
}

// Prints its argument, and then divides by it.
const DIVIDES: &str = "int main(int n) { print(n); int x = 100 / n; return x; }";

// Prints forever.
const FOREVER: &str = "int main(int n) { while (1) { print(n); } return n; }";

// A page of a run.
const PAGE: Mode = Mode::Page {
    top: 1,
    processors: 2,
};

static ROWS: [Row; 12] = [
    Row {
        source: FOREVER,
        arg: 1,
        limit: 100,
        mode: Mode::Run,
        fault: 7,
        failures: 0,
    },
    Row {
        source: FOREVER,
        arg: 1,
        limit: 100,
        mode: Mode::Scale,
        fault: 7,
        failures: 0,
    },
    Row {
        source: FOREVER,
        arg: 1,
        limit: 100,
        mode: Mode::Sites,
        fault: 7,
        failures: 0,
    },
    Row {
        source: FOREVER,
        arg: 1,
        limit: 100,
        mode: Mode::Greedy(2),
        fault: 7,
        failures: 0,
    },
    Row {
        source: DIVIDES,
        arg: 0,
        limit: 100,
        mode: Mode::Scale,
        fault: 8,
        failures: 0,
    },
    Row {
        source: DIVIDES,
        arg: 0,
        limit: 100,
        mode: Mode::Sites,
        fault: 8,
        failures: 0,
    },
    Row {
        source: DIVIDES,
        arg: 0,
        limit: 100,
        mode: Mode::Greedy(2),
        fault: 8,
        failures: 0,
    },
    Row {
        source: DIVIDES,
        arg: 0,
        limit: 100,
        mode: Mode::Run,
        fault: 10,
        failures: 1,
    },
    Row {
        source: DIVIDES,
        arg: 1,
        limit: 100,
        mode: Mode::Greedy(2),
        fault: 10,
        failures: 1,
    },
    Row {
        source: FOREVER,
        arg: 1,
        limit: 100,
        mode: PAGE,
        fault: 7,
        failures: 0,
    },
    Row {
        source: DIVIDES,
        arg: 0,
        limit: 100,
        mode: PAGE,
        fault: 8,
        failures: 0,
    },
    Row {
        source: DIVIDES,
        arg: 1,
        limit: 100,
        mode: PAGE,
        fault: 10,
        failures: 1,
    },
];

// Returns whether a test case fails as expected.
fn fails_so(alloc: Global, row: &Row) -> bool {
    let mut out = Counted::new(Shut);
    let options = Options {
        mode: row.mode,
        limit: row.limit,
        burden: Burden {
            charge: 0,
            edges: Edges::Spawn,
        },
        table: false,
    };
    match analyse_alone(alloc, row.source.as_bytes(), &[row.arg], options, &mut out) {
        Ok(()) => false,
        Err(fault) => fault.number() == row.fault && out.failures() == row.failures,
    }
}

// A run that exceeds its limit writes nothing, and neither does one that traps in a mode that prints no values. The
// output of a run before its trap is written, and so are a schedule and a page.
#[test]
fn a_shut_sink_is_told_only_where_something_is_written(rt: HostRuntime) -> Result<(), Fail> {
    for row in &ROWS {
        assert!(rt; fails_so(rt.alloc(), row), "{}", row.source);
    }
    Ok(())
}
