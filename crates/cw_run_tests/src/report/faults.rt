//! The lines of faults.

use cw_model::trap::Trap;
use cw_report::{Counted, write_fault};
use cw_text::{Fault, Place};
use std::alloc::Global;

// Returns whether this line reports a fault.
fn is_told(alloc: Global, fault: &Fault, line: &str) -> bool {
    let mut sink = Counted::new(Vec::new(alloc));
    let answer = write_fault(&mut sink, fault);
    answer.is_ok() && sink.into_inner().as_slice() == line.as_bytes()
}

// Returns the fault with this number, in this line if it has one.
fn fault_of(alloc: Global, number: u8, line: u32) -> Fault {
    match number {
        1 => Fault::Lexical(Place { line }),
        2 => Fault::Syntax(Place { line }),
        3 => Fault::Types(Place { line }),
        4 => Fault::Ownership(Place { line }),
        5 => Fault::Size(Place { line }),
        6 => Fault::Code,
        7 => Fault::OverLimit,
        8 => Fault::Trap {
            code: Trap::DivisionByZero,
            line,
            output: Vec::new(alloc),
        },
        9 => Fault::Memory,
        10 => Fault::Write,
        11 => Fault::Arguments,
        _ => Fault::Strands(1_000_001),
    }
}

// Each fault with its number, its line, and its report.
static FAULTS: [(u8, u32, &str); 12] = [
    (1, 1, "refused 1 line 1\n"),
    (2, 20, "refused 2 line 20\n"),
    (3, 3, "refused 3 line 3\n"),
    (4, 4, "refused 4 line 4\n"),
    (5, 1048576, "refused 5 line 1048576\n"),
    (6, 0, "refused 6\n"),
    (7, 0, "over limit\n"),
    (8, 4_294_967_295, "trap 2 line 4294967295\n"),
    (9, 0, "memory\n"),
    (10, 0, "write failed\n"),
    (11, 0, "arguments\n"),
    (12, 0, "too many strands\n"),
];

#[test]
fn faults_are_told(rt: HostRuntime) {
    for (number, line, text) in &FAULTS {
        let fault = fault_of(rt.alloc(), *number, *line);
        assert!(rt; is_told(rt.alloc(), &fault, text), "{text}");
    }
}
