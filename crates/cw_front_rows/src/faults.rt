//! Checks the number, the status and the text of each fault.

use cw_model::trap::Trap;
use cw_text::{Fault, Place};
use std::alloc::{AllocError, Global};

// Represents a fault without its payload.
#[derive(Clone, Copy)]
enum Brief {
    Lexical(u32),
    Syntax(u32),
    Types(u32),
    Ownership(u32),
    Size(u32),
    Code,
    OverLimit,
    // A trap in line 13.
    Trap(Trap),
    Memory,
    Write,
    Arguments,
    Strands,
}

fn fault_of(alloc: Global, brief: Brief) -> Result<Fault, AllocError> {
    let fault = match brief {
        Brief::Lexical(line) => Fault::Lexical(Place { line }),
        Brief::Syntax(line) => Fault::Syntax(Place { line }),
        Brief::Types(line) => Fault::Types(Place { line }),
        Brief::Ownership(line) => Fault::Ownership(Place { line }),
        Brief::Size(line) => Fault::Size(Place { line }),
        Brief::Code => Fault::Code,
        Brief::OverLimit => Fault::OverLimit,
        Brief::Trap(code) => Fault::Trap {
            code,
            line: 13,
            output: vec![in alloc; 7, -1]?,
        },
        Brief::Memory => Fault::Memory,
        Brief::Write => Fault::Write,
        Brief::Arguments => Fault::Arguments,
        Brief::Strands => Fault::Strands(1_000_001),
    };
    Ok(fault)
}

// Each fault with its number, its status and its text.
static FAULTS: &[(Brief, u8, u8, &str)] = &[
    (Brief::Lexical(1), 1, 2, "refused 1 line 1"),
    (Brief::Syntax(20), 2, 2, "refused 2 line 20"),
    (Brief::Types(3), 3, 2, "refused 3 line 3"),
    (Brief::Ownership(407), 4, 2, "refused 4 line 407"),
    (Brief::Size(1_048_577), 5, 2, "refused 5 line 1048577"),
    (Brief::Code, 6, 2, "refused 6"),
    (Brief::OverLimit, 7, 4, "over limit"),
    (Brief::Trap(Trap::Overflow), 8, 3, "trap 1 line 13"),
    (Brief::Trap(Trap::DivisionByZero), 8, 3, "trap 2 line 13"),
    (Brief::Trap(Trap::OutOfBounds), 8, 3, "trap 3 line 13"),
    (Brief::Trap(Trap::BadLength), 8, 3, "trap 4 line 13"),
    (Brief::Trap(Trap::TooManyIterations), 8, 3, "trap 5 line 13"),
    (Brief::Trap(Trap::TooDeep), 8, 3, "trap 6 line 13"),
    (Brief::Memory, 9, 6, "memory"),
    (Brief::Write, 10, 7, "write failed"),
    (Brief::Arguments, 11, 5, "arguments"),
    (Brief::Strands, 12, 4, "too many strands"),
];

// Reports whether a fault has this number, this status and this text.
fn is_told(
    alloc: Global,
    brief: Brief,
    number: u8,
    status: u8,
    text: &str,
) -> Result<bool, AllocError> {
    let fault = fault_of(alloc, brief)?;
    let shown = fault.to_string(alloc)?;
    Ok(fault.number() == number && fault.status() == status && shown.as_str() == text)
}

/// Returns a line for each fault that says whether it has its number, its status and its text.
///
/// # Errors
///
/// Returns an `AllocError` if there is no memory for the lines.
pub fn told(alloc: Global) -> Result<String, AllocError> {
    let mut out = String::new(alloc);
    for (brief, number, status, text) in FAULTS {
        let is_told = is_told(alloc, *brief, *number, *status, text)?;
        let line = format!(in alloc; "fault {text}: {is_told}\n")?;
        out.push_str(line.as_str())?;
    }
    Ok(out)
}
