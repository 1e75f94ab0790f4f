//! A run that trapped, line by line.

use crate::around::add_around;
use crate::values::Values;
use cw_code::code::Code;
use cw_machine::trap_state::{TrapState, trap_state};
use cw_runnable::verified::Verified;
use cw_text::Fault;
use std::alloc::{AllocError, Global};
use std::fmt;

/// A run that trapped: of this code, on these arguments, with this limit.
#[derive(Clone, Copy)]
pub struct Trapping<'a> {
    pub code: &'a Verified,
    pub args: &'a [i64],
    pub limit: u64,
}

/// Adds the operands of a run's last instruction, if the run traps, and the calls and loops around it, the innermost first:
/// each on a line of its own, which begins with the file and ends with a line feed. The caller's thread executes the run once
/// more for this, up to that instruction. At most ten calls and loops have a line, at most three of them for the same
/// function or loop, whose other calls are counted.
///
/// Adds nothing if the run finishes.
///
/// # Errors
///
/// As `trap_state`: `Arguments`, `OverLimit` and `Memory`.
pub fn add_trap<F: fmt::Display + Copy>(
    alloc: Global,
    out: &mut String,
    file: F,
    run: &Trapping<'_>,
) -> Result<(), Fault> {
    let Some(trap_info) = trap_state(alloc, run.code, run.args, run.limit)? else {
        return Ok(());
    };
    add_trap_state(alloc, out, file, &run.code.code, &trap_info)?;
    Ok(())
}

// Adds the state of a run of code at its trap.
fn add_trap_state<F: fmt::Display + Copy>(
    alloc: Global,
    out: &mut String,
    file: F,
    code: &Code,
    trap_info: &TrapState,
) -> Result<(), AllocError> {
    let values = Values {
        code,
        trap_operands: trap_info.trap_operands,
    };
    let line = trap_info.line;
    write!(out, "{file}:{line}: {values}\n")?;
    let uncounted = add_around(alloc, out, file, code, trap_info.round.as_slice())?;
    let line = code.main_line;
    let further = Further {
        count: uncounted.saturating_add(trap_info.further),
    };
    write!(out, "{file}:{line}: in main{further}\n")
}

// The number of calls and loops that have no line and are not counted in one.
#[derive(Clone, Copy)]
struct Further {
    count: usize,
}

impl fmt::Display for Further {
    fn fmt<W: fmt::Write>(&self, f: &mut fmt::Formatter<W>) -> fmt::Result {
        let count = self.count;
        match count {
            0 => Ok(()),
            1 => write!(f, ", and 1 more call or loop"),
            _ => write!(f, ", and {count} more calls and loops"),
        }
    }
}
