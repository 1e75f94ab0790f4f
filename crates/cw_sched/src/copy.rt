//! Copies of the answer of a run.

ghost use Rattle.std.specs.Prelude.{IfOk};
ghost use Rattle.cw_sched.specs.Copied.{IsCopy, IsFaultCopy, IsSameEnd};

use cw_machine::alone::Ended;
use cw_text::Fault;
use std::alloc::{AllocError, Global};

// A copy of a run that ended.
fn copy_ended(alloc: Global, ended: &Ended) -> Result<Ended, AllocError>
    ensures { IfOk result (IsSameEnd ended.now) }
{
    let copy = Ended {
        value: ended.value,
        lines: Vec::from_slice(alloc, ended.lines.as_slice())?,
        totals: Vec::from_slice(alloc, ended.totals.as_slice())?,
        measure: ended.measure,
        sites: ended.sites.clone()?,
        regions: ended.regions.clone()?,
    };
    Ok(copy)
}

// A copy of the error of a run; for a trap `Memory`, if there is no memory for the printed values.
fn copy_fault(alloc: Global, fault: &Fault) -> Fault
    ensures { IsFaultCopy fault.now result }
{
    match fault {
        Fault::OverLimit => Fault::OverLimit,
        Fault::Trap { code, line, output } => {
            match Vec::from_slice(alloc, output.as_slice()) {
                Ok(output) => Fault::Trap {
                    code: *code,
                    line: *line,
                    output,
                },
                Err(_) => Fault::Memory,
            }
        }
        Fault::Arguments => Fault::Arguments,
        Fault::Memory => Fault::Memory,
        // no run answers any of these
        Fault::Lexical(place) => Fault::Lexical(*place),
        Fault::Syntax(place) => Fault::Syntax(*place),
        Fault::Types(place) => Fault::Types(*place),
        Fault::Ownership(place) => Fault::Ownership(*place),
        Fault::Size(place) => Fault::Size(*place),
        Fault::Code => Fault::Code,
        Fault::Write => Fault::Write,
        Fault::Strands(count) => Fault::Strands(*count),
    }
}

/// Copies the answer of a run.
///
/// # Errors
///
/// The error of the run, or `Memory` if there is no memory for the copy.
pub(crate) fn copy_of(alloc: Global, answer: &Result<Ended, Fault>) -> Result<Ended, Fault>
    ensures { IsCopy answer.now result }
{
    match answer {
        Ok(ended) => {
            let copy = copy_ended(alloc, ended)?;
            Ok(copy)
        }
        Err(fault) => Err(copy_fault(alloc, fault)),
    }
}
