//! The faults: why a source is rejected, or why a run ends without a report.

ghost use Rattle.std.specs.Prelude.{◌≡◌, Some};
ghost use Rattle.cw_text.specs.declared.fault.Fault.TheVariants.{Memory};

use cw_model::trap::Trap;
use std::alloc::{AllocError, AllocFailed};
use std::fmt;
use thiserror::Error;

/// Represents a line of a source, counted from 1.
#[derive(Clone, Copy, Debug, PartialEq, Eq)]
pub struct Place {
    pub line: u32,
}

impl fmt::Display for Place {
    ghost use Rattle.cw_text.specs.Faults.{place_text};

    ghost output = { λ p. Some (place_text p) };

    fn fmt<W: fmt::Write>(&self, f: &mut fmt::Formatter<W>) -> fmt::Result {
        let line = self.line;
        write!(f, "line {line}")
    }
}

/// Represents the reason why a source is rejected, or why a run ends without a report.
#[derive(Debug, Drop, PartialEq, Eq, Error)]
pub enum Fault {
    /// A byte that starts no token, a byte above 127, or a number that is too large.
    Lexical(Place),
    /// A token that continues no source, or a source that ends too early.
    Syntax(Place),
    /// A broken rule of names and types.
    Types(Place),
    /// A broken rule of ownership.
    Ownership(Place),
    /// An exceeded limit of the language.
    Size(Place),
    /// Code that the verifier rejects.
    Code,
    /// A run that costs more than its limit.
    OverLimit,
    /// A run that trapped in the statement that begins in `line`, after it printed `output`.
    Trap {
        code: Trap,
        line: u32,
        output: Vec<i64>,
    },
    /// Out of memory.
    Memory,
    /// A write that failed.
    Write,
    /// Arguments, a limit or a burden that are not as required.
    Arguments,
    /// A run with this number of strands, more than the limit for a schedule; 2^64 - 1 if the number is that or
    /// larger.
    Strands(u64),
}

impl Fault {
    ghost use Rattle.cw_text.specs.Faults.{fault_number, fault_status};

    /// Returns the number of the fault, from 1 to 12.
    pub fn number(&self) -> u8
        ensures { result ≡ fault_number self.now }
    {
        match self {
            Fault::Lexical(_) => 1,
            Fault::Syntax(_) => 2,
            Fault::Types(_) => 3,
            Fault::Ownership(_) => 4,
            Fault::Size(_) => 5,
            Fault::Code => 6,
            Fault::OverLimit => 7,
            Fault::Trap { .. } => 8,
            Fault::Memory => 9,
            Fault::Write => 10,
            Fault::Arguments => 11,
            Fault::Strands(_) => 12,
        }
    }

    /// Returns the exit status of a program that ends with this fault: 2 for a rejected source, 3 for a trap, 4 for a
    /// run over its limit or with too many strands, 5 for invalid arguments, 6 for out of memory, and 7 for a failed
    /// write.
    pub fn status(&self) -> u8
        ensures { result ≡ fault_status self.now }
    {
        match self {
            Fault::Lexical(_)
            | Fault::Syntax(_)
            | Fault::Types(_)
            | Fault::Ownership(_)
            | Fault::Size(_)
            | Fault::Code => 2,
            Fault::Trap { .. } => 3,
            Fault::OverLimit | Fault::Strands(_) => 4,
            Fault::Arguments => 5,
            Fault::Memory => 6,
            Fault::Write => 7,
        }
    }
}

impl fmt::Display for Fault {
    ghost use Rattle.cw_text.specs.Faults.{fault_text};

    ghost output = { λ f. Some (fault_text f) };

    fn fmt<W: fmt::Write>(&self, f: &mut fmt::Formatter<W>) -> fmt::Result {
        match self {
            Fault::Lexical(place) => write!(f, "refused 1 {place}"),
            Fault::Syntax(place) => write!(f, "refused 2 {place}"),
            Fault::Types(place) => write!(f, "refused 3 {place}"),
            Fault::Ownership(place) => write!(f, "refused 4 {place}"),
            Fault::Size(place) => write!(f, "refused 5 {place}"),
            Fault::Code => write!(f, "refused 6"),
            Fault::OverLimit => write!(f, "over limit"),
            Fault::Trap { code, line, .. } => {
                let number = code.number();
                let place = Place { line: *line };
                write!(f, "trap {number} {place}")
            }
            Fault::Memory => write!(f, "memory"),
            Fault::Write => write!(f, "write failed"),
            Fault::Arguments => write!(f, "arguments"),
            Fault::Strands(_) => write!(f, "too many strands"),
        }
    }
}

impl From<AllocError> for Fault {
    ghost from_gives = { λ _ e. e ≡ Memory };

    fn from(_e: AllocError) -> Fault {
        Fault::Memory
    }
}

impl<T: Drop> From<AllocFailed<T>> for Fault {
    ghost from_gives = { λ _ e. e ≡ Memory };

    fn from(_e: AllocFailed<T>) -> Fault {
        Fault::Memory
    }
}
