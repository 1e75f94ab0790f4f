//! The calls and loops around an instruction that trapped.

use crate::values::site_at;
use cw_code::code::{Code, Site};
use cw_explain::Word;
use cw_machine::trap_state::Round;
use cw_model::syntax::CallKind;
use std::alloc::{AllocError, Global};
use std::fmt;

/// The maximum number of calls of one function, or of iterations of one loop, that have a line each.
const MOST_ALIKE: usize = 3;

/// The maximum number of calls and loops that have a line each.
const MOST_LINES: usize = 10;

/// No call or loop is added once the text has this number of bytes.
const MOST_BYTES: usize = 3_072;

// The function of a call, by its index, or the loop of an iteration, by its line.
#[derive(Clone, Copy, PartialEq, Eq)]
enum Kind {
    Function(u32),
    Loop(u32),
}

// Returns the function or the loop of a call or a loop.
fn kind_of(code: &Code, one: Round) -> Kind {
    match one {
        Round::Turns(line) => Kind::Loop(line),
        Round::Call(number) => match site_at(code, number) {
            Some(site) => Kind::Function(site.function),
            None => Kind::Function(u32::MAX),
        },
    }
}

// Returns the number of calls of a function, or of iterations of a loop, among these.
fn count_of(code: &Code, round: &[Round], kind: Kind) -> usize {
    let mut count: usize = 0;
    for one in round {
        if kind_of(code, *one) == kind {
            count = count.saturating_add(1);
        }
    }
    count
}

// Returns how often a function or a loop has a line.
fn lines_of(shown: &[Kind], kind: Kind) -> usize {
    let mut count: usize = 0;
    for one in shown {
        if *one == kind {
            count = count.saturating_add(1);
        }
    }
    count
}

/// Adds the calls and loops around an instruction, the innermost first: at most ten lines, at most three for each function
/// or loop, and after its third line the number of its other calls or iterations. Returns the number of calls and loops that
/// are not counted in any line.
pub fn add_around<F: fmt::Display + Copy>(
    alloc: Global,
    out: &mut String,
    file: F,
    code: &Code,
    round: &[Round],
) -> Result<usize, AllocError> {
    let mut shown: Vec<Kind> = Vec::new(alloc);
    let mut further: usize = 0;
    for k in 0..round.len() {
        let kind = kind_of(code, round[k]);
        let alike = lines_of(shown.as_slice(), kind);
        if alike < MOST_ALIKE && shown.len() < MOST_LINES && out.len() < MOST_BYTES {
            add_one(out, file, code, round[k])?;
            shown.push(kind)?;
            if alike + 1 == MOST_ALIKE {
                let more = count_of(code, &round[k + 1..], kind);
                add_more(out, file, code, round[k], more)?;
            }
        } else if alike < MOST_ALIKE {
            further = further.saturating_add(1);
        }
    }
    Ok(further)
}

// Adds a call or a loop.
fn add_one<F: fmt::Display + Copy>(
    out: &mut String,
    file: F,
    code: &Code,
    one: Round,
) -> Result<(), AllocError> {
    match one {
        Round::Turns(line) => write!(out, "{file}:{line}: in an iteration of this cilk_for\n"),
        Round::Call(number) => match site_at(code, number) {
            None => Ok(()),
            Some(site) => add_call(out, file, site),
        },
    }
}

// Adds a call at a site.
fn add_call<F: fmt::Display + Copy>(
    out: &mut String,
    file: F,
    site: &Site,
) -> Result<(), AllocError> {
    let line = site.line;
    let name = Word::of(&site.callee);
    match site.kind {
        CallKind::Plain => write!(out, "{file}:{line}: in {name}, called here\n"),
        CallKind::Spawned => write!(out, "{file}:{line}: in {name}, spawned here\n"),
    }
}

// Adds the number of the other calls of this call's function, or of the other iterations of this loop, if any.
fn add_more<F: fmt::Display + Copy>(
    out: &mut String,
    file: F,
    code: &Code,
    one: Round,
    more: usize,
) -> Result<(), AllocError> {
    if more == 0 {
        return Ok(());
    }
    match one {
        Round::Turns(line) => write!(
            out,
            "{file}:{line}: {more} more iterations of this cilk_for\n"
        ),
        Round::Call(number) => match site_at(code, number) {
            None => Ok(()),
            Some(site) => {
                let calls = Calls {
                    more,
                    name: Word::of(&site.callee),
                };
                write!(out, "{file}: {calls}\n")
            }
        },
    }
}

// The number of the other calls of a function.
#[derive(Clone, Copy)]
struct Calls<'a> {
    more: usize,
    name: Word<'a>,
}

impl fmt::Display for Calls<'_> {
    fn fmt<W: fmt::Write>(&self, f: &mut fmt::Formatter<W>) -> fmt::Result {
        let more = self.more;
        let name = self.name;
        if more == 1 {
            return write!(f, "1 more call of {name}");
        }
        write!(f, "{more} more calls of {name}")
    }
}
