//! The helpers of the tables of tests: a source, from its text to its explanation.

use cw_explain::{RejectedSource, explain};
use cw_lex::lex;
use cw_loops::lower;
use cw_own::own;
use cw_parse::parse;
use cw_text::{Fault, Source};
use cw_types::check;
use std::alloc::Global;
use std::process::Abort;

// The first fault of a text, from its bytes to its loops.
fn fault_of(alloc: Global, bytes: &[u8]) -> Result<(), Fault> {
    let source = Source::read(alloc, bytes)?;
    let tokens = lex(alloc, &source)?;
    let ast = parse(alloc, &source, tokens.as_slice())?;
    let typed = check(alloc, ast)?;
    let owned = own(alloc, typed)?;
    lower(alloc, owned)?;
    Ok(())
}

/// Returns a source of these bytes with the path t.
pub fn refused(bytes: &[u8]) -> RejectedSource<'_> {
    RejectedSource {
        file: "t",
        bytes,
        args: 0,
        limit: 1,
        strands: 1,
    }
}

// What standard error has for a text: the line of its first fault, and its explanation.
fn told(alloc: Global, bytes: &[u8]) -> Result<String, Fault> {
    match fault_of(alloc, bytes) {
        Ok(()) => Ok(String::from_str(alloc, "ok\n")?),
        Err(fault) => {
            let text = explain(alloc, &refused(bytes), &fault)?;
            Ok(format!(in alloc; "{fault}\n{text}")?)
        }
    }
}

/// Whether a text has this explanation.
pub fn is_told(alloc: Global, bytes: &[u8], wanted: &str) -> bool {
    match told(alloc, bytes) {
        Ok(told) => told.as_str() == wanted,
        Err(_) => false,
    }
}

/// Asserts that each of these texts has its explanation.
pub fn all_explained(rt: &impl Abort, alloc: Global, rows: &[(&str, &str)]) {
    for (text, wanted) in rows {
        let holds = is_told(alloc, text.as_bytes(), wanted);
        assert!(rt; holds, "{text}");
    }
}

/// Returns what standard error has for a text between two others.
pub fn explained_between(
    alloc: Global,
    front: &str,
    text: &str,
    back: &str,
) -> Result<String, Fault> {
    let whole = format!(in alloc; "{front}{text}{back}")?;
    told(alloc, whole.as_bytes())
}

/// Whether the explanation of a text between two others has one part, and not the other.
pub fn is_said(
    alloc: Global,
    front: &str,
    text: &str,
    back: &str,
    wanted: &str,
    unwanted: &str,
) -> bool {
    match explained_between(alloc, front, text, back) {
        Ok(told) => told.as_str().contains(wanted) && !told.as_str().contains(unwanted),
        Err(_) => false,
    }
}

/// The mark of a habit that nothing replaces.
pub const NONE: &str = "none";

/// What a C programmer writes, what its explanation says, and what replaces it: `NONE` if nothing does.
pub type Habit = (&'static str, &'static str, &'static str);

// Whether a text between two others is accepted.
fn is_accepted(alloc: Global, front: &str, text: &str, back: &str) -> bool {
    match explained_between(alloc, front, text, back) {
        Ok(told) => told.as_str() == "ok\n",
        Err(_) => false,
    }
}

/// Whether the explanation of a habit between two texts says what to write and is accepted with it, or says that nothing
/// replaces the habit.
pub fn is_advised(alloc: Global, front: &str, habit: &Habit, back: &str) -> bool {
    let (written, says, applied) = *habit;
    if !is_said(alloc, front, written, back, says, "\u{7f}") {
        return false;
    }
    if applied == NONE {
        return is_said(alloc, front, written, back, "no replacement", "\u{7f}");
    }
    is_accepted(alloc, front, applied, back)
}
