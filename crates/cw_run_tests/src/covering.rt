//! Each habit has an example whose explanation says what to write, and with that put in place it is accepted.

use crate::explained::{Habit, explained_between, is_advised};
use crate::names::{bytes, names, rules};
use crate::sources::{sources, updates};
use crate::statements::{assignments, others, statements};
use cw_explain::{Row, all_bytes, all_names, all_rows};
use std::alloc::{AllocError, Global};
use std::process::Abort;
use std::test::Fail;

// A row of a table of names: a name, and what to write instead.
type Call = (&'static str, &'static str);

// A row of a table of bytes: the byte, three conditions, and what to write instead.
type Foreign = (u8, &'static str, &'static str, &'static str, &'static str);

// What precedes a statement, and what follows it.
const FRONT: &str =
    "reducer sum total;\nint f(int n) { return n; } void g(int a, int b) { } void h(int a[]) { } int main(int n) {\n  ";

const BACK: &str = "\n  return n;\n}\n";

// Asserts that each of these habits, between two texts, is explained, and accepted with what the explanation says.
fn all_advised(rt: &impl Abort, alloc: Global, front: &str, habits: &[Habit], back: &str) {
    for habit in habits {
        let holds = is_advised(alloc, front, habit, back);
        assert!(rt; holds, "{}", habit.0);
    }
}

#[test]
fn statements_are_accepted_as_advised(rt: HostRuntime) {
    all_advised(&rt, rt.alloc(), FRONT, statements(), BACK);
    all_advised(&rt, rt.alloc(), FRONT, assignments(), BACK);
    all_advised(&rt, rt.alloc(), FRONT, others(), BACK);
}

#[test]
fn names_are_accepted_as_advised(rt: HostRuntime) {
    all_advised(&rt, rt.alloc(), FRONT, bytes(), BACK);
    all_advised(&rt, rt.alloc(), FRONT, names(), BACK);
    all_advised(&rt, rt.alloc(), FRONT, rules(), BACK);
}

#[test]
fn sources_are_accepted_as_advised(rt: HostRuntime) {
    all_advised(&rt, rt.alloc(), "", sources(), "");
    all_advised(&rt, rt.alloc(), "", updates(), "");
}

// Adds the explanations of these habits.
fn add_told(
    alloc: Global,
    out: &mut Vec<String>,
    front: &str,
    habits: &[Habit],
    back: &str,
) -> Result<(), AllocError> {
    for (habit, _wanted, _applied) in habits {
        if let Ok(text) = explained_between(alloc, front, habit, back) {
            out.push(text)?;
        }
    }
    Ok(())
}

// The explanations of all habits.
fn all_explained(alloc: Global) -> Result<Vec<String>, AllocError> {
    let mut out = Vec::new(alloc);
    add_told(alloc, &mut out, FRONT, statements(), BACK)?;
    add_told(alloc, &mut out, FRONT, assignments(), BACK)?;
    add_told(alloc, &mut out, FRONT, others(), BACK)?;
    add_told(alloc, &mut out, FRONT, bytes(), BACK)?;
    add_told(alloc, &mut out, FRONT, names(), BACK)?;
    add_told(alloc, &mut out, "", sources(), "")?;
    add_told(alloc, &mut out, "", updates(), "")?;
    Ok(out)
}

// Whether a text has a piece of another.
fn has_piece(text: &str, piece: &[u8]) -> bool {
    match str::from_utf8(piece) {
        Ok(piece) => text.contains(piece),
        Err(_) => false,
    }
}

// Whether a text has the pieces of another between its marks.
fn has_pieces(text: &str, says: &str) -> bool {
    let bytes = says.as_bytes();
    let mut start = 0;
    for place in 0..bytes.len() {
        if bytes[place] == b'@' {
            if !has_piece(text, bytes.get(start..place).unwrap_or(&[])) {
                return false;
            }
            start = place.saturating_add(2);
        }
    }
    has_piece(text, bytes.get(start..).unwrap_or(&[]))
}

// Whether one of these texts says what a row of a table does.
fn is_covered(told: &[String], says: &str) -> bool {
    for text in told {
        if has_pieces(text.as_str(), says) {
            return true;
        }
    }
    false
}

// Asserts that an example says what each row of a table of tokens does.
fn all_rows_covered(rt: &impl Abort, told: &[String], table: &[Row]) {
    for row in table {
        assert!(rt; is_covered(told, row.3), "{}", row.3);
    }
}

// Asserts that an example says what each row of a table of names does.
fn all_names_covered(rt: &impl Abort, told: &[String], table: &[Call]) {
    for row in table {
        assert!(rt; is_covered(told, row.1), "{}", row.0);
    }
}

// Asserts that an example says what each row of a table of bytes does.
fn all_bytes_covered(rt: &impl Abort, told: &[String], table: &[Foreign]) {
    for row in table {
        assert!(rt; is_covered(told, row.4), "{}", row.4);
    }
}

#[test]
fn each_habit_has_an_example(rt: HostRuntime) -> Result<(), Fail> {
    let told = all_explained(rt.alloc())?;
    for table in all_rows() {
        all_rows_covered(&rt, told.as_slice(), table);
    }
    for table in all_names() {
        all_names_covered(&rt, told.as_slice(), table);
    }
    for table in all_bytes() {
        all_bytes_covered(&rt, told.as_slice(), table);
    }
    Ok(())
}
