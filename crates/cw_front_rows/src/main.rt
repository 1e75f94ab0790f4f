//! Runs the test cases of the `.rows` files on the front end: texts of programs with the expected answers. It prints
//! each answer that differs from the expected one, and for each file the number of rows, of answers and of
//! differences. For the tests that are not rows it prints whether the result is as expected.
#![tactic(auto)]

mod answers;
mod faults;
mod lowering;
mod productions;
mod rows;
mod shown;
mod written;

use crate::answers::answer;
use crate::rows::RowReader;
use std::alloc::{AllocError, Global};
use std::{fs, io};

// The files, in the current folder.
const FILES: [&str; 8] = [
    "tokens.rows",
    "productions.rows",
    "trees.rows",
    "typing.rows",
    "limits.rows",
    "owning.rows",
    "lowered.rows",
    "wrong.rows",
];

fn main(rt: HostRuntime) -> io::Result<()> {
    for file in FILES {
        let text = fs::read_to_string(&rt, file)?;
        let told = told(rt.alloc(), file, text.as_str())?;
        rt.print(told)?;
    }
    rt.print(values(rt.alloc())?)
}

// Returns the results of the tests that are not rows: each fault, and two lowered loops.
fn values(alloc: Global) -> Result<String, AllocError> {
    let told = faults::told(alloc)?;
    let slots = lowering::slots_move(alloc);
    let arrays = lowering::arrays_are_passed(alloc)?;
    format!(in alloc;
        "{told}slots move with the body: {slots}\narrays are given away or only read: {arrays}\n"
    )
}

// Returns the report of a file with this text.
fn told(alloc: Global, file: &'static str, text: &str) -> Result<String, AllocError> {
    let mut rows = RowReader::new(alloc, file);
    for line in text.lines() {
        compare(alloc, &mut rows, line)?;
    }
    rows.told()
}

// Asks the questions of a line.
fn compare(alloc: Global, rows: &mut RowReader, line: &str) -> Result<(), AllocError> {
    for asked in &rows.read(line)? {
        let found = answer(alloc, asked)?;
        rows.compare(asked, found.as_str())?;
    }
    Ok(())
}
