//! Texts on sinks with little room and on sinks that fail, and the lines of values and faults.

mod answers;
mod faults;
mod parallelism;
mod sinks;
mod tables;

use crate::programs::{empty_code, place_reducers, place_tags};
use cw_code::code::{Code, Func, Instr, Site};
use cw_model::syntax::{CallKind, Name, Reduction};
use cw_runnable::verified::Verified;
use cw_text::Fault;
use cw_verify::verify::verify;
use std::alloc::{AllocError, Global};

// The part of a text that a sink took, the answer, and the number of failed writes.
#[derive(Drop)]
struct Taken {
    bytes: Vec<u8>,
    told: Result<(), Fault>,
    failures: u64,
}

impl Taken {
    // Returns whether a sink with this room took as much of a text as it has room for, and whether one write failed
    // if that is not all of the text.
    fn is_beginning(&self, text: &[u8], room: usize) -> bool {
        match text.get(..room) {
            Some(beginning) if room < text.len() => {
                self.bytes.as_slice() == beginning
                    && self.failures == 1
                    && matches!(self.told, Err(Fault::Write))
            }
            _ => self.bytes.as_slice() == text && self.failures == 0 && self.told.is_ok(),
        }
    }
}

// Adds a `main` without parameters that returns 3.
fn place_main(code: &mut Code) -> Result<(), AllocError> {
    code.instrs
        .extend_from_slice(&[Instr::Push(3), Instr::ReturnValue])?;
    code.funcs.push(Func {
        start: 0,
        end: 2,
        gives_int: true,
        params: 0,
        slots: 0,
        array_params: 0,
        arrays: 0,
        readers: 0,
    })?;
    Ok(())
}

// Adds a call site of `main`.
fn place_site(
    alloc: Global,
    code: &mut Code,
    kind: CallKind,
    number: u32,
    line: u32,
    callee: &str,
) -> Result<(), AllocError> {
    code.sites.push(Site {
        number,
        kind,
        line,
        callee: Name::new(alloc, callee.as_bytes())?,
        function: 0,
    })?;
    Ok(())
}

// Adds this `main`, two call sites, and these reducers and tags.
fn place_all(
    alloc: Global,
    code: &mut Code,
    reducers: &[(&str, Reduction)],
    tags: &[&str],
) -> Result<(), AllocError> {
    place_main(code)?;
    place_site(alloc, code, CallKind::Spawned, 1, 14, "fib")?;
    place_site(alloc, code, CallKind::Plain, 2, 4294967295, "leaf")?;
    place_reducers(alloc, code, reducers)?;
    place_tags(alloc, code, tags)
}

// Returns code with these reducers and tags and two call sites, whose `main` is in line 12.
fn code_with(
    alloc: Global,
    reducers: &[(&str, Reduction)],
    tags: &[&str],
) -> Result<Verified, Fault> {
    let mut code = empty_code(alloc, 12);
    place_all(alloc, &mut code, reducers, tags)?;
    verify(alloc, code)
}
