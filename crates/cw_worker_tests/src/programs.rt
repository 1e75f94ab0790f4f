//! Programs as code that is written by hand.

use cw_code::code::{Code, Func, Instr, Loan, Reducer, Site};
use cw_model::syntax::{CallKind, Name, Reduction};
use cw_runnable::verified::Verified;
use cw_text::Fault;
use cw_verify::verify::verify;
use std::alloc::{AllocError, Global};
use std::sync::Arc;

/// A function of code: whether it returns a value, its integer parameters and slots, its array parameters and slots,
/// the number of arrays that it reads, and its instructions.
#[derive(Clone, Copy)]
pub struct Part<'a> {
    pub gives_int: bool,
    pub params: usize,
    pub slots: usize,
    pub array_params: usize,
    pub arrays: usize,
    pub readers: usize,
    pub body: &'a [Instr],
}

/// A program: its functions (`main` is the last one), the kind and the function of its call statements, its reducers
/// and tags, the lists of array slots that its calls take, and the lists of what is lent to them.
#[derive(Clone, Copy)]
pub struct Program<'a> {
    pub parts: &'a [Part<'a>],
    pub sites: &'a [(CallKind, u32)],
    pub reducers: &'a [(&'a str, Reduction)],
    pub tags: &'a [&'a str],
    pub passed: &'a [&'a [u32]],
    pub lent: &'a [&'a [Loan]],
}

// Appends functions.
fn place_parts(code: &mut Code, parts: &[Part]) -> Result<(), AllocError> {
    for part in parts {
        let start = code.instrs.len();
        code.instrs.extend_from_slice(part.body)?;
        code.funcs.push(Func {
            start,
            end: code.instrs.len(),
            gives_int: part.gives_int,
            params: part.params,
            slots: part.slots,
            array_params: part.array_params,
            arrays: part.arrays,
            readers: part.readers,
        })?;
    }
    Ok(())
}

// Appends call statements, numbered from 1.
fn place_sites(
    alloc: Global,
    code: &mut Code,
    sites: &[(CallKind, u32)],
) -> Result<(), AllocError> {
    let mut number: u32 = 1;
    for (kind, function) in sites {
        code.sites.push(Site {
            number,
            kind: *kind,
            line: 1,
            callee: Name::new(alloc, b"")?,
            function: *function,
        })?;
        number = number.wrapping_add(1);
    }
    Ok(())
}

// Appends tags.
fn place_tags(alloc: Global, code: &mut Code, texts: &[&str]) -> Result<(), AllocError> {
    for text in texts {
        code.tags.push(Name::new(alloc, text.as_bytes())?)?;
    }
    Ok(())
}

// Appends reducers.
fn place_reducers(
    alloc: Global,
    code: &mut Code,
    told: &[(&str, Reduction)],
) -> Result<(), AllocError> {
    for (text, how) in told {
        code.reducers.push(Reducer {
            name: Name::new(alloc, text.as_bytes())?,
            how: *how,
        })?;
    }
    Ok(())
}

// Appends lists of array slots that calls take.
fn place_passed(alloc: Global, code: &mut Code, lists: &[&[u32]]) -> Result<(), AllocError> {
    for list in lists {
        code.passed.push(Vec::from_slice(alloc, list)?)?;
    }
    Ok(())
}

// Appends lists of loans.
fn place_lent(alloc: Global, code: &mut Code, lists: &[&[Loan]]) -> Result<(), AllocError> {
    for list in lists {
        code.lent.push(Vec::from_slice(alloc, list)?)?;
    }
    Ok(())
}

// Returns code that has only the index of `main`.
fn empty_code(alloc: Global, main: u32) -> Code {
    Code {
        instrs: Vec::new(alloc),
        funcs: Vec::new(alloc),
        main,
        main_line: 1,
        sites: Vec::new(alloc),
        reducers: Vec::new(alloc),
        tags: Vec::new(alloc),
        passed: Vec::new(alloc),
        lent: Vec::new(alloc),
    }
}

// Appends all of a program.
fn place_all(alloc: Global, code: &mut Code, program: &Program) -> Result<(), AllocError> {
    place_parts(code, program.parts)?;
    place_sites(alloc, code, program.sites)?;
    place_reducers(alloc, code, program.reducers)?;
    place_tags(alloc, code, program.tags)?;
    place_passed(alloc, code, program.passed)?;
    place_lent(alloc, code, program.lent)
}

/// Returns the code of a program, which the verifier must accept.
///
/// # Errors
///
/// `Fault::Code` if the verifier rejects the code, `Fault::Memory` if there is not enough memory.
pub fn code_of(alloc: Global, program: &Program) -> Result<Arc<Verified>, Fault> {
    let main = u32::try_from(program.parts.len().saturating_sub(1)).unwrap_or(0);
    let mut code = empty_code(alloc, main);
    place_all(alloc, &mut code, program)?;
    let verified = verify(alloc, code)?;
    Ok(Arc::new(alloc, verified)?)
}
