//! Small codes: their sites, their lists of arrays, and their functions.

use cw_code::code::{Code, Func, Instr, Loan, Reducer, Site};
use cw_model::syntax::{CallKind, Name, Reduction};
use cw_verify::verify::verify;
use std::alloc::{AllocError, Global};

/// A function without parameters and slots that returns nothing.
pub const NOTHING: Func = Func {
    start: 0,
    end: 0,
    gives_int: false,
    params: 0,
    slots: 0,
    array_params: 0,
    arrays: 0,
    readers: 0,
};

/// A function without parameters and slots that returns an integer.
pub const GIVING: Func = Func {
    gives_int: true,
    ..NOTHING
};

/// A function and its instructions.
pub type Placed = (Func, &'static [Instr]);

/// The tables to which the functions of a code refer.
pub struct Frame {
    /// The call sites, numbered from 1: their kinds and their functions.
    pub sites: &'static [(CallKind, u32)],
    /// The lists of array slots whose arrays calls take.
    pub passed: &'static [&'static [u32]],
    /// The lists of arrays that calls are lent.
    pub lent: &'static [&'static [Loan]],
}

/// Returns empty code.
pub fn no_code(alloc: Global) -> Code {
    Code {
        instrs: Vec::new(alloc),
        funcs: Vec::new(alloc),
        main: 0,
        main_line: 1,
        sites: Vec::new(alloc),
        reducers: Vec::new(alloc),
        tags: Vec::new(alloc),
        passed: Vec::new(alloc),
        lent: Vec::new(alloc),
    }
}

fn add_site(
    alloc: Global,
    code: &mut Code,
    number: u32,
    kind: CallKind,
    function: u32,
) -> Result<(), AllocError> {
    code.sites.push(Site {
        number,
        kind,
        line: 1,
        callee: Name::new(alloc, b"")?,
        function,
    })?;
    Ok(())
}

fn add_sites(alloc: Global, code: &mut Code, sites: &[(CallKind, u32)]) -> Result<(), AllocError> {
    let mut number = 1u32;
    for (kind, function) in sites {
        add_site(alloc, code, number, *kind, *function)?;
        number = number.saturating_add(1);
    }
    Ok(())
}

fn add_slots(alloc: Global, passed: &mut Vec<Vec<u32>>, list: &[u32]) -> Result<(), AllocError> {
    let slots = Vec::from_slice(alloc, list)?;
    passed.push(slots)?;
    Ok(())
}

fn add_passed(alloc: Global, code: &mut Code, lists: &[&[u32]]) -> Result<(), AllocError> {
    for list in lists {
        add_slots(alloc, &mut code.passed, *list)?;
    }
    Ok(())
}

fn add_loans(alloc: Global, lent: &mut Vec<Vec<Loan>>, list: &[Loan]) -> Result<(), AllocError> {
    let loans = Vec::from_slice(alloc, list)?;
    lent.push(loans)?;
    Ok(())
}

fn add_lent(alloc: Global, code: &mut Code, lists: &[&[Loan]]) -> Result<(), AllocError> {
    for list in lists {
        add_loans(alloc, &mut code.lent, *list)?;
    }
    Ok(())
}

/// Adds the tables to which functions refer to a code.
pub fn add_frame(alloc: Global, code: &mut Code, frame: &Frame) -> Result<(), AllocError> {
    add_sites(alloc, code, frame.sites)?;
    add_passed(alloc, code, frame.passed)?;
    add_lent(alloc, code, frame.lent)
}

/// Adds the next reducer.
pub fn add_reducer(
    alloc: Global,
    code: &mut Code,
    name: &[u8],
    how: Reduction,
) -> Result<(), AllocError> {
    let name = Name::new(alloc, name)?;
    code.reducers.push(Reducer { name, how })?;
    Ok(())
}

/// Adds a function after the existing instructions.
pub fn place(code: &mut Code, f: Func, body: &[Instr]) -> Result<(), AllocError> {
    let start = code.instrs.len();
    code.instrs.extend_from_slice(body)?;
    end_function(code, f, start)
}

/// Adds a function that consists of the instructions from `start` on.
pub fn end_function(code: &mut Code, f: Func, start: usize) -> Result<(), AllocError> {
    let end = code.instrs.len();
    code.funcs.push(Func { start, end, ..f })?;
    Ok(())
}

/// Adds functions, in order.
pub fn place_all(code: &mut Code, all: &[Placed]) -> Result<(), AllocError> {
    for (f, body) in all {
        place(code, *f, *body)?;
    }
    Ok(())
}

/// Returns the number of the fault of a code, or 0 if it is well-formed.
pub fn rejection_of(alloc: Global, code: Code) -> Result<u8, AllocError> {
    match verify(alloc, code) {
        Ok(_) => Ok(0),
        Err(e) => Ok(e.number()),
    }
}
