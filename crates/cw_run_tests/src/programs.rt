//! Programs as hand-written code.

use cw_code::code::{Callee, Code, Func, Instr, Reducer, Site};
use cw_model::syntax::{CallKind, Name, Reduction};
use cw_runnable::verified::Verified;
use cw_text::Fault;
use cw_verify::verify::verify;
use std::alloc::{AllocError, Global};
use std::sync::Arc;

/// A function of code: whether it returns a value, its integer parameters and slots, its array parameters and slots,
/// and its instructions.
#[derive(Clone, Copy)]
pub(crate) struct Part {
    pub(crate) gives_int: bool,
    pub(crate) params: usize,
    pub(crate) slots: usize,
    pub(crate) array_params: usize,
    pub(crate) arrays: usize,
    pub(crate) body: &'static [Instr],
}

/// A program without the instructions of its `main`: a `main` with none, the functions after it, the lists of array
/// slots that its calls take, its reducers and its tags. Each function has a plain and a spawned site, numbered from
/// 1.
#[derive(Clone, Copy)]
pub(crate) struct Around {
    pub(crate) main: Part,
    pub(crate) others: &'static [Part],
    pub(crate) passed: &'static [&'static [u32]],
    pub(crate) reducers: &'static [(&'static str, Reduction)],
    pub(crate) tags: &'static [&'static str],
}

/// A call of the second function at its plain site, which drops the result and passes the first list.
pub(crate) const CALLED: Callee = Callee {
    function: 1,
    site: 3,
    line: 9,
    target: None,
    passed: 0,
    lent: 0,
};

/// A call of the second function at its spawned site, which drops the result and passes the first list.
pub(crate) const SPAWNED: Callee = Callee { site: 4, ..CALLED };

// Adds a function with these instructions after the existing ones.
fn place(code: &mut Code, part: &Part, body: &[Instr]) -> Result<(), AllocError> {
    let start = code.instrs.len();
    code.instrs.extend_from_slice(body)?;
    code.funcs.push(Func {
        start,
        end: code.instrs.len(),
        gives_int: part.gives_int,
        params: part.params,
        slots: part.slots,
        array_params: part.array_params,
        arrays: part.arrays,
        readers: 0,
    })?;
    Ok(())
}

// Adds these functions.
fn place_parts(code: &mut Code, parts: &[Part]) -> Result<(), AllocError> {
    for part in parts {
        place(code, part, part.body)?;
    }
    Ok(())
}

// Adds a site of a function after the existing ones.
fn place_site(
    alloc: Global,
    code: &mut Code,
    kind: CallKind,
    function: u32,
    number: u32,
) -> Result<(), AllocError> {
    code.sites.push(Site {
        number,
        kind,
        line: 1,
        callee: Name::new(alloc, b"")?,
        function,
    })?;
    Ok(())
}

// Adds the sites of this number of functions.
fn place_sites(alloc: Global, code: &mut Code, functions: u32) -> Result<(), AllocError> {
    for function in 0..functions {
        let before = function.wrapping_mul(2);
        place_site(
            alloc,
            code,
            CallKind::Plain,
            function,
            before.wrapping_add(1),
        )?;
        place_site(
            alloc,
            code,
            CallKind::Spawned,
            function,
            before.wrapping_add(2),
        )?;
    }
    Ok(())
}

/// Adds these tags to code.
pub(crate) fn place_tags(alloc: Global, code: &mut Code, texts: &[&str]) -> Result<(), AllocError> {
    for text in texts {
        code.tags.push(Name::new(alloc, text.as_bytes())?)?;
    }
    Ok(())
}

/// Adds these reducers to code.
pub(crate) fn place_reducers(
    alloc: Global,
    code: &mut Code,
    told: &[(&str, Reduction)],
) -> Result<(), AllocError> {
    for (text, how) in told {
        code.reducers.push(Reducer {
            name: Name::new(alloc, text.as_bytes())?,
            how: *how,
        })?;
    }
    Ok(())
}

// Adds these lists of array slots.
fn place_lists(alloc: Global, code: &mut Code, lists: &[&[u32]]) -> Result<(), AllocError> {
    for list in lists {
        code.passed.push(Vec::from_slice(alloc, list)?)?;
    }
    Ok(())
}

/// Returns empty code, whose `main` is in this line.
pub(crate) fn empty_code(alloc: Global, main_line: u32) -> Code {
    Code {
        instrs: Vec::new(alloc),
        funcs: Vec::new(alloc),
        main: 0,
        main_line,
        sites: Vec::new(alloc),
        reducers: Vec::new(alloc),
        tags: Vec::new(alloc),
        passed: Vec::new(alloc),
        lent: Vec::new(alloc),
    }
}

// Adds all parts of a program whose `main` has these instructions.
fn place_all(
    alloc: Global,
    code: &mut Code,
    around: &Around,
    body: &[Instr],
) -> Result<(), AllocError> {
    let others = u32::try_from(around.others.len()).unwrap_or(0);
    place(code, &around.main, body)?;
    place_parts(code, around.others)?;
    place_sites(alloc, code, others.wrapping_add(1))?;
    place_reducers(alloc, code, around.reducers)?;
    place_tags(alloc, code, around.tags)?;
    place_lists(alloc, code, around.passed)
}

// Returns the code of a program whose `main` has these instructions.
fn code_of(alloc: Global, around: &Around, body: &[Instr]) -> Result<Code, AllocError> {
    let mut code = empty_code(alloc, 1);
    place_all(alloc, &mut code, around, body)?;
    Ok(code)
}

/// Returns the verified code of a program whose `main` has these instructions.
pub(crate) fn verified_of(
    alloc: Global,
    around: &Around,
    body: &[Instr],
) -> Result<Arc<Verified>, Fault> {
    let verified = verify(alloc, code_of(alloc, around, body)?)?;
    Ok(Arc::new(alloc, verified)?)
}
