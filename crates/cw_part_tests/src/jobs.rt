//! Jobs for the tests. Each is identified by its argument, and its effect by the number of arrays that come back,
//! which equals the argument.

use cw_code::code::{Code, Func, Instr};
use cw_jobs::effect::Effect;
use cw_jobs::job::Job;
use cw_model::burden::{Burden, Edges};
use cw_runnable::verified::Verified;
use cw_text::Fault;
use cw_verify::verify::verify;
use std::alloc::Global;
use std::sync::Arc;

const NO_BURDEN: Burden = Burden {
    charge: 0,
    edges: Edges::Spawn,
};

// Returns the code of a `main` that returns its argument and has `arrays` arrays.
fn same(alloc: Global, arrays: usize) -> Result<Arc<Verified>, Fault> {
    let mut code = Code {
        instrs: Vec::new(alloc),
        funcs: Vec::new(alloc),
        main: 0,
        main_line: 1,
        sites: Vec::new(alloc),
        reducers: Vec::new(alloc),
        tags: Vec::new(alloc),
        passed: Vec::new(alloc),
        lent: Vec::new(alloc),
    };
    code.instrs
        .extend_from_slice(&[Instr::Load(0), Instr::ReturnValue])?;
    code.funcs.push(Func {
        start: 0,
        end: 2,
        gives_int: true,
        params: 1,
        slots: 1,
        array_params: 0,
        arrays,
        readers: 0,
    })?;
    let verified = verify(alloc, code)?;
    Ok(Arc::new(alloc, verified)?)
}

// Returns the job of a run on this argument, with the same number of arrays.
pub fn job(alloc: Global, arg: u16) -> Result<Job, Fault> {
    let code = same(alloc, arg as usize)?;
    Job::root(alloc, code, &[arg as i64], 1000, NO_BURDEN)
}

// Returns the argument of a job.
pub fn argument(job: &Job) -> i64 {
    match job.parts.rest.cells.first() {
        Some(x) => *x,
        None => 0,
    }
}

// Returns the number of arrays that came back from a job that was given up, 0 for any other effect.
pub fn value(effect: &Effect) -> i64 {
    match effect {
        Effect::GivenUp { back } => i64::try_from(back.len()).unwrap_or(0),
        _ => 0,
    }
}
