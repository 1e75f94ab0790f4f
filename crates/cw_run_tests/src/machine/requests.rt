//! Arguments, limits and burdens that a run rejects.

use crate::machine::{MOST, Setting, code_in};
use cw_code::code::Instr;
use cw_machine::alone::run_alone;
use cw_machine::values::values_alone;
use cw_model::burden::{Burden, Edges};
use cw_runnable::verified::Verified;
use cw_text::Fault;
use std::alloc::Global;
use std::sync::Arc;

// A run of four instructions on one argument, with these arguments, this limit and this charge, and the number of its
// fault, or 0 if it finishes with its value.
#[derive(Clone, Copy)]
struct Request {
    name: &'static str,
    args: &'static [i64],
    limit: u64,
    charge: u64,
    number: u8,
}

static REQUESTS: [Request; 8] = [
    Request {
        name: "its argument and its cost",
        args: &[5],
        limit: 4,
        charge: 0,
        number: 0,
    },
    Request {
        name: "one instruction less",
        args: &[5],
        limit: 3,
        charge: 0,
        number: 7,
    },
    Request {
        name: "the greatest limit and charge",
        args: &[5],
        limit: MOST,
        charge: 1_000_000_000,
        number: 0,
    },
    Request {
        name: "no argument",
        args: &[],
        limit: 4,
        charge: 0,
        number: 11,
    },
    Request {
        name: "two arguments",
        args: &[5, 6],
        limit: 4,
        charge: 0,
        number: 11,
    },
    Request {
        name: "no instruction",
        args: &[5],
        limit: 0,
        charge: 0,
        number: 11,
    },
    Request {
        name: "one more than the greatest limit",
        args: &[5],
        limit: MOST + 1,
        charge: 0,
        number: 11,
    },
    Request {
        name: "one more than the greatest charge",
        args: &[5],
        limit: 4,
        charge: 1_000_000_001,
        number: 11,
    },
];

const BODY: &[Instr] = &[
    Instr::Load(0),
    Instr::Push(3),
    Instr::Reduce(0),
    Instr::ReturnValue,
];

impl Request {
    fn burden(&self) -> Burden {
        Burden {
            charge: self.charge,
            edges: Edges::Spawn,
        }
    }
}

// Returns the number of the fault of a run.
fn refusal(alloc: Global, code: Arc<Verified>, request: &Request) -> u8 {
    match run_alone(alloc, code, request.args, request.limit, request.burden()) {
        Ok(_) => 0,
        Err(fault) => fault.number(),
    }
}

// Returns the number of the fault of a run of values only.
fn plain_refusal(alloc: Global, code: Arc<Verified>, request: &Request) -> u8 {
    match values_alone(alloc, code, request.args, request.limit, request.burden()) {
        Ok(_) => 0,
        Err(fault) => fault.number(),
    }
}

// Returns whether both runs have this result.
fn is_answered(alloc: Global, request: &Request) -> Result<bool, Fault> {
    let code = code_in(alloc, Setting::Small, BODY)?;
    let counted = refusal(alloc, Arc::try_clone(&code)?, request);
    let plain = plain_refusal(alloc, code, request);
    Ok(counted == request.number && plain == request.number)
}

#[test]
fn requests(rt: HostRuntime) -> Result<(), Fault> {
    for request in &REQUESTS {
        assert!(rt; is_answered(rt.alloc(), request)?, "{}", request.name);
    }
    Ok(())
}
