//! The code of a program with a parallel loop, with each instruction replaced by one of each kind: the verifier
//! rejects it, or it runs.

use cw_code::code::{BlockKind, Callee, Code, Func, Halves, Inner, Instr, UnaryOperator};
use cw_machine::alone::run_alone;
use cw_model::burden::{Burden, Edges};
use cw_model::syntax::{CallKind, Operator};
use cw_runnable::verified::Verified;
use cw_text::Fault;
use cw_verify::verify::verify;
use std::alloc::{AllocError, Global};
use std::process::Abort;
use std::sync::Arc;
use std::test::Fail;

// int main() { int a[4]; cilk_for (int i = 0; i < 4; i++) grain 2 over (a) { a[i] = i * i; } print(a[3]); return 0; }
const MAIN: [Instr; 10] = [
    Instr::Push(4),
    Instr::NewArray(0, 1),
    Instr::Push(0),
    Instr::Push(4),
    Instr::Start(WHOLE, 1),
    Instr::Push(3),
    Instr::Element(0, 1),
    Instr::Print,
    Instr::Push(0),
    Instr::ReturnValue,
];

// The function of its loop: a leaf of at most two iterations, or a cut in the middle and a call for each half.
const LOOP: [Instr; 44] = [
    Instr::Load(1),
    Instr::Load(0),
    Instr::Binary(Operator::Minus, 1),
    Instr::Push(2),
    Instr::Binary(Operator::AtMost, 1),
    Instr::SkipIfZero(21),
    Instr::Load(0),
    Instr::Store(2),
    Instr::Load(2),
    Instr::Load(1),
    Instr::Binary(Operator::Less, 1),
    Instr::SkipIfZero(14),
    Instr::Open(BlockKind::Scope),
    Instr::Load(2),
    Instr::Load(0),
    Instr::Binary(Operator::Minus, 1),
    Instr::Load(2),
    Instr::Load(2),
    Instr::Binary(Operator::Times, 1),
    Instr::SetElement(0, 1),
    Instr::Close,
    Instr::Load(2),
    Instr::Push(1),
    Instr::Binary(Operator::Plus, 1),
    Instr::Store(2),
    Instr::GoBack(17),
    Instr::Skip(19),
    Instr::Load(0),
    Instr::Load(1),
    Instr::Load(0),
    Instr::Binary(Operator::Minus, 1),
    Instr::Push(2),
    Instr::Binary(Operator::Divide, 1),
    Instr::Binary(Operator::Plus, 1),
    Instr::Store(2),
    Instr::Load(2),
    Instr::Load(0),
    Instr::Binary(Operator::Minus, 1),
    Instr::Cut(PARTS, 1),
    Instr::Load(0),
    Instr::Load(2),
    Instr::Recur(CallKind::Spawned, LEFT),
    Instr::Load(2),
    Instr::Load(1),
];

const LOOP_END: [Instr; 3] = [
    Instr::Recur(CallKind::Plain, RIGHT),
    Instr::EndCut,
    Instr::Return,
];

const WHOLE: Inner = Inner {
    function: 1,
    passed: 4,
};

const LEFT: Inner = Inner {
    function: 1,
    passed: 5,
};

const RIGHT: Inner = Inner {
    function: 1,
    passed: 6,
};

const PARTS: Halves = Halves {
    array: 0,
    left: 1,
    right: 2,
};

const CALLEE: Callee = Callee {
    function: 0,
    site: 0,
    line: 0,
    target: None,
    passed: 0,
    lent: 0,
};

const INNER: Inner = Inner {
    function: 0,
    passed: 0,
};

const HALVES: Halves = Halves {
    array: 0,
    left: 0,
    right: 0,
};

// One instruction of each kind, with 0 for each of its numbers.
const KINDS: [Instr; 32] = [
    Instr::Push(0),
    Instr::Load(0),
    Instr::Store(0),
    Instr::Unary(UnaryOperator::Negative, 0),
    Instr::Unary(UnaryOperator::Not, 0),
    Instr::Binary(Operator::Plus, 0),
    Instr::Binary(Operator::Divide, 0),
    Instr::Skip(0),
    Instr::SkipIfZero(0),
    Instr::GoBack(0),
    Instr::Call(CallKind::Plain, CALLEE),
    Instr::Call(CallKind::Spawned, CALLEE),
    Instr::Recur(CallKind::Plain, INNER),
    Instr::Recur(CallKind::Spawned, INNER),
    Instr::Start(INNER, 0),
    Instr::NewArray(0, 0),
    Instr::Length(0),
    Instr::Element(0, 0),
    Instr::SetElement(0, 0),
    Instr::ReadLength(0),
    Instr::ReadElement(0, 0),
    Instr::Cut(HALVES, 0),
    Instr::EndCut,
    Instr::Sync,
    Instr::Open(BlockKind::Scope),
    Instr::Open(BlockKind::Region(0)),
    Instr::Close,
    Instr::Print,
    Instr::Reduce(0),
    Instr::ReturnValue,
    Instr::Return,
    Instr::Skip(u32::MAX),
];

const FUNCS: [Func; 2] = [
    Func {
        start: 0,
        end: 10,
        gives_int: true,
        params: 0,
        slots: 0,
        array_params: 0,
        arrays: 1,
        readers: 0,
    },
    Func {
        start: 10,
        end: 57,
        gives_int: false,
        params: 2,
        slots: 3,
        array_params: 1,
        arrays: 3,
        readers: 0,
    },
];

// The lists of array slots: the empty ones that no call names, one for `main`, and two for the loop's function.
const LISTS: [&[u32]; 7] = [&[], &[], &[], &[], &[0], &[1], &[2]];

// Returns the instructions with `instr` at `place`.
fn instrs_with(alloc: Global, place: usize, instr: Instr) -> Result<Vec<Instr>, AllocError> {
    let mut instrs = Vec::new(alloc);
    instrs.extend_from_slice(&MAIN)?;
    instrs.extend_from_slice(&LOOP)?;
    instrs.extend_from_slice(&LOOP_END)?;
    if let Some(at) = instrs.get_mut(place) {
        *at = instr;
    }
    Ok(instrs)
}

fn funcs(alloc: Global) -> Result<Vec<Func>, AllocError> {
    let mut funcs = Vec::new(alloc);
    funcs.extend_from_slice(&FUNCS)?;
    Ok(funcs)
}

fn copies(alloc: Global, lists: &[&[u32]]) -> Result<Vec<Vec<u32>>, AllocError> {
    let mut copies = Vec::new(alloc);
    for list in lists {
        let mut copy = Vec::new(alloc);
        copy.extend_from_slice(list)?;
        copies.push(copy)?;
    }
    Ok(copies)
}

// Returns the code of the program with these instructions.
fn code(alloc: Global, instrs: Vec<Instr>) -> Result<Code, AllocError> {
    Ok(Code {
        instrs,
        funcs: funcs(alloc)?,
        main: 0,
        main_line: 1,
        sites: Vec::new(alloc),
        reducers: Vec::new(alloc),
        tags: Vec::new(alloc),
        passed: copies(alloc, &LISTS)?,
        lent: Vec::new(alloc),
    })
}

const NO_BURDEN: Burden = Burden {
    charge: 0,
    edges: Edges::Spawn,
};

// The outcome of a code.
#[derive(Clone, Copy, PartialEq, Eq)]
enum Came {
    // The verifier rejects it.
    Refused,
    // The code ran to its end and returned this value.
    Ended(i64),
    // The code ran and trapped, or exceeded its limit.
    Stopped,
    // There was not enough memory, or the run failed in a way that no run may.
    Failed,
}

// Returns the outcome of verified code.
fn run_of(alloc: Global, verified: Verified, limit: u64) -> Result<Came, AllocError> {
    let verified = Arc::new(alloc, verified)?;
    match run_alone(alloc, verified, &[], limit, NO_BURDEN) {
        Ok(ended) => Ok(Came::Ended(ended.value)),
        Err(Fault::OverLimit) | Err(Fault::Trap { .. }) => Ok(Came::Stopped),
        Err(_) => Ok(Came::Failed),
    }
}

// Returns the outcome of the code with `instr` at `place`, within this limit.
fn run_with(alloc: Global, place: usize, instr: Instr, limit: u64) -> Result<Came, AllocError> {
    let code = code(alloc, instrs_with(alloc, place, instr)?)?;
    match verify(alloc, code) {
        Ok(verified) => run_of(alloc, verified, limit),
        Err(Fault::Code) => Ok(Came::Refused),
        Err(_) => Ok(Came::Failed),
    }
}

// The unchanged code costs 136 instructions, and not one less.
#[test]
fn the_code_runs(rt: HostRuntime) -> Result<(), Fail> {
    let within = run_with(rt.alloc(), 0, Instr::Push(4), 136)?;
    let below = run_with(rt.alloc(), 0, Instr::Push(4), 135)?;
    assert!(rt; within == Came::Ended(0) && below == Came::Stopped);
    Ok(())
}

// A push replaces the instruction that prints. The element and the 9 remain at the return, which returns the 0 above
// them.
#[test]
fn operands_may_be_left_at_a_return(rt: HostRuntime) -> Result<(), Fail> {
    let left = run_with(rt.alloc(), 7, Instr::Push(9), 136)?;
    assert!(rt; left == Came::Ended(0));
    Ok(())
}

// Returns how many of these the verifier rejects at this place. Each of the others must run.
fn refused_at<R: Abort>(rt: &R, alloc: Global, place: usize, kinds: &[Instr]) -> Result<u32, Fail> {
    let mut refused: u32 = 0;
    for kind in kinds {
        let came = run_with(alloc, place, *kind, 100)?;
        assert!(rt; came != Came::Failed, "{place} {kind:?}");
        if came == Came::Refused {
            refused = refused.wrapping_add(1);
        }
    }
    Ok(refused)
}

// Returns how many of these the verifier rejects, over all places.
fn refused_anywhere<R: Abort>(rt: &R, alloc: Global, kinds: &[Instr]) -> Result<u32, Fail> {
    let mut refused: u32 = 0;
    for place in 0..57usize {
        refused = refused.wrapping_add(refused_at(rt, alloc, place, kinds)?);
    }
    Ok(refused)
}

// A jump past the end, a call without a site, a join with an operand, a return inside a block: most are not
// well-formed.
#[test]
fn each_instruction_replaced_is_refused_or_runs(rt: HostRuntime) -> Result<(), Fail> {
    let refused = refused_anywhere(&rt, rt.alloc(), &KINDS)?;
    assert!(rt; refused > 1000, "{refused}");
    Ok(())
}

// A function that does not exist, a list for another function, and a list that does not exist.
const NO_FUNCTION: Inner = Inner {
    function: 2,
    passed: 4,
};

const OTHER_LIST: Inner = Inner {
    function: 1,
    passed: 1,
};

const NO_LIST: Inner = Inner {
    function: 1,
    passed: 7,
};

// Places, and instructions that are not well-formed there.
const UNFIT: [(usize, Instr); 10] = [
    // a missing operand, an operand left at a join, a block that is not closed, a cut that is not ended
    (2, Instr::Sync),
    (7, Instr::Sync),
    (30, Instr::Load(0)),
    (55, Instr::Sync),
    (4, Instr::Start(NO_FUNCTION, 1)),
    (4, Instr::Start(OTHER_LIST, 1)),
    (4, Instr::Start(NO_LIST, 1)),
    // the right part is given to the left half and used again
    (51, Instr::Recur(CallKind::Spawned, RIGHT)),
    // a jump one past the end, and a jump into the other function
    (36, Instr::Skip(20)),
    (35, Instr::GoBack(26)),
];

fn all_are_rejected<R: Abort>(
    rt: &R,
    alloc: Global,
    replaced: &[(usize, Instr)],
) -> Result<(), Fail> {
    for (place, instr) in replaced {
        let came = run_with(alloc, *place, *instr, 100)?;
        assert!(rt; came == Came::Refused, "{place}");
    }
    Ok(())
}

#[test]
fn instructions_that_do_not_fit_are_refused(rt: HostRuntime) -> Result<(), Fail> {
    all_are_rejected(&rt, rt.alloc(), &UNFIT)
}
