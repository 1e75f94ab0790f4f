//! Which small codes are well-formed that lend arrays to calls which read them.

use crate::verify::codes::{
    Frame, GIVING, NOTHING, Placed, add_frame, end_function, no_code, place, place_all,
    rejection_of,
};
use Step::{Call, CallOnTwo, Cut, Just, Pass, Spawn, SpawnPassed, Start, TakeOne};
use cw_code::code::{BlockKind, Callee, Code, Func, Halves, Inner, Instr, Loan};
use cw_model::syntax::CallKind;
use cw_runnable::op::Op;
use cw_runnable::verified::Verified;
use cw_verify::verify::verify;
use std::alloc::{AllocError, Global};

/// An instruction of a function. Lists of loans are named by their index in the code.
#[derive(Clone, Copy)]
enum Step {
    /// This instruction.
    Just(Instr),
    /// A plain call of function 2, which is lent the arrays of a list.
    Call(u32),
    /// A spawn of function 2, which is lent the arrays of a list.
    Spawn(u32),
    /// A plain call of function 3, which is lent the arrays of a list.
    CallOnTwo(u32),
    /// Function 4 takes the first array, and is lent the arrays of a list.
    TakeOne(u32),
    /// A plain call of function 5, which takes the first array.
    Pass,
    /// A spawn of function 5, which takes the first array.
    SpawnPassed,
    /// Cuts the array of a slot into two slots.
    Cut(u32, u32, u32),
    /// The first call of a loop's function, without arrays.
    Start(u32),
}

fn call(kind: CallKind, function: u32, site: u32, passed: u32, lent: u32) -> Instr {
    let callee = Callee {
        function,
        site,
        line: 9,
        target: None,
        passed,
        lent,
    };
    Instr::Call(kind, callee)
}

fn instr(step: Step) -> Instr {
    match step {
        Just(instr) => instr,
        Call(lent) => call(CallKind::Plain, 2, 1, 0, lent),
        Spawn(lent) => call(CallKind::Spawned, 2, 2, 0, lent),
        CallOnTwo(lent) => call(CallKind::Plain, 3, 3, 0, lent),
        TakeOne(lent) => call(CallKind::Plain, 4, 4, 1, lent),
        Pass => call(CallKind::Plain, 5, 5, 1, NONE),
        SpawnPassed => call(CallKind::Spawned, 5, 6, 1, NONE),
        Cut(array, left, right) => Instr::Cut(Halves { array, left, right }, 9),
        Start(function) => {
            let passed = 0;
            Instr::Start(Inner { function, passed }, 9)
        }
    }
}

fn push_all(instrs: &mut Vec<Instr>, steps: &[Step]) -> Result<(), AllocError> {
    for step in steps {
        instrs.push(instr(*step))?;
    }
    Ok(())
}

/// Adds a function after the existing instructions.
fn place_steps(code: &mut Code, f: Func, steps: &[Step]) -> Result<(), AllocError> {
    let start = code.instrs.len();
    push_all(&mut code.instrs, steps)?;
    end_function(code, f, start)
}

const ONE: Step = Just(Instr::Push(1));

const END: Step = Just(Instr::ReturnValue);

const OPEN: Step = Just(Instr::Open(BlockKind::Scope));

const CLOSE: Step = Just(Instr::Close);

const SYNC: Step = Just(Instr::Sync);

/// Loads the integer parameter.
const TEST: Step = Just(Instr::Load(0));

/// Pushes the length of the array parameter.
const LENGTH: Step = Just(Instr::Length(0));

/// Writes an element of the array parameter.
const SET: Step = Just(Instr::SetElement(0, 9));

/// Cuts the array parameter.
const HALVE: Step = Cut(0, 1, 2);

const END_CUT: Step = Just(Instr::EndCut);

/// Pushes the length of the lent array.
const READ_LENGTH: Step = Just(Instr::ReadLength(0));

// Lists of loans, by their index in the code.
const NONE: u32 = 0;

const FIRST: u32 = 1;

const SECOND: u32 = 2;

const BOTH: u32 = 3;

const TWICE: u32 = 4;

const MISSING: u32 = 5;

const READER: u32 = 6;

const NO_READER: u32 = 7;

const MIXED: u32 = 8;

const NO_LIST: u32 = 9;

static FRAME: Frame = Frame {
    sites: &[
        (CallKind::Plain, 2),
        (CallKind::Spawned, 2),
        (CallKind::Plain, 3),
        (CallKind::Plain, 4),
        (CallKind::Plain, 5),
        (CallKind::Spawned, 5),
    ],
    passed: &[&[], &[0]],
    lent: &[
        &[],
        &[Loan::Array(0)],
        &[Loan::Array(1)],
        &[Loan::Array(0), Loan::Array(1)],
        &[Loan::Array(0), Loan::Array(0)],
        &[Loan::Array(5)],
        &[Loan::Reader(0)],
        &[Loan::Reader(1)],
        &[Loan::Array(0), Loan::Reader(0)],
    ],
};

static GIVES: [Instr; 2] = [Instr::Push(1), Instr::ReturnValue];

/// A function that reads an array and returns an integer.
const READING: Func = Func {
    readers: 1,
    ..GIVING
};

/// Function 2 reads an array and returns an integer, function 3 reads two arrays, function 4 takes an array and reads
/// one, function 5 takes one, functions 6 and 7 take two integers, and function 7 also reads an array.
static OTHERS: [Placed; 6] = [
    (READING, &[Instr::ReadLength(0), Instr::ReturnValue]),
    (
        Func {
            readers: 2,
            ..NOTHING
        },
        &[Instr::Return],
    ),
    (
        Func {
            array_params: 1,
            arrays: 1,
            readers: 1,
            ..NOTHING
        },
        &[Instr::Return],
    ),
    (
        Func {
            array_params: 1,
            arrays: 1,
            ..NOTHING
        },
        &[Instr::Return],
    ),
    (
        Func {
            params: 2,
            slots: 2,
            ..NOTHING
        },
        &[Instr::Return],
    ),
    (
        Func {
            params: 2,
            slots: 2,
            readers: 1,
            ..NOTHING
        },
        &[Instr::Return],
    ),
];

/// One integer parameter with two slots, one array parameter with five slots, and one lent array.
const TRIED: Func = Func {
    params: 1,
    slots: 2,
    array_params: 1,
    arrays: 5,
    readers: 1,
    ..GIVING
};

fn place_tried(alloc: Global, code: &mut Code, steps: &[Step]) -> Result<(), AllocError> {
    add_frame(alloc, code, &FRAME)?;
    place(code, GIVING, &GIVES)?;
    place_steps(code, TRIED, steps)?;
    place_all(code, &OTHERS)
}

/// Returns the number of the fault of code with a function of this body after its `main`, or 0 if it is well-formed.
fn refusal(alloc: Global, steps: &[Step]) -> Result<u8, AllocError> {
    let mut code = no_code(alloc);
    place_tried(alloc, &mut code, steps)?;
    rejection_of(alloc, code)
}

/// The body of such a function, and the number of its fault, or 0 if it is well-formed.
type Case = (&'static [Step], u8);

/// Returns the index of the first case with another result.
fn wrong_case(alloc: Global, cases: &[Case]) -> Result<Option<usize>, AllocError> {
    for (k, (steps, number)) in cases.iter().enumerate() {
        if refusal(alloc, *steps)? != *number {
            return Ok(Some(k));
        }
    }
    Ok(None)
}

static ELEMENTS: [Case; 5] = [
    (&[READ_LENGTH, END], 0),
    (&[Just(Instr::ReadLength(1)), END], 6),
    (&[ONE, Just(Instr::ReadElement(0, 9)), END], 0),
    (&[ONE, Just(Instr::ReadElement(1, 9)), END], 6),
    (&[Just(Instr::ReadElement(0, 9)), END], 6),
];

#[test]
fn elements(rt: HostRuntime) -> Result<(), AllocError> {
    assert_eq!(rt; wrong_case(rt.alloc(), &ELEMENTS)?, None);
    Ok(())
}

#[test]
fn a_main_that_reads_an_array(rt: HostRuntime) -> Result<(), AllocError> {
    let mut code = no_code(rt.alloc());
    place(&mut code, READING, &GIVES)?;
    assert_eq!(rt; rejection_of(rt.alloc(), code)?, 6);
    Ok(())
}

static LOANS: [Case; 16] = [
    (&[Call(FIRST), ONE, END], 0),
    (&[Call(READER), ONE, END], 0),
    // too few, too many, one that does not exist
    (&[Call(NONE), ONE, END], 6),
    (&[Call(BOTH), ONE, END], 6),
    (&[Call(MISSING), ONE, END], 6),
    (&[Call(NO_READER), ONE, END], 6),
    (&[Call(NO_LIST), ONE, END], 6),
    (&[CallOnTwo(BOTH), ONE, END], 0),
    // one array twice, and together with a lent one
    (&[CallOnTwo(TWICE), ONE, END], 0),
    (&[CallOnTwo(MIXED), ONE, END], 0),
    // an array that the call also takes, also if never reached
    (&[TakeOne(SECOND), ONE, END], 0),
    (&[TakeOne(READER), ONE, END], 0),
    (&[TakeOne(FIRST), ONE, END], 6),
    (&[ONE, END, TakeOne(FIRST), ONE, END], 6),
    // a loop's function is lent nothing
    (&[ONE, ONE, Start(6), ONE, END], 0),
    (&[ONE, ONE, Start(7), ONE, END], 6),
];

#[test]
fn loans(rt: HostRuntime) -> Result<(), AllocError> {
    assert_eq!(rt; wrong_case(rt.alloc(), &LOANS)?, None);
    Ok(())
}

static FROZEN: [Case; 15] = [
    // read in parallel with the call, and lent again
    (&[Spawn(FIRST), LENGTH, END], 0),
    (&[Spawn(FIRST), ONE, Just(Instr::Element(0, 9)), END], 0),
    (&[Spawn(FIRST), Spawn(FIRST), ONE, END], 0),
    (&[Spawn(FIRST), Call(FIRST), ONE, END], 0),
    (&[Spawn(READER), READ_LENGTH, END], 0),
    // written, made anew, cut, replaced by a part, passed
    (&[Spawn(FIRST), ONE, ONE, SET, ONE, END], 6),
    (
        &[Spawn(SECOND), ONE, Just(Instr::NewArray(1, 9)), ONE, END],
        6,
    ),
    (&[Spawn(FIRST), ONE, HALVE, END_CUT, ONE, END], 6),
    (&[Spawn(SECOND), ONE, HALVE, END_CUT, ONE, END], 6),
    (&[Spawn(FIRST), Pass, ONE, END], 6),
    (&[Spawn(FIRST), SpawnPassed, ONE, END], 6),
    // passed first
    (&[SpawnPassed, Spawn(FIRST), ONE, END], 6),
    // another array, after a plain call, and after the join
    (&[Spawn(SECOND), ONE, ONE, SET, ONE, END], 0),
    (&[Call(FIRST), ONE, ONE, SET, ONE, END], 0),
    (&[Spawn(FIRST), SYNC, ONE, ONE, SET, ONE, END], 0),
];

#[test]
fn frozen(rt: HostRuntime) -> Result<(), AllocError> {
    assert_eq!(rt; wrong_case(rt.alloc(), &FROZEN)?, None);
    Ok(())
}

/// Jumps over a spawn.
const PAST: Step = Just(Instr::SkipIfZero(1));

static BLOCKS: [Case; 10] = [
    // its own block joins it, and no other
    (&[OPEN, Spawn(FIRST), CLOSE, ONE, ONE, SET, ONE, END], 0),
    (&[Spawn(FIRST), OPEN, ONE, ONE, SET, CLOSE, ONE, END], 6),
    (&[Spawn(FIRST), OPEN, CLOSE, ONE, ONE, SET, ONE, END], 6),
    (
        &[Spawn(FIRST), OPEN, CLOSE, SYNC, ONE, ONE, SET, ONE, END],
        0,
    ),
    // in one branch
    (&[TEST, PAST, Spawn(FIRST), ONE, ONE, SET, ONE, END], 6),
    (&[TEST, PAST, Spawn(FIRST), LENGTH, END], 0),
    // after the next iteration of a loop
    (&[ONE, ONE, SET, Spawn(FIRST), Just(Instr::GoBack(4))], 6),
    (&[Spawn(FIRST), Just(Instr::GoBack(1))], 0),
    // a part of a cut, which the end of the cut joins, and the array that is cut
    (&[ONE, HALVE, Spawn(SECOND), END_CUT, ONE, END], 0),
    (&[ONE, HALVE, Spawn(FIRST), END_CUT, ONE, END], 6),
];

#[test]
fn blocks(rt: HostRuntime) -> Result<(), AllocError> {
    assert_eq!(rt; wrong_case(rt.alloc(), &BLOCKS)?, None);
    Ok(())
}

/// A function with three array slots and two lent arrays.
const READING_TWO: Func = Func {
    arrays: 3,
    readers: 2,
    ..GIVING
};

fn place_reading_two(code: &mut Code, number: u32) -> Result<(), AllocError> {
    place(code, GIVING, &GIVES)?;
    place_steps(code, READING_TWO, &[Just(Instr::ReadLength(number)), END])
}

/// Returns the array slot that the third instruction of verified code reads, and the numbers of lent arrays of its
/// function and of `main`; zeros if it is no such instruction.
fn read_in(code: &Verified) -> (u32, usize, usize) {
    match code.ops.get(2) {
        Some(Op::Length(_, slot)) => (*slot, code.readers_at(2), code.readers_at(1)),
        _ => (0, 0, 0),
    }
}

/// Returns `read_in` for such a function that reads this lent array, after a `main` that reads none.
fn slot_of(alloc: Global, number: u32) -> Result<(u32, usize, usize), AllocError> {
    let mut code = no_code(alloc);
    place_reading_two(&mut code, number)?;
    match verify(alloc, code) {
        Ok(code) => Ok(read_in(&code)),
        Err(_) => Ok((0, 0, 0)),
    }
}

/// The number of a lent array, and the expected result of `slot_of`.
static SLOTS: [(u32, (u32, usize, usize)); 3] = [(0, (4, 2, 0)), (1, (3, 2, 0)), (2, (0, 0, 0))];

#[test]
fn slots(rt: HostRuntime) -> Result<(), AllocError> {
    for (number, wanted) in &SLOTS {
        assert!(rt; slot_of(rt.alloc(), *number)? == *wanted, "number {number}");
    }
    Ok(())
}

fn place_two(code: &mut Code, f: Func) -> Result<(), AllocError> {
    place(code, GIVING, &GIVES)?;
    place(code, f, &GIVES)
}

/// Returns the number of the fault of a function with these numbers of array slots and lent arrays, which uses none.
fn rejection_of_many(alloc: Global, arrays: usize, readers: usize) -> Result<u8, AllocError> {
    let mut code = no_code(alloc);
    let f = Func {
        arrays,
        readers,
        ..GIVING
    };
    place_two(&mut code, f)?;
    rejection_of(alloc, code)
}

/// The array slots of a function, its lent arrays, and the number of its fault.
static MANY: [(usize, usize, u8); 8] = [
    (0, 4_294_967_296, 0),
    (1, 4_294_967_295, 0),
    // more than have numbers
    (0, 4_294_967_297, 6),
    (1, 4_294_967_296, 6),
    (4_294_967_296, 1, 6),
    (4_294_967_297, 0, 6),
    // more than a count can hold
    (1, 18_446_744_073_709_551_615, 6),
    (18_446_744_073_709_551_615, 18_446_744_073_709_551_615, 6),
];

#[test]
fn many(rt: HostRuntime) -> Result<(), AllocError> {
    for (k, (arrays, readers, number)) in MANY.iter().enumerate() {
        let refused = rejection_of_many(rt.alloc(), *arrays, *readers)?;
        assert_eq!(rt; refused, *number, "row {k}");
    }
    Ok(())
}
