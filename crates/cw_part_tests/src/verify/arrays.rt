//! Which small codes with arrays, cuts and loops are well-formed, and that a code of the maximum size is, by hand.

use crate::verify::codes::{
    Frame, GIVING, NOTHING, Placed, add_frame, end_function, no_code, place, place_all,
    rejection_of,
};
use Step::{Call, CallOnTwo, Cut, Just, Recur, Spawn, Start};
use cw_code::code::{BlockKind, Callee, Code, Func, Halves, Inner, Instr};
use cw_model::syntax::CallKind;
use std::alloc::{AllocError, Global};

/// An instruction of a function. Lists of array slots are named by their index in the code.
#[derive(Clone, Copy)]
enum Step {
    /// This instruction.
    Just(Instr),
    /// A plain call of function 2, with the arrays of a list.
    Call(u32),
    /// A spawn of function 2, with the arrays of a list.
    Spawn(u32),
    /// A plain call of function 3, with the arrays of a list.
    CallOnTwo(u32),
    /// Cuts the array of a slot into two slots.
    Cut(u32, u32, u32),
    /// The first call of a loop's function, with the arrays of a list.
    Start(u32, u32),
    /// A recursive call of function 4, with the arrays of a list.
    Recur(CallKind, u32),
}

fn call(kind: CallKind, function: u32, site: u32, passed: u32) -> Instr {
    let callee = Callee {
        function,
        site,
        line: 9,
        target: None,
        passed,
        lent: 0,
    };
    Instr::Call(kind, callee)
}

fn instr(step: Step) -> Instr {
    match step {
        Just(instr) => instr,
        Call(passed) => call(CallKind::Plain, 2, 1, passed),
        Spawn(passed) => call(CallKind::Spawned, 2, 2, passed),
        CallOnTwo(passed) => call(CallKind::Plain, 3, 3, passed),
        Cut(array, left, right) => Instr::Cut(Halves { array, left, right }, 9),
        Start(function, passed) => Instr::Start(Inner { function, passed }, 9),
        Recur(kind, passed) => {
            let function = 4;
            Instr::Recur(kind, Inner { function, passed })
        }
    }
}

fn push_all(instrs: &mut Vec<Instr>, steps: &[Step]) -> Result<(), AllocError> {
    for step in steps {
        instrs.push(instr(*step))?;
    }
    Ok(())
}

/// Adds a function after the existing instructions.
fn place_steps(code: &mut Code, f: Func, steps: &[Step]) -> Result<(), AllocError> {
    let start = code.instrs.len();
    push_all(&mut code.instrs, steps)?;
    end_function(code, f, start)
}

const ONE: Step = Just(Instr::Push(1));

const END: Step = Just(Instr::ReturnValue);

const OPEN: Step = Just(Instr::Open(BlockKind::Scope));

const CLOSE: Step = Just(Instr::Close);

const SYNC: Step = Just(Instr::Sync);

/// Pushes the length of the array parameter.
const LENGTH: Step = Just(Instr::Length(0));

/// Writes an element of the array parameter.
const SET: Step = Just(Instr::SetElement(0, 9));

/// Makes a new array in the slot after the array parameter.
const NEW: Step = Just(Instr::NewArray(1, 9));

/// Cuts the array parameter.
const HALVE: Step = Cut(0, 1, 2);

const END_CUT: Step = Just(Instr::EndCut);

// Lists of array slots, by their index in the code.
const NONE: u32 = 0;

const FIRST: u32 = 1;

const SECOND: u32 = 2;

const BOTH: u32 = 3;

const TWICE: u32 = 4;

const MISSING: u32 = 5;

const NO_LIST: u32 = 6;

static FRAME: Frame = Frame {
    sites: &[
        (CallKind::Plain, 2),
        (CallKind::Spawned, 2),
        (CallKind::Plain, 3),
        (CallKind::Spawned, 3),
    ],
    passed: &[&[], &[0], &[1], &[0, 1], &[0, 0], &[5]],
    lent: &[],
};

static GIVES: [Instr; 2] = [Instr::Push(1), Instr::ReturnValue];

/// A function that takes an array and returns an integer.
const OF_ONE: Func = Func {
    array_params: 1,
    arrays: 1,
    ..GIVING
};

/// Function 2 takes an array and returns an integer, function 3 takes two arrays and returns nothing, function 4
/// takes two integers and an array, function 5 only an integer, function 6 two integers.
static OTHERS: [Placed; 5] = [
    (OF_ONE, &[Instr::Length(0), Instr::ReturnValue]),
    (
        Func {
            array_params: 2,
            arrays: 2,
            ..NOTHING
        },
        &[Instr::Return],
    ),
    (
        Func {
            params: 2,
            slots: 2,
            array_params: 1,
            arrays: 1,
            ..NOTHING
        },
        &[Instr::Return],
    ),
    (
        Func {
            params: 1,
            slots: 1,
            ..NOTHING
        },
        &[Instr::Return],
    ),
    (
        Func {
            params: 2,
            slots: 2,
            ..NOTHING
        },
        &[Instr::Return],
    ),
];

/// One integer parameter with two slots and one array parameter with five slots.
const TRIED: Func = Func {
    params: 1,
    slots: 2,
    array_params: 1,
    arrays: 5,
    ..GIVING
};

/// The body of such a function, and the number of the fault of code with it after its `main`, or 0 if it is
/// well-formed.
type Case = (&'static [Step], u8);

fn place_tried(alloc: Global, code: &mut Code, f: Func, steps: &[Step]) -> Result<(), AllocError> {
    add_frame(alloc, code, &FRAME)?;
    place(code, GIVING, &GIVES)?;
    place_steps(code, f, steps)?;
    place_all(code, &OTHERS)
}

fn refusal(alloc: Global, f: Func, steps: &[Step]) -> Result<u8, AllocError> {
    let mut code = no_code(alloc);
    place_tried(alloc, &mut code, f, steps)?;
    rejection_of(alloc, code)
}

/// Returns the index of the first case with another result.
fn wrong_case(alloc: Global, cases: &[Case]) -> Result<Option<usize>, AllocError> {
    for (k, (steps, number)) in cases.iter().enumerate() {
        if refusal(alloc, TRIED, *steps)? != *number {
            return Ok(Some(k));
        }
    }
    Ok(None)
}

static PARAMETERS: [(Func, u8); 2] = [
    (OF_ONE, 0),
    // more array parameters than slots
    (
        Func {
            array_params: 2,
            arrays: 1,
            ..GIVING
        },
        6,
    ),
];

#[test]
fn parameters(rt: HostRuntime) -> Result<(), AllocError> {
    for (k, (f, number)) in PARAMETERS.iter().enumerate() {
        assert_eq!(rt; refusal(rt.alloc(), *f, &[ONE, END])?, *number, "row {k}");
    }
    Ok(())
}

#[test]
fn a_main_of_an_array(rt: HostRuntime) -> Result<(), AllocError> {
    let mut code = no_code(rt.alloc());
    place(&mut code, OF_ONE, &GIVES)?;
    assert_eq!(rt; rejection_of(rt.alloc(), code)?, 6);
    Ok(())
}

static SLOTS: [Case; 13] = [
    (&[LENGTH, END], 0),
    (&[Just(Instr::Length(5)), END], 6),
    (&[ONE, Just(Instr::Element(4, 9)), END], 0),
    (&[ONE, Just(Instr::Element(5, 9)), END], 6),
    (&[Just(Instr::Element(0, 9)), END], 6),
    (&[ONE, ONE, SET, ONE, END], 0),
    (&[ONE, ONE, Just(Instr::SetElement(5, 9)), ONE, END], 6),
    (&[ONE, SET, ONE, END], 6),
    (&[ONE, NEW, ONE, END], 0),
    (&[ONE, Just(Instr::NewArray(5, 9)), ONE, END], 6),
    (&[NEW, ONE, END], 6),
    // an array is not an operand
    (&[ONE, NEW, END], 6),
    // into a parameter
    (&[ONE, Just(Instr::NewArray(0, 9)), ONE, END], 6),
];

#[test]
fn slots(rt: HostRuntime) -> Result<(), AllocError> {
    assert_eq!(rt; wrong_case(rt.alloc(), &SLOTS)?, None);
    Ok(())
}

static LISTS: [Case; 11] = [
    (&[Call(FIRST), ONE, END], 0),
    (&[Call(SECOND), ONE, END], 0),
    // too few arrays, too many, a slot that does not exist
    (&[Call(NONE), ONE, END], 6),
    (&[Call(BOTH), ONE, END], 6),
    (&[Call(MISSING), ONE, END], 6),
    // a list that does not exist has no slot
    (&[Call(NO_LIST), ONE, END], 6),
    (&[ONE, ONE, Start(6, NO_LIST), ONE, END], 0),
    (&[CallOnTwo(BOTH), ONE, END], 0),
    // an array twice, also if never reached
    (&[CallOnTwo(TWICE), ONE, END], 6),
    (&[ONE, END, CallOnTwo(TWICE), ONE, END], 6),
    (&[CallOnTwo(FIRST), ONE, END], 6),
];

#[test]
fn lists(rt: HostRuntime) -> Result<(), AllocError> {
    assert_eq!(rt; wrong_case(rt.alloc(), &LISTS)?, None);
    Ok(())
}

static SPAWNS: [Case; 14] = [
    (&[Call(FIRST), LENGTH, END], 0),
    // an array that a spawn has taken
    (&[Spawn(FIRST), LENGTH, END], 6),
    (&[Spawn(FIRST), ONE, Just(Instr::Element(0, 9)), END], 6),
    (&[Spawn(FIRST), ONE, ONE, SET, ONE, END], 6),
    (&[Spawn(SECOND), ONE, NEW, ONE, END], 6),
    (&[Spawn(FIRST), Spawn(FIRST), ONE, END], 6),
    (&[Spawn(FIRST), Call(FIRST), ONE, END], 6),
    (&[Spawn(FIRST), ONE, HALVE, END_CUT, ONE, END], 6),
    // another array, and after the join
    (&[Spawn(FIRST), Spawn(SECOND), ONE, END], 0),
    (&[Spawn(FIRST), SYNC, LENGTH, END], 0),
    // its own block joins it, and no other
    (&[OPEN, Spawn(FIRST), CLOSE, LENGTH, END], 0),
    (&[Spawn(FIRST), OPEN, CLOSE, LENGTH, END], 6),
    (&[Spawn(FIRST), OPEN, CLOSE, SYNC, LENGTH, END], 0),
    // an operand is left
    (&[ONE, Spawn(FIRST), END], 6),
];

#[test]
fn spawns(rt: HostRuntime) -> Result<(), AllocError> {
    assert_eq!(rt; wrong_case(rt.alloc(), &SPAWNS)?, None);
    Ok(())
}

const STORE: Step = Just(Instr::Store(1));

/// Pushes the length of the left part of `HALVE`.
const LENGTH_OF_PART: Step = Just(Instr::Length(1));

static CUTS: [Case; 15] = [
    (&[ONE, HALVE, END_CUT, ONE, END], 0),
    (&[HALVE, END_CUT, ONE, END], 6),
    // left open: at a return, and at a jump back
    (&[ONE, HALVE, ONE, END], 6),
    (&[ONE, HALVE, Just(Instr::GoBack(2))], 6),
    (&[ONE, HALVE, END_CUT, Just(Instr::GoBack(3))], 0),
    // an end of another kind, and with nothing open
    (&[ONE, HALVE, CLOSE, ONE, END], 6),
    (&[OPEN, END_CUT, ONE, END], 6),
    (&[END_CUT, ONE, END], 6),
    // an operand is left
    (&[ONE, HALVE, ONE, END_CUT, END], 6),
    // the array while it is cut, a part of it, and the array afterwards
    (&[ONE, HALVE, LENGTH, STORE, END_CUT, ONE, END], 6),
    (&[ONE, HALVE, LENGTH_OF_PART, STORE, END_CUT, ONE, END], 0),
    (&[ONE, HALVE, END_CUT, LENGTH, END], 0),
    (&[ONE, HALVE, Call(SECOND), END_CUT, ONE, END], 0),
    // the end of the cut joins the call that has a part; after it, the part is there
    (&[ONE, HALVE, Spawn(SECOND), END_CUT, ONE, END], 0),
    (
        &[ONE, HALVE, Spawn(SECOND), END_CUT, LENGTH_OF_PART, END],
        0,
    ),
];

#[test]
fn cuts(rt: HostRuntime) -> Result<(), AllocError> {
    assert_eq!(rt; wrong_case(rt.alloc(), &CUTS)?, None);
    Ok(())
}

static PARTS: [Case; 13] = [
    // slots that do not exist, or are not distinct
    (&[ONE, Cut(5, 1, 2), END_CUT, ONE, END], 6),
    (&[ONE, Cut(0, 5, 2), END_CUT, ONE, END], 6),
    (&[ONE, Cut(0, 1, 5), END_CUT, ONE, END], 6),
    (&[ONE, Cut(1, 1, 2), END_CUT, ONE, END], 6),
    (&[ONE, Cut(1, 2, 1), END_CUT, ONE, END], 6),
    (&[ONE, Cut(0, 1, 1), END_CUT, ONE, END], 6),
    // into a parameter
    (&[ONE, Cut(1, 0, 2), END_CUT, ONE, END], 6),
    (&[ONE, Cut(1, 2, 0), END_CUT, ONE, END], 6),
    // a new array into a part of a cut, and into another slot
    (
        &[
            ONE,
            HALVE,
            ONE,
            Just(Instr::NewArray(2, 9)),
            END_CUT,
            ONE,
            END,
        ],
        6,
    ),
    (
        &[
            ONE,
            HALVE,
            ONE,
            Just(Instr::NewArray(3, 9)),
            END_CUT,
            ONE,
            END,
        ],
        0,
    ),
    // the parts of a part into other slots, and into the slot of the other part
    (
        &[ONE, HALVE, ONE, Cut(1, 3, 4), END_CUT, END_CUT, ONE, END],
        0,
    ),
    (
        &[ONE, HALVE, ONE, Cut(1, 2, 3), END_CUT, END_CUT, ONE, END],
        6,
    ),
    (
        &[ONE, HALVE, ONE, Cut(1, 3, 2), END_CUT, END_CUT, ONE, END],
        6,
    ),
];

#[test]
fn parts(rt: HostRuntime) -> Result<(), AllocError> {
    assert_eq!(rt; wrong_case(rt.alloc(), &PARTS)?, None);
    Ok(())
}

/// Loads the integer parameter.
const TEST: Step = Just(Instr::Load(0));

const SPAWN: Step = Spawn(FIRST);

const OTHER: Step = Spawn(SECOND);

/// Jumps over a spawn.
const PAST_ONE: Step = Just(Instr::SkipIfZero(1));

/// Jumps over a spawn and the skip of the other branch.
const PAST_TWO: Step = Just(Instr::SkipIfZero(2));

/// Jumps over a cut and the skip of the other branch.
const PAST_CUT: Step = Just(Instr::SkipIfZero(3));

/// Jumps over a scope, or the spawn of the other branch.
const ON_ONE: Step = Just(Instr::Skip(1));

/// Jumps over the cut of the other branch.
const ON_CUT: Step = Just(Instr::Skip(2));

const DIFFER: Step = Cut(0, 1, 3);

static BRANCHES: [Case; 7] = [
    // one branch has left the array slot empty
    (&[TEST, PAST_ONE, SPAWN, LENGTH, END], 6),
    (&[TEST, PAST_ONE, SPAWN, SYNC, LENGTH, END], 0),
    // each branch has left a different slot empty
    (
        &[TEST, PAST_TWO, SPAWN, ON_ONE, OTHER, SYNC, LENGTH, END],
        0,
    ),
    // a later iteration finds an array slot empty that the first one did not
    (
        &[LENGTH, Just(Instr::Store(0)), SPAWN, Just(Instr::GoBack(3))],
        6,
    ),
    // in a block that a cut began, in one that another cut began, and in a scope
    (
        &[
            TEST, PAST_CUT, ONE, HALVE, ON_CUT, ONE, HALVE, END_CUT, ONE, END,
        ],
        0,
    ),
    (
        &[
            TEST, PAST_CUT, ONE, HALVE, ON_CUT, ONE, DIFFER, END_CUT, ONE, END,
        ],
        6,
    ),
    (
        &[TEST, PAST_CUT, ONE, HALVE, ON_ONE, OPEN, END_CUT, ONE, END],
        6,
    ),
];

#[test]
fn branches(rt: HostRuntime) -> Result<(), AllocError> {
    assert_eq!(rt; wrong_case(rt.alloc(), &BRANCHES)?, None);
    Ok(())
}

static LOOPS: [Case; 15] = [
    (&[ONE, ONE, Start(4, FIRST), ONE, END], 0),
    (&[ONE, ONE, ONE, Start(4, FIRST), END], 0),
    // an argument is missing
    (&[ONE, Start(4, FIRST), ONE, END], 6),
    // a function of one integer has no range, and a function that does not exist
    (&[ONE, ONE, Start(5, NONE), ONE, END], 6),
    (&[ONE, ONE, Start(7, NONE), ONE, END], 6),
    (&[ONE, ONE, Start(4, BOTH), ONE, END], 6),
    // an array that a spawn has taken
    (&[SPAWN, ONE, ONE, Start(4, FIRST), ONE, END], 6),
    (&[ONE, ONE, Start(4, FIRST), LENGTH, END], 0),
    (&[ONE, ONE, Recur(CallKind::Plain, FIRST), LENGTH, END], 0),
    (&[ONE, ONE, ONE, Recur(CallKind::Plain, FIRST), END], 0),
    (&[ONE, Recur(CallKind::Plain, FIRST), ONE, END], 6),
    (&[ONE, ONE, Recur(CallKind::Spawned, FIRST), LENGTH, END], 6),
    (
        &[ONE, ONE, Recur(CallKind::Spawned, FIRST), SYNC, LENGTH, END],
        0,
    ),
    (&[ONE, ONE, ONE, Recur(CallKind::Spawned, FIRST), END], 6),
    (&[ONE, ONE, Recur(CallKind::Plain, TWICE), ONE, END], 6),
];

#[test]
fn loops(rt: HostRuntime) -> Result<(), AllocError> {
    assert_eq!(rt; wrong_case(rt.alloc(), &LOOPS)?, None);
    Ok(())
}

/// A function with the maximum number of names.
const WIDEST: Func = Func {
    slots: 128,
    arrays: 128,
    ..GIVING
};

// The maximum number of instructions of a program, in the maximum number of open scopes, in a function with the
// maximum number of names: the code is well-formed, and time and memory are proportional to the number of
// instructions.
#[test]
fn many(rt: HostRuntime) -> Result<(), AllocError> {
    let alloc = rt.alloc();
    let mut body = Vec::new(alloc);
    for _scope in 0..63 {
        body.push(Instr::Open(BlockKind::Scope))?;
    }
    for _print in 0..524224 {
        body.push(Instr::Push(1))?;
        body.push(Instr::Print)?;
    }
    for _scope in 0..63 {
        body.push(Instr::Close)?;
    }
    body.extend_from_slice(&GIVES)?;
    assert!(rt; body.len() == 1048576);
    let mut code = no_code(alloc);
    place(&mut code, WIDEST, &body)?;
    assert!(rt; rejection_of(alloc, code)? == 0);
    Ok(())
}
