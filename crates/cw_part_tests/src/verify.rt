//! Which small codes on integers are well-formed: each rule is broken by itself, and just kept, by hand.

mod arrays;
mod codes;
mod readers;

use Step::{Call, Just, Spawn};
use codes::{
    Frame, GIVING, NOTHING, Placed, add_frame, add_reducer, end_function, no_code, place,
    place_all, rejection_of,
};
use cw_code::code::{BlockKind, Callee, Code, Func, Instr, UnaryOperator};
use cw_model::syntax::{CallKind, Name, Operator, Reduction};
use std::alloc::{AllocError, Global};

/// An instruction of a `main`.
#[derive(Clone, Copy)]
enum Step {
    /// This instruction.
    Just(Instr),
    /// A plain call: the function, the number of the site, and the slot for the result.
    Call(u32, u32, Option<u32>),
    /// A spawned call: the function, the number of the site, and the slot for the result.
    Spawn(u32, u32, Option<u32>),
}

fn call(kind: CallKind, function: u32, site: u32, target: Option<u32>) -> Instr {
    let callee = Callee {
        function,
        site,
        line: 9,
        target,
        passed: 0,
        lent: 0,
    };
    Instr::Call(kind, callee)
}

fn instr(step: Step) -> Instr {
    match step {
        Just(instr) => instr,
        Call(function, site, target) => call(CallKind::Plain, function, site, target),
        Spawn(function, site, target) => call(CallKind::Spawned, function, site, target),
    }
}

fn push_all(instrs: &mut Vec<Instr>, steps: &[Step]) -> Result<(), AllocError> {
    for step in steps {
        instrs.push(instr(*step))?;
    }
    Ok(())
}

/// Adds a function after the existing instructions.
fn place_steps(code: &mut Code, f: Func, steps: &[Step]) -> Result<(), AllocError> {
    let start = code.instrs.len();
    push_all(&mut code.instrs, steps)?;
    end_function(code, f, start)
}

const ONE: Step = Just(Instr::Push(1));

const END: Step = Just(Instr::ReturnValue);

const OPEN: Step = Just(Instr::Open(BlockKind::Scope));

const CLOSE: Step = Just(Instr::Close);

const SYNC: Step = Just(Instr::Sync);

/// Loads the slot for the result of `SPAWN`.
const LOAD: Step = Just(Instr::Load(1));

/// Loads the parameter.
const TEST: Step = Just(Instr::Load(0));

const SPAWN: Step = Spawn(1, 2, Some(1));

const OTHER: Step = Spawn(1, 2, Some(0));

/// Plain and spawned sites of function 1, and plain and spawned sites of function 2.
static FRAME: Frame = Frame {
    sites: &[
        (CallKind::Plain, 1),
        (CallKind::Spawned, 1),
        (CallKind::Plain, 2),
        (CallKind::Spawned, 2),
    ],
    passed: &[],
    lent: &[],
};

const MAIN: Func = Func {
    params: 1,
    slots: 2,
    ..GIVING
};

/// Function 1 returns its parameter, and function 2 returns nothing.
static OTHERS: [Placed; 2] = [
    (
        Func {
            params: 1,
            slots: 1,
            ..GIVING
        },
        &[Instr::Load(0), Instr::ReturnValue],
    ),
    (NOTHING, &[Instr::Return]),
];

/// Adds a reducer, a tag and the sites, but no function.
fn add_all_but_functions(alloc: Global, code: &mut Code) -> Result<(), AllocError> {
    add_frame(alloc, code, &FRAME)?;
    add_reducer(alloc, code, b"", Reduction::Sum)?;
    code.tags.push(Name::new(alloc, b"")?)?;
    Ok(())
}

fn place_main(alloc: Global, code: &mut Code, steps: &[Step]) -> Result<(), AllocError> {
    add_all_but_functions(alloc, code)?;
    place_steps(code, MAIN, steps)?;
    place_all(code, &OTHERS)
}

/// Returns the number of the fault of a `main` with one parameter and two slots, or 0 if it is well-formed.
fn refusal(alloc: Global, steps: &[Step]) -> Result<u8, AllocError> {
    let mut code = no_code(alloc);
    place_main(alloc, &mut code, steps)?;
    rejection_of(alloc, code)
}

/// A `main`, and the number of its fault, or 0 if it is well-formed.
type Case = (&'static [Step], u8);

/// Returns the index of the first case with another result.
fn wrong_case(alloc: Global, cases: &[Case]) -> Result<Option<usize>, AllocError> {
    for (k, (steps, number)) in cases.iter().enumerate() {
        if refusal(alloc, *steps)? != *number {
            return Ok(Some(k));
        }
    }
    Ok(None)
}

/// A single `main`, with one slot.
struct Alone {
    gives_int: bool,
    params: usize,
    body: &'static [Instr],
    /// Instructions after it.
    after: &'static [Instr],
    number: u8,
}

static ALONE: [Alone; 5] = [
    Alone {
        gives_int: true,
        params: 1,
        body: &[Instr::Push(1), Instr::ReturnValue],
        after: &[],
        number: 0,
    },
    // more parameters than slots
    Alone {
        gives_int: true,
        params: 2,
        body: &[Instr::Push(1), Instr::ReturnValue],
        after: &[],
        number: 6,
    },
    // an instruction after the last function
    Alone {
        gives_int: true,
        params: 1,
        body: &[Instr::Push(1), Instr::ReturnValue],
        after: &[Instr::Return],
        number: 6,
    },
    // a function without instructions, and a `main` that returns nothing
    Alone {
        gives_int: true,
        params: 1,
        body: &[],
        after: &[],
        number: 6,
    },
    Alone {
        gives_int: false,
        params: 1,
        body: &[Instr::Return],
        after: &[],
        number: 6,
    },
];

fn place_alone(alloc: Global, code: &mut Code, alone: &Alone) -> Result<(), AllocError> {
    add_all_but_functions(alloc, code)?;
    let f = Func {
        gives_int: alone.gives_int,
        params: alone.params,
        slots: 1,
        ..NOTHING
    };
    place(code, f, alone.body)?;
    code.instrs.extend_from_slice(alone.after)?;
    Ok(())
}

fn sole_rejection(alloc: Global, alone: &Alone) -> Result<u8, AllocError> {
    let mut code = no_code(alloc);
    place_alone(alloc, &mut code, alone)?;
    rejection_of(alloc, code)
}

#[test]
fn mains_alone(rt: HostRuntime) -> Result<(), AllocError> {
    for (k, alone) in ALONE.iter().enumerate() {
        assert_eq!(rt; sole_rejection(rt.alloc(), alone)?, alone.number, "row {k}");
    }
    Ok(())
}

#[test]
fn no_function(rt: HostRuntime) -> Result<(), AllocError> {
    let mut code = no_code(rt.alloc());
    add_all_but_functions(rt.alloc(), &mut code)?;
    assert_eq!(rt; rejection_of(rt.alloc(), code)?, 6);
    Ok(())
}

/// The names of reducers, and the number of the fault.
static REDUCERS: [(&[&[u8]], u8); 5] = [
    (&[b"a"], 0),
    (&[b"a", b"b", b"ab"], 0),
    // two of one name, whatever their reductions
    (&[b"a", b"a"], 6),
    (&[b"b", b"ab", b"a", b"ab"], 6),
    (&[b"a", b"b", b"c", b"c"], 6),
];

/// Adds reducers: the first is a sum, each other one a maximum.
fn add_reducers(alloc: Global, code: &mut Code, names: &[&[u8]]) -> Result<(), AllocError> {
    let mut how = Reduction::Sum;
    for name in names {
        add_reducer(alloc, code, *name, how)?;
        how = Reduction::Max;
    }
    Ok(())
}

/// A `main` with one parameter.
const MAIN_OF_ONE: Func = Func {
    params: 1,
    slots: 1,
    ..GIVING
};

static GIVES: [Instr; 2] = [Instr::Push(1), Instr::ReturnValue];

fn rejection_of_reducers(alloc: Global, names: &[&[u8]]) -> Result<u8, AllocError> {
    let mut code = no_code(alloc);
    add_reducers(alloc, &mut code, names)?;
    place(&mut code, MAIN_OF_ONE, &GIVES)?;
    rejection_of(alloc, code)
}

#[test]
fn reducers(rt: HostRuntime) -> Result<(), AllocError> {
    for (k, (names, number)) in REDUCERS.iter().enumerate() {
        assert_eq!(rt;
            rejection_of_reducers(rt.alloc(), *names)?,
            *number,
            "row {k}"
        );
    }
    Ok(())
}

static FUNCTIONS: [Case; 3] = [
    (&[ONE, END], 0),
    // falls through into the next function
    (&[ONE], 6),
    // a return of the other kind
    (&[Just(Instr::Return)], 6),
];

#[test]
fn functions(rt: HostRuntime) -> Result<(), AllocError> {
    assert_eq!(rt; wrong_case(rt.alloc(), &FUNCTIONS)?, None);
    Ok(())
}

static JUMPS: [Case; 10] = [
    (&[ONE, Just(Instr::SkipIfZero(0)), ONE, END], 0),
    // two branches with different numbers of operands
    (&[ONE, Just(Instr::SkipIfZero(1)), ONE, END], 6),
    // one place after the function's end, and into the next one
    (&[ONE, Just(Instr::SkipIfZero(2)), ONE, END], 6),
    (&[ONE, Just(Instr::SkipIfZero(3)), ONE, END], 6),
    (&[Just(Instr::Skip(1)), ONE], 6),
    // an iteration that leaves one operand more
    (&[ONE, Just(Instr::GoBack(1))], 6),
    (&[ONE, Just(Instr::Store(0)), Just(Instr::GoBack(2))], 0),
    // never reached: any place of the function is accepted, and no other
    (&[ONE, END, Just(Instr::GoBack(2))], 0),
    (&[ONE, END, Just(Instr::GoBack(3))], 6),
    (&[ONE, END, Just(Instr::Skip(0))], 6),
];

#[test]
fn jumps(rt: HostRuntime) -> Result<(), AllocError> {
    assert_eq!(rt; wrong_case(rt.alloc(), &JUMPS)?, None);
    Ok(())
}

const PLUS: Step = Just(Instr::Binary(Operator::Plus, 1));

const NOT: Step = Just(Instr::Unary(UnaryOperator::Not, 1));

const PRINT: Step = Just(Instr::Print);

const REDUCE: Step = Just(Instr::Reduce(0));

static OPERANDS: [Case; 13] = [
    (&[END], 6),
    (&[ONE, PLUS, END], 6),
    (&[ONE, ONE, PLUS, END], 0),
    (&[NOT, END], 6),
    (&[PRINT, ONE, END], 6),
    (&[REDUCE, ONE, END], 6),
    (&[ONE, PRINT, ONE, REDUCE, ONE, END], 0),
    // an argument is missing
    (&[Call(1, 1, None), ONE, END], 6),
    (&[ONE, Call(1, 1, None), ONE, END], 0),
    // an operand is left at a spawn, at a join, at the end of a scope
    (&[ONE, ONE, Call(1, 1, None), END], 0),
    (&[ONE, ONE, Spawn(1, 2, None), END], 6),
    (&[ONE, SYNC, END], 6),
    (&[OPEN, ONE, CLOSE, END], 6),
];

#[test]
fn operands(rt: HostRuntime) -> Result<(), AllocError> {
    assert_eq!(rt; wrong_case(rt.alloc(), &OPERANDS)?, None);
    Ok(())
}

static NAMES: [Case; 16] = [
    (&[Just(Instr::Load(1)), END], 0),
    (&[Just(Instr::Load(2)), END], 6),
    (&[ONE, Just(Instr::Store(2)), ONE, END], 6),
    (&[ONE, Call(1, 1, Some(1)), ONE, END], 0),
    (&[ONE, Call(1, 1, Some(2)), ONE, END], 6),
    // a function and sites that do not exist
    (&[ONE, Call(3, 1, None), ONE, END], 6),
    (&[ONE, Call(1, 0, None), ONE, END], 6),
    (&[ONE, Call(1, 5, None), ONE, END], 6),
    // a site of the other kind, and of another function
    (&[ONE, Call(1, 2, None), ONE, END], 6),
    (&[ONE, Call(1, 3, None), ONE, END], 6),
    // a slot for the result of a call that returns nothing
    (&[Call(2, 3, None), ONE, END], 0),
    (&[Call(2, 3, Some(1)), ONE, END], 6),
    // a reducer and a tag that do not exist, also if never reached
    (&[ONE, Just(Instr::Reduce(1)), ONE, END], 6),
    (&[ONE, END, Just(Instr::Reduce(1))], 6),
    (
        &[Just(Instr::Open(BlockKind::Region(0))), CLOSE, ONE, END],
        0,
    ),
    (
        &[Just(Instr::Open(BlockKind::Region(1))), CLOSE, ONE, END],
        6,
    ),
];

#[test]
fn names(rt: HostRuntime) -> Result<(), AllocError> {
    assert_eq!(rt; wrong_case(rt.alloc(), &NAMES)?, None);
    Ok(())
}

static BLOCKS: [Case; 12] = [
    (&[OPEN, CLOSE, ONE, END], 0),
    (&[CLOSE, ONE, END], 6),
    // left open: at a return, and at a jump back
    (&[OPEN, ONE, END], 6),
    (&[OPEN, Just(Instr::GoBack(1))], 6),
    (&[OPEN, CLOSE, Just(Instr::GoBack(2))], 0),
    // a slot that a spawn has emptied
    (&[ONE, SPAWN, LOAD, END], 6),
    (&[ONE, SPAWN, ONE, SPAWN, ONE, END], 6),
    (&[ONE, SPAWN, SYNC, LOAD, END], 0),
    // its own block joins it, and no other
    (&[OPEN, ONE, SPAWN, CLOSE, LOAD, END], 0),
    (
        &[
            ONE,
            SPAWN,
            OPEN,
            SYNC,
            LOAD,
            Just(Instr::Store(0)),
            CLOSE,
            ONE,
            END,
        ],
        6,
    ),
    (&[ONE, SPAWN, OPEN, CLOSE, LOAD, END], 6),
    (&[ONE, SPAWN, OPEN, CLOSE, SYNC, LOAD, END], 0),
];

#[test]
fn blocks(rt: HostRuntime) -> Result<(), AllocError> {
    assert_eq!(rt; wrong_case(rt.alloc(), &BLOCKS)?, None);
    Ok(())
}

/// Jumps over an operand and a spawn.
const PAST: Step = Just(Instr::SkipIfZero(2));

/// Jumps over an operand, a spawn and the skip of the other branch.
const ELSE: Step = Just(Instr::SkipIfZero(3));

/// Jumps over the other branch.
const ON: Step = Just(Instr::Skip(2));

static BRANCHES: [Case; 6] = [
    // one branch has left the slot empty
    (&[TEST, PAST, ONE, SPAWN, LOAD, END], 6),
    (&[TEST, PAST, ONE, SPAWN, SYNC, LOAD, END], 0),
    // each branch has left a different slot empty
    (
        &[TEST, ELSE, ONE, SPAWN, ON, ONE, OTHER, SYNC, LOAD, END],
        0,
    ),
    (&[TEST, ELSE, ONE, SPAWN, ON, ONE, OTHER, TEST, END], 6),
    // a later iteration finds a slot empty that the first one did not
    (
        &[
            LOAD,
            Just(Instr::Store(0)),
            ONE,
            SPAWN,
            Just(Instr::GoBack(4)),
        ],
        6,
    ),
    (
        &[
            LOAD,
            Just(Instr::Store(0)),
            ONE,
            SPAWN,
            SYNC,
            Just(Instr::GoBack(5)),
        ],
        0,
    ),
];

#[test]
fn branches(rt: HostRuntime) -> Result<(), AllocError> {
    assert_eq!(rt; wrong_case(rt.alloc(), &BRANCHES)?, None);
    Ok(())
}
