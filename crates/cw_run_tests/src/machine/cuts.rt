//! Mains whose arrays are cut, or passed to functions.

use crate::machine::arrays::{ALONE, NEITHER};
use crate::machine::{Row, Setting, Wanted, holds};
use crate::programs::{Around, CALLED, Part, SPAWNED};
use cw_code::code::{Callee, Halves, Instr};
use cw_model::syntax::{CallKind, Operator};

const END: Instr = Instr::ReturnValue;

const PLUS: Instr = Instr::Binary(Operator::Plus, 2);

const TIMES: Instr = Instr::Binary(Operator::Times, 2);

// `int f(int a[]) { a[0] = 7; return len(a); }`, which costs five instructions.
const FILL: Part = Part {
    gives_int: true,
    params: 0,
    slots: 0,
    array_params: 1,
    arrays: 1,
    body: &[
        Instr::Push(0),
        Instr::Push(7),
        Instr::SetElement(0, 1),
        Instr::Length(0),
        END,
    ],
};

/// A `main` with a function that sets the first element of an array to 7 and returns the array's length, for five
/// instructions. It takes the array 2 of `main`.
pub(crate) static FILLED: Around = Around {
    others: &[FILL],
    passed: &[&[2]],
    ..ALONE
};

/// `FILLED`, with a function that takes the array 4 of `main`.
pub(crate) static FILLED_PART: Around = Around {
    others: &[FILL],
    passed: &[&[4]],
    ..ALONE
};

/// `FILLED`, with a function that takes the array 0 or 1 of `main`.
pub(crate) static FILLED_TWO: Around = Around {
    others: &[FILL],
    passed: &[&[0], &[1]],
    ..ALONE
};

// The two parts of the first array.
const FIRST: Halves = Halves {
    array: 0,
    left: 1,
    right: 2,
};

// The two parts of the first part.
const SECOND: Halves = Halves {
    array: 1,
    left: 3,
    right: 4,
};

// A call of `FILL`, whose result goes into the first slot.
const FILLS: Callee = Callee {
    target: Some(0),
    ..CALLED
};

/// A spawn of `FILL`, whose result goes into the first slot.
pub(crate) const FILLS_BESIDE: Callee = Callee {
    target: Some(0),
    ..SPAWNED
};

static CUTS: [Row; 5] = [
    // `a` is 5, 7, 0, the call returns 2, and a part is empty after it: 7 + 2 + 50 + 0
    Row {
        name: "a of 3 is cut at 1, the right part is filled by a spawned call, and the left one here",
        setting: Setting::Filled,
        body: &[
            Instr::Push(3),
            Instr::NewArray(0, 2),
            Instr::Push(0),
            Instr::Store(0),
            Instr::Push(1),
            Instr::Cut(FIRST, 2),
            Instr::Call(CallKind::Spawned, FILLS_BESIDE),
            Instr::Push(0),
            Instr::Push(5),
            Instr::SetElement(1, 2),
            Instr::EndCut,
            Instr::Push(1),
            Instr::Element(0, 2),
            Instr::Load(0),
            PLUS,
            Instr::Push(0),
            Instr::Element(0, 2),
            Instr::Push(10),
            TIMES,
            PLUS,
            Instr::Length(2),
            PLUS,
            END,
        ],
        args: &[&[]],
        cost: 28,
        wanted: Wanted::Ends(59, &[], NEITHER),
    },
    // `a` of 4 at 3, then its left part at 1, whose right part has the elements 1 and 2
    Row {
        name: "parts of parts",
        setting: Setting::FilledPart,
        body: &[
            Instr::Push(4),
            Instr::NewArray(0, 2),
            Instr::Push(3),
            Instr::Cut(FIRST, 2),
            Instr::Push(1),
            Instr::Cut(SECOND, 2),
            Instr::Call(CallKind::Plain, FILLS),
            Instr::Push(1),
            Instr::Push(8),
            Instr::SetElement(4, 2),
            Instr::EndCut,
            Instr::EndCut,
            Instr::Push(1),
            Instr::Element(0, 2),
            Instr::Push(10),
            TIMES,
            Instr::Push(2),
            Instr::Element(0, 2),
            PLUS,
            END,
        ],
        args: &[&[]],
        cost: 25,
        wanted: Wanted::Ends(78, &[], NEITHER),
    },
    Row {
        name: "a cut past the end, and before the first place",
        setting: Setting::ArraysOfOne,
        body: &[
            Instr::Push(3),
            Instr::NewArray(0, 2),
            Instr::Load(0),
            Instr::Cut(FIRST, 7),
            Instr::EndCut,
            Instr::Push(0),
            END,
        ],
        args: &[&[4], &[-1], &[i64::MIN], &[i64::MAX]],
        cost: 4,
        wanted: Wanted::Traps(3, 7, &[]),
    },
    Row {
        name: "a cut at the first place",
        setting: Setting::ArraysOfOne,
        body: CUT_AT,
        args: &[&[0]],
        cost: 9,
        wanted: Wanted::Ends(0, &[], NEITHER),
    },
    Row {
        name: "a cut at the end",
        setting: Setting::ArraysOfOne,
        body: CUT_AT,
        args: &[&[3]],
        cost: 9,
        wanted: Wanted::Ends(3, &[], NEITHER),
    },
];

// The length of the left part of an array of 3 that is cut at the argument.
const CUT_AT: &[Instr] = &[
    Instr::Push(3),
    Instr::NewArray(0, 2),
    Instr::Load(0),
    Instr::Cut(FIRST, 7),
    Instr::Length(1),
    Instr::Store(0),
    Instr::EndCut,
    Instr::Load(0),
    END,
];

// A function of two arrays that passes the first one on to `FILL`, and sets the first element of the second one to 3.
const SWAP: Part = Part {
    gives_int: true,
    params: 0,
    slots: 1,
    array_params: 2,
    arrays: 3,
    body: &[
        Instr::Push(4),
        Instr::NewArray(2, 3),
        Instr::Call(CallKind::Plain, FILLS),
        Instr::Push(0),
        Instr::Push(3),
        Instr::SetElement(1, 3),
        Instr::Load(0),
        END,
    ],
};

/// Both functions: `FILL` takes an array of `SWAP`, and `SWAP` takes the arrays of `main` in the other order.
pub(crate) static SWAPPED: Around = Around {
    others: &[FILL, SWAP],
    passed: &[&[0], &[1, 0]],
    ..ALONE
};

static PASSING: [Row; 2] = [
    // 7 + 7 + 2 + 1, with 17 instructions and two calls of five
    Row {
        name: "a spawned call has the array up to the join, and another array is made meanwhile",
        setting: Setting::FilledTwo,
        body: &[
            Instr::Push(2),
            Instr::NewArray(0, 2),
            Instr::Call(CallKind::Spawned, FILLS_BESIDE),
            Instr::Push(1),
            Instr::NewArray(1, 2),
            Instr::Call(
                CallKind::Spawned,
                Callee {
                    target: Some(1),
                    passed: 1,
                    ..SPAWNED
                },
            ),
            Instr::Sync,
            Instr::Push(0),
            Instr::Element(0, 2),
            Instr::Push(0),
            Instr::Element(1, 2),
            PLUS,
            Instr::Load(0),
            PLUS,
            Instr::Load(1),
            PLUS,
            END,
        ],
        args: &[&[]],
        cost: 27,
        wanted: Wanted::Ends(17, &[], NEITHER),
    },
    // `SWAP` takes 1 and 0: its first array, of 6, is filled with 7, and its second one with 3
    Row {
        name: "two arrays in the other order, through a call that passes one on",
        setting: Setting::Swapped,
        body: &[
            Instr::Push(2),
            Instr::NewArray(0, 2),
            Instr::Push(6),
            Instr::NewArray(1, 2),
            Instr::Call(
                CallKind::Plain,
                Callee {
                    function: 2,
                    site: 5,
                    target: Some(0),
                    passed: 1,
                    ..CALLED
                },
            ),
            Instr::Push(0),
            Instr::Element(0, 2),
            Instr::Push(10),
            TIMES,
            Instr::Push(0),
            Instr::Element(1, 2),
            PLUS,
            Instr::Push(10),
            TIMES,
            Instr::Load(0),
            PLUS,
            END,
        ],
        args: &[&[]],
        cost: 30,
        wanted: Wanted::Ends(376, &[], NEITHER),
    },
];

#[test]
fn cuts(rt: HostRuntime) {
    for row in &CUTS {
        assert!(rt; holds(rt.alloc(), row), "{}", row.name);
    }
}

#[test]
fn passing(rt: HostRuntime) {
    for row in &PASSING {
        assert!(rt; holds(rt.alloc(), row), "{}", row.name);
    }
}
