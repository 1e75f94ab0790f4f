//! Divide-and-conquer loops over an array.

use crate::machine::arrays::{ALONE, MAIN, NEITHER};
use crate::machine::{Row, Setting, Wanted, holds};
use crate::programs::{Around, Part};
use cw_code::code::{BlockKind, Halves, Inner, Instr};
use cw_model::syntax::{CallKind, Operator};

// The array slots that a loop's function passes to itself.
const LEFT: Inner = Inner {
    function: 1,
    passed: 0,
};

const RIGHT: Inner = Inner {
    function: 1,
    passed: 1,
};

// The function of a divide-and-conquer loop: a leaf if the range has one iteration, in which `a[i]` becomes `i`.
const HALVING: Part = Part {
    gives_int: false,
    params: 2,
    slots: 3,
    array_params: 1,
    arrays: 3,
    body: &[
        Instr::Load(1),
        Instr::Load(0),
        Instr::Binary(Operator::Minus, 1),
        Instr::Push(1),
        Instr::Binary(Operator::AtMost, 1),
        Instr::SkipIfZero(19),
        Instr::Load(0),
        Instr::Store(2),
        Instr::Load(2),
        Instr::Load(1),
        Instr::Binary(Operator::Less, 1),
        Instr::SkipIfZero(12),
        Instr::Open(BlockKind::Scope),
        Instr::Load(2),
        Instr::Load(0),
        Instr::Binary(Operator::Minus, 1),
        Instr::Load(2),
        Instr::SetElement(0, 1),
        Instr::Close,
        Instr::Load(2),
        Instr::Push(1),
        Instr::Binary(Operator::Plus, 1),
        Instr::Store(2),
        Instr::GoBack(15),
        Instr::Skip(19),
        Instr::Load(0),
        Instr::Load(1),
        Instr::Load(0),
        Instr::Binary(Operator::Minus, 1),
        Instr::Push(2),
        Instr::Binary(Operator::Divide, 1),
        Instr::Binary(Operator::Plus, 1),
        Instr::Store(2),
        Instr::Load(2),
        Instr::Load(0),
        Instr::Binary(Operator::Minus, 1),
        Instr::Cut(
            Halves {
                array: 0,
                left: 1,
                right: 2,
            },
            1,
        ),
        Instr::Load(0),
        Instr::Load(2),
        Instr::Recur(CallKind::Spawned, LEFT),
        Instr::Load(2),
        Instr::Load(1),
        Instr::Recur(CallKind::Plain, RIGHT),
        Instr::EndCut,
        Instr::Return,
    ],
};

/// A `main` with three parameters, and the loop's function.
pub(crate) static HALVED: Around = Around {
    main: Part {
        params: 3,
        slots: 3,
        ..MAIN
    },
    others: &[HALVING],
    passed: &[&[1], &[2], &[0]],
    ..ALONE
};

/// Makes an array of 3, starts the loop on the range with the first two arguments as bounds, and returns the element
/// at the third.
pub(crate) const LOOPING: &[Instr] = &[
    Instr::Push(3),
    Instr::NewArray(0, 1),
    Instr::Load(0),
    Instr::Load(1),
    Instr::Start(
        Inner {
            function: 1,
            passed: 2,
        },
        5,
    ),
    Instr::Load(2),
    Instr::Element(0, 1),
    Instr::ReturnValue,
];

static TURNS: [Row; 7] = [
    // two leaves of 30 and a node of 26, with 8 around them
    Row {
        name: "two leaves, the second one's element",
        setting: Setting::Halved,
        body: LOOPING,
        args: &[&[1, 3, 2]],
        cost: 94,
        wanted: Wanted::Ends(2, &[], NEITHER),
    },
    Row {
        name: "two leaves, the first one's element",
        setting: Setting::Halved,
        body: LOOPING,
        args: &[&[1, 3, 1]],
        cost: 94,
        wanted: Wanted::Ends(1, &[], NEITHER),
    },
    Row {
        name: "two leaves, an element of neither",
        setting: Setting::Halved,
        body: LOOPING,
        args: &[&[1, 3, 0]],
        cost: 94,
        wanted: Wanted::Ends(0, &[], NEITHER),
    },
    Row {
        name: "one leaf",
        setting: Setting::Halved,
        body: LOOPING,
        args: &[&[2, 3, 2]],
        cost: 38,
        wanted: Wanted::Ends(2, &[], NEITHER),
    },
    // a leaf of 14, wherever the range is
    Row {
        name: "no turn",
        setting: Setting::Halved,
        body: LOOPING,
        args: &[
            &[3, 3, 2],
            &[3, i64::MIN, 2],
            &[-5, -5, 2],
            &[-5, i64::MIN, 2],
            &[100, 100, 2],
            &[100, i64::MIN, 2],
            &[i64::MAX, i64::MAX, 2],
            &[i64::MAX, i64::MIN, 2],
        ],
        cost: 22,
        wanted: Wanted::Ends(0, &[], NEITHER),
    },
    Row {
        name: "a range outside the array",
        setting: Setting::Halved,
        body: LOOPING,
        args: &[&[1, 4, 2], &[-1, 2, 2], &[0, 2_147_483_647, 2]],
        cost: 5,
        wanted: Wanted::Traps(3, 5, &[]),
    },
    Row {
        name: "too many turns, which is told first",
        setting: Setting::Halved,
        body: LOOPING,
        args: &[&[0, 2_147_483_648, 2], &[i64::MIN, i64::MAX, 2]],
        cost: 5,
        wanted: Wanted::Traps(5, 5, &[]),
    },
];

#[test]
fn turns(rt: HostRuntime) {
    for row in &TURNS {
        assert!(rt; holds(rt.alloc(), row), "{}", row.name);
    }
}
