//! Mains with arrays, and the totals of their reducers.

use crate::machine::{Row, Setting, Wanted, holds};
use crate::programs::{Around, Part};
use cw_code::code::Instr;
use cw_model::syntax::{Operator, Reduction};
use cw_model::total::Total;

const END: Instr = Instr::ReturnValue;

/// A `main` with two integer slots and five array slots.
pub(crate) const MAIN: Part = Part {
    gives_int: true,
    params: 0,
    slots: 2,
    array_params: 0,
    arrays: 5,
    body: &[],
};

/// A `main` without other functions, with two reducers: a maximum and a sum.
pub(crate) const ALONE: Around = Around {
    main: MAIN,
    others: &[],
    passed: &[],
    reducers: &[("m", Reduction::Max), ("s", Reduction::Sum)],
    tags: &[],
};

/// `ALONE`, as a static.
pub(crate) static ARRAYS: Around = ALONE;

/// `ALONE`, with a parameter in the first integer slot.
pub(crate) static ARRAYS_OF_ONE: Around = Around {
    main: Part { params: 1, ..MAIN },
    ..ALONE
};

/// The totals of the two reducers without updates.
pub(crate) const NEITHER: &[Total] = &[Total::Max(None), Total::Sum(0)];

static ONE_ARRAY: [Row; 7] = [
    Row {
        name: "an array that was not made is empty",
        setting: Setting::Arrays,
        body: &[Instr::Length(1), END],
        args: &[&[]],
        cost: 2,
        wanted: Wanted::Ends(0, &[], NEITHER),
    },
    Row {
        name: "a new array has zeros",
        setting: Setting::Arrays,
        body: &[
            Instr::Push(3),
            Instr::NewArray(0, 2),
            Instr::Push(2),
            Instr::Element(0, 3),
            Instr::Length(0),
            Instr::Binary(Operator::Plus, 3),
            END,
        ],
        args: &[&[]],
        cost: 7,
        wanted: Wanted::Ends(3, &[], NEITHER),
    },
    // one index after the end, and one before the start; what was printed before stays
    Row {
        name: "a read outside",
        setting: Setting::ArraysOfOne,
        body: &[
            Instr::Push(8),
            Instr::Print,
            Instr::Push(3),
            Instr::NewArray(0, 2),
            Instr::Load(0),
            Instr::Element(0, 4),
            END,
        ],
        args: &[&[3], &[-1], &[i64::MIN], &[i64::MAX]],
        cost: 6,
        wanted: Wanted::Traps(3, 4, &[8]),
    },
    Row {
        name: "a write outside",
        setting: Setting::ArraysOfOne,
        body: &[
            Instr::Push(3),
            Instr::NewArray(0, 2),
            Instr::Load(0),
            Instr::Push(1),
            Instr::SetElement(0, 5),
            Instr::Push(0),
            END,
        ],
        args: &[&[3], &[-1], &[i64::MIN], &[i64::MAX]],
        cost: 5,
        wanted: Wanted::Traps(3, 5, &[]),
    },
    Row {
        name: "a length that no array has",
        setting: Setting::ArraysOfOne,
        body: &[Instr::Load(0), Instr::NewArray(0, 6), Instr::Push(0), END],
        args: &[&[-1], &[16_777_217], &[i64::MIN], &[i64::MAX]],
        cost: 2,
        wanted: Wanted::Traps(4, 6, &[]),
    },
    Row {
        name: "the greatest length",
        setting: Setting::Arrays,
        body: &[
            Instr::Push(16_777_216),
            Instr::NewArray(0, 6),
            Instr::Length(0),
            END,
        ],
        args: &[&[]],
        cost: 4,
        wanted: Wanted::Ends(16_777_216, &[], NEITHER),
    },
    Row {
        name: "a new array in the same slot has zeros again",
        setting: Setting::Arrays,
        body: &[
            Instr::Push(1),
            Instr::NewArray(0, 1),
            Instr::Push(0),
            Instr::Push(4),
            Instr::SetElement(0, 1),
            Instr::Push(2),
            Instr::NewArray(0, 1),
            Instr::Push(0),
            Instr::Element(0, 1),
            END,
        ],
        args: &[&[]],
        cost: 10,
        wanted: Wanted::Ends(0, &[], NEITHER),
    },
];

static SUMS: [Row; 2] = [
    Row {
        name: "the least number, twice to the sum; and 5 and 3 to the other",
        setting: Setting::Arrays,
        body: &[
            Instr::Push(i64::MIN),
            Instr::Reduce(1),
            Instr::Push(5),
            Instr::Reduce(0),
            Instr::Push(i64::MIN),
            Instr::Reduce(1),
            Instr::Push(3),
            Instr::Reduce(0),
            Instr::Push(1),
            END,
        ],
        args: &[&[]],
        cost: 10,
        wanted: Wanted::Ends(
            1,
            &[],
            &[Total::Max(Some(5)), Total::Sum(-18_446_744_073_709_551_616)],
        ),
    },
    // four iterations of 12, the last test of 4, and 12 around them
    Row {
        name: "a[i] for i = 2, 4 .. below 10 becomes 1, and then a[4] * 10 + a[5]",
        setting: Setting::Arrays,
        body: &[
            Instr::Push(10),
            Instr::NewArray(0, 1),
            Instr::Push(2),
            Instr::Store(0),
            Instr::Load(0),
            Instr::Length(0),
            Instr::Binary(Operator::Less, 2),
            Instr::SkipIfZero(8),
            Instr::Load(0),
            Instr::Push(1),
            Instr::SetElement(0, 3),
            Instr::Load(0),
            Instr::Push(2),
            Instr::Binary(Operator::Plus, 3),
            Instr::Store(0),
            Instr::GoBack(11),
            Instr::Push(4),
            Instr::Element(0, 4),
            Instr::Push(10),
            Instr::Binary(Operator::Times, 4),
            Instr::Push(5),
            Instr::Element(0, 4),
            Instr::Binary(Operator::Plus, 4),
            END,
        ],
        args: &[&[]],
        cost: 64,
        wanted: Wanted::Ends(10, &[], NEITHER),
    },
];

#[test]
fn one_array(rt: HostRuntime) {
    for row in &ONE_ARRAY {
        assert!(rt; holds(rt.alloc(), row), "{}", row.name);
    }
}

#[test]
fn sums(rt: HostRuntime) {
    for row in &SUMS {
        assert!(rt; holds(rt.alloc(), row), "{}", row.name);
    }
}
