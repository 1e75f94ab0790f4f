//! Mains on integers only: values, loops and traps.

use crate::machine::{Row, Setting, UNTOLD, Wanted, holds};
use cw_code::code::{Callee, Instr, UnaryOperator};
use cw_model::syntax::{CallKind, Operator};

const END: Instr = Instr::ReturnValue;

const NOT: Instr = Instr::Unary(UnaryOperator::Not, 4);

static VALUES: [Row; 6] = [
    Row {
        name: "the argument",
        setting: Setting::Small,
        body: &[Instr::Load(0), END],
        args: &[&[8]],
        cost: 2,
        wanted: Wanted::Ends(8, &[], UNTOLD),
    },
    Row {
        name: "a name without a value yet is 0",
        setting: Setting::Small,
        body: &[Instr::Load(1), END],
        args: &[&[8]],
        cost: 2,
        wanted: Wanted::Ends(0, &[], UNTOLD),
    },
    Row {
        name: "a difference",
        setting: Setting::Small,
        body: &[
            Instr::Push(5),
            Instr::Load(0),
            Instr::Binary(Operator::Minus, 4),
            END,
        ],
        args: &[&[8]],
        cost: 4,
        wanted: Wanted::Ends(-3, &[], UNTOLD),
    },
    Row {
        name: "the other sign",
        setting: Setting::Small,
        body: &[
            Instr::Load(0),
            Instr::Unary(UnaryOperator::Negative, 4),
            END,
        ],
        args: &[&[8]],
        cost: 3,
        wanted: Wanted::Ends(-8, &[], UNTOLD),
    },
    Row {
        name: "not of 8",
        setting: Setting::Small,
        body: &[Instr::Load(0), NOT, END],
        args: &[&[8]],
        cost: 3,
        wanted: Wanted::Ends(0, &[], UNTOLD),
    },
    Row {
        name: "not of 0",
        setting: Setting::Small,
        body: &[Instr::Load(0), NOT, END],
        args: &[&[0]],
        cost: 3,
        wanted: Wanted::Ends(1, &[], UNTOLD),
    },
];

// The sum of 1 up to the argument: an iteration costs 11 instructions, and the end costs 4.
const SUM: &[Instr] = &[
    Instr::Load(0),
    Instr::SkipIfZero(9),
    Instr::Load(1),
    Instr::Load(0),
    Instr::Binary(Operator::Plus, 5),
    Instr::Store(1),
    Instr::Load(0),
    Instr::Push(1),
    Instr::Binary(Operator::Minus, 6),
    Instr::Store(0),
    Instr::GoBack(10),
    Instr::Load(1),
    END,
];

static LOOPS: [Row; 4] = [
    Row {
        name: "no turn",
        setting: Setting::Small,
        body: SUM,
        args: &[&[0]],
        cost: 4,
        wanted: Wanted::Ends(0, &[], UNTOLD),
    },
    Row {
        name: "five turns",
        setting: Setting::Small,
        body: SUM,
        args: &[&[5]],
        cost: 59,
        wanted: Wanted::Ends(15, &[], UNTOLD),
    },
    Row {
        name: "a hundred turns",
        setting: Setting::Small,
        body: SUM,
        args: &[&[100]],
        cost: 1104,
        wanted: Wanted::Ends(5050, &[], UNTOLD),
    },
    Row {
        name: "turns without end",
        setting: Setting::Small,
        body: &[Instr::GoBack(0)],
        args: &[&[0]],
        cost: 1_000_000,
        wanted: Wanted::IsOver,
    },
];

// Prints 4, then divides 1 by the argument.
const DIVISION: &[Instr] = &[
    Instr::Push(4),
    Instr::Print,
    Instr::Push(1),
    Instr::Load(0),
    Instr::Binary(Operator::Divide, 7),
    END,
];

// A recursive call of `main`, whose result goes into the second slot.
const AGAIN: Callee = Callee {
    function: 0,
    site: 1,
    line: 9,
    target: Some(1),
    passed: 0,
    lent: 0,
};

static TRAPS: [Row; 6] = [
    Row {
        name: "a division by 0",
        setting: Setting::Small,
        body: DIVISION,
        args: &[&[0]],
        cost: 5,
        wanted: Wanted::Traps(2, 7, &[4]),
    },
    Row {
        name: "a division by 1",
        setting: Setting::Small,
        body: DIVISION,
        args: &[&[1]],
        cost: 6,
        wanted: Wanted::Ends(1, &[4], UNTOLD),
    },
    Row {
        name: "the other sign of the least number",
        setting: Setting::Small,
        body: &[
            Instr::Load(0),
            Instr::Unary(UnaryOperator::Negative, 8),
            END,
        ],
        args: &[&[i64::MIN]],
        cost: 2,
        wanted: Wanted::Traps(1, 8, &[]),
    },
    Row {
        name: "one more than the greatest number",
        setting: Setting::Small,
        body: &[
            Instr::Load(0),
            Instr::Push(1),
            Instr::Binary(Operator::Plus, 6),
            END,
        ],
        args: &[&[i64::MAX]],
        cost: 3,
        wanted: Wanted::Traps(1, 6, &[]),
    },
    // the call at depth 10,000 traps, after 9,999 calls of two instructions
    Row {
        name: "main calls itself",
        setting: Setting::Small,
        body: &[
            Instr::Load(0),
            Instr::Call(CallKind::Plain, AGAIN),
            Instr::Load(1),
            END,
        ],
        args: &[&[3]],
        cost: 20_000,
        wanted: Wanted::Traps(6, 9, &[]),
    },
    Row {
        name: "main spawns itself",
        setting: Setting::Small,
        body: &[
            Instr::Load(0),
            Instr::Call(CallKind::Spawned, Callee { site: 2, ..AGAIN }),
            Instr::Sync,
            Instr::Load(1),
            END,
        ],
        args: &[&[3]],
        cost: 20_000,
        wanted: Wanted::Traps(6, 9, &[]),
    },
];

#[test]
fn values(rt: HostRuntime) {
    for row in &VALUES {
        assert!(rt; holds(rt.alloc(), row), "{}", row.name);
    }
}

#[test]
fn loops(rt: HostRuntime) {
    for row in &LOOPS {
        assert!(rt; holds(rt.alloc(), row), "{}", row.name);
    }
}

#[test]
fn traps(rt: HostRuntime) {
    for row in &TRAPS {
        assert!(rt; holds(rt.alloc(), row), "{}", row.name);
    }
}
