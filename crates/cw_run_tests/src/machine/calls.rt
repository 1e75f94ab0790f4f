//! Mains that call and spawn small functions.

use crate::machine::{Row, Setting, UNTOLD, Wanted, holds};
use crate::programs::{CALLED, SPAWNED};
use cw_code::code::{BlockKind, Callee, Instr};
use cw_model::syntax::{CallKind, Operator};

const END: Instr = Instr::ReturnValue;

// A spawned difference, into the third slot.
const INTO_THIRD: Instr = Instr::Call(
    CallKind::Spawned,
    Callee {
        target: Some(2),
        ..SPAWNED
    },
);

// A spawned difference, into the second slot.
const INTO_SECOND: Instr = Instr::Call(
    CallKind::Spawned,
    Callee {
        target: Some(1),
        ..SPAWNED
    },
);

static CALLS: [Row; 5] = [
    Row {
        name: "arguments in order, the result into its slot, an operand of the caller kept",
        setting: Setting::Small,
        body: &[
            Instr::Push(100),
            Instr::Push(9),
            Instr::Push(2),
            Instr::Call(
                CallKind::Plain,
                Callee {
                    target: Some(2),
                    ..CALLED
                },
            ),
            Instr::Load(2),
            Instr::Binary(Operator::Plus, 4),
            END,
        ],
        args: &[&[0]],
        cost: 11,
        wanted: Wanted::Ends(107, &[], UNTOLD),
    },
    Row {
        name: "the result is dropped",
        setting: Setting::Small,
        body: &[
            Instr::Push(9),
            Instr::Push(2),
            Instr::Call(CallKind::Plain, CALLED),
            Instr::Load(0),
            END,
        ],
        args: &[&[8]],
        cost: 9,
        wanted: Wanted::Ends(8, &[], UNTOLD),
    },
    Row {
        name: "two spawned results, each in its own slot once they are joined",
        setting: Setting::Small,
        body: &[
            Instr::Push(9),
            Instr::Push(2),
            INTO_THIRD,
            Instr::Push(5),
            Instr::Push(1),
            INTO_SECOND,
            Instr::Sync,
            Instr::Load(1),
            Instr::Push(10),
            Instr::Binary(Operator::Times, 4),
            Instr::Load(2),
            Instr::Binary(Operator::Plus, 4),
            END,
        ],
        args: &[&[0]],
        cost: 21,
        wanted: Wanted::Ends(47, &[], UNTOLD),
    },
    Row {
        name: "a spawn in a scope, whose end joins it, beside one that waits for the outer join",
        setting: Setting::Small,
        body: &[
            Instr::Push(9),
            Instr::Push(2),
            INTO_THIRD,
            Instr::Open(BlockKind::Region(0)),
            Instr::Push(5),
            Instr::Push(1),
            INTO_SECOND,
            Instr::Close,
            Instr::Load(1),
            Instr::Store(0),
            Instr::Sync,
            Instr::Load(2),
            END,
        ],
        args: &[&[0]],
        cost: 21,
        wanted: Wanted::Ends(7, &[], UNTOLD),
    },
    Row {
        name: "calls that give nothing, in serial order",
        setting: Setting::Small,
        body: &[
            Instr::Push(3),
            Instr::Call(
                CallKind::Spawned,
                Callee {
                    function: 2,
                    site: 6,
                    ..CALLED
                },
            ),
            Instr::Push(4),
            Instr::Call(
                CallKind::Plain,
                Callee {
                    function: 2,
                    site: 5,
                    ..CALLED
                },
            ),
            Instr::Push(5),
            Instr::Print,
            Instr::Sync,
            Instr::Load(0),
            END,
        ],
        args: &[&[8]],
        cost: 15,
        wanted: Wanted::Ends(8, &[3, 4, 5], UNTOLD),
    },
];

#[test]
fn calls(rt: HostRuntime) {
    for row in &CALLS {
        assert!(rt; holds(rt.alloc(), row), "{}", row.name);
    }
}
