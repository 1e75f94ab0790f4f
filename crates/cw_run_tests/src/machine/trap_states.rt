//! The states of runs at a trap: the operands of the instruction that traps, and its surroundings. Each run is at its
//! exact cost, and over the limit with one less.

use crate::machine::loops::LOOPING;
use crate::machine::{Setting, code_in};
use crate::programs::{CALLED, SPAWNED};
use cw_code::code::{Halves, Instr, UnaryOperator};
use cw_machine::trap_state::{Round, TrapOperands, TrapState, trap_state};
use cw_model::syntax::{CallKind, Operator};
use cw_runnable::verified::Verified;
use cw_text::Fault;
use std::alloc::Global;

const END: Instr = Instr::ReturnValue;

// The two parts of the first array.
const PARTS: Halves = Halves {
    array: 0,
    left: 1,
    right: 2,
};

/// A `main`, its arguments and its cost up to the trap; the trap's number and line, and what is reported about it.
#[derive(Clone, Copy)]
struct TrapCase {
    name: &'static str,
    setting: Setting,
    body: &'static [Instr],
    args: &'static [i64],
    cost: u64,
    trap: u8,
    line: u32,
    trap_operands: TrapOperands,
    round: &'static [Round],
}

static OPERATORS: [TrapCase; 5] = [
    TrapCase {
        name: "the least number with the other sign",
        setting: Setting::Small,
        body: &[
            Instr::Load(0),
            Instr::Unary(UnaryOperator::Negative, 7),
            END,
        ],
        args: &[i64::MIN],
        cost: 2,
        trap: 1,
        line: 7,
        trap_operands: TrapOperands::One(UnaryOperator::Negative, i64::MIN),
        round: &[],
    },
    TrapCase {
        name: "a quotient by 0, its operands in order",
        setting: Setting::Small,
        body: &[
            Instr::Push(7),
            Instr::Load(0),
            Instr::Binary(Operator::Divide, 2),
            END,
        ],
        args: &[0],
        cost: 3,
        trap: 2,
        line: 2,
        trap_operands: TrapOperands::Two(Operator::Divide, 7, 0),
        round: &[],
    },
    // an operand of `main` remains below
    TrapCase {
        name: "a sum above the greatest number",
        setting: Setting::Small,
        body: &[
            Instr::Push(5),
            Instr::Push(i64::MAX),
            Instr::Load(0),
            Instr::Binary(Operator::Plus, 3),
            Instr::Binary(Operator::Plus, 4),
            END,
        ],
        args: &[2],
        cost: 4,
        trap: 1,
        line: 3,
        trap_operands: TrapOperands::Two(Operator::Plus, i64::MAX, 2),
        round: &[],
    },
    TrapCase {
        name: "a difference in a call",
        setting: Setting::Small,
        body: &[
            Instr::Push(i64::MIN),
            Instr::Load(0),
            Instr::Call(CallKind::Plain, CALLED),
            Instr::Push(0),
            END,
        ],
        args: &[1],
        cost: 6,
        trap: 1,
        line: 3,
        trap_operands: TrapOperands::Two(Operator::Minus, i64::MIN, 1),
        round: &[Round::Call(3)],
    },
    TrapCase {
        name: "the same in a spawned call",
        setting: Setting::Small,
        body: &[
            Instr::Push(i64::MAX),
            Instr::Load(0),
            Instr::Call(CallKind::Spawned, SPAWNED),
            Instr::Push(0),
            END,
        ],
        args: &[-1],
        cost: 6,
        trap: 1,
        line: 3,
        trap_operands: TrapOperands::Two(Operator::Minus, i64::MAX, -1),
        round: &[Round::Call(4)],
    },
];

static ARRAYS: [TrapCase; 6] = [
    TrapCase {
        name: "an index as great as the length",
        setting: Setting::ArraysOfOne,
        body: &[
            Instr::Push(3),
            Instr::NewArray(0, 2),
            Instr::Load(0),
            Instr::Element(0, 4),
            END,
        ],
        args: &[3],
        cost: 4,
        trap: 3,
        line: 4,
        trap_operands: TrapOperands::Index(3, 3),
        round: &[],
    },
    TrapCase {
        name: "an index below 0, and the value that is written above it",
        setting: Setting::ArraysOfOne,
        body: &[
            Instr::Push(2),
            Instr::NewArray(1, 2),
            Instr::Load(0),
            Instr::Push(9),
            Instr::SetElement(1, 5),
            Instr::Push(0),
            END,
        ],
        args: &[-1],
        cost: 5,
        trap: 3,
        line: 5,
        trap_operands: TrapOperands::Index(-1, 2),
        round: &[],
    },
    TrapCase {
        name: "a length below 0",
        setting: Setting::ArraysOfOne,
        body: &[Instr::Load(0), Instr::NewArray(0, 6), Instr::Push(0), END],
        args: &[-1],
        cost: 2,
        trap: 4,
        line: 6,
        trap_operands: TrapOperands::Length(-1),
        round: &[],
    },
    TrapCase {
        name: "a cut behind the end",
        setting: Setting::ArraysOfOne,
        body: &[
            Instr::Push(3),
            Instr::NewArray(0, 2),
            Instr::Load(0),
            Instr::Cut(PARTS, 8),
            Instr::EndCut,
            Instr::Push(0),
            END,
        ],
        args: &[4],
        cost: 4,
        trap: 3,
        line: 8,
        trap_operands: TrapOperands::Cut(4, 3),
        round: &[],
    },
    TrapCase {
        name: "a range behind the end",
        setting: Setting::Halved,
        body: LOOPING,
        args: &[1, 4, 2],
        cost: 5,
        trap: 3,
        line: 5,
        trap_operands: TrapOperands::Range(1, 4, Some(3)),
        round: &[],
    },
    TrapCase {
        name: "too many turns",
        setting: Setting::Halved,
        body: LOOPING,
        args: &[i64::MIN, i64::MAX, 2],
        cost: 5,
        trap: 5,
        line: 5,
        trap_operands: TrapOperands::Range(i64::MIN, i64::MAX, Some(3)),
        round: &[],
    },
];

// Returns whether the state of a run at its trap is the expected one.
fn is_as(trap_info: &TrapState, row: &TrapCase) -> bool {
    trap_info.trap.number() == row.trap
        && trap_info.line == row.line
        && trap_info.trap_operands == row.trap_operands
        && trap_info.round.as_slice() == row.round
        && trap_info.further == 0
}

// Returns whether a run has the expected state at its cost.
fn is_trapped_as(alloc: Global, code: &Verified, row: &TrapCase) -> bool {
    match trap_state(alloc, code, row.args, row.cost) {
        Ok(Some(trap_info)) => is_as(&trap_info, row),
        _ => false,
    }
}

// Returns whether a run exceeds the limit with one less.
fn is_over(alloc: Global, code: &Verified, row: &TrapCase) -> bool {
    match trap_state(alloc, code, row.args, row.cost.wrapping_sub(1)) {
        Err(fault) => fault.number() == 7,
        Ok(_) => false,
    }
}

// Returns whether a test case holds.
fn is_trap_case(alloc: Global, row: &TrapCase) -> bool {
    match code_in(alloc, row.setting, row.body) {
        Ok(code) => is_trapped_as(alloc, &code, row) && is_over(alloc, &code, row),
        Err(_) => false,
    }
}

#[test]
fn operators(rt: HostRuntime) {
    for row in &OPERATORS {
        assert!(rt; is_trap_case(rt.alloc(), row), "{}", row.name);
    }
}

#[test]
fn arrays(rt: HostRuntime) {
    for row in &ARRAYS {
        assert!(rt; is_trap_case(rt.alloc(), row), "{}", row.name);
    }
}

// Returns the number of the fault of a run on this argument, or 0 if it finishes.
fn number_of(alloc: Global, args: &[i64], limit: u64) -> Result<u8, Fault> {
    let code = code_in(alloc, Setting::Small, &[Instr::Load(0), END])?;
    match trap_state(alloc, &code, args, limit) {
        Ok(None) => Ok(0),
        Ok(Some(_)) => Ok(255),
        Err(fault) => Ok(fault.number()),
    }
}

#[test]
fn runs_that_do_not_trap(rt: HostRuntime) -> Result<(), Fault> {
    let rows: &[(&[i64], u64, u8)] = &[(&[5], 2, 0), (&[5], 1, 7), (&[5], 0, 11), (&[], 2, 11)];
    for (args, limit, number) in rows {
        assert_eq!(rt; number_of(rt.alloc(), args, *limit)?, *number);
    }
    Ok(())
}
