//! The strands of small runs, worked out by hand.

use crate::machine::arrays::ALONE;
use crate::machine::measures::INTO_FIRST;
use crate::machine::{Setting, code_in};
use crate::programs::{Around, Part, SPAWNED};
use cw_code::code::Instr;
use cw_greedy::entry::{Cut, Entry};
use cw_machine::recorded::strands_alone;
use cw_model::syntax::CallKind;
use cw_text::Fault;
use std::alloc::{AllocError, Global};

const FIRST: i128 = -1;

const NEXT: i128 = -2;

const ENDED: i128 = -3;

const JOINED: i128 = -4;

const CALLED: i128 = -5;

// Returns a cut as a number, if it is one.
fn number_of(cut: Cut) -> Option<i128> {
    match cut {
        Cut::Nothing => None,
        Cut::Spawned(true) => Some(FIRST),
        Cut::Spawned(false) => Some(NEXT),
        Cut::Ended => Some(ENDED),
        Cut::Joined => Some(JOINED),
        Cut::Called => Some(CALLED),
    }
}

// Appends the entries of a chunk as numbers: instructions as their number, if there are any, then the cut.
fn add_numbers(numbers: &mut Vec<i128>, entries: &[Entry]) -> Result<(), AllocError> {
    for entry in entries {
        if entry.before > 0 {
            numbers.push(i128::from(entry.before))?;
        }
        if let Some(number) = number_of(entry.cut) {
            numbers.push(number)?;
        }
    }
    Ok(())
}

// Returns whether these entries are kept.
fn are_kept(alloc: Global, chunks: &[Vec<Entry>], hand: &[i128]) -> Result<bool, AllocError> {
    let mut numbers = Vec::new(alloc);
    for chunk in chunks {
        add_numbers(&mut numbers, chunk.as_slice())?;
    }
    Ok(numbers.as_slice() == hand)
}

// Returns whether this is kept of a run with this number of strands, which are not too many.
fn keeps(
    alloc: Global,
    setting: Setting,
    body: &[Instr],
    hand: &[i128],
    count: u64,
) -> Result<bool, Fault> {
    let code = code_in(alloc, setting, body)?;
    let strands = strands_alone(alloc, code, &[], 1_000_000)?;
    if !strands.fits() || strands.count() != count {
        return Ok(false);
    }
    let same = are_kept(alloc, strands.chunks(), hand)?;
    Ok(same)
}

// fib(4): 2 of `main`, its call, and 2 more; a call spawns after 8, calls after 4 in parallel with the child, and has
// 5 after the join; a call with n below 2 is one strand of 6. The first of the 23 strands begins the run, and 22
// begin at a cut.
const FIB_OF_4: &[Instr] = &[
    Instr::Push(4),
    INTO_FIRST,
    Instr::Load(0),
    Instr::ReturnValue,
];

const FIB_STRANDS: &[i128] = &[
    2, CALLED, 8, FIRST, 8, FIRST, 8, FIRST, 6, ENDED, 4, CALLED, 6, CALLED, JOINED, 5, ENDED, 4,
    CALLED, 6, CALLED, JOINED, 5, ENDED, 4, CALLED, 8, FIRST, 6, ENDED, 4, CALLED, 6, CALLED,
    JOINED, 5, CALLED, JOINED, 5, CALLED, 2,
];

#[test]
fn fib(rt: HostRuntime) -> Result<(), Fault> {
    assert!(rt; keeps(rt.alloc(), Setting::Fib, FIB_OF_4, FIB_STRANDS, 23)?);
    Ok(())
}

/// `void p(int v) { print(v); } int main() { cilk_spawn p(1); cilk_spawn p(2); print(3); cilk_sync; return 0; }`
pub(crate) static BESIDE_SHOW: Around = Around {
    others: &[Part {
        gives_int: false,
        params: 1,
        slots: 1,
        array_params: 0,
        arrays: 0,
        body: &[Instr::Load(0), Instr::Print, Instr::Return],
    }],
    passed: &[&[]],
    ..ALONE
};

const PRINTS: &[Instr] = &[
    Instr::Push(1),
    Instr::Call(CallKind::Spawned, SPAWNED),
    Instr::Push(2),
    Instr::Call(CallKind::Spawned, SPAWNED),
    Instr::Push(3),
    Instr::Print,
    Instr::Sync,
    Instr::Push(0),
    Instr::ReturnValue,
];

const PRINT_STRANDS: &[i128] = &[2, FIRST, 3, ENDED, 2, NEXT, 3, ENDED, 2, JOINED, 3];

#[test]
fn prints(rt: HostRuntime) -> Result<(), Fault> {
    assert!(rt; keeps(rt.alloc(), Setting::Show, PRINTS, PRINT_STRANDS, 6)?);
    Ok(())
}
