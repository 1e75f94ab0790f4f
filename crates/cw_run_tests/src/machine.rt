//! The results of small codes, worked out by hand: each run is at its exact cost, and over the limit with one less.

mod arrays;
mod calls;
mod cuts;
mod integers;
mod loops;
mod measures;
mod requests;
mod schedules;
mod strands;
mod trap_states;

use crate::machine::arrays::{ARRAYS, ARRAYS_OF_ONE};
use crate::machine::cuts::{FILLED, FILLED_PART, FILLED_TWO, SWAPPED};
use crate::machine::loops::HALVED;
use crate::machine::measures::BESIDE_FIB;
use crate::machine::strands::BESIDE_SHOW;
use crate::programs::{Around, Part, verified_of};
use cw_code::code::Instr;
use cw_machine::alone::run_alone;
use cw_machine::values::values_alone;
use cw_model::burden::{Burden, Edges};
use cw_model::syntax::{Operator, Reduction};
use cw_model::total::Total;
use cw_runnable::verified::Verified;
use cw_text::Fault;
use std::alloc::{AllocError, Global};
use std::sync::Arc;

/// The maximum limit.
pub(crate) const MOST: u64 = 4_611_686_018_427_387_904;

// A function that returns its first parameter minus its second.
const MINUS: Part = Part {
    gives_int: true,
    params: 2,
    slots: 3,
    array_params: 0,
    arrays: 0,
    body: &[
        Instr::Load(0),
        Instr::Load(1),
        Instr::Binary(Operator::Minus, 3),
        Instr::ReturnValue,
    ],
};

// A function that prints its parameter and returns nothing.
const SHOW: Part = Part {
    gives_int: false,
    params: 1,
    slots: 1,
    array_params: 0,
    arrays: 0,
    body: &[Instr::Load(0), Instr::Print, Instr::Return],
};

/// A `main` with one parameter and three slots, and two functions: one returns its first parameter minus its second,
/// and one prints its parameter and returns nothing.
pub(crate) static SMALL: Around = Around {
    main: Part {
        gives_int: true,
        params: 1,
        slots: 3,
        array_params: 0,
        arrays: 0,
        body: &[],
    },
    others: &[MINUS, SHOW],
    passed: &[&[]],
    reducers: &[("", Reduction::Sum)],
    tags: &[""],
};

/// The total of the reducer of a small program without updates.
pub(crate) const UNTOLD: &[Total] = &[Total::Sum(0)];

/// No charge for any edge.
const FREE: Burden = Burden {
    charge: 0,
    edges: Edges::Spawn,
};

/// The expected outcome of a run.
#[derive(Clone, Copy)]
pub(crate) enum Wanted {
    /// It finishes with this value, these lines and these totals.
    Ends(i64, &'static [i64], &'static [Total]),
    /// It traps with the trap of this number in this line, after these lines.
    Traps(u8, u32, &'static [i64]),
    /// It exceeds its limit.
    IsOver,
}

/// The code around a `main`.
#[derive(Clone, Copy)]
pub(crate) enum Setting {
    Small,
    Arrays,
    ArraysOfOne,
    Filled,
    FilledPart,
    FilledTwo,
    Swapped,
    Halved,
    Fib,
    Show,
}

impl Setting {
    fn around(self) -> &'static Around {
        match self {
            Setting::Small => &SMALL,
            Setting::Arrays => &ARRAYS,
            Setting::ArraysOfOne => &ARRAYS_OF_ONE,
            Setting::Filled => &FILLED,
            Setting::FilledPart => &FILLED_PART,
            Setting::FilledTwo => &FILLED_TWO,
            Setting::Swapped => &SWAPPED,
            Setting::Halved => &HALVED,
            Setting::Fib => &BESIDE_FIB,
            Setting::Show => &BESIDE_SHOW,
        }
    }
}

/// Returns the verified code of a `main` in a setting.
pub(crate) fn code_in(
    alloc: Global,
    setting: Setting,
    body: &[Instr],
) -> Result<Arc<Verified>, Fault> {
    verified_of(alloc, setting.around(), body)
}

/// A `main` and the code around it, and its outcome for each of these lists of arguments at this cost.
#[derive(Clone, Copy)]
pub(crate) struct Row {
    pub(crate) name: &'static str,
    pub(crate) setting: Setting,
    pub(crate) body: &'static [Instr],
    pub(crate) args: &'static [&'static [i64]],
    pub(crate) cost: u64,
    pub(crate) wanted: Wanted,
}

// Returns whether a finished run has the expected outcome.
fn is_end(value: i64, lines: &[i64], totals: &[Total], wanted: &Wanted) -> bool {
    match wanted {
        Wanted::Ends(told, printed, sums) => {
            value == *told && lines == *printed && totals == *sums
        }
        _ => false,
    }
}

// Returns whether a fault is this trap, after these lines.
fn is_trap(fault: &Fault, number: u8, at: u32, lines: &[i64]) -> bool {
    match fault {
        Fault::Trap { code, line, output } => {
            code.number() == number && *line == at && output.as_slice() == lines
        }
        _ => false,
    }
}

// Returns whether a fault is the expected outcome.
fn is_fault(fault: &Fault, wanted: &Wanted) -> bool {
    match wanted {
        Wanted::Ends(..) => false,
        Wanted::Traps(number, at, lines) => is_trap(fault, *number, *at, lines),
        Wanted::IsOver => fault.number() == 7,
    }
}

// Returns whether a run within a limit has this outcome.
fn comes_to(alloc: Global, code: Arc<Verified>, args: &[i64], limit: u64, wanted: &Wanted) -> bool {
    match run_alone(alloc, code, args, limit, FREE) {
        Ok(ended) => is_end(
            ended.value,
            ended.lines.as_slice(),
            ended.totals.as_slice(),
            wanted,
        ),
        Err(fault) => is_fault(&fault, wanted),
    }
}

// Returns whether a run of values only, within a limit, has this outcome.
fn plainly_comes_to(
    alloc: Global,
    code: Arc<Verified>,
    args: &[i64],
    limit: u64,
    wanted: &Wanted,
) -> bool {
    match values_alone(alloc, code, args, limit, FREE) {
        Ok(given) => is_end(
            given.value,
            given.lines.as_slice(),
            given.totals.as_slice(),
            wanted,
        ),
        Err(fault) => is_fault(&fault, wanted),
    }
}

// Returns whether both runs within a limit have this outcome. Returns an `AllocError` if memory runs out.
fn both_come_to(
    alloc: Global,
    code: &Arc<Verified>,
    args: &[i64],
    limit: u64,
    wanted: &Wanted,
) -> Result<bool, AllocError> {
    let counted = comes_to(alloc, Arc::try_clone(code)?, args, limit, wanted);
    let plain = plainly_comes_to(alloc, Arc::try_clone(code)?, args, limit, wanted);
    Ok(counted && plain)
}

// Returns whether a test case holds for these arguments at its cost, and exceeds the limit with one less if it does
// not exceed it at its cost. Returns an `AllocError` if memory runs out.
fn holds_on(
    alloc: Global,
    code: &Arc<Verified>,
    args: &[i64],
    row: &Row,
) -> Result<bool, AllocError> {
    let exact = both_come_to(alloc, code, args, row.cost, &row.wanted)?;
    if let Wanted::IsOver = row.wanted {
        return Ok(exact);
    }
    let over = both_come_to(alloc, code, args, row.cost.wrapping_sub(1), &Wanted::IsOver)?;
    Ok(exact && over)
}

// Returns whether a test case holds for all its lists of arguments.
fn holds_on_all(alloc: Global, code: &Arc<Verified>, row: &Row) -> bool {
    for args in row.args {
        if !holds_on(alloc, code, args, row).unwrap_or(false) {
            return false;
        }
    }
    true
}

/// Returns whether a test case holds.
pub(crate) fn holds(alloc: Global, row: &Row) -> bool {
    match code_in(alloc, row.setting, row.body) {
        Ok(code) => holds_on_all(alloc, &code, row),
        Err(_) => false,
    }
}
