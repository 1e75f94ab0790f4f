//! The effect of a job: what its strand returns.

use crate::call::Rest;
use cw_meter::Meter;
use cw_model::total::Total;
use cw_model::trap::Trap;
use cw_slices::Slice;
use std::collections::VecDeque;

/// The lines that a run has printed, and its totals, meter and cost.
#[derive(Drop)]
pub struct PieceOutput {
    /// The values printed, in order.
    pub lines: VecDeque<i64>,
    /// The total of each reducer.
    pub totals: Vec<Total>,
    /// Work, span, burdened span and all rows of sites and tags, if its job counts them.
    pub meter: Meter,
    /// The number of instructions that it executed.
    pub cost: u64,
}

/// The result of executing a job. The arrays of the job's array slots come back, each in the memory in which it was
/// given; a call that has ended was given none.
#[derive(Drop)]
pub enum Effect {
    /// The call has ended, with its value if it returns one.
    Ended {
        value: Option<i64>,
        shown: PieceOutput,
    },
    /// The run is at the join of the block in which it began. If a new array was made in a slot of the job,
    /// `replaced` holds the job's own array.
    Joined {
        frame: Rest,
        replaced: Vec<Option<Slice>>,
        shown: PieceOutput,
    },
    /// A trap, with its line, what was printed before, and the number of instructions up to it.
    Trapped {
        trap: Trap,
        line: u32,
        lines: VecDeque<i64>,
        cost: u64,
        back: Vec<Slice>,
    },
    /// The next instruction would exceed the limit of the run.
    OverLimit {
        back: Vec<Slice>,
    },
    /// There was not enough memory: nothing is known of the job any more, nor of its arrays.
    Memory {
        back: Vec<Slice>,
    },
    /// The job was given up, while it was executed or before it began. Only the arrays come back.
    GivenUp {
        back: Vec<Slice>,
    },
}
