//! The parts of a job.

use cw_meter::Detail;
use cw_runnable::verified::Verified;
use cw_slices::Slice;
use std::sync::Arc;

/// The extent of a job: where its execution ends.
#[derive(Clone, Copy, Debug)]
pub enum Extent {
    /// At the end of its call.
    WholeCall,
    /// Before the join of the sync block in which it begins.
    ToJoin,
}

/// The frame of a call on its own, between two instructions: the continuation that is handed out at a spawn, and the
/// frame that comes back from a join.
#[derive(Drop)]
pub struct Rest {
    /// The pc of its next instruction.
    pub place: usize,
    /// The depth of the call, 1 for `main`.
    pub depth: usize,
    /// The values of its slots, and at a join its operands above them. A slot that a spawned call has taken holds an
    /// arbitrary value.
    pub cells: Vec<i64>,
    /// The arrays of its array slots. An array slot that a spawned call has taken holds no array.
    pub slices: Vec<Slice>,
}

/// A call, or the continuation of a sync block of a call, to be executed on its own.
#[derive(Drop)]
pub struct Parts {
    /// A share of the code.
    pub code: Arc<Verified>,
    /// The extent of the job.
    pub extent: Extent,
    /// The frame in which it begins.
    pub rest: Rest,
    /// The number of the call site of its call, which is all that its meter needs to know about the parts that
    /// enclose it.
    pub site: u32,
    /// How much is recorded of the whole run.
    pub detail: Detail,
    /// The limit of the whole run, in instructions.
    pub limit: u64,
    /// The number of instructions that the run had executed before this job.
    pub before: u64,
}
