//! A strand: a run of a job that hands out the continuations of its blocks.
//!
//! A strand runs up to its next event: a spawn, whose continuation it hands out as a job; the return of the newest
//! spawned call whose continuation is out, at which it waits for that continuation; or its end, with an effect that
//! means its job. A continuation that returns without being executed costs nothing: the strand executes it itself.
//!
//! A strand can also execute its spawns in place. Then it hands nothing out, and a call that was spawned in this way
//! returns in place.

use cw_jobs::call::Parts;
use cw_jobs::effect::Effect;
use cw_jobs::job::Job;
use cw_machine::hands::Lender;
use cw_machine::run::Run;
use cw_model::trap::Trap;
use std::snapshot::Snapshot;

/// The mode of a strand.
#[derive(Clone, Copy, Debug)]
pub enum Mode {
    /// It is running, and continues from the place of its run.
    Going,
    /// A spawned call in it has returned: it waits for the newest job out.
    Waiting,
    /// It trapped, with the line.
    Trapped(Trap, u32),
    /// The next instruction would have exceeded the limit of the run.
    Over,
    /// Memory ran out.
    Memory,
    /// It was given up.
    GivenUp,
}

/// The place to which a job that is out returns.
#[derive(Clone, Copy, Debug)]
pub struct Home {
    /// The call whose continuation the job is.
    pub(crate) lender: Lender,
    /// The list of the code that names what the spawned call was lent, if it can be lent anything.
    pub(crate) lent: Option<u32>,
    /// The slot for the result of the spawned call, if there is one.
    pub(crate) target: Option<u32>,
    /// The number of calls that waited in the run when the spawned call began. It identifies the return of this call.
    pub(crate) floor: usize,
}

/// A job that is out.
#[derive(Drop)]
pub struct Lent {
    /// The job, for the proof only.
    pub(crate) job: Snapshot<Job>,
    /// The place to which it returns.
    pub(crate) home: Home,
}

/// The treatment of the continuations of blocks that spawn.
#[derive(Clone, Copy, Debug)]
pub enum Spawns {
    /// Each is handed out.
    HandedOut,
    /// None is handed out: the strand executes spawns like calls, and a call that was spawned in this way returns
    /// like a call.
    InPlace,
}

/// The next event of a strand.
#[derive(Drop)]
pub enum Step {
    /// A call was spawned. This job, the continuation of the block that spawned it, is out.
    Spawned(Job),
    /// The newest job out must return first: it is given, taken back or skipped.
    AtSync,
    /// The strand has ended, with the effect of its job.
    Ended(Effect),
}

/// The end that a strand has reached, from which its effect is made.
#[derive(Clone, Copy, Debug)]
pub enum End {
    /// The strand has stopped, and nothing is out.
    Stopped,
    /// The strand is at the join of its job, within this number of instructions.
    Joined(u64),
    /// Its call has ended, with this value if it returns one, within this number of instructions.
    Gave(Option<i64>, u64),
}

/// The next event of a strand, like `Step`, except that the effect of a strand that has ended is not made yet. An
/// effect is large, and most events have none.
#[derive(Drop)]
pub enum Event {
    /// A call was spawned. This job, the continuation of the block that spawned it, is out.
    Spawned(Job),
    /// The newest job out must return first: it is given, taken back or skipped.
    AtSync,
    /// The strand has ended; its effect is made from this end.
    AtEnd(End),
    /// None of these: the strand executed the number of instructions that the caller asked for, and can continue.
    Ran,
}

/// The result of one instruction of a strand.
#[derive(Drop)]
pub enum Advance {
    /// The instruction was executed, and the strand can continue.
    Ran,
    /// The event that the strand reached, by that instruction or without one.
    Came(Step),
}

/// A strand: it executes a job.
#[derive(Drop)]
pub struct Strand {
    /// Its job, for the proof only.
    pub(crate) of: Snapshot<Job>,
    /// The remaining parts of the job: everything except its arrays, which are in the run.
    pub(crate) parts: Box<Parts>,
    /// The run of the job.
    pub(crate) run: Run,
    /// The number of instructions that it has executed.
    pub(crate) count: u64,
    /// The jobs that are out, the newest last.
    pub(crate) lent: Vec<Lent>,
    /// Jobs that returned and are finished, whose boxes and vectors are reused.
    pub(crate) spares: Vec<Box<Parts>>,
    /// Its mode.
    pub(crate) mode: Mode,
}
