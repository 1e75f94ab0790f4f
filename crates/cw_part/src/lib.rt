//! The outcome of a part of a run: its views and its measure, or a trap, the limit, or lack of memory.
//!
//! [`Part`] is the outcome of a part of a run, with its views and its measure, and the limit of its work. It is a
//! `Monoid`: parts join in serial order, in any grouping. After a trap or an end at the limit nothing counts, work
//! above the smaller limit is over, and memory that was refused to one part is refused to both together. The tables of
//! call sites and of region tags are not part of it, because two tables that represent the same run may differ; the
//! meter of a strand joins them (`cw_meter`).
//!
//! Make a part inside a block a piece of that block before you join it: a spawned child by `into_child`, a call by
//! `into_call`. Join the next piece of the same block as it is. `laws::pieces_are_the_run` states the result: however
//! the run of a frame is cut, and wherever its pieces stopped, the joined part represents the serial run within the
//! limit, or memory was refused. `laws::elision_is_a_run` finds such a run in the meaning of each program, and
//! `laws::pieces_are_the_elision` states that its joined pieces have the serial answer.
#![tactic(auto)]

pub mod laws;
mod outcome;
mod part;
mod read;

pub use outcome::Outcome;
pub use part::Part;
pub use read::Read;
