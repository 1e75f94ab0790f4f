//! Runs with many workers. Each has a thread and a seat of the yard, executes jobs, and steals while it waits.
#![tactic(auto)]

pub mod crew;
pub mod gate;
pub(crate) mod offers;
mod outcome;
pub(crate) mod post;
pub mod run;
pub(crate) mod sign;
pub(crate) mod work;
