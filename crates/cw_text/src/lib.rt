//! Sources, places in them, the faults that every stage returns, and the least rejected lines with their reasons.
#![tactic(auto)]

pub mod fault;
pub mod laws;
mod least;
mod reasons;
pub mod source;

pub use fault::{Fault, Place};
pub use least::LeastLine;
pub use reasons::{At, MOST_RECORDED, Reasons};
pub use source::Source;
