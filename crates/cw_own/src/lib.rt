//! Ownership: finds the sources that touch locals that a spawn or a cut has taken, with the rule that they break.
#![tactic(auto)]

mod around;
mod bits;
mod findings;
mod gains;
pub mod laws;
mod owned;
mod owning;
mod reading;
mod reason;
mod restrictions;
mod row;
mod rules;
mod taken;

pub use owned::Owned;
pub use owning::{disowned, own};
pub use reason::{Disowned, Holder, Start, Touch};
