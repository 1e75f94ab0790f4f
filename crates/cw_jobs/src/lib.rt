//! Jobs and their effects: what workers exchange; and the laws of strands with meters.
#![tactic(auto)]

pub mod call;
pub mod effect;
pub mod first;
pub mod job;
pub mod laws;
pub mod totals;
