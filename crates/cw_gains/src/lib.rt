//! What a program gains at most if the instructions of a function take no time.
#![tactic(auto)]

pub mod counts;
pub mod gains;
