//! Computes the length of the greedy schedule of strands, either of a record of strands or of the run of a program,
//! and the steps and speedups of a run by number of processors.
#![tactic(auto)]

mod board;
pub mod counts;
pub mod laws;
mod line;
mod plan;
mod ready;
mod rows;
pub mod schedule;
pub mod schedules;
pub mod speedups;
pub mod weights;
