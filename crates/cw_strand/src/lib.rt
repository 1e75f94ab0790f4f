//! Strands that run: what a worker runs a job with.
#![tactic(auto)]

mod advancing;
mod ending;
mod giving;
mod going;
mod lending;
mod memory;
mod starting;
mod stopping;
pub mod strand;
mod taking;
