//! Names and types: finds the sources that break a rule, and builds the tree with each name looked up.
#![tactic(auto)]

mod bodies;
mod callees;
mod captured;
mod checking;
mod frames;
mod functions;
mod globals;
mod known;
mod least_reason;
mod limits;
mod lists;
mod locals;
mod program;
mod reason;
mod regions;
mod repeated;
mod resolve;
mod rules;
mod statements;
mod table;
mod tags;

pub use checking::{check, ill_typed, too_large};
pub use reason::{IllTyped, Other, TooLarge};
