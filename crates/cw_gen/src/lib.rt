//! The code generator.
#![tactic(auto)]

mod array_places;
mod excess;
mod expressions;
mod functions;
mod generating;
mod jumps;
mod leaves;
mod lists;
mod loans;
mod loops;
mod marks;
mod sites;
mod slots;
mod statements;
mod whole;

pub use excess::{Excess, excess_of};
pub use generating::generate;
