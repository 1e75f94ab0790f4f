//! The words of the program: its command line, what words ask for, and what is said in place of a run.
#![tactic(auto)]

mod asked;
pub mod command;
pub mod edges;
mod explaining;
mod help;
pub mod laws;
mod misused;
pub mod number;
mod release;
mod verb;
mod words;

pub use asked::{Mode, Options, Request, Said};
pub use explaining::take_explain;
pub use release::{RELEASE, is_version, version};
pub use words::request;
