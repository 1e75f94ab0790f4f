//! The front end: from bytes to code that can be executed, through all stages.
#![tactic(auto)]

mod compiling;
pub mod laws;

pub use compiling::{Compiled, compile, compile_with_heads};
