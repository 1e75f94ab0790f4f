//! The operands of a run that trapped, and the calls and loops around its last instruction, in words.
#![tactic(auto)]

mod around;
mod trap_text;
mod values;

pub use trap_text::{Trapping, add_trap};
