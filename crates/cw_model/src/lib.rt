//! Defines the meaning of the language and all measures, with worked examples that compute.
#![tactic(auto)]

pub mod burden;
pub mod examples;
pub mod laws;
pub mod limits;
pub mod monoid;
pub mod syntax;
pub mod token;
pub mod total;
pub mod trap;
