//! The trees of a source: the syntax tree, which the parser builds, and the resolved tree, in which each name is
//! looked up. The facts about the resolved tree that later stages rely on are in its type.
#![tactic(auto)]

pub mod laws;
pub mod resolved;
pub mod syntax;
mod typed;

pub use typed::Typed;
