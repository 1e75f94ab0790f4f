//! Cuts the text of a source into tokens.
#![tactic(auto)]

mod bytes;
mod front;
pub mod laws;
mod lexer;
mod numbers;
mod reason;
mod tables;
mod traversal;

pub use front::{Front, front_of};
pub use lexer::lex;
pub use reason::Uncut;
