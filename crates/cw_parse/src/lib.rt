//! The parser: builds the tree of a source from its tokens.
#![tactic(auto)]

mod expr;
mod input;
mod item;
pub mod laws;
mod list;
mod marks;
mod names;
mod nesting;
mod opening;
mod parser;
mod recovering;
mod resume;
mod simple;
mod stmt;
mod stop;

pub use nesting::{TooNested, passed_by_tokens};
pub use parser::parse;
pub use recovering::{Item, Recovered, Rejected, recover};
