//! The head of a function, which only reports use, not instructions.

use cw_model::syntax::Name;

/// The head of a function of the source.
#[derive(Debug, Drop)]
pub struct Head {
    /// The function's name.
    pub name: Name,
    /// The line of the name, from 1.
    pub line: u32,
}
