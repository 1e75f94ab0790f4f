//! The input of the parser, and the result of parsing a part of a source.

use crate::names::Names;
use crate::stop::Stop;
use cw_model::token::Token;
use std::alloc::Global;

/// Holds the input that is common to all parts of a source.
#[derive(Clone, Copy)]
pub(crate) struct Reading<'t> {
    pub(crate) alloc: Global,
    /// The text of the source, with the bytes of the names.
    pub(crate) text: &'t [u8],
    /// The distinct names of the source.
    pub(crate) names: &'t Names,
    /// The number of tokens: a bound on the number of consecutive parts and on the nesting of operands.
    pub(crate) limit: usize,
}

/// Holds a parsed part with the tokens after it, or the reason why parsing stopped: the first token that does not
/// fit, or out of memory.
pub(crate) type Read<'a, T> = Result<(T, &'a [Token]), Stop>;
