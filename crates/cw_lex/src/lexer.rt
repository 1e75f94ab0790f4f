//! The lexer: the tokens of a text, or its first fault.

ghost use Rattle.std.specs.Prelude.{MatchResult};
ghost use Rattle.cw_lex.specs.Faults.{IsCut, HasNoCut};

use crate::reason::fault_of;
use crate::traversal::{Next, next_in};
use cw_model::token::Token;
use cw_text::{Fault, Source};
use std::alloc::Global;

/// Returns the tokens of a source: at each place the longest token that begins there, with its kind, its bytes and
/// the line, from 1, in which it begins. Separators and comments are no tokens.
///
/// # Errors
///
/// The first fault of the text decides: `Lexical` at the line of a byte that starts no token or of a number above
/// 9,223,372,036,854,775,807, and `Size` at the line of a name of more than 64 bytes. `Memory` if it is out of
/// memory. It returns no other fault.
pub fn lex(alloc: Global, source: &Source) -> Result<Vec<Token>, Fault>
    ensures { MatchResult result (IsCut source.now) (HasNoCut source.now) }
{
    let text = source.bytes();
    let mut tokens = Vec::new(alloc);
    let mut at = 0;
    let mut line = 1;
    loop {
        match next_in(text, at, line) {
            Next::Token(token) => {
                tokens.push(token)?;
                at = token.end as usize;
                line = token.line;
            }
            Next::End => return Ok(tokens),
            Next::Uncut(found) => return Err(fault_of(&found.reason, found.line)),
        }
    }
}
