//! The traversal of a text, from one token to the next.

ghost use Rattle.std.specs.Prelude.{◌≡◌, ◌<◌, ◌≤◌, length, drop};
ghost use Rattle.cw_model.specs.declared.limits.TheConstants.{MOST_SOURCE_BYTES};
ghost use Rattle.cw_model.specs.Text.{line_at};
ghost use Rattle.cw_lex.specs.Front.{IsFront};
ghost use Rattle.cw_lex.specs.Traversal.{IsNext};

use crate::front::{Front, front_of};
use crate::reason::Uncut;
use cw_model::token::Token;
use cw_text::At;

/// Represents the next part of a text after separators and comments.
#[derive(Clone, Copy)]
pub enum Next<'a> {
    /// A token.
    Token(Token),
    /// The text's end.
    End,
    /// Bytes that are no token: the reason and its line.
    Uncut(At<Uncut<'a>>),
}

// Returns the front of the text from `at` on.
#[inline(always)]
fn front_at(text: &[u8], at: usize) -> Front<'_>
    requires { at < length text.now }
    ensures { IsFront (drop at text.now) result }
{
    front_of(&text[at..])
}

/// Returns the next token, fault or end of the text from `from` on. `first` is the line of `from`.
#[inline(always)]
pub fn next_in(text: &[u8], from: usize, first: u32) -> Next<'_>
    requires short { length text.now ≤ MOST_SOURCE_BYTES }
    requires within { from ≤ length text.now }
    requires same_line { first ≡ line_at text.now from }
    ensures { IsNext text.now from result }
{
    let mut at = from;
    let mut line = first;
    while at < text.len() {
        match front_at(text, at) {
            Front::Separator => {
                if text[at] == b'\n' {
                    line += 1;
                }
                at += 1;
            }
            Front::Comment(len) => at += len,
            Front::Token(kind, len) => {
                return Next::Token(Token {
                    kind,
                    start: at as u32,
                    end: (at + len) as u32,
                    line,
                });
            }
            Front::Uncut(reason) => return Next::Uncut(At { line, reason }),
        }
    }
    Next::End
}
