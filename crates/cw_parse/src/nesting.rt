//! The limits on open brackets and on tokens in a row.

ghost use Rattle.std.specs.Prelude.{◌≡◌, ◌+◌, ◌<◌, ◌≤◌, ◌^◌, None, MatchOption, MatchResult};
ghost use Rattle.cw_model.specs.Sizes as spec;
ghost use Rattle.cw_parse.specs.Nesting.{IsFirstPassed, IsRejected, first_passed, noted};
ghost use Rattle.cw_parse.specs.Parsed.{IsShort};

use cw_model::limits::{MOST_OPEN_BRACKETS, MOST_TOKENS_IN_A_ROW};
use cw_model::token::{Kind, Token};
use cw_text::{At, Fault, Place};

/// Represents a limit on tokens.
#[derive(Clone, Copy)]
pub enum TooNested {
    /// Too many brackets are open at once.
    Brackets,
    /// Too many tokens are in a row, without a semicolon or a brace.
    Row,
}

/// Checks the limits on open brackets and on tokens in a row.
///
/// # Errors
///
/// Returns `Size` at the least line of a token that exceeds one of these limits.
pub fn test_nesting(tokens: &[Token]) -> Result<(), Fault>
    ensures { MatchResult result (λ _. IsShort tokens.now) (IsRejected tokens.now) }
{
    match passed_by_tokens(tokens) {
        None => Ok(()),
        Some(at) => Err(Fault::Size(Place { line: at.line })),
    }
}

/// Returns the least line of a token that exceeds a limit, with a limit that it exceeds; `None` if no token exceeds a
/// limit.
pub fn passed_by_tokens(tokens: &[Token]) -> Option<At<TooNested>>
    ensures { MatchOption result (IsShort tokens.now) (IsFirstPassed tokens.now) }
{
    first_passed(tokens).first
}

// Holds the least line so far of a token that exceeds a limit, with the first limit recorded for this line.
#[derive(Clone, Copy)]
struct Passed {
    first: Option<At<TooNested>>,
}

impl Passed {
    // Records a line, unless the token keeps the limit.
    #[inline(always)]
    fn note(&mut self, kept: bool, reason: TooNested, line: u32)
        ensures { self.new.first ≡ noted kept reason line self.old.first }
    {
        if kept {
            return;
        }
        match self.first {
            None => self.first = Some(At { line, reason }),
            Some(at) => {
                if line < at.line {
                    self.first = Some(At { line, reason });
                }
            }
        }
    }
}

// Returns the least line of a token that exceeds a limit, with the first limit recorded for it.
fn first_passed(tokens: &[Token]) -> Passed
    ensures { result.first ≡ first_passed None 0 0 tokens.now }
{
    let mut passed = Passed { first: None };
    let mut brackets = 0usize;
    let mut row = 0usize;
    for token in tokens {
        brackets = open_after(brackets, token.kind);
        row = row_after(row, token.kind);
        passed.note(
            brackets <= MOST_OPEN_BRACKETS,
            TooNested::Brackets,
            token.line,
        );
        passed.note(row <= MOST_TOKENS_IN_A_ROW, TooNested::Row, token.line);
    }
    passed
}

// Returns the number of open brackets after a token.
fn open_after(brackets: usize, kind: Kind) -> usize
    requires { brackets + 1 < 2 ^ 64 }
    ensures is { result ≡ spec.open_after brackets kind }
    ensures within { result ≤ brackets + 1 }
{
    match kind {
        Kind::LeftParen | Kind::LeftBracket | Kind::LeftBrace => brackets + 1,
        Kind::RightParen | Kind::RightBracket | Kind::RightBrace => brackets.saturating_sub(1),
        _ => brackets,
    }
}

// Returns the number of tokens in a row after a token.
fn row_after(row: usize, kind: Kind) -> usize
    requires { row + 1 < 2 ^ 64 }
    ensures is { result ≡ spec.row_after row kind }
    ensures within { result ≤ row + 1 }
{
    match kind {
        Kind::Semicolon | Kind::LeftBrace | Kind::RightBrace => 0,
        _ => row + 1,
    }
}
