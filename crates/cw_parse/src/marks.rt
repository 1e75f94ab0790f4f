//! Single tokens of one kind.

ghost use Rattle.std.specs.Prelude.{◌≡◌, option_map};
ghost use Rattle.cw_parse.specs.Marks.{is_mark, past};
ghost use Rattle.cw_parse.specs.Reading.{Parses, token};

use crate::input::Read;
use crate::stop::Stop;
use cw_model::token::{Kind, Token};

/// Represents a kind of token that the grammar names.
#[derive(Clone, Copy)]
pub enum Mark {
    Name,
    Int,
    Const,
    Else,
    At,
    As,
    Grain,
    Over,
    Spawn,
    LeftParen,
    RightParen,
    LeftBracket,
    RightBracket,
    LeftBrace,
    RightBrace,
    Comma,
    Semicolon,
    Assign,
    Increment,
    Less,
}

impl Mark {
    /// Reports whether a token of this kind matches the mark.
    pub(crate) fn is(self, kind: Kind) -> bool
        ensures { result ≡ is_mark self kind }
    {
        match self {
            Mark::Name => matches!(kind, Kind::Name),
            Mark::Int => matches!(kind, Kind::Int),
            Mark::Const => matches!(kind, Kind::Const),
            Mark::Else => matches!(kind, Kind::Else),
            Mark::At => matches!(kind, Kind::At),
            Mark::As => matches!(kind, Kind::As),
            Mark::Grain => matches!(kind, Kind::Grain),
            Mark::Over => matches!(kind, Kind::Over),
            Mark::Spawn => matches!(kind, Kind::Spawn),
            Mark::LeftParen => matches!(kind, Kind::LeftParen),
            Mark::RightParen => matches!(kind, Kind::RightParen),
            Mark::LeftBracket => matches!(kind, Kind::LeftBracket),
            Mark::RightBracket => matches!(kind, Kind::RightBracket),
            Mark::LeftBrace => matches!(kind, Kind::LeftBrace),
            Mark::RightBrace => matches!(kind, Kind::RightBrace),
            Mark::Comma => matches!(kind, Kind::Comma),
            Mark::Semicolon => matches!(kind, Kind::Semicolon),
            Mark::Assign => matches!(kind, Kind::Assign),
            Mark::Increment => matches!(kind, Kind::Increment),
            Mark::Less => matches!(kind, Kind::Less),
        }
    }
}

/// Returns the first token and the tokens after it if the first token matches the mark.
pub(crate) fn past(mark: Mark, tokens: &[Token]) -> Option<(Token, &[Token])>
    ensures { option_map (λ x. (x.0, x.1.now)) result ≡ past mark tokens.now }
{
    match tokens {
        [first, rest @ ..] if mark.is(first.kind) => Some((*first, rest)),
        _ => None,
    }
}

/// Parses one token that matches the mark.
///
/// # Errors
///
/// Stops at the first token if it does not match the mark.
pub(crate) fn expect(mark: Mark, tokens: &[Token]) -> Read<'_, Token>
    ensures { Parses (λ x. x) result (token (is_mark mark) tokens.now) }
{
    match tokens {
        [first, rest @ ..] if mark.is(first.kind) => Ok((*first, rest)),
        _ => Err(Stop::At(tokens.len())),
    }
}
