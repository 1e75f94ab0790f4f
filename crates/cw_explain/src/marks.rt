//! What replaces the marks in a text about a token: the tokens around it, and parts of its statement.

use crate::around::Around;
use crate::excerpt::first_line;
use crate::phrase::{Marks, write_new};
use crate::word::ClippedText;
use cw_model::token::{Kind, Token};
use std::fmt;

/// The most columns of a part of a statement.
const MOST_COLUMNS: usize = 60;

/// The most tokens of a statement that are read.
const MOST_TOKENS: usize = 300;

/// The most digits of a hexadecimal number whose value is shown.
const MOST_DIGITS: usize = 15;

// The value of a hexadecimal number, without the `0` before its `x`.
fn hexadecimal(digits: &[u8]) -> Option<u64> {
    if digits.len() < 2 || digits.len() > MOST_DIGITS {
        return None;
    }
    let mut value: u64 = 0;
    for place in 1..digits.len() {
        let digit = match digits[place] {
            b'0'..=b'9' => digits[place] - b'0',
            b'a'..=b'f' => digits[place] - b'a' + 10,
            b'A'..=b'F' => digits[place] - b'A' + 10,
            _ => return None,
        };
        value = value.wrapping_mul(16).wrapping_add(u64::from(digit));
    }
    Some(value)
}

impl<'a> Around<'a> {
    /// Returns the place of the token that ends the statement, or that opens its block.
    pub fn end(&self) -> usize {
        let last = self
            .tokens
            .len()
            .min(self.first.saturating_add(MOST_TOKENS));
        let mut depth: usize = 0;
        for at in self.first..last {
            let kind = self.at(at).map(|token| token.kind);
            match kind {
                Some(Kind::LeftParen) | Some(Kind::LeftBracket) => depth = depth.saturating_add(1),
                Some(Kind::RightParen) | Some(Kind::RightBracket) => {
                    depth = depth.saturating_sub(1);
                }
                Some(Kind::LeftBrace) | Some(Kind::RightBrace) if at > self.place => return at,
                Some(Kind::Semicolon) if depth == 0 && at >= self.place => return at,
                _ => {}
            }
        }
        last
    }

    // The bytes from one place to another.
    fn bytes(&self, start: usize, end: usize) -> ClippedText<'a> {
        ClippedText {
            text: self.text.get(start..end).unwrap_or(&[]),
            columns: MOST_COLUMNS,
        }
    }

    /// Returns where the token at a place begins.
    pub fn start_of(&self, place: usize) -> usize {
        self.at(place)
            .map(|token| token.start as usize)
            .unwrap_or(self.text.len())
    }

    /// Returns where the token before a place ends.
    pub fn end_before(&self, place: usize) -> usize {
        match self.at(place.saturating_sub(1)) {
            Some(token) if place > 0 => token.end as usize,
            _ => 0,
        }
    }

    /// Returns the tokens from one place to before another.
    pub fn part(&self, from: usize, to: usize) -> ClippedText<'a> {
        self.bytes(self.start_of(from), self.end_before(to))
    }

    // From a place to the end of the statement, with its semicolon.
    fn rest(&self, from: usize) -> ClippedText<'a> {
        let end = self.end();
        match self.at(end) {
            Some(token) if token.kind == Kind::Semicolon => self.part(from, end.saturating_add(1)),
            _ => self.part(from, end),
        }
    }

    // What follows the group that begins at the token, up to the end of the statement.
    fn after_call(&self) -> ClippedText<'a> {
        let rest = self.rest(self.place);
        let start = self.start_of(self.place);
        let end = start.saturating_add(rest.text.len());
        let rest = match self.after_group(self.place) {
            Some(after) => self.bytes(self.end_before(after), end),
            None => self.bytes(end, end),
        };
        ClippedText {
            text: first_line(rest.text),
            columns: MOST_COLUMNS,
        }
    }

    // The group that begins at the token.
    fn group(&self) -> ClippedText<'a> {
        match self.after_group(self.place) {
            Some(after) => self.part(self.place, after),
            None => ClippedText {
                text: b"(..)",
                columns: MOST_COLUMNS,
            },
        }
    }

    // The statement up to the name before the token.
    fn before_call(&self) -> ClippedText<'a> {
        let start = self.start_of(self.first);
        self.bytes(start, self.start_of(self.place.saturating_sub(1)))
    }

    // The place of the first token from the one on that belongs to no type.
    fn named(&self) -> usize {
        let from = self.place;
        for at in from..self.tokens.len().min(from.saturating_add(MOST_TOKENS)) {
            let kind = self.at(at).map(|token| token.kind);
            let is_type = matches!(
                kind,
                Some(Kind::Star) | Some(Kind::Const) | Some(Kind::Int) | Some(Kind::Void)
            );
            if !is_type && !self.is_like_type(at) {
                return at;
            }
        }
        self.tokens.len()
    }

    // The last name outside of brackets before the value or the end of a declaration.
    fn declared(&self) -> Option<Token> {
        let mut found = None;
        let mut depth: usize = 0;
        for at in self.first..self
            .tokens
            .len()
            .min(self.first.saturating_add(MOST_TOKENS))
        {
            let token = self.at(at)?;
            match token.kind {
                Kind::LeftParen => depth = depth.saturating_add(1),
                Kind::RightParen => depth = depth.saturating_sub(1),
                Kind::Name if depth == 0 => found = Some(token),
                Kind::Assign | Kind::Semicolon => return found,
                _ => {}
            }
        }
        found
    }

    // The token that a mark denotes.
    fn marked(&self, mark: u8) -> Option<Token> {
        match mark {
            b'^' => self.front(),
            b'&' => self.at(self.first.saturating_add(1)),
            b'+' => self.at(self.place.saturating_add(1)),
            b'*' => self.at(self.place.saturating_add(2)),
            b'#' => self.at(self.place.saturating_add(3)),
            b'n' => self.at(self.named()),
            b'd' => self.declared(),
            _ => self.before(mark.wrapping_sub(b'0') as usize),
        }
    }

    /// Returns the part of the statement that a mark denotes.
    pub fn marked_part(&self, mark: u8) -> Option<ClippedText<'a>> {
        let part = match mark {
            b'<' => self.part(self.first, self.place),
            b'.' => self.rest(self.place),
            b'>' => self.rest(self.place.saturating_add(1)),
            b'm' => self.rest(self.named()),
            b'(' => self.group(),
            b';' => self.after_call(),
            b'[' => self.before_call(),
            b'=' => self.part(self.first.saturating_add(2), self.place),
            _ => return None,
        };
        Some(part)
    }
}

// Writes an operand that follows the token and the next one, in parentheses if it has several tokens.
fn write_operand<W: fmt::Write>(around: &Around<'_>, f: &mut fmt::Formatter<W>) -> fmt::Result {
    let from = around.place.saturating_add(2);
    let end = around.end();
    let operand = around.part(from, end);
    if end.saturating_sub(from) > 1 {
        return write!(f, "({operand});");
    }
    write!(f, "{operand};")
}

// Writes what to write instead of the first name of a library from a place on.
fn write_advice<W: fmt::Write>(
    around: &Around<'_>,
    f: &mut fmt::Formatter<W>,
    from: usize,
) -> fmt::Result {
    for at in from..around.tokens.len().min(from.saturating_add(MOST_TOKENS)) {
        let Some(token) = around.at(at) else {
            return Ok(());
        };
        if let Some(says) = around.advice(token) {
            let name = around.word(token);
            return write!(f, "there is no {name}: {says}");
        }
    }
    Ok(())
}

// Writes the value of the hexadecimal number that ends with the token.
fn write_value<W: fmt::Write>(around: &Around<'_>, f: &mut fmt::Formatter<W>) -> fmt::Result {
    let digits = match around.found() {
        Some(token) => around.word(token).text,
        None => b"",
    };
    let is_hexadecimal = match digits.first() {
        Some(byte) => *byte == b'x' || *byte == b'X',
        None => false,
    };
    match hexadecimal(digits) {
        Some(value) if is_hexadecimal => write!(f, "{value}"),
        _ => write!(f, "it with decimal digits only"),
    }
}

// Writes a token.
fn write_token<W: fmt::Write>(
    around: &Around<'_>,
    f: &mut fmt::Formatter<W>,
    token: Option<Token>,
) -> fmt::Result {
    match token {
        Some(token) => {
            let word = around.word(token);
            write!(f, "{word}")
        }
        None => Ok(()),
    }
}

/// Writes what a mark denotes: a token, a part of the statement, a new name, a line, advice or a value.
impl Marks for Around<'_> {
    fn write_mark<W: fmt::Write>(&self, f: &mut fmt::Formatter<W>, mark: u8) -> fmt::Result {
        if let Some(part) = self.marked_part(mark) {
            return write!(f, "{part}");
        }
        match mark {
            b'{' => {
                let line = self.open.map(|token| token.line).unwrap_or(1);
                write!(f, "{line}")
            }
            b'r' => write_new(f, mark),
            // around what replaces the statement
            b'!' => Ok(()),
            b'l' => write_advice(self, f, self.place.saturating_sub(1)),
            b'L' => write_advice(self, f, self.first),
            b'x' => write_value(self, f),
            b')' => write_operand(self, f),
            _ => write_token(self, f, self.marked(mark)),
        }
    }
}
