//! The first token that no source continues with, and the tokens that a source continues with.

ghost use Rattle.std.specs.Prelude.{◌≡◌, ◌≤◌, All, IfOk, length, true};
ghost use Rattle.cw_explain.specs.Going.{CanFollow, GoesOn, followed};

use crate::around::Around;
use crate::grammar::{ALL, keyword, shown};
use crate::habits::{Row, items, loops, outside, parameters, typed, words};
use crate::near::nearest;
use crate::phrase::Marks;
use crate::shortened::Shortened;
use crate::statement_habits::{declared, further, habits, inside, updates};
use crate::word::Word;
use crate::words::{MIDDLES, STARTS};
use cw_lex::lex;
use cw_model::token::{Kind, Token};
use cw_parse::parse;
use cw_text::{Fault, Source};
use std::alloc::Global;
use std::fmt;

/// Why a token is unexpected.
#[derive(Clone, Copy)]
pub enum Why<'a> {
    /// This text, with its marks.
    Says(&'static str),
    /// A name that is near to this word.
    Near(Word<'a>, &'static str),
    /// This bracket is not closed.
    Open(Token),
    /// A block without braces.
    Bare,
    /// A semicolon is missing after this token.
    Unended(Token),
    /// No known reason.
    Plain,
}

/// The first unexpected token, or the end of the tokens, with what is expected there.
#[derive(Drop)]
pub struct Unparsed<'a> {
    pub around: Around<'a>,
    pub why: Why<'a>,
    /// What is expected instead, each by a word that spells it.
    expected: Vec<&'static str>,
}

// Whether a source that ends after this text is rejected no sooner than at its end, so a source continues its tokens.
fn goes_on(alloc: Global, text: &[u8]) -> Result<bool, Fault>
    ensures { IfOk result (λ goes. goes ≡ true → GoesOn text.now) }
{
    match is_end_reached(alloc, text) {
        Ok(goes) => Ok(goes),
        Err(Fault::Memory) => Err(Fault::Memory),
        // too many bytes, or a name that is too long
        Err(_) => Ok(false),
    }
}

// Whether a source that ends after this text, which has tokens, is rejected no sooner than at its end.
fn is_end_reached(alloc: Global, text: &[u8]) -> Result<bool, Fault>
    ensures { IfOk result (λ goes. goes ≡ true → GoesOn text.now) }
{
    let source = Source::read(alloc, text)?;
    let tokens = lex(alloc, &source)?;
    let end = source.end_line();
    match parse(alloc, &source, tokens.as_slice()) {
        Ok(_) => Ok(true),
        Err(Fault::Syntax(place)) => Ok(place.line == end),
        Err(Fault::Memory) => Err(Fault::Memory),
        Err(_) => Ok(false),
    }
}

// A text followed by a word, each on a line of its own.
fn with_word(alloc: Global, text: &[u8], word: &str) -> Result<Vec<u8>, Fault>
    ensures { IfOk result (λ longer. longer.items ≡ followed text.now word.now) }
{
    let mut longer = Vec::from_slice(alloc, text)?;
    longer.push(b'\n')?;
    longer.extend_from_slice(word.as_bytes())?;
    longer.push(b'\n')?;
    Ok(longer)
}

// What can follow a text: a source continues with each of these.
fn choices(alloc: Global, text: &[u8]) -> Result<Vec<&'static str>, Fault>
    ensures { IfOk result (λ words. All (λ word. CanFollow text.now word.now) words.items) }
{
    let mut expected = Vec::new(alloc);
    for word in ALL {
        let longer = with_word(alloc, text, word)?;
        if goes_on(alloc, longer.as_slice())? {
            expected.push(*word)?;
        }
    }
    Ok(expected)
}

/// Returns what is unexpected at a token, and what is expected instead after the tokens before it, shortened.
///
/// # Errors
///
/// Returns an error if memory runs out.
pub fn unparsed_at<'a>(
    alloc: Global,
    around: Around<'a>,
    short: &Shortened,
) -> Result<Unparsed<'a>, Fault> {
    let expected = choices(alloc, short.text())?;
    let why = why_of(&around, expected.as_slice());
    Ok(Unparsed {
        around,
        why,
        expected,
    })
}

// The text for a block without braces.
const BARE: &str = "put the block of @^ in braces: { @. }";

// The text for a loop without a body.
const EMPTY: &str = "write an empty block: { }";

// The text of the first row that applies; one that only says how the statement begins counts if `by_front` is true.
fn row_of(around: &Around<'_>, rows: &[Row], by_front: bool) -> Option<&'static str> {
    for (front, before, from, says) in rows {
        let counts = by_front || !before.is_empty() || !from.is_empty();
        if counts && around.is_like(front, before, from) {
            return Some(*says);
        }
    }
    None
}

/// Returns the text of the first row that applies to a token that no source has at this position.
pub fn nowhere(around: &Around<'_>, by_front: bool) -> Option<&'static str> {
    if !around.is_inside {
        return row_of(around, outside(), by_front).or(row_of(around, parameters(), by_front));
    }
    row_of(around, words(), by_front)
        .or(row_of(around, typed(), by_front))
        .or(row_of(around, loops(), by_front))
        .or(row_of(around, declared(), by_front))
        .or(row_of(around, habits(), by_front))
}

/// Returns the text for a `+=` on a name that is not a reducer of the source.
pub fn update_of(around: &Around<'_>) -> Option<&'static str> {
    if around.is_like("total", "first", "+=") {
        return None;
    }
    row_of(around, updates(), true)
}

// The text for a token that is in the wrong place, by what precedes it.
fn misplaced(around: &Around<'_>) -> Option<&'static str> {
    if !around.is_inside {
        return row_of(around, items(), true);
    }
    row_of(around, inside(), true).or(row_of(around, further(), true))
}

// Why no source continues with the token.
fn why_of<'a>(around: &Around<'a>, expected: &[&'static str]) -> Why<'a> {
    let Some(found) = around.found() else {
        return match around.open {
            Some(bracket) => Why::Open(bracket),
            None => Why::Plain,
        };
    };
    if let Some((name, word)) = near_of(around, found, expected) {
        return Why::Near(name, word);
    }
    if let Some(says) = nowhere(around, true) {
        return Why::Says(says);
    }
    if let Some(why) = missing(around, found, expected) {
        return why;
    }
    if let Some(says) = misplaced(around) {
        return Why::Says(says);
    }
    match around.open {
        Some(bracket) if is_behind(found.kind, bracket.kind) => Why::Open(bracket),
        _ => Why::Plain,
    }
}

// Whether a token of one kind shows that a bracket of the other kind is not closed.
fn is_behind(kind: Kind, bracket: Kind) -> bool {
    match kind {
        Kind::LeftBrace | Kind::RightBrace | Kind::Semicolon => bracket != Kind::LeftBrace,
        Kind::RightParen => bracket == Kind::LeftBracket,
        Kind::RightBracket => bracket == Kind::LeftParen,
        _ => false,
    }
}

// Braces or a semicolon that are missing before the token.
fn missing<'a>(around: &Around<'a>, found: Token, expected: &[&'static str]) -> Option<Why<'a>> {
    if !around.is_inside {
        return None;
    }
    if expected.contains(&"{") && !around.is_like("", "", "operator") {
        return Some(Why::Bare);
    }
    let last = around.before(1)?;
    let is_next = match found.kind {
        Kind::RightBrace => true,
        Kind::Name => last.line < found.line,
        _ => keyword(found.kind).is_some() && last.kind != Kind::Return,
    };
    if is_next && expected.contains(&";") {
        return Some(Why::Unended(last));
    }
    None
}

// The name that is near to a word, with that word: the token itself, the first of its statement, or the one before it.
fn near_of<'a>(
    around: &Around<'a>,
    found: Token,
    expected: &[&'static str],
) -> Option<(Word<'a>, &'static str)> {
    if let Some(name) = around.unknown(Some(found)) {
        if let Some(word) = nearest(name, expected) {
            return Some((name, word));
        }
    }
    if let Some(name) = around.unknown(around.front()) {
        if let Some(word) = nearest(name, STARTS) {
            return Some((name, word));
        }
    }
    let name = around.unknown(around.before(1))?;
    let word = nearest(name, MIDDLES)?;
    Some((name, word))
}

impl Unparsed<'_> {
    /// Returns the token, if the source does not end there.
    pub fn found(&self) -> Option<Token> {
        self.around.found()
    }

    /// Returns the other line that matters, if there is one.
    pub fn other_line(&self) -> Option<u32> {
        match self.why {
            Why::Open(bracket) => Some(bracket.line),
            Why::Unended(token) => Some(token.line),
            Why::Says(says) if says.contains("@{") => self.around.open.map(|token| token.line),
            _ => None,
        }
    }
}

impl fmt::Display for Unparsed<'_> {
    fn fmt<W: fmt::Write>(&self, f: &mut fmt::Formatter<W>) -> fmt::Result {
        let Some(found) = self.around.found() else {
            write!(f, "unexpected end of the source")?;
            return fmt_why(self, f);
        };
        let word = self.around.word(found);
        write!(f, "unexpected {word}")?;
        if let Why::Plain = self.why {
            if keyword(found.kind).is_some() && self.expected.contains(&"x") {
                write!(f, ": {word} is a keyword")?;
            }
        }
        fmt_why(self, f)
    }
}

// Why it is unexpected.
fn fmt_why<W: fmt::Write>(unparsed: &Unparsed<'_>, f: &mut fmt::Formatter<W>) -> fmt::Result {
    let around = &unparsed.around;
    match unparsed.why {
        Why::Says(says) => {
            write!(f, ": ")?;
            around.write(f, says)
        }
        Why::Near(name, word) => write!(f, ": did you mean {word} instead of {name}?"),
        Why::Open(bracket) => {
            let mark = around.word(bracket);
            let line = bracket.line;
            write!(f, ": close the {mark} of line {line} before it")
        }
        Why::Bare => {
            let is_empty = around.found().map(|token| token.kind) == Some(Kind::Semicolon);
            write!(f, ": ")?;
            around.write(f, if is_empty { EMPTY } else { BARE })
        }
        Why::Unended(token) => {
            let line = token.line;
            let word = around.word(token);
            write!(f, ": write ; after {word} in line {line}")
        }
        Why::Plain => fmt_expected(unparsed.expected.as_slice(), f),
    }
}

// What is expected there.
fn fmt_expected<W: fmt::Write>(
    expected: &[&'static str],
    f: &mut fmt::Formatter<W>,
) -> fmt::Result {
    for i in 0..expected.len() {
        let called = shown(expected[i]);
        let front = if i == 0 {
            "; expected "
        } else if i + 1 == expected.len() {
            " or "
        } else {
            ", "
        };
        write!(f, "{front}{called}")?;
    }
    Ok(())
}
