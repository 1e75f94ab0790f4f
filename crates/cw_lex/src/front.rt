//! The token, separator or comment at the front of a text.

ghost use Rattle.std.specs.Prelude.{◌≡◌, ◌<◌, length, take, slice_index, true, false};
ghost use Rattle.cw_model.specs.Pieces as spec;
ghost use Rattle.cw_model.specs.Tokens.{IsLongest};
ghost use Rattle.cw_lex.specs.Front.{IsFront};

use crate::bytes::{Class, is_digit, is_letter, is_separator, run};
use crate::numbers::value_of_digits;
use crate::reason::Uncut;
use crate::tables::{one_byte, two_bytes, word_kind};
use cw_model::limits::MOST_NAME_BYTES;
use cw_model::token::Kind;

/// Represents the front of a text.
#[derive(Clone, Copy)]
pub enum Front<'a> {
    /// A space, a tab, a CR or an LF.
    Separator,
    /// A comment, with its length in bytes up to the LF or the end of the text.
    Comment(usize),
    /// A token: its kind and its length in bytes.
    Token(Kind, usize),
    /// No token, for this reason.
    Uncut(Uncut<'a>),
}

// Returns the second byte, or 0 for a text of one byte.
fn second(bytes: &[u8]) -> u8
    ensures { result ≡ slice_index bytes.now 1 }
{
    if bytes.len() > 1 { bytes[1] } else { 0 }
}

// Reads a symbol or a comment.
#[inline(always)]
fn symbol(bytes: &[u8]) -> Front<'_>
    requires some { 0 < length bytes.now }
    requires mark { spec.is_word_byte (slice_index bytes.now 0) ≡ false }
    requires separator { spec.is_separator (slice_index bytes.now 0) ≡ false }
    ensures { IsFront bytes.now result }
{
    let first = bytes[0];
    let second = second(bytes);
    if first == b'/' && second == b'/' {
        return Front::Comment(run(Class::Inner, bytes));
    }
    if let Some(kind) = two_bytes(first, second) {
        return Front::Token(kind, 2);
    }
    match one_byte(first) {
        Some(kind) => Front::Token(kind, 1),
        None => Front::Uncut(Uncut::NoToken(first)),
    }
}

// Returns the length of a number in bytes; a number that begins with 0 has one byte.
fn digits_len(bytes: &[u8]) -> usize
    requires some { 0 < length bytes.now }
    requires digit { spec.is_digit (slice_index bytes.now 0) ≡ true }
    ensures longest { IsLongest bytes.now result }
    ensures some { 0 < result }
    ensures number { spec.is_number (take result bytes.now) ≡ true }
{
    if bytes[0] == b'0' {
        1
    } else {
        run(Class::Digit, bytes)
    }
}

// Reads a number.
#[inline(always)]
fn digits(bytes: &[u8]) -> Front<'_>
    requires some { 0 < length bytes.now }
    requires digit { spec.is_digit (slice_index bytes.now 0) ≡ true }
    ensures { IsFront bytes.now result }
{
    let len = digits_len(bytes);
    let number = &bytes[..len];
    match value_of_digits(number) {
        Some(value) => Front::Token(Kind::Number(value), len),
        None => Front::Uncut(Uncut::LargeNumber(number)),
    }
}

// Reads a keyword or a name.
#[inline(always)]
fn word(bytes: &[u8]) -> Front<'_>
    requires some { 0 < length bytes.now }
    requires letter { spec.is_letter (slice_index bytes.now 0) ≡ true }
    ensures { IsFront bytes.now result }
{
    let len = run(Class::Word, bytes);
    let name = &bytes[..len];
    match word_kind(name) {
        Kind::Name => {
            if len > MOST_NAME_BYTES {
                Front::Uncut(Uncut::LongName(name))
            } else {
                Front::Token(Kind::Name, len)
            }
        }
        kind => Front::Token(kind, len),
    }
}

/// Returns the front of a nonempty text.
#[inline(always)]
pub fn front_of(bytes: &[u8]) -> Front<'_>
    requires { 0 < length bytes.now }
    ensures { IsFront bytes.now result }
{
    if is_separator(bytes[0]) {
        Front::Separator
    } else if is_letter(bytes[0]) {
        word(bytes)
    } else if is_digit(bytes[0]) {
        digits(bytes)
    } else {
        symbol(bytes)
    }
}
