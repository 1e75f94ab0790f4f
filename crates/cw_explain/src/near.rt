//! Names that are one edit away from others.

use crate::around::{first_from, word_of};
use crate::word::Word;
use cw_model::token::{Kind, Token};

/// The minimum length of names that are compared, in bytes.
const LEAST_BYTES: usize = 3;

/// The most tokens before a line that are searched for a parameter.
const MOST_SEARCHED: usize = 8_192;

// The bytes of a text from a place on.
fn from(text: &[u8], place: usize) -> &[u8] {
    text.get(place..).unwrap_or(&[])
}

// The first place at which two texts differ.
fn parting(one: &[u8], other: &[u8]) -> usize {
    let common = one.len().min(other.len());
    for place in 0..common {
        if one[place] != other[place] {
            return place;
        }
    }
    common
}

// Whether two texts of one length differ in one byte, or in two consecutive bytes that are swapped.
fn is_turned(one: &[u8], other: &[u8], place: usize) -> bool {
    let behind = place.saturating_add(1);
    if from(one, behind) == from(other, behind) {
        return true;
    }
    let further = place.saturating_add(2);
    one.get(place) == other.get(behind)
        && one.get(behind) == other.get(place)
        && from(one, further) == from(other, further)
}

/// Returns whether one edit makes one name the other: a byte more, less or different, or two consecutive bytes swapped. Names
/// of fewer than three bytes are near to none.
pub fn is_near(one: &[u8], other: &[u8]) -> bool {
    if one.len() < LEAST_BYTES || other.len() < LEAST_BYTES || one == other {
        return false;
    }
    let place = parting(one, other);
    let behind = place.saturating_add(1);
    if one.len() == other.len() {
        is_turned(one, other, place)
    } else if one.len() < other.len() {
        from(one, place) == from(other, behind)
    } else {
        from(one, behind) == from(other, place)
    }
}

/// Returns the first of these words that a name is near to.
pub fn nearest(name: Word<'_>, words: &[&'static str]) -> Option<&'static str> {
    for word in words {
        if is_near(name.text, word.as_bytes()) {
            return Some(*word);
        }
    }
    None
}

/// Returns the number of names that are declared right after a token of this kind, with commas between them, from the number
/// before it.
pub fn declared_behind(before: u8, kind: Kind) -> u8 {
    match kind {
        Kind::Int | Kind::Void | Kind::Sum | Kind::Max => 1,
        Kind::As => 2,
        Kind::Name => before.saturating_sub(1),
        Kind::Comma => before,
        _ => 0,
    }
}

/// Returns whether a name is declared anywhere among these tokens.
pub fn is_declared(text: &[u8], tokens: &[Token], name: Word<'_>) -> bool {
    let mut declared = 0;
    for token in tokens {
        if declared > 0 && token.kind == Kind::Name && word_of(text, *token).is(name.text) {
            return true;
        }
        declared = declared_behind(declared, token.kind);
    }
    false
}

/// Returns how the reducer of this name reduces that is declared among these tokens: `sum` or `max`.
pub fn reduction_of(text: &[u8], tokens: &[Token], name: Word<'_>) -> Option<Kind> {
    let mut last = None;
    for token in tokens {
        let is_next = matches!(last, Some(Kind::Sum) | Some(Kind::Max));
        if is_next && token.kind == Kind::Name && word_of(text, *token).is(name.text) {
            return last;
        }
        last = Some(token.kind);
    }
    None
}

/// Returns whether the function that contains a line has a const parameter of this name.
pub fn is_const(text: &[u8], tokens: &[Token], name: Word<'_>, line: u32) -> bool {
    let mut braces: usize = 0;
    let mut found = false;
    let start = first_from(tokens, line).saturating_sub(MOST_SEARCHED);
    for place in start..tokens.len() {
        let token = tokens[place];
        if token.line > line {
            return found;
        }
        match token.kind {
            Kind::LeftBrace => braces = braces.saturating_add(1),
            Kind::RightBrace => {
                braces = braces.saturating_sub(1);
                found = found && (braces > 0 || token.line == line);
            }
            Kind::Const => found = found || is_named(text, tokens, place, name),
            _ => {}
        }
    }
    found
}

// Whether the parameter that begins at a place with `const int` has this name.
fn is_named(text: &[u8], tokens: &[Token], place: usize, name: Word<'_>) -> bool {
    match tokens.get(place.saturating_add(2)) {
        Some(token) => word_of(text, *token).is(name.text),
        None => false,
    }
}
