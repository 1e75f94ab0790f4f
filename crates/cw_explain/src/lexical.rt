//! Why bytes are not cut into tokens, in words.

use crate::foreign::{Byte, byte_at};
use crate::word::{ClippedText, Word, is_printable};
use cw_lex::Uncut;
use cw_model::limits::{MOST_NAME_BYTES, MOST_NUMBER};
use std::fmt;

/// The most digits of a number that are shown.
const MOST_DIGITS: usize = 24;

/// Why the bytes of a line are not cut into tokens, as it is reported.
#[derive(Clone, Copy)]
pub struct OfText<'a> {
    pub reason: Uncut<'a>,
    /// The line, without its line feed.
    pub line: &'a [u8],
    /// The number of bytes of the line before them.
    pub place: usize,
}

impl OfText<'_> {
    // What C writes with a byte that starts no token.
    fn foreign(&self) -> Option<Byte<'_>> {
        match self.reason {
            Uncut::NoToken(_) => byte_at(self.line, self.place),
            _ => None,
        }
    }
}

impl fmt::Display for OfText<'_> {
    fn fmt<W: fmt::Write>(&self, f: &mut fmt::Formatter<W>) -> fmt::Result {
        if let Some(byte) = self.foreign() {
            return write!(f, "{byte}");
        }
        match self.reason {
            Uncut::TooLong(_) => Ok(()),
            Uncut::NotAscii(byte) => write!(
                f,
                "the byte {byte} is not ASCII: replace the character, in comments too"
            ),
            Uncut::NoToken(byte) => write_no_token(f, byte),
            Uncut::LargeNumber(number) => {
                let digits = ClippedText {
                    text: number,
                    columns: MOST_DIGITS,
                };
                write!(f, "the number {digits} is above the maximum, {MOST_NUMBER}")
            }
            Uncut::LongName(name) => {
                let bytes = name.len();
                let name = Word { text: name };
                write!(
                    f,
                    "the name {name} has {bytes} bytes, but at most {MOST_NAME_BYTES} are allowed: shorten it"
                )
            }
        }
    }
}

// A byte that starts no token.
fn write_no_token<W: fmt::Write>(f: &mut fmt::Formatter<W>, byte: u8) -> fmt::Result {
    write!(f, "the byte {byte} ")?;
    if is_printable(byte) {
        let mark = char::from(byte);
        write!(f, "('{mark}') ")?;
    }
    write!(f, "starts no token: delete it")
}
