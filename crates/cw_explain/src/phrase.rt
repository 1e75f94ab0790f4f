//! Texts with names and numbers in them.

use crate::word::Word;
use std::fmt;

/// What replaces the marks in a text.
pub trait Marks {
    /// Writes what replaces a mark.
    fn write_mark<W: fmt::Write>(&self, f: &mut fmt::Formatter<W>, mark: u8) -> fmt::Result;

    /// Writes a text, and what replaces its marks: each is the byte after an `@`.
    fn write<W: fmt::Write>(&self, f: &mut fmt::Formatter<W>, says: &str) -> fmt::Result {
        let mut is_mark = false;
        for byte in says.as_bytes() {
            if is_mark {
                self.write_mark(f, *byte)?;
                is_mark = false;
            } else if *byte == b'@' {
                is_mark = true;
            } else {
                let shown = char::from(*byte);
                write!(f, "{shown}")?;
            }
        }
        Ok(())
    }
}

/// No name.
pub const NO_NAME: Word<'static> = Word { text: b"" };

/// The control characters of `p` and `q`, the parts of a cut, `r`, a new name, and `s`, one that all errors share: a list of
/// errors replaces them by names.
pub const FIRST_PART: u8 = 16;

pub const SECOND_PART: u8 = 17;

pub const NEW_NAME: u8 = 18;

pub const SHARED_NAME: u8 = 19;

/// Writes the control character of a letter that denotes a new name.
pub fn write_new<W: fmt::Write>(f: &mut fmt::Formatter<W>, mark: u8) -> fmt::Result {
    let shown = char::from(mark & 31);
    write!(f, "{shown}")
}

/// Consecutive pieces of a text, with what replaces their marks, each after an `@`: `a`, `b` and `c` are names, `1`, `2` and
/// `3` numbers, and other letters new names.
#[derive(Clone, Copy)]
pub struct Phrase<'a> {
    pub pieces: [&'static str; 6],
    pub names: [Word<'a>; 3],
    pub numbers: [u64; 3],
}

impl<'a> Phrase<'a> {
    /// Returns one piece with these names and numbers.
    pub fn of(says: &'static str, names: [Word<'a>; 2], numbers: [u64; 3]) -> Phrase<'a> {
        Phrase {
            pieces: [says, "", "", "", "", ""],
            names: [names[0], names[1], NO_NAME],
            numbers,
        }
    }

    /// Returns one piece without marks.
    pub fn plain(says: &'static str) -> Phrase<'a> {
        Phrase::of(says, [NO_NAME; 2], [0; 3])
    }

    /// Returns one piece with a name and a number.
    pub fn named(says: &'static str, name: Word<'a>, number: u64) -> Phrase<'a> {
        Phrase::of(says, [name, NO_NAME], [number, 0, 0])
    }

    /// Returns one piece with a number.
    pub fn numbered(says: &'static str, number: u64) -> Phrase<'a> {
        Phrase::named(says, NO_NAME, number)
    }
}

impl Marks for Phrase<'_> {
    fn write_mark<W: fmt::Write>(&self, f: &mut fmt::Formatter<W>, mark: u8) -> fmt::Result {
        let name = match mark {
            b'a' => self.names[0],
            b'b' => self.names[1],
            _ => self.names[2],
        };
        let number = match mark {
            b'1' => self.numbers[0],
            b'2' => self.numbers[1],
            _ => self.numbers[2],
        };
        match mark {
            b'a'..=b'c' => write!(f, "{name}"),
            b'1'..=b'3' => write!(f, "{number}"),
            _ => write_new(f, mark),
        }
    }
}

impl fmt::Display for Phrase<'_> {
    fn fmt<W: fmt::Write>(&self, f: &mut fmt::Formatter<W>) -> fmt::Result {
        for piece in &self.pieces[..] {
            self.write(f, piece)?;
        }
        Ok(())
    }
}
