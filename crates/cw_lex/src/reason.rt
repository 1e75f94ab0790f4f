//! The reasons why bytes are not cut into tokens.

ghost use Rattle.std.specs.Prelude.{◌≡◌};
ghost use Rattle.cw_lex.specs.Uncut.{fault_of};

use cw_text::{Fault, Place};

/// Represents a reason why bytes are not cut into tokens.
#[derive(Clone, Copy)]
pub enum Uncut<'a> {
    /// There are this many bytes, more than `MOST_SOURCE_BYTES`.
    TooLong(usize),
    /// This byte is above 127.
    NotAscii(u8),
    /// This byte starts no token.
    NoToken(u8),
    /// The number with these digits exceeds `MOST_NUMBER`.
    LargeNumber(&'a [u8]),
    /// The name has more than `MOST_NAME_BYTES` bytes, which are these.
    LongName(&'a [u8]),
}

/// Returns the fault of bytes that are not cut for this reason, in this line.
pub fn fault_of(reason: &Uncut<'_>, line: u32) -> Fault
    ensures { result ≡ fault_of reason.now line }
{
    match reason {
        Uncut::TooLong(_) | Uncut::LongName(_) => Fault::Size(Place { line }),
        Uncut::NotAscii(_) | Uncut::NoToken(_) | Uncut::LargeNumber(_) => {
            Fault::Lexical(Place { line })
        }
    }
}
