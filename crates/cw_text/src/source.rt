//! The text of a program.

ghost use Rattle.std.specs.Prelude.{◌≡◌, MatchResult};
ghost use Rattle.cw_model.specs.Text.{end_line, IsSourceText};
ghost use Rattle.cw_text.specs.Sources.{IsNoSource};

use crate::fault::{Fault, Place};
use cw_model::limits::MOST_SOURCE_BYTES;
use std::alloc::Global;
use std::marker::Model;

/// Holds the text of a program: at most `MOST_SOURCE_BYTES` bytes of ASCII.
#[derive(Drop, Debug)]
pub struct Source {
    bytes: Vec<u8>,
}

impl Model for Source {
    ghost use Rattle.std.specs.Prelude.{List, ℕ};
    ghost use Rattle.cw_model.specs.Text.{IsSourceText};

    ghost Value = { List ℕ };

    ghost view = { λ s. s.bytes.items };

    ghost invariant = { λ s. IsSourceText s.bytes.items };
}

impl Source {
    /// Returns the source with this text, which it copies.
    ///
    /// # Errors
    ///
    /// Returns `Size` at line 1 if the text is too long, otherwise `Lexical` at the line of the first byte above 127,
    /// and `Memory` if it is out of memory.
    pub fn read(alloc: Global, bytes: &[u8]) -> Result<Source, Fault>
        ensures { MatchResult result (λ s. s ≡ bytes.now) (IsNoSource bytes.now) }
    {
        if bytes.len() > MOST_SOURCE_BYTES {
            return Err(Fault::Size(Place { line: 1 }));
        }
        let mut line = 1;
        for byte in bytes {
            if *byte >= 128 {
                return Err(Fault::Lexical(Place { line }));
            }
            if *byte == b'\n' {
                line += 1;
            }
        }
        Ok(Source {
            bytes: Vec::from_slice(alloc, bytes)?,
        })
    }

    /// Returns the complete text.
    pub fn bytes(&self) -> &[u8]
        ensures value { result.now ≡ self.now }
        ensures valid { IsSourceText self.now }
    {
        self.bytes.as_slice()
    }

    /// Returns the line in which the text ends: 1 plus the number of its LF bytes.
    pub fn end_line(&self) -> u32
        ensures { result ≡ end_line self.now }
    {
        let mut line = 1;
        for byte in self.bytes.as_slice() {
            if *byte == b'\n' {
                line += 1;
            }
        }
        line
    }
}
