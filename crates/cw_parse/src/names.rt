//! The distinct names of a source, each once in memory.

ghost use Rattle.std.specs.Prelude.{◌≡◌, ◌<◌, length, IfOk, IfSome};
ghost use Rattle.cw_model.specs.Grammar.{name_of};

use cw_model::token::{Kind, Token};
use cw_tree::syntax::Name;
use std::alloc::{AllocError, Global};

// The maximum number of places in a table.
const MOST_PLACES: usize = 1 << 14;

// The number of places that are searched for a name.
const LOOKED_AT: usize = 4;

/// Holds the distinct names of a source in a hash table: each name is near the place that its hash selects. A name
/// that finds no place there is not stored, so a lookup takes the same small number of steps for all names.
#[derive(Drop)]
pub(crate) struct Names {
    places: Vec<Option<Name>>,
}

/// Returns the bytes of the text that a token spells.
pub(crate) fn bytes_of(text: &[u8], token: Token) -> &[u8]
    ensures { result.now ≡ name_of text.now token }
{
    let end = (token.end as usize).min(text.len());
    let start = (token.start as usize).min(end);
    &text[start..end]
}

// Returns the hash of the bytes, which selects a place.
fn place_of(bytes: &[u8]) -> usize {
    let mut hash: u64 = 0xcbf2_9ce4_8422_2325;
    for byte in bytes {
        hash = (hash ^ u64::from(*byte)).wrapping_mul(0x0100_0000_01b3);
    }
    (hash ^ (hash >> 32)) as usize
}

impl Names {
    /// Returns a table of the names among the tokens of a text.
    ///
    /// # Errors
    ///
    /// Returns an error if memory runs out.
    pub(crate) fn of(alloc: Global, text: &[u8], tokens: &[Token]) -> Result<Names, AllocError> {
        let mut names = Names::none(alloc, tokens.len().min(MOST_PLACES))?;
        for token in tokens {
            if let Kind::Name = token.kind {
                names.keep(alloc, bytes_of(text, *token))?;
            }
        }
        Ok(names)
    }

    // Returns a table with `count` empty places.
    fn none(alloc: Global, count: usize) -> Result<Names, AllocError> {
        let mut places = Vec::with_capacity(alloc, count)?;
        for _ in 0..count {
            places.push(None)?;
        }
        Ok(Names { places })
    }

    // Returns the first place, among the places searched for these bytes, that holds them or is empty.
    fn seek(&self, bytes: &[u8]) -> Option<usize>
        ensures { IfSome result (λ place. place < length self.now.places.items) }
    {
        let first = place_of(bytes);
        for step in 0..LOOKED_AT {
            let place = first.wrapping_add(step).checked_rem(self.places.len())?;
            match self.places.get(place) {
                None => return None,
                Some(None) => return Some(place),
                Some(Some(name)) => {
                    if name.as_bytes() == bytes {
                        return Some(place);
                    }
                }
            }
        }
        None
    }

    // Adds the name with these bytes if there is a place for it.
    fn keep(&mut self, alloc: Global, bytes: &[u8]) -> Result<(), AllocError> {
        if let Some(place) = self.seek(bytes) {
            if self.places[place].is_none() {
                self.places[place] = Some(Name::new(alloc, bytes)?);
            }
        }
        Ok(())
    }

    /// Returns the name with these bytes: the stored one or a copy.
    ///
    /// # Errors
    ///
    /// Returns an error if memory runs out.
    pub(crate) fn name(&self, alloc: Global, bytes: &[u8]) -> Result<Name, AllocError>
        ensures { IfOk result (λ name. name ≡ bytes.now) }
    {
        if let Some(place) = self.seek(bytes) {
            if let Some(name) = &self.places[place] {
                if name.as_bytes() == bytes {
                    return name.share(alloc);
                }
            }
        }
        Name::new(alloc, bytes)
    }
}
