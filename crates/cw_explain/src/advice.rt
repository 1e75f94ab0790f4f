//! What to write instead of a name of a library.

use crate::word::Word;
use crate::words::{Call, cilk_calls, library, other_calls};

// The advice of a table for a name.
fn in_table(name: Word<'_>, table: &[Call]) -> Option<&'static str> {
    for (word, says) in table {
        if name.is(word.as_bytes()) {
            return Some(*says);
        }
    }
    None
}

/// Returns what to write instead of a name of a library of C or Cilk, in the imperative; none for other names.
pub fn advice_for(name: Word<'_>) -> Option<&'static str> {
    in_table(name, library())
        .or(in_table(name, other_calls()))
        .or(in_table(name, cilk_calls()))
}
