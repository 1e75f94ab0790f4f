//! The tables of what C programs write, for tests: each row has an example there.

use crate::foreign::{Foreign, directives, operators};
use crate::habits::{Row, items, loops, outside, parameters, typed, words};
use crate::statement_habits::{declared, further, habits, inside, updates};
use crate::words::{Call, cilk_calls, library, other_calls};

/// Returns the tables of tokens that cannot be where they are.
pub fn all_rows() -> [&'static [Row]; 11] {
    [
        outside(),
        parameters(),
        items(),
        words(),
        typed(),
        loops(),
        declared(),
        habits(),
        inside(),
        further(),
        updates(),
    ]
}

/// Returns the tables of names of libraries.
pub fn all_names() -> [&'static [Call]; 3] {
    [library(), other_calls(), cilk_calls()]
}

/// Returns the tables of bytes that start no token.
pub fn all_bytes() -> [&'static [Foreign]; 2] {
    [directives(), operators()]
}
