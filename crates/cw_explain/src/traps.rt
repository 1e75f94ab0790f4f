//! The rule that a trap breaks, in words.

use crate::phrase::Phrase;
use cw_model::limits::{MOST_DEPTH, MOST_ELEMENTS, MOST_TURNS};
use cw_model::token::{Kind, Token};
use cw_model::trap::Trap;

/// Returns whether a line multiplies.
pub fn multiplies(tokens: &[Token], line: u32) -> bool {
    for token in tokens {
        if token.line == line && token.kind == Kind::Star {
            return true;
        }
    }
    false
}

/// Returns the rule that a trap breaks, in words, for a line that multiplies or does not.
pub fn trapped(code: Trap, multiplies: bool) -> Phrase<'static> {
    match code {
        Trap::Overflow if multiplies => Phrase::plain(
            "overflow: the result of an operation is below -2^63 or above 2^63 - 1: if remainders are enough, write a * b % m for a * b; otherwise use smaller numbers",
        ),
        Trap::Overflow => Phrase::plain(
            "overflow: the result of an operation is below -2^63 or above 2^63 - 1: use smaller numbers",
        ),
        Trap::DivisionByZero => Phrase::plain("division or remainder by 0: test the divisor first"),
        Trap::OutOfBounds => Phrase::plain(
            "an index, the position of a cut or the range of a loop is outside its array: compare it with len(..) first",
        ),
        Trap::BadLength => Phrase::numbered(
            "the length of an array is below 0 or above @1: use a smaller one",
            MOST_ELEMENTS,
        ),
        Trap::TooManyIterations => {
            Phrase::numbered(
                "a cilk_for has more than @1 iterations: divide its range",
                MOST_TURNS,
            )
        }
        Trap::TooDeep => Phrase::numbered(
            "more than @1 nested calls, main included: end the recursion earlier, or write a while",
            MOST_DEPTH as u64,
        ),
    }
}
