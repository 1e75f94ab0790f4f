//! Limits of tokens, of parts of a program, such as functions and names, of loops and of code, in words.

use crate::phrase::{NO_NAME, Phrase};
use crate::word::Word;
use cw_gen::Excess;
use cw_model::limits::{
    MOST_CALL_STATEMENTS, MOST_DECLARED, MOST_FUNCTIONS, MOST_INSTRUCTIONS, MOST_LOOPS,
    MOST_OPEN_BRACKETS, MOST_PARAMETERS, MOST_REDUCERS, MOST_TAG_BYTES, MOST_TAGS,
    MOST_TOKENS_IN_A_ROW,
};
use cw_parse::TooNested;
use cw_types::TooLarge;

/// Returns the text for a limit of tokens that a line exceeds.
pub fn of_tokens(limit: TooNested) -> Phrase<'static> {
    match limit {
        TooNested::Brackets => Phrase::numbered(
            "more than @1 brackets are open at once in this line: assign a part to a variable, or move it into a function",
            MOST_OPEN_BRACKETS as u64,
        ),
        TooNested::Row => Phrase::numbered(
            "more than @1 consecutive tokens without a semicolon or a brace: assign a part to a variable",
            MOST_TOKENS_IN_A_ROW as u64,
        ),
    }
}

/// Returns the text for a limit on the parts of a program that a line exceeds.
pub fn of_parts<'a>(limit: &'a TooLarge<'_>) -> Phrase<'a> {
    match limit {
        TooLarge::Functions => Phrase::named(
            "the source has more than @1 functions: merge some",
            NO_NAME,
            MOST_FUNCTIONS as u64,
        ),
        TooLarge::Reducers => Phrase::named(
            "the source has more than @1 reducers: merge some",
            NO_NAME,
            MOST_REDUCERS as u64,
        ),
        TooLarge::Parameters(name, count) => Phrase::of(
            "@a has @1 parameters, but at most @2 are allowed: pass an array instead",
            [Word::of(name), NO_NAME],
            [*count as u64, MOST_PARAMETERS as u64, 0],
        ),
        TooLarge::Declared(name) => Phrase::named(
            "@a declares more than @1 names, parameters included: move a part into a function of its own",
            Word::of(name),
            MOST_DECLARED as u64,
        ),
        TooLarge::TagBytes(tag) => Phrase::of(
            "the tag @a has @1 bytes, but at most @2 are allowed: shorten it",
            [Word { text: tag }, NO_NAME],
            [tag.len() as u64, MOST_TAG_BYTES as u64, 0],
        ),
        TooLarge::Tags => Phrase::named(
            "the source has more than @1 different tags: give regions the same tag",
            NO_NAME,
            MOST_TAGS as u64,
        ),
    }
}

/// Returns the text for too many loops.
pub fn of_loops() -> Phrase<'static> {
    Phrase::numbered(
        "the source has more than @1 cilk_for statements: move a loop into a function and call it",
        MOST_LOOPS as u64,
    )
}

/// Returns the text for a program whose code is too large.
pub fn of_code(excess: Excess) -> Phrase<'static> {
    match excess {
        Excess::CallStatements(count) => Phrase::of(
            "the source has @1 call statements, but at most @2 are allowed: move repeated calls into a function",
            [NO_NAME; 2],
            [count as u64, MOST_CALL_STATEMENTS as u64, 0],
        ),
        Excess::Instructions => Phrase::numbered(
            "the program has more than @1 instructions, each construct counted once: move repeated statements into a function",
            MOST_INSTRUCTIONS as u64,
        ),
    }
}
