//! Messages for the words of the command line that are not numbers or are out of range.

use clap::ArgMatches;
use cw_explain::Word;
use cw_model::limits::MOST_NUMBER;
use cw_text::Fault;
use cw_words::command::command;
use cw_words::edges::{EDGES, USUAL_EDGES, edges_named};
use cw_words::number::{BURDEN, LIMIT, NumberOption, PROCESSORS, TOP, UP_TO, WORKERS, read_number};
use std::alloc::{AllocError, Global};

/// No further number is reported once the messages have this number of bytes.
const MOST_BYTES: usize = 3_072;

/// Returns a text with a line for each word that is a reason for `Fault::Arguments`, with the range that the word must
/// be in. Returns an empty text if the command line rejects the words for another reason.
///
/// # Errors
///
/// `Fault::Memory` if memory runs out.
pub fn misused(alloc: Global, words: &[String]) -> Result<String, Fault> {
    let mut out = String::new(alloc);
    let Ok(matches) = command(alloc)?.try_get_matches_from(words) else {
        return Ok(out);
    };
    if let Some((_, given)) = matches.subcommand() {
        of_number(&mut out, given, "<P>", PROCESSORS)?;
        of_number(&mut out, given, "--limit <N>", LIMIT)?;
        of_number(&mut out, given, "--burden <N>", BURDEN)?;
        of_number(&mut out, given, "--processors <N>", UP_TO)?;
        of_number(&mut out, given, "--top <N>", TOP)?;
        of_number(&mut out, given, "--workers <N>", WORKERS)?;
        of_edges(&mut out, given)?;
        for text in given.get_strs("ARGS").unwrap_or(&[]) {
            of_range(&mut out, "[ARGS]...", text, 0, MOST_NUMBER)?;
        }
    }
    Ok(out)
}

// Adds a message for the number of an option, which the help shows by this name, if it is malformed or out of range.
fn of_number(
    out: &mut String,
    given: &ArgMatches<'_>,
    name: &str,
    option: NumberOption,
) -> Result<(), AllocError> {
    let text = given.get_str(option.name).unwrap_or(option.usual);
    of_range(out, name, text, option.least, option.most)
}

// Adds a message for a number, if it is malformed or out of range, unless the messages are already too long.
fn of_range(
    out: &mut String,
    name: &str,
    text: &str,
    least: u64,
    most: u64,
) -> Result<(), AllocError> {
    if out.len() < MOST_BYTES && read_number(text, least, most).is_none() {
        let word = Word {
            text: text.as_bytes(),
        };
        write!(
            out,
            "error: invalid value '{word}' for '{name}': it is a number from {least} to {most}, in decimal digits only\n"
        )?;
    }
    Ok(())
}

// Adds a message for the word of `--edges`, if it is not the name of any edges.
fn of_edges(out: &mut String, given: &ArgMatches<'_>) -> Result<(), AllocError> {
    let text = given.get_str(EDGES).unwrap_or(USUAL_EDGES);
    if edges_named(text).is_none() {
        let word = Word {
            text: text.as_bytes(),
        };
        write!(
            out,
            "error: invalid value '{word}' for '--edges <E>': it is spawn or both\n"
        )?;
    }
    Ok(())
}
