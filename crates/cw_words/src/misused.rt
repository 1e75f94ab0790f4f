//! The text for words that the command line does not accept.

use crate::verb::{Verb, verb_named};
use std::alloc::{AllocError, Global};

// How `clap` begins its advice to pass an option on as a value, which is no help here.
const PASSED_ON: &str = "  tip: to pass '";
// How `clap` begins the line for a word that should be a command.
const NO_COMMAND: &str = "error: unrecognized subcommand '";
// How `clap` begins the line that shows the form of a command.
const USAGE: &str = "Usage: cilkwork ";

/// Returns the text of an error of `clap` for these words as the program prints it: the bytes of control characters are
/// written as `\xNN`, a file in the place of the command gets the advice to name a command, and an option that the command
/// does not accept gets the list of the options that it accepts.
///
/// # Errors
///
/// An `AllocError` if an allocation fails.
pub fn misuse_text(alloc: Global, text: &str, words: &[String]) -> Result<String, AllocError> {
    let verb = verb_in(text);
    let mut out = String::new(alloc);
    for line in text.lines() {
        push_line(&mut out, line, verb, words)?;
    }
    Ok(out)
}

// Returns the command whose form the text shows.
fn verb_in(text: &str) -> Option<Verb> {
    let usage = text.lines().find_map(|line| line.strip_prefix(USAGE))?;
    verb_named(usage.split(' ').next()?)
}

// Adds a line, and the advice that belongs to it.
fn push_line(
    out: &mut String,
    line: &str,
    verb: Option<Verb>,
    words: &[String],
) -> Result<(), AllocError> {
    if let Some(word) = line.strip_prefix(PASSED_ON) {
        return push_tip(out, word, verb);
    }
    push_escaped(out, line)?;
    out.push('\n')?;
    match line.strip_prefix(NO_COMMAND) {
        Some(word) if names_file(word) => push_run(out, words),
        _ => Ok(()),
    }
}

// Adds the advice to run the words, the first of which is a file.
fn push_run(out: &mut String, words: &[String]) -> Result<(), AllocError> {
    out.push_str("\n  tip: to run a program, use 'cilkwork run")?;
    for word in words {
        out.push(' ')?;
        push_escaped(out, word.as_str())?;
    }
    out.push_str("'\n")
}

// Returns whether a word, which a quote follows, looks like the name of a file: standard input is `-`.
fn names_file(word: &str) -> bool {
    word.contains('.') || word.contains('/') || word == "-'"
}

// Adds the advice for an option or a negative number that a command does not accept.
fn push_tip(out: &mut String, word: &str, verb: Option<Verb>) -> Result<(), AllocError> {
    if is_negative(word) {
        return out.push_str(
            "  tip: a number has no sign; an argument of main is 0 to 9223372036854775807\n",
        );
    }
    match verb {
        Some(verb) => {
            out.push_str("  tip: the options of this command are ")?;
            out.push_str(verb.options())?;
            out.push('\n')
        }
        None => out.push_str("  tip: 'cilkwork COMMAND --help' lists the options of a command\n"),
    }
}

// Returns whether a word begins like a negative number.
fn is_negative(word: &str) -> bool {
    matches!(word.as_bytes(), [b'-', digit, ..] if digit.is_ascii_digit())
}

// Adds a text with the bytes of its control characters written as `\xNN`.
fn push_escaped(out: &mut String, text: &str) -> Result<(), AllocError> {
    for letter in text.chars() {
        let code = letter as u32;
        if letter.is_ascii_control() {
            write!(out, "\\x{code:02x}")?;
        } else if code >= 0x80 && code < 0xa0 {
            write!(out, "\\xc2\\x{code:02x}")?;
        } else {
            out.push(letter)?;
        }
    }
    Ok(())
}
