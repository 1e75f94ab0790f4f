//! Checks productions: leaves out or repeats each word of a text of words.

use crate::answers::{Stage, fault_of};
use crate::rows::Asked;
use cw_text::{Fault, Place};
use std::alloc::{AllocError, Global};

/// Returns `without` with the line of the fault if each of the words is left out, and then `, twice` with the line of
/// the fault if the word is repeated; each word is on a line of its own. The line 0 means no fault, and `?` means a
/// fault that is not of the grammar. `refused ` precedes the result if the unchanged words have a fault.
///
/// # Errors
///
/// Returns an `AllocError` if there is no memory for the answer.
pub fn words_text(alloc: Global, asked: &Asked) -> Result<String, AllocError> {
    let Ok(words) = str::from_utf8(asked.text.as_slice()) else {
        return String::from_str(alloc, "no words");
    };
    let mut out = String::new(alloc);
    if fault_of_words(alloc, asked, words, 0, 1)?.is_some() {
        out.push_str("refused ")?;
    }
    out.push_str("without")?;
    push_lines(&mut out, alloc, asked, words, 0)?;
    out.push_str(", twice")?;
    push_lines(&mut out, alloc, asked, words, 2)?;
    Ok(out)
}

// Appends, for each of these words, the line of the fault of the text with the word repeated `times` times.
fn push_lines(
    out: &mut String,
    alloc: Global,
    asked: &Asked,
    words: &str,
    times: u32,
) -> Result<(), AllocError> {
    for (place, _) in words.split(' ').enumerate() {
        let line = match fault_of_words(alloc, asked, words, place, times)? {
            None => String::from_str(alloc, " 0")?,
            Some(Fault::Syntax(Place { line })) => format!(in alloc; " {line}")?,
            Some(_) => String::from_str(alloc, " ?")?,
        };
        out.push_str(line.as_str())?;
    }
    Ok(())
}

// Returns the first fault of the text with the word at `place` repeated `times` times, between the two texts around
// the row; each word is on a line of its own.
fn fault_of_words(
    alloc: Global,
    asked: &Asked,
    words: &str,
    place: usize,
    times: u32,
) -> Result<Option<Fault>, AllocError> {
    let mut text = asked.before.clone()?;
    for (at, word) in words.split(' ').enumerate() {
        let count = if at == place { times } else { 1 };
        push_word(&mut text, word, count)?;
    }
    text.extend_from_slice(asked.behind.as_slice())?;
    Ok(fault_of(alloc, Stage::Tree, text.as_slice()))
}

// Appends a line with `count` copies of a word.
fn push_word(text: &mut Vec<u8>, word: &str, count: u32) -> Result<(), AllocError> {
    for _ in 0..count {
        text.extend_from_slice(word.as_bytes())?;
        text.extend_from_slice(b" ")?;
    }
    text.extend_from_slice(b"\n")
}
