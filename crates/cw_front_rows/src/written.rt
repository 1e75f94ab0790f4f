//! Texts as rows write them: the escapes that begin with a backslash.

use std::alloc::{AllocError, AllocFailed, Global};
use std::collections::BTreeMap;

/// Represents the reason why a text cannot be read.
#[derive(Debug, Drop)]
pub enum Unread {
    /// Out of memory.
    Memory(AllocError),
    /// The text has no valid form.
    Form,
}

impl From<AllocError> for Unread {
    fn from(error: AllocError) -> Unread {
        Unread::Memory(error)
    }
}

impl<T: Drop> From<AllocFailed<T>> for Unread {
    fn from(failed: AllocFailed<T>) -> Unread {
        Unread::Memory(AllocError::from(failed))
    }
}

/// Maps names to texts.
pub type Texts = BTreeMap<String, Vec<u8>>;

/// Returns the bytes that a written text represents; `texts` holds the named texts.
///
/// `\n`, `\r` and `\t` are the same bytes as in Rust, `\xNN` is the byte with these two hexadecimal digits, `\b` is a
/// backslash, and `\{NAME}` is a named text. `\<COUNT TEXT\>` repeats a text; in the repeated text `\#` is the number
/// of the repetition counted from 0, and `\+` is that number counted from 1.
///
/// # Errors
///
/// Returns `Form` if another character follows a backslash, if no text with the name was defined before, or if a
/// count exceeds 4,294,967,295, and `Memory` if memory runs out.
pub fn read(alloc: Global, texts: &Texts, written: &str) -> Result<Vec<u8>, Unread> {
    let mut out = Vec::new(alloc);
    for (place, part) in written.split("\\<").enumerate() {
        if place == 0 {
            append(&mut out, alloc, texts, 0, part)?;
        } else {
            repeat(&mut out, alloc, texts, part)?;
        }
    }
    Ok(out)
}

// Reads `COUNT TEXT\>REST`.
fn repeat(out: &mut Vec<u8>, alloc: Global, texts: &Texts, part: &str) -> Result<(), Unread> {
    let (repeated, rest) = part.split_once("\\>").ok_or(Unread::Form)?;
    let (count, text) = repeated.split_once(' ').ok_or(Unread::Form)?;
    let count = count.parse::<u32>().map_err(|_| Unread::Form)?;
    for number in 0..count {
        append(out, alloc, texts, number, text)?;
    }
    append(out, alloc, texts, 0, rest)
}

// Appends a text without repetitions; `number` is the number of the repetition.
fn append(
    out: &mut Vec<u8>,
    alloc: Global,
    texts: &Texts,
    number: u32,
    text: &str,
) -> Result<(), Unread> {
    for (place, part) in text.split('\\').enumerate() {
        if place == 0 {
            out.extend_from_slice(part.as_bytes())?;
        } else {
            escape(out, alloc, texts, number, part)?;
        }
    }
    Ok(())
}

// Appends the text that begins with an escape, up to the next backslash.
fn escape(
    out: &mut Vec<u8>,
    alloc: Global,
    texts: &Texts,
    number: u32,
    part: &str,
) -> Result<(), Unread> {
    if let Some(named) = part.strip_prefix('{') {
        let (name, rest) = named.split_once('}').ok_or(Unread::Form)?;
        let text = texts.get(name).ok_or(Unread::Form)?;
        return both(out, text.as_slice(), rest.as_bytes());
    }
    match part.as_bytes() {
        [b'n', rest @ ..] => both(out, b"\n", rest),
        [b'r', rest @ ..] => both(out, b"\r", rest),
        [b't', rest @ ..] => both(out, b"\t", rest),
        [b'b', rest @ ..] => both(out, b"\\", rest),
        [b'#', rest @ ..] => numbered(out, alloc, number, rest),
        [b'+', rest @ ..] => numbered(out, alloc, number.saturating_add(1), rest),
        [b'x', high, low, rest @ ..] => both(out, &[byte(*high, *low)?], rest),
        _ => Err(Unread::Form),
    }
}

fn numbered(out: &mut Vec<u8>, alloc: Global, number: u32, rest: &[u8]) -> Result<(), Unread> {
    let shown = number.to_string(alloc)?;
    both(out, shown.as_bytes(), rest)
}

fn both(out: &mut Vec<u8>, first: &[u8], rest: &[u8]) -> Result<(), Unread> {
    out.extend_from_slice(first)?;
    out.extend_from_slice(rest)?;
    Ok(())
}

// Returns the byte with these two hexadecimal digits.
fn byte(high: u8, low: u8) -> Result<u8, Unread> {
    match (digit(high), digit(low)) {
        (Some(high), Some(low)) => Ok(high.saturating_mul(16).saturating_add(low)),
        _ => Err(Unread::Form),
    }
}

fn digit(digit: u8) -> Option<u8> {
    match digit {
        b'0'..=b'9' => Some(digit - b'0'),
        b'a'..=b'f' => Some(digit - b'a' + 10),
        _ => None,
    }
}
