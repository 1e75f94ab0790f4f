//! Lines of a source with their numbers.

ghost use Rattle.std.specs.Prelude.{◌≡◌};
ghost use Rattle.cw_explain.specs.Lines.{after_line, first_line, line_text};

use crate::word::ClippedText;
use std::alloc::AllocError;

/// The maximum number of columns of a line, with its number before it and `..` after it.
const MOST_COLUMNS: usize = 160;

/// Returns the text of a line of a source, counted from 1, without its line feed; empty if there is no such line.
pub fn line_of(source: &[u8], line: u32) -> &[u8]
    ensures { result.now ≡ line_text line source.now }
{
    let mut rest = source;
    for passed in 1..line {
        rest = after_line(rest);
    }
    first_line(rest)
}

/// Returns the first line of a text, without its line feed.
pub fn first_line(text: &[u8]) -> &[u8]
    ensures { result.now ≡ first_line text.now }
{
    for i in 0..text.len() {
        if text[i] == b'\n' {
            return &text[..i];
        }
    }
    text
}

// What follows the first line feed of a text.
fn after_line(text: &[u8]) -> &[u8]
    ensures { result.now ≡ after_line text.now }
{
    for i in 0..text.len() {
        if text[i] == b'\n' {
            return &text[i + 1..];
        }
    }
    &[]
}

// The text without white space at its end.
fn trimmed(text: &[u8]) -> &[u8] {
    let mut kept: &[u8] = &[];
    for i in 0..text.len() {
        if !is_space(text[i]) {
            kept = &text[..i + 1];
        }
    }
    kept
}

// Whether a byte is white space.
fn is_space(byte: u8) -> bool {
    byte == b' ' || byte == b'\t' || byte == b'\r'
}

// The number of digits of a number.
fn digits(number: u32) -> usize {
    match number {
        0..=9 => 1,
        10..=99 => 2,
        100..=999 => 3,
        1_000..=9_999 => 4,
        10_000..=99_999 => 5,
        100_000..=999_999 => 6,
        1_000_000..=9_999_999 => 7,
        _ => 8,
    }
}

/// Returns the place where the line begins that has a place.
pub fn line_start(source: &[u8], place: usize) -> usize {
    let mut at = place;
    for _ in 0..place {
        match source.get(at.saturating_sub(1)) {
            Some(b'\n') => return at,
            _ => at = at.saturating_sub(1),
        }
    }
    at
}

/// The lines that an explanation shows.
#[derive(Clone, Copy)]
pub struct Lines {
    /// The line that has the error.
    pub line: u32,
    /// The other line that matters, if there is one.
    pub other: Option<u32>,
    /// The number of bytes of the line before the error, if it is known.
    pub before: Option<usize>,
    /// The place where the line begins, if it is known.
    pub start: Option<usize>,
    /// The place where the other line begins, if it is known.
    pub other_start: Option<usize>,
}

/// The most bytes of a line that are read.
const MOST_BYTES: usize = 640;

// The first bytes of a line that begins at a place, if that is known.
fn text_of(source: &[u8], line: u32, start: Option<usize>) -> &[u8] {
    let text = match start {
        Some(start) => {
            let end = start.saturating_add(MOST_BYTES).min(source.len());
            first_line(source.get(start..end).unwrap_or(&[]))
        }
        None => line_of(source, line),
    };
    text.get(..MOST_BYTES).unwrap_or(text)
}

/// Appends these lines of the source, each once, in order, with their numbers before them, and a caret below the error.
pub fn add_lines(out: &mut String, source: &[u8], lines: Lines) -> Result<(), AllocError> {
    let other = lines.other.unwrap_or(lines.line);
    let columns = digits(lines.line.max(other));
    if other < lines.line {
        let text = text_of(source, other, lines.other_start);
        add_line(out, text, other, columns)?;
    }
    let text = text_of(source, lines.line, lines.start);
    add_line(out, text, lines.line, columns)?;
    if let Some(before) = lines.before {
        add_caret(out, text, before, columns)?;
    }
    if other > lines.line {
        let text = text_of(source, other, lines.other_start);
        add_line(out, text, other, columns)?;
    }
    Ok(())
}

// The number of columns of a line whose number takes some.
fn columns_beside(columns: usize) -> usize {
    MOST_COLUMNS.saturating_sub(columns).saturating_sub(7)
}

// Adds a caret below a line, after its first bytes, if the line is shown that far.
fn add_caret(
    out: &mut String,
    text: &[u8],
    before: usize,
    columns: usize,
) -> Result<(), AllocError> {
    let before = ClippedText {
        text: text.get(..before).unwrap_or(text),
        columns: columns_beside(columns),
    };
    let width = before.width();
    if width >= before.columns {
        return Ok(());
    }
    for _ in 0..columns {
        out.push(' ')?;
    }
    out.push_str("   | ")?;
    for _ in 0..width {
        out.push(' ')?;
    }
    out.push_str("^\n")
}

// Adds a line of the source with this text, with its number in this number of columns.
fn add_line(out: &mut String, text: &[u8], line: u32, columns: usize) -> Result<(), AllocError> {
    let text = trimmed(text);
    if text.is_empty() {
        return Ok(());
    }
    for _ in digits(line)..columns {
        out.push(' ')?;
    }
    let shown = ClippedText {
        text,
        columns: columns_beside(columns),
    };
    write!(out, "  {line} | {shown}\n")?;
    Ok(())
}
