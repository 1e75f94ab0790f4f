//! The text with what starts no token replaced, so that the stages after the lexer read the rest.

use crate::excerpt::line_start;
use crate::lexical::OfText;
use cw_lex::{Front, Uncut, front_of};
use cw_model::limits::MOST_NAME_BYTES;
use cw_model::token::Kind;
use std::alloc::{AllocError, Global};

/// The most bytes of a character constant, with its quotes.
const MOST_CHARACTER: usize = 6;

/// Bytes that start no token, or a comment of C.
#[derive(Clone, Copy)]
pub struct Bad {
    /// The place of the first of them.
    pub place: u32,
    /// Its line.
    pub line: u32,
    /// Whether what replaces them keeps the statement as it was for the parser.
    pub is_clean: bool,
    /// Whether they are reported, because no error of the line before them has the same text.
    pub is_told: bool,
    byte: u8,
    is_double: bool,
}

/// What replaces bytes that start no token.
#[derive(Clone, Copy)]
struct Change {
    /// The number of these bytes.
    len: usize,
    /// How many of them stay as they are.
    kept: usize,
    /// What replaces the next one; spaces replace the others.
    with: u8,
    is_clean: bool,
}

/// A text whose bytes all belong to tokens, separators and comments, and what was replaced for that.
#[derive(Drop)]
pub struct Scan {
    pub text: Vec<u8>,
    pub bad: Vec<Bad>,
}

// The state of a scan.
#[derive(Drop)]
struct Scanner<'a> {
    bytes: &'a [u8],
    text: Vec<u8>,
    bad: Vec<Bad>,
    line: u32,
    /// The number of `?` of the statement without a `:`.
    questions: usize,
}

// The front of the bytes from a place on.
fn front_at(bytes: &[u8], at: usize) -> Option<Front<'_>> {
    if at < bytes.len() {
        return Some(front_of(&bytes[at..]));
    }
    None
}

// The byte at a place; 0 after the end.
fn byte_at(bytes: &[u8], at: usize) -> u8 {
    match bytes.get(at) {
        Some(byte) => *byte,
        None => 0,
    }
}

// Whether a byte is a letter, a digit or `_`.
fn is_of_word(byte: u8) -> bool {
    byte == b'_' || byte.is_ascii_alphanumeric()
}

// The place after a line and the lines that a backslash at its end adds.
fn after_directive(bytes: &[u8], from: usize) -> usize {
    let mut last = 0;
    for at in from..bytes.len() {
        let byte = bytes[at];
        if byte == b'\n' && last != b'\\' {
            return at;
        }
        if byte != b'\r' {
            last = byte;
        }
    }
    bytes.len()
}

// The place after a comment of C.
fn after_comment(bytes: &[u8], from: usize) -> usize {
    for at in from.saturating_add(3)..bytes.len() {
        if bytes[at] == b'/' && byte_at(bytes, at.saturating_sub(1)) == b'*' {
            return at.saturating_add(1);
        }
    }
    bytes.len()
}

// The place after a text in quotes, at most at the end of its line.
fn after_quotes(bytes: &[u8], from: usize, quote: u8) -> Option<usize> {
    let mut is_escaped = false;
    for at in from.saturating_add(1)..bytes.len() {
        let byte = bytes[at];
        if byte == b'\n' {
            return None;
        }
        if byte == quote && !is_escaped {
            return Some(at.saturating_add(1));
        }
        is_escaped = byte == b'\\' && !is_escaped;
    }
    None
}

/// Returns whether a word begins between two places.
pub fn has_word(bytes: &[u8], from: usize, to: usize, word: &[u8]) -> bool {
    for at in from..to {
        let end = at.saturating_add(word.len());
        if bytes.get(at..end) == Some(word)
            && !is_of_word(byte_at(bytes, at.saturating_sub(1)))
            && !is_of_word(byte_at(bytes, end))
        {
            return true;
        }
    }
    false
}

// The place of the end of the line that begins at or before a place.
fn line_end(bytes: &[u8], from: usize) -> usize {
    for at in from..bytes.len() {
        if bytes[at] == b'\n' {
            return at;
        }
    }
    bytes.len()
}

// The place after the bytes from a place on that are all one of two bytes or digits.
fn after_run(bytes: &[u8], from: usize, byte: u8) -> usize {
    for at in from..bytes.len() {
        if bytes[at] != byte {
            return at;
        }
    }
    bytes.len()
}

// The place after a word, and after brackets that follow it.
fn after_word(bytes: &[u8], from: usize) -> usize {
    let mut end = bytes.len();
    for at in from..bytes.len() {
        if !is_of_word(bytes[at]) {
            end = at;
            break;
        }
    }
    if byte_at(bytes, end) == b'(' && byte_at(bytes, end.saturating_add(1)) == b')' {
        return end.saturating_add(2);
    }
    end
}

// The place after digits with quotes between them.
fn after_digits(bytes: &[u8], from: usize) -> usize {
    for at in from..bytes.len() {
        if bytes[at] != b'\'' && !bytes[at].is_ascii_digit() {
            return at;
        }
    }
    bytes.len()
}

// The place after the bytes above 127 from a place on.
fn after_high(bytes: &[u8], from: usize) -> usize {
    for at in from..bytes.len() {
        if bytes[at] <= 127 {
            return at;
        }
    }
    bytes.len()
}

// Whether an operand ends before a place of its line.
fn is_after_value(bytes: &[u8], place: usize) -> bool {
    let mut at = place;
    for _ in 0..place {
        at = at.saturating_sub(1);
        let byte = byte_at(bytes, at);
        if byte != b' ' && byte != b'\t' {
            return byte == b')' || byte == b']' || is_of_word(byte);
        }
    }
    false
}

// Spaces instead of the bytes up to a place, except that one byte may replace the first.
fn spaces(from: usize, end: usize, with: u8, is_clean: bool) -> Change {
    Change {
        len: end.saturating_sub(from).max(1),
        kept: 0,
        with,
        is_clean,
    }
}

// What replaces a character constant or a quote between digits.
fn of_quote(bytes: &[u8], at: usize) -> Change {
    let next = at.saturating_add(1);
    let before = byte_at(bytes, at.saturating_sub(1));
    if at > 0 && before.is_ascii_digit() && byte_at(bytes, next).is_ascii_digit() {
        return spaces(at, after_digits(bytes, at), b' ', true);
    }
    match after_quotes(bytes, at, b'\'') {
        Some(end) if end.saturating_sub(at) <= MOST_CHARACTER => spaces(at, end, b'0', true),
        _ => spaces(at, next, b' ', false),
    }
}

// What replaces an operator of bits or an address.
fn of_bits(bytes: &[u8], at: usize, byte: u8, with: u8) -> Change {
    let next = at.saturating_add(1);
    if byte_at(bytes, next) == byte {
        return spaces(at, at.saturating_add(2), with, true);
    }
    let is_update = byte_at(bytes, next) == b'=' && byte_at(bytes, at.saturating_add(2)) != b'=';
    if is_update || !is_after_value(bytes, at) {
        return spaces(at, next, b' ', true);
    }
    spaces(at, next, with, true)
}

// What replaces a dot with what follows it.
fn of_dot(bytes: &[u8], at: usize) -> Change {
    let next = at.saturating_add(1);
    if byte_at(bytes, next) == b'.' {
        return spaces(at, after_run(bytes, at, b'.'), b' ', false);
    }
    spaces(at, after_word(bytes, next), b' ', true)
}

// Whether the word before a place, and before a space there, is region.
fn is_tag(bytes: &[u8], at: usize) -> bool {
    let end = at.saturating_sub(1);
    byte_at(bytes, end) == b' ' && bytes.get(end.saturating_sub(6)..end) == Some(b"region")
}

// What replaces a text in quotes: a name if it is the tag of a region.
fn of_text(bytes: &[u8], at: usize) -> Change {
    match after_quotes(bytes, at, b'"') {
        Some(end) if is_tag(bytes, at) => spaces(at, end, b'r', true),
        Some(end) => spaces(at, end, b'0', false),
        None => spaces(at, line_end(bytes, at), b'0', false),
    }
}

// What replaces a comment of C; what follows one that is not closed is unknown.
fn of_comment(bytes: &[u8], at: usize) -> Change {
    let end = after_comment(bytes, at);
    let is_closed = end < bytes.len() || byte_at(bytes, end.saturating_sub(1)) == b'/';
    spaces(at, end, b' ', is_closed)
}

// What replaces bytes that start no token, other than `:`.
fn of_byte(bytes: &[u8], at: usize, byte: u8) -> Change {
    let next = at.saturating_add(1);
    match byte {
        b'/' => of_comment(bytes, at),
        b'#' => spaces(at, after_directive(bytes, at), b' ', true),
        b'"' => of_text(bytes, at),
        b'\'' => of_quote(bytes, at),
        b'&' => of_bits(bytes, at, byte, b'*'),
        b'|' => of_bits(bytes, at, byte, b'+'),
        b'^' => of_bits(bytes, at, 0, b'+'),
        b'~' => spaces(at, next, b'-', true),
        b'?' => spaces(at, next, b'+', true),
        b'.' => of_dot(bytes, at),
        b'\\' => spaces(at, next, b' ', true),
        128..=255 => spaces(at, after_high(bytes, at), b' ', false),
        _ => spaces(at, after_run(bytes, at, byte), b' ', false),
    }
}

// What replaces bytes that start no token for this reason.
fn change_of(bytes: &[u8], at: usize, reason: &Uncut<'_>) -> Change {
    match reason {
        Uncut::LargeNumber(digits) => spaces(0, digits.len(), b'0', true),
        Uncut::LongName(name) => Change {
            kept: MOST_NAME_BYTES,
            ..spaces(0, name.len(), b' ', true)
        },
        Uncut::NoToken(byte) | Uncut::NotAscii(byte) => of_byte(bytes, at, *byte),
        Uncut::TooLong(_) => spaces(at, at.saturating_add(1), b' ', false),
    }
}

/// Replaces what starts no token, and the comments of C, up to a number of bytes after the first of them.
///
/// # Errors
///
/// Returns an error if memory runs out.
pub fn scanned(alloc: Global, bytes: &[u8], most: usize) -> Result<Scan, AllocError> {
    let mut scanner = Scanner {
        bytes,
        text: Vec::new(alloc),
        bad: Vec::new(alloc),
        line: 1,
        questions: 0,
    };
    for _ in 0..bytes.len() {
        if scanner.is_beyond(most) || !scanner.step()? {
            break;
        }
    }
    Ok(Scan {
        text: scanner.text,
        bad: scanner.bad,
    })
}

impl Scanner<'_> {
    // Whether more than a number of bytes follow the first that start no token.
    fn is_beyond(&self, most: usize) -> bool {
        match self.bad.as_slice() {
            [first, ..] => self.text.len() > (first.place as usize).saturating_add(most),
            [] => false,
        }
    }

    // Reads the next token, separator or comment, or what starts none; returns false at the end.
    fn step(&mut self) -> Result<bool, AllocError> {
        let at = self.text.len();
        let Some(front) = front_at(self.bytes, at) else {
            return Ok(false);
        };
        let byte = byte_at(self.bytes, at);
        let next = byte_at(self.bytes, at.saturating_add(1));
        if byte == b'/' && next == b'*' {
            self.replace(Uncut::NoToken(byte))?;
            return Ok(true);
        }
        match front {
            Front::Separator => self.keep(1)?,
            Front::Comment(len) => self.keep_comment(len)?,
            Front::Token(kind, len) => {
                if matches!(kind, Kind::Semicolon | Kind::LeftBrace | Kind::RightBrace) {
                    self.questions = 0;
                }
                self.keep(len)?;
            }
            Front::Uncut(reason) => self.replace(reason)?,
        }
        Ok(true)
    }

    // Adds the next byte, or another in its place; line feeds stay.
    fn put(&mut self, with: Option<u8>) -> Result<(), AllocError> {
        let byte = byte_at(self.bytes, self.text.len());
        if byte == b'\n' {
            self.line = self.line.saturating_add(1);
            self.text.push(byte)?;
            return Ok(());
        }
        self.text.push(with.unwrap_or(byte))?;
        Ok(())
    }

    // Keeps the next bytes.
    fn keep(&mut self, len: usize) -> Result<(), AllocError> {
        for _ in 0..len.max(1) {
            self.put(None)?;
        }
        Ok(())
    }

    // Keeps a comment, with spaces for bytes above 127.
    fn keep_comment(&mut self, len: usize) -> Result<(), AllocError> {
        let mut is_noted = false;
        for _ in 0..len.max(1) {
            let byte = byte_at(self.bytes, self.text.len());
            if byte > 127 && !is_noted {
                is_noted = true;
                self.note(byte, false, true)?;
            }
            self.put(if byte > 127 { Some(b' ') } else { None })?;
        }
        Ok(())
    }

    // Records that the next bytes are replaced.
    fn note(&mut self, byte: u8, is_double: bool, is_clean: bool) -> Result<(), AllocError> {
        let line = self.line;
        let mut is_told = true;
        if let [.., last] = self.bad.as_slice() {
            is_told = last.line != line || last.byte != byte || last.is_double != is_double;
        }
        let place = u32::try_from(self.text.len()).unwrap_or(u32::MAX);
        self.bad.push(Bad {
            place,
            line,
            is_clean,
            is_told,
            byte,
            is_double,
        })?;
        Ok(())
    }

    // Replaces what starts no token.
    fn replace(&mut self, reason: Uncut<'_>) -> Result<(), AllocError> {
        let at = self.text.len();
        let byte = byte_at(self.bytes, at);
        let is_double = byte_at(self.bytes, at.saturating_add(1)) == byte;
        if byte == b':' && !is_double && self.questions > 0 {
            self.questions -= 1;
            return self.put(Some(b'+'));
        }
        if byte == b'?' {
            self.questions = self.questions.saturating_add(1);
        }
        let change = change_of(self.bytes, at, &reason);
        self.note(byte, is_double, change.is_clean)?;
        for passed in 0..change.len {
            if passed < change.kept {
                self.put(None)?;
            } else if passed == change.kept && change.kept == 0 {
                self.put(Some(change.with))?;
            } else {
                self.put(Some(b' '))?;
            }
        }
        Ok(())
    }
}

impl Bad {
    /// Returns whether names and types of the function around them are as they were.
    pub fn is_typed(&self) -> bool {
        let is_address = self.byte == b'&' && !self.is_double;
        // a name that is too long is another name
        let is_name = self.byte == b'_' || self.byte.is_ascii_alphabetic();
        self.is_clean && !is_address && !is_name && self.byte != b'.'
    }

    /// Returns whether they begin a directive.
    pub fn is_directive(&self) -> bool {
        self.byte == b'#'
    }

    /// Returns whether a word is in their line, from them on.
    pub fn has_word(&self, bytes: &[u8], word: &[u8]) -> bool {
        let place = self.place as usize;
        has_word(bytes, place, line_end(bytes, place), word)
    }

    /// Returns why the bytes are not cut into tokens, with their line.
    pub fn reason<'a>(&self, bytes: &'a [u8]) -> OfText<'a> {
        let place = self.place as usize;
        let start = line_start(bytes, place);
        let line = bytes.get(start..line_end(bytes, place)).unwrap_or(&[]);
        let reason = match front_at(bytes, place) {
            Some(Front::Uncut(reason)) if self.byte <= 127 => reason,
            _ if self.byte > 127 => Uncut::NotAscii(self.byte),
            _ => Uncut::NoToken(self.byte),
        };
        OfText {
            reason,
            line,
            place: place.saturating_sub(start),
        }
    }
}
