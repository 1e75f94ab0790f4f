//! What C programs write with bytes that start no token here, and what to write instead.

use crate::phrase::{Marks, write_new};
use crate::word::Word;
use crate::words::LOCK;
use std::fmt;

/// A byte, the word that its line begins with, what precedes the byte, what follows it, and the text.
///
/// An empty word is any. Before the byte, `value` is the end of an operand, `digit` a digit, and another word these bytes;
/// white space before it does not count. After the byte, `digit` is a digit, and another word these bytes. In the text `@c` is
/// the character between two quotes, `@k` its code, `@r` a new name. The first row that applies counts.
pub type Foreign = (u8, &'static str, &'static str, &'static str, &'static str);

static DIRECTIVES: &[Foreign] = &[
    (
        b'#',
        "#define",
        "",
        "",
        "there are no directives: delete the line; write the value where the name is used, and a function for a macro with parameters",
    ),
    (b'#', "", "", "", "there are no directives: delete the line"),
    (b'"', "extern", "", "", "delete extern \"C\" and its braces"),
    (
        b'"',
        "region",
        "",
        "",
        "a region has a name without quotes: write region phase { .. }",
    ),
    (
        b'"',
        "printf",
        "",
        "",
        "there are no strings: write print(x); for each integer x",
    ),
    (
        b'"',
        "fprintf",
        "",
        "",
        "there are no strings: write print(x); for each integer x",
    ),
    (
        b'"',
        "wsp_dump",
        "",
        "",
        "put region NAME { .. } around the part to measure; cilkwork scale reports its work and span",
    ),
    (
        b'"',
        "",
        "",
        "",
        "there are no strings: delete it, and write print(x); to print an integer x",
    ),
    (
        b'\'',
        "",
        "digit",
        "digit",
        "a number has digits only: write it without '",
    ),
    (
        b'\'',
        "",
        "",
        "",
        "there are no characters: write @k for @c",
    ),
    (
        b'/',
        "",
        "",
        "/*",
        "write a comment after //, up to the end of its line",
    ),
    (
        b'\\',
        "",
        "",
        "",
        "a statement may go on in the next line: delete the \\",
    ),
];

// What to write for && and || in the tests of an if and a while.
const IF_AND: &str =
    "there is no &&: write if (a) { if (b) { .. } } for if (a && b) { .. }; with an else write int @r = 0; if (a) { @r = b; } if (@r) { .. } else { .. }";

const WHILE_AND: &str =
    "there is no &&: write int @r = 0; if (a) { @r = b; } while (@r) { .. @r = 0; if (a) { @r = b; } } for while (a && b) { .. }";

const WHILE_OR: &str =
    "there is no ||: write while ((a) + (b)) { .. } for while (a || b) { .. } if a and b are 0 or 1, as comparisons are, and b does not trap if a is 1; otherwise write int @r = 1; if (!(a)) { @r = b; } while (@r) { .. @r = 1; if (!(a)) { @r = b; } }";

static OPERATORS: &[Foreign] = &[
    (b'&', "while (", "", "&&", WHILE_AND),
    (b'&', "while(", "", "&&", WHILE_AND),
    (b'&', "if (", "", "&&", IF_AND),
    (b'&', "if(", "", "&&", IF_AND),
    (
        b'&',
        "",
        "",
        "&&",
        "there is no &&: write (a) * (b) for a && b if a and b are 0 or 1, as comparisons are, and b does not trap if a is 0; otherwise write int @r = 0; if (a) { @r = b; } before this statement, and @r for a && b",
    ),
    (
        b'&',
        "",
        "value",
        "&",
        "there are no operations on bits: write n % 16 for n & 15, and n % 2 for n & 1 (n >= 0)",
    ),
    (b'&', "pthread_mutex", "", "&", LOCK),
    (
        b'&',
        "",
        "",
        "&",
        "there are no addresses: write a for &a[0]; for &a[k] pass a and k, or write cut a at k as l, r { .. } and pass r; for &x return the new value: x = f(x);",
    ),
    (b'|', "while (", "", "||", WHILE_OR),
    (b'|', "while(", "", "||", WHILE_OR),
    (
        b'|',
        "",
        "",
        "||",
        "there is no ||: write (a) + (b) for a || b if a and b are 0 or 1, as comparisons are, and b does not trap if a is 1; otherwise write int @r = 1; if (!(a)) { @r = b; } before this statement, and @r for a || b",
    ),
    (
        b'|',
        "",
        "",
        "|",
        "there are no operations on bits: write a + b for a | b if they have no bit in common",
    ),
    (
        b'^',
        "",
        "",
        "",
        "there are no operations on bits: write (a + b) % 2 for a ^ b if a and b are 0 or 1",
    ),
    (
        b'~',
        "",
        "",
        "",
        "there are no operations on bits: write -n - 1 for ~n",
    ),
    (
        b'?',
        "",
        "",
        "",
        "there is no ?:. Write int x = b; if (t) { x = a; } for int x = t ? a : b;",
    ),
    (
        b':',
        "case",
        "",
        "",
        "there is no switch: write if (x == 1) { .. } else { .. }",
    ),
    (
        b':',
        "default",
        "",
        "",
        "there is no switch: write if (x == 1) { .. } else { .. }",
    ),
    (
        b':',
        "cilk::reducer_opadd",
        "",
        "",
        "write reducer sum s; outside of functions, and s += e; to add to it",
    ),
    (
        b':',
        "cilk::reducer",
        "",
        "",
        "write reducer sum s; outside of functions, and s += e; to add to it",
    ),
    (b':', "std::mutex", "", "", LOCK),
    (b':', "std::lock_guard", "", "", LOCK),
    (
        b':',
        "",
        "cilk",
        "::current_worker",
        "the number of a worker has no replacement: add to a reducer, or write to a part of an array",
    ),
    (
        b':',
        "",
        "",
        "::",
        "there are no namespaces: delete the name and the ::",
    ),
    (
        b':',
        "",
        "",
        "",
        "there are no labels, no ?: and no loops over a range: write if and while",
    ),
    (b'.', "", "", ".length", "write len(a) for a.length"),
    (b'.', "", "", ".size()", "write len(a) for a.size()"),
    (
        b'.',
        "",
        "digit",
        ".",
        "there are no fractions: count in a smaller unit, as 15 tenths for 1.5",
    ),
    (
        b'.',
        "",
        "",
        "",
        "there are no structs: write a variable or an array for each member, as x_y for x.y",
    ),
];

/// Returns the table of what C writes with quotes, directives and lines.
pub fn directives() -> &'static [Foreign] {
    DIRECTIVES
}

/// Returns the table of what C writes with other bytes.
pub fn operators() -> &'static [Foreign] {
    OPERATORS
}

/// A byte of a line that C writes, with what to write instead.
#[derive(Clone, Copy)]
pub struct Byte<'a> {
    line: &'a [u8],
    place: usize,
    says: &'static str,
}

// The text without white space at its front.
fn without_space(text: &[u8]) -> &[u8] {
    for place in 0..text.len() {
        if text[place] != b' ' && text[place] != b'\t' {
            return &text[place..];
        }
    }
    &[]
}

// Whether a text begins with another.
fn begins(text: &[u8], word: &[u8]) -> bool {
    text.get(..word.len()) == Some(word)
}

// Whether the first bytes of a text are what a word denotes.
fn is_next(text: &[u8], word: &[u8]) -> bool {
    match word {
        b"digit" => matches!(text.get(1), Some(byte) if byte.is_ascii_digit()),
        _ => begins(text, word),
    }
}

// The last byte of a text that is no space.
fn last_of(text: &[u8]) -> Option<u8> {
    for back in 0..text.len() {
        match text.get(text.len().saturating_sub(back).saturating_sub(1)) {
            Some(b' ') | Some(b'\t') => {}
            byte => return byte.copied(),
        }
    }
    None
}

// Whether a text ends with what a word denotes.
fn is_before(text: &[u8], word: &[u8]) -> bool {
    let last = last_of(text);
    match word {
        b"" => true,
        b"digit" => matches!(last, Some(byte) if byte.is_ascii_digit()),
        b"value" => matches!(last, Some(byte) if is_end_of_value(byte)),
        _ => text.get(text.len().saturating_sub(word.len())..) == Some(word),
    }
}

// Whether an operand can end with a byte.
fn is_end_of_value(byte: u8) -> bool {
    byte == b'_' || byte == b')' || byte == b']' || byte.is_ascii_alphanumeric()
}

// The text of the first row for the byte at a place of a line.
fn in_table(line: &[u8], place: usize, table: &[Foreign]) -> Option<&'static str> {
    let byte = *line.get(place)?;
    let before = line.get(..place).unwrap_or(&[]);
    let from = line.get(place..).unwrap_or(&[]);
    let start = without_space(line);
    for (mark, front, last, next, says) in table {
        if *mark == byte
            && begins(start, front.as_bytes())
            && is_next(from, next.as_bytes())
            && is_before(before, last.as_bytes())
        {
            return Some(*says);
        }
    }
    None
}

/// Returns what C writes with the byte at a place of a line, if that is known.
pub fn byte_at(line: &[u8], place: usize) -> Option<Byte<'_>> {
    let says = in_table(line, place, directives()).or(in_table(line, place, operators()))?;
    Some(Byte { line, place, says })
}

// The code of the character after a backslash.
fn escaped(byte: u8) -> u8 {
    match byte {
        b'n' => b'\n',
        b't' => b'\t',
        b'r' => b'\r',
        b'0' => 0,
        _ => byte,
    }
}

impl Byte<'_> {
    // The byte so many places after it; 0 after the end of the line.
    fn after(&self, further: usize) -> u8 {
        match self.line.get(self.place.saturating_add(further)) {
            Some(byte) => *byte,
            None => 0,
        }
    }

    // Whether the character is escaped.
    fn is_escaped(&self) -> bool {
        self.after(1) == b'\\'
    }

    // The code of the character after the quote.
    fn code(&self) -> u8 {
        if self.is_escaped() {
            return escaped(self.after(2));
        }
        self.after(1)
    }

    // The character with its quotes.
    fn quoted(&self) -> Word<'_> {
        let count = if self.is_escaped() { 4 } else { 3 };
        let end = self.place.saturating_add(count).min(self.line.len());
        let text = self.line.get(self.place..end);
        match text {
            Some(text) => Word { text },
            None => Word { text: b"" },
        }
    }
}

impl Marks for Byte<'_> {
    fn write_mark<W: fmt::Write>(&self, f: &mut fmt::Formatter<W>, mark: u8) -> fmt::Result {
        let (code, quoted) = (self.code(), self.quoted());
        match mark {
            b'k' => write!(f, "{code}"),
            b'c' => write!(f, "{quoted}"),
            _ => write_new(f, mark),
        }
    }
}

impl fmt::Display for Byte<'_> {
    fn fmt<W: fmt::Write>(&self, f: &mut fmt::Formatter<W>) -> fmt::Result {
        self.write(f, self.says)
    }
}
