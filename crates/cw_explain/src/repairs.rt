//! What replaces statements that do not parse, so that the stages after the parser check the functions around them.

use crate::around::Around;
use crate::phrase::Marks;
use crate::unparsed::{Unparsed, Why};
use crate::word::ClippedText;
use cw_model::token::Kind;
use cw_text::Fault;
use std::alloc::Global;
use std::fmt;

/// The most parts of a text that are replaced.
const MOST_REPAIRS: usize = 200;

/// The most tokens of a statement that is put in braces.
const MOST_TOKENS: usize = 1_024;

/// Bytes of a text, and what replaces them.
#[derive(Drop)]
struct Repair {
    start: usize,
    end: usize,
    text: String,
}

/// What replaces parts of a text, and which of its rejected statements are repaired by that, in their order.
#[derive(Drop)]
pub struct Repairs {
    alloc: Global,
    list: Vec<Repair>,
    pub done: Vec<bool>,
}

/// The parts of a text between two `@!`, with what replaces their marks: the statement that is written instead.
#[derive(Clone, Copy)]
struct Written<'a> {
    around: Around<'a>,
    says: &'static str,
    /// A number that makes new names differ.
    number: usize,
}

impl Written<'_> {
    fn write_mark<W: fmt::Write>(&self, f: &mut fmt::Formatter<W>, mark: u8) -> fmt::Result {
        if mark == b'r' {
            let number = self.number;
            return write!(f, "r__{number}");
        }
        match self.around.marked_part(mark) {
            Some(part) => {
                let part = ClippedText {
                    text: part.text,
                    columns: usize::MAX,
                };
                write!(f, "{part}")
            }
            None => self.around.write_mark(f, mark),
        }
    }
}

impl fmt::Display for Written<'_> {
    fn fmt<W: fmt::Write>(&self, f: &mut fmt::Formatter<W>) -> fmt::Result {
        let mut is_mark = false;
        let mut is_on = false;
        for byte in self.says.as_bytes() {
            if is_mark {
                is_mark = false;
                if *byte == b'!' {
                    is_on = !is_on;
                } else if is_on {
                    self.write_mark(f, *byte)?;
                }
            } else if *byte == b'@' {
                is_mark = true;
            } else if is_on {
                let shown = char::from(*byte);
                write!(f, "{shown}")?;
            }
        }
        Ok(())
    }
}

/// The head of a `cilk_for` over the same arrays.
#[derive(Clone, Copy)]
struct Head<'a> {
    around: Around<'a>,
    /// The place of its variable, and of its `over`, if there is one.
    name: usize,
    over: Option<usize>,
}

impl fmt::Display for Head<'_> {
    fn fmt<W: fmt::Write>(&self, f: &mut fmt::Formatter<W>) -> fmt::Result {
        let Some(name) = self.around.at(self.name) else {
            return Ok(());
        };
        let name = self.around.word(name);
        write!(f, "cilk_for (int {name} = 0; {name} < 1; {name}++) ")?;
        if let Some(over) = self.over {
            let group = over.saturating_add(1);
            if let Some(after) = self.around.after_group(group) {
                let part = ClippedText {
                    text: self.around.part(over, after).text,
                    columns: usize::MAX,
                };
                write!(f, "{part} ")?;
            }
        }
        Ok(())
    }
}

// The head of a `cilk_for` that ends before a place.
fn head_of<'a>(around: Around<'a>, next: usize) -> Option<Head<'a>> {
    let mut name = None;
    let mut over = None;
    for at in around.first..next.min(around.first.saturating_add(MOST_TOKENS)) {
        match around.kind(at) {
            Some(Kind::Assign) if name.is_none() => name = at.checked_sub(1),
            Some(Kind::Over) => over = Some(at),
            _ => {}
        }
    }
    let name = name?;
    if around.kind(name) != Some(Kind::Name) {
        return None;
    }
    Some(Head { around, name, over })
}

// The place of the last token of the block or the statement that begins at a place.
fn last_of_body(around: &Around<'_>, place: usize) -> Option<usize> {
    let mut depth: usize = 0;
    for at in place..place.saturating_add(MOST_TOKENS) {
        match around.kind(at)? {
            Kind::LeftBrace if at > place && depth == 0 => return None,
            Kind::LeftParen | Kind::LeftBracket | Kind::LeftBrace => depth = depth.saturating_add(
                1,
            ),
            Kind::RightParen | Kind::RightBracket => depth = depth.saturating_sub(1),
            Kind::RightBrace if depth <= 1 => return if depth == 1 { Some(at) } else { None },
            Kind::RightBrace => depth = depth.saturating_sub(1),
            Kind::Semicolon if depth == 0 => return Some(at),
            _ => {}
        }
    }
    None
}

// The place of the last token of the statement that begins at a place: of an `if`, with each `else` that follows.
fn last_of(around: &Around<'_>, place: usize) -> Option<usize> {
    let mut at = place;
    for _ in 0..MOST_TOKENS {
        if around.kind(at) != Some(Kind::If) {
            return last_of_body(around, at);
        }
        let body = around.after_group(at.saturating_add(1))?;
        let last = last_of_body(around, body)?;
        if around.kind(last.saturating_add(1)) != Some(Kind::Else) {
            return Some(last);
        }
        at = last.saturating_add(2);
    }
    None
}

impl Repairs {
    /// Returns no repairs.
    pub fn new(alloc: Global) -> Repairs {
        Repairs {
            alloc,
            list: Vec::new(alloc),
            done: Vec::new(alloc),
        }
    }

    /// Adds what replaces the bytes between two places.
    pub fn add<D: fmt::Display>(
        &mut self,
        start: usize,
        end: usize,
        with: &D,
    ) -> Result<(), Fault> {
        if self.list.len() >= MOST_REPAIRS {
            return Ok(());
        }
        let mut text = String::new(self.alloc);
        write!(text, "{with}")?;
        self.list.push(Repair { start, end, text })?;
        Ok(())
    }

    // Puts the statement that begins at a place in braces; returns false if its end is not found.
    fn embrace(&mut self, around: &Around<'_>, place: usize) -> Result<bool, Fault> {
        let Some(last) = last_of(around, place) else {
            return Ok(false);
        };
        let start = around.start_of(place);
        let end = around.end_before(last.saturating_add(1));
        self.add(start, start, &"{ ")?;
        self.add(end, end, &" }")?;
        Ok(true)
    }

    // Replaces a statement, up to before a place, by what its text says.
    fn replace(
        &mut self,
        around: Around<'_>,
        says: &'static str,
        next: usize,
    ) -> Result<bool, Fault> {
        let start = around.start_of(around.first);
        let end = around.end_before(next);
        if says.contains("@!") {
            let number = self.list.len();
            let written = Written {
                around,
                says,
                number,
            };
            self.add(start, end, &written)?;
            return Ok(true);
        }
        let front = around.kind(around.first);
        if front == Some(Kind::Else) && around.kind(around.place) == Some(Kind::If) {
            return self.embrace(&around, around.place);
        }
        if front == Some(Kind::Print) {
            self.add(start, end, &"")?;
            return Ok(true);
        }
        self.replace_head(around, next)
    }

    /// Replaces the head of a `cilk_for` that a block at a place follows, and returns whether it does.
    pub fn replace_head(&mut self, around: Around<'_>, next: usize) -> Result<bool, Fault> {
        let is_loop = around.kind(around.first) == Some(Kind::For);
        if !is_loop || around.kind(next) != Some(Kind::LeftBrace) {
            return Ok(false);
        }
        let Some(head) = head_of(around, next) else {
            return Ok(false);
        };
        self.add(
            around.start_of(around.first),
            around.end_before(next),
            &head,
        )?;
        Ok(true)
    }

    // Inserts what a text says before a token of a head.
    fn insert(&mut self, around: Around<'_>, says: &'static str) -> Result<bool, Fault> {
        if !says.contains("@!") {
            return Ok(false);
        }
        let start = around.start_of(around.place);
        let number = self.list.len();
        let written = Written {
            around,
            says,
            number,
        };
        self.add(start, start, &written)?;
        Ok(true)
    }

    /// Adds what replaces a statement that does not parse, up to before a token, and returns whether anything does.
    pub fn repair(&mut self, said: &Unparsed<'_>, next: usize) -> Result<bool, Fault> {
        let around = said.around;
        match said.why {
            Why::Says(says) if !around.is_inside => self.insert(around, says),
            _ if !around.is_inside => Ok(false),
            Why::Unended(token) => {
                let end = token.end as usize;
                self.add(end, end, &";")?;
                Ok(true)
            }
            Why::Bare if around.kind(around.place) == Some(Kind::Semicolon) => {
                let start = around.start_of(around.place);
                self.add(start, start.saturating_add(1), &"{ }")?;
                Ok(true)
            }
            Why::Bare => self.embrace(&around, around.place),
            Why::Says(says) => self.replace(around, says, next),
            Why::Near(_, _) | Why::Open(_) | Why::Plain => self.replace_head(around, next),
        }
    }

    // The index of the next repair that begins in a part of a text, after another one.
    fn next(&self, from: usize, end: usize, last: Option<(usize, usize)>) -> Option<usize> {
        let mut found: Option<(usize, usize)> = None;
        for index in 0..self.list.len() {
            let key = (self.list[index].start, index);
            let is_in = from <= key.0 && key.0 < end && is_below(last, key);
            if is_in && (found.is_none() || !is_below(found, key)) {
                found = Some(key);
            }
        }
        Some(found?.1)
    }

    /// Adds the part of a text between two places, repaired; the line feeds of what is replaced stay.
    pub fn write(
        &self,
        out: &mut Vec<u8>,
        text: &[u8],
        from: usize,
        end: usize,
    ) -> Result<(), Fault> {
        let mut at = from;
        let mut last = None;
        for _ in 0..self.list.len() {
            let Some(index) = self.next(at, end, last) else {
                break;
            };
            let Some(repair) = self.list.get(index) else {
                break;
            };
            out.extend_from_slice(text.get(at..repair.start).unwrap_or(&[]))?;
            out.extend_from_slice(repair.text.as_bytes())?;
            add_line_feeds(out, text.get(repair.start..repair.end).unwrap_or(&[]))?;
            at = repair.end.max(at);
            last = Some((repair.start, index));
        }
        out.extend_from_slice(text.get(at..end).unwrap_or(&[]))?;
        Ok(())
    }
}

// Whether a place and an index are before others.
fn is_below(one: Option<(usize, usize)>, other: (usize, usize)) -> bool {
    match one {
        Some(one) => one.0 < other.0 || (one.0 == other.0 && one.1 < other.1),
        None => true,
    }
}

/// Adds the line feeds of a text.
pub fn add_line_feeds(out: &mut Vec<u8>, text: &[u8]) -> Result<(), Fault> {
    for byte in text {
        if *byte == b'\n' {
            out.push(b'\n')?;
        }
    }
    Ok(())
}
