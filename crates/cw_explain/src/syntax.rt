//! The errors of the grammar: each statement and each head that does not parse, and names of libraries in functions that the
//! stages after the parser do not see.

use crate::around::{Around, Opened, first_from};
use crate::checking::is_suspect;
use crate::excerpt::line_start;
use crate::listing::{Listing, Spot};
use crate::phrase::Marks;
use crate::repairs::Repairs;
use crate::scan::Bad;
use crate::shortened::Shortened;
use crate::unparsed::{nowhere, unparsed_at, update_of};
use crate::word::Word;
use cw_model::token::{Kind, Token};
use cw_parse::{Recovered, Rejected};
use cw_text::Fault;
use std::alloc::Global;
use std::fmt;

/// The most tokens of a source whose names are searched for.
const MOST_SEARCHED: usize = 8_192;

/// A text, its tokens, what was replaced in it, what of it parses, and the items whose names and types are as they were.
#[derive(Clone, Copy)]
pub struct Outline<'a> {
    pub bytes: &'a [u8],
    pub tokens: &'a [Token],
    pub bad: &'a [Bad],
    pub found: &'a Recovered,
    pub typed: &'a [bool],
}

impl Outline<'_> {
    /// Returns where a line with a token begins.
    pub fn start_of_line(&self, line: Option<u32>) -> Option<usize> {
        let line = line?;
        let token = self.tokens.get(first_from(self.tokens, line))?;
        if token.line != line {
            return None;
        }
        Some(line_start(self.bytes, token.start as usize))
    }

    /// Returns whether names and types of the item with an index are as they were.
    pub fn is_typed(&self, index: usize) -> bool {
        match self.typed.get(index) {
            Some(is_typed) => *is_typed,
            None => true,
        }
    }
}

/// What to write instead of a name of a library.
#[derive(Clone, Copy)]
struct Advice<'a> {
    name: Word<'a>,
    says: &'static str,
}

impl fmt::Display for Advice<'_> {
    fn fmt<W: fmt::Write>(&self, f: &mut fmt::Formatter<W>) -> fmt::Result {
        let name = self.name;
        let says = self.says;
        write!(f, "there is no {name}: {says}")
    }
}

/// What to write instead of a statement.
#[derive(Clone, Copy)]
struct Said<'a> {
    around: Around<'a>,
    says: &'static str,
}

impl fmt::Display for Said<'_> {
    fn fmt<W: fmt::Write>(&self, f: &mut fmt::Formatter<W>) -> fmt::Result {
        self.around.write(f, self.says)
    }
}

/// The state of a traversal of the tokens.
#[derive(Drop)]
struct Traversal<'a> {
    outline: Outline<'a>,
    opened: Opened,
    short: Shortened,
    /// The next token.
    at: usize,
    /// The next item.
    item: usize,
    /// Whether the stages after the parser see the item with the last token as it is.
    is_seen: bool,
    /// The first replaced bytes that are not before the last rejected statement, and not before the line of the last token.
    bad: usize,
    on_line: usize,
    /// The line of the last token whose place was asked for, and where it begins.
    line: u32,
    start: usize,
    /// An item that is not begun before what is rejected at its front is reported.
    held: usize,
    is_first: bool,
    /// Where tokens end that seem to be statements outside of functions.
    outside: usize,
    repairs: Repairs,
}

// The place where a token begins, or the end of the text.
fn start_of(outline: &Outline<'_>, place: usize) -> usize {
    match outline.tokens.get(place) {
        Some(token) => token.start as usize,
        None => outline.bytes.len(),
    }
}

// Whether what replaces some of these bytes changes their statement.
fn is_unclear(all: &[Bad]) -> bool {
    for bad in all {
        if !bad.is_clean {
            return true;
        }
    }
    false
}

// Whether tokens of these kinds begin a statement rather than an item.
fn is_statement(kind: Option<Kind>, next: Option<Kind>) -> bool {
    match kind {
        Some(Kind::Name) => matches!(
            next,
            Some(Kind::Assign) | Some(Kind::AddAssign) | Some(Kind::LeftBracket)
        ),
        Some(
            Kind::Return
            | Kind::If
            | Kind::While
            | Kind::Print
            | Kind::For
            | Kind::Spawn
            | Kind::Sync
            | Kind::Scope
            | Kind::RightBrace,
        ) => true,
        _ => false,
    }
}

impl<'a> Traversal<'a> {
    fn new(alloc: Global, outline: Outline<'a>) -> Traversal<'a> {
        Traversal {
            outline,
            opened: Opened::new(alloc),
            short: Shortened::new(alloc),
            at: 0,
            item: 0,
            is_seen: true,
            bad: 0,
            on_line: 0,
            line: 0,
            start: 0,
            held: usize::MAX,
            is_first: true,
            outside: usize::MAX,
            repairs: Repairs::new(alloc),
        }
    }

    // Adds the tokens before a place; the next statement that does not parse begins at `rejected`. Skips items without errors.
    fn go(&mut self, listing: &mut Listing, until: usize, rejected: usize) -> Result<(), Fault> {
        for _ in self.at..until {
            if self.at >= until {
                break;
            }
            match self.seen_until(until) {
                Some(end) => self.skip(end),
                None => self.step(listing, rejected)?,
            }
        }
        Ok(())
    }

    // The end of the item that begins with the next token, if it has no error and ends before a place.
    fn seen_until(&self, until: usize) -> Option<usize> {
        let item = self.outline.found.items.get(self.item)?;
        let is_next = item.first == self.at && item.first != self.held;
        let is_inside = self.at < item.end && item.end <= until;
        if is_next && is_inside && item.is_whole && self.outline.is_typed(self.item) {
            return Some(item.end);
        }
        None
    }

    // Goes on after an item.
    fn skip(&mut self, end: usize) {
        self.is_seen = true;
        self.item = self.item.saturating_add(1);
        self.opened.restart(end);
        self.short.restart();
        self.at = end;
    }

    // Adds the next token; the next statement that does not parse begins at `rejected`.
    fn step(&mut self, listing: &mut Listing, rejected: usize) -> Result<(), Fault> {
        let Some(token) = self.outline.tokens.get(self.at) else {
            return Ok(());
        };
        self.enter();
        if self.at < rejected {
            match token.kind {
                Kind::Name => self.advise(listing, *token)?,
                Kind::AddAssign => self.update(listing, *token)?,
                _ => {}
            }
        }
        self.opened.add(*token)?;
        self.short.add(token.kind)?;
        self.at = self.at.saturating_add(1);
        Ok(())
    }

    // Holds an item at whose front a brace before it is found to be missing.
    fn hold(&mut self, rejected: &Rejected) {
        self.held = if rejected.next == rejected.first {
            rejected.first
        } else {
            usize::MAX
        };
    }

    // Begins the item that begins with the next token, if one does.
    fn enter(&mut self) {
        if let Some(item) = self.outline.found.items.get(self.item) {
            if item.first <= self.at && item.first != self.held {
                self.is_seen = item.is_whole && self.outline.is_typed(self.item);
                self.item = self.item.saturating_add(1);
                self.opened.restart(self.at);
                self.short.restart();
            }
        }
    }

    // Whether the next token is in a function that the stages after the parser do not see, in a line as it was.
    fn is_unseen(&mut self, line: u32) -> bool {
        !self.is_seen && self.outline.tokens.len() <= MOST_SEARCHED && !self.is_bad_line(line)
    }

    // Adds what to write instead of a += on a name that is not a reducer, in a function that the stages after the parser do not
    // see.
    fn update(&mut self, listing: &mut Listing, token: Token) -> Result<(), Fault> {
        if !self.is_unseen(token.line) {
            return Ok(());
        }
        let around = Around::behind(self.outline.bytes, self.outline.tokens, &self.opened);
        let Some(name) = around.before(1) else {
            return Ok(());
        };
        if is_suspect(&self.outline, around.word(name).text) {
            return Ok(());
        }
        if let Some(says) = update_of(&around) {
            if listing.takes() {
                listing.add(self.spot(name, None), &Said { around, says })?;
            }
        }
        Ok(())
    }

    // Adds what to write instead of a name of a library, in a function that the stages after the parser do not see.
    fn advise(&mut self, listing: &mut Listing, token: Token) -> Result<(), Fault> {
        if !self.is_unseen(token.line) {
            return Ok(());
        }
        let around = Around::behind(self.outline.bytes, self.outline.tokens, &self.opened);
        let Some(says) = around.advice(token) else {
            return self.advise_type(listing, token, around);
        };
        if listing.takes() {
            let name = around.word(token);
            listing.add(self.spot(token, None), &Advice { name, says })?;
        }
        Ok(())
    }

    // Adds what to write instead of a type of C, if the next token is one.
    fn advise_type(
        &mut self,
        listing: &mut Listing,
        token: Token,
        around: Around<'a>,
    ) -> Result<(), Fault> {
        if !around.is_like_type(self.at) {
            return Ok(());
        }
        if let Some(says) = nowhere(&around, around.is_at_front()) {
            if listing.takes() {
                listing.add(self.spot(token, None), &Said { around, says })?;
            }
        }
        Ok(())
    }

    // Whether bytes of a line were replaced; lines are asked for in order.
    fn is_bad_line(&mut self, line: u32) -> bool {
        let all = self.outline.bad;
        for index in self.on_line..all.len() {
            let bad = all[index];
            if bad.line >= line {
                self.on_line = index;
                return bad.line == line;
            }
        }
        self.on_line = all.len();
        false
    }

    // Where a token is.
    fn spot(&mut self, token: Token, other: Option<u32>) -> Spot {
        let place = token.start as usize;
        if token.line != self.line {
            self.line = token.line;
            self.start = line_start(self.outline.bytes, place);
        }
        Spot {
            other_start: self.outline.start_of_line(other),
            ..Spot::at(token.line, self.start, place, other)
        }
    }

    // Whether bytes of a statement up to the token where it does not parse were replaced, so that this may follow from it.
    fn follows(&mut self, rejected: &Rejected) -> bool {
        if rejected.first >= self.outline.tokens.len() {
            return is_unclear(self.outline.bad);
        }
        let start = start_of(&self.outline, rejected.first);
        let end = start_of(&self.outline, rejected.place);
        let all = self.outline.bad;
        for index in self.bad..all.len() {
            let bad = all[index];
            let place = bad.place as usize;
            if place > end {
                return false;
            }
            if place >= start && !bad.is_clean {
                return true;
            }
            if place < start {
                self.bad = index;
            }
        }
        false
    }

    // Whether what is rejected belongs to a construct that was reported before it: a case to its switch, a while to its do, and
    // statements outside of functions to the first of them.
    fn is_known(&mut self, around: &Around<'_>, rejected: &Rejected) -> bool {
        if self.is_first {
            self.record_outside(around, rejected);
            return false;
        }
        let is_outside = self.outside == rejected.first && !around.is_inside;
        self.record_outside(around, rejected);
        is_outside
            || around.is_like("while", "", ";")
            || around.is_like("case", "", "")
            || around.is_like("default", "", "")
    }

    // Notes where a rejected statement outside of functions ends.
    fn record_outside(&mut self, around: &Around<'_>, rejected: &Rejected) {
        let kind = self
            .outline
            .tokens
            .get(rejected.first)
            .map(|token| token.kind);
        let next = rejected.first.saturating_add(1);
        let after = self.outline.tokens.get(next).map(|token| token.kind);
        if !around.is_inside && is_statement(kind, after) {
            self.outside = rejected.next;
        }
    }

    // Adds a statement or head that does not parse, and goes on after it.
    fn reject(
        &mut self,
        alloc: Global,
        listing: &mut Listing,
        rejected: &Rejected,
    ) -> Result<(), Fault> {
        let around = Around::behind(self.outline.bytes, self.outline.tokens, &self.opened);
        let is_known = self.is_known(&around, rejected) || self.follows(rejected);
        let mut is_done = false;
        if !is_known && listing.takes() {
            is_done = self.add(alloc, listing, around, rejected.next)?;
        }
        self.repairs.done.push(is_done)?;
        self.is_first = false;
        self.held = usize::MAX;
        let next = rejected.next.min(self.outline.tokens.len());
        let is_block = match self.outline.tokens.get(next) {
            Some(token) => token.kind == Kind::LeftBrace,
            None => false,
        };
        self.opened.resume(next, is_block);
        self.short.resume(is_block);
        self.at = next;
        Ok(())
    }

    // Adds what is unexpected at the next token, and what replaces its statement; returns whether anything does.
    fn add(
        &mut self,
        alloc: Global,
        listing: &mut Listing,
        around: Around<'a>,
        next: usize,
    ) -> Result<bool, Fault> {
        let said = unparsed_at(alloc, around, &self.short)?;
        let spot = match said.found() {
            Some(token) => self.spot(token, said.other_line()),
            None => Spot::of_line(end_line(self.outline.bytes), said.other_line()),
        };
        listing.add(spot, &said)?;
        self.repairs.repair(&said, next)
    }
}

// The line of the end of a text.
fn end_line(bytes: &[u8]) -> u32 {
    let mut line: u32 = 1;
    for byte in bytes {
        if *byte == b'\n' {
            line = line.saturating_add(1);
        }
    }
    line
}

/// Adds each statement and each head that does not parse, unless this follows from what was replaced in it, and the names of
/// libraries in functions with such errors. Returns what replaces these statements.
pub fn add_syntax(
    alloc: Global,
    listing: &mut Listing,
    outline: &Outline<'_>,
) -> Result<Repairs, Fault> {
    let mut traversal = Traversal::new(alloc, *outline);
    listing.begin();
    for rejected in outline.found.rejected.as_slice() {
        traversal.hold(rejected);
        let until = rejected.place.min(outline.tokens.len());
        traversal.go(listing, until, rejected.first)?;
        traversal.enter();
        traversal.reject(alloc, listing, rejected)?;
    }
    traversal.go(listing, outline.tokens.len(), usize::MAX)?;
    Ok(traversal.repairs)
}
