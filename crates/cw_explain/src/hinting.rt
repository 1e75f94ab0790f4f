//! What the tokens say about a source whose names or types are rejected, after the rule.

use crate::advice::advice_for;
use crate::around::{Opened, word_of};
use crate::near::{declared_behind, is_declared, is_near, nearest};
use crate::word::Word;
use cw_model::token::{Kind, Token};
use std::alloc::{AllocError, Global};
use std::fmt;

/// The maximum number of names of a line that are read.
const MOST_NAMES: usize = 16;

/// The words that a name may be near to if the statement is complete.
static CALLED: &[&str] = &["print", "len", "return"];

/// What tokens say about a name that is not declared.
#[derive(Clone, Copy)]
pub enum Hint<'a> {
    /// It is near to this name, which is in scope there.
    Near(Word<'a>, Word<'a>),
    /// It is near to this keyword.
    Word(Word<'a>, &'static str),
}

impl fmt::Display for Hint<'_> {
    fn fmt<W: fmt::Write>(&self, f: &mut fmt::Formatter<W>) -> fmt::Result {
        match self {
            Hint::Near(name, meant) => write!(f, "did you mean {meant} instead of {name}?"),
            Hint::Word(name, word) => write!(f, "did you mean {word} instead of {name}?"),
        }
    }
}

// A name that is declared, and the number of blocks around its declaration.
#[derive(Clone, Copy)]
struct Known<'a> {
    name: Word<'a>,
    level: usize,
}

/// The names that are in scope at a place of a source, with those of functions and reducers that are declared after it.
#[derive(Drop)]
struct Scope<'a> {
    text: &'a [u8],
    opened: Opened,
    declared: u8,
    known: Vec<Known<'a>>,
}

impl<'a> Scope<'a> {
    fn new(alloc: Global, text: &'a [u8]) -> Scope<'a> {
        Scope {
            text,
            opened: Opened::new(alloc),
            declared: 0,
            known: Vec::new(alloc),
        }
    }

    // The number of blocks around a name that is declared here: for a parameter, the variable of a loop and the parts of a cut,
    // with the block that follows.
    fn level(&self) -> usize {
        let braces = self.opened.braces();
        if self.declared > 1 || self.opened.is_in_brackets() {
            return braces.saturating_add(1);
        }
        braces
    }

    // Adds one token; if `passed`, names of blocks stay as they are.
    fn add(&mut self, token: Token, passed: bool) -> Result<(), AllocError> {
        let level = self.level();
        if self.declared > 0 && token.kind == Kind::Name && (level == 0 || !passed) {
            let name = word_of(self.text, token);
            self.known.push(Known { name, level })?;
        }
        self.declared = declared_behind(self.declared, token.kind);
        self.opened.add(token)?;
        if token.kind == Kind::RightBrace && !passed {
            self.leave();
        }
        Ok(())
    }

    // Ends a block: its names leave the scope.
    fn leave(&mut self) {
        let braces = self.opened.braces();
        self.known.retain(|known| known.level <= braces);
    }

    // The first name that is in scope and near to this one.
    fn nearest(&self, name: Word<'a>) -> Option<Word<'a>> {
        for known in self.known.as_slice() {
            if is_near(known.name.text, name.text) {
                return Some(known.name);
            }
        }
        None
    }
}

// The names that are in scope at a token of a text.
fn scope_at<'a>(
    alloc: Global,
    text: &'a [u8],
    tokens: &[Token],
    at: Token,
) -> Result<Scope<'a>, AllocError> {
    let mut scope = Scope::new(alloc, text);
    for token in tokens {
        scope.add(*token, token.start >= at.start)?;
    }
    Ok(scope)
}

// The hint for a name that is not declared.
fn hint_of<'a>(
    alloc: Global,
    text: &'a [u8],
    tokens: &[Token],
    token: Token,
) -> Result<Option<Hint<'a>>, AllocError> {
    let name = word_of(text, token);
    if advice_for(name).is_some() {
        return Ok(None);
    }
    let scope = scope_at(alloc, text, tokens, token)?;
    if let Some(meant) = scope.nearest(name) {
        return Ok(Some(Hint::Near(name, meant)));
    }
    Ok(nearest(name, CALLED).map(|word| Hint::Word(name, word)))
}

/// Returns a hint for the first name in a line that is not declared, if it is near to one that is in scope there, with that line.
pub fn hint_in<'a>(
    alloc: Global,
    text: &'a [u8],
    tokens: &[Token],
    line: u32,
) -> Result<Option<(Hint<'a>, u32)>, AllocError> {
    let mut left = MOST_NAMES;
    for token in tokens {
        if token.line == line && token.kind == Kind::Name && left > 0 {
            left -= 1;
            if !is_declared(text, tokens, word_of(text, *token)) {
                let hint = hint_of(alloc, text, tokens, *token)?;
                return Ok(hint.map(|hint| (hint, line)));
            }
        }
    }
    Ok(None)
}

// Whether the name of a function is at a place: before a bracket, and right after a type.
fn is_function(tokens: &[Token], place: usize) -> bool {
    let behind = place.saturating_add(1);
    match (tokens.get(place.saturating_sub(1)), tokens.get(behind)) {
        (Some(before), Some(next)) => {
            matches!(before.kind, Kind::Int | Kind::Void) && next.kind == Kind::LeftParen
        }
        _ => false,
    }
}

/// Returns a hint for the first function whose name is near to `main`, with its line.
pub fn near_main<'a>(text: &'a [u8], tokens: &[Token]) -> Option<(Hint<'a>, u32)> {
    for place in 0..tokens.len() {
        let token = tokens[place];
        if token.kind == Kind::Name && is_function(tokens, place) {
            let name = word_of(text, token);
            if is_near(name.text, b"main") {
                return Some((Hint::Word(name, "main"), token.line));
            }
        }
    }
    None
}

/// Returns the line of the first return in a block that ends only at its end, of the function whose head is in this line.
pub fn closed_return(
    alloc: Global,
    tokens: &[Token],
    line: u32,
) -> Result<Option<u32>, AllocError> {
    let mut opened = Opened::new(alloc);
    let mut is_its = false;
    for token in tokens {
        if opened.braces() == 0 && token.kind == Kind::Name {
            is_its = is_head(opened.front(), *token, line, is_its);
        }
        if is_its && token.kind == Kind::Return && opened.is_in_closed_block() {
            return Ok(Some(token.line));
        }
        opened.add(*token)?;
        if token.kind == Kind::RightBrace && opened.braces() == 0 {
            is_its = false;
        }
    }
    Ok(None)
}

// Whether a name outside of functions belongs to a head in this line, or follows one.
fn is_head(front: Option<Kind>, token: Token, line: u32, was: bool) -> bool {
    was || (token.line == line && front == Some(Kind::Int))
}
