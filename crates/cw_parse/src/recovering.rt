//! Parsing that goes on after errors, for explanations: each statement and each head is parsed by itself, by the functions
//! that also parse a whole source.

use crate::input::Reading;
use crate::item::{head, reducer};
use crate::names::Names;
use crate::opening::opened;
use crate::resume::Tokens;
use crate::simple::simple;
use crate::stop::Stop;
use cw_model::token::{Kind, Token};
use std::alloc::{AllocError, Global};

/// Represents a statement or the head of an item that does not parse, by indices of tokens.
#[derive(Clone, Copy)]
pub struct Rejected {
    /// The first token of the statement or item.
    pub first: usize,
    /// The token where parsing stops; the number of tokens if the source ends too early.
    pub place: usize,
    /// The token with which parsing goes on.
    pub next: usize,
}

/// Represents a reducer, a function, or tokens outside of functions that are neither, by indices of tokens.
#[derive(Clone, Copy)]
pub struct Item {
    pub first: usize,
    /// The first token after the opening brace; `end` if there is no body.
    pub body: usize,
    /// The token after the last.
    pub end: usize,
    /// Whether it begins with the head of a function, or is a reducer.
    pub is_headed: bool,
    /// Whether all of it parses.
    pub is_whole: bool,
}

/// Holds what was parsed of a source.
#[derive(Drop)]
pub struct Recovered {
    /// What does not parse, in the order of the source.
    pub rejected: Vec<Rejected>,
    /// The items, in the order of the source.
    pub items: Vec<Item>,
}

// Represents how far a part of a source parses.
#[derive(Clone, Copy)]
enum Reached {
    // All of it, up to the token with this index.
    Whole(usize),
    // Up to this token, which does not fit.
    Stopped(usize),
}

// Represents an open block.
#[derive(Clone, Copy)]
struct RecoveredBlock {
    is_if: bool,
}

// Holds the state of parsing that goes on after errors.
#[derive(Drop)]
struct Recovery<'t> {
    reading: Reading<'t>,
    tokens: Tokens<'t>,
    // the next token
    at: usize,
    blocks: Vec<RecoveredBlock>,
    // the incomplete function
    open: Option<Item>,
    // whether an `else` may be next
    after_if: bool,
    // whether the last statement was rejected
    after_rejected: bool,
    // whether the block of an `if` had no braces
    is_loose: bool,
    found: Recovered,
}

// Parses a statement without a block, after its first token.
fn past_simple<'a>(
    reading: Reading<'_>,
    first: Token,
    tokens: &'a [Token],
) -> Result<&'a [Token], Stop> {
    match simple(reading, reading.limit, 1, first, tokens) {
        Ok((_stmt, rest)) => Ok(rest),
        Err(stop) => Err(stop),
    }
}

// Parses the opening of a block, after its first token.
fn past_opening<'a>(
    reading: Reading<'_>,
    first: Token,
    tokens: &'a [Token],
) -> Result<&'a [Token], Stop> {
    match opened(reading, reading.limit, first, tokens) {
        Ok((_opening, rest)) => Ok(rest),
        Err(stop) => Err(stop),
    }
}

// Parses a reducer, or the head of a function up to its opening brace, after its first token.
fn past_head<'a>(
    reading: Reading<'_>,
    first: Token,
    tokens: &'a [Token],
) -> Result<&'a [Token], Stop> {
    match first.kind {
        Kind::Reducer => match reducer(reading, first, tokens) {
            Ok((_reducer, rest)) => Ok(rest),
            Err(stop) => Err(stop),
        },
        Kind::Int | Kind::Void => match head(reading, tokens) {
            Ok((_head, rest)) => Ok(rest),
            Err(stop) => Err(stop),
        },
        _ => Err(Stop::At(tokens.len().saturating_add(1))),
    }
}

// Whether a statement with this first token has a block.
fn has_block(kind: Kind) -> bool {
    matches!(
        kind,
        Kind::If | Kind::While | Kind::For | Kind::Scope | Kind::Cut | Kind::Region
    )
}

/// Parses each statement and each head of a source by itself, and goes on after what does not parse. `text` has the names.
///
/// # Errors
///
/// Returns an error if memory runs out.
pub fn recover(alloc: Global, text: &[u8], tokens: &[Token]) -> Result<Recovered, AllocError> {
    let names = Names::of(alloc, text, tokens)?;
    let reading = Reading {
        alloc,
        text,
        names: &names,
        limit: tokens.len(),
    };
    let mut recovery = Recovery::new(reading, tokens);
    recovery.go()?;
    Ok(recovery.found)
}

impl<'t> Recovery<'t> {
    // The state before the first token.
    fn new(reading: Reading<'t>, tokens: &'t [Token]) -> Recovery<'t> {
        let alloc = reading.alloc;
        Recovery {
            reading,
            tokens: Tokens {
                text: reading.text,
                tokens,
            },
            at: 0,
            blocks: Vec::new(alloc),
            open: None,
            after_if: false,
            after_rejected: false,
            is_loose: false,
            found: Recovered {
                rejected: Vec::new(alloc),
                items: Vec::new(alloc),
            },
        }
    }

    // Parses all tokens.
    fn go(&mut self) -> Result<(), AllocError> {
        let count = self.tokens.count();
        for _ in 0..count.saturating_mul(2) {
            if self.at >= count {
                break;
            }
            if self.blocks.is_empty() {
                self.item()?;
            } else {
                self.statement()?;
            }
        }
        let is_early = count == 0 || !self.blocks.is_empty();
        if is_early && self.found.rejected.is_empty() {
            self.reject(count, count, count)?;
        }
        self.leave(count)
    }

    // Records what does not parse, and where parsing goes on.
    fn reject(&mut self, first: usize, place: usize, next: usize) -> Result<(), AllocError> {
        self.found.rejected.push(Rejected { first, place, next })?;
        if let Some(item) = self.open {
            self.open = Some(Item {
                is_whole: false,
                ..item
            });
        }
        self.is_loose = self.is_loose || self.is_if(first);
        self.after_if = false;
        self.after_rejected = true;
        self.at = next;
        Ok(())
    }

    // Whether the token at an index is `if` or `else`.
    fn is_if(&self, index: usize) -> bool {
        matches!(self.tokens.kind(index), Some(Kind::If) | Some(Kind::Else))
    }

    // Ends the incomplete function, if there is one, before the token with this index.
    fn leave(&mut self, end: usize) -> Result<(), AllocError> {
        if let Some(item) = self.open {
            let is_whole = item.is_whole && self.blocks.is_empty();
            self.found.items.push(Item {
                end,
                is_whole,
                ..item
            })?;
        }
        self.open = None;
        self.blocks.clear();
        self.after_if = false;
        self.after_rejected = false;
        self.is_loose = false;
        Ok(())
    }

    // Records an item without a body.
    fn pass(&mut self, first: usize, end: usize, is_whole: bool) -> Result<(), AllocError> {
        self.found.items.push(Item {
            first,
            body: end,
            end,
            is_headed: is_whole,
            is_whole,
        })?;
        Ok(())
    }

    // Begins a function whose body begins at this index.
    fn enter(&mut self, first: usize, body: usize, is_whole: bool) -> Result<(), AllocError> {
        self.open = Some(Item {
            first,
            body,
            end: body,
            is_headed: is_whole,
            is_whole,
        });
        self.after_rejected = false;
        self.at = body;
        self.blocks.push(RecoveredBlock { is_if: false })?;
        Ok(())
    }

    // How far the tokens from the next one on parse: a statement if `is_inside`, else an item.
    fn reached(&self, is_inside: bool) -> Result<Reached, AllocError> {
        let read = match self.tokens.from(self.at) {
            [] => Err(Stop::At(0)),
            [first, rest @ ..] => {
                if !is_inside {
                    past_head(self.reading, *first, rest)
                } else if has_block(first.kind) {
                    past_opening(self.reading, *first, rest)
                } else {
                    past_simple(self.reading, *first, rest)
                }
            }
        };
        match read {
            Ok(rest) => Ok(Reached::Whole(self.tokens.index(rest.len()))),
            Err(Stop::At(left)) => Ok(Reached::Stopped(self.tokens.index(left))),
            Err(Stop::Memory) => Err(AllocError),
        }
    }

    // Parses an item, or its head.
    fn item(&mut self) -> Result<(), AllocError> {
        let at = self.at;
        match self.reached(false)? {
            Reached::Whole(next) => {
                let next = next.max(at.saturating_add(1));
                if self.tokens.kind(at) == Some(Kind::Reducer) {
                    self.at = next;
                    return self.pass(at, next, true);
                }
                self.enter(at, next, true)
            }
            Reached::Stopped(place) => self.broken_item(place),
        }
    }

    // Records an item that does not parse, and goes on with its body if it may be a function.
    fn broken_item(&mut self, place: usize) -> Result<(), AllocError> {
        let at = self.at;
        if self.tokens.kind(at) == Some(Kind::RightBrace) {
            let next = self.tokens.next_head(at.saturating_add(1));
            return self.reject(at, at, next);
        }
        let (end, has_body) = self.tokens.item_end(at);
        let end = end.max(at.saturating_add(1));
        self.reject(at, place, end)?;
        if has_body {
            return self.enter(at, end.saturating_add(1), false);
        }
        self.pass(at, end, false)
    }

    // Parses a statement, or its part before a block.
    fn statement(&mut self) -> Result<(), AllocError> {
        let at = self.at;
        match self.tokens.kind(at) {
            Some(Kind::RightBrace) => self.close(),
            Some(Kind::LeftBrace) => self.bare_block(),
            Some(Kind::Else) if self.after_if || self.is_loose => self.other(),
            Some(Kind::Int) | Some(Kind::Void) if self.tokens.is_function(at) => {
                // a brace before this function is missing
                if let Reached::Stopped(place) = self.reached(true)? {
                    self.reject(at, place, at)?;
                }
                self.leave(at)
            }
            _ => self.plain(),
        }
    }

    // Ends the innermost block.
    fn close(&mut self) -> Result<(), AllocError> {
        self.at = self.at.saturating_add(1);
        self.after_rejected = false;
        self.after_if = match self.blocks.pop() {
            Some(block) => block.is_if,
            None => false,
        };
        if self.blocks.is_empty() {
            return self.leave(self.at);
        }
        Ok(())
    }

    // Opens a block that follows what was rejected, or is a statement by itself.
    fn bare_block(&mut self) -> Result<(), AllocError> {
        let at = self.at;
        let mut is_if = false;
        if self.after_rejected {
            if let [.., last] = self.found.rejected.as_slice() {
                is_if = self.tokens.kind(last.first) == Some(Kind::If);
            }
        } else {
            self.reject(at, at, at)?;
        }
        self.open_block(at.saturating_add(1), is_if)
    }

    // Opens a block whose statements begin at this index.
    fn open_block(&mut self, next: usize, is_if: bool) -> Result<(), AllocError> {
        self.at = next;
        self.after_if = false;
        self.after_rejected = false;
        self.blocks.push(RecoveredBlock { is_if })?;
        Ok(())
    }

    // Parses an `else` with its opening brace.
    fn other(&mut self) -> Result<(), AllocError> {
        let at = self.at;
        let next = at.saturating_add(1);
        if self.tokens.kind(next) == Some(Kind::LeftBrace) {
            return self.open_block(next.saturating_add(1), false);
        }
        self.reject(at, next, next)
    }

    // Parses another statement, or its part before a block.
    fn plain(&mut self) -> Result<(), AllocError> {
        let at = self.at;
        let least = at.saturating_add(1);
        match self.reached(true)? {
            Reached::Whole(next) => {
                let next = next.max(least);
                if self.tokens.kind(at).map(has_block) == Some(true) {
                    return self.open_block(next, self.is_if(at));
                }
                self.at = next;
                self.after_if = false;
                self.after_rejected = false;
                Ok(())
            }
            Reached::Stopped(place) => {
                let next = self.tokens.resumed(at, place).max(least);
                self.reject(at, place, next)
            }
        }
    }
}
