//! The token with which parsing goes on after an error.

use crate::names::bytes_of;
use cw_model::token::{Kind, Token};

/// Holds the tokens of a text.
#[derive(Clone, Copy)]
pub(crate) struct Tokens<'t> {
    pub(crate) text: &'t [u8],
    pub(crate) tokens: &'t [Token],
}

// Whether a statement can begin with a token of this kind.
fn begins_statement(kind: Kind) -> bool {
    matches!(
        kind,
        Kind::Name
            | Kind::Int
            | Kind::If
            | Kind::While
            | Kind::For
            | Kind::Return
            | Kind::Print
            | Kind::Spawn
            | Kind::Sync
            | Kind::Scope
            | Kind::Cut
            | Kind::Region
            | Kind::LeftBrace
    )
}

// Whether a declaration goes on with a token of this kind after braces.
fn goes_on(kind: Option<Kind>) -> bool {
    matches!(
        kind,
        Some(Kind::Name) | Some(Kind::Comma) | Some(Kind::Star) | Some(Kind::Assign)
    )
}

impl<'t> Tokens<'t> {
    /// Returns the number of tokens.
    pub(crate) fn count(&self) -> usize {
        self.tokens.len()
    }

    /// Returns the tokens from an index on.
    pub(crate) fn from(&self, index: usize) -> &'t [Token] {
        self.tokens.get(index..).unwrap_or(&[])
    }

    /// Returns the index of the first of the last `left` tokens.
    pub(crate) fn index(&self, left: usize) -> usize {
        self.tokens.len().saturating_sub(left)
    }

    /// Returns the kind of the token at an index.
    pub(crate) fn kind(&self, index: usize) -> Option<Kind> {
        self.tokens.get(index).map(|token| token.kind)
    }

    // Whether the token at an index is spelled so.
    fn is_word(&self, index: usize, word: &[u8]) -> bool {
        match self.tokens.get(index) {
            Some(token) => bytes_of(self.text, *token) == word,
            None => false,
        }
    }

    // Whether a loop of C or Cilk with semicolons in its head begins at an index.
    fn is_for(&self, index: usize) -> bool {
        self.kind(index) == Some(Kind::For)
            || self.is_word(index, b"for")
            || self.is_word(index, b"_Cilk_for")
    }

    // Returns the index after the parenthesis that closes the one at an index, before a brace and, unless `is_for`, before a
    // semicolon.
    fn past_group(&self, index: usize, is_for: bool) -> Option<usize> {
        let mut depth: usize = 0;
        for at in index..self.count() {
            match self.kind(at)? {
                Kind::LeftParen => depth = depth.saturating_add(1),
                Kind::RightParen if depth > 1 => depth -= 1,
                Kind::RightParen => return Some(at.saturating_add(1)),
                Kind::LeftBrace | Kind::RightBrace => return None,
                Kind::Semicolon if !is_for => return None,
                _ => {}
            }
        }
        None
    }

    // Returns the index after the brace that closes the one at an index.
    fn past_braces(&self, index: usize) -> usize {
        let mut depth: usize = 0;
        for at in index..self.count() {
            match self.kind(at) {
                Some(Kind::LeftBrace) => depth = depth.saturating_add(1),
                Some(Kind::RightBrace) if depth > 1 => depth -= 1,
                Some(Kind::RightBrace) => return at.saturating_add(1),
                _ => {}
            }
        }
        self.count()
    }

    // Whether a name, a group in parentheses and an opening brace begin at an index, as in a function's head.
    fn is_called(&self, index: usize) -> bool {
        if self.kind(index) != Some(Kind::Name)
            || self.kind(index.saturating_add(1)) != Some(Kind::LeftParen)
            || self.is_for(index)
            || self.is_word(index, b"switch")
        {
            return false;
        }
        match self.past_group(index.saturating_add(1), false) {
            Some(after) => self.kind(after) == Some(Kind::LeftBrace),
            None => false,
        }
    }

    /// Reports whether a function seems to begin at an index.
    pub(crate) fn is_function(&self, index: usize) -> bool {
        matches!(self.kind(index), Some(Kind::Int) | Some(Kind::Void))
            && self.is_called(index.saturating_add(1))
    }

    /// Returns the index from this one on where an item seems to begin.
    pub(crate) fn next_head(&self, index: usize) -> usize {
        let mut first = index;
        for at in index..self.count() {
            if self.is_called(at) {
                return first;
            }
            match self.kind(at) {
                Some(Kind::Reducer) => return at,
                Some(Kind::Semicolon) | Some(Kind::LeftBrace) | Some(Kind::RightBrace) => {
                    first = at.saturating_add(1);
                }
                _ => {}
            }
        }
        self.count()
    }

    /// Returns where an item that does not parse ends, or its opening brace is, and whether it has one.
    pub(crate) fn item_end(&self, first: usize) -> (usize, bool) {
        let mut at = first;
        let mut is_called = false;
        for _ in first..self.count() {
            let next = at.saturating_add(1);
            match self.kind(at) {
                None | Some(Kind::RightBrace) => return (at, false),
                Some(Kind::Semicolon) => return (next, false),
                Some(Kind::Int) | Some(Kind::Void) if at > first && self.is_function(at) => {
                    return (at, false);
                }
                Some(Kind::LeftParen) => {
                    is_called = true;
                    at = self.past_group(at, false).unwrap_or(next);
                }
                Some(Kind::LeftBrace) => {
                    if is_called {
                        return (at, true);
                    }
                    at = self.past_braces(at);
                    if self.kind(at) == Some(Kind::Semicolon) {
                        return (at.saturating_add(1), false);
                    }
                    if !goes_on(self.kind(at)) {
                        return (at, false);
                    }
                }
                Some(Kind::Assign) => {
                    is_called = false;
                    at = next;
                }
                _ => at = next,
            }
        }
        (at, false)
    }

    // Whether the token at an index is in a line after the one before it, and a statement can begin with it.
    fn is_new_line(&self, index: usize) -> bool {
        match (
            self.tokens.get(index.saturating_sub(1)),
            self.tokens.get(index),
        ) {
            (Some(before), Some(token)) => {
                before.line < token.line && begins_statement(token.kind)
            }
            _ => false,
        }
    }

    // Whether each parenthesis between two indices is closed there.
    fn is_balanced(&self, first: usize, end: usize) -> bool {
        let mut depth: usize = 0;
        for at in first..end {
            match self.kind(at) {
                Some(Kind::LeftParen) | Some(Kind::LeftBracket) => depth = depth.saturating_add(1),
                Some(Kind::RightParen) | Some(Kind::RightBracket) => {
                    depth = depth.saturating_sub(1);
                }
                _ => {}
            }
        }
        depth == 0
    }

    // Returns the index after a head in parentheses, if the statement that begins at an index has one.
    fn past_head(&self, first: usize, place: usize) -> Option<usize> {
        let after = self.past_group(first.saturating_add(1), self.is_for(first))?;
        if place > after {
            return None;
        }
        match self.kind(after)? {
            Kind::Semicolon => Some(after.saturating_add(1)),
            kind if begins_statement(kind) => Some(after),
            _ => None,
        }
    }

    /// Returns the index with which parsing goes on if the statement that begins at `first` does not parse beyond `place`.
    pub(crate) fn resumed(&self, first: usize, place: usize) -> usize {
        if self.kind(first.saturating_add(1)) == Some(Kind::LeftParen) {
            if let Some(after) = self.past_head(first, place) {
                return after;
            }
        }
        if place > first && self.is_new_line(place) && self.is_balanced(first, place) {
            return place;
        }
        self.statement_end(place, self.is_for(first))
    }

    // Returns the index after the next semicolon, or of the next brace, unless braces follow a `=`.
    fn statement_end(&self, place: usize, is_for: bool) -> usize {
        let mut at = place;
        for _ in place..self.count() {
            let next = at.saturating_add(1);
            match self.kind(at) {
                None | Some(Kind::RightBrace) => return at,
                Some(Kind::Semicolon) if !is_for => return next,
                Some(Kind::LeftBrace) => {
                    if self.kind(at.saturating_sub(1)) != Some(Kind::Assign) {
                        return at;
                    }
                    at = self.past_braces(at);
                }
                _ => at = next,
            }
        }
        at
    }
}
