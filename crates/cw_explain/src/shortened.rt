//! A source without the parts that do not affect what can follow: complete statements and items, and its names, numbers and
//! conditions. The rest has a few tokens for each open block, and those of the incomplete statement.

use crate::grammar::spelling;
use cw_model::token::Kind;
use std::alloc::{AllocError, Global};

/// An open block: where its statement begins in the text, where the statements of the block begin, and whether it belongs to
/// an `if`, which an `else` can follow.
#[derive(Clone, Copy)]
struct OpenBlock {
    start: usize,
    inner: usize,
    is_if: bool,
}

/// The tokens so far, shortened.
#[derive(Drop)]
pub struct Shortened {
    text: Vec<u8>,
    blocks: Vec<OpenBlock>,
    /// The first token of the incomplete statement.
    first: Option<Kind>,
    /// The number of open parentheses in it.
    open: usize,
    /// Whether an `if` with its block is at the end.
    behind_if: bool,
}

impl Shortened {
    /// Returns no token.
    pub fn new(alloc: Global) -> Shortened {
        Shortened {
            text: Vec::new(alloc),
            blocks: Vec::new(alloc),
            first: None,
            open: 0,
            behind_if: false,
        }
    }

    /// Returns the text of the rest: the tokens, each followed by a space.
    pub fn text(&self) -> &[u8] {
        self.text.as_slice()
    }

    // Where the statements of the innermost block begin in the text.
    fn begin(&self) -> usize {
        match self.blocks.as_slice() {
            [.., block] => block.inner,
            [] => 0,
        }
    }

    // Removes the incomplete statement.
    fn drop_statement(&mut self) {
        let begin = self.begin();
        self.text.truncate(begin);
        self.first = None;
        self.open = 0;
    }

    /// Removes the incomplete statement, which does not parse; it goes on with its block if `is_block`.
    pub fn resume(&mut self, is_block: bool) {
        self.behind_if = false;
        if is_block {
            self.open = 0;
        } else {
            self.drop_statement();
        }
    }

    /// Removes all tokens.
    pub fn restart(&mut self) {
        self.blocks.clear();
        self.resume(false);
    }

    /// Adds one token.
    pub fn add(&mut self, kind: Kind) -> Result<(), AllocError> {
        if self.behind_if {
            self.behind_if = false;
            self.leave_if(kind);
        }
        match kind {
            Kind::LeftBrace => self.open_block(),
            Kind::RightBrace => self.close_block(),
            Kind::Semicolon if self.open == 0 => {
                self.drop_statement();
                Ok(())
            }
            _ => self.push(kind),
        }
    }

    // Removes an `if` if no `else` follows it.
    fn leave_if(&mut self, kind: Kind) {
        if !matches!(kind, Kind::Else) {
            self.drop_statement();
        }
    }

    // Adds a token of the incomplete statement.
    fn push(&mut self, kind: Kind) -> Result<(), AllocError> {
        if self.first.is_none() && kind == Kind::Else && self.text.len() == self.begin() {
            // its `if` does not parse
            self.text.extend_from_slice(b"if (1) { } ")?;
        }
        self.first = self.first.or(Some(kind));
        match kind {
            Kind::LeftParen => self.open = self.open.saturating_add(1),
            Kind::RightParen => self.open = self.open.saturating_sub(1),
            _ => {}
        }
        self.text.extend_from_slice(spelling(kind).as_bytes())?;
        self.text.push(b' ')?;
        Ok(())
    }

    // Opens a block of the incomplete statement.
    fn open_block(&mut self) -> Result<(), AllocError> {
        let first = self.first;
        self.drop_statement();
        let start = self.text.len();
        let is_inside = !self.blocks.is_empty();
        self.text
            .extend_from_slice(opening(first, is_inside).as_bytes())?;
        let inner = self.text.len();
        let is_if = matches!(first, Some(Kind::If));
        self.blocks.push(OpenBlock {
            start,
            inner,
            is_if,
        })?;
        Ok(())
    }

    // Ends the innermost block and its statement; an `if` stays until it is known whether an `else` follows.
    fn close_block(&mut self) -> Result<(), AllocError> {
        let Some(block) = self.blocks.pop() else {
            return Ok(());
        };
        self.text.truncate(block.start);
        self.first = None;
        self.open = 0;
        if block.is_if {
            self.text.extend_from_slice(b"if (1) { } ")?;
            self.behind_if = true;
        }
        Ok(())
    }
}

// The shortest statement or item with a block that begins with this token, up to the statements of the block.
fn opening(first: Option<Kind>, is_inside: bool) -> &'static str {
    match first {
        Some(Kind::If) => "if (1) { ",
        Some(Kind::Else) => "if (1) { } else { ",
        Some(Kind::While) => "while (1) { ",
        Some(Kind::For) => "cilk_for (int x = 1; x < 1; x++) { ",
        Some(Kind::Scope) => "cilk_scope { ",
        Some(Kind::Cut) => "cut x at 1 as x, x { ",
        Some(Kind::Region) => "region x { ",
        // a statement or a head that does not parse
        _ if is_inside => "while (1) { ",
        _ => "void x() { ",
    }
}
