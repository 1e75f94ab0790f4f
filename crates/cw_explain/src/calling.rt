//! What a line does with a name, by its tokens.

use crate::around::{first_from, word_of};
use crate::near::{is_declared, reduction_of};
use crate::word::Word;
use cw_model::token::{Kind, Token};

/// The most tokens of a statement that are read.
const MOST_TOKENS: usize = 300;

/// The most tokens before a use that are searched for a declaration or a loop.
const MOST_SEARCHED: usize = 8_192;

/// What a line does with a name.
#[derive(Clone, Copy)]
pub enum Call<'a> {
    /// It returns it.
    Returned,
    /// It assigns it.
    Copied,
    /// It assigns to it.
    Target,
    /// It passes an expression that begins with this name.
    Argument(Word<'a>),
    /// It adds to it in a `cilk_for` that its declaration is outside of.
    Outer,
    /// It uses a reducer for a maximum.
    Largest,
    /// It prints it.
    Printed,
    /// It lists it in `over` of a loop that writes this array, if it writes one.
    Listed(Option<Word<'a>>),
    /// It passes it to this function.
    Passed(Word<'a>),
    /// It cuts it.
    Cut,
    /// It declares it as an integer, in a statement of its own.
    Declared,
    /// It is after the block with its declaration, which is in this line.
    Ended(u32),
    /// Something else.
    Other,
}

impl Call<'_> {
    /// Returns the other line that matters, if there is one.
    pub fn other_line(&self) -> Option<u32> {
        match self {
            Call::Ended(line) => Some(*line),
            _ => None,
        }
    }
}

/// The text of a source, and its tokens.
#[derive(Clone, Copy)]
pub struct Text<'a> {
    pub bytes: &'a [u8],
    pub tokens: &'a [Token],
}

impl<'a> Text<'a> {
    // The place of the first token of a line or one after it.
    fn place_of(&self, line: u32) -> usize {
        first_from(self.tokens, line)
    }

    // The kind of the token at a place.
    fn kind(&self, place: usize) -> Option<Kind> {
        self.tokens.get(place).map(|token| token.kind)
    }

    // Whether the token at a place is this name.
    fn is_name(&self, place: usize, name: Word<'_>) -> bool {
        match self.tokens.get(place) {
            Some(token) => token.kind == Kind::Name && word_of(self.bytes, *token).is(name.text),
            None => false,
        }
    }

    // The place after the statements of a line.
    fn end_of(&self, line: u32) -> usize {
        let start = self.place_of(line);
        let most = self.tokens.len().min(start.saturating_add(MOST_TOKENS));
        for place in start..most {
            let is_next = matches!(
                self.kind(place.saturating_sub(1)),
                Some(Kind::Semicolon) | Some(Kind::LeftBrace) | Some(Kind::RightBrace)
            );
            match self.tokens.get(place) {
                Some(token) if is_next && token.line > line => return place,
                _ => {}
            }
        }
        most
    }

    // The place of a name in a line that is right after a token of the first kind, if there is one, and before one of the other.
    fn between(
        &self,
        line: u32,
        name: Word<'_>,
        before: Option<Kind>,
        next: Kind,
    ) -> Option<usize> {
        for place in self.place_of(line)..self.end_of(line) {
            if self.is_name(place, name)
                && (before.is_none() || self.kind(place.saturating_sub(1)) == before)
                && self.kind(place.saturating_add(1)) == Some(next)
            {
                return Some(place);
            }
        }
        None
    }

    // Whether a name in a line is between tokens of these kinds.
    fn is_between(&self, line: u32, name: Word<'_>, before: Kind, next: Kind) -> bool {
        self.between(line, name, Some(before), next).is_some()
    }

    /// Returns what a line does with an array that it uses as an integer.
    pub fn use_of(&self, line: u32, name: Word<'_>) -> Call<'a> {
        if self.is_between(line, name, Kind::Return, Kind::Semicolon) {
            return Call::Returned;
        }
        if self.is_between(line, name, Kind::Assign, Kind::Semicolon) {
            return Call::Copied;
        }
        if self.between(line, name, None, Kind::Assign).is_some() {
            return Call::Target;
        }
        Call::Other
    }

    /// Returns what a line does with a reducer that another line declares.
    pub fn use_of_reducer(&self, line: u32, name: Word<'_>, declared: u32) -> Call<'a> {
        if let Some(place) = self.between(line, name, Some(Kind::LeftParen), Kind::RightParen) {
            if self.kind(place.saturating_sub(2)) == Some(Kind::Print) {
                return Call::Printed;
            }
        }
        let start = self.place_of(declared);
        let tokens = self.tokens.get(start..).unwrap_or(&[]);
        match (
            self.use_of(line, name),
            reduction_of(self.bytes, tokens, name),
        ) {
            (Call::Returned, _) => Call::Returned,
            (_, Some(Kind::Max)) => Call::Largest,
            (call, _) => call,
        }
    }

    /// Returns what a line does with a const array that it may not use as it does.
    pub fn use_of_const(&self, line: u32, name: Word<'_>) -> Call<'a> {
        let mut is_listed = false;
        for place in self.place_of(line)..self.end_of(line) {
            let before = self.kind(place.saturating_sub(1));
            match self.kind(place) {
                Some(Kind::Over) => is_listed = true,
                _ if !self.is_name(place, name) => {}
                _ if is_listed => return Call::Listed(self.written_in(line)),
                _ if before == Some(Kind::Cut) => return Call::Cut,
                _ if matches!(before, Some(Kind::LeftParen) | Some(Kind::Comma)) => {
                    // none before the parenthesis of len
                    let callee = self.before_open(place, Kind::LeftParen, Kind::RightParen);
                    if let Some(callee) = callee {
                        return Call::Passed(callee);
                    }
                }
                _ => {}
            }
        }
        Call::Other
    }

    /// Returns what a line does that declares a name another time.
    pub fn use_of_known(&self, line: u32, name: Word<'_>) -> Call<'a> {
        match self.between(line, name, Some(Kind::Int), Kind::Assign) {
            Some(place) if self.kind(place.saturating_sub(2)) != Some(Kind::LeftParen) => {
                Call::Declared
            }
            _ => Call::Other,
        }
    }

    // The token at a place, if it is a name.
    fn name_at(&self, place: usize) -> Option<Word<'a>> {
        match self.tokens.get(place) {
            Some(token) if token.kind == Kind::Name => Some(word_of(self.bytes, *token)),
            _ => None,
        }
    }

    // The name before the bracket of one kind that a bracket of the other kind at or after a place closes.
    fn before_open(&self, place: usize, open: Kind, close: Kind) -> Option<Word<'a>> {
        let mut depth: usize = 0;
        for back in 1..place.min(MOST_TOKENS) {
            let at = place.saturating_sub(back);
            let kind = self.kind(at);
            if kind == Some(close) {
                depth = depth.saturating_add(1);
            } else if kind == Some(open) && depth > 0 {
                depth = depth.saturating_sub(1);
            } else if kind == Some(open) {
                return self.name_at(at.saturating_sub(1));
            }
        }
        None
    }

    /// Returns the first array from outside of which the loop with its head in a line writes an element.
    pub fn written_in(&self, head: u32) -> Option<Word<'a>> {
        let start = self.place_of(head);
        let mut depth: usize = 0;
        for place in start..self.tokens.len().min(start.saturating_add(MOST_TOKENS)) {
            match self.kind(place) {
                Some(Kind::LeftBrace) => depth = depth.saturating_add(1),
                Some(Kind::RightBrace) if depth == 1 => return None,
                Some(Kind::RightBrace) => depth = depth.saturating_sub(1),
                Some(Kind::RightBracket)
                    if self.kind(place.saturating_add(1)) == Some(Kind::Assign) => {
                    let name = self.before_open(place, Kind::LeftBracket, Kind::RightBracket)?;
                    let inner = self.tokens.get(start..place).unwrap_or(&[]);
                    if !is_declared(self.bytes, inner, name) {
                        return Some(name);
                    }
                }
                _ => {}
            }
        }
        None
    }

    // The tokens from one place to before another.
    fn part(&self, from: usize, to: usize) -> Option<Word<'a>> {
        let start = self.tokens.get(from)?.start as usize;
        let end = self.tokens.get(to.checked_sub(1)?)?.end as usize;
        Some(Word {
            text: self.bytes.get(start..end)?,
        })
    }

    /// Returns the parts of the cut of a name in a line, with the comma between them.
    pub fn parts(&self, line: u32, name: Word<'_>) -> Option<Word<'a>> {
        let place = self.between(line, name, Some(Kind::Cut), Kind::At)?;
        for at in place..self.end_of(line) {
            if self.kind(at) == Some(Kind::As) {
                return self.part(at.saturating_add(1), at.saturating_add(4));
            }
        }
        None
    }

    /// Returns what the statement `x = x + ..;` in a line adds to a name; `..` if it is not found.
    pub fn added(&self, line: u32, name: Word<'_>) -> Word<'a> {
        let dots = Word { text: b".." };
        let first = match self.between(line, name, Some(Kind::Assign), Kind::Plus) {
            Some(place) if self.is_name(place.saturating_sub(2), name) => place.saturating_add(2),
            _ => return dots,
        };
        for at in first..self.end_of(line) {
            match self.kind(at) {
                Some(Kind::Semicolon) => return self.part(first, at).unwrap_or(dots),
                Some(Kind::Less | Kind::LessEqual | Kind::Greater | Kind::GreaterEqual) => break,
                Some(Kind::Equal | Kind::NotEqual) => break,
                _ => {}
            }
        }
        dots
    }

    // Whether the token at a place is a name that a statement declares.
    fn is_declaration(&self, place: usize, name: Word<'_>) -> bool {
        let next = self.kind(place.saturating_add(1));
        self.is_name(place, name)
            && self.kind(place.saturating_sub(1)) == Some(Kind::Int)
            && matches!(
                self.kind(place.saturating_sub(2)),
                Some(Kind::Semicolon) | Some(Kind::LeftBrace) | Some(Kind::RightBrace)
            )
            && matches!(next, Some(Kind::Assign) | Some(Kind::LeftBracket))
    }

    // Whether the brace at a place begins the body of a function.
    fn is_body(&self, place: usize) -> bool {
        if self.kind(place.saturating_sub(1)) != Some(Kind::RightParen) {
            return false;
        }
        for back in 2..place.min(MOST_TOKENS) {
            let at = place.saturating_sub(back);
            if self.kind(at) == Some(Kind::LeftParen) {
                return self.kind(at.saturating_sub(1)) == Some(Kind::Name)
                    && matches!(
                        self.kind(at.saturating_sub(2)),
                        Some(Kind::Int) | Some(Kind::Void)
                    );
            }
        }
        false
    }

    // The place of the first use of a name from the first token of a line on.
    fn use_from(&self, line: u32, name: Word<'_>) -> usize {
        let start = self.place_of(line);
        for place in start..self.tokens.len().min(start.saturating_add(MOST_TOKENS)) {
            if self.is_name(place, name) {
                return place;
            }
        }
        start
    }

    /// Returns where a name is declared in a block that ends before its use in a line, if one of the function does.
    pub fn ended(&self, line: u32, name: Word<'_>) -> Call<'a> {
        let end = self.use_from(line, name);
        let mut depth: usize = 0;
        for back in 0..end.min(MOST_SEARCHED) {
            let place = end.saturating_sub(back).saturating_sub(1);
            match self.kind(place) {
                Some(Kind::RightBrace) => depth = depth.saturating_add(1),
                Some(Kind::LeftBrace) if depth == 0 && self.is_body(place) => return Call::Other,
                Some(Kind::LeftBrace) => depth = depth.saturating_sub(1),
                _ if depth > 0 && self.is_declaration(place, name) => {
                    return match self.tokens.get(place) {
                        Some(token) => Call::Ended(token.line),
                        None => Call::Other,
                    };
                }
                _ => {}
            }
        }
        Call::Other
    }

    // The place of the first token of an argument of a call, counted from 1, if it is found from a line on.
    fn argument_place(&self, line: u32, callee: Word<'_>, number: usize) -> Option<usize> {
        let start = self.place_of(line);
        let mut depth: usize = 0;
        let mut passed: usize = 1;
        for place in start..self.tokens.len().min(start.saturating_add(MOST_TOKENS)) {
            match self.kind(place) {
                Some(Kind::LeftParen) if depth > 0 => depth = depth.saturating_add(1),
                Some(Kind::LeftParen) if self.is_name(place.saturating_sub(1), callee) => depth = 1,
                Some(Kind::RightParen) => depth = depth.saturating_sub(1),
                Some(Kind::Comma) if depth == 1 => passed = passed.saturating_add(1),
                _ if depth > 0 && passed == number => return Some(place),
                _ => {}
            }
        }
        None
    }

    /// Returns the array that an argument of a call in a line begins with, if it is a name and more.
    pub fn argument(&self, line: u32, callee: Word<'_>, number: usize) -> Call<'a> {
        let Some(place) = self.argument_place(line, callee, number) else {
            return Call::Other;
        };
        match self.name_at(place) {
            Some(array) => Call::Argument(array),
            None => Call::Other,
        }
    }

    // The place of the outermost `cilk_for` whose block is open at a place.
    fn loop_around(&self, place: usize) -> Option<usize> {
        let mut depth: usize = 0;
        let mut head = None;
        let mut open = None;
        for at in place.saturating_sub(MOST_SEARCHED)..place {
            match self.kind(at) {
                Some(Kind::For) if head.is_none() => head = Some(at),
                Some(Kind::LeftBrace) => {
                    depth = depth.saturating_add(1);
                    if head.is_some() && open.is_none() {
                        open = Some(depth);
                    }
                }
                Some(Kind::RightBrace) => {
                    if open == Some(depth) {
                        head = None;
                        open = None;
                    }
                    depth = depth.saturating_sub(1);
                }
                _ => {}
            }
        }
        if open.is_some() { head } else { None }
    }

    /// Returns a name for a reducer if a line is in a `cilk_for` around which a name is declared.
    pub fn outer(&self, line: u32, name: Word<'_>) -> Call<'a> {
        let place = self.place_of(line);
        let Some(start) = self.loop_around(place) else {
            return Call::Other;
        };
        let inner = self.tokens.get(start..place).unwrap_or(&[]);
        if is_declared(self.bytes, inner, name) {
            return Call::Other;
        }
        Call::Outer
    }

    // Whether the token at a place is an array, with an index that is this variable.
    fn is_element(&self, place: usize, variable: Option<Word<'_>>) -> bool {
        let Some(variable) = variable else {
            return false;
        };
        self.kind(place.saturating_add(1)) == Some(Kind::LeftBracket)
            && self.is_name(place.saturating_add(2), variable)
            && self.kind(place.saturating_add(3)) == Some(Kind::RightBracket)
    }

    /// Returns whether a line uses a name as `len` of it, and otherwise only as its element at a variable, if there is one.
    pub fn is_length(&self, line: u32, name: Word<'_>, variable: Option<Word<'_>>) -> bool {
        let start = self.place_of(line);
        let mut found = false;
        for place in start..self.tokens.len() {
            if self.tokens[place].line > line {
                return found;
            }
            if self.is_name(place, name) {
                if self.kind(place.saturating_sub(2)) == Some(Kind::Len) {
                    found = true;
                } else if !self.is_element(place, variable) {
                    return false;
                }
            }
        }
        found
    }
}
