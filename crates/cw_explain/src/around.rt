//! The tokens around the place where a source is rejected, and what is open there.

use crate::advice::advice_for;
use crate::near::{is_declared, reduction_of};
use crate::word::Word;
use crate::words::{KEYWORDS, OPERATORS, STORAGE, TYPES};
use cw_model::token::{Kind, Token};
use std::alloc::{AllocError, Global};

/// The most words of a type that are read.
const MOST_TYPES: usize = 8;

/// The most tokens that are searched for the declaration of a name.
const MOST_SEARCHED: usize = 8_192;

/// The most tokens of a source in which a name is looked up.
const MOST_DECLARED: usize = 16_384;

/// An open bracket, and the place and kind of the first token of its statement.
#[derive(Clone, Copy)]
struct Bracket {
    token: Token,
    first: usize,
    front: Option<Kind>,
}

/// The brackets that are open after some tokens, and the statement there.
#[derive(Drop)]
pub struct Opened {
    /// The number of tokens so far.
    count: usize,
    /// The brackets that are open, the outermost first.
    brackets: Vec<Bracket>,
    /// The number of braces among them.
    braces: usize,
    /// The place of the first token of the incomplete statement.
    first: usize,
    /// That token, if there is one.
    front: Option<Kind>,
}

// Whether a statement of this kind has a block that ends only at its end.
fn is_left_at_its_end(kind: Option<Kind>) -> bool {
    matches!(
        kind,
        Some(Kind::Cut) | Some(Kind::Region) | Some(Kind::Scope) | Some(Kind::For)
    )
}

impl Opened {
    /// Returns the state before all tokens.
    pub fn new(alloc: Global) -> Opened {
        Opened {
            count: 0,
            brackets: Vec::new(alloc),
            braces: 0,
            first: 0,
            front: None,
        }
    }

    // The innermost bracket that is open.
    fn innermost(&self) -> Option<Token> {
        match self.brackets.as_slice() {
            [.., bracket] => Some(bracket.token),
            [] => None,
        }
    }

    /// Returns the number of open braces.
    pub fn braces(&self) -> usize {
        self.braces
    }

    /// Returns whether the next token begins a statement or an item.
    pub fn is_at_front(&self) -> bool {
        self.first == self.count
    }

    /// Returns the first token of the incomplete statement, if there is one.
    pub fn front(&self) -> Option<Kind> {
        self.front
    }

    /// Returns whether a block is open that ends only at its end.
    pub fn is_in_closed_block(&self) -> bool {
        for bracket in self.brackets.as_slice() {
            if bracket.token.kind == Kind::LeftBrace && is_left_at_its_end(bracket.front) {
                return true;
            }
        }
        false
    }

    // The place of the innermost `cilk_for` whose block is open.
    fn loop_around(&self) -> Option<usize> {
        let mut found = None;
        for bracket in self.brackets.as_slice() {
            if bracket.token.kind == Kind::LeftBrace && bracket.front == Some(Kind::For) {
                found = Some(bracket.first);
            }
        }
        found
    }

    /// Returns whether a bracket is open after the last brace.
    pub fn is_in_brackets(&self) -> bool {
        match self.innermost() {
            Some(token) => token.kind != Kind::LeftBrace,
            None => false,
        }
    }

    // Opens a bracket.
    fn open(&mut self, token: Token) -> Result<(), AllocError> {
        self.brackets.push(Bracket {
            token,
            first: self.first,
            front: self.front,
        })?;
        Ok(())
    }

    // Closes the innermost bracket.
    fn close(&mut self) {
        self.brackets.pop();
    }

    // Ends the statement with the last token.
    fn end(&mut self) {
        self.first = self.count.saturating_add(1);
        self.front = None;
    }

    /// Goes on at another token after a statement that does not parse; the statement goes on with its block if `is_block`.
    pub fn resume(&mut self, place: usize, is_block: bool) {
        self.brackets
            .retain(|bracket| bracket.token.kind == Kind::LeftBrace);
        self.count = place;
        if !is_block {
            self.first = place;
            self.front = None;
        }
    }

    /// Goes on at the first token of an item.
    pub fn restart(&mut self, place: usize) {
        self.brackets.clear();
        self.braces = 0;
        self.resume(place, false);
    }

    /// Adds one token.
    pub fn add(&mut self, token: Token) -> Result<(), AllocError> {
        self.front = self.front.or(Some(token.kind));
        match token.kind {
            Kind::LeftBrace => {
                self.open(token)?;
                self.braces = self.braces.saturating_add(1);
                self.end();
            }
            Kind::RightBrace => {
                self.close();
                self.braces = self.braces.saturating_sub(1);
                self.end();
            }
            Kind::LeftParen | Kind::LeftBracket => self.open(token)?,
            Kind::RightParen | Kind::RightBracket => self.close(),
            Kind::Semicolon if !self.is_in_brackets() => self.end(),
            _ => {}
        }
        self.count = self.count.saturating_add(1);
        Ok(())
    }
}

/// The tokens of a text around the first that cannot be there.
#[derive(Clone, Copy)]
pub struct Around<'a> {
    pub text: &'a [u8],
    pub tokens: &'a [Token],
    /// The place of the token that cannot be there; the number of tokens if the source ends too early.
    pub place: usize,
    /// The place of the first token of its statement or item.
    pub first: usize,
    /// Whether it is in a function.
    pub is_inside: bool,
    /// The innermost bracket that is open there.
    pub open: Option<Token>,
    /// The place of the innermost `cilk_for` around it.
    pub loop_around: Option<usize>,
}

/// Returns the text of a token.
pub fn word_of<'a>(text: &'a [u8], token: Token) -> Word<'a> {
    let end = (token.end as usize).min(text.len());
    let start = (token.start as usize).min(end);
    Word {
        text: &text[start..end],
    }
}

/// Returns the index of the first token in a line or after it.
pub fn first_from(tokens: &[Token], line: u32) -> usize {
    let mut low = 0;
    let mut high = tokens.len();
    for _ in 0..64 {
        if low >= high {
            break;
        }
        let middle = low.saturating_add(high.saturating_sub(low) / 2);
        match tokens.get(middle) {
            Some(token) if token.line < line => low = middle.saturating_add(1),
            _ => high = middle,
        }
    }
    low
}

// Whether a text is one of these words.
fn is_among(word: Word<'_>, words: &[&str]) -> bool {
    for other in words {
        if word.is(other.as_bytes()) {
            return true;
        }
    }
    false
}

impl<'a> Around<'a> {
    /// Returns the tokens around the one after those that were added.
    pub fn behind(text: &'a [u8], tokens: &'a [Token], opened: &Opened) -> Around<'a> {
        Around {
            text,
            tokens,
            place: opened.count,
            first: opened.first,
            is_inside: opened.braces > 0,
            open: opened.innermost(),
            loop_around: opened.loop_around(),
        }
    }

    /// Returns whether the token is the first of its statement.
    pub fn is_at_front(&self) -> bool {
        self.place == self.first
    }

    /// Returns the token that cannot be there, if the source does not end there.
    pub fn found(&self) -> Option<Token> {
        self.at(self.place)
    }

    /// Returns the token at a distance before it.
    pub fn before(&self, back: usize) -> Option<Token> {
        self.at(self.place.checked_sub(back)?)
    }

    /// Returns the first token of its statement.
    pub fn front(&self) -> Option<Token> {
        self.at(self.first)
    }

    /// Returns the token at a place.
    pub fn at(&self, place: usize) -> Option<Token> {
        self.tokens.get(place).copied()
    }

    /// Returns the kind of the token at a place.
    pub fn kind(&self, place: usize) -> Option<Kind> {
        self.at(place).map(|token| token.kind)
    }

    /// Returns the text of a token that is a name without a declaration.
    pub fn unknown(&self, token: Option<Token>) -> Option<Word<'a>> {
        let token = token?;
        let name = self.word(token);
        if token.kind != Kind::Name
            || self.tokens.len() > MOST_DECLARED
            || is_declared(self.text, self.tokens, name)
        {
            return None;
        }
        Some(name)
    }

    /// Returns the text of a token.
    pub fn word(&self, token: Token) -> Word<'a> {
        word_of(self.text, token)
    }

    // The place after these types of C and words before them, if there is a type.
    fn after_types(&self, place: usize) -> Option<usize> {
        let mut found = None;
        for at in place..self.tokens.len().min(place.saturating_add(MOST_TYPES)) {
            let token = self.at(at)?;
            let word = self.word(token);
            if is_among(word, TYPES) || (token.kind == Kind::Int && found.is_some()) {
                found = Some(at.saturating_add(1));
            } else if !is_among(word, STORAGE) {
                return found;
            }
        }
        found
    }

    /// Returns whether the token at a place is a type of C or a word before one.
    pub fn is_like_type(&self, place: usize) -> bool {
        self.is_at(place, b"type") || self.is_at(place, b"storage")
    }

    /// Returns the place after the parenthesis that closes the one at a place, if it is closed in its statement.
    pub fn after_group(&self, place: usize) -> Option<usize> {
        if self.at(place)?.kind != Kind::LeftParen {
            return None;
        }
        let mut depth: usize = 0;
        for at in place..self.tokens.len() {
            match self.at(at)?.kind {
                Kind::LeftParen => depth = depth.saturating_add(1),
                Kind::RightParen if depth > 1 => depth -= 1,
                Kind::RightParen => return Some(at.saturating_add(1)),
                Kind::Semicolon | Kind::LeftBrace | Kind::RightBrace => return None,
                _ => {}
            }
        }
        None
    }

    // Whether the token at a place is what a word of a pattern denotes.
    fn is_at(&self, place: usize, pattern: &[u8]) -> bool {
        let Some(token) = self.at(place) else {
            return false;
        };
        let word = self.word(token);
        match pattern {
            b"?" => true,
            b"first" => place == self.first,
            b"x" => token.kind == Kind::Name,
            b"1" => matches!(token.kind, Kind::Number(_)),
            b"operator" => is_among(word, OPERATORS),
            b"keyword" => is_among(word, KEYWORDS),
            b"type" => is_among(word, TYPES),
            b"storage" => is_among(word, STORAGE),
            b"library" => self.advice(token).is_some(),
            b"outer" => self.is_outer(token),
            b"total" => self.is_total(token),
            _ => word.is(pattern),
        }
    }

    /// Returns what to write instead of a name of a library, unless the source declares it.
    pub fn advice(&self, token: Token) -> Option<&'static str> {
        if token.kind != Kind::Name {
            return None;
        }
        let says = advice_for(self.word(token))?;
        if self.tokens.len() > MOST_SEARCHED || self.unknown(Some(token)).is_none() {
            return None;
        }
        Some(says)
    }

    // Whether a token is a name from outside of the `cilk_for` around it.
    fn is_outer(&self, token: Token) -> bool {
        let Some(start) = self.loop_around else {
            return false;
        };
        let inner = self.tokens.get(start..self.place).unwrap_or(&[]);
        inner.len() <= MOST_SEARCHED
            && token.kind == Kind::Name
            && !is_declared(self.text, inner, self.word(token))
    }

    // Whether a token is the name of a reducer.
    fn is_total(&self, token: Token) -> bool {
        token.kind == Kind::Name
            && self.tokens.len() <= MOST_SEARCHED
            && reduction_of(self.text, self.tokens, self.word(token)).is_some()
    }

    // The place after the token or tokens at a place that a word of a pattern denotes, if they are there.
    fn after(&self, place: Option<usize>, pattern: &[u8]) -> Option<usize> {
        let place = place?;
        match pattern {
            b"(..)" => self.after_group(place),
            b"type" => self.after_types(place),
            _ if self.is_at(place, pattern) => Some(place.saturating_add(1)),
            _ => None,
        }
    }

    // Whether the tokens from a place on are what a pattern denotes.
    fn are_from(&self, place: usize, pattern: &str) -> bool {
        let words = pattern.as_bytes();
        if words.is_empty() {
            return true;
        }
        let mut at = Some(place);
        let mut start = 0;
        for end in 0..words.len() {
            if words[end] == b' ' {
                at = self.after(at, words.get(start..end).unwrap_or(&[]));
                if at.is_none() {
                    return false;
                }
                start = end.saturating_add(1);
            }
        }
        self.after(at, words.get(start..).unwrap_or(&[])).is_some()
    }

    /// Returns whether the statement begins with `front`, the tokens right before the rejected one are `before`, and the tokens
    /// from the rejected one on are `from`.
    pub fn is_like(&self, front: &str, before: &str, from: &str) -> bool {
        let Some(start) = self.place.checked_sub(count_words(before)) else {
            return false;
        };
        self.are_from(self.place, from)
            && self.are_from(start, before)
            && self.are_from(self.first, front)
    }
}

// The number of words of a pattern.
fn count_words(pattern: &str) -> usize {
    if pattern.is_empty() {
        return 0;
    }
    let mut count: usize = 1;
    for byte in pattern.as_bytes() {
        if *byte == b' ' {
            count = count.saturating_add(1);
        }
    }
    count
}
