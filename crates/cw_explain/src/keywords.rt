//! Keywords that functions use as names: they are renamed, and each is reported once in a function.

use crate::around::word_of;
use crate::excerpt::line_start;
use crate::grammar::keyword;
use crate::listing::{Listing, Spot};
use crate::near::is_declared;
use crate::phrase::Phrase;
use crate::word::Word;
use cw_model::token::{Kind, Token};
use cw_text::Fault;
use std::alloc::Global;

// The kind of the token at a place.
fn kind_at(tokens: &[Token], place: usize) -> Kind {
    match tokens.get(place) {
        Some(token) => token.kind,
        None => Kind::RightBrace,
    }
}

// Whether some source has a name between tokens of these kinds, and none has a keyword there.
fn is_name(before: Kind, after: Kind) -> bool {
    match before {
        Kind::Name | Kind::Number(_) | Kind::RightBracket | Kind::Reducer => false,
        Kind::Semicolon | Kind::LeftBrace | Kind::RightBrace | Kind::RightParen | Kind::Else => {
            matches!(
                after,
                Kind::Assign | Kind::AddAssign | Kind::Increment | Kind::LeftBracket | Kind::Less
            )
        }
        _ => {
            let is_next = matches!(
                after,
                Kind::Name | Kind::Number(_) | Kind::LeftParen | Kind::LeftBrace | Kind::RightBrace
            );
            !is_next && keyword(after).is_none()
        }
    }
}

// Changes a letter to the capital one, and back.
fn flip(text: &mut Vec<u8>, token: Token) {
    let place = token.start as usize;
    if place < text.len() {
        text[place] = text[place] ^ 32;
    }
}

// Adds that a keyword is declared as a name, unless the source also declares the new name, and returns whether it does not.
fn add_declared(
    listing: &mut Listing,
    text: &mut Vec<u8>,
    tokens: &[Token],
    token: Token,
) -> Result<bool, Fault> {
    let spelled = keyword(token.kind).unwrap_or("").as_bytes();
    flip(text, token);
    let renamed = word_of(text.as_slice(), token);
    let is_new = !is_declared(text.as_slice(), tokens, renamed);
    if is_new && listing.takes() {
        let place = token.start as usize;
        let start = line_start(text.as_slice(), place);
        let phrase = Phrase::of(
            "unexpected @a: @a is a keyword: use another name in the whole function, such as @b",
            [Word { text: spelled }, renamed],
            [0; 3],
        );
        listing.add(Spot::at(token.line, start, place, None), &phrase)?;
    }
    flip(text, token);
    Ok(is_new)
}

/// Renames each keyword that a function declares as a name, from there on, in the tokens, in their text and in the text that is
/// shown, and adds its declaration. Other uses of keywords as names are errors of the grammar.
///
/// # Errors
///
/// `Memory` if memory runs out.
pub fn rename_keywords(
    alloc: Global,
    listing: &mut Listing,
    shown: &mut Vec<u8>,
    text: &mut Vec<u8>,
    tokens: &mut Vec<Token>,
) -> Result<(), Fault> {
    let mut depth: usize = 0;
    let mut renamed: Vec<Kind> = Vec::new(alloc);
    listing.begin();
    for place in 1..tokens.len() {
        let token = tokens[place];
        let before = kind_at(tokens.as_slice(), place.saturating_sub(1));
        let after = kind_at(tokens.as_slice(), place.saturating_add(1));
        match token.kind {
            Kind::LeftBrace => depth = depth.saturating_add(1),
            Kind::RightBrace if depth <= 1 => renamed.clear(),
            _ => {}
        }
        if token.kind == Kind::RightBrace {
            depth = depth.saturating_sub(1);
        }
        if keyword(token.kind).is_some() && is_name(before, after) {
            let is_first = before == Kind::Int && !renamed.as_slice().contains(&token.kind);
            if is_first && add_declared(listing, text, tokens.as_slice(), token)? {
                renamed.push(token.kind)?;
            }
            if renamed.as_slice().contains(&token.kind) {
                flip(shown, token);
                flip(text, token);
                tokens[place].kind = Kind::Name;
            }
        }
    }
    Ok(())
}
