//! The errors of names, types and ownership in the functions that parse.

ghost use Rattle.std.specs.Prelude.{IfOk};
ghost use Rattle.cw_model.specs.Tokens.{IsTokenCut};

use crate::around::{first_from, word_of};
use crate::calling::Text;
use crate::excerpt::line_start;
use crate::explaining::MOST_BYTES;
use crate::hinting::{closed_return, hint_in, near_main};
use crate::listing::{Listing, Spot};
use crate::others::Named;
use crate::rejections::{OfOwnership, OfTypes, Rejection, Rejections};
use crate::repairs::{Repairs, add_line_feeds};
use crate::retyped::{Part, retyped};
use crate::syntax::Outline;
use crate::word::Word;
use cw_lex::lex;
use cw_model::token::{Kind, Token};
use cw_own::disowned;
use cw_parse::{Item, Rejected, parse};
use cw_text::{At, Fault, MOST_RECORDED, Source};
use cw_tree::syntax::Ast;
use cw_types::{IllTyped, check, ill_typed};
use std::alloc::{AllocError, Global};

/// A text without bytes that start no token, and what replaces statements that do not parse, if `is_on`.
#[derive(Clone, Copy)]
pub struct Mended<'a> {
    pub whole: &'a [u8],
    pub repairs: &'a Repairs,
    pub is_on: bool,
}

impl Mended<'_> {
    // Whether something replaces a statement that does not parse.
    fn is_done(&self, index: usize) -> bool {
        self.is_on && self.repairs.done.get(index).copied().unwrap_or(false)
    }

    // Adds a part of the text, repaired if `is_repaired`.
    fn write(
        &self,
        out: &mut Vec<u8>,
        from: usize,
        end: usize,
        is_repaired: bool,
    ) -> Result<(), Fault> {
        if is_repaired {
            return self.repairs.write(out, self.whole, from, end);
        }
        out.extend_from_slice(self.whole.get(from..end).unwrap_or(&[]))?;
        Ok(())
    }
}

/// The shortest function `main`.
pub const MAIN: &str = "int main(){return 0;}";

/// Returns the source with these bytes and its tokens.
///
/// # Errors
///
/// The errors of `Source::read` and of `lex`.
pub fn tokens_of(alloc: Global, bytes: &[u8]) -> Result<(Source, Vec<Token>), Fault>
    ensures { IfOk result (λ read. IsTokenCut read.0 read.1.items) }
{
    let source = Source::read(alloc, bytes)?;
    let tokens = lex(alloc, &source)?;
    Ok((source, tokens))
}

/// A source from which functions are left out.
#[derive(Drop)]
struct Remains<'a> {
    outline: Outline<'a>,
    mended: Mended<'a>,
    text: Vec<u8>,
    has_main: bool,
    /// The next statement that does not parse.
    rejected: usize,
}

impl<'a> Remains<'a> {
    // Whether something replaces each statement of an item that does not parse; items are asked for in order.
    fn is_repaired(&mut self, item: &Item) -> bool {
        let mut count: usize = 0;
        let mut done: usize = 0;
        let all = self.outline.found.rejected.as_slice();
        for index in self.rejected..all.len() {
            let first = all[index].first;
            if first >= item.end {
                break;
            }
            self.rejected = index.saturating_add(1);
            if first >= item.first {
                count = count.saturating_add(1);
                if self.mended.is_done(index) {
                    done = done.saturating_add(1);
                }
            }
        }
        count > 0 && count == done
    }

    // Adds the line feeds between two places.
    fn keep_lines(&mut self, from: usize, end: usize) -> Result<(), Fault> {
        let text = self.mended.whole.get(from..end).unwrap_or(&[]);
        add_line_feeds(&mut self.text, text)
    }

    // The place after the token before an index.
    fn end_before(&self, index: usize) -> usize {
        match self.outline.tokens.get(index.saturating_sub(1)) {
            Some(token) => token.end as usize,
            None => self.mended.whole.len(),
        }
    }

    // The place of a token.
    fn start_of(&self, index: usize) -> usize {
        match self.outline.tokens.get(index) {
            Some(token) => token.start as usize,
            None => self.mended.whole.len(),
        }
    }

    // Adds an item, or its head with the shortest body, or its line feeds.
    fn add(&mut self, item: &Item, is_typed: bool) -> Result<(), Fault> {
        let start = self.start_of(item.first);
        let end = self.end_before(item.end);
        let is_repaired = self.is_repaired(item);
        let is_main = self.is_main(item);
        if (item.is_whole || is_repaired) && is_typed {
            self.has_main = self.has_main || is_main;
            return self.mended.write(&mut self.text, start, end, is_repaired);
        }
        if !item.is_headed || item.body >= item.end {
            return self.keep_lines(start, end);
        }
        self.has_main = self.has_main || is_main;
        let body = self.end_before(item.body);
        self.mended.write(&mut self.text, start, body, false)?;
        let kind = self.outline.tokens.get(item.first).map(|token| token.kind);
        if kind == Some(Kind::Int) {
            self.text.extend_from_slice(b"return 0;")?;
        }
        self.keep_lines(body, end)?;
        self.text.push(b'}')?;
        Ok(())
    }

    // Whether an item is the function main.
    fn is_main(&self, item: &Item) -> bool {
        match self.outline.tokens.get(item.first.saturating_add(1)) {
            Some(token) => word_of(self.mended.whole, *token).is(b"main"),
            None => false,
        }
    }
}

// The text with the shortest bodies for functions that do not parse.
fn remaining<'a>(
    alloc: Global,
    outline: &Outline<'a>,
    mended: Mended<'a>,
) -> Result<Vec<u8>, Fault> {
    let mut remains = Remains {
        outline: *outline,
        mended,
        text: Vec::new(alloc),
        has_main: false,
        rejected: 0,
    };
    let mut place = 0;
    let items = outline.found.items.as_slice();
    for index in 0..items.len() {
        let item = &items[index];
        let start = remains.start_of(item.first);
        remains.keep_lines(place, start)?;
        remains.add(item, outline.is_typed(index))?;
        place = remains.end_before(item.end);
    }
    remains.keep_lines(place, mended.whole.len())?;
    if !remains.has_main && is_suspect(outline, b"main") {
        remains.text.extend_from_slice(MAIN.as_bytes())?;
    }
    Ok(remains.text)
}

/// Returns whether a name occurs in a directive, or among tokens that form neither a function nor a reducer, so that it may
/// be declared there.
pub fn is_suspect(outline: &Outline<'_>, name: &[u8]) -> bool {
    for item in outline.found.items.as_slice() {
        if !item.is_headed {
            let head = outline.tokens.get(item.first..item.body).unwrap_or(&[]);
            for token in head {
                if word_of(outline.bytes, *token).is(name) {
                    return true;
                }
            }
        }
    }
    for rejected in outline.found.rejected.as_slice() {
        if declares_reducer(outline, rejected, name) {
            return true;
        }
    }
    for bad in outline.bad {
        if bad.is_directive() && bad.has_word(outline.bytes, name) {
            return true;
        }
    }
    false
}

// Whether a rejected statement declares a reducer with this name.
fn declares_reducer(outline: &Outline<'_>, rejected: &Rejected, name: &[u8]) -> bool {
    let first = rejected.first;
    match (
        outline.tokens.get(first),
        outline.tokens.get(first.saturating_add(2)),
    ) {
        (Some(token), Some(named)) => {
            token.kind == Kind::Reducer && word_of(outline.bytes, *named).is(name)
        }
        _ => false,
    }
}

// Whether an error may follow from what does not parse.
fn follows(outline: &Outline<'_>, reason: &IllTyped<'_>) -> bool {
    match reason {
        IllTyped::Unknown(name) | IllTyped::NoFunction(name) | IllTyped::NotReducer(name, _) => {
            is_suspect(outline, name.as_bytes())
        }
        IllTyped::MayNotReturn(name) => is_cut_off(outline, name.as_bytes()),
        _ => false,
    }
}

// Whether what follows the functions with this name is neither a function nor a reducer, as after a `}` too early.
fn is_cut_off(outline: &Outline<'_>, name: &[u8]) -> bool {
    let mut is_last = false;
    for item in outline.found.items.as_slice() {
        if is_last && !item.is_headed && item.body == item.end {
            return true;
        }
        is_last = match outline.tokens.get(item.first.saturating_add(1)) {
            Some(token) => word_of(outline.bytes, *token).is(name),
            None => false,
        };
    }
    false
}

// The line of a return in a block, if a function in this line may end without a return because of it.
fn inside_of(
    alloc: Global,
    first: Option<At<IllTyped<'_>>>,
    tokens: &[Token],
) -> Result<Option<u32>, AllocError> {
    match first {
        Some(at) => match at.reason {
            IllTyped::MayNotReturn(_) => closed_return(alloc, tokens, at.line),
            _ => Ok(None),
        },
        None => Ok(None),
    }
}

// Adds what the tokens say about a name after the first reason of names and types, if anything.
fn add_hint(
    alloc: Global,
    listing: &mut Listing,
    file: Named<'_>,
    outline: &Outline<'_>,
    at: &At<IllTyped<'_>>,
) -> Result<(), Fault> {
    let hint = match at.reason {
        IllTyped::NoMain => near_main(outline.bytes, outline.tokens),
        _ => hint_in(alloc, outline.bytes, outline.tokens, at.line)?,
    };
    match hint {
        Some((hint, line)) => listing.add_further(file, line, &hint),
        None => Ok(()),
    }
}

// Where a name is in a line.
fn spot_of(outline: &Outline<'_>, line: u32, name: Word<'_>, other: Option<u32>) -> Spot {
    let other_start = outline.start_of_line(other);
    for index in first_from(outline.tokens, line)..outline.tokens.len() {
        let token = outline.tokens[index];
        if token.line > line {
            break;
        }
        if word_of(outline.bytes, token).is(name.text) {
            let place = token.start as usize;
            return Spot {
                other_start,
                ..Spot::at(line, line_start(outline.bytes, place), place, other)
            };
        }
    }
    Spot {
        other_start,
        start: outline.start_of_line(Some(line)),
        ..Spot::of_line(line, other)
    }
}

// Adds an error of names, types or ownership.
fn add_rejection(
    listing: &mut Listing,
    outline: &Outline<'_>,
    refusal: &Rejection<'_>,
) -> Result<(), Fault> {
    if !listing.takes() {
        return Ok(());
    }
    let name = refusal.phrase.names[0];
    let spot = spot_of(outline, refusal.line, name, refusal.other_line);
    listing.add(spot, &refusal.phrase)
}

// Adds the errors of names and types, and returns whether there is one.
fn add_types(
    alloc: Global,
    listing: &mut Listing,
    file: Named<'_>,
    outline: &Outline<'_>,
    ast: &Ast,
) -> Result<bool, Fault> {
    let told = ill_typed(alloc, ast)?;
    let inside = inside_of(alloc, told.first(), outline.tokens)?;
    let text = Text {
        bytes: outline.bytes,
        tokens: outline.tokens,
    };
    let told = OfTypes { told, inside, text };
    listing.begin();
    let mut is_first = true;
    for place in 0..MOST_RECORDED {
        if let Some(Some(at)) = told.told.places.get(place) {
            if !follows(outline, &at.reason) {
                if let Some(refusal) = told.at(place) {
                    add_rejection(listing, outline, &refusal)?;
                    if is_first {
                        add_hint(alloc, listing, file, outline, at)?;
                    }
                    is_first = false;
                }
            }
        }
    }
    Ok(told.told.first().is_some())
}

/// Adds the errors of ownership of a program whose names and types are right.
///
/// # Errors
///
/// `Memory` if memory runs out; another fault if they are not.
pub fn add_ownership(
    alloc: Global,
    listing: &mut Listing,
    outline: &Outline<'_>,
    ast: Ast,
) -> Result<(), Fault> {
    let typed = check(alloc, ast)?;
    let told = OfOwnership {
        told: disowned(alloc, &typed)?,
        text: Text {
            bytes: outline.bytes,
            tokens: outline.tokens,
        },
    };
    listing.begin();
    for place in 0..MOST_RECORDED {
        if let Some(refusal) = told.at(place) {
            add_rejection(listing, outline, &refusal)?;
        }
    }
    Ok(())
}

// The tree of a text.
fn tree_of(alloc: Global, text: &[u8]) -> Result<Ast, Fault> {
    let (source, tokens) = tokens_of(alloc, text)?;
    let ast = parse(alloc, &source, tokens.as_slice())?;
    Ok(ast)
}

// The functions that parse, and their tree.
fn parsed<'a>(
    alloc: Global,
    outline: &Outline<'a>,
    mended: Mended<'a>,
) -> Result<(Vec<u8>, Ast), Fault> {
    let text = remaining(alloc, outline, mended)?;
    let ast = tree_of(alloc, text.as_slice())?;
    Ok((text, ast))
}

/// Returns nothing if the stages cannot read what is left of a source.
///
/// # Errors
///
/// `Memory` if memory ran out.
pub fn unless_memory(added: Result<(), Fault>) -> Result<(), Fault> {
    match added {
        Err(Fault::Memory) => Err(Fault::Memory),
        _ => Ok(()),
    }
}

/// Adds the errors of names and types of the functions that parse, as mended, and the errors of ownership. If the functions do
/// not parse as mended, they are left out.
///
/// # Errors
///
/// `Memory` if memory runs out; another fault if the stages cannot read these functions.
pub fn add_checks<'a>(
    alloc: Global,
    listing: &mut Listing,
    file: Named<'_>,
    outline: &Outline<'a>,
    mended: Mended<'a>,
) -> Result<(), Fault> {
    match parsed(alloc, outline, mended) {
        Ok(found) => {
            let (text, ast) = found;
            add_checks_of(alloc, listing, file, outline, text.as_slice(), ast)
        }
        Err(Fault::Memory) => Err(Fault::Memory),
        Err(_other) => {
            let mended = Mended {
                is_on: false,
                ..mended
            };
            let (text, ast) = parsed(alloc, outline, mended)?;
            add_checks_of(alloc, listing, file, outline, text.as_slice(), ast)
        }
    }
}

/// Adds the errors of names and types of a program, and, unless it is large, the errors of ownership: first names that break a
/// rule of names and types are replaced, then statements that still break one, then the bodies of functions.
///
/// # Errors
///
/// `Memory` if memory runs out; another fault if the stages cannot read the program then.
pub fn add_checks_of(
    alloc: Global,
    listing: &mut Listing,
    file: Named<'_>,
    outline: &Outline<'_>,
    text: &[u8],
    ast: Ast,
) -> Result<(), Fault> {
    if !add_types(alloc, listing, file, outline, &ast)? {
        return add_ownership(alloc, listing, outline, ast);
    }
    if text.len() > MOST_BYTES {
        return Ok(());
    }
    let mut text = Vec::from_slice(alloc, text)?;
    let mut ast = ast;
    for part in [Part::Names, Part::Statements, Part::Bodies] {
        let told = ill_typed(alloc, &ast)?;
        if told.first().is_none() {
            break;
        }
        text = retyped(alloc, text.as_slice(), &told, part)?;
        ast = tree_of(alloc, text.as_slice())?;
    }
    add_ownership(alloc, listing, outline, ast)
}
