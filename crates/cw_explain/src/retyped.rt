//! What replaces what breaks a rule of names and types, so that ownership checks the rest: names that are read, then
//! statements, then bodies of functions.

use crate::around::{Around, Opened};
use crate::checking::{MAIN, tokens_of};
use crate::repairs::Repairs;
use cw_model::token::Kind;
use cw_text::{Fault, MOST_RECORDED, Reasons};
use cw_types::IllTyped;
use std::alloc::Global;

/// What is replaced.
#[derive(Clone, Copy, PartialEq, Eq)]
pub enum Part {
    Names,
    Statements,
    Bodies,
}

// Whether a token is this name.
fn is_named(around: &Around<'_>, place: usize, name: &[u8]) -> bool {
    match around.at(place) {
        Some(token) => token.kind == Kind::Name && around.word(token).is(name),
        None => false,
    }
}

// Whether the name at a place is an integer that is read.
fn is_read(around: &Around<'_>, place: usize) -> bool {
    let before = around.kind(place.saturating_sub(1));
    let after = around.kind(place.saturating_add(1));
    place > around.first
        && around.kind(place.saturating_sub(2)) != Some(Kind::Len)
        && !matches!(before, Some(Kind::Int | Kind::Cut))
        && !matches!(
            after,
            Some(Kind::LeftParen | Kind::LeftBracket | Kind::Increment)
        )
}

// The place of the brace that ends the function that begins with the statement.
fn end_of_function(around: &Around<'_>) -> Option<usize> {
    let mut depth: usize = 0;
    for at in around.first..around.tokens.len() {
        match around.kind(at)? {
            Kind::LeftBrace => depth = depth.saturating_add(1),
            Kind::RightBrace if depth <= 1 => return Some(at),
            Kind::RightBrace => depth = depth.saturating_sub(1),
            _ => {}
        }
    }
    None
}

// The place of the last `const` before the name of an array that the statement cuts or writes.
fn const_before(around: &Around<'_>, reason: &IllTyped<'_>) -> Option<usize> {
    let IllTyped::OnlyRead(name, _) = reason else {
        return None;
    };
    let name = name.as_bytes();
    let is_cut = around.kind(around.first) == Some(Kind::Cut);
    if !is_cut && !is_named(around, around.first, name) {
        return None;
    }
    for back in 0..around.first {
        let at = around.first.saturating_sub(back);
        if around.kind(at) == Some(Kind::Const) && is_named(around, at.saturating_add(2), name) {
            return Some(at);
        }
    }
    None
}

// The line of the first reason in some lines, if there is one.
fn reason_of<'t, 'a>(
    told: &'t Reasons<IllTyped<'a>>,
    first: u32,
    last: u32,
) -> Option<&'t IllTyped<'a>> {
    for place in 0..MOST_RECORDED {
        match told.places.get(place) {
            Some(Some(at)) if at.line < first => {}
            Some(Some(at)) if at.line <= last => return Some(&at.reason),
            _ => return None,
        }
    }
    None
}

impl Repairs {
    // Replaces the tokens from one place to before another.
    fn put(
        &mut self,
        around: &Around<'_>,
        from: usize,
        to: usize,
        with: &str,
    ) -> Result<(), Fault> {
        self.add(around.start_of(from), around.end_before(to), &with)
    }

    // Replaces a name by 0 where the statement up to a place reads it, before any index.
    fn retype_name(&mut self, around: &Around<'_>, end: usize, name: &[u8]) -> Result<(), Fault> {
        for at in around.first..end {
            if around.kind(at) == Some(Kind::LeftBracket) {
                break;
            }
            if is_named(around, at, name) && is_read(around, at) {
                self.put(around, at, at.saturating_add(1), "0")?;
            }
        }
        Ok(())
    }

    // Replaces a statement, whose end is at a place, by one that uses nothing or that is allowed.
    fn retype_statement(
        &mut self,
        around: &Around<'_>,
        end: usize,
        reason: &IllTyped<'_>,
    ) -> Result<(), Fault> {
        let first = around.first;
        let next = first.saturating_add(1);
        let value = first.saturating_add(3);
        let after = end.saturating_add(1);
        let is_value = around.kind(first.saturating_add(2)) == Some(Kind::Assign);
        if let Some(place) = const_before(around, reason) {
            return self.put(around, place, place.saturating_add(1), "");
        }
        let (from, to, with) = match (around.kind(first), reason) {
            (Some(Kind::Name | Kind::Spawn | Kind::Print), _) => (first, after, ""),
            (Some(Kind::Int), IllTyped::Known(_, _)) if is_value && around.loop_around.is_none() =>
                { (first, next, "") }
            (Some(Kind::Int), _) if is_value => (value, end, "0"),
            (Some(Kind::Int), _) => (value, end, "0]"),
            (Some(Kind::If | Kind::While), _) => (next, end, "(0)"),
            (Some(Kind::Return), IllTyped::ReturnInside) if next < end => (
                first,
                next,
                "int r__ =",
            ),
            (Some(Kind::Return), IllTyped::ReturnInside) => (first, after, ""),
            (Some(Kind::Return), IllTyped::ReturnsValue) => (first, end, "return"),
            (Some(Kind::Return), _) => (first, end, "return 0"),
            _ => {
                self.replace_head(*around, end)?;
                return Ok(());
            }
        };
        self.put(around, from, to, with)
    }

    // Replaces what is wrong with the head of a function or adds a return at its end; replaces its body if `part` says so.
    fn retype_item(
        &mut self,
        around: &Around<'_>,
        told: &Reasons<IllTyped<'_>>,
        part: Part,
    ) -> Result<(), Fault> {
        let next = around.first.saturating_add(1);
        let (Some(end), Some(front)) = (end_of_function(around), around.front()) else {
            return Ok(());
        };
        let with = if front.kind == Kind::Int {
            "return 0;"
        } else {
            ""
        };
        let start = around.start_of(end);
        let last = around.at(end).map(|token| token.line).unwrap_or(0);
        match reason_of(told, front.line, last) {
            Some(_) if part == Part::Bodies => {
                let body = around.end().saturating_add(1);
                self.add(around.end_before(body), start, &with)
            }
            Some(IllTyped::MayNotReturn(name)) if is_named(around, next, name.as_bytes()) => {
                self.add(start, start, &with)
            }
            Some(IllTyped::MainGivesNothing) if is_named(around, next, b"main") => {
                self.put(around, around.first, next, "int")
            }
            _ => Ok(()),
        }
    }

    // Replaces a part of the statement or item that begins with a token.
    fn retype(
        &mut self,
        around: &Around<'_>,
        told: &Reasons<IllTyped<'_>>,
        reason: Option<&IllTyped<'_>>,
        part: Part,
    ) -> Result<(), Fault> {
        let end = around.end();
        if !around.is_inside {
            return self.retype_item(around, told, part);
        }
        match (reason, part) {
            (Some(IllTyped::Unknown(name) | IllTyped::NotInteger(name, _, _)), Part::Names) => {
                self.retype_name(around, end, name.as_bytes())
            }
            (Some(reason), _)
                if matches!(around.kind(end), Some(Kind::Semicolon | Kind::LeftBrace)) => {
                self.retype_statement(around, end, reason)
            }
            _ => Ok(()),
        }
    }
}

/// Returns a text with replacements for what breaks a rule of names and types.
///
/// # Errors
///
/// `Memory` if memory runs out; another fault if the text has no tokens.
pub fn retyped(
    alloc: Global,
    text: &[u8],
    told: &Reasons<IllTyped<'_>>,
    part: Part,
) -> Result<Vec<u8>, Fault> {
    let (_source, tokens) = tokens_of(alloc, text)?;
    let mut repairs = Repairs::new(alloc);
    let mut opened = Opened::new(alloc);
    for token in tokens.as_slice() {
        let is_item = opened.braces() == 0;
        if opened.is_at_front() && (is_item || part != Part::Bodies) {
            let reason = reason_of(told, token.line, token.line);
            if is_item || reason.is_some() {
                let around = Around::behind(text, tokens.as_slice(), &opened);
                repairs.retype(&around, told, reason, part)?;
            }
        }
        opened.add(*token)?;
    }
    let mut out = Vec::new(alloc);
    repairs.write(&mut out, text, 0, text.len())?;
    if let Some(IllTyped::NoMain) = reason_of(told, 1, 1) {
        out.extend_from_slice(MAIN.as_bytes())?;
    }
    Ok(out)
}
