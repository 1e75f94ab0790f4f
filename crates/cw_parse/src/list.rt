//! Parses lists with commas, up to the closing parenthesis.

ghost use Rattle.std.specs.Prelude.{ℕ, List, map};
ghost use Rattle.cw_parse.specs.Reading.{Gives, Parses, Reader};
ghost use Rattle.cw_parse.specs.Parts.{further, others_behind, some_of, list, name, expr};
ghost use Rattle.cw_tree.specs.SyntaxView.{expr_of};
ghost use Rattle.cw_model.specs.Syntax as model;

use crate::expr::{expr, name_of};
use crate::input::{Read, Reading};
use crate::marks::{Mark, expect, past};
use crate::stop::Stop;
use cw_model::token::Token;
use cw_tree::syntax::{Expr, Name};

/// Represents a part of a list.
pub(crate) trait Part: Drop + Sized {
    ghost Seen: { Type 0 };

    // the value that a part represents
    ghost seen: { Self → Seen };

    // the reader of a part from a text; operands nest at most this deep
    ghost part: { List ℕ → ℕ → Reader Seen };

    /// Parses one part.
    fn read<'a>(reading: Reading<'_>, depth: usize, tokens: &'a [Token]) -> Read<'a, Self>
        ensures { Parses seen result (part reading.entry.text.now depth tokens.now) };
}

impl Part for Expr {
    ghost Seen = { model.Expr };

    ghost seen = { expr_of };

    ghost part = { λ text n. expr text n };

    fn read<'a>(reading: Reading<'_>, depth: usize, tokens: &'a [Token]) -> Read<'a, Expr> {
        expr(reading, depth, tokens)
    }
}

impl Part for Name {
    ghost Seen = { model.Name };

    ghost seen = { λ x. x };

    ghost part = { λ text n. name text };

    fn read<'a>(reading: Reading<'_>, _depth: usize, tokens: &'a [Token]) -> Read<'a, Name> {
        let (found, rest) = expect(Mark::Name, tokens)?;
        Ok((name_of(reading, found)?, rest))
    }
}

// Parses a comma and another part.
fn further<'a, T: Part>(reading: Reading<'_>, depth: usize, tokens: &'a [Token]) -> Read<'a, T>
    ensures { Parses (λ part. (T.seen part, tt)) result
        (further (T.part reading.entry.text.now depth) tt tokens.now) }
{
    let (_, rest) = expect(Mark::Comma, tokens)?;
    let (part, rest) = T::read(reading, depth, rest)?;
    Ok((part, rest))
}

// Parses the parts after `done`, and the closing parenthesis.
fn others<'a, T: Part>(
    reading: Reading<'_>,
    depth: usize,
    mut done: Vec<T>,
    tokens: &'a [Token],
) -> Read<'a, Vec<T>>
    ensures { Gives (λ x. (map T.seen x.0.items, x.1.now)) result
        (others_behind (map T.seen done.items)
        (T.part reading.entry.text.now depth) depth tokens.now) }
{
    let mut rest = tokens;
    for _ in 0..depth {
        if let Some((_, after)) = past(Mark::RightParen, rest) {
            return Ok((done, after));
        }
        let (next, after) = further(reading, depth, rest)?;
        done.push(next)?;
        rest = after;
    }
    Err(Stop::At(rest.len()))
}

/// Parses one or more parts, and the closing parenthesis.
///
/// # Errors
///
/// Stops at the first token that does not fit, or if memory runs out.
pub(crate) fn some_of<'a, T: Part>(
    reading: Reading<'_>,
    depth: usize,
    tokens: &'a [Token],
) -> Read<'a, Vec<T>>
    ensures { Gives (λ x. (map T.seen x.0.items, x.1.now)) result
        (some_of (T.part reading.entry.text.now depth) depth tokens.now) }
{
    let (first, rest) = T::read(reading, depth, tokens)?;
    let mut done = Vec::new(reading.alloc);
    done.push(first)?;
    others(reading, depth, done, rest)
}

/// Parses any number of parts, and the closing parenthesis.
///
/// # Errors
///
/// Stops at the first token that does not fit, or if memory runs out.
#[tactic(auto, unfolding(crate::specs::Parts::list))]
pub(crate) fn list<'a, T: Part>(
    reading: Reading<'_>,
    depth: usize,
    tokens: &'a [Token],
) -> Read<'a, Vec<T>>
    ensures { Gives (λ x. (map T.seen x.0.items, x.1.now)) result
        (list (T.part reading.entry.text.now depth) depth tokens.now) }
{
    match past(Mark::RightParen, tokens) {
        Some((_, rest)) => Ok((Vec::new(reading.alloc), rest)),
        None => some_of(reading, depth, tokens),
    }
}
