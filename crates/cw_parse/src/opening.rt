//! Parses the openings of blocks.

ghost use Rattle.std.specs.Prelude.{map};
ghost use Rattle.cw_tree.specs.SyntaxView.{expr_of};
ghost use Rattle.cw_parse.specs.Seen.{head_of, named_expr_of, opening_of};
ghost use Rattle.cw_parse.specs.Reading.{Gives, Parses};
ghost use Rattle.cw_parse.specs.Parts.{condition, turns, grain, over, range_from, range_to, range_step, head, cut, region, opening};

use crate::expr::{expr, name_of};
use crate::input::{Read, Reading};
use crate::list::some_of;
use crate::marks::{Mark, expect, past};
use crate::stop::Stop;
use cw_model::token::{Kind, Token};
use cw_tree::syntax::{Cut, Expr, Head, Name};

/// Represents the part of a statement before its block.
#[derive(Drop)]
pub(crate) enum Opening {
    If(Expr),
    While(Expr),
    For(Box<Head>),
    Scope,
    Cut(Box<Cut>),
    Region(Name),
}

// Parses a condition in parentheses, and an opening brace.
#[tactic(auto, unfolding(crate::specs::Parts::condition))]
fn condition<'a>(reading: Reading<'_>, depth: usize, tokens: &'a [Token]) -> Read<'a, Expr>
    ensures { Parses expr_of result (condition reading.entry.text.now depth tokens.now) }
{
    let (_, rest) = expect(Mark::LeftParen, tokens)?;
    let (value, rest) = expr(reading, depth, rest)?;
    let (_, rest) = expect(Mark::RightParen, rest)?;
    let (_, rest) = expect(Mark::LeftBrace, rest)?;
    Ok((value, rest))
}

// Parses the maximum number of iterations in a leaf of a loop; 64 is the default.
#[tactic(auto, unfolding(crate::specs::Parts::grain))]
fn grain(tokens: &[Token]) -> Read<'_, u64>
    ensures { Parses (λ x. x) result (grain tokens.now) }
{
    let Some((_, rest)) = past(Mark::Grain, tokens) else {
        return Ok((64, tokens));
    };
    match rest {
        [] => Err(Stop::At(0)),
        [first, after @ ..] => match first.kind {
            Kind::Number(turns) => Ok((turns, after)),
            _ => Err(Stop::At(rest.len())),
        },
    }
}

// Parses the arrays of a loop.
#[tactic(auto, unfolding(crate::specs::Parts::over))]
fn over<'a>(reading: Reading<'_>, depth: usize, tokens: &'a [Token]) -> Read<'a, Vec<Name>>
    ensures { Gives (λ x. (x.0.items, x.1.now)) result
        (over reading.entry.text.now depth tokens.now) }
{
    let Some((_, rest)) = past(Mark::Over, tokens) else {
        return Ok((Vec::new(reading.alloc), tokens));
    };
    let (_, rest) = expect(Mark::LeftParen, rest)?;
    some_of(reading, depth, rest)
}

// Parses the variable of a loop and its first value.
#[tactic(auto, unfolding(crate::specs::Parts::range_from))]
fn range_from<'a>(reading: Reading<'_>, depth: usize, tokens: &'a [Token]) -> Read<'a, (Name, Expr)>
    ensures { Parses named_expr_of result (range_from reading.entry.text.now depth tokens.now) }
{
    let (_, rest) = expect(Mark::LeftParen, tokens)?;
    let (_, rest) = expect(Mark::Int, rest)?;
    let (variable, rest) = expect(Mark::Name, rest)?;
    let (_, rest) = expect(Mark::Assign, rest)?;
    let (from, rest) = expr(reading, depth, rest)?;
    let (_, rest) = expect(Mark::Semicolon, rest)?;
    Ok(((name_of(reading, variable)?, from), rest))
}

// Parses the name that a loop compares and the upper bound.
#[tactic(auto, unfolding(crate::specs::Parts::range_to))]
fn range_to<'a>(reading: Reading<'_>, depth: usize, tokens: &'a [Token]) -> Read<'a, (Name, Expr)>
    ensures { Parses named_expr_of result (range_to reading.entry.text.now depth tokens.now) }
{
    let (tested, rest) = expect(Mark::Name, tokens)?;
    let (_, rest) = expect(Mark::Less, rest)?;
    let (to, rest) = expr(reading, depth, rest)?;
    let (_, rest) = expect(Mark::Semicolon, rest)?;
    Ok(((name_of(reading, tested)?, to), rest))
}

// Parses the name that a loop increments.
#[tactic(auto, unfolding(crate::specs::Parts::range_step))]
fn range_step<'a>(reading: Reading<'_>, tokens: &'a [Token]) -> Read<'a, Name>
    ensures { Parses (λ x. x) result (range_step reading.entry.text.now tokens.now) }
{
    let (stepped, rest) = expect(Mark::Name, tokens)?;
    let (_, rest) = expect(Mark::Increment, rest)?;
    let (_, rest) = expect(Mark::RightParen, rest)?;
    Ok((name_of(reading, stepped)?, rest))
}

// Parses the head of a loop, and an opening brace.
#[tactic(auto, unfolding(crate::specs::Parts::head))]
fn head<'a>(reading: Reading<'_>, depth: usize, tokens: &'a [Token]) -> Read<'a, Head>
    ensures { Parses head_of result (head reading.entry.text.now depth tokens.now) }
{
    let ((variable, from), rest) = range_from(reading, depth, tokens)?;
    let ((tested, to), rest) = range_to(reading, depth, rest)?;
    let (stepped, rest) = range_step(reading, rest)?;
    let (grain, rest) = grain(rest)?;
    let (over, rest) = over(reading, depth, rest)?;
    let (_, rest) = expect(Mark::LeftBrace, rest)?;
    let head = Head {
        variable,
        tested,
        stepped,
        from,
        to,
        grain,
        over,
    };
    Ok((head, rest))
}

// Parses the part after `cut`, and an opening brace.
#[tactic(auto, unfolding(crate::specs::Parts::cut))]
fn cut<'a>(reading: Reading<'_>, depth: usize, tokens: &'a [Token]) -> Read<'a, Opening>
    ensures { Parses opening_of result (cut reading.entry.text.now depth tokens.now) }
{
    let (array, rest) = expect(Mark::Name, tokens)?;
    let (_, rest) = expect(Mark::At, rest)?;
    let (at, rest) = expr(reading, depth, rest)?;
    let (_, rest) = expect(Mark::As, rest)?;
    let (left, rest) = expect(Mark::Name, rest)?;
    let (_, rest) = expect(Mark::Comma, rest)?;
    let (right, rest) = expect(Mark::Name, rest)?;
    let (_, rest) = expect(Mark::LeftBrace, rest)?;
    let cut = Cut {
        array: name_of(reading, array)?,
        at,
        left: name_of(reading, left)?,
        right: name_of(reading, right)?,
    };
    Ok((Opening::Cut(Box::new(reading.alloc, cut)?), rest))
}

// Parses the part after `region`, and an opening brace.
#[tactic(auto, unfolding(crate::specs::Parts::region))]
fn region<'a>(reading: Reading<'_>, tokens: &'a [Token]) -> Read<'a, Opening>
    ensures { Parses opening_of result (region reading.entry.text.now tokens.now) }
{
    let (tag, rest) = expect(Mark::Name, tokens)?;
    let (_, rest) = expect(Mark::LeftBrace, rest)?;
    Ok((Opening::Region(name_of(reading, tag)?), rest))
}

/// Parses the opening of a block after its first token, and the opening brace.
///
/// # Errors
///
/// Stops at the first token that does not fit, or if memory runs out.
#[tactic(auto, unfolding(crate::specs::Parts::opening))]
pub(crate) fn opened<'a>(
    reading: Reading<'_>,
    depth: usize,
    first: Token,
    tokens: &'a [Token],
) -> Read<'a, Opening>
    ensures { Parses opening_of result
        (opening reading.entry.text.now depth first first.kind tokens.now) }
{
    match first.kind {
        Kind::If => {
            let (value, rest) = condition(reading, depth, tokens)?;
            Ok((Opening::If(value), rest))
        }
        Kind::While => {
            let (value, rest) = condition(reading, depth, tokens)?;
            Ok((Opening::While(value), rest))
        }
        Kind::For => {
            let (head, rest) = head(reading, depth, tokens)?;
            Ok((Opening::For(Box::new(reading.alloc, head)?), rest))
        }
        Kind::Scope => {
            let (_, rest) = expect(Mark::LeftBrace, tokens)?;
            Ok((Opening::Scope, rest))
        }
        Kind::Cut => cut(reading, depth, tokens),
        Kind::Region => region(reading, tokens),
        _ => Err(Stop::At(tokens.len() + 1)),
    }
}
