//! Parses expressions.

ghost use Rattle.std.specs.Prelude.{◌≡◌, ◌-◌, ◌<◌, option_map, IfOk};
ghost use Rattle.cw_model.specs.Grammar.{name_of, infix_of};
ghost use Rattle.cw_tree.specs.SyntaxView.{expr_of};
ghost use Rattle.cw_parse.specs.Reading.{Parses};
ghost use Rattle.cw_parse.specs.Parts.{unindexed, element, named, measured, atom_from, operand_from, operand_over, operator_at, chain_above, operand, level, expr};

use crate::input::{Read, Reading};
use crate::marks::{Mark, expect, past};
use crate::names::bytes_of;
use crate::stop::Stop;
use cw_model::syntax::Operator;
use cw_model::token::{Kind, Token};
use cw_tree::syntax::{Expr, Name};
use std::alloc::AllocError;

/// The level of the operators that bind loosest.
const HIGHEST: usize = 4;

/// Returns the name that a token spells.
///
/// # Errors
///
/// Returns an error if memory runs out.
pub(crate) fn name_of(reading: Reading<'_>, token: Token) -> Result<Name, AllocError>
    ensures { IfOk result (λ name. name ≡ name_of reading.entry.text.now token) }
{
    let bytes = bytes_of(reading.text, token);
    reading.names.name(reading.alloc, bytes)
}

// Returns the operator of a kind of token with its level, from 1 for the operators that bind tightest.
fn infix_of(kind: Kind) -> Option<(usize, Operator)>
    ensures { result ≡ infix_of kind }
{
    match kind {
        Kind::Equal => Some((4, Operator::Equal)),
        Kind::NotEqual => Some((4, Operator::Unequal)),
        Kind::Less => Some((3, Operator::Less)),
        Kind::LessEqual => Some((3, Operator::AtMost)),
        Kind::Greater => Some((3, Operator::Greater)),
        Kind::GreaterEqual => Some((3, Operator::AtLeast)),
        Kind::Plus => Some((2, Operator::Plus)),
        Kind::Minus => Some((2, Operator::Minus)),
        Kind::Star => Some((1, Operator::Times)),
        Kind::Slash => Some((1, Operator::Divide)),
        Kind::Percent => Some((1, Operator::Modulo)),
        _ => None,
    }
}

// Returns the operator of this level at the front of the tokens, with the tokens after it.
fn operator_at(level: usize, tokens: &[Token]) -> Option<(Operator, &[Token])>
    ensures { option_map (λ x. (x.0, x.1.now)) result ≡ operator_at level tokens.now }
{
    match tokens {
        [] => None,
        [first, rest @ ..] => match infix_of(first.kind) {
            Some((found, operator)) if found == level => Some((operator, rest)),
            _ => None,
        },
    }
}

// Returns an operand that was parsed, unless an index follows it: an index may follow only a name.
fn unindexed<'a>(value: Expr, tokens: &'a [Token]) -> Read<'a, Expr>
    ensures { Parses expr_of result (unindexed (expr_of value) tokens.now) }
{
    match past(Mark::LeftBracket, tokens) {
        Some(_) => Err(Stop::At(tokens.len())),
        None => Ok((value, tokens)),
    }
}

// Parses the index of an array element after its opening bracket.
#[cycle(expr)]
fn indexed<'a>(
    reading: Reading<'_>,
    depth: usize,
    array: Name,
    tokens: &'a [Token],
) -> Read<'a, Expr>
    ensures { Parses expr_of result
        (element reading.entry.text.now depth array tokens.now) }
{
    let (index, rest) = level(reading, depth, HIGHEST, tokens)?;
    let (_, rest) = expect(Mark::RightBracket, rest)?;
    let index = Box::new(reading.alloc, index)?;
    Ok((Expr::Element(array, index), rest))
}

// Parses an operand that begins with a name.
#[cycle(expr)]
#[tactic(auto, unfolding(crate::specs::Parts::named))]
fn named<'a>(
    reading: Reading<'_>,
    depth: usize,
    first: Token,
    tokens: &'a [Token],
) -> Read<'a, Expr>
    ensures { Parses expr_of result
        (named reading.entry.text.now (expr reading.entry.text.now depth) first tokens.now) }
{
    let name = name_of(reading, first)?;
    match past(Mark::LeftBracket, tokens) {
        None => Ok((Expr::Variable(name), tokens)),
        Some((_, rest)) => {
            let (element, rest) = indexed(reading, depth, name, rest)?;
            unindexed(element, rest)
        }
    }
}

// Parses the length of an array after its keyword.
#[tactic(auto, unfolding(crate::specs::Parts::measured))]
fn measured<'a>(reading: Reading<'_>, tokens: &'a [Token]) -> Read<'a, Expr>
    ensures { Parses expr_of result (measured reading.entry.text.now tokens.now) }
{
    let (_, rest) = expect(Mark::LeftParen, tokens)?;
    let (array, rest) = expect(Mark::Name, rest)?;
    let (_, rest) = expect(Mark::RightParen, rest)?;
    Ok((Expr::Length(name_of(reading, array)?), rest))
}

// Parses an operand that begins with neither a sign nor a name, after its first token.
#[cycle(expr)]
#[tactic(auto, unfolding(crate::specs::Parts::atom))]
fn atom<'a>(reading: Reading<'_>, depth: usize, first: Token, tokens: &'a [Token]) -> Read<'a, Expr>
    ensures { Parses expr_of result
        (atom_from reading.entry.text.now depth first tokens.now) }
{
    match first.kind {
        Kind::Number(value) => match i64::try_from(value) {
            Ok(value) => Ok((Expr::Number(value), tokens)),
            Err(_) => Err(Stop::At(tokens.len() + 1)),
        },
        Kind::Len => measured(reading, tokens),
        Kind::LeftParen => {
            let (inner, rest) = level(reading, depth, HIGHEST, tokens)?;
            let (_, rest) = expect(Mark::RightParen, rest)?;
            Ok((inner, rest))
        }
        _ => Err(Stop::At(tokens.len() + 1)),
    }
}

// Parses an operand after its first token.
#[cycle(expr)]
#[tactic(auto, unfolding(crate::specs::Parts::operand_after))]
fn operand_after<'a>(
    reading: Reading<'_>,
    depth: usize,
    first: Token,
    tokens: &'a [Token],
) -> Read<'a, Expr>
    ensures { Parses expr_of result
        (operand_from reading.entry.text.now depth first tokens.now) }
{
    match first.kind {
        Kind::Minus => {
            let (inner, rest) = operand(reading, depth, tokens)?;
            Ok((Expr::Negative(Box::new(reading.alloc, inner)?), rest))
        }
        Kind::Not => {
            let (inner, rest) = operand(reading, depth, tokens)?;
            Ok((Expr::Not(Box::new(reading.alloc, inner)?), rest))
        }
        Kind::Name => named(reading, depth, first, tokens),
        _ => {
            let (value, rest) = atom(reading, depth, first, tokens)?;
            unindexed(value, rest)
        }
    }
}

// Parses an operand whose inner operands nest at most `depth` deep.
#[cycle(expr)]
fn operand_by<'a>(reading: Reading<'_>, depth: usize, tokens: &'a [Token]) -> Read<'a, Expr>
    ensures { Parses expr_of result
        (operand_over reading.entry.text.now depth tokens.now) }
{
    match tokens {
        [] => Err(Stop::At(0)),
        [first, rest @ ..] => operand_after(reading, depth, *first, rest),
    }
}

// Parses an operand; operands nest at most `depth` deep.
#[cycle(expr)]
fn operand<'a>(reading: Reading<'_>, depth: usize, tokens: &'a [Token]) -> Read<'a, Expr>
    ensures { Parses expr_of result (operand reading.entry.text.now depth tokens.now) }
{
    if depth == 0 {
        return Err(Stop::At(tokens.len()));
    }
    operand_by(reading, depth - 1, tokens)
}

// Parses the operators of the level above `below` that follow a left operand.
#[cycle(expr)]
fn chain<'a>(
    reading: Reading<'_>,
    depth: usize,
    below: usize,
    first: Expr,
    tokens: &'a [Token],
) -> Read<'a, Expr>
    requires { below < 4 }
    ensures { Parses expr_of result
        (chain_above reading.entry.text.now depth below (expr_of first) tokens.now) }
{
    let mut left = first;
    let mut rest = tokens;
    for _ in 0..depth {
        let Some((operator, after)) = operator_at(below + 1, rest) else {
            return Ok((left, rest));
        };
        let (right, after) = level(reading, depth, below, after)?;
        left = Expr::Binary(
            operator,
            Box::new(reading.alloc, left)?,
            Box::new(reading.alloc, right)?,
        );
        rest = after;
    }
    Ok((left, rest))
}

// Parses an expression with operators of levels up to `highest`.
#[cycle(expr)]
fn level<'a>(
    reading: Reading<'_>,
    depth: usize,
    highest: usize,
    tokens: &'a [Token],
) -> Read<'a, Expr>
    requires { highest < 5 }
    ensures { Parses expr_of result
        (level reading.entry.text.now depth highest tokens.now) }
{
    let (mut value, mut rest) = operand(reading, depth, tokens)?;
    for below in 0..highest {
        (value, rest) = chain(reading, depth, below, value, rest)?;
    }
    Ok((value, rest))
}

/// Parses an expression; operands nest at most `depth` deep.
///
/// # Errors
///
/// Stops at the first token that does not fit, or if memory runs out.
pub(crate) fn expr<'a>(reading: Reading<'_>, depth: usize, tokens: &'a [Token]) -> Read<'a, Expr>
    ensures { Parses expr_of result (expr reading.entry.text.now depth tokens.now) }
{
    level(reading, depth, HIGHEST, tokens)
}
