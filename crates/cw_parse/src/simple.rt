//! Parses statements without a block.

ghost use Rattle.std.specs.Prelude.{◌≡◌, ◌+◌, ◌<◌, ◌^◌};
ghost use Rattle.cw_tree.specs.SyntaxView.{numbered, stmt_of};
ghost use Rattle.cw_parse.specs.Reading.{Parses, by_first};
ghost use Rattle.cw_parse.specs.Parts.{is_call, called, call, assigned, element_assigned, told, named_stmt, declared_as, declared, returned, printed, simple};

use crate::expr::{expr, name_of};
use crate::input::{Read, Reading};
use crate::list::list;
use crate::marks::{Mark, expect, past};
use crate::stop::Stop;
use cw_model::syntax::{CallKind, Reduction};
use cw_model::token::{Kind, Token};
use cw_tree::syntax::{Call, Name, Stmt};

// Parses a call after its opening parenthesis; also returns the number of the next call.
#[tactic(auto, unfolding(crate::specs::Parts::called))]
fn called<'a>(
    reading: Reading<'_>,
    depth: usize,
    kind: CallKind,
    site: u32,
    target: Option<Name>,
    callee: Token,
    tokens: &'a [Token],
) -> Read<'a, (Stmt, u32)>
    requires { site + 1 < 2 ^ 32 }
    ensures { Parses (numbered stmt_of) result
        (called reading.entry.text.now depth kind site target callee tokens.now) }
{
    let (arguments, rest) = list(reading, depth, tokens)?;
    let (_, rest) = expect(Mark::Semicolon, rest)?;
    let call = Call {
        kind,
        site,
        target,
        callee: name_of(reading, callee)?,
        arguments,
    };
    Ok(((Stmt::Call(Box::new(reading.alloc, call)?), site + 1), rest))
}

// Parses a call from the name of its callee on; also returns the number of the next call.
#[tactic(auto, unfolding(crate::specs::Parts::call))]
fn call<'a>(
    reading: Reading<'_>,
    depth: usize,
    kind: CallKind,
    site: u32,
    target: Option<Name>,
    tokens: &'a [Token],
) -> Read<'a, (Stmt, u32)>
    requires { site + 1 < 2 ^ 32 }
    ensures { Parses (numbered stmt_of) result
        (call reading.entry.text.now depth kind site target tokens.now) }
{
    let (callee, rest) = expect(Mark::Name, tokens)?;
    let (_, rest) = expect(Mark::LeftParen, rest)?;
    called(reading, depth, kind, site, target, callee, rest)
}

// Reports whether the tokens begin with a name and an opening parenthesis.
fn is_call(tokens: &[Token]) -> bool
    ensures { result ≡ is_call tokens.now }
{
    match tokens {
        [first, next, ..] => Mark::Name.is(first.kind) && Mark::LeftParen.is(next.kind),
        _ => false,
    }
}

// Parses the rest of a statement after a name and `=`.
#[tactic(auto, unfolding(crate::specs::Parts::assigned))]
fn assigned<'a>(
    reading: Reading<'_>,
    depth: usize,
    site: u32,
    target: Name,
    tokens: &'a [Token],
) -> Read<'a, (Stmt, u32)>
    requires { site + 1 < 2 ^ 32 }
    ensures { Parses (numbered stmt_of) result
        (assigned reading.entry.text.now depth site target tokens.now) }
{
    if let Some((_, rest)) = past(Mark::Spawn, tokens) {
        return call(reading, depth, CallKind::Spawned, site, Some(target), rest);
    }
    if is_call(tokens) {
        return call(reading, depth, CallKind::Plain, site, Some(target), tokens);
    }
    let (value, rest) = expr(reading, depth, tokens)?;
    let (_, rest) = expect(Mark::Semicolon, rest)?;
    Ok(((Stmt::Assign(target, value), site), rest))
}

// Parses the rest of a statement after a name and `[`.
#[tactic(auto, unfolding(crate::specs::Parts::element_assigned))]
fn element_assigned<'a>(
    reading: Reading<'_>,
    depth: usize,
    site: u32,
    array: Name,
    tokens: &'a [Token],
) -> Read<'a, (Stmt, u32)>
    ensures { Parses (numbered stmt_of) result
        (element_assigned reading.entry.text.now depth site array tokens.now) }
{
    let (index, rest) = expr(reading, depth, tokens)?;
    let (_, rest) = expect(Mark::RightBracket, rest)?;
    let (_, rest) = expect(Mark::Assign, rest)?;
    let (value, rest) = expr(reading, depth, rest)?;
    let (_, rest) = expect(Mark::Semicolon, rest)?;
    Ok(((Stmt::AssignElement(array, index, value), site), rest))
}

// Parses the value that updates a reducer, up to the semicolon.
fn told<'a>(
    reading: Reading<'_>,
    depth: usize,
    site: u32,
    how: Reduction,
    reducer: Name,
    tokens: &'a [Token],
) -> Read<'a, (Stmt, u32)>
    ensures { Parses (numbered stmt_of) result
        (told reading.entry.text.now depth site how reducer tokens.now) }
{
    let (value, rest) = expr(reading, depth, tokens)?;
    let (_, rest) = expect(Mark::Semicolon, rest)?;
    Ok(((Stmt::Reduce(how, reducer, value), site), rest))
}

// Parses a statement that begins with a name, after its second token `next`.
#[tactic(auto, unfolding(crate::specs::Parts::named_stmt))]
fn named_after<'a>(
    reading: Reading<'_>,
    depth: usize,
    site: u32,
    first: Token,
    next: Token,
    tokens: &'a [Token],
) -> Read<'a, (Stmt, u32)>
    requires { site + 1 < 2 ^ 32 }
    ensures { Parses (numbered stmt_of) result
        (named_stmt reading.entry.text.now depth site first next next.kind tokens.now) }
{
    match next.kind {
        Kind::Assign => assigned(reading, depth, site, name_of(reading, first)?, tokens),
        Kind::LeftBracket => {
            element_assigned(reading, depth, site, name_of(reading, first)?, tokens)
        }
        Kind::AddAssign => {
            told(
                reading,
                depth,
                site,
                Reduction::Sum,
                name_of(reading, first)?,
                tokens,
            )
        }
        Kind::Max => {
            let (_, rest) = expect(Mark::Assign, tokens)?;
            told(
                reading,
                depth,
                site,
                Reduction::Max,
                name_of(reading, first)?,
                rest,
            )
        }
        Kind::LeftParen => called(reading, depth, CallKind::Plain, site, None, first, tokens),
        _ => Err(Stop::At(tokens.len() + 1)),
    }
}

// Parses a statement that begins with a name, after the name.
fn named<'a>(
    reading: Reading<'_>,
    depth: usize,
    site: u32,
    first: Token,
    tokens: &'a [Token],
) -> Read<'a, (Stmt, u32)>
    requires { site + 1 < 2 ^ 32 }
    ensures { Parses (numbered stmt_of) result
        (by_first (named_stmt reading.entry.text.now depth site first) tokens.now) }
{
    match tokens {
        [] => Err(Stop::At(0)),
        [next, rest @ ..] => named_after(reading, depth, site, first, *next, rest),
    }
}

// Parses a statement that begins with `int` and a name, after the token `next` that follows the name.
#[tactic(auto, unfolding(crate::specs::Parts::declared_as))]
fn declared_after<'a>(
    reading: Reading<'_>,
    depth: usize,
    site: u32,
    declared: Name,
    next: Token,
    tokens: &'a [Token],
) -> Read<'a, (Stmt, u32)>
    ensures { Parses (numbered stmt_of) result
        (declared_as reading.entry.text.now depth site declared next next.kind tokens.now) }
{
    match next.kind {
        Kind::Assign => {
            let (value, rest) = expr(reading, depth, tokens)?;
            let (_, rest) = expect(Mark::Semicolon, rest)?;
            Ok(((Stmt::Declare(declared, value), site), rest))
        }
        Kind::LeftBracket => {
            let (length, rest) = expr(reading, depth, tokens)?;
            let (_, rest) = expect(Mark::RightBracket, rest)?;
            let (_, rest) = expect(Mark::Semicolon, rest)?;
            Ok(((Stmt::DeclareArray(declared, length), site), rest))
        }
        _ => Err(Stop::At(tokens.len() + 1)),
    }
}

// Parses the rest of a statement after `int`.
#[tactic(auto, unfolding(crate::specs::Parts::declared))]
fn declared<'a>(
    reading: Reading<'_>,
    depth: usize,
    site: u32,
    tokens: &'a [Token],
) -> Read<'a, (Stmt, u32)>
    ensures { Parses (numbered stmt_of) result
        (declared reading.entry.text.now depth site tokens.now) }
{
    let (found, rest) = expect(Mark::Name, tokens)?;
    let name = name_of(reading, found)?;
    match rest {
        [] => Err(Stop::At(0)),
        [next, rest @ ..] => declared_after(reading, depth, site, name, *next, rest),
    }
}

// Parses the rest of a statement after `return`.
#[tactic(auto, unfolding(crate::specs::Parts::returned))]
fn returned<'a>(
    reading: Reading<'_>,
    depth: usize,
    site: u32,
    tokens: &'a [Token],
) -> Read<'a, (Stmt, u32)>
    ensures { Parses (numbered stmt_of) result
        (returned reading.entry.text.now depth site tokens.now) }
{
    if let Some((_, rest)) = past(Mark::Semicolon, tokens) {
        return Ok(((Stmt::Return(None), site), rest));
    }
    let (value, rest) = expr(reading, depth, tokens)?;
    let (_, rest) = expect(Mark::Semicolon, rest)?;
    Ok(((Stmt::Return(Some(value)), site), rest))
}

// Parses the rest of a statement after `print`.
#[tactic(auto, unfolding(crate::specs::Parts::printed))]
fn printed<'a>(
    reading: Reading<'_>,
    depth: usize,
    site: u32,
    tokens: &'a [Token],
) -> Read<'a, (Stmt, u32)>
    ensures { Parses (numbered stmt_of) result
        (printed reading.entry.text.now depth site tokens.now) }
{
    let (_, rest) = expect(Mark::LeftParen, tokens)?;
    let (value, rest) = expr(reading, depth, rest)?;
    let (_, rest) = expect(Mark::RightParen, rest)?;
    let (_, rest) = expect(Mark::Semicolon, rest)?;
    Ok(((Stmt::Print(value), site), rest))
}

/// Parses a statement without a block, after its first token; also returns the number of the next call statement.
///
/// # Errors
///
/// Stops at the first token that does not fit, or if memory runs out.
#[tactic(auto, unfolding(crate::specs::Parts::simple))]
pub(crate) fn simple<'a>(
    reading: Reading<'_>,
    depth: usize,
    site: u32,
    first: Token,
    tokens: &'a [Token],
) -> Read<'a, (Stmt, u32)>
    requires { site + 1 < 2 ^ 32 }
    ensures { Parses (numbered stmt_of) result
        (simple reading.entry.text.now depth site first first.kind tokens.now) }
{
    match first.kind {
        Kind::Int => declared(reading, depth, site, tokens),
        Kind::Name => named(reading, depth, site, first, tokens),
        Kind::Spawn => call(reading, depth, CallKind::Spawned, site, None, tokens),
        Kind::Sync => {
            let (_, rest) = expect(Mark::Semicolon, tokens)?;
            Ok(((Stmt::Sync, site), rest))
        }
        Kind::Print => printed(reading, depth, site, tokens),
        Kind::Return => returned(reading, depth, site, tokens),
        _ => Err(Stop::At(tokens.len() + 1)),
    }
}
