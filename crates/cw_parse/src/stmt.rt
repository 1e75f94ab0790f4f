//! Parses statements and blocks.

ghost use Rattle.std.specs.Prelude.{◌+◌, ◌<◌, ◌^◌, length};
ghost use Rattle.cw_tree.specs.SyntaxView.{stmt_of, line_of, block_of, numbered};
ghost use Rattle.cw_parse.specs.Seen.{opening_of};
ghost use Rattle.cw_parse.specs.Reading.{Parses};
ghost use Rattle.cw_parse.specs.Parts.{unanswered, framed_in, framed_from, stmt_from, line_over, line, lines};

use crate::input::{Read, Reading};
use crate::marks::{Mark, expect, past};
use crate::opening::{Opening, opened};
use crate::simple::simple;
use crate::stop::Stop;
use cw_model::token::{Kind, Token};
use cw_tree::syntax::{Line, Stmt};

// Returns a statement that was parsed, unless an `else` follows it: an `else` may follow only the block of an `if`.
fn unanswered<'a>(stmt: Stmt, site: u32, tokens: &'a [Token]) -> Read<'a, (Stmt, u32)>
    ensures { Parses (numbered stmt_of) result (unanswered (stmt_of stmt, site) tokens.now) }
{
    match past(Mark::Else, tokens) {
        Some(_) => Err(Stop::At(tokens.len())),
        None => Ok(((stmt, site), tokens)),
    }
}

// Parses the rest of a statement with a block, after that block.
#[cycle(stmt)]
#[tactic(auto, unfolding(crate::specs::Parts::framed_by))]
fn framed_by<'a>(
    reading: Reading<'_>,
    depth: usize,
    opening: Opening,
    block: Vec<Line>,
    site: u32,
    tokens: &'a [Token],
) -> Read<'a, (Stmt, u32)>
    requires { site + length tokens.now < 2 ^ 32 }
    ensures { Parses (numbered stmt_of) result
        (framed_in reading.entry.text.now depth
        (opening_of opening) (block_of block.items) site tokens.now) }
{
    let stmt = match opening {
        Opening::If(test) => match past(Mark::Else, tokens) {
            None => return Ok(((Stmt::If(test, block), site), tokens)),
            Some((_, rest)) => {
                let (_, rest) = expect(Mark::LeftBrace, rest)?;
                let ((other, site), rest) = lines(reading, depth, site, rest)?;
                return unanswered(Stmt::IfElse(test, block, other), site, rest);
            }
        },
        Opening::While(test) => Stmt::While(test, block),
        Opening::For(head) => Stmt::For(head, block),
        Opening::Scope => Stmt::Scope(block),
        Opening::Cut(cut) => Stmt::Cut(cut, block),
        Opening::Region(tag) => Stmt::Region(tag, block),
    };
    unanswered(stmt, site, tokens)
}

// Parses a statement with a block, after its first token.
#[cycle(stmt)]
#[tactic(auto, unfolding(crate::specs::Parts::framed))]
fn framed<'a>(
    reading: Reading<'_>,
    depth: usize,
    site: u32,
    first: Token,
    tokens: &'a [Token],
) -> Read<'a, (Stmt, u32)>
    requires { site + length tokens.now < 2 ^ 32 }
    ensures { Parses (numbered stmt_of) result
        (framed_from reading.entry.text.now depth site first tokens.now) }
{
    let (opening, rest) = opened(reading, depth, first, tokens)?;
    let ((block, site), rest) = lines(reading, depth, site, rest)?;
    framed_by(reading, depth, opening, block, site, rest)
}

// Parses a statement after its first token; also returns the number of the next call statement.
#[cycle(stmt)]
#[tactic(auto, unfolding(crate::specs::Parts::stmt))]
fn stmt<'a>(
    reading: Reading<'_>,
    depth: usize,
    site: u32,
    first: Token,
    tokens: &'a [Token],
) -> Read<'a, (Stmt, u32)>
    requires { site + length tokens.now + 1 < 2 ^ 32 }
    ensures { Parses (numbered stmt_of) result
        (stmt_from reading.entry.text.now depth site first tokens.now) }
{
    match first.kind {
        Kind::If | Kind::While | Kind::For | Kind::Scope | Kind::Cut | Kind::Region => {
            framed(reading, depth, site, first, tokens)
        }
        _ => {
            let ((stmt, site), rest) = simple(reading, depth, site, first, tokens)?;
            unanswered(stmt, site, rest)
        }
    }
}

// Parses a statement with its line; inner statements nest at most `depth` deep.
#[cycle(stmt)]
fn line_by<'a>(
    reading: Reading<'_>,
    depth: usize,
    site: u32,
    tokens: &'a [Token],
) -> Read<'a, (Line, u32)>
    requires { site + length tokens.now < 2 ^ 32 }
    ensures { Parses (numbered line_of) result
        (line_over reading.entry.text.now depth site tokens.now) }
{
    match tokens {
        [] => Err(Stop::At(0)),
        [first, rest @ ..] => {
            let ((stmt, site), rest) = stmt(reading, depth, site, *first, rest)?;
            let line = first.line;
            Ok(((Line { line, stmt }, site), rest))
        }
    }
}

// Parses a statement with its line; statements nest at most `depth` deep.
#[cycle(stmt)]
fn line<'a>(
    reading: Reading<'_>,
    depth: usize,
    site: u32,
    tokens: &'a [Token],
) -> Read<'a, (Line, u32)>
    requires { site + length tokens.now < 2 ^ 32 }
    ensures { Parses (numbered line_of) result
        (line reading.entry.text.now depth site tokens.now) }
{
    if depth == 0 {
        return Err(Stop::At(tokens.len()));
    }
    line_by(reading, depth - 1, site, tokens)
}

/// Parses the statements of a block, whose statements nest at most `depth` deep, and its closing brace.
///
/// # Errors
///
/// Stops at the first token that does not fit, or if memory runs out.
#[cycle(stmt)]
pub(crate) fn lines<'a>(
    reading: Reading<'_>,
    depth: usize,
    site: u32,
    tokens: &'a [Token],
) -> Read<'a, (Vec<Line>, u32)>
    requires { site + length tokens.now < 2 ^ 32 }
    ensures { Parses (numbered (λ b. block_of b.items)) result
        (lines reading.entry.text.now depth site tokens.now) }
{
    let mut done = Vec::new(reading.alloc);
    let mut site = site;
    let mut rest = tokens;
    for _ in 0..depth {
        if let Some((_, after)) = past(Mark::RightBrace, rest) {
            return Ok(((done, site), after));
        }
        let ((line, next), after) = line(reading, depth, site, rest)?;
        done.push(line)?;
        site = next;
        rest = after;
    }
    Err(Stop::At(rest.len()))
}
