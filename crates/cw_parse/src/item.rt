//! Parses reducers, functions and whole sources.

ghost use Rattle.std.specs.Prelude.{◌≡◌, ◌+◌, ◌<◌, ◌^◌, [], length, MatchResult};
ghost use Rattle.cw_parse.specs.declared.stop.Stop.TheVariants.{Memory};
ghost use Rattle.cw_model.specs.Syntax as model;
ghost use Rattle.cw_tree.specs.SyntaxView.{param_of, function_of, reducer_of, numbered};
ghost use Rattle.cw_parse.specs.Seen.{item_of, items_of, IsPushed};
ghost use Rattle.cw_parse.specs.Reading.{Gives, Parses, by_first};
ghost use Rattle.cw_parse.specs.Parts.{array, single, behind_name, written, const_array, param};
ghost use Rattle.cw_parse.specs.Parts.{reduction, reducer, function, item, whole};

use crate::expr::name_of;
use crate::input::{Read, Reading};
use crate::list::{Part, list};
use crate::marks::{Mark, expect, past};
use crate::stmt::lines;
use crate::stop::Stop;
use cw_model::syntax::{NameKind, Reduction};
use cw_model::token::{Kind, Token};
use cw_tree::syntax::{Ast, Function, Name, Param, Reducer};

// Parses an array parameter after its opening bracket.
fn array<'a>(name: Name, tokens: &'a [Token]) -> Read<'a, Param>
    ensures { Parses param_of result (array name tokens.now) }
{
    let (_, rest) = expect(Mark::RightBracket, tokens)?;
    let array = Param {
        name,
        kind: NameKind::Array,
    };
    Ok((array, rest))
}

// Returns an array parameter that was parsed, unless a second pair of brackets follows it.
fn single<'a>(param: Param, tokens: &'a [Token]) -> Read<'a, Param>
    ensures { Parses param_of result (single (param_of param) tokens.now) }
{
    match past(Mark::LeftBracket, tokens) {
        Some(_) => Err(Stop::At(tokens.len())),
        None => Ok((param, tokens)),
    }
}

// Parses a parameter after its name.
fn kind_of_param<'a>(name: Name, tokens: &'a [Token]) -> Read<'a, Param>
    ensures { Parses param_of result (behind_name name tokens.now) }
{
    match past(Mark::LeftBracket, tokens) {
        None => Ok((
            Param {
                name,
                kind: NameKind::Integer,
            },
            tokens,
        )),
        Some((_, rest)) => {
            let (param, rest) = array(name, rest)?;
            single(param, rest)
        }
    }
}

// Parses a parameter that is an integer or a writable array.
fn written<'a>(reading: Reading<'_>, tokens: &'a [Token]) -> Read<'a, Param>
    ensures { Parses param_of result (written reading.entry.text.now tokens.now) }
{
    let (_, rest) = expect(Mark::Int, tokens)?;
    let (found, rest) = expect(Mark::Name, rest)?;
    let name = name_of(reading, found)?;
    let (param, rest) = kind_of_param(name, rest)?;
    Ok((param, rest))
}

// Parses a read-only array parameter after its keyword.
fn const_array<'a>(reading: Reading<'_>, tokens: &'a [Token]) -> Read<'a, Param>
    ensures { Parses param_of result (const_array reading.entry.text.now tokens.now) }
{
    let (_, rest) = expect(Mark::Int, tokens)?;
    let (found, rest) = expect(Mark::Name, rest)?;
    let (_, rest) = expect(Mark::LeftBracket, rest)?;
    let (_, rest) = expect(Mark::RightBracket, rest)?;
    let array = Param {
        name: name_of(reading, found)?,
        kind: NameKind::Const,
    };
    Ok((array, rest))
}

impl Part for Param {
    ghost Seen = { model.Param };

    ghost seen = { param_of };

    ghost part = { λ text n. param text };

    #[tactic(auto, unfolding(crate::specs::Parts::param))]
    fn read<'a>(reading: Reading<'_>, _depth: usize, tokens: &'a [Token]) -> Read<'a, Param> {
        match past(Mark::Const, tokens) {
            None => written(reading, tokens),
            Some((_, rest)) => {
                let (param, rest) = const_array(reading, rest)?;
                single(param, rest)
            }
        }
    }
}

// Parses the keyword of a reduction.
fn reduction(tokens: &[Token]) -> Read<'_, Reduction>
    ensures { Parses (λ x. x) result (by_first reduction tokens.now) }
{
    match tokens {
        [] => Err(Stop::At(0)),
        [word, rest @ ..] => match word.kind {
            Kind::Sum => Ok((Reduction::Sum, rest)),
            Kind::Max => Ok((Reduction::Max, rest)),
            _ => Err(Stop::At(tokens.len())),
        },
    }
}

/// Parses a reducer after its first token.
///
/// # Errors
///
/// Stops at the first token that does not fit, or if memory runs out.
#[tactic(auto, unfolding(crate::specs::Parts::reducer))]
pub(crate) fn reducer<'a>(
    reading: Reading<'_>,
    first: Token,
    tokens: &'a [Token],
) -> Read<'a, Reducer>
    ensures { Parses reducer_of result (reducer reading.entry.text.now first tokens.now) }
{
    let (how, rest) = reduction(tokens)?;
    let (found, rest) = expect(Mark::Name, rest)?;
    let (_, rest) = expect(Mark::Semicolon, rest)?;
    let reducer = Reducer {
        name: name_of(reading, found)?,
        how,
        line: first.line,
    };
    Ok((reducer, rest))
}

/// Parses the head of a function after its first token, and its opening brace.
///
/// # Errors
///
/// Stops at the first token that does not fit, or if memory runs out.
pub(crate) fn head<'a>(reading: Reading<'_>, tokens: &'a [Token]) -> Read<'a, (Token, Vec<Param>)> {
    let (found, rest) = expect(Mark::Name, tokens)?;
    let (_, rest) = expect(Mark::LeftParen, rest)?;
    let (params, rest) = list(reading, reading.limit, rest)?;
    let (_, rest) = expect(Mark::LeftBrace, rest)?;
    Ok(((found, params), rest))
}

// Parses a function after its first token; also returns the number of the next call statement.
#[tactic(auto, unfolding(crate::specs::Parts::function))]
fn function<'a>(
    reading: Reading<'_>,
    gives_int: bool,
    site: u32,
    tokens: &'a [Token],
) -> Read<'a, (Function, u32)>
    requires { site + length tokens.now < 2 ^ 32 }
    ensures { Parses (numbered function_of) result
        (function reading.entry.text.now reading.entry.limit gives_int site tokens.now) }
{
    let (found, rest) = expect(Mark::Name, tokens)?;
    let (_, rest) = expect(Mark::LeftParen, rest)?;
    let (params, rest) = list(reading, reading.limit, rest)?;
    let (_, rest) = expect(Mark::LeftBrace, rest)?;
    let ((body, site), rest) = lines(reading, reading.limit, site, rest)?;
    let function = Function {
        name: name_of(reading, found)?,
        line: found.line,
        gives_int,
        params,
        body,
    };
    Ok(((function, site), rest))
}

// Represents an item of a source: a reducer or a function.
#[derive(Drop)]
enum Item {
    Total(Reducer),
    Code(Function),
}

// Parses an item after its first token; also returns the number of the next call statement.
#[tactic(auto, unfolding(crate::specs::Parts::item))]
fn next_item<'a>(
    reading: Reading<'_>,
    site: u32,
    first: Token,
    tokens: &'a [Token],
) -> Read<'a, (Item, u32)>
    requires { site + length tokens.now < 2 ^ 32 }
    ensures { Parses (numbered item_of) result
        (item reading.entry.text.now reading.entry.limit site first first.kind tokens.now) }
{
    match first.kind {
        Kind::Reducer => {
            let (found, rest) = reducer(reading, first, tokens)?;
            Ok(((Item::Total(found), site), rest))
        }
        Kind::Int => {
            let ((found, site), rest) = function(reading, true, site, tokens)?;
            Ok(((Item::Code(found), site), rest))
        }
        Kind::Void => {
            let ((found, site), rest) = function(reading, false, site, tokens)?;
            Ok(((Item::Code(found), site), rest))
        }
        _ => Err(Stop::At(tokens.len() + 1)),
    }
}

// Parses an item; also returns the number of the next call statement.
fn item_by<'a>(reading: Reading<'_>, site: u32, tokens: &'a [Token]) -> Read<'a, (Item, u32)>
    requires { site + length tokens.now < 2 ^ 32 }
    ensures { Parses (numbered item_of) result
        (by_first (item reading.entry.text.now reading.entry.limit site) tokens.now) }
{
    match tokens {
        [] => Err(Stop::At(0)),
        [first, rest @ ..] => next_item(reading, site, *first, rest),
    }
}

// Appends an item.
fn push(mut ast: Ast, found: Item) -> Result<Ast, Stop>
    ensures { MatchResult result (IsPushed ast found)
        (λ e. e ≡ Memory) }
{
    match found {
        Item::Total(reducer) => ast.reducers.push(reducer)?,
        Item::Code(function) => ast.functions.push(function)?,
    }
    Ok(ast)
}

/// Parses all items of a source.
///
/// # Errors
///
/// Stops at the first token that does not fit, or if memory runs out.
pub(crate) fn whole(reading: Reading<'_>, tokens: &[Token]) -> Result<Ast, Stop>
    requires { 1 + length tokens.now < 2 ^ 32 }
    ensures { Gives (λ x. (items_of x, [])) result
        (whole reading.entry.text.now reading.entry.limit tokens.now) }
{
    if tokens.is_empty() {
        return Err(Stop::At(0));
    }
    let mut ast = Ast {
        reducers: Vec::new(reading.alloc),
        functions: Vec::new(reading.alloc),
    };
    let mut site = 1;
    let mut rest = tokens;
    for _ in 0..reading.limit {
        if rest.is_empty() {
            return Ok(ast);
        }
        let ((found, next), after) = item_by(reading, site, rest)?;
        ast = push(ast, found)?;
        site = next;
        rest = after;
    }
    if rest.is_empty() {
        return Ok(ast);
    }
    Err(Stop::At(rest.len()))
}
