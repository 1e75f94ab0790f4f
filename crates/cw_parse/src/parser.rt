//! Parses whole sources.

ghost use Rattle.std.specs.Prelude.{◌≡◌, ◌-◌, length, drop, MatchResult};
ghost use Rattle.cw_model.specs.Tokens.{IsTokenCut};
ghost use Rattle.cw_model.specs.Grammar.{Derives, first_line};
ghost use Rattle.cw_tree.specs.SyntaxView.{program_of};
ghost use Rattle.cw_parse.specs.Parsed.{HasNoTree, IsParsed, IsUnparsed};

use crate::input::Reading;
use crate::item::whole;
use crate::names::Names;
use crate::nesting::test_nesting;
use crate::stop::Stop;
use cw_model::token::Token;
use cw_text::{Fault, Place, Source};
use cw_tree::syntax::Ast;
use std::alloc::Global;

// Returns the line of the token at which `left` tokens remain, or the line of the text's end if no token remains.
fn line_of(source: &Source, tokens: &[Token], left: usize) -> u32
    ensures { result ≡ first_line source.now (drop (length tokens.now - left) tokens.now) }
{
    match &tokens[tokens.len().saturating_sub(left)..] {
        [] => source.end_line(),
        [first, ..] => first.line,
    }
}

/// Parses a source from its tokens. Call statements are numbered from 1 in the order of the source; each statement
/// has the line of its first token, and each function has the line of its name.
///
/// # Errors
///
/// - first, `Size` at the least line of a token at which more than 64 brackets of any kind are open, or which is the
///   257th or a later token in a row without a semicolon or a brace;
/// - then, `Syntax` at the line of the first token that continues no source, or at the line of the text's end if the
///   source ends too early;
/// - `Memory` if there is no memory for the tree.
pub fn parse(alloc: Global, source: &Source, tokens: &[Token]) -> Result<Ast, Fault>
    requires { IsTokenCut source.now tokens.now }
    ensures { MatchResult result (λ ast. IsParsed source.now tokens.now (program_of ast))
        (IsUnparsed source.now tokens.now) }
{
    test_nesting(tokens)?;
    tree_of(alloc, source, tokens)
}

// Parses a source from its tokens, without a check of the limits on tokens.
fn tree_of(alloc: Global, source: &Source, tokens: &[Token]) -> Result<Ast, Fault>
    requires { IsTokenCut source.now tokens.now }
    ensures { MatchResult result (λ ast. Derives source.now tokens.now (program_of ast))
        (HasNoTree source.now tokens.now) }
{
    let names = Names::of(alloc, source.bytes(), tokens)?;
    let ast = tree_with(alloc, source, &names, tokens)?;
    Ok(ast)
}

// Parses a source from its tokens with a table of its names, without a check of the limits on tokens.
fn tree_with(alloc: Global, source: &Source, names: &Names, tokens: &[Token]) -> Result<Ast, Fault>
    requires { IsTokenCut source.now tokens.now }
    ensures { MatchResult result (λ ast. Derives source.now tokens.now (program_of ast))
        (HasNoTree source.now tokens.now) }
{
    let text = source.bytes();
    let reading = Reading {
        alloc,
        text,
        names,
        limit: tokens.len(),
    };
    match whole(reading, tokens) {
        Ok(ast) => Ok(ast),
        Err(Stop::Memory) => Err(Fault::Memory),
        Err(Stop::At(left)) => {
            let line = line_of(source, tokens, left);
            Err(Fault::Syntax(Place { line }))
        }
    }
}
