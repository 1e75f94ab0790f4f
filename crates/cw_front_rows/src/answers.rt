//! The answers of the front end to the questions about a text.

use crate::productions::words_text;
use crate::rows::Asked;
use crate::shown::shown;
use cw_lex::lex;
use cw_loops::{Core, lower};
use cw_model::token::Token;
use cw_own::{Owned, own};
use cw_parse::parse;
use cw_text::{Fault, Source};
use cw_tree::Typed;
use cw_tree::syntax::Ast;
use cw_types::check;
use std::alloc::{AllocError, Global};

/// Represents the last stage that processes a text.
#[derive(Clone, Copy)]
pub enum Stage {
    /// Reading the source.
    Source,
    /// The lexer.
    Tokens,
    /// The parser.
    Tree,
    /// The check of names and types.
    Types,
    /// The check of ownership.
    Ownership,
    /// The lowering of loops.
    Loops,
}

/// Returns the answer to a question. For the name of a stage it is the line of the first fault of the text in the
/// stage or before it, or `taken`. For `tokens` and `tree` it is the tokens or the tree of the text, or the line of
/// its fault. For `words` it is the fault of the text without each of its words and with the word twice. For `loops`,
/// `numbers` and `shows` it describes the lowered loops and the typed tree.
///
/// # Errors
///
/// Returns an `AllocError` if there is no memory for the answer.
pub fn answer(alloc: Global, asked: &Asked) -> Result<String, AllocError> {
    let whole = asked.whole(alloc)?;
    let text = whole.as_slice();
    match asked.question.as_bytes() {
        b"source" => fault_text(alloc, Stage::Source, text),
        b"lex" => fault_text(alloc, Stage::Tokens, text),
        b"parse" => fault_text(alloc, Stage::Tree, text),
        b"types" => fault_text(alloc, Stage::Types, text),
        b"ownership" => fault_text(alloc, Stage::Ownership, text),
        b"tokens" => tokens_text(alloc, text),
        b"tree" => tree_text(alloc, text),
        b"words" => words_text(alloc, asked),
        b"count" => count_text(alloc, text),
        b"lower" => fault_text(alloc, Stage::Loops, text),
        b"loops" => loops_text(alloc, text),
        b"loop count" => loop_count_text(alloc, text),
        b"numbers" => numbers_text(alloc, text),
        b"shows" => shows_text(alloc, asked),
        _ => String::from_str(alloc, "no answer: there is no such question"),
    }
}

// Returns the tokens of a text, or its first fault.
fn tokens_of(alloc: Global, text: &[u8]) -> Result<Vec<Token>, Fault> {
    let source = Source::read(alloc, text)?;
    lex(alloc, &source)
}

// Returns the tree of a text, or its first fault.
fn tree_of(alloc: Global, text: &[u8]) -> Result<Ast, Fault> {
    let source = Source::read(alloc, text)?;
    let tokens = lex(alloc, &source)?;
    parse(alloc, &source, tokens.as_slice())
}

fn typed(alloc: Global, text: &[u8]) -> Result<Typed, Fault> {
    check(alloc, tree_of(alloc, text)?)
}

fn owned(alloc: Global, text: &[u8]) -> Result<Owned, Fault> {
    own(alloc, typed(alloc, text)?)
}

/// Lowers the loops of a text.
///
/// # Errors
///
/// Returns the first fault of the text.
pub fn lowered(alloc: Global, text: &[u8]) -> Result<Core, Fault> {
    lower(alloc, owned(alloc, text)?)
}

/// Returns the first fault of a text in this stage or before it, if it has one.
pub fn fault_of(alloc: Global, stage: Stage, text: &[u8]) -> Option<Fault> {
    match stage {
        Stage::Source => Source::read(alloc, text).err(),
        Stage::Tokens => tokens_of(alloc, text).err(),
        Stage::Tree => tree_of(alloc, text).err(),
        Stage::Types => typed(alloc, text).err(),
        Stage::Ownership => owned(alloc, text).err(),
        Stage::Loops => lowered(alloc, text).err(),
    }
}

// Returns the text of the first fault of a text in this stage or before it, or `taken` if it has none.
fn fault_text(alloc: Global, stage: Stage, text: &[u8]) -> Result<String, AllocError> {
    match fault_of(alloc, stage, text) {
        None => String::from_str(alloc, "taken"),
        Some(fault) => fault.to_string(alloc),
    }
}

// Returns each token with its kind, its first byte, the byte after its last and its line, or the text of the fault.
fn tokens_text(alloc: Global, text: &[u8]) -> Result<String, AllocError> {
    let tokens = match tokens_of(alloc, text) {
        Ok(tokens) => tokens,
        Err(fault) => return fault.to_string(alloc),
    };
    let mut out = String::new(alloc);
    for token in &tokens {
        let told = format!(in alloc;
            "{:?} {} {} {};",
            token.kind, token.start, token.end, token.line
        )?;
        out.push_str(told.as_str())?;
    }
    Ok(out)
}

// Returns the tree as text, or the text of the fault.
fn tree_text(alloc: Global, text: &[u8]) -> Result<String, AllocError> {
    match tree_of(alloc, text) {
        Ok(tree) => shown(alloc, &tree),
        Err(fault) => fault.to_string(alloc),
    }
}

// Returns the number of tokens of a text, or the text of its fault.
fn count_text(alloc: Global, text: &[u8]) -> Result<String, AllocError> {
    match tokens_of(alloc, text) {
        Ok(tokens) => format!(in alloc; "{} tokens", tokens.len()),
        Err(fault) => fault.to_string(alloc),
    }
}

// Returns, for each loop, its line, its grain, and the numbers of captured integers and of its arrays.
fn loops_text(alloc: Global, text: &[u8]) -> Result<String, AllocError> {
    let core = match lowered(alloc, text) {
        Ok(core) => core,
        Err(fault) => return fault.to_string(alloc),
    };
    let mut out = String::new(alloc);
    for l in &core.tree.loops {
        let told = format!(in alloc; "{} {} {} {};", l.line, l.grain, l.captured, l.over)?;
        out.push_str(told.as_str())?;
    }
    Ok(out)
}

fn loop_count_text(alloc: Global, text: &[u8]) -> Result<String, AllocError> {
    match lowered(alloc, text) {
        Ok(core) => format!(in alloc; "{} loops", core.tree.loops.len()),
        Err(fault) => fault.to_string(alloc),
    }
}

// Returns the index of main, the numbers of functions, reducers and tags, and for each function the numbers of slots
// for integers and for arrays.
fn numbers_text(alloc: Global, text: &[u8]) -> Result<String, AllocError> {
    let typed = match typed(alloc, text) {
        Ok(typed) => typed,
        Err(fault) => return fault.to_string(alloc),
    };
    let tree = &typed.tree;
    let counts = (tree.functions.len(), tree.reducers.len(), tree.tags.len());
    let mut out = format!(in alloc; "main {} of {:?}:", tree.main, counts)?;
    for function in &tree.functions {
        let told = format!(in alloc; " {} {};", function.ints, function.arrays)?;
        out.push_str(told.as_str())?;
    }
    Ok(out)
}

// Reports whether the `Debug` text of the last function before a row contains the part that the row gives.
fn shows_text(alloc: Global, asked: &Asked) -> Result<String, AllocError> {
    let typed = match typed(alloc, asked.before.as_slice()) {
        Ok(typed) => typed,
        Err(fault) => return fault.to_string(alloc),
    };
    let shown = format!(in alloc; "{:?}", typed.tree.functions.as_slice().last())?;
    match str::from_utf8(asked.text.as_slice()) {
        Ok(part) if shown.as_str().find(part).is_some() => String::from_str(alloc, "shown"),
        _ => Ok(shown),
    }
}
