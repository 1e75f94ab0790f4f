//! From a fault to its explanation.

use crate::around::first_from;
use crate::checking::{Mended, add_checks, add_checks_of, add_ownership, tokens_of, unless_memory};
use crate::excerpt::{Lines, add_lines};
use crate::keywords::rename_keywords;
use crate::limits;
use crate::listing::{Listing, Spot};
use crate::others::{Named, of_run, parameters_of_main};
use crate::scan::{Bad, Scan, scanned};
use crate::syntax::{Outline, add_syntax};
use crate::traps::{multiplies, trapped};
use cw_gen::excess_of;
use cw_loops::lower;
use cw_model::limits::MOST_SOURCE_BYTES;
use cw_model::token::Token;
use cw_model::trap::Trap;
use cw_own::own;
use cw_parse::{Item, Recovered, parse, passed_by_tokens, recover};
use cw_text::Fault;
use cw_tree::syntax::Ast;
use cw_types::{check, too_large};
use std::alloc::{AllocError, Global};
use std::fmt;

/// The most bytes of a source whose errors of all stages are explained, and the most bytes after the first that starts no token
/// in which more of them are explained.
pub const MOST_BYTES: usize = 32_768;

/// The most tokens after the line of the first error in which further errors of a larger source are explained.
const MOST_TOKENS: usize = 8_192;

/// A source that is rejected, with the words that it was run with.
#[derive(Clone, Copy)]
pub struct RejectedSource<'a> {
    /// The path of the source; empty for standard input.
    pub file: &'a str,
    /// The bytes that were read from it.
    pub bytes: &'a [u8],
    /// The number of arguments that are given.
    pub args: usize,
    /// The maximum cost of the run in instructions.
    pub limit: u64,
    /// The maximum number of strands of a schedule.
    pub strands: u64,
}

/// The line of a source that is explained.
#[derive(Clone, Copy)]
pub struct Subject<'a> {
    pub file: Named<'a>,
    pub bytes: &'a [u8],
    pub line: u32,
}

impl<'a> RejectedSource<'a> {
    // A line of it.
    fn at(&self, line: u32) -> Subject<'a> {
        Subject {
            file: Named { path: self.file },
            bytes: self.bytes,
            line,
        }
    }
}

/// Explains why a source, or its run, has this fault.
///
/// Returns the rule that is broken and what to write instead, on one line that begins with the source and its line; then the
/// lines of the source that matter, with their numbers and a caret if the column is known. For bytes, tokens, names, types and
/// ownership these are all errors that are found, in order of lines: at most fifty and the number of the others, with at most
/// 4 KiB for each ten. Names and types find errors in at most fifty lines, and so does ownership. In a source of more than
/// `MOST_BYTES` they are errors of one stage, for bytes and tokens near the first. Each line ends with a line feed. The text is
/// empty if memory ran out or the verifier rejected code.
///
/// # Errors
///
/// `Memory` if memory runs out.
pub fn explain(
    alloc: Global,
    refused: &RejectedSource<'_>,
    fault: &Fault,
) -> Result<String, Fault> {
    let mut out = String::new(alloc);
    add_reason(alloc, &mut out, refused, fault)?;
    Ok(out)
}

// Adds why a source, or its run, has this fault.
fn add_reason(
    alloc: Global,
    out: &mut String,
    refused: &RejectedSource<'_>,
    fault: &Fault,
) -> Result<(), Fault> {
    match fault {
        Fault::Lexical(_) => of_source(alloc, out, refused, None),
        Fault::Syntax(place) => of_source(alloc, out, refused, Some(place.line)),
        Fault::Types(_) => of_program(alloc, out, refused, true),
        Fault::Ownership(_) => of_program(alloc, out, refused, false),
        Fault::Size(place) => of_size(alloc, out, refused, place.line),
        Fault::Trap { code, line, .. } => of_trap(alloc, out, &refused.at(*line), *code),
        Fault::Arguments => of_arguments(alloc, out, refused),
        _ => of_run(out, refused, fault),
    }
}

// Adds the source and a line of it, in the form that editors read.
fn add_place(out: &mut String, file: Named<'_>, line: u32) -> Result<(), Fault> {
    write!(out, "{file}:{line}: ")?;
    Ok(())
}

// Adds the rule that is broken, and the lines that matter.
fn add_rule<D: fmt::Display>(
    out: &mut String,
    subject: &Subject<'_>,
    rule: &D,
    other: Option<u32>,
) -> Result<(), Fault> {
    write!(out, "{rule}\n")?;
    let lines = Lines {
        line: subject.line,
        other,
        before: None,
        start: None,
        other_start: None,
    };
    add_lines(out, subject.bytes, lines)?;
    Ok(())
}

// Explains a trap.
fn of_trap(
    alloc: Global,
    out: &mut String,
    subject: &Subject<'_>,
    code: Trap,
) -> Result<(), Fault> {
    add_place(out, subject.file, subject.line)?;
    let (_source, tokens) = tokens_of(alloc, subject.bytes)?;
    let rule = trapped(code, multiplies(tokens.as_slice(), subject.line));
    add_rule(out, subject, &rule, None)
}

// Explains a wrong number of arguments of main.
fn of_arguments(
    alloc: Global,
    out: &mut String,
    refused: &RejectedSource<'_>,
) -> Result<(), Fault> {
    let (_source, tokens) = tokens_of(alloc, refused.bytes)?;
    if let Some((count, line)) = parameters_of_main(refused.bytes, tokens.as_slice()) {
        let given = refused.args;
        add_place(out, Named { path: refused.file }, line)?;
        write!(
            out,
            "wrong number of arguments: main takes {count}, and {given} follow the source\n"
        )?;
    }
    Ok(())
}

// Explains bytes that start no token, tokens that do not parse, and errors of names, types and ownership: all of them in a
// source of at most `MOST_BYTES`; in a larger one errors of the stage that rejects it, near the first.
fn of_source(
    alloc: Global,
    out: &mut String,
    refused: &RejectedSource<'_>,
    line: Option<u32>,
) -> Result<(), Fault> {
    let bytes = refused.bytes;
    let mut listing = Listing::new(alloc);
    match line {
        Some(line) if bytes.len() > MOST_BYTES => add_first(alloc, &mut listing, bytes, line)?,
        _ => {
            let scan = scanned(alloc, bytes, MOST_BYTES)?;
            add_scanned(alloc, &mut listing, refused, &scan)?;
        }
    }
    listing.write(out, bytes, Named { path: refused.file })
}

// Adds the bytes that start no token, and, unless the source is large, what the stages after the lexer reject.
fn add_scanned(
    alloc: Global,
    listing: &mut Listing,
    refused: &RejectedSource<'_>,
    scan: &Scan,
) -> Result<(), Fault> {
    let bytes = refused.bytes;
    add_bad(listing, bytes, scan.bad.as_slice())?;
    if bytes.len() > MOST_BYTES {
        return Ok(());
    }
    add_tokens(alloc, listing, bytes, Named { path: refused.file }, scan)
}

// Adds what does not parse from a line of a large source on.
fn add_first(alloc: Global, listing: &mut Listing, bytes: &[u8], line: u32) -> Result<(), Fault> {
    let (_source, tokens) = tokens_of(alloc, bytes)?;
    let tokens = tokens.as_slice();
    let reach = first_from(tokens, line).saturating_add(MOST_TOKENS);
    let near = tokens.get(..reach).unwrap_or(tokens);
    let mut found = recover(alloc, bytes, near)?;
    if near.len() == tokens.len() {
        return add_rejected(alloc, listing, bytes, near, &found);
    }
    // what does not parse because the other tokens are missing
    let count = near.len();
    found.rejected.retain(|rejected| rejected.place < count);
    if !found.rejected.is_empty() {
        return add_rejected(alloc, listing, bytes, near, &found);
    }
    let found = recover(alloc, bytes, tokens)?;
    add_rejected(alloc, listing, bytes, tokens, &found)
}

// Adds what does not parse of these tokens.
fn add_rejected(
    alloc: Global,
    listing: &mut Listing,
    bytes: &[u8],
    tokens: &[Token],
    found: &Recovered,
) -> Result<(), Fault> {
    let outline = Outline {
        bytes,
        tokens,
        bad: &[],
        found,
        typed: &[],
    };
    add_syntax(alloc, listing, &outline)?;
    Ok(())
}

// Adds the bytes that start no token.
fn add_bad(listing: &mut Listing, bytes: &[u8], all: &[Bad]) -> Result<(), Fault> {
    listing.begin();
    for bad in all {
        if bad.is_told && listing.takes() {
            let reason = bad.reason(bytes);
            let place = bad.place as usize;
            let start = place.saturating_sub(reason.place);
            listing.add(Spot::at(bad.line, start, place, None), &reason)?;
        }
    }
    Ok(())
}

// Adds what the stages after the lexer reject.
fn add_tokens(
    alloc: Global,
    listing: &mut Listing,
    bytes: &[u8],
    file: Named<'_>,
    scan: &Scan,
) -> Result<(), Fault> {
    let mut text = Vec::from_slice(alloc, scan.text.as_slice())?;
    let (_source, mut tokens) = match tokens_of(alloc, text.as_slice()) {
        Err(Fault::Memory) => return Err(Fault::Memory),
        Err(_) => return Ok(()),
        Ok(read) => read,
    };
    if let Some(at) = passed_by_tokens(tokens.as_slice()) {
        return listing.add(Spot::of_line(at.line, None), &limits::of_tokens(at.reason));
    }
    let mut shown = Vec::from_slice(alloc, bytes)?;
    rename_keywords(alloc, listing, &mut shown, &mut text, &mut tokens)?;
    let text = text.as_slice();
    let tokens = tokens.as_slice();
    let all = scan.bad.as_slice();
    let found = recover(alloc, text, tokens)?;
    let typed = typed_items(alloc, found.items.as_slice(), tokens, all)?;
    let outline = Outline {
        bytes: shown.as_slice(),
        tokens,
        bad: all,
        found: &found,
        typed: typed.as_slice(),
    };
    let repairs = add_syntax(alloc, listing, &outline)?;
    let mended = Mended {
        whole: text,
        repairs: &repairs,
        is_on: true,
    };
    unless_memory(add_checks(alloc, listing, file, &outline, mended))
}

// Explains errors of names and types, or of ownership, of a source that parses.
fn of_program(
    alloc: Global,
    out: &mut String,
    refused: &RejectedSource<'_>,
    is_of_types: bool,
) -> Result<(), Fault> {
    let bytes = refused.bytes;
    let file = Named { path: refused.file };
    let mut listing = Listing::new(alloc);
    let (source, tokens) = tokens_of(alloc, bytes)?;
    let tokens = tokens.as_slice();
    let ast = parse(alloc, &source, tokens)?;
    let found = Recovered {
        rejected: Vec::new(alloc),
        items: Vec::new(alloc),
    };
    let outline = Outline {
        bytes,
        tokens,
        bad: &[],
        found: &found,
        typed: &[],
    };
    unless_memory(if is_of_types {
        add_checks_of(alloc, &mut listing, file, &outline, bytes, ast)
    } else {
        add_ownership(alloc, &mut listing, &outline, ast)
    })?;
    listing.write(out, bytes, file)
}

// Whether names and types of each item are as they were before bytes were replaced.
fn typed_items(
    alloc: Global,
    items: &[Item],
    tokens: &[Token],
    all: &[Bad],
) -> Result<Vec<bool>, AllocError> {
    let mut next = 0;
    let mut typed = Vec::new(alloc);
    for item in items {
        let (place, is_typed) = typed_until(item, tokens, all, next);
        next = place;
        typed.push(is_typed)?;
    }
    Ok(typed)
}

// The first replaced bytes after an item, from some on, and whether names and types of the item are as they were.
fn typed_until(item: &Item, tokens: &[Token], all: &[Bad], next: usize) -> (usize, bool) {
    let last = item.end.saturating_sub(1);
    let (Some(first), Some(last)) = (tokens.get(item.first), tokens.get(last)) else {
        return (next, true);
    };
    let mut is_typed = true;
    for index in next..all.len() {
        let bad = all[index];
        if bad.place > last.end {
            return (index, is_typed);
        }
        is_typed = is_typed && (bad.place < first.start || bad.is_typed());
    }
    (all.len(), is_typed)
}

// Explains a limit: of the bytes, a name, the tokens, the program's parts, and its code, in this order.
fn of_size(
    alloc: Global,
    out: &mut String,
    refused: &RejectedSource<'_>,
    line: u32,
) -> Result<(), Fault> {
    let count = refused.bytes.len();
    if count > MOST_SOURCE_BYTES {
        add_place(out, Named { path: refused.file }, 1)?;
        write!(
            out,
            "the source has {count} bytes, but at most {MOST_SOURCE_BYTES} are allowed\n"
        )?;
        return Ok(());
    }
    let scan = scanned(alloc, refused.bytes, MOST_BYTES)?;
    if scan.bad.is_empty() {
        return of_limit(alloc, out, &refused.at(line));
    }
    let mut listing = Listing::new(alloc);
    add_scanned(alloc, &mut listing, refused, &scan)?;
    listing.write(out, refused.bytes, Named { path: refused.file })
}

// Explains a limit of the tokens, the program's parts or its code.
fn of_limit(alloc: Global, out: &mut String, subject: &Subject<'_>) -> Result<(), Fault> {
    add_place(out, subject.file, subject.line)?;
    let (source, tokens) = tokens_of(alloc, subject.bytes)?;
    if let Some(at) = passed_by_tokens(tokens.as_slice()) {
        return add_rule(out, subject, &limits::of_tokens(at.reason), None);
    }
    let ast = parse(alloc, &source, tokens.as_slice())?;
    of_parts(alloc, out, subject, ast)
}

// Explains a limit of parts, loops and code.
fn of_parts(alloc: Global, out: &mut String, subject: &Subject<'_>, ast: Ast) -> Result<(), Fault> {
    let is_told = add_parts(alloc, out, subject, &ast)?;
    if is_told {
        return Ok(());
    }
    of_code(alloc, out, subject, ast)
}

// Adds the limit of parts that is exceeded, and returns whether there is one.
fn add_parts(
    alloc: Global,
    out: &mut String,
    subject: &Subject<'_>,
    ast: &Ast,
) -> Result<bool, Fault> {
    match too_large(alloc, ast)? {
        Some(at) => {
            add_rule(out, subject, &limits::of_parts(&at.reason), None)?;
            Ok(true)
        }
        None => Ok(false),
    }
}

// Explains a limit of loops and code.
fn of_code(alloc: Global, out: &mut String, subject: &Subject<'_>, ast: Ast) -> Result<(), Fault> {
    let typed = check(alloc, ast)?;
    let owned = own(alloc, typed)?;
    let limit = match lower(alloc, owned) {
        Ok(core) => limits::of_code(excess_of(alloc, &core)?),
        Err(Fault::Size(_place)) => limits::of_loops(),
        Err(fault) => return Err(fault),
    };
    add_rule(out, subject, &limit, None)
}
