//! Texts for faults of a run, and for sources that cannot be read.

use crate::around::word_of;
use crate::explaining::RejectedSource;
use crate::word::is_printable;
use cw_model::limits::MOST_LIMIT;
use cw_model::token::{Kind, Token};
use cw_text::Fault;
use std::alloc::{AllocError, Global};
use std::fmt;
use std::io::ErrorKind;

/// The maximum number of bytes of a path that are shown.
const MOST_BYTES: usize = 512;

/// The name of a source: its path, or `<stdin>` for standard input. `?` replaces a byte that is not printable.
#[derive(Clone, Copy)]
pub struct Named<'a> {
    pub path: &'a str,
}

impl fmt::Display for Named<'_> {
    fn fmt<W: fmt::Write>(&self, f: &mut fmt::Formatter<W>) -> fmt::Result {
        let bytes = self.path.as_bytes();
        if bytes.is_empty() {
            return write!(f, "<stdin>");
        }
        for byte in &bytes[..bytes.len().min(MOST_BYTES)] {
            let shown = char::from(printable(*byte));
            write!(f, "{shown}")?;
        }
        Ok(())
    }
}

// A byte, or `?` if it is not printable.
fn printable(byte: u8) -> u8 {
    if is_printable(byte) { byte } else { b'?' }
}

// Adds why a run has a fault without a line; nothing if memory ran out or the verifier rejected code.
pub fn of_run(out: &mut String, refused: &RejectedSource<'_>, fault: &Fault) -> Result<(), Fault> {
    let file = Named { path: refused.file };
    match fault {
        Fault::OverLimit => {
            let limit = refused.limit;
            write!(
                out,
                "{file}: the run costs more than its limit of {limit} instructions: check that each while and each recursion ends, or raise the limit with --limit N, up to {MOST_LIMIT}\n"
            )?;
        }
        Fault::Strands(count) => {
            let most = refused.strands;
            write!(
                out,
                "{file}: the run has {count} strands, but a schedule has at most {most}: use smaller arguments or coarser grains, or scale, which has no such limit\n"
            )?;
        }
        Fault::Write => write!(
            out,
            "{file}: standard output did not accept the whole report: the disk may be full, or the program that reads it may have ended\n"
        )?,
        _ => {}
    }
    Ok(())
}

/// Returns the number of parameters of main among these tokens of a text, and its line.
pub fn parameters_of_main(text: &[u8], tokens: &[Token]) -> Option<(usize, u32)> {
    let mut last = None;
    let mut head = None;
    let mut count: usize = 0;
    for token in tokens {
        match (head, token.kind) {
            (Some(line), Kind::RightParen) => return Some((count, line)),
            (Some(_), Kind::Int) => count = count.saturating_add(1),
            (None, Kind::Name) if last == Some(Kind::Int) && word_of(text, *token).is(b"main") => {
                head = Some(token.line);
            }
            _ => {}
        }
        last = Some(token.kind);
    }
    None
}

/// Returns why a source cannot be opened or read.
pub fn explain_unread(alloc: Global, path: &str, kind: ErrorKind) -> Result<String, AllocError> {
    let file = Named { path };
    let why = match kind {
        ErrorKind::NotFound => "no such file: check the path",
        ErrorKind::PermissionDenied => "this user may not read the file",
        ErrorKind::IsADirectory => "it is a directory: name a file in it",
        ErrorKind::NotADirectory => "a part of the path is not a directory",
        ErrorKind::FilesystemLoop => "the links in the path form a cycle",
        ErrorKind::InvalidInput | ErrorKind::InvalidFilename => "no file can have this path",
        _ => "the system cannot open or read it",
    };
    format!(in alloc; "{file}: {why}\n")
}
