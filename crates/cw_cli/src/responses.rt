//! The answers of the program: on a source, and if there is nothing to run.

ghost use Rattle.std.specs.Prelude.{◌≡◌, ◌<◌, ◌-◌, ◌^◌, length, true};
ghost use Rattle.std.specs.IoError.{error_kind};
ghost use Rattle.cw_text.specs.Faults.{fault_status};
ghost use Rattle.cw_cli.specs.Tools.{
  IsFileAnswer,
  IsFaultReport,
  IsSaidAnswer,
  WritesMessage,
  IsToolAnswer,
  IsUnreadAnswer,
  IsWhyAnswer,
  OnItsBytes,
  fault_line,
};

use crate::analysis::analyse_named;
use crate::misuse::misused;
use crate::paging::source_name;
use cw_compile::compile;
use cw_explain::{Named, RejectedSource, explain, explain_unread};
use cw_model::limits::{MOST_SOURCE_BYTES, MOST_STRANDS};
use cw_pool::crew::Body;
use cw_pool::gate::Gate;
use cw_report::{Input, Sink, write_fault, write_text};
use cw_text::Fault;
use cw_trapped::{Trapping, add_trap};
use cw_words::{Request, Said};
use std::alloc::Global;
use std::io;
use std::io::Read;
use std::sync::{Arc, Wait};
use std::thread::Threads;

/// One byte more than a source may have, which is the maximum that is read of one.
const MOST_READ: u64 = MOST_SOURCE_BYTES as u64 + 1;

/// Reads the source, analyses it as asked, writes the report to `out`, and returns the exit status. The caller's
/// thread and one thread for each body of the crew are the workers of the run; nothing that is written depends on
/// them.
///
/// The status is 0 if the report was written, otherwise the status of the fault. The line of the fault is written to
/// `err`, followed by the reason why the source has the fault if the request explains (`cw_explain`). At most one
/// byte past the maximum size of a source is read. A failed write to `err` changes nothing. Requires that fewer than
/// 2^64 - 1 writes to each sink failed before.
///
/// If a read of the source fails for another reason than that memory runs out, the line is `file` and the status 5,
/// and nothing is written to `out`. If memory runs out for the bytes or in a read, the line is `memory` and the
/// status 6. For a reader that does not reveal its bytes, such as a file, the contract holds for some bytes. If the
/// source was read and the crew has more than 63 bodies, the line is `arguments` and the status 5, and nothing is
/// written to `out`.
pub fn tool<
    D: Input,
    W: Sink,
    E: Sink,
    G: Gate + Drop + Send + Sync + 'static,
    B: Body<G> + Send + Drop + 'static,
    R: Threads + Wait,
>(
    rt: &R,
    alloc: Global,
    asked: &Request,
    source: &mut D,
    crew: Vec<B>,
    gate: Arc<G>,
    out: &mut W,
    err: &mut E,
) -> u8
    requires out { (W.seen out.old).failures < 2 ^ 64 - 1 }
    requires err { (E.seen err.old).failures < 2 ^ 64 - 1 }
    ensures { OnItsBytes (D.remaining source.old) (λ bytes. IsToolAnswer W.seen out.old out.new
        E.seen err.old err.new asked.now (length crew.items)
        (D.failed source.old) (D.failed source.new) bytes result) }
{
    let failures = source.failed_reads();
    let mut bytes = Vec::new(alloc);
    let read = (&mut *source).take(MOST_READ).read_to_end(&mut bytes);
    if read.is_err() {
        if source.failed_reads() > failures {
            return tell_file(alloc, asked, kind_of(&read), err);
        }
        return refuse(&Fault::Memory, err);
    }
    let args = asked.args.as_slice();
    match analyse_named(
        rt,
        alloc,
        source_name(asked.file.as_bytes()),
        bytes.as_slice(),
        args,
        asked.options,
        crew,
        gate,
        out,
    ) {
        Ok(()) => 0,
        Err(fault) => tell(alloc, asked, bytes.as_slice(), &fault, err),
    }
}

// Returns the kind of the error with which a read failed.
fn kind_of(read: &io::Result<usize>) -> io::ErrorKind {
    match read {
        Ok(_) => io::ErrorKind::Other,
        Err(error) => error.kind(),
    }
}

// Writes the line of a fault to `err` and, if asked for, the reason why these bytes have the fault. Returns the exit
// status. If there is no memory for the explanation, or the line was not written, no explanation is written.
fn tell<E: Sink>(alloc: Global, asked: &Request, bytes: &[u8], fault: &Fault, err: &mut E) -> u8
    requires { (E.seen err.old).failures < 2 ^ 64 - 1 }
    ensures told { WritesMessage E.seen err.old err.new asked.now.explain (fault_line fault.now) }
    ensures status { result ≡ fault_status fault.now }
{
    if !asked.explain {
        return refuse(fault, err);
    }
    let status = fault.status();
    if write_fault(err, fault).is_err() {
        return status;
    }
    let refused = RejectedSource {
        file: asked.file.as_str(),
        bytes,
        args: asked.args.len(),
        limit: asked.options.limit,
        strands: MOST_STRANDS,
    };
    let Ok(mut text) = explain(alloc, &refused, fault) else {
        return status;
    };
    if matches!(fault, Fault::Trap { .. }) {
        let _ = add_values(alloc, asked, bytes, &mut text);
    }
    let _ = write_text(err, text.as_bytes());
    status
}

// Adds the values of a trap, and the calls and loops around it, if there is memory for the run that finds them.
fn add_values(
    alloc: Global,
    asked: &Request,
    bytes: &[u8],
    text: &mut String,
) -> Result<(), Fault> {
    let code = compile(alloc, bytes)?;
    let file = Named {
        path: asked.file.as_str(),
    };
    let run = Trapping {
        code: &code,
        args: asked.args.as_slice(),
        limit: asked.options.limit,
    };
    add_trap(alloc, text, file, &run)
}

// Writes the line of a fault of these words to `err`, followed by the words that have the fault. Returns the exit
// status.
fn tell_words<E: Sink>(alloc: Global, words: &[String], fault: &Fault, err: &mut E) -> u8
    requires { (E.seen err.old).failures < 2 ^ 64 - 1 }
    ensures told { WritesMessage E.seen err.old err.new true (fault_line fault.now) }
    ensures status { result ≡ fault_status fault.now }
{
    let status = fault.status();
    if write_fault(err, fault).is_err() {
        return status;
    }
    let Ok(text) = misused(alloc, words) else {
        return status;
    };
    let _ = write_text(err, text.as_bytes());
    status
}

/// Reports that a source cannot be opened and, if asked for, the reason. Writes `file` and returns 5, or, if memory
/// ran out, writes `memory` and returns 6. A failed write to `err` changes nothing.
pub fn unread<E: Sink>(alloc: Global, asked: &Request, error: &io::Error, err: &mut E) -> u8
    requires { (E.seen err.old).failures < 2 ^ 64 - 1 }
    ensures { IsUnreadAnswer E.seen err.old err.new asked.now (error_kind error.now) result }
{
    if error.kind() == io::ErrorKind::OutOfMemory {
        return refuse(&Fault::Memory, err);
    }
    tell_file(alloc, asked, error.kind(), err)
}

// Writes the line for a source that cannot be read and, if asked for, the reason. Returns the exit status.
fn tell_file<E: Sink>(alloc: Global, asked: &Request, kind: io::ErrorKind, err: &mut E) -> u8
    requires { (E.seen err.old).failures < 2 ^ 64 - 1 }
    ensures { IsFileAnswer E.seen err.old err.new asked.now.explain result }
{
    if write_text(err, b"file\n").is_err() || !asked.explain {
        return 5;
    }
    let Ok(text) = explain_unread(alloc, asked.file.as_str(), kind) else {
        return 5;
    };
    let _ = write_text(err, text.as_bytes());
    5
}

/// Writes the answer if there is nothing to run: the help to `out`, and anything else to `err`. Returns the exit
/// status.
///
/// The status is 0 for the help, 5 for wrong words, otherwise the status of the fault. If the help cannot be written,
/// the fault's line is written to `err`, and the status is 7. A failed write to `err` changes nothing.
pub fn say<W: Sink, E: Sink>(said: &Said, out: &mut W, err: &mut E) -> u8
    requires out { (W.seen out.old).failures < 2 ^ 64 - 1 }
    requires err { (E.seen err.old).failures < 2 ^ 64 - 1 }
    ensures { IsSaidAnswer W.seen out.old out.new E.seen err.old err.new said.now result }
{
    match said {
        Said::Help(text) => match write_text(out, text.as_bytes()) {
            Ok(()) => 0,
            Err(fault) => refuse(&fault, err),
        },
        Said::Misuse(text) => {
            let _ = write_text(err, text.as_bytes());
            5
        }
        Said::Fault(fault) => refuse(fault, err),
    }
}

/// Writes the answer if there is nothing to run, like `say`. After the line of a fault it also writes which of these words
/// have the fault.
pub fn say_why<W: Sink, E: Sink>(
    alloc: Global,
    words: &[String],
    said: &Said,
    out: &mut W,
    err: &mut E,
) -> u8
    requires out { (W.seen out.old).failures < 2 ^ 64 - 1 }
    requires err { (E.seen err.old).failures < 2 ^ 64 - 1 }
    ensures { IsWhyAnswer W.seen out.old out.new E.seen err.old err.new said.now result }
{
    match said {
        Said::Fault(fault) => tell_words(alloc, words, fault, err),
        Said::Help(_) | Said::Misuse(_) => say(said, out, err),
    }
}

/// Writes the line of a fault to `err` and returns the exit status. A failed write changes nothing.
pub fn refuse<E: Sink>(fault: &Fault, err: &mut E) -> u8
    requires { (E.seen err.old).failures < 2 ^ 64 - 1 }
    ensures { IsFaultReport E.seen err.old err.new fault.now result }
{
    let _ = write_fault(err, fault);
    fault.status()
}
