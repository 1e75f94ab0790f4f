//! The program `cilkwork`: reads its words, opens the source, and prints the report.
#![tactic(auto)]

ghost use Rattle.std.specs.Prelude.{◌≡◌, ◌<◌, ◌-◌, ◌^◌};
ghost use Rattle.std.specs.IoError.{error_kind};
ghost use Rattle.cilkwork.specs.Words.{unread_fault};

use cw_cli::{crew_of, refuse, say, say_why, tool, unread};
use cw_pool::gate::Quiet;
use cw_report::{Counted, Input, Sink};
use cw_text::Fault;
use cw_words::{Request, is_version, request, take_explain, version};
use std::alloc::Global;
use std::fs::File;
use std::io::ErrorKind;
use std::process::ExitCode;
use std::rt::Env;
use std::sync::{Arc, Wait};
use std::thread::Threads;
use std::{env, io};

/// The word that names standard input in the place of a file.
const STANDARD_INPUT: &str = "-";

fn main(rt: HostRuntime) -> ExitCode {
    let alloc = rt.alloc();
    let mut out = Counted::new(io::writer(&rt));
    let mut err = Counted::new(rt.stderr());
    let status = match words_of(&rt, alloc) {
        Err(fault) => refuse(&fault, &mut err),
        Ok(words) => {
            let mut words = words;
            let explain = take_explain(&mut words);
            if words.is_empty() {
                let mut asked = Request::of_standard_input(alloc);
                asked.explain = explain;
                let mut source = Counted::new(rt.reader());
                answer(&rt, alloc, &asked, &mut source, &mut out, &mut err)
            } else if is_version(words.as_slice()) {
                say(&version(alloc), &mut out, &mut err)
            } else {
                match request(alloc, words.as_slice()) {
                    Err(said) if explain => {
                        say_why(alloc, words.as_slice(), &said, &mut out, &mut err)
                    }
                    Err(said) => say(&said, &mut out, &mut err),
                    Ok(asked) if asked.file.as_str() == STANDARD_INPUT => {
                        let mut asked = asked;
                        asked.explain = explain;
                        asked.file = String::new(alloc);
                        let mut source = Counted::new(rt.reader());
                        answer(&rt, alloc, &asked, &mut source, &mut out, &mut err)
                    }
                    Ok(asked) => {
                        let mut asked = asked;
                        asked.explain = explain;
                        match File::open(&rt, asked.file.as_str()) {
                            Err(error) => unread(alloc, &asked, &error, &mut err),
                            Ok(file) => {
                                let mut source = Counted::new(file);
                                answer(&rt, alloc, &asked, &mut source, &mut out, &mut err)
                            }
                        }
                    }
                }
            }
        }
    };
    ExitCode::from(status)
}

// Analyses a source with the requested number of workers and returns the exit status. There is one such function for
// each kind of source, and one for the words: the length of `main` decides where the loops of a run are placed, and
// so the time of calls with measures.
#[inline(never)]
fn answer<R: Threads + Wait + Copy + Drop + Send + 'static, D: Input, W: Sink, E: Sink>(
    rt: &R,
    alloc: Global,
    asked: &Request,
    source: &mut D,
    out: &mut W,
    err: &mut E,
) -> u8
    requires out { (W.seen out.old).failures < 2 ^ 64 - 1 }
    requires err { (E.seen err.old).failures < 2 ^ 64 - 1 }
{
    let Ok(crew) = crew_of(alloc, *rt, asked.workers) else {
        return refuse(&Fault::Memory, err);
    };
    let Ok(gate) = Arc::new(alloc, Quiet) else {
        return refuse(&Fault::Memory, err);
    };
    tool(rt, alloc, asked, source, crew, gate, out, err)
}

// Returns the words after the program's own name.
#[inline(never)]
fn words_of(rt: &(impl Env + AllocGlobal), alloc: Global) -> Result<Vec<String>, Fault> {
    match env::args(rt) {
        Ok(args) => Ok(args.skip(1).collect(alloc)?),
        Err(error) => Err(unread_words(&error)),
    }
}

// Returns the fault of words that cannot be read.
fn unread_words(error: &io::Error) -> Fault
    ensures { result ≡ unread_fault (error_kind error.now) }
{
    match error.kind() {
        ErrorKind::OutOfMemory => Fault::Memory,
        _ => Fault::Arguments,
    }
}
