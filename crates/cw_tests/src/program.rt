//! The whole program, in memory.

use cw_cli::{crew_of, say, say_why, tool};
use cw_pool::crew::Serving;
use cw_pool::gate::Quiet;
use cw_report::Counted;
use cw_words::{Request, Said, is_version, request, take_explain, version};
use std::alloc::{AllocError, Global};
use std::process::Abort;
use std::sync::{Arc, Wait};
use std::test::Fail;
use std::thread::Threads;

/// A test case: the words, the source, and the expected exit status, standard output and standard error.
pub type Row = (&'static str, &'static str, u8, &'static str, &'static str);

/// The exit status, standard output and standard error.
#[derive(Drop)]
pub struct Output {
    pub status: u8,
    pub out: Vec<u8>,
    pub err: Vec<u8>,
}

impl Output {
    /// Returns whether the status is `status`, standard output is `head` followed by `out`, and standard error is
    /// `err`.
    pub fn is(&self, status: u8, head: &str, out: &str, err: &str) -> bool {
        let rest = self.out.as_slice().strip_prefix(head.as_bytes());
        self.status == status
            && rest == Some(out.as_bytes())
            && self.err.as_slice() == err.as_bytes()
    }
}

// Returns the words of a line.
fn words_of(alloc: Global, line: &str) -> Result<Vec<String>, AllocError> {
    let mut words = Vec::new(alloc);
    for word in line.split_whitespace() {
        words.push(word.to_string(alloc)?)?;
    }
    Ok(words)
}

/// Returns the request that the words of a line make.
pub fn asked(alloc: Global, line: &str) -> Result<Request, Fail> {
    let words = words_of(alloc, line)?;
    request(alloc, words.as_slice()).map_err(|_| Fail::from("the words make no request"))
}

// Returns what the program prints instead of running, with an explanation of a fault of these words if `explain`
// holds.
fn said(alloc: Global, said: &Said, words: &[String], explain: bool) -> Output {
    let mut out = Counted::new(Vec::new(alloc));
    let mut err = Counted::new(Vec::new(alloc));
    let status = if explain {
        say_why(alloc, words, said, &mut out, &mut err)
    } else {
        say(said, &mut out, &mut err)
    };
    Output {
        status,
        out: out.into_inner(),
        err: err.into_inner(),
    }
}

// Returns the outcome of a request on this source.
fn told_of<R: AllocGlobal + Threads + Wait + Copy + Drop + Send + 'static>(
    rt: R,
    asked: &Request,
    source: &[u8],
) -> Result<Output, Fail> {
    let crew = crew_of(rt.alloc(), rt, asked.workers)?;
    told_by(rt, asked, source, crew)
}

/// Returns the outcome of a request on this source by this crew.
pub fn told_by<R: AllocGlobal + Threads + Wait + Copy + Drop + Send + 'static>(
    rt: R,
    asked: &Request,
    source: &[u8],
    crew: Vec<Serving<R>>,
) -> Result<Output, Fail> {
    let alloc = rt.alloc();
    let gate = Arc::new(alloc, Quiet)?;
    let mut source = Counted::new(source);
    let mut out = Counted::new(Vec::new(alloc));
    let mut err = Counted::new(Vec::new(alloc));
    let status = tool(
        &rt,
        alloc,
        asked,
        &mut source,
        crew,
        gate,
        &mut out,
        &mut err,
    );
    Ok(Output {
        status,
        out: out.into_inner(),
        err: err.into_inner(),
    })
}

/// Returns the outcome of the program for these words, if the file that they name is this source.
pub fn answer<R: AllocGlobal + Threads + Wait + Copy + Drop + Send + 'static>(
    rt: R,
    line: &str,
    source: &[u8],
) -> Result<Output, Fail> {
    let alloc = rt.alloc();
    let mut words = words_of(alloc, line)?;
    let explain = take_explain(&mut words);
    if is_version(words.as_slice()) {
        return Ok(said(alloc, &version(alloc), &[], false));
    }
    match request(alloc, words.as_slice()) {
        Ok(mut asked) => {
            asked.explain = explain;
            told_of(rt, &asked, source)
        }
        Err(instead) => Ok(said(alloc, &instead, words.as_slice(), explain)),
    }
}

/// Returns whether the program has this status and prints these texts to standard output and standard error.
pub fn answers<R: AllocGlobal + Threads + Wait + Copy + Drop + Send + 'static>(
    rt: R,
    words: &str,
    source: &[u8],
    status: u8,
    out: &str,
    err: &str,
) -> Result<bool, Fail> {
    let told = answer(rt, words, source)?;
    Ok(told.is(status, "", out, err))
}

// Returns whether a test case holds with these words appended to its own, and with this head before its standard
// output.
fn holds<R: AllocGlobal + Threads + Wait + Copy + Drop + Send + 'static>(
    rt: R,
    more: &str,
    head: &str,
    row: &Row,
) -> Result<bool, Fail> {
    let mut words = row.0.to_string(rt.alloc())?;
    words.push_str(more)?;
    let told = answer(rt, words.as_str(), row.1.as_bytes())?;
    Ok(told.is(row.2, head, row.3, row.4))
}

/// Checks that each of these test cases holds with these words appended to its own, and with this head before its
/// standard output.
pub fn all_hold_with<R: Abort + AllocGlobal + Threads + Wait + Copy + Drop + Send + 'static>(
    rt: R,
    more: &str,
    head: &str,
    rows: &[Row],
) -> Result<(), Fail> {
    for row in rows {
        let holds = holds(rt, more, head, row)?;
        assert!(rt; holds, "{}{more}: {}", row.0, row.1);
    }
    Ok(())
}

/// Checks that each of these test cases holds.
pub fn all_hold<R: Abort + AllocGlobal + Threads + Wait + Copy + Drop + Send + 'static>(
    rt: R,
    rows: &[Row],
) -> Result<(), Fail> {
    all_hold_with(rt, "", "", rows)
}

// The numbers of workers to try in addition to the default, which is two.
const WORKERS: [&str; 4] = ["", " --workers 1", " --workers 4", " --workers 64"];

/// Checks that each of these test cases, whose words run a program, holds with this head before its standard output,
/// by two workers, and by 1, 4 and 64.
pub fn all_hold_by_all<R: Abort + AllocGlobal + Threads + Wait + Copy + Drop + Send + 'static>(
    rt: R,
    head: &str,
    rows: &[Row],
) -> Result<(), Fail> {
    for workers in WORKERS {
        all_hold_with(rt, workers, head, rows)?;
    }
    Ok(())
}
