//! Sinks that fail in the middle of a report, and sources that cannot be read.

ghost use Rattle.std.specs.Prelude.{◌<◌, ◌-◌, ◌^◌, Some};

use crate::program::asked;
use cw_cli::{crew_of, tool};
use cw_pool::gate::Quiet;
use cw_report::{Counted, Input, Sink};
use cw_words::Request;
use std::io;
use std::io::{Read, Write};
use std::process::Abort;
use std::sync::{Arc, Wait};
use std::test::Fail;
use std::thread::Threads;

// A sink that takes `room` bytes, and then fails or takes none.
#[derive(Drop)]
struct Narrow {
    taken: Vec<u8>,
    room: usize,
    fails: bool,
}

impl Write for Narrow {
    ghost contents = { λ w. Some w.taken.items };

    fn write(&mut self, bytes: &[u8]) -> io::Result<usize> {
        let n = bytes.len().min(self.room);
        if n == 0 && self.fails {
            return Err(io::Error::from(io::ErrorKind::BrokenPipe));
        }
        self.taken.extend_from_slice(&bytes[..n])?;
        self.room -= n;
        Ok(n)
    }

    fn flush(&mut self) -> io::Result<()> {
        Ok(())
    }
}

// A source that fails at the first read.
#[derive(Drop)]
struct Broken {
    kind: io::ErrorKind,
}

impl Read for Broken {
    fn read(&mut self, _bytes: &mut [u8]) -> io::Result<usize> {
        Err(io::Error::from(self.kind))
    }
}

// Returns the status of the program with the requested number of workers.
fn tool_by_crew<
    R: AllocGlobal + Threads + Wait + Copy + Drop + Send + 'static,
    D: Input,
    W: Sink,
    E: Sink,
>(rt: R, asked: &Request, source: &mut D, out: &mut W, err: &mut E) -> Result<u8, Fail>
    requires out { (W.seen out.old).failures < 2 ^ 64 - 1 }
    requires err { (E.seen err.old).failures < 2 ^ 64 - 1 }
{
    let alloc = rt.alloc();
    let crew = crew_of(alloc, rt, asked.workers)?;
    let gate = Arc::new(alloc, Quiet)?;
    Ok(tool(&rt, alloc, asked, source, crew, gate, out, err))
}

// The outcome of a report to a narrow sink.
#[derive(Drop)]
struct SinkOutcome {
    status: u8,
    failures: u64,
    out: Vec<u8>,
    err: Vec<u8>,
}

// Spawns a call for the value that it returns.
const SPAWNS: &[u8] =
    b"int f(int n) { return n; } int main(int n) { int x = 0; x = cilk_spawn f(n); cilk_sync; return x; }";

// Reports the value 42, or a check, to a sink with this room.
fn report<R: AllocGlobal + Threads + Wait + Copy + Drop + Send + 'static>(
    rt: R,
    words: &str,
    room: usize,
    fails: bool,
) -> Result<SinkOutcome, Fail> {
    let alloc = rt.alloc();
    let asked = asked(alloc, words)?;
    let mut source = Counted::new(SPAWNS);
    let taken = Vec::new(alloc);
    let mut out = Counted::new(Narrow { taken, room, fails });
    let mut err = Counted::new(Vec::new(alloc));
    let status = tool_by_crew(rt, &asked, &mut source, &mut out, &mut err)?;
    Ok(SinkOutcome {
        status,
        failures: out.failures(),
        out: out.into_inner().taken,
        err: err.into_inner(),
    })
}

impl SinkOutcome {
    // Returns whether the outcome is this one.
    fn is(&self, status: u8, failures: u64, out: &[u8], err: &str) -> bool {
        self.status == status
            && self.failures == failures
            && self.out.as_slice() == out
            && self.err.as_slice() == err.as_bytes()
    }
}

// Returns whether a sink with this room takes the whole report.
fn is_taken<R: AllocGlobal + Threads + Wait + Copy + Drop + Send + 'static>(
    rt: R,
    words: &str,
    text: &str,
    room: usize,
    fails: bool,
) -> Result<bool, Fail> {
    let told = report(rt, words, room, fails)?;
    Ok(told.is(0, 0, text.as_bytes(), ""))
}

// Returns whether a sink with room for these bytes takes exactly them, and the failure is reported.
fn is_cut<R: AllocGlobal + Threads + Wait + Copy + Drop + Send + 'static>(
    rt: R,
    words: &str,
    first: &[u8],
    fails: bool,
) -> Result<bool, Fail> {
    let told = report(rt, words, first.len(), fails)?;
    Ok(told.is(7, 1, first, "write failed\n"))
}

// Rooms that are sufficient, and whether the sink fails after they are used up.
const ENOUGH: [(usize, bool); 4] = [(10, true), (10, false), (11, true), (11, false)];

fn all_is_taken<R: Abort + AllocGlobal + Threads + Wait + Copy + Drop + Send + 'static>(
    rt: R,
    words: &str,
    rooms: &[(usize, bool)],
) -> Result<(), Fail> {
    for (room, fails) in rooms {
        let is_taken = is_taken(rt, words, "return 42\n", *room, *fails)?;
        assert!(rt; is_taken, "{words}: {room}");
    }
    Ok(())
}

#[test]
fn reports_where_there_is_room(rt: HostRuntime) -> Result<(), Fail> {
    all_is_taken(rt, "run f 42 --workers 1", &ENOUGH)?;
    all_is_taken(rt, "run f 42 --workers 4", &ENOUGH)
}

// Checks each room that is not sufficient.
fn each_is_cut<R: Abort + AllocGlobal + Threads + Wait + Copy + Drop + Send + 'static>(
    rt: R,
    words: &str,
    text: &str,
) -> Result<(), Fail> {
    for room in 0..text.len() {
        let first = &text.as_bytes()[..room];
        let is_cut_by_failure = is_cut(rt, words, first, true)?;
        let is_cut_by_none = is_cut(rt, words, first, false)?;
        assert!(rt; is_cut_by_failure && is_cut_by_none, "{words}: {room}");
    }
    Ok(())
}

#[test]
fn reports_to_narrow_sinks(rt: HostRuntime) -> Result<(), Fail> {
    each_is_cut(rt, "run f 42 --workers 1", "return 42\n")?;
    each_is_cut(rt, "run f 42 --workers 4", "return 42\n")?;
    each_is_cut(rt, "check f", "ok\n")
}

// Returns whether a source that fails in this way at its first read has this status, this number of failed reads and
// this line on standard error, and nothing on standard output.
fn is_told_of<R: AllocGlobal + Threads + Wait + Copy + Drop + Send + 'static>(
    rt: R,
    kind: io::ErrorKind,
    status: u8,
    failures: u64,
    line: &str,
) -> Result<bool, Fail> {
    let alloc = rt.alloc();
    let asked = asked(alloc, "run f")?;
    let mut out = Counted::new(Vec::new(alloc));
    let mut err = Counted::new(Vec::new(alloc));
    let mut source = Counted::new(Broken { kind });
    let got = tool_by_crew(rt, &asked, &mut source, &mut out, &mut err)?;
    Ok(
        got == status
            && source.failed_reads() == failures
            && out.into_inner().is_empty()
            && err.into_inner().as_slice() == line.as_bytes(),
    )
}

#[test]
fn tells_of_unread_sources(rt: HostRuntime) -> Result<(), Fail> {
    let is_told = is_told_of(rt, io::ErrorKind::PermissionDenied, 5, 1, "file\n")?;
    assert!(rt; is_told);
    Ok(())
}

#[test]
fn tells_of_want_of_memory(rt: HostRuntime) -> Result<(), Fail> {
    let is_told = is_told_of(rt, io::ErrorKind::OutOfMemory, 6, 0, "memory\n")?;
    assert!(rt; is_told);
    Ok(())
}

// Returns the status for an empty source, and what standard error takes of its line with room for 9 bytes.
fn refused_narrowly<R: AllocGlobal + Threads + Wait + Copy + Drop + Send + 'static>(
    rt: R,
) -> Result<SinkOutcome, Fail> {
    let alloc = rt.alloc();
    let asked = asked(alloc, "run f")?;
    let mut out = Counted::new(Vec::new(alloc));
    let mut err = Counted::new(Narrow {
        taken: Vec::new(alloc),
        room: 9,
        fails: true,
    });
    let mut source = Counted::new(b"".as_slice());
    let status = tool_by_crew(rt, &asked, &mut source, &mut out, &mut err)?;
    Ok(SinkOutcome {
        status,
        failures: err.failures(),
        out: out.into_inner(),
        err: err.into_inner().taken,
    })
}

#[test]
fn keeps_its_status_where_the_line_is_not_taken(rt: HostRuntime) -> Result<(), Fail> {
    let told = refused_narrowly(rt)?;
    assert!(rt; told.is(2, 1, b"", "refused 2"));
    Ok(())
}
