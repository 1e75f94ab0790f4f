//! Readers and writers that count the calls that failed.

ghost use Rattle.std.specs.Prelude.{◌≡◌};
ghost use Rattle.std.specs.Io.{ReadsAtMost, WritesAtMost};
ghost use Rattle.std.specs.Io.KnownBytes.{Keeps};
ghost use Rattle.cw_report.specs.Counters.{AppendsBehind, ConsumesBehind, CountsReads, CountsWrites, failures_of, inner_of};

use crate::input::Input;
use crate::sink::Sink;
use std::io;
use std::io::{ErrorKind, Read, Write};

/// A reader or a writer with the number of its calls that failed. It is an input if it wraps a reader and a sink if
/// it wraps a writer, and makes one call for each of its own calls. A flush that fails is not counted, nor a read
/// that fails because memory runs out.
#[derive(Drop)]
pub struct Counted<T> {
    inner: T,
    failures: u64,
}

impl<T> Counted<T> {
    /// Wraps a reader or writer. The count of failed calls is 0.
    pub fn new(inner: T) -> Self
        ensures inner { inner_of result ≡ inner }
        ensures none_failed { failures_of result ≡ 0 }
    {
        Counted { inner, failures: 0 }
    }

    /// Returns the reader or writer, as the calls left it.
    pub fn into_inner(self) -> T
        ensures { result ≡ inner_of self }
    {
        let Counted { inner, failures: _ } = self;
        inner
    }
}

impl<W: Write> Write for Counted<W> {
    ghost contents = { λ c. W.contents c.inner };

    fn write(&mut self, bytes: &[u8]) -> io::Result<usize>
        ensures bound { WritesAtMost result bytes.now }
        ensures bytes { AppendsBehind W.contents self.old self.new result bytes.now }
        ensures count { CountsWrites self.old self.new result }
    {
        let result = self.inner.write(bytes);
        match result {
            Ok(n) if 0 < n => {}
            _ => self.failures = self.failures.saturating_add(1),
        }
        result
    }

    fn flush(&mut self) -> io::Result<()>
        ensures bytes { Keeps (W.contents (inner_of self.old)) (W.contents (inner_of self.new)) }
        ensures count { failures_of self.new ≡ failures_of self.old }
    {
        self.inner.flush()
    }
}

impl<W: Write> Sink for Counted<W> {
    ghost use Rattle.cw_report.specs.Seen.{seen_as};

    ghost seen = { λ c. seen_as (W.contents c.inner) c.failures };

    fn failures(&self) -> u64 {
        self.failures
    }

    fn put(&mut self, bytes: &[u8]) -> io::Result<usize> {
        self.write(bytes)
    }
}

impl<R: Read> Read for Counted<R> {
    ghost remaining = { λ c. R.remaining c.inner };

    fn read(&mut self, bytes: &mut [u8]) -> io::Result<usize>
        ensures bound { ReadsAtMost result bytes.new }
        ensures bytes { ConsumesBehind R.remaining self.old self.new result bytes.new }
        ensures count { CountsReads self.old self.new result }
    {
        let result = self.inner.read(bytes);
        match &result {
            Err(error) if error.kind() != ErrorKind::OutOfMemory => {
                self.failures = self.failures.saturating_add(1);
            }
            _ => {}
        }
        result
    }
}

impl<R: Read> Input for Counted<R> {
    ghost failed = { λ c. c.failures };

    fn failed_reads(&self) -> u64 {
        self.failures
    }
}
