//! Writers that count the writes that failed.

ghost use Rattle.std.specs.Prelude.{◌≡◌, ◌<◌, ◌-◌, ◌^◌};
ghost use Rattle.std.specs.Io.{WritesAtMost};
ghost use Rattle.cw_report.specs.Seen.{Seen};
ghost use Rattle.cw_report.specs.Sinks.{Puts};

use std::io;
use std::io::Write;

/// A writer that reports the number of its failed writes. A write that takes 0 bytes counts as failed, also if it has
/// no bytes to take.
pub trait Sink: Write {
    ghost seen: { Self → Seen };

    /// Returns the number of writes that failed so far.
    fn failures(&self) -> u64
        ensures { result ≡ (seen self.now).failures };

    /// Writes once, and returns the number of bytes that were taken, from the front of `bytes`. If the write fails,
    /// none was taken. If it fails or takes 0 bytes, `failures` increases by one.
    ///
    /// Requires that fewer than 2^64 - 1 writes failed before.
    fn put(&mut self, bytes: &[u8]) -> io::Result<usize>
        requires { (seen self.old).failures < 2 ^ 64 - 1 }
        ensures bound { WritesAtMost result bytes.now }
        ensures puts { Puts (seen self.old) (seen self.new) bytes.now result };
}
