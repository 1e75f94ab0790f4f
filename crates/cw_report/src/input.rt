//! Readers that count the reads that failed, unless memory ran out.

ghost use Rattle.std.specs.Prelude.{◌≡◌, ℕ};

use std::io::Read;

/// A reader that reports the number of its failed reads. A read that fails because memory runs out is not counted.
pub trait Input: Read {
    ghost failed: { Self → ℕ };

    /// Returns the number of reads that failed so far for another reason than that memory ran out.
    fn failed_reads(&self) -> u64
        ensures { result ≡ failed self.now };
}
