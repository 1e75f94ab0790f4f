//! The programs of examples/, each in all modes, compared with their expected reports. The comments of a program
//! derive what `run` prints, or another program computed it. The reports come from the independent implementation in
//! bench/reference, whose `examples.py` wrote the modules below this one.

mod collatz;
mod dot;
mod fib;
mod fib_cutoff;
mod histogram;
mod later;
mod longest;
mod matrix;
mod mergesort;
mod mergesort_parallel;
mod prefix;
mod primes;
mod primes_each;
mod primes_loop;
mod product;
mod quarters;
mod queens;
mod roots;
mod roots_mended;
mod spawned;
mod stencil;

use crate::program::answers;
use std::process::Abort;
use std::sync::Wait;
use std::test::Fail;
use std::thread::Threads;

// A program, the words that name its file and its arguments, and its reports.
pub struct Example {
    pub words: &'static str,
    pub source: &'static str,
    pub run: &'static str,
    pub scale: &'static str,
    pub sites: &'static str,
    pub gain: &'static str,
    pub greedy: &'static str,
    pub speedup: &'static str,
}

// Returns whether the program prints `wanted` for the example in this mode.
fn writes<R: AllocGlobal + Threads + Wait + Copy + Drop + Send + 'static>(
    rt: R,
    mode: &str,
    example: &Example,
    wanted: &str,
) -> Result<bool, Fail> {
    let mut words = String::from_str(rt.alloc(), mode)?;
    words.push_str(example.words)?;
    let source = example.source.as_bytes();
    answers(rt, words.as_str(), source, 0, wanted, "")
}

// Checks that the program prints `wanted` for the example in this mode.
fn reports<R: Abort + AllocGlobal + Threads + Wait + Copy + Drop + Send + 'static>(
    rt: R,
    mode: &str,
    example: &Example,
    wanted: &str,
) -> Result<(), Fail> {
    let writes = writes(rt, mode, example, wanted)?;
    assert!(rt; writes, "{mode}{}", example.words);
    Ok(())
}

// Checks that the example is accepted.
fn is_accepted<R: Abort + AllocGlobal + Threads + Wait + Copy + Drop + Send + 'static>(
    rt: R,
    example: &Example,
) -> Result<(), Fail> {
    let source = example.source.as_bytes();
    let is_accepted = answers(rt, "check example.cilk", source, 0, "ok\n", "")?;
    assert!(rt; is_accepted, "check {}", example.words);
    Ok(())
}

/// Checks that the example is accepted, and that each report is the expected one.
pub fn holds<R: Abort + AllocGlobal + Threads + Wait + Copy + Drop + Send + 'static>(
    rt: R,
    example: &Example,
) -> Result<(), Fail> {
    is_accepted(rt, example)?;
    reports(rt, "run ", example, example.run)?;
    reports(rt, "scale ", example, example.scale)?;
    reports(rt, "sites ", example, example.sites)?;
    reports(rt, "gain ", example, example.gain)?;
    reports(rt, "greedy 8 ", example, example.greedy)?;
    reports(rt, "speedup ", example, example.speedup)
}
