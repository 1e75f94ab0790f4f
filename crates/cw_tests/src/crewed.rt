//! Runs by a crew in which another worker executes a part, and crews that are too large.

use crate::program::{asked, told_by};
use cw_cli::{analyse, crew_of};
use cw_model::burden::{Burden, Edges};
use cw_pool::crew::Serving;
use cw_pool::gate::{Gate, Moment, Quiet};
use cw_pool::run::MOST_BODIES;
use cw_report::Counted;
use cw_text::Fault;
use cw_words::{Mode, Options};
use std::alloc::AllocError;
use std::process::Abort;
use std::sync::atomic::{AtomicU64, Ordering};
use std::sync::{Arc, Wait};
use std::test::Fail;
use std::thread::Threads;

// The maximum number of iterations for which worker 0 is held.
const MOST_TURNS: u64 = 100_000_000;

// Holds worker 0 at its offer until another worker has settled that job.
#[derive(Drop)]
struct Helped {
    settled: AtomicU64,
}

impl Helped {
    // Returns the number of jobs that the other workers have settled.
    fn settled(&self) -> u64 {
        self.settled.load(Ordering::SeqCst)
    }

    // Waits until a job was settled.
    fn hold(&self) {
        for _turn in 0..MOST_TURNS {
            if self.settled() > 0 {
                return;
            }
        }
    }
}

impl Gate for Helped {
    fn turn(&self, worker: usize, what: Moment) {
        match what {
            Moment::Offered => {
                if worker == 0 {
                    self.hold();
                }
            }
            Moment::Settled => {
                if worker != 0 {
                    self.settled.fetch_add(1, Ordering::SeqCst);
                }
            }
            _ => {}
        }
    }
}

// Prints 1 in the spawned call and 2 in the continuation.
const PRINTS: &[u8] =
    b"void f() { print(1); } int main(int n) { cilk_spawn f(); print(2); cilk_sync; return n; }";

// Returns the options of a run in this mode.
fn options_of(mode: Mode) -> Options {
    Options {
        mode,
        limit: 1000,
        burden: Burden {
            charge: 3,
            edges: Edges::Spawn,
        },
        table: false,
    }
}

// Returns what two workers write for the argument 42, and how many jobs the second worker has settled.
fn by_two<R: AllocGlobal + Threads + Wait + Copy + Drop + Send + 'static>(
    rt: R,
    mode: Mode,
) -> Result<(Vec<u8>, u64), Fail> {
    let alloc = rt.alloc();
    let gate = Arc::new(
        alloc,
        Helped {
            settled: AtomicU64::new(0),
        },
    )?;
    let told = Arc::try_clone(&gate)?;
    let crew = crew_of(alloc, rt, 2)?;
    let mut out = Counted::new(Vec::new(alloc));
    analyse(
        &rt,
        alloc,
        PRINTS,
        &[42],
        options_of(mode),
        crew,
        gate,
        &mut out,
    )?;
    Ok((out.into_inner(), told.settled()))
}

// While worker 0 is held at its only offer, the other worker executes the continuation. The output of the
// continuation still follows the output of the spawned call.
#[test]
fn a_rest_is_run_by_the_other_worker(rt: HostRuntime) -> Result<(), Fail> {
    let (out, settled) = by_two(rt, Mode::Run)?;
    assert!(rt; settled == 1);
    assert!(rt; out.as_slice() == "1\n2\nreturn 42\n".as_bytes());
    Ok(())
}

// The other worker also executes the continuation of a measured run.
#[test]
fn a_rest_is_measured_by_the_other_worker(rt: HostRuntime) -> Result<(), Fail> {
    let (_, settled) = by_two(rt, Mode::Scale)?;
    assert!(rt; settled == 1);
    Ok(())
}

// The modes.
const MODES: &[Mode] = &[
    Mode::Check,
    Mode::Run,
    Mode::Scale,
    Mode::Sites,
    Mode::Gain(1),
    Mode::Greedy(1),
    Mode::Speedup(1),
    Mode::Page {
        top: 1,
        processors: 1,
    },
];

// Returns a crew with one body more than a run may have.
fn crowd<R: AllocGlobal + Wait + Copy + Drop>(rt: R) -> Result<Vec<Serving<R>>, AllocError> {
    let mut crew = Vec::new(rt.alloc());
    for _body in 0..=MOST_BODIES {
        crew.push(Serving(rt))?;
    }
    Ok(crew)
}

// Returns whether such a crew is rejected in this mode, and nothing is written.
fn is_rejected<R: AllocGlobal + Threads + Wait + Copy + Drop + Send + 'static>(
    rt: R,
    mode: Mode,
) -> Result<bool, Fail> {
    let alloc = rt.alloc();
    let gate = Arc::new(alloc, Quiet)?;
    let crew = crowd(rt)?;
    let mut out = Counted::new(Vec::new(alloc));
    let answered = analyse(
        &rt,
        alloc,
        PRINTS,
        &[42],
        options_of(mode),
        crew,
        gate,
        &mut out,
    );
    Ok(answered == Err(Fault::Arguments) && out.into_inner().is_empty())
}

// The crew is rejected in each mode, also in a mode that does not run the program.
#[test]
fn a_crew_that_is_too_large_is_refused(rt: HostRuntime) -> Result<(), Fail> {
    for mode in MODES {
        assert!(rt; is_rejected(rt, *mode)?);
    }
    Ok(())
}

// The program reports the error on standard error.
#[test]
fn a_crew_that_is_too_large_is_told(rt: HostRuntime) -> Result<(), Fail> {
    let asked = asked(rt.alloc(), "run f 42")?;
    let told = told_by(rt, &asked, PRINTS, crowd(rt)?)?;
    assert!(rt; told.is(5, "", "", "arguments\n"));
    Ok(())
}
