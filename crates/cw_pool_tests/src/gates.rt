//! Gates that hold workers, and crews of bodies that serve or return.

use cw_pool::crew::{Body, Helper};
use cw_pool::gate::{Gate, Moment};
use std::alloc::{AllocError, Global};
use std::sync::Wait;
use std::sync::atomic::{AtomicU64, Ordering};

/// The maximum number of iterations of a hold.
const MOST_TURNS: u64 = 100_000_000;

/// Holds worker 0 at each offer, or at its first offer, until the number of jobs that worker 1 has settled is at
/// least the number that worker 0 has offered.
#[derive(Drop)]
pub struct Holder {
    only_first: bool,
    offered: AtomicU64,
    all_offered: AtomicU64,
    settled: AtomicU64,
    used_up: AtomicU64,
}

impl Holder {
    pub fn new(only_first: bool) -> Holder {
        Holder {
            only_first,
            offered: AtomicU64::new(0),
            all_offered: AtomicU64::new(0),
            settled: AtomicU64::new(0),
            used_up: AtomicU64::new(0),
        }
    }

    /// Returns the number of jobs that all workers have offered.
    pub fn all_offered(&self) -> u64 {
        self.all_offered.load(Ordering::SeqCst)
    }

    /// Returns the number of jobs that worker 1 has settled.
    pub fn settled(&self) -> u64 {
        self.settled.load(Ordering::SeqCst)
    }

    /// Returns the number of holds that reached their maximum length.
    pub fn used_up(&self) -> u64 {
        self.used_up.load(Ordering::SeqCst)
    }

    // Waits until `wanted` jobs were settled.
    fn hold(&self, wanted: u64) {
        for _turn in 0..MOST_TURNS {
            if self.settled.load(Ordering::SeqCst) >= wanted {
                return;
            }
        }
        self.used_up.fetch_add(1, Ordering::SeqCst);
    }
}

impl Gate for Holder {
    fn turn(&self, worker: usize, what: Moment) {
        match what {
            Moment::Offered => {
                self.all_offered.fetch_add(1, Ordering::SeqCst);
                if worker == 0 {
                    let before = self.offered.fetch_add(1, Ordering::SeqCst);
                    if before == 0 || !self.only_first {
                        self.hold(before.wrapping_add(1));
                    }
                }
            }
            Moment::Settled => {
                if worker == 1 {
                    self.settled.fetch_add(1, Ordering::SeqCst);
                }
            }
            _ => {}
        }
    }
}

/// Holds worker 0 at its first offer until another worker has stolen that job.
#[derive(Drop)]
pub struct Robbed {
    offered: AtomicU64,
    stolen: AtomicU64,
}

impl Robbed {
    pub fn new() -> Robbed {
        Robbed {
            offered: AtomicU64::new(0),
            stolen: AtomicU64::new(0),
        }
    }

    /// Returns the number of jobs that the other workers have stolen.
    pub fn stolen(&self) -> u64 {
        self.stolen.load(Ordering::SeqCst)
    }

    // Waits until a job was stolen.
    fn hold(&self) {
        for _turn in 0..MOST_TURNS {
            if self.stolen() > 0 {
                return;
            }
        }
    }
}

impl Gate for Robbed {
    fn turn(&self, worker: usize, what: Moment) {
        match what {
            Moment::Offered => {
                if worker == 0 && self.offered.fetch_add(1, Ordering::SeqCst) == 0 {
                    self.hold();
                }
            }
            Moment::Stolen => {
                self.stolen.fetch_add(1, Ordering::SeqCst);
            }
            _ => {}
        }
    }
}

/// A worker is held at one of this number of moments, for fewer iterations than `FEW_ITERATIONS`.
const SELDOM: u64 = 4;

const FEW_ITERATIONS: u64 = 4096;

/// Holds any worker at about every fourth of its moments, for a while. A small random generator with a given seed
/// decides when and how long.
#[derive(Drop)]
pub struct Stumbling {
    state: AtomicU64,
    held: AtomicU64,
}

impl Stumbling {
    pub fn new(seed: u64) -> Stumbling {
        Stumbling {
            state: AtomicU64::new(seed),
            held: AtomicU64::new(0),
        }
    }

    /// Returns how often it has held a worker.
    pub fn held(&self) -> u64 {
        self.held.load(Ordering::SeqCst)
    }

    // Returns the next random number: the state increases by an odd number, and is mixed.
    fn next(&self) -> u64 {
        let state = self
            .state
            .fetch_add(0x9E37_79B9_7F4A_7C15, Ordering::SeqCst);
        let once = (state ^ (state >> 30)).wrapping_mul(0xBF58_476D_1CE4_E5B9);
        let twice = (once ^ (once >> 27)).wrapping_mul(0x94D0_49BB_1331_11EB);
        twice ^ (twice >> 31)
    }
}

impl Gate for Stumbling {
    fn turn(&self, _worker: usize, _what: Moment) {
        let random = self.next();
        if random % SELDOM == 0 {
            let turns = self.held.fetch_add(1, Ordering::SeqCst);
            for _turn in 0..(random >> 32) % FEW_ITERATIONS {
                if self.held.load(Ordering::SeqCst) < turns {
                    return;
                }
            }
        }
    }
}

/// A body that serves, or returns at once.
#[derive(Drop)]
pub enum Hand<R> {
    Serves(R),
    Returns,
}

impl<G: Gate + Drop, R: Wait + Drop> Body<G> for Hand<R> {
    fn begin(self, helper: Helper<G>) {
        match self {
            Hand::Serves(rt) => helper.serve(&rt),
            Hand::Returns => drop(helper),
        }
    }
}

/// Returns `bodies` bodies that serve.
pub fn serving<R: Wait + Copy + Drop>(
    alloc: Global,
    rt: R,
    bodies: usize,
) -> Result<Vec<Hand<R>>, AllocError> {
    let mut crew = Vec::new(alloc);
    for _k in 0..bodies {
        crew.push(Hand::Serves(rt))?;
    }
    Ok(crew)
}

/// Returns `bodies` bodies that return at once.
pub fn idle<R: Drop>(alloc: Global, bodies: usize) -> Result<Vec<Hand<R>>, AllocError> {
    let mut crew = Vec::new(alloc);
    for _k in 0..bodies {
        crew.push(Hand::Returns)?;
    }
    Ok(crew)
}
