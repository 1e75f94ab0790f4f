//! The sign that a run is given up.
//!
//! While no strand of a run has trapped or exceeded the limit, each instruction that a worker executes is one of the serial
//! run. So if a strand has, or if all workers together have executed more instructions than the limit, nothing that they
//! have counted is reported. The run is given up: the workers stop, and one of them runs the code again. The sign may be
//! raised at any time and for any reason, because the result of that run is always right.

use crate::offers::Offers;
use crossbeam_utils::CachePadded;
use std::alloc::{AllocError, Global};
use std::sync::Arc;
use std::sync::atomic::{AtomicBool, AtomicU64, Ordering};

/// The number of instructions that a worker counts before it adds them to the shared count.
const LOT: u64 = 65_536;

/// The maximum number of bytes, both of the frames that wait on a worker and of its uncollected effects, at which it still
/// steals.
pub(crate) const BUDGET: u64 = 1_048_576;

/// An effect counts as fewer bytes than this.
const MOST_BYTES: u64 = 281_474_976_710_656;

/// Returns the entry of a cell in which a worker left an effect of this number of bytes.
#[inline(always)]
fn left_by(worker: usize, bytes: u64) -> u64 {
    (worker as u64)
        .saturating_mul(MOST_BYTES)
        .saturating_add(bytes)
}

/// Whether a run is given up, the instructions that each worker has counted, and the effects that nobody has collected. Each
/// worker's counter has its own cache line.
#[derive(Drop)]
pub struct Sign {
    up: CachePadded<AtomicBool>,
    told: Vec<CachePadded<AtomicU64>>,
    limit: u64,
    // The bytes of the effects that each worker has left and that nobody has collected.
    left: Vec<CachePadded<AtomicU64>>,
    // The effect that was left last in each cell of the yard.
    effects: Vec<AtomicU64>,
}

// Returns a counter for each worker.
fn counters(alloc: Global, workers: usize) -> Result<Vec<CachePadded<AtomicU64>>, AllocError> {
    let mut counters = Vec::with_capacity(alloc, workers)?;
    for _worker in 0..workers {
        counters.push(CachePadded::new(AtomicU64::new(0)))?;
    }
    Ok(counters)
}

impl Sign {
    /// Returns a sign that is not raised, for these numbers of workers and of cells for each worker, and for a run within
    /// `limit` instructions.
    ///
    /// # Errors
    ///
    /// `AllocError` if memory runs out.
    pub(crate) fn new(
        alloc: Global,
        workers: usize,
        cells: usize,
        limit: u64,
    ) -> Result<Sign, AllocError> {
        let told = counters(alloc, workers)?;
        let left = counters(alloc, workers)?;
        let count = workers.saturating_mul(cells);
        let mut effects = Vec::with_capacity(alloc, count)?;
        for _cell in 0..count {
            effects.push(AtomicU64::new(0))?;
        }
        Ok(Sign {
            up: CachePadded::new(AtomicBool::new(false)),
            told,
            limit,
            left,
            effects,
        })
    }

    /// Returns whether the run is given up.
    #[inline(always)]
    pub(crate) fn is_up(&self) -> bool {
        self.up.load(Ordering::SeqCst)
    }

    // Gives the run up.
    fn raise(&self) {
        if !self.is_up() {
            self.up.store(true, Ordering::SeqCst);
        }
    }

    // Adds instructions that a worker has executed. Gives the run up if all workers have executed more than the limit.
    #[cold]
    #[inline(never)]
    fn tell(&self, worker: usize, done: u64) {
        if let Some(told) = self.told.get(worker) {
            told.fetch_add(done, Ordering::SeqCst);
        }
        let mut all = 0u64;
        for told in &self.told {
            all = all.saturating_add(told.load(Ordering::SeqCst));
        }
        if all > self.limit {
            self.raise();
        }
    }

    // Records that a worker leaves an effect of this number of bytes in a cell.
    fn leave(&self, worker: usize, cell: usize, bytes: u64) {
        let bytes = bytes.min(MOST_BYTES - 1);
        if let Some(effect) = self.effects.get(cell) {
            effect.store(left_by(worker, bytes), Ordering::SeqCst);
        }
        if let Some(left) = self.left.get(worker) {
            left.fetch_add(bytes, Ordering::SeqCst);
        }
    }

    // Records that the effect in a cell is collected. Returns whether its worker may steal again, which it could not before.
    fn collect(&self, cell: usize) -> bool {
        let Some(effect) = self.effects.get(cell) else {
            return false;
        };
        let effect = effect.load(Ordering::SeqCst);
        let bytes = effect % MOST_BYTES;
        let Some(left) = self.left.get((effect / MOST_BYTES) as usize) else {
            return false;
        };
        let before = left.fetch_sub(bytes, Ordering::SeqCst);
        before > BUDGET && before.saturating_sub(bytes) <= BUDGET
    }

    // Returns whether a worker has left more bytes that nobody has collected than it may have while it steals.
    fn is_full(&self, worker: usize) -> bool {
        match self.left.get(worker) {
            Some(left) => left.load(Ordering::SeqCst) > BUDGET,
            None => false,
        }
    }
}

/// A worker's view of the sign, and the statistics of its offers.
#[derive(Drop)]
pub struct Tally {
    sign: Arc<Sign>,
    /// The worker's number.
    pub(crate) me: usize,
    /// What came of the jobs that it offered.
    pub(crate) offers: Offers,
    untold: u64,
}

impl Tally {
    /// Returns the tally of worker `me`, which has executed nothing yet.
    pub(crate) fn new(sign: Arc<Sign>, me: usize) -> Tally {
        Tally {
            sign,
            me,
            offers: Offers::new(),
            untold: 0,
        }
    }

    /// Returns whether the run is given up.
    #[inline(always)]
    pub(crate) fn is_up(&self) -> bool {
        self.sign.is_up()
    }

    /// Gives the run up.
    pub(crate) fn raise(&self) {
        self.sign.raise();
    }

    /// Records that the worker leaves an effect of this number of bytes in a cell.
    pub(crate) fn leave(&self, cell: usize, bytes: u64) {
        self.sign.leave(self.me, cell, bytes);
    }

    /// Records that the worker has collected the effect in a cell. Returns whether the worker that left it may steal again,
    /// which it could not before.
    pub(crate) fn collect(&self, cell: usize) -> bool {
        self.sign.collect(cell)
    }

    /// Returns whether the effects that the worker has left and nobody has collected take too much memory for it to steal.
    pub(crate) fn is_full(&self) -> bool {
        self.sign.is_full(self.me)
    }

    /// Counts instructions that the worker has executed.
    #[inline(always)]
    pub(crate) fn count(&mut self, done: u64) {
        self.untold = self.untold.wrapping_add(done);
        if self.untold >= LOT {
            self.sign.tell(self.me, self.untold);
            self.untold = 0;
        }
    }
}
