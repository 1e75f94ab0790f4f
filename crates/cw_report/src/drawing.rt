//! What a page shows.

use cw_gains::gains::Gains;
use cw_greedy_schedule::speedups::Speedup;
use cw_machine::alone::Ended;

/// The maximum length of the output of a program in a page, in bytes. A longer output is cut after the last line within
/// this length.
pub const MOST_OUTPUT_BYTES: usize = 1_048_576;

/// All results of a run that a page shows.
#[derive(Drop)]
pub struct Drawn {
    /// The values and the measures of the run.
    pub ended: Ended,
    /// Its spans if a function took no time.
    pub gains: Gains,
    /// Its speedups by number of processors.
    pub speedup: Speedup,
}
