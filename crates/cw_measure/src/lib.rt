//! Computes work, span and burdened span of a run while it executes.
//!
//! - [`Measure`] holds the measures of a piece of one sync block: its readings are those of the strand tree of the
//!   events so far, and measures of pieces join in any grouping.
//! - [`BurdenedPath`] holds the heaviest burdened path of one strand: only a spawn pushes a block, and calls, scopes,
//!   regions and joins of blocks that have not spawned need no method call.
//!
//! # How a run calls a `BurdenedPath`
//!
//! A run so far is a list of open parts and the events of the current block. Each open part has a flag for a spawn,
//! its mark, and the events of the enclosing block (`Open` in `specs/OpenParts`). `TracksWeight` states that a path
//! represents such a run, and each method preserves it from the run before to the run after. Between two calls
//! (`Since`) there may be any list of instructions and of joins of a block that has not spawned. So a machine counts
//! instructions, and calls a method only if it spawns, ends a child or joins a block that has spawned; it calls
//! `note` before it reads the weight.
//!
//! After an error, which means that memory ran out, a path is meaningless.
//!
//! One theory (`specs/Outermost`) covers sums over invocations of sites and over executions of tags: a tally over the
//! outermost parts with some mark, for every reading that is metered along a part. `cw_sites` and `cw_regions` are
//! instances.
#![tactic(auto)]

mod burdened;
mod burdened_path;
pub mod laws;
mod measure;
mod plain;

pub use burdened_path::{BurdenedBlock, BurdenedPath};
pub use measure::Measure;
