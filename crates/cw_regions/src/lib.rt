//! Computes the measures of each region tag.
//!
//! A [`RegionTable`] computes work, span and burdened span of the executions of each tag that are inside no other
//! execution of the tag.
//!
//! # How a run calls a `RegionTable`
//!
//! | event | call |
//! |---|---|
//! | after the instruction that begins a region | `begin(tag, count, path, burdened)` |
//! | before the instruction that ends a region, whose block has joined | `end(tag, count, path, burdened)` |
//! | the end of the run | `region(tag)` for each tag |
//!
//! `count` is the number of instructions at that place, `path` the weight of the current strand's path, and
//! `burdened` its weight with burdens, both including the instructions up to `count`. They come from a `SiteTable` of
//! `cw_sites` or a `BurdenedPath` of `cw_measure`, which are proved to grow over a part by its span (`Readings`).
//! Nothing else needs a call (`laws::regions_need_no_call`). `TracksRegions` states that a table represents a run so
//! far; its proof is the theory of outermost parts of `cw_measure`, for the marks of a tag.
//!
//! A piece that is executed separately inside open executions has its own table (`new`), which does not know these
//! executions. When the piece has ended, `join` appends it as the next piece of the current block, and leaves out
//! what is inside open executions of the same tag. After an error, which means that memory ran out, a table is
//! meaningless.
#![tactic(auto)]

pub mod laws;
mod rows;
mod table;

pub use rows::{Row, RowsByTag};
pub use table::{RegionRow, RegionTable};
