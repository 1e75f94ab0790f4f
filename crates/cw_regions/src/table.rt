//! The table of region tags: sums over the outermost executions of each tag.

ghost use Rattle.std.specs.Prelude.{ℕ, OnOk};
ghost use Rattle.cw_regions.specs.Regions.{BeginsRegion, EndsRegion, JoinsRegions, ReadsRegion, StartsRegions};

use crate::rows::RowsByTag;
use std::alloc::{AllocError, Global};

/// The measures of each tag over a run so far, by the tag's number in source order.
///
/// The instructions that begin and end a region are outside of it: call `begin` after the first and `end` before the
/// second.
#[derive(Debug, Drop)]
pub struct RegionTable {
    pub rows: RowsByTag,
}

impl RegionTable {
    /// Returns the table of a run at its start. Allocates no memory.
    pub fn new(alloc: Global) -> RegionTable
        ensures { StartsRegions result }
    {
        RegionTable {
            rows: RowsByTag::new(alloc),
        }
    }

    /// Begins an execution of a tag, at this work in instructions and on a path of this weight, in instructions and
    /// with burdens.
    ///
    /// # Errors
    ///
    /// Returns an `AllocError` if memory runs out.
    #[inline(never)]
    pub fn begin(
        &mut self,
        tag: u32,
        work: u64,
        path: u64,
        burdened: u128,
    ) -> Result<(), AllocError>
        ensures { OnOk result (BeginsRegion self.old self.new tag work path burdened) }
    {
        self.rows.begin(tag, work, path, burdened)?;
        Ok(())
    }

    /// Ends the innermost open execution, which is of this tag and whose block has joined, at this work and on a path
    /// of this weight.
    ///
    /// # Errors
    ///
    /// Returns an `AllocError` if memory runs out.
    #[inline(never)]
    pub fn end(&mut self, tag: u32, work: u64, path: u64, burdened: u128) -> Result<(), AllocError>
        ensures { OnOk result (EndsRegion self.old self.new tag work path burdened) }
    {
        self.rows.end(tag, work, path, burdened)?;
        Ok(())
    }

    /// Appends the table of a piece that was executed separately inside the open parts and has no open part itself,
    /// as the next piece of the current block. That table began with `new`, and does not know the open parts around
    /// it.
    pub fn join(&mut self, right: RegionTable)
        ensures { JoinsRegions self.old right self.new }
    {
        self.rows.join(right.rows);
    }

    /// Returns the row of a tag, if no part is open.
    pub fn region(&self, tag: u32) -> RegionRow
        ensures { ReadsRegion self.now tag result }
    {
        let row = self.rows.row(tag);
        RegionRow {
            work: row.work,
            span: row.span,
            burdened: row.burdened,
        }
    }
}

/// The measures of a tag, over its executions that are inside no other execution of the tag.
#[derive(Clone, Copy, Debug, PartialEq, Eq)]
pub struct RegionRow {
    /// The work of these executions, in instructions.
    pub work: u64,
    /// The span of these executions, in instructions.
    pub span: u64,
    /// The span of these executions, with the charges of their paths at each fork.
    pub burdened: u128,
}
