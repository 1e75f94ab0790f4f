//! The measures of each region tag, by the tag's number in source order.

ghost use Rattle.std.specs.Prelude.{◌≡◌, ℕ, ◌==◌, ◌<◌, ◌≤◌, false, length, OnOk, if◌then◌else◌};
ghost use Rattle.cw_regions.specs.RegionRows as rows;
ghost use Rattle.cw_regions.specs.RegionRows.{row_of, zero_row, AddsEach, IsWhereItFits, JoinsRows, IsGiven, OthersStay, SayTheSame, TagBegins, TagEnds};

use std::alloc::{AllocError, Global};
use std::mem;

/// The measures of a tag so far.
#[derive(Clone, Copy, Debug)]
pub struct Row {
    /// The work of its ended executions that are inside no other execution of the tag.
    pub work: u64,
    /// The span of these executions.
    pub span: u64,
    /// The burdened span of these executions.
    pub burdened: u128,
    /// The number of its open executions.
    pub active: u64,
    /// The work so far at the start of the outermost open execution.
    pub at_work: u64,
    /// The weight of the strand's path at that start.
    pub at_path: u64,
    /// The burdened weight of the strand's path at that start.
    pub at_burdened: u128,
}

/// The rows by tag number. A tag after the end has a row of zeros.
#[derive(Debug, Drop)]
pub struct RowsByTag {
    pub by_tag: Vec<Row>,
}

const ZERO: Row = Row {
    work: 0,
    span: 0,
    burdened: 0,
    active: 0,
    at_work: 0,
    at_path: 0,
    at_burdened: 0,
};

impl RowsByTag {
    /// Returns no rows. Allocates no memory.
    pub fn new(alloc: Global) -> RowsByTag
        ensures { (q : ℕ) → row_of result q ≡ zero_row }
    {
        RowsByTag {
            by_tag: Vec::new(alloc),
        }
    }

    /// Returns the row of a tag.
    #[inline(always)]
    pub fn row(&self, tag: u32) -> Row
        ensures { result ≡ row_of self.now tag }
    {
        self.row_at(tag as usize)
    }

    #[inline(always)]
    fn row_at(&self, place: usize) -> Row
        ensures { result ≡ row_of self.now place }
    {
        if place < self.by_tag.len() {
            self.by_tag[place]
        } else {
            ZERO
        }
    }

    // Extends the rows to this tag; missing rows are zeros.
    #[cold]
    #[inline(never)]
    fn reach(&mut self, place: usize) -> Result<(), AllocError>
        ensures same { OnOk result (SayTheSame self.old self.new) }
        ensures within { OnOk result (place < length self.new.by_tag.items) }
    {
        // Memory cannot hold more rows than a number can count.
        let Some(needed) = place.checked_add(1) else {
            return Err(AllocError);
        };
        if self.by_tag.len() < needed {
            self.by_tag.resize(needed, ZERO)?;
        }
        Ok(())
    }

    /// Begins an execution of a tag, at this work and on a path of this weight, without and with burdens.
    ///
    /// # Errors
    ///
    /// Returns an `AllocError` if memory runs out.
    #[inline(always)]
    pub fn begin(
        &mut self,
        tag: u32,
        count: u64,
        span: u64,
        burdened: u128,
    ) -> Result<(), AllocError>
        ensures own { OnOk result (TagBegins self.old self.new tag count span burdened) }
        ensures others { OnOk result (OthersStay self.old self.new tag) }
    {
        let place = tag as usize;
        if place >= self.by_tag.len() {
            self.reach(place)?;
        }
        self.by_tag[place] = entered(self.by_tag[place], count, span, burdened);
        Ok(())
    }

    /// Ends an execution of a tag, whose block has joined.
    ///
    /// # Errors
    ///
    /// Returns an `AllocError` if memory runs out.
    #[inline(always)]
    pub fn end(&mut self, tag: u32, count: u64, span: u64, burdened: u128) -> Result<(), AllocError>
        ensures own { OnOk result (TagEnds self.old self.new tag count span burdened) }
        ensures others { OnOk result (OthersStay self.old self.new tag) }
    {
        let place = tag as usize;
        if place >= self.by_tag.len() {
            self.reach(place)?;
        }
        self.by_tag[place] = left(self.by_tag[place], count, span, burdened);
        Ok(())
    }

    /// Adds the sums of a piece that was executed separately and has no open execution. If executions of a tag are
    /// open here, those of the piece are inside them, and are left out.
    ///
    /// Takes one step for each row of the shorter of the two lists, and no memory.
    pub fn join(&mut self, piece: RowsByTag)
        ensures { JoinsRows self.old piece self.new }
    {
        if piece.by_tag.len() <= self.by_tag.len() {
            self.add(&piece);
        } else {
            let ours = mem::replace(self, piece);
            self.add_under(&ours);
        }
    }

    // Adds the sums of a piece whose number of rows is at most ours.
    fn add(&mut self, piece: &RowsByTag)
        requires { length piece.now.by_tag.items ≤ length self.old.by_tag.items }
        ensures { AddsEach rows.summed self.old piece.now self.new }
    {
        for place in 0..piece.by_tag.len() {
            let sum = summed(self.row_at(place), piece.row_at(place));
            self.put(place, sum);
        }
    }

    // Adds our rows to these rows of a piece, of which there are at least as many; open executions stay open.
    fn add_under(&mut self, ours: &RowsByTag)
        requires { length ours.now.by_tag.items ≤ length self.old.by_tag.items }
        ensures { AddsEach rows.under self.old ours.now self.new }
    {
        for place in 0..ours.by_tag.len() {
            let sum = summed(ours.row_at(place), self.row_at(place));
            self.put(place, sum);
        }
    }

    // Sets the row of a tag that has one.
    #[inline(always)]
    fn put(&mut self, place: usize, row: Row)
        requires { place < length self.old.by_tag.items }
        ensures given { IsGiven self.old self.new place row }
        ensures as_long { length self.new.by_tag.items ≡ length self.old.by_tag.items }
    {
        self.by_tag[place] = row;
    }
}

/// Returns the row after an execution of its tag began, at this work and on a path of this weight.
#[inline(always)]
pub fn entered(row: Row, count: u64, span: u64, burdened: u128) -> Row
    ensures { IsWhereItFits (rows.entered count span burdened row) result }
{
    let mut row = row;
    if row.active == 0 {
        row.at_work = count;
        row.at_path = span;
        row.at_burdened = burdened;
    }
    row.active = row.active.saturating_add(1);
    row
}

/// Returns the row after an execution of its tag ended; only the outermost one is added to the sums.
#[inline(always)]
pub fn left(row: Row, count: u64, span: u64, burdened: u128) -> Row
    ensures { IsWhereItFits (rows.left count span burdened row) result }
{
    let mut row = row;
    if row.active == 1 {
        row.work = row.work.saturating_add(count.saturating_sub(row.at_work));
        row.span = row.span.saturating_add(span.saturating_sub(row.at_path));
        row.burdened = row
            .burdened
            .saturating_add(burdened.saturating_sub(row.at_burdened));
    }
    row.active = row.active.saturating_sub(1);
    row
}

/// Returns the row with the sums of a piece's row, which are added only if no execution is open.
pub fn summed(row: Row, piece: Row) -> Row
    ensures { IsWhereItFits (rows.summed row piece) result }
{
    let mut row = row;
    // Inside an open execution there is no outermost execution.
    if row.active > 0 {
        return row;
    }
    row.work = row.work.saturating_add(piece.work);
    row.span = row.span.saturating_add(piece.span);
    row.burdened = row.burdened.saturating_add(piece.burdened);
    row
}
