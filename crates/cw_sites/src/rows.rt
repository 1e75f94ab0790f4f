//! The measures of each site, by site number.

ghost use Rattle.std.specs.Prelude.{◌≡◌, ℕ, ◌+◌, ◌*◌, ◌^◌, ◌<◌, ◌≤◌, true, false, length, IfOk, OnOk};
ghost use Rattle.cw_sites.specs.SiteRows as tallies;
ghost use Rattle.cw_sites.specs.SiteRows.{kept_of, row_of, zero_row, Becomes, IsWhereItFits, OthersStay};
ghost use Rattle.cw_sites.specs.SiteRows.{JoinsFirsts, JoinsFurther, JoinsOn, JoinsPage, JoinsRows, JoinsShelf, KeepTheSame, Keeps};

use cw_facts::{PAGE, Pages, SHELF};
use std::alloc::{AllocError, Global};

/// The measures of a site so far.
#[derive(Clone, Copy, Debug)]
pub struct Row {
    /// The number of its invocations.
    pub calls: u64,
    /// The instructions of its invocations themselves.
    pub own: u64,
    /// The work of its ended invocations that are inside no other invocation of the site.
    pub work: u64,
    /// The number of its open invocations.
    pub active: u64,
    /// The span of its ended invocations that are inside no other invocation of the site.
    pub span: u64,
    /// The work so far at the start of the outermost open invocation.
    pub at_work: u64,
    /// The weight of the strand's path at the start of the outermost open invocation.
    pub at_path: u64,
}

/// A row, and the place of the last steps of its site.
#[derive(Clone, Copy, Debug)]
pub struct SiteEntry {
    pub row: Row,
    pub place: usize,
}

/// The rows by site number. A site that was not met has a row of zeros.
///
/// The rows of the first sites are in a vector; the rows of the other sites are in pages.
#[derive(Debug, Drop)]
pub struct RowsBySite {
    pub by_site: Vec<SiteEntry>,
    /// When a site below this number is met, it and all sites before it get rows in the vector.
    pub firsts: usize,
    pub further: Pages<SiteEntry>,
}

// The limit on the vector of a piece at its start, its growth whenever a site beyond it is met, and its maximum: so a
// short piece takes one page for a site, and a long one finds a row as fast as a whole run does.
const FIRSTS: usize = 64;

const MORE: usize = 8;

const MOST: usize = 1_024;

const ZERO: Row = Row {
    calls: 0,
    own: 0,
    work: 0,
    active: 0,
    span: 0,
    at_work: 0,
    at_path: 0,
};

const NONE: SiteEntry = SiteEntry {
    row: ZERO,
    place: 0,
};

impl Row {
    /// Adds instructions of its site.
    #[inline(always)]
    pub fn add_own(&mut self, count: u64)
        ensures { IsWhereItFits (tallies.worked count self.old) self.new }
    {
        self.own = self.own.wrapping_add(count);
    }

    // Begins an invocation of its site, at this work and on a path of this weight.
    #[inline(always)]
    fn enter(&mut self, count: u64, path: u64)
        ensures { IsWhereItFits (tallies.entered count path self.old) self.new }
    {
        let first = self.active == 0;
        self.calls = self.calls.wrapping_add(1);
        self.active = self.active.wrapping_add(1);
        if first {
            self.at_work = count;
            self.at_path = path;
        }
    }

    // Ends an invocation of its site, at this work and on a path of this weight.
    #[inline(always)]
    fn leave(&mut self, count: u64, path: u64)
        ensures { IsWhereItFits (tallies.left count path self.old) self.new }
    {
        let last = self.active == 1;
        self.active = self.active.saturating_sub(1);
        if last {
            self.work = self.work.wrapping_add(count.saturating_sub(self.at_work));
            self.span = self.span.wrapping_add(path.saturating_sub(self.at_path));
        }
    }
}

impl RowsBySite {
    /// Returns the empty rows of a whole run. Allocates no memory.
    pub fn new(alloc: Global) -> RowsBySite
        ensures { (q : ℕ) → row_of result q ≡ zero_row }
    {
        RowsBySite {
            by_site: Vec::new(alloc),
            firsts: usize::MAX,
            further: Pages::new(alloc),
        }
    }

    /// Returns the empty rows of a piece that is executed separately: it will take memory for the sites that it
    /// meets, and for few others. Allocates no memory now.
    pub fn apart(alloc: Global) -> RowsBySite
        ensures { (q : ℕ) → row_of result q ≡ zero_row }
    {
        RowsBySite {
            by_site: Vec::new(alloc),
            firsts: FIRSTS,
            further: Pages::new(alloc),
        }
    }

    /// Returns the row of a site.
    #[inline(always)]
    pub fn row(&self, site: u32) -> Row
        ensures { result ≡ row_of self.now site }
    {
        self.row_at(site as usize)
    }

    #[inline(always)]
    fn row_at(&self, place: usize) -> Row
        ensures { result ≡ row_of self.now place }
    {
        self.entry_of_site(place).row
    }

    // Returns the entry of a site.
    #[inline(always)]
    fn entry_of_site(&self, place: usize) -> SiteEntry
        ensures { result ≡ kept_of self.now place }
    {
        if place < self.by_site.len() {
            return self.by_site[place];
        }
        self.further.get(place, NONE)
    }

    // Sets the entry of a site.
    #[inline(always)]
    fn keep(&mut self, place: usize, kept: SiteEntry) -> Result<(), AllocError>
        ensures { OnOk result (Keeps self.old self.new place kept) }
    {
        if place < self.by_site.len() {
            self.by_site[place] = kept;
            return Ok(());
        }
        self.set_entry_apart(place, kept)
    }

    // Sets the entry of a site that has no row in the vector.
    #[inline(always)]
    fn set_entry_apart(&mut self, place: usize, kept: SiteEntry) -> Result<(), AllocError>
        requires { length self.old.by_site.items ≤ place }
        ensures { OnOk result (Keeps self.old self.new place kept) }
    {
        if place < self.firsts {
            self.reach(place)?;
            self.by_site[place] = kept;
            return Ok(());
        }
        self.firsts = self.firsts.saturating_add(MORE).min(MOST);
        self.further.set(place, kept, NONE)?;
        Ok(())
    }

    // Extends the vector to this site.
    #[cold]
    #[inline(never)]
    fn reach(&mut self, place: usize) -> Result<(), AllocError>
        ensures same { OnOk result (KeepTheSame self.old self.new) }
        ensures within { OnOk result (place < length self.new.by_site.items) }
    {
        // Memory cannot hold more rows than a number can count.
        let Some(needed) = place.checked_add(1) else {
            return Err(AllocError);
        };
        for site in self.by_site.len()..needed {
            self.by_site.push(self.further.get(site, NONE))?;
        }
        Ok(())
    }

    /// Returns whether a site has a row in the vector.
    #[inline(always)]
    pub fn has(&self, site: u32) -> bool
        ensures { result ≡ true → site < length self.now.by_site.items }
    {
        (site as usize) < self.by_site.len()
    }

    /// Returns the place of the last steps of a site; any number if it was not met.
    #[inline(always)]
    pub fn place(&self, site: u32) -> usize {
        self.entry_of_site(site as usize).place
    }

    /// Adds instructions of a site, and sets the place of its last steps if one is given.
    ///
    /// # Errors
    ///
    /// Returns an `AllocError` if memory runs out.
    #[inline(always)]
    pub fn work(&mut self, site: u32, count: u64, at: Option<usize>) -> Result<(), AllocError>
        ensures own { OnOk result (Becomes (tallies.worked count) self.old self.new site) }
        ensures others { OnOk result (OthersStay self.old self.new site) }
    {
        let place = site as usize;
        let mut kept = self.entry_of_site(place);
        kept.row.add_own(count);
        kept.place = at.unwrap_or(kept.place);
        self.keep(place, kept)?;
        Ok(())
    }

    /// Begins an invocation of a site, at this work and on a path of this weight.
    ///
    /// # Errors
    ///
    /// Returns an `AllocError` if memory runs out.
    #[inline(always)]
    pub fn begin(&mut self, site: u32, count: u64, path: u64) -> Result<(), AllocError>
        ensures own { OnOk result (Becomes (tallies.entered count path) self.old self.new site) }
        ensures others { OnOk result (OthersStay self.old self.new site) }
    {
        if self.has(site) {
            self.begin_here(site, count, path);
            return Ok(());
        }
        self.begin_apart(site, count, path)?;
        Ok(())
    }

    // Begins an invocation of any site, like `begin`, out of line.
    #[inline(never)]
    fn begin_apart(&mut self, site: u32, count: u64, path: u64) -> Result<(), AllocError>
        ensures own { OnOk result (Becomes (tallies.entered count path) self.old self.new site) }
        ensures others { OnOk result (OthersStay self.old self.new site) }
    {
        let place = site as usize;
        let mut kept = self.entry_of_site(place);
        kept.row.enter(count, path);
        self.keep(place, kept)?;
        Ok(())
    }

    /// Begins an invocation of a site that has a row in the vector, like `begin`, without allocating memory.
    #[inline(always)]
    pub fn begin_here(&mut self, site: u32, count: u64, path: u64)
        requires { site < length self.old.by_site.items }
        ensures own { Becomes (tallies.entered count path) self.old self.new site }
        ensures others { OthersStay self.old self.new site }
    {
        self.by_site[site as usize].row.enter(count, path);
    }

    /// Ends an invocation of a site, at this work and on a path of this weight.
    ///
    /// # Errors
    ///
    /// Returns an `AllocError` if memory runs out.
    #[inline(always)]
    pub fn end(&mut self, site: u32, count: u64, path: u64) -> Result<(), AllocError>
        ensures own { OnOk result (Becomes (tallies.left count path) self.old self.new site) }
        ensures others { OnOk result (OthersStay self.old self.new site) }
    {
        if self.has(site) {
            self.end_here(site, count, path);
            return Ok(());
        }
        self.end_apart(site, count, path)?;
        Ok(())
    }

    // Ends an invocation of any site, like `end`, out of line.
    #[inline(never)]
    fn end_apart(&mut self, site: u32, count: u64, path: u64) -> Result<(), AllocError>
        ensures own { OnOk result (Becomes (tallies.left count path) self.old self.new site) }
        ensures others { OnOk result (OthersStay self.old self.new site) }
    {
        let place = site as usize;
        let mut kept = self.entry_of_site(place);
        kept.row.leave(count, path);
        self.keep(place, kept)?;
        Ok(())
    }

    /// Ends an invocation of a site that has a row in the vector, like `end`, without allocating memory.
    #[inline(always)]
    pub fn end_here(&mut self, site: u32, count: u64, path: u64)
        requires { site < length self.old.by_site.items }
        ensures own { Becomes (tallies.left count path) self.old self.new site }
        ensures others { OthersStay self.old self.new site }
    {
        self.by_site[site as usize].row.leave(count, path);
    }

    /// Adds the sums of a piece that was executed separately and has no open invocation. If invocations of a site are
    /// open here, those of the piece are inside them, and their work and span are left out.
    ///
    /// Takes one step for each row in the piece's vector and for each row of its pages.
    ///
    /// # Errors
    ///
    /// Returns an `AllocError` if memory runs out.
    pub fn join(&mut self, piece: RowsBySite) -> Result<(), AllocError>
        ensures { OnOk result (JoinsRows self.old piece self.new) }
    {
        self.join_firsts(&piece)?;
        self.join_further(&piece)?;
        Ok(())
    }

    // Adds the sums of the rows in the piece's vector.
    fn join_firsts(&mut self, piece: &RowsBySite) -> Result<(), AllocError>
        ensures { OnOk result (JoinsFirsts piece.now self.old self.new) }
    {
        for place in 0..piece.by_site.len() {
            self.add(place, piece.row_at(place))?;
        }
        Ok(())
    }

    // Adds the sums of the rows in the piece's pages.
    fn join_further(&mut self, piece: &RowsBySite) -> Result<(), AllocError>
        ensures { OnOk result (JoinsFurther piece.now self.old self.new) }
    {
        for shelf in 0..piece.further.shelves() {
            self.join_shelf(piece, shelf)?;
        }
        Ok(())
    }

    // Adds the sums of the rows in the pages of a shelf.
    fn join_shelf(&mut self, piece: &RowsBySite, shelf: usize) -> Result<(), AllocError>
        ensures { OnOk result (JoinsShelf piece.now shelf self.old self.new) }
    {
        for page in 0..piece.further.pages(shelf) {
            self.join_page(piece, shelf, page)?;
        }
        Ok(())
    }

    // Adds the sums of the rows of a page, if it exists.
    fn join_page(&mut self, piece: &RowsBySite, shelf: usize, page: usize) -> Result<(), AllocError>
        requires { page < 32 }
        ensures { OnOk result (JoinsPage piece.now shelf page self.old self.new) }
    {
        if !piece.further.has_page(shelf, page) {
            return Ok(());
        }
        let first = first_of(shelf, page)?;
        for number in 0..PAGE {
            self.join_beyond(piece, first + number)?;
        }
        Ok(())
    }

    // Adds the sums of the piece's row of a site, unless the row is in the vector and was added before.
    fn join_beyond(&mut self, piece: &RowsBySite, place: usize) -> Result<(), AllocError>
        ensures { OnOk result (JoinsOn piece.now place (place + 1) self.old self.new) }
    {
        if place < piece.by_site.len() {
            return Ok(());
        }
        self.add(place, piece.row_at(place))?;
        Ok(())
    }

    // Adds the sums of a piece's row.
    #[inline(always)]
    fn add(&mut self, place: usize, piece: Row) -> Result<(), AllocError>
        ensures own { OnOk result (Becomes (tallies.under piece) self.old self.new place) }
        ensures others { OnOk result (OthersStay self.old self.new place) }
    {
        let kept = self.entry_of_site(place);
        let sum = summed(kept.row, piece);
        self.keep(
            place,
            SiteEntry {
                row: sum,
                place: kept.place,
            },
        )?;
        Ok(())
    }
}

// Returns the number of the first site of a page.
fn first_of(shelf: usize, page: usize) -> Result<usize, AllocError>
    requires { page < 32 }
    ensures is { IfOk result (λ first. first ≡ shelf * 256 + page * 8) }
    ensures within { IfOk result (λ first. first + 8 < 2 ^ 64) }
{
    // Memory cannot hold more rows than a number can count.
    if shelf >= usize::MAX / SHELF {
        return Err(AllocError);
    }
    Ok(shelf * SHELF + page * PAGE)
}

/// Returns the row with the sums of a piece's row; work and span are added only if no invocation is open.
pub fn summed(row: Row, piece: Row) -> Row
    ensures { IsWhereItFits (tallies.summed row piece) result }
{
    let mut row = row;
    row.calls = row.calls.saturating_add(piece.calls);
    row.own = row.own.saturating_add(piece.own);
    // Inside an open invocation there is no outermost invocation.
    if row.active > 0 {
        return row;
    }
    row.work = row.work.saturating_add(piece.work);
    row.span = row.span.saturating_add(piece.span);
    row
}
