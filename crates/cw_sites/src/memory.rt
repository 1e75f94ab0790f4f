//! The memory of a table.

ghost use Rattle.cw_sites.specs.Trimmed.{IsTrimmed, StaysBounded, TracksAsBefore};

use crate::paths::Paths;
use crate::rows::RowsBySite;
use crate::table::SiteTable;
use cw_facts::PAGE;

/// The bytes of a step, of a block, of what is kept of a site, and of a page that lies on a shelf besides its items.
const STEP: usize = 16;

const BLOCK: usize = 64;

const KEPT: usize = 64;

const ON_SHELF: usize = 24;

impl Paths {
    /// Gives back the memory that its lists do not use. Nothing else changes.
    pub fn trim(&mut self)
        ensures { IsTrimmed self.old self.new }
    {
        self.steps.shrink_to_fit();
        self.blocks.shrink_to_fit();
    }

    /// Returns the memory of its lists, in bytes.
    pub fn bytes(&self) -> usize {
        let steps = self.steps.capacity().saturating_mul(STEP);
        steps.saturating_add(self.blocks.capacity().saturating_mul(BLOCK))
    }
}

impl RowsBySite {
    /// Returns the memory of its rows, in bytes. Takes a step for each page of a shelf that has any.
    pub fn bytes(&self) -> usize {
        let mut bytes = self.by_site.capacity().saturating_mul(KEPT);
        for shelf in 0..self.further.shelves() {
            bytes = bytes.saturating_add(self.bytes_on(shelf));
        }
        bytes
    }

    // That of the pages of a shelf.
    fn bytes_on(&self, shelf: usize) -> usize {
        let pages = self.further.pages(shelf);
        let mut bytes = pages.saturating_mul(ON_SHELF);
        for page in 0..pages {
            if self.further.has_page(shelf, page) {
                bytes = bytes.saturating_add(PAGE * KEPT);
            }
        }
        bytes
    }
}

impl SiteTable {
    /// Frees the memory that the lists of its paths do not use. The table represents the same runs as before.
    pub fn trim(&mut self)
        ensures told { TracksAsBefore self.old self.new }
        ensures bounded { StaysBounded self.old self.new }
    {
        self.paths.trim();
    }

    /// Returns the memory of its rows and of its paths, in bytes.
    pub fn bytes(&self) -> usize {
        self.rows.bytes().saturating_add(self.paths.bytes())
    }
}
