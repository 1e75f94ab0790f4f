//! The memory of a meter.

ghost use Rattle.cw_meter.specs.Meters.{TracksAsBefore};

use crate::meter::Meter;

/// The bytes of a part, of a block of the heaviest path, and of the row of a tag.
const PART: usize = 12;

const BLOCK: usize = 32;

const TAG: usize = 80;

impl Meter {
    /// Frees the memory that its lists do not use, except the lists of the recorder. The meter represents the same runs as
    /// before.
    #[inline(never)]
    pub fn trim(&mut self)
        ensures { TracksAsBefore self.old self.new }
    {
        self.parts.shrink_to_fit();
        self.tables.path.blocks.shrink_to_fit();
        self.tables.sites.trim();
    }

    /// Returns the memory of its lists, except the lists of the recorder, in bytes.
    pub fn bytes(&self) -> usize {
        let parts = self.parts.capacity().saturating_mul(PART);
        let blocks = self.tables.path.blocks.capacity().saturating_mul(BLOCK);
        let tags = self
            .tables
            .regions
            .rows
            .by_tag
            .capacity()
            .saturating_mul(TAG);
        let sites = self.tables.sites.bytes();
        parts
            .saturating_add(blocks)
            .saturating_add(tags)
            .saturating_add(sites)
    }
}
