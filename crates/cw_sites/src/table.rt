//! The table of a strand: the rows of the sites, and the chosen path so far.

ghost use Rattle.std.specs.Prelude.{◌≡◌, ◌<◌, ℕ, [], true, false, length, OnOk};
ghost use Rattle.cw_sites.specs.PathBounds.{GrowsWithin};
ghost use Rattle.cw_sites.specs.PathCalls.{ReadsOwn};
ghost use Rattle.cw_sites.specs.StepLists.{HasFirstChild, HasRoom, HasRoomForBlock, IsShort, IsWithinLimit};
ghost use Rattle.cw_sites.specs.StepSums.{sum_at, HasSteps};
ghost use Rattle.cw_sites.specs.Tables.{Flushed, FlushesBounded, IsBoundedTable, JoinsBounded, RowBegun, RowLeft, StaysBoundedIn, Tracks};
ghost use Rattle.cw_sites.specs.Tables.{EndsChild, EndsHalf, Enters, Joins, JoinsRecorded, Leaves, RecordsUpTo};
ghost use Rattle.cw_sites.specs.Tables.{JoinsPiece, StaysBoundedBeside};
ghost use Rattle.cw_sites.specs.Tables.{ReadsPath, ReadsSite, Spawns, SpawnsHalf};

use crate::paths::Paths;
use crate::rows::RowsBySite;
use std::alloc::{AllocError, Global};

/// The measures of each site over a run so far.
///
/// Each method takes the number of instructions so far, including those of children that other workers executed.
#[derive(Debug, Drop)]
pub struct SiteTable {
    pub rows: RowsBySite,
    pub paths: Paths,
    /// The number of instructions that are included in the rows and the path.
    pub noted: u64,
    /// The site of the innermost invocation.
    pub here: u32,
}

impl SiteTable {
    /// Returns the table of a whole run that begins in an invocation of this site. Allocates no memory.
    pub fn new(alloc: Global, here: u32) -> SiteTable
        ensures told { Tracks here (λ q. 0) [] [] result }
        ensures bounded { (most : ℕ) → here < most → IsBoundedTable most result }
    {
        SiteTable {
            rows: RowsBySite::new(alloc),
            paths: Paths::new(alloc),
            noted: 0,
            here,
        }
    }

    /// Returns the table of a piece that is executed separately. It will take memory only for the sites that the
    /// piece meets. Allocates no memory now.
    pub fn apart(alloc: Global, here: u32) -> SiteTable
        ensures told { Tracks here (λ q. 0) [] [] result }
        ensures bounded { (most : ℕ) → here < most → IsBoundedTable most result }
    {
        SiteTable {
            rows: RowsBySite::apart(alloc),
            paths: Paths::new(alloc),
            noted: 0,
            here,
        }
    }

    // Attributes the instructions since the last call to the site of the innermost invocation.
    #[inline(always)]
    fn flush(&mut self, count: u64) -> Result<(), AllocError>
        ensures flushed { OnOk result (Flushed self.old self.new count) }
        ensures bounded { OnOk result (FlushesBounded self.old self.new) }
        ensures short { OnOk result (IsShort self.new.paths) }
    {
        if self.flush_within(count) {
            return Ok(());
        }
        self.flush_apart(count)?;
        Ok(())
    }

    // Attributes the instructions since the last call in every case, like `flush`, out of line.
    #[inline(never)]
    fn flush_apart(&mut self, count: u64) -> Result<(), AllocError>
        ensures flushed { OnOk result (Flushed self.old self.new count) }
        ensures bounded { OnOk result (FlushesBounded self.old self.new) }
        ensures short { OnOk result (IsShort self.new.paths) }
    {
        let here = self.here;
        let since = count.wrapping_sub(self.noted);
        let place = self.rows.place(here);
        let at = self.paths.extend(place, here, since)?;
        self.rows.work(here, since, at)?;
        self.noted = count;
        Ok(())
    }

    // Attributes the instructions since the last call, like `flush`, if the site of the innermost invocation has a
    // row in the vector and its steps need no memory. The current path need not be within its limit if no step is
    // added. Returns whether this is so; if not, nothing is changed.
    #[inline(always)]
    fn flush_ready(&mut self, count: u64) -> bool
        ensures flushed { result ≡ true → Flushed self.old self.new count }
        ensures there { result ≡ true → self.new.here < length self.new.rows.by_site.items }
        ensures bounded { result ≡ true → GrowsWithin self.old.here self.old.paths self.new.paths }
        ensures short { result ≡ true → IsWithinLimit self.old.paths → IsShort self.new.paths }
        ensures as_long { length self.new.rows.by_site.items ≡ length self.old.rows.by_site.items }
        ensures blocks { self.new.paths.blocks ≡ self.old.paths.blocks }
        ensures same { result ≡ false → self.new ≡ self.old }
    {
        if self.rows.has(self.here) {
            return self.flush_there(count);
        }
        false
    }

    // Does the work of `flush_ready` for a site that has a row in the vector.
    #[inline(always)]
    fn flush_there(&mut self, count: u64) -> bool
        requires there { self.old.here < length self.old.rows.by_site.items }
        ensures flushed { result ≡ true → Flushed self.old self.new count }
        ensures bounded { result ≡ true → GrowsWithin self.old.here self.old.paths self.new.paths }
        ensures short { result ≡ true → IsWithinLimit self.old.paths → IsShort self.new.paths }
        ensures as_long { length self.new.rows.by_site.items ≡ length self.old.rows.by_site.items }
        ensures blocks { self.new.paths.blocks ≡ self.old.paths.blocks }
        ensures same { result ≡ false → self.new ≡ self.old }
    {
        let here = self.here;
        let place = self.rows.by_site[here as usize].place;
        if self.paths.has_steps(place, here) {
            self.flush_to(place, count);
            return true;
        }
        if self.paths.has_room() {
            self.flush_new_step(count);
            return true;
        }
        false
    }

    // Does the work of `flush_ready`, if the current path is also within its limit, so that it may become a block's
    // path.
    #[inline(always)]
    fn flush_within(&mut self, count: u64) -> bool
        ensures flushed { result ≡ true → Flushed self.old self.new count }
        ensures there { result ≡ true → self.new.here < length self.new.rows.by_site.items }
        ensures bounded { result ≡ true → FlushesBounded self.old self.new }
        ensures short { result ≡ true → IsShort self.new.paths }
        ensures as_long { length self.new.rows.by_site.items ≡ length self.old.rows.by_site.items }
        ensures blocks { self.new.paths.blocks ≡ self.old.paths.blocks }
        ensures same { result ≡ false → self.new ≡ self.old }
    {
        if self.paths.is_within_limit() {
            return self.flush_ready(count);
        }
        false
    }

    // Attributes the instructions since the last call, like `flush`. The site must have a row in the vector, and its
    // steps must be at this place in the current path.
    #[inline(always)]
    fn flush_to(&mut self, place: usize, count: u64)
        requires there { self.old.here < length self.old.rows.by_site.items }
        requires has { HasSteps self.old.paths.start place self.old.here self.old.paths.steps.items }
        ensures flushed { Flushed self.old self.new count }
        ensures bounded { GrowsWithin self.old.here self.old.paths self.new.paths }
        ensures short { IsWithinLimit self.old.paths → IsShort self.new.paths }
        ensures as_long { length self.new.rows.by_site.items ≡ length self.old.rows.by_site.items }
        ensures blocks { self.new.paths.blocks ≡ self.old.paths.blocks }
    {
        let since = count.wrapping_sub(self.noted);
        let kept = &mut self.rows.by_site[self.here as usize];
        self.paths.grow(place, since);
        kept.row.add_own(since);
        self.noted = count;
    }

    // Attributes the instructions since the last call, like `flush`. The site must have a row in the vector, and
    // there must be room for its steps.
    #[inline(always)]
    fn flush_new_step(&mut self, count: u64)
        requires there { self.old.here < length self.old.rows.by_site.items }
        requires room { HasRoom self.old.paths }
        ensures flushed { Flushed self.old self.new count }
        ensures bounded { GrowsWithin self.old.here self.old.paths self.new.paths }
        ensures short { IsShort self.new.paths }
        ensures as_long { length self.new.rows.by_site.items ≡ length self.old.rows.by_site.items }
        ensures blocks { self.new.paths.blocks ≡ self.old.paths.blocks }
    {
        let since = count.wrapping_sub(self.noted);
        let kept = &mut self.rows.by_site[self.here as usize];
        kept.place = self.paths.put(self.here, since);
        kept.row.add_own(since);
        self.noted = count;
    }

    // Begins an invocation on a path of this weight.
    #[inline(always)]
    fn begin_row(&mut self, site: u32, path: u64) -> Result<(), AllocError>
        ensures begun { OnOk result (RowBegun self.old self.new site path) }
    {
        self.rows.begin(site, self.noted, path)?;
        self.here = site;
        Ok(())
    }

    // Ends the innermost invocation, inside an invocation of the site `outer`.
    #[inline(always)]
    fn end_row(&mut self, outer: u32) -> Result<(), AllocError>
        ensures left { OnOk result (RowLeft self.old self.new outer) }
    {
        self.rows.end(self.here, self.noted, self.paths.weight)?;
        self.here = outer;
        Ok(())
    }

    /// Attributes the instructions so far to their sites. Call it before a scope or a region begins or ends.
    ///
    /// # Errors
    ///
    /// Returns an `AllocError` if memory runs out.
    #[inline(always)]
    pub fn note(&mut self, count: u64) -> Result<(), AllocError>
        ensures told { OnOk result (RecordsUpTo self.old self.new count) }
        ensures bounded { OnOk result (StaysBoundedIn self.old.here self.old self.new) }
        ensures short { OnOk result (IsShort self.new.paths) }
    {
        self.flush(count)?;
        Ok(())
    }

    /// Begins a plain call of this site.
    ///
    /// # Errors
    ///
    /// Returns an `AllocError` if memory runs out.
    #[inline(always)]
    pub fn enter(&mut self, count: u64, site: u32) -> Result<(), AllocError>
        ensures told { OnOk result (Enters self.old self.new count site) }
        ensures bounded { OnOk result (StaysBoundedIn site self.old self.new) }
    {
        self.flush(count)?;
        let path = self.paths.weight;
        self.begin_row(site, path)?;
        Ok(())
    }

    /// Begins a plain call of this site, like `enter`, if this needs no memory and both sites have a row in the
    /// vector. Returns whether this is so; if not, nothing is changed. The methods whose names end in `_ready` all
    /// have this result.
    #[inline(always)]
    pub fn enter_ready(&mut self, count: u64, site: u32) -> bool
        ensures told { result ≡ true → Enters self.old self.new count site }
        ensures bounded { result ≡ true → StaysBoundedIn site self.old self.new }
        ensures same { result ≡ false → self.new ≡ self.old }
    {
        // One test covers both sites.
        if self.rows.has(site.max(self.here)) {
            if self.flush_there(count) {
                let path = self.paths.weight;
                self.begin_row_ready(site, path);
                return true;
            }
        }
        false
    }

    // Begins an invocation, like `begin_row`, of a site that has a row in the vector.
    #[inline(always)]
    fn begin_row_ready(&mut self, site: u32, path: u64)
        requires { site < length self.old.rows.by_site.items }
        ensures { RowBegun self.old self.new site path }
    {
        self.rows.begin_here(site, self.noted, path);
        self.here = site;
    }

    // Ends the innermost invocation, like `end_row`, of a site that has a row in the vector; the caller passes the
    // site, so that it is read once.
    #[inline(always)]
    fn end_row_ready(&mut self, here: u32, outer: u32)
        requires there { here < length self.old.rows.by_site.items }
        requires is_here { here ≡ self.old.here }
        ensures { RowLeft self.old self.new outer }
    {
        self.rows.end_here(here, self.noted, self.paths.weight);
        self.here = outer;
    }

    /// Begins a spawned call of this site that this strand executes; `first` says that its block has not spawned
    /// since its last join.
    ///
    /// # Errors
    ///
    /// Returns an `AllocError` if memory runs out.
    #[inline(always)]
    pub fn spawn(&mut self, count: u64, site: u32, first: bool) -> Result<(), AllocError>
        ensures told { OnOk result (Spawns self.old self.new count site first) }
        ensures bounded { OnOk result (StaysBoundedIn site self.old self.new) }
    {
        self.flush(count)?;
        self.paths.spawn(first)?;
        self.begin_row(site, 0)?;
        Ok(())
    }

    /// Begins the first spawned call of a block since its last join, like `spawn`, if this needs no memory and both
    /// sites have a row in the vector. Returns whether this is so; if not, nothing is changed.
    #[inline(always)]
    pub fn spawn_ready(&mut self, count: u64, site: u32) -> bool
        ensures told { result ≡ true → Spawns self.old self.new count site true }
        ensures bounded { result ≡ true → StaysBoundedIn site self.old self.new }
        ensures same { result ≡ false → self.new ≡ self.old }
    {
        if self.can_spawn(site) {
            if self.flush_within(count) {
                self.paths.begin_within();
                self.begin_row_ready(site, 0);
                return true;
            }
        }
        false
    }

    // Returns whether a block can begin with a child of this site, once the instructions so far are included.
    #[inline(always)]
    fn can_spawn(&self, site: u32) -> bool
        ensures there { result ≡ true → site < length self.now.rows.by_site.items }
        ensures room { result ≡ true → HasRoomForBlock self.now.paths }
    {
        if self.rows.has(site) {
            return self.paths.has_room_for_block();
        }
        false
    }

    /// Ends the innermost invocation, a plain call whose block has joined, inside an invocation of the site `outer`.
    ///
    /// # Errors
    ///
    /// Returns an `AllocError` if memory runs out.
    #[inline(always)]
    pub fn leave(&mut self, count: u64, outer: u32) -> Result<(), AllocError>
        ensures told { OnOk result (Leaves self.old self.new count outer) }
        ensures bounded { OnOk result (StaysBoundedIn outer self.old self.new) }
    {
        self.flush(count)?;
        self.end_row(outer)?;
        Ok(())
    }

    /// Ends the innermost invocation, a spawned call whose block has joined, inside an invocation of the site
    /// `outer`.
    ///
    /// # Errors
    ///
    /// Returns an `AllocError` if memory runs out.
    #[inline(always)]
    pub fn end_child(&mut self, count: u64, outer: u32) -> Result<(), AllocError>
        ensures told { OnOk result (EndsChild self.old self.new count outer) }
        ensures bounded { OnOk result (StaysBoundedIn outer self.old self.new) }
    {
        self.flush(count)?;
        self.end_row(outer)?;
        self.paths.end()?;
        Ok(())
    }

    /// Ends the innermost invocation, like `leave`, if this needs no memory and its site has a row in the vector.
    /// Returns whether this is so; if not, nothing is changed.
    #[inline(always)]
    pub fn close_ready(&mut self, count: u64, outer: u32) -> bool
        ensures told { result ≡ true → Leaves self.old self.new count outer }
        ensures bounded { result ≡ true → StaysBoundedIn outer self.old self.new }
        ensures same { result ≡ false → self.new ≡ self.old }
    {
        let here = self.here;
        if self.flush_ready(count) {
            self.end_row_ready(here, outer);
            return true;
        }
        false
    }

    /// Ends the innermost invocation, like `end_child`, if this needs no memory and its site has a row in the vector.
    /// No step may be between the block's base and the child. Returns whether this is so; if not, nothing is changed.
    #[inline(always)]
    pub fn end_child_ready(&mut self, count: u64, outer: u32) -> bool
        requires { HasFirstChild self.old.paths }
        ensures told { result ≡ true → EndsChild self.old self.new count outer }
        ensures bounded { result ≡ true → StaysBoundedIn outer self.old self.new }
        ensures same { result ≡ false → self.new ≡ self.old }
    {
        let here = self.here;
        if self.flush_within(count) {
            self.end_row_ready(here, outer);
            self.paths.end_first();
            return true;
        }
        false
    }

    /// Attributes the instructions so far to their sites before a join, like `note`, if this needs no memory and the
    /// site has a row in the vector. Returns whether this is so; if not, nothing is changed.
    #[inline(always)]
    pub fn record_ready(&mut self, count: u64) -> bool
        ensures told { result ≡ true → RecordsUpTo self.old self.new count }
        ensures bounded { result ≡ true → FlushesBounded self.old self.new }
        ensures same { result ≡ false → self.new ≡ self.old }
    {
        // In most cases a call has just ended, and all instructions are included.
        if self.noted == count {
            return self.paths.is_within_limit();
        }
        self.flush_within(count)
    }

    /// Joins a block that has spawned since its last join, like `join`. All instructions must be included.
    #[inline(always)]
    pub fn join_recorded(&mut self)
        ensures told { JoinsRecorded self.old self.new }
        ensures bounded { JoinsBounded self.old self.new }
    {
        self.paths.join();
    }

    /// Joins a block that has spawned since its last join. A join of any other block needs no call.
    ///
    /// # Errors
    ///
    /// Returns an `AllocError` if memory runs out.
    #[inline(always)]
    pub fn join(&mut self, count: u64) -> Result<(), AllocError>
        ensures told { OnOk result (Joins self.old self.new count) }
        ensures bounded { OnOk result (StaysBoundedIn self.old.here self.old self.new) }
    {
        self.flush(count)?;
        self.paths.join();
        Ok(())
    }

    /// Begins a spawned part that is not a call, the half of a loop, which this strand executes; `first` says that
    /// its block has not spawned since its last join.
    ///
    /// # Errors
    ///
    /// Returns an `AllocError` if memory runs out.
    #[inline(always)]
    pub fn spawn_half(&mut self, count: u64, first: bool) -> Result<(), AllocError>
        ensures told { OnOk result (SpawnsHalf self.old self.new count first) }
        ensures bounded { OnOk result (StaysBoundedIn self.old.here self.old self.new) }
    {
        self.flush(count)?;
        self.paths.spawn(first)?;
        Ok(())
    }

    /// Ends the innermost open part, a spawned one that is not a call and whose block has joined.
    ///
    /// # Errors
    ///
    /// Returns an `AllocError` if memory runs out.
    #[inline(always)]
    pub fn end_half(&mut self, count: u64) -> Result<(), AllocError>
        ensures told { OnOk result (EndsHalf self.old self.new count) }
        ensures bounded { OnOk result (StaysBoundedIn self.old.here self.old self.new) }
    {
        self.flush(count)?;
        self.paths.end()?;
        Ok(())
    }

    /// Appends the table of a piece that was executed separately inside the open parts, and that has no open part
    /// itself, as the next events of the current block. The piece has no join, or the block has not spawned since its
    /// last join, which `first` says. The instructions so far of both are included. The table of the piece began in
    /// this table's current site (`apart`), and knows no other open invocation.
    ///
    /// # Errors
    ///
    /// Returns an `AllocError` if memory runs out.
    pub fn join_piece(&mut self, piece: SiteTable, first: bool) -> Result<(), AllocError>
        ensures told { OnOk result (JoinsPiece self.old piece self.new first) }
        ensures bounded { OnOk result (StaysBoundedBeside piece self.old self.new) }
    {
        self.rows.join(piece.rows)?;
        self.paths.append(piece.paths, first)?;
        self.noted = self.noted.saturating_add(piece.noted);
        Ok(())
    }

    /// Returns the weight of the current strand's path, in instructions, if they are included. Region tables use it
    /// as a reading.
    #[inline(always)]
    pub fn path(&self) -> u64
        ensures { ReadsPath self.now result }
    {
        self.paths.weight
    }

    /// Returns the row of a site, given its own span `own` from `Paths::own_by_site`, if no part is open and the
    /// block has joined.
    pub fn site_with(&self, site: u32, own: u64) -> SiteRow
        ensures { ReadsOwn self.now.paths site own → ReadsSite self.now site result }
    {
        let row = self.rows.row(site);
        SiteRow {
            calls: row.calls,
            own_work: row.own,
            own_span: own,
            work: row.work,
            span: row.span,
        }
    }

    /// Returns the row of a site, if no part is open and the block has joined.
    pub fn site(&self, site: u32) -> SiteRow
        ensures { ReadsSite self.now site result }
    {
        let row = self.rows.row(site);
        SiteRow {
            calls: row.calls,
            own_work: row.own,
            own_span: self.paths.own(site),
            work: row.work,
            span: row.span,
        }
    }
}

/// Returns the sum of a site; 0 if there is none.
#[inline(always)]
pub fn sum_of(sums: &[u64], site: u32) -> u64
    ensures { result ≡ sum_at site sums.now }
{
    let at = site as usize;
    if at < sums.len() { sums[at] } else { 0 }
}

/// The measures of a site.
#[derive(Clone, Copy, Debug, PartialEq, Eq)]
pub struct SiteRow {
    /// The number of its invocations.
    pub calls: u64,
    /// The instructions of its invocations themselves.
    pub own_work: u64,
    /// The instructions of its invocations themselves that are on the chosen path of the whole run.
    pub own_span: u64,
    /// The work of its invocations that are inside no other invocation of the site.
    pub work: u64,
    /// The span of its invocations that are inside no other invocation of the site.
    pub span: u64,
}
