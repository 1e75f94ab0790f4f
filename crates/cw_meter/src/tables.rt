//! The tables of a run, which record its events together.

ghost use Rattle.std.specs.Prelude.{◌≡◌, true, false, IfOk, OnOk, Some, None};
ghost use Rattle.cw_measure.specs.StrandWeights as weights;
ghost use Rattle.cw_model.specs.Trees.{Invocation};
ghost use Rattle.cw_meter.specs.Moves.{ListsRegions, ListsSites};
ghost use Rattle.cw_sites.specs.StepLists.{HasFirstChild};
ghost use Rattle.cw_meter.specs.Tables.{part_of, Closes, JoinsSpawned, Opens, OpensRegion};
ghost use Rattle.cw_meter.specs.Tables.{Settles, StartsTables, StartsTablesOfRest, TakesIn};
ghost use Rattle.cw_meter.specs.declared.parts.PartKind.TheVariants.{Call, Half, Quiet, Region, SpawnedCall};

use crate::parts::{Part, PartKind};
use cw_measure::BurdenedPath;
use cw_measure::laws::late_paths_wait;
use cw_model::burden::Burden;
use cw_regions::{RegionRow, RegionTable};
use cw_sites::table::{SiteRow, SiteTable, sum_of};
use std::alloc::{AllocError, Global};

/// The rows of call sites with the chosen path, the heaviest path with burdens, and the rows of tags, of one run so
/// far. The heaviest path is not updated at plain calls; it is brought up to date before any other event.
///
/// Instructions, and joins of a block that has spawned nothing since its last join, need no call. Each method takes
/// the number of instructions at which it is called.
#[derive(Debug, Drop)]
pub struct Tables {
    pub sites: SiteTable,
    pub path: BurdenedPath,
    pub regions: RegionTable,
    /// The charge for a spawn.
    pub burden: Burden,
    /// Whether the current block has spawned since its last join.
    pub spawned: bool,
}

impl Tables {
    /// Creates the tables of a run that begins, in the call of `main` by the run itself.
    ///
    /// # Errors
    ///
    /// `AllocError` if memory runs out.
    pub fn new(alloc: Global, burden: Burden) -> Result<Tables, AllocError>
        ensures { IfOk result (λ t. StartsTables burden t) }
    {
        let mut sites = SiteTable::new(alloc, 0);
        sites.enter(0, 0)?;
        Ok(Tables {
            sites,
            path: BurdenedPath::new(alloc),
            regions: RegionTable::new(alloc),
            burden,
            spawned: false,
        })
    }

    /// Creates the tables of a continuation that begins in an invocation of this site. Allocates nothing.
    pub fn apart(alloc: Global, site: u32, burden: Burden) -> Tables
        ensures { StartsTablesOfRest burden site result }
    {
        Tables {
            sites: SiteTable::apart(alloc, site),
            path: BurdenedPath::new(alloc),
            regions: RegionTable::new(alloc),
            burden,
            spawned: false,
        }
    }

    /// Appends the tables of the continuation of the current block, which was executed separately up to its join.
    /// Both tables must include all events.
    ///
    /// # Errors
    ///
    /// `AllocError` if memory runs out.
    pub fn take_in(&mut self, rest: Tables) -> Result<(), AllocError>
        ensures { OnOk result (TakesIn self.old rest self.new) }
    {
        let first = !self.spawned;
        let spawned = self.spawned || rest.spawned;
        self.sites.join_piece(rest.sites, first)?;
        self.path.append(&rest.path, first)?;
        self.regions.join(rest.regions);
        self.spawned = spawned;
        Ok(())
    }

    /// Includes all events up to this count.
    ///
    /// # Errors
    ///
    /// `AllocError` if memory runs out.
    #[inline(always)]
    pub fn settle(&mut self, count: u64) -> Result<(), AllocError>
        ensures { OnOk result (Settles self.old self.new count) }
    {
        self.sites.note(count)?;
        self.path.note(count);
        Ok(())
    }

    /// Begins a plain call of this site by the instruction before `next`.
    ///
    /// # Errors
    ///
    /// `AllocError` if memory runs out.
    #[inline(always)]
    pub fn call(&mut self, next: u64, site: u32) -> Result<(), AllocError>
        ensures { OnOk result (Opens self.old self.new next false (Some (Invocation site))) }
    {
        if self.call_ready(next, site) {
            return Ok(());
        }
        self.call_apart(next, site)
    }

    // Begins a plain call, like `call`, if this needs no memory. Returns whether this is so; if not, nothing is
    // changed. The functions whose names end in `_ready` all have this result.
    #[inline(always)]
    fn call_ready(&mut self, next: u64, site: u32) -> bool
        ensures opens { result ≡ true → Opens self.old self.new next false (Some (Invocation site)) }
        ensures same { result ≡ false → self.new ≡ self.old }
    {
        late_paths_wait();
        if self.sites.enter_ready(next, site) {
            self.spawned = false;
            return true;
        }
        false
    }

    // Begins a plain call in every case. Like all functions whose names end in `_apart`, it is not inlined, so that a
    // caller that needs no function call keeps no register across it.
    #[cold]
    #[inline(never)]
    fn call_apart(&mut self, next: u64, site: u32) -> Result<(), AllocError>
        ensures { OnOk result (Opens self.old self.new next false (Some (Invocation site))) }
    {
        late_paths_wait();
        self.sites.enter(next, site)?;
        self.spawned = false;
        Ok(())
    }

    /// Begins a spawned call of this site, in this strand, by the instruction before `next`.
    ///
    /// # Errors
    ///
    /// `AllocError` if memory runs out.
    #[inline(always)]
    pub fn spawn(&mut self, next: u64, site: u32) -> Result<(), AllocError>
        ensures { OnOk result (Opens self.old self.new next true (Some (Invocation site))) }
    {
        if self.spawn_ready(next, site) {
            return Ok(());
        }
        self.spawn_apart(next, site)
    }

    // Begins the first spawned call of its block since the last join, like `spawn`, if this needs no memory.
    #[inline(always)]
    fn spawn_ready(&mut self, next: u64, site: u32) -> bool
        ensures opens { result ≡ true → Opens self.old self.new next true (Some (Invocation site)) }
        ensures same { result ≡ false → self.new ≡ self.old }
    {
        if self.can_spawn() {
            if self.sites.spawn_ready(next, site) {
                self.path.note(next);
                self.path.spawn_within(next);
                self.spawned = false;
                return true;
            }
        }
        false
    }

    // Whether the current block has not spawned since its last join, and the heaviest path has room for it.
    #[inline(always)]
    fn can_spawn(&self) -> bool
        ensures first { result ≡ true → self.now.spawned ≡ false }
        ensures room { result ≡ true → weights.HasRoomForBlock self.now.path }
    {
        if self.spawned {
            return false;
        }
        self.path.has_room()
    }

    // Begins a spawned call in every case.
    #[inline(never)]
    fn spawn_apart(&mut self, next: u64, site: u32) -> Result<(), AllocError>
        ensures { OnOk result (Opens self.old self.new next true (Some (Invocation site))) }
    {
        let first = !self.spawned;
        self.sites.spawn(next, site, first)?;
        self.path.note(next);
        self.path.spawn(next, first)?;
        self.spawned = false;
        Ok(())
    }

    /// Begins a plain part that is neither a call nor a region by the instruction before `next`.
    ///
    /// # Errors
    ///
    /// `AllocError` if memory runs out.
    #[inline(always)]
    pub fn begin(&mut self, next: u64) -> Result<(), AllocError>
        ensures { OnOk result (Opens self.old self.new next false None) }
    {
        self.settle(next)?;
        self.spawned = false;
        Ok(())
    }

    /// Begins the spawned half of a loop, in this strand, by the instruction before `next`.
    ///
    /// # Errors
    ///
    /// `AllocError` if memory runs out.
    #[inline(always)]
    pub fn spawn_half(&mut self, next: u64) -> Result<(), AllocError>
        ensures { OnOk result (Opens self.old self.new next true None) }
    {
        let first = !self.spawned;
        self.sites.spawn_half(next, first)?;
        self.path.note(next);
        self.path.spawn(next, first)?;
        self.spawned = false;
        Ok(())
    }

    /// Begins a region of the tag with this number by the instruction before `next`.
    ///
    /// # Errors
    ///
    /// `AllocError` if memory runs out.
    #[inline(always)]
    pub fn begin_region(&mut self, next: u64, tag: u32) -> Result<(), AllocError>
        ensures { OnOk result (OpensRegion self.old self.new next tag) }
    {
        self.settle(next)?;
        let path = self.sites.path();
        let burdened = self.path.weight();
        self.regions.begin(tag, next, path, burdened)?;
        self.spawned = false;
        Ok(())
    }

    /// Joins the current block, which has spawned since its last join, at this count.
    ///
    /// # Errors
    ///
    /// `AllocError` if memory runs out.
    #[inline(never)]
    pub fn join(&mut self, count: u64) -> Result<(), AllocError>
        ensures told { OnOk result (JoinsSpawned self.old self.new count) }
        ensures joined { OnOk result (self.new.spawned ≡ false) }
    {
        if self.sites.record_ready(count) {
            // The sites come last, so that no register is kept across the call that takes out a child's steps.
            self.path.note(count);
            self.path.join(count);
            self.spawned = false;
            self.sites.join_recorded();
            return Ok(());
        }
        self.join_apart(count)
    }

    // Joins the current block, which has spawned since its last join, in every case.
    #[cold]
    #[inline(never)]
    fn join_apart(&mut self, count: u64) -> Result<(), AllocError>
        ensures told { OnOk result (JoinsSpawned self.old self.new count) }
        ensures joined { OnOk result (self.new.spawned ≡ false) }
    {
        self.sites.join(count)?;
        self.path.note(count);
        self.path.join(count);
        self.spawned = false;
        Ok(())
    }

    /// Ends the innermost part, whose block has joined, at this count.
    ///
    /// # Errors
    ///
    /// `AllocError` if memory runs out.
    #[inline(always)]
    pub fn close(&mut self, count: u64, part: Part) -> Result<(), AllocError>
        ensures { OnOk result (Closes self.old self.new count part) }
    {
        match part.kind {
            PartKind::Call => self.close_call(count, part.site, part.spawned),
            _ => self.close_other(count, part),
        }
    }

    // Ends a plain call, whose record has this site and this flag.
    #[inline(always)]
    fn close_call(&mut self, count: u64, site: u32, spawned: bool) -> Result<(), AllocError>
        ensures { OnOk result (Closes self.old self.new count (part_of Call site spawned)) }
    {
        if self.end_call_ready(count, site, spawned) {
            return Ok(());
        }
        self.close_apart(count, PartKind::Call, site, spawned)
    }

    // Ends any other part. It tests the kind last, so that only one test is made for a plain call.
    #[inline(always)]
    fn close_other(&mut self, count: u64, part: Part) -> Result<(), AllocError>
        ensures { OnOk result (Closes self.old self.new count part) }
    {
        if self.close_child_ready(count, part) {
            return Ok(());
        }
        self.close_apart(count, part.kind, part.site, part.spawned)
    }

    // Ends a spawned call, if no step is between the block's base and the child.
    #[inline(always)]
    fn close_child_ready(&mut self, count: u64, part: Part) -> bool
        ensures closes { result ≡ true → Closes self.old self.new count part }
        ensures same { result ≡ false → self.new ≡ self.old }
    {
        if !self.sites.paths.is_first_child() {
            return false;
        }
        match part.kind {
            PartKind::SpawnedCall => self.end_child_ready(count, part),
            _ => false,
        }
    }

    // Ends a plain call, like `end_call`, if this needs no memory.
    #[inline(always)]
    fn end_call_ready(&mut self, count: u64, site: u32, spawned: bool) -> bool
        ensures closes { result ≡ true → Closes self.old self.new count (part_of Call site spawned) }
        ensures same { result ≡ false → self.new ≡ self.old }
    {
        late_paths_wait();
        if self.sites.close_ready(count, site) {
            self.spawned = spawned;
            return true;
        }
        false
    }

    // Ends a spawned call, like `end_spawned_call`, if this needs no memory.
    #[inline(always)]
    fn end_child_ready(&mut self, count: u64, part: Part) -> bool
        requires { HasFirstChild self.old.sites.paths }
        ensures closes { result ≡ true → part.kind ≡ SpawnedCall → Closes self.old self.new count part }
        ensures same { result ≡ false → self.new ≡ self.old }
    {
        if self.sites.end_child_ready(count, part.site) {
            self.path.note(count);
            self.path.end_child(count, self.burden);
            self.spawned = true;
            return true;
        }
        false
    }

    // Ends a part of this kind in every case.
    #[inline(never)]
    fn close_apart(
        &mut self,
        count: u64,
        kind: PartKind,
        site: u32,
        spawned: bool,
    ) -> Result<(), AllocError>
        ensures { OnOk result (Closes self.old self.new count (part_of kind site spawned)) }
    {
        let part = Part {
            kind,
            site,
            spawned,
        };
        match kind {
            PartKind::Call => self.end_call(count, part),
            PartKind::SpawnedCall => self.end_spawned_call(count, part),
            PartKind::Quiet => self.end_quiet(count, part),
            PartKind::Half => self.end_half(count, part),
            PartKind::Region(tag) => self.end_region(count, part, tag),
        }
    }

    #[inline(never)]
    fn end_call(&mut self, count: u64, part: Part) -> Result<(), AllocError>
        ensures { OnOk result (part.kind ≡ Call → Closes self.old self.new count part) }
    {
        late_paths_wait();
        self.sites.leave(count, part.site)?;
        self.spawned = part.spawned;
        Ok(())
    }

    #[inline(never)]
    fn end_spawned_call(&mut self, count: u64, part: Part) -> Result<(), AllocError>
        ensures { OnOk result (part.kind ≡ SpawnedCall → Closes self.old self.new count part) }
    {
        self.sites.end_child(count, part.site)?;
        self.path.note(count);
        self.path.end_child(count, self.burden);
        self.spawned = true;
        Ok(())
    }

    #[inline(never)]
    fn end_quiet(&mut self, count: u64, part: Part) -> Result<(), AllocError>
        ensures { OnOk result (part.kind ≡ Quiet → Closes self.old self.new count part) }
    {
        self.settle(count)?;
        self.spawned = part.spawned;
        Ok(())
    }

    #[inline(never)]
    fn end_half(&mut self, count: u64, part: Part) -> Result<(), AllocError>
        ensures { OnOk result (part.kind ≡ Half → Closes self.old self.new count part) }
    {
        self.sites.end_half(count)?;
        self.path.note(count);
        self.path.end_child(count, self.burden);
        self.spawned = true;
        Ok(())
    }

    #[inline(never)]
    fn end_region(&mut self, count: u64, part: Part, tag: u32) -> Result<(), AllocError>
        ensures { OnOk result (part.kind ≡ Region tag → Closes self.old self.new count part) }
    {
        self.settle(count)?;
        let path = self.sites.path();
        let burdened = self.path.weight();
        self.regions.end(tag, count, path, burdened)?;
        self.spawned = part.spawned;
        Ok(())
    }

    /// Returns the rows of the sites with numbers below `count`, by their numbers. No part may be open, and all
    /// events must be included.
    ///
    /// # Errors
    ///
    /// `AllocError` if memory runs out.
    pub fn site_rows(&self, alloc: Global, count: usize) -> Result<Vec<SiteRow>, AllocError>
        ensures { IfOk result (λ rows. ListsSites self.now count rows.items) }
    {
        // Memory cannot hold 2^32 rows or more.
        let Ok(end) = u32::try_from(count) else {
            return Err(AllocError);
        };
        let owns = self.sites.paths.own_by_site(alloc)?;
        let mut rows = Vec::new(alloc);
        for site in 0..end {
            let own = sum_of(&owns, site);
            rows.push(self.sites.site_with(site, own))?;
        }
        Ok(rows)
    }

    /// Returns the rows of the tags with numbers below `count`, by their numbers. No part may be open.
    ///
    /// # Errors
    ///
    /// `AllocError` if memory runs out.
    pub fn region_rows(&self, alloc: Global, count: usize) -> Result<Vec<RegionRow>, AllocError>
        ensures { IfOk result (λ rows. ListsRegions self.now count rows.items) }
    {
        // Memory cannot hold 2^32 rows or more.
        let Ok(end) = u32::try_from(count) else {
            return Err(AllocError);
        };
        let mut rows = Vec::new(alloc);
        for tag in 0..end {
            rows.push(self.regions.region(tag))?;
        }
        Ok(rows)
    }
}
