//! The meter of a run.

ghost use Rattle.std.specs.Prelude.{◌≡◌, ◌<◌, Some, None, true, false, IfOk, OnOk};
ghost use Rattle.std.specs.Vec.{vec_len, vec_capacity};
ghost use Rattle.cw_model.specs.Trees.{Invocation};
ghost use Rattle.cw_meter.specs.Details as details;
ghost use Rattle.cw_meter.specs.Meters.{Starts, StartsRest, Begins, BeginsRegion, Ends, IsHere, IsOutside, Rests, Returns, Syncs};
ghost use Rattle.cw_meter.specs.Uncounted.{LeavesAny, OpensAny, SyncsAny};
ghost use Rattle.cw_meter.specs.Moves.{ClosesPart, IsOpened, JoinsBlock, LeavesOne, Stacks};
ghost use Rattle.cw_meter.specs.Whole.{Reads};

use crate::detail::Detail;
use crate::parts::{Part, PartKind};
use crate::tables::Tables;
use cw_greedy::recorder::Recorder;
use cw_regions::RegionRow;
use cw_sites::table::SiteRow;
use std::alloc::{AllocError, Global};

/// Work, span and burdened span of a run.
#[derive(Clone, Copy, Debug, PartialEq, Eq)]
pub struct Readings {
    /// The sum of all strands, in instructions.
    pub work: u64,
    /// The weight of a heaviest path, in instructions.
    pub span: u64,
    /// The weight of a heaviest path including the burden that is charged at each of its forks, in instructions.
    pub burdened: u128,
}

/// The measures of a whole run.
#[derive(Debug, Drop)]
pub struct Measures {
    /// The measures of the run.
    pub measure: Readings,
    /// The row of each call site, by its number. Site 0 is the call of `main` by the run itself.
    pub sites: Vec<SiteRow>,
    /// The row of each region tag, by its number.
    pub regions: Vec<RegionRow>,
}

/// The measures of a run so far.
#[derive(Debug, Drop)]
pub struct Meter {
    /// How much is recorded of the run.
    pub(crate) detail: Detail,
    /// The number of open parts, if not all measures are counted. In that case the meter does not use its tables and
    /// `parts`.
    pub(crate) open_parts: u64,
    /// The strands so far, if they are recorded.
    pub(crate) recorder: Recorder,
    pub(crate) tables: Tables,
    /// The open parts, the innermost last.
    pub(crate) parts: Vec<Part>,
}

impl Meter {
    /// Creates the meter of a run that begins, in the call of `main` by the run itself. `detail` says how much is
    /// recorded.
    ///
    /// # Errors
    ///
    /// `AllocError` if memory runs out.
    pub fn new(alloc: Global, detail: Detail) -> Result<Meter, AllocError>
        ensures { IfOk result (λ m. Starts detail m) }
    {
        let tables = Tables::new(alloc, detail.burden())?;
        let mut parts = Vec::new(alloc);
        parts.push(Part {
            kind: PartKind::Call,
            site: 0,
            spawned: false,
        })?;
        Ok(Meter {
            detail,
            open_parts: 1,
            recorder: Recorder::new(alloc),
            tables,
            parts,
        })
    }

    /// Creates the meter of a continuation that was handed out at a spawn. `site` is the site of the spawner's
    /// innermost invocation, and `detail` says how much the run records. The meter knows nothing else of the
    /// enclosing open parts. Allocates nothing.
    pub fn apart(alloc: Global, site: u32, detail: Detail) -> Meter
        ensures { StartsRest detail site result }
    {
        Meter {
            detail,
            open_parts: 0,
            recorder: Recorder::apart(alloc),
            tables: Tables::apart(alloc, site, detail.burden()),
            parts: Vec::new(alloc),
        }
    }

    /// Returns the site of the innermost invocation, if all measures are counted. This is all that the meter of a
    /// continuation of its block needs.
    #[inline(always)]
    pub fn site(&self) -> u32
        ensures { IsHere self.now result }
    {
        self.tables.sites.here
    }

    /// Returns whether no part is open, as in a continuation outside of each call and sync block that it has begun.
    #[inline(always)]
    pub fn is_outside(&self) -> bool
        ensures { IsOutside self.now result }
    {
        if !self.is_counted() {
            return self.open_parts == 0;
        }
        self.parts.len() == 0
    }

    /// Returns whether only values are computed.
    #[inline(always)]
    pub fn records_only_values(&self) -> bool
        ensures { result ≡ details.records_only_values self.now.detail }
    {
        match self.detail {
            Detail::Values => true,
            Detail::Strands => false,
            Detail::Measures(_) => false,
        }
    }

    /// Returns whether all measures are counted.
    #[inline(always)]
    pub fn is_counted(&self) -> bool
        ensures { result ≡ details.is_counted self.now.detail }
    {
        match self.detail {
            Detail::Values => false,
            Detail::Strands => false,
            Detail::Measures(_) => true,
        }
    }

    // Counts one more open part.
    #[inline(always)]
    pub(crate) fn count_part(&mut self)
        ensures { IsOpened self.old self.new }
    {
        self.open_parts = self.open_parts.wrapping_add(1);
    }

    // Ends the innermost part.
    #[inline(always)]
    pub(crate) fn close_part(&mut self)
        ensures { LeavesOne self.old self.new }
    {
        self.open_parts = self.open_parts.wrapping_sub(1);
    }

    /// Begins a part of any kind, after any number of instructions. Call it only in a run that records only values.
    #[inline(always)]
    pub fn open_any(&mut self)
        requires { details.records_only_values self.old.detail ≡ true }
        ensures { OpensAny self.old self.new }
    {
        self.count_part();
    }

    /// Joins the innermost part, of any kind, and ends it. Call it only in a run that records only values.
    #[inline(always)]
    pub fn close_any(&mut self)
        requires { details.records_only_values self.old.detail ≡ true }
        ensures { LeavesAny self.old self.new }
    {
        self.close_part();
    }

    /// Joins the current block, which changes nothing in the meter. Call it only in a run that records only values.
    #[inline(always)]
    pub fn sync_any(&self)
        requires { details.records_only_values self.now.detail ≡ true }
        ensures { SyncsAny self.now }
    {}

    /// Appends, after `count` instructions, the measures of the continuation of the current block: `cost`
    /// instructions up to the block's join, which another meter counted while the spawned call was executed. Later
    /// counts include the instructions of both.
    ///
    /// # Errors
    ///
    /// `AllocError` if memory runs out.
    pub fn rest(&mut self, count: u64, rest: Meter, cost: u64) -> Result<(), AllocError>
        ensures { OnOk result (Rests self.old rest self.new count cost) }
    {
        if !self.is_counted() {
            return self.rest_uncounted(count, rest, cost);
        }
        let mut tables = rest.tables;
        tables.settle(cost)?;
        self.tables.settle(count)?;
        self.tables.take_in(tables)?;
        Ok(())
    }

    /// Begins a plain call of this site by the instruction after `count` instructions.
    ///
    /// # Errors
    ///
    /// `AllocError` if memory runs out.
    #[inline(always)]
    pub fn call(&mut self, count: u64, site: u32) -> Result<(), AllocError>
        ensures { OnOk result (Begins self.old self.new count false (Some (Invocation site))) }
    {
        if !self.is_counted() {
            return self.open_call(count, site);
        }
        self.call_counted(count, site)
    }

    /// Begins a plain call of this site, like `call`, if all measures are counted. The caller knows this, so the
    /// meter does not test it.
    ///
    /// # Errors
    ///
    /// `AllocError` if memory runs out.
    #[inline(always)]
    pub fn call_counted(&mut self, count: u64, site: u32) -> Result<(), AllocError>
        requires { details.is_counted self.old.detail ≡ true }
        ensures { OnOk result (Begins self.old self.new count false (Some (Invocation site))) }
    {
        if !self.has_room() {
            return self.call_apart(count, site);
        }
        self.stack_within(PartKind::Call);
        self.tables.call(count.wrapping_add(1), site)
    }

    // Begins a plain call of this site in every case, if all measures are counted. A separate function, so that
    // `call_counted` keeps no register across a function call if there is room.
    #[cold]
    #[inline(never)]
    fn call_apart(&mut self, count: u64, site: u32) -> Result<(), AllocError>
        requires { details.is_counted self.old.detail ≡ true }
        ensures { OnOk result (Begins self.old self.new count false (Some (Invocation site))) }
    {
        self.stack(PartKind::Call)?;
        self.tables.call(count.wrapping_add(1), site)?;
        Ok(())
    }

    /// Begins a spawned call of this site, in this strand, by the instruction after `count` instructions.
    ///
    /// # Errors
    ///
    /// `AllocError` if memory runs out.
    #[inline(always)]
    pub fn spawn(&mut self, count: u64, site: u32) -> Result<(), AllocError>
        ensures { OnOk result (Begins self.old self.new count true (Some (Invocation site))) }
    {
        if !self.is_counted() {
            return self.open_spawned(count);
        }
        self.spawn_counted(count, site)
    }

    /// Begins a spawned call of this site, like `spawn`, if all measures are counted.
    ///
    /// # Errors
    ///
    /// `AllocError` if memory runs out.
    #[inline(never)]
    pub fn spawn_counted(&mut self, count: u64, site: u32) -> Result<(), AllocError>
        requires { details.is_counted self.old.detail ≡ true }
        ensures { OnOk result (Begins self.old self.new count true (Some (Invocation site))) }
    {
        if !self.has_room() {
            return self.spawn_apart(count, site);
        }
        self.stack_within(PartKind::SpawnedCall);
        self.tables.spawn(count.wrapping_add(1), site)
    }

    // Begins a spawned call of this site in every case, if all measures are counted.
    #[inline(never)]
    fn spawn_apart(&mut self, count: u64, site: u32) -> Result<(), AllocError>
        requires { details.is_counted self.old.detail ≡ true }
        ensures { OnOk result (Begins self.old self.new count true (Some (Invocation site))) }
    {
        self.stack(PartKind::SpawnedCall)?;
        self.tables.spawn(count.wrapping_add(1), site)?;
        Ok(())
    }

    /// Begins a scope, a cut, the first function of a loop, or a plain call of a loop's function, by the instruction
    /// after `count` instructions.
    ///
    /// # Errors
    ///
    /// `AllocError` if memory runs out.
    #[inline(never)]
    pub fn begin(&mut self, count: u64) -> Result<(), AllocError>
        ensures { OnOk result (Begins self.old self.new count false None) }
    {
        if !self.is_counted() {
            return self.open_quiet(count);
        }
        self.stack(PartKind::Quiet)?;
        self.tables.begin(count.wrapping_add(1))?;
        Ok(())
    }

    /// Begins the spawned half of a loop, in this strand, by the instruction after `count` instructions.
    ///
    /// # Errors
    ///
    /// `AllocError` if memory runs out.
    #[inline(never)]
    pub fn spawn_half(&mut self, count: u64) -> Result<(), AllocError>
        ensures { OnOk result (Begins self.old self.new count true None) }
    {
        if !self.is_counted() {
            return self.open_spawned(count);
        }
        self.stack(PartKind::Half)?;
        self.tables.spawn_half(count.wrapping_add(1))?;
        Ok(())
    }

    /// Begins a region of the tag with this number by the instruction after `count` instructions.
    ///
    /// # Errors
    ///
    /// `AllocError` if memory runs out.
    #[inline(never)]
    pub fn begin_region(&mut self, count: u64, tag: u32) -> Result<(), AllocError>
        ensures { OnOk result (BeginsRegion self.old self.new count tag) }
    {
        if !self.is_counted() {
            return self.open_quiet(count);
        }
        self.stack(PartKind::Region(tag))?;
        self.tables.begin_region(count.wrapping_add(1), tag)?;
        Ok(())
    }

    /// Joins the innermost scope, cut or region after `count` instructions, and ends it by the next one.
    ///
    /// # Errors
    ///
    /// `AllocError` if memory runs out.
    #[inline(always)]
    pub fn end(&mut self, count: u64) -> Result<(), AllocError>
        ensures { OnOk result (Ends self.old self.new count) }
    {
        if !self.is_counted() {
            return self.leave_block(count);
        }
        self.join(count)?;
        self.close_apart(count)?;
        Ok(())
    }

    /// Joins the innermost call, or function of a loop, after `count` instructions, and ends it by the next one.
    ///
    /// # Errors
    ///
    /// `AllocError` if memory runs out.
    #[inline(always)]
    pub fn give_back(&mut self, count: u64) -> Result<(), AllocError>
        ensures { OnOk result (Returns self.old self.new count) }
    {
        if !self.is_counted() {
            return self.leave_call(count);
        }
        self.give_back_counted(count)
    }

    /// Joins and ends the innermost call, or function of a loop, like `give_back`, if all measures are counted.
    ///
    /// # Errors
    ///
    /// `AllocError` if memory runs out.
    #[inline(always)]
    pub fn give_back_counted(&mut self, count: u64) -> Result<(), AllocError>
        requires { details.is_counted self.old.detail ≡ true }
        ensures { OnOk result (Returns self.old self.new count) }
    {
        self.join(count)?;
        self.close(count.wrapping_add(1))?;
        Ok(())
    }

    /// Joins the current block after `count` instructions, by the next one.
    ///
    /// # Errors
    ///
    /// `AllocError` if memory runs out.
    #[inline(always)]
    pub fn sync(&mut self, count: u64) -> Result<(), AllocError>
        ensures { OnOk result (Syncs self.old self.new count) }
    {
        if !self.is_counted() {
            return self.join_uncounted(count);
        }
        self.sync_counted(count)
    }

    /// Joins the current block, like `sync`, if all measures are counted.
    ///
    /// # Errors
    ///
    /// `AllocError` if memory runs out.
    #[inline(always)]
    pub fn sync_counted(&mut self, count: u64) -> Result<(), AllocError>
        requires { details.is_counted self.old.detail ≡ true }
        ensures { OnOk result (Syncs self.old self.new count) }
    {
        self.join(count)?;
        Ok(())
    }

    // Records that a part of this kind begins in the current block.
    #[inline(always)]
    fn stack(&mut self, kind: PartKind) -> Result<(), AllocError>
        ensures { OnOk result (Stacks self.old self.new kind) }
    {
        self.parts.push(Part {
            kind,
            site: self.tables.sites.here,
            spawned: self.tables.spawned,
        })?;
        Ok(())
    }

    // Whether there is room for another part.
    #[inline(always)]
    fn has_room(&self) -> bool
        ensures { result ≡ true → vec_len self.now.parts < vec_capacity self.now.parts }
    {
        self.parts.len() < self.parts.capacity()
    }

    // Records that a part of this kind begins in the current block, if there is room for it.
    #[inline(always)]
    fn stack_within(&mut self, kind: PartKind)
        requires { vec_len self.old.parts < vec_capacity self.old.parts }
        ensures { Stacks self.old self.new kind }
    {
        self.parts.push_reserved(Part {
            kind,
            site: self.tables.sites.here,
            spawned: self.tables.spawned,
        });
    }

    // Joins the current block. If the block has spawned nothing, there is nothing to do.
    #[inline(always)]
    fn join(&mut self, count: u64) -> Result<(), AllocError>
        ensures told { OnOk result (JoinsBlock self.old self.new count) }
        ensures joined { OnOk result (self.new.tables.spawned ≡ false) }
        ensures parts { OnOk result (self.new.parts.items ≡ self.old.parts.items) }
        ensures detail { self.new.detail ≡ self.old.detail }
    {
        if self.tables.spawned {
            self.tables.join(count)?;
        }
        Ok(())
    }

    // Ends the innermost part, whose block has joined, at this count.
    #[inline(always)]
    fn close(&mut self, count: u64) -> Result<(), AllocError>
        ensures closes { OnOk result (ClosesPart self.old self.new count) }
        ensures detail { self.new.detail ≡ self.old.detail }
    {
        match self.parts.pop() {
            Some(part) => self.tables.close(count, part),
            None => Ok(()),
        }
    }

    // Ends the innermost part, like `close`, for a scope, a cut or a region. A separate function, so that the loop of
    // a run inlines only the code for ends of calls.
    #[inline(never)]
    fn close_apart(&mut self, count: u64) -> Result<(), AllocError>
        ensures closes { OnOk result (ClosesPart self.old self.new count) }
        ensures detail { self.new.detail ≡ self.old.detail }
    {
        self.close(count)?;
        Ok(())
    }

    /// Returns the measures of a run that has ended after `count` instructions and of which all measures are counted.
    /// `sites` is the number of call sites, including the call of `main` by the run itself, and `tags` is the number
    /// of tags.
    ///
    /// # Errors
    ///
    /// `AllocError` if memory runs out.
    pub fn finish(
        self,
        alloc: Global,
        count: u64,
        sites: usize,
        tags: usize,
    ) -> Result<Measures, AllocError>
        ensures reads { IfOk result (λ all. Reads self count sites tags all) }
        ensures counted { IfOk result (λ all. all.measure.work ≡ count) }
    {
        let mut tables = self.tables;
        tables.settle(count)?;
        let measure = Readings {
            work: count,
            span: tables.sites.path(),
            burdened: tables.path.weight(),
        };
        let sites = tables.site_rows(alloc, sites)?;
        let regions = tables.region_rows(alloc, tags)?;
        Ok(Measures {
            measure,
            sites,
            regions,
        })
    }
}
