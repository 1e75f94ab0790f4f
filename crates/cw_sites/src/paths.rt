//! The path of the current strand, and the paths of the enclosing blocks that have spawned.
//!
//! The steps of all paths are in one list, path after path, and the steps of one path have no order. So a gap in the
//! middle is filled from the end: at most twice as many steps move as are dropped (`WritesWithin`). New steps of a
//! site are added to its last steps if these are still in the current path, so a path of plain calls has few steps
//! for each site. The limit of a path is a constant plus twice the number of sites of the paths that were merged so
//! far. If a path is longer than its limit, its steps are merged by site, and it then has at most half of the limit.
//! This is checked for the current path before a step is added to it, and for the base of a block when it takes a
//! continuation in. So each step pays once for its moves and its merge, for paths of any length that are joined.

ghost use Rattle.std.specs.Prelude.{◌≡◌, ℕ, ◌+◌, ◌-◌, ◌^◌, ◌<◌, ◌≤◌, ◌==◌, true, length, min, if◌then◌else◌, IfOk, OnOk};
ghost use Rattle.std.specs.Vec.{vec_len, vec_capacity};
ghost use Rattle.cw_sites.specs.Compacting.{AddsUpWithin, CountsOn, EndsWithin};
ghost use Rattle.cw_sites.specs.PathBounds.{ComesToFit, FitsAt, FitsBeside, GrowsAt, GrowsWithin, IsTight, JoinsTight, JoinsTightWith, KeepsLimit};
ghost use Rattle.cw_sites.specs.PathBounds.{StaysShort, StaysTight, StaysTightBeside, StaysTightWith};
ghost use Rattle.cw_sites.specs.PathCalls.{ReadsOwn, ReadsOwnBySite};
ghost use Rattle.cw_sites.specs.StepLists.{strand_path, Comes, ComesWithin, ClosesBlock, Extends, GathersBase, GrowsByOne, IsShort, IsWithinLimit};
ghost use Rattle.cw_sites.specs.StepLists.{HasFirstChild, HasRoom, HasRoomForBlock};
ghost use Rattle.cw_sites.specs.StepLists.{AddsStep, Appends, AppendsBlock, ExtendsAt, ExtendsBy, Forks, JoinsBlock, KeepsBlocks};
ghost use Rattle.cw_sites.specs.StepLists.{Laid, LaidWith, LetsChildGo, SaysTheSame, TakesChild};
ghost use Rattle.cw_sites.specs.StepSums.{HasSteps, StaysBelow};
ghost use Rattle.cw_sites.specs.StrandPaths.{nothing_run, begins, again, spawns, is_longer, ends, joins};

use crate::compacting::{add_up, sum_up};
use crate::steps::{Steps, add_steps, close_up, grow_steps, has_steps, take_out};
use std::alloc::{AllocError, Global};

/// A block that has spawned since its last join: the weights of its paths, and the places of their steps in the list.
#[derive(Clone, Copy, Debug)]
pub struct ForkedBlock {
    /// The path up to the spawn of the longest child; its steps are from `from` to `mid`.
    pub base: u64,
    /// The longest child that has ended, from its spawn on; its steps are from `mid` to `end`.
    pub longest: Option<u64>,
    /// While a child runs: the path from that spawn to the child's spawn; its steps are from `end` to `child`.
    pub rest: u64,
    pub from: usize,
    pub mid: usize,
    pub end: usize,
    pub child: usize,
}

/// The chosen path so far, in parts that are never copied.
#[derive(Debug, Drop)]
pub struct Paths {
    /// The steps of all paths; the current strand's path is the last.
    pub steps: Vec<Steps>,
    /// The weight of the current strand's path, from its start or from the spawn of the longest child.
    pub weight: u64,
    /// The place where the steps of this path begin.
    pub start: usize,
    /// The blocks that have spawned, the innermost last.
    pub blocks: Vec<ForkedBlock>,
    /// The number of steps that a path may have before steps of equal sites are merged.
    pub limit: usize,
}

// The initial limit of a path, and the constant that is added to twice the number of sites.
const LEAST: usize = 64;

impl Paths {
    /// Returns the empty path. Allocates no memory.
    pub fn new(alloc: Global) -> Paths
        ensures laid { Laid result }
        ensures nothing { (q : ℕ) → strand_path q result ≡ nothing_run }
        ensures bounded { (most : ℕ) → IsTight most result }
    {
        Paths {
            steps: Vec::new(alloc),
            weight: 0,
            start: 0,
            blocks: Vec::new(alloc),
            limit: LEAST,
        }
    }

    /// Adds `count` instructions of a site. `place` is the place of the site's last steps, or any other number.
    /// Returns the place of the new steps if they are elsewhere.
    ///
    /// # Errors
    ///
    /// Returns an `AllocError` if memory runs out.
    #[inline(always)]
    pub fn extend(
        &mut self,
        place: usize,
        site: u32,
        count: u64,
    ) -> Result<Option<usize>, AllocError>
        ensures laid { OnOk result (Laid self.old → Laid self.new) }
        ensures strand_path { OnOk result (Extends self.old self.new site count) }
        ensures short { OnOk result (IsShort self.new) }
        ensures bounded { OnOk result (FitsAt site self.old self.new) }
    {
        self.shorten()?;
        let at = self.add(place, site, count)?;
        Ok(at)
    }

    // Adds `count` instructions of a site, like `extend`, to a path of any length.
    #[inline(always)]
    fn add(&mut self, place: usize, site: u32, count: u64) -> Result<Option<usize>, AllocError>
        ensures laid { OnOk result (Laid self.old → Laid self.new) }
        ensures strand_path { OnOk result (Extends self.old self.new site count) }
        ensures short { OnOk result (GrowsByOne self.old self.new) }
        ensures limit { OnOk result (self.new.limit ≡ self.old.limit) }
        ensures start { OnOk result (self.new.start ≡ self.old.start) }
        ensures bounded { OnOk result (GrowsAt site self.old self.new) }
    {
        let at = add_steps(&mut self.steps, self.start, place, site, count)?;
        self.weight = self.weight.wrapping_add(count);
        Ok(at)
    }

    /// Returns whether the current path is within its limit.
    #[inline(always)]
    pub fn is_within_limit(&self) -> bool
        ensures { result ≡ true → IsWithinLimit self.now }
    {
        // `shorten` has the same comparison.
        self.steps.len() <= self.start.wrapping_add(self.limit)
    }

    /// Returns whether the current path is within its limit and there is room for more steps.
    #[inline(always)]
    pub fn has_room(&self) -> bool
        ensures { result ≡ true → HasRoom self.now }
    {
        if self.is_within_limit() {
            return self.steps.len() < self.steps.capacity();
        }
        false
    }

    /// Returns whether the current path has steps of this site at this place.
    #[inline(always)]
    pub fn has_steps(&self, place: usize, site: u32) -> bool
        ensures { result ≡ true → HasSteps self.now.start place site self.now.steps.items }
    {
        has_steps(&self.steps, self.start, place, site)
    }

    /// Adds `count` instructions to the steps at this place in the current path.
    #[inline(always)]
    pub fn grow(&mut self, place: usize, count: u64)
        requires within { place < length self.old.steps.items }
        requires behind { self.old.start ≤ place }
        ensures laid { Laid self.old → Laid self.new }
        ensures strand_path { ExtendsAt place self.old self.new count }
        ensures bounded { (site : ℕ) → GrowsWithin site self.old self.new }
        ensures short { IsWithinLimit self.old → IsShort self.new }
        ensures blocks { self.new.blocks ≡ self.old.blocks }
    {
        grow_steps(&mut self.steps, place, count);
        self.weight = self.weight.wrapping_add(count);
    }

    /// Adds `count` instructions of a site as new steps, for which there must be room. Returns their place.
    #[inline(always)]
    pub fn put(&mut self, site: u32, count: u64) -> usize
        requires { HasRoom self.old }
        ensures laid { Laid self.old → Laid self.new }
        ensures strand_path { Extends self.old self.new site count }
        ensures bounded { GrowsWithin site self.old self.new }
        ensures short { IsShort self.new }
        ensures blocks { self.new.blocks ≡ self.old.blocks }
    {
        let place = self.steps.len();
        self.steps.push_reserved(Steps { site, count });
        self.weight = self.weight.wrapping_add(count);
        place
    }

    // Merges the steps of the current path by site if it is longer than its limit.
    #[inline(always)]
    fn shorten(&mut self) -> Result<(), AllocError>
        ensures laid { OnOk result (Laid self.old → Laid self.new) }
        ensures same { OnOk result (SaysTheSame self.old self.new) }
        ensures short { OnOk result (IsWithinLimit self.new) }
        ensures bounded { OnOk result (ComesToFit self.old self.new) }
    {
        // If the sum wraps around, it is smaller, so no longer path is let through.
        let end = self.steps.len();
        if end > self.start.wrapping_add(self.limit) {
            self.compact(self.start, end)?;
        }
        Ok(())
    }

    // Merges the steps from one place up to another by site. Returns the place where they end.
    #[cold]
    #[inline(never)]
    fn compact(&mut self, from: usize, to: usize) -> Result<usize, AllocError>
        ensures all { IfOk result (AddsUpWithin from to self.old.steps.items self.new.steps.items) }
        ensures short { IfOk result (EndsWithin from to self.new.limit self.old.steps.items) }
        ensures count { IfOk result (CountsOn to self.old.steps.items self.new.steps.items) }
        ensures kept { OnOk result (StaysBelow self.old.steps.items self.new.steps.items) }
        ensures limit { OnOk result (KeepsLimit self.old self.new) }
        ensures rest { OnOk result (KeepsBlocks self.old self.new) }
        ensures room { OnOk result (self.new.blocks ≡ self.old.blocks) }
    {
        let end = add_up(&mut self.steps, from, to)?;
        let twice = end.saturating_sub(from).saturating_mul(2);
        self.limit = self.limit.max(twice.saturating_add(LEAST));
        Ok(end)
    }

    /// Begins the first spawned part of a block since its last join.
    ///
    /// # Errors
    ///
    /// Returns an `AllocError` if memory runs out.
    #[inline(always)]
    pub fn begin(&mut self) -> Result<(), AllocError>
        ensures laid { OnOk result (Laid self.old → Laid self.new) }
        ensures bounded { OnOk result (StaysTight self.old self.new) }
        ensures strand_path { OnOk result (Comes begins self.old self.new) }
    {
        let len = self.steps.len();
        self.blocks.push(ForkedBlock {
            base: self.weight,
            longest: None,
            rest: 0,
            from: self.start,
            mid: len,
            end: len,
            child: len,
        })?;
        self.weight = 0;
        self.start = len;
        Ok(())
    }

    /// Returns whether there is room for a block.
    #[inline(always)]
    pub fn has_room_for_block(&self) -> bool
        ensures { result ≡ true → HasRoomForBlock self.now }
    {
        self.blocks.len() < self.blocks.capacity()
    }

    /// Begins the first spawned part of a block since its last join, like `begin`. There must be room for a block.
    #[inline(always)]
    pub fn begin_within(&mut self)
        requires { HasRoomForBlock self.old }
        ensures laid { Laid self.old → Laid self.new }
        ensures bounded { StaysTight self.old self.new }
        ensures strand_path { Comes begins self.old self.new }
    {
        let len = self.steps.len();
        self.blocks.push_reserved(ForkedBlock {
            base: self.weight,
            longest: None,
            rest: 0,
            from: self.start,
            mid: len,
            end: len,
            child: len,
        });
        self.weight = 0;
        self.start = len;
    }

    /// Begins a further spawned part of the innermost block that has spawned.
    ///
    /// # Errors
    ///
    /// Returns an `AllocError` if memory runs out.
    #[inline(always)]
    pub fn begin_again(&mut self) -> Result<(), AllocError>
        ensures laid { OnOk result (Laid self.old → Laid self.new) }
        ensures bounded { OnOk result (StaysTight self.old self.new) }
        ensures strand_path { OnOk result (Comes again self.old self.new) }
    {
        match self.blocks.pop() {
            None => {
                self.steps.clear();
                self.weight = 0;
                self.start = 0;
                Ok(())
            }
            Some(f) => {
                // Removes nothing if the child before has ended.
                take_out(&mut self.steps, f.end, f.child);
                let len = self.steps.len();
                self.blocks.push_reserved(ForkedBlock {
                    base: f.base,
                    longest: f.longest,
                    rest: self.weight,
                    from: f.from,
                    mid: f.mid,
                    end: f.end,
                    child: len,
                });
                self.weight = 0;
                self.start = len;
                Ok(())
            }
        }
    }

    /// Begins a spawned part: the first of its block since the last join, or a further one.
    ///
    /// # Errors
    ///
    /// Returns an `AllocError` if memory runs out.
    #[inline(always)]
    pub fn spawn(&mut self, first: bool) -> Result<(), AllocError>
        ensures laid { OnOk result (Laid self.old → Laid self.new) }
        ensures bounded { OnOk result (StaysTight self.old self.new) }
        ensures strand_path { OnOk result (Comes (spawns first) self.old self.new) }
    {
        if first {
            self.begin()?;
            Ok(())
        } else {
            self.begin_again()?;
            Ok(())
        }
    }

    /// Ends the current spawned child.
    ///
    /// # Errors
    ///
    /// Returns an `AllocError` if memory runs out.
    #[inline(always)]
    pub fn end(&mut self) -> Result<(), AllocError>
        ensures laid { OnOk result (Laid self.old → Laid self.new) }
        ensures bounded { OnOk result (StaysTight self.old self.new) }
        ensures strand_path { OnOk result (ComesWithin ends self.old self.new) }
    {
        match self.blocks.pop() {
            None => Ok(()),
            Some(f) => {
                if is_longest(f, self.weight) {
                    self.take(f)?;
                    Ok(())
                } else {
                    self.let_go(f);
                    Ok(())
                }
            }
        }
    }

    /// Returns whether no step of the current block is between its base and its child, as for its first child.
    #[inline(always)]
    pub fn is_first_child(&self) -> bool
        ensures { result ≡ true → HasFirstChild self.now }
    {
        match self.blocks.last() {
            Some(f) => f.mid == f.child,
            None => true,
        }
    }

    /// Ends the current spawned child, like `end`. No step may be between the block's base and the child.
    #[inline(always)]
    pub fn end_first(&mut self)
        requires { HasFirstChild self.old }
        ensures laid { Laid self.old → Laid self.new }
        ensures bounded { StaysTight self.old self.new }
        ensures strand_path { ComesWithin ends self.old self.new }
    {
        if let Some(f) = self.blocks.pop() {
            if is_longest(f, self.weight) {
                self.take_first(f);
            } else {
                self.let_go(f);
            }
        }
    }

    // Makes the current child the longest of this block, like `take`. The block's base must end where the child
    // begins.
    #[inline(always)]
    fn take_first(&mut self, f: ForkedBlock)
        requires room { vec_len self.old.blocks < vec_capacity self.old.blocks }
        requires first { f.mid ≡ f.child }
        ensures laid { LaidWith self.old f → Laid self.new }
        ensures bounded { StaysTightWith self.old f self.new }
        ensures strand_path { TakesChild self.old self.new f }
    {
        let len = self.steps.len();
        self.blocks.push_reserved(ForkedBlock {
            base: f.base.wrapping_add(f.rest),
            longest: Some(self.weight),
            rest: 0,
            from: f.from,
            mid: f.mid,
            end: len,
            child: len,
        });
        self.weight = 0;
        self.start = len;
    }

    // Makes the current child the longest of this block, and removes the one that was the longest.
    #[inline(always)]
    fn take(&mut self, f: ForkedBlock) -> Result<(), AllocError>
        requires room { vec_len self.old.blocks < vec_capacity self.old.blocks }
        ensures laid { OnOk result (LaidWith self.old f → Laid self.new) }
        ensures bounded { OnOk result (StaysTightWith self.old f self.new) }
        ensures strand_path { OnOk result (TakesChild self.old self.new f) }
    {
        let mid = self.gather(f)?;
        let len = self.steps.len();
        self.blocks.push_reserved(ForkedBlock {
            base: f.base.wrapping_add(f.rest),
            longest: Some(self.weight),
            rest: 0,
            from: f.from,
            mid,
            end: len,
            child: len,
        });
        self.weight = 0;
        self.start = len;
        Ok(())
    }

    // Extends the base of this block up to the current child. Returns the place where it ends.
    #[inline(always)]
    fn gather(&mut self, f: ForkedBlock) -> Result<usize, AllocError>
        ensures all { IfOk result (λ mid. GathersBase self.old self.new f mid) }
        ensures short { IfOk result (λ mid. StaysShort self.old self.new f mid) }
        ensures rest { OnOk result (KeepsBlocks self.old self.new) }
        ensures room { OnOk result (self.new.blocks ≡ self.old.blocks) }
    {
        // For the first child of the block, the base already ends at its spawn.
        if f.mid == f.child {
            return Ok(f.mid);
        }
        // This is a copy, so that only a later child's block is in memory for the call.
        let later = ForkedBlock {
            base: f.base,
            longest: f.longest,
            rest: f.rest,
            from: f.from,
            mid: f.mid,
            end: f.end,
            child: f.child,
        };
        let mid = self.gather_steps(later)?;
        Ok(mid)
    }

    // Extends the base of this block up to the current child, also if there are steps between them. Returns the place
    // where the base ends.
    #[inline(never)]
    fn gather_steps(&mut self, f: ForkedBlock) -> Result<usize, AllocError>
        ensures all { IfOk result (λ mid. GathersBase self.old self.new f mid) }
        ensures short { IfOk result (λ mid. StaysShort self.old self.new f mid) }
        ensures rest { OnOk result (KeepsBlocks self.old self.new) }
        ensures room { OnOk result (self.new.blocks ≡ self.old.blocks) }
    {
        let mid = close_up(&mut self.steps, f.mid, f.end, f.child);
        if mid > f.from.wrapping_add(self.limit) {
            let end = self.compact(f.from, mid)?;
            return Ok(end);
        }
        Ok(mid)
    }

    // Drops the steps of the current child, which is not the longest of this block.
    #[inline(always)]
    fn let_go(&mut self, f: ForkedBlock)
        requires room { vec_len self.old.blocks < vec_capacity self.old.blocks }
        ensures laid { LaidWith self.old f → Laid self.new }
        ensures bounded { StaysTightWith self.old f self.new }
        ensures strand_path { LetsChildGo self.old self.new f }
    {
        self.steps.truncate(f.child);
        self.blocks.push_reserved(ForkedBlock {
            base: f.base,
            longest: f.longest,
            rest: 0,
            from: f.from,
            mid: f.mid,
            end: f.end,
            child: f.end,
        });
        self.weight = f.rest;
        self.start = f.end;
    }

    /// Joins the innermost block that has spawned.
    #[inline(always)]
    pub fn join(&mut self)
        ensures laid { Laid self.old → Laid self.new }
        ensures bounded { JoinsTight self.old self.new }
        ensures strand_path { ComesWithin joins self.old self.new }
    {
        if let Some(f) = self.blocks.pop() {
            self.join_block(f);
        }
    }

    /// Returns the instructions of one site on the current strand's path.
    pub fn own(&self, site: u32) -> u64
        ensures { ReadsOwn self.now site result }
    {
        let mut sum = 0u64;
        for i in self.start..self.steps.len() {
            let steps = self.steps[i];
            sum = with_steps(sum, steps, site);
        }
        sum
    }

    /// Returns the instructions of each site on the current strand's path, by site number, with one traversal of the
    /// path; sites after the end of the list have none.
    ///
    /// # Errors
    ///
    /// Returns an `AllocError` if memory runs out.
    pub fn own_by_site(&self, alloc: Global) -> Result<Vec<u64>, AllocError>
        ensures { IfOk result (λ sums. ReadsOwnBySite self.now sums.items) }
    {
        let mut sums = Vec::new(alloc);
        sum_up(&self.steps, self.start, self.steps.len(), &mut sums)?;
        Ok(sums)
    }

    // Joins this block.
    #[inline(always)]
    fn join_block(&mut self, f: ForkedBlock)
        ensures laid { LaidWith self.old f → Laid self.new }
        ensures bounded { JoinsTightWith self.old f self.new }
        ensures strand_path { JoinsBlock self.old self.new f }
    {
        match f.longest {
            Some(l) if l >= self.weight => {
                self.steps.truncate(f.end);
                self.weight = f.base.wrapping_add(l);
                self.start = f.from;
            }
            _ => {
                self.close(f);
            }
        }
    }

    // Joins this block and removes its longest child.
    #[inline(always)]
    fn close(&mut self, f: ForkedBlock)
        ensures laid { LaidWith self.old f → Laid self.new }
        ensures bounded { JoinsTightWith self.old f self.new }
        ensures strand_path { ClosesBlock self.old self.new f }
    {
        let start = self.start;
        self.weight = f.base.wrapping_add(self.weight);
        self.start = f.from;
        take_out(&mut self.steps, f.mid, start);
    }

    /// Appends the path of a piece of the current block that was executed separately and has no open part; `first`
    /// says that the block has not spawned since its last join.
    ///
    /// # Errors
    ///
    /// Returns an `AllocError` if memory runs out.
    pub fn append(&mut self, piece: Paths, first: bool) -> Result<(), AllocError>
        ensures laid { OnOk result (Laid self.old → Laid self.new) }
        ensures bounded { OnOk result (FitsBeside piece.steps.items self.old self.new) }
        ensures strand_path { OnOk result (Appends self.old piece self.new first) }
    {
        self.shorten()?;
        self.append_piece(piece, first)?;
        Ok(())
    }

    // Appends the path of a piece, like `append`, if the current path is within its limit.
    fn append_piece(&mut self, piece: Paths, first: bool) -> Result<(), AllocError>
        ensures laid { OnOk result (Laid self.old → Laid self.new) }
        ensures bounded { OnOk result (StaysTightBeside piece.steps.items self.old self.new) }
        ensures strand_path { OnOk result (Appends self.old piece self.new first) }
    {
        let mut piece = piece;
        match piece.blocks.pop() {
            None => {
                let end = piece.steps.len();
                self.extend_by(&piece.steps, piece.start, end, piece.weight)?;
                Ok(())
            }
            Some(f) => {
                self.append_block(&piece, f, first)?;
                Ok(())
            }
        }
    }

    // Appends the path of a piece that has spawned since its last join.
    fn append_block(&mut self, piece: &Paths, f: ForkedBlock, first: bool) -> Result<(), AllocError>
        ensures laid { OnOk result (Laid self.old → Laid self.new) }
        ensures bounded { OnOk result (StaysTightBeside piece.now.steps.items self.old self.new) }
        ensures strand_path { OnOk result (AppendsBlock self.old piece.now self.new f first) }
    {
        self.extend_by(&piece.steps, f.from, f.mid, f.base)?;
        if let Some(child) = f.longest {
            self.fork_by(first, &piece.steps, f.mid, f.end, child)?;
        }
        let end = piece.steps.len();
        self.extend_by(&piece.steps, piece.start, end, piece.weight)?;
        Ok(())
    }

    // Adds a spawned child that was executed separately; its path is a part of `steps`.
    fn fork_by(
        &mut self,
        first: bool,
        steps: &Vec<Steps>,
        from: usize,
        to: usize,
        weight: u64,
    ) -> Result<(), AllocError>
        ensures laid { OnOk result (Laid self.old → Laid self.new) }
        ensures bounded { OnOk result (StaysTightBeside steps.now.items self.old self.new) }
        ensures path { OnOk result (Forks self.old self.new first steps.now.items from to weight) }
    {
        self.spawn(first)?;
        self.extend_by(steps, from, to, weight)?;
        self.end()?;
        Ok(())
    }

    // Adds the steps of a list from one place up to another, of this weight.
    fn extend_by(
        &mut self,
        steps: &Vec<Steps>,
        from: usize,
        to: usize,
        weight: u64,
    ) -> Result<(), AllocError>
        ensures laid { OnOk result (Laid self.old → Laid self.new) }
        ensures bounded { OnOk result (StaysTightBeside steps.now.items self.old self.new) }
        ensures path { OnOk result (ExtendsBy self.old self.new steps.now.items from to weight) }
    {
        let end = to.min(steps.len());
        for i in from..end {
            let one = steps[i];
            self.step(one)?;
        }
        self.weight = self.weight.saturating_add(weight);
        Ok(())
    }

    // Adds these steps; the caller adds their weight.
    fn step(&mut self, one: Steps) -> Result<(), AllocError>
        ensures laid { OnOk result (Laid self.old → Laid self.new) }
        ensures bounded { OnOk result (FitsAt one.site self.old self.new) }
        ensures strand_path { OnOk result (AddsStep self.old self.new one) }
    {
        self.shorten()?;
        self.add_step(one)?;
        Ok(())
    }

    // Adds these steps, like `step`, to a path of any length.
    fn add_step(&mut self, one: Steps) -> Result<(), AllocError>
        ensures laid { OnOk result (Laid self.old → Laid self.new) }
        ensures bounded { OnOk result (GrowsAt one.site self.old self.new) }
        ensures strand_path { OnOk result (AddsStep self.old self.new one) }
    {
        // The last steps may be of the same site.
        let last = self.steps.len().wrapping_sub(1);
        let _at = add_steps(&mut self.steps, self.start, last, one.site, one.count)?;
        Ok(())
    }
}

// Returns whether the current child, on a path of this weight, is the longest of its block.
#[inline(always)]
fn is_longest(f: ForkedBlock, child: u64) -> bool
    ensures { f.rest + child < 2 ^ 64 → result ≡ is_longer f.longest (f.rest + child) }
{
    match f.longest {
        None => true,
        Some(l) => l < f.rest.saturating_add(child),
    }
}

// Returns the sum, plus these steps if they belong to the site.
fn with_steps(sum: u64, steps: Steps, site: u32) -> u64
    ensures { result ≡ (if steps.site == site then min (sum + steps.count) (2 ^ 64 - 1) else sum) }
{
    if steps.site == site {
        sum.saturating_add(steps.count)
    } else {
        sum
    }
}
