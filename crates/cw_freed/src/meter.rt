//! A meter of a run in which some sites cost nothing.

ghost use Rattle.std.specs.Prelude.{◌≡◌, ◌≤◌, ◌<◌, true, false, OnOk};
ghost use Rattle.std.specs.Vec.{vec_len, vec_capacity};
ghost use Rattle.cw_freed.specs.Freeing.{since, BeginsCall, BeginsChild, BeginsHalf, BeginsQuiet, ClosesPart, Ends, IsReady, JoinsBlock, Leaves, Reads, Returns, Settles, Stacks, Starts, Syncs};

use crate::laws::instructions_need_no_call;
use crate::paths::Paths;
use cw_measure::laws::late_paths_wait;
use cw_model::burden::Burden;
use std::alloc::{AllocError, Global};

/// The spans that a run would have if the instructions of some sites' invocations cost nothing.
#[derive(Clone, Copy, Debug, PartialEq, Eq)]
pub struct Freed {
    /// The weight of a heaviest path, in instructions.
    pub span: u64,
    /// The weight of a heaviest path with the charge for each fork that it goes through, in instructions.
    pub burdened: u128,
}

/// An open part of a run, and the state of the enclosing block.
#[derive(Clone, Copy, Debug)]
pub(crate) struct Part {
    /// Whether it was spawned.
    pub child: bool,
    /// Whether the enclosing block, after the end of this part, has spawned since its last join.
    pub spawned: bool,
    /// Whether the innermost invocation around it is of a free site.
    pub free: bool,
}

/// The heaviest paths of a run so far, if the instructions of some sites' invocations cost nothing.
#[derive(Debug, Drop)]
pub struct FreedMeter {
    pub(crate) paths: Paths,
    /// The number of the noted instructions that are not free.
    pub(crate) counted: u64,
    /// The number of instructions that are noted.
    pub(crate) noted: u64,
    /// Whether the innermost open invocation is of a free site.
    pub(crate) free: bool,
    /// Whether the current block has spawned since its last join.
    pub(crate) spawned: bool,
    /// The open parts of the run, without the run itself, the innermost last.
    pub(crate) parts: Vec<Part>,
}

impl FreedMeter {
    /// Returns the meter of a run at its start, in the run's own call of `main`, whose site is 0. `free` says whether
    /// this site is free, and `burden` is the charge for a spawn. Allocates no memory.
    pub fn new(alloc: Global, burden: Burden, free: bool) -> FreedMeter
        ensures { Starts burden free result }
    {
        FreedMeter {
            paths: Paths::new(alloc, burden),
            counted: 0,
            noted: 0,
            free,
            spawned: false,
            parts: Vec::new(alloc),
        }
    }

    // Returns the number of instructions since the noted ones that are not free.
    #[inline(always)]
    fn since(&self, count: u64) -> u64
        ensures { self.now.noted ≤ count → result ≡ since self.now count }
    {
        if self.free {
            0
        } else {
            count.wrapping_sub(self.noted)
        }
    }

    // Notes the instructions up to this count.
    #[inline(always)]
    fn settle(&mut self, count: u64)
        ensures { Settles self.old self.new count }
    {
        self.counted = self.counted.wrapping_add(self.since(count));
        self.noted = count;
    }

    // Begins a part in the current block, in an invocation of a free site or not; `spawned` says whether the block,
    // after the end of the part, has spawned.
    #[inline(always)]
    fn stack(&mut self, child: bool, spawned: bool, free: bool) -> Result<(), AllocError>
        ensures { OnOk result (Stacks self.old self.new child spawned free) }
    {
        self.parts.push(Part {
            child,
            spawned,
            free: self.free,
        })?;
        self.spawned = false;
        self.free = free;
        Ok(())
    }

    // Begins a part in the current block, like `stack`. There must be room for it.
    #[inline(always)]
    fn stack_within(&mut self, child: bool, spawned: bool, free: bool)
        requires { vec_len self.old.parts < vec_capacity self.old.parts }
        ensures { Stacks self.old self.new child spawned free }
    {
        self.parts.push_reserved(Part {
            child,
            spawned,
            free: self.free,
        });
        self.spawned = false;
        self.free = free;
    }

    // Returns whether the current block has not spawned since its last join, and there is room for a spawned part.
    #[inline(always)]
    fn is_ready(&self) -> bool
        ensures { result ≡ true → IsReady self.now }
    {
        !self.spawned && self.parts.len() < self.parts.capacity() && self.paths.have_room()
    }

    /// Begins a spawned call with the instruction after `count` others; `free` says whether its site is free.
    ///
    /// # Errors
    ///
    /// Returns an `AllocError` if memory runs out. The meter is then meaningless.
    #[inline(never)]
    pub fn spawn(&mut self, count: u64, free: bool) -> Result<(), AllocError>
        ensures { OnOk result (BeginsChild self.old self.new count free) }
    {
        if self.is_ready() {
            self.spawn_ready(count, free);
            return Ok(());
        }
        self.spawn_apart(count, free)
    }

    // Begins a spawned call, like `spawn`. The meter must be ready (`is_ready`).
    #[inline(always)]
    fn spawn_ready(&mut self, count: u64, free: bool)
        requires { IsReady self.old }
        ensures { BeginsChild self.old self.new count free }
    {
        late_paths_wait();
        self.settle(count.wrapping_add(1));
        self.paths.spawn_first(self.counted);
        self.stack_within(true, true, free);
    }

    // Begins a spawned call in every case, like `spawn`, out of line, so that the caller need not save anything
    // across a call.
    #[inline(never)]
    fn spawn_apart(&mut self, count: u64, free: bool) -> Result<(), AllocError>
        ensures { OnOk result (BeginsChild self.old self.new count free) }
    {
        late_paths_wait();
        self.settle(count.wrapping_add(1));
        self.paths.spawn(self.counted, !self.spawned)?;
        self.stack(true, true, free)?;
        Ok(())
    }

    /// Begins the spawned half of a loop with the instruction after `count` others.
    ///
    /// # Errors
    ///
    /// Returns an `AllocError` if memory runs out. The meter is then meaningless.
    pub fn spawn_half(&mut self, count: u64) -> Result<(), AllocError>
        ensures { OnOk result (BeginsHalf self.old self.new count) }
    {
        self.spawn(count, self.free)?;
        Ok(())
    }

    /// Begins a plain call with the instruction after `count` others; `free` says whether its site is free.
    ///
    /// # Errors
    ///
    /// Returns an `AllocError` if memory runs out. The meter is then meaningless.
    #[inline(always)]
    pub fn call(&mut self, count: u64, free: bool) -> Result<(), AllocError>
        ensures { OnOk result (BeginsCall self.old self.new count free) }
    {
        late_paths_wait();
        self.settle(count.wrapping_add(1));
        self.stack(false, self.spawned, free)?;
        Ok(())
    }

    /// Begins a scope, a cut, a region or a plain call of a loop's function with the instruction after `count`
    /// others.
    ///
    /// # Errors
    ///
    /// Returns an `AllocError` if memory runs out. The meter is then meaningless.
    #[inline(never)]
    pub fn begin(&mut self, count: u64) -> Result<(), AllocError>
        ensures { OnOk result (BeginsQuiet self.old self.new count) }
    {
        late_paths_wait();
        self.stack(false, self.spawned, self.free)?;
        Ok(())
    }

    /// Joins the innermost scope, cut or region after `count` instructions, and ends it with the next instruction.
    #[inline(never)]
    pub fn end(&mut self, count: u64)
        ensures { Ends self.old self.new count }
    {
        instructions_need_no_call();
        self.join(count);
        self.close(count);
    }

    /// Joins the innermost call, or function of a loop, after `count` instructions, and ends it with the next
    /// instruction.
    #[inline(always)]
    pub fn give_back(&mut self, count: u64)
        ensures { Returns self.old self.new count }
    {
        instructions_need_no_call();
        self.join(count);
        self.close(count.wrapping_add(1));
    }

    /// Joins the current block after `count` instructions, with the next instruction.
    #[inline(never)]
    pub fn sync(&mut self, count: u64)
        ensures { Syncs self.old self.new count }
    {
        instructions_need_no_call();
        self.join(count);
    }

    // Joins the current block; there is nothing to do if it has spawned nothing.
    #[inline(always)]
    fn join(&mut self, count: u64)
        ensures told { JoinsBlock self.old self.new count }
        ensures joined { self.new.spawned ≡ false }
    {
        late_paths_wait();
        if self.spawned {
            self.settle(count);
            self.paths.join(self.counted);
            self.spawned = false;
        }
    }

    // Ends the innermost part, whose block has joined, at this count.
    #[inline(always)]
    fn close(&mut self, count: u64)
        ensures { ClosesPart self.old self.new count }
    {
        self.settle(count);
        if let Some(part) = self.parts.pop() {
            self.leave(part);
        }
    }

    // Restores the state of the block around the part that was the innermost one.
    #[inline(always)]
    fn leave(&mut self, part: Part)
        ensures { Leaves self.old self.new part }
    {
        self.free = part.free;
        self.spawned = part.spawned;
        if part.child {
            self.paths.end_child(self.counted);
        }
    }

    /// Returns the spans that a run would have that has ended after `count` instructions.
    pub fn finish(self, count: u64) -> Freed
        ensures { Reads self count result }
    {
        let mut meter = self;
        meter.settle(count);
        let (plain, burdened) = meter.paths.weights(meter.counted);
        Freed {
            span: plain.min(u64::MAX as u128) as u64,
            burdened,
        }
    }
}
