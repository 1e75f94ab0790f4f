//! The notifications of a meter in a run of which not all measures are counted. The meter counts the open parts, and
//! records the strands if the run does.

ghost use Rattle.std.specs.Prelude.{◌≡◌, Some, false, IfOk, OnOk};
ghost use Rattle.cw_model.specs.Trees.{Invocation};
ghost use Rattle.cw_meter.specs.Details as details;
ghost use Rattle.cw_meter.specs.Meters.{Begins, Ends, Rests, Returns, Syncs};
ghost use Rattle.cw_meter.specs.Uncounted.{BeginsQuiet, BeginsRegions, BeginsSpawned};
ghost use Rattle.cw_meter.specs.Whole.{ReadsStrands};

use crate::meter::Meter;
use cw_greedy::strands::Strands;
use std::alloc::AllocError;

impl Meter {
    // Begins a spawned part by the instruction after `count` instructions.
    #[inline(always)]
    pub(crate) fn open_spawned(&mut self, count: u64) -> Result<(), AllocError>
        requires { details.is_counted self.old.detail ≡ false }
        ensures { OnOk result (BeginsSpawned self.old self.new count) }
    {
        self.count_part();
        if !self.records_only_values() {
            self.recorder.spawn(count)?;
        }
        Ok(())
    }

    // Begins a plain call.
    #[inline(always)]
    pub(crate) fn open_call(&mut self, count: u64, _site: u32) -> Result<(), AllocError>
        requires { details.is_counted self.old.detail ≡ false }
        ensures { OnOk result (Begins self.old self.new count false (Some (Invocation _site))) }
    {
        self.count_part();
        if !self.records_only_values() {
            self.recorder.call(count)?;
        }
        Ok(())
    }

    // Begins any other plain part.
    #[inline(always)]
    pub(crate) fn open_quiet(&mut self, count: u64) -> Result<(), AllocError>
        requires { details.is_counted self.old.detail ≡ false }
        ensures quiet { OnOk result (BeginsQuiet self.old self.new count) }
        ensures region { OnOk result (BeginsRegions self.old self.new count) }
    {
        self.count_part();
        if !self.records_only_values() {
            self.recorder.begin(count)?;
        }
        Ok(())
    }

    // Joins the innermost scope, cut or region after `count` instructions, and ends it by the next one.
    #[inline(always)]
    pub(crate) fn leave_block(&mut self, count: u64) -> Result<(), AllocError>
        requires { details.is_counted self.old.detail ≡ false }
        ensures { OnOk result (Ends self.old self.new count) }
    {
        self.close_part();
        if !self.records_only_values() {
            self.recorder.end(count)?;
        }
        Ok(())
    }

    // Joins and ends the innermost call, or function of a loop.
    #[inline(always)]
    pub(crate) fn leave_call(&mut self, count: u64) -> Result<(), AllocError>
        requires { details.is_counted self.old.detail ≡ false }
        ensures { OnOk result (Returns self.old self.new count) }
    {
        self.close_part();
        if !self.records_only_values() {
            self.recorder.give_back(count)?;
        }
        Ok(())
    }

    // Joins the current block.
    #[inline(always)]
    pub(crate) fn join_uncounted(&mut self, count: u64) -> Result<(), AllocError>
        requires { details.is_counted self.old.detail ≡ false }
        ensures { OnOk result (Syncs self.old self.new count) }
    {
        if !self.records_only_values() {
            self.recorder.sync(count)?;
        }
        Ok(())
    }

    // Appends the continuation of the current block, which was executed separately, as `cost` instructions, with a
    // meter of its own.
    pub(crate) fn rest_uncounted(
        &mut self,
        count: u64,
        rest: Meter,
        cost: u64,
    ) -> Result<(), AllocError>
        requires { details.is_counted self.old.detail ≡ false }
        ensures { OnOk result (Rests self.old rest self.new count cost) }
    {
        if !self.records_only_values() {
            self.recorder.rest(count, rest.recorder, cost)?;
        }
        Ok(())
    }

    /// Returns the strands of a run that recorded them and has ended after `count` instructions.
    ///
    /// # Errors
    ///
    /// `AllocError` if memory runs out.
    pub fn strands(self, count: u64) -> Result<Strands, AllocError>
        ensures { IfOk result (λ kept. ReadsStrands self count kept) }
    {
        let strands = self.recorder.finish(count)?;
        Ok(strands)
    }
}
