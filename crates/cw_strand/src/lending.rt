//! Hands out the continuation of a block as a job.

ghost use Rattle.std.specs.Prelude.{◌≡◌, ◌≢◌, ◌+◌, ◌≤◌, ◌<◌, ◌-◌, Some, slice_get, IfOk, OnOk, OnErr, MatchResult};
ghost use Rattle.std.specs.Vec.{vec_len, vec_capacity};
ghost use Rattle.cw_jobs.specs.Jobs.{code_of};
ghost use Rattle.cw_machine.specs.declared.run.Stop.TheVariants as stop;
ghost use Rattle.cw_machine.specs.Calls.{loans_of};
ghost use Rattle.cw_strand.specs.declared.strand.Mode.TheVariants as mode;
ghost use Rattle.cw_strand.specs.Holds.{its_parts, its_code, AreSpare};
ghost use Rattle.cw_strand.specs.Losing.{GoesOn};
ghost use Rattle.cw_strand.specs.Moves.{HasCome, ComesTo, HasCut, HasSpared, IsAddressed};

use crate::strand::{Event, Home, Lent, Mode, Strand};
use cw_code::code::Loan;
use cw_code::crew_laws::calls_preserve_strand_job;
use cw_jobs::call::{Extent, Parts, Rest};
use cw_jobs::job::Job;
use cw_machine::hands::Lender;
use cw_machine::laws::machines_that_stop_remain;
use cw_machine::run::Spawn;
use cw_runnable::verified::Verified;
use std::alloc::{AllocError, Global};
use std::snapshot::Snapshot;

// Returns an empty continuation.
pub(crate) fn empty_rest(alloc: Global) -> Rest {
    Rest {
        place: 0,
        depth: 0,
        cells: Vec::new(alloc),
        slices: Vec::new(alloc),
    }
}

// Returns the loans of a list of the code, if there is one.
#[inline(always)]
pub(crate) fn loans_named(code: &Verified, list: Option<u32>) -> &[Loan]
    ensures { result.now ≡ loans_of code.now list }
{
    match list {
        None => &[],
        Some(k) => code.loans_named(k),
    }
}

// Sets in the parts of a continuation what its job must know, by the job that it is cut out of, the site, and the number of
// instructions so far.
#[inline(always)]
fn address(parts: &mut Parts, of: &Parts, site: u32, count: u64)
    requires { of.now.before + count ≤ of.now.limit }
    ensures { IsAddressed parts.old of.now site count parts.new }
{
    parts.extent = Extent::ToJoin;
    parts.site = site;
    parts.detail = of.detail;
    parts.limit = of.limit;
    parts.before = of.before + count;
}

impl Strand {
    // Returns a box for a continuation of the strand's code: a spare one or a new one.
    #[inline(always)]
    fn shell(&mut self) -> Result<Box<Parts>, AllocError>
        requires spares { AreSpare self.old }
        requires code { code_of self.old.parts.value ≡ its_code self.old }
        ensures stays { HasSpared self.old self.new }
        ensures code { IfOk result (λ b. code_of b.value ≡ its_code self.old) }
    {
        if let Some(parts) = self.spares.pop() {
            return Ok(parts);
        }
        let parts = self.new_shell()?;
        Ok(parts)
    }

    // Allocates a box for a continuation of the strand's code: out of line, so that a spawn that finds a spare one clears no
    // room for it.
    #[cold]
    #[inline(never)]
    fn new_shell(&self) -> Result<Box<Parts>, AllocError>
        requires { code_of self.now.parts.value ≡ its_code self.now }
        ensures { IfOk result (λ b. code_of b.value ≡ its_code self.now) }
    {
        let alloc = *self.lent.allocator();
        let parts = Parts {
            code: self.parts.code.clone()?,
            extent: Extent::ToJoin,
            rest: empty_rest(alloc),
            site: 0,
            detail: self.parts.detail,
            limit: 0,
            before: 0,
        };
        let parts = Box::new(alloc, parts)?;
        Ok(parts)
    }

    // Returns the continuation of the block that has just spawned a call, as the parts of a job, with the call to which it
    // belongs.
    #[inline(always)]
    fn cut_out(&mut self, spawn: &Spawn, end: u64) -> Result<(Box<Parts>, Lender), AllocError>
        requires comes { HasCome self.old end (stop.Spawned spawn.now) }
        ensures cut { IfOk result (λ x. HasCut self.old self.new spawn.now x.0.value x.1) }
        ensures kept { OnErr result (HasSpared self.old self.new) }
        ensures room { OnOk result (vec_len self.new.lent < vec_capacity self.new.lent) }
    {
        calls_preserve_strand_job();
        let mut parts = self.shell()?;
        self.lent.reserve(1)?;
        let slots = self.parts.code.slots_named(spawn.passed);
        let loans = loans_named(&self.parts.code, spawn.lent);
        let machine = &mut self.run.machine;
        let lender = machine.hand_out(&self.parts.code, slots, loans, &mut parts.rest)?;
        address(&mut parts, &self.parts, spawn.site, self.count);
        Ok((parts, lender))
    }

    // Hands out the continuation of the block that has just spawned a call.
    #[inline(always)]
    pub(crate) fn lend(&mut self, spawn: Spawn, end: u64) -> Event
        requires comes { HasCome self.old end (stop.Spawned spawn) }
        ensures of { self.new.of ≡ self.old.of }
        ensures keeps { ComesTo result self.old self.new }
        ensures counts { self.new.count ≡ self.old.count }
        ensures over { self.new.mode ≢ mode.Over }
        ensures goes { GoesOn result self.new }
    {
        calls_preserve_strand_job();
        machines_that_stop_remain();
        match self.cut_out(&spawn, end) {
            Ok((parts, lender)) => {
                let job = Job { parts };
                let floor = self.run.calls();
                self.lent.push_reserved(Lent {
                    job: Snapshot::of(&job),
                    home: Home {
                        lender,
                        lent: spawn.lent,
                        target: spawn.target,
                        floor,
                    },
                });
                Event::Spawned(job)
            }
            Err(_) => {
                self.mode = Mode::Memory;
                self.rest()
            }
        }
    }
}
