//! Jobs.

ghost use Rattle.cw_jobs.specs.Jobs.{IsSound};

use crate::call::{Extent, Parts, Rest};
use crate::effect::Effect;
use crate::first::{first_rest, is_asked};
use cw_meter::Detail;
use cw_model::burden::Burden;
use cw_runnable::verified::Verified;
use cw_text::Fault;
use std::alloc::Global;
use std::sync::Arc;

/// A call, or the continuation of a sync block of a call, to be executed once, by any worker. It is a box.
#[derive(Drop)]
pub struct Job {
    pub parts: Box<Parts>,
    pub ghost sound: { ∥ IsSound parts.value ∥₁ },
}

impl Job {
    ghost use Rattle.std.specs.Prelude.{◌≤◌, MatchResult};
    ghost use Rattle.cw_code.specs.Code.{code_view};
    ghost use Rattle.cw_model.specs.declared.limits.TheConstants.{MOST_BURDEN};
    ghost use Rattle.cw_meter.specs.Details.{IsLight};
    ghost use Rattle.cw_jobs.specs.Jobs.{IsRejected, IsRoot, IsRootOf};
    ghost use Rattle.cw_jobs.specs.Means.{IsGivenUp, IsMeaningOf};

    /// Returns the job of a whole run that counts everything: `main` on these arguments, within `n` instructions.
    /// `burden` is charged for each spawn, and changes only the burdened spans.
    ///
    /// # Errors
    ///
    /// `Fault::Arguments` exactly if the number of arguments is not the number of `main`'s parameters, or `n` is not
    /// in 1..=2^62, or the charge of `burden` exceeds 1,000,000,000 instructions for an edge; otherwise
    /// `Fault::Memory`, if there is not enough memory.
    pub fn root(
        alloc: Global,
        code: Arc<Verified>,
        args: &[i64],
        n: u64,
        burden: Burden,
    ) -> Result<Job, Fault>
        ensures { MatchResult result (λ job. IsRoot code.value args.now n burden job.parts.value)
            (IsRejected (code_view code.value.code) args.now n burden) }
    {
        let job = Job::root_of(alloc, code, args, n, burden, Detail::Measures(burden))?;
        Ok(job)
    }

    /// Returns the job of a whole run that records what `detail` says: `main` on these arguments, within `n`
    /// instructions. `burden` is charged for each spawn if anything is counted.
    ///
    /// # Errors
    ///
    /// `Fault::Arguments` and `Fault::Memory` as for `root`, also if nothing is counted.
    pub fn root_of(
        alloc: Global,
        code: Arc<Verified>,
        args: &[i64],
        n: u64,
        burden: Burden,
        detail: Detail,
    ) -> Result<Job, Fault>
        requires { burden.charge ≤ MOST_BURDEN → IsLight detail }
        ensures { MatchResult result (λ job. IsRootOf code.value args.now n burden detail
            job.parts.value)
            (IsRejected (code_view code.value.code) args.now n burden) }
    {
        let verified: &Verified = &code;
        let f = verified.func(verified.code.main as usize);
        if !is_asked(f.params, args.len(), n, burden) {
            return Err(Fault::Arguments);
        }
        let rest = first_rest(alloc, f, args)?;
        let parts = Box::new(
            alloc,
            Parts {
                code,
                extent: Extent::WholeCall,
                rest,
                site: 0,
                detail,
                limit: n,
                before: 0,
            },
        )?;
        Ok(Job { parts })
    }

    /// Gives the job up without executing it: the effect says so and returns the arrays of its slots. Takes no
    /// memory.
    pub fn give_up(self) -> Effect
        ensures means { IsMeaningOf self result }
        ensures given { IsGivenUp result }
    {
        let Job { parts } = self;
        let Parts {
            code: _,
            extent: _,
            rest,
            site: _,
            detail: _,
            limit: _,
            before: _,
        } = Box::into_inner(parts);
        let Rest {
            place: _,
            depth: _,
            cells: _,
            slices,
        } = rest;
        Effect::GivenUp { back: slices }
    }
}
