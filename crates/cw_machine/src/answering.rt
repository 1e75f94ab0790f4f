//! Converts the effect of the job of a whole run to the result of the run.

ghost use Rattle.std.specs.Prelude.{ℕ, ℤ, List};
ghost use Rattle.cw_code.specs.Code.{code_view};
ghost use Rattle.cw_jobs.specs.Jobs.{IsRoot, IsRootOf};
ghost use Rattle.cw_jobs.specs.Means.{IsMeaningOf};
ghost use Rattle.cw_jobs.specs.declared.job.Job as jobs;
ghost use Rattle.cw_meter.specs.declared.detail.Detail as details;
ghost use Rattle.cw_meter.specs.declared.detail.Detail.TheVariants as kept;
ghost use Rattle.cw_model.specs.declared.burden.Burden.{Burden};
ghost use Rattle.cw_model.specs.Burdens.{no_burden};
ghost use Rattle.cw_runnable.specs.declared.verified.Verified as verified;
ghost use Rattle.cw_machine.specs.Answering.{AreValuesOf, IsAnswerOf, IsOfRun, IsOfWhole, TakesOut};
ghost use Rattle.cw_machine.specs.Recorded.{RecordsAsCode};
ghost use Rattle.cw_machine.specs.Runs.{GivesAsCode, RunsAsCode};

use crate::alone::{Ended, end_of, int_given};
use crate::values::Values;
use cw_code::crew_laws::the_root_answers_what_the_code_gives;
use cw_greedy::strands::Strands;
use cw_jobs::effect::{Effect, PieceOutput};
use cw_runnable::verified::Verified;
use cw_text::Fault;
use std::alloc::Global;

// Returns the value of a run that ended and what the run has shown, or the fault that its effect reports.
fn ended_in(effect: Effect) -> Result<(Option<i64>, PieceOutput), Fault>
    requires { ∥ IsOfRun effect ∥₁ }
    ensures { TakesOut effect result }
{
    the_root_answers_what_the_code_gives();
    match effect {
        Effect::Ended { value, shown } => Ok((value, shown)),
        Effect::Trapped {
            trap,
            line,
            lines,
            cost: _,
            back: _,
        } => Err(Fault::Trap {
            code: trap,
            line,
            output: lines.into_vec(),
        }),
        Effect::OverLimit { back: _ } => Err(Fault::OverLimit),
        Effect::Memory { back: _ } => Err(Fault::Memory),
        Effect::GivenUp { back: _ } => Err(Fault::Memory),
        Effect::Joined {
            frame: _,
            replaced: _,
            shown: _,
        } => unreachable!(),
    }
}

/// Converts the effect of the job of a whole run of this code, which recorded all measures, to the result that
/// `run_alone` returns. The result does not depend on the workers that executed the job, nor on their number.
///
/// # Errors
///
/// `Fault::OverLimit` or `Fault::Trap` if the effect is of that kind; `Fault::Memory` if memory ran out, in the run
/// or here, or if the run was given up.
pub fn answer(alloc: Global, code: &Verified, effect: Effect) -> Result<Ended, Fault>
    requires whole { ∥ IsOfWhole code.now effect ∥₁ }
    ensures tells { IsAnswerOf effect result }
    ensures as_code { (args : List ℤ) (n : ℕ) (burden : Burden) (root : jobs.Job)
        → IsRoot code.now args n burden root.parts.value
        → IsMeaningOf root effect → RunsAsCode (code_view code.now.code) args n burden result }
{
    the_root_answers_what_the_code_gives();
    let (value, shown) = ended_in(effect)?;
    let ended = end_of(alloc, &code.code, value, shown)?;
    Ok(ended)
}

/// Converts the effect of the job of a whole run, with any detail recorded, to the result that `values_alone`
/// returns.
///
/// # Errors
///
/// As for `answer`; a run that ended causes none.
pub fn values_of(effect: Effect) -> Result<Values, Fault>
    requires { ∥ IsOfRun effect ∥₁ }
    ensures tells { AreValuesOf effect result }
    ensures as_code { (v : verified.Verified) (args : List ℤ) (n : ℕ) (burden : Burden) (d : details.Detail)
        (root : jobs.Job)
        → IsRootOf v args n burden d root.parts.value
        → IsMeaningOf root effect → GivesAsCode (code_view v.code) args n burden result }
{
    the_root_answers_what_the_code_gives();
    let (value, shown) = ended_in(effect)?;
    Ok(Values {
        value: int_given(value),
        lines: shown.lines.into_vec(),
        totals: shown.totals,
    })
}

/// Converts the effect of the job of a whole run that recorded its strands to the strands that `strands_alone`
/// returns.
///
/// # Errors
///
/// As for `answer`.
pub fn strands_of(effect: Effect) -> Result<Strands, Fault>
    requires { ∥ IsOfRun effect ∥₁ }
    ensures tells { IsAnswerOf effect result }
    ensures as_code { (v : verified.Verified) (args : List ℤ) (n : ℕ) (root : jobs.Job)
        → IsRootOf v args n no_burden kept.Strands root.parts.value
        → IsMeaningOf root effect → RecordsAsCode (code_view v.code) args n result }
{
    the_root_answers_what_the_code_gives();
    let (_, shown) = ended_in(effect)?;
    let strands = shown.meter.strands(shown.cost)?;
    Ok(strands)
}
