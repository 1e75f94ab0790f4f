//! The result of a run by a crew.

ghost use Rattle.std.specs.Prelude.{◌≡◌, true, false};
ghost use Rattle.cw_code.specs.Code.{code_view};
ghost use Rattle.cw_meter.specs.declared.detail.Detail.TheVariants as details;
ghost use Rattle.cw_machine.specs.Answering.{AreValuesOf, IsAnswerOf};
ghost use Rattle.cw_machine.specs.Recorded.{RecordsAsCode};
ghost use Rattle.cw_machine.specs.Runs.{GivesAsCode, RunsAsCode};
ghost use Rattle.cw_model.specs.Burdens.{no_burden};
ghost use Rattle.cw_pool.specs.Crews.{IsEffectOf, IsKnown};

use cw_greedy::strands::Strands;
use cw_jobs::effect::Effect;
use cw_machine::alone::{Ended, run_alone};
use cw_machine::answering::{answer, strands_of, values_of};
use cw_machine::recorded::strands_alone;
use cw_machine::values::{Values, values_alone};
use cw_model::burden::Burden;
use cw_runnable::verified::Verified;
use cw_text::Fault;
use std::alloc::Global;
use std::sync::Arc;

/// What a run came to.
#[derive(Drop)]
pub(crate) struct Outcome {
    /// The code that was run.
    pub(crate) code: Arc<Verified>,
    /// The effect of its root.
    pub(crate) effect: Effect,
    /// Whether it was given up.
    pub(crate) is_given_up: bool,
}

impl Outcome {
    // Returns whether the effect has the answer. An effect that says that the root was given up never has it, whatever the sign
    // says; one that says that memory ran out has it if the run was not given up.
    fn is_known(&self) -> bool
        ensures yes { result ≡ true → IsKnown self.now }
        ensures no { result ≡ false → IsKnown self.now → ⊥ }
    {
        match self.effect {
            Effect::Memory { back: _ } => !self.is_given_up,
            Effect::GivenUp { back: _ } => false,
            _ => true,
        }
    }
}

/// Returns the result of a whole run with all measures: by the effect of the root if it has the answer, otherwise by one
/// worker that runs the code again.
pub(crate) fn ended_by(
    alloc: Global,
    outcome: Outcome,
    args: &[i64],
    n: u64,
    burden: Burden,
) -> Result<Ended, Fault>
    requires { IsEffectOf outcome.code.value args.now n burden (details.Measures burden)
        outcome.effect }
    ensures as_code { RunsAsCode (code_view outcome.code.value.code) args.now n burden result }
    ensures tells { IsKnown outcome → IsAnswerOf outcome.effect result }
{
    let is_known = outcome.is_known();
    let Outcome {
        code,
        effect,
        is_given_up: _,
    } = outcome;
    if is_known {
        let ended = answer(alloc, &code, effect)?;
        return Ok(ended);
    }
    let ended = run_alone(alloc, code, args, n, burden)?;
    Ok(ended)
}

/// Returns the values of a whole run without measures: by the effect of the root if it has the answer, otherwise by one
/// worker that runs the code again.
pub(crate) fn values_by(
    alloc: Global,
    outcome: Outcome,
    args: &[i64],
    n: u64,
    burden: Burden,
) -> Result<Values, Fault>
    requires { IsEffectOf outcome.code.value args.now n burden details.Values outcome.effect }
    ensures as_code { GivesAsCode (code_view outcome.code.value.code) args.now n burden result }
    ensures tells { IsKnown outcome → AreValuesOf outcome.effect result }
{
    let is_known = outcome.is_known();
    let Outcome {
        code,
        effect,
        is_given_up: _,
    } = outcome;
    if is_known {
        let values = values_of(effect)?;
        return Ok(values);
    }
    let values = values_alone(alloc, code, args, n, burden)?;
    Ok(values)
}

/// Returns the record of the strands of a whole run: by the effect of the root if it has the answer, otherwise by one worker
/// that runs the code again. The burden is 0.
pub(crate) fn strands_by(
    alloc: Global,
    outcome: Outcome,
    args: &[i64],
    n: u64,
) -> Result<Strands, Fault>
    requires { IsEffectOf outcome.code.value args.now n no_burden details.Strands outcome.effect }
    ensures as_code { RecordsAsCode (code_view outcome.code.value.code) args.now n result }
    ensures tells { IsKnown outcome → IsAnswerOf outcome.effect result }
{
    let is_known = outcome.is_known();
    let Outcome {
        code,
        effect,
        is_given_up: _,
    } = outcome;
    if is_known {
        let strands = strands_of(effect)?;
        return Ok(strands);
    }
    let strands = strands_alone(alloc, code, args, n)?;
    Ok(strands)
}
