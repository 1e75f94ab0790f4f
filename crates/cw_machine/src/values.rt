//! Runs with one worker that measure nothing.

ghost use Rattle.cw_code.specs.Code.{code_view};
ghost use Rattle.cw_machine.specs.Runs as runs;

use crate::alone::{int_given, run_whole};
use cw_meter::Detail;
use cw_model::burden::Burden;
use cw_model::total::Total;
use cw_runnable::verified::Verified;
use cw_text::Fault;
use std::alloc::Global;
use std::sync::Arc;

/// The result of a run that finishes without a trap and within its limit.
#[derive(Debug, Drop)]
pub struct Values {
    /// The value of `main`.
    pub value: i64,
    /// The values printed, in order.
    pub lines: Vec<i64>,
    /// The total of each reducer, in source order.
    pub totals: Vec<Total>,
}

/// Runs code on these arguments within `n` instructions. Returns its value, the values printed and the total of each
/// reducer, exactly as the meaning of the code defines them. Measures nothing of its strand tree.
///
/// # Errors
///
/// The errors of `run_alone`. The burden is used only to check for these errors.
pub fn values_alone(
    alloc: Global,
    code: Arc<Verified>,
    args: &[i64],
    n: u64,
    burden: Burden,
) -> Result<Values, Fault>
    ensures { runs.GivesAsCode (code_view code.value.code) args.now n burden result }
{
    let verified: &Verified = &code;
    let (value, shown) = run_whole(alloc, verified, args, n, burden, Detail::Values)?;
    Ok(Values {
        value: int_given(value),
        lines: shown.lines.into_vec(),
        totals: shown.totals,
    })
}
