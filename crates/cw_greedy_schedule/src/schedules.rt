//! The greedy schedule of a run.

ghost use Rattle.cw_code.specs.Code.{code_view};
ghost use Rattle.std.specs.Prelude.{◌≡◌};
ghost use Rattle.cw_machine.specs.Recorded.{RecordsAsCode};
ghost use Rattle.cw_greedy_schedule.specs.Schedules as schedules;

use crate::schedule::greedy;
use crate::weights::weigh;
use cw_code::crew_laws::cost_is_the_work_of_the_effect;
use cw_greedy::strands::Strands;
use cw_machine::alone::main_takes;
use cw_machine::recorded::strands_alone;
use cw_model::laws::normal_form_reads_the_same;
use cw_model::limits::{MOST_LIMIT, MOST_PROCESSORS};
use cw_runnable::verified::Verified;
use cw_text::Fault;
use std::alloc::Global;
use std::sync::Arc;

/// The results for the greedy schedule of a run.
#[derive(Debug, Clone, Copy, PartialEq, Eq)]
pub struct Schedule {
    /// The number of processors.
    pub processors: u64,
    /// The work of the run, in instructions.
    pub work: u64,
    /// The span of the run, in instructions.
    pub span: u64,
    /// The length of the greedy schedule, in steps. In each step a processor executes one instruction or none.
    pub greedy: u64,
}

/// Runs code on these arguments within `n` instructions. Returns the work and the span of its strand tree and the length
/// of the greedy schedule of its strands on this number of processors. The length is at least the work divided by the
/// number of processors and at least the span, and at most the sum of both.
///
/// # Errors
///
/// `Fault::Arguments` exactly if the number of arguments is not the number of `main`'s parameters, or `n` is not in
/// 1..=2^62, or `processors` is not in 1..=1,000,000. Otherwise:
///
/// - `Fault::OverLimit` exactly if the run costs more than `n`;
/// - `Fault::Trap` exactly if it traps, with the line and the values printed before;
/// - `Fault::Strands` exactly if it ends with more than 1,000,000 strands, with their number;
/// - `Fault::Memory` if memory runs out.
pub fn schedule_alone(
    alloc: Global,
    code: Arc<Verified>,
    args: &[i64],
    n: u64,
    processors: u64,
) -> Result<Schedule, Fault>
    ensures { schedules.SchedulesAsCode (code_view code.value.code) args.now n processors result }
{
    if !is_asked(&code, args, n, processors) {
        return Err(Fault::Arguments);
    }
    let share = Arc::try_clone(&code)?;
    let ran = strands_alone(alloc, share, args, n);
    let schedule = schedule_of_run(alloc, &code, args, n, processors, ran)?;
    Ok(schedule)
}

/// Returns what `schedule_alone` returns, for a run of this code, by any workers, that recorded these strands or did
/// not end.
///
/// # Errors
///
/// - `Fault::Arguments` exactly if the arguments, `n` or `processors` are invalid, as for `schedule_alone`;
/// - otherwise the fault in `ran`, if the run did not end;
/// - otherwise `Fault::Strands` if the run has more than 1,000,000 strands, with their number;
/// - `Fault::Memory` if memory runs out.
pub fn schedule_of_run(
    alloc: Global,
    code: &Verified,
    args: &[i64],
    n: u64,
    processors: u64,
    ran: Result<Strands, Fault>,
) -> Result<Schedule, Fault>
    requires { RecordsAsCode (code_view code.now.code) args.now n ran }
    ensures { schedules.SchedulesAsCode (code_view code.now.code) args.now n processors result }
{
    cost_is_the_work_of_the_effect();
    normal_form_reads_the_same();
    if !is_asked(code, args, n, processors) {
        return Err(Fault::Arguments);
    }
    let strands = ran?;
    if !strands.fits() {
        return Err(Fault::Strands(strands.count()));
    }
    let weights = weigh(alloc, &strands)?;
    let steps = greedy(alloc, &strands, processors)?;
    Ok(Schedule {
        processors,
        work: weights.work,
        span: weights.span,
        greedy: steps,
    })
}

/// Returns whether the number of arguments is the number of `main`'s parameters, and the limit and the number of
/// processors are in their ranges.
pub fn is_asked(code: &Verified, args: &[i64], n: u64, processors: u64) -> bool
    ensures { result ≡ schedules.is_asked (code_view code.now.code) args.now n processors }
{
    is_counted(processors) && args.len() == main_takes(code) && 1 <= n && n <= MOST_LIMIT
}

// Whether the number of processors is in its range.
fn is_counted(processors: u64) -> bool
    ensures { result ≡ schedules.is_counted processors }
{
    1 <= processors && processors <= MOST_PROCESSORS
}
