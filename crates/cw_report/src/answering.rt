//! What a check and a run are answered with: each text is made whole and then written.

ghost use Rattle.std.specs.Prelude.{◌≡◌, ℕ, List, [], ◌<◌, ◌-◌, ◌^◌, IfErr};
ghost use Rattle.cw_model.specs.Report.{check_text};
ghost use Rattle.cw_report.specs.Sinks.{Writes};
ghost use Rattle.cw_report.specs.Texts.{Makes, run_report, schedule_report};
ghost use Rattle.cw_report.specs.Answers.{AnswersText};
ghost use Rattle.cw_report.specs.Layouts.{gain_in_form, scale_in_form, shown, sites_in_form, speedup_in_form};
ghost use Rattle.cw_report.specs.Pages.{page_report};

use crate::aligned::aligned;
use crate::column::{Column, of_gain, of_scale, of_sites, of_speedup};
use crate::drawing::Drawn;
use crate::gain_table::gain_text;
use crate::page_text::page_text;
use crate::sink::Sink;
use crate::speedup_table::speedup_text;
use crate::tables::{scale_text, schedule_text, sites_text};
use crate::text::{ended_text, printed_text};
use crate::writing::write_text;
use cw_gains::gains::Gains;
use cw_greedy_schedule::schedules::Schedule;
use cw_greedy_schedule::speedups::Speedup;
use cw_machine::alone::Ended;
use cw_machine::values::Values;
use cw_model::burden::Burden;
use cw_runnable::verified::Verified;
use cw_text::Fault;
use std::alloc::Global;

/// Writes the report of a check: `ok` and a line feed. No memory is taken.
///
/// The error is `Write` where a write failed or took no byte: the sink took a beginning of the text,
/// and counts one more failed write. It asks that fewer than 2^64 - 1 writes to the sink failed
/// before.
pub fn ok<W: Sink>(to: &mut W) -> Result<(), Fault>
    requires { (W.seen to.old).failures < 2 ^ 64 - 1 }
    ensures { Writes (W.seen to.old) (W.seen to.new) check_text result }
{
    write_text(to, b"ok\n")
}

/// Writes the report of a run: the values that it printed, the total of each reducer of the code, and
/// the value of `main`, each on a line, or, where it trapped, the values that it printed before. Of any
/// other fault nothing is written, and the sink is left alone; the line of the fault itself is for
/// `write_fault`.
///
/// The error is `Memory` where there is none for the text: nothing was written then. It is `Write`
/// where a write failed or took no byte: the sink took a beginning of the text, and counts one more
/// failed write.
///
/// It asks that fewer than 2^64 - 1 writes to the sink failed before.
pub fn answer<W: Sink>(
    alloc: Global,
    code: &Verified,
    values: &Result<Values, Fault>,
    to: &mut W,
) -> Result<(), Fault>
    requires { (W.seen to.old).failures < 2 ^ 64 - 1 }
    ensures idle { run_report code.now values.now ≡ [] → to.new ≡ to.old }
    ensures answers { AnswersText W.seen to.old to.new (run_report code.now values.now) result }
{
    match values {
        Ok(values) => tell(ended_text(alloc, &code.code, values), to),
        Err(Fault::Trap { output, .. }) => tell(printed_text(alloc, output.as_slice()), to),
        Err(_) => Ok(()),
    }
}

/// Writes the work and the span of a run, with and without burdens, and its parallelism: on one line of the whole run,
/// with an empty tag, and then on one for each tag of its code. Of a run that did not end nothing is written, and the
/// sink is left alone.
/// With `table` the columns are aligned, otherwise the text is CSV.
///
/// The error is `Memory` where there is none for the text: nothing was written then. It is `Write` where a write failed
/// or took no byte: the sink took a beginning of the text, and counts one more failed write.
///
/// It asks that fewer than 2^64 - 1 writes to the sink failed before.
pub fn scale<W: Sink>(
    alloc: Global,
    ended: &Result<Ended, Fault>,
    table: bool,
    to: &mut W,
) -> Result<(), Fault>
    requires { (W.seen to.old).failures < 2 ^ 64 - 1 }
    ensures idle { scale_in_form ended.now table ≡ [] → to.new ≡ to.old }
    ensures answers { AnswersText W.seen to.old to.new (scale_in_form ended.now table) result }
{
    match ended {
        Ok(ended) => tell(
            in_form(alloc, of_scale(), table, scale_text(alloc, ended)),
            to,
        ),
        Err(_) => Ok(()),
    }
}

/// Writes what is counted of each call site over a run: on one line of the call of `main` by the run itself, with the
/// number 0, and then on one for each call site of the code. Of a run that did not end nothing is written, and the sink
/// is left alone.
/// With `table` the columns are aligned, otherwise the text is CSV.
///
/// The error is `Memory` where there is none for the text: nothing was written then. It is `Write` where a write failed
/// or took no byte: the sink took a beginning of the text, and counts one more failed write.
///
/// It asks that fewer than 2^64 - 1 writes to the sink failed before.
pub fn sites<W: Sink>(
    alloc: Global,
    code: &Verified,
    ended: &Result<Ended, Fault>,
    table: bool,
    to: &mut W,
) -> Result<(), Fault>
    requires { (W.seen to.old).failures < 2 ^ 64 - 1 }
    ensures idle { sites_in_form code.now ended.now table ≡ [] → to.new ≡ to.old }
    ensures answers { AnswersText W.seen to.old to.new
        (sites_in_form code.now ended.now table) result }
{
    match ended {
        Ok(ended) => tell(
            in_form(
                alloc,
                of_sites(),
                table,
                sites_text(alloc, &code.code, ended),
            ),
            to,
        ),
        Err(_) => Ok(()),
    }
}

/// Writes the work, the span and the length of the greedy schedule of a run, with the processors that it was asked for,
/// each in its column on one line. Of a run that did not end, or has too many strands, nothing is written, and the sink
/// is left alone.
///
/// The error is `Memory` where there is none for the text: nothing was written then. It is `Write` where a write failed
/// or took no byte: the sink took a beginning of the text, and counts one more failed write.
///
/// It asks that fewer than 2^64 - 1 writes to the sink failed before.
pub fn schedule<W: Sink>(
    alloc: Global,
    schedule: &Result<Schedule, Fault>,
    to: &mut W,
) -> Result<(), Fault>
    requires { (W.seen to.old).failures < 2 ^ 64 - 1 }
    ensures idle { schedule_report schedule.now ≡ [] → to.new ≡ to.old }
    ensures answers { AnswersText W.seen to.old to.new (schedule_report schedule.now) result }
{
    match schedule {
        Ok(schedule) => tell(schedule_text(alloc, schedule), to),
        Err(_) => Ok(()),
    }
}

/// Writes the gain table of a run: a line for the run itself, without a name, and one for each listed function. If the run
/// did not end, it writes nothing and does not use the sink.
/// With `table` the columns are aligned, otherwise the text is CSV.
///
/// Fewer than 2^64 - 1 writes to the sink failed before.
///
/// # Errors
///
/// `Memory` if memory runs out for the text: nothing was written then. `Write` if a write failed or took no byte: the sink
/// took a beginning of the text, and counts one more failed write.
pub fn gain<W: Sink>(
    alloc: Global,
    gains: &Result<Gains, Fault>,
    table: bool,
    to: &mut W,
) -> Result<(), Fault>
    requires { (W.seen to.old).failures < 2 ^ 64 - 1 }
    ensures idle { gain_in_form gains.now table ≡ [] → to.new ≡ to.old }
    ensures answers { AnswersText W.seen to.old to.new (gain_in_form gains.now table) result }
{
    match gains {
        Ok(gains) => tell(
            in_form(alloc, of_gain(), table, gain_text(alloc, gains)),
            to,
        ),
        Err(_) => Ok(()),
    }
}

/// Writes the steps and the speedup of a run by number of processors, with the bound that work and span set and the
/// estimate that charges burdens: a line for each number of processors. If the run did not end, it writes nothing and does
/// not use the sink.
/// With `table` the columns are aligned, otherwise the text is CSV.
///
/// Fewer than 2^64 - 1 writes to the sink failed before.
///
/// # Errors
///
/// `Memory` if memory runs out for the text: nothing was written then. `Write` if a write failed or took no byte: the sink
/// took a beginning of the text, and counts one more failed write.
pub fn speedup<W: Sink>(
    alloc: Global,
    speedup: &Result<Speedup, Fault>,
    table: bool,
    to: &mut W,
) -> Result<(), Fault>
    requires { (W.seen to.old).failures < 2 ^ 64 - 1 }
    ensures idle { speedup_in_form speedup.now table ≡ [] → to.new ≡ to.old }
    ensures answers { AnswersText W.seen to.old to.new (speedup_in_form speedup.now table) result }
{
    match speedup {
        Ok(speedup) => tell(
            in_form(alloc, of_speedup(), table, speedup_text(alloc, speedup)),
            to,
        ),
        Err(_) => Ok(()),
    }
}

/// Writes the page of a run of this source, which has this name without folders, on these arguments, by a program of this
/// version. If the run did not end, it writes nothing and does not use the sink.
///
/// Fewer than 2^64 - 1 writes to the sink failed before.
///
/// # Errors
///
/// `Memory` if memory runs out for the text: nothing was written then. `Write` if a write failed or took no byte: the sink
/// took a beginning of the text, and counts one more failed write.
pub fn page<W: Sink>(
    alloc: Global,
    name: &[u8],
    version: &[u8],
    args: &[i64],
    burden: Burden,
    source: &[u8],
    code: &Verified,
    drawn: &Result<Drawn, Fault>,
    to: &mut W,
) -> Result<(), Fault>
    requires { (W.seen to.old).failures < 2 ^ 64 - 1 }
    ensures idle { page_report name.now version.now args.now burden source.now code.now drawn.now ≡ []
        → to.new ≡ to.old }
    ensures answers { AnswersText W.seen to.old to.new
        (page_report name.now version.now args.now burden source.now code.now drawn.now) result }
{
    match drawn {
        Ok(drawn) => tell(
            page_text(
                alloc, name, version, args, burden, source, &code.code, drawn,
            ),
            to,
        ),
        Err(_) => Ok(()),
    }
}

// Returns a report as it is shown: the CSV text that was made, or a table of these columns.
fn in_form(
    alloc: Global,
    columns: &[Column],
    table: bool,
    made: Result<Vec<u8>, Fault>,
) -> Result<Vec<u8>, Fault>
    requires { IfErr made (λ e. e ≡ Fault.Memory) }
    ensures ok { (csv : List ℕ) → Makes csv made → Makes (shown columns.now csv table) result }
    ensures why { IfErr result (λ e. e ≡ Fault.Memory) }
{
    if !table {
        return made;
    }
    let csv = made?;
    let text = aligned(alloc, columns, csv.as_slice())?;
    Ok(text)
}

// Writes a text, where there was memory to make it.
fn tell<W: Sink>(made: Result<Vec<u8>, Fault>, to: &mut W) -> Result<(), Fault>
    requires out { (W.seen to.old).failures < 2 ^ 64 - 1 }
    requires why { IfErr made (λ e. e ≡ Fault.Memory) }
    ensures idle { Makes [] made → to.new ≡ to.old }
    ensures answers { (text : List ℕ) → Makes text made
        → AnswersText W.seen to.old to.new text result }
{
    match made {
        Ok(text) => write_text(to, text.as_slice()),
        Err(fault) => Err(fault),
    }
}
