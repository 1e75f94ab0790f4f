//! The reports of a run, by one worker or by a crew.

ghost use Rattle.std.specs.Prelude.{◌≡◌, ◌<◌, ◌-◌, ◌^◌, ℕ, ℤ, List, [], true};
ghost use Rattle.std.specs.List.{list_all};
ghost use Rattle.cw_model.specs.declared.burden.Burden.{Burden};
ghost use Rattle.cw_code.specs.Code.{Code, code_view};
ghost use Rattle.cw_machine.specs.Runs.{GivesAsCode, RunsAsCode};
ghost use Rattle.cw_words.specs.declared.asked.Mode.TheVariants as mode;
ghost use Rattle.cw_compile.specs.Compiled.{AreMade, IsCompiled};
ghost use Rattle.cw_code.specs.declared.head.Head.{Head};
ghost use Rattle.cw_runnable.specs.declared.verified.Verified.{Verified};
ghost use Rattle.cw_gains.specs.Gains.{GainsAsCode};
ghost use Rattle.cw_cli.specs.Analyses.{IsModeInRange};
ghost use Rattle.cw_cli.specs.Analyses.{IsRun};
ghost use Rattle.cw_cli.specs.ModeTexts.{HasTables, told_in};
ghost use Rattle.cw_model.specs.Ints.{fits};
ghost use Rattle.cw_report.specs.Answers.{AnswersText};

use cw_gains::gains::Gains;
use cw_machine::alone::Ended;
use cw_machine::values::Values;
use cw_model::laws::derived_sites_are_numbered;
use cw_report::{Sink, answer, gain, scale, sites};
use cw_runnable::verified::Verified;
use cw_text::Fault;
use cw_words::{Mode, Options};
use std::alloc::Global;

// Writes the values of a run of this code.
pub(crate) fn write_values<W: Sink>(
    alloc: Global,
    code: &Verified,
    args: &[i64],
    options: Options,
    values: Result<Values, Fault>,
    out: &mut W,
) -> Result<(), Fault>
    requires { (W.seen out.old).failures < 2 ^ 64 - 1 }
    ensures { (name bytes : List ℕ) → options.mode ≡ mode.Run
        → IsCompiled bytes (code_view code.now.code)
        → GivesAsCode (code_view code.now.code) args.now options.limit options.burden values
        → IsRun W.seen out.old out.new name bytes args.now options result }
{
    are_words(args);
    answer(alloc, code, &values, out)?;
    values?;
    Ok(())
}

// Writes the tables of a run of this code.
pub(crate) fn write_tables<W: Sink>(
    alloc: Global,
    code: &Verified,
    args: &[i64],
    options: Options,
    ended: Result<Ended, Fault>,
    out: &mut W,
) -> Result<(), Fault>
    requires { (W.seen out.old).failures < 2 ^ 64 - 1 }
    ensures { (name bytes : List ℕ) → HasTables options.mode
        → IsCompiled bytes (code_view code.now.code)
        → RunsAsCode (code_view code.now.code) args.now options.limit options.burden ended
        → IsRun W.seen out.old out.new name bytes args.now options result }
{
    derived_sites_are_numbered();
    are_words(args);
    report(alloc, options.mode, options.table, code, &ended, out)?;
    ended?;
    Ok(())
}

// Writes the gain table of a run of code.
pub(crate) fn write_gains<W: Sink>(
    alloc: Global,
    args: &[i64],
    options: Options,
    gains: Result<Gains, Fault>,
    out: &mut W,
) -> Result<(), Fault>
    requires { (W.seen out.old).failures < 2 ^ 64 - 1 }
    ensures { (name bytes : List ℕ) (code : Verified) (heads : List Head) (top : ℕ)
        → options.mode ≡ mode.Gain top → IsModeInRange options.mode → AreMade bytes code heads
        → GainsAsCode (code_view code.code) heads args.now options.limit options.burden top gains
        → IsRun W.seen out.old out.new name bytes args.now options result }
{
    are_words(args);
    gain(alloc, &gains, options.table, out)?;
    gains?;
    Ok(())
}

// States that each argument is a word of 64 bits.
pub(crate) fn are_words(args: &[i64])
    ensures { list_all fits args.now ≡ true }
{
    for arg in args {
        is_word(*arg);
    }
}

// States that an `i64` is a word of 64 bits.
fn is_word(word: i64)
    ensures { fits word ≡ true }
{}

// Writes the tables of a run, in a mode that has tables; writes nothing in other modes.
fn report<W: Sink>(
    alloc: Global,
    mode: Mode,
    table: bool,
    code: &Verified,
    ended: &Result<Ended, Fault>,
    out: &mut W,
) -> Result<(), Fault>
    requires { (W.seen out.old).failures < 2 ^ 64 - 1 }
    ensures idle { told_in mode table code.now ended.now ≡ [] → out.new ≡ out.old }
    ensures answers { AnswersText W.seen out.old out.new
        (told_in mode table code.now ended.now) result }
{
    match mode {
        Mode::Check
        | Mode::Run
        | Mode::Gain(_)
        | Mode::Greedy(_)
        | Mode::Speedup(_)
        | Mode::Page { .. } => Ok(()),
        Mode::Scale => scale(alloc, ended, table, out),
        Mode::Sites => sites(alloc, code, ended, table, out),
    }
}
