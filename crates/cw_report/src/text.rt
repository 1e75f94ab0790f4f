//! The texts of reports, built completely before any byte is written.

ghost use Rattle.std.specs.Prelude.{◌≡◌, IfErr, flat_map};
ghost use Rattle.cw_model.specs.Report.{reduction_word, total_line, value_line};
ghost use Rattle.cw_code.specs.Code.{code_view};
ghost use Rattle.cw_report.specs.Texts.{Grows, Makes};
ghost use Rattle.cw_report.specs.Pages.{output_of};
ghost use Rattle.cw_report.specs.Texts as texts;

use cw_code::code::{Code, Reducer};
use cw_machine::alone::Ended;
use cw_machine::values::Values;
use cw_model::syntax::Reduction;
use cw_model::total::Total;
use cw_text::Fault;
use itoa::Buffer;
use std::alloc::Global;

/// Returns the lines of printed values, in decimal.
///
/// # Errors
///
/// `Fault::Memory` if there is no memory for the text.
pub fn printed_text(alloc: Global, values: &[i64]) -> Result<Vec<u8>, Fault>
    ensures ok { Makes (flat_map value_line values.now) result }
    ensures why { IfErr result (λ e. e ≡ Fault.Memory) }
{
    let mut text = Vec::new(alloc);
    for value in values {
        push_value(&mut text, *value)?;
    }
    Ok(text)
}

/// Returns the report of a run of code that ended: the values that it printed, the total of each reducer, and its
/// value, one line each.
///
/// # Errors
///
/// `Fault::Memory` if there is no memory for the text.
pub fn ended_text(alloc: Global, code: &Code, values: &Values) -> Result<Vec<u8>, Fault>
    ensures ok { Makes (texts.run_text (code_view code.now) values.now) result }
    ensures why { IfErr result (λ e. e ≡ Fault.Memory) }
{
    all_values(
        alloc,
        code,
        values.lines.as_slice(),
        values.totals.as_slice(),
        values.value,
    )
}

/// Returns the report of a run of code that ended and was measured, as `ended_text` does.
///
/// # Errors
///
/// `Fault::Memory` if there is no memory for the text.
pub fn output_text(alloc: Global, code: &Code, ended: &Ended) -> Result<Vec<u8>, Fault>
    ensures ok { Makes (output_of (code_view code.now) ended.now) result }
    ensures why { IfErr result (λ e. e ≡ Fault.Memory) }
{
    all_values(
        alloc,
        code,
        ended.lines.as_slice(),
        ended.totals.as_slice(),
        ended.value,
    )
}

// Returns the report of a run of code that printed these values, has these totals and returned this value.
fn all_values(
    alloc: Global,
    code: &Code,
    lines: &[i64],
    totals: &[Total],
    value: i64,
) -> Result<Vec<u8>, Fault>
    ensures ok { Makes (texts.ended_text (code_view code.now) lines.now totals.now value) result }
    ensures why { IfErr result (λ e. e ≡ Fault.Memory) }
{
    let mut text = printed_text(alloc, lines)?;
    push_totals(&mut text, code.reducers.as_slice(), totals)?;
    text.extend_from_slice(b"return ")?;
    push_value(&mut text, value)?;
    Ok(text)
}

// Adds a line for each reducer: its reduction, its name and its total.
fn push_totals(text: &mut Vec<u8>, reducers: &[Reducer], totals: &[Total]) -> Result<(), Fault>
    ensures ok { Grows text.old text.new (texts.totals_text reducers.now totals.now) result }
    ensures why { IfErr result (λ e. e ≡ Fault.Memory) }
{
    for (reducer, total) in reducers.iter().zip(totals) {
        push_reducer(text, reducer, *total)?;
    }
    Ok(())
}

// Adds the line of a reducer.
fn push_reducer(text: &mut Vec<u8>, reducer: &Reducer, total: Total) -> Result<(), Fault>
    ensures ok { Grows text.old text.new (texts.reducer_line reducer.now total) result }
    ensures why { IfErr result (λ e. e ≡ Fault.Memory) }
{
    text.extend_from_slice(word_of(reducer.how))?;
    text.extend_from_slice(reducer.name.as_bytes())?;
    text.extend_from_slice(b" = ")?;
    push_total(text, total)?;
    Ok(())
}

// Returns the word for a reduction, followed by a space.
fn word_of(how: Reduction) -> &'static [u8]
    ensures { result.now ≡ reduction_word how }
{
    match how {
        Reduction::Sum => b"sum ",
        Reduction::Max => b"max ",
    }
}

// Adds a total and the end of its line.
fn push_total(text: &mut Vec<u8>, total: Total) -> Result<(), Fault>
    ensures ok { Grows text.old text.new (total_line total) result }
    ensures why { IfErr result (λ e. e ≡ Fault.Memory) }
{
    match total {
        Total::Sum(sum) => {
            let mut buffer = Buffer::new();
            text.extend_from_slice(buffer.format(sum).as_bytes())?;
            text.push(b'\n')?;
            Ok(())
        }
        Total::Max(Some(value)) => push_value(text, value),
        Total::Max(None) => {
            text.extend_from_slice(b"none\n")?;
            Ok(())
        }
    }
}

// Adds the line of a value.
fn push_value(text: &mut Vec<u8>, value: i64) -> Result<(), Fault>
    ensures ok { Grows text.old text.new (value_line value) result }
    ensures why { IfErr result (λ e. e ≡ Fault.Memory) }
{
    let mut buffer = Buffer::new();
    text.extend_from_slice(buffer.format(value).as_bytes())?;
    text.push(b'\n')?;
    Ok(())
}
