//! The table of functions and their gains, built completely before any byte is written.

ghost use Rattle.std.specs.Prelude.{◌≡◌, IfErr};
ghost use Rattle.cw_report.specs.Tables.{Adds};
ghost use Rattle.cw_report.specs.Texts.{Makes, sums_line};
ghost use Rattle.cw_report.specs.Texts as texts;

use crate::fields::parallelism_text;
use crate::table::Table;
use cw_gains::counts::Sums;
use cw_gains::gains::{FunctionGain, Gains};
use cw_meter::Readings;
use cw_text::Fault;
use itoa::Buffer;
use std::alloc::{AllocError, Global};

// The columns of the report on functions.
const COLUMNS: &[&[u8]] = &[
    b"function",
    b"line",
    b"calls",
    b"own_work",
    b"own_span",
    b"span_if_free",
    b"parallelism_if_free",
    b"burdened_span_if_free",
];

/// Returns the gain report of a run that ended: a line for the run, and a line for each of these functions with its
/// gain.
///
/// # Errors
///
/// `Fault::Memory` if there is no memory for the text.
pub fn gain_text(alloc: Global, gains: &Gains) -> Result<Vec<u8>, Fault>
    ensures ok { Makes (texts.gain_text gains.now) result }
    ensures why { IfErr result (λ e. e ≡ Fault.Memory) }
{
    let whole = gains.measure;
    let mut table = Table::titled(alloc, COLUMNS)?;
    push_whole(alloc, &mut table, whole)?;
    push_functions(alloc, &mut table, whole.work, &gains.functions)?;
    let text = table.into_text()?;
    Ok(text)
}

// Adds the line of the whole run, without a name.
fn push_whole(alloc: Global, table: &mut Table, whole: Readings) -> Result<(), AllocError>
    ensures { Adds table.old table.new (texts.whole_line whole) result }
{
    let sums = Sums {
        calls: 0,
        own_work: u128::from(whole.work),
        own_span: u128::from(whole.span),
    };
    push_line(
        alloc,
        table,
        b"",
        0,
        sums,
        whole.work,
        whole.span,
        whole.burdened,
    )
}

// Adds a line for each function, in a run of this work.
fn push_functions(
    alloc: Global,
    table: &mut Table,
    work: u64,
    functions: &[FunctionGain],
) -> Result<(), AllocError>
    ensures { Adds table.old table.new (texts.function_lines work functions.now) result }
{
    for function in functions {
        push_function(alloc, table, work, function)?;
    }
    Ok(())
}

// Adds the line of a function.
fn push_function(
    alloc: Global,
    table: &mut Table,
    work: u64,
    function: &FunctionGain,
) -> Result<(), AllocError>
    ensures { Adds table.old table.new (texts.function_line work function.now) result }
{
    let counted = &function.counted;
    push_line(
        alloc,
        table,
        counted.name.as_bytes(),
        counted.line,
        counted.sums,
        work,
        function.span_if_free,
        function.burdened_if_free,
    )
}

// Adds a line: a name and its source line, its sums, and the spans of a run of this work if the instructions that the
// sums count took no time.
fn push_line(
    alloc: Global,
    table: &mut Table,
    name: &[u8],
    line: u32,
    sums: Sums,
    work: u64,
    span: u64,
    burdened: u128,
) -> Result<(), AllocError>
    ensures { Adds table.old table.new (sums_line name.now line sums work span burdened) result }
{
    let mut counts = (Buffer::new(), Buffer::new(), Buffer::new());
    let mut numbers = (Buffer::new(), Buffer::new(), Buffer::new());
    let ratio = parallelism_text(alloc, work, u128::from(span))?;
    table.push(&[
        name,
        numbers.0.format(line).as_bytes(),
        counts.0.format(sums.calls).as_bytes(),
        counts.1.format(sums.own_work).as_bytes(),
        counts.2.format(sums.own_span).as_bytes(),
        numbers.1.format(span).as_bytes(),
        ratio.as_slice(),
        numbers.2.format(burdened).as_bytes(),
    ])
}
