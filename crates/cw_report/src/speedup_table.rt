//! The table of speedups by number of processors.

ghost use Rattle.std.specs.Prelude.{◌≡◌, IfErr, IfOk};
ghost use Rattle.cw_report.specs.Speedups as speedups;
ghost use Rattle.cw_report.specs.Tables.{Adds};
ghost use Rattle.cw_report.specs.Texts.{Makes};

use crate::fields::{bound_text, parallelism_text};
use crate::table::Table;
use cw_greedy_schedule::speedups::{Speedup, SpeedupRow};
use cw_meter::Readings;
use cw_text::Fault;
use itoa::Buffer;
use std::alloc::{AllocError, Global};

// The columns of the report.
const SPEEDUP: &[&[u8]] = &[
    b"processors",
    b"steps",
    b"speedup",
    b"speedup_bound",
    b"burdened_steps",
    b"burdened_speedup",
];

/// Returns the steps and the speedup of a run that ended, by number of processors, each on a line.
///
/// # Errors
///
/// `Memory` if memory runs out.
pub fn speedup_text(alloc: Global, speedup: &Speedup) -> Result<Vec<u8>, Fault>
    ensures ok { Makes (speedups.speedup_text speedup.now.measure speedup.now.rows.items) result }
    ensures why { IfErr result (λ e. e ≡ Fault.Memory) }
{
    let mut table = Table::titled(alloc, SPEEDUP)?;
    push_rows(alloc, &mut table, speedup.measure, &speedup.rows)?;
    let text = table.into_text()?;
    Ok(text)
}

// Adds a line for each row.
fn push_rows(
    alloc: Global,
    table: &mut Table,
    measure: Readings,
    rows: &[SpeedupRow],
) -> Result<(), AllocError>
    ensures { Adds table.old table.new (speedups.speedup_lines measure rows.now) result }
{
    for row in rows {
        push_row(alloc, table, measure, row)?;
    }
    Ok(())
}

// Adds the line of a row.
fn push_row(
    alloc: Global,
    table: &mut Table,
    measure: Readings,
    row: &SpeedupRow,
) -> Result<(), AllocError>
    ensures { Adds table.old table.new (speedups.speedup_line measure row.now) result }
{
    let mut numbers = (Buffer::new(), Buffer::new());
    let burdened = burdened_steps(row.processors, measure.work, measure.burdened);
    let steps = steps_text(alloc, row.steps)?;
    let speedup = steps_speedup(alloc, measure.work, row.steps)?;
    let bound = bound_text(alloc, row.processors, measure.work, measure.span)?;
    let with_burden = parallelism_text(alloc, measure.work, burdened)?;
    table.push(&[
        numbers.0.format(row.processors).as_bytes(),
        steps.as_slice(),
        speedup.as_slice(),
        bound.as_slice(),
        numbers.1.format(burdened).as_bytes(),
        with_burden.as_slice(),
    ])
}

// Steps, if there are any; an error if memory runs out.
fn steps_text(alloc: Global, steps: Option<u64>) -> Result<Vec<u8>, AllocError>
    ensures { IfOk result (λ text. text.items ≡ speedups.steps_text steps) }
{
    match steps {
        Some(steps) => {
            let mut buffer = Buffer::new();
            let text = Vec::from_slice(alloc, buffer.format(steps).as_bytes())?;
            Ok(text)
        }
        None => Ok(Vec::new(alloc)),
    }
}

// Work by steps, if there are any; an error if memory runs out.
fn steps_speedup(alloc: Global, work: u64, steps: Option<u64>) -> Result<Vec<u8>, AllocError>
    ensures { IfOk result (λ text. text.items ≡ speedups.steps_speedup work steps) }
{
    match steps {
        Some(steps) => {
            let text = parallelism_text(alloc, work, u128::from(steps))?;
            Ok(text)
        }
        None => Ok(Vec::new(alloc)),
    }
}

// The work and, for all processors but one, the burdened span, divided by the processors. That product may need more
// than 128 bits; the quotient is the burdened span with a share of what the work has more or less.
fn burdened_steps(processors: u64, work: u64, burdened: u128) -> u128
    ensures { result ≡ speedups.burdened_steps processors work burdened }
{
    let work = u128::from(work);
    let processors = u128::from(processors);
    if processors == 0 {
        0
    } else if burdened <= work {
        burdened + (work - burdened) / processors
    } else {
        burdened - (burdened - work - 1) / processors - 1
    }
}
