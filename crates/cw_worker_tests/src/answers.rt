//! The outcome of a run: worked out by hand, with one worker, and by strands.

use cw_code::code::Code;
use cw_jobs::effect::{Effect, PieceOutput};
use cw_machine::alone::Ended;
use cw_meter::Readings;
use cw_model::total::Total;
use cw_model::trap::Trap;
use cw_regions::RegionRow;
use cw_sites::table::SiteRow;
use cw_text::Fault;
use std::alloc::Global;

/// The calls of a site, their own work and span, and their work and span.
pub type Site = (u64, u64, u64, u64, u64);

/// The work, span and burdened span of a tag.
pub type Region = (u64, u64, u128);

/// The outcome of a run, worked out by hand. Empty rows were not worked out.
#[derive(Clone, Copy)]
pub enum Expected<'a> {
    /// The run ends.
    Ends {
        value: i64,
        lines: &'a [i64],
        totals: &'a [Total],
        span: u64,
        burdened: u128,
        sites: &'a [Site],
        regions: &'a [Region],
    },
    /// The run traps with the trap of this number in this line, after it has printed `lines`.
    Traps {
        number: u8,
        line: u32,
        lines: &'a [i64],
    },
}

// Returns whether rows are the expected ones, or none were worked out.
fn are_sites(rows: &[SiteRow], hand: &[Site]) -> bool {
    let mut all = hand.is_empty() || rows.len() == hand.len();
    for (row, site) in rows.iter().zip(hand) {
        let found = (row.calls, row.own_work, row.own_span, row.work, row.span);
        all = all && found == *site;
    }
    all
}

fn are_regions(rows: &[RegionRow], hand: &[Region]) -> bool {
    let mut all = hand.is_empty() || rows.len() == hand.len();
    for (row, region) in rows.iter().zip(hand) {
        all = all && (row.work, row.span, row.burdened) == *region;
    }
    all
}

// Returns whether a run that ended with this work is the one that was worked out.
fn is_end_told(ended: &Ended, told: &Expected, cost: u64) -> bool {
    match told {
        Expected::Ends {
            value,
            lines,
            totals,
            span,
            burdened,
            sites,
            regions,
        } => {
            let measure = Readings {
                work: cost,
                span: *span,
                burdened: *burdened,
            };
            ended.value == *value
                && ended.lines.as_slice() == *lines
                && ended.totals.as_slice() == *totals
                && ended.measure == measure
                && are_sites(ended.sites.values().as_slice(), sites)
                && are_regions(ended.regions.values().as_slice(), regions)
        }
        Expected::Traps { .. } => false,
    }
}

// Returns whether a trap is the one that was worked out.
fn is_trap_told(code: Trap, line: u32, output: &[i64], told: &Expected) -> bool {
    match told {
        Expected::Ends { .. } => false,
        Expected::Traps {
            number,
            line: at,
            lines,
        } => code.number() == *number && line == *at && output == *lines,
    }
}

/// Returns whether a run with one worker has the outcome that was worked out, at this cost.
pub fn is_told(alone: &Result<Ended, Fault>, told: &Expected, cost: u64) -> bool {
    match alone {
        Ok(ended) => is_end_told(ended, told, cost),
        Err(fault) => match fault {
            Fault::Trap { code, line, output } => {
                is_trap_told(*code, *line, output.as_slice(), told)
            }
            _other => false,
        },
    }
}

// Returns whether a whole call that ended with this value printed and counted the same as a run with one worker. The
// error is `Memory`.
fn is_same_end(
    alloc: Global,
    code: &Code,
    ended: &Ended,
    value: Option<i64>,
    shown: PieceOutput,
) -> Result<bool, Fault> {
    let PieceOutput {
        lines,
        totals,
        meter,
        cost,
    } = shown;
    let lines = lines.into_vec();
    let all = meter.finish(alloc, cost, code.sites.len() + 1, code.tags.len())?;
    Ok(
        value == Some(ended.value)
            && lines.as_slice() == ended.lines.as_slice()
            && totals.as_slice() == ended.totals.as_slice()
            && all.measure == ended.measure
            && all.sites.as_slice() == ended.sites.values().as_slice()
            && all.regions.as_slice() == ended.regions.values().as_slice(),
    )
}

// Returns whether a run with one worker trapped in this way.
fn is_same_trap(alone: &Result<Ended, Fault>, trap: Trap, at: u32, lines: &[i64]) -> bool {
    match alone {
        Ok(_) => false,
        Err(fault) => match fault {
            Fault::Trap { code, line, output } => {
                *code == trap && *line == at && output.as_slice() == lines
            }
            _other => false,
        },
    }
}

// Returns whether a run with one worker exceeded its limit.
fn is_over(alone: &Result<Ended, Fault>) -> bool {
    match alone {
        Ok(_) => false,
        Err(fault) => match fault {
            Fault::OverLimit => true,
            _other => false,
        },
    }
}

/// Returns whether the effect of a whole run's job is the outcome of a run with one worker: value, lines, totals,
/// measures and rows; trap, line, lines and cost; or over the limit.
///
/// # Errors
///
/// `Fault::Memory` if there is not enough memory.
pub fn is_same(
    alloc: Global,
    code: &Code,
    alone: &Result<Ended, Fault>,
    effect: Effect,
    at: u64,
) -> Result<bool, Fault> {
    match effect {
        Effect::Ended { value, shown } => match alone {
            Ok(ended) => is_same_end(alloc, code, ended, value, shown),
            Err(_) => Ok(false),
        },
        Effect::Joined { .. } => Ok(false),
        Effect::Trapped {
            trap,
            line,
            lines,
            cost,
            back: _,
        } => Ok(cost == at && is_same_trap(alone, trap, line, lines.into_vec().as_slice())),
        Effect::OverLimit { back: _ } => Ok(is_over(alone)),
        Effect::Memory { back: _ } => Err(Fault::Memory),
        Effect::GivenUp { back: _ } => Ok(false),
    }
}
