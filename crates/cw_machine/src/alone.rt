//! Runs of code with one worker.

ghost use Rattle.std.specs.Prelude.{◌≡◌, ◌≤◌, true, IfOk};
ghost use Rattle.std.specs.List.{enumerate_from, zip};
ghost use Rattle.cw_code.specs.Code.{code_view};
ghost use Rattle.cw_code.specs.Fits as fits;
ghost use Rattle.cw_machine.specs.Metered.{FinishesAsCode};
ghost use Rattle.cw_machine.specs.Runs as runs;
ghost use Rattle.cw_meter.specs.Details.{burden_of};
ghost use Rattle.cw_model.specs.Answers as answers;

use crate::machine::Moved;
use crate::run::Run;
use cw_code::code::Code;
use cw_jobs::effect::PieceOutput;
use cw_jobs::first::is_asked;
use cw_meter::{Detail, Readings};
use cw_model::burden::Burden;
use cw_model::syntax::Name;
use cw_model::total::Total;
use cw_regions::RegionRow;
use cw_runnable::verified::Verified;
use cw_sites::table::SiteRow;
use cw_text::Fault;
use indexmap::IndexMap;
use std::alloc::{AllocError, Global};
use std::sync::Arc;

/// The result of a run that finishes without a trap and within its limit.
#[derive(Debug, Drop)]
pub struct Ended {
    /// The value of `main`.
    pub value: i64,
    /// The values printed, in order.
    pub lines: Vec<i64>,
    /// The total of each reducer, in source order.
    pub totals: Vec<Total>,
    /// Work, span and burdened span of the whole run, in instructions.
    pub measure: Readings,
    /// The row of each call site, keyed by its number, in the order of the numbers. Site 0 is the call of `main` by
    /// the run itself.
    pub sites: IndexMap<u32, SiteRow>,
    /// The row of each region tag, keyed by its bytes, in the order of the code's tags.
    pub regions: IndexMap<Vec<u8>, RegionRow>,
}

/// Runs code on these arguments within `n` instructions. Returns its value, the values printed, the total of each
/// reducer, and all measures of its strand tree, exactly as the meaning of the code defines them.
///
/// `burden` is the charge for a spawn, in instructions. It changes only the burdened spans.
///
/// # Errors
///
/// `Fault::Arguments` exactly if the number of arguments is not the number of `main`'s parameters, or `n` is not in
/// 1..=2^62, or more than 1,000,000,000 instructions are charged for an edge. Otherwise `Fault::OverLimit` exactly if
/// the run costs more than `n`, `Fault::Trap` exactly if it traps, with the line and the values printed before, and
/// `Fault::Memory` if memory runs out.
pub fn run_alone(
    alloc: Global,
    code: Arc<Verified>,
    args: &[i64],
    n: u64,
    burden: Burden,
) -> Result<Ended, Fault>
    ensures { runs.RunsAsCode (code_view code.value.code) args.now n burden result }
{
    let detail = Detail::Measures(burden);
    let verified: &Verified = &code;
    let (value, shown) = run_whole(alloc, verified, args, n, burden, detail)?;
    let ended = end_of(alloc, &verified.code, value, shown)?;
    Ok(ended)
}

// Executes a whole run of code on these arguments within `n` instructions, and records what `detail` says. Returns
// the value with which it ended, if it returns one, and what it has printed, counted and recorded. The errors are
// the errors of `run_alone`.
pub(crate) fn run_whole(
    alloc: Global,
    code: &Verified,
    args: &[i64],
    n: u64,
    burden: Burden,
    detail: Detail,
) -> Result<(Option<i64>, PieceOutput), Fault>
    requires { (burden_of detail).charge ≤ burden.charge }
    ensures { FinishesAsCode (code_view code.now.code) args.now n burden detail result }
{
    let main = code.code.main as usize;
    let f = code.func(main);
    if !is_asked(f.params, args.len(), n, burden) {
        return Err(Fault::Arguments);
    }
    let reducers = code.code.reducers.as_slice();
    let mut run = Run::new(alloc, f, code.room(main), args, reducers, detail)?;
    let (stop, count) = run.go(code, n);
    match stop {
        Moved::Gave(value) => {
            let Run { machine, meter } = run;
            let shown = PieceOutput {
                lines: machine.lines,
                totals: machine.totals,
                meter,
                cost: count,
            };
            Ok((value, shown))
        }
        Moved::On => Err(Fault::OverLimit),
        Moved::Trapped(trap, line) => Err(Fault::Trap {
            code: trap,
            line,
            output: run.machine.lines.into_vec(),
        }),
        Moved::NoMemory => Err(Fault::Memory),
    }
}

// Builds the result of a run of this code from its value, if it returns one, and from what the run has printed,
// counted and recorded. The code's tags are distinct.
pub(crate) fn end_of(
    alloc: Global,
    code: &Code,
    value: Option<i64>,
    shown: PieceOutput,
) -> Result<Ended, AllocError>
    requires { fits.are_apart code.now.tags.items ≡ true }
    ensures { IfOk result (λ e. runs.IsEndOf code.now value shown e) }
{
    let PieceOutput {
        lines,
        totals,
        meter,
        cost,
    } = shown;
    let sites = code.sites.len() + 1;
    let all = meter.finish(alloc, cost, sites, code.tags.len())?;
    let sites = by_number(alloc, all.sites.as_slice())?;
    let regions = by_tag(alloc, code.tags.as_slice(), all.regions.as_slice())?;
    Ok(Ended {
        value: int_given(value),
        lines: lines.into_vec(),
        totals,
        measure: all.measure,
        sites,
        regions,
    })
}

// Returns the rows, keyed by their numbers. The number of a site has 32 bits, and a map has no room for 2^32 rows.
fn by_number(alloc: Global, rows: &[SiteRow]) -> Result<IndexMap<u32, SiteRow>, AllocError>
    ensures { IfOk result (λ m. m.entries ≡ enumerate_from 0 rows.now) }
{
    let mut sites = IndexMap::with_capacity(alloc, rows.len())?;
    for (number, row) in rows.iter().enumerate() {
        let number = u32::try_from(number).or(Err(AllocError))?;
        sites.insert(number, *row)?;
    }
    Ok(sites)
}

// Returns the rows, keyed by their tags. The tags are distinct.
fn by_tag(
    alloc: Global,
    tags: &[Name],
    rows: &[RegionRow],
) -> Result<IndexMap<Vec<u8>, RegionRow>, AllocError>
    requires { fits.are_apart tags.now ≡ true }
    ensures { IfOk result (λ m. runs.named m.entries ≡ zip tags.now rows.now) }
{
    let mut regions = IndexMap::with_capacity(alloc, rows.len())?;
    for (tag, row) in tags.iter().zip(rows) {
        let key = Vec::from_slice(alloc, tag.as_bytes())?;
        regions.insert(key, *row)?;
    }
    Ok(regions)
}

/// Returns the number of arguments that `main` takes.
pub fn main_takes(code: &Verified) -> usize
    ensures { result ≡ fits.main_params (code_view code.now.code) }
{
    code.func(code.code.main as usize).params
}

// Returns the value of a call, or 0 if the call returns none.
pub(crate) fn int_given(value: Option<i64>) -> i64
    ensures { result ≡ answers.int_given value }
{
    match value {
        Some(v) => v,
        None => 0,
    }
}
