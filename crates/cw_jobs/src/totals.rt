//! The totals of reducers in a run, kept within 128 bits. `totals.rt` of `cw_reduce` has them as a monoid: a new kind
//! of reducer needs a case in both.

ghost use Rattle.std.specs.Prelude.{◌≡◌, ◌+ℤ◌, IfOk};
ghost use Rattle.cw_jobs.specs.Totals as totals;
ghost use Rattle.cw_model.specs.Answers as answers;

use cw_code::code::Reducer;
use cw_model::syntax::Reduction;
use cw_model::total::Total;
use std::alloc::{AllocError, Global};

/// Returns the total of a reducer before its first value.
pub fn empty_total(how: Reduction) -> Total
    ensures { result ≡ totals.empty_total how }
{
    match how {
        Reduction::Sum => Total::Sum(0),
        Reduction::Max => Total::Max(None),
    }
}

/// Returns the totals of reducers before their first values, one for each.
///
/// # Errors
///
/// An `AllocError` if there is not enough memory.
pub fn empty_totals(alloc: Global, reducers: &[Reducer]) -> Result<Vec<Total>, AllocError>
    ensures { IfOk result (λ all. all.items ≡ totals.empty_totals reducers.now) }
{
    let mut all = Vec::new(alloc);
    for r in reducers {
        all.push(empty_total(r.how))?;
    }
    Ok(all)
}

// Adds two sums, within 128 bits.
#[inline(always)]
fn add_up(sum: i128, more: i128) -> i128
    ensures { result ≡ totals.wrapped (sum +ℤ more) }
{
    sum.wrapping_add(more)
}

// Returns the maximum of a value and another one, if there is another one.
#[inline(always)]
fn or_max(value: i64, other: Option<i64>) -> i64
    ensures { result ≡ answers.or_max value other }
{
    match other {
        Some(other) => value.max(other),
        None => value,
    }
}

/// Returns the total after one more value. Takes no memory.
#[inline(always)]
pub fn told(total: Total, v: i64) -> Total
    ensures { result ≡ totals.told total v }
{
    match total {
        Total::Sum(sum) => Total::Sum(add_up(sum, v as i128)),
        Total::Max(greatest) => Total::Max(Some(or_max(v, greatest))),
    }
}

// Returns the maximum of two values, of which either may be absent.
fn greater(value: Option<i64>, more: Option<i64>) -> Option<i64>
    ensures { result ≡ totals.greater value more }
{
    match value {
        Some(value) => Some(or_max(value, more)),
        None => more,
    }
}

/// Combines two totals of one reducer.
pub fn joined(total: Total, more: Total) -> Total
    ensures { result ≡ totals.joined_total total more }
{
    match (total, more) {
        (Total::Sum(sum), Total::Sum(more)) => Total::Sum(add_up(sum, more)),
        (Total::Max(value), Total::Max(more)) => Total::Max(greater(value, more)),
        _ => total,
    }
}
