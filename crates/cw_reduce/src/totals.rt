//! The totals of reducers over pieces of a run, as a monoid. No run calls it: runs use `totals.rt` of `cw_jobs`.

ghost use Rattle.std.specs.Prelude.{◌≡◌};
ghost use Rattle.std.specs.Int.{int_wrapping_add, w128};
ghost use Rattle.cw_reduce.specs.ReducerState.{as_total, held, held_joined, one_held};
ghost use Rattle.cw_reduce.specs.Words.{plus, word_of};

use crate::maximum::max_of;
use cw_model::syntax::Reduction;
use cw_model::total::Total;

/// Returns the total of a reducer with this reduction after one update with this value.
pub(crate) fn single_total(how: Reduction, value: i64) -> Total
    ensures { held result ≡ one_held how value }
{
    match how {
        Reduction::Sum => Total::Sum(value as i128),
        Reduction::Max => Total::Max(Some(value)),
    }
}

// Returns the sum of two sums, modulo 2^128.
fn add_up(sum: i128, more: i128) -> i128
    ensures { word_of result ≡ plus (word_of sum) (word_of more) }
{
    sum.wrapping_add(more)
}

/// Returns the total of a reducer over two pieces. If it is a sum in one of them, it is a sum in both, so that joins
/// may be grouped in any way.
pub(crate) fn joined(left: Total, right: Total) -> Total
    ensures { held result ≡ held_joined (held left) (held right) }
{
    match left {
        Total::Sum(sum) => match right {
            Total::Sum(more) => Total::Sum(add_up(sum, more)),
            Total::Max(_) => left,
        },
        Total::Max(greatest) => match right {
            Total::Sum(_) => right,
            Total::Max(more) => Total::Max(max_of(greatest, more)),
        },
    }
}

/// Returns a total as one of a reducer with this reduction: unchanged if it has this kind, otherwise the initial total.
pub(crate) fn read_as(how: Reduction, total: Total) -> Total
    ensures { result ≡ as_total how (held total) }
{
    match how {
        Reduction::Sum => match total {
            Total::Sum(sum) => Total::Sum(sum),
            Total::Max(_) => Total::Sum(0),
        },
        Reduction::Max => match total {
            Total::Sum(_) => Total::Max(None),
            Total::Max(greatest) => Total::Max(greatest),
        },
    }
}
