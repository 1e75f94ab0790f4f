//! The beginning of a whole run.

ghost use Rattle.std.specs.Prelude.{◌≡◌, ◌≤◌, length, IfOk};
ghost use Rattle.cw_jobs.specs.Jobs as jobs;

use crate::call::Rest;
use cw_code::code::Func;
use cw_model::burden::Burden;
use cw_model::limits::{MOST_BURDEN, MOST_LIMIT};
use cw_slices::Slice;
use std::alloc::{AllocError, Global};

/// Returns whether the number of arguments is the number of parameters, and the limit and the burden are in their
/// ranges.
pub fn is_asked(params: usize, count: usize, n: u64, burden: Burden) -> bool
    ensures { result ≡ jobs.is_asked params count n burden }
{
    count == params && 1 <= n && n <= MOST_LIMIT && burden.charge <= MOST_BURDEN
}

// Returns the frame of a function on these arguments, with empty arrays.
pub(crate) fn first_rest(alloc: Global, f: &Func, args: &[i64]) -> Result<Rest, AllocError>
    requires { length args.now ≤ f.now.slots }
    ensures { IfOk result (λ r. jobs.IsFirst f.now args.now r) }
{
    let mut cells = Vec::from_slice(alloc, args)?;
    for _i in 0..f.slots - args.len() {
        cells.push(0)?;
    }
    let mut slices = Vec::new(alloc);
    for _k in 0..f.arrays {
        slices.push(Slice::empty(alloc))?;
    }
    Ok(Rest {
        place: f.start,
        depth: 1,
        cells,
        slices,
    })
}
