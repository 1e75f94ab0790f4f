//! The number of arrays that are read, for each pc.

ghost use Rattle.std.specs.Prelude.{◌≡◌, [], IfOk, OnOk};
ghost use Rattle.cw_runnable.specs.Reading as reading;

use cw_code::code::Func;
use std::alloc::{AllocError, Global};

// Fills a list up to length `to` with the same number.
fn fill(counts: &mut Vec<usize>, to: usize, readers: usize) -> Result<(), AllocError>
    ensures { OnOk result (counts.new.items ≡ reading.filled counts.old.items to readers) }
{
    let more = to.saturating_sub(counts.len());
    for _k in 0..more {
        counts.push(readers)?;
    }
    Ok(())
}

// Returns for each pc up to the end of the last function how many arrays its function reads.
pub(crate) fn reading_of(
    alloc: Global,
    funcs: &[Func],
    places: usize,
) -> Result<Vec<usize>, AllocError>
    ensures { IfOk result (λ all. all.items ≡ reading.reading_in [] funcs.now) }
{
    let mut all = Vec::with_capacity(alloc, places)?;
    for k in 0..funcs.len() {
        let f = funcs[k];
        fill(&mut all, f.end, f.readers)?;
    }
    Ok(all)
}
