//! The crew of a run.

ghost use Rattle.std.specs.Prelude.{◌≡◌, ◌≤◌, length, IfOk};
ghost use Rattle.cw_pool.specs.declared.run.TheConstants.{MOST_BODIES};
ghost use Rattle.cw_cli.specs.Crews as crews;

use cw_pool::crew::Serving;
use cw_pool::run::MOST_BODIES;
use std::alloc::{AllocError, Global};
use std::sync::Wait;

// Returns the number of threads of a run by `workers` workers, without the caller's thread.
fn bodies_for(workers: u64) -> usize
    ensures { result ≡ crews.bodies_for workers }
{
    workers.saturating_sub(1).min(MOST_BODIES as u64) as usize
}

/// Creates the crew of a run by `workers` workers. The caller's thread is one of them; each other worker, at most 63,
/// gets a body that serves.
///
/// # Errors
///
/// `AllocError` if memory runs out.
pub fn crew_of<R: Wait + Copy + Drop>(
    alloc: Global,
    rt: R,
    workers: u64,
) -> Result<Vec<Serving<R>>, AllocError>
    ensures bodies { IfOk result (λ crew. length crew.items ≡ crews.bodies_for workers) }
    ensures few { IfOk result (λ crew. length crew.items ≤ MOST_BODIES) }
{
    let bodies = bodies_for(workers);
    let mut crew = Vec::with_capacity(alloc, bodies)?;
    for _k in 0..bodies {
        crew.push(Serving(rt))?;
    }
    Ok(crew)
}
