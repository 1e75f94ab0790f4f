//! Lists of events.

ghost use Rattle.cw_sched.specs.Worlds.{Plays};

use crate::event::Event;
use crate::world::World;
use cw_machine::alone::Ended;
use cw_model::burden::Burden;
use cw_runnable::verified::Verified;
use cw_text::Fault;
use std::alloc::Global;
use std::sync::Arc;

/// Executes this code on these arguments by a list of events with this many workers, and returns the answer of the
/// run, if the run ends by them. For any events and any number of workers, the answer is what the code's meaning
/// gives, with all measures and the rows of all sites and regions, or `Memory`. An event that is not possible when its
/// turn comes does nothing.
///
/// # Errors
///
/// Those of `World::start`.
pub fn play(
    alloc: Global,
    code: Arc<Verified>,
    args: &[i64],
    n: u64,
    burden: Burden,
    workers: usize,
    events: &[Event],
) -> Result<Option<Result<Ended, Fault>>, Fault>
    ensures { Plays code.value args.now n burden workers events.now result }
{
    let mut world = World::start(alloc, code, args, n, burden, workers)?;
    for event in events {
        let _ = world.apply(*event);
    }
    let outcome = world.outcome();
    Ok(outcome)
}
