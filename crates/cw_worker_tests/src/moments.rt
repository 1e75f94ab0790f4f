//! Every event at every moment of short runs: each is possible or refused as worked out by hand.

ghost use Rattle.std.specs.Prelude.{IfOk};
ghost use Rattle.cw_sched.specs.Worlds.{IsSound};

use crate::sources::{PRINTS, code_of};
use cw_model::burden::{Burden, Edges};
use cw_sched::event::Event::{self, Collect, Inline, Offer, Retake, Run, Settle, Steal};
use cw_sched::event::Refused;
use cw_sched::world::World;
use cw_text::Fault;
use std::alloc::Global;
use std::test::Fail;

const BURDEN: Burden = Burden {
    charge: 100,
    edges: Edges::Spawn,
};

// Returns the event of this kind of worker `w`; `v` is the victim of a theft.
fn event_of(kind: usize, w: usize, v: usize) -> Event {
    match kind {
        0 => Run(w),
        1 => Offer(w),
        2 => Inline(w),
        3 => Retake(w),
        4 => Steal(w, v),
        5 => Settle(w),
        _ => Collect(w),
    }
}

// Returns whether an event is refused as not possible.
fn is_rejected(world: &mut World, event: Event) -> bool
    requires { IsSound world.old }
    ensures { IsSound world.new }
{
    match world.apply(event) {
        Err(Refused::NotNow) => true,
        _ => false,
    }
}

// Returns whether an event is possible, or refused as not possible, as worked out by hand.
fn is_as_told(world: &mut World, event: Event, is_possible: bool) -> bool
    requires { IsSound world.old }
    ensures { IsSound world.new }
{
    if is_possible {
        return world.is_possible(event);
    }
    let refused = is_rejected(world, event);
    refused && !world.is_possible(event)
}

// Returns whether exactly these events are possible now, among all seven events of workers 0 and 1, and of worker 2,
// which does not exist.
fn is_moment(world: &mut World, possible: &[Event]) -> bool
    requires { IsSound world.old }
    ensures { IsSound world.new }
{
    let mut right = true;
    for i in 0..63 {
        let event = event_of(i / 9, i / 3 % 3, i % 3);
        let is_right = is_as_told(world, event, possible.contains(&event));
        right = right && is_right;
    }
    right
}

// Returns whether exactly these events are possible now. The first of them then happens.
fn passes_one(world: &mut World, possible: &[Event]) -> bool
    requires { IsSound world.old }
    ensures { IsSound world.new }
{
    let is_right = is_moment(world, possible);
    match possible.first() {
        Some(event) => {
            let happens = world.apply(*event).is_ok();
            is_right && happens
        }
        None => is_right,
    }
}

// Passes moments, each with its possible events, of which the first one happens. Returns whether all are right.
fn passes(world: &mut World, moments: &[&[Event]]) -> bool
    requires { IsSound world.old }
    ensures { IsSound world.new }
{
    let mut right = true;
    for possible in moments {
        let is_right = passes_one(world, possible);
        right = right && is_right;
    }
    right
}

// Returns a world of two workers that prints 1, 2 and 3.
fn printing(alloc: Global) -> Result<World, Fault>
    ensures { IfOk result (λ world. IsSound world) }
{
    let code = code_of(alloc, PRINTS)?;
    let world = World::start(alloc, code, &[], 100, BURDEN, 2)?;
    Ok(world)
}

// Returns whether the run has not ended after `moments`, and has ended after `last`.
fn ends_after(alloc: Global, moments: &[&[Event]], last: &[&[Event]]) -> Result<bool, Fault> {
    let mut world = printing(alloc)?;
    let passes_most = passes(&mut world, moments);
    let goes_on = world.outcome().is_none();
    let passes_last = passes(&mut world, last);
    Ok(passes_most && goes_on && passes_last && world.outcome().is_some())
}

// Worker 1 steals the continuation after the first call, and worker 0 the one after the second call.
const STOLEN: &[&[Event]] = &[
    // to the first spawn
    &[Run(0)],
    &[Run(0)],
    &[Offer(0), Inline(0)],
    // the continuation is stolen, and reaches the second spawn
    &[Steal(1, 0), Run(0)],
    &[Run(1), Run(0)],
    &[Run(1), Run(0)],
    &[Offer(1), Inline(1), Run(0)],
    // the first call ends, and worker 0 executes the second continuation to its end
    &[Run(0), Run(1)],
    &[Run(0), Run(1)],
    &[Run(0), Run(1)],
    &[Steal(0, 1), Run(1)],
    &[Run(0), Run(1)],
    &[Run(0), Run(1)],
    &[Settle(0), Run(1)],
    // the second call ends, and both effects are collected
    &[Run(1)],
    &[Run(1)],
    &[Run(1)],
    &[Collect(1)],
    &[Settle(1)],
    &[Collect(0)],
];

// The join and the end.
const JOINED: &[&[Event]] = &[&[Run(0)], &[Run(0)], &[Run(0)], &[]];

#[test]
fn both_rests_stolen(rt: HostRuntime) -> Result<(), Fail> {
    let ends = ends_after(rt.alloc(), STOLEN, JOINED)?;
    assert!(rt; ends);
    Ok(())
}

// The first continuation is offered and taken back from the deque; the second one is kept.
const TAKEN_BACK: &[&[Event]] = &[
    &[Run(0)],
    &[Run(0)],
    &[Offer(0), Inline(0)],
    &[Run(0), Steal(1, 0)],
    &[Run(0), Steal(1, 0)],
    &[Run(0), Steal(1, 0)],
    // at the join it may be taken back, or stolen, also by its own worker
    &[Retake(0), Steal(0, 0), Steal(1, 0)],
    &[Run(0)],
    &[Run(0)],
    &[Inline(0), Offer(0)],
    &[Run(0)],
    &[Run(0)],
    &[Run(0)],
    &[Retake(0)],
];

// The third print, the join and the end.
const PRINTED: &[&[Event]] = &[&[Run(0)], &[Run(0)], &[Run(0)], &[Run(0)], &[Run(0)], &[]];

#[test]
fn both_rests_taken_back(rt: HostRuntime) -> Result<(), Fail> {
    let ends = ends_after(rt.alloc(), TAKEN_BACK, PRINTED)?;
    assert!(rt; ends);
    Ok(())
}
