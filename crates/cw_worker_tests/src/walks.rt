//! A program that prints 1, 2 and 3, driven by lists of events.

ghost use Rattle.std.specs.Prelude.{IfOk};
ghost use Rattle.cw_sched.specs.Worlds.{IsSound};

use crate::sources::{PRINTS, code_of};
use cw_model::burden::{Burden, Edges};
use cw_sched::event::Event;
use cw_sched::event::Event::{Collect, Inline, Offer, Retake, Run, Settle, Steal};
use cw_sched::world::World;
use cw_text::Fault;
use std::alloc::Global;
use std::test::Fail;

// Each continuation is charged 100.
const BURDEN: Burden = Burden {
    charge: 100,
    edges: Edges::Spawn,
};

// Returns a world of `workers` workers that prints 1, 2 and 3.
fn printing(alloc: Global, workers: usize) -> Result<World, Fault>
    ensures { IfOk result (λ world. IsSound world) }
{
    let code = code_of(alloc, PRINTS)?;
    let world = World::start(alloc, code, &[], 100, BURDEN, workers)?;
    Ok(world)
}

// Applies these events. Returns whether each of them happens.
fn walk(world: &mut World, events: &[Event]) -> bool
    requires { IsSound world.old }
    ensures { IsSound world.new }
{
    let mut all = true;
    for event in events {
        if world.apply(*event).is_err() {
            all = false;
        }
    }
    all
}

// Returns whether the run has ended with 1, 2 and 3 printed and 0 returned, after 15 instructions, with a longest
// path of 10.
fn has_printed(world: &World) -> bool
    requires { IsSound world.now }
{
    match world.outcome() {
        Some(Ok(ended)) => {
            ended.value == 0
                && ended.lines.as_slice() == [1, 2, 3].as_slice()
                && ended.measure.work == 15
                && ended.measure.span == 10
        }
        _ => false,
    }
}

// Returns whether the run in a world of `workers` workers has not ended after `events`, and has printed after `last`.
fn prints(alloc: Global, workers: usize, events: &[Event], last: &[Event]) -> Result<bool, Fault> {
    let mut world = printing(alloc, workers)?;
    let walks_most = walk(&mut world, events);
    let goes_on = world.outcome().is_none();
    let walks_last = walk(&mut world, last);
    Ok(walks_most && goes_on && walks_last && has_printed(&world))
}

// Both continuations are kept.
const KEPT: &[Event] = &[
    Run(0),
    Run(0),
    Inline(0),
    Run(0),
    Run(0),
    Run(0),
    Retake(0),
    Run(0),
    Run(0),
    Inline(0),
    Run(0),
    Run(0),
    Run(0),
    Retake(0),
];

// The events after these.
const KEPT_LAST: &[Event] = &[Run(0), Run(0), Run(0), Run(0), Run(0)];

#[test]
fn one_worker_keeps_each_rest(rt: HostRuntime) -> Result<(), Fail> {
    let prints = prints(rt.alloc(), 1, KEPT, KEPT_LAST)?;
    assert!(rt; prints);
    Ok(())
}

const STOLEN: &[Event] = &[
    // worker 1 steals the first continuation, and offers the second one
    Run(0),
    Run(0),
    Offer(0),
    Steal(1, 0),
    Run(1),
    Run(1),
    Offer(1),
    // worker 0 steals the second continuation
    Run(0),
    Run(0),
    Run(0),
    Steal(0, 1),
    Run(0),
    Run(0),
    Settle(0),
    // both effects are collected
    Run(1),
    Run(1),
    Run(1),
    Collect(1),
    Settle(1),
    Collect(0),
];

const STOLEN_LAST: &[Event] = &[Run(0), Run(0), Run(0)];

#[test]
fn two_workers_steal_each_rest(rt: HostRuntime) -> Result<(), Fail> {
    let prints = prints(rt.alloc(), 2, STOLEN, STOLEN_LAST)?;
    assert!(rt; prints);
    Ok(())
}
