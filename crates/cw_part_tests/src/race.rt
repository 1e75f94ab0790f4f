//! Tests of two threads with a thousand jobs, and of two seats on one thread.
ghost use Rattle.std.specs.Prelude.{◌≡◌, ◌<◌, IfOk};
ghost use Rattle.cw_yard.specs.Seats.{IsSeatOf, workers_of};

use crate::jobs::{argument, job};
use crate::walk::{offer_once, rob, spend};
use cw_text::Fault;
use cw_yard::seat::{Seat, Yard};
use std::alloc::Global;
use std::sync::Wait;
use std::test::Fail;
use std::thread;
use std::thread::Threads;

// Offers jobs with the arguments from 1 to `count`, and sets the end mark. Returns the sum of the arguments of the
// jobs that came back, and the sum of the values of the effects that came.
fn own<R: Wait>(
    rt: &R,
    alloc: Global,
    yard: &Yard,
    seat: &mut Seat,
    count: u16,
) -> Result<(i64, i64), Fault>
    requires { IsSeatOf yard.now seat.old }
{
    let mut back = 0i64;
    let mut came = 0i64;
    let mut arg = 0u16;
    let mut left = count;
    while left > 0 {
        left -= 1;
        arg = arg.wrapping_add(1);
        match job(alloc, arg) {
            Ok(job) => {
                let spent = offer_once(rt, yard, seat, job);
                back = back.wrapping_add(spent.argument().unwrap_or(0));
                came = came.wrapping_add(spent.value().unwrap_or(0));
            }
            Err(fault) => {
                yard.end(seat);
                return Err(fault);
            }
        }
    }
    yard.end(seat);
    Ok((back, came))
}

// Steals until the end mark is set. Returns the sum of the arguments of the stolen jobs.
fn steal_all<R: Wait>(rt: &R, yard: &Yard, seat: &mut Seat) -> i64
    requires { IsSeatOf yard.now seat.old × (0 < workers_of yard.now) }
{
    let mut sum = 0i64;
    for _ in rt.forever() {
        if yard.ended(seat) {
            return sum;
        }
        sum = sum.wrapping_add(rob(yard, seat, 0));
    }
    sum
}

// Runs both at once. Returns what came back and what came, and what was stolen.
fn race<R: Wait + Threads + Sync>(
    rt: &R,
    alloc: Global,
    yard: &Yard,
    mut one: Seat,
    mut other: Seat,
    count: u16,
) -> (Result<(i64, i64), Fault>, i64)
    requires { IsSeatOf yard.now one × IsSeatOf yard.now other × (0 < workers_of yard.now) }
{
    let (first, second) = (&mut one, &mut other);
    thread::join(
        rt,
        move || -> Result<(i64, i64), Fault>
            requires { IsSeatOf yard.now first.now }
        { own(rt, alloc, yard, first, count) },
        move || -> i64
            requires { IsSeatOf yard.now second.now × (0 < workers_of yard.now) }
        { steal_all(rt, yard, second) },
    )
}

// Returns a yard for two workers with `cells` cells each, and the seats of worker 0 and worker 1.
fn two(alloc: Global, cells: usize) -> Result<(Yard, Seat, Seat), Fault>
    ensures { IfOk result (λ r. IsSeatOf r.0 r.1 × IsSeatOf r.0 r.2 × (workers_of r.0 ≡ 2)) }
{
    let (yard, mut seats) = Yard::open(alloc, 2, cells)?;
    let Some(one) = seats.pop() else {
        return Err(Fault::Memory);
    };
    let Some(other) = seats.pop() else {
        return Err(Fault::Memory);
    };
    Ok((yard, one, other))
}

// Each job came back or was stolen, never both, and the effect of each stolen job came once.
#[test]
fn each_job_is_done_once(rt: HostRuntime) -> Result<(), Fail> {
    let (yard, one, other) = two(rt.alloc(), 4)?;
    let (own, stolen) = race(&rt, rt.alloc(), &yard, one, other, 1000);
    let (back, came) = own?;
    assert_eq!(rt; back.wrapping_add(came), 500_500);
    assert_eq!(rt; came, stolen);
    Ok(())
}

// With one cell, the first job is accepted and the second one given back whole; after a retake the next one is
// accepted.
#[test]
fn one_cell_takes_one_job(rt: HostRuntime) -> Result<(), Fail> {
    let (yard, mut one, _other) = two(rt.alloc(), 1)?;
    let (first, second, third) = (
        job(rt.alloc(), 7)?,
        job(rt.alloc(), 8)?,
        job(rt.alloc(), 9)?,
    );
    let Ok(ticket) = yard.offer(&mut one, first) else {
        panic!(rt; "the first job was given back")
    };
    match yard.offer(&mut one, second) {
        Ok(_) => panic!(rt; "one cell took two jobs"),
        Err(back) => assert_eq!(rt; argument(&back), 8),
    }
    let spent = spend(&rt, &yard, &mut one, ticket);
    assert_eq!(rt; spent.argument(), Some(7));
    let Ok(ticket) = yard.offer(&mut one, third) else {
        panic!(rt; "the third job was given back")
    };
    let spent = spend(&rt, &yard, &mut one, ticket);
    assert_eq!(rt; spent.argument(), Some(9));
    Ok(())
}

// Worker 1 steals the older of two jobs, worker 0 gets its effect, and both see the end mark.
#[test]
fn the_oldest_is_stolen(rt: HostRuntime) -> Result<(), Fail> {
    let (yard, mut one, mut other) = two(rt.alloc(), 2)?;
    let (first, second) = (job(rt.alloc(), 7)?, job(rt.alloc(), 8)?);
    let Ok(older) = yard.offer(&mut one, first) else {
        panic!(rt; "the first job was given back")
    };
    let Ok(newer) = yard.offer(&mut one, second) else {
        panic!(rt; "the second job was given back")
    };
    assert_eq!(rt; rob(&yard, &mut other, 0), 7);
    let spent = spend(&rt, &yard, &mut one, newer);
    assert_eq!(rt; spent.argument(), Some(8));
    let spent = spend(&rt, &yard, &mut one, older);
    assert_eq!(rt; spent.value(), Some(7));
    assert_eq!(rt; rob(&yard, &mut other, 0), 0);
    assert!(rt; !yard.ended(&mut other));
    yard.end(&mut one);
    assert!(rt; yard.ended(&mut one) && yard.ended(&mut other));
    Ok(())
}
