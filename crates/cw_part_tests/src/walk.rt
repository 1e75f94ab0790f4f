//! Two seats on one thread, and two on two threads.
ghost use Rattle.std.specs.Prelude.{◌≡◌, ◌<◌};
ghost use Rattle.cw_yard.specs.Seats.{IsSeatOf, IsTicketOf, workers_of};

use crate::jobs::{argument, value};
use cw_jobs::effect::Effect;
use cw_jobs::job::Job;
use cw_yard::seat::{Seat, Yard};
use cw_yard::ticket::Ticket;
use cw_yard::yard::{Collected, Retaken};
use std::sync::Wait;

/// The result of spending a ticket.
#[derive(Drop)]
pub enum Spent {
    /// The job of the ticket came back.
    Back(Job),
    /// The job of the ticket was stolen, and this is its effect.
    Came(Effect),
}

impl Spent {
    /// Returns the argument of the job that came back, if one did.
    pub fn argument(&self) -> Option<i64> {
        match self {
            Spent::Back(job) => Some(argument(job)),
            Spent::Came(_) => None,
        }
    }

    /// Returns the value of the effect that came, if one did.
    pub fn value(&self) -> Option<i64> {
        match self {
            Spent::Back(_) => None,
            Spent::Came(effect) => Some(value(effect)),
        }
    }
}

/// Spends a ticket. Returns its job, or its effect if the job was stolen.
pub fn spend<R: Wait>(rt: &R, yard: &Yard, seat: &mut Seat, ticket: Ticket) -> Spent
    requires seat { IsSeatOf yard.now seat.old }
    requires ticket { IsTicketOf yard.now ticket }
    ensures { IsSeatOf yard.now seat.new }
{
    let mut left = ticket;
    for _ in rt.forever() {
        match yard.retake(seat, left) {
            Retaken::Mine(job) => return Spent::Back(job),
            Retaken::Later(later) => match yard.collect(seat, later) {
                Collected::Done(effect) => return Spent::Came(effect),
                Collected::Later(later) => left = later,
            },
        }
    }
    unreachable!()
}

/// Steals a job and gives it up. Returns its argument, or 0 if there was none.
pub fn rob(yard: &Yard, seat: &mut Seat, victim: usize) -> i64
    requires seat { IsSeatOf yard.now seat.old }
    requires victim { victim < workers_of yard.now }
    ensures { IsSeatOf yard.now seat.new }
{
    match yard.steal(seat, victim) {
        Some((job, duty)) => {
            let arg = argument(&job);
            yard.settle(seat, duty, job.give_up());
            arg
        }
        None => 0,
    }
}

/// Offers a job and spends its ticket. A job that is given back counts as come back.
pub fn offer_once<R: Wait>(rt: &R, yard: &Yard, seat: &mut Seat, job: Job) -> Spent
    requires seat { IsSeatOf yard.now seat.old }
    ensures { IsSeatOf yard.now seat.new }
{
    match yard.offer(seat, job) {
        Ok(ticket) => spend(rt, yard, seat, ticket),
        Err(job) => Spent::Back(job),
    }
}
