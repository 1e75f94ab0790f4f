//! The bodies of workers, and the helper that each of them gets.

ghost use Rattle.std.specs.Arc.{arc_value};
ghost use Rattle.cw_yard.specs.Seated.{IsSeated};
ghost use Rattle.cw_pool.specs.Seatings.{IsSeated-prop};

use crate::gate::Gate;
use crate::sign::Tally;
use crate::work::help;
use cw_yard::seat::{Seat, Yard};
use std::alloc::Global;
use std::sync::{Arc, Wait};

/// A worker's seat, with shares of the yard, of the gate and of the sign that the run is given up.
#[derive(Drop)]
pub struct Helper<G> {
    pub(crate) yard: Arc<Yard>,
    pub(crate) seat: Seat,
    pub(crate) gate: Arc<G>,
    pub(crate) tally: Tally,
    pub(crate) alloc: Global,
    ghost seated: { IsSeated (arc_value yard) seat } by { IsSeated-prop (arc_value yard) seat },
}

impl<G: Gate + Drop> Helper<G> {
    /// Steals, executes and settles jobs until the run that it helps has ended. Sleeps if there was nothing to steal for a long
    /// time.
    pub fn serve<R: Wait>(self, rt: &R) {
        let Helper {
            yard,
            mut seat,
            gate,
            mut tally,
            alloc,
        } = self;
        help(rt, alloc, &yard, &mut seat, &*gate, &mut tally);
    }
}

/// The work of a worker's thread with its helper. It never changes the result of a run: if a body returns at once,
/// the other workers do its work.
pub trait Body<G> {
    /// Does the work of the thread, which ends when this function returns.
    fn begin(self, helper: Helper<G>);
}

/// The body that calls `serve`.
#[derive(Drop)]
pub struct Serving<R>(pub R);

impl<G: Gate + Drop, R: Wait + Drop> Body<G> for Serving<R> {
    fn begin(self, helper: Helper<G>) {
        helper.serve(&self.0);
    }
}
