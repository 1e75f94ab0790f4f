//! The calls of the yard, each with the seat of its caller.
ghost use Rattle.std.specs.Prelude.{◌≡◌, ◌<◌, ◌+◌, ◌++◌, ◌⊎◌, ℕ, [], ◌∷◌, true, false, length, IfOk, IfErr, IfSome, IfNone, Some, None};
ghost use Rattle.cw_jobs.specs.declared.job.Job.{Job};
ghost use Rattle.cw_jobs.specs.Means.{IsMeaningOf};
ghost use Rattle.cw_yard.specs.Ledger.{offer as offered_job};
ghost use Rattle.cw_yard.specs.Words.{Rises};
ghost use Rattle.cw_yard.specs.Tickets.{ticket_job, ticket_number, duty_job};
ghost use Rattle.cw_yard.specs.Seats.{IsSeatOf, IsTicketOf, IsDutyOf, offered_by, stolen_from, workers_of, HasNoCell, HasFullDeque, OffersFor, RefusesOffer, RetakesFor, StealsFor, CollectsFor, HasSeenEnd, HasMarkedEnd, KeepsOffers, KeepsCells, KeepsThefts, KeepsOtherThefts, KeepsSight, KeepsRoom};

use crate::seat::{Seat, Yard};
use crate::ticket::{Duty, Ticket};
use crate::{deque, handoff, mark};
use crossbeam_utils::sync::EventCount;
use cw_jobs::effect::Effect;
use cw_jobs::job::Job;

/// The result of `retake`.
pub enum Retaken {
    /// The job of the ticket, whole. Its cell is free again.
    Mine(Job),
    /// The ticket: its job was stolen.
    Later(Ticket),
}

/// The result of `collect`.
pub enum Collected {
    /// An effect that means the job of the ticket. Its cell is free again.
    Done(Effect),
    /// A ticket of the same job: no effect has come yet.
    Later(Ticket),
}

impl Yard {
    /// Offers a job, which becomes the newest job in the seat's deque. The job is the next number of the seat, and
    /// the ticket names it. Rings the bell for one worker. Does not wait.
    ///
    /// # Errors
    ///
    /// Returns the job, whole, with nothing offered, if the seat has no free cell, or if its deque is full and could
    /// not grow.
    pub fn offer(&self, seat: &mut Seat, job: Job) -> Result<Ticket, Job>
        requires seat { IsSeatOf self.now seat.old }
        ensures seat { IsSeatOf self.now seat.new × KeepsRoom seat.old seat.new }
        ensures ok { IfOk result (OffersFor self.now job seat.old seat.new) }
        ensures err { IfErr result (RefusesOffer job seat.old seat.new) }
        ensures kept { KeepsThefts seat.old seat.new × KeepsSight seat.old seat.new }
    {
        let Some(free) = seat.free.pop() else {
            return Err(job);
        };
        match handoff::offer(&self.table.shared, &mut seat.own, free, job) {
            Ok(ticket) => {
                self.bell.notify_one();
                Ok(ticket)
            }
            Err((job, free)) => {
                seat.free.push_reserved(free);
                Err(job)
            }
        }
    }

    /// Takes back the job of the newest ticket that was not spent, unless the job was stolen. The job comes from the
    /// end of the deque at which it was offered. Does not wait, and takes no memory if each ticket is spent with the
    /// seat that returned it.
    ///
    /// If everything that the seat offered after the ticket's job was taken back, `Later` leaves the offers as they
    /// were. Otherwise a newer job may be in the deque; that job is removed instead of the ticket's job, and is given
    /// up.
    pub fn retake(&self, seat: &mut Seat, ticket: Ticket) -> Retaken
        requires seat { IsSeatOf self.now seat.old }
        requires ticket { IsTicketOf self.now ticket }
        ensures seat { IsSeatOf self.now seat.new × KeepsRoom seat.old seat.new }
        ensures ticket { RetakesFor ticket seat.old seat.new result }
        ensures kept { KeepsThefts seat.old seat.new × KeepsSight seat.old seat.new }
    {
        match handoff::retake(&self.table.shared, &mut seat.own, ticket, &mut seat.spare) {
            Ok((job, free)) => {
                match seat.free.push(free) {
                    Ok(()) => {}
                    Err(lost) => drop(lost),
                }
                Retaken::Mine(job)
            }
            Err(ticket) => Retaken::Later(ticket),
        }
    }

    /// Steals a job of a worker, with the duty to settle it: the oldest job in the worker's deque, at the end that
    /// its owner does not use (Blumofe and Leiserson 1999). Returns `None` if the deque is empty, if another thief
    /// took that job at the same time, or if there is no memory for the effect. The numbers of the jobs that one seat
    /// steals from one victim increase. The first call after each theft allocates memory for one effect. Does not
    /// wait.
    pub fn steal(&self, seat: &mut Seat, victim: usize) -> Option<(Job, Duty)>
        requires seat { IsSeatOf self.now seat.old }
        requires victim { victim < workers_of self.now }
        ensures seat { IsSeatOf self.now seat.new }
        ensures some { IfSome result (StealsFor self.now victim seat.old seat.new) }
        ensures none { IfNone result (stolen_from seat.new victim ≡ stolen_from seat.old victim) }
        ensures others { KeepsOtherThefts victim seat.old seat.new }
        ensures kept { KeepsOffers seat.old seat.new × KeepsCells seat.old seat.new
            × KeepsSight seat.old seat.new }
    {
        let stealer = &self.stealers[victim];
        let pass = &mut seat.passes[victim];
        handoff::steal(&self.table.shared, stealer, pass, &mut seat.spare)
    }

    /// Leaves the effect of a stolen job in its cell for the worker that offered the job, and rings the bell for all
    /// workers. Takes no memory and does not wait.
    pub fn settle(&self, _seat: &mut Seat, duty: Duty, effect: Effect)
        requires duty { IsDutyOf self.now duty }
        requires means { (j : Job) × (duty_job duty ≡ Some j) × IsMeaningOf j effect }
        ensures { _seat.new ≡ _seat.old }
    {
        handoff::settle(&self.table.shared, duty, effect);
        self.bell.notify_all();
    }

    /// Collects the effect of a stolen job, if it has come. Does not wait, and takes no memory if each ticket is
    /// spent with the seat that returned it.
    pub fn collect(&self, seat: &mut Seat, ticket: Ticket) -> Collected
        requires seat { IsSeatOf self.now seat.old }
        requires ticket { IsTicketOf self.now ticket }
        ensures seat { IsSeatOf self.now seat.new × KeepsRoom seat.old seat.new }
        ensures ticket { CollectsFor self.now ticket seat.old seat.new result }
        ensures kept { KeepsOffers seat.old seat.new × KeepsThefts seat.old seat.new
            × KeepsSight seat.old seat.new }
    {
        match handoff::collect(&self.table.shared, ticket) {
            Ok((effect, free)) => {
                match seat.free.push(free) {
                    Ok(()) => {}
                    Err(lost) => drop(lost),
                }
                Collected::Done(effect)
            }
            Err(ticket) => Collected::Later(ticket),
        }
    }

    /// Sets the end mark for all seats, and then rings the bell for all workers. Takes no memory and does not wait.
    pub fn end(&self, seat: &mut Seat)
        requires { IsSeatOf self.now seat.old }
        ensures seat { IsSeatOf self.now seat.new }
        ensures seen { HasSeenEnd seat.new × HasMarkedEnd seat.new }
        ensures kept { KeepsOffers seat.old seat.new × KeepsCells seat.old seat.new
            × KeepsThefts seat.old seat.new }
    {
        mark::end(&self.mark.shared, &mut seat.watch);
        self.bell.notify_all();
    }

    /// Returns whether the end mark is set: always true at a seat that set it or once saw it set, and never true
    /// before some seat has set it. Takes no memory and does not wait.
    pub fn ended(&self, seat: &mut Seat) -> bool
        requires { IsSeatOf self.now seat.old }
        ensures seat { IsSeatOf self.now seat.new }
        ensures seen { HasSeenEnd seat.old → result ≡ true }
        ensures told { result ≡ true → HasSeenEnd seat.new }
        ensures marks_nothing { HasMarkedEnd seat.new → HasMarkedEnd seat.old }
        ensures kept { KeepsOffers seat.old seat.new × KeepsCells seat.old seat.new
            × KeepsThefts seat.old seat.new }
    {
        mark::ended(&self.mark.shared, &mut seat.watch)
    }

    /// Returns the bell, which rings after a job was offered, an effect was left, or the end mark was set. A worker
    /// that is about to sleep until then asks the bell for a key, checks the end mark and each victim once more, and
    /// waits on the key: the check finds what came before the key, and what comes after the key wakes the worker. No
    /// contract describes the bell.
    pub fn bell(&self) -> &EventCount {
        &self.bell
    }

    /// Returns how many of the jobs that a seat offered were in its deque at one moment of the call. Jobs that are
    /// taken back or stolen are no longer there. Takes no memory and does not wait.
    #[inline(always)]
    pub fn waiting(&self, seat: &mut Seat) -> usize
        requires { IsSeatOf self.now seat.old }
        ensures seat { IsSeatOf self.now seat.new × KeepsRoom seat.old seat.new }
        ensures offers { offered_by seat.new ≡ offered_by seat.old }
        ensures kept { KeepsCells seat.old seat.new × KeepsThefts seat.old seat.new
            × KeepsSight seat.old seat.new }
    {
        deque::len(&mut seat.own)
    }

    /// Returns the number of workers, 1 to 64.
    pub fn workers(&self) -> usize
        ensures { result ≡ workers_of self.now }
    {
        self.stealers.len()
    }
}
