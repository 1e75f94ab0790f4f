//! The calls on one deque and one cell.
ghost use Rattle.std.specs.Prelude.{◌≡◌, ◌<◌, ◌≤◌, ◌+◌, ◌++◌, ◌^◌, ℕ, [], ◌∷◌, false, true, length, IfOk, IfErr, IfSome, IfNone, OnOk, OnErr, Some, None, MatchResult};
ghost use Rattle.crossbeam_deque.specs.Handles.{view, IsPassOf, SamePass, SameWorker, stealer_deque, worker_view, worker_capacity, worker_index, worker_flavor};
ghost use Rattle.cw_jobs.specs.declared.job.Job.{Job};
ghost use Rattle.cw_jobs.specs.Means.{IsMeaningOf};
ghost use Rattle.cw_yard.specs.declared.view.Stage.TheVariants.{Free, Held, Out};
ghost use Rattle.cw_yard.specs.declared.view.CellView.TheVariants.{Owner, Duty as OnDuty};
ghost use Rattle.cw_yard.specs.Deals.{number_of};
ghost use Rattle.cw_yard.specs.Ledger.{offer, Retakes, Steals};
ghost use Rattle.cw_yard.specs.declared.task.Item.TheVariants.{Work};
ghost use Rattle.cw_yard.specs.Words.{offered, stolen, Deal, Rises, Takes, OwnsAt, StealsAt};
ghost use Rattle.cw_yard.specs.Handed.{IsOfTable, MayOffer, IsOffered, IsGivenBack, IsTakenBack, IsStolen, IsCollected, IsSameTicket, LeavesOffers};
ghost use Rattle.cw_yard.specs.Tickets.{ticket_job, ticket_number, duty_job};

use crate::cells::{Cells, Holding, Token};
use crate::deque::{OwnDeque, ThiefPass, Victim};
use crate::left::Spare;
use crate::task::Task;
use crate::ticket::{Duty, FreeCell, Ticket};
use cw_jobs::effect::Effect;
use cw_jobs::job::Job;
use std::marker::Brand;

fn offer_held<B: Holding>(
    table: &Cells,
    own: &mut OwnDeque,
    free: FreeCell,
    job: Job,
) -> Result<Ticket, (Job, FreeCell)>
    requires held { B.stage ≡ Held (length (offered (worker_view own.old))) job }
    requires table { MayOffer table.now.table_id free own.old }
    ensures same { SameWorker own.old own.new × OwnsAt table.now.table_id (worker_view own.new) }
    ensures ok { IfOk result (IsOffered table.now.table_id job own.old own.new) }
    ensures err { IfErr result (IsGivenBack table.now.table_id job own.old own.new) }
{
    let FreeCell { cell, mut token } = free;
    crate::cells::open::<B>(table, &mut token, cell);
    let duty = crate::cells::deal(table, &mut token, cell);
    match crate::deque::offer(own, Task { job, cell, duty }) {
        Ok(()) => Ok(Ticket { cell, token }),
        Err(task) => {
            let Task { job, cell: _, duty } = task;
            crate::cells::undo(table, &mut token, duty, cell);
            Err((job, FreeCell { cell, token }))
        }
    }
}

/// Offers a job. The job is the next number, and the ticket names it.
///
/// # Errors
///
/// Returns the job and a free cell, if the deque could not grow; the offers are unchanged.
pub fn offer(
    table: &Cells,
    own: &mut OwnDeque,
    free: FreeCell,
    job: Job,
) -> Result<Ticket, (Job, FreeCell)>
    requires table { MayOffer table.now.table_id free own.old }
    ensures same { SameWorker own.old own.new × OwnsAt table.now.table_id (worker_view own.new) }
    ensures ok { IfOk result (IsOffered table.now.table_id job own.old own.new) }
    ensures err { IfErr result (IsGivenBack table.now.table_id job own.old own.new) }
{
    offer_held::<Brand>(table, own, free, job)
}

// Leaves the effect of a job in its cell as if the job had been stolen, because the job is not the requested
// ticket's. This is a function of its own so that the stack frame of `retake` stays small.
#[inline(never)]
fn give_up(table: &Cells, cell: usize, duty: Token, job: Job, spare: &mut Spare)
    requires table { IsOfTable table.now.table_id duty.table_id }
    requires inside { cell < duty.table_id.slots }
    requires names { duty.me ≡ (OnDuty cell false (number_of duty.me.0) job, []) }
{
    let Some(room) = spare.take() else {
        return;
    };
    let left = room.with(job.give_up());
    crate::cells::settle(table, duty, cell, left);
}

/// Takes back the job of the ticket, with its cell, which is free.
///
/// # Errors
///
/// Returns the ticket, if the deque is empty or another job came out of it.
pub fn retake(
    table: &Cells,
    own: &mut OwnDeque,
    ticket: Ticket,
    spare: &mut Spare,
) -> Result<(Job, FreeCell), Ticket>
    requires table { IsOfTable table.now.table_id ticket.token.table_id }
    requires own { OwnsAt table.now.table_id (worker_view own.old) × (worker_flavor own.old ≡ 1) }
    ensures same { SameWorker own.old own.new × OwnsAt table.now.table_id (worker_view own.new) }
    ensures mine { IfOk result (IsTakenBack table.now.table_id ticket own.old own.new) }
    ensures later { IfErr result (λ t. (t ≡ ticket) × LeavesOffers ticket own.old own.new) }
{
    let Some(task) = crate::deque::retake(own) else {
        return Err(ticket);
    };
    let Task { job, cell, duty } = task;
    if cell != ticket.cell {
        give_up(table, cell, duty, job, spare);
        return Err(ticket);
    }
    let Ticket { cell: _, mut token } = ticket;
    crate::cells::undo(table, &mut token, duty, cell);
    Ok((job, FreeCell { cell, token }))
}

/// Steals a job from another deque, and returns it with the duty to settle it. Returns `None` if there is no job to
/// steal, or no memory for its effect.
pub fn steal(
    table: &Cells,
    other: &Victim,
    pass: &mut ThiefPass,
    spare: &mut Spare,
) -> Option<(Job, Duty)>
    requires thief { IsPassOf (stealer_deque other.now) pass.old
        × StealsAt table.now.table_id (view pass.old) }
    ensures same { SamePass pass.old pass.new × StealsAt table.now.table_id (view pass.new) }
    ensures some { IfSome result (IsStolen table.now.table_id pass.old pass.new) }
    ensures none { IfNone result (view pass.new ≡ view pass.old) }
{
    let left = spare.take()?;
    match crate::deque::steal(other, pass) {
        Some(Task { job, cell, duty }) => {
            let duty = Duty {
                cell,
                token: duty,
                left,
            };
            Some((job, duty))
        }
        None => {
            spare.put(left);
            None
        }
    }
}

/// Leaves the effect of a stolen job in its cell.
pub fn settle(table: &Cells, duty: Duty, effect: Effect)
    requires table { IsOfTable table.now.table_id duty.token.table_id }
    requires means { (j : Job) × (duty_job duty ≡ Some j) × IsMeaningOf j effect }
{
    let Duty {
        cell,
        token,
        left: room,
    } = duty;
    let left = room.with(effect);
    crate::cells::settle(table, token, cell, left);
}

/// Collects an effect that means the ticket's job, with its cell, which is free.
///
/// # Errors
///
/// Returns a ticket of the same job, if no effect has come yet.
pub fn collect(table: &Cells, ticket: Ticket) -> Result<(Effect, FreeCell), Ticket>
    requires table { IsOfTable table.now.table_id ticket.token.table_id }
    ensures done { IfOk result (IsCollected table.now.table_id ticket) }
    ensures later { IfErr result (IsSameTicket ticket) }
{
    let Ticket { cell, mut token } = ticket;
    match crate::cells::collect(table, &mut token, cell) {
        Some(left) => Ok((left.into_effect(), FreeCell { cell, token })),
        None => Err(Ticket { cell, token }),
    }
}
