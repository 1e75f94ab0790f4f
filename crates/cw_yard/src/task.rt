//! The items of a deque, and the knowledge of a pass.
ghost use Rattle.std.specs.Prelude.{◌≡◌, ◌<◌, ℕ, [], false};
ghost use Rattle.cw_yard.specs.declared.view.CellView.TheVariants.{Duty};
ghost use Rattle.cw_yard.specs.Deals.{number_of};

use crate::cells::Token;
use cw_jobs::job::Job;
use std::collections::LinkedList;

/// A job with the duty to settle it. The duty names that job.
#[derive(Drop)]
pub struct Task {
    pub job: Job,
    pub cell: usize,
    pub duty: Token,
    pub ghost inside: { cell < duty.table_id.slots },
    pub ghost names: { duty.me ≡ (Duty cell false (number_of duty.me.0) job, []) },
}

#[derive(Drop)]
pub enum Item {
    Mark(Token),
    Work(Task),
}

/// An offered job with its cell, and whether its owner took it back. No value of this type or of `DequeView` is made.
pub struct Offer {
    pub job: Job,
    pub cell: usize,
    pub retaken: bool,
}

pub enum DequeView {
    Fresh,
    Marked(Token),
    Owner(Token, LinkedList<Offer>),
    Thief(Token, LinkedList<(u64, (Job, usize))>),
}
