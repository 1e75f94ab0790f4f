//! The calls of a worker's deque under its rule.
ghost use Rattle.std.specs.Prelude.{◌≡◌, ◌<◌, ◌≤◌, [], ◌∷◌, ◌++◌, false, IfOk, IfErr, IfSome, IfNone, OnOk, OnErr, Some, None};
ghost use Rattle.crossbeam_deque.specs.Handles.{view, IsPassOf, SamePass, SameWorker, worker_deque, stealer_deque, worker_view, worker_capacity, worker_index, worker_flavor, stealer_flavor};
ghost use Rattle.std.specs.Prelude.{Option};
ghost use Rattle.atomic_table.specs.declared.shared.Seat.{Seat};
ghost use Rattle.cw_yard.specs.declared.view.CellView.{CellView};
ghost use Rattle.cw_yard.specs.declared.left.Left.{Left};
ghost use Rattle.cw_yard.specs.declared.task.DequeView.TheVariants.{Fresh, Owner, Thief};
ghost use Rattle.cw_yard.specs.declared.task.Item.TheVariants.{Work};
ghost use Rattle.cw_yard.specs.Ledger.{Dealt, MayPush, pushed, Retakes, TakesLast, Steals, marked, begun, as_thief, IsOwner, IsThief};

use crate::cells::Token;
use crate::task::{DequeView, Item, Task};
use crossbeam_deque::protocol::{Lesson, Outcome, Protocol, Split};
use crossbeam_deque::{Pass, Steal, Stealer, Worker};
use std::alloc::{AllocError, Global};

pub struct DequeRule;

impl Protocol<Item, DequeView> for DequeRule {
    ghost holds = { Dealt };

    ghost first = { Fresh };

    ghost guest = { Fresh };
}

pub type OwnDeque = Worker<Item, Global, DequeView, DequeRule>;

pub type Victim = Stealer<Item, Global, DequeView, DequeRule>;

pub type ThiefPass = Pass<Item, DequeView>;

pub struct Marks;

impl Outcome<Item, DequeView> for Marks {
    ghost then = { λ v xs w. w ≡ marked xs };
}

pub struct Begins;

impl Outcome<Item, DequeView> for Begins {
    ghost then = { λ v xs w. w ≡ begun v };
}

pub struct Offers;

impl Outcome<Item, DequeView> for Offers {
    ghost then = { λ v xs w. w ≡ pushed v xs };
}

pub struct Takes;

impl Outcome<Item, DequeView> for Takes {
    ghost then = { Retakes };
}

pub struct Thefts;

impl Outcome<Item, DequeView> for Thefts {
    ghost then = { Steals };
}

pub struct Guests;

pub struct Lengths;

impl Lesson<Item, DequeView> for Lengths {
    ghost fact = { λ v xs. xs ≡ xs };
}

impl Split<DequeView> for Guests {
    ghost left = { λ v. v };

    ghost right = { as_thief };
}

/// Returns a deque. A mark passed through it, so its owner knows the table of its cells.
///
/// # Errors
///
/// An `AllocError` if there is not enough memory.
pub fn new(alloc: Global, capacity: usize, mark: Token) -> Result<OwnDeque, AllocError>
    ensures { IfOk result (λ w. (worker_view w ≡ Owner mark []) × (worker_flavor w ≡ 1)) }
{
    let mut own = OwnDeque::lifo_as(alloc, capacity)?;
    match own.push_as::<Marks>(Item::Mark(mark)) {
        Ok(()) => {}
        Err(_) => return Err(AllocError),
    }
    match own.pop_as::<Begins>() {
        Some(_) => Ok(own),
        None => Err(AllocError),
    }
}

/// Returns a pass for a thief.
pub fn guest(own: &mut OwnDeque) -> ThiefPass
    requires { (t : Seat (Option Left) CellView) × (worker_view own.old ≡ Owner t []) }
    ensures same { SameWorker own.old own.new × (worker_view own.new ≡ worker_view own.old) }
    ensures thief { IsPassOf (worker_deque own.old) result
        × (view result ≡ as_thief (worker_view own.old)) }
{
    own.another::<Guests>()
}

/// Returns the number of jobs in the deque at one moment of the call.
#[inline(always)]
pub fn len(own: &mut OwnDeque) -> usize
    ensures { SameWorker own.old own.new × (worker_view own.new ≡ worker_view own.old) }
{
    own.len_as::<Lengths>()
}

/// Pushes a job.
///
/// # Errors
///
/// Returns the job with the deque unchanged, if the deque could not grow.
pub fn offer(own: &mut OwnDeque, task: Task) -> Result<(), Task>
    requires { MayPush (worker_view own.old) task }
    ensures same { SameWorker own.old own.new }
    ensures ok { OnOk result (worker_view own.new ≡ pushed (worker_view own.old) (Work task ∷ [])) }
    ensures err { IfErr result (λ x. (x ≡ task) × (worker_view own.new ≡ worker_view own.old)) }
    ensures refused { IfErr result (λ _. worker_capacity own.old ≤ worker_index own.old) }
{
    match own.push_as::<Offers>(Item::Work(task)) {
        Ok(()) => Ok(()),
        Err(Item::Work(back)) => Err(back),
        Err(Item::Mark(_)) => unreachable!(),
    }
}

/// Takes back the newest job of the deque. Returns `None` if no job is left.
pub fn retake(own: &mut OwnDeque) -> Option<Task>
    requires { IsOwner (worker_view own.old) × (worker_flavor own.old ≡ 1) }
    ensures same { SameWorker own.old own.new }
    ensures some { IfSome result (TakesLast (worker_view own.old) (worker_view own.new)) }
    ensures none { IfNone result (worker_view own.new ≡ worker_view own.old) }
{
    match own.pop_as::<Takes>() {
        Some(Item::Work(task)) => Some(task),
        Some(Item::Mark(_)) => unreachable!(),
        None => None,
    }
}

/// Steals the oldest job of another worker's deque. Returns `None`, with the pass unchanged, if the deque
/// is empty or the theft must be tried again.
pub fn steal(other: &Victim, pass: &mut ThiefPass) -> Option<Task>
    requires { IsPassOf (stealer_deque other.now) pass.old × IsThief (view pass.old) }
    ensures same { SamePass pass.old pass.new }
    ensures some { IfSome result (λ k. Steals (view pass.old) (Work k ∷ []) (view pass.new)) }
    ensures none { IfNone result (view pass.new ≡ view pass.old) }
{
    match other.steal_as::<Thefts>(pass) {
        Steal::Success(Item::Work(task)) => Some(task),
        Steal::Success(Item::Mark(_)) => unreachable!(),
        Steal::Empty => None,
        Steal::Retry => None,
    }
}
