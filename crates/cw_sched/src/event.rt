//! The events of a world.

use std::alloc::AllocError;

/// One step of a worker; workers are numbered from 0.
#[derive(Clone, Copy, Debug, PartialEq, Eq)]
pub enum Event {
    /// The worker's strand executes one instruction.
    Run(usize),
    /// The continuation at a spawn goes to the back of the worker's deque, and its strand executes the call.
    Offer(usize),
    /// The worker keeps the continuation at a spawn, and its strand executes the call.
    Inline(usize),
    /// The worker's strand takes back its newest continuation, or skips it if the strand has stopped.
    Retake(usize),
    /// The first worker begins the oldest job in the deque of the second one.
    Steal(usize, usize),
    /// The effect of the job that the worker stole last goes to its cell.
    Settle(usize),
    /// The worker's strand receives the effect of its newest continuation.
    Collect(usize),
}

/// The reason why an event did not happen.
#[derive(Clone, Copy, Debug, PartialEq, Eq)]
pub enum Refused {
    /// It is not possible now.
    NotNow,
    /// There was no memory for the lists of the world, or for a new strand.
    Memory,
}

impl From<AllocError> for Refused {
    ghost use Rattle.std.specs.Prelude.{◌≡◌};
    ghost use Rattle.cw_sched.specs.declared.event.Refused.TheVariants as refused;

    ghost from_gives = { λ _ e. e ≡ refused.Memory };

    fn from(_e: AllocError) -> Refused {
        Refused::Memory
    }
}
