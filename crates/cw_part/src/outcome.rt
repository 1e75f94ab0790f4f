//! The outcome of a part of a run.

ghost use Rattle.std.specs.Prelude.{◌≡◌, IfOk};
ghost use Rattle.cw_part.specs.Outcomes.{came_of, came_with};
ghost use Rattle.cw_part.specs.Parts.{Completed, has_run, is_above, is_memory, seen, within};
ghost use Rattle.cw_part.specs.Read.{call_read, child_read, readings};

use crate::read::Read;
use cw_model::burden::Burden;
use cw_model::monoid::Monoid;
use cw_model::trap::Trap;
use std::alloc::AllocError;

/// The outcome of a part of a run, with its views and its measure.
#[derive(Debug, Drop)]
pub enum Outcome {
    /// It ran to its end.
    Completed(Read),
    /// It trapped, in a line; the views and the measure include the trapping instruction.
    Trapped { trap: Trap, line: u32, read: Read },
    /// Its work exceeded the limit: nothing of it is left.
    Over,
    /// Memory was refused to it: nothing of it is left.
    Memory,
}

impl Outcome {
    /// Joins this outcome and the outcome of the next part. After a trap or an end at the limit the next part is
    /// dropped, but memory that was refused to either part is refused to both together.
    ///
    /// # Errors
    ///
    /// `AllocError` if memory is refused to the join itself.
    pub fn then(self, next: Outcome) -> Result<Outcome, AllocError>
        ensures { IfOk result (λ both. came_of both ≡ came_with (came_of self) next) }
    {
        match self {
            Outcome::Completed(first) => {
                let both = next.after(first)?;
                Ok(both)
            }
            Outcome::Trapped { trap, line, read } => {
                if next.is_memory() {
                    Ok(Outcome::Memory)
                } else {
                    Ok(Outcome::Trapped { trap, line, read })
                }
            }
            Outcome::Over => {
                if next.is_memory() {
                    Ok(Outcome::Memory)
                } else {
                    Ok(Outcome::Over)
                }
            }
            Outcome::Memory => Ok(Outcome::Memory),
        }
    }

    // This outcome, after a part that ran to its end.
    fn after(self, first: Read) -> Result<Outcome, AllocError>
        ensures { IfOk result (λ both. came_of both ≡ came_with (Completed first) self) }
    {
        match self {
            Outcome::Completed(second) => {
                let read = first.join(second)?;
                Ok(Outcome::Completed(read))
            }
            Outcome::Trapped {
                trap,
                line,
                read: second,
            } => {
                let read = first.join(second)?;
                Ok(Outcome::Trapped { trap, line, read })
            }
            Outcome::Over => Ok(Outcome::Over),
            Outcome::Memory => Ok(Outcome::Memory),
        }
    }

    /// Returns this outcome, or `Over` if its work is above `limit`.
    pub fn within(self, limit: u64) -> Outcome
        ensures { came_of result ≡ within readings limit (came_of self) }
    {
        if self.is_above(limit) {
            Outcome::Over
        } else {
            self
        }
    }

    // Whether its work is above the limit.
    fn is_above(&self, limit: u64) -> bool
        ensures { result ≡ is_above readings limit (came_of self.now) }
    {
        match self {
            Outcome::Completed(read) => limit < read.measure.work(),
            Outcome::Trapped { read, .. } => limit < read.measure.work(),
            Outcome::Over => false,
            Outcome::Memory => false,
        }
    }

    /// Returns the outcome of a spawned child as that of a piece of the block that spawned it.
    pub fn into_child(self, burden: Burden) -> Outcome
        ensures { came_of result ≡ seen (child_read burden) (came_of self) }
    {
        match self {
            Outcome::Completed(read) => Outcome::Completed(read.into_child(burden)),
            Outcome::Trapped { trap, line, read } => Outcome::Trapped {
                trap,
                line,
                read: read.into_child(burden),
            },
            Outcome::Over => Outcome::Over,
            Outcome::Memory => Outcome::Memory,
        }
    }

    /// Returns the outcome of a call, or of another part in series, as that of a piece of the block that made it.
    pub fn into_call(self) -> Outcome
        ensures { came_of result ≡ seen call_read (came_of self) }
    {
        match self {
            Outcome::Completed(read) => Outcome::Completed(read.into_call()),
            Outcome::Trapped { trap, line, read } => Outcome::Trapped {
                trap,
                line,
                read: read.into_call(),
            },
            Outcome::Over => Outcome::Over,
            Outcome::Memory => Outcome::Memory,
        }
    }

    /// Returns whether it ran to its end, so that the next part counts.
    pub fn has_run(&self) -> bool
        ensures { result ≡ has_run (came_of self.now) }
    {
        match self {
            Outcome::Completed(_) => true,
            _ => false,
        }
    }

    /// Returns whether memory was refused.
    pub fn is_memory(&self) -> bool
        ensures { result ≡ is_memory (came_of self.now) }
    {
        match self {
            Outcome::Memory => true,
            _ => false,
        }
    }
}
