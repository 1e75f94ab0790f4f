//! Parts of runs.

ghost use Rattle.std.specs.Prelude.{◌≡◌, ℕ, ◌≤◌, nat_lt, false, IfOk};
ghost use Rattle.cw_model.specs.declared.limits.TheConstants.{MOST_LIMIT};
ghost use Rattle.cw_part.specs.Outcomes.{came_of};
ghost use Rattle.cw_part.specs.Parts.{has_run, is_above};
ghost use Rattle.cw_part.specs.Read.{readings};
ghost use Rattle.cw_part.specs.RunParts.{IsMade, as_call, as_child, nothing_part, run_joined};

use crate::outcome::Outcome;
use crate::read::Read;
use cw_model::burden::Burden;
use cw_model::limits::MOST_LIMIT;
use cw_model::monoid::Monoid;
use std::alloc::{AllocError, Global};
use std::marker::Model;

/// The outcome of a part of a run, and the limit of its work in instructions. Work above the limit is over; work that
/// equals the limit is not.
#[derive(Debug, Drop)]
pub struct Part {
    limit: u64,
    outcome: Outcome,
    ghost limited: { nat_lt MOST_LIMIT limit ≡ false },
    ghost tested: { is_above readings limit (came_of outcome) ≡ false },
}

impl Model for Part {
    ghost use Rattle.cw_part.specs.Outcomes.{came_of};
    ghost use Rattle.cw_part.specs.RunParts.{RunPart, run_part};

    ghost Value = { RunPart };

    ghost view = { λ p. run_part p.limit (came_of p.outcome) p.limited p.tested };
}

impl Part {
    /// Makes the part with this outcome and this limit of its work.
    pub fn new(limit: u64, outcome: Outcome) -> Part
        requires { limit ≤ MOST_LIMIT }
        ensures { IsMade limit (came_of outcome) result }
    {
        let outcome = outcome.within(limit);
        Part { limit, outcome }
    }

    /// Returns the limit of its work, in instructions.
    pub fn limit(&self) -> u64
        ensures { result ≡ self.now.limit }
    {
        self.limit
    }

    /// Returns its outcome.
    pub fn outcome(&self) -> &Outcome
        ensures { came_of result.now ≡ self.now.came }
    {
        &self.outcome
    }

    /// Returns whether it ran to its end, so that the next part counts.
    pub fn has_run(&self) -> bool
        ensures { result ≡ has_run self.now.came }
    {
        self.outcome.has_run()
    }

    /// Returns the part of a spawned child as a piece of the block that spawned it. Never join the measure of a child
    /// as it is.
    pub fn into_child(self, burden: Burden) -> Part
        ensures { result ≡ as_child burden self }
    {
        let outcome = self.outcome.into_child(burden);
        Part {
            limit: self.limit,
            outcome,
        }
    }

    /// Returns the part of a call, or of another part in series, as a piece of the block that made it.
    pub fn into_call(self) -> Part
        ensures { result ≡ as_call self }
    {
        let outcome = self.outcome.into_call();
        Part {
            limit: self.limit,
            outcome,
        }
    }

    /// Returns its outcome, without the limit.
    pub fn into_outcome(self) -> Outcome
        ensures { came_of result ≡ self.came }
    {
        self.outcome
    }
}

impl Monoid for Part {
    ghost use Rattle.cw_part.specs.RunParts.{nothing_part, run_joined};
    ghost use Rattle.cw_part.specs.RunPartLaws.{run-first, run-last, run-assoc};

    ghost empty = { nothing_part };

    ghost joined = { run_joined };

    fn unit(alloc: Global) -> Self
        ensures value { result ≡ nothing_part }
    {
        Part {
            limit: MOST_LIMIT,
            outcome: Outcome::Completed(Read::unit(alloc)),
        }
    }

    fn join(self, right: Self) -> Result<Self, AllocError>
        ensures value { IfOk result (λ whole. whole ≡ run_joined self right) }
    {
        let limit = self.limit.min(right.limit);
        let both = self.outcome.then(right.outcome)?;
        let outcome = both.within(limit);
        Ok(Part { limit, outcome })
    }

    ghost unit_first = { run-first };

    ghost unit_last = { run-last };

    ghost associative = { run-assoc };
}
