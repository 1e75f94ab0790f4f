//! The maximum of the values that a reducer receives.

ghost use Rattle.std.specs.Prelude.{◌≡◌, None, Some, IsOk, IfOk};
ghost use Rattle.cw_model.specs.Answers as answers;
ghost use Rattle.cw_reduce.specs.Maximum.{greater};

use cw_model::monoid::Monoid;
use std::alloc::{AllocError, Global};
use std::marker::Model;

/// The maximum of 64-bit integers; `None` without integers.
#[derive(Debug, Drop)]
pub struct Max(Option<i64>);

impl Model for Max {
    ghost use Rattle.std.specs.Prelude.{Option, ℤ};

    ghost Value = { Option ℤ };

    ghost view = { λ m. m.0 };
}

impl Max {
    /// Returns the maximum of no numbers.
    pub fn new() -> Max
        ensures { result ≡ None }
    {
        Max(None)
    }

    /// Adds a number.
    pub fn raise(&mut self, n: i64)
        ensures { self.new ≡ greater self.old (Some n) }
    {
        self.0 = max_of(self.0, Some(n));
    }

    /// Returns the maximum, if there was a number.
    pub fn value(&self) -> Option<i64>
        ensures { result ≡ self.now }
    {
        self.0
    }
}

/// Returns the maximum of two optional numbers.
pub(crate) fn max_of(left: Option<i64>, right: Option<i64>) -> Option<i64>
    ensures { result ≡ greater left right }
{
    match left {
        Some(value) => Some(or_max(value, right)),
        None => right,
    }
}

// Returns the maximum of a number and an optional one.
fn or_max(value: i64, other: Option<i64>) -> i64
    ensures { result ≡ answers.or_max value other }
{
    match other {
        Some(other) => value.max(other),
        None => value,
    }
}

impl Monoid for Max {
    ghost use Rattle.std.specs.Prelude.{None};
    ghost use Rattle.cw_reduce.specs.Maximum.{greater};
    ghost use Rattle.cw_reduce.specs.MaximumLaws.{greater-first, greater-last, greater-assoc};

    ghost empty = { None };

    ghost joined = { greater };

    fn unit(_alloc: Global) -> Self
        ensures value { result ≡ None }
    {
        Max::new()
    }

    fn join(self, right: Self) -> Result<Self, AllocError>
        ensures always { IsOk result }
        ensures value { IfOk result (λ whole. whole ≡ greater self right) }
    {
        Ok(Max(max_of(self.0, right.0)))
    }

    ghost unit_first = { greater-first };

    ghost unit_last = { greater-last };

    ghost associative = { greater-assoc };
}
