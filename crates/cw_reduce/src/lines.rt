//! Printed lines.

ghost use Rattle.std.specs.Prelude.{◌≡◌, [], ◌++◌, ◌∷◌, OnOk, IfOk};

use cw_model::monoid::Monoid;
use std::alloc::{AllocError, Global};
use std::marker::Model;

/// The values that a piece of a run printed, in serial order.
#[derive(Debug, Drop)]
pub struct Lines {
    values: Vec<i64>,
}

impl Model for Lines {
    ghost use Rattle.std.specs.Prelude.{List, ℤ};

    ghost Value = { List ℤ };

    ghost view = { λ l. l.values.items };
}

impl Lines {
    /// Returns no lines. Allocates no memory.
    pub fn new(alloc: Global) -> Lines
        ensures { result ≡ [] }
    {
        Lines {
            values: Vec::new(alloc),
        }
    }

    /// Appends a line.
    ///
    /// # Errors
    ///
    /// Returns an `AllocError` if memory runs out.
    pub fn print(&mut self, value: i64) -> Result<(), AllocError>
        ensures { OnOk result (self.new ≡ self.old ++ value ∷ []) }
    {
        self.values.push(value)?;
        Ok(())
    }

    /// Returns the values, in serial order.
    pub fn values(&self) -> &[i64]
        ensures { result.now ≡ self.now }
    {
        self.values.as_slice()
    }
}

impl Monoid for Lines {
    ghost use Rattle.std.specs.Prelude.{[], ◌++◌};
    ghost use Rattle.cw_reduce.specs.ListLaws.{joined, append-first, append-last, append-regroup};

    ghost empty = { [] };

    ghost joined = { joined };

    fn unit(alloc: Global) -> Self
        ensures value { result ≡ [] }
    {
        Lines::new(alloc)
    }

    fn join(self, right: Self) -> Result<Self, AllocError>
        ensures value { IfOk result (λ whole. whole ≡ self ++ right) }
    {
        let mut values = self.values;
        if values.is_empty() {
            return Ok(right);
        }
        let mut rest = right.values;
        values.append(&mut rest)?;
        Ok(Lines { values })
    }

    ghost unit_first = { append-first };

    ghost unit_last = { append-last };

    ghost associative = { append-regroup };
}
