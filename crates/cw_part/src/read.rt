//! The views and the measure of a part of a run.

ghost use Rattle.std.specs.Prelude.{◌≡◌, IfOk};

use cw_measure::Measure;
use cw_model::burden::Burden;
use cw_model::monoid::Monoid;
use cw_reduce::Views;
use std::alloc::{AllocError, Global};

/// What a part of a run shows besides its value, and its measure.
#[derive(Debug, Drop)]
pub struct Read {
    pub views: Views,
    pub measure: Measure,
}

impl Read {
    ghost use Rattle.cw_part.specs.Read.{call_read, child_read};

    /// Returns the views and the measure of a spawned child as a piece of the block that spawned it: the views as they
    /// are, and the measure of one child, with the burden at the fork.
    pub fn into_child(self, burden: Burden) -> Read
        ensures { result ≡ child_read burden self }
    {
        let mut measure = Measure::new();
        measure.spawned(burden, &self.measure);
        Read {
            views: self.views,
            measure,
        }
    }

    /// Returns the views and the measure of a call, or of another part in series, as a piece of the block that made
    /// it: the views as they are, and the measure of one part in series.
    pub fn into_call(self) -> Read
        ensures { result ≡ call_read self }
    {
        let mut measure = Measure::new();
        measure.called(&self.measure);
        Read {
            views: self.views,
            measure,
        }
    }
}

impl Monoid for Read {
    ghost use Rattle.cw_part.specs.Read.{nothing_read, read_joined};
    ghost use Rattle.cw_part.specs.ReadLaws.{read-first, read-last, read-assoc};

    ghost empty = { nothing_read };

    ghost joined = { read_joined };

    fn unit(alloc: Global) -> Self
        ensures value { result ≡ nothing_read }
    {
        Read {
            views: Views::unit(alloc),
            measure: Measure::unit(alloc),
        }
    }

    fn join(self, right: Self) -> Result<Self, AllocError>
        ensures value { IfOk result (λ whole. whole ≡ read_joined self right) }
    {
        let views = self.views.join(right.views)?;
        let measure = self.measure.join(right.measure)?;
        Ok(Read { views, measure })
    }

    ghost unit_first = { read-first };

    ghost unit_last = { read-last };

    ghost associative = { read-assoc };
}
