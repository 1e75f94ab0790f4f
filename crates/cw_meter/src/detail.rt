//! How much is recorded of a run.

ghost use Rattle.std.specs.Prelude.{◌≡◌};
ghost use Rattle.cw_meter.specs.Details.{burden_of};

use cw_model::burden::{Burden, Edges};

/// How much is recorded of a run. It is chosen when the run begins, and is the same for each of its continuations.
#[derive(Clone, Copy, Debug, PartialEq, Eq)]
pub enum Detail {
    /// Only its results: its value, its lines and the totals of its reducers. Nothing is counted.
    Values,
    /// Its results and the record of its strands.
    Strands,
    /// Its results and all measures, with this charge for a spawn.
    Measures(Burden),
}

impl Detail {
    // Returns the charge for a spawn, or no charge if not all measures are counted.
    pub(crate) fn burden(self) -> Burden
        ensures { result ≡ burden_of self }
    {
        match self {
            Detail::Measures(burden) => burden,
            _ => Burden {
                charge: 0,
                edges: Edges::Spawn,
            },
        }
    }
}
