//! Burdens for test cases.

use cw_model::burden::{Burden, Edges};

/// Returns this charge for these edges of each spawn.
pub fn burden_of(edges: Edges, charge: u64) -> Burden {
    Burden { charge, edges }
}

/// Returns this charge for each continuation edge.
pub fn on_spawns(charge: u64) -> Burden {
    burden_of(Edges::Spawn, charge)
}
