//! The burden: the charge for each spawn on a path.

ghost use Rattle.std.specs.Prelude.{◌≡◌};
ghost use Rattle.cw_model.specs.Burdens.{at_child, at_rest};

/// Which edges of a spawn are charged.
#[derive(Clone, Copy, Debug, PartialEq, Eq)]
pub enum Edges {
    /// Only the continuation edge, from the spawn to the continuation of its block: the thief's cost of a steal.
    Spawn,
    /// The continuation edge and the return edge, from the spawned call to the join: adds the cost of a steal at the
    /// join.
    Both,
}

/// The charge for each spawn, in instructions.
#[derive(Clone, Copy, Debug, PartialEq, Eq)]
pub struct Burden {
    /// The charge for each charged edge: 0 to 1,000,000,000.
    pub charge: u64,
    /// The edges that are charged.
    pub edges: Edges,
}

impl Burden {
    /// Returns the charge for a path that goes through the spawned call, in instructions.
    #[inline(always)]
    pub fn at_child(&self) -> u64
        ensures { result ≡ at_child self.now }
    {
        match self.edges {
            Edges::Spawn => 0,
            Edges::Both => self.charge,
        }
    }

    /// Returns the charge for a path that goes through the continuation, in instructions.
    #[inline(always)]
    pub fn at_rest(&self) -> u64
        ensures { result ≡ at_rest self.now }
    {
        self.charge
    }
}
