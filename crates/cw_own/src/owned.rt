//! Trees that keep ownership.

ghost use Rattle.cw_model.specs.Ownership.{KeepsOwnership};
ghost use Rattle.cw_tree.specs.ResolvedView.{program_of};

use cw_tree::Typed;

/// Holds a tree that keeps every rule of names, types and ownership.
#[derive(Drop, Debug)]
pub struct Owned {
    pub typed: Typed,
    pub ghost owned: { KeepsOwnership (program_of typed.tree) },
}
