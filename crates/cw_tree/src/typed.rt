//! Trees that keep every rule of names and types.

ghost use Rattle.std.specs.Prelude.{◌≡◌, [], true};
ghost use Rattle.cw_model.specs.Sizes.{limit_faults};
ghost use Rattle.cw_model.specs.Typing.{type_faults};
ghost use Rattle.cw_tree.specs.Bounds.{is_fitting};
ghost use Rattle.cw_tree.specs.Slots.{is_resolved};
ghost use Rattle.cw_tree.specs.ResolvedView.{program_of, resolved_of};

use crate::resolved::Tree;

/// Holds a tree that exceeds no limit and keeps every rule of names and types, with the facts that later stages rely
/// on.
#[derive(Drop, Debug)]
pub struct Typed {
    pub tree: Tree,
    // Each slot, each index and each count of slots is correct: the tree is the resolved tree of its program.
    pub ghost resolved: { is_resolved (resolved_of tree) ≡ true },
    // The program exceeds no limit.
    pub ghost within: { limit_faults (program_of tree) ≡ [] },
    // The program keeps every rule of names and types.
    pub ghost typed: { type_faults (program_of tree) ≡ [] },
    // Each slot is below the count of its function, which is at most 256, and each index is below the length of its
    // table.
    pub ghost fitting: { is_fitting (resolved_of tree) ≡ true },
}
