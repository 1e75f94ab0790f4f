//! Programs with lowered loops.

ghost use Rattle.std.specs.Prelude.{◌≡◌, []};
ghost use Rattle.cw_model.specs.Sizes.{loop_faults};
ghost use Rattle.cw_tree.specs.ResolvedView.{program_of};
ghost use Rattle.cw_loops.specs.Seen.{IsMadeOf};

use crate::tree::Tree;
use cw_own::Owned;

/// Holds a program that types and ownership accept, with the tree of its source and with its loops lowered. The
/// source lists sites, reducers and tags by their positions.
#[derive(Drop)]
pub struct Core {
    pub source: Owned,
    pub tree: Tree,
    // The tree is the result of lowering the source, in which each slot is correct.
    pub ghost lowered: { IsMadeOf source.typed.tree tree },
    // The source has at most 4,096 loops.
    pub ghost few: { loop_faults (program_of source.typed.tree) ≡ [] },
}
