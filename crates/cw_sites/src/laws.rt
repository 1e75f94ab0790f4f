//! The laws of the chosen path. Each function states a law as its contract, and does nothing.

ghost use Rattle.cw_sites.specs.Laws.{AllRunsAreShown, BlocksReadChosenPaths, PathsAreFew, PathsAreMetered, PiecesAreOne, QuietPartsNeedNoCall};

/// States that the paths of a block add the chosen path of the block's tree to the path before the block, for each
/// site.
#[tactic(auto, using(crate::proofs::TableLaws::blocks_read_chosen_paths))]
pub fn blocks_read_chosen_paths()
    ensures { BlocksReadChosenPaths }
{}

/// States that each step of a run preserves a path that represents the run, for each site; at the end it is the
/// chosen path.
#[tactic(auto, using(crate::specs::lemmas::Tables::all_runs_are_shown))]
pub fn runs_are_shown()
    ensures { AllRunsAreShown }
{}

/// States that a scope, a cut, an iteration of a loop and a region begin and end without a call of the table, once
/// the instructions so far are noted.
#[tactic(auto, using(crate::specs::lemmas::Tables::quiet_parts))]
pub fn quiet_parts_need_no_call()
    ensures { QuietPartsNeedNoCall }
{}

/// States that over a part whose block has joined, the weight of the current path grows by the part's span, so that a
/// region table may use it as a reading.
#[tactic(auto, using(crate::specs::lemmas::SiteRows::path_meters))]
pub fn paths_are_metered()
    ensures { PathsAreMetered }
{}

/// States that a piece without joins, or any piece of a block that has spawned nothing since its last join, joins as
/// if its events had followed in the block.
#[tactic(auto, using(crate::proofs::PieceLaws::pieces_are_one))]
pub fn pieces_are_one()
    ensures { PiecesAreOne }
{}

/// States a bound on the total number of steps in a table with sites below `most`: at most `2 * most + 65` steps for
/// each of three paths of each open block that has spawned, and for each of two paths of the current strand.
#[tactic(auto, using(crate::proofs::PathBoundLaws::paths_are_few))]
pub fn paths_are_few()
    ensures { PathsAreFew }
{}
