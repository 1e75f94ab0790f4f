//! The laws of measures. Each function states a law as its contract, and does nothing.

ghost use Rattle.cw_model.specs.declared.burden.Burden.{Burden};
ghost use Rattle.cw_measure.specs.BlockWeights.{BlocksWeighTheirSpans, WorkAndWeightAreMetered};
ghost use Rattle.cw_measure.specs.Counters.{CountersReadSpans};
ghost use Rattle.cw_measure.specs.Laws.{AllTalliesKeep};
ghost use Rattle.cw_measure.specs.Measured.{MeasuresReadTrees};
ghost use Rattle.cw_measure.specs.Outermost.{PiecesTally};
ghost use Rattle.cw_measure.specs.StrandWeights.{LatePathsWait, SeriesNeedNoCall};
ghost use Rattle.cw_measure.specs.declared.burdened_path.BurdenedPath.{BurdenedPath};

/// States that exact counters give the burdened span of the tree of their events, and that counters of two pieces
/// compose.
#[tactic(auto, using(crate::proofs::MeasureLaws::counters_read_spans))]
pub fn counters_read_spans()
    ensures { CountersReadSpans }
{}

/// States that the measure of events gives the measures of their tree, and that measures of two pieces compose.
#[tactic(auto, using(crate::proofs::MeasureLaws::measures_read_trees))]
pub fn measures_read_trees()
    ensures { MeasuresReadTrees }
{}

/// States that the paths of a block add the burdened span of the block's tree to the weight before the block.
#[tactic(auto, using(crate::specs::lemmas::BlockWeights::blocks_weigh_their_spans))]
pub fn blocks_weigh_their_spans()
    ensures { BlocksWeighTheirSpans }
{}

/// States that parts in series begin and end without a call of a burdened path once the instructions so far are
/// included.
#[tactic(auto, using(crate::specs::lemmas::StrandWeights::series_need_no_call))]
pub fn series_need_no_call()
    ensures { (burden : Burden) (path : BurdenedPath) → SeriesNeedNoCall burden path }
{}

/// States that a late burdened path stays valid as instructions and joins of blocks that have spawned nothing follow:
/// it represents the whole run once the instructions are included.
pub fn late_paths_wait()
    ensures { LatePathsWait }
{}

/// States that over a part whose block has joined, the work of a run grows by the part's work, and the weight of a
/// strand's heaviest path by the part's burdened span.
#[tactic(auto, using(crate::proofs::StrandWeightLaws::work_and_weight_are_metered))]
pub fn work_and_weight_are_metered()
    ensures { WorkAndWeightAreMetered }
{}

/// States the theory of sums for call sites and for region tags: for every metered reading and every predicate on
/// marks, a tally that is updated where counted parts begin and end is the sum over the outermost counted parts.
#[tactic(auto, using(crate::specs::lemmas::Outermost::tallies_keep))]
pub fn tallies_sum_outermost_parts()
    ensures { AllTalliesKeep }
{}

/// States that the tallies of pieces that were executed separately add up, for every reading and every predicate on
/// marks.
#[tactic(auto, using(crate::specs::lemmas::Outermost::counts_further))]
pub fn tallies_of_pieces_add()
    ensures { PiecesTally }
{}
