//! The laws of parts. Each function states one law as its contract, and has an empty body.

ghost use Rattle.cw_part.specs.Effects.{EffectsFollow, EffectsShowViews, RunsReadAsMeasures};
ghost use Rattle.cw_part.specs.Elision.{ElisionIsARun, PiecesAreTheElision, RunGivesTheAnswers, UpdatesAreTotals};
ghost use Rattle.cw_part.specs.ElisionExamples.{ElisionExamples};
ghost use Rattle.cw_part.specs.ModelRuns.{RunsAreTheModels};
ghost use Rattle.cw_part.specs.Moments.{RegionsAreRead, SitesAreRead};
ghost use Rattle.cw_part.specs.PieceRuns.{CallsAreRuns, RunsTellOfPieces};
ghost use Rattle.cw_part.specs.Read.{PartsOfRunsJoin};
ghost use Rattle.cw_part.specs.Runs.{PiecesAreTheRun};
ghost use Rattle.cw_part.specs.RunsHaveParts.{RunsHaveParts};

use cw_measure::laws::measures_read_trees;
use cw_model::laws::normal_form_reads_the_same;
use cw_reduce::laws::sums_hold_integers;

/// Parts of runs, with their views and their measure, form a monoid. After a trap or an end at the limit nothing
/// counts; work above the limit is over; memory that was refused to one part is refused to both together.
#[tactic(auto, using(crate::specs::RunPartLaws::parts_of_runs_join))]
pub fn parts_of_runs_join()
    ensures { PartsOfRunsJoin }
{}

/// States that, however the run of a frame is cut at its spawns and however its pieces are grouped, the joined part
/// represents the serial run within the limit, or memory was refused. Each piece may end, trap, exceed the limit with the
/// cost that it counts before it, or be refused memory.
pub fn pieces_are_the_run()
    ensures { PiecesAreTheRun }
{
    measures_read_trees();
}

/// The run of a frame, step by step, agrees with the model's pieces for the same steps: what is left of the budget,
/// the trace, the trap and its line.
#[tactic(auto, using(crate::proofs::ModelLaws::runs_are_the_models))]
pub fn runs_are_the_models()
    ensures { RunsAreTheModels }
{}

/// Each run has a part, for each limit and each cost before it, so the law of cut runs is not vacuous.
#[tactic(auto, using(crate::proofs::ReadingLaws::runs_have_parts))]
pub fn runs_have_parts()
    ensures { RunsHaveParts }
{}

/// Each call of the model, and so the serial elision of a program on any arguments, is a run of a frame within each
/// limit: its instructions one by one, its traps, and each call, scope, region and spawned child as a nested part. The
/// outcome of a piece that is such a run is the outcome of the serial run, within each budget up to the limit: the
/// value, the trace, the trap and its line.
#[tactic(auto, using(crate::proofs::PieceRunLaws::calls_are_runs, crate::proofs::ElisionLaws::elision_is_a_run, crate::proofs::ElisionLaws::run_gives_the_answers, crate::proofs::PieceTellingLaws::runs_tell_of_pieces))]
pub fn elision_is_a_run()
    ensures calls { CallsAreRuns }
    ensures elision { ElisionIsARun }
    ensures told { RunsTellOfPieces }
    ensures answers { RunGivesTheAnswers }
{}

/// Cut the run of the elision at its spawns in any way, and join its pieces in any grouping. The joined part
/// represents the serial answer within the limit, or memory was refused. At an end it has the lines, the totals and
/// the readings of the tree; at a trap it has the line, the lines printed before it and its cost.
pub fn pieces_are_the_elision()
    ensures answer { PiecesAreTheElision }
    ensures totals { UpdatesAreTotals }
{
    measures_read_trees();
    normal_form_reads_the_same();
    sums_hold_integers();
}

/// States worked examples of runs: a spawn, a trap in a spawned child, and a limit that a child exceeds.
pub fn runs_of_small_programs()
    ensures { ElisionExamples }
{}

/// States that the effects that workers hand to each other join as these monoids do. The views of the effect of two pieces
/// are the joined `Views` of the effects of the pieces. The readings of the tree of a whole run are the readings of the
/// joined measures of its pieces. An effect after another one, or after the output of a strand, joins as a part after
/// another one does: with the lines, totals, work and spans of both if both ended, and with the lines and the work up to
/// the trap if one trapped.
pub fn effects_join_as_parts()
    ensures views { EffectsShowViews }
    ensures readings { RunsReadAsMeasures }
    ensures outcomes { EffectsFollow }
{
    sums_hold_integers();
    measures_read_trees();
    normal_form_reads_the_same();
}

/// While parts are open, the tables of a run so far have the calls, the own work and the work of each site, and the
/// work of each tag, of the run as if its open parts ended there.
pub fn tables_are_read_at_each_moment()
    ensures sites { SitesAreRead }
    ensures regions { RegionsAreRead }
{}
