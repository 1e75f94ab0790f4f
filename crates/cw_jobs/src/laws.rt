//! Strands with meters: definitions and laws only.
//!
//! A strand that hands out continuations has a meter, which receives each of its instructions. If the strand takes a
//! continuation back before anyone executed it, the strand and its meter continue as if nothing had happened. If
//! another strand executed the continuation with its own meter, the meter appends that one (`Meter::rest`). Whatever
//! is handed out, taken back and given, in any order, the meter of a strand represents the serial run of its job so
//! far.

ghost use Rattle.cw_jobs.specs.Strands.{CallsPreserveMeters, MetersTellStrands, RestsAreOut, RestsHaveNoJoins, RootsAreMeasured};

use cw_code::crew_laws::{calls_preserve_strand_job, the_root_answers_what_the_code_gives};
use cw_meter::laws::instructions_need_no_call;

/// States that the operations on a strand and on its meter preserve that the meter represents the serial run of the
/// strand's job so far.
pub fn calls_keep_meter_records()
    ensures { CallsPreserveMeters }
{
    instructions_need_no_call();
    calls_preserve_strand_job();
}

/// States that, if strands hand out continuations, take them back and receive effects in any order, each strand is a
/// strand of its job, and its meter represents the serial run of that job so far.
pub fn meters_record_strands()
    ensures { MetersTellStrands }
{
    instructions_need_no_call();
    calls_preserve_strand_job();
}

/// States that the site with which the continuation of a block is handed out is the site of its strand when the
/// continuation is taken back or its effect is given.
#[tactic(auto, using(crate::proofs::RestSites::rests_are_out))]
pub fn rests_keep_their_sites()
    ensures { RestsAreOut }
{}

/// States that up to its join, the block in which a continuation begins has no join.
#[tactic(auto, using(crate::proofs::Strands::rests_have_no_joins))]
pub fn rests_have_no_joins()
    ensures { RestsHaveNoJoins }
{}

/// States that at the end of the strand of a whole run that records all measures, its meter returns the measures of the
/// serial run's tree, and the answer of the run is the answer of the code.
pub fn roots_are_measured()
    ensures { RootsAreMeasured }
{
    instructions_need_no_call();
    calls_preserve_strand_job();
    the_root_answers_what_the_code_gives();
}
