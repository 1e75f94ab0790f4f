//! The laws of jobs, strands and worlds. Each function states a law as its contract, and does nothing.

ghost use Rattle.cw_code.specs.Code.{Code};
ghost use Rattle.cw_code.specs.Costs.{CostsAreWork};
ghost use Rattle.cw_code.specs.Events.{PlaysCome};
ghost use Rattle.cw_code.specs.RestLaws.{Cut, Kept, RootsAreSerial, SchedulesAreSerial};
ghost use Rattle.cw_code.specs.RestsStay.{RestsStayInside};
ghost use Rattle.cw_code.specs.Steps.{CallsPreserveJob};
ghost use Rattle.cw_code.specs.Executions.{FailingExecutions, PrintingExecutions};
ghost use Rattle.cw_code.specs.AmpleMemory.{MemoryRanOutBefore};
ghost use Rattle.cw_code.specs.Worlds.{EffectsMean, NoneIsUnfit, OwnersAreSingle, WorldsAreSerial};

/// States that the serial run from a spawn is the child's run, then the run of the continuation up to its join from
/// the current slots; then pending results go back into their slots and the block continues.
#[tactic(auto, using(crate::proofs::Schedules::cut))]
pub fn serial_run_is_cut_at_a_spawn()
    ensures { (code : Code) → Cut code }
{}

/// States that each operation keeps a strand a strand of its job: to begin, to advance, to receive the effect of its
/// newest handed-out job, to skip that job, to take it back, and to run out of memory. The strand's final effect means
/// its job.
#[tactic(auto, using(crate::proofs::Calls::calls_keep))]
pub fn calls_preserve_strand_job()
    ensures { (code : Code) → CallsPreserveJob code }
{}

/// States that, for all jobs that a strand hands out and all effects that it receives, in any order, an effect made for
/// a job means the job.
#[tactic(auto, using(crate::proofs::Schedules::kept))]
pub fn every_effect_means_its_job()
    ensures { (code : Code) → Kept code }
{}

/// States that an effect that means a whole run has the answer of the code, or memory ran out.
pub fn the_root_answers_what_the_code_gives()
    ensures { RootsAreSerial }
{}

/// States that for every schedule, the effect of the root has the answer of the serial run, or memory ran out.
#[tactic(auto, using(crate::proofs::Schedules::schedules_are_serial))]
pub fn every_schedule_answers_what_the_code_gives()
    ensures { SchedulesAreSerial }
{}

/// States that for all events of any number of workers, the effect of the root has the answer of the serial run, or
/// memory ran out.
#[tactic(auto, using(crate::proofs::WorldLaws::worlds_are_serial))]
pub fn every_world_answers_what_the_code_gives()
    ensures { WorldsAreSerial }
{}

/// States that after any events, each effect that was made and not yet given means its job.
#[tactic(auto, using(crate::proofs::WorldLaws::effects_mean))]
pub fn every_effect_of_a_world_means_its_job()
    ensures { EffectsMean }
{}

/// States that after any events, an effect is out of memory only if memory ran out before.
pub fn memory_is_answered_only_if_it_ran_out()
    ensures { MemoryRanOutBefore }
{}

/// States that in well-formed code, no strand of any world gets stuck.
pub fn no_strand_of_code_that_fits_gets_stuck()
    ensures { NoneIsUnfit }
{
    crate::laws::code_that_fits_goes_on();
    crate::laws::results_may_go_back();
}

/// States that a continuation that reached its join is in the function in which it began.
pub fn rests_stay_in_their_functions()
    ensures { RestsStayInside }
{
    crate::laws::code_that_fits_goes_on();
    crate::laws::runs_stay_in_their_functions();
}

/// States that a job is out at one strand at most, once, and only as long as it is neither given nor skipped.
#[tactic(auto, using(crate::proofs::Owners::owners_are_single))]
pub fn every_job_is_out_once()
    ensures { OwnersAreSingle }
{}

/// States that a list of events leads only to possible worlds.
#[tactic(auto, using(crate::proofs::Plays::plays_come))]
pub fn what_is_played_can_come()
    ensures { PlaysCome }
{}

/// States that the cost of an effect at the end of its job is the work of its tree.
#[tactic(auto, using(crate::proofs::Costing::costs_are_work))]
pub fn cost_is_the_work_of_the_effect()
    ensures { CostsAreWork }
{}

/// States that a code that prints 1, 2 and 3 and costs 15 has the same answer whether its continuations are kept,
/// taken back or stolen.
#[tactic(auto, using(crate::proofs::Executions::printing_walks))]
pub fn printing_gives_the_same_in_each_order()
    ensures { PrintingExecutions }
{}

/// States that a code whose spawned call traps in its fifth instruction traps there before it prints anything,
/// whether the continuation was executed or not, and exceeds a limit of 4.
#[tactic(auto, using(crate::proofs::Executions::failing_walks))]
pub fn failing_traps_in_each_order()
    ensures { FailingExecutions }
{}
