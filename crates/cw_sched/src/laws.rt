//! The laws of the scheduler's core. Each function states one law as its contract, and has an empty body.

ghost use Rattle.cw_sched.specs.core.Laws.{EachInOnePlace, EffectsMeanTheirJobs, EventsAreSteps, JobsAreSingle, NoneIsUnfitHere, OutcomesAreSerial, OutcomesStay, RunsCome};
ghost use Rattle.cw_sched.specs.core.Ledger.{LedgersAreLists};
ghost use Rattle.cw_sched.specs.core.TakeBack.{JoinsAlike, RunsAlike};
ghost use Rattle.cw_sched.specs.core.Executions.{EachEvent, FailingExecutions, InlinedExecution, StolenExecution};

/// States that code that prints 1, 2 and 3 gives its serial answer if one worker keeps each continuation and takes it back.
pub fn printing_inlined_is_serial()
    ensures { InlinedExecution }
{}

/// States that the code that prints 1, 2 and 3 gives its serial answer if each of two workers steals the continuation that the
/// other one offers.
pub fn printing_stolen_is_serial()
    ensures { StolenExecution }
{}

/// States that code whose spawned call traps gives its serial answer, whether the continuation is skipped or dropped.
pub fn failing_is_serial()
    ensures { FailingExecutions }
{}

/// States, for each event, a case in which the table says that it is possible and one in which it is not.
#[tactic(auto, using(crate::proofs::core::Executions::each_event))]
pub fn each_event_is_possible_by_the_table()
    ensures { EachEvent }
{}

/// States that after any list of events each job is in one place.
#[tactic(auto, using(crate::proofs::core::Events::each_in_one_place))]
pub fn every_job_is_in_one_place()
    ensures { EachInOnePlace }
{}

/// States that after any list of events the world is one that steps of worlds reach.
#[tactic(auto, using(crate::proofs::core::Events::runs_come))]
pub fn every_run_comes_about()
    ensures { RunsCome }
{}

/// States that after any list of events each effect that was made and not given means its job.
pub fn every_effect_means_its_job()
    ensures { EffectsMeanTheirJobs }
{
    cw_code::crew_laws::every_effect_of_a_world_means_its_job();
}

/// States that after any list of events a job is out at most at one strand.
pub fn every_job_is_out_once()
    ensures { JobsAreSingle }
{
    cw_code::crew_laws::every_job_is_out_once();
}

/// States that after any list of events the outcome is what the code gives, or `Memory`, and `Memory` only if memory was
/// lacking.
pub fn every_outcome_is_serial()
    ensures { OutcomesAreSerial }
{
    cw_code::crew_laws::every_world_answers_what_the_code_gives();
}

/// States that a continuation that is taken back executes the same instructions as in a strand of its own.
pub fn a_rest_taken_back_runs_alike()
    ensures { RunsAlike }
{}

/// If the continuation's own run reaches its join, the strand that took it back continues as if it had received the
/// effect.
pub fn a_rest_taken_back_joins_alike()
    ensures { JoinsAlike }
{
    cw_code::crew_laws::serial_run_is_cut_at_a_spawn();
}

/// States that after any list of events the root is with the first worker, and that its outcome, once known, does not change.
pub fn every_outcome_stays()
    ensures { OutcomesStay }
{}

/// States that a possible event is one or several steps of worlds.
pub fn each_event_is_steps_of_worlds()
    ensures { EventsAreSteps }
{}

/// States that a strand of well-formed code never gets stuck.
pub fn no_strand_of_code_that_fits_gets_stuck()
    ensures { NoneIsUnfitHere }
{
    cw_code::crew_laws::no_strand_of_code_that_fits_gets_stuck();
}

/// States that after each step the jobs in a deque, by the ledger of all that was offered there, are the board's list.
#[tactic(auto, using(crate::proofs::core::Ledgers::ledgers_are_lists))]
pub fn a_ledger_lists_its_deque()
    ensures { LedgersAreLists }
{}
