//! A law of the runs of code.

ghost use Rattle.std.specs.Prelude.{ℕ, ℤ, ◌≤◌, List};
ghost use Rattle.cw_model.specs.Trees.{Tree, work};
ghost use Rattle.cw_code.specs.Code.{Code};
ghost use Rattle.cw_greedy_schedule.specs.Schedules.{Ends};

use cw_code::crew_laws::cost_is_the_work_of_the_effect;
use cw_model::laws::normal_form_reads_the_same;

/// States that a run that ends does no more work than its limit.
pub fn work_is_within_its_limit()
    ensures { (code : Code) (args : List ℤ) (n : ℕ) (tree : Tree)
        → Ends code args n tree → work tree ≤ n }
{
    cost_is_the_work_of_the_effect();
    normal_form_reads_the_same();
}
