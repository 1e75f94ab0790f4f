//! The laws of a freed meter. Each function states a law as its contract, and does nothing.

ghost use Rattle.cw_freed.specs.Freeing.{InstructionsNeedNoCall};

use cw_measure::laws::late_paths_wait;

/// States that an instruction that begins, ends and joins nothing needs no call of the meter.
pub fn instructions_need_no_call()
    ensures { InstructionsNeedNoCall }
{
    late_paths_wait();
}
