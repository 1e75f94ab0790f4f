//! The laws of a meter. The contract of each function states a law; the function does nothing.

ghost use Rattle.cw_meter.specs.Meters.{InstructionsNeedNoCall};

/// States that an instruction that begins, ends and joins nothing needs no call of the meter.
pub fn instructions_need_no_call()
    ensures { InstructionsNeedNoCall }
{
    cw_greedy::recorder_laws::instructions_need_no_call();
}
