//! The laws of a recorder. Each function states a law as its contract, and does nothing.

ghost use Rattle.cw_greedy.specs.Recording.{InstructionsNeedNoCall};

/// States that an instruction that begins, ends and joins nothing needs no call of the recorder.
pub fn instructions_need_no_call()
    ensures { InstructionsNeedNoCall }
{}
