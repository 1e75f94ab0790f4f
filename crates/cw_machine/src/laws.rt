//! Laws of machines. The contract of each function states a law; the function does nothing.

ghost use Rattle.cw_machine.specs.Unwinding.{OutsLieApart, RestsAreKept, ShownRemain};

/// States three laws. The blocks of a machine that represents a state satisfy what is required of the blocks of a
/// machine that stopped. Arrays that are out of an outer call are below arrays that are out of an inner one. If nothing
/// is out, everything that a run was given is where it was.
pub fn machines_that_stop_remain()
    ensures remain { ShownRemain }
    ensures apart { OutsLieApart }
    ensures kept { RestsAreKept }
{}
