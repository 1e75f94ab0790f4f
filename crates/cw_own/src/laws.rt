//! Laws of all reasons.

ghost use Rattle.cw_own.specs.Laws.{DisownedAreRefused};

/// States that, if a reason of ownership is true in a line of a well-typed program, the definition of ownership rejects
/// the program at that line or before it. So each reported reason suffices for the rejection.
pub fn reasons_of_ownership_reject()
    ensures { DisownedAreRefused }
{}
