//! The laws of sums. Each function states a law as its contract, and does nothing.

ghost use Rattle.cw_reduce.specs.SumsOfIntegers.{SumsHoldIntegers};

/// States that a sum holds the integer sum of its numbers, if that fits 128 bits.
#[tactic(auto, using(crate::proofs::IntegerLaws::sums_hold_integers))]
pub fn sums_hold_integers()
    ensures { SumsHoldIntegers }
{}
