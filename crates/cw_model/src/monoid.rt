//! Values that can be joined, in order.

ghost use Rattle.std.specs.Prelude.{◌≡◌, IfOk};

use std::alloc::{AllocError, Global};

/// Values with a unit and an associative join, so that the parts of a run may be joined in any grouping, in serial
/// order.
pub trait Monoid {
    ghost empty: { Self };

    ghost joined: { Self → Self → Self };

    /// Returns the neutral value of `join`. Allocates no memory.
    fn unit(alloc: Global) -> Self
        ensures { result ≡ empty };

    /// Joins this value and the one to its right.
    ///
    /// # Errors
    ///
    /// Returns an `AllocError` if memory runs out.
    fn join(self, right: Self) -> Result<Self, AllocError>
        ensures { IfOk result (λ whole. whole ≡ joined self right) };

    ghost unit_first: { (x : Self) → joined empty x ≡ x };

    ghost unit_last: { (x : Self) → joined x empty ≡ x };

    ghost associative: { (x y z : Self) → joined (joined x y) z ≡ joined x (joined y z) };
}
