//! Traps. docs/DEVELOPING.md lists what a new trap touches.

ghost use Rattle.std.specs.Prelude.{◌≡◌};
ghost use Rattle.cw_model.specs.Ints.{trap_number};

/// The reason for which an instruction traps.
#[derive(Clone, Copy, Debug, PartialEq, Eq)]
pub enum Trap {
    /// A result outside the range of 64 bits.
    Overflow,
    /// A division or remainder by 0.
    DivisionByZero,
    /// An index, the index of a cut, or the range of a loop is outside its array.
    OutOfBounds,
    /// The length of an array is below 0 or above 16,777,216.
    BadLength,
    /// A loop has more than 2,147,483,647 iterations.
    TooManyIterations,
    /// The depth of a call is above 10,000.
    TooDeep,
}

impl Trap {
    /// Returns the number by which the trap is reported, from 1 to 6.
    pub fn number(&self) -> u8
        ensures { result ≡ trap_number self.now }
    {
        match self {
            Trap::Overflow => 1,
            Trap::DivisionByZero => 2,
            Trap::OutOfBounds => 3,
            Trap::BadLength => 4,
            Trap::TooManyIterations => 5,
            Trap::TooDeep => 6,
        }
    }
}
