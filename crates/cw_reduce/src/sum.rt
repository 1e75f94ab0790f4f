//! The sum of the values that a reducer receives.

ghost use Rattle.std.specs.Prelude.{◌≡◌, ℕ, IsOk, IfOk};
ghost use Rattle.std.specs.Int.{cast_signed, w128};
ghost use Rattle.cw_reduce.specs.Words.{nothing, plus, word_of};

use cw_model::monoid::Monoid;
use std::alloc::{AllocError, Global};
use std::marker::Model;

/// A 128-bit sum of 64-bit integers. It wraps around, so that its join never fails; no run has enough instructions to
/// reach the bound.
#[derive(Debug, Drop)]
pub struct Sum {
    // The sum in two's complement.
    bits: u128,
}

impl Model for Sum {
    ghost use Rattle.cw_reduce.specs.Words.{Word, word};

    ghost Value = { Word };

    ghost view = { λ s. word s.bits };
}

impl Sum {
    /// Returns the sum of no numbers.
    pub fn new() -> Sum
        ensures { result ≡ nothing }
    {
        Sum { bits: 0 }
    }

    /// Adds a number.
    pub fn add(&mut self, n: i64)
        ensures { self.new ≡ plus self.old (word_of n) }
    {
        self.bits = self.bits.wrapping_add(i128::from(n).cast_unsigned());
    }

    /// Returns the sum, as a signed number.
    pub fn value(&self) -> i128
        ensures { result ≡ cast_signed w128 self.now.bits }
    {
        self.bits.cast_signed()
    }
}

impl Monoid for Sum {
    ghost use Rattle.cw_reduce.specs.Words.{nothing, plus};
    ghost use Rattle.cw_reduce.specs.WordLaws.{plus-first, plus-last, plus-assoc};

    ghost empty = { nothing };

    ghost joined = { plus };

    fn unit(_alloc: Global) -> Self
        ensures value { result ≡ nothing }
    {
        Sum::new()
    }

    fn join(self, right: Self) -> Result<Self, AllocError>
        ensures always { IsOk result }
        ensures value { IfOk result (λ whole. whole ≡ plus self right) }
    {
        Ok(Sum {
            bits: self.bits.wrapping_add(right.bits),
        })
    }

    ghost unit_first = { plus-first };

    ghost unit_last = { plus-last };

    ghost associative = { plus-assoc };
}
