//! Counters in 64 bits, for path weights without charges.

ghost use Rattle.std.specs.Prelude.{◌≡◌};
ghost use Rattle.cw_model.specs.Burdens.{no_burden};
ghost use Rattle.cw_measure.specs.Counters.{up_to, onward, fresh, ticked, forked, synced, heaviest};
ghost use Rattle.cw_measure.specs.Measured.{most};

use std::marker::Model;

/// The weights of the paths of a piece of one sync block so far. Sums saturate.
#[derive(Debug, Drop)]
pub struct Plain {
    // The weight of a heaviest path up to the first join, if there was a join.
    prefix: Option<u64>,
    // The weight of the path through the longest child since the last join; 0 if there is none.
    longest: u64,
    // The weight of the continuation since the first join.
    continuation: u64,
}

impl Model for Plain {
    ghost use Rattle.cw_model.specs.Burdens.{no_burden};
    ghost use Rattle.cw_measure.specs.Counters.{Counters, counters_of};

    ghost Value = { Counters };

    ghost view = { λ a. counters_of a.prefix a.longest a.continuation };
}

// Returns the saturating sum.
fn sum_of(a: u64, b: u64) -> u64
    ensures { result ≡ up_to most a b }
{
    a.saturating_add(b)
}

// Returns the longest child of a later piece, after a path of weight `by`.
fn later(by: u64, longest: u64) -> u64
    ensures { result ≡ Rattle.cw_measure.specs.Counters.later (up_to most) by longest }
{
    if longest == 0 { 0 } else { sum_of(by, longest) }
}

impl Plain {
    /// Returns the counters of an empty piece.
    pub fn new() -> Plain
        ensures { result ≡ fresh }
    {
        Plain {
            prefix: None,
            longest: 0,
            continuation: 0,
        }
    }

    /// Adds `n` instructions.
    pub fn tick(&mut self, n: u64)
        ensures { self.new ≡ ticked (up_to most) n self.old }
    {
        self.continuation = sum_of(self.continuation, n);
    }

    /// Adds a spawned child with this span.
    pub fn fork(&mut self, child: u64)
        ensures { self.new ≡ forked (up_to most) no_burden child self.old }
    {
        self.longest = self.longest.max(later(self.continuation, child));
    }

    /// Adds a join.
    pub fn sync(&mut self)
        ensures { self.new ≡ synced self.old }
    {
        let closed = self.longest.max(self.continuation);
        self.longest = 0;
        match self.prefix {
            None => {
                self.prefix = Some(closed);
                self.continuation = 0;
            }
            Some(_) => {
                self.continuation = closed;
            }
        }
    }

    /// Returns the counters of this piece followed by the next piece of the same block.
    pub fn onward(self, right: Plain) -> Plain
        ensures { result ≡ onward (up_to most) self right }
    {
        match right.prefix {
            None => Plain {
                prefix: self.prefix,
                longest: self.longest.max(later(self.continuation, right.longest)),
                continuation: sum_of(self.continuation, right.continuation),
            },
            Some(first) => {
                let closed = self.longest.max(sum_of(self.continuation, first));
                match self.prefix {
                    None => Plain {
                        prefix: Some(closed),
                        longest: right.longest,
                        continuation: right.continuation,
                    },
                    Some(prefix) => Plain {
                        prefix: Some(prefix),
                        longest: later(closed, right.longest),
                        continuation: sum_of(closed, right.continuation),
                    },
                }
            }
        }
    }

    /// Returns the weight of a heaviest path.
    pub fn heaviest(&self) -> u64
        ensures { result ≡ heaviest (up_to most) self.now }
    {
        let last = self.longest.max(self.continuation);
        match self.prefix {
            None => last,
            Some(prefix) => sum_of(prefix, last),
        }
    }
}
