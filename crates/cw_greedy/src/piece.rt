//! The record of the strands of a piece of a run, which can be joined with the records of adjacent pieces.

ghost use Rattle.std.specs.Prelude.{◌≡◌, ◌<◌, ◌≤◌, ◌++◌, ◌∷◌, [], Ok, Err, IfOk, OnErr, OnOk, IsOk, IsTrue, ◌↔◌};
ghost use Rattle.cw_greedy.specs.Entries.{code_of_cut, codes_kept, codes_of_chunks, codes_of_entry, entry};
ghost use Rattle.cw_greedy.specs.Recorded.{capped, cuts, followed};
ghost use Rattle.cw_model.specs.declared.limits.TheConstants.{MOST_STRANDS};

use crate::chunks::{all_closed, make_room, one_after};
use crate::entry::{Cut, Entry};
use crate::strands::Strands;
use cw_model::limits::MOST_STRANDS;
use cw_model::monoid::Monoid;
use std::alloc::{AllocError, Global};
use std::collections::VecDeque;
use std::marker::Model;

/// The strands of a piece of a run, as entries in serial order, or their number if there are too many. The entries
/// are in chunks: a join of two pieces moves chunks and copies no entry.
#[derive(Debug, Drop)]
pub struct Piece {
    // The closed chunks, in serial order; none is empty.
    chunks: VecDeque<Vec<Entry>>,
    // The chunk that is being filled.
    last: Vec<Entry>,
    // The number of strands that begin in the piece, at most 2^64 - 1. Entries are kept only below the maximum.
    cuts: u64,
    ghost counted: { cuts < MOST_STRANDS → cuts
        ≡ Rattle.cw_greedy.specs.Recorded.cuts (codes_kept chunks.items last.items) },
}

impl Model for Piece {
    ghost use Rattle.cw_greedy.specs.Entries.{codes_kept};
    ghost use Rattle.cw_greedy.specs.Recorded.{Recorded, recorded};

    ghost Value = { Recorded };

    ghost view = { λ s. recorded s.cuts (codes_kept s.chunks.items s.last.items) };
}

impl Piece {
    /// Returns a record without strands. Allocates no memory.
    pub fn new(alloc: Global) -> Piece
        ensures { result ≡ Ok [] }
    {
        Piece {
            chunks: VecDeque::new(alloc),
            last: Vec::new(alloc),
            cuts: 0,
        }
    }

    // Returns a record of too many strands. Allocates no memory.
    fn too_many(alloc: Global, cuts: u64) -> Piece
        requires { MOST_STRANDS ≤ cuts }
        ensures { result ≡ Err (capped cuts) }
    {
        Piece {
            chunks: VecDeque::new(alloc),
            last: Vec::new(alloc),
            cuts,
        }
    }

    // Returns whether the record is empty.
    fn is_empty(&self) -> bool
        ensures { IsTrue result → self.now ≡ Ok [] }
    {
        self.cuts == 0 && self.chunks.is_empty() && self.last.is_empty()
    }

    /// Appends a number of instructions and the cut after them. If there are too many strands, it only counts them.
    ///
    /// # Errors
    ///
    /// Returns an `AllocError` if memory runs out. The record is then unchanged.
    pub fn note(&mut self, before: u64, cut: Cut) -> Result<(), AllocError>
        ensures noted { OnOk result
            (self.new ≡ followed self.old (Ok (codes_of_entry (entry before cut)))) }
        ensures kept { OnErr result (self.new ≡ self.old) }
    {
        let cuts = self.cuts.saturating_add(cut_by(cut));
        if cuts >= MOST_STRANDS {
            *self = Piece::too_many(*self.last.allocator(), cuts);
            return Ok(());
        }
        make_room(&mut self.chunks, &mut self.last)?;
        self.last.push(Entry { before, cut })?;
        self.cuts = cuts;
        Ok(())
    }

    /// Returns the strands of a whole run, for the record of all its pieces.
    ///
    /// # Errors
    ///
    /// Returns an `AllocError` if memory runs out. Nothing of the record is kept then.
    pub fn finish(self) -> Result<Strands, AllocError>
        ensures { IfOk result (λ strands. strands ≡ self) }
    {
        let chunks = all_closed(self.chunks, self.last)?;
        Ok(Strands {
            chunks: chunks.into_vec(),
            cuts: self.cuts,
        })
    }
}

// Returns the number of strands that begin with a cut.
fn cut_by(cut: Cut) -> u64
    ensures value { result ≡ cuts (code_of_cut cut) }
    ensures small { result ≤ 1 }
{
    match cut {
        Cut::Nothing => 0,
        _ => 1,
    }
}

impl Monoid for Piece {
    ghost use Rattle.std.specs.Prelude.{Ok, []};
    ghost use Rattle.cw_greedy.specs.Recorded.{followed};
    ghost use Rattle.cw_greedy.specs.RecordLaws.{followed-first, followed-last, followed-regroup};

    ghost empty = { Ok [] };

    ghost joined = { followed };

    fn unit(alloc: Global) -> Self
        ensures value { result ≡ Ok [] }
    {
        Piece::new(alloc)
    }

    fn join(self, right: Self) -> Result<Self, AllocError>
        ensures value { IfOk result (λ whole. whole ≡ followed self right) }
    {
        if self.is_empty() {
            return Ok(right);
        }
        if right.is_empty() {
            return Ok(self);
        }
        let cuts = self.cuts.saturating_add(right.cuts);
        if cuts >= MOST_STRANDS {
            return Ok(Piece::too_many(*self.last.allocator(), cuts));
        }
        let first = all_closed(self.chunks, self.last)?;
        let chunks = one_after(first, right.chunks)?;
        Ok(Piece {
            chunks,
            last: right.last,
            cuts,
        })
    }

    ghost unit_first = { followed-first };

    ghost unit_last = { followed-last };

    ghost associative = { followed-regroup };
}
