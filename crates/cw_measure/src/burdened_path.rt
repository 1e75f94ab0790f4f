//! The weight of a heaviest path of a strand, with the charges of forks. Only a spawn pushes a block.

ghost use Rattle.std.specs.Prelude.{◌≡◌, ℕ, [], true, false, OnOk};
ghost use Rattle.cw_model.specs.declared.burden.Burden.{Burden};
ghost use Rattle.cw_measure.specs.PathCalls.{AppendsWithin, BeginsChild, EndsWithin, Lengthens};
ghost use Rattle.cw_measure.specs.StrandWeights.{begins, begins_again, joins, strand_weight};
ghost use Rattle.cw_measure.specs.StrandWeights.{AppendsWeight, EndsChildWeight, JoinsWeight, HasGoneOn, HasRoomForBlock, RecordsLate, NotesWeight, ReadsWeight, SpawnsWeight, TracksWeight};

use cw_model::burden::Burden;
use std::alloc::{AllocError, Global};

/// A block that has spawned since its last join, with weights from the start of its strand or child.
#[derive(Clone, Copy, Debug)]
pub struct BurdenedBlock {
    /// The weight of the heaviest path through a child that has ended; 0 if there is none.
    pub longest: u128,
    /// While a child runs: the weight of the path up to its spawn.
    pub saved: u128,
}

/// The weight of the heaviest path of the current strand, in instructions and charges, and the enclosing blocks that
/// have spawned.
///
/// Each method takes the number of instructions so far, including those of children that other workers executed.
#[derive(Debug, Drop)]
pub struct BurdenedPath {
    /// The weight from the start of the strand, or of the current spawned child.
    pub weight: u128,
    /// The number of instructions that are included in `weight`.
    pub noted: u64,
    /// The blocks that have spawned, the innermost last.
    pub blocks: Vec<BurdenedBlock>,
}

impl BurdenedPath {
    /// Returns the path of a run at its start. Allocates no memory.
    pub fn new(alloc: Global) -> BurdenedPath
        ensures { (burden : Burden) → TracksWeight burden [] [] result }
    {
        BurdenedPath {
            weight: 0,
            noted: 0,
            blocks: Vec::new(alloc),
        }
    }

    /// Includes the instructions up to this count. Call it before `weight` is read, and before any other call if
    /// parts in series began or ended since the last call (`laws::late_paths_wait`).
    #[inline(always)]
    pub fn note(&mut self, count: u64)
        ensures tells { NotesWeight self.old self.new count }
        ensures late { RecordsLate self.old self.new count }
        ensures weight { HasGoneOn self.old self.new count }
        ensures noted { self.new.noted ≡ count }
        ensures blocks { self.new.blocks ≡ self.old.blocks }
    {
        let since = count.wrapping_sub(self.noted);
        self.weight = self.weight.wrapping_add(since as u128);
        self.noted = count;
    }

    /// Begins a spawned part; `first` says that its block has not spawned since its last join.
    ///
    /// # Errors
    ///
    /// Returns an `AllocError` if memory runs out.
    #[inline(always)]
    pub fn spawn(&mut self, count: u64, first: bool) -> Result<(), AllocError>
        ensures { OnOk result (SpawnsWeight self.old self.new count first) }
    {
        self.note(count);
        self.begin(first)?;
        Ok(())
    }

    /// Returns whether there is room for a block.
    #[inline(always)]
    pub fn has_room(&self) -> bool
        ensures { result ≡ true → HasRoomForBlock self.now }
    {
        self.blocks.len() < self.blocks.capacity()
    }

    /// Begins the first spawned part of a block since its last join. There must be room for a block.
    #[inline(always)]
    pub fn spawn_within(&mut self, count: u64)
        requires { HasRoomForBlock self.old }
        ensures { SpawnsWeight self.old self.new count true }
    {
        self.note(count);
        self.begin_within();
    }

    /// Ends the current spawned part, whose block has joined: its path, with the charge for a child, may become the
    /// longest, and the path of the continuation gets its charge.
    #[inline(always)]
    pub fn end_child(&mut self, count: u64, burden: Burden)
        ensures { EndsChildWeight self.old self.new count burden }
    {
        self.note(count);
        self.end(burden);
    }

    /// Joins a block that has spawned since its last join. A join of any other block needs no call.
    #[inline(always)]
    pub fn join(&mut self, count: u64)
        ensures { JoinsWeight self.old self.new count }
    {
        self.note(count);
        self.join_block();
    }

    /// Appends the path of a piece of the current block that was executed separately, without joins and without open
    /// parts; `first` says that the block has not spawned since its last join. The instructions so far of both must
    /// be included.
    ///
    /// # Errors
    ///
    /// Returns an `AllocError` if memory runs out.
    pub fn append(&mut self, piece: &BurdenedPath, first: bool) -> Result<(), AllocError>
        ensures { OnOk result (AppendsWeight self.old piece.now self.new first) }
    {
        self.append_paths(piece, first)?;
        self.noted = self.noted.wrapping_add(piece.noted);
        Ok(())
    }

    // Appends the paths of a piece, but not its number of instructions.
    fn append_paths(&mut self, piece: &BurdenedPath, first: bool) -> Result<(), AllocError>
        ensures weight { OnOk result (AppendsWithin self.old piece.now self.new first) }
        ensures noted { OnOk result (self.new.noted ≡ self.old.noted) }
    {
        let len = piece.blocks.len();
        if len == 0 {
            self.weight = self.weight.wrapping_add(piece.weight);
            return Ok(());
        }
        let longest = self.weight.wrapping_add(piece.blocks[len - 1].longest);
        self.lengthen(longest, first)?;
        self.weight = self.weight.wrapping_add(piece.weight);
        Ok(())
    }

    // Adds a path of this weight through a child that has ended to the current block.
    fn lengthen(&mut self, longest: u128, first: bool) -> Result<(), AllocError>
        ensures weight { OnOk result (Lengthens self.old self.new first longest) }
        ensures noted { OnOk result (self.new.noted ≡ self.old.noted) }
    {
        if first {
            self.lengthen_first(longest)?;
            Ok(())
        } else {
            self.lengthen_more(longest);
            Ok(())
        }
    }

    fn lengthen_first(&mut self, longest: u128) -> Result<(), AllocError>
        ensures weight { OnOk result (Lengthens self.old self.new true longest) }
        ensures noted { OnOk result (self.new.noted ≡ self.old.noted) }
    {
        self.blocks.push(BurdenedBlock {
            longest,
            saved: self.weight,
        })?;
        Ok(())
    }

    fn lengthen_more(&mut self, longest: u128)
        ensures weight { Lengthens self.old self.new false longest }
        ensures noted { self.new.noted ≡ self.old.noted }
    {
        let len = self.blocks.len();
        if len == 0 {
            return;
        }
        let block = self.blocks[len - 1];
        self.blocks[len - 1] = BurdenedBlock {
            longest: block.longest.max(longest),
            saved: block.saved,
        };
    }

    /// Returns the burdened span of a run, if no part is open and the block has joined.
    pub fn weight(&self) -> u128
        ensures value { result ≡ self.now.weight }
        ensures reads { ReadsWeight self.now result }
    {
        self.weight
    }

    #[inline(always)]
    fn begin(&mut self, first: bool) -> Result<(), AllocError>
        ensures weight { OnOk result (BeginsChild self.old self.new first) }
        ensures noted { OnOk result (self.new.noted ≡ self.old.noted) }
    {
        if first {
            self.begin_first()?;
            Ok(())
        } else {
            self.begin_again();
            Ok(())
        }
    }

    // Begins the first spawned part of a block since its last join.
    #[inline(always)]
    fn begin_first(&mut self) -> Result<(), AllocError>
        ensures weight { OnOk result (strand_weight self.new ≡ begins (strand_weight self.old)) }
        ensures noted { OnOk result (self.new.noted ≡ self.old.noted) }
    {
        self.blocks.push(BurdenedBlock {
            longest: 0,
            saved: self.weight,
        })?;
        self.weight = 0;
        Ok(())
    }

    // Begins the first spawned part of a block since its last join. There must be room for a block.
    #[inline(always)]
    fn begin_within(&mut self)
        requires { HasRoomForBlock self.old }
        ensures weight { strand_weight self.new ≡ begins (strand_weight self.old) }
        ensures noted { self.new.noted ≡ self.old.noted }
    {
        self.blocks.push_reserved(BurdenedBlock {
            longest: 0,
            saved: self.weight,
        });
        self.weight = 0;
    }

    // Begins a further spawned part of the innermost block that has spawned.
    #[inline(always)]
    fn begin_again(&mut self)
        ensures weight { strand_weight self.new ≡ begins_again (strand_weight self.old) }
        ensures noted { self.new.noted ≡ self.old.noted }
    {
        let len = self.blocks.len();
        if len == 0 {
            self.weight = 0;
            return;
        }
        let block = self.blocks[len - 1];
        self.blocks[len - 1] = BurdenedBlock {
            longest: block.longest,
            saved: self.weight,
        };
        self.weight = 0;
    }

    // Ends the current spawned child.
    #[inline(always)]
    fn end(&mut self, burden: Burden)
        ensures weight { EndsWithin self.old self.new burden }
        ensures noted { self.new.noted ≡ self.old.noted }
    {
        let len = self.blocks.len();
        if len == 0 {
            return;
        }
        let block = self.blocks[len - 1];
        let own = self.weight.wrapping_add(burden.at_child() as u128);
        let child = block.saved.wrapping_add(own);
        self.blocks[len - 1] = BurdenedBlock {
            longest: block.longest.max(child),
            saved: block.saved,
        };
        self.weight = block.saved.wrapping_add(burden.at_rest() as u128);
    }

    // Joins the innermost block that has spawned.
    #[inline(always)]
    fn join_block(&mut self)
        ensures weight { strand_weight self.new ≡ joins (strand_weight self.old) }
        ensures noted { self.new.noted ≡ self.old.noted }
    {
        if let Some(block) = self.blocks.pop() {
            self.weight = block.longest.max(self.weight);
        }
    }
}
