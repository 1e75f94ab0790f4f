//! Records the strands of a run while it executes.
//!
//! A [`Recorder`] has the interface of a meter: each call of a method represents one instruction, and its argument is
//! the number of instructions before it. At each cut it records the cut and the instructions since the last one, as
//! one entry.
//!
//! | instruction | call | code |
//! |---|---|---|
//! | a spawned call, or the spawned half of a loop | `spawn(count)` | `Spawned`, and `Ended` at its end |
//! | a plain call | `call(count)` | `Called`, and `Called` at its end |
//! | a scope, a cut, a region, or a plain call of a loop's function | `begin(count)` | none |
//! | the join and end of a scope, a cut or a region | `end(count)` | `Joined`, if a child is not joined |
//! | the join and end of a call, or of a loop's function | `give_back(count)` | `Joined`, if a child is not joined |
//! | a join of the current block | `sync(count)` | `Joined`, if a child is not joined |
//! | any other | none (`recorder_laws::instructions_need_no_call`) | none |
//!
//! The continuation of a block that its own strand executes has its own recorder (`apart`), in which a child of the
//! block is not joined at the start. When the continuation reaches the block's join, `rest` appends its codes to the
//! codes of the block.
//!
//! If there are too many strands, the recorder counts them and keeps no entry. After an error, which means that
//! memory ran out, the record is meaningless.

ghost use Rattle.std.specs.Prelude.{◌≡◌, ◌≤◌, [], ◌∷◌, true, false, not, IfOk, OnOk};
ghost use Rattle.cw_greedy.specs.Entries.{code_of_cut};
ghost use Rattle.cw_greedy.specs.Recorded.{followed};
ghost use Rattle.cw_greedy.specs.Recording.{BeginsCall, BeginsChild, BeginsQuiet, Closes, Ends, Joins, RecordsUpTo, Reads, Rests, Returns, Stacks, Starts, StartsRest, Syncs};

use crate::entry::Cut;
use crate::piece::Piece;
use crate::strands::Strands;
use cw_model::monoid::Monoid;
use std::alloc::{AllocError, Global};
use std::mem;

/// The cuts at the ends of an open part of a run.
#[derive(Clone, Copy, Debug)]
pub(crate) enum PartKind {
    /// A spawned call: it has cuts for a child at both ends.
    Child,
    /// A plain call: it has cuts for a call at both ends.
    Call,
    /// Any other part: it has no cuts.
    Quiet,
}

/// An open part of a run.
#[derive(Clone, Copy, Debug)]
pub(crate) struct Part {
    /// Its kind.
    pub kind: PartKind,
    /// Whether a child of the enclosing block is not joined after the end of this part.
    pub out: bool,
}

/// The strands of a run so far.
#[derive(Debug, Drop)]
pub struct Recorder {
    pub(crate) kept: Piece,
    /// The number of instructions that are recorded.
    pub(crate) noted: u64,
    /// Whether a child of the current block is not joined.
    pub(crate) out: bool,
    /// The open parts of the run, without the run itself, the innermost last.
    pub(crate) parts: Vec<Part>,
}

impl Recorder {
    /// Returns the recorder of a run at its start. Allocates no memory.
    pub fn new(alloc: Global) -> Recorder
        ensures { Starts result }
    {
        Recorder {
            kept: Piece::new(alloc),
            noted: 0,
            out: false,
            parts: Vec::new(alloc),
        }
    }

    /// Returns the recorder of the continuation of a block that its own strand executes, up to the block's join. A
    /// child of the block is not joined at the start. Allocates no memory.
    pub fn apart(alloc: Global) -> Recorder
        ensures { StartsRest result }
    {
        Recorder {
            kept: Piece::new(alloc),
            noted: 0,
            out: true,
            parts: Vec::new(alloc),
        }
    }

    // Records the instructions up to `count`.
    fn settle(&mut self, count: u64) -> Result<(), AllocError>
        ensures { OnOk result (RecordsUpTo self.old self.new count []) }
    {
        if self.noted < count {
            self.kept.note(count - self.noted, Cut::Nothing)?;
            self.noted = count;
        }
        Ok(())
    }

    // Records a cut after `count` instructions.
    fn cut(&mut self, count: u64, cut: Cut) -> Result<(), AllocError>
        ensures { OnOk result (RecordsUpTo self.old self.new count (code_of_cut cut)) }
    {
        self.kept.note(count.saturating_sub(self.noted), cut)?;
        self.noted = count;
        Ok(())
    }

    // Begins a part of this kind in the current block.
    fn stack(&mut self, kind: PartKind, out: bool) -> Result<(), AllocError>
        ensures { OnOk result (Stacks self.old self.new kind out) }
    {
        self.parts.push(Part { kind, out })?;
        self.out = false;
        Ok(())
    }

    /// Begins a spawned call, or the spawned half of a loop, with the instruction after `count` others.
    ///
    /// # Errors
    ///
    /// Returns an `AllocError` if memory runs out. The record is then meaningless.
    #[inline(never)]
    pub fn spawn(&mut self, count: u64) -> Result<(), AllocError>
        ensures { OnOk result (BeginsChild self.old self.new count) }
    {
        self.cut(count.wrapping_add(1), Cut::Spawned(!self.out))?;
        self.stack(PartKind::Child, true)?;
        Ok(())
    }

    /// Begins a plain call with the instruction after `count` others.
    ///
    /// # Errors
    ///
    /// Returns an `AllocError` if memory runs out. The record is then meaningless.
    #[inline(never)]
    pub fn call(&mut self, count: u64) -> Result<(), AllocError>
        ensures { OnOk result (BeginsCall self.old self.new count) }
    {
        self.cut(count.wrapping_add(1), Cut::Called)?;
        self.stack(PartKind::Call, self.out)?;
        Ok(())
    }

    /// Begins a scope, a cut, a region or a plain call of a loop's function with the instruction after `count`
    /// others.
    ///
    /// # Errors
    ///
    /// Returns an `AllocError` if memory runs out. The record is then meaningless.
    #[inline(never)]
    pub fn begin(&mut self, count: u64) -> Result<(), AllocError>
        ensures { OnOk result (BeginsQuiet self.old self.new count) }
    {
        self.stack(PartKind::Quiet, self.out)?;
        Ok(())
    }

    /// Joins the innermost scope, cut or region after `count` instructions, and ends it with the next instruction.
    ///
    /// # Errors
    ///
    /// Returns an `AllocError` if memory runs out. The record is then meaningless.
    #[inline(never)]
    pub fn end(&mut self, count: u64) -> Result<(), AllocError>
        ensures { OnOk result (Ends self.old self.new count) }
    {
        self.join(count)?;
        self.close(count)?;
        Ok(())
    }

    /// Joins the innermost call, or function of a loop, after `count` instructions, and ends it with the next
    /// instruction.
    ///
    /// # Errors
    ///
    /// Returns an `AllocError` if memory runs out. The record is then meaningless.
    #[inline(never)]
    pub fn give_back(&mut self, count: u64) -> Result<(), AllocError>
        ensures { OnOk result (Returns self.old self.new count) }
    {
        self.join(count)?;
        self.close(count.wrapping_add(1))?;
        Ok(())
    }

    /// Joins the current block after `count` instructions, with the next instruction.
    ///
    /// # Errors
    ///
    /// Returns an `AllocError` if memory runs out. The record is then meaningless.
    #[inline(never)]
    pub fn sync(&mut self, count: u64) -> Result<(), AllocError>
        ensures { OnOk result (Syncs self.old self.new count) }
    {
        self.join(count)?;
        Ok(())
    }

    /// Appends the continuation of the current block, up to the block's join: `cost` instructions that another
    /// recorder recorded, after the `count` instructions of this one, while a child of the block is not joined.
    ///
    /// # Errors
    ///
    /// Returns an `AllocError` if memory runs out. The record is then meaningless.
    #[inline(never)]
    pub fn rest(&mut self, count: u64, rest: Recorder, cost: u64) -> Result<(), AllocError>
        ensures { OnOk result (Rests self.old rest self.new count cost) }
    {
        let mut rest = rest;
        rest.settle(cost)?;
        self.settle(count)?;
        self.take_in(rest.kept)?;
        self.noted = count.wrapping_add(cost);
        Ok(())
    }

    // Appends these strands.
    fn take_in(&mut self, more: Piece) -> Result<(), AllocError>
        ensures kept { OnOk result (self.new.kept ≡ followed self.old.kept more) }
        ensures noted { self.new.noted ≡ self.old.noted }
        ensures out { self.new.out ≡ self.old.out }
        ensures parts { self.new.parts.items ≡ self.old.parts.items }
    {
        let none = Piece::new(*self.parts.allocator());
        let kept = mem::replace(&mut self.kept, none);
        self.kept = kept.join(more)?;
        Ok(())
    }

    // Joins the current block; there is nothing to record if all its children are joined.
    fn join(&mut self, count: u64) -> Result<(), AllocError>
        ensures joins { OnOk result (Joins self.old self.new count) }
        ensures out { OnOk result (self.new.out ≡ false) }
        ensures parts { OnOk result (self.new.parts.items ≡ self.old.parts.items) }
    {
        if self.out {
            self.cut(count, Cut::Joined)?;
            self.out = false;
        }
        Ok(())
    }

    // Ends the innermost part at `count`; its block has joined.
    fn close(&mut self, count: u64) -> Result<(), AllocError>
        ensures { OnOk result (Closes self.old self.new count) }
    {
        match self.parts.pop() {
            Some(part) => {
                self.out = part.out;
                match part.kind {
                    PartKind::Child => self.cut(count, Cut::Ended),
                    PartKind::Call => self.cut(count, Cut::Called),
                    PartKind::Quiet => Ok(()),
                }
            }
            None => Ok(()),
        }
    }

    /// Returns the strands of a run that ended after `count` instructions.
    ///
    /// # Errors
    ///
    /// Returns an `AllocError` if memory runs out.
    pub fn finish(self, count: u64) -> Result<Strands, AllocError>
        ensures { IfOk result (λ kept. Reads self count kept) }
    {
        let mut recorder = self;
        recorder.settle(count)?;
        let strands = recorder.kept.finish()?;
        Ok(strands)
    }
}
