//! The strands of a record, each with what waits for it.

ghost use Rattle.std.specs.Prelude.{◌≡◌, ℕ, ◌+◌, ◌-◌, ◌<◌, ◌≤◌, ◌^◌, ◌++◌, ◌∷◌, [], Bool, Some, List, length, IfOk, OnOk};
ghost use Rattle.cw_greedy.specs.declared.code.Code.{Code};
ghost use Rattle.cw_greedy.specs.Entries.{code_of_cut, codes_of_chunks, codes_of_entries, codes_of_entry};
ghost use Rattle.cw_greedy.specs.Jumping.{StrandBlock, Last};
ghost use Rattle.cw_model.specs.declared.limits.TheConstants.{MOST_LIMIT};
ghost use Rattle.cw_greedy_schedule.specs.declared.plan.Begins.TheVariants.{Child, Continuation, Start, Sync};
ghost use Rattle.cw_greedy_schedule.specs.declared.plan.Open.{Open};
ghost use Rattle.cw_greedy_schedule.specs.Planned.{all_begun, open_at, patched, strand, strands_of, Continues, HasSpawn, Joins, Makes, Plans};
ghost use Rattle.cw_greedy_schedule.specs.Reading.{instructions, read, Frame};

use cw_greedy::entry::{Cut, Entry};
use std::alloc::{AllocError, Global};

/// The start of a strand.
#[derive(Debug, Clone, Copy, Drop)]
pub enum Begins {
    /// At the start of the run.
    Start,
    /// As a spawned child. Its continuation begins this number of strands later.
    Child(usize),
    /// As the continuation of a spawn. Its join begins this number of strands later.
    Continuation(usize),
    /// At the join of a child and its continuation.
    Sync,
}

/// A strand: its number of instructions, and how it begins.
#[derive(Debug, Clone, Copy, Drop)]
pub struct Strand {
    pub weight: u64,
    pub begins: Begins,
}

// A spawn whose join has not been read: the index of the strand with which its child begins or, once the child has
// ended, its continuation; and whether it is the first spawn of its sync block.
#[derive(Debug, Clone, Copy, Drop)]
struct Open {
    at: usize,
    first: bool,
}

// The strands so far, with the last one in a field of its own, and the open spawns.
#[derive(Debug, Drop)]
struct Planning {
    strands: Vec<Strand>,
    last: Strand,
    spawns: Vec<Open>,
}

impl Planning {
    // Begins another strand.
    fn begin(&mut self, begins: Begins) -> Result<(), AllocError>
        ensures strands { OnOk result (self.new.strands.items ≡ all_begun self.old) }
        ensures last { OnOk result (self.new.last ≡ strand 0 begins) }
        ensures spawns { OnOk result (self.new.spawns.items ≡ self.old.spawns.items) }
    {
        self.strands.push(self.last)?;
        self.last = Strand { weight: 0, begins };
        Ok(())
    }

    // Adds instructions to the strand that has begun.
    fn worked(&mut self, count: u64)
        requires { self.old.last.weight + count < 2 ^ 64 }
        ensures strands { self.new.strands.items ≡ self.old.strands.items }
        ensures last { self.new.last ≡ strand (self.old.last.weight + count) self.old.last.begins }
        ensures spawns { self.new.spawns.items ≡ self.old.spawns.items }
    {
        self.last.weight += count;
    }

    // Begins a spawned child.
    fn spawned(&mut self, first: bool) -> Result<(), AllocError>
        ensures strands { OnOk result (self.new.strands.items ≡ all_begun self.old) }
        ensures last { OnOk result (self.new.last ≡ strand 0 (Child 0)) }
        ensures spawns { OnOk result (self.new.spawns.items
            ≡ self.old.spawns.items ++ open_at (length self.old.strands.items + 1) first ∷ []) }
    {
        self.begin(Begins::Child(0))?;
        let at = self.strands.len();
        self.spawns.push(Open { at, first })?;
        Ok(())
    }

    // Ends a child, and begins its continuation.
    fn ended(&mut self) -> Result<(), AllocError>
        requires { HasSpawn self.old }
        ensures { (spawns : List Open) (at : ℕ) (first : Bool)
            → self.old.spawns.items ≡ spawns ++ open_at at first ∷ []
            → OnOk result (Continues self.old self.new spawns at first) }
    {
        let Some(top) = self.spawns.pop() else {
            unreachable!()
        };
        self.begin(Begins::Continuation(0))?;
        let at = self.strands.len();
        self.strands[top.at].begins = Begins::Child(at - top.at);
        self.spawns.push(Open {
            at,
            first: top.first,
        })?;
        Ok(())
    }

    // Joins the last open spawn.
    fn join_last(&mut self, top: Open) -> Result<(), AllocError>
        requires { top.at ≤ length self.old.strands.items }
        ensures strands { OnOk result (self.new.strands.items ≡ patched (all_begun self.old) top.at
            (Continuation (length self.old.strands.items + 1 - top.at))) }
        ensures last { OnOk result (self.new.last ≡ strand 0 Sync) }
        ensures spawns { OnOk result (self.new.spawns.items ≡ self.old.spawns.items) }
    {
        self.begin(Begins::Sync)?;
        let join = self.strands.len();
        self.strands[top.at].begins = Begins::Continuation(join - top.at);
        Ok(())
    }

    // Joins the spawns of a sync block, the last one first.
    fn joined(&mut self) -> Result<(), AllocError>
        requires { (end : List Frame × StrandBlock) × Joins end self.old }
        ensures joined { (end : List Frame × StrandBlock) → Joins end self.old
            → OnOk result (Plans end.0 end.1 self.new) }
        ensures weight { OnOk result (self.new.last.weight ≡ 0) }
    {
        while let Some(top) = self.spawns.pop() {
            self.join_last(top)?;
            if top.first {
                return Ok(());
            }
        }
        Ok(())
    }

    // Follows a cut.
    fn cut(&mut self, cut: Cut) -> Result<(), AllocError>
        requires { (block : StrandBlock)
            × ((later : List Code) × Makes block (code_of_cut cut ++ later) self.old) }
        ensures makes { (block : StrandBlock) (later : List Code)
            → Makes block (code_of_cut cut ++ later) self.old
            → OnOk result (Makes block later self.new) }
        ensures weight { OnOk result (self.new.last.weight ≤ self.old.last.weight) }
    {
        match cut {
            Cut::Spawned(first) => {
                self.spawned(first)?;
                Ok(())
            }
            Cut::Ended => {
                self.ended()?;
                Ok(())
            }
            Cut::Joined => {
                self.joined()?;
                Ok(())
            }
            Cut::Nothing => Ok(()),
            Cut::Called => Ok(()),
        }
    }

    // Follows an entry.
    fn follow(&mut self, entry: Entry) -> Result<(), AllocError>
        requires fits { self.old.last.weight + entry.before < 2 ^ 64 }
        requires makes { (block : StrandBlock)
            × ((later : List Code) × Makes block (codes_of_entry entry ++ later) self.old) }
        ensures makes { (block : StrandBlock) (later : List Code)
            → Makes block (codes_of_entry entry ++ later) self.old
            → OnOk result (Makes block later self.new) }
        ensures weight { OnOk result (self.new.last.weight ≤ self.old.last.weight + entry.before) }
    {
        self.worked(entry.before);
        self.cut(entry.cut)?;
        Ok(())
    }

    // Follows the entries of a chunk.
    fn follow_all(&mut self, entries: &[Entry]) -> Result<(), AllocError>
        requires fits { self.old.last.weight + instructions (codes_of_entries entries.now)
            ≤ MOST_LIMIT }
        requires makes { (block : StrandBlock) × ((later : List Code)
            × Makes block (codes_of_entries entries.now ++ later) self.old) }
        ensures makes { (block : StrandBlock) (later : List Code)
            → Makes block (codes_of_entries entries.now ++ later) self.old
            → OnOk result (Makes block later self.new) }
        ensures weight { OnOk result (self.new.last.weight
            ≤ self.old.last.weight + instructions (codes_of_entries entries.now)) }
    {
        for entry in entries {
            self.follow(*entry)?;
        }
        Ok(())
    }
}

/// Returns the strands of the block that the entries of chunks represent, in serial order.
///
/// # Errors
///
/// `AllocError` if memory runs out.
pub fn plan(alloc: Global, chunks: &[Vec<Entry>]) -> Result<Vec<Strand>, AllocError>
    requires fits { instructions (codes_of_chunks chunks.now) ≤ MOST_LIMIT }
    requires block { (block : StrandBlock)
        × (read (codes_of_chunks chunks.now) [] (Last 0) ≡ Some block) }
    ensures { (block : StrandBlock) → read (codes_of_chunks chunks.now) [] (Last 0) ≡ Some block
        → IfOk result (λ strands. strands.items ≡ strands_of Start block) }
{
    let mut plan = Planning {
        strands: Vec::new(alloc),
        last: Strand {
            weight: 0,
            begins: Begins::Start,
        },
        spawns: Vec::new(alloc),
    };
    for chunk in chunks {
        plan.follow_all(chunk.as_slice())?;
    }
    let mut strands = plan.strands;
    strands.push(plan.last)?;
    Ok(strands)
}
