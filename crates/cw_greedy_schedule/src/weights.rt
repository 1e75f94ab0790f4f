//! Computes work, span and burdened span of the strands of a record.

ghost use Rattle.std.specs.Prelude.{◌≡◌, ◌+◌, ◌<◌, ◌≤◌, ◌++◌, ◌∷◌, [], max, Some, List, IfOk, OnOk};
ghost use Rattle.cw_model.specs.Trees.{Tree, burdened_span, work, span};
ghost use Rattle.cw_model.specs.declared.limits.TheConstants.{MOST_BURDEN, MOST_LIMIT, MOST_STRANDS};
ghost use Rattle.cw_greedy.specs.declared.code.Code.{Code};
ghost use Rattle.cw_greedy.specs.Entries.{code_of_cut, codes_of_chunks, codes_of_entries, codes_of_entry};
ghost use Rattle.cw_greedy.specs.Recorded.{cuts};
ghost use Rattle.cw_greedy.specs.Jumping.{StrandBlock, Last};
ghost use Rattle.cw_greedy.specs.Counts.{spawns_in};
ghost use Rattle.cw_greedy.specs.Records.{IsRecordOf};
ghost use Rattle.cw_greedy_schedule.specs.declared.weights.Spawn.{Spawn};
ghost use Rattle.cw_greedy_schedule.specs.Reading.{instructions, read, spawned, Frame};
ghost use Rattle.cw_greedy_schedule.specs.Weighed.{after_join, counted, path_of, spawn, Weighs, WillJoin, WillWeigh};

use cw_greedy::entry::{Cut, Entry};
use cw_greedy::strands::Strands;
use cw_model::burden::{Burden, Edges};
use std::alloc::{AllocError, Global};

// Nothing is charged.
const NO_BURDEN: Burden = Burden {
    charge: 0,
    edges: Edges::Spawn,
};

/// The weights of a strand tree, in instructions.
#[derive(Clone, Copy, Debug, PartialEq, Eq)]
pub struct Weights {
    /// The work: the sum over all strands.
    pub work: u64,
    /// The span: the sum over the strands on a heaviest path.
    pub span: u64,
}

// A spawn whose join has not been read: the weight of the heaviest path of its block up to it, the weight of the
// heaviest path through its child, once the child has ended, and whether it is the first spawn of its sync block.
#[derive(Debug, Clone, Copy, Drop)]
struct Spawn {
    before: u64,
    child: u64,
    first: bool,
}

// The work so far, the weight of the heaviest path through the block that has begun, and the open spawns. Sums
// saturate at the largest number.
#[derive(Debug, Drop)]
struct Ways {
    work: u64,
    path: u64,
    spawns: Vec<Spawn>,
}

impl Ways {
    // Adds instructions.
    fn worked(&mut self, count: u64)
        ensures work { self.new.work ≡ counted (self.old.work + count) }
        ensures path { self.new.path ≡ counted (self.old.path + count) }
        ensures spawns { self.new.spawns.items ≡ self.old.spawns.items }
    {
        self.work = self.work.saturating_add(count);
        self.path = self.path.saturating_add(count);
    }

    // Begins a spawned child.
    fn spawned(&mut self, first: bool) -> Result<(), AllocError>
        ensures work { OnOk result (self.new.work ≡ self.old.work) }
        ensures path { OnOk result (self.new.path ≡ 0) }
        ensures spawns { OnOk result (self.new.spawns.items
            ≡ self.old.spawns.items ++ spawn self.old.path 0 first ∷ []) }
    {
        self.spawns.push(Spawn {
            before: self.path,
            child: 0,
            first,
        })?;
        self.path = 0;
        Ok(())
    }

    // Ends a child, and begins its continuation.
    fn ended(&mut self) -> Result<(), AllocError>
        ensures work { OnOk result (self.new.work ≡ self.old.work) }
        ensures path { OnOk result (self.new.path ≡ 0) }
        ensures spawns { (outer : List Spawn) (top : Spawn)
            → self.old.spawns.items ≡ outer ++ top ∷ []
            → OnOk result (self.new.spawns.items
            ≡ outer ++ spawn top.before self.old.path top.first ∷ []) }
    {
        let child = self.path;
        self.path = 0;
        let Some(top) = self.spawns.pop() else {
            return Ok(());
        };
        self.spawns.push(Spawn {
            before: top.before,
            child,
            first: top.first,
        })?;
        Ok(())
    }

    // Joins the last open spawn.
    fn join_last(&mut self, burden: Burden, top: Spawn)
        ensures work { self.new.work ≡ self.old.work }
        ensures path { self.new.path ≡ after_join burden top.before top.child self.old.path }
        ensures spawns { self.new.spawns.items ≡ self.old.spawns.items }
    {
        let child = burden.at_child().saturating_add(top.child);
        let rest = burden.at_rest().saturating_add(self.path);
        self.path = top.before.saturating_add(child.max(rest));
    }

    // Joins the spawns of a sync block, the last one first.
    fn joined(&mut self, burden: Burden)
        ensures work { self.new.work ≡ self.old.work }
        ensures joined { (end : List Frame × StrandBlock) → WillJoin burden end self.old
            → Weighs burden end.0 end.1 self.new }
    {
        while let Some(top) = self.spawns.pop() {
            self.join_last(burden, top);
            if top.first {
                return;
            }
        }
    }

    // Follows a cut.
    fn cut(&mut self, burden: Burden, cut: Cut) -> Result<(), AllocError>
        ensures work { OnOk result (self.new.work ≡ self.old.work) }
        ensures weighs { (block : StrandBlock) (later : List Code)
            → WillWeigh burden block (code_of_cut cut ++ later) self.old
            → OnOk result (WillWeigh burden block later self.new) }
    {
        match cut {
            Cut::Spawned(first) => {
                self.spawned(first)?;
                Ok(())
            }
            Cut::Ended => {
                self.ended()?;
                Ok(())
            }
            Cut::Joined => {
                self.joined(burden);
                Ok(())
            }
            Cut::Nothing => Ok(()),
            Cut::Called => Ok(()),
        }
    }

    // Follows an entry.
    fn follow(&mut self, burden: Burden, entry: Entry) -> Result<(), AllocError>
        ensures work { OnOk result
            (counted self.new.work ≡ counted (self.old.work + entry.before)) }
        ensures weighs { (block : StrandBlock) (later : List Code)
            → WillWeigh burden block (codes_of_entry entry ++ later) self.old
            → OnOk result (WillWeigh burden block later self.new) }
    {
        self.worked(entry.before);
        self.cut(burden, entry.cut)?;
        Ok(())
    }

    // Follows the entries of a chunk.
    fn follow_all(&mut self, burden: Burden, entries: &[Entry]) -> Result<(), AllocError>
        ensures work { OnOk result (counted self.new.work
            ≡ counted (self.old.work + instructions (codes_of_entries entries.now))) }
        ensures weighs { (block : StrandBlock) (later : List Code)
            → WillWeigh burden block (codes_of_entries entries.now ++ later) self.old
            → OnOk result (WillWeigh burden block later self.new) }
    {
        for entry in entries {
            self.follow(burden, *entry)?;
        }
        Ok(())
    }
}

// Returns the weights of the entries of chunks, and of the block that they represent. The span is burdened.
fn weighed(alloc: Global, burden: Burden, chunks: &[Vec<Entry>]) -> Result<Weights, AllocError>
    ensures work { IfOk result
        (λ w. counted w.work ≡ counted (instructions (codes_of_chunks chunks.now))) }
    ensures span { (block : StrandBlock) → read (codes_of_chunks chunks.now) [] (Last 0) ≡ Some block
        → IfOk result (λ w. w.span ≡ counted (path_of burden block)) }
{
    let mut ways = Ways {
        work: 0,
        path: 0,
        spawns: Vec::new(alloc),
    };
    for chunk in chunks {
        ways.follow_all(burden, chunk.as_slice())?;
    }
    Ok(Weights {
        work: ways.work,
        span: ways.path,
    })
}

/// Returns work and span of every strand tree with this record, in instructions.
/// The time is proportional to the number of strands.
///
/// # Errors
///
/// `AllocError` if memory runs out. The record is unchanged.
pub fn weigh(alloc: Global, kept: &Strands) -> Result<Weights, AllocError>
    requires { (t : Tree) × (IsRecordOf t kept.now × (work t ≤ MOST_LIMIT)) }
    ensures work { (t : Tree) → IsRecordOf t kept.now → IfOk result (λ w. w.work ≡ work t) }
    ensures span { (t : Tree) → IsRecordOf t kept.now → IfOk result (λ w. w.span ≡ span t) }
{
    let weights = weighed(alloc, NO_BURDEN, kept.chunks())?;
    Ok(weights)
}

/// Returns the burdened span of every strand tree with this record, in instructions. The time is proportional to the number
/// of strands.
///
/// # Errors
///
/// `AllocError` if memory runs out. The record is unchanged.
pub fn burdened(alloc: Global, kept: &Strands, burden: Burden) -> Result<u64, AllocError>
    requires kept { (t : Tree) × (IsRecordOf t kept.now × (work t ≤ MOST_LIMIT)) }
    requires low { burden.charge ≤ MOST_BURDEN }
    ensures { (t : Tree) → IsRecordOf t kept.now → IfOk result (λ b. b ≡ burdened_span burden t) }
{
    let weights = weighed(alloc, burden, kept.chunks())?;
    Ok(weights.span)
}

/// Returns the number of spawned children, which is the number of spawns in every strand tree with this record.
pub(crate) fn count_spawns(kept: &Strands) -> u64
    requires { (t : Tree) × IsRecordOf t kept.now }
    ensures { (t : Tree) → IsRecordOf t kept.now → result ≡ spawns_in t }
{
    let count = count_spawned(kept.chunks());
    count
}

// Returns the number of children that the entries of some chunks spawn.
fn count_spawned(chunks: &[Vec<Entry>]) -> u64
    requires { cuts (codes_of_chunks chunks.now) < MOST_STRANDS }
    ensures { result ≡ spawned (codes_of_chunks chunks.now) }
{
    let mut count = 0;
    for chunk in chunks {
        count += spawned_in(chunk.as_slice());
    }
    count
}

// Returns the number of children that the entries of a chunk spawn.
fn spawned_in(entries: &[Entry]) -> u64
    ensures { result ≡ spawned (codes_of_entries entries.now) }
{
    let mut count = 0;
    for entry in entries {
        count += spawned_by(entry.cut);
    }
    count
}

fn spawned_by(cut: Cut) -> u64
    ensures value { (codes : List Code)
        → spawned (code_of_cut cut ++ codes) ≡ result + spawned codes }
    ensures small { result ≤ 1 }
{
    match cut {
        Cut::Spawned(_) => 1,
        _ => 0,
    }
}
