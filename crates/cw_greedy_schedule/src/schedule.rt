//! Computes the length of a greedy schedule, in jumps from one end of a strand to the next.

ghost use Rattle.std.specs.Prelude.{◌≡◌, ◌+◌, ◌<◌, ◌≤◌, true, false, length, Some, IfOk, replicate, slice_set};
ghost use Rattle.cw_model.specs.Trees.{Tree, work};
ghost use Rattle.cw_model.specs.declared.limits.TheConstants.{MOST_LIMIT};
ghost use Rattle.cw_greedy.specs.Greedy.{greedy_length};
ghost use Rattle.cw_greedy.specs.Blocks.{block_of};
ghost use Rattle.cw_greedy.specs.Jumping.{StrandBlock, Going, start, to_do};
ghost use Rattle.cw_greedy.specs.Slots.{nones};
ghost use Rattle.cw_greedy_schedule.specs.declared.plan.Begins.TheVariants.{Start};
ghost use Rattle.cw_greedy_schedule.specs.Planned.{strands_of};
ghost use Rattle.cw_greedy.specs.Records.{IsRecordOf};
ghost use Rattle.cw_greedy_schedule.specs.Boards.{least_slot};
ghost use Rattle.cw_greedy_schedule.specs.State.{flag_at, strand_at, Begun, IsWithin, Puts, Reaches, RepresentsBlock, Takes};

use crate::plan::{Begins, Strand, plan};
use crate::ready::Ready;
use crate::weights::{count_spawns, weigh};
use cw_greedy::laws::{greedy_is_bounded, lists_show_boards, nobody_waits, rounds_preserve_length};
use cw_greedy::strands::Strands;
use std::alloc::{AllocError, Global};

// Records that one of the two sides before a join is done.
fn arrive(strands: &[Strand], flags: &mut [bool], board: &mut Ready, join: usize)
    requires join { join < length strands.now }
    requires flags { length flags.old ≡ length strands.now }
    requires board { length board.old ≡ length strands.now }
    ensures first { flag_at flags.old join ≡ false → (board.new ≡ board.old)
        × (flags.new ≡ slice_set flags.old join true) }
    ensures second { flag_at flags.old join ≡ true
        → (board.new ≡ slice_set board.old join (Some (strand_at strands.now join).weight))
        × (flags.new ≡ slice_set flags.old join false) }
{
    if flags[join] {
        flags[join] = false;
        board.put(join, strands[join].weight);
    } else {
        flags[join] = true;
    }
}

// Makes the strands ready that waited only for the strand before this one, which is done.
fn release(strands: &[Strand], flags: &mut [bool], board: &mut Ready, next: usize)
    requires next { next < length strands.now }
    requires reaches { Reaches (strand_at strands.now next).begins next (length strands.now) }
    requires flags { length flags.old ≡ length strands.now }
    requires board { length board.old ≡ length strands.now }
    ensures { Puts strands.now next flags.old board.old flags.new board.new }
{
    match strands[next].begins {
        Begins::Start => unreachable!(),
        Begins::Child(later) => {
            board.put(next, strands[next].weight);
            board.put(next + later, strands[next + later].weight);
        }
        Begins::Continuation(later) => arrive(strands, flags, board, next + later),
        Begins::Sync => arrive(strands, flags, board, next),
    }
}

// Removes a ready strand that has no instruction left.
fn take(strands: &[Strand], flags: &mut [bool], board: &mut Ready)
    requires state { (block : StrandBlock)
        × ((g : Going) × RepresentsBlock block g strands.now flags.old board.old) }
    requires done { least_slot board.old ≡ Some 0 }
    ensures { (block : StrandBlock) (g : Going) → RepresentsBlock block g strands.now flags.old board.old
        → Takes block g strands.now flags.new board.new }
{
    let count = strands.len();
    let next = board.take() + 1;
    if next < count {
        release(strands, flags, board, next);
    }
}

// Returns the number of steps in which this number of processors executes the strands of a block. The first strand is
// on the board.
fn count_steps(strands: &[Strand], flags: &mut [bool], board: &mut Ready, processors: u64) -> u64
    requires processors { 1 ≤ processors }
    requires begun { (block : StrandBlock) × Begun processors block strands.now flags.old board.old }
    ensures { (block : StrandBlock) → Begun processors block strands.now flags.old board.old
        → result ≡ greedy_length processors (to_do (start block)) }
{
    lists_show_boards();
    rounds_preserve_length();
    let mut steps: u64 = 0;
    for _taken in 0..strands.len() {
        steps += board.advance(processors);
        take(strands, flags, board);
    }
    steps
}

// Returns the number of steps in which this number of processors executes the strands of a tree.
fn count_all(strands: &[Strand], flags: &mut [bool], board: &mut Ready, processors: u64) -> u64
    requires processors { 1 ≤ processors }
    requires tree { (t : Tree)
        × ((strands.now ≡ strands_of Start (block_of t)) × (work t ≤ MOST_LIMIT)) }
    requires flags { flags.old ≡ replicate (length strands.now) false }
    requires board { board.old ≡ nones (length strands.now) }
    ensures { (t : Tree) → strands.now ≡ strands_of Start (block_of t) → work t ≤ MOST_LIMIT
        → result ≡ greedy_length processors t }
{
    rounds_preserve_length();
    board.put(0, strands[0].weight);
    let steps = count_steps(strands, flags, board, processors);
    steps
}

/// Returns the number of steps in which this number of processors executes the strands of a record. In each step the
/// first ready strands in serial order, at most one for each processor, execute one instruction each. The result is
/// the length of the greedy schedule of every strand tree with this record. It is at least the work divided by the
/// number of processors and at least the span, and at most the sum of both (Blumofe and Leiserson 1999).
///
/// The time is proportional to the number of strands times its logarithm, and does not depend on their instructions.
/// On one processor the length is the work, and on more processors than there are spawns it is the span; these two
/// are computed by additions only.
///
/// # Errors
///
/// `AllocError` if memory runs out. The record is unchanged.
pub fn greedy(alloc: Global, kept: &Strands, processors: u64) -> Result<u64, AllocError>
    requires processors { 1 ≤ processors }
    requires kept { (t : Tree) × (IsRecordOf t kept.now × (work t ≤ MOST_LIMIT)) }
    ensures length { (t : Tree) → IsRecordOf t kept.now
        → IfOk result (λ steps. steps ≡ greedy_length processors t) }
    ensures bounds { (t : Tree) → IsRecordOf t kept.now
        → IfOk result (λ steps. IsWithin processors steps t) }
{
    greedy_is_bounded();
    if processors == 1 {
        let weights = weigh(alloc, kept)?;
        return Ok(weights.work);
    }
    nobody_waits();
    if processors > count_spawns(kept) {
        let weights = weigh(alloc, kept)?;
        return Ok(weights.span);
    }
    let strands = plan(alloc, kept.chunks())?;
    let mut flags = vec![in alloc; false; strands.len()]?;
    let mut board = Ready::new(alloc, strands.len(), processors)?;
    let steps = count_all(&strands, &mut flags, &mut board, processors);
    Ok(steps)
}
