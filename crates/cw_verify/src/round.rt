//! The enclosing sync blocks of a pc, in the same call.

ghost use Rattle.std.specs.Prelude.{◌≡◌, true};
ghost use Rattle.cw_code.specs.Fits as fits;
ghost use Rattle.cw_verify.specs.Meetings as meetings;
ghost use Rattle.cw_verify.specs.Table as table;
ghost use Rattle.cw_verify.specs.Table.{rounds_of};
ghost use Rattle.cw_verify.specs.Views as views;
ghost use Rattle.cw_verify.specs.Steps.{OrMemory};

use crate::meeting::Meeting;
use crate::row::{Row, brings, is_full_in, shared_either};
use cw_code::code::Halves;
use cw_text::Fault;
use std::alloc::Global;
use std::rc::Rc;

/// A sync block that encloses another one. Its rows are the rows of the pc at which the inner block began.
#[derive(Drop)]
pub struct Round {
    /// For each integer slot, whether it may be empty until the next join of the block.
    pub empty: Rc<Row>,
    /// For each array slot, whether it may be empty until that join.
    pub gone: Rc<Row>,
    /// For each array slot, whether it may be frozen until that join.
    pub frozen: Rc<Row>,
    /// The cut that began the inner block, if a cut did.
    pub cut: Option<Halves>,
}

/// The enclosing sync blocks of a pc, the innermost first. All pcs in a block share the list of the blocks around it.
#[derive(Drop)]
pub enum Rounds {
    /// No block.
    Outermost,
    /// A block, and the blocks around it.
    Within(Round, Rc<Rounds>),
}

/// Returns whether each of these blocks has the integer slot and none marks it as empty.
pub fn full_in_all(rounds: &Rounds, a: usize) -> bool
    ensures { result ≡ fits.full_in_all (fits.empty_rows (table.rounds_of rounds.now)) a }
{
    match rounds {
        Rounds::Outermost => true,
        Rounds::Within(round, outer) => is_full_in(&round.empty, a) && full_in_all(outer, a),
    }
}

/// Returns whether each of these blocks has the array slot and none marks it as empty.
pub fn there_in_all(rounds: &Rounds, a: usize) -> bool
    ensures { result ≡ fits.full_in_all (fits.gone_rows (table.rounds_of rounds.now)) a }
{
    match rounds {
        Rounds::Outermost => true,
        Rounds::Within(round, outer) => is_full_in(&round.gone, a) && there_in_all(outer, a),
    }
}

/// Returns whether each of these blocks has the array slot and none marks it as frozen.
pub fn thawed_in_all(rounds: &Rounds, a: usize) -> bool
    ensures { result ≡ fits.full_in_all (fits.frozen_rows (table.rounds_of rounds.now)) a }
{
    match rounds {
        Rounds::Outermost => true,
        Rounds::Within(round, outer) => is_full_in(&round.frozen, a) && thawed_in_all(outer, a),
    }
}

// Returns whether the slot is not a part of this cut.
fn is_no_half(a: u32, cut: Option<Halves>) -> bool
    ensures { result ≡ fits.is_no_half a cut }
{
    match cut {
        None => true,
        Some(h) => a != h.left && a != h.right,
    }
}

/// Returns whether the slot holds no part of an array that is cut.
pub fn is_no_part(a: u32, rounds: &Rounds) -> bool
    ensures { result ≡ fits.is_no_part a (table.rounds_of rounds.now) }
{
    match rounds {
        Rounds::Outermost => true,
        Rounds::Within(round, outer) => is_no_half(a, round.cut) && is_no_part(a, outer),
    }
}

// Returns a copy of a block.
fn copy(round: &Round) -> Result<Round, Fault>
    ensures { OrMemory result (λ r. table.round_view r ≡ table.round_view round.now) }
{
    let empty = round.empty.clone()?;
    let gone = round.gone.clone()?;
    let frozen = round.frozen.clone()?;
    Ok(Round {
        empty,
        gone,
        frozen,
        cut: round.cut,
    })
}

// Returns whether a block marks more than another one.
fn round_brings(round: &Round, more: &Round) -> bool
    ensures { result ≡ table.round_brings (table.round_view round.now) (table.round_view more.now) }
{
    brings(&round.empty, &more.empty)
        || (brings(&round.gone, &more.gone) || brings(&round.frozen, &more.frozen))
}

// Returns whether some block marks more than its counterpart.
fn each_brings(rounds: &Rounds, more: &Rounds) -> bool
    ensures { result ≡ table.each_brings (table.rounds_of rounds.now) (table.rounds_of more.now) }
{
    match (rounds, more) {
        (Rounds::Outermost, _) => false,
        (Rounds::Within(_, _), Rounds::Outermost) => false,
        (Rounds::Within(round, outer), Rounds::Within(other, around)) => {
            round_brings(round, other) || each_brings(outer, around)
        }
    }
}

// Returns a block that marks what either block marks.
fn either_round(alloc: Global, round: &Round, more: &Round) -> Result<Round, Fault>
    ensures { OrMemory result (λ r. table.round_view r ≡ views.either_round round.now more.now) }
{
    let (empty, _) = shared_either(alloc, round.empty.clone()?, &more.empty)?;
    let (gone, _) = shared_either(alloc, round.gone.clone()?, &more.gone)?;
    let (frozen, _) = shared_either(alloc, round.frozen.clone()?, &more.frozen)?;
    Ok(Round {
        empty,
        gone,
        frozen,
        cut: round.cut,
    })
}

// Adds a block to the blocks around it.
fn within(alloc: Global, round: Round, outer: Rc<Rounds>) -> Result<Rc<Rounds>, Fault>
    ensures { OrMemory result (λ r. table.rounds_of r.value ≡ table.rounds_in round outer.value) }
{
    let rounds = Rc::new(alloc, Rounds::Within(round, outer))?;
    Ok(rounds)
}

// Returns the same blocks, shared.
fn share(rounds: &Rc<Rounds>) -> Result<Rc<Rounds>, Fault>
    ensures { OrMemory result (λ r. table.rounds_of r.value ≡ table.rounds_of rounds.now.value) }
{
    let rounds = rounds.clone()?;
    Ok(rounds)
}

// Merges two lists of blocks: each block marks what either block marks.
fn either_each(alloc: Global, rounds: &Rounds, more: &Rounds) -> Result<Rc<Rounds>, Fault>
    ensures { OrMemory result (λ r. rounds_of r.value ≡ views.either_each rounds.now more.now) }
{
    match (rounds, more) {
        (Rounds::Outermost, _) => {
            let none = Rc::new(alloc, Rounds::Outermost)?;
            Ok(none)
        }
        (Rounds::Within(round, outer), Rounds::Outermost) => {
            let round = copy(round)?;
            let outer = share(outer)?;
            within(alloc, round, outer)
        }
        (Rounds::Within(round, outer), Rounds::Within(other, around)) => {
            let both = either_round(alloc, round, other)?;
            let outer = either_each(alloc, outer, around)?;
            within(alloc, both, outer)
        }
    }
}

/// Merges two lists of blocks, given how they meet. Returns the merged list, to be shared, and whether it marks more
/// than the first one. If it does not, the first list is returned; if the second list marks everything that the first
/// one marks, the second one is returned.
///
/// # Errors
///
/// `Fault::Memory` if there is not enough memory.
pub fn shared_each(
    alloc: Global,
    rounds: Rc<Rounds>,
    more: &Rc<Rounds>,
    meeting: Meeting,
) -> Result<(Rc<Rounds>, bool), Fault>
    requires alike { meetings.meets meeting ≡ true }
    requires is { meeting ≡ views.meeting_of rounds.value more.now.value }
    ensures { OrMemory result (λ r. views.IsEach rounds.value more.now.value r.0.value r.1) }
{
    match meeting {
        Meeting::Apart => Ok((rounds, false)),
        Meeting::Stays => Ok((rounds, false)),
        Meeting::Comes => {
            let more = share(more)?;
            Ok((more, true))
        }
        Meeting::Both => {
            let both = either_each(alloc, &rounds, more)?;
            Ok((both, true))
        }
    }
}

// Returns whether the slots of two cuts are equal.
fn same_halves(halves: Halves, other: Halves) -> bool
    ensures { result ≡ table.same_halves halves other }
{
    halves.array == other.array && (halves.left == other.left && halves.right == other.right)
}

// Returns whether both are the same cut, or neither is a cut.
fn same_cut(cut: Option<Halves>, other: Option<Halves>) -> bool
    ensures { result ≡ table.same_cut cut other }
{
    match (cut, other) {
        (None, None) => true,
        (Some(halves), Some(other)) => same_halves(halves, other),
        (None, Some(_)) => false,
        (Some(_), None) => false,
    }
}

// Returns whether the rows of two blocks have the same lengths, and their cuts are equal.
fn is_alike(round: &Round, other: &Round) -> bool
    ensures { result ≡ table.is_alike (table.round_view round.now) (table.round_view other.now) }
{
    let gone = round.gone.len() == other.gone.len();
    let frozen = round.frozen.len() == other.frozen.len();
    round.empty.len() == other.empty.len() && (gone && (frozen && same_cut(round.cut, other.cut)))
}

// Returns whether there are equally many blocks, with the same cuts and rows of the same lengths.
fn are_alike(rounds: &Rounds, others: &Rounds) -> bool
    ensures { result ≡ table.are_alike (table.rounds_of rounds.now) (table.rounds_of others.now) }
{
    match (rounds, others) {
        (Rounds::Outermost, Rounds::Outermost) => true,
        (Rounds::Outermost, Rounds::Within(_, _)) => false,
        (Rounds::Within(_, _), Rounds::Outermost) => false,
        (Rounds::Within(round, outer), Rounds::Within(other, around)) => {
            is_alike(round, other) && are_alike(outer, around)
        }
    }
}

/// Returns how two lists of blocks meet.
pub fn compare(rounds: &Rounds, more: &Rounds) -> Meeting
    ensures { result ≡ views.meeting_of rounds.now more.now }
{
    if !are_alike(rounds, more) {
        return Meeting::Apart;
    }
    if !each_brings(rounds, more) {
        return Meeting::Stays;
    }
    if !each_brings(more, rounds) {
        return Meeting::Comes;
    }
    Meeting::Both
}
