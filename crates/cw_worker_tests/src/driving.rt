//! Executes a job on one thread. A list decides what happens to each continuation that a strand hands out.

ghost use Rattle.std.specs.Prelude.{◌≡◌, ◌∷◌, List, None, IfOk, IfSome};
ghost use Rattle.cw_jobs.specs.declared.job.Job as jobs;
ghost use Rattle.cw_jobs.specs.Means.{IsMeaningOf};
ghost use Rattle.cw_strand.specs.Holds.{outs, IsAtSync, IsRunning};
ghost use Rattle.cw_strand.specs.Moves.{KeptBy};
ghost use Rattle.cw_strand.specs.declared.strand.Step.TheVariants as step;

use cw_jobs::effect::Effect;
use cw_jobs::job::Job;
use cw_strand::strand::{Advance, Event, Spawns, Step, Strand};
use std::alloc::Global;
use std::snapshot::Snapshot;

/// The treatment of a continuation.
#[derive(Clone, Copy)]
pub enum Fate {
    /// The continuation is not executed before its join, and is taken back.
    TakenBack,
    /// Another strand executes the continuation before the spawned call continues.
    ApartAtOnce,
    /// Another strand executes the continuation after the spawned call has ended.
    ApartAtJoin,
}

/// The run did not finish: it was too deep, or had too many events.
#[derive(Clone, Copy)]
pub struct Lost;

/// How a strand continues.
#[derive(Clone, Copy)]
pub enum Pace {
    /// To its next event.
    ToEvents,
    /// By one instruction at a time.
    ByOne,
    /// By at most this number of instructions with its spawns in place, and then to its next event.
    InPlace(u64),
}

/// The decisions for a run.
#[derive(Clone, Copy)]
pub struct Way<'a> {
    /// The fates of its continuations, in the order in which they are handed out, repeated.
    pub fates: &'a [Fate],
    /// Whether a strand is asked for its end before it continues.
    pub asks_ends: bool,
    /// How a strand continues.
    pub pace: Pace,
}

/// The moment at which a run is interrupted.
#[derive(Clone, Copy)]
pub struct Break {
    /// The strand that hands out the continuation of this number stops then. The numbers begin at 1; 0 stops no
    /// strand.
    pub rest: u64,
    /// Whether the strand is given up; otherwise it runs out of memory.
    pub is_given_up: bool,
}

/// No strand stops.
pub const WHOLE: Break = Break {
    rest: 0,
    is_given_up: false,
};

// A run in progress.
#[derive(Drop)]
struct Guide<'a> {
    // The allocator of its strands.
    alloc: Global,
    // The decisions for it.
    way: Way<'a>,
    // The index of the next continuation's fate.
    turn: usize,
    // The moment at which it is interrupted, counted from the next continuation.
    broken: Break,
}

// The maximum depth of nested strands, and the maximum number of events of a strand between two of its spawns.
const MOST_DEPTH: u32 = 64;

const MOST_EVENTS: u32 = 1000;

// Returns the fate of the next continuation.
fn next_fate(guide: &mut Guide) -> Fate {
    let fate = guide.way.fates.get(guide.turn).copied();
    guide.turn = guide.turn.wrapping_add(1);
    if guide.turn >= guide.way.fates.len() {
        guide.turn = 0;
    }
    fate.unwrap_or(Fate::TakenBack)
}

// Returns whether the strand that has just handed out a continuation stops.
fn stops_now(guide: &mut Guide) -> bool {
    guide.broken.rest = guide.broken.rest.wrapping_sub(1);
    guide.broken.rest == 0
}

// Stops a strand.
fn break_off(strand: &mut Strand, is_given_up: bool)
    requires running { IsRunning strand.old }
    ensures of { strand.new.of ≡ strand.old.of }
    ensures running { IsRunning strand.new }
    ensures outs { outs strand.new ≡ outs strand.old }
{
    if is_given_up {
        strand.give_up();
    } else {
        strand.fail();
    }
}

/// Returns a continuation that was not executed to its join.
pub fn come_back(strand: &mut Strand, job: Job)
    requires running { IsRunning strand.old }
    requires at_sync { IsAtSync strand.old }
    requires out { (others : List jobs.Job) × (outs strand.old ≡ job ∷ others) }
    ensures of { strand.new.of ≡ strand.old.of }
    ensures running { IsRunning strand.new }
    ensures outs { job ∷ outs strand.new ≡ outs strand.old }
{
    if strand.stopped() {
        strand.skip(job);
    } else {
        strand.take_back(job);
    }
}

// Gives the effect of a continuation that another strand executed to its join.
fn come_in(strand: &mut Strand, job: Snapshot<Job>, effect: Effect)
    requires running { IsRunning strand.old }
    requires at_sync { IsAtSync strand.old }
    requires out { (others : List jobs.Job) × (outs strand.old ≡ job.value ∷ others) }
    requires means { IsMeaningOf job.value effect }
    ensures of { strand.new.of ≡ strand.old.of }
    ensures running { IsRunning strand.new }
    ensures outs { job.value ∷ outs strand.new ≡ outs strand.old }
{
    strand.give(effect);
}

// Continues a strand by one instruction at most.
fn one_on(strand: &mut Strand) -> Option<Step>
    requires running { IsRunning strand.old }
    ensures of { strand.new.of ≡ strand.old.of }
    ensures none { result ≡ None → IsRunning strand.new × (outs strand.new ≡ outs strand.old) }
    ensures some { IfSome result (λ step. KeptBy step strand.old strand.new) }
{
    match strand.advance() {
        Advance::Ran => None,
        Advance::Came(step) => Some(step),
    }
}

// Continues a strand by at most `most` instructions, with its spawns in place.
fn in_place(strand: &mut Strand, most: u64) -> Option<Step>
    requires running { IsRunning strand.old }
    ensures of { strand.new.of ≡ strand.old.of }
    ensures none { result ≡ None → IsRunning strand.new × (outs strand.new ≡ outs strand.old) }
    ensures some { IfSome result (λ step. KeptBy step strand.old strand.new) }
{
    match strand.next_event(most, Spawns::InPlace) {
        Event::Ran => None,
        Event::AtSync => Some(Step::AtSync),
        Event::AtEnd(end) => Some(Step::Ended(strand.effect_at(end))),
        Event::Spawned(_) => unreachable!(),
    }
}

// Continues a strand at this pace, which may reach no event.
fn step(strand: &mut Strand, pace: Pace) -> Option<Step>
    requires running { IsRunning strand.old }
    ensures of { strand.new.of ≡ strand.old.of }
    ensures none { result ≡ None → IsRunning strand.new × (outs strand.new ≡ outs strand.old) }
    ensures some { IfSome result (λ step. KeptBy step strand.old strand.new) }
{
    match pace {
        Pace::ToEvents => Some(strand.go()),
        Pace::ByOne => one_on(strand),
        Pace::InPlace(most) => match in_place(strand, most) {
            Some(step) => Some(step),
            None => Some(strand.go()),
        },
    }
}

// Executes a job by another strand.
#[cycle(driving)]
fn run_apart(guide: &mut Guide, depth: u32, job: Job) -> Result<Effect, Lost>
    ensures { IfOk result (λ effect. IsMeaningOf job effect) }
{
    match Strand::start(guide.alloc, job) {
        Ok(strand) => {
            let mut strand = strand;
            match go_on(guide, depth, &mut strand)? {
                Some(effect) => Ok(effect),
                None => Err(Lost),
            }
        }
        Err(back) => Ok(back.give_up()),
    }
}

// Continues a strand to the join of the newest continuation that is out, or to its end.
#[cycle(driving)]
fn go_on(guide: &mut Guide, depth: u32, strand: &mut Strand) -> Result<Option<Effect>, Lost>
    requires running { IsRunning strand.old }
    ensures of { strand.new.of ≡ strand.old.of }
    ensures ends { IfOk result (λ came. IfSome came (λ e. KeptBy (step.Ended e) strand.old
        strand.new)) }
    ensures running { IfOk result (λ came. came ≡ None → IsRunning strand.new) }
    ensures outs { IfOk result (λ came. came ≡ None → outs strand.new ≡ outs strand.old) }
    ensures waits { IfOk result (λ came. came ≡ None → IsAtSync strand.new) }
{
    if depth == 0 {
        return Err(Lost);
    }
    for _ in 0..MOST_EVENTS {
        if guide.way.asks_ends {
            if let Some(effect) = strand.end() {
                return Ok(Some(effect));
            }
        }
        match step(strand, guide.way.pace) {
            None => {}
            Some(step) => match step {
                Step::Spawned(job) => see_to(guide, depth - 1, strand, job)?,
                Step::AtSync => return Ok(None),
                Step::Ended(effect) => return Ok(Some(effect)),
            },
        }
    }
    Err(Lost)
}

// Continues a strand to the join of the continuation that it has just handed out.
#[cycle(driving)]
fn go_to_join(guide: &mut Guide, depth: u32, strand: &mut Strand) -> Result<(), Lost>
    requires running { IsRunning strand.old }
    ensures of { strand.new.of ≡ strand.old.of }
    ensures running { IfOk result (λ _. IsRunning strand.new) }
    ensures outs { IfOk result (λ _. outs strand.new ≡ outs strand.old) }
    ensures at_sync { IfOk result (λ _. IsAtSync strand.new) }
{
    match go_on(guide, depth, strand)? {
        Some(_) => Err(Lost),
        None => Ok(()),
    }
}

// Treats a continuation that was handed out according to its fate, until it is no longer out.
#[cycle(driving)]
fn see_to(guide: &mut Guide, depth: u32, strand: &mut Strand, job: Job) -> Result<(), Lost>
    requires running { IsRunning strand.old }
    requires out { (others : List jobs.Job) × (outs strand.old ≡ job ∷ others) }
    ensures of { strand.new.of ≡ strand.old.of }
    ensures running { IfOk result (λ _. IsRunning strand.new) }
    ensures outs { IfOk result (λ _. job ∷ outs strand.new ≡ outs strand.old) }
{
    let of = Snapshot::of(&job);
    let fate = next_fate(guide);
    if stops_now(guide) {
        break_off(strand, guide.broken.is_given_up);
    }
    match fate {
        Fate::TakenBack => {
            go_to_join(guide, depth, strand)?;
            come_back(strand, job);
        }
        Fate::ApartAtOnce => {
            let effect = run_apart(guide, depth, job)?;
            go_to_join(guide, depth, strand)?;
            come_in(strand, of, effect);
        }
        Fate::ApartAtJoin => {
            go_to_join(guide, depth, strand)?;
            let effect = run_apart(guide, depth, job)?;
            come_in(strand, of, effect);
        }
    }
    Ok(())
}

/// Returns the effect of a job that is executed on one thread with these decisions, and interrupted at `broken`.
///
/// # Errors
///
/// `Lost` if the run was too deep or had too many events.
pub fn run_so(alloc: Global, job: Job, way: &Way, broken: Break) -> Result<Effect, Lost>
    ensures { IfOk result (λ effect. IsMeaningOf job effect) }
{
    let mut guide = Guide {
        alloc,
        way: *way,
        turn: 0,
        broken,
    };
    run_apart(&mut guide, MOST_DEPTH, job)
}
