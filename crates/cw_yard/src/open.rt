//! The opening of a yard.
ghost use Rattle.std.specs.Prelude.{◌≡◌, ◌≤◌, ◌<◌, ◌+◌, ◌*◌, ◌^◌, ℕ, [], ◌∷◌, length, slice_get, IfOk, Some, MatchResult, vec_capacity};
ghost use Rattle.crossbeam_deque.specs.Handles.{stealer_deque, worker_deque};
ghost use Rattle.crossbeam_utils.specs.Padded.{padded_value};
ghost use Rattle.cw_yard.specs.declared.view.CellView.TheVariants.{Rest};
ghost use Rattle.cw_yard.specs.Marks.{IsWatchOf};
ghost use Rattle.cw_facts.specs.Lists.{Each};
ghost use Rattle.cw_yard.specs.Seats.{table_of, workers_of};
ghost use Rattle.cw_yard.specs.Opened as opened;
ghost use Rattle.cw_yard.specs.Opened.{AreSeats, IsOpened, IsRejected};
ghost use Rattle.cw_yard.specs.Opens.{IsFresh, AllRest, ServesDeques, IsPart, ArePasses, AreStealersOf};

use crate::cells::{Cells, Token};
use crate::deque::{OwnDeque, ThiefPass, Victim};
use crate::left::Spare;
use crate::mark::Watch;
use crate::seat::{Seat, Yard};
use crate::ticket::FreeCell;
use crate::{deque, mark};
use crossbeam_utils::CachePadded;
use crossbeam_utils::sync::EventCount;
use cw_model::limits::MOST_WORKERS;
use cw_text::Fault;
use std::alloc::{AllocError, Global};

/// The maximum number of cells of a worker.
pub const MOST_CELLS: usize = 4_096;

/// The number of cells that are never opened. The first of them mark the deques. Each split and each join of a token
/// loads word 0, so no one may write its cache line.
const RESERVED: usize = 64;

/// The maximum number of jobs for which a deque has room at first. A deque grows.
const FIRST_ROOM: usize = 32;

/// The parts of a seat except its deque.
#[derive(Drop)]
pub struct Part {
    free: Vec<FreeCell>,
    passes: Vec<ThiefPass>,
    watch: Watch,
    spare: Spare,
}

// Returns a deque marked by the next cell's token.
fn marked_deque(
    alloc: Global,
    table: &Cells,
    all: &mut Token,
    next: usize,
    room: usize,
) -> Result<OwnDeque, AllocError>
    requires { AllRest table.now.table_id all.old next × (next < table.now.table_id.slots) }
    ensures rest { AllRest table.now.table_id all.new (next + 1) }
    ensures fresh { IfOk result (λ w. IsFresh table.now.table_id w) }
{
    let mark = crate::cells::cut(table, all, next);
    deque::new(alloc, room, mark)
}

// Returns `workers` deques.
fn deques(
    alloc: Global,
    table: &Cells,
    all: &mut Token,
    workers: usize,
    room: usize,
) -> Result<Vec<OwnDeque>, AllocError>
    requires { AllRest table.now.table_id all.old 0 × (workers ≤ table.now.table_id.slots) }
    ensures { IfOk result (λ v. AllRest table.now.table_id all.new workers
        × (length v.items ≡ workers) × Each (IsFresh table.now.table_id) v.items) }
{
    let mut owns = Vec::with_capacity(alloc, workers)?;
    let mut k = 0;
    while k < workers {
        owns.push(marked_deque(alloc, table, all, k, room)?)?;
        k += 1;
    }
    Ok(owns)
}

// Drops the reserved cells that mark nothing.
fn pass_by(table: &Cells, all: &mut Token, from: usize, to: usize)
    requires { AllRest table.now.table_id all.old from × (to ≤ table.now.table_id.slots)
        × (from ≤ to) }
    ensures { AllRest table.now.table_id all.new to }
{
    let mut k = from;
    while k < to {
        drop(crate::cells::cut(table, all, k));
        k += 1;
    }
}

// Returns a stealer of each deque.
fn stealers(alloc: Global, owns: &Vec<OwnDeque>) -> Result<Vec<CachePadded<Victim>>, AllocError>
    ensures { IfOk result (λ v. AreStealersOf owns.now.items v.items) }
{
    let mut made = Vec::with_capacity(alloc, owns.len())?;
    let mut k = 0;
    while k < owns.len() {
        let stealer = owns[k].stealer()?;
        made.push(CachePadded::new(stealer))?;
        k += 1;
    }
    Ok(made)
}

// Returns `count` free cells.
fn free_cells(
    alloc: Global,
    table: &Cells,
    all: &mut Token,
    from: usize,
    count: usize,
) -> Result<Vec<FreeCell>, AllocError>
    requires { AllRest table.now.table_id all.old from × (from + count ≤ table.now.table_id.slots)
        × (from + count < 2 ^ 60) }
    ensures { IfOk result (λ v. AllRest table.now.table_id all.new (from + count)
        × (length v.items ≡ count) × Each (λ f. f.token.table_id ≡ table.now.table_id) v.items
        × (count ≤ vec_capacity v)) }
{
    let mut cells = Vec::with_capacity(alloc, count)?;
    let mut k = 0;
    while k < count {
        let cell = from + k;
        let token = crate::cells::cut(table, all, cell);
        cells.push(FreeCell { cell, token })?;
        k += 1;
    }
    Ok(cells)
}

// Returns a pass for each deque.
fn passes(
    alloc: Global,
    yard: &Yard,
    owns: &mut Vec<OwnDeque>,
) -> Result<Vec<ThiefPass>, AllocError>
    requires { ServesDeques yard.now owns.old.items }
    ensures deques { ServesDeques yard.now owns.new.items }
    ensures passes { IfOk result (λ v. ArePasses yard.now v.items) }
{
    let mut made = Vec::with_capacity(alloc, owns.len())?;
    let mut k = 0;
    while k < owns.len() {
        let own = &mut owns[k];
        made.push(deque::guest(own))?;
        k += 1;
    }
    Ok(made)
}

#[tactic(auto, using(crate::proofs::Openings::room, crate::proofs::Openings::next_room))]
// Returns the parts of each seat.
fn parts(
    alloc: Global,
    yard: &Yard,
    all: &mut Token,
    owns: &mut Vec<OwnDeque>,
    watch: &mut Watch,
    cells: usize,
) -> Result<Vec<Part>, AllocError>
    requires { ServesDeques yard.now owns.old.items × AllRest (table_of yard.now) all.old 64
        × (64 + workers_of yard.now * cells ≤ (table_of yard.now).slots)
        × (64 + workers_of yard.now * cells < 2 ^ 60)
        × IsWatchOf yard.now.mark.shared.table_id watch.old }
    ensures deques { ServesDeques yard.now owns.new.items }
    ensures parts { IfOk result (λ v. (length v.items ≡ workers_of yard.now)
        × Each (IsPart yard.now cells) v.items) }
{
    let workers = owns.len();
    let mut made = Vec::with_capacity(alloc, workers)?;
    let mut k = 0;
    let mut from = RESERVED;
    while k < workers {
        let free = free_cells(alloc, &yard.table.shared, all, from, cells)?;
        let passes = passes(alloc, yard, owns)?;
        let watch = mark::another(&yard.mark.shared, watch);
        let spare = Spare::new(alloc)?;
        made.push(Part {
            free,
            passes,
            watch,
            spare,
        })?;
        from += cells;
        k += 1;
    }
    Ok(made)
}

// Joins each deque with its parts. The last one comes first.
fn seats(
    alloc: Global,
    yard: &Yard,
    mut owns: Vec<OwnDeque>,
    mut parts: Vec<Part>,
    _cells: usize,
) -> Result<Vec<Seat>, AllocError>
    requires deques { ServesDeques yard.now owns.items }
    requires parts { (length parts.items ≡ workers_of yard.now)
        × Each (IsPart yard.now _cells) parts.items }
    ensures { IfOk result (λ v. AreSeats yard.now _cells v.items) }
{
    let mut made = Vec::with_capacity(alloc, owns.len())?;
    while let Some(own) = owns.pop() {
        let Some(
            Part {
                free,
                passes,
                watch,
                spare,
            },
        ) = parts.pop()
        else {
            unreachable!()
        };
        made.push(Seat {
            own,
            free,
            passes,
            watch,
            spare,
        })?;
    }
    Ok(made)
}

fn open_all(alloc: Global, workers: usize, cells: usize) -> Result<(Yard, Vec<Seat>), AllocError>
    requires { (workers ≤ 64) × (cells ≤ 4096) }
    ensures { IfOk result (λ r. (workers_of r.0 ≡ workers) × AreSeats r.0 cells r.1.items) }
{
    let (table, mut all) = crate::cells::new(alloc, RESERVED + workers * cells)?;
    let mut owns = deques(
        alloc,
        &table.shared,
        &mut all,
        workers,
        cells.min(FIRST_ROOM),
    )?;
    pass_by(&table.shared, &mut all, workers, RESERVED);
    let (mark, mut watch) = mark::unmarked(alloc)?;
    let stealers = stealers(alloc, &owns)?;
    let yard = Yard {
        table,
        mark,
        stealers,
        bell: CachePadded::new(EventCount::new()),
    };
    let parts = parts(alloc, &yard, &mut all, &mut owns, &mut watch, cells)?;
    let seats = seats(alloc, &yard, owns, parts, cells)?;
    Ok((yard, seats))
}

// Returns whether a yard may have `workers` workers with `cells` cells each.
fn is_asked(workers: usize, cells: usize) -> bool
    ensures { result ≡ opened.is_asked workers cells }
{
    1 <= workers && workers <= MOST_WORKERS && 1 <= cells && cells <= MOST_CELLS
}

impl Yard {
    /// Opens a yard for `workers` workers, 1 to 64, with `cells` cells each, 1 to 4,096. Returns the yard and the
    /// seats of the workers; the seat of worker 0 is the last. A worker can have up to `cells` jobs that it offered
    /// and neither took back nor collected.
    ///
    /// # Errors
    ///
    /// `Fault::Arguments` exactly if one of the numbers is out of its range; otherwise `Fault::Memory`, if there is
    /// not enough memory.
    pub fn open(alloc: Global, workers: usize, cells: usize) -> Result<(Yard, Vec<Seat>), Fault>
        ensures { MatchResult result (λ r. IsOpened workers cells r.0 r.1.items)
            (IsRejected workers cells) }
    {
        if !is_asked(workers, cells) {
            return Err(Fault::Arguments);
        }
        match open_all(alloc, workers, cells) {
            Ok(opened) => Ok(opened),
            Err(_) => Err(Fault::Memory),
        }
    }
}
