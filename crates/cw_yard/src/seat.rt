//! The types of a yard and of a seat.
ghost use Rattle.std.specs.Prelude.{◌≡◌, ◌+◌};

use crate::cells::CellTable;
use crate::deque::{OwnDeque, ThiefPass, Victim};
use crate::left::Spare;
use crate::mark::{MarkTable, Watch};
use crate::ticket::FreeCell;
use crossbeam_utils::CachePadded;
use crossbeam_utils::sync::EventCount;

/// The place where workers exchange jobs and effects, shared by all workers: the cells, the end mark, a stealer of
/// each worker's deque, and the bell that wakes a worker that waits for any of these.
#[derive(Drop)]
pub struct Yard {
    pub(crate) table: CellTable,
    pub(crate) mark: MarkTable,
    pub(crate) stealers: Vec<CachePadded<Victim>>,
    pub(crate) bell: CachePadded<EventCount>,
    ghost words: { table.shared.table_id.words ≡ table.shared.table_id.slots + 1 },
}

/// A worker's handle at a yard, owned by that worker: its deque, its free cells, a pass for each worker's deque, its
/// token of the end mark, and memory for an effect.
#[derive(Drop)]
pub struct Seat {
    pub(crate) own: OwnDeque,
    pub(crate) free: Vec<FreeCell>,
    pub(crate) passes: Vec<ThiefPass>,
    pub(crate) watch: Watch,
    pub(crate) spare: Spare,
}
