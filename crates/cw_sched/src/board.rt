//! The board: the jobs that workers have offered and nobody has taken, and the effects that wait in their cells.

ghost use Rattle.std.specs.Prelude.{◌≡◌, ◌≢◌, ◌<◌, None, Some, length, is_some, IfOk, IfErr, OnOk, OnErr};
ghost use Rattle.std.specs.Vec.{vec_len, vec_capacity};
ghost use Rattle.cw_sched.specs.core.Board.{of_worker, oldest};
ghost use Rattle.cw_sched.specs.Boards.{boarded, newest_number, cell_of, retaken, stolen, collected, opened, returned};
ghost use Rattle.cw_sched.specs.Boards.{HasOffered, HasRoomAt, HasSettled, IsCellAt, IsDequeFull, IsFull, IsNewest};

use cw_jobs::effect::Effect;
use cw_jobs::job::Job;
use std::alloc::{AllocError, Global};
use std::collections::VecDeque;

/// A job that was offered, with its number.
#[derive(Drop)]
pub struct Offer {
    pub(crate) number: usize,
    pub(crate) job: Job,
}

/// The effect of a job that was stolen, with the job's number.
#[derive(Drop)]
pub struct Cell {
    pub(crate) number: usize,
    pub(crate) effect: Effect,
}

/// The deques of all workers, and the cells.
#[derive(Drop)]
pub struct Board {
    /// Each worker's deque, the oldest first.
    pub(crate) lists: Vec<VecDeque<Offer>>,
    /// The effects that wait to be collected.
    pub(crate) cells: Vec<Cell>,
}

impl Board {
    /// Makes the board of this many workers, with nothing offered.
    pub(crate) fn open(alloc: Global, workers: usize) -> Result<Board, AllocError>
        ensures { IfOk result (λ b. boarded b ≡ opened workers) }
    {
        let mut lists = Vec::with_capacity(alloc, workers)?;
        for _ in 0..workers {
            lists.push_reserved(VecDeque::new(alloc));
        }
        Ok(Board {
            lists,
            cells: Vec::new(alloc),
        })
    }

    /// Returns the number at the back of a worker's deque.
    pub(crate) fn newest(&self, w: usize) -> Option<usize>
        ensures { result ≡ newest_number (boarded self.now) w }
    {
        match self.lists.get(w) {
            Some(list) => match list.back() {
                Some(offer) => Some(offer.number),
                None => None,
            },
            None => None,
        }
    }

    /// Returns whether a job can be stolen from a worker.
    pub(crate) fn has_offer(&self, w: usize) -> bool
        ensures { result ≡ is_some (oldest (of_worker (boarded self.now).offers w)) }
    {
        match self.lists.get(w) {
            Some(list) => !list.is_empty(),
            None => false,
        }
    }

    /// Returns the index of the cell of a number, if its effect waits there.
    pub(crate) fn cell(&self, number: usize) -> Option<usize>
        ensures { result ≡ cell_of (boarded self.now) number }
    {
        self.cells.iter().position(|cell| cell.number == number)
    }

    /// Pushes a job to the back of a worker's deque. If memory runs out, the error returns the job, and the board is
    /// unchanged.
    pub(crate) fn offer(&mut self, w: usize, number: usize, job: Job) -> Result<(), Job>
        requires worker { w < length self.old.lists.items }
        ensures offered { OnOk result (HasOffered self.old w number job self.new) }
        ensures full { OnErr result (IsDequeFull self.old w) }
        ensures same { OnErr result (boarded self.new ≡ boarded self.old) }
        ensures back { IfErr result (λ back. back ≡ job) }
    {
        match self.lists[w].push_back(Offer { number, job }) {
            Ok(()) => Ok(()),
            Err(refused) => Err(refused.value.job),
        }
    }

    /// Pops the job with this number, which is at the back of a worker's deque.
    pub(crate) fn retake(&mut self, w: usize, number: usize) -> Job
        requires { newest_number (boarded self.old) w ≡ Some number }
        ensures job { IsNewest (boarded self.old) w number result }
        ensures retaken { boarded self.new ≡ retaken (boarded self.old) w }
    {
        match self.lists[w].pop_back() {
            Some(offer) => offer.job,
            None => unreachable!(),
        }
    }

    /// Pops the job at the front of a worker's deque, for a thief.
    pub(crate) fn steal(&mut self, v: usize) -> Offer
        requires { oldest (of_worker (boarded self.old).offers v) ≢ None }
        ensures oldest { oldest (of_worker (boarded self.old).offers v) ≡ Some result }
        ensures stolen { boarded self.new ≡ stolen (boarded self.old) v }
        ensures room { HasRoomAt self.new v }
    {
        match self.lists[v].pop_front() {
            Some(offer) => offer,
            None => unreachable!(),
        }
    }

    /// Returns a stolen job to the front of the deque, because the thief could not begin it.
    pub(crate) fn unsteal(&mut self, v: usize, offer: Offer)
        requires { HasRoomAt self.old v }
        ensures { boarded self.new ≡ returned (boarded self.old) v offer }
    {
        self.lists[v].push_front_reserved(offer);
    }

    /// Makes room for one more effect.
    pub(crate) fn room_to_settle(&mut self) -> Result<(), AllocError>
        ensures same { boarded self.new ≡ boarded self.old }
        ensures room { OnOk result (vec_len self.new.cells < vec_capacity self.new.cells) }
        ensures full { OnErr result (IsFull self.old.cells) }
    {
        self.cells.reserve(1)
    }

    /// Puts the effect of a stolen job into its cell.
    pub(crate) fn settle(&mut self, number: usize, effect: Effect)
        requires { vec_len self.old.cells < vec_capacity self.old.cells }
        ensures { HasSettled self.old number effect self.new }
    {
        self.cells.push_reserved(Cell { number, effect });
    }

    /// Takes the effect of a number out of the cell at this index.
    pub(crate) fn collect(&mut self, place: usize, number: usize) -> Effect
        requires { cell_of (boarded self.old) number ≡ Some place }
        ensures cell { IsCellAt (boarded self.old) place number result }
        ensures collected { boarded self.new ≡ collected (boarded self.old) place }
    {
        let Cell { number: _, effect } = self.cells.remove(place);
        effect
    }
}
