//! The work list of a search: the pcs to visit.

ghost use Rattle.std.specs.Prelude.{◌≡◌, []};
ghost use Rattle.cw_verify.specs.Table as table;
ghost use Rattle.cw_verify.specs.Steps as steps;
ghost use Rattle.cw_verify.specs.Steps.{OrMemory};

use cw_text::Fault;
use std::alloc::Global;
use std::cmp::Reverse;
use std::collections::BinaryHeap;

/// The pcs to visit, by their distance from the first one, in passes. In a pass the nearest pc comes first: in code
/// without loops, all predecessors of a pc are visited before it, so it is visited once.
///
/// What flows back to the head of a loop continues after the loop in the same pass. It continues into the body of the
/// loop in the next pass, when what flows back from all enclosing loops is also known. So nested loops take two
/// passes, and the number of visits to a pc does not grow with the number of loops around it.
#[derive(Drop)]
pub struct WorkList {
    /// The pcs, each after its pass.
    places: BinaryHeap<Reverse<(usize, usize)>>,
    /// The current pass, from 1.
    turn: usize,
    /// For each pc the last pass that visited it, 0 for none.
    visited: Vec<usize>,
}

impl WorkList {
    /// Returns an empty work list for `places` pcs.
    ///
    /// # Errors
    ///
    /// `Fault::Memory` if there is not enough memory.
    pub fn new(alloc: Global, places: usize) -> Result<WorkList, Fault>
        ensures { OrMemory result (λ work. table.pcs_of work ≡ []) }
    {
        let mut visited = Vec::new(alloc);
        for _i in 0..places {
            visited.push(0)?;
        }
        Ok(WorkList {
            places: BinaryHeap::new(alloc),
            turn: 1,
            visited,
        })
    }

    /// Adds a pc. If a branch leads there and the current pass has visited it, the next pass visits it.
    ///
    /// # Errors
    ///
    /// `Fault::Memory` if there is not enough memory.
    pub fn push(&mut self, place: usize, branch: bool) -> Result<(), Fault>
        ensures { steps.Pushes place self.old self.new result }
    {
        let turn = self.turn_of(place, branch);
        self.put(turn, place)
    }

    // Returns the pass that must visit a pc.
    fn turn_of(&self, place: usize, branch: bool) -> usize {
        match self.visited.get(place) {
            Some(turn) if branch && *turn == self.turn => self.turn.saturating_add(1),
            _ => self.turn,
        }
    }

    // Adds a pc to a pass.
    fn put(&mut self, turn: usize, place: usize) -> Result<(), Fault>
        ensures { steps.Pushes place self.old self.new result }
    {
        self.places.push(Reverse((turn, place)))?;
        Ok(())
    }

    /// Removes and returns the nearest pc of the current pass, or of the next one if the current pass is finished.
    pub fn pop(&mut self) -> Option<usize>
        ensures { steps.Pops self.old self.new result }
    {
        match self.take() {
            None => None,
            Some((turn, place)) => {
                self.visit(turn, place);
                Some(place)
            }
        }
    }

    // Removes and returns the nearest pc of the first pass that has one, and that pass.
    fn take(&mut self) -> Option<(usize, usize)>
        ensures { steps.Takes self.old self.new result }
    {
        match self.places.pop() {
            None => None,
            Some(Reverse((turn, place))) => Some((turn, place)),
        }
    }

    // Records that a pass visits a pc.
    fn visit(&mut self, turn: usize, place: usize)
        ensures { table.pcs_of self.new ≡ table.pcs_of self.old }
    {
        self.turn = turn;
        if place < self.visited.len() {
            self.visited[place] = turn;
        }
    }
}
