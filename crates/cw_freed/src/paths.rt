//! The heaviest paths of a run, without and with charges.

ghost use Rattle.std.specs.Prelude.{◌≡◌, true, OnOk};
ghost use Rattle.cw_measure.specs.StrandWeights.{HasRoomForBlock};
ghost use Rattle.cw_freed.specs.Paths.{EndsBoth, EndsLate, HaveRoom, JoinsBoth, JoinsLate, ReadsBoth, SpawnsBoth, SpawnsLate, StartsBoth};

use cw_measure::BurdenedPath;
use cw_model::burden::{Burden, Edges};
use std::alloc::{AllocError, Global};

/// The heaviest paths of a run so far. Each method takes the number of instructions so far that are not free.
#[derive(Debug, Drop)]
pub(crate) struct Paths {
    /// The charge of the burdened path for a spawn.
    pub burden: Burden,
    /// The path without charges.
    pub plain: BurdenedPath,
    /// The path with the charge for each fork that it goes through.
    pub burdened: BurdenedPath,
}

// Begins a spawned part on one path; `first` says that its block has not spawned since its last join.
#[inline(always)]
fn spawn_on_path(path: &mut BurdenedPath, counted: u64, first: bool) -> Result<(), AllocError>
    ensures { OnOk result (SpawnsLate path.old path.new counted first) }
{
    path.note(counted);
    path.spawn(counted, first)?;
    Ok(())
}

// Begins the first spawned part of a block since its last join on one path. There must be room for it.
#[inline(always)]
fn spawn_first_on_path(path: &mut BurdenedPath, counted: u64)
    requires { HasRoomForBlock path.old }
    ensures { SpawnsLate path.old path.new counted true }
{
    path.note(counted);
    path.spawn_within(counted);
}

// Ends the current spawned part, whose block has joined, on one path.
#[inline(always)]
fn end_on_path(path: &mut BurdenedPath, counted: u64, burden: Burden)
    ensures { EndsLate path.old path.new counted burden }
{
    path.note(counted);
    path.end_child(counted, burden);
}

// Joins a block that has spawned since its last join, on one path.
#[inline(always)]
fn join_on_path(path: &mut BurdenedPath, counted: u64)
    ensures { JoinsLate path.old path.new counted }
{
    path.note(counted);
    path.join(counted);
}

impl Paths {
    /// Returns the paths of a run at its start. Allocates no memory.
    pub fn new(alloc: Global, burden: Burden) -> Paths
        ensures { StartsBoth burden result }
    {
        Paths {
            burden,
            plain: BurdenedPath::new(alloc),
            burdened: BurdenedPath::new(alloc),
        }
    }

    /// Begins a spawned part; `first` says that its block has not spawned since its last join.
    ///
    /// # Errors
    ///
    /// Returns an `AllocError` if memory runs out.
    #[inline(always)]
    pub fn spawn(&mut self, counted: u64, first: bool) -> Result<(), AllocError>
        ensures { OnOk result (SpawnsBoth self.old self.new counted first) }
    {
        spawn_on_path(&mut self.plain, counted, first)?;
        spawn_on_path(&mut self.burdened, counted, first)?;
        Ok(())
    }

    /// Returns whether there is room for a spawned part.
    #[inline(always)]
    pub fn have_room(&self) -> bool
        ensures { result ≡ true → HaveRoom self.now }
    {
        self.plain.has_room() && self.burdened.has_room()
    }

    /// Begins the first spawned part of a block since its last join. There must be room for it.
    #[inline(always)]
    pub fn spawn_first(&mut self, counted: u64)
        requires { HaveRoom self.old }
        ensures { SpawnsBoth self.old self.new counted true }
    {
        spawn_first_on_path(&mut self.plain, counted);
        spawn_first_on_path(&mut self.burdened, counted);
    }

    /// Ends the current spawned part, whose block has joined. It is out of line, so that the loop of a run has room
    /// for plain calls.
    #[inline(never)]
    pub fn end_child(&mut self, counted: u64)
        ensures { EndsBoth self.old self.new counted }
    {
        let free = Burden {
            charge: 0,
            edges: Edges::Spawn,
        };
        end_on_path(&mut self.plain, counted, free);
        end_on_path(&mut self.burdened, counted, self.burden);
    }

    /// Joins a block that has spawned since its last join.
    #[inline(always)]
    pub fn join(&mut self, counted: u64)
        ensures { JoinsBoth self.old self.new counted }
    {
        join_on_path(&mut self.plain, counted);
        join_on_path(&mut self.burdened, counted);
    }

    /// Returns the weights of the heaviest paths without and with charges, if no part is open and the block has
    /// joined.
    pub fn weights(&mut self, counted: u64) -> (u128, u128)
        ensures { ReadsBoth self.old counted result }
    {
        self.plain.note(counted);
        self.burdened.note(counted);
        (self.plain.weight(), self.burdened.weight())
    }
}
