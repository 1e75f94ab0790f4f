//! The stored form of the record of a run's strands: each cut with the instructions before it.

/// The event that ends a strand.
#[derive(Debug, Clone, Copy, Drop)]
pub enum Cut {
    /// No event: the strand continues.
    Nothing,
    /// A spawned child begins. The flag is true for the first child of its sync block.
    Spawned(bool),
    /// The spawned child ended, and the continuation of its sync block begins.
    Ended,
    /// All children of the sync block are joined.
    Joined,
    /// A call of a call statement begins or returned.
    Called,
}

/// A number of instructions and the cut after them. Takes 16 bytes.
#[derive(Debug, Clone, Copy, Drop)]
pub struct Entry {
    /// The number of instructions since the previous entry.
    pub before: u64,
    /// The cut after them.
    pub cut: Cut,
}
