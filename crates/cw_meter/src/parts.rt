//! The open parts of a run.

/// The kind of an open part of a run.
#[derive(Clone, Copy, Debug, PartialEq, Eq)]
pub enum PartKind {
    /// A plain call.
    Call,
    /// A spawned call.
    SpawnedCall,
    /// The spawned half of a loop.
    Half,
    /// A scope, a cut, or a plain call of a loop's function.
    Quiet,
    /// A region of the tag with this number.
    Region(u32),
}

/// An open part of a run, and the state of its enclosing block.
#[derive(Clone, Copy, Debug, PartialEq, Eq)]
pub struct Part {
    /// Its kind.
    pub kind: PartKind,
    /// The number of the site of the enclosing invocation.
    pub site: u32,
    /// Whether the enclosing block has spawned since its last join.
    pub spawned: bool,
}
