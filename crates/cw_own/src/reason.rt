//! The rules of ownership that a statement or the end of a block can break.

use cw_tree::resolved::{Listed, Use};

/// Represents a use of a name by a statement.
#[derive(Clone, Copy)]
pub enum Touch {
    Read,
    Written,
    Passed,
    Cut,
    NamedInOver,
}

/// Represents the holder of a name: a spawn, for its result, for an array that it is given or for an array that it
/// only reads; or a cut.
#[derive(Clone, Copy)]
pub enum Holder {
    Result,
    Argument,
    Reader,
    Cut,
}

/// Represents the start of holding a name.
#[derive(Clone, Copy)]
pub struct Start {
    pub line: u32,
    /// Whether the holder is a spawn of an enclosing sync block, which a `cilk_sync` at the use does not join.
    pub is_around: bool,
}

/// Represents a broken rule of ownership, with the names that break it.
#[derive(Clone, Copy)]
pub enum Disowned<'a> {
    /// A name is touched while it is held; the start is known for the watched local.
    Restrictions(&'a Use, Touch, Holder, Option<Start>),
    /// A name of a block is still held at the end of the block; the start is known for the watched local.
    EndsHeld(&'a Use, Holder, Option<Start>),
    /// A call gives this function one array twice.
    GivenTwice(&'a Use, &'a Listed),
    /// A call gives an array to this function, and also passes it to be read.
    GivenAndRead(&'a Use, &'a Listed),
    /// A loop is over the same array twice.
    OverTwice(&'a Use),
    /// The body of a loop writes an outer integer or the variable of the loop; the line is the line of the loop's
    /// head.
    OuterWritten(&'a Use, u32),
    /// The body of a loop touches an outer array that is not an array of the loop; the line is the line of the loop's
    /// head.
    OuterArray(&'a Use, Touch, u32),
    /// The body of a loop touches an array of the loop other than at this variable, the index of the iteration; the
    /// line is the line of the loop's head.
    OtherElement(&'a Use, Touch, &'a Use, u32),
}
