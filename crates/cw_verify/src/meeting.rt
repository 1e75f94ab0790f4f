//! How the enclosing blocks of two states at one pc meet.

ghost use Rattle.std.specs.Prelude.{◌≡◌};
ghost use Rattle.cw_verify.specs.Meetings as meetings;

/// How the blocks of a pc meet the blocks that flow to it.
#[derive(Clone, Copy, Debug, PartialEq, Eq)]
pub enum Meeting {
    /// The blocks cannot be merged: the number of blocks, the cuts that began them or the lengths of their rows
    /// differ.
    Apart,
    /// The new blocks mark nothing more.
    Stays,
    /// The new blocks mark more, and everything that the old ones mark.
    Comes,
    /// Each list of blocks marks something that the other one does not.
    Both,
}

/// Returns whether the blocks can be merged.
pub fn meets(meeting: Meeting) -> bool
    ensures { result ≡ meetings.meets meeting }
{
    match meeting {
        Meeting::Apart => false,
        Meeting::Stays => true,
        Meeting::Comes => true,
        Meeting::Both => true,
    }
}
