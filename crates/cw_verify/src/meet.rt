//! Merges the abstract state that flows to a pc into the one that the pc has.

ghost use Rattle.std.specs.Prelude.{◌≡◌};
ghost use Rattle.cw_verify.specs.Table as table;
ghost use Rattle.cw_verify.specs.Views as views;
ghost use Rattle.cw_verify.specs.Steps as steps;

use crate::found::Found;
use crate::meeting::{Meeting, meets};
use crate::round::shared_each;
use crate::row::shared_either;
use cw_text::Fault;
use std::alloc::Global;

// Returns whether two states can be merged at one pc, given how their blocks meet.
fn can_meet(there: &Found, found: &Found, meeting: Meeting) -> bool
    requires { meeting ≡ views.meeting_of there.now.outer.value found.now.outer.value }
    ensures { result ≡ table.can_meet (table.shape_view there.now) (table.shape_view found.now) }
{
    let empty = there.empty.len() == found.empty.len();
    let gone = there.gone.len() == found.gone.len();
    let frozen = there.frozen.len() == found.frozen.len();
    there.operands == found.operands && (((empty && gone) && frozen) && meets(meeting))
}

/// Merges `found` into the state `there` of a pc, given how their blocks meet. Returns the merged state, and whether
/// it marks more than `there`.
///
/// # Errors
///
/// `Fault::Code` if the two cannot be merged, `Fault::Memory` if there is not enough memory.
pub fn join(
    alloc: Global,
    there: Found,
    found: &Found,
    meeting: Meeting,
) -> Result<(Found, bool), Fault>
    requires { meeting ≡ views.meeting_of there.outer.value found.now.outer.value }
    ensures { steps.Meets there found.now result }
{
    if !can_meet(&there, found, meeting) {
        return Err(Fault::Code);
    }
    let (empty, more_empty) = shared_either(alloc, there.empty, &found.empty)?;
    let (gone, more_gone) = shared_either(alloc, there.gone, &found.gone)?;
    let (frozen, more_frozen) = shared_either(alloc, there.frozen, &found.frozen)?;
    let (outer, more_outer) = shared_each(alloc, there.outer, &found.outer, meeting)?;
    let joined = Found {
        operands: there.operands,
        empty,
        gone,
        frozen,
        outer,
    };
    Ok((
        joined,
        ((more_empty | more_gone) | more_frozen) | more_outer,
    ))
}
