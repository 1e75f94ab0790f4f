//! The innermost loop around a statement.

ghost use Rattle.std.specs.Prelude.{◌≡◌, map, option_map, true};
ghost use Rattle.std.specs.List.{list_all};
ghost use Rattle.cw_tree.specs.ResolvedView.{use_of, head_of};
ghost use Rattle.cw_own.specs.Bounds.{is_small};
ghost use Rattle.cw_own.specs.Sets.{row_of};
ghost use Rattle.cw_own.specs.Rules.{with_uses};
ghost use Rattle.cw_own.specs.Reasons.{named, turn_in, head_in};
ghost use Rattle.cw_own.specs.Views.{set_of, turn_of, around_of};

use crate::bits::Bits;
use crate::row::Row;
use cw_tree::resolved::{Head, Use};

/// Represents a loop: the locals outside its body together with its variable, that variable, the arrays of the loop,
/// which the head of an inner loop must not name, and the line of the loop's head.
#[derive(Clone, Copy)]
pub struct Loop<'a> {
    pub outer: Row,
    pub variable: &'a Use,
    pub over: Bits,
    pub in_head: bool,
    pub line: u32,
}

impl<'a> Loop<'a> {
    /// Returns the loop with this head in this line; `known` are the locals known before it.
    pub fn new(line: u32, head: &'a Head, known: &Row) -> Loop<'a>
        requires variable { is_small (use_of head.now.variable) ≡ true }
        requires over { list_all is_small (map use_of head.now.over.items) ≡ true }
        ensures { turn_of result ≡ turn_in line (head_of head.now) (row_of known.now) }
    {
        let mut outer = *known;
        outer.add_int(head.variable.slot);
        Loop {
            outer,
            variable: &head.variable,
            over: with_uses(Bits::none(), &head.over),
            in_head: false,
            line,
        }
    }

    /// Reports whether an array is one of the loop's arrays that may be named here.
    pub fn may_name(&self, slot: u32) -> bool
        ensures { result ≡ named (turn_of self.now) slot }
    {
        !self.in_head && self.over.has(slot)
    }
}

// Adds the slots of these uses to a set.
fn with_uses(set: Bits, uses: &[Use]) -> Bits
    requires { list_all is_small (map use_of uses.now) ≡ true }
    ensures { set_of result ≡ with_uses (map use_of uses.now) (set_of set) }
{
    let mut set = set;
    for used in uses {
        set.add(used.slot);
    }
    set
}

/// Returns the loop as the head of an inner loop sees it: the head must not name its arrays.
pub fn for_head<'a>(around: &Option<Loop<'a>>) -> Option<Loop<'a>>
    ensures { around_of result ≡ option_map head_in (around_of around.now) }
{
    match around {
        None => None,
        Some(outer) => Some(Loop {
            in_head: true,
            ..*outer
        }),
    }
}
