//! The memory of a machine.

ghost use Rattle.std.specs.Prelude.{◌≡◌};
ghost use Rattle.cw_machine.specs.Trims.{KeepsFirst, Trims};

use crate::machine::Machine;
use cw_runnable::verified::Verified;

// The bytes of a cell, of a view and of a frame.
const CELL: usize = 8;

const VIEW: usize = 24;

const FRAME: usize = 40;

// Drops the cells beyond the first `first + many`, unless this sum overflows, and frees the memory that is not used.
fn keep_first(cells: &mut Vec<i64>, first: usize, many: usize)
    ensures { KeepsFirst first many cells.old.items cells.new.items }
{
    let Some(top) = first.checked_add(many) else {
        return;
    };
    cells.truncate(top);
    cells.shrink_to_fit();
}

impl Machine {
    /// Frees the memory that no call uses: cells beyond those that the running call may use, and spare room of the lists. The
    /// machine represents the same states as before.
    #[inline(never)]
    pub fn trim(&mut self, code: &Verified)
        ensures shows { Trims code.now self.old self.new }
        ensures views { self.new.views.items ≡ self.old.views.items }
        ensures blocks { self.new.blocks.items ≡ self.old.blocks.items }
        ensures lines { self.new.lines.items ≡ self.old.lines.items }
    {
        keep_first(&mut self.cells, self.first, code.most_room);
        self.views.shrink_to_fit();
        self.blocks.shrink_to_fit();
        self.frames.shrink_to_fit();
        self.cuts.shrink_to_fit();
    }

    /// Returns the memory of its lists and of the arrays that were made in it, in bytes; of a machine that has more than
    /// `enough`, any number above it. Its first blocks, as many as `given`, are arrays that it was given.
    pub fn bytes(&self, given: usize, enough: usize) -> usize {
        let cells = self.cells.capacity().saturating_mul(CELL);
        let views = self.views.capacity().saturating_mul(VIEW);
        let blocks = self.blocks.list_bytes();
        let frames = self.frames.capacity().saturating_mul(FRAME);
        let mut bytes = cells
            .saturating_add(views)
            .saturating_add(blocks)
            .saturating_add(frames);
        for k in given..self.blocks.count_made() {
            if bytes > enough {
                return bytes;
            }
            bytes = bytes.saturating_add(self.blocks.len_of(k).saturating_mul(CELL));
        }
        bytes
    }
}
