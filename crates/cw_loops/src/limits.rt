//! The limit on the number of loops.

ghost use Rattle.std.specs.Prelude.{◌≡◌, ◌∷◌, [], None};
ghost use Rattle.cw_model.specs.Lines.{lowest};
ghost use Rattle.cw_model.specs.Sizes.{loop_faults};
ghost use Rattle.cw_text.specs.AreRecorded.{AreRecorded, TakesRoom};
ghost use Rattle.cw_tree.specs.ResolvedView.{program_of};
ghost use Rattle.cw_loops.specs.LoopLines.{lines_in, lines_in_block, loops_past};

use cw_model::limits::MOST_LOOPS;
use cw_text::LeastLine;
use cw_tree::resolved::{Function, Line, Stmt, Tree};

/// Returns the least line of the loops past the limit: the 4,097th loop by place and the loops after it.
pub(crate) fn limits(tree: &Tree) -> LeastLine
    ensures { result.line ≡ lowest None (loop_faults (program_of tree.now)) }
{
    let mut least = LeastLine::new();
    functions_beyond(&tree.functions, &mut least);
    least
}

// Records the lines of the loops of these functions that exceed the limit.
fn functions_beyond(functions: &[Function], least: &mut LeastLine)
    ensures { AreRecorded (loops_past functions.now) least.old least.new }
{
    let mut room = MOST_LOOPS;
    for function in functions {
        room = block_beyond(room, &function.body, least);
    }
}

// Records the lines of the loops of these statements that have no room, and returns the room that is left after them.
#[cycle(counting)]
fn block_beyond(room: usize, lines: &[Line], least: &mut LeastLine) -> usize
    ensures { TakesRoom room result (lines_in_block lines.now) least.old least.new }
{
    let mut left = room;
    for line in lines {
        left = statement_beyond(left, line.line, &line.stmt, least);
    }
    left
}

// Records the lines of the loops of a statement that have no room, and returns the room that is left after them.
#[cycle(counting)]
fn statement_beyond(room: usize, line: u32, stmt: &Stmt, least: &mut LeastLine) -> usize
    ensures { TakesRoom room result (lines_in line stmt.now) least.old least.new }
{
    match stmt {
        Stmt::If(_, b)
        | Stmt::While(_, b)
        | Stmt::Scope(b)
        | Stmt::Cut(_, b)
        | Stmt::Region(_, b) => { block_beyond(room, b, least) }
        Stmt::IfElse(_, b, c) => {
            let left = block_beyond(room, b, least);
            block_beyond(left, c, least)
        }
        Stmt::For(_, b) => {
            let left = least.record_past(room, line);
            block_beyond(left, b, least)
        }
        Stmt::Declare(_, _)
        | Stmt::DeclareArray(_, _)
        | Stmt::Assign(_, _)
        | Stmt::AssignElement(_, _, _)
        | Stmt::Reduce(_, _, _)
        | Stmt::Call(_)
        | Stmt::Sync
        | Stmt::Print(_)
        | Stmt::Return(_) => room,
    }
}
