//! Finds the lines that break a rule of ownership.

ghost use Rattle.std.specs.Prelude.{◌≡◌, ◌∷◌, ◌<◌, length, drop, true};
ghost use Rattle.cw_tree.specs.ResolvedView.{use_of, stmt_of, block_of};
ghost use Rattle.cw_own.specs.Bounds.{small_stmt, small_block, is_if_else};
ghost use Rattle.cw_own.specs.Sets.{row_of};
ghost use Rattle.cw_own.specs.Taken.{restrictions_of, joined, taken_of, turns, BeginWith};
ghost use Rattle.cw_own.specs.Reasons.{ends_by, why_left};
ghost use Rattle.cw_own.specs.Views.{rows_of, for_of, cut_of, sees, taken_after_lines};
ghost use Rattle.cw_own.specs.Views.{left_after, left_by_if, left_by_scope, left_by_cut};
ghost use Rattle.cw_own.specs.Views.{turns_of, turns_inside, turns_of_lines, Past};
ghost use Rattle.cw_own.specs.Views.{reasons_among, reasons_leaving, reasons_joining, reasons_inside};
ghost use Rattle.cw_own.specs.Views.{reasons_of_either, reasons_of_for, reasons_of_scope, reasons_of_cut};
ghost use Rattle.cw_own.specs.Views.{view_of_reason, still_taken, AreRecorded};

use crate::around::Loop;
use crate::findings::Findings;
use crate::gains::{after_call, know};
use crate::reading::of_stmt;
use crate::reason::{Disowned, Holder};
use crate::restrictions::Restrictions;
use crate::row::Row;
use crate::taken::Taken;
use cw_tree::resolved::{Cut, Head, Line, Stmt, Use};

/// Holds the locals that one iteration of each remaining `while` holds, in order.
#[derive(Drop)]
pub struct Turns<'a> {
    pub left: &'a [Restrictions],
}

impl<'a> Turns<'a> {
    // Removes and returns the locals that an iteration of the next `while` holds.
    fn next(&mut self) -> &'a Restrictions
        requires { 0 < length self.old.left.now }
        ensures { rows_of self.old.left.now ≡ restrictions_of result.now ∷ rows_of self.new.left.now }
    {
        let first = &self.left[0];
        self.left = &self.left[1..];
        first
    }
}

// Adds, for a `while`, the locals that an iteration holds: its test and its body see them as held. For any other
// statement, `taken` is unchanged.
fn see(known: &Row, taken: &mut Taken, stmt: &Stmt, rest: &mut Turns<'_>)
    requires { BeginWith (turns_of known.now stmt.now) (rows_of rest.old.left.now) }
    ensures seen { taken_of taken.new ≡ sees known.now taken.old stmt.now }
    ensures begin { BeginWith (turns_inside known.now stmt.now) (rows_of rest.new.left.now) }
    ensures left { drop (length (turns_inside known.now stmt.now)) (rows_of rest.new.left.now)
        ≡ drop (length (turns_of known.now stmt.now)) (rows_of rest.old.left.now) }
{
    match stmt {
        Stmt::While(_, _) => {
            let gain = rest.next();
            taken.here = taken.here.either(gain);
        }
        Stmt::Declare(_, _)
        | Stmt::DeclareArray(_, _)
        | Stmt::Assign(_, _)
        | Stmt::AssignElement(_, _, _)
        | Stmt::Reduce(_, _, _)
        | Stmt::Call(_)
        | Stmt::Sync
        | Stmt::If(_, _)
        | Stmt::IfElse(_, _, _)
        | Stmt::For(_, _)
        | Stmt::Scope(_)
        | Stmt::Cut(_, _)
        | Stmt::Region(_, _)
        | Stmt::Print(_)
        | Stmt::Return(_) => {}
    }
}

// Returns a reason if a name whose scope ends is held.
fn ends<'a>(taken: &Taken, used: &'a Use, holder: Option<Holder>) -> Option<Disowned<'a>>
    ensures { view_of_reason result ≡ ends_by (use_of used.now) holder }
{
    match holder {
        None => None,
        Some(holder) => Some(Disowned::EndsHeld(used, holder, taken.since(holder))),
    }
}

// Returns a reason if the name that a statement declares is held at the end of its block.
fn of_end<'a>(taken: &Taken, stmt: &'a Stmt) -> Option<Disowned<'a>>
    ensures { view_of_reason result ≡ why_left (taken_of taken.now) (stmt_of stmt.now) }
{
    match stmt {
        Stmt::Declare(used, _) => ends(taken, used, taken.int_holder(used.slot)),
        Stmt::DeclareArray(used, _) => ends(taken, used, taken.array_holder(used.slot)),
        _ => None,
    }
}

// Records the declarations of a block whose names are held at its end.
fn record_left<'a>(taken: &Taken, lines: &'a [Line], told: &mut Findings<'a>)
    ensures { AreRecorded told.old told.new (still_taken taken.now lines.now) }
{
    for line in lines {
        told.note(of_end(taken, &line.stmt), line.line);
    }
}

// Records the lines of these statements that break a rule; `taken` becomes the locals held after them.
#[cycle(rules)]
#[tactic(auto, using(crate::proofs::Small::kept_append))]
fn record_all<'a>(
    around: &Option<Loop<'a>>,
    known: &Row,
    taken: &mut Taken,
    lines: &'a [Line],
    rest: &mut Turns<'_>,
    told: &mut Findings<'a>,
)
    requires small { small_block (block_of lines.now) ≡ true }
    requires turns { BeginWith (turns_of_lines known.now lines.now) (rows_of rest.old.left.now) }
    ensures taken { taken_of taken.new ≡ taken_after_lines known.now taken.old lines.now }
    ensures lines { AreRecorded told.old told.new
        (reasons_among around.now known.now taken.old lines.now) }
    ensures turns { Past (turns_of_lines known.now lines.now) rest.old.left.now rest.new.left.now }
{
    let mut known = *known;
    for line in lines {
        see(&known, taken, &line.stmt, rest);
        let mut first = None;
        of_stmt(around, taken, &line.stmt, &mut first);
        told.note(first, line.line);
        told.watch.line = line.line;
        record_within(around, &known, taken, line.line, &line.stmt, rest, told);
        know(&mut known, &line.stmt);
    }
}

// Records the lines that break a rule in a block that joins no spawn at its end; `taken` becomes the locals held at
// its end.
#[cycle(rules)]
#[tactic(auto, using(crate::proofs::Small::kept_append))]
fn record_block<'a>(
    around: &Option<Loop<'a>>,
    known: &Row,
    taken: &mut Taken,
    lines: &'a [Line],
    rest: &mut Turns<'_>,
    told: &mut Findings<'a>,
)
    requires small { small_block (block_of lines.now) ≡ true }
    requires turns { BeginWith (turns_of_lines known.now lines.now) (rows_of rest.old.left.now) }
    ensures taken { taken_of taken.new ≡ taken_after_lines known.now taken.old lines.now }
    ensures lines { AreRecorded told.old told.new
        (reasons_leaving around.now known.now taken.old lines.now) }
    ensures turns { Past (turns_of_lines known.now lines.now) rest.old.left.now rest.new.left.now }
{
    record_all(around, known, taken, lines, rest, told);
    record_left(taken, lines, told);
}

/// Records the lines of a sync block that break a rule; `taken` becomes the locals held after it has joined its
/// spawns.
#[cycle(rules)]
#[tactic(auto, using(crate::proofs::Small::kept_append))]
pub fn record_sync_block<'a>(
    around: &Option<Loop<'a>>,
    known: &Row,
    taken: &mut Taken,
    lines: &'a [Line],
    rest: &mut Turns<'_>,
    told: &mut Findings<'a>,
)
    requires small { small_block (block_of lines.now) ≡ true }
    requires turns { BeginWith (turns_of_lines known.now lines.now) (rows_of rest.old.left.now) }
    ensures taken { taken_of taken.new
        ≡ joined (taken_after_lines known.now taken.old lines.now) }
    ensures lines { AreRecorded told.old told.new
        (reasons_joining around.now known.now taken.old lines.now) }
    ensures turns { Past (turns_of_lines known.now lines.now) rest.old.left.now rest.new.left.now }
{
    record_all(around, known, taken, lines, rest, told);
    taken.join();
    record_left(taken, lines, told);
}

// Records the lines that break a rule in an `if` with this block; `taken` becomes the locals held after it.
#[cycle(rules)]
#[tactic(auto, using(crate::proofs::Small::kept_append))]
fn record_if<'a>(
    around: &Option<Loop<'a>>,
    known: &Row,
    taken: &mut Taken,
    lines: &'a [Line],
    rest: &mut Turns<'_>,
    told: &mut Findings<'a>,
)
    requires small { small_block (block_of lines.now) ≡ true }
    requires turns { BeginWith (turns_of_lines known.now lines.now) (rows_of rest.old.left.now) }
    ensures taken { taken_of taken.new ≡ left_by_if known.now taken.old lines.now }
    ensures lines { AreRecorded told.old told.new
        (reasons_leaving around.now known.now taken.old lines.now) }
    ensures turns { Past (turns_of_lines known.now lines.now) rest.old.left.now rest.new.left.now }
{
    let mut branch = *taken;
    record_block(around, known, &mut branch, lines, rest, told);
    taken.here = branch.here.within(known, &told.watch).either(&taken.here);
}

// Records the lines that break a rule in a statement with two branches; `taken` becomes the locals held after it.
#[cycle(rules)]
#[tactic(auto, using(crate::proofs::Small::kept_append))]
fn record_either<'a>(
    around: &Option<Loop<'a>>,
    known: &Row,
    taken: &mut Taken,
    stmt: &'a Stmt,
    rest: &mut Turns<'_>,
    told: &mut Findings<'a>,
)
    requires small { small_stmt (stmt_of stmt.now) ≡ true }
    requires either { is_if_else (stmt_of stmt.now) ≡ true }
    requires turns { BeginWith (turns_inside known.now stmt.now) (rows_of rest.old.left.now) }
    ensures taken { taken_of taken.new ≡ left_after known.now taken.old stmt.now }
    ensures lines { AreRecorded told.old told.new
        (reasons_of_either around.now known.now taken.old stmt.now) }
    ensures turns { Past (turns_inside known.now stmt.now) rest.old.left.now rest.new.left.now }
{
    match stmt {
        Stmt::IfElse(_, block, other) => {
            let mut branch = *taken;
            record_block(around, known, &mut branch, block, rest, told);
            record_block(around, known, taken, other, rest, told);
            *taken = Taken::after_branches(known, &branch, taken, &told.watch);
        }
        Stmt::Declare(_, _)
        | Stmt::DeclareArray(_, _)
        | Stmt::Assign(_, _)
        | Stmt::AssignElement(_, _, _)
        | Stmt::Reduce(_, _, _)
        | Stmt::Call(_)
        | Stmt::Sync
        | Stmt::If(_, _)
        | Stmt::While(_, _)
        | Stmt::For(_, _)
        | Stmt::Scope(_)
        | Stmt::Cut(_, _)
        | Stmt::Region(_, _)
        | Stmt::Print(_)
        | Stmt::Return(_) => {}
    }
}

// Records the lines that break a rule in a `while` with this block; `taken` already contains all locals held after
// the loop.
#[cycle(rules)]
fn record_while<'a>(
    around: &Option<Loop<'a>>,
    known: &Row,
    taken: &Taken,
    lines: &'a [Line],
    rest: &mut Turns<'_>,
    told: &mut Findings<'a>,
)
    requires small { small_block (block_of lines.now) ≡ true }
    requires turns { BeginWith (turns_of_lines known.now lines.now) (rows_of rest.old.left.now) }
    ensures lines { AreRecorded told.old told.new
        (reasons_leaving around.now known.now taken.now lines.now) }
    ensures turns { Past (turns_of_lines known.now lines.now) rest.old.left.now rest.new.left.now }
{
    let mut inside = *taken;
    record_block(around, known, &mut inside, lines, rest, told);
}

// Records the lines that break a rule in an inner sync block; `taken` becomes the locals held after it.
#[cycle(rules)]
fn record_scope<'a>(
    around: &Option<Loop<'a>>,
    known: &Row,
    taken: &mut Taken,
    lines: &'a [Line],
    rest: &mut Turns<'_>,
    told: &mut Findings<'a>,
)
    requires small { small_block (block_of lines.now) ≡ true }
    requires turns { BeginWith (turns_of_lines known.now lines.now) (rows_of rest.old.left.now) }
    ensures taken { taken_of taken.new ≡ left_by_scope known.now taken.old lines.now }
    ensures lines { AreRecorded told.old told.new
        (reasons_of_scope around.now known.now taken.old lines.now) }
    ensures turns { Past (turns_of_lines known.now lines.now) rest.old.left.now rest.new.left.now }
{
    let mut inside = taken.inside();
    record_sync_block(around, known, &mut inside, lines, rest, told);
    taken.cuts = inside.cuts;
}

// Records the lines that break a rule in a loop with this head in this line; `taken` becomes the locals held after
// it.
#[cycle(rules)]
fn record_for<'a>(
    known: &Row,
    taken: &mut Taken,
    line: u32,
    head: &'a Head,
    lines: &'a [Line],
    rest: &mut Turns<'_>,
    told: &mut Findings<'a>,
)
    requires small { small_stmt (for_of head.now lines.now) ≡ true }
    requires turns { BeginWith (turns (row_of known.now) (for_of head.now lines.now))
        (rows_of rest.old.left.now) }
    ensures taken { taken_of taken.new ≡ left_by_scope known.now taken.old lines.now }
    ensures lines { AreRecorded told.old told.new
        (reasons_of_for known.now taken.old line head.now lines.now) }
    ensures turns { Past (turns (row_of known.now) (for_of head.now lines.now))
        rest.old.left.now rest.new.left.now }
{
    let around = Some(Loop::new(line, head, known));
    let mut known = *known;
    known.add_int(head.variable.slot);
    record_scope(&around, &known, taken, lines, rest, told);
}

// Records the lines that break a rule in a cut, whose parts are known in its block; `taken` becomes the locals held
// after it.
#[cycle(rules)]
fn record_cut<'a>(
    around: &Option<Loop<'a>>,
    known: &Row,
    taken: &mut Taken,
    cut: &Cut,
    lines: &'a [Line],
    rest: &mut Turns<'_>,
    told: &mut Findings<'a>,
)
    requires small { small_stmt (cut_of cut.now lines.now) ≡ true }
    requires turns { BeginWith (turns (row_of known.now) (cut_of cut.now lines.now))
        (rows_of rest.old.left.now) }
    ensures taken { taken_of taken.new ≡ left_by_cut known.now taken.old cut.now lines.now }
    ensures lines { AreRecorded told.old told.new
        (reasons_of_cut around.now known.now taken.old cut.now lines.now) }
    ensures turns { Past (turns (row_of known.now) (cut_of cut.now lines.now))
        rest.old.left.now rest.new.left.now }
{
    let mut known = *known;
    known.add_array(cut.left.slot);
    known.add_array(cut.right.slot);
    let array = cut.array.slot;
    let mut inside = taken.inside_cut(array, &told.watch);
    record_sync_block(around, &known, &mut inside, lines, rest, told);
    inside.cuts.remove(array);
    taken.cuts = inside.cuts;
}

// Records the lines that break a rule in the inner blocks of a statement; `taken` becomes the locals held after the
// statement.
#[cycle(rules)]
#[tactic(auto, using(crate::proofs::Small::kept_append))]
fn record_within<'a>(
    around: &Option<Loop<'a>>,
    known: &Row,
    taken: &mut Taken,
    line: u32,
    stmt: &'a Stmt,
    rest: &mut Turns<'_>,
    told: &mut Findings<'a>,
)
    requires small { small_stmt (stmt_of stmt.now) ≡ true }
    requires turns { BeginWith (turns_inside known.now stmt.now) (rows_of rest.old.left.now) }
    ensures taken { taken_of taken.new ≡ left_after known.now taken.old stmt.now }
    ensures lines { AreRecorded told.old told.new
        (reasons_inside around.now known.now taken.old line stmt.now) }
    ensures turns { Past (turns_inside known.now stmt.now) rest.old.left.now rest.new.left.now }
{
    match stmt {
        Stmt::Call(call) => after_call(&mut taken.here, call, &told.watch),
        Stmt::Sync | Stmt::Return(_) => taken.join(),
        Stmt::If(_, block) => record_if(around, known, taken, block, rest, told),
        Stmt::IfElse(_, _, _) => record_either(around, known, taken, stmt, rest, told),
        Stmt::While(_, block) => record_while(around, known, taken, block, rest, told),
        Stmt::For(head, block) => record_for(known, taken, line, head, block, rest, told),
        Stmt::Cut(cut, block) => record_cut(around, known, taken, cut, block, rest, told),
        Stmt::Scope(block) | Stmt::Region(_, block) => {
            record_scope(around, known, taken, block, rest, told)
        }
        Stmt::Declare(_, _)
        | Stmt::DeclareArray(_, _)
        | Stmt::Assign(_, _)
        | Stmt::AssignElement(_, _, _)
        | Stmt::Reduce(_, _, _)
        | Stmt::Print(_) => {}
    }
}
