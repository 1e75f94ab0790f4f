//! Computes the locals that one iteration of each `while` holds.
//!
//! The locals held after a statement are those held before it, minus those that the statement frees, plus those that
//! it takes and freezes. So any number of iterations holds the locals held before the loop, and those that one
//! iteration holds if it begins with nothing held. Therefore each body is traversed once to compute these, and once
//! more to find its faults.

ghost use Rattle.std.specs.Prelude.{◌≡◌, ◌∷◌, [], length, slice_set, map, true};
ghost use Rattle.std.specs.List.{list_all};
ghost use Rattle.cw_tree.specs.ResolvedView.{argument_of, stmt_of, block_of};
ghost use Rattle.cw_own.specs.Bounds.{small_target, small_argument, small_stmt, small_block, is_if_else};
ghost use Rattle.cw_own.specs.Sets.{row_of};
ghost use Rattle.cw_own.specs.Grown.{Grown};
ghost use Rattle.cw_own.specs.Taken.{no_restrictions, restrictions_of, with_target, with_arrays, known_after, after, after_all};
ghost use Rattle.cw_own.specs.Views.{used, after_call, after_lines, after_if, after_while};
ghost use Rattle.cw_own.specs.Views.{turns_of, turns_of_lines, turns_of_while};

use crate::findings::{Local, Watch};
use crate::restrictions::Restrictions;
use crate::row::Row;
use cw_model::syntax::CallKind;
use cw_tree::resolved::{Argument, Call, Line, Stmt, Use};
use std::alloc::Global;

// Takes the integer that receives a result, if there is one.
fn take_target(held: &mut Restrictions, target: &Option<Use>, watch: &Watch)
    requires { small_target (used target.now) ≡ true }
    ensures { restrictions_of held.new ≡ with_target (used target.now) (restrictions_of held.old) }
{
    if let Some(used) = target {
        held.take_int(used.slot, watch);
    }
}

// Takes the arrays that are given away, and freezes those that are only read.
fn take_arrays(held: &mut Restrictions, es: &[Argument], watch: &Watch)
    requires { list_all small_argument (map argument_of es.now) ≡ true }
    ensures { restrictions_of held.new ≡ with_arrays (map argument_of es.now) (restrictions_of held.old) }
{
    for e in es {
        match e {
            Argument::Int(_) => {}
            Argument::Array(used) => held.take_array(used.slot, watch),
            Argument::Shared(used) => held.freeze(used.slot, watch),
        }
    }
}

/// Applies a call: a spawn takes its target and the arrays that are given away, and freezes those that it only reads.
pub fn after_call(here: &mut Restrictions, call: &Call, watch: &Watch)
    requires target { small_target (used call.now.target) ≡ true }
    requires arguments { list_all small_argument (map argument_of call.now.arguments.items) ≡ true }
    ensures { restrictions_of here.new ≡ after_call call.now here.old }
{
    match call.kind {
        CallKind::Plain => {}
        CallKind::Spawned => {
            take_target(here, &call.target, watch);
            take_arrays(here, &call.arguments, watch);
        }
    }
}

/// Adds the local that a statement declares to the known locals, if it declares one.
pub fn know(known: &mut Row, stmt: &Stmt)
    requires { small_stmt (stmt_of stmt.now) ≡ true }
    ensures { row_of known.new ≡ known_after (row_of known.old) (stmt_of stmt.now) }
{
    match stmt {
        Stmt::Declare(used, _) => known.add_int(used.slot),
        Stmt::DeclareArray(used, _) => known.add_array(used.slot),
        _ => {}
    }
}

/// Holds the locals that one iteration of each `while` holds, in order, as far as memory sufficed, and the watched
/// local.
#[derive(Drop)]
pub struct Gains {
    pub rows: Vec<Restrictions>,
    /// Whether memory sufficed for all of them.
    pub complete: bool,
    pub watch: Watch,
}

impl Gains {
    /// Returns an empty value that watches this local.
    pub fn new(alloc: Global, local: Option<Local>) -> Gains
        ensures complete { result.complete ≡ true }
        ensures rows { result.rows.items ≡ [] }
    {
        Gains {
            rows: Vec::new(alloc),
            complete: true,
            watch: Watch::new(local),
        }
    }

    // Reserves a place that `set` fills later.
    fn keep(&mut self) -> usize
        ensures place { result ≡ length self.old.rows.items }
        ensures grown { Grown self.old self.new (no_restrictions ∷ []) }
    {
        let place = self.rows.len();
        if self.rows.push(Restrictions::none()).is_err() {
            self.complete = false;
        }
        place
    }

    // Fills a place.
    fn set(&mut self, place: usize, row: Restrictions)
        ensures complete { self.new.complete ≡ self.old.complete }
        ensures rows { self.new.rows.items ≡ slice_set self.old.rows.items place row }
    {
        if place < self.rows.len() {
            self.rows[place] = row;
        }
    }
}

// Computes the locals that the spawns of the innermost sync block hold after these statements; appends those that an
// iteration of each `while` holds.
#[cycle(gains)]
fn after_all(known: &Row, lines: &[Line], here: &mut Restrictions, gains: &mut Gains)
    requires { small_block (block_of lines.now) ≡ true }
    ensures row { restrictions_of here.new
        ≡ after_all (row_of known.now) (block_of lines.now) (restrictions_of here.old) }
    ensures gains { Grown gains.old gains.new (turns_of_lines known.now lines.now) }
{
    let mut known = *known;
    for line in lines {
        gains.watch.line = line.line;
        after(&known, &line.stmt, here, gains);
        know(&mut known, &line.stmt);
    }
}

// Computes the locals that the spawns of the innermost sync block hold after a block, without the locals whose scope
// ends with it.
#[cycle(gains)]
fn after_block(known: &Row, lines: &[Line], here: &mut Restrictions, gains: &mut Gains)
    requires { small_block (block_of lines.now) ≡ true }
    ensures row { restrictions_of here.new ≡ after_lines known.now lines.now here.old }
    ensures gains { Grown gains.old gains.new (turns_of_lines known.now lines.now) }
{
    after_all(known, lines, here, gains);
    *here = here.within(known, &gains.watch);
}

// Appends the locals that an iteration of each `while` holds in a block that joins its spawns at its end; none of
// them remains held.
#[cycle(gains)]
fn after_scope(known: &Row, lines: &[Line], gains: &mut Gains)
    requires { small_block (block_of lines.now) ≡ true }
    ensures { Grown gains.old gains.new (turns_of_lines known.now lines.now) }
{
    let mut inside = Restrictions::none();
    after_all(known, lines, &mut inside, gains);
}

// Computes the locals held after an `if` with this block.
#[cycle(gains)]
fn after_if(known: &Row, lines: &[Line], here: &mut Restrictions, gains: &mut Gains)
    requires { small_block (block_of lines.now) ≡ true }
    ensures row { restrictions_of here.new ≡ after_if known.now lines.now here.old }
    ensures gains { Grown gains.old gains.new (turns_of_lines known.now lines.now) }
{
    let mut branch = *here;
    after_block(known, lines, &mut branch, gains);
    *here = branch.either(here);
}

// Computes the locals held after a statement with two branches.
#[cycle(gains)]
fn after_either(known: &Row, stmt: &Stmt, here: &mut Restrictions, gains: &mut Gains)
    requires small { small_stmt (stmt_of stmt.now) ≡ true }
    requires either { is_if_else (stmt_of stmt.now) ≡ true }
    ensures row { restrictions_of here.new
        ≡ after (row_of known.now) (stmt_of stmt.now) (restrictions_of here.old) }
    ensures gains { Grown gains.old gains.new (turns_of known.now stmt.now) }
{
    match stmt {
        Stmt::IfElse(_, block, other) => {
            let mut branch = *here;
            after_block(known, block, &mut branch, gains);
            after_block(known, other, here, gains);
            *here = branch.either(here);
        }
        Stmt::Declare(_, _)
        | Stmt::DeclareArray(_, _)
        | Stmt::Assign(_, _)
        | Stmt::AssignElement(_, _, _)
        | Stmt::Reduce(_, _, _)
        | Stmt::Call(_)
        | Stmt::Sync
        | Stmt::If(_, _)
        | Stmt::While(_, _)
        | Stmt::For(_, _)
        | Stmt::Scope(_)
        | Stmt::Cut(_, _)
        | Stmt::Region(_, _)
        | Stmt::Print(_)
        | Stmt::Return(_) => {}
    }
}

// Computes the locals held after a `while` with this block: those held before it, and those that one iteration holds
// if it begins with nothing held. The entry for this loop precedes the entries of its body.
#[cycle(gains)]
fn after_while(known: &Row, lines: &[Line], here: &mut Restrictions, gains: &mut Gains)
    requires { small_block (block_of lines.now) ≡ true }
    ensures row { restrictions_of here.new ≡ after_while known.now lines.now here.old }
    ensures gains { Grown gains.old gains.new (turns_of_while known.now lines.now) }
{
    let place = gains.keep();
    let mut gain = Restrictions::none();
    after_block(known, lines, &mut gain, gains);
    gains.set(place, gain);
    *here = here.either(&gain);
}

// Computes the locals held after a statement.
#[cycle(gains)]
fn after(known: &Row, stmt: &Stmt, here: &mut Restrictions, gains: &mut Gains)
    requires { small_stmt (stmt_of stmt.now) ≡ true }
    ensures row { restrictions_of here.new
        ≡ after (row_of known.now) (stmt_of stmt.now) (restrictions_of here.old) }
    ensures gains { Grown gains.old gains.new (turns_of known.now stmt.now) }
{
    match stmt {
        Stmt::Call(call) => after_call(here, call, &gains.watch),
        Stmt::Sync | Stmt::Return(_) => here.clear(),
        Stmt::If(_, block) => after_if(known, block, here, gains),
        Stmt::IfElse(_, _, _) => after_either(known, stmt, here, gains),
        Stmt::While(_, block) => after_while(known, block, here, gains),
        Stmt::For(head, block) => {
            let mut inner = *known;
            inner.add_int(head.variable.slot);
            after_scope(&inner, block, gains);
        }
        Stmt::Cut(cut, block) => {
            let mut inner = *known;
            inner.add_array(cut.left.slot);
            inner.add_array(cut.right.slot);
            after_scope(&inner, block, gains);
        }
        Stmt::Scope(block) | Stmt::Region(_, block) => after_scope(known, block, gains),
        Stmt::Declare(_, _)
        | Stmt::DeclareArray(_, _)
        | Stmt::Assign(_, _)
        | Stmt::AssignElement(_, _, _)
        | Stmt::Reduce(_, _, _)
        | Stmt::Print(_) => {}
    }
}

/// Appends the locals that one iteration of each `while` of a function holds, and records whether memory sufficed.
pub fn turns(known: &Row, lines: &[Line], gains: &mut Gains)
    requires { small_block (block_of lines.now) ≡ true }
    ensures { Grown gains.old gains.new (turns_of_lines known.now lines.now) }
{
    after_scope(known, lines, gains);
}
