//! The number of slots that the locals of a body need.

ghost use Rattle.std.specs.Prelude.{◌≡◌, max, suc};
ghost use Rattle.cw_tree.specs.Resolved.{ints_in, ints_in_block, arrays_in, arrays_in_block};
ghost use Rattle.cw_tree.specs.ResolvedView.{use_of, stmt_of, block_of};

use cw_tree::resolved::{Line, Stmt, Use};

// Returns the number of slots, increased if the slot of this use is not among them.
fn with_slot(slots: u64, used: &Use) -> u64
    ensures { result ≡ max slots (suc (use_of used.now).slot) }
{
    let needed = used.slot as u64 + 1;
    if slots < needed { needed } else { slots }
}

/// Returns the number of slots for integers after a block, if there were `slots` before.
#[cycle(ints)]
pub fn ints_of_block(slots: u64, lines: &[Line]) -> u64
    ensures { result ≡ ints_in_block slots (block_of lines.now) }
{
    let mut needed = slots;
    for line in lines {
        needed = ints_of(needed, &line.stmt);
    }
    needed
}

// Returns the number of slots for integers after a statement, if there were `slots` before.
#[cycle(ints)]
fn ints_of(slots: u64, stmt: &Stmt) -> u64
    ensures { result ≡ ints_in slots (stmt_of stmt.now) }
{
    match stmt {
        Stmt::Declare(used, _) => with_slot(slots, used),
        Stmt::If(_, b)
        | Stmt::While(_, b)
        | Stmt::Scope(b)
        | Stmt::Cut(_, b)
        | Stmt::Region(_, b) => ints_of_block(slots, b),
        Stmt::IfElse(_, b, c) => {
            let needed = ints_of_block(slots, b);
            ints_of_block(needed, c)
        }
        Stmt::For(head, b) => {
            let needed = with_slot(slots, &head.variable);
            ints_of_block(needed, b)
        }
        Stmt::DeclareArray(_, _)
        | Stmt::Assign(_, _)
        | Stmt::AssignElement(_, _, _)
        | Stmt::Reduce(_, _, _)
        | Stmt::Call(_)
        | Stmt::Sync
        | Stmt::Print(_)
        | Stmt::Return(_) => slots,
    }
}

/// Returns the number of slots for arrays after a block, if there were `slots` before.
#[cycle(arrays)]
pub fn arrays_of_block(slots: u64, lines: &[Line]) -> u64
    ensures { result ≡ arrays_in_block slots (block_of lines.now) }
{
    let mut needed = slots;
    for line in lines {
        needed = arrays_of(needed, &line.stmt);
    }
    needed
}

// Returns the number of slots for arrays after a statement, if there were `slots` before.
#[cycle(arrays)]
fn arrays_of(slots: u64, stmt: &Stmt) -> u64
    ensures { result ≡ arrays_in slots (stmt_of stmt.now) }
{
    match stmt {
        Stmt::DeclareArray(used, _) => with_slot(slots, used),
        Stmt::If(_, b)
        | Stmt::While(_, b)
        | Stmt::For(_, b)
        | Stmt::Scope(b)
        | Stmt::Region(_, b) => arrays_of_block(slots, b),
        Stmt::IfElse(_, b, c) => {
            let needed = arrays_of_block(slots, b);
            arrays_of_block(needed, c)
        }
        Stmt::Cut(cut, b) => {
            let needed = with_slot(slots, &cut.right);
            arrays_of_block(needed, b)
        }
        Stmt::Declare(_, _)
        | Stmt::Assign(_, _)
        | Stmt::AssignElement(_, _, _)
        | Stmt::Reduce(_, _, _)
        | Stmt::Call(_)
        | Stmt::Sync
        | Stmt::Print(_)
        | Stmt::Return(_) => slots,
    }
}
