//! The numbers of slots of a function.

ghost use Rattle.std.specs.Prelude.{◌≡◌, suc, max};
ghost use Rattle.cw_gen.specs.Emit as spec;
ghost use Rattle.cw_loops.specs.View as view;
ghost use Rattle.cw_gen.specs.Marks as marks;
ghost use Rattle.cw_gen.specs.Written.{kinds_of};

use cw_loops::tree::{Line, Stmt};
use cw_model::syntax::NameKind;
use cw_tree::resolved::Param;

/// Returns the number of integer parameters.
pub(crate) fn count_ints(params: &[Param]) -> usize
    ensures { result ≡ marks.count_ints (kinds_of params.now) }
{
    let mut count = 0;
    for p in params {
        if let NameKind::Integer = p.kind {
            count += 1;
        }
    }
    count
}

/// Returns the number of array parameters.
pub(crate) fn count_arrays(params: &[Param]) -> usize
    ensures { result ≡ marks.count_arrays (kinds_of params.now) }
{
    let mut count = 0;
    for p in params {
        match p.kind {
            NameKind::Integer => {}
            NameKind::Array | NameKind::Const => count += 1,
        }
    }
    count
}

/// Returns the number of array parameters that a call takes.
pub(crate) fn count_taken(params: &[Param]) -> usize
    ensures { result ≡ marks.count_taken (kinds_of params.now) }
{
    let mut count = 0;
    for p in params {
        if let NameKind::Array = p.kind {
            count += 1;
        }
    }
    count
}

/// Returns the number of array parameters that a call is lent.
pub(crate) fn count_readers(params: &[Param]) -> usize
    ensures { result ≡ marks.count_readers (kinds_of params.now) }
{
    let mut count = 0;
    for p in params {
        if let NameKind::Const = p.kind {
            count += 1;
        }
    }
    count
}

// Returns the number of slots, increased if this slot is not among them.
fn with_slot(count: usize, slot: u32) -> usize
    ensures { result ≡ max count (suc slot) }
{
    let next = slot as usize + 1;
    if count < next { next } else { count }
}

/// Returns the number of integer slots after a block, if there were `count` before.
#[cycle(ints)]
pub(crate) fn ints_in_block(count: usize, lines: &[Line]) -> usize
    ensures { result ≡ spec.ints_in_block count (view.block_of lines.now) }
{
    let mut n = count;
    for line in lines {
        n = ints_in(n, &line.stmt);
    }
    n
}

// Returns the number of integer slots after a statement, if there were `n` before.
#[cycle(ints)]
fn ints_in(n: usize, stmt: &Stmt) -> usize
    ensures { result ≡ spec.ints_in n (view.stmt_of stmt.now) }
{
    match stmt {
        Stmt::Declare(u, _) => with_slot(n, *u),
        Stmt::If(_, b) | Stmt::While(_, b) => ints_in_block(n, b),
        Stmt::IfElse(_, b, c) => ints_in_block(ints_in_block(n, b), c),
        Stmt::Scope(b) => ints_in_block(n, b),
        Stmt::Cut(_, b) => ints_in_block(n, b),
        Stmt::Region(_, b) => ints_in_block(n, b),
        Stmt::DeclareArray(_, _)
        | Stmt::Assign(_, _)
        | Stmt::AssignElement(_, _, _)
        | Stmt::Reduce(_, _, _)
        | Stmt::Call(_)
        | Stmt::Begin(_)
        | Stmt::Sync
        | Stmt::Print(_)
        | Stmt::Return(_) => n,
    }
}

/// Returns the number of array slots after a block, if there were `count` before.
#[cycle(arrays)]
pub(crate) fn arrays_in_block(count: usize, lines: &[Line]) -> usize
    ensures { result ≡ spec.arrays_in_block count (view.block_of lines.now) }
{
    let mut n = count;
    for line in lines {
        n = arrays_in(n, &line.stmt);
    }
    n
}

// Returns the number of array slots after a statement, if there were `n` before.
#[cycle(arrays)]
fn arrays_in(n: usize, stmt: &Stmt) -> usize
    ensures { result ≡ spec.arrays_in n (view.stmt_of stmt.now) }
{
    match stmt {
        Stmt::DeclareArray(u, _) => with_slot(n, *u),
        Stmt::If(_, b) | Stmt::While(_, b) => arrays_in_block(n, b),
        Stmt::IfElse(_, b, c) => arrays_in_block(arrays_in_block(n, b), c),
        Stmt::Scope(b) => arrays_in_block(n, b),
        Stmt::Cut(parts, b) => arrays_in_block(with_slot(n, parts.right), b),
        Stmt::Region(_, b) => arrays_in_block(n, b),
        Stmt::Declare(_, _)
        | Stmt::Assign(_, _)
        | Stmt::AssignElement(_, _, _)
        | Stmt::Reduce(_, _, _)
        | Stmt::Call(_)
        | Stmt::Begin(_)
        | Stmt::Sync
        | Stmt::Print(_)
        | Stmt::Return(_) => n,
    }
}
