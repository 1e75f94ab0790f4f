//! Bodies whose loops are lowered.

ghost use Rattle.std.specs.Prelude.{◌≡◌, IfOk, OnOk};
ghost use Rattle.cw_tree.specs.ResolvedView as source;
ghost use Rattle.cw_loops.specs.Made.{IsBlock, IsStmt, IsFor, IsCut};
ghost use Rattle.cw_loops.specs.Made.{LoopsOfBlock, LoopsOfStmt, LoopsOfFor, LoopsOfCut};
ghost use Rattle.cw_loops.specs.Moved as spec;

use crate::moves::{Moves, moves_of, slot};
use crate::parts::{alone, beginning, expression};
use crate::tree;
use crate::tree::Loop;
use cw_tree::resolved::{Cut, Head, Line, Stmt};
use std::alloc::{AllocError, Global};

/// Holds the context of a statement: the number of functions in the source, the new slots of its locals, and the
/// number of known arrays.
#[derive(Clone, Copy)]
pub(crate) struct Here<'a> {
    pub functions: u32,
    pub moves: Moves<'a>,
    pub arrays: u32,
}

// Returns the number of known arrays after a statement.
fn arrays_after(arrays: u32, stmt: &Stmt) -> u32
    ensures { result ≡ spec.arrays_after arrays (source.stmt_of stmt.now) }
{
    match stmt {
        Stmt::DeclareArray(a, _) => a.slot.saturating_add(1),
        _ => arrays,
    }
}

/// Lowers the statements of a block, and appends its loops.
///
/// # Errors
///
/// Returns an error if memory runs out.
#[cycle(bodies)]
pub(crate) fn block(
    alloc: Global,
    here: Here,
    lines: &[Line],
    loops: &mut Vec<Loop>,
) -> Result<Vec<tree::Line>, AllocError>
    ensures lines { IfOk result (λ made. IsBlock here.entry lines.now loops.old made.items) }
    ensures loops { OnOk result (LoopsOfBlock here.entry lines.now loops.old loops.new) }
{
    let mut made = Vec::new(alloc);
    let mut arrays = here.arrays;
    for line in lines {
        let now = Here {
            functions: here.functions,
            moves: here.moves,
            arrays,
        };
        let stmt = statement(alloc, now, line.line, &line.stmt, loops)?;
        made.push(tree::Line {
            line: line.line,
            stmt,
        })?;
        arrays = arrays_after(arrays, &line.stmt);
    }
    Ok(made)
}

// Lowers a statement, and appends its loops.
#[cycle(bodies)]
fn statement(
    alloc: Global,
    here: Here,
    line: u32,
    stmt: &Stmt,
    loops: &mut Vec<Loop>,
) -> Result<tree::Stmt, AllocError>
    ensures stmt { IfOk result (IsStmt here.entry line stmt.now loops.old) }
    ensures loops { OnOk result (LoopsOfStmt here.entry line stmt.now loops.old loops.new) }
{
    match stmt {
        Stmt::If(e, b) => {
            let body = block(alloc, here, b, loops)?;
            let condition = expression(alloc, here.moves, e)?;
            Ok(tree::Stmt::If(condition, body))
        }
        Stmt::IfElse(e, b, c) => {
            let body = block(alloc, here, b, loops)?;
            let other = Box::new(alloc, block(alloc, here, c, loops)?)?;
            let condition = expression(alloc, here.moves, e)?;
            Ok(tree::Stmt::IfElse(condition, body, other))
        }
        Stmt::While(e, b) => {
            let body = block(alloc, here, b, loops)?;
            let condition = expression(alloc, here.moves, e)?;
            Ok(tree::Stmt::While(condition, body))
        }
        Stmt::For(head, b) => lowered(alloc, here, line, head, b, loops),
        Stmt::Scope(b) => {
            let body = block(alloc, here, b, loops)?;
            Ok(tree::Stmt::Scope(body))
        }
        Stmt::Cut(c, b) => in_cut(alloc, here, c, b, loops),
        Stmt::Region(tag, b) => {
            let body = block(alloc, here, b, loops)?;
            Ok(tree::Stmt::Region(tag.index, body))
        }
        Stmt::Declare(_, _)
        | Stmt::DeclareArray(_, _)
        | Stmt::Assign(_, _)
        | Stmt::AssignElement(_, _, _)
        | Stmt::Reduce(_, _, _)
        | Stmt::Call(_)
        | Stmt::Sync
        | Stmt::Print(_)
        | Stmt::Return(_) => alone(alloc, here.moves, stmt),
    }
}

// Lowers a loop: returns the call that begins it, and appends the loops of its body and then its own function.
#[cycle(bodies)]
fn lowered(
    alloc: Global,
    here: Here,
    line: u32,
    head: &Head,
    body: &[Line],
    loops: &mut Vec<Loop>,
) -> Result<tree::Stmt, AllocError>
    ensures stmt { IfOk result (IsFor here.entry line head.now body.now loops.old) }
    ensures loops { OnOk result (LoopsOfFor here.entry line head.now body.now loops.old loops.new) }
{
    let inside = Here {
        functions: here.functions,
        moves: moves_of(head, here.arrays),
        arrays: here.arrays,
    };
    let body = block(alloc, inside, body, loops)?;
    let callee = slot(loops.len()).saturating_add(here.functions);
    loops.push(Loop {
        line,
        grain: head.grain,
        captured: slot(head.captured.len()),
        over: slot(head.over.len()),
        body,
    })?;
    let begun = beginning(alloc, here.moves, callee, head)?;
    Ok(begun)
}

// Lowers a cut with the block in which its two parts are known.
#[cycle(bodies)]
fn in_cut(
    alloc: Global,
    here: Here,
    cut: &Cut,
    body: &[Line],
    loops: &mut Vec<Loop>,
) -> Result<tree::Stmt, AllocError>
    ensures stmt { IfOk result (IsCut here.entry cut.now body.now loops.old) }
    ensures loops { OnOk result (LoopsOfCut here.entry cut.now body.now loops.old loops.new) }
{
    let inside = Here {
        functions: here.functions,
        moves: here.moves,
        arrays: cut.right.slot.saturating_add(1),
    };
    let body = block(alloc, inside, body, loops)?;
    let parts = tree::Cut {
        array: here.moves.array(cut.array.slot),
        at: expression(alloc, here.moves, &cut.at)?,
        left: here.moves.array(cut.left.slot),
        right: here.moves.array(cut.right.slot),
    };
    Ok(tree::Stmt::Cut(Box::new(alloc, parts)?, body))
}
