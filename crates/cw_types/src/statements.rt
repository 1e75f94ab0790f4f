//! Looks up the names in statements and blocks.

ghost use Rattle.std.specs.Prelude.{◌≡◌, ◌<◌, ◌+◌, ◌^◌, true, IfOk};
ghost use Rattle.cw_tree.specs.SyntaxView as parsed;
ghost use Rattle.cw_tree.specs.Declares.{declares_in, declares_in_block, is_plain};
ghost use Rattle.cw_types.specs.Found.{Finds, IsBlock, IsCutOver, IsLoop, IsStmt, cut_over, loop_over};
ghost use Rattle.cw_types.specs.Locals.{locals_count};

use crate::lists::Lists;
use crate::locals::{Locals, declare};
use crate::resolve::{boxed, call, cut, expression, head, listed, next_use, returned, use_of};
use cw_tree::resolved as tree;
use cw_tree::syntax::{Cut, Head, Line, Stmt};
use std::alloc::{AllocError, Global};

/// Returns the statements of a block with each name looked up; the names that the block declares are removed after
/// it.
///
/// # Errors
///
/// Returns an error if memory runs out.
#[cycle(statements)]
pub fn block<'a>(
    alloc: Global,
    lists: &Lists,
    locals: &mut Locals<'a>,
    lines: &'a [Line],
) -> Result<Vec<tree::Line>, AllocError>
    requires { locals_count locals.old + declares_in_block (parsed.block_of lines.now) < 2 ^ 32 }
    ensures { Finds (λ found. IsBlock lists.now locals.old lines.now found.items)
        locals.old locals.new result }
{
    let ints = locals.ints.len();
    let arrays = locals.arrays.len();
    let mut found = Vec::new(alloc);
    for line in lines {
        let stmt = statement(alloc, lists, locals, &line.stmt)?;
        found.push(tree::Line {
            line: line.line,
            stmt,
        })?;
        declare(locals, &line.stmt)?;
    }
    locals.ints.leave(ints);
    locals.arrays.leave(arrays);
    Ok(found)
}

// Returns a statement with each name looked up; does not yet add the name that it declares.
#[cycle(statements)]
fn statement<'a>(
    alloc: Global,
    lists: &Lists,
    locals: &mut Locals<'a>,
    stmt: &'a Stmt,
) -> Result<tree::Stmt, AllocError>
    requires { locals_count locals.old + declares_in (parsed.stmt_of stmt.now) < 2 ^ 32 }
    ensures { Finds (IsStmt lists.now locals.old stmt.now) locals.old locals.new result }
{
    match stmt {
        Stmt::If(e, b) => {
            let body = block(alloc, lists, locals, b)?;
            Ok(tree::Stmt::If(expression(alloc, locals, e)?, body))
        }
        Stmt::IfElse(e, b, c) => {
            let body = block(alloc, lists, locals, b)?;
            let other = Box::new(alloc, block(alloc, lists, locals, c)?)?;
            Ok(tree::Stmt::IfElse(expression(alloc, locals, e)?, body, other))
        }
        Stmt::While(e, b) => {
            let body = block(alloc, lists, locals, b)?;
            Ok(tree::Stmt::While(expression(alloc, locals, e)?, body))
        }
        Stmt::For(h, b) => turns(alloc, lists, locals, h, b),
        Stmt::Scope(b) => Ok(tree::Stmt::Scope(block(alloc, lists, locals, b)?)),
        Stmt::Cut(c, b) => with_parts(alloc, lists, locals, c, b),
        Stmt::Region(tag, b) => {
            let tag = listed(alloc, &lists.tags, tag)?;
            Ok(tree::Stmt::Region(tag, block(alloc, lists, locals, b)?))
        }
        Stmt::Declare(_, _)
        | Stmt::DeclareArray(_, _)
        | Stmt::Assign(_, _)
        | Stmt::AssignElement(_, _, _)
        | Stmt::Reduce(_, _, _)
        | Stmt::Call(_)
        | Stmt::Sync
        | Stmt::Print(_)
        | Stmt::Return(_) => plain(alloc, lists, locals, stmt),
    }
}

// Returns a parallel loop with each name looked up; its variable is known only in its body.
#[cycle(statements)]
fn turns<'a>(
    alloc: Global,
    lists: &Lists,
    locals: &mut Locals<'a>,
    h: &'a Head,
    b: &'a [Line],
) -> Result<tree::Stmt, AllocError>
    requires { locals_count locals.old + declares_in (loop_over h.now b.now) < 2 ^ 32 }
    ensures { Finds (IsLoop lists.now locals.old h.now b.now) locals.old locals.new result }
{
    locals.ints.add(h.variable.as_bytes())?;
    let body = block(alloc, lists, locals, b)?;
    locals.ints.forget();
    let head = head(alloc, locals, h, &body)?;
    Ok(tree::Stmt::For(Box::new(alloc, head)?, body))
}

// Returns a cut with each name looked up; the parts are known only in its block.
#[cycle(statements)]
fn with_parts<'a>(
    alloc: Global,
    lists: &Lists,
    locals: &mut Locals<'a>,
    c: &'a Cut,
    b: &'a [Line],
) -> Result<tree::Stmt, AllocError>
    requires { locals_count locals.old + declares_in (cut_over c.now b.now) < 2 ^ 32 }
    ensures { Finds (IsCutOver lists.now locals.old c.now b.now) locals.old locals.new result }
{
    locals.arrays.add(c.left.as_bytes())?;
    locals.arrays.add(c.right.as_bytes())?;
    let body = block(alloc, lists, locals, b)?;
    locals.arrays.forget();
    locals.arrays.forget();
    let parts = cut(alloc, locals, c)?;
    Ok(tree::Stmt::Cut(Box::new(alloc, parts)?, body))
}

// Returns a statement without inner blocks, with each name looked up.
fn plain(
    alloc: Global,
    lists: &Lists,
    locals: &Locals,
    stmt: &Stmt,
) -> Result<tree::Stmt, AllocError>
    requires { is_plain (parsed.stmt_of stmt.now) ≡ true }
    ensures { IfOk result (IsStmt lists.now locals.now stmt.now) }
{
    match stmt {
        Stmt::Declare(x, e) => {
            let name = next_use(alloc, &locals.ints, x)?;
            let value = expression(alloc, locals, e)?;
            Ok(tree::Stmt::Declare(name, value))
        }
        Stmt::DeclareArray(a, e) => {
            let name = next_use(alloc, &locals.arrays, a)?;
            let length = expression(alloc, locals, e)?;
            Ok(tree::Stmt::DeclareArray(name, length))
        }
        Stmt::Assign(x, e) => {
            let name = use_of(alloc, &locals.ints, x)?;
            Ok(tree::Stmt::Assign(name, expression(alloc, locals, e)?))
        }
        Stmt::AssignElement(a, i, e) => {
            let name = use_of(alloc, &locals.arrays, a)?;
            let index = boxed(alloc, locals, i)?;
            Ok(tree::Stmt::AssignElement(name, index, expression(alloc, locals, e)?))
        }
        Stmt::Reduce(how, s, e) => {
            let reducer = listed(alloc, &lists.reducers, s)?;
            let value = expression(alloc, locals, e)?;
            Ok(tree::Stmt::Reduce(*how, reducer, value))
        }
        Stmt::Call(c) => {
            let call = call(alloc, lists, locals, c)?;
            Ok(tree::Stmt::Call(Box::new(alloc, call)?))
        }
        Stmt::Print(e) => Ok(tree::Stmt::Print(expression(alloc, locals, e)?)),
        Stmt::Return(e) => Ok(tree::Stmt::Return(returned(alloc, locals, e)?)),
        Stmt::Sync
        | Stmt::If(_, _)
        | Stmt::IfElse(_, _, _)
        | Stmt::While(_, _)
        | Stmt::For(_, _)
        | Stmt::Scope(_)
        | Stmt::Cut(_, _)
        | Stmt::Region(_, _) => Ok(tree::Stmt::Sync),
    }
}
