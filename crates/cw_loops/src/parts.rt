//! Lowers the parts of a statement outside of its blocks; each local has its new slot.

ghost use Rattle.std.specs.Prelude.{◌≡◌, IfOk};
ghost use Rattle.cw_loops.specs.Made as moved;
ghost use Rattle.cw_loops.specs.Moved as spec;
ghost use Rattle.cw_loops.specs.View as view;

use crate::moves::Moves;
use crate::tree;
use cw_model::syntax::Operator;
use cw_tree::resolved::{Argument, Call, Expr, Head, Stmt, Use};
use std::alloc::{AllocError, Global};

// Returns an index into an array; for an array of the loop the index counts from the lower end of the range.
fn from_low(alloc: Global, is_over: bool, e: tree::Expr) -> Result<tree::Expr, AllocError>
    ensures { IfOk result (λ made. view.expr_of made ≡ spec.from_low is_over (view.expr_of e)) }
{
    if !is_over {
        return Ok(e);
    }
    let index = Box::new(alloc, e)?;
    let low = Box::new(alloc, tree::Expr::Variable(0))?;
    Ok(tree::Expr::Binary(Operator::Minus, index, low))
}

/// Lowers an expression.
///
/// # Errors
///
/// Returns an error if memory runs out.
#[cycle(expressions)]
pub(crate) fn expression(alloc: Global, moves: Moves, e: &Expr) -> Result<tree::Expr, AllocError>
    ensures { IfOk result (moved.IsExpr moves.entry e.now) }
{
    match e {
        Expr::Number(n) => Ok(tree::Expr::Number(*n)),
        Expr::Variable(x) => Ok(tree::Expr::Variable(moves.int(x.slot))),
        Expr::Element(a, i) => {
            let index = expression(alloc, moves, i)?;
            let index = from_low(alloc, moves.is_over(a.slot), index)?;
            Ok(tree::Expr::Element(moves.array(a.slot), Box::new(alloc, index)?))
        }
        Expr::Length(a) => Ok(tree::Expr::Length(moves.array(a.slot))),
        Expr::Negative(d) => {
            let operand = boxed(alloc, moves, d)?;
            Ok(tree::Expr::Negative(operand))
        }
        Expr::Not(d) => {
            let operand = boxed(alloc, moves, d)?;
            Ok(tree::Expr::Not(operand))
        }
        Expr::Binary(operator, d, e) => {
            let left = boxed(alloc, moves, d)?;
            let right = boxed(alloc, moves, e)?;
            Ok(tree::Expr::Binary(*operator, left, right))
        }
    }
}

// Lowers an expression into a box.
#[cycle(expressions)]
fn boxed(alloc: Global, moves: Moves, e: &Expr) -> Result<Box<tree::Expr>, AllocError>
    ensures { IfOk result (λ made. moved.IsExpr moves.entry e.now made.value) }
{
    let made = expression(alloc, moves, e)?;
    let made = Box::new(alloc, made)?;
    Ok(made)
}

// Lowers an argument.
fn argument(alloc: Global, moves: Moves, e: &Argument) -> Result<tree::Argument, AllocError>
    ensures { IfOk result (moved.IsArgument moves.entry e.now) }
{
    match e {
        Argument::Int(e) => {
            let value = expression(alloc, moves, e)?;
            Ok(tree::Argument::Int(value))
        }
        Argument::Array(a) => Ok(tree::Argument::Array(moves.array(a.slot))),
        Argument::Shared(a) => Ok(tree::Argument::Shared(moves.array(a.slot))),
    }
}

// Lowers arguments in order.
fn arguments(
    alloc: Global,
    moves: Moves,
    es: &[Argument],
) -> Result<Vec<tree::Argument>, AllocError>
    ensures { IfOk result (λ made. moved.AreArguments moves.entry es.now made.items) }
{
    let mut made = Vec::new(alloc);
    for e in es {
        let value = argument(alloc, moves, e)?;
        made.push(value)?;
    }
    Ok(made)
}

// Returns the new slot of the integer that receives a result.
fn target(moves: Moves, target: &Option<Use>) -> Option<u32>
    ensures { moved.IsTarget moves.entry target.now result }
{
    match target {
        None => None,
        Some(x) => Some(moves.int(x.slot)),
    }
}

// Lowers the expression of a return.
fn returned(alloc: Global, moves: Moves, e: &Option<Expr>) -> Result<Option<tree::Expr>, AllocError>
    ensures { IfOk result (moved.IsReturned moves.entry e.now) }
{
    match e {
        None => Ok(None),
        Some(e) => {
            let value = expression(alloc, moves, e)?;
            Ok(Some(value))
        }
    }
}

// Returns the slots of the integers that a loop captures, at its beginning.
fn ints(alloc: Global, moves: Moves, uses: &[Use]) -> Result<Vec<u32>, AllocError>
    ensures { IfOk result (λ made. moved.AreInts moves.entry uses.now made.items) }
{
    let mut made = Vec::new(alloc);
    for used in uses {
        made.push(moves.int(used.slot))?;
    }
    Ok(made)
}

// Returns the slots of the arrays of a loop, at its beginning.
fn arrays(alloc: Global, moves: Moves, uses: &[Use]) -> Result<Vec<u32>, AllocError>
    ensures { IfOk result (λ made. moved.AreArrays moves.entry uses.now made.items) }
{
    let mut made = Vec::new(alloc);
    for used in uses {
        made.push(moves.array(used.slot))?;
    }
    Ok(made)
}

/// Lowers the head of a loop to the call that begins it; `callee` is the index of the loop's function.
///
/// # Errors
///
/// Returns an error if memory runs out.
pub(crate) fn beginning(
    alloc: Global,
    moves: Moves,
    callee: u32,
    head: &Head,
) -> Result<tree::Stmt, AllocError>
    ensures { IfOk result (moved.IsBeginning moves.entry callee head.now) }
{
    let captured = ints(alloc, moves, &head.captured)?;
    let over = arrays(alloc, moves, &head.over)?;
    let from = expression(alloc, moves, &head.from)?;
    let to = expression(alloc, moves, &head.to)?;
    let begun = tree::Begin {
        callee,
        from,
        to,
        captured,
        over,
    };
    Ok(tree::Stmt::Begin(Box::new(alloc, begun)?))
}

// Lowers a call statement.
fn call(alloc: Global, moves: Moves, c: &Call) -> Result<tree::Stmt, AllocError>
    ensures { IfOk result (moved.IsCall moves.entry c.now) }
{
    let arguments = arguments(alloc, moves, &c.arguments)?;
    let call = tree::Call {
        kind: c.kind,
        site: c.site,
        target: target(moves, &c.target),
        callee: c.callee.index,
        arguments,
    };
    let made = Box::new(alloc, call)?;
    Ok(tree::Stmt::Call(made))
}

/// Lowers a statement without inner blocks.
///
/// # Errors
///
/// Returns an error if memory runs out.
pub(crate) fn alone(alloc: Global, moves: Moves, stmt: &Stmt) -> Result<tree::Stmt, AllocError>
    ensures { IfOk result (moved.IsAlone moves.entry stmt.now) }
{
    match stmt {
        Stmt::Declare(x, e) => {
            let value = expression(alloc, moves, e)?;
            Ok(tree::Stmt::Declare(moves.int(x.slot), value))
        }
        Stmt::DeclareArray(a, e) => {
            let length = expression(alloc, moves, e)?;
            Ok(tree::Stmt::DeclareArray(moves.array(a.slot), length))
        }
        Stmt::Assign(x, e) => {
            let value = expression(alloc, moves, e)?;
            Ok(tree::Stmt::Assign(moves.int(x.slot), value))
        }
        Stmt::AssignElement(a, i, e) => {
            let index = expression(alloc, moves, i)?;
            let index = from_low(alloc, moves.is_over(a.slot), index)?;
            let value = expression(alloc, moves, e)?;
            Ok(tree::Stmt::AssignElement(moves.array(a.slot), index, value))
        }
        Stmt::Reduce(how, s, e) => {
            let value = expression(alloc, moves, e)?;
            Ok(tree::Stmt::Reduce(*how, s.index, value))
        }
        Stmt::Call(c) => call(alloc, moves, c),
        Stmt::Print(e) => Ok(tree::Stmt::Print(expression(alloc, moves, e)?)),
        Stmt::Return(e) => Ok(tree::Stmt::Return(returned(alloc, moves, e)?)),
        Stmt::Sync
        | Stmt::If(_, _)
        | Stmt::IfElse(_, _, _)
        | Stmt::While(_, _)
        | Stmt::For(_, _)
        | Stmt::Scope(_)
        | Stmt::Cut(_, _)
        | Stmt::Region(_, _) => Ok(tree::Stmt::Sync),
    }
}
