//! The outer integers that the body of a loop reads.
#![tactic(auto, using(crate::proofs::Reading::uses, std::proofs::lemmas::Grind::common_steps))]

ghost use Rattle.std.specs.Prelude.{◌≡◌, map, IfOk, OnOk};
ghost use Rattle.cw_types.specs.Found.{AreCaptured, FindsUses, FindsOne, read_by};
ghost use Rattle.cw_tree.specs.Resolved.{reads, argument_reads, head_reads};
ghost use Rattle.cw_tree.specs.Resolved.{reads_in, reads_in_block, is_slot_in};
ghost use Rattle.cw_tree.specs.ResolvedView.{use_of, expr_of, argument_of, head_of, stmt_of, block_of};

use cw_tree::resolved::{Argument, Expr, Head, Line, Stmt, Use};
use std::alloc::{AllocError, Global};

/// Returns the integers with slots below `count` that a body reads, without duplicates and in the order of their
/// first use.
///
/// # Errors
///
/// Returns an error if memory runs out.
pub fn captured(alloc: Global, count: u32, body: &[Line]) -> Result<Vec<Use>, AllocError>
    ensures { IfOk result (AreCaptured count body.now) }
{
    let mut found = Vec::new(alloc);
    block(alloc, count, &mut found, body)?;
    Ok(found)
}

// Reports whether one of the uses has this slot.
fn has_slot(found: &[Use], slot: u32) -> bool
    ensures { result ≡ is_slot_in slot (map (λ w. w.slot) (map use_of found.now)) }
{
    for used in found {
        if used.slot == slot {
            return true;
        }
    }
    false
}

// Adds one use, if its slot is below `count` and new.
fn note(alloc: Global, count: u32, found: &mut Vec<Use>, used: &Use) -> Result<(), AllocError>
    ensures { OnOk result (FindsOne count (use_of used.now) found.old found.new) }
{
    if used.slot < count && !has_slot(found, used.slot) {
        let name = used.name.share(alloc)?;
        let slot = used.slot;
        found.push(Use { name, slot })?;
    }
    Ok(())
}

// Adds uses in order.
fn notes(alloc: Global, count: u32, found: &mut Vec<Use>, uses: &[Use]) -> Result<(), AllocError>
    ensures { OnOk result (FindsUses count (map use_of uses.now) found.old found.new) }
{
    for used in uses {
        note(alloc, count, found, used)?;
    }
    Ok(())
}

// Adds the integers that an expression reads.
fn expression(alloc: Global, count: u32, found: &mut Vec<Use>, e: &Expr) -> Result<(), AllocError>
    ensures { OnOk result (FindsUses count (reads (expr_of e.now)) found.old found.new) }
{
    match e {
        Expr::Number(_) | Expr::Length(_) => Ok(()),
        Expr::Variable(used) => note(alloc, count, found, used),
        Expr::Element(_, e) | Expr::Negative(e) | Expr::Not(e) => expression(
            alloc, count, found, e,
        ),
        Expr::Binary(_, d, e) => {
            expression(alloc, count, found, d)?;
            expression(alloc, count, found, e)?;
            Ok(())
        }
    }
}

// Adds the integers that an argument reads.
fn argument(alloc: Global, count: u32, found: &mut Vec<Use>, e: &Argument) -> Result<(), AllocError>
    ensures { OnOk result
        (FindsUses count (argument_reads (argument_of e.now)) found.old found.new) }
{
    match e {
        Argument::Int(e) => expression(alloc, count, found, e),
        Argument::Array(_) | Argument::Shared(_) => Ok(()),
    }
}

// Adds the integers that arguments read.
fn arguments(
    alloc: Global,
    count: u32,
    found: &mut Vec<Use>,
    es: &[Argument],
) -> Result<(), AllocError>
    ensures { OnOk result (FindsUses count (read_by es.now) found.old found.new) }
{
    for e in es {
        argument(alloc, count, found, e)?;
    }
    Ok(())
}

// Adds the integers that the head of a loop reads and the integers that its body captures.
fn head(alloc: Global, count: u32, found: &mut Vec<Use>, head: &Head) -> Result<(), AllocError>
    ensures { OnOk result (FindsUses count (head_reads (head_of head.now)) found.old found.new) }
{
    expression(alloc, count, found, &head.from)?;
    expression(alloc, count, found, &head.to)?;
    notes(alloc, count, found, &head.captured)?;
    Ok(())
}

// Adds the integers that the statements of a block read, in order.
#[cycle(reading)]
fn block(alloc: Global, count: u32, found: &mut Vec<Use>, lines: &[Line]) -> Result<(), AllocError>
    ensures { OnOk result
        (FindsUses count (reads_in_block (block_of lines.now)) found.old found.new) }
{
    for line in lines {
        statement(alloc, count, found, &line.stmt)?;
    }
    Ok(())
}

// Adds the integers that a statement reads.
#[cycle(reading)]
fn statement(alloc: Global, count: u32, found: &mut Vec<Use>, stmt: &Stmt) -> Result<(), AllocError>
    ensures { OnOk result (FindsUses count (reads_in (stmt_of stmt.now)) found.old found.new) }
{
    match stmt {
        Stmt::Declare(_, e)
        | Stmt::DeclareArray(_, e)
        | Stmt::Assign(_, e)
        | Stmt::Reduce(_, _, e)
        | Stmt::Print(e)
        | Stmt::Return(Some(e)) => expression(alloc, count, found, e),
        Stmt::AssignElement(_, i, e) => {
            expression(alloc, count, found, i)?;
            expression(alloc, count, found, e)?;
            Ok(())
        }
        Stmt::Call(call) => arguments(alloc, count, found, &call.arguments),
        Stmt::Sync | Stmt::Return(None) => Ok(()),
        Stmt::If(e, b) | Stmt::While(e, b) => {
            expression(alloc, count, found, e)?;
            block(alloc, count, found, b)?;
            Ok(())
        }
        Stmt::IfElse(e, b, c) => {
            expression(alloc, count, found, e)?;
            block(alloc, count, found, b)?;
            block(alloc, count, found, c)?;
            Ok(())
        }
        Stmt::For(h, _) => head(alloc, count, found, h),
        Stmt::Scope(b) | Stmt::Region(_, b) => block(alloc, count, found, b),
        Stmt::Cut(cut, b) => {
            expression(alloc, count, found, &cut.at)?;
            block(alloc, count, found, b)?;
            Ok(())
        }
    }
}
