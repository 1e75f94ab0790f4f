//! The regions of a program, in order.

ghost use Rattle.std.specs.Prelude.{◌≡◌, IfOk, OnOk};
ghost use Rattle.cw_model.specs.Sizes.{regions_in, regions_in_block};
ghost use Rattle.cw_tree.specs.SyntaxView.{block_of, stmt_of};
ghost use Rattle.cw_types.specs.Regions.{regions_of, regions_of_all, Adds};

use cw_tree::syntax::{Function, Line, Stmt};
use std::alloc::{AllocError, Global};

/// Represents a region by its tag and the line of its first token.
#[derive(Clone, Copy)]
pub struct Marked<'a> {
    pub tag: &'a [u8],
    pub line: u32,
}

/// Returns all regions of these functions.
///
/// # Errors
///
/// Returns an error if memory runs out.
pub fn regions<'a>(alloc: Global, functions: &'a [Function]) -> Result<Vec<Marked<'a>>, AllocError>
    ensures { IfOk result (λ found. regions_of found.items ≡ regions_of_all functions.now) }
{
    let mut found = Vec::new(alloc);
    for function in functions {
        block(&mut found, &function.body)?;
    }
    Ok(found)
}

// Appends the regions of a block.
#[cycle(marking)]
fn block<'a>(found: &mut Vec<Marked<'a>>, lines: &'a [Line]) -> Result<(), AllocError>
    ensures { OnOk result (Adds (regions_in_block (block_of lines.now)) found.old found.new) }
{
    for line in lines {
        statement(found, line.line, &line.stmt)?;
    }
    Ok(())
}

// Appends the regions of a statement.
#[cycle(marking)]
fn statement<'a>(found: &mut Vec<Marked<'a>>, line: u32, stmt: &'a Stmt) -> Result<(), AllocError>
    ensures { OnOk result (Adds (regions_in line (stmt_of stmt.now)) found.old found.new) }
{
    match stmt {
        Stmt::If(_, b) | Stmt::While(_, b) | Stmt::For(_, b) | Stmt::Scope(b) | Stmt::Cut(_, b) =>
            block(found, b),
        Stmt::IfElse(_, b, c) => {
            block(found, b)?;
            block(found, c)
        }
        Stmt::Region(tag, b) => {
            let tag = tag.as_bytes();
            found.push(Marked { tag, line })?;
            block(found, b)
        }
        Stmt::Declare(_, _)
        | Stmt::DeclareArray(_, _)
        | Stmt::Assign(_, _)
        | Stmt::AssignElement(_, _, _)
        | Stmt::Reduce(_, _, _)
        | Stmt::Call(_)
        | Stmt::Sync
        | Stmt::Print(_)
        | Stmt::Return(_) => Ok(()),
    }
}
