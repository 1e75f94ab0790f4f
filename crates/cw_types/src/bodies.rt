//! Checks the rules of names and types in whole bodies.

ghost use Rattle.std.specs.Prelude.{◌≡◌, not, ◌||◌, IfSome, OnOk, is_some};
ghost use Rattle.cw_model.specs.Typing.{surely_returns, ends_block};
ghost use Rattle.cw_tree.specs.SyntaxView.{stmt_of, block_of};
ghost use Rattle.cw_types.specs.Scope.{after_stmt};
ghost use Rattle.cw_types.specs.Within.{NeverReached, NotesBlock, NotesInner, AddsAmong, all_in, all_inside};

use crate::globals::Globals;
use crate::known::Known;
use crate::reason::IllTyped;
use crate::rules::{Returns, of_stmt, surely_returns};
use cw_model::syntax::NameKind;
use cw_text::Reasons;
use cw_tree::syntax::{Line, Stmt};
use std::alloc::AllocError;

/// Records the lines of a block that break a rule. `known` holds the names known before the block, and it is
/// unchanged after it.
///
/// # Errors
///
/// Returns an error if memory runs out.
#[cycle(bodies)]
pub fn block<'a>(
    globals: &Globals<'a>,
    returns: Returns,
    known: &mut Known<'a>,
    lines: &'a [Line],
    told: &mut Reasons<IllTyped<'a>>,
) -> Result<(), AllocError>
    ensures lines { NotesBlock globals.now returns known.old lines.now told.old told.new result }
    ensures told { OnOk result
        (AddsAmong globals.now (all_in returns known.old lines.now) told.old told.new) }
    ensures known { OnOk result (known.new ≡ known.old) }
{
    let before = known.len();
    for i in 0..lines.len() {
        let line = &lines[i];
        told.note(of_stmt(globals, returns, known, &line.stmt), line.line);
        inside(globals, returns, known, line, told)?;
        told.note(never_reached(line, &lines[i + 1..]), line.line);
        declare(known, line)?;
    }
    known.leave(before);
    Ok(())
}

// Records the lines of the inner blocks of a statement that break a rule.
#[cycle(bodies)]
fn inside<'a>(
    globals: &Globals<'a>,
    returns: Returns,
    known: &mut Known<'a>,
    line: &'a Line,
    told: &mut Reasons<IllTyped<'a>>,
) -> Result<(), AllocError>
    ensures lines { NotesInner globals.now returns known.old line.now told.old told.new result }
    ensures told { OnOk result
        (AddsAmong globals.now (all_inside returns known.old line.now) told.old told.new) }
    ensures known { OnOk result (known.new ≡ known.old) }
{
    match &line.stmt {
        Stmt::If(_, b) | Stmt::While(_, b) => block(globals, returns, known, b, told),
        Stmt::IfElse(_, b, c) => {
            block(globals, returns, known, b, told)?;
            block(globals, returns, known, c, told)?;
            Ok(())
        }
        Stmt::For(head, b) => {
            known.declare(head.variable.as_bytes(), NameKind::Integer, line.line)?;
            block(globals, Returns::Nowhere, known, b, told)?;
            known.forget();
            Ok(())
        }
        Stmt::Scope(b) | Stmt::Region(_, b) => block(globals, Returns::Nowhere, known, b, told),
        Stmt::Cut(cut, b) => {
            known.declare(cut.left.as_bytes(), NameKind::Array, line.line)?;
            known.declare(cut.right.as_bytes(), NameKind::Array, line.line)?;
            block(globals, Returns::Nowhere, known, b, told)?;
            known.forget();
            known.forget();
            Ok(())
        }
        Stmt::Declare(_, _)
        | Stmt::DeclareArray(_, _)
        | Stmt::Assign(_, _)
        | Stmt::AssignElement(_, _, _)
        | Stmt::Reduce(_, _, _)
        | Stmt::Call(_)
        | Stmt::Sync
        | Stmt::Print(_)
        | Stmt::Return(_) => Ok(()),
    }
}

// Returns the line after a statement that surely returns: no statement may follow it.
#[tactic(auto, using(crate::proofs::Noting::ends, std::proofs::lemmas::Grind::common_steps))]
fn never_reached<'a>(line: &Line, behind: &[Line]) -> Option<IllTyped<'a>>
    ensures decides { is_some result
        ≡ not (not (surely_returns (stmt_of line.now.stmt)) || ends_block (block_of behind.now)) }
    ensures holds { IfSome result (NeverReached line.now behind.now) }
{
    if !surely_returns(&line.stmt) {
        return None;
    }
    if behind.is_empty() {
        return None;
    }
    Some(IllTyped::NeverReached(behind[0].line))
}

// Declares the name that the statement declares, if it declares one.
fn declare<'a>(known: &mut Known<'a>, line: &'a Line) -> Result<(), AllocError>
    ensures { OnOk result (known.new ≡ after_stmt line.now.line (stmt_of line.now.stmt) known.old) }
{
    match &line.stmt {
        Stmt::Declare(x, _) => known.declare(x.as_bytes(), NameKind::Integer, line.line),
        Stmt::DeclareArray(a, _) => known.declare(a.as_bytes(), NameKind::Array, line.line),
        _ => Ok(()),
    }
}
