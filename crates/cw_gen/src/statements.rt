//! Generates the code of statements.
//!
//! `first` is the number of the first list of array slots that belongs to a function.

ghost use Rattle.std.specs.Prelude.{◌≡◌, ◌≤◌, length, IfOk};
ghost use Rattle.cw_gen.specs.Emit as spec;
ghost use Rattle.cw_gen.specs.Written.{Adds, written_alone, written_begin, written_block};
ghost use Rattle.cw_gen.specs.Written.{written_call, written_cut, written_inside, written_over};
ghost use Rattle.cw_gen.specs.Written.{written_return, written_stmt, written_turn};
ghost use Rattle.cw_loops.specs.View.{block_of, stmt_of};

use crate::array_places::Places;
use crate::expressions::{arguments, expression, loads, valued};
use crate::jumps::{distance, hole, land, land_past, put};
use crate::lists::whole_list;
use cw_code::code::{BlockKind, Callee, Halves, Inner, Instr};
use cw_loops::tree::{Begin, Call, Cut, Expr, Line, Stmt};
use std::alloc::AllocError;

/// Appends the code of statements in order, and returns whether the last of them surely returns.
///
/// # Errors
///
/// Returns an error if memory runs out.
#[cycle(emit)]
pub(crate) fn block(
    instrs: &mut Vec<Instr>,
    first: usize,
    places: &Places,
    lines: &[Line],
) -> Result<bool, AllocError>
    ensures instrs { Adds instrs.old instrs.new (written_block first places.now lines.now) result }
    ensures returns { IfOk result (λ returns. returns ≡ spec.returns (block_of lines.now)) }
{
    let mut returns = false;
    for line in lines {
        returns = statement(instrs, first, places, line.line, &line.stmt)?;
    }
    Ok(returns)
}

// Appends the code of a statement in this line, and returns whether it surely returns.
#[cycle(emit)]
fn statement(
    instrs: &mut Vec<Instr>,
    first: usize,
    places: &Places,
    line: u32,
    stmt: &Stmt,
) -> Result<bool, AllocError>
    ensures instrs { Adds instrs.old instrs.new (written_stmt first places.now line stmt.now)
        result }
    ensures returns { IfOk result (λ returns. returns ≡ spec.stmt_returns (stmt_of stmt.now)) }
{
    match stmt {
        Stmt::If(e, b) => {
            expression(instrs, places, line, e)?;
            passed_over(instrs, first, places, b)?;
            Ok(false)
        }
        Stmt::IfElse(e, b, c) => {
            expression(instrs, places, line, e)?;
            let test = hole(instrs)?;
            let one = block(instrs, first, places, b)?;
            let end = hole(instrs)?;
            land(instrs, test);
            let other = block(instrs, first, places, c)?;
            land_past(instrs, end, one);
            Ok(one && other)
        }
        Stmt::While(e, b) => {
            let start = instrs.len();
            expression(instrs, places, line, e)?;
            turn(instrs, first, places, start, b)?;
            Ok(false)
        }
        Stmt::Scope(b) => {
            inside(instrs, first, places, BlockKind::Scope, b)?;
            Ok(false)
        }
        Stmt::Cut(parts, b) => {
            expression(instrs, places, line, &parts.at)?;
            cut(instrs, first, places, line, parts, b)?;
            Ok(false)
        }
        Stmt::Region(tag, b) => {
            inside(instrs, first, places, BlockKind::Region(*tag), b)?;
            Ok(false)
        }
        Stmt::Return(e) => {
            returned(instrs, places, line, e)?;
            Ok(true)
        }
        Stmt::Declare(_, _)
        | Stmt::DeclareArray(_, _)
        | Stmt::Assign(_, _)
        | Stmt::AssignElement(_, _, _)
        | Stmt::Reduce(_, _, _)
        | Stmt::Call(_)
        | Stmt::Begin(_)
        | Stmt::Sync
        | Stmt::Print(_) => {
            alone(instrs, first, places, line, stmt)?;
            Ok(false)
        }
    }
}

// Appends the code of a statement in this line that has no inner block and is no return.
fn alone(
    instrs: &mut Vec<Instr>,
    first: usize,
    places: &Places,
    line: u32,
    stmt: &Stmt,
) -> Result<(), AllocError>
    ensures { Adds instrs.old instrs.new (written_alone first places.now line stmt.now) result }
{
    match stmt {
        Stmt::Declare(u, e) => valued(instrs, places, line, e, Instr::Store(*u)),
        Stmt::DeclareArray(u, e) => valued(
            instrs,
            places,
            line,
            e,
            Instr::NewArray(places.array(*u), line),
        ),
        Stmt::AssignElement(u, i, e) => {
            expression(instrs, places, line, i)?;
            valued(
                instrs,
                places,
                line,
                e,
                Instr::SetElement(places.array(*u), line),
            )
        }
        Stmt::Assign(u, e) => valued(instrs, places, line, e, Instr::Store(*u)),
        Stmt::Reduce(_, s, e) => valued(instrs, places, line, e, Instr::Reduce(*s)),
        Stmt::Print(e) => valued(instrs, places, line, e, Instr::Print),
        Stmt::Call(c) => call(instrs, places, line, c),
        Stmt::Begin(b) => begin(instrs, first, places, line, b),
        Stmt::Sync => put(instrs, Instr::Sync),
        Stmt::If(_, _)
        | Stmt::IfElse(_, _, _)
        | Stmt::While(_, _)
        | Stmt::Scope(_)
        | Stmt::Cut(_, _)
        | Stmt::Region(_, _)
        | Stmt::Return(_) => Ok(()),
    }
}

// Appends the code of a return, with its value if it has one.
fn returned(
    instrs: &mut Vec<Instr>,
    places: &Places,
    line: u32,
    e: &Option<Expr>,
) -> Result<(), AllocError>
    ensures { Adds instrs.old instrs.new (written_return places.now line e.now) result }
{
    match e {
        None => put(instrs, Instr::Return),
        Some(e) => valued(instrs, places, line, e, Instr::ReturnValue),
    }
}

// Appends the code of a call: its arguments from left to right, and then its instruction.
fn call(instrs: &mut Vec<Instr>, places: &Places, line: u32, c: &Call) -> Result<(), AllocError>
    ensures { Adds instrs.old instrs.new (written_call places.now line c.now) result }
{
    arguments(instrs, places, line, &c.arguments)?;
    let callee = Callee {
        function: c.callee,
        site: c.site,
        line,
        target: c.target,
        passed: c.site,
        lent: c.site,
    };
    put(instrs, Instr::Call(c.kind, callee))
}

// Appends the first call of a loop's function: the ends of its range, the captured integers, and then its
// instruction.
fn begin(
    instrs: &mut Vec<Instr>,
    first: usize,
    places: &Places,
    line: u32,
    b: &Begin,
) -> Result<(), AllocError>
    ensures { Adds instrs.old instrs.new (written_begin first places.now line b.now) result }
{
    expression(instrs, places, line, &b.from)?;
    expression(instrs, places, line, &b.to)?;
    loads(instrs, &b.captured)?;
    let whole = Inner {
        function: b.callee,
        passed: whole_list(first, b.callee),
    };
    put(instrs, Instr::Start(whole, line))
}

// Appends the code of a block that is skipped if the last operand is 0.
#[cycle(emit)]
fn passed_over(
    instrs: &mut Vec<Instr>,
    first: usize,
    places: &Places,
    lines: &[Line],
) -> Result<(), AllocError>
    ensures { Adds instrs.old instrs.new (written_over first places.now lines.now) result }
{
    let test = hole(instrs)?;
    block(instrs, first, places, lines)?;
    land(instrs, test);
    Ok(())
}

/// Appends the code of a sync block.
///
/// # Errors
///
/// Returns an error if memory runs out.
#[cycle(emit)]
pub(crate) fn inside(
    instrs: &mut Vec<Instr>,
    first: usize,
    places: &Places,
    kind: BlockKind,
    lines: &[Line],
) -> Result<(), AllocError>
    ensures { Adds instrs.old instrs.new (written_inside kind first places.now lines.now) result }
{
    put(instrs, Instr::Open(kind))?;
    block(instrs, first, places, lines)?;
    put(instrs, Instr::Close)
}

// Appends the code of a cut: the cut at the last operand, the block in which its parts are known, and its end.
#[cycle(emit)]
fn cut(
    instrs: &mut Vec<Instr>,
    first: usize,
    places: &Places,
    line: u32,
    parts: &Cut,
    lines: &[Line],
) -> Result<(), AllocError>
    ensures { Adds instrs.old instrs.new (written_cut first places.now line parts.now lines.now)
        result }
{
    let halves = Halves {
        array: places.array(parts.array),
        left: places.array(parts.left),
        right: places.array(parts.right),
    };
    put(instrs, Instr::Cut(halves, line))?;
    block(instrs, first, places, lines)?;
    put(instrs, Instr::EndCut)?;
    Ok(())
}

// Appends the code of a block that jumps back to its test; the test begins at `start`.
#[cycle(emit)]
fn turn(
    instrs: &mut Vec<Instr>,
    first: usize,
    places: &Places,
    start: usize,
    lines: &[Line],
) -> Result<(), AllocError>
    requires { start ≤ length instrs.old.items }
    ensures { Adds instrs.old instrs.new (written_turn start instrs.old first places.now lines.now)
        result }
{
    let test = hole(instrs)?;
    block(instrs, first, places, lines)?;
    let n = distance(instrs.len() - start);
    put(instrs, Instr::GoBack(n))?;
    land(instrs, test);
    Ok(())
}
