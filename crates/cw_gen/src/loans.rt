//! The lists of the arrays that calls are lent.
//!
//! The list with number 0 belongs to no call, and the list of a call site has the number of the site.

ghost use Rattle.std.specs.Prelude.{◌≡◌, IfOk};
ghost use Rattle.cw_gen.specs.Emit as spec;
ghost use Rattle.cw_gen.specs.Written.{Puts, loans_passed, put_all_lent, put_lent, put_loans_with, texts_of};

use crate::array_places::Places;
use crate::lists::put_list;
use crate::marks::places_of;
use cw_code::code::Loan;
use cw_loops::tree::{Argument, Line, Loop, Stmt};
use cw_tree::resolved::Function;
use std::alloc::{AllocError, Global};

/// Stores the loans of the source functions, each with its body.
///
/// # Errors
///
/// Returns an error if memory runs out.
pub(crate) fn loans_of_bodies(
    alloc: Global,
    functions: &[Function],
    bodies: &[Vec<Line>],
    lists: &mut Vec<Vec<Loan>>,
) -> Result<(), AllocError>
    ensures { Puts lists.old lists.new (put_loans_with functions.now bodies.now) result }
{
    for (f, body) in functions.iter().zip(bodies) {
        let places = places_of(alloc, &f.params)?;
        loans_in(alloc, &places, body, lists)?;
    }
    Ok(())
}

/// Stores the loans of the functions of loops. They do not depend on the index of the first function.
///
/// # Errors
///
/// Returns an error if memory runs out.
pub(crate) fn loans_of_loops(
    alloc: Global,
    loops: &[Loop],
    lists: &mut Vec<Vec<Loan>>,
) -> Result<(), AllocError>
    ensures { Puts lists.old lists.new (spec.put_loans_of (texts_of 0 loops.now)) result }
{
    let places = Places::none(alloc);
    for l in loops {
        loans_in(alloc, &places, &l.body, lists)?;
    }
    Ok(())
}

// Stores the loans of a block.
#[cycle(loans)]
fn loans_in(
    alloc: Global,
    places: &Places,
    lines: &[Line],
    lists: &mut Vec<Vec<Loan>>,
) -> Result<(), AllocError>
    ensures { Puts lists.old lists.new (put_all_lent places.now lines.now) result }
{
    for line in lines {
        loans_at(alloc, places, &line.stmt, lists)?;
    }
    Ok(())
}

// Stores the loans of a statement.
#[cycle(loans)]
fn loans_at(
    alloc: Global,
    places: &Places,
    stmt: &Stmt,
    lists: &mut Vec<Vec<Loan>>,
) -> Result<(), AllocError>
    ensures { Puts lists.old lists.new (put_lent places.now stmt.now) result }
{
    match stmt {
        Stmt::Call(c) => {
            let loans = loans_of(alloc, places, &c.arguments)?;
            put_list(lists, c.site, loans);
            Ok(())
        }
        Stmt::If(_, b) | Stmt::While(_, b) => loans_in(alloc, places, b, lists),
        Stmt::IfElse(_, b, c) => {
            loans_in(alloc, places, b, lists)?;
            loans_in(alloc, places, c, lists)
        }
        Stmt::Scope(b) => loans_in(alloc, places, b, lists),
        Stmt::Cut(_, b) => loans_in(alloc, places, b, lists),
        Stmt::Region(_, b) => loans_in(alloc, places, b, lists),
        Stmt::Declare(_, _)
        | Stmt::DeclareArray(_, _)
        | Stmt::Assign(_, _)
        | Stmt::AssignElement(_, _, _)
        | Stmt::Reduce(_, _, _)
        | Stmt::Begin(_)
        | Stmt::Sync
        | Stmt::Print(_)
        | Stmt::Return(_) => Ok(()),
    }
}

// Returns the loans of the arrays among arguments that are only read.
fn loans_of(alloc: Global, places: &Places, arguments: &[Argument]) -> Result<Vec<Loan>, AllocError>
    ensures { IfOk result (λ loans. loans.items ≡ loans_passed places.now arguments.now) }
{
    let mut loans = Vec::new(alloc);
    for argument in arguments {
        if let Argument::Shared(slot) = argument {
            loans.push(places.place(*slot))?;
        }
    }
    Ok(loans)
}
