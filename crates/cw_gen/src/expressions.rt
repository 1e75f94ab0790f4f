//! Generates the code of expressions and arguments.

ghost use Rattle.std.specs.Prelude.{◌≡◌};
ghost use Rattle.cw_gen.specs.Emit as spec;
ghost use Rattle.cw_gen.specs.Written.{Adds, written_arg, written_args, written_expr, written_valued};

use crate::array_places::Places;
use crate::jumps::put;
use cw_code::code::{Instr, Loan, UnaryOperator};
use cw_loops::tree::{Argument, Expr};
use std::alloc::AllocError;

/// Appends the code of an expression in this line, with operands from left to right.
///
/// # Errors
///
/// Returns an error if memory runs out.
pub(crate) fn expression(
    instrs: &mut Vec<Instr>,
    places: &Places,
    line: u32,
    e: &Expr,
) -> Result<(), AllocError>
    ensures { Adds instrs.old instrs.new (written_expr places.now line e.now) result }
{
    match e {
        Expr::Number(n) => put(instrs, Instr::Push(*n)),
        Expr::Variable(u) => put(instrs, Instr::Load(*u)),
        Expr::Element(u, e) => {
            expression(instrs, places, line, e)?;
            put(instrs, element_at(places.place(*u), line))
        }
        Expr::Length(u) => put(instrs, length_at(places.place(*u))),
        Expr::Negative(e) => {
            expression(instrs, places, line, e)?;
            put(instrs, Instr::Unary(UnaryOperator::Negative, line))
        }
        Expr::Not(e) => {
            expression(instrs, places, line, e)?;
            put(instrs, Instr::Unary(UnaryOperator::Not, line))
        }
        Expr::Binary(operator, d, e) => {
            expression(instrs, places, line, d)?;
            expression(instrs, places, line, e)?;
            put(instrs, Instr::Binary(*operator, line))
        }
    }
}

// Returns the instruction that loads an element of an array; the last operand is the index.
fn element_at(place: Loan, line: u32) -> Instr
    ensures { result ≡ spec.element_at place line }
{
    match place {
        Loan::Array(a) => Instr::Element(a, line),
        Loan::Reader(r) => Instr::ReadElement(r, line),
    }
}

// Returns the instruction that loads the length of an array.
fn length_at(place: Loan) -> Instr
    ensures { result ≡ spec.length_at place }
{
    match place {
        Loan::Array(a) => Instr::Length(a),
        Loan::Reader(r) => Instr::ReadLength(r),
    }
}

/// Appends the code of an expression, and an instruction that uses its value.
///
/// # Errors
///
/// Returns an error if memory runs out.
pub(crate) fn valued(
    instrs: &mut Vec<Instr>,
    places: &Places,
    line: u32,
    e: &Expr,
    instr: Instr,
) -> Result<(), AllocError>
    ensures { Adds instrs.old instrs.new (written_valued places.now line e.now instr) result }
{
    expression(instrs, places, line, e)?;
    put(instrs, instr)
}

// Appends the code of an argument; an array has no code.
fn argument(
    instrs: &mut Vec<Instr>,
    places: &Places,
    line: u32,
    e: &Argument,
) -> Result<(), AllocError>
    ensures { Adds instrs.old instrs.new (written_arg places.now line e.now) result }
{
    match e {
        Argument::Int(e) => expression(instrs, places, line, e),
        Argument::Array(_) | Argument::Shared(_) => Ok(()),
    }
}

/// Appends the code of arguments, from left to right.
///
/// # Errors
///
/// Returns an error if memory runs out.
pub(crate) fn arguments(
    instrs: &mut Vec<Instr>,
    places: &Places,
    line: u32,
    es: &[Argument],
) -> Result<(), AllocError>
    ensures { Adds instrs.old instrs.new (written_args places.now line es.now) result }
{
    for e in es {
        argument(instrs, places, line, e)?;
    }
    Ok(())
}

/// Appends instructions that load the integers in these slots.
///
/// # Errors
///
/// Returns an error if memory runs out.
pub(crate) fn loads(instrs: &mut Vec<Instr>, slots: &[u32]) -> Result<(), AllocError>
    ensures { Adds instrs.old instrs.new (spec.emitted_loads slots.now) result }
{
    for slot in slots {
        put(instrs, Instr::Load(*slot))?;
    }
    Ok(())
}
