//! The abstract state at a pc, and what an instruction requires of it.

ghost use Rattle.std.specs.Prelude.{◌≡◌};
ghost use Rattle.cw_code.specs.Fits as fits;
ghost use Rattle.cw_code.specs.declared.code.Instr.TheVariants as instr;
ghost use Rattle.cw_verify.specs.Table as table;
ghost use Rattle.cw_verify.specs.Views as views;

use crate::named::{lent_of, params_of, passed_of};
use crate::round::{self, Rounds};
use crate::row::{self, Row};
use cw_code::code::{Callee, Code, Func, Halves, Inner, Instr, Loan};
use cw_model::syntax::CallKind;
use cw_text::Fault;
use std::alloc::Global;
use std::rc::Rc;

/// The abstract state at a pc. Its rows and blocks are shared with other pcs that have the same ones.
#[derive(Drop)]
pub struct Found {
    /// The number of operands.
    pub operands: usize,
    /// For each integer slot, whether it may be empty until the next join of the innermost sync block.
    pub empty: Rc<Row>,
    /// For each array slot, whether it may be empty until that join.
    pub gone: Rc<Row>,
    /// For each array slot, whether it may be frozen until that join because it was lent to a spawned call.
    pub frozen: Rc<Row>,
    /// The sync blocks that enclose the innermost one in the same call.
    pub outer: Rc<Rounds>,
}

// Returns whether an integer slot exists and is not empty.
fn has_slot(found: &Found, a: u32) -> bool
    ensures { result ≡ fits.has_slot (table.shape_view found.now) a }
{
    row::is_full_in(&found.empty, a as usize) && round::full_in_all(&found.outer, a as usize)
}

// Returns whether an array slot exists and is not empty.
fn has_array(found: &Found, a: u32) -> bool
    ensures { result ≡ fits.has_array (table.shape_view found.now) a }
{
    row::is_full_in(&found.gone, a as usize) && round::there_in_all(&found.outer, a as usize)
}

// Returns whether each of these array slots exists and is not empty.
fn has_arrays(found: &Found, passed: &[u32]) -> bool
    ensures { result ≡ fits.has_arrays (table.shape_view found.now) passed.now }
{
    for a in passed {
        if !has_array(found, *a) {
            return false;
        }
    }
    true
}

// Returns whether the array that a loan names exists and its slot is not empty.
fn has_loan(found: &Found, loan: Loan) -> bool
    ensures { result ≡ fits.has_loan (table.shape_view found.now) loan }
{
    match loan {
        Loan::Array(a) => has_array(found, a),
        Loan::Reader(_) => true,
    }
}

// Returns whether the array that each loan names exists and its slot is not empty.
fn has_loans(found: &Found, loans: &[Loan]) -> bool
    ensures { result ≡ fits.has_loans (table.shape_view found.now) loans.now }
{
    for loan in loans {
        if !has_loan(found, *loan) {
            return false;
        }
    }
    true
}

// Returns whether the slot of a result, if there is one, exists and is not empty.
fn has_target(found: &Found, target: Option<u32>) -> bool
    ensures { result ≡ fits.has_target (table.shape_view found.now) target }
{
    match target {
        None => true,
        Some(a) => has_slot(found, a),
    }
}

// Returns whether a call has its arguments; a spawn must have no other operand.
fn has_arguments(kind: CallKind, params: usize, operands: usize) -> bool
    ensures { result ≡ fits.has_arguments kind params operands }
{
    match kind {
        CallKind::Plain => params <= operands,
        CallKind::Spawned => params == operands,
    }
}

// Returns whether a call has what it requires.
fn has_call(code: &Code, found: &Found, kind: CallKind, c: &Callee) -> bool
    ensures { result ≡ views.is_ready code.now found.now (instr.Call kind c.now) }
{
    let arguments = has_arguments(kind, params_of(code, c.function), found.operands);
    (arguments && (has_target(found, c.target) && has_arrays(found, passed_of(code, c.passed))))
        && has_loans(found, lent_of(code, c.lent))
}

// Returns whether no sync block is open in the call.
fn none_open(rounds: &Rounds) -> bool
    ensures { result ≡ fits.none_open (table.rounds_of rounds.now) }
{
    match rounds {
        Rounds::Outermost => true,
        Rounds::Within(_, _) => false,
    }
}

// Returns whether a sync block is open in the call that no cut began.
fn can_close(rounds: &Rounds) -> bool
    ensures { result ≡ fits.can_close (table.rounds_of rounds.now) }
{
    match rounds {
        Rounds::Outermost => false,
        Rounds::Within(round, _) => round.cut.is_none(),
    }
}

// Returns whether no sync block marks the slots of the parts of a cut as empty.
fn has_parts(rounds: &Rounds, cut: Option<Halves>) -> bool
    ensures { result ≡ fits.has_parts (fits.gone_rows (table.rounds_of rounds.now)) cut }
{
    match cut {
        None => false,
        Some(h) => {
            round::there_in_all(rounds, h.left as usize)
                && round::there_in_all(rounds, h.right as usize)
        }
    }
}

// Returns whether a cut began the innermost sync block, and no enclosing block marks the slots of its parts as empty.
fn can_uncut(rounds: &Rounds) -> bool
    ensures { result ≡ fits.can_uncut (table.rounds_of rounds.now) }
{
    match rounds {
        Rounds::Outermost => false,
        Rounds::Within(round, _) => has_parts(rounds, round.cut),
    }
}

// Returns whether a cut has its array, the slots of its parts and its position, and these slots hold no part of
// another cut.
fn can_cut(found: &Found, h: Halves) -> bool
    ensures { result ≡ table.can_cut (table.shape_view found.now) h }
{
    let array = has_array(found, h.array);
    let parts = has_array(found, h.left) && has_array(found, h.right);
    let left = round::is_no_part(h.left, &found.outer);
    let right = round::is_no_part(h.right, &found.outer);
    ((array && parts) && 1 <= found.operands) && (left && right)
}

/// Returns whether an instruction has what it requires.
pub fn is_ready(code: &Code, found: &Found, i: &Instr) -> bool
    ensures { result ≡ views.is_ready code.now found.now i.now }
{
    match i {
        Instr::Push(_) => true,
        Instr::Load(a) => has_slot(found, *a),
        Instr::Store(a) => has_slot(found, *a) && 1 <= found.operands,
        Instr::Unary(_, _) => 1 <= found.operands,
        Instr::Binary(_, _) => 2 <= found.operands,
        Instr::Skip(_) => true,
        Instr::SkipIfZero(_) => 1 <= found.operands,
        Instr::GoBack(_) => true,
        Instr::Call(kind, c) => has_call(code, found, *kind, c),
        Instr::Recur(kind, c) => {
            has_arguments(*kind, params_of(code, c.function), found.operands)
                && has_arrays(found, passed_of(code, c.passed))
        }
        Instr::Start(c, _) => {
            params_of(code, c.function) <= found.operands
                && has_arrays(found, passed_of(code, c.passed))
        }
        Instr::NewArray(a, _) => {
            (has_array(found, *a) && 1 <= found.operands) && round::is_no_part(*a, &found.outer)
        }
        Instr::Length(a) => has_array(found, *a),
        Instr::Element(a, _) => has_array(found, *a) && 1 <= found.operands,
        Instr::SetElement(a, _) => has_array(found, *a) && 2 <= found.operands,
        Instr::ReadLength(_) => true,
        Instr::ReadElement(_, _) => 1 <= found.operands,
        Instr::Cut(h, _) => can_cut(found, *h),
        Instr::EndCut => found.operands == 0 && can_uncut(&found.outer),
        Instr::Sync => found.operands == 0,
        Instr::Open(_) => true,
        Instr::Close => found.operands == 0 && can_close(&found.outer),
        Instr::Print => 1 <= found.operands,
        Instr::Reduce(_) => 1 <= found.operands,
        Instr::ReturnValue => 1 <= found.operands && none_open(&found.outer),
        Instr::Return => none_open(&found.outer),
    }
}

// Returns whether an array slot exists and no sync block marks it as frozen.
fn is_thawed_slot(found: &Found, a: u32) -> bool
    ensures { result ≡ table.is_thawed_slot (table.shape_view found.now) a }
{
    row::is_full_in(&found.frozen, a as usize) && round::thawed_in_all(&found.outer, a as usize)
}

// Returns whether each of these array slots exists and no sync block marks it as frozen.
fn are_thawed(found: &Found, slots: &[u32]) -> bool
    ensures { result ≡ table.are_thawed (table.shape_view found.now) slots.now }
{
    for a in slots {
        if !is_thawed_slot(found, *a) {
            return false;
        }
    }
    true
}

// Returns whether no sync block marks the slots of a cut as frozen.
fn is_cut_thawed(rounds: &Rounds, cut: Option<Halves>) -> bool
    ensures { result ≡ table.is_cut_thawed (table.rounds_of rounds.now) cut }
{
    match cut {
        None => true,
        Some(h) => {
            round::thawed_in_all(rounds, h.array as usize)
                && (round::thawed_in_all(rounds, h.left as usize)
                    && (round::thawed_in_all(rounds, h.right as usize) && true))
        }
    }
}

// Returns whether no block that encloses the innermost one marks the slots of the cut that ends here as frozen.
fn is_uncut_thawed(rounds: &Rounds) -> bool
    ensures { result ≡ table.is_uncut_thawed (table.rounds_of rounds.now) }
{
    match rounds {
        Rounds::Outermost => true,
        Rounds::Within(round, _) => is_cut_thawed(rounds, round.cut),
    }
}

/// Returns whether an instruction changes nothing that is frozen.
pub fn is_thawed(code: &Code, found: &Found, i: &Instr) -> bool
    ensures { result ≡ views.is_thawed code.now found.now i.now }
{
    match i {
        Instr::Call(_, c) => are_thawed(found, passed_of(code, c.passed)),
        Instr::Recur(_, c) => are_thawed(found, passed_of(code, c.passed)),
        Instr::Start(c, _) => are_thawed(found, passed_of(code, c.passed)),
        Instr::NewArray(a, _) => are_thawed(found, &[*a]),
        Instr::SetElement(a, _) => are_thawed(found, &[*a]),
        Instr::Cut(h, _) => are_thawed(found, &[h.array, h.left, h.right]),
        Instr::EndCut => is_uncut_thawed(&found.outer),
        _ => true,
    }
}

/// Returns an abstract state with the same shape.
///
/// # Errors
///
/// `Fault::Memory` if there is not enough memory.
pub fn copy(found: &Found) -> Result<Found, Fault>
    ensures { table.FindsShape result (table.shape_view found.now) }
{
    let empty = found.empty.clone()?;
    let gone = found.gone.clone()?;
    let frozen = found.frozen.clone()?;
    let outer = found.outer.clone()?;
    Ok(Found {
        operands: found.operands,
        empty,
        gone,
        frozen,
        outer,
    })
}

/// Returns the abstract state at the first instruction of a function.
///
/// # Errors
///
/// `Fault::Memory` if there is not enough memory.
pub fn first(alloc: Global, f: &Func) -> Result<Found, Fault>
    ensures { table.FindsShape result (fits.first_shape f.now) }
{
    let empty = row::shared_none(alloc, f.slots)?;
    let gone = row::shared_none(alloc, f.arrays)?;
    let frozen = gone.clone()?;
    let outer = Rc::new(alloc, Rounds::Outermost)?;
    Ok(Found {
        operands: 0,
        empty,
        gone,
        frozen,
        outer,
    })
}
