//! The abstract state after an instruction.

ghost use Rattle.std.specs.Prelude.{◌≡◌, ◌+◌, ◌-◌, ◌≤◌, true};
ghost use Rattle.cw_code.specs.Fits as fits;
ghost use Rattle.cw_code.specs.declared.code.Instr.TheVariants as instr;
ghost use Rattle.cw_verify.specs.Table as table;
ghost use Rattle.cw_verify.specs.Views as views;
ghost use Rattle.cw_verify.specs.Steps.{OrMemory};

use crate::found::Found;
use crate::named::{lent_of, params_of, passed_of};
use crate::round::{Round, Rounds};
use crate::row::{self, Row, cleared};
use cw_code::code::{Callee, Code, Halves, Inner, Instr, Loan};
use cw_model::syntax::CallKind;
use cw_text::Fault;
use std::alloc::Global;
use std::rc::Rc;

// Adds one operand. If their number overflows, no memory could hold them.
fn one_more(found: Found) -> Result<Found, Fault>
    ensures { table.FindsShape result (views.holding (found.operands + 1) found) }
{
    match found.operands.checked_add(1) {
        Some(operands) => Ok(Found { operands, ..found }),
        None => Err(Fault::Memory),
    }
}

// Removes operands.
fn less(found: Found, count: usize) -> Found
    requires { count ≤ found.operands }
    ensures { table.shape_view result ≡ views.holding (found.operands - count) found }
{
    let operands = found.operands - count;
    Found { operands, ..found }
}

// Returns the row after a spawn marked the slot of its result, if there is one, as empty.
fn with_target(alloc: Global, row: Rc<Row>, target: Option<u32>) -> Result<Rc<Row>, Fault>
    ensures { OrMemory result (λ r. r.value.items ≡ views.after_spawn target row.value.items) }
{
    match target {
        None => Ok(row),
        Some(a) => {
            let mut taken = Vec::from_slice(alloc, &row)?;
            row::set(&mut taken, a as usize, true);
            let taken = Rc::new(alloc, taken)?;
            Ok(taken)
        }
    }
}

// Returns the row after arrays were taken out of these slots.
fn with_gone(alloc: Global, row: Rc<Row>, passed: &[u32]) -> Result<Rc<Row>, Fault>
    ensures { OrMemory result (λ r. r.value.items ≡ fits.with_gone passed.now row.value.items) }
{
    if passed.is_empty() {
        return Ok(row);
    }
    let mut taken = Vec::from_slice(alloc, &row)?;
    row::set_all(&mut taken, passed);
    let taken = Rc::new(alloc, taken)?;
    Ok(taken)
}

// Returns the row after the array slots among these loans were lent.
fn with_lent(alloc: Global, row: Rc<Row>, loans: &[Loan]) -> Result<Rc<Row>, Fault>
    ensures { OrMemory result (λ r. r.value.items ≡ views.with_loans loans.now row.value.items) }
{
    if loans.is_empty() {
        return Ok(row);
    }
    let mut lent = Vec::from_slice(alloc, &row)?;
    row::freeze_all(&mut lent, loans);
    let lent = Rc::new(alloc, lent)?;
    Ok(lent)
}

// Returns the state after a call took its arguments. A spawn also leaves the slot of its result and the slots of its
// arrays empty, and what it was lent frozen.
fn called(
    alloc: Global,
    code: &Code,
    found: Found,
    kind: CallKind,
    c: &Callee,
) -> Result<Found, Fault>
    requires { views.is_ready code.now found (instr.Call kind c.now) ≡ true }
    ensures { table.FindsShape result (views.leaves code.now found (instr.Call kind c.now)) }
{
    let left = less(found, params_of(code, c.function));
    match kind {
        CallKind::Plain => Ok(left),
        CallKind::Spawned => {
            let empty = with_target(alloc, left.empty, c.target)?;
            let gone = with_gone(alloc, left.gone, passed_of(code, c.passed))?;
            let frozen = with_lent(alloc, left.frozen, lent_of(code, c.lent))?;
            Ok(Found {
                operands: left.operands,
                empty,
                gone,
                frozen,
                outer: left.outer,
            })
        }
    }
}

// Returns the state after the function of a loop called itself.
fn recurred(
    alloc: Global,
    code: &Code,
    found: Found,
    kind: CallKind,
    c: &Inner,
) -> Result<Found, Fault>
    requires { views.is_ready code.now found (instr.Recur kind c.now) ≡ true }
    ensures { table.FindsShape result (views.leaves code.now found (instr.Recur kind c.now)) }
{
    let left = less(found, params_of(code, c.function));
    match kind {
        CallKind::Plain => Ok(left),
        CallKind::Spawned => {
            let gone = with_gone(alloc, left.gone, passed_of(code, c.passed))?;
            Ok(Found {
                operands: left.operands,
                empty: left.empty,
                gone,
                frozen: left.frozen,
                outer: left.outer,
            })
        }
    }
}

// Returns the state after a join.
fn synced(alloc: Global, found: Found) -> Result<Found, Fault>
    ensures { table.FindsShape result (table.synced_shape (table.shape_view found)) }
{
    let empty = cleared(alloc, found.empty)?;
    let gone = cleared(alloc, found.gone)?;
    let frozen = cleared(alloc, found.frozen)?;
    Ok(Found {
        operands: found.operands,
        empty,
        gone,
        frozen,
        outer: found.outer,
    })
}

// Returns the state after a sync block began, by this cut if there is one. The current rows become the rows of the
// enclosing block.
fn opened(alloc: Global, found: Found, cut: Option<Halves>) -> Result<Found, Fault>
    ensures { table.FindsShape result (table.opened_by cut (table.shape_view found)) }
{
    let empty = cleared(alloc, found.empty.clone()?)?;
    let gone = cleared(alloc, found.gone.clone()?)?;
    let frozen = cleared(alloc, found.frozen.clone()?)?;
    let round = Round {
        empty: found.empty,
        gone: found.gone,
        frozen: found.frozen,
        cut,
    };
    let outer = Rc::new(alloc, Rounds::Within(round, found.outer))?;
    Ok(Found {
        operands: found.operands,
        empty,
        gone,
        frozen,
        outer,
    })
}

// Returns the state after a cut began. The slot of its array is empty until its end.
fn cut(alloc: Global, found: Found, h: Halves) -> Result<Found, Fault>
    requires { 1 ≤ found.operands }
    ensures { table.FindsShape result (table.cut_shape h (table.shape_view found)) }
{
    let left = less(found, 1);
    let mut gone = Vec::from_slice(alloc, &left.gone)?;
    row::set(&mut gone, h.array as usize, true);
    let gone = Rc::new(alloc, gone)?;
    let begun = opened(alloc, Found { gone, ..left }, Some(h))?;
    Ok(begun)
}

// Returns the state after a sync block ended: the rows of the enclosing block apply again.
fn closed(found: Found) -> Result<Found, Fault>
    ensures { table.FindsShape result (views.closed found) }
{
    let (empty, gone, frozen, outer) = match found.outer.as_ref() {
        Rounds::Outermost => return Ok(found),
        Rounds::Within(round, outer) => (
            round.empty.clone()?,
            round.gone.clone()?,
            round.frozen.clone()?,
            outer.clone()?,
        ),
    };
    Ok(Found {
        operands: found.operands,
        empty,
        gone,
        frozen,
        outer,
    })
}

// Returns the row after the array of a cut is back in its slot.
fn put_back(alloc: Global, row: &Rc<Row>, cut: Option<Halves>) -> Result<Rc<Row>, Fault>
    ensures { OrMemory result (λ r. r.value.items ≡ fits.with_uncut cut row.now.value.items) }
{
    match cut {
        None => Ok(row.clone()?),
        Some(h) => {
            let mut back = Vec::from_slice(alloc, row)?;
            row::set(&mut back, h.array as usize, false);
            let back = Rc::new(alloc, back)?;
            Ok(back)
        }
    }
}

// Returns the state after a cut ended: the rows of the enclosing block apply again, and the array is back.
fn close_cut(alloc: Global, found: Found) -> Result<Found, Fault>
    ensures { table.FindsShape result (views.cut_closed found) }
{
    let (empty, gone, frozen, outer) = match found.outer.as_ref() {
        Rounds::Outermost => return Ok(found),
        Rounds::Within(round, outer) => {
            let gone = put_back(alloc, &round.gone, round.cut)?;
            let frozen = round.frozen.clone()?;
            (round.empty.clone()?, gone, frozen, outer.clone()?)
        }
    };
    Ok(Found {
        operands: found.operands,
        empty,
        gone,
        frozen,
        outer,
    })
}

/// Returns the abstract state after an instruction.
///
/// # Errors
///
/// `Fault::Memory` if there is not enough memory.
pub fn leave(alloc: Global, code: &Code, found: Found, i: &Instr) -> Result<Found, Fault>
    requires { views.is_ready code.now found i.now ≡ true }
    ensures { table.FindsShape result (views.leaves code.now found i.now) }
{
    match i {
        Instr::Push(_) => one_more(found),
        Instr::Load(_) => one_more(found),
        Instr::Store(_) => Ok(less(found, 1)),
        Instr::Unary(_, _) => Ok(found),
        Instr::Binary(_, _) => Ok(less(found, 1)),
        Instr::Skip(_) => Ok(found),
        Instr::SkipIfZero(_) => Ok(less(found, 1)),
        Instr::GoBack(_) => Ok(found),
        Instr::Call(kind, c) => called(alloc, code, found, *kind, c),
        Instr::Recur(kind, c) => recurred(alloc, code, found, *kind, c),
        Instr::Start(c, _) => Ok(less(found, params_of(code, c.function))),
        Instr::NewArray(_, _) => Ok(less(found, 1)),
        Instr::Length(_) => one_more(found),
        Instr::Element(_, _) => Ok(found),
        Instr::SetElement(_, _) => Ok(less(found, 2)),
        Instr::ReadLength(_) => one_more(found),
        Instr::ReadElement(_, _) => Ok(found),
        Instr::Cut(h, _) => cut(alloc, found, *h),
        Instr::EndCut => close_cut(alloc, found),
        Instr::Sync => synced(alloc, found),
        Instr::Open(_) => opened(alloc, found, None),
        Instr::Close => closed(found),
        Instr::Print => Ok(less(found, 1)),
        Instr::Reduce(_) => Ok(less(found, 1)),
        Instr::ReturnValue => Ok(found),
        Instr::Return => Ok(found),
    }
}
