//! Rows of slots: which slots may be empty.

ghost use Rattle.std.specs.Prelude.{◌≡◌, length, slice_get, slice_set};
ghost use Rattle.cw_code.specs.Fits as fits;
ghost use Rattle.cw_verify.specs.Table as table;
ghost use Rattle.cw_verify.specs.Views as views;
ghost use Rattle.cw_verify.specs.Steps.{OrMemory};

use cw_code::code::Loan;
use cw_text::Fault;
use std::alloc::Global;
use std::rc::Rc;

/// For each slot, whether it may be empty; or, for each array slot, whether it may be frozen. Such a slot is
/// *marked*.
pub type Row = Vec<bool>;

/// Returns a row of this number of slots, none of them marked.
///
/// # Errors
///
/// `Fault::Memory` if there is not enough memory.
pub fn none_empty(alloc: Global, slots: usize) -> Result<Row, Fault>
    ensures { OrMemory result (λ row. row.items ≡ fits.none_empty slots) }
{
    let mut row = Vec::new(alloc);
    for _i in 0..slots {
        row.push(false)?;
    }
    Ok(row)
}

/// Returns a shared row of this number of slots, none of them marked.
///
/// # Errors
///
/// `Fault::Memory` if there is not enough memory.
pub fn shared_none(alloc: Global, slots: usize) -> Result<Rc<Row>, Fault>
    ensures { OrMemory result (λ row. row.value.items ≡ fits.none_empty slots) }
{
    let row = none_empty(alloc, slots)?;
    let row = Rc::new(alloc, row)?;
    Ok(row)
}

// Returns whether a row marks a slot.
fn has_empty(row: &[bool]) -> bool
    ensures { result ≡ table.any_empty row.now }
{
    let mut found = false;
    for a in 0..row.len() {
        found = found | row[a];
    }
    found
}

/// Returns a row of the same length with no slot marked: the same row, if it marks none.
///
/// # Errors
///
/// `Fault::Memory` if there is not enough memory.
pub fn cleared(alloc: Global, row: Rc<Row>) -> Result<Rc<Row>, Fault>
    ensures { OrMemory result (λ r. r.value.items ≡ fits.none_empty (length row.value.items)) }
{
    if !has_empty(&row) {
        return Ok(row);
    }
    shared_none(alloc, row.len())
}

/// Returns whether a row has a slot and does not mark it.
pub fn is_full_in(row: &[bool], a: usize) -> bool
    ensures { result ≡ fits.is_full_in (slice_get row.now a) }
{
    match row.get(a) {
        Some(empty) => !*empty,
        None => false,
    }
}

/// Marks a slot, if it exists, or removes the mark.
pub fn set(row: &mut Row, a: usize, empty: bool)
    ensures { row.new.items ≡ slice_set row.old.items a empty }
{
    if a < row.len() {
        row[a] = empty;
    }
}

/// Marks each of these slots.
pub fn set_all(row: &mut Row, slots: &[u32])
    ensures { row.new.items ≡ fits.with_gone slots.now row.old.items }
{
    for a in slots {
        set(row, *a as usize, true);
    }
}

// Marks the array slot of a loan, if the loan names one.
fn freeze(row: &mut Row, loan: Loan)
    ensures { row.new.items ≡ views.frozen_by loan row.old.items }
{
    match loan {
        Loan::Array(a) => set(row, a as usize, true),
        Loan::Reader(_) => {}
    }
}

/// Marks each array slot among these loans.
pub fn freeze_all(row: &mut Row, loans: &[Loan])
    ensures { row.new.items ≡ views.with_loans loans.now row.old.items }
{
    for loan in loans {
        freeze(row, *loan);
    }
}

/// Returns whether the second row marks a slot that the first row has and does not mark. The loop does not stop
/// early, so that the compiler can process several slots at a time.
pub fn brings(row: &[bool], more: &[bool]) -> bool
    ensures { result ≡ table.brings row.now more.now }
{
    let mut found = false;
    for a in 0..row.len().min(more.len()) {
        found = found | (!row[a] & more[a]);
    }
    found
}

// Returns whether two rows have the same length and `row` marks every slot that `other` marks.
fn has_all(row: &[bool], other: &[bool]) -> bool
    ensures { result ≡ table.has_all row.now other.now }
{
    row.len() == other.len() && !brings(row, other)
}

// Marks a slot if `empty` holds.
fn mark(row: &mut Row, a: usize, empty: bool)
    ensures { row.new.items ≡ views.marked empty a row.old.items }
{
    if empty {
        set(row, a, true);
    }
}

// Returns a row that marks what either row marks.
fn either_empty(alloc: Global, row: &[bool], more: &[bool]) -> Result<Row, Fault>
    ensures { OrMemory result (λ r. r.items ≡ table.either_empty row.now more.now) }
{
    let mut both = Vec::from_slice(alloc, row)?;
    for a in 0..more.len() {
        mark(&mut both, a, more[a]);
    }
    Ok(both)
}

// Returns the same row, shared.
fn share(row: &Rc<Row>) -> Result<Rc<Row>, Fault>
    ensures { OrMemory result (λ r. r.value.items ≡ row.now.value.items) }
{
    let row = row.clone()?;
    Ok(row)
}

/// Merges two rows. Returns a row that marks what either row marks, to be shared, and whether it marks more than the
/// first one. If it does not, the first row is returned; if the second row marks everything that the first one marks,
/// the second one is returned.
///
/// # Errors
///
/// `Fault::Memory` if there is not enough memory.
pub fn shared_either(alloc: Global, row: Rc<Row>, more: &Rc<Row>) -> Result<(Rc<Row>, bool), Fault>
    ensures { OrMemory result (λ r. views.MeetsRow row.value more.now.value r.0.value r.1) }
{
    if !brings(&row, more) {
        return Ok((row, false));
    }
    if has_all(more, &row) {
        let more = share(more)?;
        return Ok((more, true));
    }
    let both = either_empty(alloc, &row, more)?;
    let both = Rc::new(alloc, both)?;
    Ok((both, true))
}
