//! Whether everything that an instruction names exists.

ghost use Rattle.std.specs.Prelude.{◌≡◌, ◌+◌, ◌<◌, ◌≤◌, length, drop, Some, slice_get};
ghost use Rattle.cw_code.specs.Code.{code_view, reducer_names, site_view};
ghost use Rattle.cw_code.specs.Fits as fits;
ghost use Rattle.cw_code.specs.Run.{lent_by, passed_by};
ghost use Rattle.cw_model.specs.Sites.{Of};
ghost use Rattle.cw_verify.specs.Table as table;
ghost use Rattle.cw_verify.specs.Views as views;

use crate::row::{Row, is_full_in, none_empty, set};
use cw_code::code::{BlockKind, Callee, Code, Func, Halves, Inner, Instr, Loan, Reducer, Site};
use cw_model::syntax::{CallKind, Name};
use cw_text::Fault;
use std::alloc::Global;

/// Returns the number of arguments of a function, 0 if there is no such function.
pub fn params_of(code: &Code, function: u32) -> usize
    ensures { result ≡ fits.params_of (slice_get (code_view code.now).funcs function) }
{
    match code.funcs.get(function as usize) {
        None => 0,
        Some(f) => f.params,
    }
}

/// Returns the number of arrays that a function takes, 0 if there is no such function.
pub fn array_params_of(code: &Code, function: u32) -> usize
    ensures { result ≡ fits.array_params_of (slice_get (code_view code.now).funcs function) }
{
    match code.funcs.get(function as usize) {
        None => 0,
        Some(f) => f.array_params,
    }
}

/// Returns the number of arrays that are lent to a function, 0 if there is no such function.
pub fn readers_of(code: &Code, function: u32) -> usize
    ensures { result ≡ fits.readers_of (slice_get (code_view code.now).funcs function) }
{
    match code.funcs.get(function as usize) {
        None => 0,
        Some(f) => f.readers,
    }
}

/// Returns a list of array slots by its index, an empty one if there is no such list.
pub fn passed_of(code: &Code, list: u32) -> &[u32]
    ensures { result.now ≡ passed_by (code_view code.now) list }
{
    match code.passed.get(list as usize) {
        None => &[],
        Some(slots) => slots,
    }
}

/// Returns a list of loans by its index, an empty one if there is no such list.
pub fn lent_of(code: &Code, list: u32) -> &[Loan]
    ensures { result.now ≡ lent_by (code_view code.now) list }
{
    match code.lent.get(list as usize) {
        None => &[],
        Some(loans) => loans,
    }
}

/// Returns whether the function exists and its calls return a value.
pub fn gives_value(code: &Code, function: u32) -> bool
    ensures { result ≡ fits.gives_value (slice_get (code_view code.now).funcs function) }
{
    match code.funcs.get(function as usize) {
        None => false,
        Some(f) => f.gives_int,
    }
}

// Returns whether two kinds are equal.
fn is_kind(kind: CallKind, other: CallKind) -> bool
    ensures { result ≡ fits.is_kind kind (Of other) }
{
    match (kind, other) {
        (CallKind::Plain, CallKind::Plain) => true,
        (CallKind::Spawned, CallKind::Spawned) => true,
        (CallKind::Plain, CallKind::Spawned) => false,
        (CallKind::Spawned, CallKind::Plain) => false,
    }
}

// Returns whether a site has the number, the kind and the function of a call.
fn is_site(kind: CallKind, c: &Callee, site: &Site) -> bool
    ensures { result ≡ fits.is_site kind c.now (Some (site_view site.now)) }
{
    let same = is_kind(kind, site.kind);
    site.number == c.site && (same && site.function == c.function)
}

// Returns whether the site of a call exists.
fn names_site(code: &Code, kind: CallKind, c: &Callee) -> bool
    requires { 0 < c.now.site }
    ensures { result ≡ fits.is_site kind c.now (views.site_of code.now c.now) }
{
    match code.sites.get(c.site as usize - 1) {
        None => false,
        Some(site) => is_site(kind, c, site),
    }
}

// Returns whether the slot of a result, if there is one, exists and the callee returns a value.
fn names_target(code: &Code, f: &Func, c: &Callee) -> bool
    ensures { result ≡ fits.names_target (code_view code.now) f.now c.now c.now.target }
{
    match c.target {
        None => true,
        Some(a) => (a as usize) < f.slots && gives_value(code, c.function),
    }
}

// Returns whether these slots exist, none of them is marked in the row, and none occurs twice.
fn are_unmarked(row: Row, slots: &[u32]) -> bool
    ensures { result ≡ table.are_unmarked row.items slots.now }
{
    let mut row = row;
    for a in slots {
        if !is_full_in(&row, *a as usize) {
            return false;
        }
        set(&mut row, *a as usize, true);
    }
    true
}

// Returns whether these are array slots of the caller, and none occurs twice.
fn names_arrays(alloc: Global, arrays: usize, passed: &[u32]) -> Result<bool, Fault>
    ensures { table.Tests result (fits.names_arrays arrays passed.now) }
{
    let row = none_empty(alloc, arrays)?;
    Ok(are_unmarked(row, passed))
}

// Returns whether a function exists, and the caller names one of its array slots for each array that the function
// takes.
fn names_passed(
    alloc: Global,
    code: &Code,
    f: &Func,
    function: u32,
    list: u32,
) -> Result<bool, Fault>
    ensures { table.Tests result (views.names_passed code.now f.now function list) }
{
    let passed = passed_of(code, list);
    if function as usize >= code.funcs.len() || passed.len() != array_params_of(code, function) {
        return Ok(false);
    }
    let named = names_arrays(alloc, f.arrays, passed)?;
    Ok(named)
}

// Returns whether the slot is not one of these.
fn is_none_of(a: u32, slots: &[u32]) -> bool
    ensures { result ≡ fits.is_none_of a slots.now }
{
    for b in slots {
        if a == *b {
            return false;
        }
    }
    true
}

// Returns whether a loan is an array slot of the caller that is not one of these, or an array that was lent to the
// caller.
fn names_loan(f: &Func, passed: &[u32], loan: Loan) -> bool
    ensures { result ≡ fits.names_loan f.now passed.now loan }
{
    match loan {
        Loan::Array(a) => (a as usize) < f.arrays && is_none_of(a, passed),
        Loan::Reader(r) => (r as usize) < f.readers,
    }
}

// Returns whether `names_loan` holds for each of these loans.
fn names_loans(f: &Func, passed: &[u32], loans: &[Loan]) -> bool
    ensures { result ≡ fits.names_loans f.now passed.now loans.now }
{
    for loan in loans {
        if !names_loan(f, passed, *loan) {
            return false;
        }
    }
    true
}

// Returns whether the number of loans is the number of arrays that the function reads, and the call takes none of
// them.
fn names_lent(code: &Code, f: &Func, function: u32, passed: &[u32], loans: &[Loan]) -> bool
    ensures { result ≡ fits.names_lent (code_view code.now) f.now function passed.now loans.now }
{
    loans.len() == readers_of(code, function) && names_loans(f, passed, loans)
}

// Returns whether the site of a call and the slot of its result exist.
fn names_call(code: &Code, f: &Func, kind: CallKind, c: &Callee) -> bool
    ensures { result ≡ table.names_call (code_view code.now) f.now kind c.now }
{
    0 < c.site && (names_site(code, kind, c) && names_target(code, f, c))
}

// Returns whether what a call names exists, except its loans.
fn names_callee(
    alloc: Global,
    code: &Code,
    f: &Func,
    kind: CallKind,
    c: &Callee,
) -> Result<bool, Fault>
    ensures { table.Tests result (fits.names_callee (code_view code.now) f.now kind c.now) }
{
    let passed = names_passed(alloc, code, f, c.function, c.passed)?;
    Ok(passed && names_call(code, f, kind, c))
}

// Returns whether what a call names exists, including its loans.
fn names_call_lent(
    alloc: Global,
    code: &Code,
    f: &Func,
    kind: CallKind,
    c: &Callee,
) -> Result<bool, Fault>
    ensures { table.Tests result (table.names_call_lent (code_view code.now) f.now kind c.now) }
{
    let named = names_callee(alloc, code, f, kind, c)?;
    let passed = passed_of(code, c.passed);
    let loans = lent_of(code, c.lent);
    Ok(named && names_lent(code, f, c.function, passed, loans))
}

// Returns whether the loop function that a call names exists, with its arrays, and is lent none.
fn names_inner(alloc: Global, code: &Code, f: &Func, c: &Inner) -> Result<bool, Fault>
    ensures { table.Tests result (fits.names_inner (code_view code.now) f.now c.now) }
{
    let named = names_passed(alloc, code, f, c.function, c.passed)?;
    Ok(named && names_lent(code, f, c.function, passed_of(code, c.passed), &[]))
}

// Returns whether what the first call of a loop function names exists, and the function takes a range.
fn names_start(alloc: Global, code: &Code, f: &Func, c: &Inner) -> Result<bool, Fault>
    ensures { table.Tests result (table.names_start (code_view code.now) f.now c.now) }
{
    let named = names_inner(alloc, code, f, c)?;
    Ok(named && 2 <= params_of(code, c.function))
}

// Returns whether the slots of a cut exist and differ, and no part goes into the slot of a parameter.
fn names_halves(f: &Func, h: Halves) -> bool
    ensures { result ≡ fits.names_halves f.now h }
{
    let array = (h.array as usize) < f.arrays && (h.array != h.left && h.array != h.right);
    let left = (h.left as usize) < f.arrays && h.left != h.right;
    let right = (h.right as usize) < f.arrays;
    let own = f.array_params <= h.left as usize && f.array_params <= h.right as usize;
    (array && (left && right)) && own
}

// Returns whether the tag of a region exists.
fn names_tag(code: &Code, kind: &BlockKind) -> bool
    ensures { result ≡ fits.names_tag (code_view code.now) kind.now }
{
    match kind {
        BlockKind::Scope => true,
        BlockKind::Region(k) => (*k as usize) < code.tags.len(),
    }
}

/// Returns whether everything that an instruction names exists.
///
/// # Errors
///
/// `Fault::Memory` if there is not enough memory.
pub fn names_well(
    alloc: Global,
    code: &Code,
    f: &Func,
    place: usize,
    i: &Instr,
) -> Result<bool, Fault>
    requires from { f.now.start ≤ place }
    requires to { place < f.now.end }
    ensures { table.Tests result (fits.names_well (code_view code.now) f.now place i.now) }
{
    match i {
        Instr::Push(_) => Ok(true),
        Instr::Load(a) => Ok((*a as usize) < f.slots),
        Instr::Store(a) => Ok((*a as usize) < f.slots),
        Instr::Unary(_, _) => Ok(true),
        Instr::Binary(_, _) => Ok(true),
        Instr::Skip(n) => Ok((*n as usize) < f.end - place - 1),
        Instr::SkipIfZero(n) => Ok((*n as usize) < f.end - place - 1),
        Instr::GoBack(n) => Ok(*n as usize <= place - f.start),
        Instr::Call(kind, c) => names_call_lent(alloc, code, f, *kind, c),
        Instr::Recur(_, c) => names_inner(alloc, code, f, c),
        Instr::Start(c, _) => names_start(alloc, code, f, c),
        Instr::NewArray(a, _) => { Ok((*a as usize) < f.arrays && f.array_params <= *a as usize) }
        Instr::Length(a) => Ok((*a as usize) < f.arrays),
        Instr::Element(a, _) => Ok((*a as usize) < f.arrays),
        Instr::SetElement(a, _) => Ok((*a as usize) < f.arrays),
        Instr::ReadLength(r) => Ok((*r as usize) < f.readers),
        Instr::ReadElement(r, _) => Ok((*r as usize) < f.readers),
        Instr::Cut(h, _) => Ok(names_halves(f, *h)),
        Instr::EndCut => Ok(true),
        Instr::Sync => Ok(true),
        Instr::Open(kind) => Ok(names_tag(code, kind)),
        Instr::Close => Ok(true),
        Instr::Print => Ok(true),
        Instr::Reduce(k) => Ok((*k as usize) < code.reducers.len()),
        Instr::ReturnValue => Ok(f.gives_int),
        Instr::Return => Ok(!f.gives_int),
    }
}

/// Returns whether everything that the instructions of a function name exists.
///
/// # Errors
///
/// `Fault::Memory` if there is not enough memory.
pub fn all_named(alloc: Global, code: &Code, f: &Func) -> Result<bool, Fault>
    requires { f.now.end ≤ length code.now.instrs.items }
    ensures { table.Decides result (table.AllNamed (code_view code.now) f.now) }
{
    for place in f.start..f.end {
        if !names_well(alloc, code, f, place, &code.instrs[place])? {
            return Ok(false);
        }
    }
    Ok(true)
}

// Returns whether a name is one of `names`, from index `from` on.
fn is_among(name: &Name, names: &[Name], from: usize) -> bool
    ensures { result ≡ fits.is_among name.now (drop from names.now) }
{
    for k in from..names.len() {
        if name.as_bytes() == names[k].as_bytes() {
            return true;
        }
    }
    false
}

/// Returns whether no name occurs twice.
pub fn are_apart(names: &[Name]) -> bool
    ensures { result ≡ fits.are_apart names.now }
{
    for k in 0..names.len() {
        if is_among(&names[k], names, k + 1) {
            return false;
        }
    }
    true
}

// Returns whether a name is the name of one of these reducers, from index `from` on.
fn is_name_of(name: &Name, reducers: &[Reducer], from: usize) -> bool
    ensures { result ≡ fits.is_among name.now (drop from (reducer_names reducers.now)) }
{
    for k in from..reducers.len() {
        if name.as_bytes() == reducers[k].name.as_bytes() {
            return true;
        }
    }
    false
}

/// Returns whether no two reducers have the same name.
pub fn are_named_apart(reducers: &[Reducer]) -> bool
    ensures { result ≡ fits.are_apart (reducer_names reducers.now) }
{
    for k in 0..reducers.len() {
        if is_name_of(&reducers[k].name, reducers, k + 1) {
            return false;
        }
    }
    true
}

/// Returns the pc that is `n` after the next one. It must be before `end`.
pub fn past(place: usize, n: u32, end: usize) -> usize
    requires { place + 1 + n < end }
    ensures { result ≡ place + 1 + n }
{
    let _end = end;
    place + 1 + n as usize
}
