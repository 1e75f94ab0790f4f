//! The check of ownership.

ghost use Rattle.std.specs.Prelude.{◌≡◌, ◌≤◌, IfOk, MatchOption, MatchResult, OnOk, length, map, true};
ghost use Rattle.std.specs.List.{list_all};
ghost use Rattle.cw_model.specs.declared.limits.TheConstants.{MOST_PARAMETERS};
ghost use Rattle.cw_model.specs.Ownership.{KeepsOwnership};
ghost use Rattle.cw_tree.specs.ResolvedView.{program_of, resolved_of, param_of, function_of};
ghost use Rattle.cw_own.specs.Bounds.{small_function};
ghost use Rattle.cw_own.specs.Faults.{AreLeastFaults, BreaksOwnership, IsFirstTold, IsLeastFault};
ghost use Rattle.cw_own.specs.Sets.{row_of, no_local};
ghost use Rattle.cw_own.specs.Taken.{with_params};
ghost use Rattle.cw_own.specs.Views.{reasons_of, reasons_of_all, AreRecorded};

use crate::findings::{Findings, Local};
use crate::gains::{Gains, turns};
use crate::owned::Owned;
use crate::reason::{Disowned, Holder};
use crate::row::Row;
use crate::rules::{Turns, record_sync_block};
use crate::taken::Taken;
use cw_model::syntax::NameKind;
use cw_text::{At, Fault, Place, Reasons};
use cw_tree::Typed;
use cw_tree::resolved::{Function, Param};
use std::alloc::{AllocError, Global};

/// Checks ownership, and returns the same tree.
///
/// # Errors
///
/// - `Ownership` at the least line that breaks a rule of ownership: a statement touches a local that a spawn or a cut
///   has taken, changes an array that a spawn has frozen, passes an array twice and not only to read it, or uses an
///   outer local of its loop other than to read it; or the name of a declaration is still held at the end of its block;
/// - `Memory` if there is no memory for a row of 112 bytes for each `while` of one function.
///
/// Drops the tree in each of these cases.
pub fn own(alloc: Global, typed: Typed) -> Result<Owned, Fault>
    ensures { MatchResult result (λ owned. owned.typed.tree ≡ typed.tree)
        (BreaksOwnership (program_of typed.tree)) }
{
    let told = first_broken(alloc, &typed)?;
    match told {
        Some(first) => Err(Fault::Ownership(Place { line: first.line })),
        None => Ok(Owned { typed }),
    }
}

// Returns the least line that breaks a rule, with the rule.
fn first_broken(alloc: Global, typed: &Typed) -> Result<Option<At<Disowned<'_>>>, AllocError>
    ensures { IfOk result (λ told. MatchOption told (KeepsOwnership (program_of typed.now.tree))
        (IsLeastFault typed.now.tree)) }
{
    let told = broken(alloc, typed, None)?;
    Ok(told.first())
}

/// Returns the least fifty lines that break a rule of ownership, increasing, each with the first rule that it breaks
/// and the names that break it; no lines if the tree keeps ownership. If a name is held in the first of these lines,
/// its reason has the line since which the name is held.
///
/// # Errors
///
/// Returns an error if memory runs out, as in `own`.
pub fn disowned(alloc: Global, typed: &Typed) -> Result<Reasons<Disowned<'_>>, AllocError>
    ensures first { IfOk result (IsFirstTold typed.now.tree) }
    ensures all { IfOk result (AreLeastFaults typed.now.tree) }
{
    let told = broken(alloc, typed, None)?;
    match held_local(told.first()) {
        None => Ok(told),
        Some(local) => {
            let told = broken(alloc, typed, Some(local))?;
            Ok(told)
        }
    }
}

// Returns the local that is held according to the reason, if the reason concerns a held local.
fn held_local(told: Option<At<Disowned<'_>>>) -> Option<Local> {
    match told?.reason {
        Disowned::Restrictions(used, _, holder, _) | Disowned::EndsHeld(used, holder, _) => {
            Some(local_of(used.slot, holder))
        }
        _ => None,
    }
}

// Returns the local with this slot that this holder holds.
fn local_of(slot: u32, holder: Holder) -> Local {
    match holder {
        Holder::Result => Local::Int(slot),
        Holder::Argument | Holder::Reader | Holder::Cut => Local::Array(slot),
    }
}

// Returns the lines that break a rule; watches this local.
fn broken(
    alloc: Global,
    typed: &Typed,
    watched: Option<Local>,
) -> Result<Reasons<Disowned<'_>>, AllocError>
    ensures first { IfOk result (IsFirstTold typed.now.tree) }
    ensures all { IfOk result (AreLeastFaults typed.now.tree) }
{
    let mut told = Findings::new(watched);
    record_functions(alloc, &typed.tree.functions, &mut told)?;
    let Findings { reasons, watch: _ } = told;
    Ok(reasons)
}

// Records each line of these functions that breaks a rule.
#[tactic(auto, using(crate::proofs::Small::kept_append))]
fn record_functions<'a>(
    alloc: Global,
    functions: &'a [Function],
    told: &mut Findings<'a>,
) -> Result<(), AllocError>
    requires { list_all small_function (map function_of functions.now) ≡ true }
    ensures { OnOk result (AreRecorded told.old told.new (reasons_of_all functions.now)) }
{
    for function in functions {
        record_function(alloc, function, told)?;
    }
    Ok(())
}

// Records each line of a function that breaks a rule.
fn record_function<'a>(
    alloc: Global,
    function: &'a Function,
    told: &mut Findings<'a>,
) -> Result<(), AllocError>
    requires { small_function (function_of function.now) ≡ true }
    ensures { OnOk result (AreRecorded told.old told.new (reasons_of function.now)) }
{
    let known = with_params(&function.params);
    let mut gains = Gains::new(alloc, told.watch.local);
    turns(&known, &function.body, &mut gains);
    if !gains.complete {
        return Err(AllocError);
    }
    let mut rest = Turns {
        left: gains.rows.as_slice(),
    };
    let mut taken = Taken::nothing();
    record_sync_block(&None, &known, &mut taken, &function.body, &mut rest, told);
    Ok(())
}

// Returns the parameters as known locals: the parameters of each kind have the first slots of the kind.
fn with_params(params: &[Param]) -> Row
    requires { length (map param_of params.now) ≤ MOST_PARAMETERS }
    ensures { row_of result ≡ with_params 0 0 (map param_of params.now) no_local }
{
    let mut known = Row::none();
    let mut ints = 0;
    let mut arrays = 0;
    for param in params {
        match param.kind {
            NameKind::Integer => {
                known.add_int(ints);
                ints += 1;
            }
            NameKind::Array | NameKind::Const => {
                known.add_array(arrays);
                arrays += 1;
            }
        }
    }
    known
}
