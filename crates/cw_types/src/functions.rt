//! Checks the rules of names and types in functions.

ghost use Rattle.std.specs.Prelude.{◌≡◌, [], Contains, IfOk, IfSome, OnOk, is_some, map, not, true};
ghost use Rattle.std.specs.List.{list_any};
ghost use Rattle.cw_model.specs.Names.{is_among};
ghost use Rattle.cw_model.specs.Syntax as model;
ghost use Rattle.cw_model.specs.Typing as rule;
ghost use Rattle.cw_tree.specs.SyntaxView.{function_of, param_of, program_of};
ghost use Rattle.cw_types.specs.Names.{param_names};
ghost use Rattle.cw_types.specs.Returned as returned;
ghost use Rattle.cw_types.specs.Scope.{with_params};
ghost use Rattle.cw_text.specs.RecordedReasons.{RecordsOnOk, AddsOnly};
ghost use Rattle.cw_types.specs.ReasonMeaning.{BreaksRule, IsWrongFunction, IsWrongMain, IsWrongParams, are_arrays};
ghost use Rattle.cw_types.specs.Typing.{are_new, is_right_main, returns_well};
ghost use Rattle.cw_types.specs.Within.{IsToldIn, faults_in_function, faults_of_all, program_in};

use crate::bodies::block;
use crate::globals::Globals;
use crate::known::Known;
use crate::reason::IllTyped;
use crate::rules::{Returns, block_returns, is_array, is_main, of_global};
use cw_text::Reasons;
use cw_tree::syntax::{Function, Name, Param};
use std::alloc::{AllocError, Global};

/// Records the lines of all functions that break a rule.
///
/// # Errors
///
/// Returns an error if memory runs out.
pub fn functions_faults<'a>(
    alloc: Global,
    globals: &Globals<'a>,
    told: &mut Reasons<IllTyped<'a>>,
) -> Result<(), AllocError>
    ensures lines { RecordsOnOk (faults_of_all (program_in globals.now)) told.old told.new result }
    ensures told { OnOk result (AddsOnly (BreaksRule (program_in globals.now)) told.old told.new) }
{
    for function in globals.ast.functions.as_slice() {
        function_faults(alloc, globals, function, told)?;
    }
    Ok(())
}

// Records the lines of one function that break a rule.
fn function_faults<'a>(
    alloc: Global,
    globals: &Globals<'a>,
    function: &'a Function,
    told: &mut Reasons<IllTyped<'a>>,
) -> Result<(), AllocError>
    ensures lines { RecordsOnOk (faults_in_function globals.now function.now) told.old told.new result }
    ensures told { OnOk result
        (AddsOnly (IsToldIn globals.now function.now) told.old told.new) }
{
    told.note(of_head(globals, function), function.line);
    let mut known = known_in(alloc, function)?;
    block(
        globals,
        returns_of(function),
        &mut known,
        function.body.as_slice(),
        told,
    )?;
    Ok(())
}

// Returns the parameters of a function as known names, at the line of its head.
fn known_in<'a>(alloc: Global, function: &'a Function) -> Result<Known<'a>, AllocError>
    ensures { IfOk result (λ known.
        known ≡ with_params function.now.line (map param_of function.now.params.items) []) }
{
    let mut known = Known::new(alloc);
    for param in function.params.as_slice() {
        known.declare(param.name.as_bytes(), param.kind, function.line)?;
    }
    Ok(known)
}

// Returns the kind of `return` that the body of a function may contain.
fn returns_of(function: &Function) -> Returns
    ensures { returned.returns_of result ≡ returned.returns_in (function_of function.now) }
{
    if function.gives_int {
        return Returns::WithInt;
    }
    Returns::Alone
}

// Returns a rule that the head of a function breaks.
fn of_head<'a>(globals: &Globals<'a>, function: &'a Function) -> Option<IllTyped<'a>>
    ensures decides { is_some result
        ≡ not (rule.is_head (program_of globals.now.ast.now) (function_of function.now)) }
    ensures holds { IfSome result
        (IsWrongFunction (program_of globals.now.ast.now) (function_of function.now)) }
{
    if let Some(reason) = of_params(globals, function.params.as_slice()) {
        return Some(reason);
    }
    if may_end(function) {
        return Some(IllTyped::MayNotReturn(&function.name));
    }
    if let Some(reason) = of_main(function) {
        return Some(reason);
    }
    None
}

// Reports whether a function returns an integer but may end without a return.
fn may_end(function: &Function) -> bool
    ensures { result ≡ not (returns_well (function_of function.now)) }
{
    let returns = block_returns(function.body.as_slice());
    function.gives_int && !returns
}

// Returns a rule that a parameter of a function breaks.
fn of_params<'a>(globals: &Globals<'a>, params: &'a [Param]) -> Option<IllTyped<'a>>
    ensures decides { is_some result
        ≡ not (are_new (program_of globals.now.ast.now) [] (map param_of params.now)) }
    ensures holds { IfSome result
        (IsWrongParams (program_of globals.now.ast.now) (map param_of params.now)) }
{
    for i in 0..params.len() {
        let param = &params[i];
        if is_param(&params[..i], &param.name) {
            return Some(IllTyped::ParameterTwice(&param.name));
        }
        if let Some(reason) = of_global(globals, &param.name) {
            return Some(reason);
        }
    }
    None
}

// Reports whether one of these parameters has this name.
fn is_param(params: &[Param], name: &Name) -> bool
    ensures { result ≡ is_among name.now (param_names (map param_of params.now)) }
{
    for param in params {
        if name.as_bytes() == param.name.as_bytes() {
            return true;
        }
    }
    false
}

// Returns a rule that the head of `main` breaks.
fn of_main(function: &Function) -> Option<IllTyped<'_>>
    ensures decides { is_some result ≡ not (is_right_main (function_of function.now)) }
    ensures holds { IfSome result (IsWrongMain (function_of function.now)) }
{
    if !is_main(function) {
        return None;
    }
    if !function.gives_int {
        return Some(IllTyped::MainGivesNothing);
    }
    let array = first_array(function.params.as_slice())?;
    Some(IllTyped::MainTakesArray(array))
}

// Returns the first of these parameters that is an array.
fn first_array(params: &[Param]) -> Option<&Name>
    ensures decides { is_some result
        ≡ list_any (λ p. model.is_array_param p) (map param_of params.now) }
    ensures holds { IfSome result (λ name.
        Contains (are_arrays (map param_of params.now)) (name.now, true)) }
{
    for param in params {
        if is_array(param.kind) {
            return Some(&param.name);
        }
    }
    None
}
