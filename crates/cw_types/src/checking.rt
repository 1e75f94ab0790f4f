//! The check of limits, names and types, and the resolution of names.

ghost use Rattle.std.specs.Prelude.{◌≡◌, MatchOption, MatchResult, IfOk, IfSome, None, [], is_some, not};
ghost use Rattle.cw_model.specs.Answers.{main_name};
ghost use Rattle.cw_model.specs.Lines.{lowest};
ghost use Rattle.cw_model.specs.Names.{is_among};
ghost use Rattle.cw_model.specs.Sizes.{limit_faults};
ghost use Rattle.cw_model.specs.Typing.{type_faults};
ghost use Rattle.cw_tree.specs.SyntaxView.{program_of};
ghost use Rattle.cw_text.specs.Rising.{kept};
ghost use Rattle.cw_text.specs.RecordedReasons.{AreLeast, AreOf, itself, lines_at, no_place};
ghost use Rattle.cw_types.specs.Faults.{IsIllTyped, IsPassedAt, IsTypedOf, IsWithin, refused_lines};
ghost use Rattle.cw_types.specs.Names.{function_names};
ghost use Rattle.cw_types.specs.ReasonMeaning.{IsNoMain, BreaksRule};
ghost use Rattle.cw_types.specs.Within.{program_in};

use crate::functions::functions_faults;
use crate::globals::Globals;
use crate::limits::limits;
use crate::program::resolve;
use crate::reason::{IllTyped, TooLarge};
use crate::repeated::{repeated_functions, repeated_reducers, shared_names};
use crate::rules::MAIN;
use cw_text::{At, Fault, Place, Reasons};
use cw_tree::Typed;
use cw_tree::laws::{plain_of_resolved, resolved_is_fitting, resolved_is_right};
use cw_tree::syntax::Ast;
use std::alloc::{AllocError, Global};

/// Checks limits, names and types, and returns the tree with each name looked up. Drops the syntax tree in each case.
///
/// # Errors
///
/// - `Size` at the least line that exceeds a limit: 1,024 functions, 32 reducers, 16 parameters of a function, 256
///   names that a function declares, 64 distinct tags, 32 bytes of a tag;
/// - otherwise `Types` at the least line that breaks a rule of names and types; a program without `main` breaks a rule
///   in line 1;
/// - `Memory` if there is no memory for the resolved tree.
pub fn check(alloc: Global, ast: Ast) -> Result<Typed, Fault>
    ensures { MatchResult result (IsTypedOf (program_of ast)) (IsIllTyped (program_of ast)) }
{
    if let Some(at) = too_large(alloc, &ast)? {
        return Err(Fault::Size(Place { line: at.line }));
    }
    if let Some(line) = first_line(alloc, &ast)? {
        return Err(Fault::Types(Place { line }));
    }
    let tree = resolve(alloc, &ast)?;
    plain_of_resolved();
    resolved_is_right();
    resolved_is_fitting();
    Ok(Typed { tree })
}

/// Returns the least line of a tree that exceeds a limit on its parts, with a limit that it exceeds; `None` if no
/// limit is exceeded.
///
/// # Errors
///
/// Returns an error if memory runs out.
pub fn too_large(alloc: Global, ast: &Ast) -> Result<Option<At<TooLarge<'_>>>, AllocError>
    ensures { IfOk result (λ told. MatchOption told (IsWithin (program_of ast.now))
        (IsPassedAt (program_of ast.now))) }
{
    let size = limits(alloc, ast)?;
    Ok(size.first)
}

/// Returns the least fifty lines of a tree that break a rule of names and types, in increasing order. Each line has
/// the first reason found for it, which is true there. Returns no lines if a limit is exceeded.
///
/// # Errors
///
/// Returns an error if memory runs out.
pub fn ill_typed(alloc: Global, ast: &Ast) -> Result<Reasons<IllTyped<'_>>, AllocError>
    ensures lines { IfOk result (AreLeast (refused_lines (program_of ast.now))) }
    ensures holds { IfOk result (AreOf (BreaksRule (program_of ast.now))) }
{
    match too_large(alloc, ast)? {
        Some(_) => Ok(Reasons::new()),
        None => {
            let told = faults(alloc, ast)?;
            Ok(told)
        }
    }
}

// Returns the least line that breaks a rule of names and types.
fn first_line(alloc: Global, ast: &Ast) -> Result<Option<u32>, AllocError>
    requires { limit_faults (program_of ast.now) ≡ [] }
    ensures { IfOk result (λ line. line ≡ lowest None (type_faults (program_of ast.now))) }
{
    let told = faults(alloc, ast)?;
    match told.first() {
        Some(at) => Ok(Some(at.line)),
        None => Ok(None),
    }
}

// Returns the least lines that break a rule of names and types, with the reasons.
fn faults<'a>(alloc: Global, ast: &'a Ast) -> Result<Reasons<IllTyped<'a>>, AllocError>
    requires { limit_faults (program_of ast.now) ≡ [] }
    ensures lines { IfOk result (λ told.
        lines_at told.places ≡ kept itself no_place (type_faults (program_of ast.now))) }
    ensures holds { IfOk result (AreOf (BreaksRule (program_of ast.now))) }
{
    let globals = Globals::new(alloc, ast)?;
    let mut told = Reasons::new();
    told.note(no_main(&globals), 1);
    repeated_functions(alloc, &ast.functions, &mut told)?;
    repeated_reducers(alloc, &ast.reducers, &mut told)?;
    shared_names(&ast.functions, &ast.reducers, &mut told);
    functions_faults(alloc, &globals, &mut told)?;
    Ok(told)
}

// Returns a reason if there is no function `main`.
fn no_main<'a>(globals: &Globals<'a>) -> Option<IllTyped<'a>>
    ensures decides { is_some result
        ≡ not (is_among main_name (function_names (program_in globals.now).functions)) }
    ensures holds { IfSome result (IsNoMain (program_in globals.now)) }
{
    if globals.functions.has(MAIN) {
        return None;
    }
    Some(IllTyped::NoMain)
}
