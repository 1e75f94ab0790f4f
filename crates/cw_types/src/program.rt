//! Looks up the names of a whole program.

ghost use Rattle.std.specs.Prelude.{◌≡◌, ◌<◌, ◌+◌, ◌^◌, [], map, length, All, IfOk, OnOk};
ghost use Rattle.cw_model.specs.Sizes.{limit_faults};
ghost use Rattle.cw_tree.specs.SyntaxView as parsed;
ghost use Rattle.cw_types.specs.Found.{AddsInts, AddsArrays, AreFunctions, AreLists, AreReducers, DeclaresFew, IsFunction};
ghost use Rattle.cw_types.specs.Locals.{locals_count};
ghost use Rattle.cw_types.specs.Regions.{AreFirstOfAll};
ghost use Rattle.cw_tree.specs.Resolved as spec;
ghost use Rattle.cw_tree.specs.ResolvedView.{resolved_of, param_of};

use crate::frames::{arrays_of_block, ints_of_block};
use crate::globals::{function_names, reducer_names};
use crate::lists::Lists;
use crate::locals::Locals;
use crate::regions::{Marked, regions};
use crate::resolve::copy;
use crate::rules::MAIN;
use crate::statements::block;
use crate::tags::{different, tag_names, tag_table};
use cw_model::syntax::NameKind;
use cw_tree::resolved as tree;
use cw_tree::syntax::{Ast, Function, Param, Reducer};
use std::alloc::{AllocError, Global};

/// Returns the resolved tree of a program that exceeds no limit.
///
/// # Errors
///
/// Returns an error if memory runs out.
pub fn resolve(alloc: Global, ast: &Ast) -> Result<tree::Tree, AllocError>
    requires { limit_faults (parsed.program_of ast.now) ≡ [] }
    ensures { IfOk result (λ tree. resolved_of tree ≡ spec.resolved (parsed.program_of ast.now)) }
{
    let reducers = reducers(alloc, &ast.reducers)?;
    let marked = marked(alloc, &ast.functions)?;
    let tags = tag_names(alloc, &marked)?;
    let lists = lists(alloc, ast, &marked)?;
    let functions = functions(alloc, &lists, &ast.functions)?;
    let main = lists.functions.find(MAIN);
    Ok(tree::Tree {
        reducers,
        functions,
        tags,
        main,
    })
}

// Returns the first region of each tag.
fn marked<'a>(alloc: Global, functions: &'a [Function]) -> Result<Vec<Marked<'a>>, AllocError>
    ensures { IfOk result (AreFirstOfAll functions.now) }
{
    let regions = regions(alloc, functions)?;
    let found = different(alloc, &regions)?;
    Ok(found)
}

// Returns the names that a program lists; `marked` holds the first region of each tag.
fn lists<'a>(alloc: Global, ast: &'a Ast, marked: &[Marked<'a>]) -> Result<Lists<'a>, AllocError>
    requires limits { limit_faults (parsed.program_of ast.now) ≡ [] }
    requires few { length marked.now < 2 ^ 32 }
    ensures { IfOk result (AreLists ast.now marked.now) }
{
    let functions = function_names(alloc, &ast.functions)?;
    let reducers = reducer_names(alloc, &ast.reducers)?;
    let tags = tag_table(alloc, marked)?;
    Ok(Lists {
        callees: &ast.functions,
        functions,
        reducers,
        tags,
    })
}

// Copies the reducers in order.
fn reducers(alloc: Global, reducers: &[Reducer]) -> Result<Vec<tree::Reducer>, AllocError>
    ensures { IfOk result (λ found. AreReducers reducers.now found.items) }
{
    let mut found = Vec::new(alloc);
    for reducer in reducers {
        let name = copy(alloc, &reducer.name)?;
        let line = reducer.line;
        let how = reducer.how;
        found.push(tree::Reducer { name, how, line })?;
    }
    Ok(found)
}

// Resolves the functions in order.
fn functions(
    alloc: Global,
    lists: &Lists,
    functions: &[Function],
) -> Result<Vec<tree::Function>, AllocError>
    requires { All DeclaresFew functions.now }
    ensures { IfOk result (λ found. AreFunctions lists.now functions.now found.items) }
{
    let mut found = Vec::new(alloc);
    for f in functions {
        let resolved = function(alloc, lists, f)?;
        found.push(resolved)?;
    }
    Ok(found)
}

// Resolves a function.
fn function(alloc: Global, lists: &Lists, f: &Function) -> Result<tree::Function, AllocError>
    requires { DeclaresFew f.now }
    ensures { IfOk result (IsFunction lists.now f.now) }
{
    let mut locals = Locals::new(alloc);
    declare_params(&mut locals, &f.params)?;
    let known_ints = locals.ints.len() as u64;
    let known_arrays = locals.arrays.len() as u64;
    let body = block(alloc, lists, &mut locals, &f.body)?;
    let int_slots = ints_of_block(known_ints, &body);
    let array_slots = arrays_of_block(known_arrays, &body);
    let name = copy(alloc, &f.name)?;
    let params = params(alloc, &f.params)?;
    Ok(tree::Function {
        name,
        line: f.line,
        gives_int: f.gives_int,
        params,
        ints: int_slots as u32,
        arrays: array_slots as u32,
        body,
    })
}

// Declares the parameters.
fn declare_params<'a>(locals: &mut Locals<'a>, params: &'a [Param]) -> Result<(), AllocError>
    requires { locals_count locals.old + length params.now < 2 ^ 32 }
    ensures ints { OnOk result (AddsInts params.now locals.old locals.new) }
    ensures arrays { OnOk result (AddsArrays params.now locals.old locals.new) }
{
    for param in params {
        let name = param.name.as_bytes();
        match param.kind {
            NameKind::Integer => locals.ints.add(name)?,
            NameKind::Array | NameKind::Const => locals.arrays.add(name)?,
        }
    }
    Ok(())
}

// Copies the parameters in order.
fn params(alloc: Global, params: &[Param]) -> Result<Vec<tree::Param>, AllocError>
    ensures { IfOk result (λ found. map param_of found.items ≡ map parsed.param_of params.now) }
{
    let mut found = Vec::new(alloc);
    for param in params {
        let name = copy(alloc, &param.name)?;
        let kind = param.kind;
        found.push(tree::Param { name, kind })?;
    }
    Ok(found)
}
