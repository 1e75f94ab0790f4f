//! Generates the code of a whole tree.

ghost use Rattle.std.specs.Prelude.{◌≡◌, ◌+◌, ◌≤◌, [], length, map, slice_get, IfOk, OnOk};
ghost use Rattle.cw_code.specs.Code as code;
ghost use Rattle.cw_gen.specs.Emit as spec;
ghost use Rattle.cw_gen.specs.Written.{all_code, all_funcs, all_lists, all_loans, code_of_core, lists_of};
ghost use Rattle.cw_gen.specs.Written.{kept_reducers, seen_sites, sites_of};
ghost use Rattle.cw_loops.specs.Small.{IsSmallTree};
ghost use Rattle.cw_model.specs.declared.limits.TheConstants.{MOST_CALL_STATEMENTS};
ghost use Rattle.cw_tree.specs.ResolvedView as view;

use crate::functions::{functions_with, loop_functions};
use crate::lists::{lists_of_bodies, lists_of_loops, no_lists};
use crate::loans::{loans_of_bodies, loans_of_loops};
use cw_code::code::{Code, Func, Instr, Loan, Reducer, Site};
use cw_loops::{Core, tree};
use cw_model::syntax::Name;
use cw_tree::resolved::{self, Function, Tree};
use std::alloc::{AllocError, Global};

/// Returns the code of a tree with lowered loops, with the call sites of its source.
///
/// # Errors
///
/// Returns an error if memory runs out.
pub(crate) fn emit(alloc: Global, core: &Core, sites: Vec<Site>) -> Result<Code, AllocError>
    requires small { IsSmallTree core.now.source.typed.tree core.now.tree }
    requires sites { seen_sites sites.items ≡ sites_of core.now.source.typed.tree.functions.items }
    requires few { length sites.items ≤ MOST_CALL_STATEMENTS }
    ensures { IfOk result (λ made. code.code_view made ≡ code_of_core core.now) }
{
    let source = &core.source.typed.tree;
    let first = sites.len() + 1;
    let mut instrs = Vec::new(alloc);
    let mut funcs = Vec::new(alloc);
    functions(alloc, &mut instrs, &mut funcs, first, source, &core.tree)?;
    let passed = lists(alloc, first, source, &core.tree)?;
    let lent = loans(alloc, first, source, &core.tree)?;
    let reducers = reducers_of(alloc, &source.reducers)?;
    let tags = tags_of(alloc, &source.tags)?;
    Ok(Code {
        instrs,
        funcs,
        main: source.main,
        main_line: head_line(&source.functions, source.main),
        sites,
        reducers,
        tags,
        passed,
        lent,
    })
}

// Appends the code of all functions of a tree.
fn functions(
    alloc: Global,
    instrs: &mut Vec<Instr>,
    funcs: &mut Vec<Func>,
    first: usize,
    source: &Tree,
    lowered: &tree::Tree,
) -> Result<(), AllocError>
    requires small { IsSmallTree source.now lowered.now }
    requires instrs { instrs.old.items ≡ [] }
    requires funcs { funcs.old.items ≡ [] }
    ensures instrs { OnOk result (instrs.new.items ≡ all_code first source.now lowered.now) }
    ensures funcs { OnOk result (funcs.new.items ≡ all_funcs first source.now lowered.now) }
{
    let index = source.functions.len() as u32;
    functions_with(
        alloc,
        instrs,
        funcs,
        first,
        &source.functions,
        &lowered.bodies,
    )?;
    loop_functions(alloc, instrs, funcs, first, index, &lowered.loops)?;
    Ok(())
}

// Returns the lists of array slots of all functions of a tree.
fn lists(
    alloc: Global,
    first: usize,
    source: &Tree,
    lowered: &tree::Tree,
) -> Result<Vec<Vec<u32>>, AllocError>
    requires small { IsSmallTree source.now lowered.now }
    requires first { first ≤ MOST_CALL_STATEMENTS + 1 }
    ensures { IfOk result (λ lists. lists_of lists.items ≡ all_lists first source.now lowered.now) }
{
    let index = source.functions.len() as u32;
    let functions = source.functions.len() + lowered.loops.len();
    let mut lists = no_lists(alloc, first + 3 * functions)?;
    let fs = &source.functions;
    lists_of_bodies(alloc, first, fs, &lowered.bodies, &mut lists)?;
    lists_of_loops(alloc, first, index, &lowered.loops, &mut lists)?;
    Ok(lists)
}

// Returns the loans of all functions of a tree.
fn loans(
    alloc: Global,
    first: usize,
    source: &Tree,
    lowered: &tree::Tree,
) -> Result<Vec<Vec<Loan>>, AllocError>
    requires small { IsSmallTree source.now lowered.now }
    ensures { IfOk result (λ lists. lists_of lists.items ≡ all_loans first source.now lowered.now) }
{
    let mut lists = no_lists(alloc, first)?;
    loans_of_bodies(alloc, &source.functions, &lowered.bodies, &mut lists)?;
    loans_of_loops(alloc, &lowered.loops, &mut lists)?;
    Ok(lists)
}

// Returns the line of the head of a function, or 0 if there is no such function.
fn head_line(functions: &[Function], function: u32) -> u32
    ensures { result ≡ spec.head_line (slice_get (map view.function_of functions.now) function) }
{
    let at = function as usize;
    if at < functions.len() {
        functions[at].line
    } else {
        0
    }
}

// Returns the reducers with their names and reductions.
fn reducers_of(alloc: Global, reducers: &[resolved::Reducer]) -> Result<Vec<Reducer>, AllocError>
    ensures { IfOk result (λ kept. kept.items ≡ kept_reducers reducers.now) }
{
    let mut kept = Vec::new(alloc);
    for r in reducers {
        let name = r.name.share(alloc)?;
        kept.push(Reducer { name, how: r.how })?;
    }
    Ok(kept)
}

// Returns the names of the tags.
fn tags_of(alloc: Global, tags: &[Name]) -> Result<Vec<Name>, AllocError>
    ensures { IfOk result (λ names. names.items ≡ tags.now) }
{
    let mut names = Vec::new(alloc);
    for tag in tags {
        let name = tag.share(alloc)?;
        names.push(name)?;
    }
    Ok(names)
}
