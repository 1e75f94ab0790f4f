//! Looks up the names in the parts of a statement outside of its blocks.

ghost use Rattle.std.specs.Prelude.{◌≡◌, ◌<◌, ◌+◌, ◌^◌, length, map, drop, IfOk};
ghost use Rattle.cw_types.specs.Found as looked;
ghost use Rattle.cw_tree.specs.Resolved as spec;
ghost use Rattle.cw_tree.specs.ResolvedView.{use_of, listed_of};
ghost use Rattle.cw_tree.specs.SyntaxView.{param_of};

use crate::callees::params_of;
use crate::captured::captured;
use crate::lists::Lists;
use crate::locals::Locals;
use crate::table::Table;
use cw_model::syntax::NameKind;
use cw_tree::resolved as tree;
use cw_tree::syntax::{Call, Cut, Expr, Head, Name, Param};
use std::alloc::{AllocError, Global};

/// Returns a copy of a name.
///
/// # Errors
///
/// Returns an error if memory runs out.
pub fn copy(alloc: Global, name: &Name) -> Result<Name, AllocError>
    ensures { IfOk result (λ copied. copied ≡ name.now) }
{
    let shared = name.share(alloc)?;
    Ok(shared)
}

/// Returns a use of a name among these names.
///
/// # Errors
///
/// Returns an error if memory runs out.
pub fn use_of(alloc: Global, names: &Table, name: &Name) -> Result<tree::Use, AllocError>
    ensures { IfOk result (λ used. use_of used ≡ spec.use_of names.now name.now) }
{
    let slot = names.find(name.as_bytes());
    let name = copy(alloc, name)?;
    Ok(tree::Use { name, slot })
}

/// Returns the declaration of a name after these names.
///
/// # Errors
///
/// Returns an error if memory runs out.
pub fn next_use(alloc: Global, names: &Table, name: &Name) -> Result<tree::Use, AllocError>
    ensures { IfOk result (λ used. use_of used ≡ spec.next_use names.now name.now) }
{
    let slot = names.len();
    let name = copy(alloc, name)?;
    Ok(tree::Use { name, slot })
}

/// Returns a use of a name that a program lists.
///
/// # Errors
///
/// Returns an error if memory runs out.
pub fn listed(alloc: Global, names: &Table, name: &Name) -> Result<tree::Listed, AllocError>
    ensures { IfOk result (λ used. listed_of used ≡ spec.listed_in names.now name.now) }
{
    let index = names.find(name.as_bytes());
    let name = copy(alloc, name)?;
    Ok(tree::Listed { name, index })
}

/// Returns an expression with each name looked up.
///
/// # Errors
///
/// Returns an error if memory runs out.
#[cycle(expressions)]
pub fn expression(alloc: Global, locals: &Locals, e: &Expr) -> Result<tree::Expr, AllocError>
    ensures { IfOk result (looked.IsExpr locals.now e.now) }
{
    match e {
        Expr::Number(n) => Ok(tree::Expr::Number(*n)),
        Expr::Variable(x) => {
            let used = use_of(alloc, &locals.ints, x)?;
            Ok(tree::Expr::Variable(used))
        }
        Expr::Element(a, i) => {
            let used = use_of(alloc, &locals.arrays, a)?;
            let index = boxed(alloc, locals, i)?;
            Ok(tree::Expr::Element(used, index))
        }
        Expr::Length(a) => {
            let used = use_of(alloc, &locals.arrays, a)?;
            Ok(tree::Expr::Length(used))
        }
        Expr::Negative(d) => {
            let operand = boxed(alloc, locals, d)?;
            Ok(tree::Expr::Negative(operand))
        }
        Expr::Not(d) => {
            let operand = boxed(alloc, locals, d)?;
            Ok(tree::Expr::Not(operand))
        }
        Expr::Binary(operator, d, e) => {
            let left = boxed(alloc, locals, d)?;
            let right = boxed(alloc, locals, e)?;
            Ok(tree::Expr::Binary(*operator, left, right))
        }
    }
}

/// Returns an expression with each name looked up, in a box.
///
/// # Errors
///
/// Returns an error if memory runs out.
#[cycle(expressions)]
pub fn boxed(alloc: Global, locals: &Locals, e: &Expr) -> Result<Box<tree::Expr>, AllocError>
    ensures { IfOk result (λ found. looked.IsExpr locals.now e.now found.value) }
{
    let found = expression(alloc, locals, e)?;
    let found = Box::new(alloc, found)?;
    Ok(found)
}

// Reports whether the first of these parameters is a read-only array.
fn is_reader(params: &[Param]) -> bool
    ensures { result ≡ spec.is_reader (map param_of params.now) }
{
    match params {
        [] => false,
        [first, ..] => matches!(first.kind, NameKind::Const),
    }
}

// Returns the parameters after the first one.
fn after_first(params: &[Param]) -> &[Param]
    ensures { map param_of result.now ≡ drop 1 (map param_of params.now) }
{
    match params {
        [] => params,
        [_, rest @ ..] => rest,
    }
}

// Returns a name as an argument for the first of these parameters.
fn name_alone(
    alloc: Global,
    locals: &Locals,
    params: &[Param],
    name: &Name,
) -> Result<tree::Argument, AllocError>
    ensures { IfOk result (looked.IsNameAlone locals.now params.now name.now) }
{
    match locals.arrays.place(name.as_bytes()) {
        None => {
            let used = use_of(alloc, &locals.ints, name)?;
            Ok(tree::Argument::Int(tree::Expr::Variable(used)))
        }
        Some(slot) => {
            let name = copy(alloc, name)?;
            let used = tree::Use { name, slot };
            if is_reader(params) {
                return Ok(tree::Argument::Shared(used));
            }
            Ok(tree::Argument::Array(used))
        }
    }
}

// Returns an argument for the first of these parameters, with each name looked up.
fn argument(
    alloc: Global,
    locals: &Locals,
    params: &[Param],
    e: &Expr,
) -> Result<tree::Argument, AllocError>
    ensures { IfOk result (looked.IsArgument locals.now params.now e.now) }
{
    match e {
        Expr::Variable(x) => {
            let found = name_alone(alloc, locals, params, x)?;
            Ok(found)
        }
        Expr::Number(_)
        | Expr::Element(_, _)
        | Expr::Length(_)
        | Expr::Negative(_)
        | Expr::Not(_)
        | Expr::Binary(_, _, _) => {
            let found = expression(alloc, locals, e)?;
            Ok(tree::Argument::Int(found))
        }
    }
}

// Returns the arguments for these parameters, in order.
fn arguments(
    alloc: Global,
    locals: &Locals,
    params: &[Param],
    es: &[Expr],
) -> Result<Vec<tree::Argument>, AllocError>
    ensures { IfOk result (λ found. looked.AreArguments locals.now params.now es.now found.items) }
{
    let mut found = Vec::new(alloc);
    let mut left = params;
    for e in es {
        let argument = argument(alloc, locals, left, e)?;
        found.push(argument)?;
        left = after_first(left);
    }
    Ok(found)
}

// Returns the integer that receives the result of a call, if there is one.
fn target(
    alloc: Global,
    names: &Table,
    name: &Option<Name>,
) -> Result<Option<tree::Use>, AllocError>
    ensures { IfOk result (looked.IsTarget names.now name.now) }
{
    match name {
        None => Ok(None),
        Some(x) => {
            let used = use_of(alloc, names, x)?;
            Ok(Some(used))
        }
    }
}

/// Returns the expression that a return evaluates, if there is one.
///
/// # Errors
///
/// Returns an error if memory runs out.
pub fn returned(
    alloc: Global,
    locals: &Locals,
    e: &Option<Expr>,
) -> Result<Option<tree::Expr>, AllocError>
    ensures { IfOk result (looked.IsReturned locals.now e.now) }
{
    match e {
        None => Ok(None),
        Some(e) => {
            let found = expression(alloc, locals, e)?;
            Ok(Some(found))
        }
    }
}

/// Returns a call with its names and its callee looked up.
///
/// # Errors
///
/// Returns an error if memory runs out.
pub fn call(
    alloc: Global,
    lists: &Lists,
    locals: &Locals,
    c: &Call,
) -> Result<tree::Call, AllocError>
    ensures { IfOk result (looked.IsCall lists.now locals.now c.now) }
{
    let target = target(alloc, &locals.ints, &c.target)?;
    let callee = listed(alloc, &lists.functions, &c.callee)?;
    let params = params_of(lists, c.callee.as_bytes());
    let arguments = arguments(alloc, locals, params, &c.arguments)?;
    Ok(tree::Call {
        kind: c.kind,
        site: c.site,
        target,
        callee,
        arguments,
    })
}

// Returns the arrays of a loop.
fn arrays(alloc: Global, names: &Table, over: &[Name]) -> Result<Vec<tree::Use>, AllocError>
    ensures { IfOk result (λ found. map use_of found.items ≡ map (spec.use_of names.now) over.now) }
{
    let mut found = Vec::new(alloc);
    for name in over {
        let used = use_of(alloc, names, name)?;
        found.push(used)?;
    }
    Ok(found)
}

/// Returns the resolved head of a loop; `body` is the resolved body, which determines the captured integers.
///
/// # Errors
///
/// Returns an error if memory runs out.
pub fn head(
    alloc: Global,
    locals: &Locals,
    head: &Head,
    body: &[tree::Line],
) -> Result<tree::Head, AllocError>
    ensures { IfOk result (looked.IsHead locals.now head.now body.now) }
{
    let variable = next_use(alloc, &locals.ints, &head.variable)?;
    let captured = captured(alloc, locals.ints.len(), body)?;
    let over = arrays(alloc, &locals.arrays, &head.over)?;
    let from = expression(alloc, locals, &head.from)?;
    let to = expression(alloc, locals, &head.to)?;
    Ok(tree::Head {
        variable,
        from,
        to,
        grain: head.grain,
        captured,
        over,
    })
}

/// Returns a cut with each name looked up.
///
/// # Errors
///
/// Returns an error if memory runs out.
pub fn cut(alloc: Global, locals: &Locals, cut: &Cut) -> Result<tree::Cut, AllocError>
    requires { length locals.now.arrays + 1 < 2 ^ 32 }
    ensures { IfOk result (looked.IsCut locals.now cut.now) }
{
    let array = use_of(alloc, &locals.arrays, &cut.array)?;
    let left = next_use(alloc, &locals.arrays, &cut.left)?;
    let name = copy(alloc, &cut.right)?;
    let slot = left.slot + 1;
    let right = tree::Use { name, slot };
    let at = expression(alloc, locals, &cut.at)?;
    Ok(tree::Cut {
        array,
        at,
        left,
        right,
    })
}
