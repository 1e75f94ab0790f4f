//! Checks the rules of names and types, statement by statement, and returns the reason why a rule is broken.

ghost use Rattle.std.specs.Prelude.{
  ◌≡◌,
  ◌∷◌,
  ◌++◌,
  ◌&&◌,
  ◌||◌,
  [],
  IfSome,
  List,
  Some,
  is_some,
  not,
  option_map,
};
ghost use Rattle.std.specs.List.{list_all};
ghost use Rattle.cw_types.specs.Names.{IsUnknown, accepts_kind};
ghost use Rattle.cw_types.specs.Scope.{Declared, kinds};
ghost use Rattle.cw_types.specs.Reasons.{
  IsBroken,
  IsMisuse,
  IsMisuseIn,
  IsNaming,
  IsNoReducer,
  IsNotNew,
  IsOther,
  IsUsing,
  IsWrongHead,
  is_name,
};
ghost use Rattle.cw_types.specs.Parts.{IsBrokenCall, IsBrokenCut, IsBrokenHead, IsBrokenList};
ghost use Rattle.cw_types.specs.Returned.{returns_of};
ghost use Rattle.cw_types.specs.Typing.{calls, calls_of, cuts, is_head, keeps_rules};
ghost use Rattle.cw_types.specs.Uses.{as_arrays, uses_in, uses_in_argument};
ghost use Rattle.cw_model.specs.declared.syntax.NameKind.TheVariants as name_kind;
ghost use Rattle.cw_model.specs.Answers.{main_name};
ghost use Rattle.cw_model.specs.Names.{is_among, same_name};
ghost use Rattle.cw_model.specs.Syntax as model;
ghost use Rattle.cw_model.specs.Typing as rule;
ghost use Rattle.cw_tree.specs.SyntaxView.{block_of, expr_of, exprs_of, function_of, program_of, stmt_of};

use crate::globals::Globals;
use crate::known::Known;
use crate::reason::{IllTyped, Other};
use cw_model::limits::MOST_GRAIN;
use cw_model::syntax::{NameKind, Reduction};
use cw_tree::syntax::{Call, Cut, Expr, Function, Head, Line, Name, Param, Stmt};

/// The name of the function that a run starts with.
pub const MAIN: &[u8] = b"main";

/// Represents the kind of `return` that a block may contain.
#[derive(Clone, Copy)]
pub enum Returns {
    Nowhere,
    WithInt,
    Alone,
}

/// Returns a rule that a statement breaks, apart from its inner blocks. `returns` is the kind of `return` that the
/// block may contain.
pub fn of_stmt<'a>(
    globals: &Globals<'a>,
    returns: Returns,
    known: &Known<'a>,
    stmt: &'a Stmt,
) -> Option<IllTyped<'a>>
    ensures decides { is_some result
        ≡ not (keeps_rules (program_of globals.now.ast.now) (returns_of returns) (kinds known.now)
        (stmt_of stmt.now)) }
    ensures holds { IfSome result
        (IsBroken (program_of globals.now.ast.now) (returns_of returns) known.now
        (stmt_of stmt.now)) }
{
    match stmt {
        Stmt::Declare(x, e) => of_declare(globals, known, x, e),
        Stmt::DeclareArray(a, e) => of_declare(globals, known, a, e),
        Stmt::Assign(x, e) => of_name_and(globals, known, x, NameKind::Integer, e),
        Stmt::AssignElement(a, i, e) => of_assign_element(globals, known, a, i, e),
        Stmt::Reduce(how, s, e) => of_reduce(globals, known, *how, s, e),
        Stmt::If(e, _) => of_expr(globals, known, e),
        Stmt::IfElse(e, _, _) => of_expr(globals, known, e),
        Stmt::While(e, _) => of_expr(globals, known, e),
        Stmt::Print(e) => of_expr(globals, known, e),
        Stmt::Call(call) => of_call(globals, known, call),
        Stmt::For(head, _) => of_loop(globals, known, head),
        Stmt::Cut(cut, _) => of_cut(globals, known, cut),
        Stmt::Return(value) => of_return(globals, returns, known, value),
        Stmt::Sync | Stmt::Scope(_) | Stmt::Region(_, _) => None,
    }
}

// Returns a reason if the name is not of the required kind, an integer or an array.
fn of_use<'a>(
    globals: &Globals<'a>,
    known: &Known<'a>,
    name: &'a Name,
    wanted: NameKind,
) -> Option<IllTyped<'a>>
    ensures decides { is_some result
        ≡ not (rule.is_known name.now (accepts_kind wanted) (kinds known.now)) }
    ensures holds { IfSome result
        (IsMisuse (program_of globals.now.ast.now) known.now (name.now, wanted)) }
{
    match known.newest(name.as_bytes()) {
        None => Some(of_unknown(globals, name, wanted)),
        Some(local) => match (wanted, local.kind) {
            (NameKind::Integer, NameKind::Integer)
            | (NameKind::Array, NameKind::Array)
            | (NameKind::Const, NameKind::Array)
            | (NameKind::Const, NameKind::Const) => None,
            (NameKind::Integer, NameKind::Array) => Some(IllTyped::NotInteger(
                name,
                Other::Array,
                local.line,
            )),
            (NameKind::Integer, NameKind::Const) => Some(IllTyped::NotInteger(
                name,
                Other::Const,
                local.line,
            )),
            (NameKind::Array, NameKind::Integer) => Some(IllTyped::NotArray(
                name,
                Other::Integer,
                local.line,
            )),
            (NameKind::Const, NameKind::Integer) => Some(IllTyped::NotArray(
                name,
                Other::Integer,
                local.line,
            )),
            (NameKind::Array, NameKind::Const) => { Some(IllTyped::OnlyRead(name, local.line)) }
        },
    }
}

// Returns the reason why a name that no local has is not of the required kind.
fn of_unknown<'a>(globals: &Globals<'a>, name: &'a Name, wanted: NameKind) -> IllTyped<'a>
    ensures { (locals : List Declared) → IsUnknown name.now (kinds locals) →
        IsMisuse (program_of globals.now.ast.now) locals (name.now, wanted) result }
{
    if let Some(function) = globals.function(name.as_bytes()) {
        return misused(globals, name, wanted, Other::Function, function.line);
    }
    if let Some(reducer) = globals.reducer(name.as_bytes()) {
        return misused(globals, name, wanted, Other::Reducer, reducer.line);
    }
    IllTyped::Unknown(name)
}

// Returns the reason why a name is not of the required kind, but of another kind.
fn misused<'a>(
    globals: &Globals<'a>,
    name: &'a Name,
    wanted: NameKind,
    other: Other,
    line: u32,
) -> IllTyped<'a>
    ensures { (locals : List Declared) → IsUnknown name.now (kinds locals) →
        IsOther (program_of globals.now.ast.now) locals name.now other line →
        IsMisuse (program_of globals.now.ast.now) locals (name.now, wanted) result }
{
    match wanted {
        NameKind::Integer => IllTyped::NotInteger(name, other, line),
        NameKind::Array | NameKind::Const => IllTyped::NotArray(name, other, line),
    }
}

// Returns a reason if a name in an expression is not of the required kind.
fn of_expr<'a>(globals: &Globals<'a>, known: &Known<'a>, e: &'a Expr) -> Option<IllTyped<'a>>
    ensures decides { is_some result
        ≡ not (rule.is_fine (kinds known.now) (expr_of e.now)) }
    ensures holds { IfSome result
        (IsMisuseIn (program_of globals.now.ast.now) known.now (uses_in (expr_of e.now))) }
{
    match e {
        Expr::Number(_) => None,
        Expr::Variable(x) => Some(of_use(globals, known, x, NameKind::Integer)?),
        Expr::Length(a) => Some(of_use(globals, known, a, NameKind::Const)?),
        Expr::Negative(e) => {
            let reason = of_expr(globals, known, e)?;
            Some(reason)
        }
        Expr::Not(e) => {
            let reason = of_expr(globals, known, e)?;
            Some(reason)
        }
        Expr::Element(a, e) => {
            if let Some(reason) = of_use(globals, known, a, NameKind::Const) {
                return Some(reason);
            }
            let reason = of_expr(globals, known, e)?;
            Some(reason)
        }
        Expr::Binary(_, d, e) => {
            if let Some(reason) = of_expr(globals, known, d) {
                return Some(reason);
            }
            let reason = of_expr(globals, known, e)?;
            Some(reason)
        }
    }
}

// Returns a reason if the name must not be declared.
fn of_declared<'a>(globals: &Globals<'a>, known: &Known<'a>, name: &'a Name) -> Option<IllTyped<'a>>
    ensures decides { is_some result
        ≡ not (rule.is_new (program_of globals.now.ast.now) (kinds known.now) name.now) }
    ensures holds { IfSome result
        (IsNotNew (program_of globals.now.ast.now) known.now name.now) }
{
    match known.newest(name.as_bytes()) {
        Some(local) => Some(IllTyped::Known(name, local.line)),
        None => {
            let reason = of_global(globals, name)?;
            Some(reason)
        }
    }
}

/// Returns a reason if a function or a reducer has this name.
#[tactic(auto, using(cw_tree::specs::lemmas::Names::among_append))]
pub fn of_global<'a>(globals: &Globals<'a>, name: &'a Name) -> Option<IllTyped<'a>>
    ensures decides { is_some result
        ≡ is_among name.now (rule.globals (program_of globals.now.ast.now)) }
    ensures holds { IfSome result (λ r. (locals : List Declared) →
        IsNotNew (program_of globals.now.ast.now) locals name.now r) }
{
    if let Some(function) = globals.function(name.as_bytes()) {
        return Some(IllTyped::Global(name, Other::Function, function.line));
    }
    if let Some(reducer) = globals.reducer(name.as_bytes()) {
        return Some(IllTyped::Global(name, Other::Reducer, reducer.line));
    }
    None
}

// Returns a reason if a declaration declares a name that it must not, or misuses a name in its value.
fn of_declare<'a>(
    globals: &Globals<'a>,
    known: &Known<'a>,
    x: &'a Name,
    e: &'a Expr,
) -> Option<IllTyped<'a>>
    ensures decides { is_some result
        ≡ not (rule.is_fine (kinds known.now) (expr_of e.now)
        && rule.is_new (program_of globals.now.ast.now) (kinds known.now) x.now) }
    ensures holds { IfSome result (IsNaming (program_of globals.now.ast.now) known.now
        (uses_in (expr_of e.now)) (x.now ∷ [])) }
{
    if let Some(reason) = of_expr(globals, known, e) {
        return Some(reason);
    }
    let reason = of_declared(globals, known, x)?;
    Some(reason)
}

// Returns a reason if the name or a name in the expression is not of the required kind.
fn of_name_and<'a>(
    globals: &Globals<'a>,
    known: &Known<'a>,
    x: &'a Name,
    wanted: NameKind,
    e: &'a Expr,
) -> Option<IllTyped<'a>>
    ensures decides { is_some result
        ≡ not (rule.is_known x.now (accepts_kind wanted) (kinds known.now)
        && rule.is_fine (kinds known.now) (expr_of e.now)) }
    ensures holds { IfSome result (IsMisuseIn (program_of globals.now.ast.now) known.now
        ((x.now, wanted) ∷ uses_in (expr_of e.now))) }
{
    if let Some(reason) = of_use(globals, known, x, wanted) {
        return Some(reason);
    }
    let reason = of_expr(globals, known, e)?;
    Some(reason)
}

// Returns a reason if a name in an assignment to an element is not of the required kind: the array, or a name in the
// index or the value.
fn of_assign_element<'a>(
    globals: &Globals<'a>,
    known: &Known<'a>,
    a: &'a Name,
    i: &'a Expr,
    e: &'a Expr,
) -> Option<IllTyped<'a>>
    ensures decides { is_some result
        ≡ not (rule.is_writable (kinds known.now) a.now
        && rule.is_fine (kinds known.now) (expr_of i.now)
        && rule.is_fine (kinds known.now) (expr_of e.now)) }
    ensures holds { IfSome result (IsMisuseIn (program_of globals.now.ast.now) known.now
        ((a.now, name_kind.Array) ∷ (uses_in (expr_of i.now) ++ uses_in (expr_of e.now)))) }
{
    if let Some(reason) = of_use(globals, known, a, NameKind::Array) {
        return Some(reason);
    }
    let reason = of_two(globals, known, i, e)?;
    Some(reason)
}

// Returns a reason if a name in one of two expressions is not of the required kind.
fn of_two<'a>(
    globals: &Globals<'a>,
    known: &Known<'a>,
    d: &'a Expr,
    e: &'a Expr,
) -> Option<IllTyped<'a>>
    ensures decides { is_some result
        ≡ not (rule.is_fine (kinds known.now) (expr_of d.now)
        && rule.is_fine (kinds known.now) (expr_of e.now)) }
    ensures holds { IfSome result (IsMisuseIn (program_of globals.now.ast.now) known.now
        (uses_in (expr_of d.now) ++ uses_in (expr_of e.now))) }
{
    if let Some(reason) = of_expr(globals, known, d) {
        return Some(reason);
    }
    let reason = of_expr(globals, known, e)?;
    Some(reason)
}

// Reports whether two reductions are the same.
fn same_reduction(how: Reduction, other: Reduction) -> bool
    ensures { result ≡ rule.same_reduction how other }
{
    match (how, other) {
        (Reduction::Sum, Reduction::Sum) => true,
        (Reduction::Max, Reduction::Max) => true,
        _ => false,
    }
}

// Returns a reason if no reducer with this name has this reduction.
fn of_reducer<'a>(globals: &Globals<'a>, how: Reduction, name: &'a Name) -> Option<IllTyped<'a>>
    ensures decides { is_some result
        ≡ not (rule.is_reducer (program_of globals.now.ast.now) how name.now) }
    ensures holds { IfSome result (IsNoReducer (program_of globals.now.ast.now) how name.now) }
{
    match globals.reducer(name.as_bytes()) {
        None => Some(IllTyped::NotReducer(name, how)),
        Some(reducer) => {
            if same_reduction(how, reducer.how) {
                return None;
            }
            Some(IllTyped::ReducesOtherwise(name, how, reducer.line))
        }
    }
}

// Returns a reason if no reducer with this name has this reduction, or if the value misuses a name.
fn of_reduce<'a>(
    globals: &Globals<'a>,
    known: &Known<'a>,
    how: Reduction,
    s: &'a Name,
    e: &'a Expr,
) -> Option<IllTyped<'a>>
    ensures decides { is_some result
        ≡ not (rule.is_reducer (program_of globals.now.ast.now) how s.now
        && rule.is_fine (kinds known.now) (expr_of e.now)) }
    ensures holds { IfSome result (IsUsing (program_of globals.now.ast.now) known.now
        (uses_in (expr_of e.now)) (IsNoReducer (program_of globals.now.ast.now) how s.now)) }
{
    if let Some(reason) = of_reducer(globals, how, s) {
        return Some(reason);
    }
    let reason = of_expr(globals, known, e)?;
    Some(reason)
}

// Returns a reason if a call names no function or does not fit its function.
fn of_call<'a>(globals: &Globals<'a>, known: &Known<'a>, call: &'a Call) -> Option<IllTyped<'a>>
    ensures decides { is_some result
        ≡ not (calls (program_of globals.now.ast.now) (kinds known.now) call.now) }
    ensures holds { IfSome result (IsBrokenCall (program_of globals.now.ast.now) known.now
        call.now.target call.now.callee (exprs_of call.now.arguments.items)) }
{
    match globals.function(call.callee.as_bytes()) {
        None => Some(IllTyped::NoFunction(&call.callee)),
        Some(function) => of_called(globals, known, function, call),
    }
}

/// Reports whether a run starts with this function.
pub fn is_main(function: &Function) -> bool
    ensures { result ≡ same_name (function_of function.now).name main_name }
{
    function.name.as_bytes() == MAIN
}

// Returns a reason if a call does not fit its function.
fn of_called<'a>(
    globals: &Globals<'a>,
    known: &Known<'a>,
    function: &'a Function,
    call: &'a Call,
) -> Option<IllTyped<'a>>
    requires { rule.called call.now.callee (program_of globals.now.ast.now).functions
        ≡ Some (function_of function.now) }
    ensures decides { is_some result
        ≡ not (calls_of (kinds known.now) (function_of function.now) call.now) }
    ensures holds { IfSome result (IsBrokenCall (program_of globals.now.ast.now) known.now
        call.now.target call.now.callee (exprs_of call.now.arguments.items)) }
{
    if is_main(function) {
        return Some(IllTyped::CallsMain);
    }
    if let Some(reason) = of_target(globals, known, function, call) {
        return Some(reason);
    }
    let reason = of_arguments(globals, known, function, call.arguments.as_slice())?;
    Some(reason)
}

// Returns a reason if the target of a call is not an integer or its function returns nothing.
fn of_target<'a>(
    globals: &Globals<'a>,
    known: &Known<'a>,
    function: &'a Function,
    call: &'a Call,
) -> Option<IllTyped<'a>>
    requires { rule.called call.now.callee (program_of globals.now.ast.now).functions
        ≡ Some (function_of function.now) }
    ensures decides { is_some result
        ≡ not (rule.is_target (kinds known.now) (function_of function.now) call.now.target) }
    ensures holds { IfSome result (IsBrokenCall (program_of globals.now.ast.now) known.now
        call.now.target call.now.callee (exprs_of call.now.arguments.items)) }
{
    let Some(target) = &call.target else {
        return None;
    };
    if let Some(reason) = of_use(globals, known, target, NameKind::Integer) {
        return Some(reason);
    }
    if !function.gives_int {
        return Some(IllTyped::GivesNothing(&call.callee, function.line));
    }
    None
}

// Returns a reason if the arguments do not fit the parameters.
fn of_arguments<'a>(
    globals: &Globals<'a>,
    known: &Known<'a>,
    function: &'a Function,
    arguments: &'a [Expr],
) -> Option<IllTyped<'a>>
    ensures decides { is_some result
        ≡ not (rule.are_arguments (kinds known.now) (function_of function.now).params
        (exprs_of arguments.now)) }
    ensures holds { IfSome result (IsBrokenList (program_of globals.now.ast.now) known.now
        (function_of function.now) (exprs_of arguments.now)) }
{
    let name = &function.name;
    let params = function.params.as_slice();
    if params.len() != arguments.len() {
        return Some(IllTyped::Count(name, arguments.len(), params.len(), function.line));
    }
    for i in 0..params.len() {
        let param = &params[i];
        let argument = &arguments[i];
        if let Some(reason) = of_argument(globals, known, param, argument) {
            return Some(reason);
        }
        if is_array(param.kind) && !is_name(argument) {
            let wanted = &param.name;
            return Some(IllTyped::ArgumentNotArray(i + 1, name, wanted, function.line));
        }
    }
    None
}

/// Reports whether a name of this kind is an array.
pub fn is_array(kind: NameKind) -> bool
    ensures { result ≡ model.is_array_kind kind }
{
    match kind {
        NameKind::Integer => false,
        NameKind::Array | NameKind::Const => true,
    }
}

// Reports whether an expression is only a name.
fn is_name(e: &Expr) -> bool
    ensures { result ≡ is_name (expr_of e.now) }
{
    match e {
        Expr::Variable(_) => true,
        _ => false,
    }
}

// Returns a reason if a name in an argument is not of the required kind.
#[tactic(auto, using(crate::proofs::Misuse::argument_named))]
fn of_argument<'a>(
    globals: &Globals<'a>,
    known: &Known<'a>,
    param: &Param,
    e: &'a Expr,
) -> Option<IllTyped<'a>>
    ensures decides { is_some result
        ≡ not (rule.is_argument (kinds known.now) param.now.kind (expr_of e.now)
        || (model.is_array_kind param.now.kind && not (is_name (expr_of e.now)))) }
    ensures holds { IfSome result (IsMisuseIn (program_of globals.now.ast.now) known.now
        (uses_in_argument param.now.kind (expr_of e.now))) }
{
    if !is_array(param.kind) {
        let reason = of_expr(globals, known, e)?;
        return Some(reason);
    }
    match e {
        Expr::Variable(a) => Some(of_use(globals, known, a, param.kind)?),
        _ => None,
    }
}

// Returns a rule that the head of a loop breaks.
fn of_loop<'a>(globals: &Globals<'a>, known: &Known<'a>, head: &'a Head) -> Option<IllTyped<'a>>
    ensures decides { is_some result
        ≡ not (is_head (program_of globals.now.ast.now) (kinds known.now) head.now) }
    ensures holds { IfSome result (IsBrokenHead (program_of globals.now.ast.now) known.now
        head.now.variable head.now.tested head.now.stepped
        (expr_of head.now.from) (expr_of head.now.to)
        head.now.grain head.now.over.items) }
{
    if let Some(reason) = of_other_name(head) {
        return Some(reason);
    }
    if head.grain < 1 || head.grain > MOST_GRAIN {
        return Some(IllTyped::Grain(head.grain));
    }
    if let Some(reason) = of_arrays(globals, known, head.over.as_slice()) {
        return Some(reason);
    }
    if let Some(reason) = of_declared(globals, known, &head.variable) {
        return Some(reason);
    }
    let reason = of_two(globals, known, &head.from, &head.to)?;
    Some(reason)
}

// Returns a reason if the head of a loop has another name instead of its variable.
fn of_other_name<'a>(head: &'a Head) -> Option<IllTyped<'a>>
    ensures decides { is_some result
        ≡ not (same_name head.now.tested head.now.variable
        && same_name head.now.stepped head.now.variable) }
    ensures holds { IfSome result
        (IsWrongHead head.now.variable head.now.tested head.now.stepped head.now.grain) }
{
    let variable = &head.variable;
    if head.tested.as_bytes() != head.variable.as_bytes() {
        return Some(IllTyped::HeadNames(variable, &head.tested));
    }
    if head.stepped.as_bytes() != head.variable.as_bytes() {
        return Some(IllTyped::HeadNames(variable, &head.stepped));
    }
    None
}

// Returns a reason if one of these names is not an array that may be written.
fn of_arrays<'a>(
    globals: &Globals<'a>,
    known: &Known<'a>,
    names: &'a [Name],
) -> Option<IllTyped<'a>>
    ensures decides { is_some result
        ≡ not (list_all (λ a. rule.is_writable (kinds known.now) a) names.now) }
    ensures holds { IfSome result
        (IsMisuseIn (program_of globals.now.ast.now) known.now (as_arrays names.now)) }
{
    for a in names {
        if let Some(reason) = of_use(globals, known, a, NameKind::Array) {
            return Some(reason);
        }
    }
    None
}

// Returns a rule that a cut breaks.
fn of_cut<'a>(globals: &Globals<'a>, known: &Known<'a>, cut: &'a Cut) -> Option<IllTyped<'a>>
    ensures decides { is_some result
        ≡ not (cuts (program_of globals.now.ast.now) (kinds known.now) cut.now) }
    ensures holds { IfSome result (IsBrokenCut (program_of globals.now.ast.now) known.now
        cut.now.array (expr_of cut.now.at) cut.now.left cut.now.right) }
{
    if cut.left.as_bytes() == cut.right.as_bytes() {
        return Some(IllTyped::PartsAlike(&cut.left));
    }
    if let Some(reason) = of_name_and(globals, known, &cut.array, NameKind::Array, &cut.at) {
        return Some(reason);
    }
    if let Some(reason) = of_declared(globals, known, &cut.left) {
        return Some(reason);
    }
    let reason = of_declared(globals, known, &cut.right)?;
    Some(reason)
}

// Returns a reason if this return is not allowed here.
fn of_return<'a>(
    globals: &Globals<'a>,
    returns: Returns,
    known: &Known<'a>,
    value: &'a Option<Expr>,
) -> Option<IllTyped<'a>>
    ensures decides { is_some result
        ≡ not (rule.may_return (returns_of returns) (kinds known.now)
        (option_map expr_of value.now)) }
    ensures holds { IfSome result
        (IsBroken (program_of globals.now.ast.now) (returns_of returns) known.now
        (model.Return (option_map expr_of value.now))) }
{
    match (returns, value) {
        (Returns::Nowhere, _) => Some(IllTyped::ReturnInside),
        (Returns::WithInt, None) => Some(IllTyped::ReturnsNothing),
        (Returns::Alone, Some(_)) => Some(IllTyped::ReturnsValue),
        (Returns::WithInt, Some(e)) => {
            let reason = of_expr(globals, known, e)?;
            Some(reason)
        }
        (Returns::Alone, None) => None,
    }
}

/// Reports whether a statement is a return, or an `if` whose two branches surely return.
#[cycle(returning)]
pub fn surely_returns(stmt: &Stmt) -> bool
    ensures { result ≡ rule.surely_returns (stmt_of stmt.now) }
{
    match stmt {
        Stmt::Return(_) => true,
        Stmt::IfElse(_, b, c) => {
            let first_returns = block_returns(b);
            let second_returns = block_returns(c);
            first_returns && second_returns
        }
        Stmt::Declare(_, _)
        | Stmt::DeclareArray(_, _)
        | Stmt::Assign(_, _)
        | Stmt::AssignElement(_, _, _)
        | Stmt::Reduce(_, _, _)
        | Stmt::Call(_)
        | Stmt::Sync
        | Stmt::If(_, _)
        | Stmt::While(_, _)
        | Stmt::For(_, _)
        | Stmt::Scope(_)
        | Stmt::Cut(_, _)
        | Stmt::Region(_, _)
        | Stmt::Print(_) => false,
    }
}

/// Reports whether the last statement of a block surely returns.
#[cycle(returning)]
pub fn block_returns(lines: &[Line]) -> bool
    ensures { result ≡ rule.block_returns (block_of lines.now) }
{
    if lines.is_empty() {
        return false;
    }
    surely_returns(&lines[lines.len() - 1].stmt)
}
