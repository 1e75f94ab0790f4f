//! Prints trees as text.

use cw_model::syntax::{CallKind, NameKind, Operator, Reduction};
use cw_tree::syntax::{Ast, Call, Expr, Function, Head, Line, Name, Param, Reducer, Stmt};
use std::alloc::{AllocError, Global};

// Represents a part of a tree that is not printed yet.
#[derive(Clone, Copy)]
enum Part<'t> {
    Word(&'static str),
    Number(u64),
    Name(&'t Name),
    Expr(&'t Expr),
    Stmt(&'t Stmt),
    Block(&'t [Line]),
    Lines(&'t [Line]),
    Reducers(&'t [Reducer]),
    Functions(&'t [Function]),
    Params(&'t [Param]),
}

// Pushes parts so that they are printed next, in this order.
fn next<'t>(todo: &mut Vec<Part<'t>>, parts: &[Part<'t>]) -> Result<(), AllocError> {
    for part in parts.iter().rev() {
        todo.push(*part)?;
    }
    Ok(())
}

fn sign(operator: Operator) -> &'static str {
    match operator {
        Operator::Equal => "==",
        Operator::Unequal => "!=",
        Operator::Less => "<",
        Operator::AtMost => "<=",
        Operator::Greater => ">",
        Operator::AtLeast => ">=",
        Operator::Plus => "+",
        Operator::Minus => "-",
        Operator::Times => "*",
        Operator::Divide => "/",
        Operator::Modulo => "%",
    }
}

// Returns the text between a reducer and the value that updates it.
fn telling(how: Reduction) -> &'static str {
    match how {
        Reduction::Sum => " += ",
        Reduction::Max => " max= ",
    }
}

// Pushes the parts of an expression, with a pair of parentheses for each operator.
fn parts_of_expr<'t>(todo: &mut Vec<Part<'t>>, expr: &'t Expr) -> Result<(), AllocError> {
    match expr {
        Expr::Number(value) => next(todo, &[Part::Number(value.unsigned_abs())]),
        Expr::Variable(name) => next(todo, &[Part::Name(name)]),
        Expr::Element(array, index) => next(
            todo,
            &[
                Part::Name(array),
                Part::Word("["),
                Part::Expr(index),
                Part::Word("]"),
            ],
        ),
        Expr::Length(array) => next(todo, &[Part::Word("len "), Part::Name(array)]),
        Expr::Negative(inner) => next(
            todo,
            &[Part::Word("(-"), Part::Expr(inner), Part::Word(")")],
        ),
        Expr::Not(inner) => next(
            todo,
            &[Part::Word("(!"), Part::Expr(inner), Part::Word(")")],
        ),
        Expr::Binary(operator, left, right) => next(
            todo,
            &[
                Part::Word("("),
                Part::Expr(left),
                Part::Word(sign(*operator)),
                Part::Expr(right),
                Part::Word(")"),
            ],
        ),
    }
}

fn parts_of_call<'t>(todo: &mut Vec<Part<'t>>, call: &'t Call) -> Result<(), AllocError> {
    for argument in call.arguments.iter().rev() {
        next(todo, &[Part::Word(" "), Part::Expr(argument)])?;
    }
    next(
        todo,
        &[
            Part::Name(&call.callee),
            Part::Word("#"),
            Part::Number(u64::from(call.site)),
        ],
    )?;
    if matches!(call.kind, CallKind::Spawned) {
        next(todo, &[Part::Word("spawn ")])?;
    }
    if let Some(target) = &call.target {
        next(todo, &[Part::Name(target), Part::Word(" = ")])?;
    }
    Ok(())
}

fn parts_of_loop<'t>(
    todo: &mut Vec<Part<'t>>,
    head: &'t Head,
    body: &'t [Line],
) -> Result<(), AllocError> {
    next(todo, &[Part::Block(body)])?;
    for array in head.over.iter().rev() {
        next(todo, &[Part::Word(" "), Part::Name(array)])?;
    }
    next(
        todo,
        &[
            Part::Word(" "),
            Part::Name(&head.stepped),
            Part::Word("++ "),
            Part::Number(head.grain),
        ],
    )?;
    next(
        todo,
        &[
            Part::Word(" "),
            Part::Name(&head.tested),
            Part::Word(" < "),
            Part::Expr(&head.to),
        ],
    )?;
    next(
        todo,
        &[
            Part::Word("for "),
            Part::Name(&head.variable),
            Part::Word(" = "),
            Part::Expr(&head.from),
        ],
    )
}

// Pushes the parts of a statement without its line; a call has its number after the name of its callee.
fn parts_of_stmt<'t>(todo: &mut Vec<Part<'t>>, stmt: &'t Stmt) -> Result<(), AllocError> {
    match stmt {
        Stmt::Declare(name, value) => next(
            todo,
            &[
                Part::Word("int "),
                Part::Name(name),
                Part::Word(" = "),
                Part::Expr(value),
            ],
        ),
        Stmt::DeclareArray(name, length) => next(
            todo,
            &[
                Part::Word("int[] "),
                Part::Name(name),
                Part::Word(" = "),
                Part::Expr(length),
            ],
        ),
        Stmt::Assign(name, value) => next(
            todo,
            &[Part::Name(name), Part::Word(" = "), Part::Expr(value)],
        ),
        Stmt::AssignElement(array, index, value) => next(
            todo,
            &[
                Part::Name(array),
                Part::Word(" at "),
                Part::Expr(index),
                Part::Word(" = "),
                Part::Expr(value),
            ],
        ),
        Stmt::Reduce(how, name, value) => next(
            todo,
            &[
                Part::Name(name),
                Part::Word(telling(*how)),
                Part::Expr(value),
            ],
        ),
        Stmt::Call(call) => parts_of_call(todo, call),
        Stmt::Sync => next(todo, &[Part::Word("sync")]),
        Stmt::If(test, then) => next(
            todo,
            &[
                Part::Word("if "),
                Part::Expr(test),
                Part::Block(then.as_slice()),
            ],
        ),
        Stmt::IfElse(test, then, other) => next(
            todo,
            &[
                Part::Word("if "),
                Part::Expr(test),
                Part::Block(then.as_slice()),
                Part::Word("else"),
                Part::Block(other.as_slice()),
            ],
        ),
        Stmt::While(test, body) => next(
            todo,
            &[
                Part::Word("while "),
                Part::Expr(test),
                Part::Block(body.as_slice()),
            ],
        ),
        Stmt::For(head, body) => parts_of_loop(todo, head, body.as_slice()),
        Stmt::Scope(body) => next(todo, &[Part::Word("scope"), Part::Block(body.as_slice())]),
        Stmt::Cut(cut, body) => next(
            todo,
            &[
                Part::Word("cut "),
                Part::Name(&cut.array),
                Part::Word(" at "),
                Part::Expr(&cut.at),
                Part::Word(" "),
                Part::Name(&cut.left),
                Part::Word(" "),
                Part::Name(&cut.right),
                Part::Block(body.as_slice()),
            ],
        ),
        Stmt::Region(tag, body) => next(
            todo,
            &[
                Part::Word("region "),
                Part::Name(tag),
                Part::Block(body.as_slice()),
            ],
        ),
        Stmt::Print(value) => next(todo, &[Part::Word("print "), Part::Expr(value)]),
        Stmt::Return(None) => next(todo, &[Part::Word("return")]),
        Stmt::Return(Some(value)) => next(todo, &[Part::Word("return "), Part::Expr(value)]),
    }
}

fn show_name(out: &mut String, name: &Name) -> Result<(), AllocError> {
    for byte in name.as_bytes() {
        out.push(char::from(*byte))?;
    }
    Ok(())
}

fn show_number(alloc: Global, out: &mut String, number: u64) -> Result<(), AllocError> {
    let digits = number.to_string(alloc)?;
    out.push_str(digits.as_str())
}

// Pushes "LINE STATEMENT;" and then the remaining lines.
fn parts_of_lines<'t>(todo: &mut Vec<Part<'t>>, lines: &'t [Line]) -> Result<(), AllocError> {
    match lines {
        [] => Ok(()),
        [first, rest @ ..] => next(
            todo,
            &[
                Part::Number(u64::from(first.line)),
                Part::Word(" "),
                Part::Stmt(&first.stmt),
                Part::Word(";"),
                Part::Lines(rest),
            ],
        ),
    }
}

// Pushes "LINE sum NAME" or "LINE max NAME" for each reducer, on a line of its own.
fn parts_of_reducers<'t>(
    todo: &mut Vec<Part<'t>>,
    reducers: &'t [Reducer],
) -> Result<(), AllocError> {
    match reducers {
        [] => Ok(()),
        [first, rest @ ..] => next(
            todo,
            &[
                Part::Number(u64::from(first.line)),
                Part::Word(match first.how {
                    Reduction::Sum => " sum ",
                    Reduction::Max => " max ",
                }),
                Part::Name(&first.name),
                Part::Word("\n"),
                Part::Reducers(rest),
            ],
        ),
    }
}

// Pushes "LINE int NAME PARAMETERS {..}" or "LINE void .." for each function, on a line of its own.
fn parts_of_functions<'t>(
    todo: &mut Vec<Part<'t>>,
    functions: &'t [Function],
) -> Result<(), AllocError> {
    match functions {
        [] => Ok(()),
        [first, rest @ ..] => next(
            todo,
            &[
                Part::Number(u64::from(first.line)),
                Part::Word(if first.gives_int { " int " } else { " void " }),
                Part::Name(&first.name),
                Part::Params(first.params.as_slice()),
                Part::Block(first.body.as_slice()),
                Part::Word("\n"),
                Part::Functions(rest),
            ],
        ),
    }
}

fn parts_of_params<'t>(todo: &mut Vec<Part<'t>>, params: &'t [Param]) -> Result<(), AllocError> {
    match params {
        [] => Ok(()),
        [first, rest @ ..] => next(
            todo,
            &[
                Part::Word(match first.kind {
                    NameKind::Integer => " ",
                    NameKind::Array => " []",
                    NameKind::Const => " const []",
                }),
                Part::Name(&first.name),
                Part::Params(rest),
            ],
        ),
    }
}

// Prints a part, or pushes its parts.
fn show<'t>(
    alloc: Global,
    out: &mut String,
    todo: &mut Vec<Part<'t>>,
    part: Part<'t>,
) -> Result<(), AllocError> {
    match part {
        Part::Word(word) => out.push_str(word),
        Part::Number(number) => show_number(alloc, out, number),
        Part::Name(name) => show_name(out, name),
        Part::Expr(expr) => parts_of_expr(todo, expr),
        Part::Stmt(stmt) => parts_of_stmt(todo, stmt),
        Part::Block(lines) => next(
            todo,
            &[Part::Word("{"), Part::Lines(lines), Part::Word("}")],
        ),
        Part::Lines(lines) => parts_of_lines(todo, lines),
        Part::Reducers(reducers) => parts_of_reducers(todo, reducers),
        Part::Functions(functions) => parts_of_functions(todo, functions),
        Part::Params(params) => parts_of_params(todo, params),
    }
}

/// Returns the reducers of a tree, "LINE sum NAME" or "LINE max NAME", and its functions, "LINE int NAME PARAMETERS
/// {..}" or "LINE void ..", each on a line of its own; the braces contain "LINE STATEMENT; ..". Stops after 1,000,000
/// parts.
///
/// # Errors
///
/// Returns an `AllocError` if there is no memory for the text.
pub fn shown(alloc: Global, ast: &Ast) -> Result<String, AllocError> {
    let mut out = String::new(alloc);
    let mut todo = Vec::new(alloc);
    todo.push(Part::Functions(ast.functions.as_slice()))?;
    todo.push(Part::Reducers(ast.reducers.as_slice()))?;
    for _ in 0..1_000_000 {
        let Some(part) = todo.pop() else {
            return Ok(out);
        };
        show(alloc, &mut out, &mut todo, part)?;
    }
    Ok(out)
}
