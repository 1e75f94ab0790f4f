//! Programs with lowered loops: each local is a slot, each function, reducer and tag is an index, and there is no
//! `cilk_for`.
//!
//! The integers and the arrays of a function have separate slots, from 0. The indices of functions count the
//! functions of the source first, in order, and then the functions of the loops; reducers and tags have the indices
//! of the source.

use cw_model::syntax::{CallKind, Operator, Reduction};

/// Represents an expression.
#[derive(Drop)]
pub enum Expr {
    /// A number, from 0 to `i64::MAX`.
    Number(i64),
    /// The integer in a slot.
    Variable(u32),
    /// An element of the array in a slot: the slot and the index.
    Element(u32, Box<Expr>),
    /// The length of the array in a slot.
    Length(u32),
    /// The negation of an operand.
    Negative(Box<Expr>),
    /// 1 if the operand is 0, otherwise 0.
    Not(Box<Expr>),
    /// An operator with its left and its right operand.
    Binary(Operator, Box<Expr>, Box<Expr>),
}

/// Represents an argument of a call.
#[derive(Drop)]
pub enum Argument {
    /// The value of an expression.
    Int(Expr),
    /// The array in a slot, which the callee owns until the call returns.
    Array(u32),
    /// The array in a slot, which the callee only reads.
    Shared(u32),
}

/// Represents a call statement.
#[derive(Drop)]
pub struct Call {
    /// Whether the call is spawned.
    pub kind: CallKind,
    /// The number of the call statement in the source, from 1.
    pub site: u32,
    /// The slot of the integer that receives the result of the call.
    pub target: Option<u32>,
    /// The index of the function.
    pub callee: u32,
    /// The arguments in order.
    pub arguments: Vec<Argument>,
}

/// Represents the first call of a loop's function.
#[derive(Drop)]
pub struct Begin {
    /// The index of the function.
    pub callee: u32,
    /// The first value of the loop's variable.
    pub from: Expr,
    /// The exclusive upper bound of the variable.
    pub to: Expr,
    /// The slots of the integers that the loop captures.
    pub captured: Vec<u32>,
    /// The slots of the loop's arrays; the function receives the slice of each array for the range.
    pub over: Vec<u32>,
}

/// Represents a cut of an array, with the slots of its two parts.
#[derive(Drop)]
pub struct Cut {
    /// The slot of the array that is cut.
    pub array: u32,
    /// The number of elements of the left part.
    pub at: Expr,
    /// The part before the cut.
    pub left: u32,
    /// The part after the cut.
    pub right: u32,
}

/// Represents a statement with the line of its first token.
#[cycle(stmt)]
#[derive(Drop)]
pub struct Line {
    pub line: u32,
    pub stmt: Stmt,
}

/// Represents a statement.
#[cycle(stmt)]
#[derive(Drop)]
pub enum Stmt {
    /// Declares an integer with its first value.
    Declare(u32, Expr),
    /// Declares an array with its length.
    DeclareArray(u32, Expr),
    /// Assigns a value to an integer.
    Assign(u32, Expr),
    /// Assigns a value to the element of an array at an index.
    AssignElement(u32, Expr, Expr),
    /// Updates a reducer of this kind with a value.
    Reduce(Reduction, u32, Expr),
    /// A call, plain or spawned.
    Call(Box<Call>),
    /// The beginning of a loop.
    Begin(Box<Begin>),
    /// Joins all calls that the innermost sync block has spawned.
    Sync,
    /// Executes the block if the condition is not 0.
    If(Expr, Vec<Line>),
    /// Executes the first block if the condition is not 0, otherwise the second block.
    IfElse(Expr, Vec<Line>, Box<Vec<Line>>),
    /// Executes the block as long as the condition is not 0.
    While(Expr, Vec<Line>),
    /// A block that joins all calls that it has spawned.
    Scope(Vec<Line>),
    /// A cut, with the block in which the two parts have their slots.
    Cut(Box<Cut>, Vec<Line>),
    /// A region: its tag, and the block whose cost is counted for the tag.
    Region(u32, Vec<Line>),
    /// Prints a value.
    Print(Expr),
    /// Ends a call, with its result if it has one.
    Return(Option<Expr>),
}

/// Represents the function of a loop. Its integers are the two ends of its range, then the captured integers, then
/// the loop's variable, then the integers that an iteration declares; its arrays are the arrays of the loop, then the
/// arrays that an iteration declares.
#[derive(Drop)]
pub struct Loop {
    /// The line of the `cilk_for`.
    pub line: u32,
    /// The maximum number of iterations in a leaf.
    pub grain: u64,
    /// The number of captured integers.
    pub captured: u32,
    /// The number of arrays of the loop.
    pub over: u32,
    /// One iteration.
    pub body: Vec<Line>,
}

/// Represents the functions of a program: the bodies of the source functions, in order, and the loops, each after the
/// loops in its body.
#[derive(Drop)]
pub struct Tree {
    pub bodies: Vec<Vec<Line>>,
    pub loops: Vec<Loop>,
}
