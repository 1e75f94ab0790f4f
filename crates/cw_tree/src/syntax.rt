//! The syntax tree: parentheses have no node, each statement has the line of its first token, and each call statement
//! has its number. Lines are counted from 1.

pub use cw_model::syntax::Name;
use cw_model::syntax::{CallKind, NameKind, Operator, Reduction};

/// Represents an expression.
#[derive(Drop)]
pub enum Expr {
    /// A number without a sign, from 0 to `i64::MAX`.
    Number(i64),
    /// A variable or a parameter.
    Variable(Name),
    /// An element of an array: the name of the array and the index.
    Element(Name, Box<Expr>),
    /// The length of an array.
    Length(Name),
    /// The negation of an operand.
    Negative(Box<Expr>),
    /// 1 if the operand is 0, otherwise 0.
    Not(Box<Expr>),
    /// An operator with its left and its right operand.
    Binary(Operator, Box<Expr>, Box<Expr>),
}

/// Represents a call statement.
#[derive(Drop)]
pub struct Call {
    /// Whether the call is spawned.
    pub kind: CallKind,
    /// The number of the call statement in the source, from 1.
    pub site: u32,
    /// The name that receives the result of the call.
    pub target: Option<Name>,
    /// The name of the callee.
    pub callee: Name,
    /// The arguments in order.
    pub arguments: Vec<Expr>,
}

/// Represents the head of a parallel loop.
#[derive(Drop)]
pub struct Head {
    /// The variable of the loop.
    pub variable: Name,
    /// The name that the head compares with the upper bound.
    pub tested: Name,
    /// The name that the head increments.
    pub stepped: Name,
    /// The first value of the variable.
    pub from: Expr,
    /// The exclusive upper bound of the variable.
    pub to: Expr,
    /// The maximum number of iterations in a leaf.
    pub grain: u64,
    /// The arrays of the loop.
    pub over: Vec<Name>,
}

/// Represents a cut of an array into two parts, with their names.
#[derive(Drop)]
pub struct Cut {
    /// The array that is cut.
    pub array: Name,
    /// The number of elements of the left part.
    pub at: Expr,
    /// The name of the part before the cut.
    pub left: Name,
    /// The name of the part after the cut.
    pub right: Name,
}

/// Represents a statement with the line of its first token.
#[cycle(stmt)]
#[derive(Drop)]
pub struct Line {
    pub line: u32,
    pub stmt: Stmt,
}

/// Represents a statement.
#[cycle(stmt)]
#[derive(Drop)]
pub enum Stmt {
    /// Declares a variable with its first value.
    Declare(Name, Expr),
    /// Declares an array with its length.
    DeclareArray(Name, Expr),
    /// Assigns a value to a variable.
    Assign(Name, Expr),
    /// Assigns a value to the element of an array at an index.
    AssignElement(Name, Expr, Expr),
    /// Updates a reducer with a value, by a reduction of this kind.
    Reduce(Reduction, Name, Expr),
    /// A call, plain or spawned.
    Call(Box<Call>),
    /// Joins all calls that the innermost sync block has spawned.
    Sync,
    /// Executes the block if the condition is not 0.
    If(Expr, Vec<Line>),
    /// Executes the first block if the condition is not 0, otherwise the second block.
    IfElse(Expr, Vec<Line>, Vec<Line>),
    /// Executes the block as long as the condition is not 0.
    While(Expr, Vec<Line>),
    /// A parallel loop.
    For(Box<Head>, Vec<Line>),
    /// A block that joins all calls that it has spawned.
    Scope(Vec<Line>),
    /// A cut, with the block in which the names of the two parts are known.
    Cut(Box<Cut>, Vec<Line>),
    /// A region: its tag, and the block whose cost is counted for the tag.
    Region(Name, Vec<Line>),
    /// Prints a value.
    Print(Expr),
    /// Ends a call, with its result if it has one.
    Return(Option<Expr>),
}

/// Represents a parameter of a function.
#[derive(Drop)]
pub struct Param {
    pub name: Name,
    /// The kind: an integer, an array, or an array that the function only reads.
    pub kind: NameKind,
}

/// Represents a function.
#[derive(Drop)]
pub struct Function {
    pub name: Name,
    /// The line of the name.
    pub line: u32,
    /// Whether the function returns an integer.
    pub gives_int: bool,
    pub params: Vec<Param>,
    pub body: Vec<Line>,
}

/// Represents a reducer.
#[derive(Drop)]
pub struct Reducer {
    pub name: Name,
    /// How it combines values.
    pub how: Reduction,
    /// The line of the first token.
    pub line: u32,
}

/// Represents a whole source: its reducers and its functions, each in order.
#[derive(Drop)]
pub struct Ast {
    pub reducers: Vec<Reducer>,
    pub functions: Vec<Function>,
}
