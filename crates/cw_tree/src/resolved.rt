//! The resolved tree: each use of a local has its name and its slot, and each use of a function, a reducer or a tag
//! has its name and its index.
//!
//! The integers and the arrays of a function have separate slots, from 0. The slot of a name is its position among
//! the names of its kind that are known where it is declared; parameters come first, and all names are in order of
//! declaration. The scope of a name ends with its block, so later blocks use its slot again. An index is a position
//! among the functions, the reducers or the distinct tags of the source, from 0.

use crate::syntax::Name;
use cw_model::syntax::{CallKind, NameKind, Operator, Reduction};

/// Represents a use of a local, or its declaration, with its slot among the integers or the arrays.
#[derive(Drop, Debug)]
pub struct Use {
    pub name: Name,
    pub slot: u32,
}

/// Represents a use of a function, a reducer or a tag, with its index in the program.
#[derive(Drop, Debug)]
pub struct Listed {
    pub name: Name,
    pub index: u32,
}

/// Represents an expression.
#[derive(Drop, Debug)]
pub enum Expr {
    /// A number, from 0 to `i64::MAX`.
    Number(i64),
    /// An integer.
    Variable(Use),
    /// An element of an array: the array and the index.
    Element(Use, Box<Expr>),
    /// The length of an array.
    Length(Use),
    /// The negation of an operand.
    Negative(Box<Expr>),
    /// 1 if the operand is 0, otherwise 0.
    Not(Box<Expr>),
    /// An operator with its left and its right operand.
    Binary(Operator, Box<Expr>, Box<Expr>),
}

/// Represents an argument of a call.
#[derive(Drop, Debug)]
pub enum Argument {
    /// The value of an expression.
    Int(Expr),
    /// An array that the callee owns until the call returns.
    Array(Use),
    /// An array that the callee only reads.
    Shared(Use),
}

/// Represents a call statement.
#[derive(Drop, Debug)]
pub struct Call {
    /// Whether the call is spawned.
    pub kind: CallKind,
    /// The number of the call statement in the source, from 1.
    pub site: u32,
    /// The integer that receives the result of the call.
    pub target: Option<Use>,
    /// The callee: the first function with this name.
    pub callee: Listed,
    /// The arguments in order.
    pub arguments: Vec<Argument>,
}

/// Represents the head of a parallel loop.
#[derive(Drop, Debug)]
pub struct Head {
    /// The variable of the loop, with its slot in the body.
    pub variable: Use,
    /// The first value of the variable.
    pub from: Expr,
    /// The exclusive upper bound of the variable.
    pub to: Expr,
    /// The maximum number of iterations in a leaf.
    pub grain: u64,
    /// The outer integers that the body reads, without duplicates, in the order of their first use.
    pub captured: Vec<Use>,
    /// The arrays of the loop.
    pub over: Vec<Use>,
}

/// Represents a cut of an array into two parts.
#[derive(Drop, Debug)]
pub struct Cut {
    /// The array that is cut.
    pub array: Use,
    /// The number of elements of the left part.
    pub at: Expr,
    /// The part before the cut, with its slot in the block.
    pub left: Use,
    /// The part after the cut, with its slot in the block.
    pub right: Use,
}

/// Represents a statement with the line of its first token.
#[cycle(resolved_stmt)]
#[derive(Drop, Debug)]
pub struct Line {
    pub line: u32,
    pub stmt: Stmt,
}

/// Represents a statement.
#[cycle(resolved_stmt)]
#[derive(Drop, Debug)]
pub enum Stmt {
    /// Declares an integer with its first value.
    Declare(Use, Expr),
    /// Declares an array with its length.
    DeclareArray(Use, Expr),
    /// Assigns a value to an integer.
    Assign(Use, Expr),
    /// Assigns a value to the element of an array at an index.
    AssignElement(Use, Box<Expr>, Expr),
    /// Updates a reducer of this kind with a value.
    Reduce(Reduction, Listed, Expr),
    /// A call, plain or spawned.
    Call(Box<Call>),
    /// Joins all calls that the innermost sync block has spawned.
    Sync,
    /// Executes the block if the condition is not 0.
    If(Expr, Vec<Line>),
    /// Executes the first block if the condition is not 0, otherwise the second block.
    IfElse(Expr, Vec<Line>, Box<Vec<Line>>),
    /// Executes the block as long as the condition is not 0.
    While(Expr, Vec<Line>),
    /// A parallel loop.
    For(Box<Head>, Vec<Line>),
    /// A block that joins all calls that it has spawned.
    Scope(Vec<Line>),
    /// A cut, with the block in which the names of the two parts are known.
    Cut(Box<Cut>, Vec<Line>),
    /// A region: its tag, and the block whose cost is counted for the tag.
    Region(Listed, Vec<Line>),
    /// Prints a value.
    Print(Expr),
    /// Ends a call, with its result if it has one.
    Return(Option<Expr>),
}

/// Represents a parameter of a function.
#[derive(Drop, Debug)]
pub struct Param {
    pub name: Name,
    /// The kind: an integer, an array, or an array that the function only reads.
    pub kind: NameKind,
}

/// Represents a function.
#[derive(Drop, Debug)]
pub struct Function {
    pub name: Name,
    /// The line of the name.
    pub line: u32,
    /// Whether the function returns an integer.
    pub gives_int: bool,
    /// The parameters. The slots of the integers among them are 0, 1, .., and so are the slots of the arrays.
    pub params: Vec<Param>,
    /// The number of slots for integers.
    pub ints: u32,
    /// The number of slots for arrays.
    pub arrays: u32,
    pub body: Vec<Line>,
}

/// Represents a reducer.
#[derive(Drop, Debug)]
pub struct Reducer {
    pub name: Name,
    /// How it combines values.
    pub how: Reduction,
    /// The line of the first token.
    pub line: u32,
}

/// Represents a whole source: its reducers and its functions, each in order.
#[derive(Drop, Debug)]
pub struct Tree {
    pub reducers: Vec<Reducer>,
    pub functions: Vec<Function>,
    /// The distinct tags, in the order of their first occurrences.
    pub tags: Vec<Name>,
    /// The index of the function that a run starts with.
    pub main: u32,
}
