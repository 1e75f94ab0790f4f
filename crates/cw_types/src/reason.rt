//! The reasons why a line is rejected: the limits that it can exceed, and the rules of names and types that it can
//! break.

use cw_model::syntax::Reduction;
use cw_tree::syntax::Name;

/// Represents the actual kind of a misused name.
#[derive(Clone, Copy)]
pub enum Other {
    Integer,
    Array,
    /// An array that is only read.
    Const,
    Function,
    Reducer,
}

/// Represents a broken rule of names and types, with the names that break it and the other line that matters.
#[derive(Clone, Copy)]
pub enum IllTyped<'a> {
    /// There is no function `main`.
    NoMain,
    /// `main` returns nothing.
    MainGivesNothing,
    /// `main` takes an array.
    MainTakesArray(&'a Name),
    /// A function or a reducer has the name of an earlier one.
    Repeated(&'a Name, u32),
    /// Two parameters have the same name.
    ParameterTwice(&'a Name),
    /// A function that returns an integer may end without a return.
    MayNotReturn(&'a Name),
    /// The name is unknown.
    Unknown(&'a Name),
    /// An integer is required, but the name is something else.
    NotInteger(&'a Name, Other, u32),
    /// An array is required, but the name is something else.
    NotArray(&'a Name, Other, u32),
    /// A writable array is required, but the name is a const parameter.
    OnlyRead(&'a Name, u32),
    /// A declared name is already known.
    Known(&'a Name, u32),
    /// A local name is the name of a function or a reducer.
    Global(&'a Name, Other, u32),
    /// A value updates, by this reduction, a name that is not a reducer.
    NotReducer(&'a Name, Reduction),
    /// A value updates a reducer by this reduction, but the reducer has another reduction.
    ReducesOtherwise(&'a Name, Reduction, u32),
    /// No function has the name.
    NoFunction(&'a Name),
    /// A statement calls `main`.
    CallsMain,
    /// A call has another number of arguments than its function has parameters.
    Count(&'a Name, usize, usize, u32),
    /// An argument for an array is not just the name of an array: its position from 1, and the parameter.
    ArgumentNotArray(usize, &'a Name, &'a Name, u32),
    /// The result of a function that returns nothing is assigned.
    GivesNothing(&'a Name, u32),
    /// A return is in a block that no return may leave.
    ReturnInside,
    /// A return without a value is in an int function.
    ReturnsNothing,
    /// A return with a value is in a void function.
    ReturnsValue,
    /// Statements follow one that surely returns.
    NeverReached(u32),
    /// The head of a loop has another name instead of its variable.
    HeadNames(&'a Name, &'a Name),
    /// The grain is out of range.
    Grain(u64),
    /// The two parts of a cut have the same name.
    PartsAlike(&'a Name),
}

/// Represents an exceeded limit on the parts of a program.
#[derive(Clone, Copy)]
pub enum TooLarge<'a> {
    /// There are too many functions.
    Functions,
    /// There are too many reducers.
    Reducers,
    /// A function has this number of parameters, which is too large.
    Parameters(&'a Name, usize),
    /// A function declares too many names.
    Declared(&'a Name),
    /// A tag has too many bytes.
    TagBytes(&'a [u8]),
    /// There are too many distinct tags.
    Tags,
}
