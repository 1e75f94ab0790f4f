//! Bytecode: instructions, functions and call sites.

use cw_model::syntax::{CallKind, Name, Operator, Reduction};

/// The callee of a call instruction.
#[derive(Clone, Copy, Debug, PartialEq, Eq)]
pub struct Callee {
    /// The index of its function in the code.
    pub function: u32,
    /// The number of its call site, from 1.
    pub site: u32,
    /// The line of its statement, from 1. A trap of the call is reported in this line.
    pub line: u32,
    /// The slot of the caller for the result, or `None` if the result is dropped.
    pub target: Option<u32>,
    /// The index, in the code's lists of slots, of the caller's array slots whose arrays the callee takes.
    pub passed: u32,
    /// The index, in the code's lists of loans, of the caller's arrays that the callee reads.
    pub lent: u32,
}

/// The callee of a call of a loop's function. This call has no site, is as deep as its caller, and is lent no array.
#[derive(Clone, Copy, Debug, PartialEq, Eq)]
pub struct Inner {
    /// The index of its function in the code.
    pub function: u32,
    /// The index, in the code's lists of slots, of the caller's array slots whose arrays the callee takes.
    pub passed: u32,
}

/// An array that a caller lends to its callee: it stays where it is, and is only read.
#[derive(Clone, Copy, Debug, PartialEq, Eq)]
pub enum Loan {
    /// The array in an array slot of the caller.
    Array(u32),
    /// An array that was lent to the caller itself, by its number.
    Reader(u32),
}

/// The array slots of a cut.
#[derive(Clone, Copy, Debug, PartialEq, Eq)]
pub struct Halves {
    /// The slot of the array that is cut.
    pub array: u32,
    /// The slot of its left part.
    pub left: u32,
    /// The slot of its right part.
    pub right: u32,
}

/// A unary operator.
#[derive(Clone, Copy, Debug, PartialEq, Eq)]
pub enum UnaryOperator {
    /// The negated number. Traps on overflow.
    Negative,
    /// 1 for 0, and 0 for every other number.
    Not,
}

/// The kind of a sync block inside a call.
#[derive(Clone, Copy, Debug, PartialEq, Eq)]
pub enum BlockKind {
    /// A scope.
    Scope,
    /// A region, with the index of its tag in the code.
    Region(u32),
}

/// An instruction. Each instruction costs one unit of work. The slots (locals) of a call are numbered from 0.
#[derive(Clone, Copy, Debug, PartialEq, Eq)]
pub enum Instr {
    /// Pushes a number.
    Push(i64),
    /// Pushes the value of a slot, which must not be empty.
    Load(u32),
    /// Pops the last operand into a slot, which must not be empty.
    Store(u32),
    /// Applies an operator to the last operand. A trap is reported in this line.
    Unary(UnaryOperator, u32),
    /// Applies an operator to the last two operands; the first one is the left operand. A trap is reported in this
    /// line.
    Binary(Operator, u32),
    /// Jumps forward over this number of instructions.
    Skip(u32),
    /// Pops the last operand. If it is 0, jumps forward over this number of instructions; otherwise continues.
    SkipIfZero(u32),
    /// Jumps back by this number of instructions.
    GoBack(u32),
    /// Calls a function. It takes its arguments from the operands (the last operand is the last argument) and the
    /// arrays from the slots in its list, and reads the arrays that it is lent. At the end of a plain call, the
    /// result and the arrays return to their slots. A spawned call may run in parallel with the instructions after
    /// it: its slots are empty until the next join of the sync block, and until then the arrays that it was lent are
    /// only read.
    Call(CallKind, Callee),
    /// A recursive call of a loop's function.
    Recur(CallKind, Inner),
    /// The first call of a loop's function. Its arguments are the bounds of the loop's range (if the second bound is
    /// less, it becomes the first one), then the captured numbers. It takes the slices of the arrays in that range. A
    /// trap is reported in this line.
    Start(Inner, u32),
    /// Pops a length and puts an array of that many zeros into an array slot. A trap is reported in this line.
    NewArray(u32, u32),
    /// Pushes the number of elements of the array in a slot.
    Length(u32),
    /// Replaces the last operand, an index, by an element of the array in a slot. A trap is reported in this line.
    Element(u32, u32),
    /// Pops a value and before it an index, and writes the value into the array in a slot. A trap is reported in this
    /// line.
    SetElement(u32, u32),
    /// Pushes the number of elements of a lent array.
    ReadLength(u32),
    /// Replaces the last operand, an index, by an element of a lent array. A trap is reported in this line.
    ReadElement(u32, u32),
    /// Pops an index, cuts an array there, and begins a sync block. The parts go into two slots, and the array's own
    /// slot becomes empty. A trap is reported in this line.
    Cut(Halves, u32),
    /// Joins, and ends the innermost sync block, which a cut began: the two parts become one array again.
    EndCut,
    /// Joins: the results of the calls that the innermost sync block spawned go into their slots.
    Sync,
    /// Begins a sync block.
    Open(BlockKind),
    /// Joins, and ends the innermost sync block.
    Close,
    /// Pops the last operand and prints it.
    Print,
    /// Pops the last operand and updates the reducer with this index.
    Reduce(u32),
    /// Joins, and returns the last operand from the call.
    ReturnValue,
    /// Joins, and returns from the call without a value.
    Return,
}

/// A function. Its instructions are consecutive.
#[derive(Clone, Copy, Debug, PartialEq, Eq)]
pub struct Func {
    /// The index of its first instruction.
    pub start: usize,
    /// The index after its last instruction.
    pub end: usize,
    /// Whether its calls return a value.
    pub gives_int: bool,
    /// The number of its integer parameters, which are in the first slots.
    pub params: usize,
    /// The number of its slots, including parameters.
    pub slots: usize,
    /// The number of its array parameters, which are in the first array slots.
    pub array_params: usize,
    /// The number of its array slots, including parameters.
    pub arrays: usize,
    /// The number of arrays that its calls are lent. They are numbered from 0, are in no slot, and are only read.
    pub readers: usize,
}

/// A call statement of the source.
#[derive(Debug, Drop)]
pub struct Site {
    /// Its number, from 1 in source order.
    pub number: u32,
    /// Whether it is a spawn.
    pub kind: CallKind,
    /// Its line, from 1.
    pub line: u32,
    /// The name of the called function.
    pub callee: Name,
    /// The index of that function in the code.
    pub function: u32,
}

/// A reducer of the source.
#[derive(Debug, Drop)]
pub struct Reducer {
    /// Its name.
    pub name: Name,
    /// How it combines the values of its updates.
    pub how: Reduction,
}

/// The code of a program.
#[derive(Debug, Drop)]
pub struct Code {
    /// The instructions of all functions, function after function.
    pub instrs: Vec<Instr>,
    /// The functions.
    pub funcs: Vec<Func>,
    /// The index of `main` in the functions.
    pub main: u32,
    /// The line of the head of `main`, from 1.
    pub main_line: u32,
    /// The call sites, in source order.
    pub sites: Vec<Site>,
    /// The reducers, in source order.
    pub reducers: Vec<Reducer>,
    /// The distinct tags of the regions, in order of first occurrence.
    pub tags: Vec<Name>,
    /// Lists of array slots whose arrays a call takes, in the order of the callee's array parameters.
    pub passed: Vec<Vec<u32>>,
    /// Lists of arrays that a call is lent, in the order of their numbers in the callee.
    pub lent: Vec<Vec<Loan>>,
}
