//! The limits of a source, a program and a run, and the default values of options. Some proofs, tests and texts spell
//! these numbers; docs/DEVELOPING.md lists where.

/// The maximum length of a source, in bytes.
pub const MOST_SOURCE_BYTES: usize = 1_048_576;

/// The maximum length of a name, in bytes.
pub const MOST_NAME_BYTES: usize = 64;

/// The maximum length of a region's tag, in bytes.
pub const MOST_TAG_BYTES: usize = 32;

/// The largest number that a source can write: 2^63 - 1.
pub const MOST_NUMBER: u64 = 9_223_372_036_854_775_807;

/// The maximum number of brackets, of any kind, that are open at once.
pub const MOST_OPEN_BRACKETS: usize = 64;

/// The maximum number of tokens in a row without a semicolon or a brace.
pub const MOST_TOKENS_IN_A_ROW: usize = 256;

/// The maximum number of functions in a program.
pub const MOST_FUNCTIONS: usize = 1_024;

/// The maximum number of reducers in a program.
pub const MOST_REDUCERS: usize = 32;

/// The maximum number of distinct tags in a program.
pub const MOST_TAGS: usize = 64;

/// The maximum number of parameters of a function.
pub const MOST_PARAMETERS: usize = 16;

/// The maximum number of names that a function declares, including its parameters.
pub const MOST_DECLARED: usize = 256;

/// The maximum grain of a loop: the number of iterations in a leaf.
pub const MOST_GRAIN: u64 = 1_000_000;

/// The maximum number of loops in a program.
pub const MOST_LOOPS: usize = 4_096;

/// The maximum number of instructions of a program, with each construct counted once.
pub const MOST_INSTRUCTIONS: usize = 1_048_576;

/// The maximum number of call statements in a program.
pub const MOST_CALL_STATEMENTS: usize = 65_535;

/// The maximum number of elements of an array: 2^24.
pub const MOST_ELEMENTS: u64 = 16_777_216;

/// The maximum number of iterations of a loop: 2^31 - 1.
pub const MOST_TURNS: u64 = 2_147_483_647;

/// The maximum depth of nested calls, including the call of `main`.
pub const MOST_DEPTH: usize = 10_000;

/// The maximum limit of a run, in instructions: 2^62.
pub const MOST_LIMIT: u64 = 4_611_686_018_427_387_904;

/// The maximum burden on a charged edge of a spawn, in instructions.
pub const MOST_BURDEN: u64 = 1_000_000_000;

/// The default limit of a run, in instructions.
pub const USUAL_LIMIT: u64 = 1_000_000_000;

/// The default burden of a spawn, in instructions.
pub const USUAL_BURDEN: u64 = 15_000;

/// The maximum number of workers of a run, including the caller's thread.
pub const MOST_WORKERS: usize = 64;

/// The maximum number of processors of a schedule.
pub const MOST_PROCESSORS: u64 = 1_000_000;

/// The maximum number of strands of a run that a schedule records.
pub const MOST_STRANDS: u64 = 1_000_000;

/// The maximum number of functions that the user may request in a gain report.
pub const MOST_TOP: u64 = 64;

/// The default number of functions in a gain report, as a maximum.
pub const USUAL_TOP: u64 = 10;
