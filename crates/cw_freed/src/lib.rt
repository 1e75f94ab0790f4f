//! Computes the spans that a run would have if the instructions of some sites' invocations cost nothing, while the
//! run executes.
//!
//! A [`FreedMeter`] has the interface of a meter: each call of a method represents one instruction, and its argument
//! is the number of instructions before it. An instruction counts as 1 if the innermost open invocation is of a site
//! that is not free, and as 0 if it is of a free site. The caller says whether a site is free where a call of the
//! site begins.
//!
//! | instruction | call |
//! |---|---|
//! | a spawned call | `spawn(count, free)` |
//! | the spawned half of a loop | `spawn_half(count)` |
//! | a plain call | `call(count, free)` |
//! | a scope, a cut, a region, or a plain call of a loop's function | `begin(count)` |
//! | the join and end of a scope, a cut or a region | `end(count)` |
//! | the join and end of a call, or of a loop's function | `give_back(count)` |
//! | a join of the current block | `sync(count)` |
//! | any other | none (`laws::instructions_need_no_call`) |
//!
//! No method looks anything up in a table, and none allocates memory except for the stack of open parts. After an
//! error, which means that memory ran out, a meter is meaningless.
#![tactic(auto)]

pub mod laws;
mod meter;
mod paths;

pub use meter::{Freed, FreedMeter};
