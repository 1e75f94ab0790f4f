//! All measures of a run, counted as it goes.
//!
//! A [`Meter`] keeps the rows of call sites with the chosen path, the heaviest path with burdens, and the rows of region
//! tags: the tables of `cw_sites`, `cw_measure` and `cw_regions`, told of one run together, and the parts that are open.
//!
//! # How a run calls a `Meter`
//!
//! What is kept of a run its [`Detail`] says. Where that is its values alone, a meter knows how many parts are open and
//! is told nothing else. Where it is its strands, a recorder of `cw_greedy` is told of the run, too, and no table.
//!
//! Each call stands for one instruction of the run, and is told the count of instructions before it.
//!
//! | instruction | call |
//! |---|---|
//! | a call in place; a spawned one | `call(count, site)`; `spawn(count, site)` |
//! | a scope, a cut, a loop's first function or one that it calls in place begins | `begin(count)` |
//! | half of a loop begins, that is spawned | `spawn_half(count)` |
//! | a region begins | `begin_region(count, tag)` |
//! | a scope, a cut or a region joins and ends | `end(count)` |
//! | a call, or a function of a loop, joins and ends | `give_back(count)` |
//! | a join of the block that runs | `sync(count)` |
//! | any other | none (`laws::instructions_need_no_call`) |
//!
//! A part that ends joins first what its block has spawned. The tables are told of that join, which the event of the part
//! does not have: the run that they tell of is alike (`specs/Alike`), in that its tree differs only in how it is grouped,
//! so all that is read off it is the same. After an error, which says that memory ran out, a meter tells of nothing.
#![tactic(auto)]

mod detail;
pub mod laws;
mod memory;
mod meter;
mod parts;
mod tables;
mod uncounted;

pub use detail::Detail;
pub use meter::{Measures, Meter, Readings};
