//! Lemmas about Booleans, numbers, options and lists, for the proofs of several crates; and sparse tables.
//!
//! Each lemma is in `specs`, once. Lemmas of the kit's library with short names have descriptive names there.
#![tactic(auto)]

mod pages;
mod table;

pub use pages::{ON_SHELF, PAGE, Pages, SHELF};
pub use table::Table;
