//! Explains why a source is rejected, or why its run trapped, in plain words, with what to write instead.
#![tactic(auto)]

mod advice;
mod around;
mod calling;
mod checking;
mod excerpt;
mod explaining;
mod foreign;
mod grammar;
mod habits;
mod hinting;
mod keywords;
mod lexical;
mod limits;
mod listing;
mod marks;
mod near;
mod others;
mod owning;
mod phrase;
mod rejections;
mod repairs;
mod retyped;
mod scan;
mod shortened;
mod statement_habits;
mod syntax;
mod tables;
mod traps;
mod typing;
mod unparsed;
mod word;
mod words;

pub use explaining::{RejectedSource, explain};
pub use habits::Row;
pub use others::{Named, explain_unread};
pub use tables::{all_bytes, all_names, all_rows};
pub use word::Word;
