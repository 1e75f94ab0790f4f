//! The analysis as a library, and what the program answers.
#![tactic(auto)]

mod analysis;
mod crews;
mod misuse;
mod paging;
mod reporting;
mod responses;

pub use analysis::{analyse, analyse_alone, analyse_named, analyse_named_alone};
pub use crews::crew_of;
pub use cw_compile::compile;
pub use responses::{refuse, say, say_why, tool, unread};
