//! The texts of reports, the sinks that they are written to, and readers and writers that count the
//! calls that failed.
#![tactic(auto)]

mod aligned;
mod answering;
mod cells;
mod column;
mod counted;
mod drawing;
mod escaping;
mod fields;
mod gain_table;
mod input;
pub mod laws;
mod page_frame;
mod page_script;
mod page_style;
mod page_text;
mod sink;
mod speedup_table;
mod table;
mod tables;
mod text;
mod writing;

pub use answering::{answer, gain, ok, page, scale, schedule, sites, speedup};
pub use counted::Counted;
pub use drawing::Drawn;
pub use input::Input;
pub use sink::Sink;
pub use writing::{write_fault, write_text};
