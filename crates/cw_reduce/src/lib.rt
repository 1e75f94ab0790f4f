//! The results of a run other than its value: totals of reducers and printed lines.
//!
//! Each type is a `Monoid`: the views of pieces that were executed separately join in serial order, in any grouping.
#![tactic(auto)]

pub mod laws;
mod lines;
mod maximum;
mod sum;
mod totals;
mod views;

pub use lines::Lines;
pub use maximum::Max;
pub use sum::Sum;
pub use views::Views;
