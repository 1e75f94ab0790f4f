//! The totals of reducers.

/// The total of a reducer over a run, or over a part of a run.
#[derive(Clone, Copy, Debug, PartialEq, Eq)]
pub enum Total {
    /// The sum of the values of all updates; 0 without updates.
    Sum(i128),
    /// The maximum of the values of all updates; `None` without updates.
    Max(Option<i64>),
}
