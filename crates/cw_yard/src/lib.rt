//! The yard: workers exchange jobs, each at its own deque, and return effects, each in a cell.
#![tactic(auto)]

pub(crate) mod cells;
pub(crate) mod deque;
pub(crate) mod handoff;
pub(crate) mod left;
pub(crate) mod mark;
pub mod open;
pub mod seat;
pub(crate) mod task;
pub mod ticket;
pub(crate) mod view;
pub mod yard;
