//! The core of the scheduler on its own: worlds of workers in which one event happens at a time, over strands that
//! really execute code.
#![tactic(auto)]

pub mod board;
pub mod copy;
pub mod event;
pub mod laws;
pub mod play;
pub mod post;
pub mod world;
