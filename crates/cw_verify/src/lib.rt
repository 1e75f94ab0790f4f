//! The verifier: accepts well-formed code and decodes it into superinstructions.
#![tactic(auto)]

mod calls;
mod flat;
mod found;
pub mod fuse;
mod lines;
mod meet;
mod meeting;
mod named;
mod numbers;
mod reading;
mod resolve;
mod round;
mod row;
mod search;
mod transfer;
mod validate;
pub mod verify;
mod work;
