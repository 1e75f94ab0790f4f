//! Tests of runs with many workers, by public calls only.
#![tactic(auto)]

#[cfg(test)]
mod crews;
#[cfg(test)]
mod gates;
#[cfg(test)]
mod given_up;
#[cfg(test)]
mod programs;
