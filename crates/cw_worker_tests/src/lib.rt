//! Tests of strands and of worlds, by public calls only: continuations that are taken back or executed by other
//! strands, lists of events worked out by hand, and random lists compared with the run by one worker.
#![tactic(auto)]

#[cfg(test)]
mod answers;
#[cfg(test)]
mod arrays;
#[cfg(test)]
mod calls;
#[cfg(test)]
mod driving;
#[cfg(test)]
mod generated;
#[cfg(test)]
mod moments;
#[cfg(test)]
mod programs;
#[cfg(test)]
mod readers;
#[cfg(test)]
mod rows;
#[cfg(test)]
mod sources;
#[cfg(test)]
mod walks;
#[cfg(test)]
mod wanders;
