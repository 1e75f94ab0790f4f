//! Tests that cross crates.
#![tactic(auto)]

#[cfg(test)]
mod arrays;
#[cfg(test)]
mod codes;
#[cfg(test)]
mod crewed;
#[cfg(test)]
mod examples;
#[cfg(test)]
mod explained;
#[cfg(test)]
mod gains;
#[cfg(test)]
mod generated;
#[cfg(test)]
mod greedy;
#[cfg(test)]
mod integers;
#[cfg(test)]
mod loops;
#[cfg(test)]
mod program;
#[cfg(test)]
mod rejections;
#[cfg(test)]
mod rows;
#[cfg(test)]
mod silent;
#[cfg(test)]
mod sinks;
#[cfg(test)]
mod speedups;
#[cfg(test)]
mod tables;
#[cfg(test)]
mod words;
