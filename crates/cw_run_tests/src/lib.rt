//! Tables of test cases for runs and sources: the results of small codes, the texts of reports, and the
//! explanations of sources, through public functions only.
#![tactic(auto)]

#[cfg(test)]
mod covering;
#[cfg(test)]
mod drafts;
#[cfg(test)]
mod explained;
#[cfg(test)]
mod grammar;
#[cfg(test)]
mod habits;
#[cfg(test)]
mod limits;
#[cfg(test)]
mod machine;
#[cfg(test)]
mod names;
#[cfg(test)]
mod others;
#[cfg(test)]
mod owning;
#[cfg(test)]
mod programs;
#[cfg(test)]
mod report;
#[cfg(test)]
mod several;
#[cfg(test)]
mod sources;
#[cfg(test)]
mod statements;
#[cfg(test)]
mod typing;
