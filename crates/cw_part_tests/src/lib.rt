//! Tables of test cases for the parts of a run: pieces, measures, rows, slices, the yard, and the code that the
//! verifier accepts, through public functions only.
#![tactic(auto)]

#[cfg(test)]
mod burdens;
#[cfg(test)]
mod jobs;
#[cfg(test)]
mod measure;
#[cfg(test)]
mod meter;
#[cfg(test)]
mod monoid;
#[cfg(test)]
mod part;
#[cfg(test)]
mod race;
#[cfg(test)]
mod reduce;
#[cfg(test)]
mod regions;
#[cfg(test)]
mod sites;
#[cfg(test)]
mod slices;
#[cfg(test)]
mod verify;
#[cfg(test)]
mod walk;
