//! Tests of `th_search` and `th_guide`, and of `th_circulation` over its searches and over strange ones: what the
//! searches answer, what rows of surveys are settled to, networks of size, and small networks against
//! plain references.
//!
//! They stand in a crate of their own since a crate is proved a second time with its tests. They use
//! public calls alone, and take their wanted values from worked surveys.
#![tactic(auto)]

// What searches answer.
#[cfg(test)]
mod answers;

// The networks, the searches, and the settling of one over the other.
#[cfg(test)]
mod searches;
#[cfg(test)]
mod settling;
#[cfg(test)]
mod surveys;

// Surveys with known heights, costs and flows.
#[cfg(test)]
mod rows;
#[cfg(test)]
mod sizes;
#[cfg(test)]
mod towers;

// What the guide proposes.
#[cfg(test)]
mod guides;

// Small networks, and what plain references find of them.
#[cfg(test)]
mod grids;
#[cfg(test)]
mod randoms;
#[cfg(test)]
mod references;
#[cfg(test)]
mod samples;

// Unusual searches, and allocation failures.
#[cfg(test)]
mod refusals;
#[cfg(test)]
mod strangers;
