//! Tests of `th_freeing` on small networks, against negative cycles that are cancelled one after the other.
//!
//! They are in a crate of their own since a crate is proved a second time with its tests. They use
//! public calls alone.
#![tactic(auto)]

// Small networks, and best flows of them.
#[cfg(test)]
mod networks;
#[cfg(test)]
mod references;

// What is proposed for their numbers.
#[cfg(test)]
mod freed;
#[cfg(test)]
mod numbers;
