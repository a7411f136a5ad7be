//! Tests of `th_reliability`, over `th_cuts`: the worked strengths and controls of small networks, and
//! what becomes of mistakes.
//!
//! They are in a crate of their own since a crate is proved a second time with its tests. They use
//! public calls alone.
#![tactic(auto)]

#[cfg(test)]
mod benchmarks;
#[cfg(test)]
mod entries;
#[cfg(test)]
mod networks;
#[cfg(test)]
mod sizes;
