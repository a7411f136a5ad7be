//! Tests of `th_tables`, `th_points` and `th_network`: what tables hold and which faults they have,
//! where points stand among many, what networks a book and tables make, and that no seed of a hash
//! changes an answer.
//!
//! They stand in a crate of their own since a crate is proved a second time with its tests. They use
//! public calls alone.
#![tactic(auto)]

#[cfg(test)]
mod networks;
#[cfg(test)]
mod points;
#[cfg(test)]
mod seeds;
#[cfg(test)]
mod tables;
