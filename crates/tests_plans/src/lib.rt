//! Tests of `th_commands`: which plans command lines name, and which faults they have, with the texts of
//! these.
//!
//! They are a crate of their own since a crate is proved a second time with its tests. They use
//! public calls alone.
#![tactic(auto)]

// Words that are a plan.
#[cfg(test)]
mod plans;

// Words that are none.
#[cfg(test)]
mod faults;
#[cfg(test)]
mod texts;
