//! Tests of the heights that may have been meant, found by hand.
//!
//! They stand in a crate of their own since a crate is proved a second time with its tests. They use
//! public calls alone.
#![tactic(auto)]

#[cfg(test)]
mod rows;
