//! Tests of `th_blunders` and `th_report`: what heights leave of observations and what that costs,
//! and the texts that are printed of heights.
//!
//! They stand in a crate of their own since a crate is proved a second time with its tests. They use
//! public calls alone.
#![tactic(auto)]

// Books, and the networks of them.
#[cfg(test)]
mod networks;

// What is found of heights, and what is printed.
#[cfg(test)]
mod residuals;
#[cfg(test)]
mod texts;
