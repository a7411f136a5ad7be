//! The rows of the numbers that explain what does not fit.
//!
//! `explanations_of` makes the rows of a network, and counts what was looked at. `specs/` has the
//! definitions.
#![tactic(auto)]

// Which numbers pass beyond the limit: those that gain most first, then all, up to a cutoff that falls as they are found.
mod finder;
mod growing;
mod guesses;
mod passing;

// With those beyond half of the limit that leave no more than the best of these.
mod sifting;

// The row of a number, or none.
mod rows;

// All rows.
mod findings;

pub use findings::{Explanations, explained_by, explanations_of};
