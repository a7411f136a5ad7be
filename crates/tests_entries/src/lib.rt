//! Tests of what a review tells about books: entries, counts, lookalikes and names that are spelled in
//! more than one way, counted by hand.
//!
//! They stand in a crate of their own since a crate is proved a second time with its tests. They use
//! public calls alone.
#![tactic(auto)]

#[cfg(test)]
mod oddities;
#[cfg(test)]
mod repeated;
#[cfg(test)]
mod reviews;
#[cfg(test)]
mod spellings;
