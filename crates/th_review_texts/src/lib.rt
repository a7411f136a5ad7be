//! The texts that a review of a network writes: the tables of points, of observations, of entries and of
//! benchmarks as comma-separated values, and the review for people.
//!
//! `review_texts` makes them from what `th_review_rows` says was found. Out of memory is the only failure.
#![tactic(auto)]

// The tables.
mod tables;

// The parts of the review, from the first to the last.
mod benchmark_tables;
mod book_tables;
mod entry_tables;
mod heads;
mod largest;
mod moves;
mod observation_tables;
mod point_tables;
// A part uses those before it in the review.
mod reviews;

// All of them.
mod texts;

pub use texts::{ReviewTexts, review_texts};
