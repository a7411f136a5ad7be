//! What a review found, for each text that shows it: a row for each point, observation, entry and
//! benchmark, which joins the survey with what was found of it elsewhere, and the words and marks for
//! what a mistake would do.
//!
//! `found_of` makes a `Found` of the numbers that were found, `Findings`. Out of memory is the only
//! failure.
#![tactic(auto)]

// The entries of all books, and the sights of each.
mod entries;

// The numbers that were found.
mod findings;

// Rows of points, observations, entries and benchmarks, and what makes each list of them.
mod benchmark_list;
mod entry_list;
mod observation_list;
mod point_list;
mod rows;

// All that was found.
mod found;

// How texts tell what a row holds, and which rows are weak.
mod weak;
mod words;

pub use entries::{entries_of, sights_of};
pub use findings::Findings;
pub use found::{Found, found_of};
pub use rows::{BenchmarkRow, End, EntryRow, ObservationRow, PointRow};
pub use weak::{
    is_weak_benchmark, is_weak_entry, is_weak_observation, weak_benchmark_count, weak_entry_count,
    weak_observation_count,
};
pub use words::{
    benchmark_mark, benchmark_word, blamed_of, blames_of, count_or_dash, kind_word, mistake_mark,
    mistake_word, moves_of, number_or_dash, point_mark, shared_mistake_mark, shared_mistake_word,
};
