//! A second search, for tests and comparison.
//!
//! `LevelSearch` makes a table of the cheapest walks of 0, 1, 2, .. arcs. It keeps the same law as
//! `th_search::LabelSearch`, and shares only the definitions with it.
#![tactic(auto)]

// The rows of the table, and the search over them.
mod level_search;
mod levels;

pub use level_search::LevelSearch;
