//! The texts that runs print, made in memory from observations and networks: the list of a book, and
//! the heights file, the report and the GSI file of an adjustment.
//!
//! Each is a function of the observations in their order, the points, the benchmarks, the weights
//! and the heights. Only an allocation can fail.
#![tactic(auto)]

// The list of a book's observations.
mod lists;

// The heights of an adjustment, as a table and as blocks.
mod gsi;
mod heights;

// The report: its parts in order, and the whole.
mod heads;
mod opposite_lists;
mod point_tables;
mod residual_tables;
// A part uses those before it in the report.
mod reports;

// Laws of the definitions.
pub mod laws;

// For texts of other crates: the columns of observations, and words of GSI-16.
pub use gsi::{heights_gsi, number_word, padded_name, word_of};
pub use heads::benchmark_count;
pub use heights::heights_csv;
pub use lists::list_text;
pub use reports::{report_on_fit, report_text};
pub use residual_tables::{
    blunder_mark, write_end_columns, write_ends, write_place, write_place_columns,
};
