//! The texts and tables of a page: names that make no markup, lengths in metres with four decimals,
//! places in the books, and the tables of sights, entries, benchmarks, heights and explanations, whose
//! rows are those of `th_review_rows`. Points and benchmarks have beside them what an answer says of them:
//! heights that a wrong number moves are struck out.
//!
//! Each call adds the text of a definition to a `Page`. Out of memory is the only failure.
#![tactic(auto)]

// The rows that tables and pictures show.
mod shown;

// Texts: names, lengths, words, places.
mod lengths;
mod places;
mod texts;
mod words;

// The cells of rows.
mod cells;

// Tables: what all have, and one of each kind.
mod benchmark_tables;
mod entry_tables;
mod explanation_tables;
mod height_tables;
mod others_tables;
mod sight_tables;
mod tables;

// Laws of the definitions.
pub mod laws;

pub use benchmark_tables::write_benchmarks;
pub use entry_tables::write_entries;
pub use explanation_tables::write_explanations;
pub use height_tables::write_heights;
pub use lengths::{write_height, write_signed, write_size, write_sized};
pub use others_tables::write_others;
pub use places::{write_ends, write_found, write_place};
pub use shown::{ShownBenchmark, ShownPoint, moved_count, shown_benchmarks, shown_points};
pub use sight_tables::{write_found_cells, write_sight_cells, write_sights};
pub use tables::{first_rows, write_close, write_left_out, write_open};
pub use texts::{write_escaped, write_number};
pub use words::entry_words;
