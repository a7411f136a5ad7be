//! The texts of `explain`: which one number, if it were wrong, would explain what does not fit.
//!
//! `rows` has what they consist of: a row for each number that explains, the heights that may have been meant, the
//! readings that fit, and what was looked at in numbers. `ranked` puts rows in order. `explanations_csv` makes the
//! table as comma-separated values, and `explanations_text` the text for people, whose sentences alone `sentences_text`
//! makes. Out of memory is the only failure.
#![tactic(auto)]

// The rows, their order and their numbers.
mod ranks;
mod rows;

// Costs, and the words for kinds of numbers.
mod costs;
mod words;

// The table.
mod tables;

// The text for people: its head and its columns, and the sentences.
mod called;
mod columns;
mod fitting;
mod meant;
mod pasting;
mod read;
mod sentences;
mod texts;

// Laws.
pub mod laws;

pub use columns::mildest_value;
pub use ranks::{MOST_ROWS, ranked};
pub use rows::{Kind, Named, ReadAs, ReadingRow, Row, Summary, Values};
pub use sentences::{MOST_NAMED, firsts_of};
pub use tables::explanations_csv;
pub use texts::{explanations_text, sentences_text};
pub use words::{is_pole, is_sight};
