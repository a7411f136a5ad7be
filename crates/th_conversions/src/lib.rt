//! Books of height differences from elsewhere: a table of differences becomes a GSI-16 book, and a book
//! with heights of points one with height differences.
//!
//! `book_of_table` reads a table with the columns `from,to,difference`, or with those of the list of
//! a book, and prints a book that has exactly these observations, in order. A table has at most
//! `MAX_DIFFERENCES` bytes, a book at most `MAX_BOOK`, and a table with a fault prints nothing.
//!
//! `book_of_heights` takes a book with a word 83 in each sight, and a word 86 in each setup, as the usual
//! recording masks write them. It prints the book again, line for line, with a word 33 behind each height
//! sight. The observations of the printed book are 83 less the 86 of its setup.
//!
//! Both texts are made in memory.
#![tactic(auto)]

// Limits and faults of a table.
mod faults;
mod limits;

// From its records to rows.
mod columns;
mod rows;
mod tables;

// From rows to the blocks of a book.
mod words;
// A book uses the words before it.
mod books;

// Books with heights: their faults, which blocks are height sights, and what is wrong with a block.
mod height_faults;
mod sights;

// The heights that run, and the words that a height sight gets.
mod height_words;
mod running;

// From lines to printed lines, and whole books.
mod lines;
// A book uses the lines before it.
mod height_books;

// Laws of the definitions.
pub mod laws;

pub use books::book_of_table;
pub use faults::{DifferenceFault, DifferenceKind};
pub use height_books::book_of_heights;
pub use height_faults::{HeightFault, HeightKind};
pub use limits::MAX_DIFFERENCES;
