//! The numbers of a survey that somebody read or typed.
//!
//! `listing_of` lists them in the order of rows that explain equally: entered heights, changes that were
//! forgotten, sights and benchmarks. `tied_rows` finds which benchmarks are tied to another one. `books_of`
//! lists the books, each of which may have been read from mark to mark; a `Reading` has a row for each that fits much
//! better without the heights of instruments and reflectors. `specs/` has the definitions.
#![tactic(auto)]

// A number, and where it is.
mod candidates;

// The entries by kind.
mod kinds;

// The numbers of a survey: those of entries, benchmarks and all, and the books.
mod books;
mod entered;
mod listing;
mod ties;

// Books as they would be without the heights of instruments and reflectors.
mod readings;

pub use books::{SightedBook, books_of};
pub use candidates::{Candidate, Label, sight_count};
pub use kinds::{Kinds, is_kind};
pub use listing::{Listing, listing_of};
pub use readings::{Reading, reread_network, word_33};
pub use ties::{TiedRow, tied_rows};
