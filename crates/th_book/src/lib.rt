//! The observations of a book: the height differences from its setups to the points sighted.
//!
//! A `Book` takes the lines of a book one by one and keeps what a later sight needs: the station,
//! the last instrument height and the last reflector height. `read_book` reads a whole book, and a
//! `BookFeed` one that comes in pieces. A `Witness` sees the lines of a book while it is read.
#![tactic(auto)]

// The limit of a book.
mod limits;

// The faults of a book.
mod faults;

// The counting words of a block.
mod countings;

// What a block enters into its book.
mod entries;

// The running setup, and the sights from it.
mod setups;

// Who sees the lines of a book.
mod witnesses;

// Books by their lines.
mod books;

// Books by pieces of their bytes.
mod feeds;

// Laws of the definitions.
pub mod laws;

pub use books::{Book, read_book};
pub use entries::Entered;
pub use faults::{BookFault, BookKind};
pub use feeds::BookFeed;
pub use limits::MAX_BOOK;
pub use setups::Setup;
pub use th_observations::Observation;
pub use witnesses::Witness;
