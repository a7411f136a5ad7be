//! What a review reports of a book: the heights that were entered and the sights that use them, how
//! many blocks, setups and sights there are, what it has in place of sights, and lines that only look
//! like a setup. Of several books: the names that they spell in more than one way.
//!
//! A `Tally` is a witness of a `th_book::BookFeed`: it sees each line of a book while it is read, and
//! gives the `BookReview` of a book that has no fault. The `SeenNames` pass from one book to the next.
//! A `Tally` has a `SightWatch`, which is a witness too: it notes a book without sights.
#![tactic(auto)]

// Limits, and lists that keep the first of many things.
mod limits;
mod listed;

// How many lines there are of each kind, the words that a book may have in place of sights, and a book
// without sights with its text.
mod counts;
mod sights;
mod texts;
mod words;

// An entered height, and the sights that use it.
mod entries;

// The entries of the running setup.
mod running;

// What is known of a book after some of its lines.
mod tallies;

// What looks odd in a block.
mod oddities;

// The review of a book.
mod reviews;

// Names that are spelled in more than one way.
mod spellings;

// The names that were seen, and how they are spelled.
mod seen;

// Laws of the definitions.
pub mod laws;

pub use counts::BookCount;
pub use entries::{Entry, HeightKind};
pub use limits::{MAX_LISTED, MAX_MENTIONS};
pub use listed::Listed;
pub use reviews::BookReview;
pub use seen::SeenNames;
pub use sights::{NoSight, SightWatch};
pub use spellings::Spelling;
pub use tallies::Tally;
pub use texts::{blocks_end, separator, words_lead};
pub use words::{MEASURED, MEASURED_WORDS};
