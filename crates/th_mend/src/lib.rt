//! The table of changes to a book, and the mended book of a book and such a table.
//!
//! `read_changes` reads a table of changes of at most `MAX_CHANGES` bytes whole (a line, a word of it, and its new
//! value, under the header `line,word,value`), or refuses it with its first faulty record and the first kind of
//! fault that applies there. Whether a book has such lines and words is found when it is mended.
//!
//! A book is mended in two passes over its lines. In the first a `Locating`, a witness of the reading
//! of the book, finds for each change the range of lines that it reaches, and keeps nothing of a line.
//! In the second `mend_line` needs a line, its place and the edits, and no other line. So a book that
//! comes in pieces can be mended line by line: read by a `BookFeed`, then mended line by line into
//! another, which finds the faults of the mended book, and then once more to be printed. `mended` does
//! this for a book in memory.
//!
//! A changed word keeps its index, its information and the number of its data bytes. A `NewWord` owns
//! its data. `Misfit` tells why a length or a name has no place in a word.
#![tactic(auto)]

// The table of changes: limits and faults; from fields to changes, and from records to a table.
mod change_faults;
mod changes;
mod fields;
mod limits;
mod tables;

// Words with another length, sign or name, and words that are added to a block: which words count for an index, why a
// word cannot have a length or a name, lengths as numbers of units, the data of lengths and names, and the words.
mod bodies;
mod counting;
mod lengths;
mod misfits;
mod new_words;

// Laws of these words.
pub mod word_laws;

// Faults of a book and of changes to it, and why writing stops.
mod faults;
mod stops;

// The words of a block that matter.
mod sights;

// From changes to edits: what is in force in a line, what is known of a change, and its range of lines.
mod edits;
mod forces;
mod sought;
mod spots;
// Both use those before them.
mod located;
mod locating;

// From lines to mended lines, and to the mended book.
mod ends;
mod words;
// Lines use the words before them, and books all others.
mod books;
mod lines;

// Laws of mended lines and books.
pub mod laws;

pub use books::mended;
pub use change_faults::{ChangeFault, ChangeKind};
pub use changes::{Change, Reach, What};
pub use counting::{counts_for, holds};
pub use edits::{Edit, is_named};
pub use faults::{MendFault, MendKind, RowFault};
pub use lengths::{info_of, numbers_of, units_in};
pub use limits::MAX_CHANGES;
pub use lines::mend_line;
pub use misfits::Misfit;
pub use new_words::{NewWord, added_word, with_length, with_name, with_other_sign};
pub use sought::Locating;
pub use stops::Stop;
pub use tables::read_changes;
