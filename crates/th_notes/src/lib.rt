//! What a review notes, how it is found, and the line of each note: what looks odd in the books, in the
//! tables and in the network, though no number shows it.
//!
//! `notes_of` finds the notes. `write_notes` writes how many there are, and their lines, and `note_text`
//! is the text of one. Out of memory is the only failure.
#![tactic(auto)]

// What a note is, and its line.
mod lines;
mod notes;

// How many notes of a kind are listed.
mod limited;

// What is noted of books, and of the tables.
mod books;
mod repeats;
mod tables;

// What is noted of parts of the network.
mod parts;

// How often names are used.
mod uses;

// Names that differ in one character, and how points are sighted.
mod differences;
mod sightings;

// What is noted of points, and of their names.
mod names;
mod points;
mod twins;

// All notes of a review.
mod findings;

// Laws of the definitions.
pub mod laws;

pub use findings::notes_of;
pub use lines::{note_text, write_notes};
pub use notes::{Kind, LineKind, Note, Pair};
