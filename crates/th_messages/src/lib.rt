//! The lines on standard error: why a run was refused and what helps, and what is noted of a run that was
//! not. Nothing here allocates, so a program that is out of memory can still report what happened.
//!
//! `Line` passes its text on in pieces, and few lines have more than one, so that the lines of runs side
//! by side stay apart. The names of files and what else was typed are put as `shown_byte` shows their
//! bytes, so that none of them can send anything to a terminal. The texts of help are tables in `specs/`.
#![tactic(auto)]

// A line that grows, and its way to standard error.
mod errors;
mod lines;

// What helps against a fault of one input, and of the network.
mod books;
mod certificates;
mod changes;
mod differences;
mod networks;
mod tables;

// The first line of a fault, and the second.
mod faults;
mod helps;

// Refusals, and their second line, which names a file.
mod helping;
mod refusals;

// What a surveyor should know of a run that was not refused.
mod notes;
mod noting;
mod remarks;

pub use errors::{begin_line, end_line};
pub use lines::Line;
pub use noting::tell_notes;
pub use refusals::{put_refusal, refuse_memory, refuse_overwrite, report};
