//! The command line of the program, as `clap` describes one, with its help texts, and its plan, as `clap`
//! reads it.
//!
//! `plan` returns the command that the arguments name, or why they name none. It has the names of
//! the files, the prefix of the outputs, the limit of blunders and the title of a page exactly as `clap`
//! states them. The types keep a plan at 1 to `MAX_BOOKS` books and a limit of at most `MAX_BLUNDER`. The
//! last part of a prefix is not empty, `.` or `..`. A given title is one line of at most `MAX_TITLE` characters.
#![tactic(auto)]

// The command line that `clap` gets.
mod commands;
mod limits;

// Plans, and what they consist of.
mod blunder_limits;
mod books;
mod faults;
mod plans;
mod prefixes;
mod titles;

// Reading a command line.
mod argument_faults;
mod command_lines;
mod streams;
mod values;

pub use blunder_limits::Limit;
pub use books::Books;
pub use command_lines::plan;
pub use commands::VERSION;
pub use faults::{ArgumentFault, PlanFault};
pub use limits::{MAX_BLUNDER, MAX_TITLE};
pub use plans::{Inputs, Plan};
pub use th_limits::MAX_BOOKS;
