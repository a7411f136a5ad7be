//! The program, over any folder: what it reads, what it writes, and the status that it ends with.
//!
//! A contract speaks of the folder before and after a run. On success the outputs hold the texts
//! that the inputs give, and standard error the notes of a list or an adjustment. A refusal names the
//! first fault of the inputs, and has a status and a line on standard error. Before outputs are begun
//! it changes nothing else. A command whose outputs would overwrite one of its inputs is not begun.
#![tactic(auto)]

// The commands.
mod booking;
mod checking;
mod listing;
mod mending;
mod surveying;

// The program: a refusal is reported, a plan that overwrites no input is run, arguments become a plan.
mod arguments;
mod overwrites;
mod plans;
mod refusals;

// The headline, and what the other commands make of accepted inputs.
pub mod laws;

pub use arguments::{run_arguments, run_words};
pub use checking::check;
pub use listing::list;
pub use plans::run_plan;
