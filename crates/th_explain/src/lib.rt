//! Which one number of a survey, if it were wrong, would explain what does not fit.
//!
//! A number is one that somebody read or typed. Freed, it may have any value: the least cost that
//! is then left is what all other numbers err by at least, if it alone is wrong. `explanation` finds
//! that cost and the values that reach it. `specs/` has the definitions, and `laws` proves what they
//! are for.
#![tactic(auto)]

// What shows without solving a network that a number explains nothing: circulations that are kept, and flows
// that are sent other ways.
mod detours;
mod gains;
mod groups;
mod keeping;
mod pairs;
mod pauses;
mod sieve;
mod touching;
mod turns;
mod unshown;
// What a simplex shows of a number.
mod solving;

// What is left if a number is freed, and whether it explains what does not fit.
mod explaining;
mod freed;
// What is left while it changes within reach, and the blunders after it was changed.
mod mended;
mod reaching;

// Laws of the definitions.
pub mod laws;

pub use explaining::{explanation, explanation_or_more, shown};
pub use freed::Freed;
pub use mended::{Mending, blunders_left};
pub use reaching::{least_in_reach, least_left};
pub use sieve::Sieve;
pub use th_changes::{Case, Number};
