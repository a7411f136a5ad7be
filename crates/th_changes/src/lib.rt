//! Networks in which one number is changed: what they cost, how steeply that rises as the number grows,
//! and what flows that are sent other ways show of it.
//!
//! A number is one that somebody read or typed. `tilted` moves the change of a number to the differences
//! that it touches, so no table changes. `specs/` has the definitions: numbers, and what is left if one is
//! freed.
#![tactic(auto)]

// The numbers.
mod numbers;

// Networks with a changed number, and what they cost.
mod cases;
mod slopes;
mod tilting;

// What flows through a number.
mod nets;
mod runs;
mod summing;

// What circulations show: those that are kept, and flows that are sent other ways.
mod kept;
mod lines;
mod prices;
mod rerouting;

pub use cases::Case;
pub use kept::KeptFlows;
pub use lines::Line;
pub use numbers::Number;
pub use prices::sloped;
pub use rerouting::Rerouted;
pub use runs::{Run, run_of};
pub use slopes::{Sloped, slope_as_given, slope_at};
pub use tilting::{reach_of, tilted};
