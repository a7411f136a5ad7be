//! How far a run is, for whoever waits for it.
//!
//! A loop that may take seconds calls `Progress::show` at each step. Nothing depends on what is shown,
//! so no contract says anything of it.
#![tactic(auto)]

mod meters;
mod progress;

pub use meters::Meter;
pub use progress::{Progress, Silent, Work};
