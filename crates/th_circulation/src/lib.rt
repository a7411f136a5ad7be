//! Circulations of a height network, and the heights that they show.
//!
//! `best_heights` finds the lowest and the highest best heights of a network. It takes two steps:
//! `settle` finds heights that cost least and the circulation that shows it (`Settled`), with any
//! search. `spans` finds the lowest and the highest of all heights that cost as little (`Spans`). A
//! guide proposes cycles to `settle`, which checks each of them. Without the guide it is slow, and
//! as right.
#![tactic(auto)]

// The count of steps.
mod steps;

// The links of a network, the slots of their residual arcs, and lists of these.
mod differences;
mod graphs;
mod limits;
mod listings;
mod slots;
mod states;

// How flows change, phase by phase.
mod cancels;
mod flows;
mod heights;
mod point_heights;
mod proposals;
mod proposing;
mod settling;
mod starts;
mod workspaces;

// The lowest and the highest best heights.
mod residuals;
mod spanning;

// Both in one call.
mod best;

// Laws of the definitions.
pub mod laws;

pub use best::{BestHeights, best_heights, best_heights_from};
pub use flows::is_circulation;
pub use settling::settle;
pub use spanning::spans;
pub use starts::Start;
pub use steps::Steps;
pub use th_network::{Settled, Spans};
