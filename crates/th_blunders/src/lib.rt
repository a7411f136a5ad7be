//! What an adjusted network shows of its observations: the residuals, what they cost, which of them
//! are blunders, and which observations were repeated with the ends exchanged.
//!
//! Each list is a function of the observations in their order and, for residuals, of the heights of
//! the points. Observations are numbered from 1. The time of each call is near the size of its input.
#![tactic(auto)]

// Residuals and their cost.
mod costs;
mod fits;
mod residual;

// Blunders.
mod blunder;

// Opposites.
mod pairs;

pub use blunder::{blunder_count, blunders, is_blunder};
pub use costs::cost;
pub use fits::Fit;
pub use pairs::{Opposite, opposites};
pub use residual::residuals;
