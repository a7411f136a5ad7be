//! What a mistake in an observation would do to a height network.
//!
//! The strength of a point bounds the weight of blunders that it withstands: anything below half of it. The control of
//! an observation is the weight of the others that check it. `Reliability` finds both by least cuts over the network's
//! vertices; `Mistake` says what a mistake does. `shared_mistakes` finds what a mistake does that all sights of one
//! entry share, and `benchmark_mistakes` what a wrong height of a benchmark does. Where a mistake does not show, all
//! say what it would move. `specs/` has the definitions. `laws` proves what they mean for best heights: which blunders
//! leave them where they are, and whether a mistake shows, ties, drags points along or is checked by nothing.
#![tactic(auto)]

// The network as a graph.
mod edges;

// What moves where a mistake does not show, and what is blamed, given which observations share it.
mod blames;
mod marks;

// The least cuts of its points and of its observations, and what a mistake in one of these moves.
mod controls;
mod own_blames;
mod strengths;
// All of them, from one cut tree.
mod numbers;

// The effect of a mistake, by control and weight.
mod mistakes;

// What a mistake does that several observations share: their other ends, and a flow to these.
mod effects;
mod ground;
mod targets;

// Entries: their sights, and the bounds that the controls of these give.
mod bounds;
mod runs;
mod shared;
mod sights;

// Benchmarks: the observations with an end there.
mod benchmarks;

// Laws of the definitions.
pub mod laws;

pub use benchmarks::{BenchmarkEffect, benchmark_mistakes, place_in};
pub use blames::Blame;
pub use effects::Effect;
pub use mistakes::{Mistake, SharedMistake};
pub use numbers::{Reliability, point_strengths};
pub use runs::Runs;
pub use shared::shared_mistakes;
pub use sights::Sights;
