//! Potentials of a network whose arcs have costs, or a cycle of arcs whose costs sum to less than
//! zero; and distances along arcs without such a cycle.
//!
//! The trait `Search` is what a search promises: one of the two answers of `Found`, counts of calls,
//! refusals and cycles, and what it was asked last. `LabelSearch`, which the program uses, lowers
//! labels in place. `SearchCounts` is for whoever writes another one. `laws` proves that no network has
//! both answers. `Sweep` is the order of a pass over arcs.
//!
//! `TightArcs::distances` finds the distances from vertex 0: the greatest numbers of the vertices that are
//! 0 there and rise along no arc by more than its cost.
#![tactic(auto)]

// The input of a search, and its promise.
mod arcs;
mod counts;
mod last_calls;
pub mod laws;
mod limits;
mod searches;

// The search that lowers labels.
mod entries;
mod fronts;
mod label_search;
mod labels;
mod passes;
mod sweeps;

// Distances: how large one can be, which vertex is looked at next, and labels that fall along one arc
// after another until none is shorter than they say.
mod distances;
mod farthest;
mod spreading;

pub use arcs::{Arc, are_arcs};
pub use counts::SearchCounts;
pub use distances::TightArcs;
pub use label_search::LabelSearch;
pub use last_calls::LastCall;
pub use limits::{MAX_ARCS, MAX_COST, MAX_VERTICES};
pub use searches::{Found, Search};
pub use th_limits::MAX_CALLS;
