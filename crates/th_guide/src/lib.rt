//! Nothing here is promised but that it returns.
//!
//! A guide for settling a network by cancelling negative cycles. It finds flows of greatest gain by
//! a dual network simplex with long steps. Then it splits what still has to flow into cycles to
//! cancel (Ahuja, Magnanti and Orlin, Network Flows, section 3.5 and chapter 11). Whoever takes a
//! proposal checks it: a wrong one costs time, and nothing else.
//!
//! No arithmetic wraps. If a number leaves its range, or a place is not in its row, the guide gives
//! up and proposes nothing from then on. `Guide::new` makes all rows.
#![tactic(auto)]

// Links and their residual arcs, the arcs out of each vertex, and the flows outside the tree.
mod goals;
mod links;
mod residual_arcs;
mod rows;
mod sides;
mod starts;

// The spanning tree with the flows on it and the heights of the vertices, which are their potentials,
// and the part of it that a pivot moves.
mod families;
mod heights;
mod parts;
mod scales;
mod trees;

// One pivot: what leaves, how far the line search goes, what enters.
mod breakpoints;
mod line_search;
mod pricing;

// The whole: a tree to start from, pivots, cycles.
mod cycles;
mod guide;
mod planting;
mod simplex;

pub use guide::Guide;
pub use links::Link;
pub use residual_arcs::ResidualArc;
pub use rows::push_if_room;
pub use starts::Starts;
