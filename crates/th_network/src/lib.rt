//! The height network that observations and benchmarks make, and the law by which a circulation
//! shows that heights are least.
//!
//! A network has at most `MAX_OBSERVATIONS` observations and `MAX_POINTS` points, and from each
//! point a chain of observations leads to a benchmark. `Network::build` makes it, or returns the
//! first fault. It takes the points in order of first sight (`th_points`), looks their heights up
//! (`sites`), walks from the benchmarks to all that they reach (`anchors`, over `neighbours` and
//! `marks`), and numbers the vertices (`vertices`). It removes the benchmarks' heights from the
//! observations (`links`). `Network::with_differences` changes differences alone, and shares the points and
//! vertices.
//!
//! The definitions are in `specs/`: walks and faults, heights and their cost, circulations,
//! vertices and links. `laws` proves what they are for: heights that a circulation shows are least.
#![tactic(auto)]

// Faults.
mod faults;

// The points, and the heights of those that are benchmarks.
mod sites;

// Which points a chain of observations ties to a benchmark: what joins the points, and what is marked
// as the walk goes on.
mod marks;
mod neighbours;
// The walk itself.
mod anchors;

// The vertices and the arcs between them, and what the observations weigh.
mod links;
mod vertices;
mod weights;

// The network.
mod networks;

// What is found in it: heights with the circulation that shows them, and the span of each point.
mod settled;

// Laws of the definitions.
pub mod laws;

pub use faults::NetFault;
pub use links::Link;
pub use networks::Network;
pub use settled::{Settled, Spans};
pub use th_limits::{MAX_OBSERVATIONS, MAX_POINTS};
