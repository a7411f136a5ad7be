//! Graphs with weighted edges, which carry up to their weight in either direction, and their cuts.
//!
//! `Graph::of` makes one without loops, in which most edges between the same two vertices are one edge.
//! Each set of vertices is cut off by the same weight as before. A graph lists the ways along its edges
//! by the vertices that they begin at.
//!
//! A set drains the weight of the edges that leave it, and the room at its vertices. One operation shows
//! how much the sets drain that contain a source: flow from the source, with room for some of it at each
//! vertex, up to an amount. Where not all of it can flow, a side that nothing more can leave drains least.
//! `least_below` finds that side, and `least_drain` also compares what drains just the amount.
//!
//! `CutTree` keeps one least cut for each vertex, and finds the least cut between any two from them.
#![tactic(auto)]

// Graphs.
mod edges;
mod graphs;
mod merges;
mod neighbours;

// Flow: along the ways that a guide proposes, and where it proposes none, along those of a search that
// is proved to find all.
mod flows;
mod guides;
mod paths;
mod rooms;
mod sweeps;
mod trees;

// What flow shows.
mod drains;

// A cut between two vertices.
mod cuts;
mod near;

// A least cut for each vertex.
mod branches;
mod cut_trees;

pub use cut_trees::CutTree;
pub use drains::{Drained, least_below, least_drain};
pub use edges::{Edge, Way};
pub use graphs::Graph;
pub use neighbours::{Neighbour, Neighbours};
