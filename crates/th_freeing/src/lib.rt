//! Nothing here is promised but that it returns.
//!
//! A guide for freeing one number of a survey: a primal network simplex that goes on from given flows, the
//! best ones or others that were found for another number (Ahuja, Magnanti and Orlin, Network Flows, chapter
//! 11). Whoever takes a proposal checks it: a wrong one costs time, and nothing else.
//!
//! The ends of the number's links are parted from their vertex, the base, and a spare vertex has them instead.
//! One more arc, the tie, leads from the base to the spare vertex and carries the net, what flows through the
//! number. Its difference is how much the number changes. At first that is the limit, if one is given: then a net
//! that is turned shows that no change beyond it is needed. Then it is more than any path is long, and the
//! net goes to 0. Two shortest paths at the end give the least and the greatest change of the number for which
//! flows without net are best.
//!
//! No arithmetic wraps. Where a number leaves its range, or a row has no such place, a call answers
//! `None`. `Simplex::new` makes all rows.
#![tactic(auto)]

// The arcs of the network and how much more can flow along each.
mod arcs;

// The spanning tree, made from arcs, and what is exchanged in it.
mod forests;
mod trees;

// One pivot: what enters, what leaves.
mod basis;
mod pricing;

// What is asked of a number, what flows through it, and what is answered.
mod nets;
mod proposals;
mod seeds;
mod tasks;

// The whole.
mod simplex;

pub use seeds::{Seed, Start};
pub use simplex::Simplex;
pub use tasks::{Found, Task};
