//! The points of a network: the ends of its observations in order of first sight, the station
//! before the target, and then the benchmarks that no observation names, in table order.
//!
//! `Points::of` finds them, and where among them each observation ends, in time near the number of
//! observations and benchmarks. The network and the checker of certificates both use it, so the
//! checker need not call the network.
#![tactic(auto)]

mod points;

// Laws of the definitions.
pub mod laws;

pub use points::Points;
