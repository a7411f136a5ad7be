//! Nothing here is promised but that it returns.
//!
//! A guide for showing that a number of a survey explains nothing. If the number is freed, what flows
//! through it has to flow some other way. The guide proposes closed walks through the ends of its links,
//! along arcs that have room, by which so much is sent back, and more, that the rest shows it. Whoever
//! takes a proposal checks it: a wrong one costs time, and nothing else.
//!
//! The flows are the best ones, or others that were loaded. `Lifting` finds shortest paths, and the heights at which
//! what goes along them is a best flow.
//!
//! A number has links, whose ends at one vertex, the base, are parted from it: a spare vertex has them
//! instead. Each path along arcs that have room, from the base to the spare vertex or back, is a detour.
//! The lengths of links are the sizes of their residuals at heights at which the flows are best: what
//! a unit costs that is sent along an arc with room.
//!
//! No arithmetic wraps. Where a number leaves its range, or a row has no such place, a call answers
//! `None`. Each `new` makes all rows.
#![tactic(auto)]

// The links, those of a number, and the network from which these are parted.
mod groups;
mod links;
mod parted;
mod sides;

// What all searches go by, and the vertices that they reached.
mod grounds;
mod heaps;
mod reached;

// A search from two ends until they meet.
mod balls;
mod searches;

// Paths over one vertex.
mod neighbours;

// Shortest paths, and the heights at which flow along them is best.
mod fronts;
mod lifting;

// What is sent, and what it costs.
mod sums;
mod surplus;

// Walks, and how much is sent along them.
mod guide;

pub use groups::{End, Group};
pub use guide::{Guide, Walk};
pub use lifting::Lifting;
pub use links::Link;
pub use parted::Parted;
pub use sides::Side;
pub use surplus::Aim;
