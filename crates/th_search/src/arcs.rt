//! Arcs of a network, and a test of their ends and costs.
ghost use Rattle.std.specs.Prelude.{◌↔◌, All, IsTrue};
ghost use Rattle.th_search.specs.Walks.{IsArc};

use crate::limits::MAX_COST;

/// An arc of a network, from its tail to its head, at a cost. Vertices are numbered from 0.
#[derive(Clone, Copy, Debug, PartialEq, Eq)]
pub struct Arc {
    /// The vertex that it leads from.
    pub tail: u32,
    /// The vertex that it leads to.
    pub head: u32,
    /// What it costs, at most `MAX_COST` in size.
    pub cost: i64,
}

/// Whether the arcs have their ends among `n` vertices, numbered from 0, and costs of at most
/// `MAX_COST` in size: what a search requires of its arcs.
pub fn are_arcs(n: u32, arcs: &[Arc]) -> bool
    ensures { IsTrue result ↔ All (IsArc n) arcs.now }
{
    arcs.iter().all(|arc| arc.tail < n && arc.head < n && arc.cost.unsigned_abs() <= MAX_COST)
}
