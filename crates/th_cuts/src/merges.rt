//! The merging of edges that join the same two vertices, as far as a hash of their ends finds them.
ghost use Rattle.std.specs.Prelude.{◌≡◌, ◌+◌, ◌≤◌, IfOk, IsTrue, ◌⊎◌, sum_by};
ghost use Rattle.th_limits.specs.Limits.{max_total_weight};
ghost use Rattle.th_cuts.specs.Inside.Merges.{IsAdded, IsMerged};

use crate::edges::Edge;
use std::alloc::{AllocError, Global};

/// How many slots there are at least.
const FEWEST_SLOTS: usize = 64;

/// How often the slots are doubled at most.
const MOST_DOUBLINGS: usize = 16;

/// Edges that are being merged.
#[derive(Drop)]
struct Merging {
    edges: Vec<Edge>,
    /// Where edges with these ends may be, by a hash of the ends. Only how many edges are merged depends on it.
    slots: Vec<usize>,
}

/// The edges without loops, and with most of those that join the same two vertices as one edge with
/// their weight.
pub(crate) fn merged(alloc: Global, edges: &[Edge]) -> Result<Vec<Edge>, AllocError>
    requires { sum_by (λ edge. edge.weight) edges.now ≤ max_total_weight }
    ensures { IfOk result (λ merged. IsMerged edges.now merged.items) }
{
    let mut merging = Merging {
        edges: Vec::new(alloc),
        slots: vec![in alloc; 0usize; slots_for(edges.len())]?,
    };
    for edge in edges {
        merging.add(*edge)?;
    }
    let Merging { edges, slots: _ } = merging;
    Ok(edges)
}

/// A power of two that is about twice the number of edges.
fn slots_for(edges: usize) -> usize {
    let mut slots = FEWEST_SLOTS;
    for _ in 0..MOST_DOUBLINGS {
        if slots / 2 < edges {
            slots = slots.saturating_mul(2);
        }
    }
    slots
}

impl Merging {
    /// Adds an edge: to one that joins the same vertices, if its slot has one, and else as one more.
    fn add(&mut self, edge: Edge) -> Result<(), AllocError>
        requires { sum_by (λ edge. edge.weight) self.old.edges.items + edge.weight ≤ max_total_weight }
        ensures { IfOk result (λ _. IsAdded edge self.old.edges.items self.new.edges.items) }
    {
        if edge.tail == edge.head {
            return Ok(());
        }
        let slot = slot_of(edge, self.slots.len());
        if slot < self.slots.len() {
            let number = self.slots[slot];
            if number < self.edges.len() && joins_the_same(self.edges[number], edge) {
                self.edges[number].weight += edge.weight;
                return Ok(());
            }
            self.slots[slot] = self.edges.len();
        }
        self.edges.push(edge)?;
        Ok(())
    }
}

/// Where a number for edges with these ends is kept among so many slots, which are a power of two.
fn slot_of(edge: Edge, slots: usize) -> usize {
    let low = edge.tail.min(edge.head) as u64;
    let high = edge.tail.max(edge.head) as u64;
    let hash = low * 1_640_531_527 + high * 2_146_121_005;
    (hash >> 16) as usize & slots.saturating_sub(1)
}

/// Whether two edges join the same two vertices, whichever way round.
fn joins_the_same(first: Edge, second: Edge) -> bool
    ensures { IsTrue result → ((first.tail ≡ second.tail) × (first.head ≡ second.head))
        ⊎ ((first.tail ≡ second.head) × (first.head ≡ second.tail)) }
{
    (first.tail == second.tail && first.head == second.head)
        || (first.tail == second.head && first.head == second.tail)
}
