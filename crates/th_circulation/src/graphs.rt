//! The links of a network as a graph, the room along its slots, and their arcs.
ghost use Rattle.std.specs.Prelude.{◌≡◌, ◌↔◌, ◌<◌, ◌≤◌, ◌≤ℤ◌, ℕ, pos, length, slice_index_or, unsigned_abs};
ghost use Rattle.th_search.specs.Distances.{AreWithin};
ghost use Rattle.th_circulation.specs.Inside.Graphs.{IsLinkGraph};
ghost use Rattle.th_circulation.specs.Inside.Bounds.{height_bound, most_room};
ghost use Rattle.th_network.specs.Links.{largest_link_difference};
ghost use Rattle.th_search.specs.Limits.{max_cost};

use crate::slots::Slot;
use th_network::{Link, Network};
use th_search::Arc;

/// The links of a network between its vertices, and the weight of each.
#[derive(Clone, Copy)]
pub(crate) struct LinkGraph<'a> {
    pub vertices: u32,
    pub links: &'a [Link],
    pub weights: &'a [u32],
    ghost graph: { IsLinkGraph vertices links.now weights.now },
}

impl<'a> LinkGraph<'a> {
    ghost use Rattle.th_circulation.specs.Inside.Cycles.{HasRoom, link_at};
    ghost use Rattle.th_circulation.specs.Inside.Flows.{AreBounded, residual};
    ghost use Rattle.th_circulation.specs.Inside.Listings.{arc_of};
    ghost use Rattle.th_network.specs.Faults.{IsNetwork};
    ghost use Rattle.th_network.specs.Networks.{arcs_of, vertices_of, weights_of};
    ghost use Rattle.th_search.specs.Potentials.{value_at};
    ghost use Rattle.th_search.specs.Walks.{IsArc};

    /// The vertices, links and weights of a network.
    pub fn of(network: &'a Network) -> LinkGraph<'a>
        requires { IsNetwork network.now.observations network.now.benchmarks }
        ensures vertices { result.vertices ≡ vertices_of network.now }
        ensures links { result.links.now ≡ arcs_of network.now }
        ensures weights { result.weights.now ≡ weights_of network.now }
    {
        LinkGraph {
            vertices: network.vertices(),
            links: network.arcs(),
            weights: network.weights(),
        }
    }

    /// How much more can flow along a slot.
    pub fn room(&self, flows: &[i64], slot: Slot) -> i64
        requires place { slot.place < length self.now.links.now }
        requires flows { AreBounded self.now.weights.now flows.now }
        ensures room { (amount : ℕ)
            → HasRoom self.now.weights.now amount flows.now slot ↔ (pos amount ≤ℤ result) }
        ensures some { pos 0 ≤ℤ result }
        ensures small { result ≤ℤ pos most_room }
    {
        let weight = self.weights[slot.place as usize] as i64;
        let flow = flows[slot.place as usize];
        if slot.is_forward {
            weight - flow
        } else {
            weight + flow
        }
    }

    /// The arc that a slot stands for, at a cost that the heights reduce.
    pub fn arc(&self, differences: &[i64], heights: &[i64], slot: Slot) -> Arc
        requires place { slot.place < length self.now.links.now }
        requires differences { AreWithin (length self.now.links.now) largest_link_difference differences.now }
        requires heights { AreWithin self.now.vertices height_bound heights.now }
        ensures arc { result ≡ arc_of self.now.links.now differences.now (value_at heights.now) slot }
        ensures in_range { IsArc self.now.vertices result }
    {
        let link = self.links[slot.place as usize];
        let residual = self.residual(differences, heights, slot);
        if slot.is_forward {
            Arc {
                tail: link.tail,
                head: link.head,
                cost: -residual,
            }
        } else {
            Arc {
                tail: link.head,
                head: link.tail,
                cost: residual,
            }
        }
    }

    /// The difference at a slot, less the height of its link's head above the tail.
    fn residual(&self, differences: &[i64], heights: &[i64], slot: Slot) -> i64
        requires place { slot.place < length self.now.links.now }
        requires differences { AreWithin (length self.now.links.now) largest_link_difference differences.now }
        requires heights { AreWithin self.now.vertices height_bound heights.now }
        ensures residual { result ≡ residual (value_at heights.now) (link_at self.now.links.now slot)
            (slice_index_or differences.now slot.place (pos 0)) }
        ensures small { unsigned_abs result ≤ max_cost }
    {
        let link = self.links[slot.place as usize];
        let rise = heights[link.head as usize] - heights[link.tail as usize];
        differences[slot.place as usize] - rise
    }
}
