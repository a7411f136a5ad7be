//! Lists of residual arcs with room, each with its slot: all of them, or those of a proposal.
ghost use Rattle.std.specs.Prelude.{◌≡◌, ◌+◌, ◌*◌, ◌<◌, ◌≤◌, ◌++◌, ◌∷◌, [], Contains, IfOk, length};
ghost use Rattle.std.specs.Vec.{vec_capacity, vec_len};
ghost use Rattle.th_circulation.specs.Inside.Cycles.{HasRoom};
ghost use Rattle.th_circulation.specs.Inside.Listings.{Fits, HasAllBefore, IsListable, KeepsRoom, Lists};
ghost use Rattle.th_circulation.specs.declared.slots.Slot.{Slot as ASlot};
ghost use Rattle.th_network.specs.Limits.{max_observations};

use crate::graphs::LinkGraph;
use crate::slots::Slot;
use crate::states::State;
use std::alloc::{AllocError, Global};
use th_guide::ResidualArc;
use th_search::Arc;

/// Residual arcs, and the slot that each stands for.
#[derive(Drop)]
pub(crate) struct Listing {
    pub arcs: Vec<Arc>,
    pub slots: Vec<Slot>,
}

impl Listing {
    /// An empty listing with room for two arcs for each of so many links.
    pub fn new(alloc: Global, links: usize) -> Result<Listing, AllocError>
        requires few { links ≤ max_observations }
        ensures room { IfOk result (λ listing. (2 * links ≤ vec_capacity listing.arcs)
            × (2 * links ≤ vec_capacity listing.slots)) }
    {
        let arcs = Vec::with_capacity(alloc, 2 * links)?;
        let slots = Vec::with_capacity(alloc, 2 * links)?;
        Ok(Listing { arcs, slots })
    }

    /// Adds an arc and its slot, for which there is room.
    fn add(&mut self, slot: Slot, arc: Arc)
        requires arcs { vec_len self.old.arcs < vec_capacity self.old.arcs }
        requires slots { vec_len self.old.slots < vec_capacity self.old.slots }
        ensures arcs { self.new.arcs.items ≡ self.old.arcs.items ++ arc ∷ [] }
        ensures slots { self.new.slots.items ≡ self.old.slots.items ++ slot ∷ [] }
        ensures room { KeepsRoom self.old self.new }
    {
        self.arcs.push(arc).unwrap();
        self.slots.push(slot).unwrap();
    }

    /// Adds the residual arc of a slot, where it has room.
    fn list(&mut self, graph: &LinkGraph, state: &State, slot: Slot)
        requires place { slot.place < length graph.now.links.now }
        requires from { IsListable graph.now state.now }
        requires arcs { vec_len self.old.slots < vec_capacity self.old.arcs }
        requires slots { vec_len self.old.slots < vec_capacity self.old.slots }
        requires listed { Lists graph.now state.now self.old }
        ensures few { vec_len self.new.slots ≤ vec_len self.old.slots + 1 }
        ensures room { KeepsRoom self.old self.new }
        ensures listed { Lists graph.now state.now self.new }
        ensures slot { HasRoom graph.now.weights.now 1 state.now.flows.items slot → Contains self.new.slots.items slot }
        ensures kept { (other : ASlot) → Contains self.old.slots.items other
            → Contains self.new.slots.items other }
    {
        if graph.room(&state.flows, slot) > 0 {
            self.add(slot, graph.arc(&state.differences, &state.heights, slot));
        }
    }

    /// Lists all residual arcs, at costs that the heights reduce.
    pub fn list_all(&mut self, graph: &LinkGraph, state: &State)
        requires from { IsListable graph.now state.now }
        requires fits { Fits graph.now self.old }
        ensures few { length self.new.slots.items ≤ 2 * length graph.now.links.now }
        ensures room { KeepsRoom self.old self.new }
        ensures listed { Lists graph.now state.now self.new }
        ensures all { HasAllBefore graph.now.weights.now state.now.flows.items self.new.slots.items
            (length graph.now.links.now) }
    {
        self.arcs.clear();
        self.slots.clear();
        'links: for place in 0..graph.links.len() {
            let place = place as u32;
            let along = Slot {
                place,
                is_forward: true,
            };
            let against = Slot {
                place,
                is_forward: false,
            };
            self.list(graph, state, along);
            self.list(graph, state, against);
        }
    }

    /// Lists the residual arcs that a guide proposes, in their order, at costs that the heights
    /// reduce; those that are not in the graph or have no room are left out.
    pub fn list_these(&mut self, graph: &LinkGraph, state: &State, proposed: &[ResidualArc])
        requires from { IsListable graph.now state.now }
        requires fits { Fits graph.now self.old }
        ensures few { length self.new.slots.items ≤ 2 * length graph.now.links.now }
        ensures room { KeepsRoom self.old self.new }
        ensures listed { Lists graph.now state.now self.new }
    {
        self.arcs.clear();
        self.slots.clear();
        let most = 2 * graph.links.len();
        'slots: for arc in proposed {
            let slot = Slot {
                place: arc.place(),
                is_forward: arc.is_forward(),
            };
            if (slot.place as usize) < graph.links.len() && self.slots.len() < most {
                self.list(graph, state, slot);
            }
        }
    }
}
