//! The spanning tree beside the flows of all arcs, and its pivots.
use crate::arcs::{Arcs, Tie};
use crate::forests::Forest;
use crate::pricing::{Entering, Pricing, gain_of};
use crate::trees::{Tree, WayUp};
use std::alloc::{AllocError, Global};
use th_detours::Parted;
use th_guide::{ResidualArc, push_if_room};

/// How many pivots there may be for each vertex and each arc.
const PIVOTS_OF_EACH: u64 = 50;

/// The arcs with their flows, and a spanning tree of them. At best, each arc outside the tree has no room for what
/// would gain.
#[derive(Drop)]
pub(crate) struct Basis {
    pub arcs: Arcs,
    pub tree: Tree,
    forest: Forest,
    /// Arcs outside the tree along which more can flow either way.
    extra: Vec<u32>,
    pricing: Pricing,
    /// How many pivots there may still be.
    pivots_left: u64,
}

/// What leaves the tree in a pivot.
#[derive(Clone, Copy)]
struct Leaving {
    /// The vertex whose way up leaves, whether it is on the side of the entering arc's tail, and how much can flow.
    vertex: u32,
    side: Side,
    room: i64,
}

/// Where what leaves is: between the join and an end of the entering arc, or the entering arc itself.
#[derive(Clone, Copy)]
enum Side {
    Tail,
    Head,
    Entering,
}

/// One pivot, or that none is needed.
#[derive(Clone, Copy)]
pub(crate) enum Step {
    Best,
    Gained(i128),
}

impl Basis {
    /// For so many vertices and links.
    pub fn new(alloc: Global, vertices: u32, links: usize) -> Result<Basis, AllocError> {
        let count = links.saturating_add(1);
        Ok(Basis {
            arcs: Arcs::new(alloc, links)?,
            tree: Tree::new(alloc, vertices as usize)?,
            forest: Forest::new(alloc, vertices)?,
            extra: Vec::with_capacity(alloc, count)?,
            pricing: Pricing::new(count),
            pivots_left: 0,
        })
    }

    /// Begins anew to choose arcs and to count pivots. The arc at a place is priced first.
    pub fn begin(&mut self, place: usize) -> Option<()> {
        self.pricing.begin(place);
        self.extra.clear();
        let vertices = self.tree.nodes().len() as u64;
        let all = vertices.checked_add(self.arcs.rows().len() as u64)?;
        self.pivots_left = PIVOTS_OF_EACH.checked_mul(all)?;
        self.forest.clear()
    }

    /// Chooses the tie.
    pub fn choose_tie(&mut self) -> Option<()> {
        self.forest.choose(&self.arcs, self.arcs.tie_place())?;
        Some(())
    }

    /// Chooses the arcs at these places.
    pub fn choose_all(&mut self, places: &[u32]) -> Option<()> {
        for place in places {
            self.forest.choose(&self.arcs, *place as usize)?;
        }
        Some(())
    }

    /// Chooses the links along which more can flow either way.
    pub fn choose_free(&mut self) -> Option<()> {
        for (place, arc) in self.arcs.rows().iter().enumerate() {
            if place != self.arcs.tie_place()
                && arc.is_free()
                && !self.forest.choose(&self.arcs, place)?
            {
                push_if_room(&mut self.extra, u32::try_from(place).ok()?)?;
            }
        }
        Some(())
    }

    /// Chooses what other links the tree needs.
    pub fn choose_rest(&mut self) -> Option<()> {
        for place in 0..self.arcs.tie_place() {
            if self.forest.is_whole() {
                return Some(());
            }
            self.forest.choose(&self.arcs, place)?;
        }
        Some(())
    }

    /// Makes a tree of the arcs that were chosen, with so many vertices.
    pub fn plant(&mut self, vertices: usize) -> Option<()> {
        if self.forest.plant(&self.arcs, &mut self.tree)? != vertices {
            return None;
        }
        Some(())
    }

    /// A pivot with the next arc outside the tree along which more can flow either way.
    pub fn settle_one(&mut self) -> Option<Step> {
        let Some(place) = self.extra.pop() else {
            return Some(Step::Best);
        };
        let along = ResidualArc::along(place)?;
        let gain = gain_of(&self.tree, self.arcs.rows().get(along.row())?)?;
        if gain >= 0 {
            self.pivot(Entering { arc: along, gain })
        } else {
            self.pivot(Entering {
                arc: along.reversed(),
                gain: gain.checked_neg()?,
            })
        }
    }

    /// A pivot with the arc that the pricing rule chooses.
    pub fn step(&mut self, network: &Parted) -> Option<Step> {
        let entering = self.pricing.entering(network, &self.arcs, &self.tree)?;
        if entering.is_none() {
            return Some(Step::Best);
        }
        self.pivots_left = self.pivots_left.checked_sub(1)?;
        self.pivot(entering)
    }

    /// Sets the tie anew, with the flow that it has.
    pub fn set_tie(&mut self, network: &Parted, tie: Tie) -> Option<()> {
        let base = network.base();
        let spare = network.spare();
        let net = self.arcs.net()?;
        let rise = tie.change.checked_sub(self.arcs.change()?)?;
        self.arcs.tie(base, spare, net, tie)?;
        if self.is_up(spare)? {
            return self.tree.raise(spare, rise);
        }
        if self.is_up(base)? {
            return self.tree.raise(base, rise.checked_neg()?);
        }
        Some(())
    }

    /// Whether the tie is the way up from a vertex.
    fn is_up(&self, vertex: u32) -> Option<bool> {
        Some(self.tree.node(vertex)?.up.row() == self.arcs.tie_place())
    }

    /// Sends as much as there is room for round the cycle that an arc closes with the tree, and takes it in for the arc
    /// that has no more room.
    fn pivot(&mut self, entering: Entering) -> Option<Step> {
        let (tail, head) = self.arcs.ends(entering.arc)?;
        let join = self.tree.join(tail, head)?;
        let leaving = self.leaving(entering.arc, join)?;
        if leaving.room > 0 {
            self.send_round(entering.arc, join, leaving.room)?;
        }
        match leaving.side {
            Side::Tail => {
                let way = WayUp {
                    parent: head,
                    arc: entering.arc,
                };
                self.exchange(leaving.vertex, tail, way)?;
            }
            Side::Head => {
                let way = WayUp {
                    parent: tail,
                    arc: entering.arc.reversed(),
                };
                self.exchange(leaving.vertex, head, way)?;
            }
            Side::Entering => {}
        }
        let gain = i128::from(leaving.room).checked_mul(i128::from(entering.gain))?;
        Some(Step::Gained(gain))
    }

    /// Hangs the branch of a vertex up by this way, from one of its vertices.
    fn exchange(&mut self, top: u32, inner: u32, way: WayUp) -> Option<()> {
        self.pricing.leave(self.tree.node(top)?.up);
        self.tree.exchange(&self.arcs, top, inner, way)
    }

    /// What leaves the tree if an arc enters it: the last on the cycle, from the join on in the direction of the arc,
    /// that has least room.
    fn leaving(&self, arc: ResidualArc, join: u32) -> Option<Leaving> {
        let (tail, head) = self.arcs.ends(arc)?;
        let mut least = Leaving {
            vertex: tail,
            side: Side::Entering,
            room: self.arcs.room(arc)?,
        };
        let mut vertex = tail;
        for _ in 0..self.tree.nodes().len() {
            if vertex == join {
                break;
            }
            let node = self.tree.node(vertex)?;
            let room = self.arcs.room(node.up.reversed())?;
            if room < least.room {
                least = Leaving {
                    vertex,
                    side: Side::Tail,
                    room,
                };
            }
            vertex = node.parent;
        }
        self.leaving_above(head, join, least)
    }

    /// The same, if this is the best between the join and the tail, from the head up.
    fn leaving_above(&self, head: u32, join: u32, best: Leaving) -> Option<Leaving> {
        let mut least = best;
        let mut vertex = head;
        for _ in 0..self.tree.nodes().len() {
            if vertex == join {
                break;
            }
            let node = self.tree.node(vertex)?;
            let room = self.arcs.room(node.up)?;
            if room <= least.room {
                least = Leaving {
                    vertex,
                    side: Side::Head,
                    room,
                };
            }
            vertex = node.parent;
        }
        Some(least)
    }

    /// Sends so much along an arc, and back through the tree.
    fn send_round(&mut self, arc: ResidualArc, join: u32, amount: i64) -> Option<()> {
        let (tail, head) = self.arcs.ends(arc)?;
        self.arcs.send(arc, amount)?;
        self.send_up(head, join, amount)?;
        self.send_up(tail, join, amount.checked_neg()?)
    }

    /// Sends so much from a vertex up to the join.
    fn send_up(&mut self, from: u32, join: u32, amount: i64) -> Option<()> {
        let mut vertex = from;
        for _ in 0..self.tree.nodes().len() {
            if vertex == join {
                break;
            }
            let node = self.tree.node(vertex)?;
            self.arcs.send(node.up, amount)?;
            vertex = node.parent;
        }
        Some(())
    }
}
