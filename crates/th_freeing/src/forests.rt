//! Arcs that close no cycle, chosen one after the other, and the tree that they make.
use crate::arcs::Arcs;
use crate::trees::Tree;
use std::alloc::{AllocError, Global};
use th_guide::{ResidualArc, Starts, push_if_room};

/// Arcs that close no cycle.
#[derive(Drop)]
pub(crate) struct Forest {
    /// For each vertex one of the same part of the forest, nearer to the one that stands for it.
    roots: Vec<u32>,
    /// The places of the arcs.
    chosen: Vec<u32>,
    /// The arcs that leave each vertex.
    starts: Starts,
    arcs: Vec<ResidualArc>,
    /// Vertices of the tree in the order in which they are planted.
    order: Vec<u32>,
}

impl Forest {
    /// No arcs among so many vertices.
    pub fn new(alloc: Global, vertices: u32) -> Result<Forest, AllocError> {
        let count = vertices as usize;
        Ok(Forest {
            roots: Vec::with_capacity(alloc, count)?,
            chosen: Vec::with_capacity(alloc, count)?,
            starts: Starts::new(alloc, vertices)?,
            arcs: vec![in alloc; ResidualArc::NONE; count.saturating_mul(2)]?,
            order: Vec::with_capacity(alloc, count)?,
        })
    }

    /// Begins with no arc.
    pub fn clear(&mut self) -> Option<()> {
        self.chosen.clear();
        self.roots.clear();
        for vertex in 0..self.roots.capacity() {
            push_if_room(&mut self.roots, u32::try_from(vertex).ok()?)?;
        }
        Some(())
    }

    /// Chooses an arc, if it closes no cycle. Returns whether it does not.
    pub fn choose(&mut self, arcs: &Arcs, place: usize) -> Option<bool> {
        let arc = arcs.rows().get(place)?;
        let tail = self.root(arc.tail)?;
        let head = self.root(arc.head)?;
        if tail == head {
            return Some(false);
        }
        *self.roots.get_mut(tail as usize)? = head;
        push_if_room(&mut self.chosen, u32::try_from(place).ok()?)?;
        Some(true)
    }

    /// Whether the chosen arcs tie all vertices together.
    pub fn is_whole(&self) -> bool {
        self.chosen.len() + 1 >= self.roots.len()
    }

    /// The vertex that stands for the part of the forest which has this one. The way there is halved.
    fn root(&mut self, vertex: u32) -> Option<u32> {
        let mut vertex = vertex;
        for _ in 0..self.roots.len() {
            let next = *self.roots.get(vertex as usize)?;
            if next == vertex {
                return Some(vertex);
            }
            let far = *self.roots.get(next as usize)?;
            *self.roots.get_mut(vertex as usize)? = far;
            vertex = far;
        }
        None
    }

    /// Makes the tree of the chosen arcs, as far as they reach from vertex 0. Returns how many vertices it has.
    pub fn plant(&mut self, arcs: &Arcs, tree: &mut Tree) -> Option<usize> {
        self.list(arcs)?;
        tree.clear();
        self.order.clear();
        push_if_room(&mut self.order, 0)?;
        for place in 0..self.order.capacity() {
            let Some(vertex) = self.order.get(place).copied() else {
                break;
            };
            self.plant_round(arcs, tree, vertex)?;
        }
        Some(self.order.len())
    }

    /// Plants what the chosen arcs lead to from a vertex.
    fn plant_round(&mut self, arcs: &Arcs, tree: &mut Tree, vertex: u32) -> Option<()> {
        let (start, end) = self.starts.ends(vertex)?;
        for arc in self.arcs.get(start as usize..end as usize)? {
            let (_, other) = arcs.ends(*arc)?;
            if !tree.has(other) {
                tree.plant(arcs, other, vertex, arc.reversed())?;
                push_if_room(&mut self.order, other)?;
            }
        }
        Some(())
    }

    /// Lists the chosen arcs at both of their ends.
    fn list(&mut self, arcs: &Arcs) -> Option<()> {
        self.starts.clear();
        for place in &self.chosen {
            let arc = arcs.rows().get(*place as usize)?;
            self.starts.count_one(arc.tail)?;
            self.starts.count_one(arc.head)?;
        }
        self.starts.find_ends()?;
        for place in &self.chosen {
            let arc = arcs.rows().get(*place as usize)?;
            let along = ResidualArc::along(*place)?;
            let from_tail = self.starts.take_before(arc.tail)?;
            *self.arcs.get_mut(from_tail as usize)? = along;
            let from_head = self.starts.take_before(arc.head)?;
            *self.arcs.get_mut(from_head as usize)? = along.reversed();
        }
        Some(())
    }
}
