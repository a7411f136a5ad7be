//! The tree to start from, planted breadth first at weighted medians, at once or in chunks.
use crate::heights::Stage;
use crate::rows::push_if_room;
use crate::simplex::Simplex;
use crate::trees::Up;
use std::alloc::{AllocError, Global};

/// A tree to start from: breadth first from vertex 0, each vertex at the weighted median of the heights
/// that its sides say which lead to vertices in the tree.
#[derive(Drop)]
pub(crate) struct Planting {
    /// The vertices in the order in which they are planted.
    order: Vec<u32>,
}

impl Planting {
    /// For so many vertices.
    pub fn new(alloc: Global, vertices: u32) -> Result<Planting, AllocError> {
        let order = Vec::with_capacity(alloc, vertices as usize)?;
        Ok(Planting { order })
    }

    /// Plants all vertices, and returns how many levels the tree has. It gives up if the network is
    /// not connected.
    pub fn plant(&mut self, simplex: &mut Simplex) -> Option<u32> {
        self.begin(simplex)?;
        let mut levels = 0u32;
        let mut level_end = 0usize;
        for place in 0..simplex.heights.count() as usize {
            if place == level_end {
                levels = levels.checked_add(1)?;
                level_end = self.order.len();
            }
            self.plant_at(simplex, place)?;
        }
        Some(levels)
    }

    /// Plants all vertices in chunks, and pivots after each. In a tree with many levels this keeps
    /// the parts that move small.
    pub fn plant_in_chunks(&mut self, simplex: &mut Simplex, chunk: usize) -> Option<()> {
        self.begin(simplex)?;
        let mut left = chunk;
        for place in 0..simplex.heights.count() as usize {
            if left == 0 {
                left = chunk;
                simplex.gather_all()?;
                simplex.balance()?;
                simplex.pivot_all()?;
            }
            left = left.checked_sub(1)?;
            self.plant_at(simplex, place)?;
        }
        Some(())
    }

    /// Queues vertex 0 alone.
    fn begin(&mut self, simplex: &mut Simplex) -> Option<()> {
        self.order.clear();
        simplex.heights.at_mut(0)?.stage = Stage::Queued;
        push_if_room(&mut self.order, 0)
    }

    /// Plants the vertex at a place of the order.
    fn plant_at(&mut self, simplex: &mut Simplex, place: usize) -> Option<()> {
        let vertex = self.order.get(place).copied()?;
        self.look_round(simplex, vertex)?;
        if simplex.search.breakpoints.rows.is_empty() {
            let row = simplex.heights.at_mut(vertex)?;
            row.stage = Stage::Planted;
            return Some(());
        }
        let half = simplex.search.breakpoints.room.checked_add(1)? / 2;
        let turn = simplex.search.breakpoints.select(half)?;
        let point = simplex.search.breakpoints.at(turn.place)?;
        let row = simplex.heights.at_mut(vertex)?;
        row.stage = Stage::Planted;
        row.height = point.way;
        let (_, parent) = simplex.ends(point.arc)?;
        let up = Up {
            parent,
            arc: point.arc,
            size: 0,
            weight: u32::try_from(point.room).ok()?,
            flow: 0,
        };
        simplex.tree.attach(vertex, up)
    }

    /// Lists what the sides of a vertex say of its height, and queues what was not seen before.
    fn look_round(&mut self, simplex: &mut Simplex, vertex: u32) -> Option<()> {
        simplex.search.breakpoints.clear();
        for side in simplex.sides.of(vertex)? {
            let other = simplex.heights.at(side.other)?;
            match other.stage {
                Stage::Planted => {
                    let way = other.height.checked_sub(side.rise)?;
                    let weight = simplex.goals.at(side.arc)?.weight;
                    simplex.search.breakpoints.add(way, side.arc, weight)?;
                }
                Stage::Queued => {}
                Stage::Unseen => {
                    simplex.heights.at_mut(side.other)?.stage = Stage::Queued;
                    push_if_room(&mut self.order, side.other)?;
                }
            }
        }
        Some(())
    }
}
