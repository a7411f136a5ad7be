//! One half of a search for a shortest path, by costs at heights, up to where it meets the other.
use crate::grounds::{Ground, Way};
use crate::heaps::{Heap, Open};
use crate::reached::Reached;
use std::alloc::{AllocError, Global};
use th_guide::ResidualArc;

/// Where two fronts meet.
#[derive(Clone, Copy)]
pub(crate) struct Meeting {
    pub vertex: u32,
    pub distance: u64,
}

/// The nearest vertices from one end of a path, by what a unit costs at given heights.
#[derive(Drop)]
pub(crate) struct Front {
    way: Way,
    pub reached: Reached,
    heap: Heap,
}

impl Front {
    /// A front among so many vertices and links.
    pub fn new(
        alloc: Global,
        way: Way,
        vertices: usize,
        links: usize,
    ) -> Result<Front, AllocError> {
        Ok(Front {
            way,
            reached: Reached::new(alloc, vertices)?,
            heap: Heap::new(alloc, links.saturating_mul(2).saturating_add(1))?,
        })
    }

    /// Begins anew at a vertex.
    pub fn begin(&mut self, centre: u32) -> Option<()> {
        self.reached.clear();
        self.heap.clear();
        self.reach(centre, 0, ResidualArc::NONE)
    }

    /// How many are to be looked at.
    #[inline]
    pub fn count(&self) -> usize {
        self.heap.count()
    }

    /// How far away the next vertex is; the greatest number if there is none.
    #[inline]
    pub fn radius(&self) -> u64 {
        match self.heap.top() {
            Some(open) => open.distance,
            None => u64::MAX,
        }
    }

    /// Reaches the vertices next to the nearest one, if a path over them can be shorter than the best.
    /// Returns the best one then.
    pub fn grow(
        &mut self,
        ground: Ground,
        heights: &[i64],
        other: &Front,
        best: Meeting,
    ) -> Option<Meeting> {
        let open = self.heap.top()?;
        self.heap.pop()?;
        if self.reached.distance(open.vertex)? != open.distance {
            return Some(best);
        }
        let mut best = best;
        let here = *heights.get(open.vertex as usize)?;
        for side in ground.sides(open.vertex)? {
            if side.other != ground.base && self.reached.is_within(side.other, open.distance) {
                continue;
            }
            let Some(vertex) = ground.other(self.way, open.vertex, side) else {
                continue;
            };
            let arc = self.way.along(side.arc);
            let rise = self.way.rise(here, *heights.get(vertex as usize)?)?;
            let distance = open.distance.checked_add(cost(ground, arc, rise)?)?;
            if distance < best.distance && self.is_nearer(vertex, distance) {
                self.reach(vertex, distance, arc)?;
                best = nearer(best, other, vertex, distance)?;
            }
        }
        Some(best)
    }

    /// Whether a vertex was not reached yet, or further away.
    fn is_nearer(&self, vertex: u32, distance: u64) -> bool {
        match self.reached.distance(vertex) {
            Some(known) => distance < known,
            None => true,
        }
    }

    fn reach(&mut self, vertex: u32, distance: u64, arc: ResidualArc) -> Option<()> {
        self.reached.reach(vertex, distance, arc)?;
        self.heap.push(Open { distance, vertex })
    }
}

/// The nearer one of a meeting and one at a vertex, if the other front reached it.
fn nearer(best: Meeting, other: &Front, vertex: u32, distance: u64) -> Option<Meeting> {
    let Some(rest) = other.reached.distance(vertex) else {
        return Some(best);
    };
    let distance = distance.checked_add(rest)?;
    if distance < best.distance {
        Some(Meeting { vertex, distance })
    } else {
        Some(best)
    }
}

/// What a unit costs that is sent along an arc which rises so much: less than nothing is no answer.
#[inline]
fn cost(ground: Ground, arc: ResidualArc, rise: i64) -> Option<u64> {
    let difference = ground.links.get(arc.row())?.difference;
    let cost = if arc.is_forward() {
        rise.checked_sub(difference)?
    } else {
        rise.checked_add(difference)?
    };
    u64::try_from(cost).ok()
}
