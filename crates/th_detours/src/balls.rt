//! One half of a search: a ball that grows from an end, by at most one vertex at a time.
use crate::grounds::{Ground, Way};
use crate::heaps::{Heap, Open};
use crate::reached::Reached;
use std::alloc::{AllocError, Global};
use th_guide::ResidualArc;

/// The vertices that are reached from one of the ends of a search, the nearest first.
#[derive(Drop)]
pub(crate) struct Ball {
    way: Way,
    pub reached: Reached,
    /// The next side of each vertex to look at.
    next: Vec<usize>,
    heap: Heap,
}

impl Ball {
    /// A ball among so many vertices.
    pub fn new(alloc: Global, way: Way, vertices: usize) -> Result<Ball, AllocError> {
        Ok(Ball {
            way,
            reached: Reached::new(alloc, vertices)?,
            next: vec![in alloc; 0usize; vertices]?,
            heap: Heap::new(alloc, vertices)?,
        })
    }

    /// Forgets all that was reached.
    pub fn clear(&mut self) {
        self.reached.clear();
        self.heap.clear();
    }

    /// How many vertices were reached.
    #[inline]
    pub fn count(&self) -> usize {
        self.reached.seen.len()
    }

    /// How far away the next vertex is.
    #[inline]
    pub fn radius(&self) -> Option<u64> {
        Some(self.heap.top()?.distance)
    }

    /// Begins at a vertex.
    pub fn begin(&mut self, ground: Ground, centre: u32) -> Option<()> {
        self.reach(ground, centre, 0, ResidualArc::NONE)
    }

    /// Reaches the next vertex, if it is a new one.
    pub fn grow(&mut self, ground: Ground) -> Option<Option<u32>> {
        let open = self.heap.top()?;
        self.heap.pop()?;
        let next = *self.next.get(open.vertex as usize)?;
        let side = *ground.sides(open.vertex)?.get(next)?;
        let mut reached = None;
        if let Some(other) = ground.other(self.way, open.vertex, &side)
            && self.reached.distance(other).is_none()
        {
            self.reach(ground, other, open.distance, self.way.along(side.arc))?;
            reached = Some(other);
        }
        self.go_on(ground, open.vertex, next.checked_add(1)?)?;
        Some(reached)
    }

    fn reach(
        &mut self,
        ground: Ground,
        vertex: u32,
        distance: u64,
        arc: ResidualArc,
    ) -> Option<()> {
        self.reached.reach(vertex, distance, arc)?;
        self.go_on(ground, vertex, 0)
    }

    /// Looks for the next side of a vertex that leads to a new one.
    fn go_on(&mut self, ground: Ground, vertex: u32, from: usize) -> Option<()> {
        let sides = ground.sides(vertex)?;
        for place in from..sides.len() {
            let side = sides.get(place)?;
            if side.other != ground.base && self.reached.distance(side.other).is_some() {
                continue;
            }
            if let Some(other) = ground.other(self.way, vertex, side)
                && self.reached.distance(other).is_none()
            {
                *self.next.get_mut(vertex as usize)? = place;
                let step = side.length.checked_add(ground.toll)?;
                let distance = self.reached.distance(vertex)?.checked_add(step)?;
                return self.heap.push(Open { distance, vertex });
            }
        }
        Some(())
    }
}
