//! What a search has reached from one of its ends, and the path that is traced from both.
use crate::grounds::Ground;
use std::alloc::{AllocError, Global};
use th_guide::{ResidualArc, push_if_room};

/// What is known of a vertex.
#[derive(Clone, Copy)]
struct Known {
    /// How far it is so far; the greatest number if it was not reached.
    distance: u64,
    /// The arc of the flow by which it was reached.
    arc: ResidualArc,
}

const UNKNOWN: Known = Known {
    distance: u64::MAX,
    arc: ResidualArc::NONE,
};

/// The vertices that were reached from one of the ends of a search.
#[derive(Drop)]
pub(crate) struct Reached {
    rows: Vec<Known>,
    pub seen: Vec<u32>,
}

impl Reached {
    /// None of so many vertices.
    pub fn new(alloc: Global, vertices: usize) -> Result<Reached, AllocError> {
        Ok(Reached {
            rows: vec![in alloc; UNKNOWN; vertices]?,
            seen: Vec::with_capacity(alloc, vertices)?,
        })
    }

    /// Forgets all that was reached.
    pub fn clear(&mut self) {
        for vertex in &self.seen {
            if let Some(row) = self.rows.get_mut(*vertex as usize) {
                *row = UNKNOWN;
            }
        }
        self.seen.clear();
    }

    /// Reaches a vertex by an arc.
    pub fn reach(&mut self, vertex: u32, distance: u64, arc: ResidualArc) -> Option<()> {
        let row = self.rows.get_mut(vertex as usize)?;
        if row.distance == u64::MAX {
            push_if_room(&mut self.seen, vertex)?;
        }
        *row = Known { distance, arc };
        Some(())
    }

    /// How far a vertex is, if it was reached.
    #[inline]
    pub fn distance(&self, vertex: u32) -> Option<u64> {
        let row = self.rows.get(vertex as usize)?;
        if row.distance == u64::MAX {
            return None;
        }
        Some(row.distance)
    }

    /// Whether a vertex was reached, and is no further away than this.
    #[inline]
    pub fn is_within(&self, vertex: u32, distance: u64) -> bool {
        match self.distance(vertex) {
            Some(known) => known <= distance,
            None => false,
        }
    }

    /// The arc by which a vertex was reached.
    fn arc(&self, vertex: u32) -> Option<ResidualArc> {
        Some(self.rows.get(vertex as usize)?.arc)
    }
}

/// A path through a vertex.
#[derive(Clone, Copy)]
pub(crate) struct Course {
    pub from: u32,
    pub middle: u32,
    pub to: u32,
}

/// Lists the arcs of a path that was reached from both of its ends.
pub(crate) fn trace(
    path: &mut Vec<ResidualArc>,
    ground: Ground,
    out: &Reached,
    into: &Reached,
    course: Course,
) -> Option<()> {
    path.clear();
    let mut vertex = course.middle;
    for _ in 0..path.capacity() {
        if vertex == course.from {
            break;
        }
        let arc = out.arc(vertex)?;
        push_if_room(path, arc)?;
        vertex = ground.start(arc)?;
    }
    path.reverse();
    let mut vertex = course.middle;
    for _ in 0..path.capacity() {
        if vertex == course.to {
            break;
        }
        let arc = into.arc(vertex)?;
        push_if_room(path, arc)?;
        vertex = ground.start(arc.reversed())?;
    }
    Some(())
}
