//! Shortest paths, and the heights that are lifted near their starts and lowered near their ends.
use crate::fronts::{Front, Meeting};
use crate::grounds::{Ground, Way};
use crate::parted::Parted;
use crate::reached::{Course, Reached, trace};
use std::alloc::{AllocError, Global};
use th_guide::ResidualArc;

/// Shortest paths, with heights that are lifted after each search: then what goes along the path is a best
/// flow at these heights.
#[derive(Drop)]
pub struct Lifting {
    /// The heights of the vertices.
    heights: Vec<i64>,
    out: Front,
    into: Front,
}

impl Lifting {
    /// For so many vertices and links.
    pub fn new(alloc: Global, vertices: usize, links: usize) -> Result<Lifting, AllocError> {
        Ok(Lifting {
            heights: vec![in alloc; 0i64; vertices]?,
            out: Front::new(alloc, Way::Out, vertices, links)?,
            into: Front::new(alloc, Way::In, vertices, links)?,
        })
    }

    /// Begins at these heights of the vertices and of the spare one.
    pub fn begin(&mut self, heights: &[i64]) {
        copy(&mut self.heights, heights);
    }

    /// Writes the heights that it has come to into a row.
    pub fn tell_heights(&self, row: &mut [i64]) {
        copy(row, &self.heights);
    }

    /// Finds a shortest path from both of its ends, as far as it has room for arcs. Lifts what is near its
    /// start, and lowers what is near its end. Returns its length.
    pub fn run(
        &mut self,
        path: &mut Vec<ResidualArc>,
        network: &Parted,
        from: u32,
        to: u32,
    ) -> Option<u64> {
        let ground = network.ground(0);
        self.out.begin(from)?;
        self.into.begin(to)?;
        let Meeting { vertex, distance } = self.meet(ground)?;
        let course = Course {
            from,
            middle: vertex,
            to,
        };
        trace(path, ground, &self.out.reached, &self.into.reached, course)?;
        let near = self.out.radius().min(distance);
        raise(&mut self.heights, &self.out.reached, near, 1)?;
        raise(&mut self.heights, &self.into.reached, distance - near, -1)?;
        Some(distance)
    }

    /// Where a shortest path is met.
    fn meet(&mut self, ground: Ground) -> Option<Meeting> {
        let mut best = Meeting {
            vertex: 0,
            distance: u64::MAX,
        };
        for _ in 0..u32::MAX {
            if self.out.radius().saturating_add(self.into.radius()) >= best.distance {
                break;
            }
            best = if self.out.count() <= self.into.count() {
                self.out.grow(ground, &self.heights, &self.into, best)?
            } else {
                self.into.grow(ground, &self.heights, &self.out, best)?
            };
        }
        if best.distance == u64::MAX {
            return None;
        }
        Some(best)
    }
}

/// Copies heights into a row that is as long.
fn copy(row: &mut [i64], heights: &[i64]) {
    for (own, height) in row.iter_mut().zip(heights) {
        *own = *height;
    }
}

/// Raises each vertex that is nearer than this by how much it is nearer, up or down.
fn raise(heights: &mut [i64], reached: &Reached, near: u64, sign: i64) -> Option<()> {
    for vertex in &reached.seen {
        let distance = reached.distance(*vertex)?;
        let rise = i64::try_from(near.saturating_sub(distance)).ok()?;
        let height = heights.get_mut(*vertex as usize)?;
        *height = height.checked_add(rise.checked_mul(sign)?)?;
    }
    Some(())
}
