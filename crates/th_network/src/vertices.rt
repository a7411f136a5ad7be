//! The numbering of vertices: one for all benchmarks together, and one for each other point.
ghost use Rattle.std.specs.Prelude.{◌≤◌, IfOk, length};
ghost use Rattle.th_network.specs.Inside.Numbered.{AreVertices};
ghost use Rattle.th_network.specs.Limits.{max_points};
ghost use Rattle.th_points.specs.Points.{points};

use crate::sites::Sites;
use std::alloc::{AllocError, Global};

/// The vertices of some points: 0 for the benchmarks, and 1, 2, 3 and so on for the others.
#[derive(Drop)]
pub(crate) struct Vertices {
    /// For each point its vertex.
    pub of_places: Vec<u32>,
    /// How many vertices there are, vertex 0 included.
    pub count: u32,
}

impl Vertices {
    /// Numbers the vertices of some points.
    pub fn of(alloc: Global, sites: &Sites<'_>) -> Result<Vertices, AllocError>
        requires { length (points sites.now.observations sites.now.benchmarks) ≤ max_points }
        ensures { IfOk result (λ vertices. AreVertices sites.now.benchmarks
            (points sites.now.observations sites.now.benchmarks)
            vertices.of_places.items vertices.count) }
    {
        let heights = sites.heights.as_slice();
        let mut of_places = Vec::with_capacity(alloc, heights.len())?;
        let mut count = 1;
        for height in heights {
            let fixed = height.is_some();
            if fixed {
                of_places.push(0)?;
            } else {
                of_places.push(count)?;
                count += 1;
            }
        }
        Ok(Vertices { of_places, count })
    }
}
