//! Observations as links between vertices, with the benchmarks' heights taken out of them.
ghost use Rattle.std.specs.Prelude.{IfOk};
ghost use Rattle.th_network.specs.Inside.Linked.{AreLinks};
ghost use Rattle.th_network.specs.Inside.Numbered.{AreVertices};
ghost use Rattle.th_points.specs.Points.{points};

use crate::sites::Sites;
use crate::vertices::Vertices;
use std::alloc::{AllocError, Global};

/// An observation between two vertices of its network.
#[derive(Clone, Copy, Debug, PartialEq, Eq)]
pub struct Link {
    /// The station's vertex.
    pub tail: u32,
    /// The target's vertex.
    pub head: u32,
    /// The observed difference, plus the station's height if it is a benchmark, minus the target's
    /// if that is one, in units of 10 nm: at most 50 km in size.
    pub diff: i64,
}

/// The links of some observations.
pub(crate) fn links_of(
    alloc: Global,
    sites: &Sites<'_>,
    vertices: &Vertices,
) -> Result<Vec<Link>, AllocError>
    requires { AreVertices sites.now.benchmarks (points sites.now.observations sites.now.benchmarks)
        vertices.now.of_places.items vertices.now.count }
    ensures { IfOk result (λ links. AreLinks sites.now.observations sites.now.benchmarks links.items) }
{
    let observations = sites.observations;
    let ends = sites.points.ends.as_slice();
    let heights = sites.heights.as_slice();
    let mut links = Vec::with_capacity(alloc, observations.len())?;
    for (i, o) in observations.iter().enumerate() {
        let (station, target) = ends[i];
        let from = heights[station].unwrap_or(0);
        let to = heights[target].unwrap_or(0);
        links.push(Link {
            tail: vertices.of_places[station],
            head: vertices.of_places[target],
            diff: o.diff + from - to,
        })?;
    }
    Ok(links)
}
