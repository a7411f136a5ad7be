//! Observations that share a mistake at a point as flow sees them: from the vertex of the point to those
//! of their other ends.
ghost use Rattle.std.specs.Prelude.{◌≡◌, IfOk, length};
ghost use Rattle.th_reliability.specs.Inside.Targets.{AreTargetsOf, HoldsMarks, far_end};

use crate::ground::Ground;
use std::alloc::{AllocError, Global};
use th_cuts::Edge;

/// Some observations with an end at one vertex.
#[derive(Drop)]
pub(crate) struct Targets {
    /// For each vertex twice what those weigh whose other end it is.
    pub rooms: Vec<u32>,
    /// For each of them the vertex of its other end.
    pub targets: Vec<u32>,
    /// What they weigh together.
    pub weight: u32,
}

/// Finds the other ends of some observations with an end at a vertex. Which observations these are is
/// listed in the order of all, and a run holds them.
pub(crate) fn targets_of(
    alloc: Global,
    ground: &Ground<'_, '_>,
    mistaken: &[bool],
    run: (usize, usize),
    start: u32,
) -> Result<Targets, AllocError>
    requires each { length mistaken.now ≡ length ground.now.network.now.observations }
    requires run { HoldsMarks mistaken.now run }
    ensures { IfOk result (AreTargetsOf ground.now.network.now mistaken.now start) }
{
    let observations = ground.network.observations();
    let weights = ground.network.weights();
    let edges = ground.edges.as_slice();
    let mut rooms = vec![in alloc; 0u32; ground.network.vertices() as usize]?;
    let mut targets = Vec::new(alloc);
    let mut weight = 0;
    let end = run.1.min(observations.len());
    for i in run.0..end {
        if mistaken[i] {
            let far = far_end(start, edges[i]);
            let heavy = weights[i];
            rooms[far as usize] += heavy + heavy;
            weight += heavy;
            targets.push(far)?;
        }
    }
    Ok(Targets {
        rooms,
        targets,
        weight,
    })
}

/// The other end of an edge from a vertex, or to it.
fn far_end(start: u32, edge: Edge) -> u32
    ensures { result ≡ far_end start edge }
{
    if edge.tail == start {
        edge.head
    } else {
        edge.tail
    }
}
