//! A least cut between two vertices: one that flow shows, or the lighter vertex against all others.
ghost use Rattle.std.specs.Prelude.{◌≡◌, ◌<◌, ◌==◌, ℕ, IfOk, length, not};
ghost use Rattle.th_cuts.specs.Drains.{on_side};
ghost use Rattle.th_cuts.specs.Inside.CutTrees.{AreNear, AreWeighed, IsCut, IsSame};

use crate::drains::least_below;
use crate::graphs::Graph;
use std::alloc::{AllocError, Global};

/// A set of vertices, and the weight of the edges with exactly one end in it.
#[derive(Debug, Drop)]
pub(crate) struct Cut {
    pub value: u32,
    /// For each vertex whether it is on the side.
    pub side: Vec<bool>,
}

/// A least cut between two vertices, which weighs at most what the edges at the lighter one do. There is room for
/// that at the second one, and there may be at others that no lighter cut separates from it.
pub(crate) fn cut_between(
    alloc: Global,
    graph: &Graph,
    lone: &[u32],
    source: u32,
    sink: u32,
    most: u32,
    rooms: &[u32],
) -> Result<Cut, AllocError>
    requires weighed { AreWeighed graph.now.vertices graph.now.edges.items lone.now source sink most }
    requires near { AreNear graph.now.vertices graph.now.edges.items most sink rooms.now }
    ensures { IfOk result (IsCut graph.now.vertices graph.now.edges.items source sink) }
{
    match least_below(alloc, graph, source, rooms, most, &[sink])? {
        Some((value, side)) => Ok(Cut { value, side }),
        None => lone_cut(alloc, graph, lone, source, sink, most),
    }
}

/// The cut that separates the lighter one of two vertices from all others, where no cut between the two is lighter.
fn lone_cut(
    alloc: Global,
    graph: &Graph,
    lone: &[u32],
    source: u32,
    sink: u32,
    most: u32,
) -> Result<Cut, AllocError>
    requires weighed { AreWeighed graph.now.vertices graph.now.edges.items lone.now source sink most }
    requires least { IsSame graph.now.edges.items most source sink }
    ensures { IfOk result (IsCut graph.now.vertices graph.now.edges.items source sink) }
{
    if most == lone[source as usize] {
        let side = alone(alloc, graph, source)?;
        return Ok(Cut { value: most, side });
    }
    let side = all_but(alloc, graph, sink)?;
    Ok(Cut { value: most, side })
}

/// A vertex alone.
fn alone(alloc: Global, graph: &Graph, vertex: u32) -> Result<Vec<bool>, AllocError>
    requires { vertex < graph.now.vertices }
    ensures each { IfOk result (λ side. length side.items ≡ graph.now.vertices) }
    ensures side { IfOk result (λ side. (v : ℕ) → v < graph.now.vertices → on_side side.items v ≡ (v == vertex)) }
{
    let mut side = vec![in alloc; false; graph.vertices as usize]?;
    side[vertex as usize] = true;
    Ok(side)
}

/// All vertices but one.
fn all_but(alloc: Global, graph: &Graph, vertex: u32) -> Result<Vec<bool>, AllocError>
    requires { vertex < graph.now.vertices }
    ensures each { IfOk result (λ side. length side.items ≡ graph.now.vertices) }
    ensures side { IfOk result (λ side. (v : ℕ) → v < graph.now.vertices → on_side side.items v ≡ not (v == vertex)) }
{
    let mut side = vec![in alloc; true; graph.vertices as usize]?;
    side[vertex as usize] = false;
    Ok(side)
}
