//! What is known of cuts before they are made: what each vertex alone weighs, and which vertices no light cut
//! separates.
ghost use Rattle.std.specs.Prelude.{◌≡◌, ◌<◌, ◌≤◌, ◌+◌, IfOk, length};
ghost use Rattle.th_limits.specs.Limits.{max_total_weight};
ghost use Rattle.th_cuts.specs.Inside.CutTrees.{AreBranches, AreLone, AreNear, AreTops, raised, with_edge};
ghost use Rattle.th_cuts.specs.Drains.{room_at};

use crate::branches::Branch;
use crate::edges::Edge;
use crate::graphs::Graph;
use std::alloc::{AllocError, Global};

/// For each vertex what its edges weigh.
pub(crate) fn lone_weights(alloc: Global, graph: &Graph) -> Result<Vec<u32>, AllocError>
    ensures { IfOk result (λ lone. AreLone graph.now.vertices graph.now.edges.items lone.items) }
{
    let mut lone = vec![in alloc; 0u32; graph.vertices as usize]?;
    for edge in &graph.edges {
        add(&mut lone, *edge);
    }
    Ok(lone)
}

/// Adds what an edge weighs at both of its ends, unless it is a loop.
fn add(lone: &mut Vec<u32>, edge: Edge)
    requires ends { (edge.tail < length lone.old.items) × (edge.head < length lone.old.items) }
    requires tail { room_at lone.old.items edge.tail + edge.weight ≤ max_total_weight }
    requires head { room_at lone.old.items edge.head + edge.weight ≤ max_total_weight }
    ensures { lone.new.items ≡ with_edge lone.old.items edge }
{
    if edge.tail != edge.head {
        raise(lone, edge.tail, edge.weight);
        raise(lone, edge.head, edge.weight);
    }
}

/// Adds an amount to what is listed for a vertex.
fn raise(lone: &mut Vec<u32>, vertex: u32, amount: u32)
    requires vertex { vertex < length lone.old.items }
    requires light { room_at lone.old.items vertex + amount ≤ max_total_weight }
    ensures { lone.new.items ≡ raised lone.old.items vertex amount }
{
    lone[vertex as usize] += amount;
}

/// Room for an amount at a vertex, and at each other one with a branch that no lighter cut separates from it, as far
/// as the branches show.
pub(crate) fn near_rooms(
    alloc: Global,
    graph: &Graph,
    branches: &[Branch],
    vertex: u32,
    most: u32,
) -> Result<Vec<u32>, AllocError>
    requires branches { AreBranches graph.now.vertices graph.now.edges.items branches.now }
    requires few { length branches.now < graph.now.vertices }
    requires vertex { vertex ≤ length branches.now }
    ensures { IfOk result (λ rooms.
        AreNear graph.now.vertices graph.now.edges.items most vertex rooms.items) }
{
    let tops = tops_of(alloc, graph, branches, most)?;
    let top = tops[vertex as usize];
    let mut rooms = vec![in alloc; 0u32; graph.vertices as usize]?;
    for other in 0..tops.len() {
        if tops[other] == top {
            rooms[other] = most;
        }
    }
    Ok(rooms)
}

/// For vertex 0 and each vertex with a branch, the first one that branches of at least this weight lead it to.
fn tops_of(
    alloc: Global,
    graph: &Graph,
    branches: &[Branch],
    weight: u32,
) -> Result<Vec<u32>, AllocError>
    requires branches { AreBranches graph.now.vertices graph.now.edges.items branches.now }
    requires few { length branches.now < graph.now.vertices }
    ensures each { IfOk result (λ tops. length tops.items ≡ length branches.now + 1) }
    ensures tops { IfOk result (λ tops. AreTops graph.now.edges.items weight tops.items) }
{
    let mut tops = Vec::with_capacity(alloc, graph.vertices as usize)?;
    tops.push(0)?;
    for (number, branch) in branches.iter().enumerate() {
        let vertex = number as u32 + 1;
        if branch.cut.value < weight {
            tops.push(vertex)?;
        } else {
            tops.push(tops[branch.parent as usize])?;
        }
    }
    Ok(tops)
}
