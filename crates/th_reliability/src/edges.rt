//! The network as a graph: an edge for each observation, with the observation's weight.
ghost use Rattle.std.specs.Prelude.{◌≡◌, ◌<◌, ◌≤◌, All, IfOk, sum_by};
ghost use Rattle.th_limits.specs.Limits.{max_total_weight};
ghost use Rattle.th_network.specs.Networks.{vertices_of};
ghost use Rattle.th_reliability.specs.Edges.{edges_of as edges_in};

use std::alloc::{AllocError, Global};
use th_cuts::Edge;
use th_network::Network;

/// The observations of a network as edges between its vertices, in their order.
pub(crate) fn edges_of(alloc: Global, network: &Network) -> Result<Vec<Edge>, AllocError>
    ensures edges { IfOk result (λ edges. edges.items
        ≡ edges_in network.now.observations network.now.benchmarks network.now.weights) }
    ensures ends { IfOk result (λ edges. All (λ edge. (edge.tail < vertices_of network.now)
        × (edge.head < vertices_of network.now)) edges.items) }
    ensures light { IfOk result (λ edges. sum_by (λ edge. edge.weight) edges.items ≤ max_total_weight) }
{
    let arcs = network.arcs();
    let mut edges = Vec::with_capacity(alloc, arcs.len())?;
    for number in 0..network.observations().len() {
        let arc = arcs[number];
        edges.push(Edge {
            tail: arc.tail,
            head: arc.head,
            weight: network.weight(number),
        })?;
    }
    Ok(edges)
}
