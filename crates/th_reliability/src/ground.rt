//! A network as least cuts see it.
ghost use Rattle.std.specs.Prelude.{◌≡◌, IfOk};
ghost use Rattle.th_reliability.specs.Inside.Graphs.{IsGraphOf};
ghost use Rattle.th_reliability.specs.Inside.Targets.{AreEdges};

use crate::edges::edges_of;
use std::alloc::{AllocError, Global};
use th_cuts::{Edge, Graph};
use th_network::Network;

/// A network, the edge of each of its observations, and their graph.
#[derive(Drop)]
pub(crate) struct Ground<'a, 'b> {
    pub network: &'a Network<'b>,
    pub edges: Vec<Edge>,
    pub graph: Graph,
    ghost edged: { AreEdges network.now edges.items },
    ghost graphed: { IsGraphOf network.now (record { vertices = graph.vertices; edges = graph.edges.items }) },
}

impl<'a, 'b> Ground<'a, 'b> {
    /// The edges and the graph of a network.
    pub fn of(alloc: Global, network: &'a Network<'b>) -> Result<Ground<'a, 'b>, AllocError>
        ensures { IfOk result (λ ground. ground.network.now ≡ network.now) }
    {
        let edges = edges_of(alloc, network)?;
        let graph = Graph::of(alloc, network.vertices(), &edges)?;
        Ok(Ground {
            network,
            edges,
            graph,
        })
    }
}
