//! What a guide starts from: each link with its difference, weight and flow.
use crate::graphs::LinkGraph;
use crate::states::State;
use th_guide::{Guide, Link};

/// Sets a guide to work on the links of a graph, with the differences and flows of a state.
pub(crate) fn start_guide(guide: &mut Guide, graph: &LinkGraph, state: &State) {
    for (place, link) in graph.links.iter().enumerate() {
        let link = Link {
            tail: link.tail,
            head: link.head,
            difference: state.differences.get(place).copied().unwrap_or(0),
            weight: graph.weights.get(place).copied().unwrap_or(0),
            flow: state.flows.get(place).copied().unwrap_or(0),
        };
        guide.set_link(place, link);
    }
    guide.start();
}
