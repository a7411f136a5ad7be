//! A start from flows and heights that were found elsewhere.
ghost use Rattle.std.specs.Prelude.{◌≡◌, ◌<◌, IfOk, IfSome, true};
ghost use Rattle.th_circulation.specs.Inside.Workspaces.{IsDone, IsReady, IsRested};
ghost use Rattle.th_circulation.specs.Inside.Phases.{differences_in};
ghost use Rattle.th_circulation.specs.Settled.{IsSettled};
ghost use Rattle.th_search.specs.Limits.{max_calls};

use crate::differences::set_differences;
use crate::flows::is_flow;
use crate::graphs::LinkGraph;
use crate::heights::take_given;
use crate::point_heights::set_point_heights;
use crate::steps::Steps;
use crate::workspaces::Workspace;
use std::alloc::{AllocError, Global};
use th_network::{Network, Settled};
use th_search::{LabelSearch, Search};

/// Flows and heights that may show each other already, as where one number of a network was changed. Nothing is
/// promised of them.
#[derive(Clone, Copy)]
pub struct Start<'a> {
    /// The flow of each observation, in their order.
    pub flows: &'a [i64],
    /// The height of each vertex, in units of 10 nm.
    pub heights: &'a [i64],
}

impl Workspace {
    /// Takes flows if they are a circulation, and asks the search once whether they show heights; true if so.
    pub fn start_from<S: Search>(
        &mut self,
        alloc: Global,
        graph: &LinkGraph,
        start: Start<'_>,
        search: &mut S,
        steps: &mut Steps,
    ) -> Result<bool, AllocError>
        requires rested { IsRested graph.now self.old }
        requires calls { S.calls search.old < max_calls }
        requires steps { steps.old < max_calls }
        ensures done { IfOk result (λ is_done. is_done ≡ true → IsDone graph.now self.new (S.asked search.new)) }
    {
        if !is_flow(alloc, graph, start.flows)? {
            return Ok(false);
        }
        self.state.flows.copy_from_slice(start.flows);
        self.take_heights(graph, start.heights);
        let is_cancelled = self.advance(alloc, graph, search, steps)?;
        Ok(!is_cancelled)
    }

    /// Takes the links' own differences, and these heights.
    fn take_heights(&mut self, graph: &LinkGraph, heights: &[i64])
        requires rested { IsRested graph.now self.old }
        ensures ready { IsReady graph.now self.new }
        ensures differences { self.new.state.differences.items ≡ differences_in 0 graph.now.links.now }
        ensures flows { self.new.state.flows.items ≡ self.old.state.flows.items }
    {
        set_differences(graph.links, 0, &mut self.state.differences);
        take_given(&mut self.state.heights, heights, graph.vertices);
    }
}

/// The heights of the points of a network and the circulation that shows them, if these flows and heights show each
/// other.
pub(crate) fn settled_from(
    alloc: Global,
    network: &Network,
    start: Start<'_>,
) -> Result<Option<Settled>, AllocError>
    ensures { IfOk result (λ found. IfSome found (λ settled. IsSettled network.now
        settled.heights.items settled.flows.items)) }
{
    let mut heights = vec![in alloc; 0i64; network.points().len()]?;
    let graph = LinkGraph::of(network);
    let mut work = Workspace::new(alloc, &graph)?;
    let mut search = LabelSearch::new();
    if !work.start_from(alloc, &graph, start, &mut search, &mut Steps::new())? {
        return Ok(None);
    }
    let state = work.state;
    set_point_heights(network, &state.heights, &mut heights);
    Ok(Some(Settled {
        heights,
        flows: state.flows,
    }))
}
