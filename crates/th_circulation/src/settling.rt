//! The settling of a network: heights that cost least, with the circulation that shows it.
ghost use Rattle.std.specs.Prelude.{◌≤◌, IfOk};
ghost use Rattle.th_circulation.specs.Asked.{IsAskedLast};
ghost use Rattle.th_circulation.specs.Counts.{IsCounted, most_steps};
ghost use Rattle.th_circulation.specs.Limits.{max_counted};
ghost use Rattle.th_circulation.specs.Settled.{IsSettled};

use crate::graphs::LinkGraph;
use crate::point_heights::set_point_heights;
use crate::steps::Steps;
use crate::workspaces::Workspace;
use std::alloc::{AllocError, Global};
use th_network::{Network, Settled};
use th_search::Search;

/// Finds heights of the points of a network that cost least, and the circulation that shows it.
///
/// A step is one cycle that the search named and that was cancelled. Each cycle that it names is a
/// step, even if the call ends with an allocation failure. The search is called once for each step,
/// and once for each of 44 phases. At the end it is called with all residual arcs of the flows, and
/// answers potentials. If the first attempt settles all, it is called with no arcs for the phases that
/// are left but the last, and for that with the same arcs again. All memory but the search's is
/// allocated before its first call. So after an allocation failure either the search failed once, or
/// nothing was counted. The network may be settled again afterwards.
pub fn settle<S: Search>(
    alloc: Global,
    network: &Network,
    search: &mut S,
    steps: &mut Steps,
) -> Result<Settled, AllocError>
    requires calls { S.calls search.old ≤ max_counted }
    requires steps { steps.old ≤ max_counted }
    ensures settled { IfOk result (λ settled. IsSettled network.now
        settled.heights.items settled.flows.items) }
    ensures asked { IfOk result (λ settled.
        IsAskedLast network.now settled.flows.items (S.asked search.new)) }
    ensures counts { IsCounted S.calls S.refusals S.cycles (most_steps network.now) result
        search.old search.new steps.old steps.new }
{
    let mut heights = vec![in alloc; 0i64; network.points().len()]?;
    let graph = LinkGraph::of(network);
    let mut work = Workspace::new(alloc, &graph)?;
    work.settle(alloc, &graph, search, steps)?;
    set_point_heights(network, &work.state.heights, &mut heights);
    Ok(Settled {
        heights,
        flows: work.state.flows,
    })
}
