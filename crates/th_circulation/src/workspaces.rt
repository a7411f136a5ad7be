//! How flows settle: cycles are cancelled, at once or phase by phase, until the flows show heights.
ghost use Rattle.std.specs.Prelude.{◌≡◌, ◌+◌, ◌<◌, ◌≤◌, ◌-◌, ◌*◌, ◌⊎◌, ◌^◌, ℤ, List, false, pos, IfOk, MatchBool, OnOk, length, replicate, sum};
ghost use Rattle.std.specs.Bool.{OnTrue};
ghost use Rattle.th_circulation.specs.Inside.Bounds.{height_bound};
ghost use Rattle.th_search.specs.Distances.{AreWithin};
ghost use Rattle.th_circulation.specs.Inside.Listings.{Fits, HasAllBefore, Lists};
ghost use Rattle.th_circulation.specs.Inside.Phases.{differences_in};
ghost use Rattle.th_circulation.specs.Inside.Proposals.{HasNoPotentials};
ghost use Rattle.th_circulation.specs.Inside.Workspaces.{AreShownFor, Counts, GoesOn, IsDone, IsNear, IsReady, IsRested, WasAsked, others_in};
ghost use Rattle.th_circulation.specs.Limits.{max_counted, phases};
ghost use Rattle.th_search.specs.Limits.{max_calls, max_vertices};
ghost use Rattle.th_search.specs.Potentials.{IsFeasible};
ghost use Rattle.th_search.specs.Searched.{IsSearched};

use crate::cancels::cancel;
use crate::differences::set_differences;
use crate::graphs::LinkGraph;
use crate::heights::{double, raise, take};
use crate::limits::{MOST_ROOM, PHASES};
use crate::listings::Listing;
use crate::proposals::closes_below_zero;
use crate::proposing::start_guide;
use crate::states::State;
use crate::steps::Steps;
use std::alloc::{AllocError, Global};
use th_guide::Guide;
use th_search::laws::potentials_exclude_negative_cycles;
use th_search::{Arc, Found, Search};

/// What a settling works on.
#[derive(Drop)]
pub(crate) struct Workspace {
    /// The flows and heights so far.
    pub state: State,
    /// The residual arcs.
    pub listing: Listing,
    /// What proposes cycles.
    pub guide: Guide,
    /// The most that is to flow round the cycle that is listed.
    pub most: u32,
}

impl Workspace {
    /// No flow yet, and all heights 0.
    pub fn new(alloc: Global, graph: &LinkGraph) -> Result<Workspace, AllocError>
        ensures rested { IfOk result (IsRested graph.now) }
    {
        let differences = vec![in alloc; 0i64; graph.links.len()]?;
        let heights = vec![in alloc; 0i64; graph.vertices as usize]?;
        let flows = vec![in alloc; 0i64; graph.links.len()]?;
        let listing = Listing::new(alloc, graph.links.len())?;
        let guide = Guide::new(alloc, graph.vertices, graph.links.len())?;
        Ok(Workspace {
            state: State {
                differences,
                heights,
                flows,
            },
            listing,
            guide,
            most: MOST_ROOM,
        })
    }

    /// Settles all digits of the differences at once where few steps do, and else by halves, until the
    /// flows show heights for the links' own differences.
    pub fn settle<S: Search>(
        &mut self,
        alloc: Global,
        graph: &LinkGraph,
        search: &mut S,
        steps: &mut Steps,
    ) -> Result<(), AllocError>
        requires rested { IsRested graph.now self.old }
        requires calls { S.calls search.old ≤ max_counted }
        requires steps { steps.old ≤ max_counted }
        ensures done { OnOk result (IsDone graph.now self.new (S.asked search.new)) }
        ensures few { steps.new ≤ steps.old + 2 * phases * sum graph.now.weights.now }
        ensures counts { Counts S.calls S.refusals S.cycles phases result
            search.old search.new steps.old steps.new }
    {
        if self.settle_at_once(alloc, graph, search, steps)? {
            self.state.flows.fill(0);
            self.settle_by_halves(alloc, graph, search, steps)
        } else {
            ask_again(alloc, graph.vertices, &self.listing.arcs, search)
        }
    }

    /// Cancels cycles for the links' own differences, at most as often as the sum of the weights says;
    /// false where the flows show heights then. Where the guide has not solved these, nothing is
    /// cancelled: it takes few steps to settle by halves, and may take as many as there can be otherwise.
    fn settle_at_once<S: Search>(
        &mut self,
        alloc: Global,
        graph: &LinkGraph,
        search: &mut S,
        steps: &mut Steps,
    ) -> Result<bool, AllocError>
        requires rested { IsRested graph.now self.old }
        requires calls { S.calls search.old ≤ max_counted }
        requires steps { steps.old ≤ max_counted }
        ensures rested { OnOk result (IsRested graph.now self.new) }
        ensures done { IfOk result (λ left. left ≡ false → IsDone graph.now self.new (S.asked search.new)) }
        ensures few { steps.new ≤ steps.old + sum graph.now.weights.now }
        ensures counts { Counts S.calls S.refusals S.cycles (others_in result) result
            search.old search.new steps.old steps.new }
    {
        self.start_phase(graph, 0);
        if !self.guide.has_solved() {
            return Ok(true);
        }
        let most = total(graph.weights);
        'steps: for done in 0..most {
            if !self.advance(alloc, graph, search, steps)? {
                return Ok(false);
            }
        }
        Ok(true)
    }

    /// Settles the phases one after another, each from the flows of the one before it. At the end
    /// the flows show heights for the links' own differences.
    fn settle_by_halves<S: Search>(
        &mut self,
        alloc: Global,
        graph: &LinkGraph,
        search: &mut S,
        steps: &mut Steps,
    ) -> Result<(), AllocError>
        requires rested { IsRested graph.now self.old }
        requires none { self.old.state.flows.items ≡ replicate (length graph.now.links.now) (pos 0) }
        requires calls { S.calls search.old ≤ 2 * max_counted }
        requires steps { steps.old ≤ 2 * max_counted }
        ensures done { OnOk result (IsDone graph.now self.new (S.asked search.new)) }
        ensures few { steps.new + sum graph.now.weights.now
            ≤ steps.old + 2 * phases * sum graph.now.weights.now }
        ensures counts { Counts S.calls S.refusals S.cycles phases result
            search.old search.new steps.old steps.new }
    {
        'phases: for done in 0..PHASES {
            self.start_phase(graph, PHASES - 1 - done);
            self.settle_phase(alloc, graph, search, steps)?;
        }
        Ok(())
    }

    /// Asks the search once: cancels the cycle that it names and answers true, or raises the heights
    /// by its potentials to heights that the flows show, and answers false.
    pub fn advance<S: Search>(
        &mut self,
        alloc: Global,
        graph: &LinkGraph,
        search: &mut S,
        steps: &mut Steps,
    ) -> Result<bool, AllocError>
        requires ready { IsReady graph.now self.old }
        requires calls { S.calls search.old < max_calls }
        requires steps { steps.old < max_calls }
        ensures goes_on { GoesOn graph.now self.old self.new (steps.new - steps.old) }
        ensures answer { IfOk result (λ cancelled. MatchBool cancelled
            (AreWithin graph.now.vertices height_bound self.new.state.heights.items
            × (steps.new ≡ steps.old + 1))
            (AreShownFor graph.now self.old.state.differences.items self.new (S.asked search.new))) }
        ensures few { steps.new ≤ steps.old + 1 }
        ensures counts { Counts S.calls S.refusals S.cycles (others_in result) result
            search.old search.new steps.old steps.new }
    {
        self.list_next(graph);
        match search.search(alloc, graph.vertices, &self.listing.arcs)? {
            Found::Cycle(cycle) => {
                let most = self.most;
                cancel(
                    graph,
                    &self.listing.slots,
                    &cycle,
                    most,
                    &mut self.state.flows,
                );
                steps.tick();
                Ok(true)
            }
            Found::Potentials(potentials) => {
                raise(&mut self.state.heights, &potentials, graph.vertices);
                Ok(false)
            }
        }
    }

    /// Lists what is searched next: the arcs round a cycle that the guide proposes, where that is one
    /// which costs less than 0; else all residual arcs, at costs that the guide's heights reduce.
    fn list_next(&mut self, graph: &LinkGraph)
        requires ready { IsReady graph.now self.old }
        ensures differences { self.new.state.differences.items ≡ self.old.state.differences.items }
        ensures flows { self.new.state.flows.items ≡ self.old.state.flows.items }
        ensures ready { IsReady graph.now self.new }
        ensures few { length self.new.listing.slots.items ≤ 2 * length graph.now.links.now }
        ensures listed { Lists graph.now self.new.state self.new.listing }
        ensures next { HasNoPotentials self.new.listing.arcs.items
            ⊎ HasAllBefore graph.now.weights.now self.old.state.flows.items self.new.listing.slots.items
            (length graph.now.links.now) }
    {
        if self.guide.is_at_work() {
            if self.list_proposal(graph) {
                return;
            }
            self.guide.stop();
            take(&mut self.state.heights, &self.guide, graph.vertices);
        }
        self.most = MOST_ROOM;
        self.listing.list_all(graph, &self.state);
    }

    /// Lists the arcs round a cycle that the guide proposes; true where they cost less than 0.
    fn list_proposal(&mut self, graph: &LinkGraph) -> bool
        requires ready { IsReady graph.now self.old }
        ensures state { self.new.state ≡ self.old.state }
        ensures fits { Fits graph.now self.new.listing }
        ensures few { OnTrue result (length self.new.listing.slots.items
            ≤ 2 * length graph.now.links.now) }
        ensures listed { OnTrue result (Lists graph.now self.new.state self.new.listing) }
        ensures cycle { OnTrue result (HasNoPotentials self.new.listing.arcs.items) }
    {
        let Some(amount) = self.guide.propose() else {
            return false;
        };
        self.most = amount;
        self.listing
            .list_these(graph, &self.state, self.guide.cycle());
        closes_below_zero(&self.listing.arcs)
    }

    /// Takes the differences of a phase, and the heights doubled.
    fn start_phase(&mut self, graph: &LinkGraph, phase: u32)
        requires phase { phase < phases }
        requires rested { IsRested graph.now self.old }
        ensures ready { IsReady graph.now self.new }
        ensures differences { self.new.state.differences.items ≡ differences_in phase graph.now.links.now }
        ensures flows { self.new.state.flows.items ≡ self.old.state.flows.items }
    {
        set_differences(graph.links, phase, &mut self.state.differences);
        double(&mut self.state.heights, graph.vertices);
        start_guide(&mut self.guide, graph, &self.state);
    }

    /// Cancels cycles until the search answers potentials: then the flows show the heights for these
    /// differences.
    fn settle_phase<S: Search>(
        &mut self,
        alloc: Global,
        graph: &LinkGraph,
        search: &mut S,
        steps: &mut Steps,
    ) -> Result<(), AllocError>
        requires ready { IsReady graph.now self.old }
        requires near { IsNear graph.now.links.now graph.now.weights.now self.old.state.differences.items
            self.old.state.flows.items }
        requires calls { S.calls search.old + 2 * sum graph.now.weights.now < max_calls }
        requires steps { steps.old + 2 * sum graph.now.weights.now < max_calls }
        ensures goes_on { GoesOn graph.now self.old self.new (steps.new - steps.old) }
        ensures shown { OnOk result (AreShownFor graph.now self.old.state.differences.items self.new
            (S.asked search.new)) }
        ensures few { steps.new ≤ steps.old + 2 * sum graph.now.weights.now }
        ensures counts { Counts S.calls S.refusals S.cycles 1 result
            search.old search.new steps.old steps.new }
    {
        'cycles: while self.advance(alloc, graph, search, steps)? {}
        Ok(())
    }
}

/// Asks the search once for each phase but one: of no arcs, and at last again of the arcs for which it
/// answered potentials. Where all was settled at once, nothing is left for these phases.
fn ask_again<S: Search>(
    alloc: Global,
    vertices: u32,
    arcs: &Vec<Arc>,
    search: &mut S,
) -> Result<(), AllocError>
    requires searched { IsSearched vertices arcs.now.items }
    requires potentials { (values : List ℤ) × IsFeasible arcs.now.items values }
    requires calls { S.calls search.old + phases ≤ max_calls }
    ensures counts { Counts S.calls S.refusals S.cycles (phases - 1) result search.old search.new 0 0 }
    ensures asked { OnOk result ((values : List ℤ)
        × IsFeasible arcs.now.items values
        × WasAsked vertices arcs.now.items values (S.asked search.new)) }
{
    potentials_exclude_negative_cycles();
    ask_of_none(alloc, vertices, PHASES - 2, search)?;
    let _ = search.search(alloc, vertices, arcs)?;
    Ok(())
}

/// Asks the search of no arcs so many times.
pub(crate) fn ask_of_none<S: Search>(
    alloc: Global,
    vertices: u32,
    times: u32,
    search: &mut S,
) -> Result<(), AllocError>
    requires some { 1 ≤ vertices }
    requires few { vertices ≤ max_vertices }
    requires calls { S.calls search.old + times ≤ max_calls }
    ensures { Counts S.calls S.refusals S.cycles times result search.old search.new 0 0 }
{
    let none = Vec::new(alloc);
    'times: for time in 0..times {
        let _ = search.search(alloc, vertices, &none)?;
    }
    Ok(())
}

/// The sum of some weights.
fn total(weights: &[u32]) -> u32
    requires { sum weights.now < 2 ^ 32 }
    ensures { result ≡ sum weights.now }
{
    weights.iter().sum()
}
