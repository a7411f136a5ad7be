//! The settling of a network over one search or both, with counts compared, and what heights cost.
ghost use Rattle.std.specs.Prelude.{◌≤◌};
ghost use Rattle.th_circulation.specs.Limits.{max_counted};

use crate::searches::{CountingSearch, Question};
use gsi_word::Name;
use std::alloc::Global;
use std::process::Abort;
use tests_searches::LevelSearch;
use th_circulation::{Settled, Spans, Steps, settle, spans};
use th_network::Network;
use th_search::{Arc, LabelSearch, Search};

/// How many phases a settling has: for each the search is called once more than steps are counted.
const PHASES: u128 = 44;

/// What a network was settled to, its spans, how many steps that took, and the first question of the search.
#[derive(Drop)]
pub struct Outcome {
    pub settled: Settled,
    pub spans: Spans,
    pub steps: u128,
    pub first: Question,
}

/// Settles a network over a search, finds its spans, and compares the counts of calls, cycles and steps. The
/// last question of the search is all residual arcs of the flows, and it answers potentials.
pub fn settled_over<S: Search + Drop>(
    rt: &impl Abort,
    alloc: Global,
    network: &Network,
    search: S,
) -> Outcome
    requires { S.calls search ≤ max_counted }
{
    let mut counting = CountingSearch::new(alloc, search);
    let mut steps = Steps::new();
    let settled = settle(alloc, network, &mut counting, &mut steps).expect(rt, "memory");
    let spans = spans(alloc, network, &settled).expect(rt, "memory");
    let steps = steps.count();
    assert_eq!(rt; counting.called, steps.wrapping_add(PHASES));
    assert_eq!(rt; counting.cycles, steps);
    assert!(rt; are_residual(network, &settled.flows, &counting.last));
    Outcome {
        settled,
        spans,
        steps,
        first: counting.first,
    }
}

/// Settles a network over each of the two searches.
pub fn settled_over_both(rt: &impl Abort, alloc: Global, network: &Network) -> [Outcome; 2] {
    [
        settled_over(rt, alloc, network, LabelSearch::new()),
        settled_over(rt, alloc, network, LevelSearch::new()),
    ]
}

/// Whether two outcomes have heights that cost as much, and the same spans.
pub fn are_alike(network: &Network, one: &Outcome, other: &Outcome) -> bool {
    cost_of(network, one.settled.heights.as_slice())
        == cost_of(network, other.settled.heights.as_slice())
        && one.spans.low.as_slice() == other.spans.low.as_slice()
        && one.spans.high.as_slice() == other.spans.high.as_slice()
}

/// Whether the arcs lead as the residual arcs of flows do, link by link.
fn are_residual(network: &Network, flows: &[i64], arcs: &[Arc]) -> bool {
    let mut arcs = arcs.iter();
    let weights = network.weights();
    for ((link, flow), weight) in network.arcs().iter().zip(flows).zip(weights) {
        let weight = i64::from(*weight);
        if *flow < weight && !leads(arcs.next(), link.tail, link.head) {
            return false;
        }
        if *flow > weight.wrapping_neg() && !leads(arcs.next(), link.head, link.tail) {
            return false;
        }
    }
    arcs.next().is_none()
}

/// Whether there is an arc, and it leads from this tail to this head.
fn leads(arc: Option<&Arc>, tail: u32, head: u32) -> bool {
    arc.is_some_and(|arc| arc.tail == tail && arc.head == head)
}

/// What heights cost: the sum of weight times size of the residual.
pub fn cost_of(network: &Network, heights: &[i64]) -> u128 {
    let points = network.points();
    let mut cost = 0u128;
    for (i, o) in network.observations().iter().enumerate() {
        let (station, target) = o.ends();
        let rise = height_at(points, heights, &target).wrapping_sub(height_at(
            points, heights, &station,
        ));
        let residual = o.difference().wrapping_sub(rise).unsigned_abs() as u128;
        cost = cost.wrapping_add(residual.wrapping_mul(network.weight(i) as u128));
    }
    cost
}

/// The height of a name.
fn height_at(points: &[Name], heights: &[i64], name: &Name) -> i64 {
    for (point, height) in points.iter().zip(heights) {
        if point == name {
            return *height;
        }
    }
    0
}
