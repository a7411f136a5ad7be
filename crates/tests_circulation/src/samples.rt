//! Samples that look random, settled over both searches and compared with plain references.
use crate::grids::{Best, MOST_VERTICES, best_on_grid};
use crate::randoms::{Random, Sample};
use crate::references::{Walk, are_lengths, shortest};
use crate::settling::{Outcome, are_alike, cost_of, settled_over_both};
use crate::surveys::{network_of, tables_of};
use std::alloc::Global;
use std::process::Abort;
use th_network::Network;

/// Compares spans with the lengths of shortest walks.
fn compare_walks(rt: &impl Abort, alloc: Global, network: &Network, outcome: &Outcome) {
    let flows = outcome.settled.flows.as_slice();
    let away = shortest(rt, alloc, network, flows, Walk::Away);
    let back = shortest(rt, alloc, network, flows, Walk::Back);
    assert!(rt; are_lengths(network, &away, Walk::Away, outcome.spans.low.as_slice()));
    assert!(rt; are_lengths(network, &back, Walk::Back, outcome.spans.high.as_slice()));
}

/// Compares two outcomes with each other, and what the ends of the spans cost with what the heights do.
fn compare_outcomes(rt: &impl Abort, network: &Network, [one, other]: &[Outcome; 2]) {
    assert!(rt; are_alike(network, one, other));
    let cost = cost_of(network, one.settled.heights.as_slice());
    let low = cost_of(network, one.spans.low.as_slice());
    let high = cost_of(network, one.spans.high.as_slice());
    assert_eq!(rt; [low, high], [cost, cost]);
}

/// Whether heights of the points that are no benchmarks are these.
fn are_at(network: &Network, heights: &[i64], wanted: [i64; 2]) -> bool {
    let mut vertex = 0usize;
    for (k, height) in heights.iter().enumerate() {
        if k < network.points().len() && network.fixed(k).is_none() {
            if wanted.get(vertex) != Some(height) {
                return false;
            }
            vertex = vertex.wrapping_add(1);
        }
    }
    true
}

/// Compares an outcome with the best of all heights on a grid.
fn compare_grid(rt: &impl Abort, network: &Network, outcome: &Outcome) {
    let Best { cost, low, high } = best_on_grid(network);
    assert_eq!(rt; cost_of(network, outcome.settled.heights.as_slice()), cost);
    assert!(rt; are_at(network, outcome.spans.low.as_slice(), low));
    assert!(rt; are_at(network, outcome.spans.high.as_slice(), high));
}

/// Settles a sample over both searches and compares what they give with each other and with plain
/// references; whether all heights were tried.
fn settle_sample(rt: &impl Abort, alloc: Global, sample: &Sample) -> bool {
    let tables = tables_of(rt, alloc, &sample.benchmarks, &sample.weights);
    let network = network_of(rt, alloc, &sample.book, &tables);
    let both = settled_over_both(rt, alloc, &network);
    compare_outcomes(rt, &network, &both);
    for outcome in &both {
        compare_walks(rt, alloc, &network, outcome);
    }
    let is_tried = network.vertices() <= MOST_VERTICES;
    if is_tried {
        compare_grid(rt, &network, &both[0]);
    }
    is_tried
}

/// A thousand small networks; of some all heights are tried.
#[test]
fn samples_are_settled_alike(rt: HostRuntime) {
    let mut random = Random { state: 1 };
    let mut tried = 0u32;
    for _ in 0..1_000 {
        let sample = Sample::new(&rt, rt.alloc(), &mut random);
        if settle_sample(&rt, rt.alloc(), &sample) {
            tried = tried.wrapping_add(1);
        }
    }
    assert!(rt; 200 < tried && tried < 900, "{tried} of 1000");
}

/// Networks in which many differences are alike: most pivots of a simplex would move nothing.
#[test]
fn ties_are_settled_alike(rt: HostRuntime) {
    let mut random = Random { state: 3 };
    for k in 0..60u32 {
        let sample = Sample::with_ties(&rt, rt.alloc(), &mut random, 4 + k);
        let _ = settle_sample(&rt, rt.alloc(), &sample);
    }
}

/// Long paths: their spanning trees have many levels.
#[test]
fn long_paths_are_settled_alike(rt: HostRuntime) {
    let mut random = Random { state: 4 };
    for k in 0..4u32 {
        let sample = Sample::of_path(&rt, rt.alloc(), &mut random, 65 + 20 * k);
        let _ = settle_sample(&rt, rt.alloc(), &sample);
    }
}
