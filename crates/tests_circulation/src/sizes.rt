//! Networks of thousands of sights, of the most points or observations, and with a span of 20 km.
use crate::settling::{Outcome, cost_of, settled_over, settled_over_both};
use crate::surveys::{A_AT_100, LONGER, SETUP, SIGHT, joined, network_of, tables_of};
use std::alloc::Global;
use std::process::Abort;
use th_network::Network;
use th_search::LabelSearch;

/// Adds a line to a book so many times.
fn add(rt: &impl Abort, book: &mut Vec<u8>, line: &[u8], times: u32) {
    for _ in 0..times {
        book.extend_from_slice(line).expect(rt, "memory");
    }
}

/// Whether heights are that of A and then this one of each other point.
fn are_all(heights: &[i64], points: usize, height: i64) -> bool {
    heights.len() == points
        && heights.first() == Some(&10_000_000_000)
        && heights.iter().skip(1).all(|&other| other == height)
}

/// Compares what flows where two thousand sights differ from two thousand others.
fn compare_halves(rt: &impl Abort, network: &Network, outcome: &Outcome) {
    let heights = outcome.settled.heights.as_slice();
    assert_eq!(rt; cost_of(network, heights), 400_000_000);
    assert!(rt; are_all(outcome.spans.low.as_slice(), 2, 10_254_500_000));
    assert!(rt; are_all(outcome.spans.high.as_slice(), 2, 10_254_700_000));
    assert!(rt; 2_000 <= outcome.steps && outcome.steps <= 352_000);
    let flows = outcome.settled.flows.as_slice();
    assert_eq!(rt; flows.len(), 4_000);
    for (i, flow) in flows.iter().enumerate() {
        assert_eq!(rt; *flow, if i < 2_000 { -1 } else { 1 });
    }
}

/// Two thousand sights of B and as many longer ones: each step moves one of the first and one of the
/// others, so there are 2,000 of them or more.
#[test]
fn thousands_of_sights_are_settled(rt: HostRuntime) {
    let mut book = joined(&rt, rt.alloc(), &[SETUP]);
    add(&rt, &mut book, SIGHT, 2_000);
    add(&rt, &mut book, LONGER, 2_000);
    let tables = tables_of(&rt, rt.alloc(), A_AT_100, b"");
    let network = network_of(&rt, rt.alloc(), &book, &tables);
    for outcome in &settled_over_both(&rt, rt.alloc(), &network) {
        compare_halves(&rt, &network, outcome);
    }
}

/// Compares what a book without residuals is settled to: nothing flows, and each point but A is at the
/// height of B.
fn compare_exact(rt: &impl Abort, outcome: &Outcome, points: usize, observations: usize) {
    assert_eq!(rt; outcome.steps, 0);
    assert!(rt; are_all(outcome.settled.heights.as_slice(), points, 10_254_500_000));
    assert!(rt; are_all(outcome.spans.low.as_slice(), points, 10_254_500_000));
    assert!(rt; are_all(outcome.spans.high.as_slice(), points, 10_254_500_000));
    let flows = outcome.settled.flows.as_slice();
    assert_eq!(rt; flows.len(), observations);
    assert!(rt; flows.iter().all(|&flow| flow == 0));
}

/// Settles a book without residuals.
fn settle_exact(rt: &impl Abort, alloc: Global, book: &[u8], points: usize, observations: usize) {
    let tables = tables_of(rt, alloc, A_AT_100, b"");
    let network = network_of(rt, alloc, book, &tables);
    for outcome in &settled_over_both(rt, alloc, &network) {
        compare_exact(rt, outcome, points, observations);
    }
}

/// As many sights as a network takes, all of one pair and alike.
#[test]
fn one_pair_is_settled(rt: HostRuntime) {
    let mut book = joined(&rt, rt.alloc(), &[SETUP]);
    add(&rt, &mut book, SIGHT, 40_000);
    settle_exact(&rt, rt.alloc(), &book, 2, 40_000);
}

/// As many points and as many observations as a network takes: each point but A is sighted ten times
/// from A, and the first ten times more.
#[test]
fn many_targets_are_settled(rt: HostRuntime) {
    let mut book = joined(&rt, rt.alloc(), &[SETUP]);
    for target in 0..3_999u32 {
        let sight = format!(in rt.alloc();
            "110002+000P{target:04} 33..00+00002345 87..10+00001300 \n"
        ).expect(&rt, "memory");
        let times = if target == 0 { 20 } else { 10 };
        add(&rt, &mut book, sight.as_bytes(), times);
    }
    settle_exact(&rt, rt.alloc(), &book, 4_000, 40_000);
}

/// Adds a setup at a point, and ten sights of the next one, 2.545 m below.
fn add_leg(rt: &impl Abort, alloc: Global, book: &mut Vec<u8>, point: u32, next: u32) {
    let setup = format!(in alloc; "110001+{point:08} 84..10+00000000 88..10+00001500 \n").expect(
        rt, "memory",
    );
    add(rt, book, setup.as_bytes(), 1);
    let sight = format!(in alloc; "110002+{next:08} 33..00+00002345 87..10+00001300 \n").expect(
        rt, "memory",
    );
    add(rt, book, sight.as_bytes(), 10);
}

/// Compares what a line was settled to without a step: its last point is more than 10 km above the first.
fn compare_line(rt: &impl Abort, outcome: &Outcome) {
    let low = outcome.spans.low.as_slice();
    assert_eq!(rt; outcome.steps, 0);
    assert_eq!(rt; low, outcome.spans.high.as_slice());
    assert_eq!(rt; low, outcome.settled.heights.as_slice());
    assert_eq!(rt; (low.len(), low.last()), (4_000, Some(&1_027_745_500_000)));
}

/// A line of as many points as a network takes, each but the first sighted from the one before it.
#[test]
fn a_line_is_settled(rt: HostRuntime) {
    let mut book = Vec::new(rt.alloc());
    for point in 0..3_999u32 {
        add_leg(&rt, rt.alloc(), &mut book, point, point + 1);
    }
    let tables = tables_of(&rt, rt.alloc(), b"point,height\n0,100\n", b"");
    let network = network_of(&rt, rt.alloc(), &book, &tables);
    compare_line(
        &rt,
        &settled_over(&rt, rt.alloc(), &network, LabelSearch::new()),
    );
}

/// Two sights of B that differ by 20 km: any height between them is best.
#[test]
fn a_wide_span_is_found(rt: HostRuntime) {
    let lowest = b"110002+0000000B 33..00-10000000 87..10+00001300 \n";
    let highest = b"110003+0000000B 33..00+10000000 87..10+00001300 \n";
    let book = joined(&rt, rt.alloc(), &[SETUP, lowest, highest]);
    let tables = tables_of(&rt, rt.alloc(), A_AT_100, b"");
    let network = network_of(&rt, rt.alloc(), &book, &tables);
    let outcome = settled_over(&rt, rt.alloc(), &network, LabelSearch::new());
    let low: [i64; 2] = [10_000_000_000, -989_980_000_000];
    let high: [i64; 2] = [10_000_000_000, 1_010_020_000_000];
    assert_eq!(rt; outcome.spans.low.as_slice(), low.as_slice());
    assert_eq!(rt; outcome.spans.high.as_slice(), high.as_slice());
}
