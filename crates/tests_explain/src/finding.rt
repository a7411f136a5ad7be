//! What numbers explain, at the best heights of a network.
use std::alloc::Global;
use std::process::Abort;
use th_blunders::Fit;
use th_circulation::best_heights;
use th_explain::{Case, Freed, Number, Sieve, explanation_or_more};
use th_network::Network;

/// What each of some numbers of a network explains, or none where it explains nothing or leaves at least `least`.
pub fn explained(
    rt: &impl Abort,
    alloc: Global,
    network: &Network,
    numbers: &[Number],
    limit: u64,
    least: Option<u128>,
) -> Vec<Option<Freed>> {
    let best = best_heights(alloc, network).expect(rt, "memory");
    let fit = Fit::of(alloc, network, best.low()).expect(rt, "memory");
    let case = Case::of(network, &best, &fit);
    let mut sieve = Sieve::of(alloc, &case).expect(rt, "memory");
    let mut found = Vec::with_capacity(alloc, numbers.len()).expect(rt, "memory");
    for number in numbers {
        let own = explanation_or_more(alloc, &mut sieve, number, limit, least).expect(rt, "memory");
        found.push(own).expect(rt, "memory");
    }
    found
}
