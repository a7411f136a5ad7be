//! Settling again after a failed allocation of the search, and counting on from the largest counts.
use crate::searches::RefusingSearch;
use crate::surveys::{A_AT_100, LONGER, SETUP, SIGHT, joined, network_of, tables_of};
use std::alloc::Global;
use std::process::Abort;
use th_circulation::{Steps, settle};
use th_limits::CALLS_BEFORE;
use th_network::Network;
use th_search::SearchCounts;

/// Settles a network over a search that refuses one call, and again over the same search; whether the
/// first settling was refused.
fn settle_twice(rt: &impl Abort, alloc: Global, network: &Network, refused: u128) -> bool {
    let mut search = RefusingSearch {
        refused,
        counts: SearchCounts::new(),
    };
    let mut steps = Steps::new();
    if settle(alloc, network, &mut search, &mut steps).is_ok() {
        return false;
    }
    let counted = steps.count();
    let calls = search.counts.calls;
    assert!(rt; calls <= CALLS_BEFORE && counted <= CALLS_BEFORE);
    compare_refused(rt, &search.counts, refused, counted);
    let settled = settle(alloc, network, &mut search, &mut steps).expect(rt, "memory");
    assert!(rt; are_counted(&search.counts, steps.count(), calls, counted));
    assert_eq!(rt; settled.flows.as_slice(), [-1i64, -1, 0, 1, 1].as_slice());
    true
}

/// Compares the counts of a search of which one call was refused, after so many others.
fn compare_refused(rt: &impl Abort, counts: &SearchCounts, others: u128, steps: u128) {
    let found = [counts.calls, counts.refusals, counts.cycles];
    assert_eq!(rt; found, [others.wrapping_add(1), 1, steps]);
}

/// Whether each cycle was a step, and the search was called 44 times more than there were steps since
/// these counts.
fn are_counted(counts: &SearchCounts, steps: u128, calls_before: u128, steps_before: u128) -> bool {
    let rise = steps.wrapping_sub(steps_before);
    counts.cycles == steps && counts.calls.wrapping_sub(calls_before) == rise.wrapping_add(44)
}

/// Each call of the search in turn is refused, until one is that never comes.
#[test]
fn refused_settlings_are_made_again(rt: HostRuntime) {
    let parts: [&[u8]; 4] = [
        SETUP,
        SIGHT,
        SIGHT,
        b"110003+0000000B 33..00+00002346 \n110004+0000000B 33..00+00003345 \n",
    ];
    let mut book = joined(&rt, rt.alloc(), &parts);
    book.extend_from_slice(LONGER).expect(&rt, "memory");
    let tables = tables_of(&rt, rt.alloc(), A_AT_100, b"");
    let network = network_of(&rt, rt.alloc(), &book, &tables);
    let mut refusals = 0u32;
    for refused in 0..200u32 {
        if settle_twice(&rt, rt.alloc(), &network, u128::from(refused)) {
            refusals = refusals.wrapping_add(1);
        }
    }
    assert!(rt; 46 <= refusals && refusals < 200, "{refusals}");
}

/// Calls, cycles and steps are counted on from the most that a settling may start with.
#[test]
fn the_largest_counts_are_counted_on(rt: HostRuntime) {
    let book = joined(&rt, rt.alloc(), &[SETUP, SIGHT, LONGER]);
    let tables = tables_of(&rt, rt.alloc(), A_AT_100, b"");
    let network = network_of(&rt, rt.alloc(), &book, &tables);
    let mut search = RefusingSearch {
        refused: 0,
        counts: SearchCounts {
            calls: CALLS_BEFORE,
            refusals: 0,
            cycles: CALLS_BEFORE,
            last: None,
        },
    };
    let mut steps = Steps::after(CALLS_BEFORE);
    let settled = settle(rt.alloc(), &network, &mut search, &mut steps).expect(&rt, "memory");
    assert!(rt; CALLS_BEFORE < steps.count());
    assert!(rt; are_counted(&search.counts, steps.count(), CALLS_BEFORE, CALLS_BEFORE));
    assert_eq!(rt; settled.flows.as_slice(), [-1i64, 1].as_slice());
}
