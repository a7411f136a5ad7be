//! What wrong heights of benchmarks do, against least differences counted over all sets of points.
use crate::entries::{Moved, Order, is_one_of};
use crate::networks::{
    ALONE, BENCHMARKS_ALONE, BETWEEN_BENCHMARKS, BUILDING_SITE, DAM, NOTHING, RAILWAY_LINE,
    THERE_AND_BACK, Worked, network_of, observations_of, tables_of,
};
use std::alloc::Global;
use std::process::Abort;
use th_reliability::{BenchmarkEffect, SharedMistake, benchmark_mistakes};

/// How many observations have an end at a benchmark, their weight, the benchmark's strength, what a wrong
/// height does, and what the least sets would move: one of them comes out.
pub(crate) type Row = (
    usize,
    u32,
    Option<u32>,
    Option<SharedMistake>,
    &'static [Moved],
);

/// A benchmark that two others outweigh, and one that two others equal.
const ONE_POINT: Worked = (
    &[
        b"110001+0000000P 84..10+00000000 87..10+00001200 88..10+00001500 \n",
        b"110002+0000000A 33..10-00002345 \n",
        b"110003+0000000B 33..10-00002345 \n",
        b"110004+0000000C 33..10-00002345 \n",
    ],
    b"point,height\nC,3\nB,2\nA,1\n",
    b"from,to,weight\nP,C,2\n",
    &[],
    &[],
);

/// Networks, and a row for each benchmark, in the order of their table. The values are those of the least
/// difference over all sets of points, counted one by one.
const ROWS: [(Worked, &[Row]); 9] = [
    (NOTHING, &[]),
    (ALONE, &[(0, 0, None, None, &[])]),
    (
        BENCHMARKS_ALONE,
        &[
            (2, 2, Some(2), Some(SharedMistake::Shows), &[]),
            (2, 2, Some(2), Some(SharedMistake::Shows), &[]),
            (0, 0, Some(0), None, &[]),
        ],
    ),
    (
        BUILDING_SITE,
        &[(2, 2, None, Some(SharedMistake::Unchecked), &[(4, 0, None)])],
    ),
    (
        THERE_AND_BACK,
        &[(2, 4, None, Some(SharedMistake::Unchecked), &[(1, 0, None)])],
    ),
    (
        BETWEEN_BENCHMARKS,
        &[
            (2, 2, Some(1), Some(SharedMistake::Drags), &[(1, 0, None)]),
            (1, 1, Some(1), Some(SharedMistake::Shows), &[]),
        ],
    ),
    (
        DAM,
        &[
            (
                2,
                5,
                Some(3),
                Some(SharedMistake::Drags),
                &[(5, 2, Some(6))],
            ),
            (2, 3, Some(3), Some(SharedMistake::Shows), &[]),
        ],
    ),
    (
        RAILWAY_LINE,
        &[
            (
                2,
                2,
                Some(2),
                Some(SharedMistake::Ties),
                &[(1, 2, Some(2)), (2, 2, Some(3)), (3, 2, Some(4))],
            ),
            (
                2,
                2,
                Some(2),
                Some(SharedMistake::Ties),
                &[(1, 2, Some(3)), (2, 2, Some(2)), (3, 2, Some(1))],
            ),
        ],
    ),
    (
        ONE_POINT,
        &[
            (1, 2, Some(2), Some(SharedMistake::Ties), &[(1, 2, Some(1))]),
            (1, 1, Some(1), Some(SharedMistake::Shows), &[]),
            (1, 1, Some(1), Some(SharedMistake::Shows), &[]),
        ],
    ),
];

#[test]
fn wrong_heights_of_benchmarks_are_told_by_cuts(rt: HostRuntime) {
    for (network, rows) in &ROWS {
        try_network(&rt, rt.alloc(), network, rows);
    }
}

/// Tries each benchmark of a network.
fn try_network(rt: &impl Abort, alloc: Global, network: &Worked, rows: &[Row]) {
    let (lines, benchmarks, weights, _, _) = *network;
    let tables = tables_of(rt, alloc, benchmarks, weights);
    let network = network_of(rt, alloc, observations_of(rt, alloc, lines), &tables);
    let found = benchmark_mistakes(alloc, &network).expect(rt, "memory");
    has_effects(rt, &found, rows);
}

/// Compares what wrong heights of the benchmarks do with their rows.
pub(crate) fn has_effects(rt: &impl Abort, found: &[BenchmarkEffect], rows: &[Row]) {
    assert_eq!(rt; found.len(), rows.len());
    for (k, row) in rows.iter().enumerate() {
        assert!(rt; k < found.len());
        assert!(rt; is_row(&found[k], row), "benchmark {k}");
    }
}

/// Whether an effect is what a row allows.
fn is_row(found: &BenchmarkEffect, row: &Row) -> bool {
    let (sights, weight, strength, mistake, allowed) = *row;
    found.sights == sights
        && found.weight == weight
        && found.strength == strength
        && is_mistake(found, mistake, allowed)
}

/// Whether a wrong height does this, and what it moves is allowed.
fn is_mistake(found: &BenchmarkEffect, mistake: Option<SharedMistake>, allowed: &[Moved]) -> bool {
    match (found.effect, mistake) {
        (Some(effect), Some(wanted)) => {
            effect.mistake == wanted && is_one_of(effect.blame, allowed, Order::Lines)
        }
        (found, wanted) => found.is_none() && wanted.is_none(),
    }
}
