//! How high the points of small networks are above each of them.
use std::alloc::Global;
use std::process::Abort;
use th_book::read_book;
use th_circulation::best_heights;
use th_names::rises_from;
use th_network::Network;
use th_tables::{Benchmarks, Weights, read_benchmarks, read_weights};

/// Tables of benchmarks and of weights, and for each point as the first one the least and the greatest heights of all
/// points above it, in units of 10 nm.
type Row = (
    &'static [u8],
    &'static [u8],
    &'static [&'static [(i64, i64)]],
);

/// Two sights from A to B, which differ by 2 mm, and one on from B to C.
const BOOK: &[u8] =
    b"110001+0000000A 84..10+00000000 88..10+00001500 \n110002+0000000B 33..00+00002345 87..10+00001300 \n110003+0000000B 33..00+00002347 87..10+00001300 \n110004+0000000B 84..10+00000000 88..10+00001500 \n110005+0000000C 33..00+00001000 87..10+00001500 \n";

const ROWS: [Row; 3] = [
    // C moves with B: it is 1 m above B in all best heights, though each of the two may be 2 mm higher.
    (
        b"point,height\nA,100\n",
        b"",
        &[
            &[
                (0, 0),
                (254_500_000, 254_700_000),
                (354_500_000, 354_700_000),
            ],
            &[
                (-254_700_000, -254_500_000),
                (0, 0),
                (100_000_000, 100_000_000),
            ],
            &[
                (-354_700_000, -354_500_000),
                (-100_000_000, -100_000_000),
                (0, 0),
            ],
        ],
    ),
    // Between two benchmarks B is where two of three sights lead.
    (
        b"point,height\nA,100\nC,103.6\n",
        b"",
        &[
            &[
                (0, 0),
                (254_700_000, 254_700_000),
                (360_000_000, 360_000_000),
            ],
            &[
                (-254_700_000, -254_700_000),
                (0, 0),
                (105_300_000, 105_300_000),
            ],
            &[
                (-360_000_000, -360_000_000),
                (-105_300_000, -105_300_000),
                (0, 0),
            ],
        ],
    ),
    // A heavy sight from B to C weighs as much as both others: B is anywhere between.
    (
        b"point,height\nA,100\nC,103.6\n",
        b"from,to,weight\nB,C,2\n",
        &[
            &[
                (0, 0),
                (254_700_000, 260_000_000),
                (360_000_000, 360_000_000),
            ],
            &[
                (-260_000_000, -254_700_000),
                (0, 0),
                (100_000_000, 105_300_000),
            ],
            &[
                (-360_000_000, -360_000_000),
                (-105_300_000, -100_000_000),
                (0, 0),
            ],
        ],
    ),
];

#[test]
fn points_are_so_high_above_each_other(rt: HostRuntime) {
    for (benchmarks, weights, wanted) in &ROWS {
        try_row(&rt, rt.alloc(), benchmarks, weights, wanted);
    }
}

/// Tries each point of a network as the one from which heights are counted.
fn try_row(
    rt: &impl Abort,
    alloc: Global,
    benchmarks: &[u8],
    weights: &[u8],
    wanted: &[&[(i64, i64)]],
) {
    let benchmarks = read_benchmarks(alloc, benchmarks).expect(rt, "benchmarks");
    let weights = read_weights(alloc, weights).expect(rt, "weights");
    let network = network_of(rt, alloc, &benchmarks, &weights);
    for (place, rows) in wanted.iter().enumerate() {
        try_place(rt, alloc, &network, place, rows);
    }
}

/// The network of the book.
fn network_of<'a>(
    rt: &impl Abort,
    alloc: Global,
    benchmarks: &'a Benchmarks,
    weights: &'a Weights,
) -> Network<'a> {
    let observations = read_book(alloc, 1, BOOK).expect(rt, "observations");
    Network::build(alloc, observations, benchmarks, weights).expect(rt, "a network")
}

/// Tries how high the points are above the one at a place.
fn try_place(
    rt: &impl Abort,
    alloc: Global,
    network: &Network,
    place: usize,
    wanted: &[(i64, i64)],
) {
    assert!(rt; place < network.points().len());
    let best = best_heights(alloc, network).expect(rt, "memory");
    let rises = rises_from(alloc, network, &best, place).expect(rt, "memory");
    assert_eq!(rt; rises.low.len(), wanted.len());
    assert_eq!(rt; rises.high.len(), wanted.len());
    for (k, (low, high)) in wanted.iter().enumerate() {
        assert!(rt; k < rises.low.len() && k < rises.high.len());
        assert_eq!(rt;
            rises.low[k],
            *low,
            "the least height of point {k} above point {place}"
        );
        assert_eq!(rt;
            rises.high[k],
            *high,
            "the greatest height of point {k} above point {place}"
        );
    }
}
