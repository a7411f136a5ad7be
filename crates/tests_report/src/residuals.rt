//! Residuals, blunders, opposites and costs, against worked values and over a large network.
ghost use Rattle.std.specs.Prelude.{◌<◌, All, unsigned_abs};
ghost use Rattle.th_blunders.specs.Residuals.{residual_limit};

use crate::networks::{
    AT_A, THERE_AND_BACK, THREE_SIGHTS, heights_at, long_book, network_of, observations_of,
    tables_of,
};
use std::alloc::Global;
use std::process::Abort;
use th_blunders::{Opposite, blunders, cost, opposites, residuals};
use th_network::MAX_OBSERVATIONS;

/// A sight to B twice, one back to A, and one to B again.
const TWICE_AND_BACK: &[u8] = b"110001+0000000A 84..10+00000000 88..10+00001500
110002+0000000B 33..00+00002345 87..10+00001300
110003+0000000B 33..00+00002345 87..10+00001300
110004+0000000B 84..10+00000000 88..10+00001450
110005+0000000A 33..00-00002705 87..10+00001300
110006+0000000A 84..10+00000000 88..10+00001500
110007+0000000B 33..00+00002345 87..10+00001300
";

/// From A to B and C, and from B to C and twice to A.
const THREE_POINTS: &[u8] = b"110001+0000000A 84..10+00000000 88..10+00001500
110002+0000000B 33..00+00002345 87..10+00001300
110003+0000000C 33..00+00002345
110004+0000000B 84..10+00000000 88..10+00001450
110005+0000000C 33..00+00002345 87..10+00001300
110006+0000000A 33..00-00002705
110007+0000000A 33..00-00002705
";

/// The residuals of a book's observations at some heights, in the network in which A is 100 m high.
fn residuals_at(rt: &impl Abort, alloc: Global, book: &[u8], units: &[i64]) -> Vec<i64>
    ensures { All (λ residual. unsigned_abs residual < residual_limit) result.items }
{
    let tables = tables_of(rt, alloc, AT_A, b"");
    let network = network_of(rt, alloc, book, &tables);
    let heights = heights_at(rt, alloc, &network, units);
    residuals(alloc, &network, &heights).expect(rt, "memory")
}

/// A book, heights in the order of its points, and the residuals that they leave, in units of 10 nm.
type Left = (&'static [u8], &'static [i64], &'static [i64]);

const LEFT: [Left; 3] = [
    (
        THREE_SIGHTS,
        &[10_000_000_000, 10_254_600_000],
        &[-100_000, 0, 99_900_000],
    ),
    (
        THERE_AND_BACK,
        &[10_000_000_000, 10_254_500_000],
        &[0, -1_000_000],
    ),
    (b"", &[10_000_000_000], &[]),
];

#[test]
fn residuals_of_books(rt: HostRuntime) {
    for (book, heights, wanted) in &LEFT {
        let found = residuals_at(&rt, rt.alloc(), book, heights);
        assert!(rt; found.as_slice() == *wanted);
    }
}

/// A limit in units of 10 nm, and the numbers of the blunders among the residuals of three sights.
const ABOVE: [(i64, &[u32]); 4] = [
    (99_900_000, &[]),
    (99_899_900, &[3]),
    (0, &[1, 3]),
    (-1, &[1, 2, 3]),
];

#[test]
fn residuals_above_a_limit(rt: HostRuntime) {
    for (limit, wanted) in &ABOVE {
        let found = blunders(rt.alloc(), &[-100_000, 0, 99_900_000], *limit).expect(&rt, "memory");
        assert!(rt; found.as_slice() == *wanted);
    }
}

/// A book, and the opposites among its observations.
type Pairing = (&'static [u8], &'static [Opposite]);

const PAIRINGS: [Pairing; 5] = [
    (
        THERE_AND_BACK,
        &[Opposite {
            number: 2,
            earlier: 1,
            sum: -1_000_000,
        }],
    ),
    (
        TWICE_AND_BACK,
        &[
            Opposite {
                number: 3,
                earlier: 2,
                sum: -1_000_000,
            },
            Opposite {
                number: 4,
                earlier: 3,
                sum: -1_000_000,
            },
        ],
    ),
    (
        THREE_POINTS,
        &[
            Opposite {
                number: 4,
                earlier: 1,
                sum: -1_000_000,
            },
            Opposite {
                number: 5,
                earlier: 1,
                sum: -1_000_000,
            },
        ],
    ),
    (THREE_SIGHTS, &[]),
    (b"", &[]),
];

fn opposites_are(rt: &impl Abort, alloc: Global, book: &[u8], wanted: &[Opposite]) {
    let observations = observations_of(rt, alloc, book);
    assert!(rt; observations.len() <= MAX_OBSERVATIONS);
    let found = opposites(alloc, &observations).expect(rt, "memory");
    assert!(rt; found.as_slice() == wanted);
}

#[test]
fn observed_there_and_back(rt: HostRuntime) {
    for (book, wanted) in &PAIRINGS {
        opposites_are(&rt, rt.alloc(), book, wanted);
    }
}

#[test]
fn opposites_of_a_large_network(rt: HostRuntime) {
    let book = long_book(&rt, rt.alloc());
    let observations = observations_of(&rt, rt.alloc(), &book);
    assert_eq!(rt; observations.len(), 40_000);
    let found = opposites(rt.alloc(), &observations).expect(&rt, "memory");
    assert_eq!(rt; found.len(), 39_999);
}

#[test]
fn residuals_of_a_large_network(rt: HostRuntime) {
    let book = long_book(&rt, rt.alloc());
    let found = residuals_at(&rt, rt.alloc(), &book, &[10_000_000_000, 10_254_500_000]);
    assert_eq!(rt; found.len(), 40_000);
    let above = blunders(rt.alloc(), &found, 0).expect(&rt, "memory");
    assert_eq!(rt; above.len(), 20_000);
}

/// A book, a table of weights, residuals in the order of the observations, and what they cost.
type Cost = (&'static [u8], &'static [u8], &'static [i64], u128);

const COSTS: [Cost; 4] = [
    (THREE_SIGHTS, b"", &[-100_000, 0, 99_900_000], 100_000_000),
    (
        THERE_AND_BACK,
        b"from,to,weight\nA,B,3\n",
        &[0, -1_000_000],
        1_000_000,
    ),
    (
        THERE_AND_BACK,
        b"from,to,weight\nA,B,3\nB,A,1000\n",
        &[2, -1_000_000],
        1_000_000_006,
    ),
    (b"", b"", &[], 0),
];

/// Residuals that are small.
fn residuals_of(rt: &impl Abort, alloc: Global, units: &[i64]) -> Vec<i64>
    ensures { All (λ residual. unsigned_abs residual < residual_limit) result.items }
{
    let mut residuals = Vec::new(alloc);
    for residual in units {
        assert!(rt; residual.unsigned_abs() < 1_000_000_000_000_000_000);
        residuals.push(*residual).expect(rt, "memory");
    }
    residuals
}

fn residuals_cost(rt: &impl Abort, alloc: Global, row: &Cost) {
    let (book, weights, units, wanted) = *row;
    let tables = tables_of(rt, alloc, AT_A, weights);
    let network = network_of(rt, alloc, book, &tables);
    let residuals = residuals_of(rt, alloc, units);
    assert_eq!(rt; residuals.len(), network.observations().len());
    assert_eq!(rt; cost(&network, &residuals), wanted);
}

#[test]
fn costs_of_residuals(rt: HostRuntime) {
    for row in &COSTS {
        residuals_cost(&rt, rt.alloc(), row);
    }
}
