//! Books and tables, and the networks and heights that the tests make of them.
ghost use Rattle.std.specs.Prelude.{◌<◌, All, unsigned_abs};
ghost use Rattle.th_network.specs.Limits.{height_limit};
ghost use Rattle.th_network.specs.Networks.{AreAtPoints};

use std::alloc::Global;
use std::process::Abort;
use th_book::read_book;
use th_network::Network;
use th_observations::Observation;
use th_tables::{Benchmarks, Weights, read_benchmarks, read_weights};

/// A setup at A, a sight to B, and two more, which are 1 mm and 1 m off.
pub const THREE_SIGHTS: &[u8] = b"110001+0000000A 84..10+00000000 88..10+00001500
110002+0000000B 33..00+00002345 87..10+00001300
110003+0000000B 33..00+00002346
110004+0000000B 33..00+00003345
";

/// A setup at A, a sight to B, a setup at B, and a sight back to A, which is 10 mm off.
pub const THERE_AND_BACK: &[u8] = b"110001+0000000A 84..10+00000000 88..10+00001500
110002+0000000B 33..00+00002345 87..10+00001300
110003+0000000B 84..10+00000000 88..10+00001450
110004+0000000A 33..00-00002705 87..10+00001300
";

/// The benchmark A, 100 m high.
pub const AT_A: &[u8] = b"point,height\nA,100\n";

/// The tables of a network.
#[derive(Drop)]
pub struct Tables {
    pub benchmarks: Benchmarks,
    pub weights: Weights,
}

/// The tables that two texts say.
pub fn tables_of(rt: &impl Abort, alloc: Global, benchmarks: &[u8], weights: &[u8]) -> Tables {
    Tables {
        benchmarks: read_benchmarks(alloc, benchmarks).expect(rt, "benchmarks"),
        weights: read_weights(alloc, weights).expect(rt, "weights"),
    }
}

/// The observations of a book without faults.
pub fn observations_of(rt: &impl Abort, alloc: Global, book: &[u8]) -> Vec<Observation> {
    read_book(alloc, 1, book).expect(rt, "a book")
}

/// The network of a book over its tables.
pub fn network_of<'a>(
    rt: &impl Abort,
    alloc: Global,
    book: &[u8],
    tables: &'a Tables,
) -> Network<'a> {
    let observations = observations_of(rt, alloc, book);
    Network::build(alloc, observations, &tables.benchmarks, &tables.weights).expect(rt, "a network")
}

/// Heights that are in range.
fn heights_of(rt: &impl Abort, alloc: Global, units: &[i64]) -> Vec<i64>
    ensures { All (λ height. unsigned_abs height < height_limit) result.items }
{
    let mut heights = Vec::new(alloc);
    for height in units {
        assert!(rt; height.unsigned_abs() < 100_000_000_000_000_000);
        heights.push(*height).expect(rt, "memory");
    }
    heights
}

/// Heights at the points of a network.
pub fn heights_at(rt: &impl Abort, alloc: Global, network: &Network, units: &[i64]) -> Vec<i64>
    ensures { AreAtPoints network.now result.items }
{
    let heights = heights_of(rt, alloc, units);
    assert_eq!(rt; heights.len(), network.points().len());
    heights
}

/// As many observations as a network takes, there and back between A and B: each but the first goes
/// back over the one before it.
pub fn long_book(rt: &impl Abort, alloc: Global) -> Vec<u8> {
    let mut bytes = Vec::new(alloc);
    for _turn in 0..20_000 {
        bytes.extend_from_slice(THERE_AND_BACK).expect(rt, "memory");
    }
    bytes
}
