//! Parts of worked books, a table of benchmarks, and the network that a book and tables give.
use std::alloc::Global;
use std::process::Abort;
use th_book::read_book;
use th_network::Network;
use th_tables::{Benchmarks, Weights, read_benchmarks, read_weights};

/// A book in parts, and the tables of its benchmarks and its weights.
#[derive(Drop)]
pub struct Survey {
    pub book: &'static [&'static [u8]],
    pub benchmarks: &'static [u8],
    pub weights: &'static [u8],
}

/// The benchmark A at 100 m.
pub const A_AT_100: &[u8] = b"point,height\nA,100\n";

/// A setup at A.
pub const SETUP: &[u8] =
    b"110001+0000000A 84..10+00000000 85..10+00000000 86..10+00100000 88..10+00001500 \n";

/// A sight of B, which is 2.545 m above A.
pub const SIGHT: &[u8] = b"110002+0000000B 33..00+00002345 87..10+00001300 \n";

/// A sight of B that is 2 mm longer.
pub const LONGER: &[u8] = b"110003+0000000B 33..00+00002347 87..10+00001300 \n";

/// A setup at B, and the longer sight back from it to A.
pub const BACK: &[u8] =
    b"110003+0000000B 84..10+00000000 88..10+00001450 \n110004+0000000A 33..00-00002697 87..10+00001300 \n";

/// A setup at B, and a sight from it to C, which is 1 m higher.
pub const ONWARDS: &[u8] =
    b"110004+0000000B 84..10+00000000 88..10+00001500 \n110005+0000000C 33..00+00001000 87..10+00001500 \n";

/// The parts of a book, joined.
pub fn joined(rt: &impl Abort, alloc: Global, parts: &[&[u8]]) -> Vec<u8> {
    let mut book = Vec::new(alloc);
    for part in parts {
        book.extend_from_slice(part).expect(rt, "memory");
    }
    book
}

/// A table of benchmarks and a table of weights.
pub fn tables_of(
    rt: &impl Abort,
    alloc: Global,
    benchmarks: &[u8],
    weights: &[u8],
) -> (Benchmarks, Weights) {
    let benchmarks = read_benchmarks(alloc, benchmarks).expect(rt, "benchmarks");
    let weights = read_weights(alloc, weights).expect(rt, "weights");
    (benchmarks, weights)
}

/// The network of a book and tables.
pub fn network_of<'a>(
    rt: &impl Abort,
    alloc: Global,
    book: &[u8],
    tables: &'a (Benchmarks, Weights),
) -> Network<'a> {
    let observations = read_book(alloc, 1, book).expect(rt, "observations");
    Network::build(alloc, observations, &tables.0, &tables.1).expect(rt, "a network")
}
