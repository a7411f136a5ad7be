//! What is left where a number is freed, and what is proposed. Costs were made by adjusting books that
//! were changed by hand.
use crate::finding::explained;
use std::alloc::Global;
use std::process::Abort;
use th_book::read_book;
use th_explain::{Freed, Number};
use th_network::Network;
use th_reliability::Sights;
use th_tables::{read_benchmarks, read_weights};

/// A morning on a building site. The instrument height of KO1 in line 2 was 1.545 m, and 1.645 m was
/// keyed in. So lines 8 and 15 are marked, both of which are right.
const BUILDING_SITE: &[u8] = b"410001+00000007 42....+000SITE4
110002+00000KO1 84..10+00000000 87..10+00001500 88..10+00001645
110003+0000BM12 31..00+00027472 33..10+00001227
110004+00000KO2 31..00+00053041 33..10+00002750
110005+00000KO3 31..00+00041877 33..10+00001498
110006+000000D1 31..00+00022204 33..10+00000573
110007+00000KO2 84..10+00000000 87..10+00001500 88..10+00001580
110008+00000KO1 31..00+00053040 33..10-00002876
110009+0000BM12 31..00+00038811 33..10-00001602
110010+00000KO3 31..00+00030112 33..10-00001331
110011+000000D1 31..00+00040120 33..10-00001257 87..10+00002500
110012+00000KO3 84..10+00000000 87..10+00001500 88..10+00001602
110013+00000KO2 31..00+00030113 33..10+00001150
110014+000000D1 31..00+00018554 33..10-00001027
110015+00000KO1 31..00+00041877 33..10-00001646
";

/// Its benchmark.
const MARKS: &[u8] = b"point,height\nBM12,251.384\n";

/// 20 mm.
const LIMIT: u64 = 2_000_000;

/// Lines of the book, from the first to the last.
fn lines(first: u32, last: u32) -> Sights {
    Sights {
        book: 1,
        first,
        last,
    }
}

/// A number changed by one value alone leaves so much.
fn only(left: u128, change: i64) -> Option<Freed> {
    Some(Freed {
        left,
        low: change,
        high: change,
    })
}

/// What a number of the building site explains.
fn explained_here(rt: &impl Abort, alloc: Global, number: &Number, limit: u64) -> Option<Freed> {
    let benchmarks = read_benchmarks(alloc, MARKS).expect(rt, "benchmarks");
    let weights = read_weights(alloc, b"").expect(rt, "weights");
    let observations = read_book(alloc, 1, BUILDING_SITE).expect(rt, "a book");
    let network = Network::build(alloc, observations, &benchmarks, &weights).expect(
        rt,
        "a network",
    );
    let found = explained(rt, alloc, &network, &[*number], limit, None);
    match found.first() {
        Some(own) => *own,
        None => None,
    }
}

#[test]
fn wrong_instrument_height(rt: HostRuntime) {
    let alloc = rt.alloc();
    let instrument = Number::Added(lines(2, 6));
    let reflector = Number::Subtracted(lines(2, 6));
    assert!(rt; explained_here(&rt, alloc, &instrument, LIMIT) == only(200_000, -9_900_000));
    assert!(rt; explained_here(&rt, alloc, &reflector, LIMIT) == only(200_000, 9_900_000));
}

#[test]
fn marked_sights(rt: HostRuntime) {
    let alloc = rt.alloc();
    let eighth = Number::Added(lines(8, 8));
    let fifteenth = Number::Added(lines(15, 15));
    assert!(rt; explained_here(&rt, alloc, &eighth, LIMIT) == only(10_100_000, -9_900_000));
    assert!(rt; explained_here(&rt, alloc, &fifteenth, LIMIT) == only(10_100_000, -9_900_000));
}

#[test]
fn other_numbers(rt: HostRuntime) {
    let alloc = rt.alloc();
    let sight = Number::Added(lines(3, 3));
    let other = Number::Added(lines(7, 11));
    assert!(rt; explained_here(&rt, alloc, &sight, LIMIT).is_none());
    assert!(rt; explained_here(&rt, alloc, &other, LIMIT).is_none());
}

#[test]
fn limits(rt: HostRuntime) {
    let alloc = rt.alloc();
    let instrument = Number::Added(lines(2, 6));
    assert!(rt; explained_here(&rt, alloc, &instrument, 9_899_999) == only(200_000, -9_900_000));
    assert!(rt; explained_here(&rt, alloc, &instrument, 9_900_000).is_none());
}
