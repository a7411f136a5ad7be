//! Maps, tables, points and networks under several seeds of their hashes: the answers are the same, and
//! faults name the same record.
use gsi_word::{Name, name_of};
use std::alloc::Global;
use std::process::Abort;
use th_book::read_book;
use th_hash::{HashSeed, NameMap, NameSet, insert_stated, reseed_set};
use th_network::Network;
use th_observations::Observation;
use th_points::Points;
use th_tables::{Benchmarks, TableFault, TableKind, Weights, read_benchmarks, read_weights};

/// Contents, each of which gives another seed.
const CONTENTS: [&[u8]; 4] = [b"", b"A\n", b"A\nB\n", b"point,height\nA,1\n"];

/// How many line feeds end a table. They say nothing, but are part of the content that gives the seed.
const LINE_FEEDS: [usize; 4] = [0, 1, 2, 1_000];

/// How many names there are in a map or a table: more than are hashed without a seed.
const MANY: u32 = 5_000;

/// The same of pairs of names.
const MANY_PAIRS: u32 = 40_010;

/// The name of a number's digits.
fn numbered(rt: &impl Abort, alloc: Global, number: u32) -> Name {
    let digits = format!(in alloc; "{number}").expect(rt, "memory");
    name_of(digits.as_bytes()).expect(rt, "a name")
}

/// A table of a header and some rows: the digits of the numbers from 1, each with this end.
fn table_of(rt: &impl Abort, alloc: Global, header: &[u8], rows: u32, end: &str) -> Vec<u8> {
    let mut table = header.to_vec(alloc).expect(rt, "memory");
    for number in 1..=rows {
        let row = format!(in alloc; "{number}{end}").expect(rt, "memory");
        table.extend_from_slice(row.as_bytes()).expect(rt, "memory");
    }
    table
}

/// A table with further bytes and then so many line feeds.
fn ended(rt: &impl Abort, alloc: Global, table: &[u8], last: &[u8], line_feeds: usize) -> Vec<u8> {
    let mut all = table.to_vec(alloc).expect(rt, "memory");
    all.extend_from_slice(last).expect(rt, "memory");
    for _more in 0..line_feeds {
        all.push(b'\n').expect(rt, "memory");
    }
    all
}

/// Looks at a map with the names of the numbers below `MANY`, each with the value that it got last.
fn has_all(rt: &impl Abort, alloc: Global, map: &NameMap<Name, u32>) {
    assert_eq!(rt; map.len(), MANY as usize);
    for number in 0..MANY {
        let name = numbered(rt, alloc, number);
        let wanted = if number < 1_000 {
            MANY + number
        } else {
            number
        };
        assert_eq!(rt; map.get(&name).copied(), Some(wanted), "{number}");
        assert_eq!(rt; map.get_index_of(&name), Some(number as usize), "{number}");
    }
    let other = numbered(rt, alloc, MANY);
    assert!(rt; !map.contains_key(&other));
}

/// The value that a name has in such a map before it gets this one.
fn value_before(value: u32) -> Option<u32> {
    if value < MANY {
        None
    } else {
        Some(value - MANY)
    }
}

#[test]
fn maps_answer_the_same_under_each_seed(rt: HostRuntime) {
    let mut seeds = vec![in rt.alloc(); HashSeed::none()].expect(&rt, "memory");
    for content in CONTENTS {
        seeds.push(HashSeed::of(content)).expect(&rt, "memory");
    }
    for seed in seeds.iter() {
        let mut map = NameMap::with_hasher(rt.alloc(), *seed);
        for value in 0..MANY + 1_000 {
            let name = numbered(&rt, rt.alloc(), value % MANY);
            let old = map.insert(name, value).expect(&rt, "memory");
            assert_eq!(rt; old, value_before(value), "{value}");
        }
        has_all(&rt, rt.alloc(), &map);
    }
}

/// A map that gets its seed with its first entry, with its last one, or between them.
#[test]
fn maps_answer_the_same_after_they_get_a_seed(rt: HostRuntime) {
    for content in CONTENTS {
        for few in [0, 1, 4_096, 4_999, 5_000] {
            let mut map = NameMap::with_hasher(rt.alloc(), HashSeed::none());
            for value in 0..MANY + 1_000 {
                let name = numbered(&rt, rt.alloc(), value % MANY);
                let old = insert_stated(rt.alloc(), content, few, &mut map, name, value).expect(
                    &rt, "memory",
                );
                assert_eq!(rt; old, value_before(value), "{value}");
            }
            has_all(&rt, rt.alloc(), &map);
        }
    }
}

#[test]
fn sets_answer_the_same_after_they_get_a_seed(rt: HostRuntime) {
    for content in CONTENTS {
        let mut set = NameSet::with_hasher(rt.alloc(), HashSeed::none());
        for number in 0..MANY {
            let name = numbered(&rt, rt.alloc(), number);
            assert!(rt; set.insert(name).expect(&rt, "memory"));
        }
        reseed_set(rt.alloc(), &mut set, HashSeed::of(content)).expect(&rt, "memory");
        for number in 0..MANY {
            let name = numbered(&rt, rt.alloc(), number);
            assert_eq!(rt; set.get_index_of(&name), Some(number as usize));
        }
    }
}

/// Looks at a table of benchmarks, in which each name has its number as its height in metres.
fn are_benchmarks(rt: &impl Abort, alloc: Global, benchmarks: &Benchmarks) {
    assert_eq!(rt; benchmarks.len(), MANY as usize);
    for number in 1..=MANY {
        let name = numbered(rt, alloc, number);
        let place = number as usize - 1;
        assert_eq!(rt; benchmarks.height_of(&name), Some(100_000_000), "{number}");
        assert_eq!(rt;
            benchmarks.entry(place),
            Some((name, 100_000_000)),
            "{number}"
        );
    }
}

#[test]
fn benchmarks_are_the_same_under_each_seed(rt: HostRuntime) {
    let table = table_of(&rt, rt.alloc(), b"point,height\n", MANY, ",1\n");
    for line_feeds in LINE_FEEDS {
        let content = ended(&rt, rt.alloc(), &table, b"", line_feeds);
        let benchmarks = read_benchmarks(rt.alloc(), &content).expect(&rt, "benchmarks");
        are_benchmarks(&rt, rt.alloc(), &benchmarks);
    }
}

/// Rows that have no place behind the names of a table, as their names are there or are none.
const BAD_BENCHMARKS: [(&[u8], TableKind); 4] = [
    (b"1,2\n", TableKind::Repeated),
    (b"4097,2\n", TableKind::Repeated),
    (b"5000,2\n", TableKind::Repeated),
    (b"5000,x\n", TableKind::BadHeight),
];

#[test]
fn faults_of_benchmarks_are_the_same_under_each_seed(rt: HostRuntime) {
    let table = table_of(&rt, rt.alloc(), b"point,height\n", MANY, ",1\n");
    for line_feeds in LINE_FEEDS {
        for (row, kind) in BAD_BENCHMARKS {
            let content = ended(&rt, rt.alloc(), &table, row, line_feeds);
            let wanted = TableFault { row: 5_002, kind };
            assert_eq!(rt; read_benchmarks(rt.alloc(), &content).err(), Some(wanted));
        }
    }
}

/// A book with a setup at 1 and sights to 2, 3 and X.
const BOOK: &[u8] =
    b"110001+00000001 84..10+00000000 88..10+00001500 87..10+00001300 \n110002+00000002 33..00+00002345 \n110003+00000003 33..00+00002345 \n110004+0000000X 33..00+00002345 \n";

/// The observations of a book.
fn observations_of(rt: &impl Abort, alloc: Global, book: &[u8]) -> Vec<Observation> {
    read_book(alloc, 1, book).expect(rt, "a book")
}

/// Looks at the weights of the sights of the book: X is in no row of the table.
fn are_weighted(rt: &impl Abort, alloc: Global, weights: &Weights) {
    let benchmarks = read_benchmarks(alloc, b"point,height\n1,100\n").expect(rt, "benchmarks");
    let observations = observations_of(rt, alloc, BOOK);
    let network = Network::build(alloc, observations, &benchmarks, weights).expect(rt, "a network");
    assert_eq!(rt; network.observations().len(), 3);
    assert_eq!(rt; network.weight(0), 7);
    assert_eq!(rt; network.weight(1), 7);
    assert_eq!(rt; network.weight(2), 1);
}

/// How many line feeds end a table of weights, and a row whose pair is there.
const REPEATED_PAIRS: [(usize, &[u8]); 3] = [
    (0, b"1,1,3\n"),
    (1, b"1,40001,3\n"),
    (1_000, b"1,40010,3\n"),
];

#[test]
fn weights_are_the_same_under_each_seed(rt: HostRuntime) {
    let mut table = b"from,to,weight\n".to_vec(rt.alloc()).expect(&rt, "memory");
    for number in 1..=MANY_PAIRS {
        let row = format!(in rt.alloc(); "1,{number},7\n").expect(&rt, "memory");
        table
            .extend_from_slice(row.as_bytes())
            .expect(&rt, "memory");
    }
    for (line_feeds, row) in REPEATED_PAIRS {
        let content = ended(&rt, rt.alloc(), &table, b"", line_feeds);
        let weights = read_weights(rt.alloc(), &content).expect(&rt, "weights");
        assert_eq!(rt; weights.len(), MANY_PAIRS as usize);
        are_weighted(&rt, rt.alloc(), &weights);
        let content = ended(&rt, rt.alloc(), &table, row, line_feeds);
        let wanted = TableFault {
            row: 40_012,
            kind: TableKind::Repeated,
        };
        assert_eq!(rt; read_weights(rt.alloc(), &content).err(), Some(wanted));
    }
}

/// Points whose names are many, and one more benchmark or none: all names give the seed.
#[test]
fn points_are_the_same_under_each_seed(rt: HostRuntime) {
    let table = table_of(&rt, rt.alloc(), b"point,height\n", MANY, ",1\n");
    let observations = observations_of(&rt, rt.alloc(), BOOK);
    for (last, more) in [(&b""[..], 0), (b"Y,1\n", 1), (b"Z,1\n", 1)] {
        let content = ended(&rt, rt.alloc(), &table, last, 0);
        let benchmarks = read_benchmarks(rt.alloc(), &content).expect(&rt, "benchmarks");
        let points = Points::of(rt.alloc(), &observations, &benchmarks).expect(&rt, "memory");
        assert_eq!(rt; points.ends.as_slice(), [(0, 1), (0, 2), (0, 3)].as_slice());
        assert_eq!(rt; points.names.len(), 5_001 + more);
        for number in 4..=MANY {
            let name = numbered(&rt, rt.alloc(), number);
            assert_eq!(rt; points.names.get_index_of(&name), Some(number as usize));
        }
    }
}
