//! Networks that books and tables make, against worked ones, with their faults and their limits.
use gsi_word::name_of;
use std::alloc::Global;
use std::process::Abort;
use th_book::read_book;
use th_network::{Link, NetFault, Network};
use th_observations::Observation;
use th_tables::{Benchmarks, Weights, read_benchmarks, read_weights};

/// A setup at A, and a sight from it to B.
const SETUP: &[u8] =
    b"110001+0000000A 84..10+00000000 85..10+00000000 86..10+00100000 88..10+00001500 \n";

const SIGHT: &[u8] = b"110002+0000000B 33..00+00002345 87..10+00001300 \n";

/// A further setup at B, and a sight from it back to A.
const BACK: &[u8] =
    b"110003+0000000B 84..10+00000000 88..10+00001450 \n110004+0000000A 33..00-00002705 87..10+00001300 \n";

/// A further setup at C, and a sight from it to D.
const APART: &[u8] =
    b"110003+0000000C 84..10+00000000 88..10+00001450 \n110004+0000000D 33..00-00002705 87..10+00001300 \n";

/// The parts of a book, the tables of benchmarks and weights, and what they make: the points with
/// their heights as benchmarks, the vertices, and the links with their weights.
type Made = (
    [&'static [u8]; 3],
    &'static [u8],
    &'static [u8],
    &'static [(&'static [u8], Option<i64>)],
    u32,
    &'static [(Link, u32)],
);

const MADE: [Made; 8] = [
    (
        [SETUP, SIGHT, b""],
        b"point,height\nA,100\n",
        b"",
        &[(b"A", Some(10_000_000_000)), (b"B", None)],
        2,
        &[(
            Link {
                tail: 0,
                head: 1,
                diff: 10_254_500_000,
            },
            1,
        )],
    ),
    (
        [SETUP, SIGHT, b""],
        b"point,height\nA,100\n",
        b"from,to,weight\nA,B,3\n",
        &[(b"A", Some(10_000_000_000)), (b"B", None)],
        2,
        &[(
            Link {
                tail: 0,
                head: 1,
                diff: 10_254_500_000,
            },
            3,
        )],
    ),
    (
        [SETUP, SIGHT, b""],
        b"point,height\nA,100\nB,103\n",
        b"from,to,weight\nB,A,7\n",
        &[(b"A", Some(10_000_000_000)), (b"B", Some(10_300_000_000))],
        1,
        &[(
            Link {
                tail: 0,
                head: 0,
                diff: -45_500_000,
            },
            1,
        )],
    ),
    (
        [SETUP, SIGHT, b""],
        b"point,height\nA,100\nZ,5\n",
        b"from,to,weight\nA,B,1000\n",
        &[
            (b"A", Some(10_000_000_000)),
            (b"B", None),
            (b"Z", Some(500_000_000)),
        ],
        2,
        &[(
            Link {
                tail: 0,
                head: 1,
                diff: 10_254_500_000,
            },
            1000,
        )],
    ),
    (
        [SETUP, SIGHT, BACK],
        b"point,height\nA,100\n",
        b"from,to,weight\nA,B,3\n",
        &[(b"A", Some(10_000_000_000)), (b"B", None)],
        2,
        &[
            (
                Link {
                    tail: 0,
                    head: 1,
                    diff: 10_254_500_000,
                },
                3,
            ),
            (
                Link {
                    tail: 1,
                    head: 0,
                    diff: -10_255_500_000,
                },
                1,
            ),
        ],
    ),
    (
        [SETUP, SIGHT, APART],
        b"point,height\nD,-1\nB,2.5\n",
        b"",
        &[
            (b"A", None),
            (b"B", Some(250_000_000)),
            (b"C", None),
            (b"D", Some(-100_000_000)),
        ],
        3,
        &[
            (
                Link {
                    tail: 1,
                    head: 0,
                    diff: 4_500_000,
                },
                1,
            ),
            (
                Link {
                    tail: 2,
                    head: 0,
                    diff: -155_500_000,
                },
                1,
            ),
        ],
    ),
    ([b"", b"", b""], b"point,height\n", b"", &[], 1, &[]),
    (
        [b"", b"", b""],
        b"point,height\nA,100\n",
        b"",
        &[(b"A", Some(10_000_000_000))],
        1,
        &[],
    ),
];

/// The parts of a book, the table of benchmarks, and the point that no chain ties to one of them.
type Untied = ([&'static [u8]; 3], &'static [u8], &'static [u8]);

const UNTIED: [Untied; 5] = [
    ([SETUP, SIGHT, b""], b"point,height\nZ,100\n", b"A"),
    ([SETUP, SIGHT, b""], b"point,height\n", b"A"),
    ([SETUP, SIGHT, APART], b"point,height\nA,100\n", b"C"),
    ([SETUP, SIGHT, APART], b"point,height\nB,100\n", b"C"),
    ([SETUP, SIGHT, APART], b"point,height\nD,100\n", b"A"),
];

/// Adds lines to a text so many times.
fn add(rt: &impl Abort, text: &mut Vec<u8>, lines: &[u8], times: u32) {
    for _ in 0..times {
        text.extend_from_slice(lines).expect(rt, "memory");
    }
}

/// The parts of a book, joined.
fn joined(rt: &impl Abort, alloc: Global, parts: &[&[u8]]) -> Vec<u8> {
    let mut bytes = Vec::new(alloc);
    for part in parts {
        add(rt, &mut bytes, part, 1);
    }
    bytes
}

/// The observations of a book.
fn observations_of(rt: &impl Abort, alloc: Global, book: &[u8]) -> Vec<Observation> {
    read_book(alloc, 1, book).expect(rt, "a book")
}

/// A table of benchmarks and a table of weights.
fn tables_of(
    rt: &impl Abort,
    alloc: Global,
    benchmarks: &[u8],
    weights: &[u8],
) -> (Benchmarks, Weights) {
    let benchmarks = read_benchmarks(alloc, benchmarks).expect(rt, "benchmarks");
    let weights = read_weights(alloc, weights).expect(rt, "weights");
    (benchmarks, weights)
}

/// The network of observations over tables.
fn network_of<'a>(
    rt: &impl Abort,
    alloc: Global,
    observations: Vec<Observation>,
    tables: &'a (Benchmarks, Weights),
) -> Network<'a> {
    Network::build(alloc, observations, &tables.0, &tables.1).expect(rt, "a network")
}

/// The fault of the network of a book and a table of benchmarks without weights, if it has one.
fn fault_of(rt: &impl Abort, alloc: Global, book: &[u8], benchmarks: &[u8]) -> Option<NetFault> {
    let observations = observations_of(rt, alloc, book);
    let (benchmarks, weights) = tables_of(rt, alloc, benchmarks, b"");
    Network::build(alloc, observations, &benchmarks, &weights).err()
}

/// Looks at the fault of a book and a table of benchmarks, or that there is none.
fn has_fault(
    rt: &impl Abort,
    alloc: Global,
    book: &[u8],
    benchmarks: &[u8],
    wanted: Option<NetFault>,
) {
    assert_eq!(rt; fault_of(rt, alloc, book, benchmarks), wanted);
}

/// The points of a network, and their heights as benchmarks.
fn has_points(rt: &impl Abort, network: &Network, points: &[(&'static [u8], Option<i64>)]) {
    assert_eq!(rt; network.points().len(), points.len());
    for (k, (name, height)) in points.iter().enumerate() {
        let found = network.points();
        assert!(rt; k < found.len());
        assert!(rt; found[k].as_bytes() == *name, "point {k}");
        assert!(rt; network.fixed(k) == *height, "point {k}");
    }
}

/// The links of a network, and their weights.
fn has_links(rt: &impl Abort, network: &Network, links: &[(Link, u32)]) {
    assert_eq!(rt; network.arcs().len(), links.len());
    for (found, (link, _)) in network.arcs().iter().zip(links) {
        assert!(rt; *found == *link);
    }
}

fn has_weights(rt: &impl Abort, network: &Network, links: &[(Link, u32)]) {
    assert_eq!(rt; network.observations().len(), links.len());
    for (i, (_, weight)) in links.iter().enumerate() {
        assert!(rt; i < network.observations().len());
        assert_eq!(rt; network.weight(i), *weight, "link {i}");
    }
}

fn makes(rt: &impl Abort, alloc: Global, row: &Made) {
    let (book, benchmarks, weights, points, vertices, links) = *row;
    let book = joined(rt, alloc, &book);
    let observations = observations_of(rt, alloc, &book);
    let tables = tables_of(rt, alloc, benchmarks, weights);
    let network = network_of(rt, alloc, observations, &tables);
    has_points(rt, &network, points);
    has_links(rt, &network, links);
    has_weights(rt, &network, links);
    assert!(rt; network.vertices() == vertices);
}

#[test]
fn makes_networks(rt: HostRuntime) {
    for row in &MADE {
        makes(&rt, rt.alloc(), row);
    }
}

#[test]
fn names_the_first_untied_point(rt: HostRuntime) {
    for (parts, benchmarks, name) in &UNTIED {
        let book = joined(&rt, rt.alloc(), parts);
        let name = name_of(name).expect(&rt, "a name");
        let wanted = Some(NetFault::NoBenchmark(name));
        has_fault(&rt, rt.alloc(), &book, benchmarks, wanted);
    }
}

/// A fault, and its line.
type Said = (NetFault, &'static str);

#[test]
fn says_faults(rt: HostRuntime) {
    let point = name_of(b"00A 1 ").expect(&rt, "a name");
    let said: [Said; 4] = [
        (NetFault::TooManyObservations, "N1 too many observations"),
        (NetFault::TooManyPoints, "N2 too many points"),
        (NetFault::NoBenchmark(point), "N3 no benchmark for A 1"),
        (NetFault::NoMemory, "out of memory"),
    ];
    for (fault, text) in &said {
        let line = format!(in rt.alloc(); "{fault}").expect(&rt, "memory");
        assert_eq!(rt; line.as_str(), *text);
    }
}

/// The benchmark A, and one that no sight has.
const A_AT_100: &[u8] = b"point,height\nA,100\n";

const Z_AT_100: &[u8] = b"point,height\nZ,100\n";

/// 40,000 observations of one pair are taken, and 40,001 are too many.
#[test]
fn takes_so_many_observations(rt: HostRuntime) {
    let mut book = joined(&rt, rt.alloc(), &[SETUP]);
    add(&rt, &mut book, SIGHT, 40_000);
    has_fault(&rt, rt.alloc(), &book, A_AT_100, None);
    add(&rt, &mut book, SIGHT, 1);
    let wanted = Some(NetFault::TooManyObservations);
    has_fault(&rt, rt.alloc(), &book, Z_AT_100, wanted);
}

/// A and 3,999 targets are taken, and A and 4,000 are too many, also where none is a benchmark.
#[test]
fn takes_so_many_points(rt: HostRuntime) {
    let mut book = joined(&rt, rt.alloc(), &[SETUP]);
    for k in 1..=3_999 {
        let sight = format!(in rt.alloc();
            "110002+{k:08} 33..00+00002345 87..10+00001300 \n"
        ).expect(&rt, "memory");
        add(&rt, &mut book, sight.as_bytes(), 1);
    }
    has_fault(&rt, rt.alloc(), &book, A_AT_100, None);
    add(&rt, &mut book, SIGHT, 1);
    for benchmark in [A_AT_100, Z_AT_100] {
        let wanted = Some(NetFault::TooManyPoints);
        has_fault(&rt, rt.alloc(), &book, benchmark, wanted);
    }
}

/// 4,000 benchmarks are taken, and 4,001 are too many.
#[test]
fn takes_so_many_benchmarks(rt: HostRuntime) {
    let mut table = joined(&rt, rt.alloc(), &[b"point,height\n"]);
    for k in 1..=4_000 {
        let row = format!(in rt.alloc(); "{k},1\n").expect(&rt, "memory");
        add(&rt, &mut table, row.as_bytes(), 1);
    }
    has_fault(&rt, rt.alloc(), b"", &table, None);
    add(&rt, &mut table, b"A,1\n", 1);
    has_fault(&rt, rt.alloc(), b"", &table, Some(NetFault::TooManyPoints));
}
