//! The heights file, the GSI file and the report, against worked texts and over a large network.
use crate::networks::{
    AT_A, THERE_AND_BACK, THREE_SIGHTS, heights_at, long_book, network_of, tables_of,
};
use itoa::Buffer;
use std::alloc::Global;
use std::process::Abort;
use th_report::{heights_csv, heights_gsi, report_text};

/// A setup at A, and a sight to B.
const ONE_SIGHT: &[u8] = b"110001+0000000A 84..10+00000000 88..10+00001500
110002+0000000B 33..00+00002345 87..10+00001300
";

/// The same, and a sight that is 2 mm off.
const TWO_SIGHTS: &[u8] = b"110001+0000000A 84..10+00000000 88..10+00001500
110002+0000000B 33..00+00002345 87..10+00001300
110003+0000000B 33..00+00002347
";

/// A book, the tables of benchmarks and weights, the lowest and the highest heights in point order,
/// and the heights file.
type Listed = (
    &'static [u8],
    &'static [u8],
    &'static [i64],
    &'static [i64],
    &'static [u8],
);

const LISTED: [Listed; 4] = [
    (
        ONE_SIGHT,
        AT_A,
        &[10_000_000_000, 10_254_500_000],
        &[10_000_000_000, 10_254_500_000],
        b"point,height,low,high
A,100.00000000,100.00000000,100.00000000
B,102.54500000,102.54500000,102.54500000
",
    ),
    (
        TWO_SIGHTS,
        AT_A,
        &[10_000_000_000, 10_254_500_000],
        &[10_000_000_000, 10_254_700_000],
        b"point,height,low,high
A,100.00000000,100.00000000,100.00000000
B,102.54500000,102.54500000,102.54700000
",
    ),
    (
        b"",
        b"point,height\n",
        &[],
        &[],
        b"point,height,low,high
",
    ),
    (
        b"",
        b"point,height\n\"A,B\",-0.5\n",
        &[-50_000_000],
        &[-50_000_000],
        b"point,height,low,high
\"A,B\",-0.50000000,-0.50000000,-0.50000000
",
    ),
];

fn is_listed(rt: &impl Abort, alloc: Global, row: &Listed) {
    let (book, benchmarks, low, high, wanted) = *row;
    let tables = tables_of(rt, alloc, benchmarks, b"");
    let network = network_of(rt, alloc, book, &tables);
    let lowest = heights_at(rt, alloc, &network, low);
    let highest = heights_at(rt, alloc, &network, high);
    let found = heights_csv(alloc, &network, &lowest, &highest).expect(rt, "memory");
    assert!(rt; found.as_slice() == wanted);
}

#[test]
fn heights_files(rt: HostRuntime) {
    for row in &LISTED {
        is_listed(&rt, rt.alloc(), row);
    }
}

/// A book, a table of benchmarks, heights in point order, and the GSI file.
type Blocks = (&'static [u8], &'static [u8], &'static [i64], &'static [u8]);

const BLOCKS: [Blocks; 3] = [
    (
        ONE_SIGHT,
        AT_A,
        &[10_000_000_000, 10_254_500_000],
        b"*110001+000000000000000A 83..48+0000000010000000 \r
*110002+000000000000000B 83..48+0000000010254500 \r
",
    ),
    (b"", b"point,height\n", &[], b""),
    (
        b"",
        b"point,height\n0,-0.000005\nA B,-0.00000499\nABCDEFGHIJKLMNOP,0.000005\n",
        &[-500, -499, 500],
        b"*110001+0000000000000000 83..48-0000000000000001 \r
*110002+0000000000000A B 83..48+0000000000000000 \r
*110003+ABCDEFGHIJKLMNOP 83..48+0000000000000001 \r
",
    ),
];

fn is_in_blocks(rt: &impl Abort, alloc: Global, row: &Blocks) {
    let (book, benchmarks, units, wanted) = *row;
    let tables = tables_of(rt, alloc, benchmarks, b"");
    let network = network_of(rt, alloc, book, &tables);
    let heights = heights_at(rt, alloc, &network, units);
    let found = heights_gsi(alloc, &network, &heights).expect(rt, "memory");
    assert!(rt; found.as_slice() == wanted);
}

#[test]
fn heights_in_blocks(rt: HostRuntime) {
    for row in &BLOCKS {
        is_in_blocks(&rt, rt.alloc(), row);
    }
}

/// A book, the tables of benchmarks and weights, heights in point order, a limit, and the end of the
/// report.
type Reported = (
    &'static [u8],
    &'static [u8],
    &'static [u8],
    &'static [i64],
    i64,
    &'static [u8],
);

const REPORTED: [Reported; 5] = [
    (
        THREE_SIGHTS,
        AT_A,
        b"",
        &[10_000_000_000, 10_254_600_000],
        2_000_000,
        b"HEIGHT NETWORK REPORT
points                                 2
benchmarks                             1
observations                           3
cost                           100000000
blunder limit                 0.02000000

POINT                           HEIGHT
A                         100.00000000  B
B                         102.54600000

   NO  BK      LINE  FROM              TO                  WT              RESIDUAL
    1   1         2  A                 B                    1           -0.00100000
    2   1         3  A                 B                    1            0.00000000
    3   1         4  A                 B                    1            0.99900000  *

blunders                               1
    3   1         4  A                 B                    1            0.99900000  *

opposites                              0
",
    ),
    (
        b"",
        b"point,height\n",
        b"",
        &[],
        0,
        b"HEIGHT NETWORK REPORT
points                                 0
benchmarks                             0
observations                           0
cost                                   0
blunder limit                 0.00000000

POINT                           HEIGHT

   NO  BK      LINE  FROM              TO                  WT              RESIDUAL

blunders                               0

opposites                              0
",
    ),
    (
        THERE_AND_BACK,
        AT_A,
        b"from,to,weight\nA,B,3\n",
        &[10_000_000_000, 10_254_500_000],
        2_000_000,
        b"
    1   1         2  A                 B                    3            0.00000000
    2   1         4  B                 A                    1           -0.01000000

blunders                               0

opposites                              1
    2      1  B                 A                          -0.01000000
",
    ),
    (
        THREE_SIGHTS,
        AT_A,
        b"",
        &[10_000_000_000, 10_254_600_000],
        99_900_000,
        b"            0.99900000

blunders                               0

opposites                              0
",
    ),
    (
        THREE_SIGHTS,
        AT_A,
        b"",
        &[10_000_000_000, 10_254_600_000],
        99_899_900,
        b"            0.99900000  *

blunders                               1
    3   1         4  A                 B                    1            0.99900000  *

opposites                              0
",
    ),
];

fn is_reported(rt: &impl Abort, alloc: Global, row: &Reported) {
    let (book, benchmarks, weights, units, limit, wanted) = *row;
    let tables = tables_of(rt, alloc, benchmarks, weights);
    let network = network_of(rt, alloc, book, &tables);
    let heights = heights_at(rt, alloc, &network, units);
    let found = report_text(alloc, &network, &heights, limit).expect(rt, "memory");
    assert!(rt; found.as_slice().ends_with(wanted));
}

#[test]
fn reports(rt: HostRuntime) {
    for row in &REPORTED {
        is_reported(&rt, rt.alloc(), row);
    }
}

/// A and 3,998 other benchmarks, with which a network of A and B has as many points as it takes.
fn many_benchmarks(rt: &impl Abort, alloc: Global) -> Vec<u8> {
    let mut bytes = Vec::new(alloc);
    bytes.extend_from_slice(AT_A).expect(rt, "memory");
    for number in 0..3_998_u32 {
        let mut digits = Buffer::new();
        bytes.push(b'P').expect(rt, "memory");
        bytes
            .extend_from_slice(digits.format(number).as_bytes())
            .expect(rt, "memory");
        bytes.extend_from_slice(b",1\n").expect(rt, "memory");
    }
    bytes
}

/// A height for each point of that network.
fn many_heights(rt: &impl Abort, alloc: Global) -> Vec<i64> {
    let mut units = Vec::new(alloc);
    units.push(10_000_000_000).expect(rt, "memory");
    units.push(10_254_500_000).expect(rt, "memory");
    for _point in 0..3_998 {
        units.push(100_000_000).expect(rt, "memory");
    }
    units
}

fn lines_in(text: &[u8]) -> usize {
    text.iter().filter(|byte| **byte == b'\n').count()
}

#[test]
fn texts_of_a_large_network(rt: HostRuntime) {
    let book = long_book(&rt, rt.alloc());
    let benchmarks = many_benchmarks(&rt, rt.alloc());
    let units = many_heights(&rt, rt.alloc());
    let tables = tables_of(&rt, rt.alloc(), &benchmarks, b"");
    let network = network_of(&rt, rt.alloc(), &book, &tables);
    let heights = heights_at(&rt, rt.alloc(), &network, &units);
    let listed = heights_csv(rt.alloc(), &network, &heights, &heights).expect(&rt, "memory");
    assert_eq!(rt; lines_in(&listed), 4_001);
    let blocks = heights_gsi(rt.alloc(), &network, &heights).expect(&rt, "memory");
    assert_eq!(rt; lines_in(&blocks), 4_000);
    let report = report_text(rt.alloc(), &network, &heights, 0).expect(&rt, "memory");
    assert_eq!(rt; lines_in(&report), 104_013);
}
