//! Tables of benchmarks and weights: the rows that are read, the faults, and tables of full size.
use gsi_word::{Name, name_of};
use std::alloc::Global;
use std::process::Abort;
use th_tables::{Benchmarks, TableFault, TableKind, Weights, read_benchmarks, read_weights};

/// A table of benchmarks, and one of its rows by its place; none past its end.
type BenchmarkRow = (&'static [u8], usize, Option<(&'static [u8], i64)>);

const BENCHMARK_ROWS: [BenchmarkRow; 16] = [
    (b"point,height", 0, None),
    (b"point,height\n", 0, None),
    (b"point,height\nA,100\n", 0, Some((b"A", 10_000_000_000))),
    (b"point,height\nA,100\n", 1, None),
    (
        b"point,height\r\nA,+0.5\r\n0B ,-1",
        0,
        Some((b"A", 50_000_000)),
    ),
    (
        b"point,height\r\nA,+0.5\r\n0B ,-1",
        1,
        Some((b"B", -100_000_000)),
    ),
    (b"point,height\r\nA,+0.5\r\n0B ,-1", 2, None),
    (
        b"\"point\",\"height\"\n\"A\"\"B\",\"1\"\n",
        0,
        Some((b"A\"B", 100_000_000)),
    ),
    (
        b"\xEF\xBB\xBFpoint,height\nA,1\n",
        0,
        Some((b"A", 100_000_000)),
    ),
    (
        b"\n\npoint,height\n\r\n\nA,1\n\n",
        0,
        Some((b"A", 100_000_000)),
    ),
    (b"\n\npoint,height\n\r\n\nA,1\n\n", 1, None),
    (b"point,height\n000,1\n", 0, Some((b"0", 100_000_000))),
    (
        b"point,height\nA,10000\n",
        0,
        Some((b"A", 1_000_000_000_000)),
    ),
    (
        b"point,height\nA,-10000.00000000\n",
        0,
        Some((b"A", -1_000_000_000_000)),
    ),
    (
        b"point,height\n1234567890123456,0\n",
        0,
        Some((b"1234567890123456", 0)),
    ),
    (b"point,height\n\"A,B\",0\n", 0, Some((b"A,B", 0))),
];

/// A table of benchmarks that is refused, with its first faulty record and the kind.
const BENCHMARK_FAULTS: [(&[u8], u32, TableKind); 29] = [
    (b"", 1, TableKind::BadHeader),
    (b"\n\n", 1, TableKind::BadHeader),
    (b"\xEF\xBB\xBF", 1, TableKind::BadHeader),
    (
        b"\xEF\xBB\xBF\xEF\xBB\xBFpoint,height\n",
        1,
        TableKind::BadHeader,
    ),
    (b"height,point\n", 1, TableKind::BadHeader),
    (b"Point,height\n", 1, TableKind::BadHeader),
    (b" point,height\n", 1, TableKind::BadHeader),
    (b"point\n", 1, TableKind::BadHeader),
    (b"point,height,\n", 1, TableKind::BadHeader),
    (b"from,to,weight\n", 1, TableKind::BadHeader),
    (b"point,height\nA\n", 2, TableKind::FieldCount),
    (b"point,height\nA,1,2\n", 2, TableKind::FieldCount),
    (b"point,height\nA,1\n\nB,2\nC\n", 4, TableKind::FieldCount),
    (b"point,height\n\"A,100\n", 2, TableKind::FieldCount),
    (b"point,height\n,1\n", 2, TableKind::BadName),
    (b"point,height\n  ,1\n", 2, TableKind::BadName),
    (
        b"point,height\n12345678901234567,1\n",
        2,
        TableKind::BadName,
    ),
    (b"point,height\n\xC3\xA4,1\n", 2, TableKind::BadName),
    (b"point,height\n ,x\n", 2, TableKind::BadName),
    (b"point,height\nA,\n", 2, TableKind::BadHeight),
    (b"point,height\nA,1.\n", 2, TableKind::BadHeight),
    (b"point,height\nA, 1\n", 2, TableKind::BadHeight),
    (b"point,height\nA,10000.00000001\n", 2, TableKind::BadHeight),
    (
        b"point,height\nA,-10000.00000001\n",
        2,
        TableKind::BadHeight,
    ),
    (b"point,height\nA,0000000001\n", 2, TableKind::BadHeight),
    (b"point,height\nA,1\nA,x\n", 3, TableKind::BadHeight),
    (b"point,height\n00A,100\nA,101\n", 3, TableKind::Repeated),
    (
        b"point,height\nA,1\nB,2\nC,3\nB ,2\nD\n",
        5,
        TableKind::Repeated,
    ),
    (b"point,height\nA,1\nA,2\nB\n", 3, TableKind::Repeated),
];

/// A table of weights, a station and a target, and their weight.
const WEIGHTS: [(&[u8], &[u8], &[u8], u32); 12] = [
    (b"", b"A", b"B", 1),
    (b"from,to,weight", b"A", b"B", 1),
    (b"from,to,weight\nA,B,7\n", b"A", b"B", 7),
    (b"from,to,weight\nA,B,7\n", b"B", b"A", 1),
    (b"from,to,weight\nA,B,7\n", b"A", b"A", 1),
    (b"from,to,weight\nA,B,2\nB,A,3\n", b"A", b"B", 2),
    (b"from,to,weight\nA,B,2\nB,A,3\n", b"B", b"A", 3),
    (b"from,to,weight\r\n\"00A\",B ,1000\r\n", b"A", b"B", 1_000),
    (b"from,to,weight\nA,A,5\n", b"A", b"A", 5),
    (b"from,to,weight\nA,B,0001\n", b"A", b"B", 1),
    (b"from,to,weight\nA,B,0999\nC,D,12\n", b"C", b"D", 12),
    (b"\xEF\xBB\xBFfrom,to,weight\nA,B,9\n", b"A", b"B", 9),
];

/// A table of weights that is refused, with its first faulty record and the kind.
const WEIGHT_FAULTS: [(&[u8], u32, TableKind); 17] = [
    (b"\n", 1, TableKind::BadHeader),
    (b"\xEF\xBB\xBF", 1, TableKind::BadHeader),
    (b"from,to\n", 1, TableKind::BadHeader),
    (b"to,from,weight\n", 1, TableKind::BadHeader),
    (b"from,to,weights\n", 1, TableKind::BadHeader),
    (b"from,to,weight\nA,B\n", 2, TableKind::FieldCount),
    (b"from,to,weight\nA,B,1,\n", 2, TableKind::FieldCount),
    (b"from,to,weight\n ,B,1\n", 2, TableKind::BadName),
    (b"from,to,weight\nA,,0\n", 2, TableKind::BadName),
    (b"from,to,weight\nA,B,0\n", 2, TableKind::BadWeight),
    (b"from,to,weight\nA,B,\n", 2, TableKind::BadWeight),
    (b"from,to,weight\nA,B,1001\n", 2, TableKind::BadWeight),
    (b"from,to,weight\nA,B,00001\n", 2, TableKind::BadWeight),
    (b"from,to,weight\nA,B,+1\n", 2, TableKind::BadWeight),
    (b"from,to,weight\nA,B,1.0\n", 2, TableKind::BadWeight),
    (
        b"from,to,weight\nA,B,1\nB,A,1\n00A, B ,2\n",
        4,
        TableKind::Repeated,
    ),
    (b"from,to,weight\nA,B,1\nA,B,x\n", 3, TableKind::BadWeight),
];

const TOO_LONG: TableFault = TableFault {
    row: 0,
    kind: TableKind::TableTooLong,
};

fn named(rt: &impl Abort, bytes: &[u8]) -> Name {
    name_of(bytes).expect(rt, "a name")
}

fn benchmarks_of(rt: &impl Abort, alloc: Global, table: &[u8]) -> Benchmarks {
    read_benchmarks(alloc, table).expect(rt, "benchmarks")
}

fn weights_of(rt: &impl Abort, alloc: Global, table: &[u8]) -> Weights {
    read_weights(alloc, table).expect(rt, "weights")
}

/// Looks at a row of benchmarks by its place, or that there is none.
fn is_row(rt: &impl Abort, benchmarks: &Benchmarks, k: usize, wanted: Option<(Name, i64)>) {
    assert_eq!(rt; benchmarks.entry(k), wanted, "row {k}");
}

/// Looks at the height of a benchmark, or that there is none.
fn is_height(rt: &impl Abort, benchmarks: &Benchmarks, name: &[u8], wanted: Option<i64>) {
    assert_eq!(rt; benchmarks.height_of(&named(rt, name)), wanted, "{name:?}");
}

/// Looks at the weight of a pair.
fn is_weight(rt: &impl Abort, weights: &Weights, pair: (&[u8], &[u8]), wanted: u32) {
    let (station, target) = pair;
    let weight = weights.of(&named(rt, station), &named(rt, target));
    assert_eq!(rt; weight, wanted, "{station:?} to {target:?}");
}

/// Looks at the fault of a table of benchmarks.
fn has_fault(rt: &impl Abort, alloc: Global, table: &[u8], wanted: TableFault) {
    let fault = read_benchmarks(alloc, table).err();
    assert_eq!(rt; fault, Some(wanted));
}

/// Looks at the fault of a table of weights.
fn has_weight_fault(rt: &impl Abort, alloc: Global, table: &[u8], wanted: TableFault) {
    let fault = read_weights(alloc, table).err();
    assert_eq!(rt; fault, Some(wanted));
}

#[test]
fn rows_of_benchmarks(rt: HostRuntime) {
    for (table, k, wanted) in &BENCHMARK_ROWS {
        let benchmarks = benchmarks_of(&rt, rt.alloc(), table);
        let wanted = wanted.map(|(name, height)| (named(&rt, name), height));
        is_row(&rt, &benchmarks, *k, wanted);
    }
}

#[test]
fn heights_of_benchmarks(rt: HostRuntime) {
    let table = b"point,height\nA,100\n00B,-2.5\n";
    let benchmarks = benchmarks_of(&rt, rt.alloc(), table);
    is_height(&rt, &benchmarks, b"0A ", Some(10_000_000_000));
    is_height(&rt, &benchmarks, b"B", Some(-250_000_000));
    is_height(&rt, &benchmarks, b"C", None);
}

#[test]
fn faults_of_benchmarks(rt: HostRuntime) {
    for (table, row, kind) in &BENCHMARK_FAULTS {
        let wanted = TableFault {
            row: *row,
            kind: *kind,
        };
        has_fault(&rt, rt.alloc(), table, wanted);
    }
}

#[test]
fn weights_of_pairs(rt: HostRuntime) {
    for (table, station, target, wanted) in &WEIGHTS {
        let weights = weights_of(&rt, rt.alloc(), table);
        is_weight(&rt, &weights, (station, target), *wanted);
    }
    is_weight(&rt, &Weights::empty(rt.alloc()), (b"A", b"B"), 1);
}

#[test]
fn faults_of_weights(rt: HostRuntime) {
    for (table, row, kind) in &WEIGHT_FAULTS {
        let wanted = TableFault {
            row: *row,
            kind: *kind,
        };
        has_weight_fault(&rt, rt.alloc(), table, wanted);
    }
}

/// A table of so many rows, each of them a number of six digits and this end.
fn long_table(rt: &impl Abort, alloc: Global, header: &[u8], rows: u32, end: &str) -> Vec<u8> {
    let mut table = Vec::from_slice(alloc, header).expect(rt, "memory");
    for k in 0..rows {
        let row = format!(in alloc; "{k:06}{end}").expect(rt, "memory");
        table.extend_from_slice(row.as_bytes()).expect(rt, "memory");
    }
    table
}

/// A table of 1 MiB, all of it rows, is read to its last one; a byte more is too much.
#[test]
fn reads_full_benchmarks(rt: HostRuntime) {
    let mut table = long_table(&rt, rt.alloc(), b"point,height\n", 116_507, ",1\n");
    assert_eq!(rt; table.len(), 1_048_576);
    let benchmarks = benchmarks_of(&rt, rt.alloc(), &table);
    let last = named(&rt, b"116506");
    is_row(&rt, &benchmarks, 116_506, Some((last, 100_000_000)));
    is_row(&rt, &benchmarks, 116_507, None);
    is_height(&rt, &benchmarks, b"116506", Some(100_000_000));

    table.push(b'\n').expect(&rt, "memory");
    has_fault(&rt, rt.alloc(), &table, TOO_LONG);
}

#[test]
fn reads_full_weights(rt: HostRuntime) {
    let mut table = long_table(&rt, rt.alloc(), b"from,to,weight\n", 95_323, ",B,2\n");
    table.resize(1_048_576, b'\n').expect(&rt, "memory");
    let weights = weights_of(&rt, rt.alloc(), &table);
    is_weight(&rt, &weights, (b"95322", b"B"), 2);
    is_weight(&rt, &weights, (b"95323", b"B"), 1);

    table.push(b'\n').expect(&rt, "memory");
    has_weight_fault(&rt, rt.alloc(), &table, TOO_LONG);
}

/// The last record of a full table of benchmarks, and the fault that it has.
const LAST_BENCHMARKS: [(&[u8], TableKind); 2] = [
    (b"116506,x\n", TableKind::BadHeight),
    (b"000000,1\n", TableKind::Repeated),
];

/// The same of weights.
const LAST_WEIGHTS: [(&[u8], TableKind); 2] = [
    (b"095322,B,0\n", TableKind::BadWeight),
    (b"000000,B,3\n", TableKind::Repeated),
];

/// A table with a last record, and line ends up to 1 MiB.
fn filled(rt: &impl Abort, alloc: Global, rows: &[u8], last: &[u8]) -> Vec<u8> {
    let mut table = Vec::from_slice(alloc, rows).expect(rt, "memory");
    table.extend_from_slice(last).expect(rt, "memory");
    table.resize(1_048_576, b'\n').expect(rt, "memory");
    table
}

/// In a table of 1 MiB that is right up to its last record, the fault is that record's.
#[test]
fn last_benchmarks_are_judged(rt: HostRuntime) {
    let rows = long_table(&rt, rt.alloc(), b"point,height\n", 116_506, ",1\n");
    for (last, kind) in &LAST_BENCHMARKS {
        let wanted = TableFault {
            row: 116_508,
            kind: *kind,
        };
        has_fault(
            &rt,
            rt.alloc(),
            &filled(&rt, rt.alloc(), &rows, last),
            wanted,
        );
    }
}

#[test]
fn last_weights_are_judged(rt: HostRuntime) {
    let rows = long_table(&rt, rt.alloc(), b"from,to,weight\n", 95_322, ",B,2\n");
    for (last, kind) in &LAST_WEIGHTS {
        let wanted = TableFault {
            row: 95_324,
            kind: *kind,
        };
        has_weight_fault(
            &rt,
            rt.alloc(),
            &filled(&rt, rt.alloc(), &rows, last),
            wanted,
        );
    }
}

/// A fault, and its line.
const SAID: [(u32, TableKind, &str); 8] = [
    (1, TableKind::BadHeader, "record 1: E1 bad header"),
    (2, TableKind::FieldCount, "record 2: E2 field count"),
    (2, TableKind::BadName, "record 2: E3 bad name"),
    (12, TableKind::BadHeight, "record 12: E4 bad height"),
    (2, TableKind::BadWeight, "record 2: E5 bad weight"),
    (3, TableKind::Repeated, "record 3: E6 repeated"),
    (0, TableKind::TableTooLong, "record 0: E7 table too long"),
    (0, TableKind::NoMemory, "record 0: out of memory"),
];

#[test]
fn says_faults(rt: HostRuntime) {
    for (row, kind, text) in &SAID {
        let fault = TableFault {
            row: *row,
            kind: *kind,
        };
        let line = format!(in rt.alloc(); "{fault}").expect(&rt, "memory");
        assert_eq!(rt; line.as_str(), *text);
    }
}
