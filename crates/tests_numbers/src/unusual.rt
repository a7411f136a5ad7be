//! Surveys of unusual forms: nothing to explain, and much.
use crate::surveys::explained;
use std::alloc::Global;
use std::process::Abort;
use th_explain_texts::Kind;

/// 20 mm.
const LIMIT: i64 = 2_000_000;

/// A tenth of a metre, in units of 10 nm.
const TENTH: u128 = 10_000_000;

/// How many sights are wrong, each by another amount.
const WRONG: u32 = 40;

/// A book in which each of 40 points is sighted three times, after a setup of its own each time. The third
/// sight of a point is wrong by as many tenths of a metre as the point's number says.
fn book_of_wrong_sights(rt: &impl Abort, alloc: Global) -> Vec<u8> {
    let mut book = Vec::new(alloc);
    let mut count = 0u32;
    for time in 0..3 {
        for point in 1..WRONG + 1 {
            count = count.saturating_add(1);
            let wrong = if time == 2 {
                point.saturating_mul(100)
            } else {
                0
            };
            add_sight(rt, alloc, &mut book, count, point, wrong);
        }
    }
    book
}

/// Adds a setup, whose instrument and reflector are as high as it has a number, and a sight.
fn add_sight(
    rt: &impl Abort,
    alloc: Global,
    book: &mut Vec<u8>,
    count: u32,
    point: u32,
    millimetres: u32,
) {
    let setup = format!(in alloc;
        "110001+0000000A 84..10+00000000 87..10+{count:08} 88..10+{count:08}\n"
    ).expect(rt, "memory");
    book.extend_from_slice(setup.as_bytes())
        .expect(rt, "memory");
    let sight = format!(in alloc; "110002+{point:08} 33..10+{millimetres:08}\n").expect(
        rt, "memory",
    );
    book.extend_from_slice(sight.as_bytes())
        .expect(rt, "memory");
}

/// Of 40 wrong sights the 20 that explain most are rows, the greatest first.
fn check_wrong(rt: &impl Abort, alloc: Global) {
    let book = book_of_wrong_sights(rt, alloc);
    let own = explained(
        rt,
        alloc,
        &[book.as_slice()],
        b"point,height\nA,0.0\n",
        b"",
        LIMIT,
    );
    assert_eq!(rt; own.summary.marked, 40usize);
    assert_eq!(rt; own.rows.len(), 20usize);
    let mut number = 0u32;
    for row in &own.rows {
        let wrong = WRONG.saturating_sub(number);
        number = number.saturating_add(1);
        assert!(rt; row.kind == Kind::Sight);
        assert_eq!(rt; row.number, number);
        assert_eq!(rt;
            row.line,
            Some(wrong.saturating_add(2 * WRONG).saturating_mul(2))
        );
        assert_eq!(rt; row.explains, TENTH.saturating_mul(u128::from(wrong)));
    }
}

#[test]
fn many_wrong(rt: HostRuntime) {
    check_wrong(&rt, rt.alloc());
}

/// Books, benchmarks, and the kinds of the rows.
const ROWS: [(&[u8], &[u8], &[Kind]); 5] = [
    // No sights.
    (
        b"110001+0000000A 84..10+00000000 87..10+00000000 88..10+00000000\n",
        b"point,height\nA,0.0\n",
        &[],
    ),
    // All points are benchmarks, which agree.
    (
        b"110001+0000000A 84..10+00000000 87..10+00000000 88..10+00000000
110002+0000000B 33..10+00001000
110003+0000000C 33..10+00002000
",
        b"point,height\nA,0.0\nB,1.0\nC,2.0\n",
        &[],
    ),
    // All points are benchmarks, and one of them is wrong: so is each of its sights, if it is not.
    (
        b"110001+0000000A 84..10+00000000 87..10+00000000 88..10+00000000
110002+0000000B 33..10+00001000
110003+0000000C 33..10+00002000
110004+0000000B 33..10+00001000
110005+0000000C 33..10+00002000
",
        b"point,height\nA,0.0\nB,1.5\nC,2.0\n",
        &[Kind::Benchmark, Kind::Sight, Kind::Sight],
    ),
    // Two benchmarks that contradict each other, and one that nobody observed.
    (
        b"110001+0000000A 84..10+00000000 87..10+00000000 88..10+00000000
110002+0000000B 33..10+00001000
",
        b"point,height\nA,0.0\nB,1.5\nC,9.0\n",
        &[Kind::Sight, Kind::Benchmark, Kind::Benchmark],
    ),
    // One pair, where one sight of five is wrong.
    (
        b"110001+0000000A 84..10+00000000 87..10+00000000 88..10+00000000
110002+0000000B 33..10+00001000
110003+0000000B 33..10+00001000
110004+0000000B 33..10+00003000
110005+0000000B 33..10+00001000
110006+0000000B 33..10+00001000
",
        b"point,height\nA,0.0\n",
        &[Kind::Sight],
    ),
];

fn check_rows(rt: &impl Abort, alloc: Global) {
    for (book, benchmarks, kinds) in ROWS {
        let own = explained(rt, alloc, &[book], benchmarks, b"", LIMIT);
        assert_eq!(rt; own.rows.len(), kinds.len());
        for (row, kind) in own.rows.iter().zip(kinds) {
            assert!(rt; row.kind == *kind);
        }
    }
}

#[test]
fn few_rows(rt: HostRuntime) {
    check_rows(&rt, rt.alloc());
}
