//! Verdicts on the certificates of worked surveys: whole, with changed records, and cut short.
use crate::certificates::{Changes, OF_FIXED, OF_NOTHING, OF_PAIR, OF_ROUND, changed};
use crate::surveys::{
    A_AT_100, FIXED, NOTHING, PAIR, ROUND, ROUND_BOOK, Survey, answer, observations_of, verdict_on,
};

/// What is changed in a certificate, and the verdict on it.
type Row = (Changes, &'static str);

/// Of the certificate of the round.
const ROUND_ROWS: [Row; 37] = [
    (&[], "yes"),
    // The flows may go the other way round.
    (
        &[(6, b"F,1,-1\n"), (7, b"F,2,-1\n"), (8, b"F,3,0\n")],
        "yes",
    ),
    (&[(3, b"H,00A,100\n"), (6, b"F,01,-0\n")], "yes"),
    (
        &[(3, b"H,C,102\n"), (4, b"H,A,100\n"), (5, b"H,B,101\n")],
        "yes",
    ),
    (&[(10, b"Z,cost,50000000")], "yes"),
    (&[(4, b"")], "no: points differ"),
    (&[(4, b"H,D,101\n")], "no: points differ"),
    (&[(5, b"H,C,102\nH,D,102\n")], "no: points differ"),
    (&[(3, b"H,A,100.00000001\n")], "no: benchmark moved"),
    (&[(3, b"H,A,-100\n")], "no: benchmark moved"),
    (&[(2, b"V,1,3\n"), (9, b"")], "no: flow count"),
    (&[(2, b"V,1,5\n"), (9, b"F,4,1\nF,5,0\n")], "no: flow count"),
    (&[(9, b"F,4,2\n")], "no: flow too large at 4"),
    (&[(6, b"F,1,999999999\n")], "no: flow too large at 1"),
    (
        &[(7, b"F,2,-2\n"), (8, b"F,3,2\n")],
        "no: flow too large at 2",
    ),
    (&[(8, b"F,3,0\n")], "no: unbalanced at C"),
    (&[(6, b"F,1,1\n"), (8, b"F,3,0\n")], "no: unbalanced at B"),
    (&[(5, b"H,C,102.00000001\n")], "no: not slack at 2"),
    (&[(5, b"H,C,999999999.99999999\n")], "no: not slack at 2"),
    (&[(4, b"H,B,100.99999999\n")], "no: not slack at 1"),
    (
        &[(5, b"H,C,102.00000001\n"), (10, b"Z,cost,1\n")],
        "no: not slack at 2",
    ),
    (&[(8, b"F,3,-1\n"), (9, b"F,4,-1\n")], "no: not slack at 4"),
    (&[(10, b"Z,cost,49999999\n")], "no: wrong cost"),
    (
        &[(10, b"Z,cost,999999999999999999999999999999\n")],
        "no: wrong cost",
    ),
    // What the reader refuses.
    (&[(3, b"H,A,100\nH,A,100\n")], "record 4: C4 bad name"),
    (&[(2, b"V,1,4001\n")], "record 10: C3 bad kind"),
    (&[(2, b"V,1,40001\n")], "record 2: C6 too large"),
    (&[(9, b"F,4,1\nF,5,0\n")], "record 10: C3 bad kind"),
    (
        &[(10, b"Z,cost,50000000\nZ,cost,50000000\n")],
        "record 11: C3 bad kind",
    ),
    (&[(6, b"F,1,1000000000\n")], "record 6: C6 too large"),
    (
        &[(10, b"Z,cost,9999999999999999999999999999999\n")],
        "record 10: C6 too large",
    ),
    (&[(10, b"")], "record 10: C7 truncated"),
    (&[(2, b"V,3,4\n")], "record 2: C3 bad kind"),
    (&[(5, b"H,C,102\nL,A,100\n")], "record 6: C3 bad kind"),
    (&[(6, b"F,1\n")], "record 6: C2 field count"),
    (&[(7, b"F,1,0\n")], "record 7: C5 bad number"),
    (&[(1, b"kind,key\n")], "record 1: C1 bad header"),
];

/// Of the certificate of the pair of sights, which has lowest and highest heights.
const PAIR_ROWS: [Row; 16] = [
    (&[], "yes"),
    // The checker does not test whether the lowest and highest heights are extreme.
    (&[(6, b"L,B,102.547\n"), (8, b"U,B,102.545\n")], "yes"),
    (&[(6, b"L,B,102.54499999\n")], "no: low not slack at 1"),
    (&[(6, b"L,B,102.54700001\n")], "no: low not slack at 2"),
    (&[(8, b"U,B,102.54499999\n")], "no: high not slack at 1"),
    (&[(8, b"U,B,102.54700001\n")], "no: high not slack at 2"),
    (
        &[(6, b"L,B,103\n"), (8, b"U,B,103\n"), (11, b"Z,cost,1\n")],
        "no: wrong cost",
    ),
    (
        &[(4, b"H,B,103\n"), (6, b"L,B,103\n")],
        "no: not slack at 2",
    ),
    (&[(5, b"L,A,100.00000001\n")], "no: benchmark moved"),
    (&[(7, b"U,A,100.00000001\n")], "no: benchmark moved"),
    (&[(5, b""), (6, b"")], "no: points differ"),
    (&[(7, b""), (8, b"")], "no: points differ"),
    (&[(8, b"U,B,102.547\nU,C,1\n")], "no: points differ"),
    // Version 1 has the heights alone.
    (
        &[(2, b"V,1,2\n"), (5, b""), (6, b""), (7, b""), (8, b"")],
        "yes",
    ),
    (&[(2, b"V,1,2\n")], "record 5: C3 bad kind"),
    (
        &[(4, b"L,B,102.545\n"), (5, b"H,A,100\n")],
        "record 5: C3 bad kind",
    ),
];

/// Of the certificate of the sight between two benchmarks, whose flow its residual forces.
const FIXED_ROWS: [Row; 3] = [
    (&[], "yes"),
    (&[(5, b"F,1,1\n")], "no: not slack at 1"),
    (&[(5, b"F,1,0\n")], "no: not slack at 1"),
];

/// Of the certificate of no observations and no points.
const NOTHING_ROWS: [Row; 3] = [
    (&[], "yes"),
    (&[(2, b"V,1,0\n")], "yes"),
    (&[(2, b"V,1,0\nH,A,0\n")], "no: points differ"),
];

/// The round where the sight from A to C counts twice.
const WEIGHED: Survey = Survey {
    book: ROUND_BOOK,
    benchmarks: A_AT_100,
    weights: b"from,to,weight\nA,C,2\n",
};

const WEIGHED_ROWS: [Row; 3] = [
    (&[], "no: not slack at 4"),
    (
        &[(6, b"F,1,-1\n"), (7, b"F,2,-1\n"), (9, b"F,4,2\n")],
        "no: wrong cost",
    ),
    (
        &[
            (6, b"F,1,-1\n"),
            (7, b"F,2,-1\n"),
            (9, b"F,4,2\n"),
            (10, b"Z,cost,100000000\n"),
        ],
        "yes",
    ),
];

/// The round with a benchmark that is no end of a sight.
const APART: Survey = Survey {
    book: ROUND_BOOK,
    benchmarks: b"point,height\nA,100\nZ,5\n",
    weights: b"",
};

const APART_ROWS: [Row; 2] = [
    (&[], "no: points differ"),
    (&[(5, b"H,C,102\nH,Z,5\n")], "yes"),
];

/// A survey, the records of its certificate, and the rows of what is changed in it.
type Case = (&'static Survey, &'static [&'static [u8]], &'static [Row]);

const CASES: [Case; 6] = [
    (&ROUND, &OF_ROUND, &ROUND_ROWS),
    (&WEIGHED, &OF_ROUND, &WEIGHED_ROWS),
    (&APART, &OF_ROUND, &APART_ROWS),
    (&PAIR, &OF_PAIR, &PAIR_ROWS),
    (&FIXED, &OF_FIXED, &FIXED_ROWS),
    (&NOTHING, &OF_NOTHING, &NOTHING_ROWS),
];

#[test]
fn certificates_are_answered(rt: HostRuntime) {
    for (survey, records, rows) in &CASES {
        for (changes, wanted) in *rows {
            let text = changed(&rt, rt.alloc(), records, changes);
            let given = answer(&rt, rt.alloc(), survey, &text);
            assert_eq!(rt; given.as_str(), *wanted, "{changes:?}");
        }
    }
}

/// What the beginnings of 96 bytes and more of the certificate of the round are, which has 112 bytes.
const BEGINNINGS: [&str; 17] = [
    "record 10: C7 truncated",
    "record 10: C2 field count",
    "record 10: C2 field count",
    "record 10: C2 field count",
    "record 10: C2 field count",
    "record 10: C2 field count",
    "record 10: C2 field count",
    "record 10: C5 bad number",
    "no: wrong cost",
    "no: wrong cost",
    "no: wrong cost",
    "no: wrong cost",
    "no: wrong cost",
    "no: wrong cost",
    "no: wrong cost",
    "yes",
    "yes",
];

#[test]
fn beginnings_are_answered(rt: HostRuntime) {
    let text = changed(&rt, rt.alloc(), &OF_ROUND, &[]);
    assert_eq!(rt; text.len(), 112);
    for (more, wanted) in BEGINNINGS.iter().enumerate() {
        let beginning = text.get(..96 + more).expect(&rt, "a beginning");
        let given = answer(&rt, rt.alloc(), &ROUND, beginning);
        assert_eq!(rt; given.as_str(), *wanted, "{more}");
    }
}

/// The round as two books, its lines 1 to 4 and 5 to 8, has the same certificate.
#[test]
fn two_books_are_answered_as_one(rt: HostRuntime) {
    let first = ROUND_BOOK.get(..196).expect(&rt, "four lines");
    let second = ROUND_BOOK.get(196..).expect(&rt, "four lines");
    let mut observations = observations_of(&rt, rt.alloc(), 1, first);
    let more = observations_of(&rt, rt.alloc(), 2, second);
    assert_eq!(rt; observations.len(), 2);
    observations.extend_from_slice(&more).expect(&rt, "memory");
    let text = changed(&rt, rt.alloc(), &OF_ROUND, &[]);
    let given = verdict_on(&rt, rt.alloc(), &observations, &ROUND, &text);
    assert_eq!(rt; given.as_str(), "yes");
}
