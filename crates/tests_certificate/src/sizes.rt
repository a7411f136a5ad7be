//! Certificates of the largest book, of the most bytes and of many names: written, read, checked.
use crate::reading::{certificate_of, has_fault};
use crate::surveys::{ROUND, observations_of, verdict_on};
use crate::writing::{Best, written};
use gsi_word::name_of;
use std::alloc::Global;
use std::process::Abort;

/// How many points there are beside A, each of which is sighted from A.
const TARGETS: u32 = 3_999;

const SIGHTS: u32 = 40_000;

/// A setup at A, and as many sights to as many points as a network takes. The last point is sighted
/// once, by the last sight.
fn largest_book(rt: &impl Abort, alloc: Global) -> Vec<u8> {
    let setup = b"110001+0000000A 84..10+00000000 88..10+00001500 87..10+00001300 \n";
    let mut book = setup.to_vec(alloc).expect(rt, "memory");
    for sight in 0..SIGHTS {
        let target = if sight + 1 == SIGHTS {
            TARGETS
        } else {
            1 + sight % (TARGETS - 1)
        };
        let line = format!(in alloc; "110002+{target:08} 33..00+00002345 \n").expect(rt, "memory");
        book.extend_from_slice(line.as_bytes()).expect(rt, "memory");
    }
    book
}

/// Adds the rows of heights under a letter, of all points but the last.
fn add_heights(rt: &impl Abort, alloc: Global, text: &mut Vec<u8>, letter: &str) {
    let row = format!(in alloc; "{letter},A,100.00000000\n").expect(rt, "memory");
    text.extend_from_slice(row.as_bytes()).expect(rt, "memory");
    for target in 1..TARGETS {
        let row = format!(in alloc; "{letter},{target},102.54500000\n").expect(rt, "memory");
        text.extend_from_slice(row.as_bytes()).expect(rt, "memory");
    }
}

/// Adds the rows of flows, which are all this one, but not the last one.
fn add_flows(rt: &impl Abort, alloc: Global, text: &mut Vec<u8>, flow: i64) {
    for number in 1..SIGHTS {
        let row = format!(in alloc; "F,{number},{flow}\n").expect(rt, "memory");
        text.extend_from_slice(row.as_bytes()).expect(rt, "memory");
    }
}

/// The last rows of the certificate of the largest book: of the heights, the lowest and the highest,
/// and of the flows with the cost.
type Last = [&'static [u8]; 4];

/// Those that are right.
const RIGHT: Last = [
    b"H,3999,102.54500000\n",
    b"L,3999,102.54500000\n",
    b"U,3999,102.54500000\n",
    b"F,40000,0\nZ,cost,0\n",
];

/// The rows before these: the header, the version and the heights, the lowest, the highest, the flows.
fn fronts(rt: &impl Abort, alloc: Global) -> Vec<Vec<u8>> {
    let mut fronts = Vec::new(alloc);
    for (head, letter) in [("kind,key,value\nV,2,40000\n", "H"), ("", "L"), ("", "U")] {
        let mut text = head.as_bytes().to_vec(alloc).expect(rt, "memory");
        add_heights(rt, alloc, &mut text, letter);
        fronts.push(text).expect(rt, "memory");
    }
    let mut flows = Vec::new(alloc);
    add_flows(rt, alloc, &mut flows, 0);
    fronts.push(flows).expect(rt, "memory");
    fronts
}

/// The certificate of the largest book with these last rows.
fn ended(rt: &impl Abort, alloc: Global, fronts: &[Vec<u8>], last: &Last) -> Vec<u8> {
    let mut text = Vec::new(alloc);
    for (front, rows) in fronts.iter().zip(last) {
        text.extend_from_slice(front).expect(rt, "memory");
        text.extend_from_slice(rows).expect(rt, "memory");
    }
    text
}

/// The certificate of the largest book.
fn largest_certificate(rt: &impl Abort, alloc: Global) -> Vec<u8> {
    ended(rt, alloc, &fronts(rt, alloc), &RIGHT)
}

/// The heights of the largest book.
fn largest_heights(rt: &impl Abort, alloc: Global) -> Vec<i64> {
    let mut heights = vec![in alloc; 10_000_000_000].expect(rt, "memory");
    for _target in 0..TARGETS {
        heights.push(10_254_500_000).expect(rt, "memory");
    }
    heights
}

#[test]
fn largest_certificate_is_written(rt: HostRuntime) {
    let book = largest_book(&rt, rt.alloc());
    let heights = largest_heights(&rt, rt.alloc());
    let flows = vec![in rt.alloc(); 0; 40_000].expect(&rt, "memory");
    let best = Best {
        low: &heights,
        high: &heights,
        flows: &flows,
    };
    let text = written(&rt, rt.alloc(), &book, &ROUND, &best);
    let wanted = largest_certificate(&rt, rt.alloc());
    assert!(rt; text.as_slice() == wanted.as_slice());
}

#[test]
fn largest_certificate_is_accepted(rt: HostRuntime) {
    let book = largest_book(&rt, rt.alloc());
    let observations = observations_of(&rt, rt.alloc(), 1, &book);
    let text = largest_certificate(&rt, rt.alloc());
    let verdict = verdict_on(&rt, rt.alloc(), &observations, &ROUND, &text);
    assert_eq!(rt; verdict.as_str(), "yes");
}

/// Which of the last rows of the largest certificate are others, which, and its fault.
const FAULTS: [(usize, &[u8], &str); 4] = [
    (3, b"F,40000,0\nZ,costs,0\n", "record 52003: C3 bad kind"),
    (3, b"F,39999,0\nZ,cost,0\n", "record 52002: C5 bad number"),
    (
        3,
        b"F,40000,0\nZ,cost,1000000000000000000000000000000\n",
        "record 52003: C6 too large",
    ),
    (3, b"F,40000,0\n", "record 52003: C7 truncated"),
];

/// The same, where the checker says no at the last flow or for the cost.
const FLOW_REASONS: [(usize, &[u8], &str); 3] = [
    (3, b"F,40000,2\nZ,cost,0\n", "no: flow too large at 40000"),
    (3, b"F,40000,1\nZ,cost,0\n", "no: unbalanced at 3999"),
    (3, b"F,40000,0\nZ,cost,1\n", "no: wrong cost"),
];

/// The same, where it says no at a height of the last point.
const HEIGHT_REASONS: [(usize, &[u8], &str); 3] = [
    (0, b"H,3999,102.54500001\n", "no: not slack at 40000"),
    (1, b"L,3999,102.54500001\n", "no: low not slack at 40000"),
    (2, b"U,3999,102.54500001\n", "no: high not slack at 40000"),
];

/// Checks the largest certificate with other last rows.
fn compare_last(rt: &impl Abort, alloc: Global, rows: &[(usize, &'static [u8], &'static str)]) {
    let book = largest_book(rt, alloc);
    let observations = observations_of(rt, alloc, 1, &book);
    let fronts = fronts(rt, alloc);
    for (place, other, wanted) in rows {
        let mut last = RIGHT;
        if let Some(rows) = last.get_mut(*place) {
            *rows = other;
        }
        let text = ended(rt, alloc, &fronts, &last);
        let verdict = verdict_on(rt, alloc, &observations, &ROUND, &text);
        assert_eq!(rt; verdict.as_str(), *wanted);
    }
}

#[test]
fn faults_of_the_last_rows_are_named(rt: HostRuntime) {
    compare_last(&rt, rt.alloc(), &FAULTS);
}

#[test]
fn reasons_at_the_last_flow_are_named(rt: HostRuntime) {
    compare_last(&rt, rt.alloc(), &FLOW_REASONS);
}

#[test]
fn reasons_at_the_last_height_are_named(rt: HostRuntime) {
    compare_last(&rt, rt.alloc(), &HEIGHT_REASONS);
}

/// A certificate of 8 MiB, its end line ends, is read; a byte more is too much.
#[test]
fn longest_certificate_is_read(rt: HostRuntime) {
    let mut text = b"kind,key,value\nV,1,40000\n"
        .to_vec(rt.alloc())
        .expect(&rt, "memory");
    add_flows(&rt, rt.alloc(), &mut text, -1);
    text.extend_from_slice(b"F,40000,-1\nZ,cost,0\n")
        .expect(&rt, "memory");
    for _more in text.len()..8_388_608 {
        text.push(b'\n').expect(&rt, "memory");
    }
    assert_eq!(rt; text.len(), 8_388_608);
    let certificate = certificate_of(&rt, rt.alloc(), &text);
    assert_eq!(rt; certificate.flows().len(), 40_000);
    text.push(b'\n').expect(&rt, "memory");
    has_fault(&rt, rt.alloc(), &text, "record 0: C6 too large");
}

/// How many heights a certificate states that has more than any network has points.
const MANY: u32 = 10_000;

/// A certificate of version 2 with this many rows of a letter, and these last rows.
fn many_rows(rt: &impl Abort, alloc: Global, letter: &str, last: &[u8]) -> Vec<u8> {
    let mut text = b"kind,key,value\nV,2,0\n"
        .to_vec(alloc)
        .expect(rt, "memory");
    for number in 1..=MANY {
        let row = format!(in alloc; "{letter},{number},{number}\n").expect(rt, "memory");
        text.extend_from_slice(row.as_bytes()).expect(rt, "memory");
    }
    text.extend_from_slice(last).expect(rt, "memory");
    text
}

/// Looks at the heights of a certificate, which have to be those of all numbers, each at its place.
fn has_many_heights(rt: &impl Abort, alloc: Global, text: &[u8]) {
    let certificate = certificate_of(rt, alloc, text);
    let heights = certificate.heights();
    assert_eq!(rt; heights.len(), 10_000);
    for number in 1..=MANY {
        let digits = format!(in alloc; "{number}").expect(rt, "memory");
        let name = name_of(digits.as_bytes()).expect(rt, "a name");
        let wanted = i64::from(number) * 100_000_000;
        assert_eq!(rt; heights.height_of(&name), Some(wanted));
        assert_eq!(rt; heights.entry(number as usize - 1), Some((name, wanted)));
    }
    let other = name_of(b"10001").expect(rt, "a name");
    assert_eq!(rt; heights.height_of(&other), None);
}

/// Maps of many names hash with a seed of the whole certificate. Line feeds at its end say nothing, but
/// give another seed: each height is still found, at its place.
#[test]
fn many_heights_are_the_same_under_each_seed(rt: HostRuntime) {
    for last in [&b"Z,cost,0\n"[..], b"Z,cost,0\n\n", b"Z,cost,0\n\n\n\n"] {
        let text = many_rows(&rt, rt.alloc(), "H", last);
        has_many_heights(&rt, rt.alloc(), &text);
    }
}

/// A name of the first row or the last is found among many, under each letter and under another seed.
#[test]
fn repeated_names_among_many_are_named(rt: HostRuntime) {
    for letter in ["H", "L", "U"] {
        for name in ["1", "4096", "4097", "10000"] {
            for end in ["", "\n\n"] {
                let last = format!(in rt.alloc(); "{letter},{name},0\n{end}").expect(&rt, "memory");
                let text = many_rows(&rt, rt.alloc(), letter, last.as_bytes());
                has_fault(&rt, rt.alloc(), &text, "record 10003: C4 bad name");
            }
        }
    }
}
