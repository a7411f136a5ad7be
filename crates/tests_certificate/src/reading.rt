//! What certificates say when they are read, or which fault is named, against worked texts.
use gsi_word::name_of;
use std::alloc::Global;
use std::process::Abort;
use th_certificate::{Certificate, StatedHeights, read_certificate};

/// Names and their heights in units of 10 nm.
type Heights = &'static [(&'static [u8], i64)];

/// A certificate, and what it says: its version, its heights, the lowest and the highest heights that
/// it has, its flows and its cost.
#[derive(Drop)]
struct Said {
    text: &'static [u8],
    version: u32,
    heights: Heights,
    spans: Option<(Heights, Heights)>,
    flows: &'static [i64],
    cost: u128,
}

/// A height of 100 m at A.
const A_ALONE: Heights = &[(b"A", 10_000_000_000)];

const SAID: [Said; 8] = [
    Said {
        text: b"kind,key,value\nV,2,0\nZ,cost,0\n",
        version: 2,
        heights: &[],
        spans: Some((&[], &[])),
        flows: &[],
        cost: 0,
    },
    // A mark at the beginning, other line ends, quotation marks, zeros in front.
    Said {
        text: b"\xEF\xBB\xBFkind,key,value\r\n\"V\",\"1\",\"1\"\r\nH,00A,100\r\nF,01,-0\r\nZ,cost,000",
        version: 1,
        heights: A_ALONE,
        spans: None,
        flows: &[0],
        cost: 0,
    },
    Said {
        text: b"kind,key,value\nV,1,1\nH,\"A,B\",-0.00000001\nF,1,+0001\nZ,cost,999999999999999999999999999999\n",
        version: 1,
        heights: &[(b"A,B", -1)],
        spans: None,
        flows: &[1],
        cost: 999_999_999_999_999_999_999_999_999_999,
    },
    Said {
        text: b"kind,key,value\nV,1,000000002\nF,000000001,-999999999\nF,2,999999999\nZ,cost,1\n",
        version: 1,
        heights: &[],
        spans: None,
        flows: &[-999_999_999, 999_999_999],
        cost: 1,
    },
    Said {
        text: b"kind,key,value\nV,1,0\nH,A,999999999.99999999\nZ,cost,0\n",
        version: 1,
        heights: &[(b"A", 99_999_999_999_999_999)],
        spans: None,
        flows: &[],
        cost: 0,
    },
    // Names of one kind stand in any order, and need not be those of another kind.
    Said {
        text: b"kind,key,value\nV,2,0\nH,B,1\nH,A,100\nL,A,100\nL,B,2\nU,C,3\nZ,cost,0\n",
        version: 2,
        heights: &[(b"B", 100_000_000), (b"A", 10_000_000_000)],
        spans: Some((
            &[(b"A", 10_000_000_000), (b"B", 200_000_000)],
            &[(b"C", 300_000_000)],
        )),
        flows: &[],
        cost: 0,
    },
    // No heights, no lowest heights.
    Said {
        text: b"kind,key,value\nV,2,1\nU,A,100\nF,1,7\nZ,cost,0\n",
        version: 2,
        heights: &[],
        spans: Some((&[], A_ALONE)),
        flows: &[7],
        cost: 0,
    },
    // Lines without text are no records.
    Said {
        text: b"\nkind,key,value\n\n\nV,1,0\r\n\r\nH,A,100\n\nZ,cost,0\n\n",
        version: 1,
        heights: A_ALONE,
        spans: None,
        flows: &[],
        cost: 0,
    },
];

/// Whether these heights are stated and no others.
fn states(rt: &impl Abort, stated: &StatedHeights, wanted: Heights) -> bool {
    for (k, (name, height)) in wanted.iter().enumerate() {
        let name = name_of(name).expect(rt, "a name");
        if stated.entry(k) != Some((name, *height)) || stated.height_of(&name) != Some(*height) {
            return false;
        }
    }
    let other = name_of(b"Z").expect(rt, "a name");
    stated.len() == wanted.len()
        && stated.is_empty() == wanted.is_empty()
        && stated.entry(wanted.len()).is_none()
        && stated.height_of(&other).is_none()
}

/// Whether the lowest and the highest heights are these, or there are none.
fn has_spans(
    rt: &impl Abort,
    certificate: &Certificate,
    wanted: Option<(Heights, Heights)>,
) -> bool {
    match (certificate.low(), certificate.high(), wanted) {
        (Some(low), Some(high), Some(wanted)) => states(rt, low, wanted.0)
            && states(rt, high, wanted.1),
        (None, None, None) => true,
        _ => false,
    }
}

/// What a text says that is a certificate.
pub fn certificate_of(rt: &impl Abort, alloc: Global, text: &[u8]) -> Certificate {
    read_certificate(alloc, text).expect(rt, "a certificate")
}

/// Compares what a certificate says with its row.
fn says(rt: &impl Abort, certificate: &Certificate, said: &Said) {
    let text = said.text;
    assert_eq!(rt; certificate.version(), said.version, "{text:?}");
    assert!(rt; states(rt, certificate.heights(), said.heights), "{text:?}");
    assert!(rt; has_spans(rt, certificate, said.spans), "{text:?}");
    assert!(rt; certificate.flows() == said.flows, "{text:?}");
    assert_eq!(rt; certificate.cost(), said.cost, "{text:?}");
}

#[test]
fn certificates_are_read(rt: HostRuntime) {
    for said in &SAID {
        let certificate = certificate_of(&rt, rt.alloc(), said.text);
        says(&rt, &certificate, said);
    }
}

/// The text of a faulty certificate, and the line for its fault.
type Row = (&'static [u8], &'static str);

/// Texts whose first record is faulty or alone.
const FAULTS: [Row; 7] = [
    (b"", "record 1: C1 bad header"),
    (b"\n\n", "record 1: C1 bad header"),
    (b"\xEF\xBB\xBF", "record 1: C1 bad header"),
    (b"kind,key\n", "record 1: C1 bad header"),
    (b"kind,key,value,\n", "record 1: C1 bad header"),
    (b"kind,value,key\n", "record 1: C1 bad header"),
    (b"kind,key,value", "record 2: C7 truncated"),
];

/// What follows the header.
const FAULTS_UNDER_HEADER: [Row; 45] = [
    (b"V,1\n", "record 2: C2 field count"),
    (b"H,A,1\n", "record 2: C3 bad kind"),
    (b"V,3,4\n", "record 2: C3 bad kind"),
    (b"V,01,4\n", "record 2: C3 bad kind"),
    (b"V,3,x\n", "record 2: C3 bad kind"),
    (b"V,1,\n", "record 2: C5 bad number"),
    (b"V,1,+4\n", "record 2: C5 bad number"),
    (b"V,1,40001\n", "record 2: C6 too large"),
    (b"V,1,0000000004\n", "record 2: C6 too large"),
    (b"V,1,40000\n", "record 3: C7 truncated"),
    (b"V,1,0\nV,1,0\n", "record 3: C3 bad kind"),
    (b"V,1,0\nH,A\n", "record 3: C2 field count"),
    (b"V,1,0\nX,A,1,2\n", "record 3: C2 field count"),
    (b"V,1,0\nh,A,1\n", "record 3: C3 bad kind"),
    (b"V,1,0\nL,A,1\n", "record 3: C3 bad kind"),
    (b"V,1,0\nU,A,1\n", "record 3: C3 bad kind"),
    (b"V,1,0\nF,1,0\n", "record 3: C3 bad kind"),
    (b"V,1,1\nZ,cost,0\n", "record 3: C3 bad kind"),
    (b"V,1,0\nZ,Cost,0\n", "record 3: C3 bad kind"),
    (b"V,2,0\nL,A,1\nH,A,1\n", "record 4: C3 bad kind"),
    (b"V,2,0\nU,A,1\nL,A,1\n", "record 4: C3 bad kind"),
    (b"V,2,0\nU,A,1\nH,A,1\n", "record 4: C3 bad kind"),
    (b"V,2,1\nF,1,0\nU,A,1\n", "record 4: C3 bad kind"),
    (b"V,1,1\nF,1,0\nH,A,1\n", "record 4: C3 bad kind"),
    (b"V,1,1\nF,1,0\nF,2,0\n", "record 4: C3 bad kind"),
    (b"V,1,0\nZ,cost,0\nZ,cost,0\n", "record 4: C3 bad kind"),
    (b"V,1,0\nZ,cost,0\nH,A,1\n", "record 4: C3 bad kind"),
    (b"V,1,0\nZ,cost,0\nx\n", "record 4: C2 field count"),
    (b"V,1,40000\nF,1,0\nZ,cost,0\n", "record 4: C3 bad kind"),
    (b"V,1,0\nH,,1\n", "record 3: C4 bad name"),
    (b"V,1,0\nH,12345678901234567,x\n", "record 3: C4 bad name"),
    (b"V,1,0\nH,A,1\nH,00A ,x\n", "record 4: C4 bad name"),
    (b"V,2,0\nL,A,1\nL,A,1\n", "record 4: C4 bad name"),
    (b"V,2,0\nU,A,1\nU,A,1\n", "record 4: C4 bad name"),
    (b"V,1,0\nH,A,1.\n", "record 3: C5 bad number"),
    (b"V,1,0\nH,A,1000000000\n", "record 3: C6 too large"),
    (b"V,1,1\nF,2,0\n", "record 3: C5 bad number"),
    (b"V,1,1\nF,+1,0\n", "record 3: C5 bad number"),
    (b"V,1,1\nF,1,-\n", "record 3: C5 bad number"),
    (b"V,1,1\nF,1,--1\n", "record 3: C5 bad number"),
    (b"V,1,1\nF,10000000001,0\n", "record 3: C5 bad number"),
    (b"V,1,1\nF,0000000001,0\n", "record 3: C6 too large"),
    (b"V,1,1\nF,1,1000000000\n", "record 3: C6 too large"),
    (b"V,1,0\nZ,cost,-0\n", "record 3: C5 bad number"),
    (
        b"V,1,0\nZ,cost,0000000000000000000000000000000\n",
        "record 3: C6 too large",
    ),
];

/// Reads a text, whose fault has to be said so.
pub fn has_fault(rt: &impl Abort, alloc: Global, text: &[u8], wanted: &str) {
    let fault = read_certificate(alloc, text).err().expect(rt, "a fault");
    let said = fault.to_string(alloc).expect(rt, "memory");
    assert_eq!(rt; said.as_str(), wanted);
}

#[test]
fn faults_are_named(rt: HostRuntime) {
    for (text, wanted) in &FAULTS {
        has_fault(&rt, rt.alloc(), text, wanted);
    }
}

#[test]
fn faults_under_the_header_are_named(rt: HostRuntime) {
    for (rows, wanted) in &FAULTS_UNDER_HEADER {
        let mut text = b"kind,key,value\n".to_vec(rt.alloc()).expect(&rt, "memory");
        text.extend_from_slice(rows).expect(&rt, "memory");
        has_fault(&rt, rt.alloc(), &text, wanted);
    }
}
