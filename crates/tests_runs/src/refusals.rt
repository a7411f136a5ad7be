//! The line of each refusal, and its status.
use crate::helpers::{Texts, adjust, are_untouched};
use crate::projects::{A_AT_100, FAULTY_BOOK, FAULTY_TABLE, ONE_SIGHT};
use gsi_word::name_of;
use std::process::Abort;
use th_book::{BookFault, BookKind};
use th_certificate::{CertFault, CertKind};
use th_checker::{Reason, Verdict};
use th_conversions::{DifferenceFault, DifferenceKind};
use th_mend::{ChangeFault, ChangeKind, MendKind, RowFault};
use th_network::NetFault;
use th_runs::{Input, Output, Refusal, status_of, status_of_verdict};
use th_tables::{TableFault, TableKind};

/// Refusals, their lines, and their statuses.
const ROWS: [(Refusal, &[u8], u8); 26] = [
    (
        Refusal::Book(
            1,
            BookFault {
                line: 4,
                kind: BookKind::NoReflectorHeight,
            },
        ),
        b"book 1 line 4: B10 no reflector height",
        2,
    ),
    (
        Refusal::Benchmarks(TableFault {
            row: 3,
            kind: TableKind::Repeated,
        }),
        b"benchmarks record 3: E6 repeated",
        2,
    ),
    (
        Refusal::Benchmarks(TableFault {
            row: 0,
            kind: TableKind::TableTooLong,
        }),
        b"benchmarks record 0: E7 table too long",
        2,
    ),
    (
        Refusal::Weights(TableFault {
            row: 2,
            kind: TableKind::BadWeight,
        }),
        b"weights record 2: E5 bad weight",
        2,
    ),
    (
        Refusal::Network(NetFault::TooManyObservations),
        b"network: N1 too many observations",
        2,
    ),
    (
        Refusal::Network(NetFault::TooManyPoints),
        b"network: N2 too many points",
        2,
    ),
    (
        Refusal::Certificate(CertFault {
            row: 10,
            kind: CertKind::Truncated,
        }),
        b"certificate record 10: C7 truncated",
        2,
    ),
    (
        Refusal::Differences(DifferenceFault {
            row: 3,
            kind: DifferenceKind::BadDifference,
        }),
        b"differences record 3: E4 bad difference",
        2,
    ),
    (
        Refusal::Changes(ChangeFault {
            row: 2,
            kind: ChangeKind::GivenValue,
        }),
        b"changes record 2: E10 value not empty",
        2,
    ),
    (
        Refusal::Unfit(RowFault {
            row: 3,
            kind: MendKind::LongName,
        }),
        b"changes record 3: M10 name too long",
        2,
    ),
    (
        Refusal::Mended(BookFault {
            line: 4,
            kind: BookKind::SightToItself,
        }),
        b"mended line 4: B11 sight to itself",
        2,
    ),
    (Refusal::Read(Input::Book(1)), b"read failed: book 1", 5),
    (
        Refusal::Read(Input::Benchmarks),
        b"read failed: benchmarks",
        5,
    ),
    (Refusal::Read(Input::Weights), b"read failed: weights", 5),
    (
        Refusal::Read(Input::Certificate),
        b"read failed: certificate",
        5,
    ),
    (
        Refusal::Read(Input::Differences),
        b"read failed: differences",
        5,
    ),
    (Refusal::Read(Input::Changes), b"read failed: changes", 5),
    (Refusal::Write(Output::List), b"write failed: list", 5),
    (Refusal::Write(Output::Heights), b"write failed: heights", 5),
    (
        Refusal::Write(Output::Certificate),
        b"write failed: certificate",
        5,
    ),
    (Refusal::Write(Output::Report), b"write failed: report", 5),
    (Refusal::Write(Output::Gsi), b"write failed: gsi", 5),
    (Refusal::Write(Output::Verdict), b"write failed: verdict", 5),
    (Refusal::Write(Output::Book), b"write failed: book", 5),
    (Refusal::Write(Output::Page), b"write failed: page", 5),
    (Refusal::NoMemory, b"out of memory", 4),
];

/// The line of a refusal.
fn line_of<R: AllocGlobal + Abort>(rt: &R, refusal: &Refusal) -> String {
    format!(in rt.alloc(); "{refusal}").expect(rt, "memory")
}

/// Looks at the line of a refusal and its status.
fn is_said<R: AllocGlobal + Abort>(rt: &R, refusal: &Refusal, line: &[u8], status: u8) {
    assert!(rt; line_of(rt, refusal).as_bytes() == line, "{refusal}");
    assert_eq!(rt; status_of(refusal), status, "{refusal}");
}

#[test]
fn each_refusal_has_a_line_and_a_status(rt: HostRuntime) {
    for (refusal, line, status) in ROWS {
        is_said(&rt, &refusal, line, status);
    }
    let name = name_of(b"A").expect(&rt, "a name");
    let refusal = Refusal::Network(NetFault::NoBenchmark(name));
    is_said(&rt, &refusal, b"network: N3 no benchmark for A", 2);
}

#[test]
fn each_verdict_has_a_status(rt: HostRuntime) {
    assert_eq!(rt; status_of_verdict(&Verdict::Yes), 0);
    assert_eq!(rt; status_of_verdict(&Verdict::No(Reason::WrongCost)), 1);
}

/// A book, its benchmarks and weights, and the line of the refusal.
const REFUSED_INPUTS: [(&[u8], &[u8], &[u8], &[u8]); 9] = [
    (
        FAULTY_BOOK,
        A_AT_100,
        b"",
        b"book 1 line 2: B10 no reflector height",
    ),
    (
        ONE_SIGHT,
        b"point,height\n00A,100\nA,101\n",
        b"",
        b"benchmarks record 3: E6 repeated",
    ),
    (
        ONE_SIGHT,
        b"point,height\nA,10000.00000001\n",
        b"",
        b"benchmarks record 2: E4 bad height",
    ),
    (
        ONE_SIGHT,
        b"point,height\nA\n",
        b"",
        b"benchmarks record 2: E2 field count",
    ),
    (
        ONE_SIGHT,
        b"point,height\n ,100\n",
        b"",
        b"benchmarks record 2: E3 bad name",
    ),
    (ONE_SIGHT, b"", b"", b"benchmarks record 1: E1 bad header"),
    (
        ONE_SIGHT,
        A_AT_100,
        b"from,to,weight\nA,B,0\n",
        b"weights record 2: E5 bad weight",
    ),
    (
        ONE_SIGHT,
        b"point,height\nZ,100\n",
        b"",
        b"network: N3 no benchmark for A",
    ),
    (
        FAULTY_BOOK,
        FAULTY_TABLE,
        FAULTY_TABLE,
        b"book 1 line 2: B10 no reflector height",
    ),
];

/// The line and the status of the refusal that an adjustment answers, which has to touch no output.
fn refusal_of<R: AllocGlobal + Abort>(rt: &R, texts: Texts<'_>) -> (String, u8) {
    let (answer, outs) = adjust(rt, texts);
    assert!(rt; are_untouched(&outs));
    let refusal = answer.err().expect(rt, "a refusal");
    (line_of(rt, &refusal), status_of(&refusal))
}

#[test]
fn inputs_are_refused_by_a_line(rt: HostRuntime) {
    for (book, benchmarks, weights, line) in REFUSED_INPUTS {
        let (said, status) = refusal_of(&rt, (book, benchmarks, weights));
        assert!(rt; said.as_bytes() == line, "{said}");
        assert_eq!(rt; status, 2, "{said}");
    }
}
