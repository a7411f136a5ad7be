//! Certificates of the loop that are checked, as they were printed and changed.
use crate::helpers::{HELD_BEFORE, Texts, check, is_accepted, sink, source};
use crate::projects::{A_AT_100, LOOP, LOOP_BEGINNING, LOOP_END};
use gsi_word::name_of;
use std::process::Abort;
use th_certificate::{CertFault, CertKind};
use th_checker::{Reason, Verdict};
use th_devices::TextSource;
use th_network::NetFault;
use th_runs::{Refusal, run_check};

/// A certificate of the loop.
const CERTIFICATE: &[u8] =
    b"kind,key,value\nV,1,4\nH,A,100.00000000\nH,B,101.00000000\nH,C,102.00000000\nF,1,0\nF,2,0\nF,3,1\nF,4,1\nZ,cost,50000000\n";

/// What a check of the loop in two books prints that lists its inputs; the digests are those of `sha256sum`.
const LISTED: &[u8] =
    b"yes\nbook 1           196  7b6c13d3ec62d01adce5ebf09c59ed10ee7553753db07dc0ec9292003fa2d1f4  monday.gsi\nbook 2           196  7d99eb5103ca8ccf48dedd784ea758760dc185a5d04984846077800877cc7c23  tuesday.gsi\nbenchmarks        19  c15a70569a2e2d0025454e42e8ef947dc907df9de97213f74d4ed8795fbdba58  marks.csv\ncertificate       112  3a407677cf0b7120def41e7c7d1743a7a35a99e5a850644924b691792060b513  loop.csv\n";

/// Certificates that are accepted beside it: with the flows the other way round, with zeros in front,
/// with its rows of heights in another order, and of the other version.
const ACCEPTED: [&[u8]; 5] = [
    CERTIFICATE,
    b"kind,key,value\nV,1,4\nH,A,100\nH,B,101\nH,C,102\nF,1,-1\nF,2,-1\nF,3,0\nF,4,1\nZ,cost,50000000\n",
    b"kind,key,value\nV,1,4\nH,00A,100\nH,B,101\nH,C,102\nF,01,-0\nF,2,0\nF,3,1\nF,4,1\nZ,cost,50000000\n",
    b"kind,key,value\nV,1,4\nH,C,102\nH,A,100\nH,B,101\nF,1,0\nF,2,0\nF,3,1\nF,4,1\nZ,cost,50000000\n",
    b"kind,key,value\nV,2,4\nH,A,100\nH,B,101\nH,C,102\nL,A,100\nL,B,101\nL,C,102\nU,A,100\nU,B,101\nU,C,102\nF,1,0\nF,2,0\nF,3,1\nF,4,1\nZ,cost,50000000\n",
];

/// Certificates that are refused, the line of the verdict, and why.
const REFUSED: [(&[u8], &[u8], Reason); 8] = [
    (
        b"kind,key,value\nV,1,4\nH,A,100\nH,B,101\nH,C,102\nF,1,0\nF,2,0\nF,3,1\nF,4,2\nZ,cost,50000000\n",
        b"no: flow too large at 4\n",
        Reason::FlowTooLarge(4),
    ),
    (
        b"kind,key,value\nV,1,4\nH,A,100\nH,B,101\nH,C,102\nF,1,0\nF,2,0\nF,3,1\nF,4,1\nZ,cost,49999999\n",
        b"no: wrong cost\n",
        Reason::WrongCost,
    ),
    (
        b"kind,key,value\nV,1,4\nH,A,100.00000001\nH,B,101\nH,C,102\nF,1,0\nF,2,0\nF,3,1\nF,4,1\nZ,cost,50000000\n",
        b"no: benchmark moved\n",
        Reason::BenchmarkMoved,
    ),
    (
        b"kind,key,value\nV,1,3\nH,A,100\nH,B,101\nH,C,102\nF,1,0\nF,2,0\nF,3,1\nZ,cost,50000000\n",
        b"no: flow count\n",
        Reason::FlowCount,
    ),
    (
        b"kind,key,value\nV,1,4\nH,A,100\nH,C,102\nF,1,0\nF,2,0\nF,3,1\nF,4,1\nZ,cost,50000000\n",
        b"no: points differ\n",
        Reason::PointsDiffer,
    ),
    (
        b"kind,key,value\nV,1,4\nH,A,100\nH,B,101\nH,C,102.00000001\nF,1,0\nF,2,0\nF,3,1\nF,4,1\nZ,cost,50000000\n",
        b"no: not slack at 2\n",
        Reason::NotSlack(2),
    ),
    (
        b"kind,key,value\nV,2,4\nH,A,100\nH,B,101\nH,C,102\nL,A,100\nL,B,100.99999999\nL,C,102\nU,A,100\nU,B,101\nU,C,102\nF,1,0\nF,2,0\nF,3,1\nF,4,1\nZ,cost,50000000\n",
        b"no: low not slack at 1\n",
        Reason::LowNotSlack(1),
    ),
    (
        b"kind,key,value\nV,2,4\nH,A,100\nH,B,101\nH,C,102\nL,A,100\nL,B,101\nL,C,102\nU,A,100\nU,B,101.00000001\nU,C,102\nF,1,0\nF,2,0\nF,3,1\nF,4,1\nZ,cost,50000000\n",
        b"no: high not slack at 1\n",
        Reason::HighNotSlack(1),
    ),
];

/// The loop with the benchmark A.
const OF_LOOP: Texts<'static> = (LOOP, A_AT_100, b"");

/// Checks a certificate of the loop, which has to be refused for this reason.
fn is_denied<R: AllocGlobal + Abort>(rt: &R, certificate: &[u8], line: &[u8], reason: Reason) {
    let verdict = check(rt, OF_LOOP, certificate, line);
    assert_eq!(rt; verdict, Ok(Verdict::No(reason)));
}

#[test]
fn accepts_and_refuses_certificates(rt: HostRuntime) {
    for certificate in ACCEPTED {
        is_accepted(&rt, OF_LOOP, certificate);
    }
    for (certificate, line, reason) in REFUSED {
        is_denied(&rt, certificate, line, reason);
    }
    let unbalanced: &[u8] =
        b"kind,key,value\nV,1,4\nH,A,100\nH,B,101\nH,C,102\nF,1,0\nF,2,0\nF,3,0\nF,4,1\nZ,cost,50000000\n";
    let name = name_of(b"C").expect(&rt, "a name");
    is_denied(
        &rt,
        unbalanced,
        b"no: unbalanced at C\n",
        Reason::Unbalanced(name),
    );
}

#[test]
fn names_the_faulty_record_of_a_certificate(rt: HostRuntime) {
    let truncated: &[u8] =
        b"kind,key,value\nV,1,4\nH,A,100\nH,B,101\nH,C,102\nF,1,0\nF,2,0\nF,3,1\nF,4,1\n";
    let verdict = check(&rt, OF_LOOP, truncated, HELD_BEFORE);
    let fault = CertFault {
        row: 10,
        kind: CertKind::Truncated,
    };
    assert_eq!(rt; verdict, Err(Refusal::Certificate(fault)));
}

#[test]
fn a_network_is_refused_behind_its_certificate(rt: HostRuntime) {
    let untied: Texts<'_> = (LOOP, b"point,height\nZ,100\n", b"");
    let verdict = check(&rt, untied, b"kind,key\n", HELD_BEFORE);
    let fault = CertFault {
        row: 1,
        kind: CertKind::BadHeader,
    };
    assert_eq!(rt; verdict, Err(Refusal::Certificate(fault)));
    let name = name_of(b"A").expect(&rt, "a name");
    let verdict = check(&rt, untied, CERTIFICATE, HELD_BEFORE);
    assert_eq!(rt; verdict, Err(Refusal::Network(NetFault::NoBenchmark(name))));
}

#[test]
fn two_books_are_one_survey(rt: HostRuntime) {
    let mut books = [source(LOOP_BEGINNING), source(LOOP_END)];
    let mut benchmarks = source(A_AT_100);
    let mut weights: Option<TextSource> = None;
    let mut certificate = source(CERTIFICATE);
    let mut outs = [sink(&rt, None)];
    let verdict = run_check(
        rt.alloc(),
        &mut books,
        &mut benchmarks,
        &mut weights,
        &mut certificate,
        None,
        &mut outs,
    );
    assert_eq!(rt; verdict, Ok(Verdict::Yes));
    assert!(rt; outs[0].bytes() == b"yes\n".as_slice());
}

#[test]
fn inputs_are_listed_behind_yes(rt: HostRuntime) {
    let names = ["client/monday.gsi", "tuesday.gsi", "marks.csv", "loop.csv"];
    let (answer, printed) = check_with_inputs(&rt, CERTIFICATE, &names);
    assert_eq!(rt; answer, Ok(Verdict::Yes));
    assert_eq!(rt; printed.as_slice(), LISTED);
    let (wrong, line, reason) = REFUSED[1];
    let (answer, printed) = check_with_inputs(&rt, wrong, &names);
    assert_eq!(rt; answer, Ok(Verdict::No(reason)));
    assert_eq!(rt; printed.as_slice(), line);
}

/// Checks a certificate of the loop in two books, and lists the inputs of these names behind a `yes`: the answer, and
/// what is printed.
fn check_with_inputs<R: AllocGlobal + Abort>(
    rt: &R,
    certificate: &[u8],
    names: &[&str],
) -> (Result<Verdict, Refusal>, Vec<u8>) {
    let mut books = [source(LOOP_BEGINNING), source(LOOP_END)];
    let mut benchmarks = source(A_AT_100);
    let mut weights: Option<TextSource> = None;
    let mut certificate = source(certificate);
    let mut outs = [sink(rt, None)];
    let answer = run_check(
        rt.alloc(),
        &mut books,
        &mut benchmarks,
        &mut weights,
        &mut certificate,
        Some(names),
        &mut outs,
    );
    let printed = Vec::from_slice(rt.alloc(), outs[0].bytes()).expect(rt, "memory");
    (answer, printed)
}
