//! Worked surveys, and the line of the verdict on a certificate, or of its fault.
use std::alloc::Global;
use std::process::Abort;
use th_book::read_book;
use th_certificate::{Certificate, read_certificate};
use th_checker::check;
use th_network::MAX_OBSERVATIONS;
use th_observations::Observation;
use th_tables::{Benchmarks, Weights, read_benchmarks, read_weights};

/// A book, and the tables of its benchmarks and its weights.
#[derive(Drop)]
pub struct Survey {
    pub book: &'static [u8],
    pub benchmarks: &'static [u8],
    pub weights: &'static [u8],
}

/// The benchmark A at 100 m.
pub const A_AT_100: &[u8] = b"point,height\nA,100\n";

/// A to B 1 m, B to C 1 m, C to A -2 m, and A to C 2.5 m.
pub const ROUND_BOOK: &[u8] = b"110001+0000000A 84..10+00000000 88..10+00001500 
110002+0000000B 33..00+00001000 87..10+00001500 
110003+0000000B 84..10+00000000 88..10+00001500 
110004+0000000C 33..00+00001000 87..10+00001500 
110005+0000000C 84..10+00000000 88..10+00001500 
110006+0000000A 33..00-00002000 87..10+00001500 
110007+0000000A 84..10+00000000 88..10+00001500 
110008+0000000C 33..00+00002500 87..10+00001500 
";

/// That book with the benchmark A.
pub const ROUND: Survey = Survey {
    book: ROUND_BOOK,
    benchmarks: A_AT_100,
    weights: b"",
};

/// Two sights from A to B, 2.545 m and 2.547 m.
pub const PAIR: Survey = Survey {
    book: b"110001+0000000A 84..10+00000000 85..10+00000000 86..10+00100000 88..10+00001500 
110002+0000000B 33..00+00002345 87..10+00001300 
110003+0000000B 33..00+00002347 
",
    benchmarks: A_AT_100,
    weights: b"",
};

/// One sight of 2.545 m between two benchmarks that are 3 m apart.
pub const FIXED: Survey = Survey {
    book: b"110001+0000000A 84..10+00000000 85..10+00000000 86..10+00100000 88..10+00001500 
110002+0000000B 33..00+00002345 87..10+00001300 
",
    benchmarks: b"point,height\nA,100\nB,103\n",
    weights: b"",
};

/// No observations and no benchmarks.
pub const NOTHING: Survey = Survey {
    book: b"",
    benchmarks: b"point,height\n",
    weights: b"",
};

/// The observations of a book.
pub fn observations_of(
    rt: &impl Abort,
    alloc: Global,
    number: u32,
    book: &[u8],
) -> Vec<Observation> {
    read_book(alloc, number, book).expect(rt, "observations")
}

/// A survey's tables.
pub fn tables_of(rt: &impl Abort, alloc: Global, tables: &Survey) -> (Benchmarks, Weights) {
    let benchmarks = read_benchmarks(alloc, tables.benchmarks).expect(rt, "benchmarks");
    let weights = read_weights(alloc, tables.weights).expect(rt, "weights");
    (benchmarks, weights)
}

/// The line for the text of a certificate of a survey.
pub fn answer(rt: &impl Abort, alloc: Global, survey: &Survey, text: &[u8]) -> String {
    let observations = observations_of(rt, alloc, 1, survey.book);
    verdict_on(rt, alloc, &observations, survey, text)
}

/// The line for the text of a certificate of some observations and a survey's tables: that of its
/// fault, or else that of the verdict.
pub fn verdict_on(
    rt: &impl Abort,
    alloc: Global,
    observations: &[Observation],
    tables: &Survey,
    text: &[u8],
) -> String {
    match read_certificate(alloc, text) {
        Ok(certificate) => verdict_of(rt, alloc, observations, tables, &certificate),
        Err(fault) => fault.to_string(alloc).expect(rt, "memory"),
    }
}

/// The line of the verdict on a certificate.
fn verdict_of(
    rt: &impl Abort,
    alloc: Global,
    observations: &[Observation],
    tables: &Survey,
    certificate: &Certificate,
) -> String {
    let (benchmarks, weights) = tables_of(rt, alloc, tables);
    assert!(rt; observations.len() <= MAX_OBSERVATIONS);
    let verdict = check(alloc, observations, &benchmarks, &weights, certificate);
    verdict
        .expect(rt, "memory")
        .to_string(alloc)
        .expect(rt, "memory")
}
