//! Certificates that are changed in one byte: whatever is accepted costs least.
use crate::helpers::{put, source};
use crate::projects::{A_AT_100, LOOP};
use std::process::Abort;
use th_book::read_book;
use th_certificate::{Certificate, StatedHeights, read_certificate};
use th_checker::Verdict;
use th_devices::{TextSink, TextSource};
use th_observations::Observation;
use th_runs::run_check;

/// What the best heights of the loop cost, in units of 10 nm.
const LEAST: u128 = 50_000_000;

/// Certificates of the loop, of both versions.
const CERTIFICATES: [&[u8]; 2] = [
    b"kind,key,value\nV,1,4\nH,A,100.00000000\nH,B,101.00000000\nH,C,102.00000000\nF,1,0\nF,2,0\nF,3,1\nF,4,1\nZ,cost,50000000\n",
    b"kind,key,value\nV,2,4\nH,A,100.00000000\nH,B,101.00000000\nH,C,102.00000000\nL,A,100.00000000\nL,B,101.00000000\nL,C,102.00000000\nU,A,100.00000000\nU,B,101.00000000\nU,C,102.00000000\nF,1,0\nF,2,0\nF,3,1\nF,4,1\nZ,cost,50000000\n",
];

/// Whether a certificate of the loop is accepted.
fn is_accepted<R: AllocGlobal + Abort>(rt: &R, certificate: &[u8]) -> bool {
    let mut books = [source(LOOP)];
    let mut benchmarks = source(A_AT_100);
    let mut weights: Option<TextSource> = None;
    let mut stated = TextSource::new(certificate, 4_096, None);
    let mut outs = [TextSink::new(rt.alloc(), 100, 100, None).expect(rt, "memory")];
    let verdict = run_check(
        rt.alloc(),
        &mut books,
        &mut benchmarks,
        &mut weights,
        &mut stated,
        None,
        &mut outs,
    );
    verdict == Ok(Verdict::Yes)
}

/// What heights cost by a plain sum; each observation of the loop weighs 1.
fn cost_of<R: Abort>(rt: &R, observations: &[Observation], heights: &StatedHeights) -> u128 {
    let mut cost = 0u128;
    for observation in observations {
        let station = heights
            .height_of(&observation.station)
            .expect(rt, "a point");
        let target = heights.height_of(&observation.target).expect(rt, "a point");
        let rise = target.wrapping_sub(station);
        let residual = observation.diff.wrapping_sub(rise);
        cost = cost.wrapping_add(u128::from(residual.unsigned_abs()));
    }
    cost
}

/// What a text says that is a certificate.
fn certificate_of<R: AllocGlobal + Abort>(rt: &R, text: &[u8]) -> Certificate {
    read_certificate(rt.alloc(), text).expect(rt, "a certificate")
}

/// Looks at heights, which have to cost least.
fn cost_least<R: Abort>(rt: &R, observations: &[Observation], heights: &StatedHeights) {
    assert_eq!(rt; cost_of(rt, observations, heights), LEAST);
}

/// Looks at a certificate that was accepted: each of its maps of heights costs least.
fn costs_least<R: AllocGlobal + Abort>(rt: &R, observations: &[Observation], text: &[u8]) {
    let certificate = certificate_of(rt, text);
    assert_eq!(rt; certificate.cost(), LEAST);
    cost_least(rt, observations, certificate.heights());
    if let Some(low) = certificate.low() {
        cost_least(rt, observations, low);
    }
    if let Some(high) = certificate.high() {
        cost_least(rt, observations, high);
    }
}

/// Changes each byte of a certificate to each other value, and counts what is accepted.
fn change_each_byte<R: AllocGlobal + Abort>(
    rt: &R,
    observations: &[Observation],
    certificate: &[u8],
) -> u32 {
    let mut text = Vec::from_slice(rt.alloc(), certificate).expect(rt, "memory");
    let mut accepted = 0u32;
    for (place, own) in certificate.iter().enumerate() {
        for byte in 0..=255_u8 {
            put(&mut text, place, byte);
            if byte != *own && is_accepted(rt, &text) {
                accepted = accepted.wrapping_add(1);
                costs_least(rt, observations, &text);
            }
        }
        put(&mut text, place, *own);
    }
    accepted
}

#[test]
fn a_changed_certificate_is_accepted_for_least_heights_alone(rt: HostRuntime) {
    let observations = read_book(rt.alloc(), 1, LOOP).expect(&rt, "observations");
    for certificate in CERTIFICATES {
        assert!(rt; is_accepted(&rt, certificate));
        costs_least(&rt, &observations, certificate);
        let accepted = change_each_byte(&rt, &observations, certificate);
        assert!(rt; accepted > 0, "{accepted}");
    }
}
