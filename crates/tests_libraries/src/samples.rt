//! A book of three sights, two certificates of it, and what the examples print of them.
use crate::accepting::accepted;
use crate::settling::least_heights;
use gsi_word::Name;
use std::alloc::Global;
use std::io;
use th_book::read_book;
use th_network::{MAX_OBSERVATIONS, Network};
use th_observations::Observation;
use th_tables::{Benchmarks, Weights, read_benchmarks, read_weights};

/// A to B 2.545 m and A to C 1.380 m, then B to C -1.161 m: the loop closes up to 4 mm.
pub const BOOK: &[u8] = b"110001+0000000A 84..10+00000000 88..10+00001500 
110002+0000000B 31..00+00112421 33..00+00002345 87..10+00001300 
110003+0000000C 31..00+00083674 33..00+00001180 
110004+0000000B 84..10+00000000 88..10+00001450 
110005+0000000C 31..00+00130950 33..00-00001311 87..10+00001300 
";

/// The benchmark A at 100 m.
const A_AT_100: &[u8] = b"point,height\nA,100\n";

/// A certificate that the misclosure is all in the second sight.
const SHOWN: &[u8] =
    b"kind,key,value\nV,1,3\nH,A,100\nH,B,102.545\nH,C,101.384\nF,1,1\nF,2,-1\nF,3,1\nZ,cost,400000\n";

/// The same with B a millimetre higher.
const CHANGED: &[u8] =
    b"kind,key,value\nV,1,3\nH,A,100\nH,B,102.546\nH,C,101.384\nF,1,1\nF,2,-1\nF,3,1\nZ,cost,400000\n";

/// The observations of the book, the benchmark and no weights.
#[derive(Drop)]
struct Survey {
    observations: Vec<Observation>,
    benchmarks: Benchmarks,
    weights: Weights,
}

fn read_survey(alloc: Global) -> Option<Survey> {
    Some(Survey {
        observations: read_book(alloc, 1, BOOK).ok()?,
        benchmarks: read_benchmarks(alloc, A_AT_100).ok()?,
        weights: read_weights(alloc, b"").ok()?,
    })
}

/// Prints what becomes of both certificates.
pub fn print_verdicts(out: &impl Print, alloc: Global) -> io::Result<()> {
    let Some(survey) = read_survey(alloc) else {
        return println!(out; "no survey");
    };
    for text in [SHOWN, CHANGED] {
        print_verdict(out, alloc, &survey, text)?;
    }
    Ok(())
}

fn print_verdict(out: &impl Print, alloc: Global, survey: &Survey, text: &[u8]) -> io::Result<()> {
    let observations = survey.observations.as_slice();
    if observations.len() > MAX_OBSERVATIONS {
        return println!(out; "too many sights");
    }
    match accepted(
        alloc,
        observations,
        &survey.benchmarks,
        &survey.weights,
        text,
    ) {
        Ok(Ok(certificate)) => println!(out; "accepted {}", certificate.cost()),
        Ok(Err(reason)) => println!(out; "no: {reason}"),
        Err(fault) => println!(out; "{fault}"),
    }
}

/// Prints the lowest and the highest best height of each point, in units of 10 nm.
pub fn print_heights(out: &impl Print, alloc: Global) -> io::Result<()> {
    match read_survey(alloc) {
        Some(survey) => print_heights_of(out, alloc, survey),
        None => println!(out; "no survey"),
    }
}

fn print_heights_of(out: &impl Print, alloc: Global, survey: Survey) -> io::Result<()> {
    let Survey {
        observations,
        benchmarks,
        weights,
    } = survey;
    let Ok(network) = Network::build(alloc, observations, &benchmarks, &weights) else {
        return println!(out; "no network");
    };
    match least_heights(alloc, &network) {
        Ok(best) => print_spans(out, network.points(), best.low(), best.high()),
        Err(_) => println!(out; "out of memory"),
    }
}

fn print_spans(out: &impl Print, points: &[Name], low: &[i64], high: &[i64]) -> io::Result<()> {
    for (name, (low, high)) in points.iter().zip(low.iter().zip(high)) {
        println!(out; "{name} {low} {high}")?;
    }
    Ok(())
}
