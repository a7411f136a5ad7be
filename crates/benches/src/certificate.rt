//! The writing, the reading and the checking of a certificate, beside the reading of its book.
use crate::large::Large;
use crate::texts::Tables;
use crate::times::{Watch, keep_least, print_times};
use crate::writing::text_of;
use anyhow::{Result, anyhow};
use std::alloc::Global;
use std::fs;
use std::rt::{Clock, Files};
use std::time::Duration;
use th_certificate::{Certificate, read_certificate};
use th_checker::{Verdict, check};
use th_network::MAX_OBSERVATIONS;
use th_observations::Observation;

/// What is timed, in this order.
const STEPS: [&str; 4] = [
    "read_book",
    "write_certificate",
    "read_certificate",
    "check",
];

/// Writes the certificate to a file, if one is named, takes the times, and prints the best of each step.
pub fn measure<R: Clock + Files + Print>(
    rt: &R,
    alloc: Global,
    repeats: u32,
    files: &[String],
) -> Result<()> {
    let large = Large::new(alloc)?;
    let tables = large.texts.tables(alloc)?;
    if let Some(path) = files.first() {
        let (text, _time) = timed_writing(rt, alloc, &large, &tables)?;
        fs::write(rt, path.as_str(), text.as_slice())?;
    }
    let mut best = once(rt, alloc, &large, &tables)?;
    for _ in 0..repeats {
        keep_least(&mut best, &once(rt, alloc, &large, &tables)?);
    }
    print_times(rt, &STEPS, &best)
}

/// Takes the time of each step once.
fn once(
    clock: &impl Clock,
    alloc: Global,
    large: &Large,
    tables: &Tables,
) -> Result<[Duration; 4]> {
    let (text, writing) = timed_writing(clock, alloc, large, tables)?;
    let (certificate, reading) = timed_reading(clock, alloc, &text)?;
    let watch = Watch::start(clock);
    let observations = large.texts.observations(alloc)?;
    let book = watch.time(clock);
    let checking = timed_checking(clock, alloc, &observations, tables, &certificate)?;
    Ok([book, writing, reading, checking])
}

/// Writes the certificate, and takes the time of that. The copying of the heights and flows, which is
/// timed with it, is a small part.
fn timed_writing(
    clock: &impl Clock,
    alloc: Global,
    large: &Large,
    tables: &Tables,
) -> Result<(Vec<u8>, Duration)> {
    let network = tables.network(alloc, large.texts.observations(alloc)?)?;
    let watch = Watch::start(clock);
    let text = text_of(alloc, &network, large)?;
    let time = watch.time(clock);
    Ok((text, time))
}

/// Reads the certificate, and takes the time of that.
fn timed_reading(
    clock: &impl Clock,
    alloc: Global,
    text: &[u8],
) -> Result<(Certificate, Duration)> {
    let watch = Watch::start(clock);
    let certificate = read_certificate(alloc, text).map_err(|_| anyhow!("the certificate"))?;
    let time = watch.time(clock);
    Ok((certificate, time))
}

/// Checks the certificate, which has to be accepted, and takes the time of that.
fn timed_checking(
    clock: &impl Clock,
    alloc: Global,
    observations: &[Observation],
    tables: &Tables,
    certificate: &Certificate,
) -> Result<Duration> {
    if observations.len() > MAX_OBSERVATIONS {
        return Err(anyhow!("too many observations"));
    }
    let watch = Watch::start(clock);
    let verdict = check(
        alloc,
        observations,
        &tables.benchmarks,
        &tables.weights,
        certificate,
    )?;
    let time = watch.time(clock);
    match verdict {
        Verdict::Yes => Ok(time),
        Verdict::No(reason) => Err(anyhow!("{reason}")),
    }
}
