//! The strengths of a network's points and the controls of its observations.
use crate::texts::Texts;
use crate::times::Watch;
use anyhow::{Result, anyhow};
use std::alloc::Global;
use std::rt::{Clock, Files};
use std::time::Duration;
use th_network::Network;
use th_progress::Silent;
use th_reliability::Reliability;

/// How long it takes to find all strengths and controls, the sum of the strengths, and the sum of the
/// least cuts that part the ends of the observations.
#[derive(Clone, Copy)]
struct Run {
    time: Duration,
    strengths: u64,
    between: u64,
}

/// Reads a book, its benchmarks and its weights from the files, and prints one line: the best time in
/// microseconds, and the two sums.
pub fn measure<R: Clock + Files + Print + Alloc<A = Global>>(
    rt: &R,
    alloc: Global,
    repeats: u32,
    files: &[String],
) -> Result<()> {
    let [book, benchmarks, weights] = files else {
        return Err(anyhow!("a book, benchmarks and weights"));
    };
    let texts = Texts::read(rt, [book.as_str(), benchmarks.as_str(), weights.as_str()])?;
    let run = best_run(rt, alloc, &texts, repeats)?;
    print_run(rt, &run)
}

fn print_run(out: &impl Print, run: &Run) -> Result<()> {
    let micros = run.time.as_micros();
    let Run {
        strengths,
        between,
        ..
    } = *run;
    println!(out; "{micros} {strengths} {between}")?;
    Ok(())
}

/// What the runs over a network find, which is always the same, with the best time.
fn best_run(clock: &impl Clock, alloc: Global, texts: &Texts, repeats: u32) -> Result<Run> {
    let tables = texts.tables(alloc)?;
    let network = tables.network(alloc, texts.observations(alloc)?)?;
    let mut best = once(clock, alloc, &network)?;
    for _ in 0..repeats {
        best.time = best.time.min(once(clock, alloc, &network)?.time);
    }
    Ok(best)
}

/// Finds strengths and controls once.
fn once(clock: &impl Clock, alloc: Global, network: &Network) -> Result<Run> {
    let watch = Watch::start(clock);
    let found = Reliability::of(alloc, network, &mut Silent)?;
    let time = watch.time(clock);
    Ok(Run {
        time,
        strengths: sum_of(&found.strengths),
        between: cuts_between_ends(network, &found.controls),
    })
}

/// The sum of the numbers that are there.
fn sum_of(numbers: &[Option<u32>]) -> u64 {
    let mut sum = 0u64;
    for number in numbers.iter().flatten() {
        sum = sum.saturating_add(u64::from(*number));
    }
    sum
}

/// The sum of the least cuts that part the ends of observations: of each its control and its weight.
fn cuts_between_ends(network: &Network, controls: &[Option<u32>]) -> u64 {
    let mut sum = sum_of(controls);
    for (number, control) in controls.iter().enumerate() {
        if control.is_some() && number < network.observations().len() {
            sum = sum.saturating_add(u64::from(network.weight(number)));
        }
    }
    sum
}
