//! The settling of a network, and the finding of the lowest and highest best heights.
use crate::answers::timed_answer;
use crate::texts::Texts;
use crate::times::keep_least;
use anyhow::{Result, anyhow};
use std::alloc::Global;
use std::rt::{Clock, Files};
use std::time::Duration;
use th_network::{Network, Settled};

/// How often a search is called more than steps are counted.
const PHASES: u128 = 44;

/// What one settling took, the finding of the spans behind it, and what it gave.
#[derive(Clone, Copy)]
struct Run {
    times: [Duration; 2],
    steps: u128,
    gain: i128,
}

/// Reads a book, its benchmarks and its weights from the files, and prints one line: the best time of
/// `settle` and that of `spans` in microseconds, the steps, the calls of the search, and what the flows
/// gain, which is what the heights cost.
pub fn measure<R: Clock + Files + Print + Alloc<A = Global>>(
    rt: &R,
    alloc: Global,
    repeats: u32,
    files: &[String],
) -> Result<()> {
    let [book, benchmarks, weights] = files else {
        return Err(anyhow!("a book, benchmarks and weights"));
    };
    let texts = Texts::read(rt, [book.as_str(), benchmarks.as_str(), weights.as_str()])?;
    let run = best_run(rt, alloc, &texts, repeats)?;
    print_run(rt, &run)
}

fn print_run(out: &impl Print, run: &Run) -> Result<()> {
    let [settling, spanning] = run.times.map(|time| time.as_micros());
    let steps = run.steps;
    let calls = steps.wrapping_add(PHASES);
    let gain = run.gain;
    println!(out; "{settling} {spanning} {steps} {calls} {gain}")?;
    Ok(())
}

/// What the settlings of a network give, which is always the same, with the best times.
fn best_run(clock: &impl Clock, alloc: Global, texts: &Texts, repeats: u32) -> Result<Run> {
    let tables = texts.tables(alloc)?;
    let network = tables.network(alloc, texts.observations(alloc)?)?;
    let mut best = once(clock, alloc, &network)?;
    for _ in 0..repeats {
        keep_least(&mut best.times, &once(clock, alloc, &network)?.times);
    }
    Ok(best)
}

/// Settles a network once, and finds its spans.
fn once(clock: &impl Clock, alloc: Global, network: &Network) -> Result<Run> {
    let answer = timed_answer(clock, alloc, network)?;
    Ok(Run {
        times: [answer.settling, answer.spanning],
        steps: answer.steps,
        gain: gain_of(network, &answer.settled),
    })
}

/// What the flows gain: the sum of each flow times its difference.
fn gain_of(network: &Network, settled: &Settled) -> i128 {
    let mut gain = 0i128;
    for (link, flow) in network.arcs().iter().zip(&settled.flows) {
        gain = gain.wrapping_add(i128::from(link.diff).wrapping_mul(i128::from(*flow)));
    }
    gain
}
