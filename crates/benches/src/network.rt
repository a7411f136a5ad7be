//! The reading of a large book, the reading of its tables, and the building of their network.
use crate::large::Large;
use crate::texts::Texts;
use crate::times::{Watch, keep_least, print_times};
use anyhow::Result;
use std::alloc::Global;
use std::rt::Clock;
use std::time::Duration;

/// What is timed, in this order.
const STEPS: [&str; 3] = ["read_book", "read tables", "Network::build"];

/// Takes the times, and prints the best of each step.
pub fn measure<R: Clock + Print>(rt: &R, alloc: Global, repeats: u32) -> Result<()> {
    let large = Large::new(alloc)?;
    let mut best = once(rt, alloc, &large.texts)?;
    for _ in 0..repeats {
        keep_least(&mut best, &once(rt, alloc, &large.texts)?);
    }
    print_times(rt, &STEPS, &best)
}

/// Takes the time of each step once.
fn once(clock: &impl Clock, alloc: Global, texts: &Texts) -> Result<[Duration; 3]> {
    let watch = Watch::start(clock);
    let observations = texts.observations(alloc)?;
    let book = watch.time(clock);
    let watch = Watch::start(clock);
    let tables = texts.tables(alloc)?;
    let reading = watch.time(clock);
    let watch = Watch::start(clock);
    let network = tables.network(alloc, observations)?;
    let building = watch.time(clock);
    drop(network);
    Ok([book, reading, building])
}
