//! The filling of a map of names that hashes without a seed.
use crate::times::{Watch, keep_least};
use anyhow::{Result, anyhow};
use gsi_word::name_of;
use std::alloc::Global;
use std::fs;
use std::rt::{Clock, Files};
use std::time::Duration;
use th_hash::{HashSeed, NameSet};

/// Reads the names of a file, one a line, and prints the best time of putting them into a map, in
/// microseconds.
pub fn measure<R: Clock + Files + Print + Alloc<A = Global>>(
    rt: &R,
    alloc: Global,
    repeats: u32,
    files: &[String],
) -> Result<()> {
    let [file] = files else {
        return Err(anyhow!("a file of names"));
    };
    let text = fs::read(rt, file.as_str())?;
    let mut best = [once(rt, alloc, &text)?];
    for _ in 0..repeats {
        keep_least(&mut best, &[once(rt, alloc, &text)?]);
    }
    let [time] = best.map(|time| time.as_micros());
    println!(rt; "{time}")?;
    Ok(())
}

/// Takes the time once.
fn once(clock: &impl Clock, alloc: Global, text: &[u8]) -> Result<Duration> {
    let watch = Watch::start(clock);
    let mut names = NameSet::with_hasher(alloc, HashSeed::none());
    for line in text.split(|byte| *byte == b'\n') {
        if let Some(name) = name_of(line) {
            names.insert(name)?;
        }
    }
    Ok(watch.time(clock))
}
