//! Times the steps of a network, for the benchmarks.
//!
//! The first word of the command line names what is measured, the second says how often to repeat, and
//! the rest are names of files:
//!
//! - `network`: the reading of a large book, the reading of its tables, and the building of their network;
//! - `settle`, with a book, its benchmarks and its weights: settling, and finding the spans;
//! - `review`, with the same: finding all strengths and controls;
//! - `certificate`: the writing, the reading and the checking of a certificate, beside the reading of its
//!   book; it is written to a file, if one is named;
//! - `adjust`, with a book, its benchmarks, its weights and a prefix: each stage of an adjustment, which is
//!   written to files of the prefix, and the listing of its book;
//! - `names`, with a file of names, one a line: putting them into a map that hashes without a seed.
//!
//! The best time of each step is printed. Without two words nothing is done.
#![tactic(auto)]

// What is measured.
mod answers;
mod large;
mod texts;
mod times;
mod writing;

// The measurements.
mod adjust;
mod certificate;
mod names;
mod network;
mod review;
mod settle;

use anyhow::{Context, Result, anyhow};
use std::env;
use std::rt::Env;

fn main(rt: HostRuntime) -> Result<()> {
    let words: Vec<String> = env::args(&rt)?.collect(rt.alloc())?;
    let [_, what, repeats, files @ ..] = words.as_slice() else {
        return Ok(());
    };
    let repeats = repeats.parse::<u32>().context("how often to repeat")?;
    match what.as_str() {
        "network" => network::measure(&rt, rt.alloc(), repeats),
        "settle" => settle::measure(&rt, rt.alloc(), repeats, files),
        "review" => review::measure(&rt, rt.alloc(), repeats, files),
        "certificate" => certificate::measure(&rt, rt.alloc(), repeats, files),
        "adjust" => adjust::measure(&rt, rt.alloc(), repeats, files),
        "names" => names::measure(&rt, rt.alloc(), repeats, files),
        _ => Err(anyhow!("network, settle, review, certificate, adjust or names")),
    }
}
