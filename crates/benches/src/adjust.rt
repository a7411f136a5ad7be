//! The stages of an adjustment, and beside them the listing of its book.
ghost use Rattle.th_network.specs.Networks.{AreAtPoints};

use crate::answers::{Answer, timed_answer};
use crate::texts::{Tables, Texts};
use crate::times::{Watch, keep_least, print_times};
use crate::writing::{flows_of, heights_of};
use anyhow::{Result, anyhow};
use std::alloc::Global;
use std::fs;
use std::rt::{Clock, Files};
use std::time::Duration;
use th_book::read_book;
use th_certificate::write_certificate;
use th_network::{Network, Settled};
use th_observations::Observation;
use th_report::{heights_csv, heights_gsi, list_text, report_text};

/// What is timed.
const STAGES: [&str; 7] = [
    "reading", "network", "settling", "spans", "texts", "writing", "listing",
];

/// What the names of the written files end with.
const ENDINGS: [&str; 4] = [
    "heights.csv",
    "certificate.csv",
    "report.txt",
    "heights.gsi",
];

/// The residual above which an observation is reported, in units of 10 nm: 1 mm.
const LIMIT: i64 = 100_000;

/// Adjusts the network of a book, its benchmarks and its weights as `height_office adjust` does, writes
/// to files of a prefix, and prints the best time of each stage; the last is the listing of the book,
/// with the reading and the writing that belong to it.
pub fn measure<R: Clock + Files + Print + Alloc<A = Global>>(
    rt: &R,
    alloc: Global,
    repeats: u32,
    files: &[String],
) -> Result<()> {
    let [book, benchmarks, weights, prefix] = files else {
        return Err(anyhow!("a book, benchmarks, weights and a prefix"));
    };
    let inputs = [book.as_str(), benchmarks.as_str(), weights.as_str()];
    let mut best = once(rt, alloc, inputs, prefix.as_str())?;
    for _ in 0..repeats {
        keep_least(&mut best, &once(rt, alloc, inputs, prefix.as_str())?);
    }
    print_times(rt, &STAGES, &best)
}

/// Takes the time of each stage once.
fn once<R: Clock + Files + Alloc<A = Global>>(
    rt: &R,
    alloc: Global,
    inputs: [&str; 3],
    prefix: &str,
) -> Result<[Duration; 7]> {
    let [book, ..] = inputs;
    let listing = time_of_listing(rt, alloc, book, prefix)?;
    let watch = Watch::start(rt);
    let texts = Texts::read(rt, inputs)?;
    let observations = texts.observations(alloc)?;
    let tables = texts.tables(alloc)?;
    let reading = watch.time(rt);
    let [network, settling, spans, texts, writing] = times_of_adjusting(
        rt,
        alloc,
        observations,
        &tables,
        prefix,
    )?;
    Ok([reading, network, settling, spans, texts, writing, listing])
}

/// How long it takes to read a book, to make its list and to write that.
fn time_of_listing<R: Clock + Files + Alloc<A = Global>>(
    rt: &R,
    alloc: Global,
    book: &str,
    prefix: &str,
) -> Result<Duration> {
    let watch = Watch::start(rt);
    let bytes = fs::read(rt, book)?;
    let list = list_of(alloc, &bytes)?;
    write_text(rt, alloc, prefix, "list.csv", &list)?;
    let time = watch.time(rt);
    Ok(time)
}

/// The list of a book.
fn list_of(alloc: Global, bytes: &[u8]) -> Result<Vec<u8>> {
    let observations = read_book(alloc, 1, bytes).map_err(|_| anyhow!("the book"))?;
    Ok(list_text(alloc, &observations)?)
}

/// The times of the stages behind the reading.
fn times_of_adjusting<R: Clock + Files>(
    rt: &R,
    alloc: Global,
    observations: Vec<Observation>,
    tables: &Tables,
    prefix: &str,
) -> Result<[Duration; 5]> {
    let watch = Watch::start(rt);
    let network = tables.network(alloc, observations)?;
    let building = watch.time(rt);
    let answer = timed_answer(rt, alloc, &network)?;
    let [printing, writing] = times_of_printing(rt, alloc, &network, &answer, prefix)?;
    Ok([
        building,
        answer.settling,
        answer.spanning,
        printing,
        writing,
    ])
}

/// The times of the stages behind the spans.
fn times_of_printing<R: Clock + Files>(
    rt: &R,
    alloc: Global,
    network: &Network,
    answer: &Answer,
    prefix: &str,
) -> Result<[Duration; 2]>
    requires low { AreAtPoints network.now answer.now.spans.low.items }
    requires high { AreAtPoints network.now answer.now.spans.high.items }
{
    let watch = Watch::start(rt);
    let outputs = outputs_of(alloc, network, answer)?;
    let printing = watch.time(rt);
    let watch = Watch::start(rt);
    for (ending, text) in ENDINGS.iter().zip(&outputs) {
        write_text(rt, alloc, prefix, ending, text)?;
    }
    let writing = watch.time(rt);
    Ok([printing, writing])
}

/// The texts that are written of an adjustment, whose heights are the lowest ones.
fn outputs_of(alloc: Global, network: &Network, answer: &Answer) -> Result<[Vec<u8>; 4]>
    requires low { AreAtPoints network.now answer.now.spans.low.items }
    requires high { AreAtPoints network.now answer.now.spans.high.items }
{
    let Answer { settled, spans, .. } = answer;
    let low = spans.low.as_slice();
    let printed = Settled {
        heights: heights_of(alloc, network, low)?,
        flows: flows_of(alloc, network, settled.flows.as_slice())?,
    };
    Ok([
        heights_csv(alloc, network, low, spans.high.as_slice())?,
        write_certificate(alloc, network, &printed, spans)?,
        report_text(alloc, network, low, LIMIT)?,
        heights_gsi(alloc, network, low)?,
    ])
}

/// Writes a text to the file of a prefix and an ending.
fn write_text(
    files: &impl Files,
    alloc: Global,
    prefix: &str,
    ending: &str,
    text: &[u8],
) -> Result<()> {
    let name = format!(in alloc; "{prefix}.{ending}")?;
    fs::write(files, name.as_str(), text)?;
    Ok(())
}
