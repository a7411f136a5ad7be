//! Reviews over devices in memory: what they write of small networks, and each read and each write
//! refused in turn.
ghost use Rattle.std.specs.Prelude.{◌≤◌};
ghost use Rattle.th_devices.specs.Memory.{text_sink};
ghost use Rattle.th_runs.specs.Reviewed.{reviewing};
ghost use Rattle.th_run_parts.specs.Writes.{AreWritable};

use crate::helpers::{Device, add, are_left, failing_sink, failing_sources, refusal_of, source};
use crate::projects::{A_AT_100, LIMIT};
use crate::review_rows::{
    ALONE, BENCHMARKS_ALONE, NO_OBSERVATIONS, NOTHING, ODD, ONE_SIGHT_WRITTEN, Row, Written,
};
use std::process::Abort;
use th_devices::{TextSink, TextSource};
use th_progress::Silent;
use th_runs::{Refusal, Review, ReviewReader, run_command};

/// The sinks of a review, in memory, in its order.
type ReviewSinks = [TextSink; 5];

/// The names of the inputs of a review of one book, and of two.
const NAMES: [&str; 3] = ["monday.gsi", "marks.csv", "weights.csv"];

const NAMES_OF_TWO: [&str; 4] = ["monday.gsi", "none.gsi", "marks.csv", "weights.csv"];

/// The devices of that review, and how often each is called: a source gives 50 bytes a read, and the
/// last read finds its end; a sink takes 20 bytes a write, beside `begin` and `finish`.
const CALLS: [(Device, u8); 9] = [
    (Device::FirstBook, 4),
    (Device::SecondBook, 1),
    (Device::Benchmarks, 2),
    (Device::Weights, 2),
    (Device::Points, 8),
    (Device::Observations, 9),
    (Device::Entries, 10),
    (Device::ReviewedBenchmarks, 7),
    (Device::Review, 123),
];

/// The outputs, in the order in which they are written.
const OUTPUTS: [Device; 5] = [
    Device::Points,
    Device::Observations,
    Device::Entries,
    Device::ReviewedBenchmarks,
    Device::Review,
];

/// The places of their sinks.
const AT_POINTS: usize = 0;

const AT_OBSERVATIONS: usize = 1;

const AT_ENTRIES: usize = 2;

const AT_BENCHMARKS: usize = 3;

const AT_REVIEW: usize = 4;

/// The sinks of a review, one of whose calls may fail.
fn failing_sinks<R: AllocGlobal + Abort>(rt: &R, failing: Device, call: u8) -> ReviewSinks
    ensures { AreWritable text_sink reviewing.outputs result }
{
    [
        failing_sink(rt, Device::Points, failing, call),
        failing_sink(rt, Device::Observations, failing, call),
        failing_sink(rt, Device::Entries, failing, call),
        failing_sink(rt, Device::ReviewedBenchmarks, failing, call),
        failing_sink(rt, Device::Review, failing, call),
    ]
}

/// What an output holds.
fn held_by(outs: &ReviewSinks, output: Device) -> &[u8] {
    match output {
        Device::Points => outs[AT_POINTS].bytes(),
        Device::Observations => outs[AT_OBSERVATIONS].bytes(),
        Device::Entries => outs[AT_ENTRIES].bytes(),
        Device::ReviewedBenchmarks => outs[AT_BENCHMARKS].bytes(),
        _ => outs[AT_REVIEW].bytes(),
    }
}

/// Looks at what a review leaves, which has to be these texts.
fn are_written<R: Abort>(rt: &R, outs: &ReviewSinks, written: &Written) {
    for (output, text) in OUTPUTS.into_iter().zip(written.iter()) {
        assert!(rt; held_by(outs, output) == *text, "{output:?}");
    }
}

/// Reviews one book, whose review has to be this.
fn try_row<R: AllocGlobal + Abort>(rt: &R, row: &Row) {
    let (book, benchmarks, weights) = row.texts;
    let mut books = [source(book)];
    let mut table = source(benchmarks);
    let mut factors = Some(source(weights));
    let mut outs = failing_sinks(rt, Device::Verdict, 1);
    let answer = run_command(
        rt.alloc(),
        &Review {
            limit: LIMIT,
            names: &NAMES,
        },
        &mut ReviewReader::new(rt.alloc()),
        &mut books,
        &mut table,
        &mut factors,
        &mut outs,
        &mut Silent,
    );
    assert_eq!(rt; answer, Ok(()));
    are_written(rt, &outs, &row.written);
}

#[test]
fn networks_with_little_in_them_are_reviewed(rt: HostRuntime) {
    try_row(&rt, &NOTHING);
    try_row(&rt, &ALONE);
    try_row(&rt, &BENCHMARKS_ALONE);
    try_row(&rt, &ODD);
}

/// Reviews two books, the second of them empty, where one call fails; what is answered, and the sinks.
fn review_where<R: AllocGlobal + Abort>(
    rt: &R,
    failing: Device,
    call: u8,
) -> (Result<(), Refusal>, ReviewSinks) {
    let (mut books, mut table, mut weights) = failing_sources(failing, call);
    let mut outs = failing_sinks(rt, failing, call);
    let answer = run_command(
        rt.alloc(),
        &Review {
            limit: LIMIT,
            names: &NAMES_OF_TWO,
        },
        &mut ReviewReader::new(rt.alloc()),
        &mut books,
        &mut table,
        &mut weights,
        &mut outs,
        &mut Silent,
    );
    (answer, outs)
}

/// Reviews where a call fails, which has to be answered as such.
fn refuse<R: AllocGlobal + Abort>(rt: &R, failing: Device, call: u8) {
    let (answer, outs) = review_where(rt, failing, call);
    assert_eq!(rt; answer, Err(refusal_of(failing)), "call {call}");
    let [points, observations, entries, benchmarks, review] = ONE_SIGHT_WRITTEN;
    let outputs = [
        (Device::Points, outs[AT_POINTS].bytes(), points),
        (
            Device::Observations,
            outs[AT_OBSERVATIONS].bytes(),
            observations,
        ),
        (Device::Entries, outs[AT_ENTRIES].bytes(), entries),
        (
            Device::ReviewedBenchmarks,
            outs[AT_BENCHMARKS].bytes(),
            benchmarks,
        ),
        (Device::Review, outs[AT_REVIEW].bytes(), review),
    ];
    are_left(rt, &outputs, failing, call);
}

#[test]
fn each_call_of_a_review_is_refused_in_turn(rt: HostRuntime) {
    for (device, calls) in CALLS {
        for call in 1..=calls {
            refuse(&rt, device, call);
        }
        let (answer, outs) = review_where(&rt, device, calls.wrapping_add(1));
        assert_eq!(rt; answer, Ok(()), "{device:?}");
        are_written(&rt, &outs, &ONE_SIGHT_WRITTEN);
    }
}

/// How many sights a network takes.
const SIGHTS: u32 = 40_000;

/// A sink with room for what a review writes of so many sights.
fn wide_sink<R: AllocGlobal + Abort>(rt: &R) -> TextSink
    ensures { result.counts.calls ≤ 15 }
{
    TextSink::new(rt.alloc(), 8_388_608, 65_536, None).expect(rt, "memory")
}

/// As many sights as a network takes, all from A to B.
fn one_pair<R: AllocGlobal + Abort>(rt: &R) -> Vec<u8> {
    let setup = b"110001+0000000A 84..10+00000000 88..10+00001500 87..10+00001300 \n";
    let mut book = setup.to_vec(rt.alloc()).expect(rt, "memory");
    add(rt, &mut book, b"110002+0000000B 33..00+00002345 \n", SIGHTS);
    book
}

/// Their table of observations, each of weight 1,000.
fn observations_of_one_pair<R: AllocGlobal + Abort>(rt: &R) -> Vec<u8> {
    let mut table = NO_OBSERVATIONS.to_vec(rt.alloc()).expect(rt, "memory");
    for number in 1..=SIGHTS {
        let line = number + 1;
        let row = format!(in rt.alloc();
            "{number},1,{line},A,B,2.54500000,1000,0.00000000,39999000,shows,,,\n"
        ).expect(rt, "memory");
        table.extend_from_slice(row.as_bytes()).expect(rt, "memory");
    }
    table
}

/// The table of points of so many sights of the greatest weight, that of entries, and that of benchmarks.
const HEAVY_POINTS: &[u8] = b"point,height,low,high,strength
A,100.00000000,100.00000000,100.00000000,
B,102.54500000,102.54500000,102.54500000,40000000
";

const HEAVY_ENTRIES: &[u8] =
    b"book,line,word,station,length,sights,weight,mistake,moves,blames,blamed
1,1,87,A,1.30000000,40000,40000000,unchecked,1,0,
1,1,88,A,1.50000000,40000,40000000,unchecked,1,0,
";

const HEAVY_BENCHMARKS: &[u8] = b"point,height,sights,weight,strength,mistake,moves,blames,blamed
A,100.00000000,40000,40000000,,unchecked,1,0,
";

#[test]
fn one_pair_is_reviewed(rt: HostRuntime) {
    let book = one_pair(&rt);
    let mut books = [TextSource::new(&book, 65_536, None)];
    let mut benchmarks = source(A_AT_100);
    let mut weights = Some(source(b"from,to,weight\nA,B,1000\n"));
    let mut outs = [
        wide_sink(&rt),
        wide_sink(&rt),
        wide_sink(&rt),
        wide_sink(&rt),
        wide_sink(&rt),
    ];
    let answer = run_command(
        rt.alloc(),
        &Review {
            limit: LIMIT,
            names: &NAMES,
        },
        &mut ReviewReader::new(rt.alloc()),
        &mut books,
        &mut benchmarks,
        &mut weights,
        &mut outs,
        &mut Silent,
    );
    assert_eq!(rt; answer, Ok(()));
    assert!(rt; outs[AT_POINTS].bytes() == HEAVY_POINTS);
    let observations = observations_of_one_pair(&rt);
    assert!(rt; outs[AT_OBSERVATIONS].bytes() == observations.as_slice());
    assert!(rt; outs[AT_ENTRIES].bytes() == HEAVY_ENTRIES);
    assert!(rt; outs[AT_BENCHMARKS].bytes() == HEAVY_BENCHMARKS);
    assert!(rt;
        outs[AT_REVIEW]
            .bytes()
            .starts_with(b"HEIGHT NETWORK REVIEW\n")
    );
}
