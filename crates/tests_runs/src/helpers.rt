//! Runs over memory, and what they are given: sources and sinks, of which one call may fail.
ghost use Rattle.std.specs.Prelude.{◌≡◌, ◌≤◌, All, length};
ghost use Rattle.th_devices.specs.Memory.{text_sink, text_source};
ghost use Rattle.th_runs.specs.Adjusted.{adjusting};
ghost use Rattle.th_run_parts.specs.Reads.{AreRead, AreReady, refused};
ghost use Rattle.th_run_parts.specs.Writes.{AreWritable};

use crate::projects::{A_AT_100, LIMIT, ONE_SIGHT};
use std::process::Abort;
use th_checker::Verdict;
use th_devices::{TextSink, TextSource, write_all};
use th_runs::{Input, Output, Refusal, run_adjust, run_check};

/// Sinks in memory, for what an adjustment writes, in its order.
pub type Sinks = [TextSink; 4];

/// The places of an adjustment's sinks.
pub const AT_HEIGHTS: usize = 0;

pub const AT_CERTIFICATE: usize = 1;

pub const AT_REPORT: usize = 2;

pub const AT_GSI: usize = 3;

/// A book, its benchmarks and its weights.
pub type Texts<'a> = (&'a [u8], &'a [u8], &'a [u8]);

/// A source of a text, a few bytes a read.
pub fn source(text: &[u8]) -> TextSource<'_>
    ensures { result.counts.calls ≡ 0 }
{
    TextSource::new(text, 50, None)
}

/// What a sink holds before a run, which it took in three calls.
pub const HELD_BEFORE: &[u8] = b"an older text";

/// A sink that holds a text, and whose call with this number fails, counted from then on.
pub fn sink<R: AllocGlobal + Abort>(rt: &R, fail_at: Option<u8>) -> TextSink
    ensures { result.counts.calls ≤ 15 }
{
    let fail_at = fail_at.map(|call| u128::from(call) + 3);
    let mut sink = TextSink::new(rt.alloc(), 10_000, 20, fail_at).expect(rt, "memory");
    let _ = write_all(&mut sink, HELD_BEFORE);
    sink
}

/// Four sinks that fail nowhere.
pub fn sinks<R: AllocGlobal + Abort>(rt: &R) -> Sinks
    ensures { AreWritable text_sink adjusting.outputs result }
{
    [
        sink(rt, None),
        sink(rt, None),
        sink(rt, None),
        sink(rt, None),
    ]
}

/// Whether no sink was touched.
pub fn are_untouched(outs: &Sinks) -> bool {
    outs[AT_HEIGHTS].bytes() == HELD_BEFORE
        && outs[AT_CERTIFICATE].bytes() == HELD_BEFORE
        && outs[AT_REPORT].bytes() == HELD_BEFORE
        && outs[AT_GSI].bytes() == HELD_BEFORE
}

/// Adjusts one book over a benchmark table and weights into these sinks, for blunders above this limit.
pub fn adjust_into<R: AllocGlobal + Abort>(
    rt: &R,
    texts: Texts<'_>,
    limit: i64,
    outs: &mut Sinks,
) -> Result<(), Refusal>
    requires { AreWritable text_sink adjusting.outputs outs.old }
{
    let (book, benchmarks, weights) = texts;
    let mut books = [source(book)];
    let mut table = source(benchmarks);
    let mut factors = Some(source(weights));
    run_adjust(
        rt.alloc(),
        &mut books,
        &mut table,
        &mut factors,
        limit,
        outs,
    )
}

/// Adjusts one book. Returns the answer and the sinks.
pub fn adjust<R: AllocGlobal + Abort>(rt: &R, texts: Texts<'_>) -> (Result<(), Refusal>, Sinks) {
    let mut outs = sinks(rt);
    let answer = adjust_into(rt, texts, LIMIT, &mut outs);
    (answer, outs)
}

/// Adjusts what sources give. Returns the answer and the sinks.
pub fn adjust_from<R: AllocGlobal + Abort>(
    rt: &R,
    books: &mut [TextSource<'_>],
    benchmarks: &mut TextSource<'_>,
    weights: &mut Option<TextSource<'_>>,
) -> (Result<(), Refusal>, Sinks)
    requires { AreReady text_source text_source text_source books.old benchmarks.old weights.old }
    ensures { AreRead text_source text_source text_source (refused result.0) books.old books.new
        benchmarks.old benchmarks.new weights.old weights.new }
{
    let mut outs = sinks(rt);
    let answer = run_adjust(rt.alloc(), books, benchmarks, weights, LIMIT, &mut outs);
    (answer, outs)
}

/// Adjusts books without weights.
pub fn adjust_books<R: AllocGlobal + Abort>(
    rt: &R,
    books: &mut [TextSource<'_>],
) -> (Result<(), Refusal>, Sinks)
    requires few { length books.old ≤ 16 }
    requires calls { All (λ book. book.counts.calls ≡ 0) books.old }
{
    adjust_from(rt, books, &mut source(A_AT_100), &mut None)
}

/// Adjusts one book, which has to be refused so before an output is touched.
pub fn is_refused<R: AllocGlobal + Abort>(rt: &R, texts: Texts<'_>, refusal: Refusal) {
    let (answer, outs) = adjust(rt, texts);
    assert_eq!(rt; answer, Err(refusal));
    assert!(rt; are_untouched(&outs), "{refusal}");
}

/// Looks at bytes, which have to be these; `row` names them where they are not.
pub fn are_same<R: Abort>(rt: &R, found: &[u8], wanted: &[u8], row: &str) {
    assert!(rt; found == wanted, "{row}");
}

/// Checks a certificate against one book and its tables. What the sink holds has to be the line of
/// the verdict.
pub fn check<R: AllocGlobal + Abort>(
    rt: &R,
    texts: Texts<'_>,
    certificate: &[u8],
    line: &[u8],
) -> Result<Verdict, Refusal> {
    let (book, benchmarks, weights) = texts;
    let mut books = [source(book)];
    let mut table = source(benchmarks);
    let mut factors = Some(source(weights));
    let mut stated = source(certificate);
    let mut outs = [sink(rt, None)];
    let answer = run_check(
        rt.alloc(),
        &mut books,
        &mut table,
        &mut factors,
        &mut stated,
        None,
        &mut outs,
    );
    assert!(rt; outs[0].bytes() == line);
    answer
}

/// Checks a certificate, which has to be accepted.
pub fn is_accepted<R: AllocGlobal + Abort>(rt: &R, texts: Texts<'_>, certificate: &[u8]) {
    let verdict = check(rt, texts, certificate, b"yes\n");
    assert_eq!(rt; verdict, Ok(Verdict::Yes), "{certificate:?}");
}

/// Puts a byte in the place of another.
pub fn put(bytes: &mut [u8], place: usize, byte: u8) {
    if let Some(old) = bytes.get_mut(place) {
        *old = byte;
    }
}

/// Adds bytes to a text so many times.
pub fn add<R: Abort>(rt: &R, text: &mut Vec<u8>, bytes: &[u8], times: u32) {
    for _ in 0..times {
        text.extend_from_slice(bytes).expect(rt, "memory");
    }
}

/// The devices of the runs; `Stated` is the certificate that a check reads. What a review writes is from
/// `Points` to `Review`.
#[derive(Clone, Copy, Debug, PartialEq, Eq)]
pub enum Device {
    FirstBook,
    SecondBook,
    Benchmarks,
    Weights,
    Stated,
    Heights,
    Certificate,
    Report,
    Gsi,
    Verdict,
    Points,
    Observations,
    Entries,
    ReviewedBenchmarks,
    Review,
    Explanations,
    Page,
}

/// What a run answers where a device fails.
pub fn refusal_of(device: Device) -> Refusal {
    match device {
        Device::FirstBook => Refusal::Read(Input::Book(1)),
        Device::SecondBook => Refusal::Read(Input::Book(2)),
        Device::Benchmarks => Refusal::Read(Input::Benchmarks),
        Device::Weights => Refusal::Read(Input::Weights),
        Device::Stated => Refusal::Read(Input::Certificate),
        Device::Heights => Refusal::Write(Output::Heights),
        Device::Certificate => Refusal::Write(Output::Certificate),
        Device::Report => Refusal::Write(Output::Report),
        Device::Gsi => Refusal::Write(Output::Gsi),
        Device::Verdict => Refusal::Write(Output::Verdict),
        Device::Points => Refusal::Write(Output::Points),
        Device::Observations => Refusal::Write(Output::Observations),
        Device::Entries => Refusal::Write(Output::Entries),
        Device::ReviewedBenchmarks => Refusal::Write(Output::Benchmarks),
        Device::Review => Refusal::Write(Output::Review),
        Device::Explanations => Refusal::Write(Output::Explanations),
        Device::Page => Refusal::Write(Output::Page),
    }
}

/// A weight of a pair that is not observed.
const WEIGHTS: &[u8] = b"from,to,weight\nB,A,7\n";

/// A source of a text, whose read of this number fails where it is the device that is to fail.
pub fn failing_source(
    text: &'static [u8],
    own: Device,
    failing: Device,
    call: u8,
) -> TextSource<'static>
    ensures { result.counts.calls ≡ 0 }
{
    let fail_at = if own == failing {
        Some(u128::from(call))
    } else {
        None
    };
    TextSource::new(text, 50, fail_at)
}

/// A sink that holds a text, whose call of this number fails where it is the device that is to fail.
pub fn failing_sink<R: AllocGlobal + Abort>(
    rt: &R,
    own: Device,
    failing: Device,
    call: u8,
) -> TextSink
    ensures { result.counts.calls ≤ 15 }
{
    let fail_at = if own == failing { Some(call) } else { None };
    sink(rt, fail_at)
}

/// The sources of the runs of which one call fails: a book of one sight and an empty one, benchmarks
/// and weights.
pub type Sources = (
    [TextSource<'static>; 2],
    TextSource<'static>,
    Option<TextSource<'static>>,
);

/// These sources, whose call of this number may fail.
pub fn failing_sources(failing: Device, call: u8) -> Sources
    ensures { AreReady text_source text_source text_source result.0 result.1 result.2 }
{
    let books = [
        failing_source(ONE_SIGHT, Device::FirstBook, failing, call),
        failing_source(b"", Device::SecondBook, failing, call),
    ];
    let benchmarks = failing_source(A_AT_100, Device::Benchmarks, failing, call);
    let weights = failing_source(WEIGHTS, Device::Weights, failing, call);
    (books, benchmarks, Some(weights))
}

/// What a sink holds of its text where this call of it fails.
pub fn held_before(text: &[u8], call: u8) -> &[u8] {
    let written = usize::from(call).saturating_sub(2).saturating_mul(20);
    if call == 1 {
        HELD_BEFORE
    } else {
        text.get(..written).unwrap_or(text)
    }
}

/// Looks at what a run leaves where a call fails: each output, what it holds, and its text. Outputs
/// before the one that failed are whole, that one has a beginning, and those behind it, or all where
/// a read failed, are untouched.
pub fn are_left<R: Abort>(rt: &R, outputs: &[(Device, &[u8], &[u8])], failing: Device, call: u8) {
    let mut is_whole = matches!(refusal_of(failing), Refusal::Write(_));
    for (output, held, text) in outputs {
        if failing == *output {
            assert!(rt; *held == held_before(text, call), "{failing:?} call {call}");
            is_whole = false;
        } else {
            let wanted = if is_whole { *text } else { HELD_BEFORE };
            assert!(rt; *held == wanted, "{failing:?} call {call}: {output:?}");
        }
    }
}
