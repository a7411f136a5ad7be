//! A number that somebody read or typed, and where it is.
ghost use Rattle.std.specs.Prelude.{◌≡◌, ◌≤◌, length, unsigned_abs};
ghost use Rattle.th_observations.specs.Observed.{largest_difference};
ghost use Rattle.th_network.specs.Limits.{max_observations};
ghost use Rattle.th_numbers.specs.Candidates.{count_in, entered_kind, entered_label, given_of, label_of, number_of, number_over, sight_count, sight_of, since_kind, since_label, sights_since, touches, whole_of};
ghost use Rattle.th_network.specs.Links.{base};

use gsi_word::Name;
use th_changes::Number;
use th_entries::{Entry, HeightKind};
use th_explain_texts::Kind;
use th_network::Network;
use th_observations::Observation;
use th_reliability::{Runs, Sights};
use th_review_rows::sights_of;
use th_tables::Benchmarks;

/// A number of a survey that somebody read or typed, and that may be wrong. Lines and records count
/// from 1.
#[derive(Clone, Copy, Debug)]
pub enum Candidate {
    /// The length of an entry.
    Entered(Entry),
    /// A change that was forgotten: the length of an entry, for its sights from this line on.
    Since(Entry, u32),
    /// The difference of an observation.
    Sight(Observation),
    /// The height of a benchmark, with its record in the table.
    Benchmark(u32, Name),
}

/// Which number it is, in the columns of a row.
#[derive(Clone, Copy, Debug)]
pub struct Label {
    pub kind: Kind,
    pub book: Option<u32>,
    pub line: Option<u32>,
    pub last: Option<u32>,
    pub from: Option<Name>,
    pub to: Option<Name>,
}

impl Candidate {
    /// What it changes.
    pub fn number(&self) -> Number
        ensures { result ≡ number_of self.now }
    {
        match self {
            Candidate::Entered(entry) => number_over(entry.kind, sights_of(entry)),
            Candidate::Since(entry, line) => number_over(entry.kind, sights_since(entry, *line)),
            Candidate::Sight(o) => Number::Added(sight_of(o)),
            Candidate::Benchmark(_, name) => Number::Benchmark(*name),
        }
    }

    /// The whole entry of a change that was forgotten.
    pub fn whole(&self) -> Option<Number>
        ensures { result ≡ whole_of self.now }
    {
        match self {
            Candidate::Since(entry, _) => Some(number_over(entry.kind, sights_of(entry))),
            _ => None,
        }
    }

    /// The value that somebody read or typed, in units of 10 nm: the height of a benchmark is that of
    /// the table.
    pub fn given(&self, benchmarks: &Benchmarks) -> i64
        ensures value { result ≡ given_of benchmarks.now self.now }
        ensures small { unsigned_abs result ≤ largest_difference }
    {
        match self {
            Candidate::Entered(entry) => entry.length.get(),
            Candidate::Since(entry, _) => entry.length.get(),
            Candidate::Sight(o) => o.difference(),
            Candidate::Benchmark(_, name) => height_of(benchmarks, name),
        }
    }

    /// Which number it is.
    pub fn label(&self) -> Label
        ensures { result ≡ label_of self.now }
    {
        match self {
            Candidate::Entered(entry) => entered_label(entry),
            Candidate::Since(entry, line) => since_label(entry, *line),
            Candidate::Sight(o) => {
                let (station, target) = o.ends();
                Label {
                    kind: Kind::Sight,
                    book: Some(o.book),
                    line: Some(o.line),
                    last: None,
                    from: Some(station),
                    to: Some(target),
                }
            }
            Candidate::Benchmark(record, name) => Label {
                kind: Kind::Benchmark,
                book: None,
                line: Some(*record),
                last: None,
                from: Some(*name),
                to: None,
            },
        }
    }
}

/// The columns of an entry.
fn entered_label(entry: &Entry) -> Label
    ensures { result ≡ entered_label entry.now }
{
    Label {
        kind: entered_kind(entry.kind),
        book: Some(entry.book),
        line: Some(entry.line),
        last: Some(entry.repeated),
        from: Some(entry.station),
        to: None,
    }
}

/// The columns of a change of an entry that was forgotten.
fn since_label(entry: &Entry, line: u32) -> Label
    ensures { result ≡ since_label entry.now line }
{
    Label {
        kind: since_kind(entry.kind),
        book: Some(entry.book),
        line: Some(line),
        last: None,
        from: Some(entry.station),
        to: None,
    }
}

/// The kind of an entered height.
fn entered_kind(kind: HeightKind) -> Kind
    ensures { result ≡ entered_kind kind }
{
    match kind {
        HeightKind::Instrument => Kind::Instrument,
        HeightKind::Reflector => Kind::Reflector,
    }
}

/// The kind of a change of a height that was forgotten.
fn since_kind(kind: HeightKind) -> Kind
    ensures { result ≡ since_kind kind }
{
    match kind {
        HeightKind::Instrument => Kind::InstrumentSince,
        HeightKind::Reflector => Kind::ReflectorSince,
    }
}

/// A height over some sights: that of the instrument adds to their differences.
fn number_over(kind: HeightKind, sights: Sights) -> Number
    ensures { result ≡ number_over kind sights }
{
    match kind {
        HeightKind::Instrument => Number::Added(sights),
        HeightKind::Reflector => Number::Subtracted(sights),
    }
}

/// The sights of an entry from a line on.
pub(crate) fn sights_since(entry: &Entry, line: u32) -> Sights
    ensures { result ≡ sights_since entry.now line }
{
    Sights {
        book: entry.book,
        first: line,
        last: entry.last,
    }
}

/// The sight of an observation alone.
fn sight_of(o: &Observation) -> Sights
    ensures { result ≡ sight_of o.now }
{
    Sights {
        book: o.book,
        first: o.line,
        last: o.line,
    }
}

/// The height of a benchmark in the table.
fn height_of(benchmarks: &Benchmarks, name: &Name) -> i64
    ensures height { result ≡ base benchmarks.now name.now }
    ensures small { unsigned_abs result ≤ largest_difference }
{
    benchmarks.height_of(name).unwrap_or(0)
}

/// How many observations of a network a number touches.
pub fn sight_count(network: &Network, number: &Number) -> u32
    ensures count { result ≡ sight_count network.now number.now }
{
    let mut count = 0;
    for o in network.observations() {
        if number.touch(o) != 0 {
            count += 1;
        }
    }
    count
}

/// How many of the observations in runs are among some sights.
pub(crate) fn count_in(runs: &Runs<'_>, sights: &Sights) -> usize
    ensures { result ≡ count_in runs.now.observations.now sights.now }
{
    match runs.exact_run(sights) {
        Some((start, end)) => end - start,
        None => count_among(runs.observations, sights),
    }
}

/// How many observations are among some sights, with a look at each.
fn count_among(observations: &[Observation], sights: &Sights) -> usize
    ensures { result ≡ count_in observations.now sights.now }
{
    let mut count = 0;
    for o in observations {
        if sights.hold(o) {
            count += 1;
        }
    }
    count
}
