//! What a row holds: a point, observation, entry or benchmark, with what was found of it.
use gsi_word::Name;
use th_entries::Entry;
use th_observations::Observation;
use th_reliability::{Blame, Mistake, SharedMistake};

/// A point of a network, and what was found of it. Heights are in units of 10 nm.
#[derive(Clone, Copy, Debug)]
pub struct PointRow {
    pub name: Name,
    /// The lowest of its best heights.
    pub low: i64,
    /// The highest of them.
    pub high: i64,
    /// The highest less the lowest.
    pub spread: i64,
    /// The strength, none for a benchmark.
    pub strength: Option<u32>,
    /// Whether one observation alone holds it.
    pub alone: bool,
}

/// An end of an observation.
#[derive(Clone, Copy, Debug)]
pub struct End {
    /// The place of the point in point order, from 0.
    pub place: u64,
    /// The lowest of its best heights, in units of 10 nm.
    pub low: i64,
}

/// An observation of a network, and what was found of it.
#[derive(Clone, Copy, Debug)]
pub struct ObservationRow {
    /// The number, from 1.
    pub number: u32,
    pub observation: Observation,
    pub weight: u32,
    /// The residual at the lowest of the best heights, in units of 10 nm.
    pub residual: i64,
    /// The control, none between two benchmarks.
    pub control: Option<u32>,
    /// What a mistake in it would do.
    pub mistake: Mistake,
    /// What that would move, and what would be blamed for it; `None` where it shows.
    pub blame: Option<Blame>,
    /// The station.
    pub from: End,
    /// The target.
    pub to: End,
}

/// An entry of a book, and what was found of it.
#[derive(Clone, Copy, Debug)]
pub struct EntryRow {
    pub entry: Entry,
    /// The sum of the weights of its sights.
    pub weight: u32,
    /// What a mistake in it would do.
    pub mistake: SharedMistake,
    /// What that would move, and what would be blamed for it; `None` where it shows.
    pub blame: Option<Blame>,
}

/// A benchmark, and what was found of it.
#[derive(Clone, Copy, Debug)]
pub struct BenchmarkRow {
    pub name: Name,
    /// Its height in the table, in units of 10 nm.
    pub height: i64,
    /// How many observations have an end there.
    pub sights: usize,
    /// What they weigh together.
    pub weight: u32,
    /// The strength; `None` if there is no other benchmark.
    pub strength: Option<u32>,
    /// What a wrong height would do; `None` if no observation has an end there.
    pub mistake: Option<SharedMistake>,
    /// What that would move, and what would be blamed for it; `None` where it shows, or does nothing.
    pub blame: Option<Blame>,
}
