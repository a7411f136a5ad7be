//! All that a page shows, as rows and texts that it borrows.
use th_answer::Answer;
use th_explain_texts::Row;
use th_inputs::Sum;
use th_review_rows::{BenchmarkRow, EntryRow, ObservationRow, PointRow};

/// What would explain the marks of a network.
#[derive(Clone, Copy)]
pub struct Explained<'a> {
    /// The least cost, in units of 10 nm times weight.
    pub cost: u128,
    /// The limit of blunders, in units of 10 nm.
    pub limit: i64,
    /// The numbers that would explain most, each with its row.
    pub rows: &'a [Row],
    /// What the rows say: sentences, each on a line.
    pub sentences: &'a [u8],
    /// What the rows mean for sights, heights and benchmarks.
    pub answer: &'a Answer,
}

/// What a page shows.
#[derive(Clone, Copy)]
pub struct Shown<'a> {
    pub title: &'a [u8],
    /// The names of the inputs, without their folders.
    pub names: &'a [&'a [u8]],
    /// The sums of the inputs.
    pub sums: &'a [Sum],
    /// The points, in point order.
    pub points: &'a [PointRow],
    /// The observations, in their order.
    pub sights: &'a [ObservationRow],
    /// The entries of all books.
    pub entries: &'a [EntryRow],
    /// The rows of the table of benchmarks.
    pub benchmarks: &'a [BenchmarkRow],
    /// The sentences of the explanations.
    pub says: &'a [&'a [u8]],
    /// The lines of notes.
    pub notes: &'a [&'a [u8]],
    /// What would explain the marks.
    pub explained: Explained<'a>,
}
