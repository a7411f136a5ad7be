//! What the texts of `explain` consist of: a row for each number that explains, and a summary.
use gsi_word::Name;
use th_entries::HeightKind;

/// Which kind of number it is.
#[derive(Clone, Copy, Debug, PartialEq, Eq)]
pub enum Kind {
    /// An instrument height, as a book enters it.
    Instrument,
    /// A reflector height, as a book enters it.
    Reflector,
    /// An instrument height that changed, which was not entered.
    InstrumentSince,
    /// A reflector height that changed, which was not entered.
    ReflectorSince,
    /// The difference of one observation.
    Sight,
    /// The height of a benchmark.
    Benchmark,
    /// Word 33 of a book.
    Book,
}

/// The values of a number, in units of 10 nm.
#[derive(Clone, Copy, Debug)]
pub struct Values {
    /// The value that somebody read or typed.
    pub given: i64,
    /// The lowest value that is proposed.
    pub low: i64,
    /// The highest value that is proposed.
    pub high: i64,
}

/// A number that explains what does not fit. Costs are in units of 10 nm times weight.
#[derive(Clone, Copy, Debug)]
pub struct Row {
    /// The number of the row, from 1. Rows that explain equally have one number.
    pub number: u32,
    pub kind: Kind,
    /// The number of the book, from 1. A benchmark has none.
    pub book: Option<u32>,
    /// The line in the book, or the record of a benchmark, from 1. A book has none.
    pub line: Option<u32>,
    /// The last line whose word repeats an entered height, or its own line. Other numbers have none.
    pub last: Option<u32>,
    /// The station, or the benchmark.
    pub from: Option<Name>,
    /// The target of a sight.
    pub to: Option<Name>,
    /// How many sights the number has.
    pub sights: u32,
    /// Its values. A book has none.
    pub values: Option<Values>,
    /// How much of the cost the number explains.
    pub explains: u128,
    /// The cost that is left.
    pub left: u128,
    /// How many blunders are left.
    pub blunders: u32,
}

/// A height that may have been meant in place of one that was keyed in. Lengths are in units of 10 nm.
#[derive(Clone, Copy, Debug)]
pub struct Named {
    /// The place of its row, from 0.
    pub row: usize,
    /// Whether it is the height of the instrument or that of the reflector. A sight has both.
    pub height: HeightKind,
    /// The height that was keyed in.
    pub typed: i64,
    /// The height that may have been meant.
    pub meant: i64,
    /// Whether sights that the number does not have use what may have been meant.
    pub elsewhere: bool,
    /// Whether no sights but those of the number use the height that was keyed in.
    pub whole: bool,
}

/// What is read otherwise in a reading.
#[derive(Clone, Copy, Debug)]
pub enum ReadAs {
    /// The target of a sight: this point.
    Target(Name),
    /// The station of a setup: this point.
    Station(Name),
    /// The name in the row of a benchmark: that of this point.
    Point(Name),
    /// The sign of word 33.
    OtherSign,
}

/// A number that fits if a name is read otherwise, or the sign of its word 33.
#[derive(Clone, Copy, Debug)]
pub struct ReadingRow {
    /// The place of its row, from 0.
    pub row: usize,
    /// What is read otherwise.
    pub read: ReadAs,
    /// How far what is read is from what fits, in units of 10 nm.
    pub fit: u64,
}

/// What was looked at, in numbers.
#[derive(Clone, Copy, Debug)]
pub struct Summary {
    /// The least cost, in units of 10 nm times weight.
    pub cost: u128,
    /// The limit of blunders, in units of 10 nm.
    pub limit: i64,
    /// How many blunders are marked.
    pub marked: usize,
    /// How many sights there are.
    pub sights: usize,
    /// How many entered heights.
    pub entries: usize,
    /// How many changes that may have been forgotten.
    pub changes: usize,
    /// How many benchmarks.
    pub benchmarks: usize,
    /// How many books.
    pub books: usize,
}
