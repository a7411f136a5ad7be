//! What a review can note, and the kinds of which only so many are listed.
use gsi_word::Name;
use th_entries::NoSight;

/// The kinds of notes on a line of a book.
#[derive(Clone, Copy, Debug)]
pub enum LineKind {
    /// A block looks like a setup, and is none.
    Lookalike,
    /// A sight enters another instrument height than the one in force before it.
    OtherHeight,
    /// A sight is a direction alone: its words 31 and 33 are both zero.
    Direction,
}

/// The kinds of notes that are many where somebody made them so. Each is listed at most
/// `th_entries::MAX_LISTED` times.
#[derive(Clone, Copy, Debug)]
pub enum Kind {
    Lines(LineKind),
    Weights,
    Benchmarks,
    Hanging,
    Once,
    Twins,
    Spellings,
    Formulas,
}

/// A point that is used once, and another one that it may be. Their heights are so far apart, in units of
/// 10 nm.
#[derive(Clone, Copy, Debug)]
pub struct Pair {
    pub name: Name,
    pub other: Name,
    pub apart: u32,
}

/// What a review notes. Books, lines and the records of a table count from 1. A table's first
/// record is its header.
#[derive(Clone, Copy, Debug)]
pub enum Note {
    /// A book has blocks and no sight.
    NoSight(NoSight),
    /// A book has the same observations as an earlier one.
    SameObservations {
        book: u32,
        earlier: u32,
    },
    /// A line of a book is odd in this way.
    Line {
        kind: LineKind,
        book: u32,
        line: u32,
    },
    /// A row of the table of weights is for a pair that was never observed, nor was it turned round.
    UnusedWeight {
        row: u64,
        station: Name,
        target: Name,
    },
    /// A row of the table of weights is for a pair that was observed from its target alone.
    TurnedWeight {
        row: u64,
        station: Name,
        target: Name,
    },
    /// A benchmark was never observed.
    UnseenBenchmark {
        row: u64,
        name: Name,
    },
    /// A part of the network has this benchmark alone.
    OneBenchmark {
        name: Name,
    },
    /// A part of the network has these two benchmarks alone.
    TwoBenchmarks {
        name: Name,
        other: Name,
    },
    /// A point that is no benchmark has one observation, on this line.
    SightedOnce {
        book: u32,
        line: u32,
        name: Name,
    },
    /// A point may be another one. This line is the first on which it is used.
    Twin {
        book: u32,
        line: u32,
        pair: Pair,
    },
    /// A name is spelled in another way than before.
    Respelled {
        book: u32,
        line: u32,
        name: Name,
    },
    /// The name of a point reads as a formula in a spreadsheet.
    Formula {
        name: Name,
    },
    /// There are so many more notes of a kind, which are not listed.
    More {
        kind: Kind,
        count: u64,
    },
}
