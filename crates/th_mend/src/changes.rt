//! What a record of a table changes in a book.
use gsi_word::Name;
use th_entries::HeightKind;

/// Which words of a keyed-in height change.
#[derive(Clone, Copy, Debug, PartialEq, Eq)]
pub enum Reach {
    /// All words of the entry that is in force in the line.
    Whole,
    /// Only those from the line on. A line without such a word gets one.
    Since,
}

/// What changes in a book. Lengths are in units of 10 nm, at most 10 km in size.
#[derive(Clone, Copy, Debug)]
pub enum What {
    /// `87`, `88`, `87 since`, `88 since`: the keyed-in height that is in force in the line.
    Height(HeightKind, Reach, i64),
    /// `33` with a value: the word 33 of a sight.
    Sighted(i64),
    /// `33` without a value: the sight is left out.
    LeftOut,
    /// `sign`: the sign of the word 33 of a sight.
    OtherSign,
    /// `to`: the target of a sight.
    Target(Name),
    /// `from`: the station of a setup.
    Station(Name),
}

/// A change of a line of a book, counted from 1.
#[derive(Clone, Copy, Debug)]
pub struct Change {
    pub line: u32,
    pub what: What,
}
