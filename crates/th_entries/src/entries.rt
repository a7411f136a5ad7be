//! Instrument heights and reflector heights that a book enters, and the sights that use each.
use gsi_word::Name;
use th_units::{Len, Unit};

/// Which height a line enters: that of the reflector above the target (word 87), or that of the
/// instrument above the station (word 88).
#[derive(Clone, Copy, Debug, PartialEq, Eq)]
pub enum HeightKind {
    Reflector,
    Instrument,
}

/// A height that a line of a book enters and at least one sight uses.
///
/// The sights that use it are exactly those from its line to `last`. The number of the book and the
/// lines count from 1.
#[derive(Clone, Copy, Debug)]
pub struct Entry {
    pub book: u32,
    pub line: u32,
    pub kind: HeightKind,
    /// The station of the sights that use the height.
    pub station: Name,
    pub length: Len,
    /// The unit of its word on that line.
    pub unit: Unit,
    /// The last line whose word repeats the height in the setup. Its own line if none does.
    pub repeated: u32,
    /// How many sights use the height.
    pub sights: u32,
    /// The line of the last sight that uses the height.
    pub last: u32,
}
