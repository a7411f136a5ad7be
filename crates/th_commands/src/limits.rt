//! How large the values of options may be on the command line.

/// The largest limit of blunders that a command takes, in micrometres: 1,000 m.
pub const MAX_BLUNDER: u32 = 1_000_000_000;

/// The limit of blunders where none is given, in micrometres: 20 mm.
pub(crate) const DEFAULT_BLUNDER: u32 = 20_000;

/// The most characters of a title.
pub const MAX_TITLE: usize = 100;
