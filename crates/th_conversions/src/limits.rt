//! How large a table of differences may be, and the unit of the lengths that are printed.

/// The most bytes that a table of differences has: 4 MiB.
pub const MAX_DIFFERENCES: usize = 4_194_304;

/// One unit of a printed length, 1/100 mm, in units of 10 nm.
pub(crate) const HUNDREDTH: u64 = 1_000;
