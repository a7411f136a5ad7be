//! How large lengths, weights, networks and commands may be, and how many calls contracts cover.

/// The size that no length of a book exceeds: 10 km, in units of 10 nm.
pub const MAX_LEN: u64 = 1_000_000_000_000;

/// The largest weight of an observation.
pub const MAX_WEIGHT: u32 = 1_000;

/// The most observations that a network takes.
pub const MAX_OBSERVATIONS: usize = 40_000;

/// The most points that a network takes.
pub const MAX_POINTS: usize = 4_000;

/// The most books that a command takes.
pub const MAX_BOOKS: usize = 16;

/// The most calls of a device or a search that contracts cover. The counts, which have 128 bits, can
/// hold more.
pub const MAX_CALLS: u128 = 1_000_000_000_000_000_000_000_000_000_000_000_000;

/// The most calls of a device or a search that may have been made before a run. Those of the run
/// then stay below `MAX_CALLS`.
pub const CALLS_BEFORE: u128 = 1_000_000_000_000_000_000_000_000_000_000;

/// The size that no observed difference exceeds: it is a sum of three lengths.
pub const LARGEST_DIFFERENCE: u64 = 3 * MAX_LEN;

/// The size that no difference of a link exceeds: an observed difference, and the heights of two
/// benchmarks.
pub const LARGEST_LINK_DIFFERENCE: u64 = LARGEST_DIFFERENCE + 2 * MAX_LEN;
