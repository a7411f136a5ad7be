//! How many things a review lists, and of how many setups and sights it compares the names.

/// The most things of a kind that a review lists.
pub const MAX_LISTED: usize = 1_000;

/// The most setups and sights whose names a review compares. A network takes at most `MAX_OBSERVATIONS`
/// sights.
pub const MAX_MENTIONS: u32 = 200_000;
