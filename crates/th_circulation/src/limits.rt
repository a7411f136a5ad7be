//! Limits of a settling: its phases, the room on a residual arc, and the size of a height.
use th_search::MAX_COST;
use th_tables::MAX_WEIGHT;

/// How many phases a settling has: the differences of links, with their sign, have 44 binary digits.
pub(crate) const PHASES: u32 = 44;

/// The most that there can be room for on a residual arc: twice the greatest weight.
pub(crate) const MOST_ROOM: u32 = 2 * MAX_WEIGHT;

/// The greatest size of a height within a phase: a quarter of the greatest cost of an arc.
pub(crate) const MOST_HEIGHT: i64 = MAX_COST as i64 / 4;
