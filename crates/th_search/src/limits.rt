//! How many vertices and arcs a search takes, and how large a cost may be.
use th_limits::{LARGEST_LINK_DIFFERENCE, MAX_OBSERVATIONS, MAX_POINTS};

/// The most vertices that are searched: one for all benchmarks, and the points.
pub const MAX_VERTICES: u32 = MAX_POINTS as u32 + 1;

/// The most arcs that are searched: two for each observation.
pub const MAX_ARCS: usize = 2 * MAX_OBSERVATIONS;

/// The greatest size of a cost: twice the largest difference of a link, 10^13.
pub const MAX_COST: u64 = 2 * LARGEST_LINK_DIFFERENCE;
