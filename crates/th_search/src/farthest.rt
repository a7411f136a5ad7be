//! How large a distance can be.
use crate::limits::MAX_COST;
use th_limits::MAX_POINTS;

/// The size that no distance exceeds: an arc of the greatest cost for each vertex but one.
pub(crate) const FARTHEST: i64 = MAX_POINTS as i64 * MAX_COST as i64;
