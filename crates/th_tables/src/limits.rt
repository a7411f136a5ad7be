//! How many bytes a table may have, and how many digits a weight.

/// The most bytes that a table has: 1 MiB.
pub const MAX_TABLE: usize = 1_048_576;

/// The most digits that a weight has, leading zeros included.
pub const MAX_WEIGHT_DIGITS: usize = 4;
