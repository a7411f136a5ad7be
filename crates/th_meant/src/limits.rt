//! How many heights are named.

/// The most heights that are named as meant: with more of them none is.
pub const MAX_NAMED: usize = 3;
