//! How many digits numbers and texts in metres may have.

/// The most digits of a short number.
pub const MAX_SHORT: usize = 9;

/// The most digits that are read as a number: it is below 10^18, and so fits 64 bits.
pub(crate) const MAX_DIGITS: usize = 18;

/// The most digits of a number up to `MAX_LEN`, leading zeros not counted.
pub(crate) const MAX_LEN_DIGITS: usize = 13;

/// The most digits that a text in metres may have before its dot, leading zeros included.
pub(crate) const MAX_WHOLE_DIGITS: usize = MAX_SHORT;

/// The most decimals that a text in metres may have. The last of eight counts units of 10 nm.
pub(crate) const MAX_DECIMALS: usize = 8;
