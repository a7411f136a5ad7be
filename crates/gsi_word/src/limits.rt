//! How many bytes a name and a word have at most.

/// The most bytes that a name has.
pub const MAX_NAME: usize = 16;

/// The most bytes that a word has, with the space that closes it.
pub const MAX_WORD: usize = 24;
