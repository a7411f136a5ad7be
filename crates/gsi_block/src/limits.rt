//! How many bytes of a line are read, kept or written at most, and how many words a block has.
use gsi_word::MAX_WORD;

/// The most bytes that a line of a book has, without its end.
pub const MAX_LINE: usize = 1_600;

/// The most words that a block has.
pub const MAX_WORDS: usize = 64;

/// The most bytes that `Lines` keeps of a line: one more than `MAX_LINE`.
pub const MAX_KEPT: usize = MAX_LINE + 1;

/// The most bytes that a block is written in: `*`, its words, CR and LF.
pub(crate) const MAX_WRITTEN: usize = 1 + MAX_WORDS * MAX_WORD + 2;
