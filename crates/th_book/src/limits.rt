//! The limit of a book.

/// The most bytes that a book has: 64 MiB.
pub const MAX_BOOK: usize = 67_108_864;
