//! How many bytes a table of changes may have.

/// The most bytes that a table of changes has: 64 KiB.
pub const MAX_CHANGES: usize = 65_536;
