//! The review of one book: its counts, its entries, its odd lines, and a note if it has no sight.
use crate::counts::BookCount;
use crate::entries::Entry;
use crate::listed::Listed;
use crate::sights::NoSight;

/// What a review reports of one book.
#[derive(Drop)]
pub struct BookReview {
    pub counts: BookCount,
    /// If the book has blocks and no sight.
    pub no_sight: Option<NoSight>,
    /// The entries by line, the reflector's before the instrument's within a line.
    pub entries: Vec<Entry>,
    /// The lines, from 1, that only look like a setup: blocks with a point number and an instrument
    /// height, but with no height difference, no coordinate of the station, no angle and no distance,
    /// whose point is not the current station.
    pub lookalikes: Listed<u32>,
    /// The lines, from 1, of directions alone: sights whose words 31 and 33 are both zero.
    pub directions: Listed<u32>,
    /// The lines, from 1, of sights that enter another instrument height than the one in force before
    /// them.
    pub changes: Listed<u32>,
}
