//! A name that is spelled in more than one way, and where that first shows.
use gsi_word::Name;

/// The first line at which a name is spelled otherwise than before: in other bytes behind the
/// leading zeros that reduce to the same name. The number of the book and the line count from 1.
#[derive(Clone, Copy, Debug)]
pub struct Spelling {
    pub book: u32,
    pub line: u32,
    pub name: Name,
}
