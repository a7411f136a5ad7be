//! What is known of a change: its fault in its line, and how far it reaches.
use crate::faults::MendKind;

/// What is known of a change behind its line. Places count lines from 0.
#[derive(Clone, Copy, Debug)]
pub(crate) struct Spot {
    /// The fault of the change in its line.
    pub(crate) fault: Option<MendKind>,
    /// The line of the entry that is in force there, for a height, or the line itself.
    pub(crate) home: Option<u32>,
    /// The last line with the same home.
    pub(crate) last: Option<u32>,
}
