//! A point with its distance.
use gsi_word::Name;

/// A point of a network, and how far it is from what is read, in units of 10 nm.
#[derive(Clone, Copy, Debug)]
pub struct Located {
    pub point: Name,
    pub distance: u128,
}
