//! What can be wrong with a length that is read.

/// Why digits and a unit give no length.
#[derive(Clone, Copy, Debug, PartialEq, Eq)]
pub enum LenFault {
    /// There is no byte, or one that the form does not allow.
    NotDigits,
    /// The length is too large to be read.
    TooLarge,
}
