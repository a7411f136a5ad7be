//! Why a length or a name has no place in a word.

/// Why a word cannot have a length or a name. A length has the first kind that applies, in this order.
#[derive(Clone, Copy, Debug, PartialEq, Eq)]
pub enum Misfit {
    /// Position 6 of the word is not the code of a unit.
    NoUnit,
    /// The length is no whole number of the word's unit.
    NotWhole,
    /// The number has more digits than the word's data.
    TooManyDigits,
    /// The name has more bytes than the word's data.
    LongName,
}
