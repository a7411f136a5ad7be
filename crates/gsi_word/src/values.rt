//! The values of a word: its index of two digits, and its length in units of 10 nm.
ghost use Rattle.std.specs.Prelude.{◌≡◌};
ghost use Rattle.gsi_word.specs.Values.{two_digit, length_of};
ghost use Rattle.gsi_word.specs.Words.{parts_of};

use crate::faults::LengthFault;
use crate::words::Word;
use th_units::{Len, LenFault, are_digits, to_len, unit_of};

/// The index of a word with a dot at position 3; `None` for other words, whose index has three
/// digits.
pub fn two_digit(word: &Word) -> Option<u8>
    ensures { result ≡ two_digit (parts_of word.now) }
{
    let [first, ..] = word.info();
    if first == b'.' {
        Some(word.index())
    } else {
        None
    }
}

/// The length of a word, in units of 10 nm: its sign and data, in the unit of position 6.
///
/// The data are tested before the unit, and the unit before the size (Leica GSI Online manual,
/// units).
pub fn length_of(word: &Word) -> Result<Len, LengthFault>
    ensures { result ≡ length_of (parts_of word.now) }
{
    let [_, _, _, code] = word.info();
    match unit_of(code) {
        Some(unit) => to_len(word.negative(), word.body(), unit).map_err(|fault| match fault {
            LenFault::NotDigits => LengthFault::BadNumber,
            LenFault::TooLarge => LengthFault::TooLarge,
        }),
        None if are_digits(word.body()) => Err(LengthFault::BadUnit),
        None => Err(LengthFault::BadNumber),
    }
}
