//! Which bytes are digits, and the number that digits write.
ghost use Rattle.std.specs.Prelude.{◌≡◌, ◌≢◌, ◌≤◌, get_or, length, true};
ghost use Rattle.std.specs.List.{list_all};
ghost use Rattle.th_units.specs.Lengths.{is_digit, are_digits, number};

use crate::limits::MAX_DIGITS;

/// Whether there is at least one byte, and each is a digit.
pub fn are_digits(bytes: &[u8]) -> bool
    ensures { result ≡ are_digits bytes.now }
{
    let mut all = !bytes.is_empty();
    for byte in bytes {
        all &= is_digit(*byte);
    }
    all
}

/// Whether a byte is one of the characters '0' to '9'.
pub fn is_digit(byte: u8) -> bool
    ensures { result ≡ is_digit byte }
{
    b'0' <= byte && byte <= b'9'
}

/// Some digits without the zeros that they begin with.
pub(crate) fn without_zeros(digits: &[u8]) -> &[u8]
    requires { list_all is_digit digits.now ≡ true }
    ensures digits { list_all is_digit result.now ≡ true }
    ensures number { number result.now ≡ number digits.now }
    ensures first { get_or result.now 0 49 ≢ 48 }
{
    let mut left = digits;
    while let [b'0', rest @ ..] = left {
        left = rest;
    }
    left
}

/// The number that at most `MAX_DIGITS` digits write; 0 for no digits.
pub(crate) fn number(digits: &[u8]) -> u64
    requires digits { list_all is_digit digits.now ≡ true }
    requires short { length digits.now ≤ MAX_DIGITS }
    ensures { result ≡ number digits.now }
{
    let mut number = 0;
    for digit in digits {
        number = 10 * number + u64::from(*digit - b'0');
    }
    number
}
