//! Lengths of a book, from a sign, digits and a unit, within 10 km of zero.
ghost use Rattle.std.specs.Prelude.{◌≡◌, ◌≤◌, true, unsigned_abs};
ghost use Rattle.std.specs.List.{list_all};
ghost use Rattle.std.specs.Option.{SomeIff};
ghost use Rattle.th_units.specs.Lengths.{length_of, is_digit, number};
ghost use Rattle.th_units.specs.Limits.{max_len};

use crate::faults::LenFault;
use crate::limits::MAX_LEN_DIGITS;
use crate::numbers::{are_digits, number, without_zeros};
use crate::units::{Unit, step};
use std::marker::Model;
use th_limits::MAX_LEN;

/// A length of a book in units of 10 nm, at most `MAX_LEN` in size.
#[derive(Clone, Copy, Debug, PartialEq, Eq)]
pub struct Len {
    units: i64,
}

impl Model for Len {
    ghost use Rattle.std.specs.Prelude.{ℤ, ◌≤◌, unsigned_abs};
    ghost use Rattle.th_units.specs.Limits.{max_len};

    ghost Value = { ℤ };

    ghost view = { λ length. length.units };

    ghost invariant = { λ length. unsigned_abs length.units ≤ max_len };

    ghost inverse = { λ units. record { units = units } };
}

impl Len {
    /// The length in units of 10 nm.
    pub fn get(self) -> i64
        ensures value { result ≡ self }
        ensures in_range { unsigned_abs result ≤ max_len }
    {
        self.units
    }
}

/// The length that a sign, digits and a unit give.
///
/// The digits may have any number of leading zeros. `NotDigits` if there is no byte, or one that is
/// not a digit; `TooLarge` if the size is above `MAX_LEN`.
pub fn to_len(negative: bool, digits: &[u8], unit: Unit) -> Result<Len, LenFault>
    ensures { result ≡ length_of negative digits.now unit }
{
    if !are_digits(digits) {
        return Err(LenFault::NotDigits);
    }
    let Some(number) = number_within_limit(digits) else {
        return Err(LenFault::TooLarge);
    };
    let size = number as i64 * step(unit);
    if size > MAX_LEN as i64 {
        return Err(LenFault::TooLarge);
    }
    Ok(Len {
        units: if negative { -size } else { size },
    })
}

/// The number that digits write; `None` if it is above `MAX_LEN`.
fn number_within_limit(digits: &[u8]) -> Option<u64>
    requires { list_all is_digit digits.now ≡ true }
    ensures { SomeIff result (number digits.now ≤ max_len) (number digits.now) }
{
    let significant = without_zeros(digits);
    if significant.len() > MAX_LEN_DIGITS {
        return None;
    }
    let number = number(significant);
    if number > MAX_LEN {
        return None;
    }
    Some(number)
}
