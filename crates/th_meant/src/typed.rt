//! A height as it was keyed in, and its digits.
ghost use Rattle.std.specs.Prelude.{◌≡◌, ◌≤◌, ◌-◌, Ok, length, option_to_list, replicate};
ghost use Rattle.std.specs.Result.{result_ok};
ghost use Rattle.std.specs.Int.{is_negative};
ghost use Rattle.th_units.specs.Lengths.{length_of};
ghost use Rattle.th_meant.specs.Slips.{digits_of, number_of, padded};

use arrayvec::ArrayVec;
use itoa::Buffer;
use th_units::{Len, Unit, step};

/// The most digits of a number of 64 bits.
const MAX_DIGITS: usize = 20;

/// How many digits people see of a height that has fewer: zeros are before it.
const LEAST_DIGITS: usize = 4;

/// The digits of a number, in ASCII.
pub(crate) type Digits = ArrayVec<u8, MAX_DIGITS>;

/// A height as it was keyed in.
#[derive(Clone, Copy, Debug)]
pub struct Typed {
    /// What its word writes. Its number is that of the whole units in it.
    pub given: Len,
    /// The unit of its word.
    pub unit: Unit,
}

impl Typed {
    /// Its digits as they were typed.
    pub(crate) fn digits(&self) -> Digits
        ensures { result.items ≡ digits_of self.now }
    {
        let mut buffer = Buffer::new();
        padded(buffer.format(self.number()).as_bytes())
    }

    /// Its number, without the sign.
    fn number(&self) -> u64
        ensures { result ≡ number_of self.now }
    {
        self.given.get().unsigned_abs() / step(self.unit).unsigned_abs()
    }
}

/// Digits with zeros before them, up to four.
fn padded(digits: &[u8]) -> Digits
    requires { length digits.now ≤ 20 }
    ensures { result.items ≡ padded digits.now }
{
    let mut all = zeros(LEAST_DIGITS.saturating_sub(digits.len()));
    for digit in digits {
        all.push(*digit);
    }
    all
}

/// Some zeros.
fn zeros(count: usize) -> Digits
    requires { count ≤ 4 }
    ensures { result.items ≡ replicate count 48 }
{
    let mut all = ArrayVec::new();
    while all.len() < count {
        all.push(b'0');
    }
    all
}
