//! Numbers of one to nine digits, which are short enough for 32 bits.
ghost use Rattle.std.specs.Prelude.{◌≡◌};
ghost use Rattle.th_units.specs.Lengths.{short_number};

use crate::limits::MAX_SHORT;
use crate::numbers::{are_digits, number};

/// The number that one to nine digits write, or `None` for any other text.
pub fn short_number(bytes: &[u8]) -> Option<u32>
    ensures { result ≡ short_number bytes.now }
{
    if are_digits(bytes) && bytes.len() <= MAX_SHORT {
        Some(number(bytes) as u32)
    } else {
        None
    }
}
