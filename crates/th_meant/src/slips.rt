//! The slips of the digits of a height.
ghost use Rattle.std.specs.Prelude.{◌≡◌, ◌<◌, ◌≤◌, ◌+◌, length, slice_set};
ghost use Rattle.th_meant.specs.Inside.Nearest.{with_offers};
ghost use Rattle.th_meant.specs.Inside.Slips.{all_read, change_to, changes_at, differs_behind, exchanged_at, exchanges_at, read_in, slips_at, slips_of};

use crate::nearest::{Kept, Sought, offer};
use crate::typed::{Digits, Typed};
use arrayvec::ArrayVec;
use th_units::to_len;

/// The digits, in ASCII.
const DIGITS: [u8; 10] = *b"0123456789";

/// Offers each slip of a height.
pub(crate) fn offer_slips(kept: &mut Kept, sought: &Sought, typed: &Typed)
    ensures { kept.new.items ≡ with_offers sought.now kept.old.items (slips_of typed.now) }
{
    let digits = typed.digits();
    for place in 0..digits.len() {
        offer_at(kept, sought, typed, &digits, place);
    }
}

/// Offers each slip at a place.
fn offer_at(kept: &mut Kept, sought: &Sought, typed: &Typed, digits: &[u8], place: usize)
    requires few { length digits.now ≤ 20 }
    requires within { place < length digits.now }
    ensures { kept.new.items
        ≡ with_offers sought.now kept.old.items (all_read typed.now (slips_at digits.now place)) }
{
    offer_changes(kept, sought, typed, digits, place);
    offer_exchange(kept, sought, typed, digits, place);
}

/// Offers each slip that changes the digit at a place.
fn offer_changes(kept: &mut Kept, sought: &Sought, typed: &Typed, digits: &[u8], place: usize)
    requires few { length digits.now ≤ 20 }
    requires within { place < length digits.now }
    ensures { kept.new.items
        ≡ with_offers sought.now kept.old.items (all_read typed.now (changes_at digits.now place)) }
{
    for digit in &DIGITS {
        offer_change(kept, sought, typed, digits, (place, *digit));
    }
}

/// Offers the slip that puts another digit into a place.
fn offer_change(kept: &mut Kept, sought: &Sought, typed: &Typed, digits: &[u8], other: (usize, u8))
    requires few { length digits.now ≤ 20 }
    requires within { other.0 < length digits.now }
    ensures { kept.new.items
        ≡ with_offers sought.now kept.old.items (all_read typed.now (change_to digits.now other.0 other.1)) }
{
    let (place, digit) = other;
    if digit != digits[place] {
        offer_read(kept, sought, typed, &changed(digits, place, digit));
    }
}

/// Offers the slip that exchanges the digit at a place with the one behind it.
fn offer_exchange(kept: &mut Kept, sought: &Sought, typed: &Typed, digits: &[u8], place: usize)
    requires few { length digits.now ≤ 20 }
    requires within { place < length digits.now }
    ensures { kept.new.items
        ≡ with_offers sought.now kept.old.items (all_read typed.now (exchanges_at digits.now place)) }
{
    if place + 1 < digits.len() && digits[place + 1] != digits[place] {
        offer_read(kept, sought, typed, &exchanged(digits, place));
    }
}

/// Digits with another one at a place.
fn changed(digits: &[u8], place: usize, digit: u8) -> Digits
    requires few { length digits.now ≤ 20 }
    requires within { place < length digits.now }
    ensures { result.items ≡ slice_set digits.now place digit }
{
    let mut own = copied(digits);
    own[place] = digit;
    own
}

/// Digits with those at a place and behind it exchanged.
fn exchanged(digits: &[u8], place: usize) -> Digits
    requires few { length digits.now ≤ 20 }
    requires within { place + 1 < length digits.now }
    ensures { result.items ≡ exchanged_at digits.now place }
{
    let mut own = copied(digits);
    own[place] = digits[place + 1];
    own[place + 1] = digits[place];
    own
}

/// A copy of digits.
fn copied(digits: &[u8]) -> Digits
    requires { length digits.now ≤ 20 }
    ensures { result.items ≡ digits.now }
{
    let mut own = ArrayVec::new();
    for digit in digits {
        own.push(*digit);
    }
    own
}

/// Offers the length that some digits write for a height, if it is one of a book.
fn offer_read(kept: &mut Kept, sought: &Sought, typed: &Typed, digits: &[u8])
    ensures { kept.new.items ≡ with_offers sought.now kept.old.items (read_in typed.now digits.now) }
{
    let negative = typed.given.get() < 0;
    if let Ok(length) = to_len(negative, digits, typed.unit) {
        offer(kept, sought, length.get());
    }
}
