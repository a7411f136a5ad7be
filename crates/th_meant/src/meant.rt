//! The heights that may have been meant.
ghost use Rattle.std.specs.Prelude.{◌≡◌};
ghost use Rattle.th_meant.specs.Meant.{AreNamed, is_among};
ghost use Rattle.th_meant.specs.Inside.Nearest.{either_of, meant_in, with_offers};

use crate::limits::MAX_NAMED;
use crate::nearest::{Kept, Sought, named, offer_all};
use crate::proposed::Proposed;
use crate::slips::offer_slips;
use crate::typed::Typed;
use arrayvec::ArrayVec;

/// The heights that may have been meant in place of one that was keyed in, in units of 10 nm: up to
/// three, the nearest to the middle of those that fit first. None are named where there are more.
///
/// They are not the given height, and they fit, or are at most the tolerance outside. `others` are the
/// heights of the same kind that other sights use, in any order. If the given height is one of them, it
/// was not mistyped but not keyed in again, as when a pole was changed: then each is one of the others.
/// If not, each is a slip of the given height.
///
/// A slip has another digit in one place, or two neighbouring digits exchanged. The digits are those
/// of the number of whole units, with zeros before it up to four: 0.07 m in millimetres is `0070`. Sign
/// and unit stay. A slip of more than 10 km, which no word holds, is none.
pub fn meant_of(typed: &Typed, others: &[i64], proposed: &Proposed) -> ArrayVec<i64, MAX_NAMED>
    ensures named { AreNamed typed.now others.now proposed.now result.items }
    ensures computed { result.items ≡ meant_in typed.now others.now proposed.now }
{
    let sought = Sought {
        proposed: *proposed,
        given: typed.given.get(),
    };
    let mut kept = ArrayVec::new();
    offer_either(&mut kept, &sought, typed, others);
    named(&kept)
}

/// Offers the other heights where the given one is among them, or else its slips.
fn offer_either(kept: &mut Kept, sought: &Sought, typed: &Typed, others: &[i64])
    ensures { kept.new.items ≡ with_offers sought.now kept.old.items (either_of typed.now others.now) }
{
    if is_among(typed.given.get(), others) {
        offer_all(kept, sought, others);
    } else {
        offer_slips(kept, sought, typed);
    }
}

/// Whether a height is one of some.
fn is_among(height: i64, heights: &[i64]) -> bool
    ensures { result ≡ is_among height heights.now }
{
    heights.iter().any(|own| *own == height)
}
