//! The nearest of the heights that were offered.
ghost use Rattle.std.specs.Prelude.{◌≡◌, ◌≤◌, length, take};
ghost use Rattle.std.specs.List.{insert};
ghost use Rattle.th_meant.specs.Meant.{named_of};
ghost use Rattle.th_meant.specs.Inside.Nearest.{is_at, is_wanted, place_of, placed, with_offer, with_offers};

use crate::limits::MAX_NAMED;
use crate::proposed::Proposed;
use arrayvec::ArrayVec;

/// One more than are named, so that it shows when there are more.
const MAX_KEPT: usize = MAX_NAMED + 1;

/// The heights that are kept, the nearest to the middle first.
pub(crate) type Kept = ArrayVec<i64, MAX_KEPT>;

/// What is looked for: heights that fit, but not the given one.
#[derive(Clone, Copy, Debug)]
pub(crate) struct Sought {
    pub proposed: Proposed,
    pub given: i64,
}

impl Sought {
    /// Whether a height is looked for.
    fn is_wanted(&self, height: i64) -> bool
        ensures { result ≡ is_wanted self.now height }
    {
        height != self.given && self.proposed.hold(height)
    }
}

/// Offers a height: it is kept if it is looked for, is not there yet, and is among the nearest.
pub(crate) fn offer(kept: &mut Kept, sought: &Sought, height: i64)
    ensures { kept.new.items ≡ with_offer sought.now kept.old.items height }
{
    if sought.is_wanted(height) {
        add(kept, &sought.proposed, height);
    }
}

/// Offers each of some heights.
pub(crate) fn offer_all(kept: &mut Kept, sought: &Sought, heights: &[i64])
    ensures { kept.new.items ≡ with_offers sought.now kept.old.items heights.now }
{
    for height in heights {
        offer(kept, sought, *height);
    }
}

/// Puts a height in its place, unless it is there.
fn add(kept: &mut Kept, proposed: &Proposed, height: i64)
    ensures { kept.new.items ≡ take 4 (placed proposed.now height kept.old.items) }
{
    let place = place_of(kept, proposed, height);
    if is_at(kept, place, height) {
        return;
    }
    put(kept, place, height);
}

/// Whether a height is at a place.
fn is_at(kept: &[i64], place: usize, height: i64) -> bool
    ensures { result ≡ is_at kept.now place height }
{
    match kept.get(place) {
        Some(own) => *own == height,
        None => false,
    }
}

/// How many of the heights that are kept are nearer.
fn place_of(kept: &[i64], proposed: &Proposed, height: i64) -> usize
    ensures place { result ≡ place_of proposed.now height kept.now }
    ensures within { result ≤ length kept.now }
{
    for (place, own) in kept.iter().enumerate() {
        if !proposed.is_nearer(*own, height) {
            return place;
        }
    }
    kept.len()
}

/// Puts a height at a place, and drops the last one where there is no room.
fn put(kept: &mut Kept, place: usize, height: i64)
    requires { place ≤ length kept.old.items }
    ensures { kept.new.items ≡ take 4 (insert kept.old.items place height) }
{
    if kept.is_full() {
        if place == MAX_KEPT {
            return;
        }
        kept.pop();
    }
    kept.insert(place, height);
}

/// The heights that are named: those that are kept, or none if they are too many.
pub(crate) fn named(kept: &Kept) -> ArrayVec<i64, MAX_NAMED>
    ensures { result.items ≡ named_of kept.now.items }
{
    let mut named = ArrayVec::new();
    if kept.len() <= MAX_NAMED {
        for height in kept.as_slice() {
            named.push(*height);
        }
    }
    named
}
