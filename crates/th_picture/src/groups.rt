//! The groups of sights.
ghost use Rattle.std.specs.Prelude.{◌≡◌, ◌≤◌, length};
ghost use Rattle.th_picture.specs.Groups.{group_count, is_drawn, is_in, letter_of, most_of, occurs, undrawn_count, undrawn_in};

use crate::drawn::DrawnSight;
use th_answer::Group;

/// The groups, in the order in which they are drawn: what fits lies under what is in question.
pub(crate) const GROUPS: [Group; 5] = [
    Group::Fits,
    Group::Unlike,
    Group::Cleared,
    Group::Stays,
    Group::Question,
];

/// A group of at most so many sights has thick lines.
pub(crate) const FEW: u64 = 60;

/// A group with more sights is not drawn.
const MANY: u64 = 2_000;

/// Nor are sights that fit, if there are more.
const MANY_FIT: u64 = 4_000;

/// The letter that names a group.
pub(crate) fn letter_of(group: Group) -> u8
    ensures { result ≡ letter_of group }
{
    match group {
        Group::Question => b'a',
        Group::Stays => b's',
        Group::Cleared => b'c',
        Group::Unlike => b'v',
        Group::Fits => b'q',
    }
}

/// Whether a sight is in a group.
pub fn is_in(group: Group, sight: &DrawnSight) -> bool
    ensures { result ≡ is_in group sight.now }
{
    letter_of(sight.group) == letter_of(group)
}

/// How many sights a group has.
pub fn group_count(group: Group, sights: &[DrawnSight]) -> u64
    ensures { result ≡ group_count group sights.now }
{
    let mut count = 0;
    for sight in sights {
        if is_in(group, sight) {
            count += 1;
        }
    }
    count
}

/// The most sights of a group that are drawn.
fn most_of(group: Group) -> u64
    ensures { result ≡ most_of group }
{
    match group {
        Group::Question | Group::Stays | Group::Cleared | Group::Unlike => MANY,
        Group::Fits => MANY_FIT,
    }
}

/// Whether a group has sights.
pub(crate) fn occurs(sights: &[DrawnSight], group: Group) -> bool
    ensures { result ≡ occurs sights.now group }
{
    0 < group_count(group, sights)
}

/// Whether a group has sights, and not too many to be drawn.
pub(crate) fn is_drawn(sights: &[DrawnSight], group: Group) -> bool
    ensures { result ≡ is_drawn sights.now group }
{
    occurs(sights, group) && group_count(group, sights) <= most_of(group)
}

/// How many sights of a group are not drawn.
#[tactic(auto, unfolding(crate::specs::Groups::undrawn_in))]
fn undrawn_in(sights: &[DrawnSight], group: Group) -> u64
    ensures { result ≡ undrawn_in sights.now group }
{
    let count = group_count(group, sights);
    if count <= most_of(group) { 0 } else { count }
}

/// How many sights are not drawn, because their groups have too many.
pub fn undrawn_count(sights: &[DrawnSight]) -> u128
    ensures { result ≡ undrawn_count sights.now }
{
    u128::from(undrawn_in(sights, Group::Fits))
        + u128::from(undrawn_in(sights, Group::Unlike))
        + u128::from(undrawn_in(sights, Group::Cleared))
        + u128::from(undrawn_in(sights, Group::Stays))
        + u128::from(undrawn_in(sights, Group::Question))
}
