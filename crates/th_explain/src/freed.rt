//! What is left if a number is freed, and the changes of it that are proposed.
//!
//! What a survey costs as one number grows is convex. So from two changes, one where the cost falls
//! and one where it rises, the least cost is found between them, and how far it reaches.
ghost use Rattle.std.specs.Prelude.{◌≡◌, ◌≤◌, ◌+ℤ◌, ◌<ℤ◌, pos, IfOk, IfSome, unsigned_abs};
ghost use Rattle.th_observations.specs.Observed.{largest_difference};
ghost use Rattle.th_explain.specs.Explained.{IsExact, mildest};
ghost use Rattle.th_explain.specs.Inside.Brackets.{AreRound, IsAbove, IsBelow, IsHighest, IsLowest, IsNearest};
ghost use Rattle.th_changes.specs.Slopes.{IsSloped};

use std::alloc::{AllocError, Global};
use th_changes::{Number, Sloped, slope_at};
use th_network::Network;

/// What is left if a number is freed, and the changes of it that are proposed. Lengths are in units
/// of 10 nm.
#[derive(Clone, Copy, Debug, PartialEq, Eq)]
pub struct Freed {
    /// The least cost over all changes of the number.
    pub left: u128,
    /// The least change that costs so little.
    pub low: i64,
    /// The greatest change that costs so little.
    pub high: i64,
}

/// The size of the mildest of the changes from `low` to `high`, the one nearest to none.
pub(crate) fn mildest(low: i64, high: i64) -> u64
    ensures { result ≡ mildest low high }
{
    if low > 0 {
        low.unsigned_abs()
    } else if high < 0 {
        high.unsigned_abs()
    } else {
        0
    }
}

/// What is left if a number is freed: less than at the left change, where the cost falls, and than at
/// the right one, where it rises.
pub(crate) fn freed_between(
    alloc: Global,
    network: &Network,
    number: &Number,
    mut left: Sloped,
    mut right: Sloped,
) -> Result<Freed, AllocError>
    requires { AreRound network.now number.now left right }
    ensures exact { IfOk result (IsExact network.now number.now) }
{
    'narrow: while right.change - left.change > 1 {
        let own = slope_at(alloc, network, number, between(&left, &right))?;
        if own.slope == 0 {
            return flat_at(alloc, network, number, &own, (left, right));
        }
        if own.slope < 0 {
            left = own;
        } else {
            right = own;
        }
    }
    Ok(nearest(&left, &right))
}

/// What is left if a number is freed, from two changes that cost as little as one where the cost neither falls
/// nor rises, if it falls at the first and rises at the second.
pub(crate) fn freed_at(
    network: &Network,
    number: &Number,
    low: &Sloped,
    flat: &Sloped,
    high: &Sloped,
) -> Option<Freed>
    requires low { IsSloped network.now number.now low.now }
    requires flat { IsSloped network.now number.now flat.now }
    requires high { IsSloped network.now number.now high.now }
    ensures exact { IfSome result (IsExact network.now number.now) }
{
    if low.slope >= 0 || high.slope <= 0 || flat.slope != 0 {
        return None;
    }
    if low.cost != flat.cost || high.cost != flat.cost {
        return None;
    }
    Some(from_to(low, high))
}

/// What is left where no change is between the two: the lesser cost.
fn nearest(left: &Sloped, right: &Sloped) -> Freed
    ensures { IsNearest left.now right.now result }
{
    if left.cost < right.cost {
        from_to(left, left)
    } else if right.cost < left.cost {
        from_to(right, right)
    } else {
        from_to(left, right)
    }
}

/// What is left at the first of two changes, both of which are proposed.
fn from_to(low: &Sloped, high: &Sloped) -> Freed
    ensures { result ≡ record { left = low.now.cost; low = low.now.change; high = high.now.change } }
{
    Freed {
        left: low.cost,
        low: low.change,
        high: high.change,
    }
}

/// What is left where the cost neither falls nor rises at a change between two others.
fn flat_at(
    alloc: Global,
    network: &Network,
    number: &Number,
    flat: &Sloped,
    round: (Sloped, Sloped),
) -> Result<Freed, AllocError>
    requires below { IsBelow network.now number.now round.0 flat.now }
    requires above { IsAbove network.now number.now flat.now round.1 }
    ensures exact { IfOk result (IsExact network.now number.now) }
{
    let low = lowest(alloc, network, number, round.0, flat)?;
    let high = highest(alloc, network, number, flat, round.1)?;
    Ok(from_to(&low, &high))
}

/// The least change that costs as little as a flat one, above a change where the cost falls.
fn lowest(
    alloc: Global,
    network: &Network,
    number: &Number,
    mut left: Sloped,
    flat: &Sloped,
) -> Result<Sloped, AllocError>
    requires { IsBelow network.now number.now left flat.now }
    ensures lowest { IfOk result (IsLowest network.now number.now) }
{
    let mut low = *flat;
    'narrow: while low.change - left.change > 1 {
        let change = within(left.change, foot(&left, flat.cost), low.change);
        let own = slope_at(alloc, network, number, change)?;
        if own.cost == flat.cost {
            low = own;
        } else {
            left = own;
        }
    }
    if left.cost == flat.cost {
        Ok(left)
    } else {
        Ok(low)
    }
}

/// The greatest change that costs as little as a flat one, below a change where the cost rises.
fn highest(
    alloc: Global,
    network: &Network,
    number: &Number,
    flat: &Sloped,
    mut right: Sloped,
) -> Result<Sloped, AllocError>
    requires { IsAbove network.now number.now flat.now right }
    ensures highest { IfOk result (IsHighest network.now number.now) }
{
    let mut high = *flat;
    'narrow: while right.change - high.change > 1 {
        let change = within(high.change, foot(&right, flat.cost), right.change);
        let own = slope_at(alloc, network, number, change)?;
        if own.cost == flat.cost {
            high = own;
        } else {
            right = own;
        }
    }
    if right.cost == flat.cost {
        Ok(right)
    } else {
        Ok(high)
    }
}

/// A change between two others: where their slopes lead to one cost, or else in the middle.
fn between(left: &Sloped, right: &Sloped) -> i64
    requires left { unsigned_abs left.now.change ≤ largest_difference }
    requires right { unsigned_abs right.now.change ≤ largest_difference }
    requires room { (left.now.change +ℤ pos 1) <ℤ right.now.change }
    ensures above { left.now.change <ℤ result }
    ensures below { result <ℤ right.now.change }
{
    within(left.change, meeting(left, right), right.change)
}

/// A proposed change where it is between two others, or else the one nearest to it that is, or the one in
/// the middle.
fn within(low: i64, proposed: Option<i64>, high: i64) -> i64
    requires low { unsigned_abs low ≤ largest_difference }
    requires high { unsigned_abs high ≤ largest_difference }
    requires room { (low +ℤ pos 1) <ℤ high }
    ensures above { low <ℤ result }
    ensures below { result <ℤ high }
{
    proposed
        .unwrap_or((low + high) / 2)
        .clamp(low + 1, high - 1)
}

/// Where the slopes at two changes lead to one cost.
fn meeting(left: &Sloped, right: &Sloped) -> Option<i64> {
    let fall = i128::from(left.slope);
    let rise = i128::from(right.slope);
    let more = cost_of(right)?.checked_sub(cost_of(left)?)?;
    let from_left = fall.checked_mul(i128::from(left.change))?;
    let from_right = rise.checked_mul(i128::from(right.change))?;
    let above = more.checked_add(from_left)?.checked_sub(from_right)?;
    i64::try_from(above.checked_div(fall.checked_sub(rise)?)?).ok()
}

/// Where the slope at a change leads to a lesser cost.
fn foot(from: &Sloped, cost: u128) -> Option<i64> {
    let less = cost_of(from)?.checked_sub(i128::try_from(cost).ok()?)?;
    let steps = less.checked_div(i128::from(from.slope))?;
    i64::try_from(i128::from(from.change).checked_sub(steps)?).ok()
}

/// The cost at a change.
fn cost_of(own: &Sloped) -> Option<i128> {
    i128::try_from(own.cost).ok()
}
