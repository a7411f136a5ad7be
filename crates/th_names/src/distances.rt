//! How far points are from what is read.
ghost use Rattle.std.specs.Prelude.{◌≡◌, ◌<◌, ◌≤◌, ◌+ℤ◌, ◌-ℤ◌, ℕ, IfOk, List, Some, length, pos, slice_get, unsigned_abs};
ghost use Rattle.std.specs.List.{AllZip};
ghost use Rattle.th_changes.specs.Reach.{reach_of};
ghost use Rattle.th_changes.specs.Tilted.{tilted};
ghost use Rattle.th_explain.specs.Explained.{Explains, mildest};
ghost use Rattle.th_network.specs.Networks.{points_of};
ghost use Rattle.th_names.specs.Rises.{AreRises};
ghost use Rattle.th_names.specs.Gaps.{IsNaming, name_in, number_in};
ghost use Rattle.th_names.specs.Nears.{IsLocated};
ghost use Rattle.th_names.specs.Inside.Ends.{distance_by, ends_at};

use crate::located::Located;
use crate::namings::Naming;
use crate::rises::{Rises, rises_from};
use std::alloc::{AllocError, Global};
use th_changes::{Number, tilted};
use th_circulation::best_heights;
use th_explain::Freed;
use th_network::Network;

/// How high a point is above a name's point in two networks: with the least change of the number and with the greatest
/// one, in units of 10 nm.
#[derive(Clone, Copy)]
pub struct Ends {
    /// The least height with the least change.
    pub least: i64,
    /// The greatest height with the least change.
    pub greatest_before: i64,
    /// The least height with the greatest change.
    pub least_after: i64,
    /// The greatest height with the greatest change.
    pub greatest: i64,
}

/// The points of a network, in their order, with how far each is from what is read, given what is left if the number of
/// the name is freed. The name is that of the point at a place.
pub(crate) fn located_of(
    alloc: Global,
    network: &Network,
    naming: &Naming,
    place: usize,
    freed: &Freed,
) -> Result<Vec<Located>, AllocError>
    requires naming { IsNaming network.now naming.now }
    requires place { slice_get (points_of network.now) place ≡ Some (name_in naming.now) }
    requires freed { Explains network.now 0 (number_in naming.now) freed.now }
    ensures { IfOk result (λ located.
        AllZip (IsLocated network.now naming.now) (points_of network.now) located.items) }
{
    let number = naming.number();
    let before = rises_with(alloc, network, &number, freed.low, place)?;
    let after = rises_with(alloc, network, &number, freed.high, place)?;
    let points = network.points();
    let mut located = Vec::with_capacity(alloc, points.len())?;
    for (k, point) in points.iter().enumerate() {
        let ends = ends_at(&before, &after, k);
        located.push(Located {
            point: *point,
            distance: distance_by(naming, freed, &ends),
        })?;
    }
    Ok(located)
}

/// How high the point at a place is with the least and with the greatest change.
fn ends_at(before: &Rises, after: &Rises, k: usize) -> Ends
    requires before_low { k < length before.now.low.items }
    requires before_high { k < length before.now.high.items }
    requires after_low { k < length after.now.low.items }
    requires after_high { k < length after.now.high.items }
    ensures { result ≡ ends_at before.now.low.items before.now.high.items after.now.low.items after.now.high.items k }
{
    Ends {
        least: before.low[k],
        greatest_before: before.high[k],
        least_after: after.low[k],
        greatest: after.high[k],
    }
}

/// How high points are above the one at a place, if a number changes by so much, in units of 10 nm.
fn rises_with(
    alloc: Global,
    network: &Network,
    number: &Number,
    change: i64,
    place: usize,
) -> Result<Rises, AllocError>
    requires change { unsigned_abs change ≤ reach_of number.now network.now.observations }
    requires place { place < length (points_of network.now) }
    ensures rises { IfOk result (λ rises. (from : List ℕ)
        → slice_get (points_of network.now) place ≡ Some from
        → AreRises (tilted number.now change network.now) from rises.low.items rises.high.items) }
    ensures low { IfOk result (λ rises. length rises.low.items ≡ length (points_of network.now)) }
    ensures high { IfOk result (λ rises. length rises.high.items ≡ length (points_of network.now)) }
{
    let own = tilted(alloc, network, number, change)?;
    let best = best_heights(alloc, &own)?;
    let rises = rises_from(alloc, &own, &best, place)?;
    Ok(rises)
}

/// How far a point is from what is read.
fn distance_by(naming: &Naming, freed: &Freed, ends: &Ends) -> u128
    ensures { result ≡ distance_by naming.now freed.now ends.now }
{
    match naming {
        Naming::Target(_, _) => mildest(
            sum_of(ends.least, freed.low),
            sum_of(ends.greatest, freed.high),
        ),
        Naming::Station(_, _) => mildest(
            difference_of(ends.least_after, freed.high),
            difference_of(ends.greatest_before, freed.low),
        ),
        Naming::Row(_) => mildest(i128::from(ends.least), i128::from(ends.greatest)),
    }
}

/// The sum of a height and a change.
fn sum_of(height: i64, change: i64) -> i128
    ensures { result ≡ height +ℤ change }
{
    i128::from(height) + i128::from(change)
}

/// A height without a change.
fn difference_of(height: i64, change: i64) -> i128
    ensures { result ≡ height +ℤ (pos 0 -ℤ change) }
{
    i128::from(height) - i128::from(change)
}

/// The size of the mildest of the lengths from `low` to `high`, the one nearest to none.
pub(crate) fn mildest(low: i128, high: i128) -> u128
    ensures { result ≡ mildest low high }
{
    match (low > 0, high < 0) {
        (true, _) => low.unsigned_abs(),
        (false, true) => high.unsigned_abs(),
        (false, false) => 0,
    }
}
