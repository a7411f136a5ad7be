//! What a network costs at heights of its vertices, if a number changes by so much.
ghost use Rattle.std.specs.Prelude.{◌≡◌, ◌+ℤ◌, ◌-ℤ◌, ◌*ℤ◌, pos, ◌<◌, IfSome, length, slice_index_or};
ghost use Rattle.th_changes.specs.Freed.{Costs};
ghost use Rattle.th_changes.specs.Lines.{IsLine};
ghost use Rattle.th_changes.specs.Rerouted.{priced};
ghost use Rattle.th_changes.specs.Slopes.{IsSloped};
ghost use Rattle.th_observations.specs.Observed.{Observed};

use crate::cases::Case;
use crate::lines::Line;
use crate::numbers::Number;
use crate::slopes::Sloped;
use th_network::{Link, Network};

/// What the network costs if a number grows by so much, and how steeply that rises, if a line shows that
/// these heights of the vertices are best then.
pub fn sloped(
    case: &Case<'_>,
    number: &Number,
    line: &Line,
    change: i64,
    heights: &[i64],
) -> Option<Sloped>
    requires { IsLine case.now.network.now number.now case.now.cost line.now }
    ensures { IfSome result (IsSloped case.now.network.now number.now) }
{
    let cost = cost_at(case.network, number, change, heights)?;
    let shown = shown_cost(case.cost, line.lost, change, line.net)?;
    let size = signed(cost)?;
    if shown != size {
        return None;
    }
    Some(Sloped {
        change,
        cost,
        slope: line.net,
    })
}

/// What the network costs if a number grows by so much, at these heights of the vertices.
fn cost_at(network: &Network, number: &Number, change: i64, heights: &[i64]) -> Option<u128>
    ensures { IfSome result (Costs network.now number.now change) }
{
    let observations = network.observations();
    let mut total = 0u128;
    for i in 0..observations.len() {
        total = total.checked_add(price(network, number, change, heights, i)?)?;
    }
    Some(total)
}

/// What the observation at a place costs then.
fn price(
    network: &Network,
    number: &Number,
    change: i64,
    heights: &[i64],
    place: usize,
) -> Option<u128>
    requires { place < length network.now.observations }
    ensures { IfSome result (λ price. (o : Observed)
        → slice_index_or network.now.observations place o ≡ o
        → price ≡ priced network.now number.now change heights.now o) }
{
    let observations = network.observations();
    let arcs = network.arcs();
    let touch = number.touch(&observations[place]);
    let residual = residual_at(&arcs[place], change, touch, heights)?;
    let weight = u128::from(network.weight(place));
    let price = weight.checked_mul(u128::from(residual.unsigned_abs()))?;
    Some(price)
}

/// What a line says that a network costs at least if a number changes: what it costs as given, less what is
/// lost, and what flows through the number for each unit.
fn shown_cost(given: u128, lost: i64, change: i64, slope: i64) -> Option<i128>
    ensures { IfSome result (λ cost. cost ≡ pos given -ℤ lost +ℤ change *ℤ slope) }
{
    let given = signed(given)?;
    let rise = i128::from(change).checked_mul(i128::from(slope))?;
    let shown = given.checked_sub(i128::from(lost))?.checked_add(rise)?;
    Some(shown)
}

/// A cost as a number with a sign, if it is small enough.
pub(crate) fn signed(cost: u128) -> Option<i128>
    ensures { IfSome result (λ signed. signed ≡ pos cost) }
{
    if cost >= 1 << 126 {
        return None;
    }
    Some(cost as i128)
}

/// The residual of a link at these heights of the vertices, if its difference grows by a change times what it is
/// touched.
fn residual_at(link: &Link, change: i64, touch: i64, heights: &[i64]) -> Option<i64>
    ensures { IfSome result (λ residual. residual ≡ link.now.diff +ℤ change *ℤ touch
        -ℤ (slice_index_or heights.now link.now.head (pos 0) -ℤ slice_index_or heights.now link.now.tail (pos 0))) }
{
    let low = level(heights, link.tail)?;
    let high = level(heights, link.head)?;
    let difference = link.diff.checked_add(change.checked_mul(touch)?)?;
    let residual = difference.checked_sub(high.checked_sub(low)?)?;
    Some(residual)
}

/// The height of a vertex, if there is one.
fn level(heights: &[i64], vertex: u32) -> Option<i64>
    ensures { IfSome result (λ level. level ≡ slice_index_or heights.now vertex (pos 0)) }
{
    let level = heights.get(vertex as usize)?;
    Some(*level)
}
