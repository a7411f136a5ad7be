//! The lowest and the highest best heights, from distances along residual arcs.
ghost use Rattle.std.specs.Prelude.{◌≡◌, ℕ, IfOk, length};
ghost use Rattle.th_circulation.specs.Inside.Bounds.{farthest, raised_bound};
ghost use Rattle.th_search.specs.Distances.{AreTight, AreWithin};
ghost use Rattle.th_circulation.specs.Inside.Spans.{AreAbove, AreBelow, opposite};
ghost use Rattle.th_circulation.specs.Settled.{AreShown, AreSpans};
ghost use Rattle.th_network.specs.Networks.{at_points_of, points_of, vertices_of};
ghost use Rattle.th_search.specs.Potentials.{value_at};

use crate::heights::raise;
use crate::point_heights::set_point_heights;
use crate::residuals::{residual_arcs, turned};
use std::alloc::{AllocError, Global};
use th_network::{Network, Settled, Spans};
use th_search::{Arc, TightArcs};

/// Finds the lowest and the highest of all heights that cost least, from flows that show some of
/// them.
///
/// The flows show all heights that cost least, and no others: those that rise along no residual arc
/// by less than its difference. So the lowest height of a point is as far below the benchmarks as
/// the shortest walk of residual arcs from them is long. The highest is as far above them as the
/// shortest walk back is long.
pub fn spans(alloc: Global, network: &Network, settled: &Settled) -> Result<Spans, AllocError>
    requires { AreShown network.now settled.now.flows.items
        (at_points_of network.now settled.now.heights.items) }
    ensures { IfOk result (λ spans.
        AreSpans network.now settled.now.flows.items spans.low.items spans.high.items) }
{
    let points = network.points();
    let lowest_listed = vec![in alloc; 0i64; points.len()]?;
    let highest_listed = vec![in alloc; 0i64; points.len()]?;
    let arcs = residual_arcs(alloc, network, &settled.flows)?;
    let back = turned(alloc, &arcs)?;
    let rises = rises_of(alloc, network, &settled.heights)?;
    let low = lowest(alloc, network, &arcs, &rises, lowest_listed)?;
    let falls = falls_of(alloc, &rises)?;
    let high = highest(alloc, network, &back, &falls, highest_listed)?;
    Ok(Spans { low, high })
}

/// How high each vertex stands above vertex 0. Only the order in which vertices are looked at comes
/// from it.
fn rises_of(alloc: Global, network: &Network, heights: &[i64]) -> Result<Vec<i64>, AllocError> {
    let mut rises = vec![in alloc; 0i64]?;
    for place in 0..network.points().len() {
        if network.fixed(place).is_none() {
            rises.push(heights.get(place).copied().unwrap_or(0))?;
        }
    }
    Ok(rises)
}

/// How far each vertex stands below vertex 0.
fn falls_of(alloc: Global, rises: &[i64]) -> Result<Vec<i64>, AllocError> {
    rises
        .iter()
        .map(|rise| rise.saturating_neg())
        .collect(alloc)
}

/// Lists the height of each point where each vertex is as far below vertex 0 as it is distant.
fn lowest(
    alloc: Global,
    network: &Network,
    arcs: &[Arc],
    levels: &[i64],
    mut listed: Vec<i64>,
) -> Result<Vec<i64>, AllocError>
    requires tight { AreTight (vertices_of network.now) arcs.now }
    requires each { length listed.items ≡ length (points_of network.now) }
    ensures { IfOk result (λ heights. AreBelow network.now arcs.now heights.items) }
{
    let vertices = network.vertices();
    let distances = TightArcs {
        vertices,
        arcs,
        levels,
    }
    .distances(alloc)?;
    let heights = opposites(alloc, &distances, vertices)?;
    set_point_heights(network, &heights, &mut listed);
    Ok(listed)
}

/// The distances with the other sign.
fn opposites(alloc: Global, distances: &[i64], vertices: u32) -> Result<Vec<i64>, AllocError>
    requires { AreWithin vertices farthest distances.now }
    ensures each { IfOk result (λ heights. (v : ℕ)
        → value_at heights.items v ≡ opposite (value_at distances.now) v) }
    ensures within { IfOk result (λ heights. AreWithin vertices raised_bound heights.items) }
{
    let mut heights = vec![in alloc; 0i64; vertices as usize]?;
    raise(&mut heights, distances, vertices);
    Ok(heights)
}

/// Lists the height of each point where each vertex is as far above vertex 0 as it is distant.
fn highest(
    alloc: Global,
    network: &Network,
    arcs: &[Arc],
    levels: &[i64],
    mut listed: Vec<i64>,
) -> Result<Vec<i64>, AllocError>
    requires tight { AreTight (vertices_of network.now) arcs.now }
    requires each { length listed.items ≡ length (points_of network.now) }
    ensures { IfOk result (λ heights. AreAbove network.now arcs.now heights.items) }
{
    let vertices = network.vertices();
    let distances = TightArcs {
        vertices,
        arcs,
        levels,
    }
    .distances(alloc)?;
    set_point_heights(network, &distances, &mut listed);
    Ok(listed)
}
