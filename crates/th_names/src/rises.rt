//! How high points are above one of them, from distances along residual arcs.
ghost use Rattle.std.specs.Prelude.{◌≡◌, ◌+◌, ◌*◌, ◌<◌, ◌≤◌, ℕ, IfOk, List, Some, length, map, slice_get, unsigned_abs};
ghost use Rattle.th_circulation.specs.Best.{IsBest};
ghost use Rattle.th_network.specs.Networks.{points_of, vertices_of};
ghost use Rattle.th_names.specs.Inside.Rooted.{rise_by, root_of};
ghost use Rattle.th_names.specs.Rises.{AreRises};
ghost use Rattle.th_search.specs.Distances.{AreDistances, AreTight, AreWithin};
ghost use Rattle.th_search.specs.Limits.{farthest};
ghost use Rattle.th_search.specs.Potentials.{value_at};
ghost use Rattle.th_units.specs.Limits.{max_len};

use crate::arcs::{rooted_arcs, turned};
use crate::roots::{Root, Way, exchanged, root_at};
use std::alloc::{AllocError, Global};
use th_circulation::BestHeights;
use th_network::Network;
use th_search::{Arc, TightArcs};

/// How high the points of a network are above one of them, in point order and in units of 10 nm.
#[derive(Debug, Drop)]
pub struct Rises {
    /// The least heights above it, over all best heights of the network.
    pub low: Vec<i64>,
    /// The greatest ones.
    pub high: Vec<i64>,
}

/// For each point its least and its greatest height above the point at a place, over all best heights.
///
/// Places count from 0, in the order of `Network::points`. The best heights may be any of the network. The
/// only error is an allocation failure.
pub fn rises_from(
    alloc: Global,
    network: &Network,
    best: &BestHeights,
    place: usize,
) -> Result<Rises, AllocError>
    requires best { IsBest network.now best.now }
    requires place { place < length (points_of network.now) }
    ensures rises { IfOk result (λ rises. (from : List ℕ)
        → slice_get (points_of network.now) place ≡ Some from
        → AreRises network.now from rises.low.items rises.high.items) }
{
    let _points = network.points();
    let _weights = network.weights();
    let _links = network.arcs();
    let root = root_at(network, place);
    let arcs = rooted_arcs(alloc, network, best.flows(), root.vertex)?;
    let back = turned(alloc, &arcs)?;
    let down = distances(alloc, network.vertices(), &arcs)?;
    let up = distances(alloc, network.vertices(), &back)?;
    let low = listed(alloc, network, root, Way::Down, &down)?;
    let high = listed(alloc, network, root, Way::Up, &up)?;
    Ok(Rises { low, high })
}

/// The distances of the vertices along arcs.
fn distances(alloc: Global, vertices: u32, arcs: &[Arc]) -> Result<Vec<i64>, AllocError>
    requires { AreTight vertices arcs.now }
    ensures { IfOk result (λ distances. AreDistances vertices arcs.now distances.items) }
{
    let levels = vec![in alloc; 0i64; vertices as usize]?;
    TightArcs {
        vertices,
        arcs,
        levels: &levels,
    }
    .distances(alloc)
}

/// How high each point is above the root, if the vertices are so far from it.
fn listed(
    alloc: Global,
    network: &Network,
    root: Root,
    way: Way,
    distances: &[i64],
) -> Result<Vec<i64>, AllocError>
    requires root { root.vertex < vertices_of network.now }
    requires base { unsigned_abs root.base ≤ max_len }
    requires distances { AreWithin (vertices_of network.now) farthest distances.now }
    ensures { IfOk result (λ rises. rises.items
        ≡ map (λ name. rise_by root way (value_at distances.now) (root_of network.now name))
        (points_of network.now)) }
{
    let points = network.points();
    let mut rises = Vec::with_capacity(alloc, points.len())?;
    for (place, _name) in points.iter().enumerate() {
        let own = root_at(network, place);
        rises.push(rise_by(root, way, distances, own))?;
    }
    Ok(rises)
}

/// How high a point is above the root, if the vertices are so far from it.
fn rise_by(root: Root, way: Way, distances: &[i64], own: Root) -> i64
    requires root { root.vertex < length distances.now }
    requires own { own.vertex < length distances.now }
    requires root_base { unsigned_abs root.base ≤ max_len }
    requires own_base { unsigned_abs own.base ≤ max_len }
    requires distances { AreWithin (length distances.now) farthest distances.now }
    ensures rise { result ≡ rise_by root way (value_at distances.now) own }
    ensures small { unsigned_abs result ≤ farthest + 2 * max_len }
{
    let vertex = exchanged(root.vertex, own.vertex);
    own.base - root.base + way.step(distances[vertex as usize])
}
