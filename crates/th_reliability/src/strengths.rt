//! The strengths of points: the least cut that parts each of them from the benchmarks.
ghost use Rattle.std.specs.Prelude.{◌≡◌, ◌+◌, ◌<◌, ℕ, List, IfOk, Some, length, slice_get};
ghost use Rattle.th_network.specs.Networks.{points_of};
ghost use Rattle.th_network.specs.Vertices.{free_before};
ghost use Rattle.th_reliability.specs.Inside.Graphs.{IsGraphOf};
ghost use Rattle.th_reliability.specs.Numbers.{AreStrengths, HasStrength};

use std::alloc::{AllocError, Global};
use th_cuts::CutTree;
use th_network::Network;

/// The strength of each point, in point order; `None` for a benchmark.
pub(crate) fn strengths_of(
    alloc: Global,
    network: &Network,
    tree: &CutTree,
) -> Result<Vec<Option<u32>>, AllocError>
    requires { IsGraphOf network.now tree.now }
    ensures { IfOk result (λ strengths. AreStrengths network.now strengths.items) }
{
    let points = network.points().len();
    let mut strengths = Vec::with_capacity(alloc, points)?;
    let mut vertex = 0;
    for place in 0..points {
        let (strength, last) = strength_at(alloc, network, tree, place, vertex)?;
        strengths.push(strength)?;
        vertex = last;
    }
    Ok(strengths)
}

/// The strength of the point at a place, and the last vertex up to it, given the last one before it.
fn strength_at(
    alloc: Global,
    network: &Network,
    tree: &CutTree,
    place: usize,
    before: u32,
) -> Result<(Option<u32>, u32), AllocError>
    requires graph { IsGraphOf network.now tree.now }
    requires place { place < length (points_of network.now) }
    requires before { before ≡ free_before network.now.benchmarks (points_of network.now) place }
    ensures strength { IfOk result (λ found. (name : List ℕ)
        → slice_get (points_of network.now) place ≡ Some name → HasStrength network.now name found.0) }
    ensures last { IfOk result (λ found.
        found.1 ≡ free_before network.now.benchmarks (points_of network.now) (place + 1)) }
{
    match network.fixed(place) {
        Some(_) => Ok((None, before)),
        None => {
            let vertex = before + 1;
            let strength = tree.least(alloc, vertex, 0)?;
            Ok((Some(strength), vertex))
        }
    }
}
