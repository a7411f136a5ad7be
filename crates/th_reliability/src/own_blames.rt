//! What a mistake in each observation would move.
ghost use Rattle.std.specs.Prelude.{◌≡◌, ◌<◌, All, IfOk, Some, length, slice_get};
ghost use Rattle.th_observations.specs.Observed.{IsBetweenPoints, Observed};
ghost use Rattle.th_reliability.specs.Effects.{AreBlames, HasOwnBlame};
ghost use Rattle.th_reliability.specs.Inside.Graphs.{IsGraphOf};
ghost use Rattle.th_reliability.specs.Inside.Targets.{AreEdges};
ghost use Rattle.th_reliability.specs.Numbers.{AreControls, HasControl};

use crate::blames::{Blame, blame_of};
use crate::edges::edges_of;
use crate::marks::mark_at;
use std::alloc::{AllocError, Global};
use th_cuts::{CutTree, Edge};
use th_network::Network;

/// What a mistake in each observation would move and what would be blamed for it, in order; `None` where
/// the mistake shows.
///
/// Of the observations whose mistake does not show, a tree of cuts has at most two for each branch: each
/// of them has at least half the weight of a branch's cut. So there are few.
pub(crate) fn own_blames_of(
    alloc: Global,
    network: &Network,
    tree: &CutTree,
    controls: &[Option<u32>],
) -> Result<Vec<Option<Blame>>, AllocError>
    requires graph { IsGraphOf network.now tree.now }
    requires controls { AreControls network.now controls.now }
    ensures { IfOk result (λ blames. AreBlames network.now controls.now blames.items) }
{
    let edges = edges_of(alloc, network)?;
    let count = network.observations().len();
    let mut blames = Vec::with_capacity(alloc, count)?;
    for place in 0..count {
        blames.push(own_blame(alloc, network, tree, &edges, place, controls[place])?)?;
    }
    Ok(blames)
}

/// What a mistake in the observation at a place, which has this control, would move.
fn own_blame(
    alloc: Global,
    network: &Network,
    tree: &CutTree,
    edges: &[Edge],
    place: usize,
    control: Option<u32>,
) -> Result<Option<Blame>, AllocError>
    requires graph { IsGraphOf network.now tree.now }
    requires edges { AreEdges network.now edges.now }
    requires between { All IsBetweenPoints network.now.observations }
    requires place { place < length network.now.observations }
    requires control { (o : Observed) → slice_get network.now.observations place ≡ Some o → HasControl network.now o control }
    ensures { IfOk result (λ blame. (o : Observed)
        → slice_get network.now.observations place ≡ Some o → HasOwnBlame network.now place o control blame) }
{
    let Some(control) = control else {
        return Ok(None);
    };
    let edge = edges[place];
    if control > edge.weight {
        return Ok(None);
    }
    let side = tree.least_side(alloc, edge.tail, edge.head)?;
    let mistaken = mark_at(alloc, network, place)?;
    let blame = blame_of(network, edges, &mistaken, &side);
    Ok(Some(blame))
}
