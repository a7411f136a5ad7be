//! Residual arcs of flows, at costs that no heights reduce, and the same arcs turned round.
ghost use Rattle.std.specs.Prelude.{◌≡◌, ◌≤◌, ◌++◌, ◌∷◌, [], if◌then◌else◌, All, IfOk, OnOk, length, map, unsigned_abs};
ghost use Rattle.th_circulation.specs.Inside.Residuals.{residual_arcs as residual_arcs_in, residual_arcs_of, turned as turned_arc};
ghost use Rattle.th_network.specs.Links.{largest_link_difference};
ghost use Rattle.th_network.specs.Networks.{arcs_of, vertices_of, weights_of};
ghost use Rattle.th_search.specs.Walks.{IsArc};

use std::alloc::{AllocError, Global};
use th_network::{Link, Network};
use th_search::Arc;

/// The residual arcs of the flows of a network.
pub(crate) fn residual_arcs(
    alloc: Global,
    network: &Network,
    flows: &[i64],
) -> Result<Vec<Arc>, AllocError>
    requires { length flows.now ≡ length (arcs_of network.now) }
    ensures arcs { IfOk result (λ arcs.
        arcs.items ≡ residual_arcs_in (arcs_of network.now) (weights_of network.now) flows.now) }
    ensures ends { IfOk result (λ arcs. All (IsArc (vertices_of network.now)) arcs.items) }
    ensures heavy { OnOk result (All (λ weight. 1 ≤ weight) (weights_of network.now)) }
{
    let links = network.arcs();
    let mut arcs = Vec::with_capacity(alloc, 2 * links.len())?;
    for (place, link) in links.iter().enumerate() {
        add_arcs(&mut arcs, *link, network.weight(place), flows[place])?;
    }
    Ok(arcs)
}

/// Adds the residual arcs of a link.
fn add_arcs(arcs: &mut Vec<Arc>, link: Link, weight: u32, flow: i64) -> Result<(), AllocError>
    requires { unsigned_abs link.diff ≤ largest_link_difference }
    ensures { OnOk result (arcs.new.items ≡ arcs.old.items ++ residual_arcs_of link weight flow) }
{
    let along = Arc {
        tail: link.tail,
        head: link.head,
        cost: -link.diff,
    };
    let against = Arc {
        tail: link.head,
        head: link.tail,
        cost: link.diff,
    };
    let weight = weight as i64;
    add_if(arcs, flow < weight, along)?;
    add_if(arcs, -weight < flow, against)
}

/// Adds an arc where there is room along it.
fn add_if(arcs: &mut Vec<Arc>, has_room: bool, arc: Arc) -> Result<(), AllocError>
    ensures { OnOk result (arcs.new.items
        ≡ arcs.old.items ++ (if has_room then arc ∷ [] else [])) }
{
    if has_room {
        arcs.push(arc)?;
    }
    Ok(())
}

/// The arcs the other way round.
pub(crate) fn turned(alloc: Global, arcs: &[Arc]) -> Result<Vec<Arc>, AllocError>
    ensures { IfOk result (λ turned. turned.items ≡ map turned_arc arcs.now) }
{
    arcs.iter()
        .map(|arc| Arc {
            tail: arc.head,
            head: arc.tail,
            cost: arc.cost,
        })
        .collect(alloc)
}
