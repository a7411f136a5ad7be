//! Residual arcs of flows, with another vertex in place of vertex 0.
ghost use Rattle.std.specs.Prelude.{◌≡◌, ◌++◌, ◌∷◌, [], ◌≤◌, if◌then◌else◌, IfOk, OnOk, length, map, unsigned_abs};
ghost use Rattle.th_circulation.specs.Inside.Residuals.{residual_arcs_of, turned as turned_arc};
ghost use Rattle.th_network.specs.Links.{largest_link_difference};
ghost use Rattle.th_network.specs.Networks.{arcs_of};
ghost use Rattle.th_names.specs.Inside.Rooted.{exchanged_link, rooted_arcs as rooted_arcs_in};

use crate::roots::exchanged;
use std::alloc::{AllocError, Global};
use th_network::{Link, Network};
use th_search::Arc;

/// The residual arcs of the flows of a network, with a root in place of vertex 0.
pub(crate) fn rooted_arcs(
    alloc: Global,
    network: &Network,
    flows: &[i64],
    root: u32,
) -> Result<Vec<Arc>, AllocError>
    requires { length flows.now ≡ length (arcs_of network.now) }
    ensures { IfOk result (λ arcs. arcs.items ≡ rooted_arcs_in network.now flows.now root) }
{
    let links = network.arcs();
    let mut arcs = Vec::with_capacity(alloc, 2 * links.len())?;
    for (place, link) in links.iter().enumerate() {
        let own = exchanged_link(root, *link);
        add_arcs(&mut arcs, own, network.weight(place), flows[place])?;
    }
    Ok(arcs)
}

/// A link whose ends change places where they are vertex 0 or the root.
fn exchanged_link(root: u32, link: Link) -> Link
    ensures { result ≡ exchanged_link root link }
{
    Link {
        tail: exchanged(root, link.tail),
        head: exchanged(root, link.head),
        diff: link.diff,
    }
}

/// Adds the arcs along which the flow of a link can grow, and against which it can shrink.
fn add_arcs(arcs: &mut Vec<Arc>, link: Link, weight: u32, flow: i64) -> Result<(), AllocError>
    requires { unsigned_abs link.diff ≤ largest_link_difference }
    ensures { OnOk result (arcs.new.items ≡ arcs.old.items ++ residual_arcs_of link weight flow) }
{
    let most = weight as i64;
    add_where(flow < most, arcs, link.tail, link.head, -link.diff)?;
    add_where(-most < flow, arcs, link.head, link.tail, link.diff)
}

/// Adds an arc, where there is room along it.
fn add_where(
    has_room: bool,
    arcs: &mut Vec<Arc>,
    tail: u32,
    head: u32,
    cost: i64,
) -> Result<(), AllocError>
    ensures { OnOk result (arcs.new.items ≡ arcs.old.items
        ++ (if has_room then record { tail = tail; head = head; cost = cost } ∷ [] else [])) }
{
    if has_room {
        arcs.push(Arc { tail, head, cost })?;
    }
    Ok(())
}

/// The arcs the other way round.
pub(crate) fn turned(alloc: Global, arcs: &[Arc]) -> Result<Vec<Arc>, AllocError>
    ensures { IfOk result (λ turned. turned.items ≡ map turned_arc arcs.now) }
{
    arcs.iter()
        .map(|arc| Arc {
            tail: arc.head,
            head: arc.tail,
            cost: arc.cost,
        })
        .collect(alloc)
}
