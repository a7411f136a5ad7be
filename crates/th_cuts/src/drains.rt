//! The least that sets with a source in them drain, as flow from the source shows it.
ghost use Rattle.std.specs.Prelude.{◌≡◌, ◌<◌, ◌≤◌, ℕ, Bool, IfNone, IfOk, IfSome, length, true};
ghost use Rattle.th_cuts.specs.Drains.{IsDrained, IsLeastDrain, drain};
ghost use Rattle.th_cuts.specs.Inside.Flows.{IsClosedSide};

use crate::flows::{Drain, Flow};
use crate::graphs::Graph;
use crate::guides::Guide;
use crate::paths::Path;
use crate::sweeps::Sweep;
use crate::trees::{Found, Tree, search};
use std::alloc::{AllocError, Global};

/// How much the sets drain that contain a source, beside an amount.
#[derive(Debug, Drop)]
pub enum Drained {
    /// One drains less, and no other one less than it: how much it drains, and for each vertex whether
    /// it is in that set.
    Less(u32, Vec<bool>),
    /// One drains as much and lacks a vertex that is wanted, and none drains less.
    Just(Vec<bool>),
    /// None drains less, and those that drain as much contain all vertices that are wanted.
    More,
}

/// Compares with `most` what the sets drain that contain the source: the weight of the edges that leave
/// them, and the room at their vertices.
///
/// It sends flow from the source to where there is room, `most` of it in all. `wanted` are vertices with
/// room, from which it also looks for ways.
pub fn least_drain(
    alloc: Global,
    graph: &Graph,
    source: u32,
    rooms: &[u32],
    most: u32,
    wanted: &[u32],
) -> Result<Drained, AllocError>
    requires source { source < graph.now.vertices }
    requires each { length rooms.now ≡ graph.now.vertices }
    ensures { IfOk result (IsDrained graph.now.edges.items rooms.now source most wanted.now) }
{
    let drain = Drain {
        graph,
        source,
        rooms,
        most,
    };
    let mut flow = Flow::none(alloc, &drain)?;
    if let Some(side) = fill(alloc, &mut flow, wanted)? {
        return Ok(Drained::Less(flow.value, side));
    }
    of_all(alloc, &flow, wanted)
}

/// The least that a set drains which contains the source, if it is less than `most`, and for each vertex
/// whether it is in one that drains so little.
///
/// `ends` are vertices with room, from which it also looks for ways. Only its speed depends on them.
pub fn least_below(
    alloc: Global,
    graph: &Graph,
    source: u32,
    rooms: &[u32],
    most: u32,
    ends: &[u32],
) -> Result<Option<(u32, Vec<bool>)>, AllocError>
    requires source { source < graph.now.vertices }
    requires each { length rooms.now ≡ graph.now.vertices }
    ensures least { IfOk result (λ found. IfSome found (λ set.
        IsLeastDrain graph.now.edges.items rooms.now source set.0 set.1.items)) }
    ensures less { IfOk result (λ found. IfSome found (λ set. set.0 < most)) }
    ensures side { IfOk result (λ found. IfSome found (λ set. length set.1.items ≡ graph.now.vertices)) }
    ensures none { IfOk result (λ found. IfNone found ((inside : ℕ → Bool) → inside source ≡ true
        → most ≤ drain graph.now.edges.items rooms.now inside)) }
{
    let drain = Drain {
        graph,
        source,
        rooms,
        most,
    };
    let mut flow = Flow::none(alloc, &drain)?;
    match fill(alloc, &mut flow, ends)? {
        Some(side) => Ok(Some((flow.value, side))),
        None => Ok(None),
    }
}

/// What a flow shows that is as much as is to flow.
fn of_all(alloc: Global, flow: &Flow<'_>, wanted: &[u32]) -> Result<Drained, AllocError>
    requires { flow.now.value ≡ flow.now.drain.most }
    ensures { IfOk result (IsDrained flow.now.drain.graph.now.edges.items flow.now.drain.rooms.now
        flow.now.drain.source flow.now.drain.most wanted.now) }
{
    let mut tree = Tree::new(alloc, flow)?;
    tree.spread(wanted)?;
    if tree.has_all(wanted) {
        return Ok(Drained::More);
    }
    tree.close()?;
    if tree.has_all(wanted) {
        return Ok(Drained::More);
    }
    match tree.end() {
        Some(_) => Ok(Drained::More),
        None => Ok(Drained::Just(tree.side(alloc)?)),
    }
}

/// Sends as much as is to flow. If there are no ways for all of it, returns a side that nothing more can
/// leave, which holds the source.
fn fill(alloc: Global, flow: &mut Flow<'_>, ends: &[u32]) -> Result<Option<Vec<bool>>, AllocError>
    ensures drain { IfOk result (λ _. flow.new.drain ≡ flow.old.drain) }
    ensures all { IfOk result (λ side. IfNone side (flow.new.value ≡ flow.new.drain.most)) }
    ensures less { IfOk result (λ side. IfSome side (λ side. flow.new.value < flow.new.drain.most)) }
    ensures side { IfOk result (λ side. IfSome side (λ side.
        IsClosedSide flow.new.drain.graph.now.vertices flow.new.drain.graph.now.edges.items flow.new.drain.source
        flow.new.left.items flow.new.flows.items side.items)) }
{
    let mut guide = Guide::new(alloc, flow.drain.graph)?;
    let mut path = Path::new(alloc);
    let mut sweep = Sweep::new(alloc);
    'filling: while flow.value < flow.drain.most {
        let before = flow.value;
        let aim = guide.aim(flow, ends)?;
        flow.send_more(&mut guide, &mut path)?;
        if flow.value == before {
            let side = guide.side(alloc, flow.drain.graph, aim)?;
            if flow.is_closed(&side) {
                return Ok(Some(side));
            }
            match search(alloc, flow)? {
                Found::Way(steps, last) => flow.send(&steps, last),
                Found::Side(side) => return Ok(Some(side)),
            }
        } else if guide.is_long(flow.drain.graph) {
            sweep.bring(flow)?;
            guide.follow_sweep();
            flow.send_more(&mut guide, &mut path)?;
        }
    }
    Ok(None)
}
