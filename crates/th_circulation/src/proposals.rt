//! The check of arcs that a guide proposes: whether they close at a cost below 0.
ghost use Rattle.std.specs.Bool.{OnTrue};
ghost use Rattle.th_circulation.specs.Inside.Proposals.{HasNoPotentials};

use th_search::Arc;

/// Whether arcs lead from each to the next, and from the last to the first, at a cost below 0.
///
/// Then there is a cycle among them that costs less than 0.
pub(crate) fn closes_below_zero(arcs: &[Arc]) -> bool
    ensures { OnTrue result (HasNoPotentials arcs.now) }
{
    let Some(first) = arcs.first().copied() else {
        return false;
    };
    let mut vertex = first.tail;
    let mut cost = 0i64;
    for arc in arcs {
        if arc.tail != vertex {
            return false;
        }
        let Some(sum) = cost.checked_add(arc.cost) else {
            return false;
        };
        cost = sum;
        vertex = arc.head;
    }
    vertex == first.tail && cost < 0
}
