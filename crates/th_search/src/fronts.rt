//! A negative cycle that the list of arcs begins with, which takes no labels to find.
ghost use Rattle.std.specs.Prelude.{◌≡◌, ◌<ℤ◌, IfOk, IfSome, pos};
ghost use Rattle.th_search.specs.Searched.{IsSearched};
ghost use Rattle.th_search.specs.Walks.{IsNegativeCycle};

use crate::arcs::Arc;
use std::alloc::{AllocError, Global};

/// The arcs in front, where each begins where the one before it ends, they enter no vertex twice, the
/// last ends where the first begins, and their costs sum to less than zero.
pub(crate) fn cycle_in_front(
    alloc: Global,
    n: u32,
    arcs: &[Arc],
) -> Result<Option<Vec<u32>>, AllocError>
    requires { IsSearched n arcs.now }
    ensures { IfOk result (λ found. IfSome found (λ cycle. IsNegativeCycle arcs.now cycle.items)) }
{
    let Some(first) = arcs.first().copied() else {
        return Ok(None);
    };
    let mut entered = vec![in alloc; false; n as usize]?;
    let mut walk = Vec::new(alloc);
    let mut cost = 0i64;
    let mut vertex = first.tail;
    for (number, arc) in arcs.iter().enumerate() {
        if arc.tail != vertex {
            return Ok(None);
        }
        if entered[arc.head as usize] {
            return Ok(None);
        }
        entered[arc.head as usize] = true;
        walk.push(number as u32)?;
        cost += arc.cost;
        vertex = arc.head;
        if vertex == first.tail {
            return Ok(if_negative(walk, cost));
        }
    }
    Ok(None)
}

/// The walk, where it costs less than zero.
fn if_negative(walk: Vec<u32>, cost: i64) -> Option<Vec<u32>>
    ensures { IfSome result (λ cycle. (cycle.items ≡ walk.items) × (cost <ℤ pos 0)) }
{
    if cost < 0 {
        return Some(walk);
    }
    None
}
