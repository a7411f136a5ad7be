//! The levels of the table: least costs of walks over at most so many arcs, and their last arcs.
ghost use Rattle.std.specs.Prelude.{◌≡◌, ◌≢◌, ◌<◌, ◌≤◌, ℕ, All, IfOk, IfSome, None, Some, length, pos, slice_set, unsigned_abs};
ghost use Rattle.th_search.specs.Limits.{farthest, max_arcs, max_vertices};
ghost use Rattle.th_search.specs.Potentials.{value_at};
ghost use Rattle.th_search.specs.Walks.{IsArc};
ghost use Rattle.tests_searches.specs.Levels.{IsAbove, last_at, row_of};

use std::alloc::{AllocError, Global};
use th_search::Arc;

/// A level of the table: for each vertex the least cost of a walk to it, from any vertex, over at most
/// as many arcs as the level's number; and the last arc of that walk, where the level below has none
/// that costs as little.
#[derive(Drop)]
pub(crate) struct Level {
    pub costs: Vec<i64>,
    pub last: Vec<Option<u32>>,
}

impl Level {
    /// Level 0: walks without arcs.
    pub fn first(alloc: Global, n: u32) -> Result<Level, AllocError>
        ensures size { IfOk result (λ level. length level.costs.items ≡ n) }
        ensures last { IfOk result (λ level. length level.last.items ≡ n) }
        ensures costs { IfOk result (λ level. (vertex : ℕ)
            → value_at level.costs.items vertex ≡ pos 0) }
    {
        let costs = vec![in alloc; 0i64; n as usize]?;
        let last = vec![in alloc; None; n as usize]?;
        Ok(Level { costs, last })
    }

    /// The level above.
    pub fn above(&self, alloc: Global, arcs: &[Arc]) -> Result<Level, AllocError>
        requires arcs { All (IsArc (length self.now.costs.items)) arcs.now }
        requires many { length arcs.now ≤ max_arcs }
        requires within { (vertex : ℕ)
            → unsigned_abs (value_at self.now.costs.items vertex) ≤ farthest }
        ensures { IfOk result (λ level. IsAbove arcs.now (row_of self.now) (row_of level)) }
    {
        let costs = self.costs.to_vec(alloc)?;
        let last = vec![in alloc; None; self.costs.len()]?;
        let mut level = Level { costs, last };
        for (number, arc) in arcs.iter().enumerate() {
            let cost = self.costs[arc.tail as usize] + arc.cost;
            if cost < level.costs[arc.head as usize] {
                level.put(arc.head as usize, cost, number as u32);
            }
        }
        Ok(level)
    }

    /// Puts a cost at a vertex, with the number of the arc that leads there.
    fn put(&mut self, vertex: usize, cost: i64, number: u32)
        requires costs { vertex < length self.old.costs.items }
        requires last { vertex < length self.old.last.items }
        ensures costs { self.new.costs.items ≡ slice_set self.old.costs.items vertex cost }
        ensures last { self.new.last.items ≡ slice_set self.old.last.items vertex (Some number) }
    {
        self.costs[vertex] = cost;
        self.last[vertex] = Some(number);
    }

    /// The last arc of the walk to a vertex, where no walk with fewer arcs costs as little.
    pub fn last_arc(&self, vertex: u32) -> Option<u32>
        requires { vertex < length self.now.last.items }
        ensures { result ≡ last_at (row_of self.now) vertex }
    {
        self.last[vertex as usize]
    }

    /// A vertex to which a walk costs less than on the level below, if there is one.
    pub fn lowered_vertex(&self) -> Option<u32>
        requires { length self.now.last.items ≤ max_vertices }
        ensures some { IfSome result (λ vertex. (vertex < length self.now.last.items)
            × (last_at (row_of self.now) vertex ≢ None)) }
        ensures none { result ≡ None
            → (vertex : ℕ) → last_at (row_of self.now) vertex ≡ None }
    {
        for (vertex, last) in self.last.iter().enumerate() {
            if last.is_some() {
                return Some(vertex as u32);
            }
        }
        None
    }
}
