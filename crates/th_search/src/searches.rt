//! What a search promises: potentials or a negative cycle, and counts of its calls.
ghost use Rattle.std.specs.Prelude.{◌≡◌, ◌+◌, ◌<◌, ◌≤◌, ℕ, Option, Some, IfOk};
ghost use Rattle.th_search.specs.Limits.{max_calls};
ghost use Rattle.th_search.specs.Searched.{IsSearched};
ghost use Rattle.th_search.specs.Answers.{IsAnswer, cycles_in, refusals_in};
ghost use Rattle.th_search.specs.Asked.{Asked, asked_of};

use crate::arcs::Arc;
use std::alloc::{AllocError, Global};

/// What a search finds.
#[derive(Debug, Drop)]
pub enum Found {
    /// A potential for each vertex: at an arc's head it is at most that at its tail plus the arc's
    /// cost. Potentials are at most 0, and below 0 by at most the greatest size of a cost for each
    /// vertex but one.
    Potentials(Vec<i64>),
    /// The numbers, from 0, of the arcs of a cycle whose costs sum to less than 0. Each arc begins
    /// where the one before it ends, and no vertex is entered twice.
    Cycle(Vec<u32>),
}

/// A search for potentials or a negative cycle.
pub trait Search {
    // How often it was called, how many of these calls were refused memory, and how many named a cycle.
    ghost calls: { Self → ℕ };

    ghost refusals: { Self → ℕ };

    ghost cycles: { Self → ℕ };

    // What it was asked last, if it was asked.
    ghost asked: { Self → Option Asked };

    /// Finds potentials of the vertices 0 to `n - 1`, or a cycle of arcs that costs less than 0.
    ///
    /// `n` is 1 to `MAX_VERTICES`. There are at most `MAX_ARCS` arcs, with ends below `n` and costs
    /// of at most `MAX_COST` in size (`are_arcs` tests it). They are a `Vec` and no slice because
    /// contracts remember them, as a `Snapshot`. If memory runs out, the call counts as a refusal,
    /// and the search may be called again.
    fn search(&mut self, alloc: Global, n: u32, arcs: &Vec<Arc>) -> Result<Found, AllocError>
        requires searched { IsSearched n arcs.now.items }
        requires calls { calls self.old < max_calls }
        ensures answer { IfOk result (IsAnswer n arcs.now.items) }
        ensures asked { asked self.new ≡ Some (asked_of n arcs.now.items result) }
        ensures calls { calls self.new ≡ calls self.old + 1 }
        ensures refusals { refusals self.new ≡ refusals self.old + refusals_in result }
        ensures cycles { cycles self.new ≡ cycles self.old + cycles_in result };

    // No more calls are refused than there are.
    ghost refusals_are_calls: { (search : Self) → refusals search ≤ calls search };
}
