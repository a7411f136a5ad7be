//! A search by levels: potentials where a level is as the one below, or else a negative cycle.
ghost use Rattle.std.specs.Prelude.{◌≡◌, ◌≢◌, ◌+◌, ◌<◌, ◌≤◌, All, IfOk, None, drop, length, reverse};
ghost use Rattle.th_search.specs.Walks.{IsArc, IsNegativeCycle};
ghost use Rattle.th_search.specs.Answers.{IsAnswer};
ghost use Rattle.th_search.specs.Asked.{asked_last};
ghost use Rattle.th_search.specs.Searched.{IsSearched};
ghost use Rattle.tests_searches.specs.Levels.{AreLevels, last_at, row_at, rows_of};

use crate::levels::Level;
use std::alloc::{AllocError, Global};
use th_search::{Arc, Found, Search, SearchCounts};

/// A search that makes a table: for each number of arcs, from 0 on, and
/// each vertex the least cost of a walk to it over at most that many arcs. It takes about `n + 1`
/// times `n` entries of memory, and time in proportion to `n` times the number of arcs.
#[derive(Debug, Drop)]
pub struct LevelSearch {
    counts: SearchCounts,
}

impl LevelSearch {
    /// A search before its first call.
    pub fn new() -> LevelSearch
        ensures calls { ⟦<LevelSearch as Search>⟧.calls result ≡ 0 }
        ensures refusals { ⟦<LevelSearch as Search>⟧.refusals result ≡ 0 }
        ensures cycles { ⟦<LevelSearch as Search>⟧.cycles result ≡ 0 }
    {
        LevelSearch {
            counts: SearchCounts::new(),
        }
    }
}

impl Search for LevelSearch {
    ghost calls = { λ search. search.counts.calls };

    ghost refusals = { λ search. search.counts.refusals };

    ghost cycles = { λ search. search.counts.cycles };

    ghost asked = { λ search. asked_last search.counts.last };

    fn search(&mut self, alloc: Global, n: u32, arcs: &Vec<Arc>) -> Result<Found, AllocError> {
        let found = found_in(alloc, n, arcs);
        self.counts.add(n, arcs, &found);
        found
    }

    ghost refusals_are_calls = { λ search. search.counts.refusals_are_calls };
}

/// Potentials or a negative cycle of a network of `n` vertices: the costs of a level that is as the
/// one below, or what walks over `n` arcs pass twice where even they cost less than those over fewer.
fn found_in(alloc: Global, n: u32, arcs: &[Arc]) -> Result<Found, AllocError>
    requires { IsSearched n arcs.now }
    ensures { IfOk result (IsAnswer n arcs.now) }
{
    let mut levels = Vec::new(alloc);
    levels.push(Level::first(alloc, n)?)?;
    let mut from = 0;
    for number in 0..n as usize {
        let level = levels[number].above(alloc, arcs)?;
        let Some(vertex) = level.lowered_vertex() else {
            return Ok(Found::Potentials(level.costs));
        };
        from = vertex;
        levels.push(level)?;
    }
    Ok(Found::Cycle(cycle_back(alloc, n, arcs, &levels, from)?))
}

/// The cycle on the walk over as many arcs as there are vertices, back from a vertex of the last level
/// that was lowered there: the arcs since the first vertex that the walk comes to again.
fn cycle_back(
    alloc: Global,
    n: u32,
    arcs: &[Arc],
    levels: &[Level],
    from: u32,
) -> Result<Vec<u32>, AllocError>
    requires arcs { All (IsArc n) arcs.now }
    requires levels { AreLevels n arcs.now (rows_of levels.now) }
    requires size { length levels.now ≡ n + 1 }
    requires from { from < n }
    requires lowered { last_at (row_at (rows_of levels.now) n) from ≢ None }
    ensures { IfOk result (λ cycle. IsNegativeCycle arcs.now cycle.items) }
{
    let mut places = vec![in alloc; None; n as usize]?;
    let mut walk = Vec::new(alloc);
    let mut vertex = from;
    for place in 0..levels.len() {
        if let Some(first) = places[vertex as usize] {
            return turned(alloc, &walk, first);
        }
        let Some(number) = levels[levels.len() - 1 - place].last_arc(vertex) else {
            unreachable!()
        };
        places[vertex as usize] = Some(place);
        walk.push(number)?;
        vertex = arcs[number as usize].tail;
    }
    unreachable!()
}

/// The numbers from a place on, in the other order.
fn turned(alloc: Global, walk: &[u32], first: usize) -> Result<Vec<u32>, AllocError>
    requires { first ≤ length walk.now }
    ensures { IfOk result (λ part. part.items ≡ reverse (drop first walk.now)) }
{
    let mut part = walk[first..].to_vec(alloc)?;
    part.reverse();
    Ok(part)
}
