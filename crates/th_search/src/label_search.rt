//! A search that passes over the arcs until none improves a label or a cycle is closed.
ghost use Rattle.std.specs.Prelude.{◌≡◌, IfOk};
ghost use Rattle.th_search.specs.Answers.{IsAnswer};
ghost use Rattle.th_search.specs.Asked.{asked_last};
ghost use Rattle.th_search.specs.Searched.{IsSearched};

use crate::arcs::Arc;
use crate::counts::SearchCounts;
use crate::fronts::cycle_in_front;
use crate::labels::Labels;
use crate::passes::{Pass, pass_over};
use crate::searches::{Found, Search};
use crate::sweeps::Sweep;
use std::alloc::{AllocError, Global};

/// A search that lowers labels.
#[derive(Debug, Drop)]
pub struct LabelSearch {
    counts: SearchCounts,
}

impl LabelSearch {
    /// A search before its first call.
    pub fn new() -> LabelSearch
        ensures calls { ⟦<LabelSearch as Search>⟧.calls result ≡ 0 }
        ensures refusals { ⟦<LabelSearch as Search>⟧.refusals result ≡ 0 }
        ensures cycles { ⟦<LabelSearch as Search>⟧.cycles result ≡ 0 }
    {
        LabelSearch {
            counts: SearchCounts::new(),
        }
    }
}

impl Search for LabelSearch {
    ghost calls = { λ search. search.counts.calls };

    ghost refusals = { λ search. search.counts.refusals };

    ghost cycles = { λ search. search.counts.cycles };

    ghost asked = { λ search. asked_last search.counts.last };

    fn search(&mut self, alloc: Global, n: u32, arcs: &Vec<Arc>) -> Result<Found, AllocError> {
        let found = found_in(alloc, n, arcs);
        self.counts.add(n, arcs, &found);
        found
    }

    ghost refusals_are_calls = { λ search. search.counts.refusals_are_calls };
}

/// Potentials or a negative cycle of a network of `n` vertices.
fn found_in(alloc: Global, n: u32, arcs: &[Arc]) -> Result<Found, AllocError>
    requires { IsSearched n arcs.now }
    ensures { IfOk result (IsAnswer n arcs.now) }
{
    if let Some(cycle) = cycle_in_front(alloc, n, arcs)? {
        return Ok(Found::Cycle(cycle));
    }
    let mut labels = Labels::new(alloc, n)?;
    let mut marks = vec![in alloc; 0u32; n as usize]?;
    let mut sweep = Sweep::Forwards;
    'passes: loop {
        match pass_over(arcs, sweep, &mut labels, &mut marks) {
            Pass::Lowered => sweep = sweep.reversed(),
            Pass::Done => return Ok(Found::Potentials(labels.values)),
            Pass::Closed(vertex) => {
                return Ok(Found::Cycle(labels.cycle_through(alloc, arcs, vertex)?));
            }
        }
    }
}
