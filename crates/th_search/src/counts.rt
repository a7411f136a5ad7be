//! What a search counts for its promise: calls, refusals and cycles, with its last call.
ghost use Rattle.std.specs.Prelude.{◌≡◌, ◌+◌, ◌<◌, ◌≤◌, Some};
ghost use Rattle.th_search.specs.Answers.{cycles_in, refusals_in};
ghost use Rattle.th_search.specs.Asked.{asked_last, asked_of};
ghost use Rattle.th_search.specs.Limits.{max_calls};

use crate::arcs::Arc;
use crate::last_calls::LastCall;
use crate::searches::Found;
use std::alloc::AllocError;

/// What a search has to remember for its promise: counts, and its last call.
#[derive(Debug, Drop)]
pub struct SearchCounts {
    /// Its calls.
    pub calls: u128,
    /// The calls that ran out of memory.
    pub refusals: u128,
    /// The calls that named a cycle.
    pub cycles: u128,
    /// The last call, if there was one.
    pub last: Option<LastCall>,
    pub ghost refusals_are_calls: { refusals ≤ calls },
    pub ghost cycles_are_calls: { cycles ≤ calls },
}

impl SearchCounts {
    /// The counts before the first call.
    pub fn new() -> SearchCounts
        ensures calls { result.calls ≡ 0 }
        ensures refusals { result.refusals ≡ 0 }
        ensures cycles { result.cycles ≡ 0 }
    {
        SearchCounts {
            calls: 0,
            refusals: 0,
            cycles: 0,
            last: None,
        }
    }

    /// Counts a call with these arcs among `n` vertices that found this, and remembers it.
    pub fn add(&mut self, n: u32, arcs: &Vec<Arc>, found: &Result<Found, AllocError>)
        requires { self.old.calls < max_calls }
        ensures calls { self.new.calls ≡ self.old.calls + 1 }
        ensures refusals { self.new.refusals ≡ self.old.refusals + refusals_in found.now }
        ensures cycles { self.new.cycles ≡ self.old.cycles + cycles_in found.now }
        ensures asked { asked_last self.new.last ≡ Some (asked_of n arcs.now.items found.now) }
    {
        self.last = Some(LastCall::of(n, arcs, found));
        self.calls += 1;
        match found {
            Ok(Found::Potentials(_)) => {}
            Ok(Found::Cycle(_)) => self.cycles += 1,
            Err(_) => self.refusals += 1,
        }
    }
}
