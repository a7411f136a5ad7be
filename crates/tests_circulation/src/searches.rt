//! Searches for tests: one that counts, one that is out of memory at a call, and strange ones.
ghost use Rattle.std.specs.Prelude.{◌≡◌, ◌+◌, ◌<◌, ◌≤◌, ℕ, pos, ◌-ℤ◌, All, IfOk, length, unsigned_abs};
ghost use Rattle.th_search.specs.Limits.{max_vertices, max_arcs, max_cost};
ghost use Rattle.th_search.specs.Walks.{IsArc, IsNegativeCycle};
ghost use Rattle.th_search.specs.Potentials.{ArePotentials, largest_cost, value_at};
ghost use Rattle.th_search.specs.Answers.{IsAnswer};
ghost use Rattle.th_search.specs.Asked.{asked_last};

use std::alloc::{AllocError, Global};
use tests_searches::LevelSearch;
use th_search::{Arc, Found, LabelSearch, Search, SearchCounts};

/// What a call of a search is about: how many arcs, and the largest size of their costs.
#[derive(Clone, Copy, Debug)]
pub struct Question {
    pub arcs: usize,
    pub largest: u64,
}

impl Question {
    /// No arcs.
    pub const NONE: Question = Question {
        arcs: 0,
        largest: 0,
    };

    fn of(arcs: &[Arc]) -> Question {
        let mut largest = 0u64;
        for arc in arcs {
            largest = largest.max(arc.cost.unsigned_abs());
        }
        Question {
            arcs: arcs.len(),
            largest,
        }
    }
}

/// A search that counts its calls and the cycles that it names, and keeps its first question and the arcs of
/// its last one, where a test can read them.
#[derive(Drop)]
pub struct CountingSearch<S> {
    pub search: S,
    pub called: u128,
    pub cycles: u128,
    pub first: Question,
    /// The arcs of its last question; none where it answered a cycle.
    pub last: Vec<Arc>,
}

impl<S: Search> CountingSearch<S> {
    /// A search before its first call.
    pub fn new(alloc: Global, search: S) -> CountingSearch<S>
        ensures { result.search ≡ search }
    {
        CountingSearch {
            search,
            called: 0,
            cycles: 0,
            first: Question::NONE,
            last: Vec::new(alloc),
        }
    }
}

impl<S: Search> Search for CountingSearch<S> {
    ghost calls = { λ counting. S.calls counting.search };

    ghost refusals = { λ counting. S.refusals counting.search };

    ghost cycles = { λ counting. S.cycles counting.search };

    ghost asked = { λ counting. S.asked counting.search };

    fn search(&mut self, alloc: Global, n: u32, arcs: &Vec<Arc>) -> Result<Found, AllocError> {
        if self.called == 0 {
            self.first = Question::of(arcs);
        }
        self.called = self.called.wrapping_add(1);
        self.last.clear();
        let found = self.search.search(alloc, n, arcs);
        match &found {
            // Where memory runs out, arcs are missing, and the test fails.
            Ok(Found::Potentials(_)) => drop(self.last.extend_from_slice(arcs)),
            Ok(Found::Cycle(_)) => self.cycles = self.cycles.wrapping_add(1),
            Err(_) => {}
        }
        found
    }

    ghost refusals_are_calls = { λ counting. S.refusals_are_calls counting.search };
}

/// A search that refuses memory at its call of a number, counted from 0.
#[derive(Drop)]
pub struct RefusingSearch {
    pub refused: u128,
    pub counts: SearchCounts,
}

impl Search for RefusingSearch {
    ghost calls = { λ search. search.counts.calls };

    ghost refusals = { λ search. search.counts.refusals };

    ghost cycles = { λ search. search.counts.cycles };

    ghost asked = { λ search. asked_last search.counts.last };

    fn search(&mut self, alloc: Global, n: u32, arcs: &Vec<Arc>) -> Result<Found, AllocError> {
        let found = if self.counts.calls == self.refused {
            Err(AllocError)
        } else {
            LabelSearch::new().search(alloc, n, arcs)
        };
        self.counts.add(n, arcs, &found);
        found
    }

    ghost refusals_are_calls = { λ search. search.counts.refusals_are_calls };
}

/// How a strange search answers.
#[derive(Clone, Copy, Debug)]
pub enum Manner {
    /// It names the longer one of two cycles.
    Longest,
    /// It names a cycle from its second arc on.
    Turned,
    /// It answers potentials that are as low as the law allows.
    Lowest,
}

impl Manner {
    /// What a search of this manner finds.
    fn found_in(self, alloc: Global, n: u32, arcs: &Vec<Arc>) -> Result<Found, AllocError>
        requires some { 1 ≤ n }
        requires vertices { n ≤ max_vertices }
        requires many { length arcs.now.items ≤ max_arcs }
        requires arcs { All (IsArc n) arcs.now.items }
        ensures { IfOk result (IsAnswer n arcs.now.items) }
    {
        match self {
            Manner::Longest => longest(alloc, n, arcs),
            Manner::Turned => turned(alloc, n, arcs),
            Manner::Lowest => lowest(alloc, n, arcs),
        }
    }
}

/// The longer one of the answers of both searches.
fn longest(alloc: Global, n: u32, arcs: &Vec<Arc>) -> Result<Found, AllocError>
    requires some { 1 ≤ n }
    requires vertices { n ≤ max_vertices }
    requires many { length arcs.now.items ≤ max_arcs }
    requires arcs { All (IsArc n) arcs.now.items }
    ensures { IfOk result (IsAnswer n arcs.now.items) }
{
    let labels = LabelSearch::new().search(alloc, n, arcs)?;
    let levels = LevelSearch::new().search(alloc, n, arcs)?;
    if cycle_len(&labels) < cycle_len(&levels) {
        return Ok(levels);
    }
    Ok(labels)
}

/// The answer of a search, where its cycle begins at the second arc.
fn turned(alloc: Global, n: u32, arcs: &Vec<Arc>) -> Result<Found, AllocError>
    requires some { 1 ≤ n }
    requires vertices { n ≤ max_vertices }
    requires many { length arcs.now.items ≤ max_arcs }
    requires arcs { All (IsArc n) arcs.now.items }
    ensures { IfOk result (IsAnswer n arcs.now.items) }
{
    match LabelSearch::new().search(alloc, n, arcs)? {
        Found::Potentials(potentials) => Ok(Found::Potentials(potentials)),
        Found::Cycle(cycle) => Ok(Found::Cycle(from_second(arcs, cycle))),
    }
}

/// A cycle of arcs from its second arc on.
#[tactic(auto, using(crate::proofs::Turned::turned_is_cycle))]
fn from_second(_arcs: &[Arc], mut cycle: Vec<u32>) -> Vec<u32>
    requires { IsNegativeCycle _arcs.now cycle.items }
    ensures { IsNegativeCycle _arcs.now result.items }
{
    cycle.rotate_left(1);
    cycle
}

/// The answer of a search, where its potentials are lowered alike as far as the law allows.
fn lowest(alloc: Global, n: u32, arcs: &Vec<Arc>) -> Result<Found, AllocError>
    requires some { 1 ≤ n }
    requires vertices { n ≤ max_vertices }
    requires many { length arcs.now.items ≤ max_arcs }
    requires arcs { All (IsArc n) arcs.now.items }
    ensures { IfOk result (IsAnswer n arcs.now.items) }
{
    match LabelSearch::new().search(alloc, n, arcs)? {
        Found::Potentials(mut potentials) => {
            sink_all(n, arcs, &mut potentials);
            Ok(Found::Potentials(potentials))
        }
        Found::Cycle(cycle) => Ok(Found::Cycle(cycle)),
    }
}

/// Lowers potentials alike as far as the law allows: until the lowest is below 0 by the largest cost
/// for each vertex but one.
fn sink_all(n: u32, arcs: &[Arc], potentials: &mut [i64])
    requires some { 1 ≤ n }
    requires vertices { n ≤ max_vertices }
    requires arcs { All (IsArc n) arcs.now }
    requires potentials { ArePotentials n arcs.now potentials.old }
    ensures { ArePotentials n arcs.now potentials.new }
{
    let most = u64::from(n - 1) * largest(n, arcs);
    let deepest = deepest(potentials, most);
    sink(potentials, most - deepest);
}

/// The largest size of a cost.
fn largest(_n: u32, arcs: &[Arc]) -> u64
    requires { All (IsArc _n) arcs.now }
    ensures value { result ≡ largest_cost arcs.now }
    ensures small { result ≤ max_cost }
{
    let mut largest = 0u64;
    for arc in arcs {
        largest = largest.max(arc.cost.unsigned_abs());
    }
    largest
}

/// The size of the lowest potential.
fn deepest(potentials: &[i64], most: u64) -> u64
    requires { All (λ potential. unsigned_abs potential ≤ most) potentials.now }
    ensures within { result ≤ most }
    ensures each { All (λ potential. unsigned_abs potential ≤ result) potentials.now }
{
    let mut deepest = 0u64;
    for potential in potentials {
        deepest = deepest.max(potential.unsigned_abs());
    }
    deepest
}

/// Lowers potentials by as much.
fn sink(potentials: &mut [i64], room: u64)
    requires { All (λ potential. unsigned_abs potential + room ≤ 40000000000000000) potentials.old }
    ensures len { length potentials.new ≡ length potentials.old }
    ensures each { (v : ℕ) → v < length potentials.old
        → value_at potentials.new v ≡ value_at potentials.old v -ℤ pos room }
{
    for potential in potentials.iter_mut() {
        *potential -= room as i64;
    }
}

/// How many arcs the cycle of an answer has, 0 for potentials.
pub fn cycle_len(found: &Found) -> usize {
    match found {
        Found::Potentials(_) => 0,
        Found::Cycle(cycle) => cycle.len(),
    }
}

/// A search that answers within the law, but in a strange manner.
#[derive(Drop)]
pub struct StrangeSearch {
    manner: Manner,
    counts: SearchCounts,
}

impl StrangeSearch {
    /// A search of this manner that was not called yet.
    pub fn new(manner: Manner) -> StrangeSearch
        ensures { ⟦<StrangeSearch as Search>⟧.calls result ≡ 0 }
    {
        StrangeSearch {
            manner,
            counts: SearchCounts::new(),
        }
    }
}

impl Search for StrangeSearch {
    ghost calls = { λ search. search.counts.calls };

    ghost refusals = { λ search. search.counts.refusals };

    ghost cycles = { λ search. search.counts.cycles };

    ghost asked = { λ search. asked_last search.counts.last };

    fn search(&mut self, alloc: Global, n: u32, arcs: &Vec<Arc>) -> Result<Found, AllocError> {
        let found = self.manner.found_in(alloc, n, arcs);
        self.counts.add(n, arcs, &found);
        found
    }

    ghost refusals_are_calls = { λ search. search.counts.refusals_are_calls };
}
