//! What a wrong height of each benchmark would do.
ghost use Rattle.std.specs.Prelude.{◌≡◌, ◌-◌, All, IfOk, IsSome, None, Some, count_by, if◌then◌else◌, map, nat_lt};
ghost use Rattle.std.specs.List.{AllZip};
ghost use Rattle.th_observations.specs.Observed.{IsBetweenPoints};
ghost use Rattle.th_points.specs.Places.{place_of};
ghost use Rattle.th_reliability.specs.BenchmarkEffects.{IsBenchmarkEffect};
ghost use Rattle.th_reliability.specs.Benchmarks.{has_end};
ghost use Rattle.th_reliability.specs.Inside.Ends.{is_at};
ghost use Rattle.th_tables.specs.Rows.{height_of};

use crate::effects::{Effect, effect_at};
use crate::ground::Ground;
use gsi_word::Name;
use std::alloc::{AllocError, Global};
use th_network::Network;

/// What a wrong height of a benchmark would do. It is one mistake in all observations with an end there.
#[derive(Clone, Copy, Debug, PartialEq, Eq)]
pub struct BenchmarkEffect {
    /// How many observations have an end at the benchmark.
    pub sights: usize,
    /// What they weigh together.
    pub weight: u32,
    /// The least cut between the benchmark and all others; `None` if there is no other one.
    pub strength: Option<u32>,
    /// What the mistake does; `None` if no observation has an end at the benchmark.
    pub effect: Option<Effect>,
}

/// What a wrong height of each benchmark would do, in the order of their table.
///
/// Each benchmark takes one flow through the network: twice the weight of each of its observations flows
/// from vertex 0 to the other end. What the least set drains, less the weight of them all, is the
/// benchmark's strength.
pub fn benchmark_mistakes(
    alloc: Global,
    network: &Network,
) -> Result<Vec<BenchmarkEffect>, AllocError>
    ensures { IfOk result (λ effects. AllZip (λ row effect.
        IsBenchmarkEffect network.now row.0 effect) network.now.benchmarks effects.items) }
{
    let ground = Ground::of(alloc, network)?;
    let benchmarks = network.benchmarks();
    let mut effects = Vec::with_capacity(alloc, benchmarks.len())?;
    let mut k = 0;
    'rows: while let Some(row) = benchmarks.entry(k) {
        let effect = benchmark_effect(alloc, &ground, &row.0)?;
        effects.push(effect)?;
        k += 1;
    }
    Ok(effects)
}

/// What a wrong height of a benchmark would do.
fn benchmark_effect(
    alloc: Global,
    ground: &Ground<'_, '_>,
    name: &Name,
) -> Result<BenchmarkEffect, AllocError>
    requires { IsSome (height_of ground.now.network.now.benchmarks name.now) }
    ensures { IfOk result (IsBenchmarkEffect ground.now.network.now name.now) }
{
    let network = ground.network;
    let mistaken = marks_at(alloc, network, name)?;
    let flowed = effect_at(alloc, ground, &mistaken, (0, mistaken.len()), 0)?;
    let sights = count_marked(&mistaken);
    Ok(BenchmarkEffect {
        sights,
        weight: flowed.weight,
        strength: strength_of(network.benchmarks().len(), flowed.drained, flowed.weight),
        effect: if_some(sights, flowed.effect),
    })
}

/// The strength of one of so many benchmarks, given the least that a set drains and the weight of its
/// observations.
fn strength_of(benchmarks: usize, drained: u32, weight: u32) -> Option<u32>
    ensures { result ≡ (if nat_lt 1 benchmarks then Some (drained - weight) else None) }
{
    if benchmarks > 1 {
        Some(drained.saturating_sub(weight))
    } else {
        None
    }
}

/// What a mistake does, if any observation has it.
fn if_some(sights: usize, effect: Effect) -> Option<Effect>
    ensures { result ≡ (if nat_lt 0 sights then Some effect else None) }
{
    if sights > 0 { Some(effect) } else { None }
}

/// For each observation whether it has an end at a benchmark.
fn marks_at(alloc: Global, network: &Network, name: &Name) -> Result<Vec<bool>, AllocError>
    requires { IsSome (height_of network.now.benchmarks name.now) }
    ensures marks { IfOk result (λ marks.
        marks.items ≡ map (has_end name.now) network.now.observations) }
    ensures between { IfOk result (λ _. All IsBetweenPoints network.now.observations) }
{
    let place = place_in(network.points(), name);
    let ends = network.ends();
    let mut marks = Vec::with_capacity(alloc, network.observations().len())?;
    for own in ends {
        marks.push(is_at(place, own))?;
    }
    Ok(marks)
}

/// Whether one of the places of an observation's ends is the given one.
fn is_at(place: usize, ends: &(usize, usize)) -> bool
    ensures { result ≡ is_at place ends.now }
{
    ends.0 == place || ends.1 == place
}

/// The place of a name among some, counted from 0, or how many there are if it is none of them.
pub fn place_in(names: &[Name], name: &Name) -> usize
    ensures { result ≡ place_of names.now name.now }
{
    for (place, other) in names.iter().enumerate() {
        if *name == *other {
            return place;
        }
    }
    names.len()
}

/// How many of some are marked.
fn count_marked(marks: &[bool]) -> usize
    ensures { result ≡ count_by (λ mark. mark) marks.now }
{
    marks.iter().filter(|mark| **mark).count()
}
