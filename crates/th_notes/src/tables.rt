//! The notes of the tables of benchmarks and of weights.
ghost use Rattle.std.specs.Prelude.{◌≡◌, ◌<◌, ◌+◌, ◌^◌, ◌++◌, ℕ, ℤ, List, IfOk, OnOk, Some, length, slice_get};
ghost use Rattle.th_notes.specs.Findings.{benchmark_notes, name_note, pair_note, weight_notes};
ghost use Rattle.th_notes.specs.Inside.Sets.{has_name, has_pair};
ghost use Rattle.th_notes.specs.Seen.{was_observed, was_seen};

use crate::limited::add_limited;
use crate::notes::{Kind, Note};
use gsi_word::Name;
use std::alloc::{AllocError, Global};
use std::collections::BTreeSet;
use th_entries::Listed;
use th_observations::Observation;
use th_tables::{Benchmarks, Weights};

/// The pairs of a station and a target that were observed, in order: each costs the logarithm of their
/// number, whatever the names are.
pub(crate) type Pairs = BTreeSet<(Name, Name)>;

/// The names of points that were observed, likewise.
pub(crate) type Names = BTreeSet<Name>;

/// Adds a note of each row of the table of benchmarks that was never observed: the first ones, and how
/// many more there are.
pub(crate) fn add_benchmark_notes(
    alloc: Global,
    notes: &mut Vec<Note>,
    observations: &[Observation],
    benchmarks: &Benchmarks,
) -> Result<(), AllocError>
    ensures { OnOk result (notes.new.items
        ≡ notes.old.items ++ benchmark_notes observations.now benchmarks.now) }
{
    let names = names_of(alloc, observations)?;
    let mut found = Listed::new(alloc);
    for k in 0..benchmarks.len() {
        if let Some(note) = benchmark_note(k, benchmarks, &names) {
            found.push(note)?;
        }
    }
    add_limited(notes, Kind::Benchmarks, &found)
}

/// The names of the ends of observations.
pub(crate) fn names_of(alloc: Global, observations: &[Observation]) -> Result<Names, AllocError>
    ensures { IfOk result (λ names. (name : List ℕ)
        → has_name names name ≡ was_seen observations.now name) }
{
    let mut names = BTreeSet::new(alloc);
    for o in observations {
        let (station, target) = o.ends();
        names.insert(station)?;
        names.insert(target)?;
    }
    Ok(names)
}

/// The note of the row of the table of benchmarks at a place, counted from 0, if it was never observed.
fn benchmark_note(k: usize, benchmarks: &Benchmarks, names: &Names) -> Option<Note>
    requires within { k < length benchmarks.now }
    requires few { length benchmarks.now < 2 ^ 63 }
    ensures { (name : List ℕ) (height : ℤ) → slice_get benchmarks.now k ≡ Some (name, height)
        → result ≡ name_note (k + 2) name (has_name names.now name) }
{
    let (name, _) = benchmarks.entry(k)?;
    name_note(k as u64 + 2, &name, names)
}

/// The note of a row of the table of benchmarks with this name, if that was never observed.
fn name_note(row: u64, name: &Name, names: &Names) -> Option<Note>
    ensures { result ≡ name_note row name.now (has_name names.now name.now) }
{
    if names.contains(name) {
        return None;
    }
    Some(Note::UnseenBenchmark { row, name: *name })
}

/// Adds a note of each row of the table of weights whose pair was never observed: the first ones, and how
/// many more there are.
pub(crate) fn add_weight_notes(
    alloc: Global,
    notes: &mut Vec<Note>,
    observations: &[Observation],
    weights: &Weights,
) -> Result<(), AllocError>
    ensures { OnOk result (notes.new.items
        ≡ notes.old.items ++ weight_notes observations.now weights.now) }
{
    let pairs = pairs_of(alloc, observations)?;
    let mut found = Listed::new(alloc);
    for k in 0..weights.len() {
        if let Some(note) = row_note(k, weights, &pairs) {
            found.push(note)?;
        }
    }
    add_limited(notes, Kind::Weights, &found)
}

/// The pairs of a station and a target that were observed.
pub(crate) fn pairs_of(alloc: Global, observations: &[Observation]) -> Result<Pairs, AllocError>
    ensures { IfOk result (λ pairs. (ends : List ℕ × List ℕ)
        → has_pair pairs ends ≡ was_observed observations.now ends) }
{
    let mut pairs = BTreeSet::new(alloc);
    for o in observations {
        pairs.insert(o.ends())?;
    }
    Ok(pairs)
}

/// The note of the row of the table of weights at a place, counted from 0, if its pair was never
/// observed.
fn row_note(k: usize, weights: &Weights, pairs: &Pairs) -> Option<Note>
    requires within { k < length weights.now }
    requires few { length weights.now < 2 ^ 63 }
    ensures { (ends : List ℕ × List ℕ) (weight : ℕ) → slice_get weights.now k ≡ Some (ends, weight)
        → result ≡ pair_note (k + 2) ends (has_pair pairs.now ends)
        (has_pair pairs.now (ends.1, ends.0)) }
{
    let (ends, _) = weights.entry(k)?;
    pair_note(k as u64 + 2, &ends, pairs)
}

/// The note of a row of the table of weights with this pair, if that was never observed.
fn pair_note(row: u64, ends: &(Name, Name), pairs: &Pairs) -> Option<Note>
    ensures { result ≡ pair_note row ends.now (has_pair pairs.now ends.now)
        (has_pair pairs.now (ends.now.1, ends.now.0)) }
{
    let (station, target) = *ends;
    if pairs.contains(&(station, target)) {
        return None;
    }
    if pairs.contains(&(target, station)) {
        return Some(Note::TurnedWeight {
            row,
            station,
            target,
        });
    }
    Some(Note::UnusedWeight {
        row,
        station,
        target,
    })
}
