//! All numbers of a survey but for those of books.
ghost use Rattle.std.specs.Prelude.{◌≡◌, ◌++◌, ◌<◌, ◌^◌, List, IfOk, OnOk, length, map};
ghost use Rattle.th_entries.specs.declared.entries.HeightKind.TheVariants as height;
ghost use Rattle.th_numbers.specs.Lists.{benchmark_at, changes, changes_at, entered, listed_in, listed_of, tied_benchmarks};
ghost use Rattle.th_numbers.specs.declared.candidates.Candidate.TheVariants.{Sight};
ghost use Rattle.th_numbers.specs.declared.ties.TiedRow.{TiedRow};
ghost use Rattle.th_numbers.specs.Ties.{AreTiedRows};

use crate::candidates::Candidate;
use crate::entered::{add_entered, add_forgotten};
use crate::kinds::Kinds;
use crate::ties::{TiedRow, tied_rows};
use std::alloc::{AllocError, Global};
use th_entries::{Entry, HeightKind};
use th_network::Network;
use th_observations::Observation;
use th_reliability::Runs;

/// The record of a table's first row: the header is record 1.
const FIRST_RECORD: u32 = 2;

/// The numbers of a survey, by kind.
#[derive(Drop)]
pub struct Listing {
    pub entered: Vec<Candidate>,
    pub changes: Vec<Candidate>,
    pub sights: Vec<Candidate>,
    pub benchmarks: Vec<Candidate>,
}

/// The numbers of a survey, whose books have these entries.
pub fn listing_of(
    alloc: Global,
    network: &Network,
    kinds: &Kinds<'_>,
) -> Result<Listing, AllocError>
    ensures { IfOk result (λ listing. (tied : List TiedRow) × AreTiedRows network.now tied
        × (listed_in listing ≡ listed_of network.now kinds.now.entries.now tied)) }
{
    let observations = network.observations();
    let runs = Runs::of(observations);
    let entered = entered_of(alloc, &runs, kinds.entries)?;
    let changes = changes_of(alloc, &runs, kinds)?;
    let sights = sights_of_all(alloc, observations)?;
    let benchmarks = benchmarks_of(alloc, network)?;
    Ok(Listing {
        entered,
        changes,
        sights,
        benchmarks,
    })
}

/// The entered heights that have two or more sights, those of instruments first.
fn entered_of(
    alloc: Global,
    runs: &Runs<'_>,
    entries: &[Entry],
) -> Result<Vec<Candidate>, AllocError>
    ensures { IfOk result (λ found. found.items ≡ entered runs.now.observations.now height.Instrument entries.now
        ++ entered runs.now.observations.now height.Reflector entries.now) }
{
    let mut found = Vec::new(alloc);
    add_entered(&mut found, runs, entries, HeightKind::Instrument)?;
    add_entered(&mut found, runs, entries, HeightKind::Reflector)?;
    Ok(found)
}

/// The changes that may have been forgotten.
fn changes_of(
    alloc: Global,
    runs: &Runs<'_>,
    kinds: &Kinds<'_>,
) -> Result<Vec<Candidate>, AllocError>
    ensures { IfOk result (λ found. found.items ≡ changes runs.now.observations.now kinds.now.entries.now) }
{
    let mut found = Vec::new(alloc);
    for o in runs.observations {
        add_changes(&mut found, runs, kinds, o)?;
    }
    Ok(found)
}

/// Adds the changes that may have been forgotten before an observation, the instrument's first.
fn add_changes(
    found: &mut Vec<Candidate>,
    runs: &Runs<'_>,
    kinds: &Kinds<'_>,
    o: &Observation,
) -> Result<(), AllocError>
    ensures { OnOk result (found.new.items ≡ found.old.items
        ++ changes_at runs.now.observations.now kinds.now.entries.now o.now) }
{
    add_forgotten(found, runs, kinds, HeightKind::Instrument, o)?;
    add_forgotten(found, runs, kinds, HeightKind::Reflector, o)
}

/// All sights.
fn sights_of_all(alloc: Global, observations: &[Observation]) -> Result<Vec<Candidate>, AllocError>
    ensures { IfOk result (λ found. found.items ≡ map Sight observations.now) }
{
    let mut found = Vec::with_capacity(alloc, observations.len())?;
    for o in observations {
        found.push(Candidate::Sight(*o))?;
    }
    Ok(found)
}

/// The benchmarks that are tied to another one.
fn benchmarks_of(alloc: Global, network: &Network) -> Result<Vec<Candidate>, AllocError>
    ensures { IfOk result (λ found. (tied : List TiedRow) × AreTiedRows network.now tied
        × (found.items ≡ tied_benchmarks tied)) }
{
    let rows = tied_rows(alloc, network)?;
    tied_benchmarks(alloc, &rows)
}

/// The benchmarks of the rows that are tied.
fn tied_benchmarks(alloc: Global, rows: &[TiedRow]) -> Result<Vec<Candidate>, AllocError>
    requires { length rows.now < 2 ^ 31 }
    ensures { IfOk result (λ found. found.items ≡ tied_benchmarks rows.now) }
{
    let mut found = Vec::new(alloc);
    for (k, row) in rows.iter().enumerate() {
        add_if_tied(&mut found, k as u32 + FIRST_RECORD, row)?;
    }
    Ok(found)
}

/// Adds the benchmark of this record, if it is tied.
fn add_if_tied(found: &mut Vec<Candidate>, place: u32, row: &TiedRow) -> Result<(), AllocError>
    ensures { OnOk result (found.new.items ≡ found.old.items ++ benchmark_at (place, row.now)) }
{
    if row.tied {
        found.push(Candidate::Benchmark(place, row.name))?;
    }
    Ok(())
}
