//! The numbers of entries: entered heights with several sights, and changes that were forgotten.
ghost use Rattle.std.specs.Prelude.{◌≡◌, ◌<◌, ◌≤◌, ◌++◌, OnOk, true};
ghost use Rattle.th_numbers.specs.Candidates.{count_in};
ghost use Rattle.th_numbers.specs.Lists.{entered, entered_at, forgotten, forgotten_at, is_forgotten, is_part, is_part_of, is_shared};

use crate::candidates::{Candidate, count_in, sights_since};
use crate::kinds::{Kinds, is_kind};
use std::alloc::AllocError;
use th_entries::{Entry, HeightKind};
use th_observations::Observation;
use th_reliability::{Runs, Sights};
use th_review_rows::sights_of;

/// Adds the entries of a kind that have two or more sights.
pub(crate) fn add_entered(
    candidates: &mut Vec<Candidate>,
    runs: &Runs<'_>,
    entries: &[Entry],
    kind: HeightKind,
) -> Result<(), AllocError>
    ensures { OnOk result (candidates.new.items
        ≡ candidates.old.items ++ entered runs.now.observations.now kind entries.now) }
{
    for entry in entries {
        add_if_shared(candidates, runs, entry, kind)?;
    }
    Ok(())
}

/// Adds an entry if it is of a kind and has two or more sights.
fn add_if_shared(
    candidates: &mut Vec<Candidate>,
    runs: &Runs<'_>,
    entry: &Entry,
    kind: HeightKind,
) -> Result<(), AllocError>
    ensures { OnOk result (candidates.new.items
        ≡ candidates.old.items ++ entered_at runs.now.observations.now kind entry.now) }
{
    if is_kind(entry.kind, kind) && is_shared(runs, entry) {
        candidates.push(Candidate::Entered(*entry))?;
    }
    Ok(())
}

/// Whether an entry has two or more sights.
fn is_shared(runs: &Runs<'_>, entry: &Entry) -> bool
    ensures { result ≡ is_shared runs.now.observations.now entry.now }
{
    2 <= count_in(runs, &sights_of(entry))
}

/// Adds the changes of a kind that may have been forgotten before an observation.
pub(crate) fn add_forgotten(
    candidates: &mut Vec<Candidate>,
    runs: &Runs<'_>,
    kinds: &Kinds<'_>,
    kind: HeightKind,
    o: &Observation,
) -> Result<(), AllocError>
    ensures { OnOk result (candidates.new.items ≡ candidates.old.items
        ++ forgotten runs.now.observations.now kinds.now.entries.now kind o.now) }
{
    let own = kinds.around(kind, o);
    add_among(candidates, runs, own, kind, o)?;
    Ok(())
}

/// Adds the changes of a kind that may have been forgotten before an observation, given the entries that it
/// may be among.
fn add_among(
    candidates: &mut Vec<Candidate>,
    runs: &Runs<'_>,
    entries: &[Entry],
    kind: HeightKind,
    o: &Observation,
) -> Result<(), AllocError>
    ensures { OnOk result (candidates.new.items
        ≡ candidates.old.items ++ forgotten runs.now.observations.now entries.now kind o.now) }
{
    for entry in entries {
        add_if_forgotten(candidates, runs, entry, kind, o)?;
    }
    Ok(())
}

/// Adds the change of an entry that may have been forgotten before an observation, if it is of a kind.
fn add_if_forgotten(
    candidates: &mut Vec<Candidate>,
    runs: &Runs<'_>,
    entry: &Entry,
    kind: HeightKind,
    o: &Observation,
) -> Result<(), AllocError>
    ensures { OnOk result (candidates.new.items
        ≡ candidates.old.items ++ forgotten_at runs.now.observations.now kind o.now entry.now) }
{
    if is_kind(entry.kind, kind) && is_forgotten(runs, o, entry) {
        candidates.push(Candidate::Since(*entry, o.line))?;
    }
    Ok(())
}

/// Whether a change of an entry may have been forgotten before an observation.
fn is_forgotten(runs: &Runs<'_>, o: &Observation, entry: &Entry) -> bool
    ensures { result ≡ is_forgotten runs.now.observations.now o.now entry.now }
{
    sights_of(entry).hold(o) && is_part(runs, o, entry)
}

/// Whether the sights of an entry from the line of an observation on are two or more, and not all.
fn is_part(runs: &Runs<'_>, o: &Observation, entry: &Entry) -> bool
    ensures { result ≡ is_part runs.now.observations.now o.now entry.now }
{
    let since = sights_since(entry, o.line);
    let whole = sights_of(entry);
    is_part_of(runs, &since, &whole)
}

/// Whether some sights are two or more, and fewer than others.
fn is_part_of(runs: &Runs<'_>, part: &Sights, whole: &Sights) -> bool
    ensures { result ≡ is_part_of runs.now.observations.now part.now whole.now }
{
    let behind = count_in(runs, part);
    let all = count_in(runs, whole);
    2 <= behind && behind < all
}
