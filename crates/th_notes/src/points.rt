//! The notes of points with one observation.
ghost use Rattle.std.specs.Prelude.{◌≡◌, ◌++◌, List, OnOk, is_some};
ghost use Rattle.th_entries.specs.Listed.{IsListed};
ghost use Rattle.th_notes.specs.Inside.Sets.{has_name};
ghost use Rattle.th_notes.specs.Points.{end_note, once_notes};
ghost use Rattle.th_notes.specs.declared.notes.Note.{Note};
ghost use Rattle.th_tables.specs.Rows.{height_of};

use crate::limited::add_limited;
use crate::notes::{Kind, Note};
use crate::uses::UsedNames;
use gsi_word::Name;
use std::alloc::{AllocError, Global};
use th_entries::Listed;
use th_observations::Observation;
use th_tables::Benchmarks;

/// Adds a note of each point that is no benchmark and has one observation: the first ones, and how many
/// more there are.
pub(crate) fn add_once_notes(
    alloc: Global,
    notes: &mut Vec<Note>,
    observations: &[Observation],
    benchmarks: &Benchmarks,
) -> Result<(), AllocError>
    ensures { OnOk result (notes.new.items
        ≡ notes.old.items ++ once_notes observations.now benchmarks.now) }
{
    let ends = UsedNames::of_ends(alloc, observations)?;
    let mut found = Listed::new(alloc);
    for o in observations {
        let (station, target) = o.ends();
        note_end(&mut found, &ends, benchmarks, o, station)?;
        note_end(&mut found, &ends, benchmarks, o, target)?;
    }
    add_limited(notes, Kind::Once, &found)
}

/// Notes an end of an observation, if that is its only one and it is no benchmark.
fn note_end(
    found: &mut Listed<Note>,
    ends: &UsedNames,
    benchmarks: &Benchmarks,
    o: &Observation,
    name: Name,
) -> Result<(), AllocError>
    ensures { OnOk result ((before : List Note) → IsListed before found.old → IsListed (before ++ end_note
        (has_name ends.now.again name) (is_some (height_of benchmarks.now name))
        o.now.book o.now.line name) found.new) }
{
    if ends.again.contains(&name) || benchmarks.height_of(&name).is_some() {
        return Ok(());
    }
    found.push(Note::SightedOnce {
        book: o.book,
        line: o.line,
        name,
    })
}
