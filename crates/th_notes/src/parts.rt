//! The notes of parts of a network that hang on one benchmark or on two.
ghost use Rattle.std.specs.Prelude.{◌≡◌, ◌==◌, ◌&&◌, ◌++◌, ◌<◌, All, IfOk, List, OnOk, if◌then◌else◌, is_some, length, option_to_list};
ghost use Rattle.th_entries.specs.Listed.{IsListed};
ghost use Rattle.th_notes.specs.Parts.{hanging_note, hanging_notes, joined, mark_if, marks_of, notes_among, parts_of, renamed, together};
ghost use Rattle.th_notes.specs.declared.notes.Note.{Note};
ghost use Rattle.th_notes.specs.Inside.Sets.{has_name};
ghost use Rattle.th_tables.specs.Rows.{height_of};
ghost use Rattle.th_points.specs.Ends.{AreBelow};

use crate::limited::add_limited;
use crate::notes::{Kind, Note};
use crate::tables::{Names, names_of};
use gsi_word::Name;
use std::alloc::{AllocError, Global};
use th_entries::Listed;
use th_network::Network;
use th_tables::Benchmarks;

/// A benchmark that was observed, and the number of its part of the network.
#[derive(Clone, Copy, Debug)]
pub(crate) struct Mark {
    pub name: Name,
    pub part: usize,
}

/// Adds a note of each part of the network that hangs on one benchmark or on two: the first ones, and how
/// many more there are. The time is that of comparing each two benchmarks, and each observation that joins
/// two parts with each point.
pub(crate) fn add_hanging_notes(
    alloc: Global,
    notes: &mut Vec<Note>,
    network: &Network,
) -> Result<(), AllocError>
    ensures { OnOk result (notes.new.items ≡ notes.old.items ++ hanging_notes network.now) }
{
    let marks = marks_of(alloc, network)?;
    add_notes_among(alloc, notes, &marks)
}

/// Adds these notes, given all benchmarks that were observed.
fn add_notes_among(alloc: Global, notes: &mut Vec<Note>, marks: &[Mark]) -> Result<(), AllocError>
    ensures { OnOk result (notes.new.items ≡ notes.old.items ++ notes_among marks.now) }
{
    let mut found = Listed::new(alloc);
    for mark in marks {
        note_hanging(alloc, &mut found, marks, mark)?;
    }
    add_limited(notes, Kind::Hanging, &found)
}

/// Notes the part of a benchmark among all benchmarks, if it is the first of one or two there.
fn note_hanging(
    alloc: Global,
    found: &mut Listed<Note>,
    marks: &[Mark],
    mark: &Mark,
) -> Result<(), AllocError>
    ensures { OnOk result ((before : List Note) → IsListed before found.old
        → IsListed (before ++ option_to_list (hanging_note mark.now.name (together mark.now.part marks.now)))
        found.new) }
{
    let own = together(alloc, marks, mark.part)?;
    if let Some(note) = hanging_note(&mark.name, &own) {
        found.push(note)?;
    }
    Ok(())
}

/// The benchmarks of a part.
fn together(alloc: Global, marks: &[Mark], part: usize) -> Result<Vec<Mark>, AllocError>
    ensures { IfOk result (λ own. own.items ≡ together part marks.now) }
{
    let mut own = Vec::new(alloc);
    for mark in marks {
        if mark.part == part {
            own.push(*mark)?;
        }
    }
    Ok(own)
}

/// The note of a benchmark, given all benchmarks of its part.
fn hanging_note(name: &Name, own: &[Mark]) -> Option<Note>
    ensures { result ≡ hanging_note name.now own.now }
{
    match own {
        [one] => Some(Note::OneBenchmark { name: one.name }),
        [one, other] if one.name == *name => Some(Note::TwoBenchmarks {
            name: one.name,
            other: other.name,
        }),
        _ => None,
    }
}

/// The benchmarks that were observed, in the order of points.
fn marks_of(alloc: Global, network: &Network) -> Result<Vec<Mark>, AllocError>
    ensures { IfOk result (λ marks. marks.items ≡ marks_of network.now) }
{
    let names = network.points();
    let parts = parts_of(alloc, names.len(), network.ends())?;
    let seen = names_of(alloc, network.observations())?;
    let mut marks = Vec::new(alloc);
    for (k, name) in names.iter().enumerate() {
        add_mark(&mut marks, network.benchmarks(), &seen, name, parts[k])?;
    }
    Ok(marks)
}

/// Adds the mark of a point with its part, if the point is a benchmark that was observed.
fn add_mark(
    marks: &mut Vec<Mark>,
    benchmarks: &Benchmarks,
    seen: &Names,
    name: &Name,
    part: usize,
) -> Result<(), AllocError>
    ensures { OnOk result (marks.new.items ≡ marks.old.items
        ++ mark_if (is_some (height_of benchmarks.now name.now) && has_name seen.now name.now)
        name.now part) }
{
    if benchmarks.height_of(name).is_some() && seen.contains(name) {
        marks.push(Mark { name: *name, part })?;
    }
    Ok(())
}

/// The numbers of the parts of so many places, under observations that end at these.
fn parts_of(alloc: Global, count: usize, ends: &[(usize, usize)]) -> Result<Vec<usize>, AllocError>
    requires { All (AreBelow count) ends.now }
    ensures { IfOk result (λ parts. parts.items ≡ parts_of count ends.now) }
{
    let mut parts = Vec::with_capacity(alloc, count)?;
    for place in 0..count {
        parts.push(place)?;
    }
    for (station, target) in ends {
        join(&mut parts, *station, *target);
    }
    Ok(parts)
}

/// Joins the parts of two places.
fn join(parts: &mut [usize], station: usize, target: usize)
    requires station { station < length parts.old }
    requires target { target < length parts.old }
    ensures { parts.new ≡ joined parts.old (station, target) }
{
    let to = parts[station];
    let from = parts[target];
    if to != from {
        rename(parts, from, to);
    }
}

/// Gives the places of one part the number of another.
fn rename(parts: &mut [usize], from: usize, to: usize)
    ensures { parts.new ≡ renamed from to parts.old }
{
    for part in parts.iter_mut() {
        *part = new_number(*part, from, to);
    }
}

/// The number of a part, where one number is changed to another.
fn new_number(part: usize, from: usize, to: usize) -> usize
    ensures { result ≡ (if part == from then to else part) }
{
    if part == from { to } else { part }
}
