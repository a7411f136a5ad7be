//! The notes of names that read as formulas.
ghost use Rattle.std.specs.Prelude.{◌≡◌, ◌++◌, List, OnOk};
ghost use Rattle.th_entries.specs.Listed.{IsListed};
ghost use Rattle.th_notes.specs.Names.{formula_note, formula_notes, is_formula};
ghost use Rattle.th_notes.specs.declared.notes.Note.{Note};

use crate::limited::add_limited;
use crate::notes::{Kind, Note};
use gsi_word::Name;
use std::alloc::{AllocError, Global};
use th_entries::Listed;

/// Adds a note of each point whose name reads as a formula in a spreadsheet: the first ones, and how many
/// more there are.
pub(crate) fn add_formula_notes(
    alloc: Global,
    notes: &mut Vec<Note>,
    points: &[Name],
) -> Result<(), AllocError>
    ensures { OnOk result (notes.new.items ≡ notes.old.items ++ formula_notes points.now) }
{
    let mut found = Listed::new(alloc);
    for name in points {
        note_formula(&mut found, name)?;
    }
    add_limited(notes, Kind::Formulas, &found)
}

/// Notes a name that reads as a formula.
fn note_formula(found: &mut Listed<Note>, name: &Name) -> Result<(), AllocError>
    ensures { OnOk result ((before : List Note) → IsListed before found.old
        → IsListed (before ++ formula_note name.now) found.new) }
{
    if is_formula(name) {
        found.push(Note::Formula { name: *name })?;
    }
    Ok(())
}

/// Whether a spreadsheet takes a name for a formula.
fn is_formula(name: &Name) -> bool
    ensures { result ≡ is_formula name.now }
{
    match name.as_bytes().first() {
        Some(byte) => matches!(*byte, b'=' | b'+' | b'-' | b'@'),
        None => false,
    }
}
