//! Notes of one kind, of which the first are listed and the rest is counted.
ghost use Rattle.std.specs.Prelude.{◌≡◌, ◌++◌, List, OnOk};
ghost use Rattle.th_entries.specs.Listed.{IsListed};
ghost use Rattle.th_notes.specs.Limited.{limited, rest_note};
ghost use Rattle.th_notes.specs.declared.notes.Note.{Note};

use crate::notes::{Kind, Note};
use std::alloc::AllocError;
use th_entries::{Listed, MAX_LISTED};

/// Adds the first notes of a kind, and one that counts the rest if there is any.
pub(crate) fn add_limited(
    notes: &mut Vec<Note>,
    kind: Kind,
    found: &Listed<Note>,
) -> Result<(), AllocError>
    ensures { OnOk result ((all : List Note) → IsListed all found.now
        → notes.new.items ≡ notes.old.items ++ limited kind all) }
{
    notes.extend_from_slice(&found.first)?;
    add_rest(notes, kind, u64::from(found.count))
}

/// Adds a note that counts those of a kind that are not listed, if there are so many.
pub(crate) fn add_rest(notes: &mut Vec<Note>, kind: Kind, count: u64) -> Result<(), AllocError>
    ensures { OnOk result (notes.new.items ≡ notes.old.items ++ rest_note kind count) }
{
    let listed = MAX_LISTED as u64;
    if listed < count {
        notes.push(Note::More {
            kind,
            count: count - listed,
        })?;
    }
    Ok(())
}
