//! From what is known of changes to edits.
ghost use Rattle.std.specs.Prelude.{◌≡◌, ◌<◌, ◌+◌, ◌^◌, ◌∷◌, ◌++◌, [], IfErr, Ok, OnOk, length};
ghost use Rattle.th_mend.specs.Edits.{edit_from, edit_unless, edit_with, first_of, unless_clash};
ghost use Rattle.th_mend.specs.Inside.Located.{edits_then, in_row, some_clash};
ghost use Rattle.th_mend.specs.Inside.Stops.{IsStopOf};

use crate::changes::{Change, Reach, What};
use crate::edits::Edit;
use crate::faults::{MendKind, RowFault};
use crate::sought::{Locating, Sought};
use crate::spots::Spot;
use crate::stops::Stop;
use std::alloc::Global;

impl Locating {
    ghost use Rattle.std.specs.Prelude.{ℕ, IfOk, List};
    ghost use Rattle.th_book.specs.Lines.{ParsedLine};
    ghost use Rattle.th_mend.specs.Edits.{edits_of};
    ghost use Rattle.th_mend.specs.Located.{HasLocated};
    ghost use Rattle.th_mend.specs.declared.changes.Change.{Change};

    /// The edits of the changes of a book without a fault, whose lines were all seen, in the order of
    /// their records; or the fault of the first record that has one.
    pub fn edits(&self, alloc: Global) -> Result<Vec<Edit>, Stop>
        ensures edits { IfOk result (λ edits. (changes : List Change) (number : ℕ) (parsed : List ParsedLine) →
            HasLocated changes number parsed (length parsed) self.now → edits_of parsed changes ≡ Ok edits.items) }
        ensures fault { IfErr result (λ stop. (changes : List Change) (number : ℕ) (parsed : List ParsedLine) →
            HasLocated changes number parsed (length parsed) self.now → IsStopOf (edits_of parsed changes) stop) }
    {
        let mut edits = Vec::new(alloc);
        match append_edits(self.sought.as_slice(), 2, &mut edits) {
            Ok(()) => Ok(edits),
            Err(stop) => Err(stop),
        }
    }
}

/// Appends the edits of changes, of which the first is in this record, or stops at the first that has
/// a fault.
fn append_edits(sought: &[Sought], row: u32, edits: &mut Vec<Edit>) -> Result<(), Stop>
    requires { row + length sought.now < 2 ^ 32 }
    ensures edits { OnOk result (edits_then edits.old.items row sought.now ≡ Ok edits.new.items) }
    ensures fault { IfErr result (IsStopOf (edits_then edits.old.items row sought.now)) }
{
    let Some((own, later)) = sought.split_first() else {
        return Ok(());
    };
    push_edit(next_edit(row, own, edits.as_slice())?, edits)?;
    append_edits(later, row + 1, edits)
}

// Taken apart, since the prover has to see the type of each part.
/// Appends an edit.
fn push_edit(edit: Edit, edits: &mut Vec<Edit>) -> Result<(), Stop>
    ensures added { OnOk result (edits.new.items ≡ edits.old.items ++ edit ∷ []) }
    ensures stop { IfErr result (λ own. own ≡ Stop.NoMemory) }
{
    let Edit {
        row,
        what,
        first,
        last,
    } = edit;
    edits.push(Edit {
        row,
        what,
        first,
        last,
    })?;
    Ok(())
}

/// The edit of a change, behind earlier ones.
fn next_edit(row: u32, own: &Sought, earlier: &[Edit]) -> Result<Edit, RowFault>
    ensures { result ≡ in_row row (unless_clash earlier.now (edit_from row own.now.change own.now.spot)) }
{
    match edit_from(row, &own.change, &own.spot) {
        Ok(edit) if some_clash(&edit, earlier) => Err(RowFault {
            row,
            kind: MendKind::Clash,
        }),
        Ok(edit) => Ok(edit),
        Err(kind) => Err(RowFault { row, kind }),
    }
}

/// Whether an edit clashes with some other.
fn some_clash(edit: &Edit, others: &[Edit]) -> bool
    ensures { result ≡ some_clash edit.now others.now }
{
    let Some((other, later)) = others.split_first() else {
        return false;
    };
    edit.clashes(other) || some_clash(edit, later)
}

/// The edit of a change by what is known of it.
fn edit_from(row: u32, change: &Change, spot: &Option<Spot>) -> Result<Edit, MendKind>
    ensures { result ≡ edit_from row change.now spot.now }
{
    match spot {
        Some(spot) => match spot.fault {
            Some(kind) => Err(kind),
            None => Ok(edit_with(row, change, spot)),
        },
        None => Err(MendKind::NoLine),
    }
}

/// The edit of a change without a fault.
fn edit_with(row: u32, change: &Change, spot: &Spot) -> Edit
    ensures { result ≡ edit_with row change.now spot.now }
{
    let place = change.line.saturating_sub(1);
    Edit {
        row,
        what: change.what,
        first: first_of(&change.what, spot.home.unwrap_or(place), place),
        last: spot.last.unwrap_or(place),
    }
}

/// The first place that something reaches.
fn first_of(what: &What, home: u32, place: u32) -> u32
    ensures { result ≡ first_of what.now home place }
{
    match what {
        What::Height(_, Reach::Whole, _) => home,
        _ => place,
    }
}
