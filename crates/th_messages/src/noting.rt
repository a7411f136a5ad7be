//! What is noted on standard error of a run that was not refused. Nothing here allocates.
ghost use Rattle.std.specs.Prelude.{◌≡◌, ◌≢◌, ◌≤◌, ◌*◌, false, flat_map, length};
ghost use Rattle.th_devices.specs.Spots.{errors};
ghost use Rattle.th_messages.specs.Notes.{no_sight_note};
ghost use Rattle.th_messages.specs.Lines.{HasRoom, IsPut};
ghost use Rattle.th_commands.specs.PlanLimits.{max_books};
ghost use Rattle.th_files.specs.Outputs.{Holds};
ghost use Rattle.th_messages.specs.Noted.{notes_lines};
ghost use Rattle.th_runs.specs.Noted.{AreNone};

use crate::errors::{begin_line, end_line};
use crate::lines::Line;
use crate::notes::put_no_sight;
use crate::remarks::put_remarks;
use th_devices::{Failed, Folder, Sink};
use th_entries::NoSight;
use th_runs::Notes;

/// Writes a line on standard error for each note, if there are notes. Whether standard error takes them,
/// the run was done.
pub fn tell_notes<F: Folder>(folder: &mut F, notes: &Notes)
    requires few { length notes.now.books.items ≤ max_books }
    ensures silent { AreNone notes.now → folder.new ≡ folder.old }
    ensures noted { (AreNone notes.now → ⊥) → F.has_failed folder.new errors ≡ false
        → Holds F.tells (F.held folder.new) errors (notes_lines notes.now) }
    ensures others { (spot : _) → spot ≢ errors → F.held folder.new spot ≡ F.held folder.old spot }
{
    if notes.books.is_empty() && notes.remarks.is_silent() {
        return;
    }
    let mut line = begin_line(folder);
    let _ = put_notes(&mut line, notes);
    end_line(folder, line);
}

/// Puts the lines of notes.
#[tactic(auto, using(crate::proofs::LineLemmas::appended))]
fn put_notes<K: Sink>(line: &mut Line<K>, notes: &Notes) -> Result<(), Failed>
    requires few { length notes.now.books.items ≤ max_books }
    requires room { HasRoom 200000 line.old }
    ensures { IsPut 200000 (notes_lines notes.now) line.old line.new result }
{
    put_books(line, notes.books.as_slice())?;
    put_remarks(line, &notes.remarks)
}

/// Puts the lines of books without a sight.
#[tactic(auto, using(crate::proofs::LineLemmas::appended))]
fn put_books<K: Sink>(line: &mut Line<K>, books: &[NoSight]) -> Result<(), Failed>
    requires { HasRoom (40 * length books.now) line.old }
    ensures { IsPut (40 * length books.now) (flat_map no_sight_note books.now)
        line.old line.new result }
{
    let Some((book, later)) = books.split_first() else {
        return Ok(());
    };
    put_no_sight(line, book)?;
    put_books(line, later)
}
