//! Listing a book of a folder.
ghost use Rattle.std.specs.Prelude.{◌≡◌, ◌≢◌, OnOk, IfErr};
ghost use Rattle.th_devices.specs.Folders.{spot_of_origin};
ghost use Rattle.th_devices.specs.Spots.{output};
ghost use Rattle.th_program.specs.Done.{IsCutList, IsListed, IsRefusedList, IsWrite};
ghost use Rattle.th_runs.specs.Noted.{AreNone, AreNotesOfList};
ghost use Rattle.th_run_parts.specs.Writes.{UnlessWrite};

use std::alloc::Global;
use th_devices::{Folder, Origin};
use th_files::{close_sinks, sinks_of};
use th_runs::{LISTED, Notes, Refusal, run_list_with_notes};

/// Lists the book there on standard output, and adds its notes.
pub fn list<F: Folder>(
    alloc: Global,
    folder: &mut F,
    book: Origin<'_>,
    notes: &mut Notes,
) -> Result<(), Refusal>
    requires none { AreNone notes.old }
    ensures noted { OnOk result (AreNotesOfList
        (F.held folder.old (spot_of_origin book.entry)) notes.new) }
    ensures listed { OnOk result (IsListed F.tells (F.held folder.old) (F.held folder.new)
        (spot_of_origin book.entry)) }
    ensures refused { IfErr result (IsRefusedList (F.failing folder.old)
        (F.held folder.old) (spot_of_origin book.entry)) }
    ensures left { IfErr result (λ own. IsWrite own → IsCutList F.tells (F.held folder.old)
        (F.held folder.new) (spot_of_origin book.entry) own) }
    ensures untouched { IfErr result (λ own. UnlessWrite own (folder.new ≡ folder.old)) }
    ensures others { (spot : _) → spot ≢ output → F.held folder.new spot ≡ F.held folder.old spot }
{
    let mut book = folder.source(alloc, book)?;
    let mut outs = sinks_of(alloc, folder, "", &LISTED)?;
    let answer = run_list_with_notes(alloc, &mut book, outs.as_mut_slice(), notes);
    close_sinks(folder, outs);
    answer
}
