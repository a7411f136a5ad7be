//! Mending a book of a folder.
ghost use Rattle.std.specs.Prelude.{◌≡◌, ◌≢◌, OnOk, IfErr};
ghost use Rattle.th_devices.specs.Spots.{output};
ghost use Rattle.th_program.specs.Done.{IsCutMend, IsMended, IsRefusedMend, IsWrite};
ghost use Rattle.th_run_parts.specs.Writes.{UnlessWrite};

use std::alloc::Global;
use th_devices::{Folder, Origin};
use th_files::{close_sinks, sinks_of};
use th_run_parts::{BOOKED, run_mend};
use th_runs::Refusal;

/// Prints the named book with the changes of the named table on standard output.
pub(crate) fn mend<F: Folder>(
    alloc: Global,
    folder: &mut F,
    changes: &str,
    book: &str,
) -> Result<(), Refusal>
    ensures mended { OnOk result (IsMended F.tells (F.held folder.old) (F.held folder.new)
        changes.now book.now) }
    ensures refused { IfErr result (IsRefusedMend (F.failing folder.old)
        (F.held folder.old) changes.now book.now) }
    ensures left { IfErr result (λ own. IsWrite own → IsCutMend F.tells (F.held folder.old)
        (F.held folder.new) changes.now book.now own) }
    ensures untouched { IfErr result (λ own. UnlessWrite own (folder.new ≡ folder.old)) }
    ensures others { (spot : _) → spot ≢ output → F.held folder.new spot ≡ F.held folder.old spot }
{
    let mut table = folder.source(alloc, Origin::File(changes))?;
    let mut source = folder.source(alloc, Origin::File(book))?;
    let mut outs = sinks_of(alloc, folder, "", &BOOKED)?;
    let answer = run_mend(alloc, &mut table, &mut source, outs.as_mut_slice());
    close_sinks(folder, outs);
    answer
}
