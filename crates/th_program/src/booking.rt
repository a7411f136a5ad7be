//! Making a book of a file of a folder.
ghost use Rattle.std.specs.Prelude.{◌≡◌, ◌≢◌, OnOk, IfErr};
ghost use Rattle.th_devices.specs.Spots.{output};
ghost use Rattle.th_program.specs.Done.{IsBooked, IsCutBook, IsRefusedBook, IsWrite};
ghost use Rattle.th_run_parts.specs.Writes.{UnlessWrite};

use std::alloc::Global;
use th_devices::{Folder, Origin};
use th_files::{close_sinks, sinks_of};
use th_run_parts::{BOOKED, Conversion, run_book};
use th_runs::Refusal;

/// Prints the book that the named file becomes on standard output.
pub(crate) fn make_book<F: Folder>(
    alloc: Global,
    folder: &mut F,
    conversion: Conversion,
    name: &str,
) -> Result<(), Refusal>
    ensures booked { OnOk result (IsBooked F.tells (F.held folder.old) (F.held folder.new)
        conversion name.now) }
    ensures refused { IfErr result (IsRefusedBook (F.failing folder.old)
        (F.held folder.old) conversion name.now) }
    ensures left { IfErr result (λ own. IsWrite own → IsCutBook F.tells (F.held folder.old)
        (F.held folder.new) conversion name.now own) }
    ensures untouched { IfErr result (λ own. UnlessWrite own (folder.new ≡ folder.old)) }
    ensures others { (spot : _) → spot ≢ output → F.held folder.new spot ≡ F.held folder.old spot }
{
    let mut source = folder.source(alloc, Origin::File(name))?;
    let mut outs = sinks_of(alloc, folder, "", &BOOKED)?;
    let answer = run_book(alloc, conversion, &mut source, outs.as_mut_slice());
    close_sinks(folder, outs);
    answer
}
