//! A run that mends a book.
ghost use Rattle.std.specs.Prelude.{IfErr, Ok};
ghost use Rattle.th_devices.specs.Devices.{IsReady};
ghost use Rattle.th_run_parts.specs.Booked.{booked, booking};
ghost use Rattle.th_run_parts.specs.Mended.{IsOfMending, owed_for_mended};
ghost use Rattle.th_run_parts.specs.Inputs.{Meets, MeetsRefusal, given};
ghost use Rattle.th_run_parts.specs.Outcomes.{Outcome};
ghost use Rattle.th_run_parts.specs.Reads.{IsReadFor, refused};
ghost use Rattle.th_run_parts.specs.Writes.{AreWritable, AreWritten};

use crate::mended::mended_from;
use crate::outputs::Output;
use crate::refusals::Refusal;
use crate::writing::{OutputText, write_outs};
use std::alloc::Global;
use th_devices::{Sink, Source};
use th_inputs::Input;

/// Prints a book with the changes of a table, line for line.
///
/// The table is read before the book, each to its end, or to one byte more than it may have, before
/// its faults are reported. The mended book is made in memory before the output is begun.
pub fn run_mend<C: Source, S: Source, K: Sink>(
    alloc: Global,
    table: &mut C,
    book: &mut S,
    outs: &mut [K],
) -> Result<(), Refusal>
    requires table { IsReady (C.state table.old).counts }
    requires book { IsReady (S.state book.old).counts }
    requires outs { AreWritable K.state booking outs.old }

    // What the answer means.
    ensures outcome { Outcome
        (MeetsRefusal (owed_for_mended (given C.state table.old table.new) (given S.state book.old book.new)))
        (λ text. Meets (owed_for_mended (given C.state table.old table.new) (given S.state book.old book.new)) (Ok text))
        (λ text. AreWritten K.state (refused result) (booked text) outs.old outs.new)
        result outs.old outs.new }
    ensures named { IfErr result IsOfMending }

    // How the sources are read.
    ensures table { IsReadFor C.state Input.Changes (refused result) table.old table.new }
    ensures book { IsReadFor S.state (Input.Book 1) (refused result) book.old book.new }
{
    let text = mended_from(alloc, table, book)?;
    write_outs(outs, &[OutputText::new(Output::Book, text)])
}
