//! A run that lists the observations of one book.
ghost use Rattle.std.specs.Prelude.{OnOk};
ghost use Rattle.th_devices.specs.Devices.{IsReady};
ghost use Rattle.th_runs.specs.Listed.{ListedRun, listing};
ghost use Rattle.th_runs.specs.Noted.{AreNone, AreNotesOfList};
ghost use Rattle.th_run_parts.specs.Writes.{AreWritable};

use crate::notes::Notes;
use std::alloc::Global;
use th_devices::{Sink, Source};
use th_report::list_text;
use th_run_parts::{BookReader, Output, OutputText, Refusal, write_outs};

/// What a list of a book writes.
pub const LISTED: [Output; 1] = [Output::List];

/// Lists the observations of a book.
///
/// The book is read to its end, or to one byte more than it may have, before its faults are
/// reported. The list is made in memory before the output is begun.
pub fn run_list<S: Source, K: Sink>(
    alloc: Global,
    book: &mut S,
    outs: &mut [K],
) -> Result<(), Refusal>
    requires book { IsReady (S.state book.old).counts }
    requires outs { AreWritable K.state listing outs.old }
    ensures { ListedRun S.state K.state result book.old book.new outs.old outs.new }
{
    run_list_with_notes(alloc, book, outs, &mut Notes::new(alloc))
}

/// Lists the observations of a book, as `run_list` does, and notes if it has no sight.
pub fn run_list_with_notes<S: Source, K: Sink>(
    alloc: Global,
    book: &mut S,
    outs: &mut [K],
    notes: &mut Notes,
) -> Result<(), Refusal>
    requires none { AreNone notes.old }
    requires book { IsReady (S.state book.old).counts }
    requires outs { AreWritable K.state listing outs.old }
    ensures listed { ListedRun S.state K.state result book.old book.new outs.old outs.new }
    ensures noted { OnOk result (AreNotesOfList (S.state book.old).left notes.new) }
{
    let observations = notes.read(alloc, 1, book)?;
    let list = list_text(alloc, observations.as_slice())?;
    write_outs(outs, &[OutputText::new(Output::List, list)])
}
