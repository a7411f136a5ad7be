//! A run that makes a book.
ghost use Rattle.std.specs.Prelude.{IfErr, Ok};
ghost use Rattle.th_run_parts.specs.Booked.{IsOfBooking, booked, booking, converted, input_of};
ghost use Rattle.th_devices.specs.Devices.{IsReady};
ghost use Rattle.th_run_parts.specs.Inputs.{Meets, MeetsRefusal, given};
ghost use Rattle.th_run_parts.specs.Outcomes.{Outcome};
ghost use Rattle.th_run_parts.specs.Reads.{IsReadFor, refused};
ghost use Rattle.th_run_parts.specs.Writes.{AreWritable, AreWritten};

use crate::conversions::Conversion;
use crate::outputs::Output;
use crate::refusals::Refusal;
use crate::sources::book_from;
use crate::writing::{OutputText, write_outs};
use std::alloc::Global;
use th_devices::{Sink, Source};

/// What a run that makes a book writes.
pub const BOOKED: [Output; 1] = [Output::Book];

/// Makes a book of a table of differences, or of a book with heights.
///
/// The source is read to its end, or to one byte more than it may have, before its faults are
/// reported. The book is made in memory before the output is begun.
pub fn run_book<S: Source, K: Sink>(
    alloc: Global,
    conversion: Conversion,
    source: &mut S,
    outs: &mut [K],
) -> Result<(), Refusal>
    requires source { IsReady (S.state source.old).counts }
    requires outs { AreWritable K.state booking outs.old }

    // What the answer means.
    ensures outcome { Outcome
        (MeetsRefusal (converted conversion (given S.state source.old source.new)))
        (λ book. Meets (converted conversion (given S.state source.old source.new)) (Ok book))
        (λ book. AreWritten K.state (refused result) (booked book) outs.old outs.new)
        result outs.old outs.new }
    ensures named { IfErr result (IsOfBooking conversion) }

    // How the source is read.
    ensures source { IsReadFor S.state (input_of conversion) (refused result)
        source.old source.new }
{
    let book = book_from(alloc, conversion, source)?;
    write_outs(outs, &[OutputText::new(Output::Book, book)])
}
