//! The book that a source gives.
ghost use Rattle.std.specs.Prelude.{IfErr, IfOk, Ok};
ghost use Rattle.th_run_parts.specs.Booked.{IsOfConversion, IsOfDifferences, IsOfHeights, converted, input_of, owed_for_differences, owed_for_heights};
ghost use Rattle.th_devices.specs.Devices.{IsReady};
ghost use Rattle.th_run_parts.specs.Inputs.{Meets, MeetsRefusal, given};
ghost use Rattle.th_run_parts.specs.Reads.{IsReadFor, refused};

use crate::conversions::Conversion;
use crate::inputs::read_text;
use crate::refusals::Refusal;
use std::alloc::Global;
use th_book::BookKind;
use th_conversions::{DifferenceKind, HeightKind, book_of_heights, book_of_table};
use th_devices::Source;
use th_inputs::Input;

/// The book that a source gives, by this conversion.
pub(crate) fn book_from<S: Source>(
    alloc: Global,
    conversion: Conversion,
    source: &mut S,
) -> Result<Vec<u8>, Refusal>
    requires { IsReady (S.state source.old).counts }
    ensures book { IfOk result (λ book.
        Meets (converted conversion (given S.state source.old source.new)) (Ok book.items)) }
    ensures refused { IfErr result (MeetsRefusal
        (converted conversion (given S.state source.old source.new))) }
    ensures named { IfErr result (IsOfConversion conversion) }
    ensures source { IsReadFor S.state (input_of conversion) (refused result)
        source.old source.new }
{
    match conversion {
        Conversion::Differences => book_of_differences(alloc, source),
        Conversion::Heights => book_with_differences(alloc, source),
    }
}

/// The book of the table of differences that a source gives.
fn book_of_differences<S: Source>(alloc: Global, table: &mut S) -> Result<Vec<u8>, Refusal>
    requires { IsReady (S.state table.old).counts }
    ensures book { IfOk result (λ book.
        Meets (owed_for_differences (given S.state table.old table.new)) (Ok book.items)) }
    ensures refused { IfErr result (MeetsRefusal
        (owed_for_differences (given S.state table.old table.new))) }
    ensures named { IfErr result IsOfDifferences }
    ensures table { IsReadFor S.state Input.Differences (refused result) table.old table.new }
{
    let text = read_text(alloc, Input::Differences, table)?;
    match book_of_table(alloc, text.as_slice()) {
        Ok(book) => Ok(book),
        Err(fault) => match fault.kind {
            DifferenceKind::NoMemory => Err(Refusal::NoMemory),
            _ => Err(Refusal::Differences(fault)),
        },
    }
}

/// The book with height differences of the book with heights that a source gives.
fn book_with_differences<S: Source>(alloc: Global, heights: &mut S) -> Result<Vec<u8>, Refusal>
    requires { IsReady (S.state heights.old).counts }
    ensures book { IfOk result (λ book.
        Meets (owed_for_heights (given S.state heights.old heights.new)) (Ok book.items)) }
    ensures refused { IfErr result (MeetsRefusal
        (owed_for_heights (given S.state heights.old heights.new))) }
    ensures named { IfErr result IsOfHeights }
    ensures heights { IsReadFor S.state (Input.Book 1) (refused result) heights.old heights.new }
{
    let text = read_text(alloc, Input::Book(1), heights)?;
    match book_of_heights(alloc, text.as_slice()) {
        Ok(book) => Ok(book),
        Err(fault) => match fault.kind {
            HeightKind::Book(BookKind::NoMemory) => Err(Refusal::NoMemory),
            _ => Err(Refusal::Heights(fault)),
        },
    }
}
