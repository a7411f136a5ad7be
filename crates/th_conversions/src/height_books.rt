//! The book of a book with heights.
ghost use Rattle.std.specs.Prelude.{◌≡◌, ◌≢◌, ◌<◌, ◌≤◌, ◌++◌, Err, IfErr, IfOk, None, Ok, OnOk, Some, length};
ghost use Rattle.std.specs.List.{flat_map};
ghost use Rattle.gsi_block.specs.Lines.{lines_of};
ghost use Rattle.th_book.specs.Books.{too_long};
ghost use Rattle.th_book.specs.Limits.{max_book};
ghost use Rattle.th_conversions.specs.HeightFaults.{of_book};
ghost use Rattle.th_conversions.specs.Inside.Stops.{ArePrinted};
ghost use Rattle.th_conversions.specs.Printed.{book_of_heights, ended, printed_from};

use crate::height_faults::{HeightFault, HeightKind};
use crate::lines::print_line;
use gsi_block::LineCursor;
use std::alloc::Global;
use th_book::{BookFault, BookKind, MAX_BOOK, read_book};

/// Prints a book with heights as a book, line for line: a height sight gets a word 33 of
/// 83 - 86 - 88 + 87, and words 87 and 88 of zero where none runs; other lines stay as they are.
///
/// A book with a fault gives its first one, and so does a printed book. A word 33 that cannot be
/// written is `NoUnit`, `FarTarget` or `TooManyWords`. `NoMemory` may occur for any book that is not
/// too long.
pub fn book_of_heights(alloc: Global, bytes: &[u8]) -> Result<Vec<u8>, HeightFault>
    ensures book { IfOk result (λ text. book_of_heights bytes.now ≡ Ok text.items) }
    ensures fault { IfErr result
        (λ fault. fault.kind ≢ HeightKind.Book BookKind.NoMemory → book_of_heights bytes.now ≡ Err fault) }
    ensures too_long { max_book < length bytes.now → result ≡ Err (of_book too_long) }
{
    if bytes.len() > MAX_BOOK {
        return Err(HeightFault::of_book(BookFault {
            line: 0,
            kind: BookKind::BookTooLong,
        }));
    }
    let mut text = Vec::new(alloc);
    match print_lines(bytes, &mut text) {
        Ok(()) => {
            read_book(alloc, 1, text.as_slice())?;
            Ok(text)
        }
        Err(fault) => match fault.kind {
            HeightKind::Book(BookKind::NoMemory) => Err(fault),
            _ => {
                read_book(alloc, 1, text.as_slice())?;
                Err(fault)
            }
        },
    }
}

/// Prints lines up to the first that cannot be, and answers its fault.
fn print_lines(bytes: &[u8], text: &mut Vec<u8>) -> Result<(), HeightFault>
    requires short { length bytes.now ≤ max_book }
    ensures printed { OnOk result (ArePrinted (printed_from None 0 (lines_of bytes.now)) None text.old.items text.new.items) }
    ensures fault { IfErr result (λ fault. fault.kind ≢ HeightKind.Book BookKind.NoMemory
        → ArePrinted (printed_from None 0 (lines_of bytes.now)) (Some fault) text.old.items text.new.items) }
{
    let mut running = None;
    let mut count = 0;
    let mut cursor = LineCursor::new(bytes);
    'lines: while let Some(line) = cursor.next() {
        count += 1;
        if let Err(stop) = print_line(&mut running, line, text) {
            return Err(HeightFault {
                line: count,
                kind: stop.kind(),
            });
        }
    }
    Ok(())
}
