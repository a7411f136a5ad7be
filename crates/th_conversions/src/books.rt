//! The book of a table of differences.
ghost use Rattle.std.specs.Prelude.{◌≡◌, ◌⊎◌, ◌<◌, ◌≤◌, All, Ok, Err, IfErr, IfOk, length};
ghost use Rattle.th_conversions.specs.Limits.{max_differences};
ghost use Rattle.th_conversions.specs.Books.{book_of_table, book_text, stands_at};
ghost use Rattle.th_conversions.specs.Rows.{IsRow};
ghost use Rattle.th_conversions.specs.Tables.{no_memory, too_long};

use crate::faults::DifferenceFault;
use crate::rows::Row;
use crate::tables::read_rows;
use crate::words::{write_setup, write_sight};
use gsi_word::Name;
use std::alloc::{AllocError, Global};
use th_book::MAX_BOOK;

/// Reads a table of differences, and returns a GSI-16 book with exactly these observations, in
/// order, or the table's first fault.
///
/// The header is `from,to,difference`, or that of a list, `number,from,to,difference`, whose numbers
/// are not read. A record under it has two names that differ, and metres of at most 10 km in size
/// with at most five decimals that count. `NoMemory` may occur for a table that is not too long.
pub fn book_of_table(alloc: Global, bytes: &[u8]) -> Result<Vec<u8>, DifferenceFault>
    ensures book { IfOk result (λ text. book_of_table bytes.now ≡ Ok text.items) }
    ensures fault { IfErr result (λ fault. (fault ≡ no_memory) ⊎ (book_of_table bytes.now ≡ Err fault)) }
    ensures too_long { max_differences < length bytes.now → result ≡ Err too_long }
{
    let rows = read_rows(alloc, bytes)?;
    let text = book_of(alloc, &rows)?;
    if text.len() > MAX_BOOK {
        return Err(DifferenceFault::TOO_LONG);
    }
    Ok(text)
}

/// The text of the book of rows.
fn book_of(alloc: Global, rows: &[Row]) -> Result<Vec<u8>, AllocError>
    requires few { length rows.now ≤ max_differences }
    requires allowed { All IsRow rows.now }
    ensures { IfOk result (λ text. text.items ≡ book_text rows.now) }
{
    let mut text = Vec::new(alloc);
    let mut running = None;
    let mut number = 1;
    for row in rows {
        if !stands_at(&running, &row.from) {
            write_setup(&mut text, number, &row.from)?;
            running = Some(row.from);
            number += 1;
        }
        write_sight(&mut text, number, row)?;
        number += 1;
    }
    Ok(text)
}

/// Whether the running setup is that of a station.
fn stands_at(running: &Option<Name>, station: &Name) -> bool
    ensures { result ≡ stands_at running.now station.now }
{
    match running {
        Some(running) => *running == *station,
        None => false,
    }
}
