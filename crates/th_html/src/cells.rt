//! The cells of a table's row.
ghost use Rattle.std.specs.Prelude.{◌≡◌, ◌++◌, OnOk};
ghost use Rattle.th_html.specs.Cells.{height_cell, name_cell, number_cell, optional_cell, optional_height_cell, place_cell, signed_cell, words_cell};

use crate::lengths::{write_height, write_signed};
use crate::places::write_place;
use crate::texts::{write_escaped, write_number};
use gsi_word::Name;
use std::alloc::AllocError;
use th_columns::Page;

/// Writes the cell of a number.
pub(crate) fn write_number_cell(page: &mut Page, number: u64) -> Result<(), AllocError>
    ensures { OnOk result (page.new ≡ page.old ++ number_cell number) }
{
    page.add(b"<td>")?;
    write_number(page, number)
}

/// Writes the cell of a number that may be missing.
pub(crate) fn write_optional_cell(page: &mut Page, number: Option<u32>) -> Result<(), AllocError>
    ensures { OnOk result (page.new ≡ page.old ++ optional_cell number) }
{
    match number {
        Some(number) => write_number_cell(page, u64::from(number)),
        None => page.add(b"<td>"),
    }
}

/// Writes the cell of a length.
pub(crate) fn write_height_cell(page: &mut Page, length: i64) -> Result<(), AllocError>
    ensures { OnOk result (page.new ≡ page.old ++ height_cell length) }
{
    page.add(b"<td>")?;
    write_height(page, length)
}

/// Writes the cell of a length that may be missing.
pub(crate) fn write_optional_height(page: &mut Page, length: Option<i64>) -> Result<(), AllocError>
    ensures { OnOk result (page.new ≡ page.old ++ optional_height_cell length) }
{
    match length {
        Some(length) => write_height_cell(page, length),
        None => page.add(b"<td>"),
    }
}

/// Writes the cell of a length with a sign.
pub(crate) fn write_signed_cell(page: &mut Page, length: i64) -> Result<(), AllocError>
    ensures { OnOk result (page.new ≡ page.old ++ signed_cell length) }
{
    page.add(b"<td>")?;
    write_signed(page, length)
}

/// Writes the cell of a place.
pub(crate) fn write_place_cell(page: &mut Page, book: u32, line: u32) -> Result<(), AllocError>
    ensures { OnOk result (page.new ≡ page.old ++ place_cell book line) }
{
    page.add(b"<td>")?;
    write_place(page, book, line)
}

/// Writes the cell of a name.
pub(crate) fn write_name_cell(page: &mut Page, name: &Name) -> Result<(), AllocError>
    ensures { OnOk result (page.new ≡ page.old ++ name_cell name.now) }
{
    page.add(b"<th>")?;
    write_escaped(page, name.as_bytes())
}

/// Writes the cell of words, which may have markup.
pub(crate) fn write_words_cell(page: &mut Page, words: &[u8]) -> Result<(), AllocError>
    ensures { OnOk result (page.new ≡ page.old ++ words_cell words.now) }
{
    page.add(b"<th>")?;
    page.add(words)
}
