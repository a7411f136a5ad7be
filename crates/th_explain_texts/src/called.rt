//! What sentences call numbers.
ghost use Rattle.std.specs.Prelude.{◌≡◌, ◌++◌, OnOk, codes};
ghost use Rattle.std.specs.List.{flat_map};
ghost use Rattle.th_explain_texts.specs.Called.{called, capital, is_before, joined, line_name, lines_called, or_called};
ghost use Rattle.th_explain_texts.specs.Tables.{number_field};

use crate::rows::{Kind, Row};
use crate::tables::{name_field, number_field};
use itoa::Buffer;
use std::alloc::AllocError;
use th_columns::Page;

/// Writes what sentences call the rows, joined by `or`.
#[tactic(auto, unfolding(crate::specs::Called::joined))]
pub(crate) fn write_joined(page: &mut Page, several: bool, rows: &[Row]) -> Result<(), AllocError>
    ensures { OnOk result (page.new ≡ page.old ++ joined several rows.now) }
{
    match rows.split_first() {
        Some((row, others)) => {
            write_called(page, several, row)?;
            write_others(page, several, others)
        }
        None => Ok(()),
    }
}

/// Writes what sentences call further rows.
fn write_others(page: &mut Page, several: bool, rows: &[Row]) -> Result<(), AllocError>
    ensures { OnOk result (page.new ≡ page.old ++ flat_map (or_called several) rows.now) }
{
    for row in rows {
        page.add(b" or ")?;
        write_called(page, several, row)?;
    }
    Ok(())
}

/// Writes what a sentence calls a number.
pub(crate) fn write_called(page: &mut Page, several: bool, row: &Row) -> Result<(), AllocError>
    ensures { OnOk result (page.new ≡ page.old ++ called several row.now.kind row.now) }
{
    match row.kind {
        Kind::Instrument => write_line_name(page, b"word 88 of ", several, row),
        Kind::Reflector => write_line_name(page, b"word 87 of ", several, row),
        Kind::InstrumentSince => write_line_name(page, b"word 88 since ", several, row),
        Kind::ReflectorSince => write_line_name(page, b"word 87 since ", several, row),
        Kind::Sight => write_line_name(page, b"the sight of ", several, row),
        Kind::Benchmark => write_named(page, b"the height of ", name_field(&row.from)),
        Kind::Book => write_numbered(page, b"word 33 of book ", row.book),
    }
}

/// Writes a word and a name.
fn write_named(page: &mut Page, word: &[u8], name: &[u8]) -> Result<(), AllocError>
    ensures { OnOk result (page.new ≡ page.old ++ word.now ++ name.now) }
{
    page.add(word)?;
    page.add(name)
}

/// Writes a word and a number.
pub(crate) fn write_numbered(
    page: &mut Page,
    word: &[u8],
    number: Option<u32>,
) -> Result<(), AllocError>
    ensures { OnOk result (page.new ≡ page.old ++ word.now ++ number_field number) }
{
    page.add(word)?;
    write_number(page, number)
}

/// Writes a word and the lines of a row; the book is named if there are several.
pub(crate) fn write_line_name(
    page: &mut Page,
    word: &[u8],
    several: bool,
    row: &Row,
) -> Result<(), AllocError>
    ensures { OnOk result (page.new ≡ page.old ++ word.now ++ line_name several row.now) }
{
    page.add(word)?;
    write_lines(page, row)?;
    if several {
        page.add(b" of book ")?;
        write_number(page, row.book)
    } else {
        Ok(())
    }
}

/// Writes the line of a row, or the lines of a height that later ones repeat.
fn write_lines(page: &mut Page, row: &Row) -> Result<(), AllocError>
    ensures { OnOk result (page.new ≡ page.old ++ lines_called row.now) }
{
    if is_before(row.line, row.last) {
        write_numbered(page, b"lines ", row.line)?;
        write_numbered(page, b" to ", row.last)
    } else {
        write_numbered(page, b"line ", row.line)
    }
}

/// Whether a line is before another one, where there are both.
fn is_before(line: Option<u32>, last: Option<u32>) -> bool
    ensures { result ≡ is_before line last }
{
    match (line, last) {
        (Some(line), Some(last)) => line < last,
        _ => false,
    }
}

/// Writes a number, and nothing where there is none.
pub(crate) fn write_number(page: &mut Page, number: Option<u32>) -> Result<(), AllocError>
    ensures { OnOk result (page.new ≡ page.old ++ number_field number) }
{
    let mut digits = Buffer::new();
    page.add(number_field(&mut digits, number))
}

/// Writes a text with a capital letter.
pub(crate) fn write_capital(page: &mut Page, text: &[u8]) -> Result<(), AllocError>
    ensures { OnOk result (page.new ≡ page.old ++ capital text.now) }
{
    match text.split_first() {
        Some((first, others)) => {
            page.add(&[first.to_ascii_uppercase()])?;
            page.add(others)
        }
        None => Ok(()),
    }
}
