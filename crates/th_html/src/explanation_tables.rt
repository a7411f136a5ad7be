//! The table of explanations.
ghost use Rattle.std.specs.Prelude.{◌≡◌, ◌++◌, OnOk, option_map};
ghost use Rattle.std.specs.List.{flat_map};
ghost use Rattle.th_html.specs.Tables.{above_low, ends_found, explanation_head, explanation_row, explanation_table, given_of, high_of, low_of, number_cells, place_found, value_cells};

use crate::cells::{write_number_cell, write_optional_height, write_words_cell};
use crate::lengths::write_sized;
use crate::places::write_place;
use crate::tables::{first_rows, write_close, write_left_out, write_open, write_row_open};
use crate::texts::{write_escaped, write_number};
use crate::words::number_words;
use gsi_word::Name;
use std::alloc::AllocError;
use th_columns::Page;
use th_explain_texts::{Row, Values};

/// Writes the table of explanations.
#[tactic(auto, unfolding(crate::specs::Tables::explanation_table))]
pub fn write_explanations(page: &mut Page, rows: &[Row]) -> Result<(), AllocError>
    ensures { OnOk result (page.new ≡ page.old ++ explanation_table rows.now) }
{
    write_open(page, head())?;
    write_rows(page, first_rows(rows))?;
    write_close(page)?;
    write_left_out(page, rows.len())
}

/// The names of the columns.
#[tactic(auto, unfolding(crate::specs::Tables::explanation_head))]
fn head() -> &'static [u8]
    ensures { result.now ≡ explanation_head }
{
    b"<td>No<td>Place<th>What<th>At<td>Given<td>Proposed<td>up to<td>Cost left<td>Marks left"
}

/// Writes the row of each explanation.
fn write_rows(page: &mut Page, rows: &[Row]) -> Result<(), AllocError>
    ensures { OnOk result (page.new ≡ page.old ++ flat_map explanation_row rows.now) }
{
    for row in rows {
        write_row(page, row)?;
    }
    Ok(())
}

/// Writes the row of an explanation.
#[tactic(auto, unfolding(crate::specs::Tables::explanation_row))]
fn write_row(page: &mut Page, row: &Row) -> Result<(), AllocError>
    ensures { OnOk result (page.new ≡ page.old ++ explanation_row row.now) }
{
    write_row_open(page, row.number == 1)?;
    write_number_cells(page, row)?;
    write_value_cells(page, row)?;
    page.add(b"\n")
}

/// Writes which number it is.
#[tactic(auto, unfolding(crate::specs::Tables::number_cells))]
fn write_number_cells(page: &mut Page, row: &Row) -> Result<(), AllocError>
    ensures { OnOk result (page.new ≡ page.old ++ number_cells row.now) }
{
    write_number_cell(page, u64::from(row.number))?;
    page.add(b"<td>")?;
    write_place_found(page, row.book, row.line)?;
    write_words_cell(page, number_words(&row.kind))?;
    page.add(b"<th>")?;
    write_ends_found(page, &row.from, &row.to)
}

/// Writes where a number is.
fn write_place_found(
    page: &mut Page,
    book: Option<u32>,
    line: Option<u32>,
) -> Result<(), AllocError>
    ensures { OnOk result (page.new ≡ page.old ++ place_found book line) }
{
    match (book, line) {
        (None, _) => page.add(b"-"),
        (Some(book), None) => write_number(page, u64::from(book)),
        (Some(book), Some(line)) => write_place(page, book, line),
    }
}

/// Writes the ends that a number has.
fn write_ends_found(
    page: &mut Page,
    from: &Option<Name>,
    to: &Option<Name>,
) -> Result<(), AllocError>
    ensures { OnOk result (page.new ≡ page.old ++ ends_found from.now to.now) }
{
    match (from, to) {
        (None, _) => Ok(()),
        (Some(from), None) => write_escaped(page, from.as_bytes()),
        (Some(from), Some(to)) => {
            write_escaped(page, from.as_bytes())?;
            page.add(b" to ")?;
            write_escaped(page, to.as_bytes())
        }
    }
}

/// Writes the values of a number, and what it leaves.
#[tactic(auto, unfolding(crate::specs::Tables::value_cells))]
fn write_value_cells(page: &mut Page, row: &Row) -> Result<(), AllocError>
    ensures { OnOk result (page.new ≡ page.old ++ value_cells row.now) }
{
    write_optional_height(page, row.values.map(|values| values.given))?;
    write_optional_height(page, row.values.map(|values| values.low))?;
    write_optional_height(page, high_of(&row.values))?;
    page.add(b"<td>")?;
    write_sized(page, false, row.left)?;
    write_number_cell(page, u64::from(row.blunders))
}

/// The highest proposed value, if it is above the lowest.
fn high_of(values: &Option<Values>) -> Option<i64>
    ensures { result ≡ high_of values.now }
{
    match values {
        Some(values) if values.low < values.high => Some(values.high),
        _ => None,
    }
}
