//! The table of entries.
ghost use Rattle.std.specs.Prelude.{◌≡◌, ◌++◌, OnOk};
ghost use Rattle.std.specs.List.{flat_map};
ghost use Rattle.th_html.specs.Tables.{entry_cells, entry_head, entry_row, entry_table};

use crate::cells::{
    write_height_cell, write_name_cell, write_number_cell, write_place_cell, write_words_cell,
};
use crate::tables::{first_rows, write_close, write_left_out, write_open};
use crate::words::entry_words;
use std::alloc::AllocError;
use th_columns::Page;
use th_review_rows::{EntryRow, shared_mistake_word};

/// Writes the table of some entries.
#[tactic(auto, unfolding(crate::specs::Tables::entry_table))]
pub fn write_entries(page: &mut Page, rows: &[EntryRow]) -> Result<(), AllocError>
    ensures { OnOk result (page.new ≡ page.old ++ entry_table rows.now) }
{
    write_open(page, head())?;
    write_rows(page, first_rows(rows))?;
    write_close(page)?;
    write_left_out(page, rows.len())
}

/// The names of the columns.
#[tactic(auto, unfolding(crate::specs::Tables::entry_head))]
fn head() -> &'static [u8]
    ensures { result.now ≡ entry_head }
{
    b"<td>Place<th>Height of<th>At<td>Given<td>Sights<td>Weight<th>A mistake"
}

/// Writes the row of each entry.
fn write_rows(page: &mut Page, rows: &[EntryRow]) -> Result<(), AllocError>
    ensures { OnOk result (page.new ≡ page.old ++ flat_map entry_row rows.now) }
{
    for row in rows {
        write_row(page, row)?;
    }
    Ok(())
}

/// Writes the row of an entry.
#[tactic(auto, unfolding(crate::specs::Tables::entry_row))]
fn write_row(page: &mut Page, row: &EntryRow) -> Result<(), AllocError>
    ensures { OnOk result (page.new ≡ page.old ++ entry_row row.now) }
{
    page.add(b"<tr>")?;
    write_entry_cells(page, row)?;
    write_height_cell(page, row.entry.length.get())?;
    write_number_cell(page, u64::from(row.entry.sights))?;
    write_number_cell(page, u64::from(row.weight))?;
    write_words_cell(page, shared_mistake_word(&row.mistake))?;
    page.add(b"\n")
}

/// Writes which entry it is.
#[tactic(auto, unfolding(crate::specs::Tables::entry_cells))]
fn write_entry_cells(page: &mut Page, row: &EntryRow) -> Result<(), AllocError>
    ensures { OnOk result (page.new ≡ page.old ++ entry_cells row.now) }
{
    write_place_cell(page, row.entry.book, row.entry.line)?;
    write_words_cell(page, entry_words(&row.entry.kind))?;
    write_name_cell(page, &row.entry.station)
}
