//! The table of sights.
ghost use Rattle.std.specs.Prelude.{◌≡◌, ◌++◌, OnOk, codes};
ghost use Rattle.std.specs.List.{flat_map};
ghost use Rattle.th_html.specs.Tables.{found_cells, sight_cells, sight_head, sight_row, sight_table};

use crate::cells::{
    write_height_cell, write_name_cell, write_number_cell, write_optional_cell, write_place_cell,
    write_signed_cell, write_words_cell,
};
use crate::tables::{first_rows, write_close, write_left_out, write_open};
use std::alloc::AllocError;
use th_columns::Page;
use th_review_rows::{ObservationRow, mistake_word};

/// Writes the table of some sights.
#[tactic(auto, unfolding(crate::specs::Tables::sight_table))]
pub fn write_sights(page: &mut Page, rows: &[ObservationRow]) -> Result<(), AllocError>
    ensures { OnOk result (page.new ≡ page.old ++ sight_table rows.now) }
{
    write_open(page, head())?;
    write_rows(page, first_rows(rows))?;
    write_close(page)?;
    write_left_out(page, rows.len())
}

/// The names of the columns.
#[tactic(auto, unfolding(crate::specs::Tables::sight_head))]
fn head() -> &'static [u8]
    ensures { result.now ≡ sight_head }
{
    b"<td>Place<th>From<th>To<td>Observed<td>Residual<td>Weight<td>Control<th>A mistake"
}

/// Writes the row of each sight.
fn write_rows(page: &mut Page, rows: &[ObservationRow]) -> Result<(), AllocError>
    ensures { OnOk result (page.new ≡ page.old ++ flat_map sight_row rows.now) }
{
    for row in rows {
        write_row(page, row)?;
    }
    Ok(())
}

/// Writes the row of a sight.
#[tactic(auto, unfolding(crate::specs::Tables::sight_row))]
fn write_row(page: &mut Page, row: &ObservationRow) -> Result<(), AllocError>
    ensures { OnOk result (page.new ≡ page.old ++ sight_row row.now) }
{
    page.add(b"<tr>")?;
    write_sight_cells(page, row)?;
    write_found_cells(page, row)?;
    write_words_cell(page, mistake_word(&row.mistake))?;
    page.add(b"\n")
}

/// Writes the cells that tell which sight it is.
#[tactic(auto, unfolding(crate::specs::Tables::sight_cells))]
pub fn write_sight_cells(page: &mut Page, row: &ObservationRow) -> Result<(), AllocError>
    ensures { OnOk result (page.new ≡ page.old ++ sight_cells row.now) }
{
    write_place_cell(page, row.observation.book, row.observation.line)?;
    write_name_cell(page, &row.observation.station)?;
    write_name_cell(page, &row.observation.target)
}

/// Writes the cells of what was found of a sight: its difference, residual, weight and control.
#[tactic(auto, unfolding(crate::specs::Tables::found_cells))]
pub fn write_found_cells(page: &mut Page, row: &ObservationRow) -> Result<(), AllocError>
    ensures { OnOk result (page.new ≡ page.old ++ found_cells row.now) }
{
    write_height_cell(page, row.observation.difference())?;
    write_signed_cell(page, row.residual)?;
    write_number_cell(page, u64::from(row.weight))?;
    write_optional_cell(page, row.control)
}
