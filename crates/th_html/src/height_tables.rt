//! The tables of heights.
ghost use Rattle.std.specs.Prelude.{◌≡◌, ◌++◌, OnOk};
ghost use Rattle.std.specs.List.{enumerate_from, flat_map};
ghost use Rattle.th_html.specs.Heights.{above, break_at, height_tables, heights_open, heights_start, mended_cell, mended_head, moved_row, numbered_height, row_of, staying_row, stays_cell, strength_cell, struck_cells, tables_of};

use crate::cells::{write_height_cell, write_name_cell, write_number_cell, write_optional_height};
use crate::lengths::{write_height, write_span};
use crate::shown::{ShownPoint, moved_count};
use crate::tables::{write_close, write_head_end, write_row_open};
use std::alloc::AllocError;
use th_answer::Moved;
use th_columns::Page;
use th_review_rows::PointRow;

/// How many points a table has.
const BLOCK: usize = 20;

/// Writes the heights of all points, in tables that stand side by side where there is room. Those that are
/// moved are struck out, with others beside them.
pub fn write_heights(page: &mut Page, points: &[ShownPoint]) -> Result<(), AllocError>
    ensures { OnOk result (page.new ≡ page.old ++ height_tables points.now) }
{
    write_tables(page, points, moved_count(points) > 0)
}

/// Writes the tables; whether some points are moved.
#[tactic(auto, unfolding(crate::specs::Heights::tables_of))]
fn write_tables(page: &mut Page, points: &[ShownPoint], are_moved: bool) -> Result<(), AllocError>
    ensures { OnOk result (page.new ≡ page.old ++ tables_of are_moved points.now) }
{
    write_open(page, are_moved)?;
    write_rows(page, points, are_moved)?;
    write_close(page)
}

/// Writes the beginning of a table.
#[tactic(auto, unfolding(crate::specs::Heights::heights_open))]
fn write_open(page: &mut Page, are_moved: bool) -> Result<(), AllocError>
    ensures { OnOk result (page.new ≡ page.old ++ heights_open are_moved) }
{
    write_start(page)?;
    page.add(mended_head(are_moved))?;
    write_head_end(page)
}

/// Writes what is before the head of the last column.
#[tactic(auto, unfolding(crate::specs::Heights::heights_start))]
fn write_start(page: &mut Page) -> Result<(), AllocError>
    ensures { OnOk result (page.new ≡ page.old ++ heights_start) }
{
    page.add(b"<div class=\"col\"><table>\n<thead><tr><th>Point<td>Height<td>up to<td>Strength")
}

/// The head of the last column, which is there if points are moved.
fn mended_head(are_moved: bool) -> &'static [u8]
    ensures { result.now ≡ mended_head are_moved }
{
    if are_moved { b"<td>If mended" } else { b"" }
}

/// Writes the row of each point, and what is between tables.
fn write_rows(page: &mut Page, points: &[ShownPoint], are_moved: bool) -> Result<(), AllocError>
    ensures { OnOk result (page.new
        ≡ page.old ++ flat_map (numbered_height are_moved) (enumerate_from 0 points.now)) }
{
    for (k, point) in points.iter().enumerate() {
        write_numbered(page, k, point, are_moved)?;
    }
    Ok(())
}

/// Writes the row of point `k`, from 0.
#[tactic(auto, unfolding(crate::specs::Heights::numbered_height))]
fn write_numbered(
    page: &mut Page,
    k: usize,
    point: &ShownPoint,
    are_moved: bool,
) -> Result<(), AllocError>
    ensures { OnOk result (page.new ≡ page.old ++ numbered_height are_moved (k, point.now)) }
{
    write_break(page, k, are_moved)?;
    write_row(page, &point.row, &point.moved, are_moved)
}

/// Writes the end of a table and the beginning of the next one, if one begins at point `k`.
fn write_break(page: &mut Page, k: usize, are_moved: bool) -> Result<(), AllocError>
    ensures { OnOk result (page.new ≡ page.old ++ break_at are_moved k) }
{
    if 0 < k && k % BLOCK == 0 {
        write_close(page)?;
        write_open(page, are_moved)
    } else {
        Ok(())
    }
}

/// Writes the row of a point.
fn write_row(
    page: &mut Page,
    row: &PointRow,
    moved: &Option<Moved>,
    are_moved: bool,
) -> Result<(), AllocError>
    ensures { OnOk result (page.new ≡ page.old ++ row_of are_moved row.now moved.now) }
{
    match moved {
        Some(moved) => write_moved(page, row, moved),
        None => write_staying(page, row, are_moved),
    }
}

/// Writes the row of a point that stays.
#[tactic(auto, unfolding(crate::specs::Heights::staying_row))]
fn write_staying(page: &mut Page, row: &PointRow, are_moved: bool) -> Result<(), AllocError>
    ensures { OnOk result (page.new ≡ page.old ++ staying_row are_moved row.now) }
{
    write_row_open(page, false)?;
    write_name_cell(page, &row.name)?;
    write_height_cell(page, row.low)?;
    write_optional_height(page, above(row))?;
    write_strength(page, row.strength)?;
    page.add(stays_cell(are_moved))?;
    page.add(b"\n")
}

/// The last cell of a point that stays.
fn stays_cell(are_moved: bool) -> &'static [u8]
    ensures { result.now ≡ stays_cell are_moved }
{
    if are_moved { b"<td>" } else { b"" }
}

/// The highest best height of a point, if it is above the lowest.
fn above(row: &PointRow) -> Option<i64>
    ensures { result ≡ above row.now }
{
    if row.low < row.high {
        Some(row.high)
    } else {
        None
    }
}

/// Writes the row of a point that is moved.
#[tactic(auto, unfolding(crate::specs::Heights::moved_row))]
fn write_moved(page: &mut Page, row: &PointRow, moved: &Moved) -> Result<(), AllocError>
    ensures { OnOk result (page.new ≡ page.old ++ moved_row row.now moved.now) }
{
    write_row_open(page, true)?;
    write_name_cell(page, &row.name)?;
    write_struck(page, row.low)?;
    write_strength(page, row.strength)?;
    write_mended(page, moved)?;
    page.add(b"\n")
}

/// Writes a height that is struck out, and an empty cell.
#[tactic(auto, unfolding(crate::specs::Heights::struck_cells))]
fn write_struck(page: &mut Page, height: i64) -> Result<(), AllocError>
    ensures { OnOk result (page.new ≡ page.old ++ struck_cells height) }
{
    page.add(b"<td><s>")?;
    write_height(page, height)?;
    page.add(b"</s><td>")
}

/// Writes the heights in the place of one that is struck out.
#[tactic(auto, unfolding(crate::specs::Heights::mended_cell))]
fn write_mended(page: &mut Page, moved: &Moved) -> Result<(), AllocError>
    ensures { OnOk result (page.new ≡ page.old ++ mended_cell moved.now) }
{
    page.add(b"<td><b>")?;
    write_span(page, moved.low, moved.high)?;
    page.add(b"</b>")
}

/// Writes the cell of a strength; a benchmark has none.
fn write_strength(page: &mut Page, strength: Option<u32>) -> Result<(), AllocError>
    ensures { OnOk result (page.new ≡ page.old ++ strength_cell strength) }
{
    match strength {
        Some(strength) => write_number_cell(page, u64::from(strength)),
        None => page.add(b"<td>benchmark"),
    }
}
