//! The table of observations, and that of the largest residuals.
ghost use Rattle.std.specs.Prelude.{◌≡◌, ◌++◌, OnOk, decimal};
ghost use Rattle.std.specs.List.{flat_map};
ghost use Rattle.th_units.specs.Metres.{metres};
ghost use Rattle.th_review_rows.specs.Words.{number_or_dash};
ghost use Rattle.th_review_texts.specs.Reviews.{checked_columns, checked_header, checked_line, largest_line, largest_lines, observation_line, observation_lines};

use crate::largest::largest;
use crate::moves::{write_moved, write_moved_columns};
use itoa::Buffer;
use std::alloc::{AllocError, Global};
use th_columns::{Page, write_count, write_limit};
use th_report::{blunder_mark, write_end_columns, write_ends, write_place, write_place_columns};
use th_review_rows::{ObservationRow, mistake_mark, number_or_dash};
use th_units::metre_text;

/// Writes the table of the largest residuals, below how many they are and the limit of blunders,
/// which is in units of 10 nm.
#[tactic(auto, unfolding(crate::specs::Reviews::largest_lines))]
pub(crate) fn write_largest(
    alloc: Global,
    page: &mut Page,
    observations: &[ObservationRow],
    limit: i64,
) -> Result<(), AllocError>
    ensures { OnOk result (page.new ≡ page.old ++ largest_lines limit observations.now) }
{
    let rows = largest(alloc, observations)?;
    write_count(page, b"largest", rows.len())?;
    write_limit(page, limit)?;
    write_header(page)?;
    page.end_line()?;
    write_largest_rows(page, &rows, limit)
}

/// Writes the line of each of the largest residuals.
fn write_largest_rows(
    page: &mut Page,
    rows: &[ObservationRow],
    limit: i64,
) -> Result<(), AllocError>
    ensures { OnOk result (page.new ≡ page.old ++ flat_map (largest_line limit) rows.now) }
{
    for row in rows {
        write_largest_row(page, row, limit)?;
    }
    Ok(())
}

/// Writes the line of one of the largest residuals.
#[tactic(auto, unfolding(crate::specs::Reviews::largest_line))]
fn write_largest_row(page: &mut Page, row: &ObservationRow, limit: i64) -> Result<(), AllocError>
    ensures { OnOk result (page.new ≡ page.old ++ largest_line limit row.now) }
{
    write_checked(page, row)?;
    page.add(blunder_mark(row.residual, limit))?;
    page.end_line()
}

/// Writes the table of observations.
#[tactic(auto, unfolding(crate::specs::Reviews::observation_lines))]
pub(crate) fn write_observations(
    page: &mut Page,
    observations: &[ObservationRow],
) -> Result<(), AllocError>
    ensures { OnOk result (page.new ≡ page.old ++ observation_lines observations.now) }
{
    write_header(page)?;
    write_moved_columns(page, b"MOVES", b"BLAMES", b"")?;
    write_rows(page, observations)
}

/// Writes the line of each observation.
fn write_rows(page: &mut Page, observations: &[ObservationRow]) -> Result<(), AllocError>
    ensures { OnOk result (page.new ≡ page.old ++ flat_map observation_line observations.now) }
{
    for row in observations {
        write_observation(page, row)?;
    }
    Ok(())
}

/// Writes the line of an observation.
#[tactic(auto, unfolding(crate::specs::Reviews::observation_line))]
fn write_observation(page: &mut Page, row: &ObservationRow) -> Result<(), AllocError>
    ensures { OnOk result (page.new ≡ page.old ++ observation_line row.now) }
{
    write_checked(page, row)?;
    write_moved(page, row.blame, mistake_mark(&row.mistake))
}

/// Writes the names of the columns that both tables have.
#[tactic(auto, unfolding(crate::specs::Reviews::checked_header))]
fn write_header(page: &mut Page) -> Result<(), AllocError>
    ensures { OnOk result (page.new ≡ page.old ++ checked_header) }
{
    write_place_columns(page, b"NO", b"BK", b"LINE")?;
    write_end_columns(page, b"FROM", b"TO")?;
    write_columns(page, b"WT", b"RESIDUAL", b"CONTROL")
}

/// Writes what both tables have of an observation's line.
#[tactic(auto, unfolding(crate::specs::Reviews::checked_line))]
fn write_checked(page: &mut Page, row: &ObservationRow) -> Result<(), AllocError>
    ensures { OnOk result (page.new ≡ page.old ++ checked_line row.now) }
{
    write_place(page, u64::from(row.number), &row.observation)?;
    write_ends(page, &row.observation)?;
    write_values(page, row)
}

/// Writes an observation's weight, residual and control.
fn write_values(page: &mut Page, row: &ObservationRow) -> Result<(), AllocError>
    ensures { OnOk result (page.new ≡ page.old ++ checked_columns (decimal row.now.weight)
        (metres row.now.residual) (number_or_dash row.now.control)) }
{
    let mut weight = Buffer::new();
    let residual = metre_text(row.residual);
    let mut control = Buffer::new();
    write_columns(
        page,
        weight.format(row.weight).as_bytes(),
        residual.as_bytes(),
        number_or_dash(&mut control, row.control),
    )
}

/// Writes the columns of a weight, a residual and a control.
#[tactic(auto, unfolding(crate::specs::Reviews::checked_columns))]
fn write_columns(
    page: &mut Page,
    weight: &[u8],
    residual: &[u8],
    control: &[u8],
) -> Result<(), AllocError>
    ensures { OnOk result (page.new
        ≡ page.old ++ checked_columns weight.now residual.now control.now) }
{
    page.right(4, weight)?;
    page.gap_right(20, residual)?;
    page.gap_right(8, control)
}
