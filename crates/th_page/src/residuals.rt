//! The section of residuals.
ghost use Rattle.std.specs.Prelude.{◌≡◌, ◌++◌, IfOk, OnOk, filter};
ghost use Rattle.std.specs.List.{flat_map};
ghost use Rattle.th_page.specs.Residuals.{all_listed, first_told, group_words, is_told, listed_sights, residual_head, residual_row, residual_section, residual_table};

use crate::fixed::{write_details_end, write_residual_start, write_section_end};
use std::alloc::{AllocError, Global};
use th_answer::Group;
use th_columns::Page;
use th_html::{
    first_rows, write_close, write_found_cells, write_left_out, write_number, write_open,
    write_sight_cells,
};
use th_picture::{DrawnSight, is_in, write_strip};

/// All sights are listed if there are at most so many.
const MOST_LISTED: usize = 2_000;

/// Writes the section of residuals, if there are sights.
#[tactic(auto, unfolding(crate::specs::Residuals::residual_section))]
pub(crate) fn write_residual_section(
    alloc: Global,
    page: &mut Page,
    sights: &[DrawnSight],
    limit: i64,
) -> Result<(), AllocError>
    ensures { OnOk result (page.new ≡ page.old ++ residual_section sights.now limit) }
{
    if sights.is_empty() {
        return Ok(());
    }
    let told = told_sights(alloc, sights)?;
    write_residual_start(page)?;
    write_strip(page, sights, limit)?;
    page.add(b"</div>\n")?;
    write_told(page, &told)?;
    write_listed(page, sights)?;
    write_section_end(page)
}

/// The sights of which the page says something.
fn told_sights(alloc: Global, sights: &[DrawnSight]) -> Result<Vec<DrawnSight>, AllocError>
    ensures { IfOk result (λ told. told.items ≡ filter is_told sights.now) }
{
    sights
        .iter()
        .copied()
        .filter(|sight| !is_in(Group::Fits, sight))
        .collect(alloc)
}

/// Writes the first of those, if there are any.
#[tactic(auto, unfolding(crate::specs::Residuals::first_told))]
fn write_told(page: &mut Page, sights: &[DrawnSight]) -> Result<(), AllocError>
    ensures { OnOk result (page.new ≡ page.old ++ first_told sights.now) }
{
    if sights.is_empty() {
        return Ok(());
    }
    write_table(page, first_rows(sights))?;
    write_left_out(page, sights.len())
}

/// Writes a table of some sights.
#[tactic(auto, unfolding(crate::specs::Residuals::residual_table))]
fn write_table(page: &mut Page, sights: &[DrawnSight]) -> Result<(), AllocError>
    ensures { OnOk result (page.new ≡ page.old ++ residual_table sights.now) }
{
    write_open(page, head())?;
    write_rows(page, sights)?;
    write_close(page)
}

/// The names of the columns.
#[tactic(auto, unfolding(crate::specs::Residuals::residual_head))]
fn head() -> &'static [u8]
    ensures { result.now ≡ residual_head }
{
    b"<td>Place<th>From<th>To<td>Observed<td>Residual<td>Weight<td>Control<th>"
}

/// Writes the row of each sight.
fn write_rows(page: &mut Page, sights: &[DrawnSight]) -> Result<(), AllocError>
    ensures { OnOk result (page.new ≡ page.old ++ flat_map residual_row sights.now) }
{
    for sight in sights {
        write_row(page, sight)?;
    }
    Ok(())
}

/// Writes the row of a sight.
#[tactic(auto, unfolding(crate::specs::Residuals::residual_row))]
fn write_row(page: &mut Page, sight: &DrawnSight) -> Result<(), AllocError>
    ensures { OnOk result (page.new ≡ page.old ++ residual_row sight.now) }
{
    page.add(b"<tr>")?;
    write_sight_cells(page, &sight.row)?;
    write_found_cells(page, &sight.row)?;
    page.add(b"<th class=\"t\">")?;
    page.add(group_words(sight.group))?;
    page.add(b"\n")
}

/// What a page says of a sight, by its group.
fn group_words(group: Group) -> &'static [u8]
    ensures { result.now ≡ group_words group }
{
    match group {
        Group::Question => b"in question",
        Group::Stays => b"does not fit",
        Group::Cleared => b"fits if mended",
        Group::Unlike => b"unlike the others",
        Group::Fits => b"",
    }
}

/// Writes all sights, unless they are too many.
fn write_listed(page: &mut Page, sights: &[DrawnSight]) -> Result<(), AllocError>
    ensures { OnOk result (page.new ≡ page.old ++ listed_sights sights.now) }
{
    if sights.len() <= MOST_LISTED {
        write_all(page, sights)
    } else {
        Ok(())
    }
}

/// Writes all sights.
#[tactic(auto, unfolding(crate::specs::Residuals::all_listed))]
fn write_all(page: &mut Page, sights: &[DrawnSight]) -> Result<(), AllocError>
    ensures { OnOk result (page.new ≡ page.old ++ all_listed sights.now) }
{
    page.add(b"<details>\n<summary>All ")?;
    write_number(page, sights.len() as u64)?;
    page.add(b" sights</summary>\n")?;
    write_table(page, sights)?;
    write_details_end(page)
}
