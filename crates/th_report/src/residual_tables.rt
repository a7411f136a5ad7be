//! The table of residuals, and the blunders among them.
ghost use Rattle.std.specs.Prelude.{◌≡◌, ◌<◌, ◌≤◌, ◌++◌, All, IfOk, OnOk, codes, decimal, length, unsigned_abs};
ghost use Rattle.std.specs.List.{flat_map};
ghost use Rattle.th_network.specs.Limits.{max_observations};
ghost use Rattle.th_report.specs.Reports.{blunder_mark, blunder_rows, end_columns, ends_of, line_in, place_columns, place_of, residual_columns, residual_header, residual_line, residual_lines, residual_of, residual_rows};
ghost use Rattle.th_columns.specs.Labels.{label_line};
ghost use Rattle.th_blunders.specs.Blunders.{blunders, is_blunder};
ghost use Rattle.th_blunders.specs.Residuals.{residual_limit};

use itoa::Buffer;
use std::alloc::{AllocError, Global};
use th_blunders::{blunders, is_blunder};
use th_columns::{LINE, Page, write_count};
use th_network::Network;
use th_observations::Observation;
use th_units::metre_text;

/// Writes the table of residuals, which are listed in the order of the observations, and gives the
/// lines of those that are blunders.
#[tactic(auto, unfolding(crate::specs::Reports::residual_lines))]
pub(crate) fn write_residuals(
    alloc: Global,
    page: &mut Page,
    network: &Network,
    residuals: &[i64],
    limit: i64,
) -> Result<Page, AllocError>
    requires few { length residuals.now ≤ max_observations }
    requires each { length residuals.now ≡ length network.now.observations }
    requires small { All (λ residual. unsigned_abs residual < residual_limit) residuals.now }
    ensures table { OnOk result (page.new ≡ page.old ++ residual_lines network.now residuals.now limit) }
    ensures blunders { IfOk result (λ lines. lines ≡ flat_map (line_in network.now limit)
        (blunder_rows network.now residuals.now limit)) }
{
    write_header(page)?;
    let mut blunders = Page::with_room(alloc, residuals.len() * LINE)?;
    write_rows(alloc, page, &mut blunders, network, residuals, limit)?;
    Ok(blunders)
}

/// Writes the line of each observation, and those of the blunders to a page of their own too.
fn write_rows(
    alloc: Global,
    page: &mut Page,
    blunders: &mut Page,
    network: &Network,
    residuals: &[i64],
    limit: i64,
) -> Result<(), AllocError>
    requires each { length residuals.now ≡ length network.now.observations }
    requires small { All (λ residual. unsigned_abs residual < residual_limit) residuals.now }
    ensures table { OnOk result (page.new ≡ page.old ++ flat_map (line_in network.now limit)
        (residual_rows network.now residuals.now)) }
    ensures blunders { OnOk result (blunders.new ≡ blunders.old ++ flat_map (line_in network.now limit)
        (blunder_rows network.now residuals.now limit)) }
{
    let mut line = Page::new(alloc);
    for (i, o) in network.observations().iter().enumerate() {
        line.clear();
        write_residual(
            &mut line,
            i as u64 + 1,
            o,
            network.weight(i),
            residuals[i],
            limit,
        )?;
        page.add(line.as_bytes())?;
        if is_blunder(residuals[i], limit) {
            blunders.add(line.as_bytes())?;
        }
    }
    Ok(())
}

/// Writes the count of the blunders, and their lines.
pub(crate) fn write_blunders(
    alloc: Global,
    page: &mut Page,
    residuals: &[i64],
    limit: i64,
    lines: Page,
) -> Result<(), AllocError>
    requires few { length residuals.now ≤ max_observations }
    requires small { All (λ residual. unsigned_abs residual < residual_limit) residuals.now }
    ensures { OnOk result (page.new ≡ page.old
        ++ label_line (codes "blunders") (decimal (length (blunders limit residuals.now))) ++ lines) }
{
    let numbers = blunders(alloc, residuals, limit)?;
    write_count(page, b"blunders", numbers.len())?;
    page.add(lines.as_bytes())
}

/// Writes the names of the columns.
#[tactic(auto, unfolding(crate::specs::Reports::residual_header))]
fn write_header(page: &mut Page) -> Result<(), AllocError>
    ensures { OnOk result (page.new ≡ page.old ++ residual_header) }
{
    write_place_columns(page, b"NO", b"BK", b"LINE")?;
    write_end_columns(page, b"FROM", b"TO")?;
    write_residual_columns(page, b"WT", b"RESIDUAL", b"")
}

/// Writes the line of an observation: which it is, its ends, and what is left of it.
#[tactic(auto, unfolding(crate::specs::Reports::residual_line))]
fn write_residual(
    page: &mut Page,
    number: u64,
    o: &Observation,
    weight: u32,
    residual: i64,
    limit: i64,
) -> Result<(), AllocError>
    ensures { OnOk result (page.new ≡ page.old ++ residual_line limit number o.now weight residual) }
{
    write_place(page, number, o)?;
    write_ends(page, o)?;
    write_left(page, weight, residual, limit)
}

/// Writes an observation's number, from 1, its book and its line there.
#[tactic(auto, unfolding(crate::specs::Reports::place_of))]
pub fn write_place(page: &mut Page, number: u64, o: &Observation) -> Result<(), AllocError>
    ensures { OnOk result (page.new ≡ page.old ++ place_of number o.now) }
{
    let mut count = Buffer::new();
    let mut book = Buffer::new();
    let mut line = Buffer::new();
    write_place_columns(
        page,
        count.format(number).as_bytes(),
        book.format(o.book).as_bytes(),
        line.format(o.line).as_bytes(),
    )
}

/// Writes an observation's ends.
#[tactic(auto, unfolding(crate::specs::Reports::ends_of))]
pub fn write_ends(page: &mut Page, o: &Observation) -> Result<(), AllocError>
    ensures { OnOk result (page.new ≡ page.old ++ ends_of o.now) }
{
    write_end_columns(page, o.station.as_bytes(), o.target.as_bytes())
}

/// Writes a weight and a residual, with a mark where that is a blunder.
#[tactic(auto, unfolding(crate::specs::Reports::residual_of))]
fn write_left(page: &mut Page, weight: u32, residual: i64, limit: i64) -> Result<(), AllocError>
    ensures { OnOk result (page.new ≡ page.old ++ residual_of limit weight residual) }
{
    let mut digits = Buffer::new();
    let metres = metre_text(residual);
    write_residual_columns(
        page,
        digits.format(weight).as_bytes(),
        metres.as_bytes(),
        blunder_mark(residual, limit),
    )
}

/// The mark of a residual, which shows a blunder.
pub fn blunder_mark(residual: i64, limit: i64) -> &'static [u8]
    ensures { result.now ≡ blunder_mark (is_blunder limit residual) }
{
    if is_blunder(residual, limit) {
        b"  *"
    } else {
        b""
    }
}

/// Writes the columns that say which observation it is.
#[tactic(auto, unfolding(crate::specs::Reports::place_columns))]
pub fn write_place_columns(
    page: &mut Page,
    number: &[u8],
    book: &[u8],
    line: &[u8],
) -> Result<(), AllocError>
    ensures { OnOk result (page.new ≡ page.old ++ place_columns number.now book.now line.now) }
{
    page.right(5, number)?;
    page.gap_right(2, book)?;
    page.gap_right(8, line)?;
    page.gap()
}

/// Writes the columns of the ends.
#[tactic(auto, unfolding(crate::specs::Reports::end_columns))]
pub fn write_end_columns(page: &mut Page, station: &[u8], target: &[u8]) -> Result<(), AllocError>
    ensures { OnOk result (page.new ≡ page.old ++ end_columns station.now target.now) }
{
    page.left_gap(16, station)?;
    page.left_gap(16, target)
}

/// Writes the last columns, of what is left of an observation.
#[tactic(auto, unfolding(crate::specs::Reports::residual_columns))]
fn write_residual_columns(
    page: &mut Page,
    weight: &[u8],
    residual: &[u8],
    mark: &[u8],
) -> Result<(), AllocError>
    ensures { OnOk result (page.new ≡ page.old ++ residual_columns weight.now residual.now mark.now) }
{
    page.right(4, weight)?;
    page.gap_right(20, residual)?;
    page.add(mark)?;
    page.end_line()
}
